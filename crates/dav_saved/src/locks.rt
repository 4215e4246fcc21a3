//! Locks as they are saved, and as they are read.
ghost use Rattle.std.specs.Prelude.{◌≡◌, ◌++◌, ℕ, List, IfOk, OnOk, Some, option_map, string_bytes};
ghost use Rattle.dav_core.specs.Locks.{Lock};
ghost use Rattle.dav_saved.specs.Reading.{Gives};
ghost use Rattle.dav_saved.specs.Parts.{IsWithin};
ghost use Rattle.dav_saved.specs.Locks.{place, place_at, terms, terms_of, terms_at, lock as saved_lock, lock_at, AreTerms, IsPlace, IsSaveableLock};
ghost use Rattle.dav_saved.specs.Terms.{terms_view};

use crate::errors::LoadError;
use crate::reading::{bytes_of, optional_of, string_of, text_of};
use crate::values::{flag_of, moment_of, put_flag, put_moment, put_value, value_of};
use crate::writing::{put_bytes, put_optional, put_text};
use dav_core::davpath::DavPath;
use dav_core::ls::DavLock;
use std::alloc::{AllocError, Global};

// When a lock ends, after how many seconds, whether it is shared, and whether it is of infinite
// depth.
#[derive(Clone, Copy)]
struct Terms {
    timeout_at: Option<u64>,
    timeout: Option<u64>,
    shared: bool,
    deep: bool,
}

// Adds the path of a lock: its prefix, and its bytes after that.
fn put_place(out: &mut Vec<u8>, path: &DavPath) -> Result<(), AllocError>
    ensures added { OnOk result (out.new.items
        ≡ out.old.items ++ place (path.now.prefix, path.now.bytes)) }
    ensures saveable { OnOk result (IsPlace (path.now.prefix, path.now.bytes)) }
{
    put_text(out, path.prefix())?;
    put_bytes(out, path.as_bytes())?;
    Ok(())
}

// Adds the terms of a lock.
fn put_terms(out: &mut Vec<u8>, lock: &DavLock) -> Result<(), AllocError>
    ensures added { OnOk result (out.new.items ≡ out.old.items ++ terms (terms_of lock.now)) }
    ensures saveable { OnOk result (AreTerms (terms_of lock.now)) }
{
    put_moment(out, lock.timeout_at)?;
    put_moment(out, lock.timeout)?;
    put_flag(out, lock.shared)?;
    put_flag(out, lock.deep)?;
    Ok(())
}

/// Adds a lock. After an error a part of it may have been added.
pub fn put_lock(out: &mut Vec<u8>, lock: &DavLock) -> Result<(), AllocError>
    ensures added { OnOk result (out.new.items ≡ out.old.items ++ saved_lock lock.now) }
    // It can be read again, by as many levels as its owner has.
    ensures saveable { OnOk result
        ((levels : ℕ) → IsWithin levels lock.now.owner → IsSaveableLock levels lock.now) }
{
    put_text(out, &lock.token)?;
    put_place(out, &lock.path)?;
    put_optional(out, &lock.principal)?;
    put_value(out, &lock.owner)?;
    put_terms(out, lock)?;
    Ok(())
}

// The path of a lock, and what is behind it.
#[tactic(auto, unfolding(crate::specs::Locks::place_at, crate::specs::Parts::both_at))]
fn place_of(alloc: Global, bytes: &[u8]) -> Result<(DavPath, &[u8]), LoadError>
    ensures { Gives (λ x. ((x.0.prefix, x.0.bytes), x.1.now)) result (place_at bytes.now) }
{
    let (prefix, rest) = text_of(bytes)?;
    let (path, rest) = bytes_of(rest)?;
    Ok((DavPath::from_parts(alloc, prefix, path)?, rest))
}

// The terms of a lock, and what is behind them.
#[tactic(auto, unfolding(crate::specs::Locks::terms_at, crate::specs::Parts::both_at))]
fn terms_of(bytes: &[u8]) -> Result<(Terms, &[u8]), LoadError>
    ensures { Gives (λ x. (terms_view x.0, x.1.now)) result (terms_at bytes.now) }
{
    let (timeout_at, rest) = moment_of(bytes)?;
    let (timeout, rest) = moment_of(rest)?;
    let (shared, rest) = flag_of(rest)?;
    let (deep, rest) = flag_of(rest)?;
    let terms = Terms {
        timeout_at,
        timeout,
        shared,
        deep,
    };
    Ok((terms, rest))
}

/// The lock in front of bytes, and what is behind it. `NotSaved` where no lock whose owner has at
/// most so many levels is there.
#[tactic(auto, unfolding(crate::specs::Locks::lock_at, crate::specs::Locks::lock_fields_at, crate::specs::Parts::both_at, crate::specs::Parts::as_at))]
pub fn lock_of(alloc: Global, levels: usize, bytes: &[u8]) -> Result<(DavLock, &[u8]), LoadError>
    ensures { Gives (λ x. (x.0, x.1.now)) result (lock_at levels bytes.now) }
{
    let (token, rest) = string_of(alloc, bytes)?;
    let (path, rest) = place_of(alloc, rest)?;
    let (principal, rest) = optional_of(alloc, rest)?;
    let (owner, rest) = value_of(alloc, levels, rest)?;
    let (terms, rest) = terms_of(rest)?;
    let lock = DavLock {
        token,
        path,
        principal,
        owner,
        timeout_at: terms.timeout_at,
        timeout: terms.timeout,
        shared: terms.shared,
        deep: terms.deep,
    };
    Ok((lock, rest))
}
