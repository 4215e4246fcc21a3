//! Write locks, and what a list of them does for its callers (RFC 4918, sections 6 and 7).
#[cfg(test)]
mod tests;

use crate::davpath::DavPath;
use crate::element::Element;
use crate::errors::NoMemory;
use std::alloc::Global;
use std::marker::Model;
use thiserror::Error;

/// A write lock.
#[derive(Debug, Drop)]
pub struct DavLock {
    /// The token, by which clients name this lock; two locks of one list may have the same token.
    pub token: String,
    /// The path that it is on.
    pub path: DavPath,
    /// The principal whose lock it is.
    pub principal: Option<String>,
    /// The element in which its owner describes itself (RFC 4918, section 14.17).
    pub owner: Option<Element>,
    /// When it ends, in seconds since 1970; without a moment it never ends.
    pub timeout_at: Option<u64>,
    /// After how many seconds it was to end when it was last granted or refreshed.
    pub timeout: Option<u64>,
    /// Whether others may share it (RFC 4918, section 6.2).
    pub shared: bool,
    /// Whether it is of infinite depth: on everything below its path too.
    pub deep: bool,
}

impl Model for DavLock {
    ghost use Rattle.std.specs.Prelude.{string_bytes};
    ghost use Rattle.std.specs.Option.{option_map};
    ghost use Rattle.dav_core.specs.Locks.{Lock};
    ghost use Rattle.dav_core.specs.LockCode.{lock_code};

    ghost Value = { Lock };

    ghost coded = { lock_code };

    ghost view = { λ l. record { token = string_bytes l.token; path = l.path; principal = option_map string_bytes l.principal; owner = l.owner; timeout_at = l.timeout_at; timeout = l.timeout; shared = l.shared; deep = l.deep } };
}

impl Clone for DavLock {
    ghost use Rattle.std.specs.Prelude.{◌≡◌};

    ghost is_clone = { λ a b. a ≡ b };

    fn clone(&self) -> Result<DavLock, NoMemory> {
        Ok(DavLock {
            token: self.token.clone()?,
            path: self.path.clone()?,
            principal: self.principal.clone()?,
            owner: self.owner.clone()?,
            timeout_at: self.timeout_at,
            timeout: self.timeout,
            shared: self.shared,
            deep: self.deep,
        })
    }
}

/// Why a lock isn't granted.
#[derive(Clone, Copy, Debug, PartialEq, Eq, Error)]
pub enum LockRefusal {
    /// A lock that is in the list conflicts.
    #[error("Conflict")]
    Conflict,
    /// Memory ran out.
    #[error("Memory")]
    Memory,
}

/// Why a lock isn't refreshed.
#[derive(Clone, Copy, Debug, PartialEq, Eq, Error)]
pub enum RefreshRefusal {
    /// There is no such lock.
    #[error("NotThere")]
    NotThere,
    /// Memory ran out.
    #[error("Memory")]
    Memory,
}

/// A list of locks, in the order in which they were granted. A call that is refused leaves the list as it was. Moments
/// are in seconds since 1970, timeouts in seconds.
pub trait DavLockSystem {
    ghost use Rattle.std.specs.Prelude.{◌≡◌, ◌≤◌, ◌+◌, ◌++◌, ◌∷◌, [], ℕ, Bool, true, false, List, map, Option, Some, None, Result, Ok, Err, IfOk, IfErr, OnOk, OnErr, IsOk, IfSome, string_bytes, if◌then◌else◌};
    ghost use Rattle.std.specs.Option.{option_map, option_copied, option_and_then};
    ghost use Rattle.dav_core.specs.Numbers.{max_u64};
    ghost use Rattle.dav_core.specs.LockRefusals.{IsRefusedGrant, IsRefusedRefresh};
    ghost use Rattle.dav_core.specs.Path.{names};
    ghost use Rattle.dav_core.specs.Locks.{Lock, Requester, Checks, is_grantable, ends_at, new_lock, requester_of, lent, named_lock, unlocked, refreshed, refreshed_lock, discovered, deleted};

    /// The locks, in the order of granting.
    ghost locks: { Self → List Lock };

    /// Grants a lock (RFC 4918, section 9.10). `Conflict` for an exclusive lock where any lock covers the path, for a
    /// shared one where an exclusive lock does, and for one of infinite depth where any lock is below the path; `Memory`
    /// where the lock may be granted, but an allocation fails.
    fn lock(
        &mut self,
        alloc: Global,
        path: &DavPath,
        principal: Option<&str>,
        owner: Option<&Element>,
        timeout: Option<u64>,
        shared: bool,
        deep: bool,
        token: &str,
        now: u64,
    ) -> Result<DavLock, LockRefusal>
        requires { IfSome timeout (λ seconds. now + seconds ≤ max_u64) }
        ensures ok { IfOk result (λ lock.
            (lock ≡ new_lock token.now path.now (option_copied principal.entry)
            (option_copied owner.entry) timeout shared deep now)
            × (is_grantable lock (locks self.old) ≡ true)
            × (locks self.new ≡ locks self.old ++ lock ∷ [])) }
        ensures err { IfErr result
            (λ e. IsRefusedGrant e
            (is_grantable
            (new_lock token.now path.now (option_copied principal.entry)
            (option_copied owner.entry) timeout shared deep now) (locks self.old))) }
        ensures same { OnErr result (locks self.new ≡ locks self.old) };

    /// Ends the lock that a token and a path mean (RFC 4918, section 9.11): of the locks with this token that are on the
    /// path or above it the one with the shortest path, and of several with that path the one that was granted first.
    /// `Err` where there is none.
    fn unlock(&mut self, path: &DavPath, token: &str) -> Result<(), ()>
        ensures ok { OnOk result (unlocked token.now (names path.now) (locks self.old)
            ≡ Some (locks self.new)) }
        ensures err { OnErr result ((unlocked token.now (names path.now) (locks self.old) ≡ None)
            × (locks self.new ≡ locks self.old)) };

    /// Gives the lock that a token and a path mean, as for `unlock`, a new timeout (RFC 4918, section 9.10.2). `NotThere`
    /// where there is none; `Memory` where there is one, but an allocation fails.
    fn refresh(
        &mut self,
        alloc: Global,
        path: &DavPath,
        token: &str,
        timeout: Option<u64>,
        now: u64,
    ) -> Result<DavLock, RefreshRefusal>
        requires { IfSome timeout (λ seconds. now + seconds ≤ max_u64) }
        ensures ok { IfOk result (λ lock.
            (option_map (refreshed_lock timeout now)
            (named_lock token.now (names path.now) (locks self.old)) ≡ Some lock)
            × (refreshed token.now (names path.now) timeout now (locks self.old)
            ≡ Some (locks self.new))) }
        ensures err { IfErr result
            (λ e. IsRefusedRefresh e (named_lock token.now (names path.now) (locks self.old))) }
        ensures same { OnErr result (locks self.new ≡ locks self.old) };

    /// Whether a path is free for the requester that submits these tokens (RFC 4918, section 7.5): it holds each
    /// exclusive lock that covers the path, and at least one covering lock if there is any; where the path is checked
    /// with everything below (`deep`), it holds each lock at the path and below it too. A lock is held where its token is
    /// submitted by its principal, or by anyone where the principal is ignored. `Err` lends one lock that conflicts.
    fn check(
        &self,
        path: &DavPath,
        principal: Option<&str>,
        ignore_principal: bool,
        deep: bool,
        tokens: &[String],
    ) -> Result<(), &DavLock>
        ensures { Checks deep (requester_of (map string_bytes tokens.now) ignore_principal
            (option_copied principal.entry)) (names path.now) (locks self.now) (lent result) };

    /// The locks that cover a path, the shortest path first, and of one path the first that was granted.
    fn discover(&self, alloc: Global, path: &DavPath) -> Result<Vec<DavLock>, NoMemory>
        ensures { IfOk result (λ found. found.items
            ≡ discovered (names path.now) (locks self.now)) };

    /// Ends all locks at a path and below it. It is always `Ok`.
    fn delete(&mut self, path: &DavPath) -> Result<(), ()>
        ensures ok { IsOk result }
        ensures locks { locks self.new ≡ deleted (names path.now) (locks self.old) };
}
