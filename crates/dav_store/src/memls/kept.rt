//! A lock as it is kept, and a path for which locks are looked for: each with how many names its path has, by which paths
//! of other lengths are told apart without a look at their names.
ghost use Rattle.std.specs.Prelude.{◌≡◌, ◌≤◌, ◌+◌, IfSome};
ghost use Rattle.dav_core.specs.Path.{names, is_same_path, is_under, is_at_or_under};
ghost use Rattle.dav_core.specs.Locks.{covers, ends_at, refreshed_lock};
ghost use Rattle.dav_core.specs.Numbers.{max_u64};
ghost use Rattle.dav_store.specs.LockIndex.{matters};

use crate::paths;
use dav_core::davpath::DavPath;
use dav_core::errors::NoMemory;
use dav_core::ls::DavLock;
use std::alloc::{AllocError, Global};
use std::marker::Model;

/// A lock, with how many names its path has, and the number of the grant by which it came. It is small, so that a lock in front of many
/// others goes at the cost of these few bytes for each.
#[derive(Drop)]
pub struct Kept {
    len: usize,
    grant: u64,
    lock: Box<DavLock>,
}

impl Model for Kept {
    ghost use Rattle.std.specs.Prelude.{◌≡◌, length};
    ghost use Rattle.dav_core.specs.Path.{names};
    ghost use Rattle.dav_core.specs.Locks.{Lock};
    ghost use Rattle.dav_core.specs.LockCode.{lock_code};

    ghost Value = { Lock };

    ghost coded = { lock_code };

    ghost view = { λ k. k.lock.value };

    ghost invariant = { λ k. k.len ≡ length (names k.lock.value.path) };
}

impl Kept {
    ghost use Rattle.std.specs.Prelude.{◌≡◌, ◌≤◌, ◌+◌, IfOk, IfSome};
    ghost use Rattle.dav_core.specs.Locks.{refreshed_lock};
    ghost use Rattle.dav_core.specs.Numbers.{max_u64};

    /// A lock as it is kept.
    pub fn new(alloc: Global, lock: DavLock, grant: u64) -> Result<Kept, NoMemory>
        ensures { IfOk result (λ k. k ≡ lock) }
    {
        let len = paths::count(&lock.path);
        match Box::new(alloc, lock) {
            Ok(lock) => Ok(Kept { len, grant, lock }),
            Err(_) => Err(AllocError),
        }
    }

    /// The lock.
    pub fn lock(&self) -> &DavLock
        ensures { result.now ≡ self.now }
    {
        &self.lock
    }

    /// The number of the grant by which the lock came.
    pub fn grant(&self) -> u64 {
        self.grant
    }

    /// The lock, given back.
    pub fn into_lock(self) -> DavLock
        ensures { result ≡ self }
    {
        Box::into_inner(self.lock)
    }

    /// Gives the lock a new timeout.
    pub fn set_timeout(&mut self, timeout: Option<u64>, now: u64)
        requires { IfSome timeout (λ seconds. now + seconds ≤ max_u64) }
        ensures { self.new ≡ refreshed_lock timeout now self.old }
    {
        set_timeout(&mut self.lock, timeout, now);
    }
}

/// A path for which locks are looked for, with how many names it has.
#[derive(Drop)]
pub struct Sought<'a> {
    len: usize,
    path: &'a DavPath,
}

impl<'a> Model for Sought<'a> {
    ghost use Rattle.std.specs.Prelude.{◌≡◌, length};
    ghost use Rattle.dav_core.specs.Path.{PathText, names};

    ghost Value = { PathText };

    ghost view = { λ s. s.path.now };

    ghost invariant = { λ s. s.len ≡ length (names s.path.now) };
}

impl<'a> Sought<'a> {
    ghost use Rattle.std.specs.Prelude.{◌≡◌, length};
    ghost use Rattle.dav_core.specs.Path.{names};

    /// A path with its length.
    pub fn new(path: &'a DavPath) -> Sought<'a>
        ensures { result ≡ path.now }
    {
        Sought {
            len: paths::count(path),
            path,
        }
    }

    /// The path.
    pub fn path(&self) -> &'a DavPath
        ensures { result.now ≡ self.now }
    {
        self.path
    }

    /// How many names the path has.
    pub fn len(&self) -> usize
        ensures { result ≡ length (names self.now) }
    {
        self.len
    }
}

// Whether a lock is on a path.
#[tactic(auto, using(crate::proofs::PathLengths::other_lengths))]
fn is_on(kept: &Kept, path: &Sought<'_>) -> bool
    ensures { result ≡ is_same_path (names kept.now.path) (names path.now) }
{
    kept.len == path.len && paths::is_same(&kept.lock.path, path.path)
}

// Whether a lock is on a path above this one.
#[tactic(auto, using(crate::proofs::PathLengths::not_longer))]
fn is_above(kept: &Kept, path: &Sought<'_>) -> bool
    ensures { result ≡ is_under (names path.now) (names kept.now.path) }
{
    kept.len < path.len && path.path.is_under(&kept.lock.path)
}

/// Whether a lock is on a path below this one.
#[tactic(auto, using(crate::proofs::PathLengths::not_longer))]
pub fn is_below(kept: &Kept, path: &Sought<'_>) -> bool
    ensures { result ≡ is_under (names kept.now.path) (names path.now) }
{
    path.len < kept.len && kept.lock.path.is_under(path.path)
}

/// Whether a lock is on a path or below it.
#[tactic(auto, using(crate::proofs::PathLengths::at_or_under_apart))]
pub fn is_at_or_below(kept: &Kept, path: &Sought<'_>) -> bool
    ensures { result ≡ is_at_or_under (names kept.now.path) (names path.now) }
{
    is_on(kept, path) || is_below(kept, path)
}

/// Whether a lock covers a path.
pub fn covers(kept: &Kept, path: &Sought<'_>) -> bool
    ensures { result ≡ covers kept.now (names path.now) }
{
    is_on(kept, path) || kept.lock.deep && is_above(kept, path)
}

/// Whether a lock matters to a path: it covers it or, where `deep`, is on it or below it.
pub fn matters(kept: &Kept, path: &Sought<'_>, deep: bool) -> bool
    ensures { result ≡ matters deep (names path.now) kept.now }
{
    covers(kept, path) || deep && is_at_or_below(kept, path)
}

/// The moment at which a lock ends that lasts for so many seconds; `None` for one that never ends.
pub fn ends_at(now: u64, timeout: Option<u64>) -> Option<u64>
    requires { IfSome timeout (λ seconds. now + seconds ≤ max_u64) }
    ensures { result ≡ ends_at now timeout }
{
    match timeout {
        Some(seconds) => Some(now + seconds),
        None => None,
    }
}

/// Gives a lock a new timeout.
pub fn set_timeout(lock: &mut DavLock, timeout: Option<u64>, now: u64)
    requires { IfSome timeout (λ seconds. now + seconds ≤ max_u64) }
    ensures { lock.new ≡ refreshed_lock timeout now lock.old }
{
    lock.timeout_at = ends_at(now, timeout);
    lock.timeout = timeout;
}
