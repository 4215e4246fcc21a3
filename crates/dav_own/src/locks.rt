//! A list of locks of one's own around another one.
use dav_core::davpath::DavPath;
use dav_core::element::Element;
use dav_core::errors::NoMemory;
use dav_core::ls::{DavLock, DavLockSystem, LockRefusal, RefreshRefusal};
use std::alloc::Global;

/// A list that counts the locks which are granted. Its locks are the inner list's: so it meets the contracts of `DavLockSystem`
/// wherever that does.
#[derive(Drop)]
pub struct CountingLocks<L> {
    inner: L,
    granted: u64,
}

impl<L: DavLockSystem> CountingLocks<L> {
    /// A list around this one, which granted no lock yet.
    pub fn new(inner: L) -> CountingLocks<L> {
        CountingLocks { inner, granted: 0 }
    }

    /// How many locks were granted.
    pub fn granted(&self) -> u64 {
        self.granted
    }
}

impl<L: DavLockSystem> DavLockSystem for CountingLocks<L> {
    ghost locks = { λ s. L.locks s.inner };

    fn lock(
        &mut self,
        alloc: Global,
        path: &DavPath,
        principal: Option<&str>,
        owner: Option<&Element>,
        timeout: Option<u64>,
        shared: bool,
        deep: bool,
        token: &str,
        now: u64,
    ) -> Result<DavLock, LockRefusal> {
        let lock = self.inner.lock(
            alloc, path, principal, owner, timeout, shared, deep, token, now,
        )?;
        self.granted = self.granted.saturating_add(1);
        Ok(lock)
    }

    fn unlock(&mut self, path: &DavPath, token: &str) -> Result<(), ()> {
        self.inner.unlock(path, token)
    }

    fn refresh(
        &mut self,
        alloc: Global,
        path: &DavPath,
        token: &str,
        timeout: Option<u64>,
        now: u64,
    ) -> Result<DavLock, RefreshRefusal> {
        self.inner.refresh(alloc, path, token, timeout, now)
    }

    fn check(
        &self,
        path: &DavPath,
        principal: Option<&str>,
        ignore_principal: bool,
        deep: bool,
        tokens: &[String],
    ) -> Result<(), &DavLock> {
        self.inner
            .check(path, principal, ignore_principal, deep, tokens)
    }

    fn discover(&self, alloc: Global, path: &DavPath) -> Result<Vec<DavLock>, NoMemory> {
        self.inner.discover(alloc, path)
    }

    fn delete(&mut self, path: &DavPath) -> Result<(), ()> {
        self.inner.delete(path)
    }
}
