//! A list of locks that each call walks.
use crate::memls::tests::{
    Row, granted, has_word, refreshed, timeout_after, timeout_of, with_token,
};
use crate::paths;
use dav_core::davpath::DavPath;
use dav_core::ls::{DavLock, LockRefusal, RefreshRefusal};
use std::alloc::Global;
use std::test::Fail;

// The locks, in the order in which they were granted.
#[derive(Drop)]
pub(super) struct ListedLs {
    locks: Vec<DavLock>,
}

fn covers(lock: &DavLock, path: &DavPath) -> bool {
    paths::is_same(&lock.path, path) || lock.deep && path.is_under(&lock.path)
}

// Whether a lock is the principal's, and has the one token that is submitted.
fn is_held(lock: &DavLock, principal: &str) -> bool {
    lock.token.as_str() == "t1" && lock.principal.as_deref() == Some(principal)
}

// The lock that a row asks for.
fn new_lock(alloc: Global, path: &DavPath, row: Row<'_>) -> Result<DavLock, Fail> {
    let [_, _, kind, token, who] = row;
    let principal = if who.is_empty() {
        None
    } else {
        Some(String::from_str(alloc, who)?)
    };
    let timeout = timeout_of(kind);
    Ok(DavLock {
        token: String::from_str(alloc, token)?,
        path: path.clone()?,
        principal,
        owner: None,
        timeout_at: timeout.map(|seconds| seconds.saturating_add(100)),
        timeout,
        shared: has_word(kind, "shared"),
        deep: has_word(kind, "infinite"),
    })
}

impl ListedLs {
    pub(super) fn new(alloc: Global) -> ListedLs {
        ListedLs {
            locks: Vec::new(alloc),
        }
    }

    // Whether a lock conflicts with a new one.
    fn any_refuses(&self, path: &DavPath, shared: bool, deep: bool) -> bool {
        for lock in &self.locks {
            if covers(lock, path) && !(lock.shared && shared) {
                return true;
            }
            if deep && lock.path.is_under(path) {
                return true;
            }
        }
        false
    }

    fn lock(&mut self, alloc: Global, path: &DavPath, row: Row<'_>) -> Result<String, Fail> {
        let lock = new_lock(alloc, path, row)?;
        if self.any_refuses(path, lock.shared, lock.deep) {
            return granted(alloc, Err(LockRefusal::Conflict));
        }
        self.locks.push(lock.clone()?)?;
        granted(alloc, Ok(lock))
    }

    // The place of the first lock that has a token and is on the shortest path that covers this one.
    fn place(&self, path: &DavPath, token: &str) -> Option<usize> {
        for len in 0..=paths::count(path) {
            for (i, lock) in self.locks.iter().enumerate() {
                if lock.token.as_str() == token && paths::is_front(&lock.path, path, len) {
                    return Some(i);
                }
            }
        }
        None
    }

    fn unlock(&mut self, path: &DavPath, token: &str) -> bool {
        let Some(place) = self.place(path, token) else {
            return false;
        };
        if place < self.locks.len() {
            drop(self.locks.remove(place));
        }
        true
    }

    // A refresh at second 150.
    fn refresh(&mut self, alloc: Global, path: &DavPath, row: Row<'_>) -> Result<String, Fail> {
        let Some(place) = self.place(path, row[2]) else {
            return refreshed(alloc, Err(RefreshRefusal::NotThere));
        };
        let Some(lock) = self.locks.get_mut(place) else {
            return refreshed(alloc, Err(RefreshRefusal::NotThere));
        };
        lock.timeout = timeout_after(row[3]);
        lock.timeout_at = lock.timeout.map(|seconds| seconds.saturating_add(150));
        refreshed(alloc, Ok(lock.clone()?))
    }

    fn any_held(&self, path: &DavPath, principal: &str) -> bool {
        for lock in &self.locks {
            if covers(lock, path) && is_held(lock, principal) {
                return true;
            }
        }
        false
    }

    // The token of the first lock that conflicts.
    fn check(
        &self,
        alloc: Global,
        path: &DavPath,
        principal: &str,
        deep: bool,
    ) -> Result<String, Fail> {
        let some_held = self.any_held(path, principal);
        for lock in &self.locks {
            let is_met = covers(lock, path) && (!lock.shared || !some_held)
                || deep && lock.path.is_at_or_under(path);
            if is_met && !is_held(lock, principal) {
                return Ok(lock.token.clone()?);
            }
        }
        Ok(String::from_str(alloc, "free")?)
    }

    // The tokens of the locks that cover a path, those on the shortest path first.
    fn discover(&self, alloc: Global, path: &DavPath) -> Result<String, Fail> {
        let mut tokens = String::new(alloc);
        for len in 0..=paths::count(path) {
            for lock in &self.locks {
                if paths::is_front(&lock.path, path, len) && covers(lock, path) {
                    with_token(&mut tokens, &lock.token)?;
                }
            }
        }
        Ok(tokens)
    }

    // Makes the call of a row, and returns its answer as text.
    pub(super) fn play(&mut self, alloc: Global, row: Row<'_>) -> Result<String, Fail> {
        let [call, at, first, second, _] = row;
        let at = DavPath::new(alloc, at)?;
        let done = match call {
            "lock" => return self.lock(alloc, &at, row),
            "refresh" => return self.refresh(alloc, &at, row),
            "check" => return self.check(alloc, &at, first, second == "infinite"),
            "discover" => return self.discover(alloc, &at),
            "unlock" => self.unlock(&at, first),
            _ => {
                self.locks.retain(|l| !l.path.is_at_or_under(&at));
                true
            }
        };
        Ok(String::from_str(alloc, if done { "ok" } else { "refused" })?)
    }
}
