//! A list of locks in memory (RFC 4918, sections 6 and 7).
ghost use Rattle.std.specs.Prelude.{◌≡◌, ◌&&◌, ◌||◌, ◌+◌, ◌++◌, ◌∷◌, ◌≤◌, not, [], map, IfOk, IfErr, OnOk, OnErr, IfSome, MatchOption, Some, None, Contains, true, bytes_eq, string_bytes, option_copied, position, take};
ghost use Rattle.std.specs.List.{list_any, filter};
ghost use Rattle.std.specs.Option.{option_map};
ghost use Rattle.dav_core.specs.Path.{names, is_same_path, is_under, is_at_or_under};
ghost use Rattle.dav_core.specs.Locks.{Lock, Checks, lent, covers, requester_of, is_held, is_of, is_free_for, conflicts, new_lock, named_lock, unlocked, refreshed, refreshed_lock, discovered, deleted};
ghost use Rattle.dav_core.specs.LockRefusals.{IsRefusedRefresh};
ghost use Rattle.dav_core.specs.Numbers.{max_u64};
ghost use Rattle.dav_store.specs.LockCalls.{requester_in, IsNamedPlace};
ghost use Rattle.dav_store.specs.LockEnds.{first_ended, has_ended};
ghost use Rattle.dav_store.specs.LockIndex.{Key, IsIndexOf, MattersAlone, tally, times, path_keys};

mod index;
mod kept;
mod saved;
#[cfg(test)]
pub(crate) mod tests;

use crate::paths;
use dav_core::davpath::DavPath;
use dav_core::element::Element;
use dav_core::errors::NoMemory;
use dav_core::ls::{DavLock, DavLockSystem, LockRefusal, RefreshRefusal};
use index::Counts;
use kept::{Kept, Sought, covers, ends_at, is_at_or_below, is_below, matters, set_timeout};
use std::alloc::Global;
use std::marker::Model;
use std::slice;

/// A list of locks in memory, in the order in which they were granted, beside it an index, which is `None` from the
/// moment on when it can't grow, and the number of the next grant.
#[derive(Drop)]
pub struct MemLs {
    locks: Vec<Kept>,
    index: Option<Counts>,
    next: u64,
}

impl Model for MemLs {
    ghost use Rattle.std.specs.Prelude.{List};
    ghost use Rattle.std.specs.Coded.{coded_list};
    ghost use Rattle.dav_core.specs.Locks.{Lock};
    ghost use Rattle.dav_core.specs.LockCode.{lock_code};

    ghost Value = { List Lock };

    ghost coded = { coded_list lock_code };

    ghost use Rattle.dav_store.specs.LockIndex.{IsIndexOf};

    ghost view = { λ s. s.locks.items };

    ghost invariant = { λ s. IsIndexOf s.index s.locks.items };
}

// Whether a token is among the submitted ones.
fn has_token(tokens: &[String], token: &str) -> bool
    ensures { result ≡ list_any (bytes_eq token.now) (map string_bytes tokens.now) }
{
    any_is(tokens, token)
}

// Whether one of these texts is this one.
fn any_is(texts: &[String], text: &str) -> bool
    ensures { result ≡ list_any (λ t. bytes_eq text.now (string_bytes t)) texts.now }
{
    texts.iter().any(|t| text == t.as_str())
}

/// The requester: the tokens that it submits, its principal, and whether that is ignored.
#[derive(Clone, Copy)]
struct Requester<'a> {
    tokens: &'a [String],
    principal: Option<&'a str>,
    ignore_principal: bool,
}

// Whether a lock has this principal, or the principal is ignored.
fn is_of(lock: &DavLock, principal: Option<&str>, ignore_principal: bool) -> bool
    ensures { result ≡ is_of (requester_of [] ignore_principal
        (option_copied principal.entry)).principal lock.now }
{
    ignore_principal || lock.principal.as_deref() == principal
}

// Whether the requester holds a lock.
fn is_held(kept: &Kept, who: Requester<'_>) -> bool
    ensures { result ≡ is_held (requester_in who.entry) kept.now }
{
    let lock = kept.lock();
    has_token(who.tokens, &lock.token) && is_of(lock, who.principal, who.ignore_principal)
}

// Whether the requester holds some lock that covers a path.
fn any_held(locks: &[Kept], path: &Sought<'_>, who: Requester<'_>) -> bool
    ensures { result ≡ list_any
        (λ l. covers l (names path.now) && is_held (requester_in who.entry) l) locks.now }
{
    locks.iter().any(|l| covers(l, path) && is_held(l, who))
}

// Whether a lock of the list conflicts.
fn conflicts(kept: &Kept, locks: &[Kept], path: &Sought<'_>, who: Requester<'_>, deep: bool) -> bool
    ensures { result ≡ (not (is_held (requester_in who.entry) kept.now)
        && ((covers kept.now (names path.now) && (not kept.now.shared || not (list_any
        (λ l. covers l (names path.now) && is_held (requester_in who.entry) l) locks.now)))
        || (deep && is_at_or_under (names kept.now.path) (names path.now)))) }
{
    (covers(kept, path) && (!kept.lock().shared || !any_held(locks, path, who))
        || deep && is_at_or_below(kept, path))
        && !is_held(kept, who)
}

// The place of the first lock that conflicts.
fn conflict_place(
    locks: &[Kept],
    path: &Sought<'_>,
    who: Requester<'_>,
    deep: bool,
) -> Option<usize>
    ensures { result ≡ position (λ l. not (is_held (requester_in who.entry) l)
        && ((covers l (names path.now) && (not l.shared || not (list_any
        (λ m. covers m (names path.now) && is_held (requester_in who.entry) m) locks.now)))
        || (deep && is_at_or_under (names l.path) (names path.now)))) locks.now }
{
    locks
        .iter()
        .position(|l| conflicts(l, locks, path, who, deep))
}

// A lock that conflicts; `None` where the path is free.
fn conflict_in<'a>(
    locks: &'a [Kept],
    path: &Sought<'_>,
    who: Requester<'_>,
    deep: bool,
) -> Option<&'a DavLock>
    ensures { MatchOption result
        (is_free_for deep (requester_in who.entry) (names path.now) locks.now ≡ true)
        (λ l. Contains locks.now l.now
        × (conflicts deep (requester_in who.entry) (names path.now) locks.now l.now ≡ true)) }
{
    match conflict_place(locks, path, who, deep) {
        None => None,
        Some(i) => Some(locks[i].lock()),
    }
}

// `Ok` where a path is free, and else a lock that conflicts.
fn check_in<'a>(
    locks: &'a [Kept],
    path: &Sought<'_>,
    who: Requester<'_>,
    deep: bool,
) -> Result<(), &'a DavLock>
    ensures { Checks deep (requester_in who.entry) (names path.now) locks.now (lent result) }
{
    match conflict_in(locks, path, who, deep) {
        None => Ok(()),
        Some(lock) => Err(lock),
    }
}

// The one lock that matters to a path, where the index knows that no other does; else `None`.
fn only_one<'a>(
    locks: &'a [Kept],
    index: &Option<Counts>,
    path: &Sought<'_>,
    deep: bool,
) -> Option<&'a Kept>
    requires { IsIndexOf index.now locks.now }
    ensures { IfSome result (λ l. MattersAlone deep (names path.now) l.now locks.now) }
{
    let grant = index::only_grant(index, path.path(), deep)?;
    let i = locks.binary_search_by_key(&grant, |l| l.grant()).ok()?;
    let kept = &locks[i];
    if matters(kept, path, deep) {
        Some(kept)
    } else {
        None
    }
}

// Drops the locks at a path and below it.
fn drop_below(locks: &mut Vec<Kept>, path: &Sought<'_>)
    ensures { locks.new.items ≡ deleted (names path.now) locks.old.items }
{
    locks.retain(|l| !is_at_or_below(l, path));
}

// Whether some lock that covers a path excludes a new one there: all but two shared locks exclude each other.
fn any_excludes(locks: &[Kept], path: &Sought<'_>, shared: bool) -> bool
    ensures { result ≡ list_any
        (λ l. covers l (names path.now) && not (l.shared && shared)) locks.now }
{
    locks
        .iter()
        .any(|l| covers(l, path) && !(l.lock().shared && shared))
}

// Whether there is a lock below a path.
fn any_below(locks: &[Kept], path: &Sought<'_>) -> bool
    ensures { result ≡ list_any (λ l. is_under (names l.path) (names path.now)) locks.now }
{
    locks.iter().any(|l| is_below(l, path))
}

// Whether some lock conflicts with a new one.
fn any_refuses(locks: &[Kept], path: &Sought<'_>, shared: bool, deep: bool) -> bool
    ensures { result ≡ (list_any
        (λ l. covers l (names path.now) && not (l.shared && shared)) locks.now
        || (deep && list_any (λ l. is_under (names l.path) (names path.now)) locks.now)) }
{
    any_excludes(locks, path, shared) || deep && any_below(locks, path)
}

// The same, without a look at the list where the index says that no lock matters.
fn refuses(locks: &[Kept], index: &Option<Counts>, path: &DavPath, shared: bool, deep: bool) -> bool
    requires { IsIndexOf index.now locks.now }
    ensures { result ≡ (list_any
        (λ l. covers l (names path.now) && not (l.shared && shared)) locks.now
        || (deep && list_any (λ l. is_under (names l.path) (names path.now)) locks.now)) }
{
    index::may_matter(index, path, deep) && any_refuses(locks, &Sought::new(path), shared, deep)
}

// An owned copy of a text.
fn text_of(alloc: Global, text: Option<&str>) -> Result<Option<String>, NoMemory>
    ensures { IfOk result (λ t. option_map string_bytes t ≡ option_copied text.entry) }
{
    match text {
        Some(text) => Ok(Some(String::from_str(alloc, text)?)),
        None => Ok(None),
    }
}

// An owned copy of an element.
fn element_of(element: Option<&Element>) -> Result<Option<Element>, NoMemory>
    ensures { IfOk result (λ e. e ≡ option_copied element.entry) }
{
    match element {
        Some(element) => Ok(Some(element.clone()?)),
        None => Ok(None),
    }
}

/// What a lock is asked for (RFC 4918, section 9.10): where, by whom, of which kind and for how long; and the token that it gets.
#[derive(Clone, Copy)]
struct LockRequest<'a> {
    path: &'a DavPath,
    principal: Option<&'a str>,
    owner: Option<&'a Element>,
    timeout: Option<u64>,
    shared: bool,
    deep: bool,
    token: &'a str,
    moment: u64,
}

// A lock as it is granted.
fn new_lock(alloc: Global, asked: &LockRequest<'_>) -> Result<DavLock, NoMemory>
    requires { IfSome asked.now.timeout (λ seconds. asked.now.moment + seconds ≤ max_u64) }
    ensures { IfOk result (λ lock. lock ≡ new_lock asked.now.token.now asked.now.path.now
        (option_copied asked.now.principal) (option_copied asked.now.owner)
        asked.now.timeout asked.now.shared asked.now.deep asked.now.moment) }
{
    Ok(DavLock {
        token: String::from_str(alloc, asked.token)?,
        path: asked.path.clone()?,
        principal: text_of(alloc, asked.principal)?,
        owner: element_of(asked.owner)?,
        timeout_at: ends_at(asked.moment, asked.timeout),
        timeout: asked.timeout,
        shared: asked.shared,
        deep: asked.deep,
    })
}

// Puts a copy of a lock after the others, by the grant of this number, and returns the lock.
fn keep(
    alloc: Global,
    locks: &mut Vec<Kept>,
    lock: DavLock,
    grant: u64,
) -> Result<DavLock, NoMemory>
    ensures ok { IfOk result (λ l. (l ≡ lock) × (locks.new.items ≡ locks.old.items ++ l ∷ [])) }
    ensures err { OnErr result (locks.new.items ≡ locks.old.items) }
{
    let copy = lock.clone()?;
    locks.push(Kept::new(alloc, copy, grant)?)?;
    Ok(lock)
}

// Takes the lock that a token and a path mean out of the list.
fn unlock_in(
    locks: &mut Vec<Kept>,
    index: &Option<Counts>,
    path: &DavPath,
    token: &str,
) -> Result<DavLock, ()>
    requires { IsIndexOf index.now locks.now.items }
    ensures ok { OnOk result (unlocked token.now (names path.now) locks.old.items
        ≡ Some locks.new.items) }
    ensures keys { IfOk result (λ l. (k : Key) → tally k locks.old.items
        ≡ tally k locks.new.items + times k (path_keys l.deep (names l.path))) }
    ensures err { OnErr result ((unlocked token.now (names path.now) locks.old.items ≡ None)
        × (locks.new.items ≡ locks.old.items)) }
{
    match index::named_place(index, locks, path, token) {
        None => Err(()),
        Some(i) => Ok(locks.remove(i).into_lock()),
    }
}

// Gives the lock that a token and a path mean a new timeout, and returns a copy of it.
fn refresh_in(
    locks: &mut Vec<Kept>,
    index: &Option<Counts>,
    path: &DavPath,
    token: &str,
    timeout: Option<u64>,
    now: u64,
) -> Result<DavLock, RefreshRefusal>
    requires timeout { IfSome timeout (λ seconds. now + seconds ≤ max_u64) }
    requires index { IsIndexOf index.now locks.now.items }
    ensures ok { IfOk result (λ lock.
        (option_map (refreshed_lock timeout now)
        (named_lock token.now (names path.now) locks.old.items) ≡ Some lock)
        × (refreshed token.now (names path.now) timeout now locks.old.items
        ≡ Some locks.new.items)) }
    ensures err { IfErr result
        (λ e. IsRefusedRefresh e (named_lock token.now (names path.now) locks.old.items)) }
    ensures same { OnErr result (locks.new.items ≡ locks.old.items) }
    ensures keys { (k : Key) → tally k locks.new.items ≡ tally k locks.old.items }
{
    let Some(i) = index::named_place(index, locks, path, token) else {
        return Err(RefreshRefusal::NotThere);
    };
    let Ok(mut lock) = locks[i].lock().clone() else {
        return Err(RefreshRefusal::Memory);
    };
    set_timeout(&mut lock, timeout, now);
    locks[i].set_timeout(timeout, now);
    Ok(lock)
}

// Adds copies of the locks that cover a path and are on its first so many names.
fn push_covering(
    found: &mut Vec<DavLock>,
    locks: &[Kept],
    path: &Sought<'_>,
    len: usize,
) -> Result<(), NoMemory>
    ensures { OnOk result (found.new.items
        ≡ found.old.items ++ filter (λ l. is_same_path (names l.path) (take len (names path.now))
        && covers l (names path.now)) locks.now) }
{
    for kept in locks {
        let lock = kept.lock();
        if covers(kept, path) && paths::is_front(&lock.path, path.path(), len) {
            found.push(lock.clone()?)?;
        }
    }
    Ok(())
}

// Copies of the locks that cover a path, those on the shortest path first.
fn discover_in(alloc: Global, locks: &[Kept], path: &Sought<'_>) -> Result<Vec<DavLock>, NoMemory>
    ensures { IfOk result (λ found. found.items ≡ discovered (names path.now) locks.now) }
{
    let mut found = Vec::new(alloc);
    for len in 0..=path.len() {
        push_covering(&mut found, locks, path, len)?;
    }
    Ok(found)
}

// Whether the time of a lock ended at this moment or before.
fn has_ended(lock: &DavLock, now: u64) -> bool
    ensures { result ≡ has_ended now lock.now }
{
    match lock.timeout_at {
        Some(end) => end <= now,
        None => false,
    }
}

// The place of the first lock whose time ended.
fn ended_place(locks: &[Kept], now: u64) -> Option<usize>
    ensures { result ≡ position (has_ended now) locks.now }
{
    locks.iter().position(|l| has_ended(l.lock(), now))
}

// The first lock whose time ended.
fn ended_in(locks: &[Kept], now: u64) -> Option<&DavLock>
    ensures { option_copied result ≡ first_ended now locks.now }
{
    match ended_place(locks, now) {
        Some(place) => Some(locks[place].lock()),
        None => None,
    }
}

impl MemLs {
    ghost use Rattle.std.specs.Prelude.{◌≡◌, [], IfOk, option_copied};
    ghost use Rattle.dav_store.specs.LockEnds.{first_ended};

    /// No locks.
    pub fn new(alloc: Global) -> Result<MemLs, NoMemory>
        ensures { IfOk result (λ s. s ≡ []) }
    {
        Ok(MemLs {
            locks: Vec::new(alloc),
            index: Counts::new(alloc).ok(),
            next: 0,
        })
    }

    /// The first lock whose time ended at this moment or before; `None` where none did. The moment is in seconds since 1970
    /// (RFC 4918, section 6.6). Looks at each lock; allocates nothing.
    pub fn first_ended(&self, now: u64) -> Option<&DavLock>
        ensures { option_copied result ≡ first_ended now self.now }
    {
        ended_in(&self.locks, now)
    }
}

impl DavLockSystem for MemLs {
    ghost locks = { λ s. s };

    fn lock(
        &mut self,
        alloc: Global,
        path: &DavPath,
        principal: Option<&str>,
        owner: Option<&Element>,
        timeout: Option<u64>,
        shared: bool,
        deep: bool,
        token: &str,
        now: u64,
    ) -> Result<DavLock, LockRefusal> {
        if refuses(&self.locks, &self.index, path, shared, deep) {
            return Err(LockRefusal::Conflict);
        }
        let asked = LockRequest {
            path,
            principal,
            owner,
            timeout,
            shared,
            deep,
            token,
            moment: now,
        };
        let Ok(lock) = new_lock(alloc, &asked) else {
            return Err(LockRefusal::Memory);
        };
        let Ok(lock) = keep(alloc, &mut self.locks, lock, self.next) else {
            return Err(LockRefusal::Memory);
        };
        index::raise(alloc, &mut self.index, path, deep, self.next);
        self.next = self.next.wrapping_add(1);
        Ok(lock)
    }

    fn unlock(&mut self, path: &DavPath, token: &str) -> Result<(), ()> {
        let lock = unlock_in(&mut self.locks, &self.index, path, token)?;
        index::lower(&mut self.index, &lock.path, lock.deep);
        Ok(())
    }

    fn refresh(
        &mut self,
        _alloc: Global,
        path: &DavPath,
        token: &str,
        timeout: Option<u64>,
        now: u64,
    ) -> Result<DavLock, RefreshRefusal> {
        refresh_in(&mut self.locks, &self.index, path, token, timeout, now)
    }

    fn check(
        &self,
        path: &DavPath,
        principal: Option<&str>,
        ignore_principal: bool,
        deep: bool,
        tokens: &[String],
    ) -> Result<(), &DavLock> {
        if !index::may_matter(&self.index, path, deep) {
            return Ok(());
        }
        let who = Requester {
            tokens,
            principal,
            ignore_principal,
        };
        let sought = &Sought::new(path);
        match only_one(&self.locks, &self.index, sought, deep) {
            Some(kept) => check_in(slice::from_ref(kept), sought, who, deep),
            None => check_in(&self.locks, sought, who, deep),
        }
    }

    fn discover(&self, alloc: Global, path: &DavPath) -> Result<Vec<DavLock>, NoMemory> {
        if !index::may_matter(&self.index, path, false) {
            return Ok(Vec::new(alloc));
        }
        let sought = &Sought::new(path);
        match only_one(&self.locks, &self.index, sought, false) {
            Some(kept) => discover_in(alloc, slice::from_ref(kept), sought),
            None => discover_in(alloc, &self.locks, sought),
        }
    }

    fn delete(&mut self, path: &DavPath) -> Result<(), ()> {
        if index::may_matter(&self.index, path, true) {
            index::lower_below(&mut self.index, &self.locks, path);
            drop_below(&mut self.locks, &Sought::new(path));
        }
        Ok(())
    }
}
