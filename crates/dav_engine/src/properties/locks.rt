//! Locks as element trees (RFC 4918, sections 14 and 15).
ghost use Rattle.std.specs.Prelude.{◌≡◌, ◌∷◌, [], codes, string_bytes, IfOk};
ghost use Rattle.dav_core.specs.Path.{names};
ghost use Rattle.dav_headers.specs.Timeout.{time_type_text};
ghost use Rattle.dav_engine.specs.ConditionView.{locks_in};
ghost use Rattle.dav_engine.specs.LockScope.{is_shared};
ghost use Rattle.dav_engine.specs.LockTree.{active_lock, locks_found, locks_supported, lock_reply};
ghost use Rattle.dav_engine.specs.LockTree as spec;
ghost use Rattle.dav_engine.specs.Multistatus.{dav_element, href as spec_href};

use crate::lock_scope::LockScope;
use crate::reply::multistatus::href;
use crate::reply::tree::{declaring_dav, holding, saying, with_child};
use dav_core::davpath::DavPath;
use dav_core::element::Element;
use dav_core::errors::NoMemory;
use dav_core::ls::{DavLock, DavLockSystem};
use std::alloc::Global;

// The scope of a lock.
fn lock_scope(alloc: Global, scope: LockScope) -> Result<Element, NoMemory>
    ensures { IfOk result (λ e. e ≡ spec.lock_scope (is_shared scope)) }
{
    match scope {
        LockScope::Exclusive => holding(alloc, "D:lockscope", Element::new2(alloc, "D:exclusive")?),
        LockScope::Shared => holding(alloc, "D:lockscope", Element::new2(alloc, "D:shared")?),
    }
}

// That a lock is for writing.
fn lock_type(alloc: Global) -> Result<Element, NoMemory>
    ensures { IfOk result (λ e. e ≡ spec.lock_type) }
{
    holding(alloc, "D:locktype", Element::new2(alloc, "D:write")?)
}

// How deep a lock goes.
fn lock_depth(alloc: Global, deep: bool) -> Result<Element, NoMemory>
    ensures { IfOk result (λ e. e ≡ spec.lock_depth deep) }
{
    if deep {
        saying(alloc, "D:depth", "Infinity")
    } else {
        saying(alloc, "D:depth", "0")
    }
}

// A number of seconds as the header Timeout has it.
fn time_type(alloc: Global, timeout: Option<u64>) -> Result<String, NoMemory>
    ensures { IfOk result (λ t. string_bytes t ≡ time_type_text (spec.time_type timeout)) }
{
    match timeout {
        Some(seconds) => format!(in alloc; "Second-{seconds}"),
        None => String::from_str(alloc, "Infinite"),
    }
}

// After how many seconds a lock ends.
fn lock_timeout(alloc: Global, timeout: Option<u64>) -> Result<Element, NoMemory>
    ensures { IfOk result (λ e. e ≡ spec.lock_timeout timeout) }
{
    let time = time_type(alloc, timeout)?;
    saying(alloc, "D:timeout", &time)
}

// The token of a lock.
fn lock_token(alloc: Global, token: &str) -> Result<Element, NoMemory>
    ensures { IfOk result (λ e. e ≡ spec.lock_token token.now) }
{
    holding(alloc, "D:locktoken", saying(alloc, "D:href", token)?)
}

// The path that a lock is on.
fn lock_root(alloc: Global, path: &DavPath) -> Result<Element, NoMemory>
    ensures { IfOk result (λ e. e
        ≡ dav_element (codes "lockroot") (spec_href path.now ∷ [])) }
{
    holding(alloc, "D:lockroot", href(alloc, path)?)
}

// A lock, but for its owner.
fn unowned(alloc: Global, lock: &DavLock) -> Result<Element, NoMemory>
    ensures { IfOk result (λ e. e ≡ dav_element (codes "activelock") (spec.lock_parts lock.now)) }
{
    let element = Element::new2(alloc, "D:activelock");
    let element = with_child(element, lock_scope(alloc, LockScope::of(lock.shared)));
    let element = with_child(element, lock_type(alloc));
    let element = with_child(element, lock_depth(alloc, lock.deep));
    let element = with_child(element, lock_timeout(alloc, lock.timeout));
    let element = with_child(element, lock_token(alloc, &lock.token));
    with_child(element, lock_root(alloc, &lock.path))
}

// A lock.
fn active_lock(alloc: Global, lock: &DavLock) -> Result<Element, NoMemory>
    ensures { IfOk result (λ e. e ≡ active_lock lock.now) }
{
    let element = unowned(alloc, lock);
    match &lock.owner {
        Some(owner) => with_child(element, owner.clone()),
        None => element,
    }
}

// Locks, in order.
fn lock_discovery(alloc: Global, locks: &[DavLock]) -> Result<Element, NoMemory>
    ensures { IfOk result (λ e. e ≡ spec.lock_discovery locks.now) }
{
    let mut element = Element::new2(alloc, "D:lockdiscovery")?;
    for lock in locks {
        element.push_element(active_lock(alloc, lock)?)?;
    }
    Ok(element)
}

/// The property `lockdiscovery` of a path (RFC 4918, section 15.8): the locks that cover it, the shortest path first, and of
/// one path the first that was granted. It is empty without a lock system.
pub fn list_lockdiscovery<L: DavLockSystem>(
    alloc: Global,
    ls: Option<&L>,
    path: &DavPath,
) -> Result<Element, NoMemory>
    ensures { IfOk result (λ e. e ≡ locks_found (locks_in L.locks ls.entry) (names path.now)) }
{
    match ls {
        Some(ls) => lock_discovery(alloc, &ls.discover(alloc, path)?),
        None => Element::new2(alloc, "D:lockdiscovery"),
    }
}

// A kind of lock that is supported.
fn lock_entry(alloc: Global, scope: LockScope) -> Result<Element, NoMemory>
    ensures { IfOk result (λ e. e ≡ spec.lock_entry (is_shared scope)) }
{
    let element = Element::new2(alloc, "D:lockentry");
    let element = with_child(element, lock_scope(alloc, scope));
    with_child(element, lock_type(alloc))
}

/// The property `supportedlock` (RFC 4918, section 15.10): exclusive locks and shared ones. It is empty without a lock
/// system.
pub fn list_supportedlock<L: DavLockSystem>(
    alloc: Global,
    ls: Option<&L>,
) -> Result<Element, NoMemory>
    ensures { IfOk result (λ e. e ≡ locks_supported (locks_in L.locks ls.entry)) }
{
    let element = Element::new2(alloc, "D:supportedlock");
    if ls.is_none() {
        return element;
    }
    let element = with_child(element, lock_entry(alloc, LockScope::Exclusive));
    with_child(element, lock_entry(alloc, LockScope::Shared))
}

// What the reply to a LOCK holds.
pub(crate) fn lock_reply(alloc: Global, lock: &DavLock) -> Result<Element, NoMemory>
    ensures { IfOk result (λ e. e ≡ lock_reply lock.now) }
{
    let told = lock_discovery(alloc, std::slice::from_ref(lock));
    with_child(declaring_dav(alloc, "D:prop"), told)
}
