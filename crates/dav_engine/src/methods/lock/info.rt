//! What the body of a LOCK asks for (RFC 4918, section 14.11).
ghost use Rattle.std.specs.Prelude.{◌≡◌, IfOk, IsSome, OnErr};
ghost use Rattle.std.specs.List.{list_all, list_any};
ghost use Rattle.std.specs.Option.{option_copied, option_map};
ghost use Rattle.dav_core.specs.Element.{child_elements};
ghost use Rattle.dav_engine.specs.LockInfo.{with_dav_prefix};
ghost use Rattle.dav_engine.specs.LockInfo as spec;

use crate::lock_scope::LockScope;
use crate::request::Body;
use dav_core::element::Element;
use dav_core::errors::NoMemory;
use std::alloc::Global;
use std::marker::Model;

/// A lock for writing.
#[derive(Drop)]
pub struct LockInfo {
    /// Whether it is exclusive or shared.
    pub scope: LockScope,
    /// The element in which its owner describes itself.
    pub owner: Option<Element>,
}

impl Model for LockInfo {
    ghost use Rattle.dav_engine.specs.LockInfo as asked;

    ghost Value = { asked.LockInfo };

    ghost use Rattle.dav_engine.specs.StateCode.{coded_lock_info};
    ghost use Rattle.dav_engine.specs.contracts.lock_scope.LockScope as lock_scope;

    ghost coded = { coded_lock_info lock_scope.the_row.coded };

    ghost use Rattle.dav_engine.specs.LockView.{lock_info_of};

    ghost view = { lock_info_of };
}

// The name of the first element in an element.
fn first_name(element: &Element) -> Option<&str>
    ensures { option_map (λ t. t.now) result ≡ spec.first_name element.now }
{
    Some(element.child_elems().next()?.name.as_str())
}

// The scope of this name.
fn scope_named(name: &str) -> Option<LockScope>
    ensures { result ≡ spec.scope_named name.now }
{
    match name {
        "exclusive" => Some(LockScope::Exclusive),
        "shared" => Some(LockScope::Shared),
        _ => None,
    }
}

// The scope that a `lockscope` states.
fn scope_of(part: &Element) -> Option<LockScope>
    ensures { result ≡ spec.scope_of part.now }
{
    if part.name.as_str() == "lockscope" {
        scope_named(first_name(part)?)
    } else {
        None
    }
}

// Whether it is a `locktype` that states a lock for writing.
fn is_write_type(part: &Element) -> bool
    ensures { result ≡ spec.is_write_type part.now }
{
    part.name.as_str() == "locktype" && first_name(part) == Some("write")
}

// Whether it is an `owner`.
fn is_owner(part: &Element) -> bool
    ensures { result ≡ spec.is_owner part.now }
{
    part.name.as_str() == "owner"
}

// Whether a `lockinfo` may hold it.
fn is_known(part: &Element) -> bool
    ensures { result ≡ spec.is_known part.now }
{
    scope_of(part).is_some() || is_write_type(part) || is_owner(part)
}

// Whether an element holds nothing unknown.
fn are_known(element: &Element) -> bool
    ensures { result ≡ list_all spec.is_known (child_elements element.now) }
{
    for part in element.child_elems() {
        if !is_known(part) {
            return false;
        }
    }
    true
}

// Whether an element states that the lock is for writing.
fn is_for_writing(element: &Element) -> bool
    ensures { result ≡ list_any spec.is_write_type (child_elements element.now) }
{
    for part in element.child_elems() {
        if is_write_type(part) {
            return true;
        }
    }
    false
}

// Whether it is a `lockinfo` that states a type and holds nothing unknown.
fn is_lock_info(element: &Element) -> bool
    ensures { result ≡ spec.is_lock_info element.now }
{
    element.name.as_str() == "lockinfo" && are_known(element) && is_for_writing(element)
}

// The scope that is stated last.
fn last_scope(element: &Element) -> Option<LockScope>
    ensures { result ≡ spec.last_scope (child_elements element.now) }
{
    let mut last = None;
    for part in element.child_elems() {
        if let Some(scope) = scope_of(part) {
            last = Some(scope);
        }
    }
    last
}

// The last owner.
fn last_owner(element: &Element) -> Option<&Element>
    ensures { option_copied result ≡ spec.last_owner (child_elements element.now) }
{
    let mut owner = None;
    for part in element.child_elems() {
        if is_owner(part) {
            owner = Some(part);
        }
    }
    owner
}

// An element as it came, but with the prefix `D`.
fn with_dav_prefix(alloc: Global, element: &Element) -> Result<Element, NoMemory>
    ensures { IfOk result (λ e. e ≡ with_dav_prefix element.now) }
{
    let mut element = element.clone()?;
    element.prefix = Some(String::from_str(alloc, "D")?);
    Ok(element)
}

// The last owner, with the prefix `D`.
fn owner_in(alloc: Global, element: &Element) -> Result<Option<Element>, NoMemory>
    ensures { IfOk result (λ owner.
        owner ≡ option_map with_dav_prefix (spec.last_owner (child_elements element.now))) }
{
    match last_owner(element) {
        Some(owner) => Ok(Some(with_dav_prefix(alloc, owner)?)),
        None => Ok(None),
    }
}

/// What a body asks for; nothing where it isn't a `lockinfo` that states a scope and a type, and holds nothing unknown. Of
/// several scopes and owners the last counts; the owner keeps all but its prefix, which is `D`. Memory runs out only where
/// the body asks for a lock.
pub fn lock_info(alloc: Global, body: &Body) -> Result<Option<LockInfo>, NoMemory>
    ensures ok { IfOk result (λ info. info ≡ spec.lock_info body.now) }
    ensures err { OnErr result (IsSome (spec.lock_info body.now)) }
{
    let Body::Tree(tree) = body else {
        return Ok(None);
    };
    if !is_lock_info(tree) {
        return Ok(None);
    }
    let Some(scope) = last_scope(tree) else {
        return Ok(None);
    };
    let owner = owner_in(alloc, tree)?;
    Ok(Some(LockInfo { scope, owner }))
}
