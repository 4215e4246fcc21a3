//! The properties that are missing in the responses of a multistatus (RFC 4918, sections 9.1 and 14.24).
ghost use Rattle.std.specs.Prelude.{◌≡◌, ◌↔◌, ◌∷◌, [], codes, length, map, nat_lt, option_map, IfOk, OnOk, IsOkAnd, IsTrue, Some, ◌||◌};
ghost use Rattle.std.specs.List.{list_any};
ghost use Rattle.dav_core.specs.Element.{ElementTree, child_elements, named_by, text, with_child, with_children};
ghost use Rattle.dav_core.specs.ElementView.{node_tree};
ghost use Rattle.dav_presented.specs.Missing as spec;
ghost use Rattle.dav_presented.specs.NameSets.{has};
ghost use Rattle.dav_presented.specs.Told.{TellsAll};

use crate::names::set::{Name, add_name, has_name};
use crate::names::{is_dav, is_same};
use crate::responses::{Change, each_response, propstat_of, with_child};
use dav_core::element::Element;
use dav_core::errors::NoMemory;
use std::alloc::Global;
use std::collections::BTreeSet;

/// The most names that a PROPFIND is answered for: each response may tell of each that it lacks.
pub const MOST_NAMES: usize = 1000;

// The element that names properties, in the body of a PROPFIND.
pub(crate) fn prop_asked(propfind: &Element) -> Option<&Element>
    ensures { option_map (λ e. e.now) result ≡ spec.prop_among (child_elements propfind.now) }
{
    for part in propfind.child_elems() {
        if part.name.as_str() == "prop" {
            return Some(part);
        }
        if part.name.as_str() == "propname" || part.name.as_str() == "allprop" {
            return None;
        }
    }
    None
}

// Whether a `prop` names more properties than are answered for.
fn names_many(prop: &Element) -> bool
    ensures { result ≡ nat_lt 1000 (length (child_elements prop.now)) }
{
    let mut seen = 0;
    for _child in prop.child_elems() {
        if seen == MOST_NAMES {
            return true;
        }
        seen += 1;
    }
    false
}

/// Whether the body of a PROPFIND asks by a `prop` (RFC 4918, section 14.18) that names more than
/// 1,000 properties, `MOST_NAMES`, each counted as often as it stands there. The first of `prop`,
/// `propname` and `allprop` is the one that counts, as in `answered`.
pub fn asks_for_many(propfind: &Element) -> bool
    ensures { IsTrue result ↔ spec.AsksForMany propfind.now }
{
    match prop_asked(propfind) {
        Some(prop) => names_many(prop),
        None => false,
    }
}

// Whether a property is among the children of a `prop`.
pub(crate) fn is_in_prop(property: &Element, prop: &Element) -> bool
    ensures { result ≡ spec.is_in_prop property.now prop.now }
{
    for child in prop.child_elems() {
        if is_same(property, child) {
            return true;
        }
    }
    false
}

// Whether a property is under the status of a `propstat`.
fn is_in_propstat(property: &Element, propstat: &Element) -> bool
    ensures { result ≡ spec.is_in_propstat property.now propstat.now }
{
    for child in propstat.child_elems() {
        if is_dav(child, "prop") && is_in_prop(property, child) {
            return true;
        }
    }
    false
}

// Whether a property is told in a response.
pub(crate) fn is_told(property: &Element, response: &Element) -> bool
    ensures { result ≡ spec.is_told property.now response.now }
{
    for child in response.child_elems() {
        if is_dav(child, "propstat") && is_in_propstat(property, child) {
            return true;
        }
    }
    false
}

// An element of a property's name, with nothing in it.
fn bare(alloc: Global, property: &Element) -> Result<Element, NoMemory>
    ensures { IfOk result (λ e. e ≡ spec.bare property.now) }
{
    Ok(Element {
        name: property.name.clone()?,
        prefix: property.prefix.clone()?,
        namespace: property.namespace.clone()?,
        attributes: Vec::new(alloc),
        children: Vec::new(alloc),
    })
}

// The properties that a `prop` names, each once and with nothing in it.
fn named_once(alloc: Global, prop: &Element) -> Result<Vec<Element>, NoMemory>
    ensures { IfOk result (λ once. once.items ≡ spec.named_once (child_elements prop.now)) }
{
    let mut seen = BTreeSet::new(alloc);
    let mut once = Vec::new(alloc);
    for property in prop.child_elems() {
        if !has_name(&seen, property) {
            add_name(&mut seen, property)?;
            once.push(bare(alloc, property)?)?;
        }
    }
    Ok(once)
}

// Adds the names that are told by a `prop`.
fn add_prop<'a>(names: &mut BTreeSet<Name<'a>>, prop: &'a Element) -> Result<(), NoMemory>
    ensures { OnOk result ((e : ElementTree)
        → has e names.new ≡ (has e names.old || spec.is_in_prop e prop.now)) }
{
    for property in prop.child_elems() {
        add_name(names, property)?;
    }
    Ok(())
}

// Adds the names that are told by a `propstat`.
fn add_propstat<'a>(names: &mut BTreeSet<Name<'a>>, propstat: &'a Element) -> Result<(), NoMemory>
    ensures { OnOk result ((e : ElementTree)
        → has e names.new ≡ (has e names.old || spec.is_in_propstat e propstat.now)) }
{
    for child in propstat.child_elems() {
        if is_dav(child, "prop") {
            add_prop(names, child)?;
        }
    }
    Ok(())
}

// The names that a response tells.
fn told_names<'a>(alloc: Global, response: &'a Element) -> Result<BTreeSet<Name<'a>>, NoMemory>
    ensures { IfOk result (λ names. (e : ElementTree) → has e names ≡ spec.is_told e response.now) }
{
    let mut names = BTreeSet::new(alloc);
    for child in response.child_elems() {
        if is_dav(child, "propstat") {
            add_propstat(&mut names, child)?;
        }
    }
    Ok(names)
}

// What is missing in a response of the properties that are asked for, each once.
fn missing_in<'a>(
    alloc: Global,
    asked: &'a [Element],
    response: &'a Element,
) -> Result<Vec<Element>, NoMemory>
    ensures { IfOk result (λ missing. missing.items ≡ spec.untold response.now asked.now) }
{
    let told = told_names(alloc, response)?;
    let mut missing = Vec::new(alloc);
    for property in asked {
        if !has_name(&told, property) {
            missing.push(property.clone()?)?;
        }
    }
    Ok(missing)
}

// Properties that aren't there, under 404.
fn not_found(alloc: Global, missing: Vec<Element>) -> Result<Element, NoMemory>
    ensures { IfOk result (λ e. e ≡ spec.not_found missing.items) }
{
    propstat_of(alloc, "HTTP/1.1 404 Not Found", missing)
}

// A response with what is missing in it of the properties that are asked for, each once.
fn completed(alloc: Global, asked: &[Element], response: Element) -> Result<Element, NoMemory>
    ensures { IfOk result (λ e.
        e ≡ spec.with_missing response (spec.untold response asked.now)) }
{
    let missing = missing_in(alloc, asked, &response)?;
    if missing.is_empty() {
        return Ok(response);
    }
    with_child(Ok(response), not_found(alloc, missing))
}

// The change by which each response tells what is missing of the properties that are asked for.
#[derive(Drop)]
struct Completing<'a> {
    asked: &'a [Element],
}

impl<'a> Change for Completing<'a> {
    ghost use Rattle.dav_presented.specs.Missing.{with_missing, untold};

    ghost changed = { λ c response. with_missing response (untold response c.asked.now) };

    fn change(&self, alloc: Global, response: Element) -> Result<Element, NoMemory> {
        completed(alloc, self.asked, response)
    }
}

// The multistatus that is sent to who asks for the properties that a `prop` names.
fn answered_to_names(alloc: Global, prop: &Element, told: Element) -> Result<Element, NoMemory>
    ensures { IfOk result (λ sent. sent ≡ spec.completed_tree (Some prop.now) told) }
{
    let asked = named_once(alloc, prop)?;
    each_response(alloc, &Completing { asked: &asked }, told)
}

// The multistatus that is sent.
fn answered_by(alloc: Global, prop: Option<&Element>, told: Element) -> Result<Element, NoMemory>
    ensures { IfOk result (λ sent.
        sent ≡ spec.completed_tree (option_map (λ e. e.now) prop.entry) told) }
{
    match prop {
        Some(prop) => answered_to_names(alloc, prop, told),
        None => Ok(told),
    }
}

/// The multistatus that is sent to a PROPFIND with this body, of which the machine told this one (RFC
/// 4918, sections 9.1 and 14.24): where the body names properties, each response has a `propstat` with
/// the status 404 and each name that isn't told in it, once, in the order of the request. All else
/// stays. `asks_for_many` tells where that is too much work. `Err` where there is no memory.
#[tactic(auto, using(crate::proofs::MissingLemmas::tells_all_of))]
pub fn answered(alloc: Global, propfind: &Element, told: Element) -> Result<Element, NoMemory>
    ensures is { IfOk result (λ sent. sent ≡ spec.answered propfind.now told) }
    ensures tells { IfOk result (λ sent.
        TellsAll (spec.prop_among (child_elements propfind.now)) told sent) }
{
    answered_by(alloc, prop_asked(propfind), told)
}
