//! What the body of a PROPFIND asks for (RFC 4918, sections 9.1 and 14.20).
ghost use Rattle.std.specs.Prelude.{◌≡◌, option_map, IfOk};
ghost use Rattle.dav_core.specs.Element.{child_elements};
ghost use Rattle.dav_engine.specs.FindView.{query_view};
ghost use Rattle.dav_engine.specs.Propfind as spec;

use crate::properties::kind::{Telling, is_in};
use crate::request::{Body, is_absent};
use dav_core::element::Element;
use dav_core::errors::NoMemory;
use std::alloc::Global;

/// What a body asks for, and of which properties.
pub type Query = (Telling, Vec<Element>);

// The elements in an element.
fn elements_in(alloc: Global, element: &Element) -> Result<Vec<Element>, NoMemory>
    ensures { IfOk result (λ es. es.items ≡ child_elements element.now) }
{
    let mut elements = Vec::new(alloc);
    for child in element.child_elems() {
        elements.push(child.clone()?)?;
    }
    Ok(elements)
}

// The elements that a `propfind` includes, beside all properties.
fn included_in(alloc: Global, tree: &Element) -> Result<Vec<Element>, NoMemory>
    ensures { IfOk result (λ es. es.items ≡ spec.included_in tree.now) }
{
    for part in tree.child_elems() {
        if part.name.as_str() == "includes" {
            return elements_in(alloc, part);
        }
    }
    Ok(Vec::new(alloc))
}

// What one element of a `propfind` asks for.
fn query_by(alloc: Global, tree: &Element, part: &Element) -> Result<Option<Query>, NoMemory>
    ensures { IfOk result (λ query. option_map query_view query
        ≡ spec.query_by (spec.included_in tree.now) part.now) }
{
    match part.name.as_str() {
        "propname" => Ok(Some((Telling::NamesAlone, Vec::new(alloc)))),
        "prop" => Ok(Some((Telling::Requested, elements_in(alloc, part)?))),
        "allprop" => Ok(Some((Telling::AllProperties, included_in(alloc, tree)?))),
        _ => Ok(None),
    }
}

// What the first element of a `propfind` that asks for something asks for.
fn query_among(alloc: Global, tree: &Element) -> Result<Option<Query>, NoMemory>
    ensures { IfOk result (λ query. option_map query_view query
        ≡ spec.query_among (spec.included_in tree.now) (child_elements tree.now)) }
{
    for part in tree.child_elems() {
        let query = query_by(alloc, tree, part)?;
        if query.is_some() {
            return Ok(query);
        }
    }
    Ok(None)
}

/// What a body asks for, and of which properties: without one all properties; nothing where it isn't that of a PROPFIND.
pub fn query_in(alloc: Global, body: &Body) -> Result<Option<Query>, NoMemory>
    ensures { IfOk result (λ query. option_map query_view query ≡ spec.query_in body.now) }
{
    if is_absent(body) {
        return Ok(Some((Telling::AllProperties, Vec::new(alloc))));
    }
    let Body::Tree(tree) = body else {
        return Ok(None);
    };
    if tree.name.as_str() == "propfind" && is_in("DAV:", tree) {
        query_among(alloc, tree)
    } else {
        Ok(None)
    }
}
