//! The times in the bodies of requests: those that are set, and those that are asked for.
ghost use Rattle.std.specs.Prelude.{◌≡◌, ◌≤◌, codes, map, string_bytes, IfOk};
ghost use Rattle.std.specs.List.{list_any};
ghost use Rattle.std.specs.Option.{option_and_then};
ghost use Rattle.httpdate.specs.Date.{parse_secs};
ghost use Rattle.dav_core.specs.Element.{child_elements, children_of, text_of, with_children};
ghost use Rattle.dav_core.specs.ElementView.{node_tree};
ghost use Rattle.dav_core.specs.World.{last_moment};
ghost use Rattle.dav_presented.specs.Times as spec;

use super::{OWN_SPACE, date_text, is_own, is_time, moment_in};
use crate::texts::texts;
use dav_core::element::{Element, XmlNode};
use dav_core::errors::NoMemory;
use std::alloc::Global;

// The property by which a time is kept.
fn kept(alloc: Global, name: String, time: u64, moment: u64) -> Result<Element, NoMemory>
    requires time { time ≤ last_moment }
    requires moment { moment ≤ last_moment }
    ensures { IfOk result (λ e. e ≡ spec.kept (string_bytes name) time moment) }
{
    let mut dates = date_text(alloc, time)?;
    let date = date_text(alloc, moment)?;
    dates.push_str(date.as_str())?;
    let own = String::from_str(alloc, "modified")?;
    let space = String::from_str(alloc, OWN_SPACE)?;
    let children = texts(alloc, dates.as_str())?;
    Ok(Element {
        name: own,
        prefix: Some(name),
        namespace: Some(space),
        attributes: Vec::new(alloc),
        children,
    })
}

// A property of `DAV:` with that name.
fn refused(alloc: Global, property: Element) -> Result<Element, NoMemory>
    ensures { IfOk result (λ e. e ≡ spec.refused property) }
{
    let Element { name, .. } = property;
    let prefix = String::from_str(alloc, "D")?;
    let space = String::from_str(alloc, "DAV:")?;
    Ok(Element {
        name,
        prefix: Some(prefix),
        namespace: Some(space),
        attributes: Vec::new(alloc),
        children: Vec::new(alloc),
    })
}

// What a time is set as.
fn time_set_as(alloc: Global, moment: u64, property: Element) -> Result<Element, NoMemory>
    requires { moment ≤ last_moment }
    ensures { IfOk result (λ e. e ≡ spec.kept_if moment property
        (option_and_then parse_secs (text_of property))) }
{
    match moment_in(alloc, &property)? {
        Some(time) => {
            let Element { name, .. } = property;
            kept(alloc, name, time, moment)
        }
        None => Ok(property),
    }
}

// What a property is set as at this moment.
fn set_as(alloc: Global, moment: u64, property: Element) -> Result<Element, NoMemory>
    requires { moment ≤ last_moment }
    ensures { IfOk result (λ e. e ≡ spec.set_as moment property) }
{
    if is_time(&property) {
        return time_set_as(alloc, moment, property);
    }
    if is_own(&property) {
        return refused(alloc, property);
    }
    Ok(property)
}

// A child of a `prop`.
fn in_prop(alloc: Global, moment: u64, child: XmlNode) -> Result<XmlNode, NoMemory>
    requires { moment ≤ last_moment }
    ensures { IfOk result (λ n. node_tree n ≡ spec.set_as moment (node_tree child)) }
{
    match child {
        XmlNode::Element(element) => Ok(XmlNode::Element(set_as(alloc, moment, element)?)),
        XmlNode::Text(text) => Ok(XmlNode::Text(text)),
    }
}

// The children of a `prop`.
fn all_in_prop(alloc: Global, moment: u64, children: Vec<XmlNode>) -> Result<Vec<XmlNode>, NoMemory>
    requires { moment ≤ last_moment }
    ensures { IfOk result (λ ns. map node_tree ns.items
        ≡ map (spec.set_as moment) (map node_tree children.items)) }
{
    let mut nodes = Vec::with_capacity(alloc, children.len())?;
    for child in children {
        nodes.push(in_prop(alloc, moment, child)?)?;
    }
    Ok(nodes)
}

// A `prop` whose properties are set so.
fn prop(alloc: Global, moment: u64, asked: Element) -> Result<Element, NoMemory>
    requires { moment ≤ last_moment }
    ensures { IfOk result (λ e. e
        ≡ with_children asked (map (spec.set_as moment) (children_of asked))) }
{
    let Element {
        name,
        prefix,
        namespace,
        attributes,
        children,
    } = asked;
    let children = all_in_prop(alloc, moment, children)?;
    Ok(Element {
        name,
        prefix,
        namespace,
        attributes,
        children,
    })
}

// A child of a `set`.
fn in_set(alloc: Global, moment: u64, child: XmlNode) -> Result<XmlNode, NoMemory>
    requires { moment ≤ last_moment }
    ensures { IfOk result (λ n. node_tree n
        ≡ spec.each_named (codes "prop") (spec.set_as moment) (node_tree child)) }
{
    match child {
        XmlNode::Element(element) => {
            if element.name.as_str() == "prop" {
                Ok(XmlNode::Element(prop(alloc, moment, element)?))
            } else {
                Ok(XmlNode::Element(element))
            }
        }
        XmlNode::Text(text) => Ok(XmlNode::Text(text)),
    }
}

// The children of a `set`.
fn all_in_set(alloc: Global, moment: u64, children: Vec<XmlNode>) -> Result<Vec<XmlNode>, NoMemory>
    requires { moment ≤ last_moment }
    ensures { IfOk result (λ ns. map node_tree ns.items
        ≡ map (spec.each_named (codes "prop") (spec.set_as moment))
        (map node_tree children.items)) }
{
    let mut nodes = Vec::with_capacity(alloc, children.len())?;
    for child in children {
        nodes.push(in_set(alloc, moment, child)?)?;
    }
    Ok(nodes)
}

// A `set` whose properties are set so.
fn set(alloc: Global, moment: u64, asked: Element) -> Result<Element, NoMemory>
    requires { moment ≤ last_moment }
    ensures { IfOk result (λ e. e ≡ with_children asked
        (map (spec.each_named (codes "prop") (spec.set_as moment)) (children_of asked))) }
{
    let Element {
        name,
        prefix,
        namespace,
        attributes,
        children,
    } = asked;
    let children = all_in_set(alloc, moment, children)?;
    Ok(Element {
        name,
        prefix,
        namespace,
        attributes,
        children,
    })
}

// A child of a `propertyupdate`.
fn in_update(alloc: Global, moment: u64, child: XmlNode) -> Result<XmlNode, NoMemory>
    requires { moment ≤ last_moment }
    ensures { IfOk result (λ n. node_tree n ≡ spec.each_named (codes "set")
        (spec.each_named (codes "prop") (spec.set_as moment)) (node_tree child)) }
{
    match child {
        XmlNode::Element(element) => {
            if element.name.as_str() == "set" {
                Ok(XmlNode::Element(set(alloc, moment, element)?))
            } else {
                Ok(XmlNode::Element(element))
            }
        }
        XmlNode::Text(text) => Ok(XmlNode::Text(text)),
    }
}

// The children of a `propertyupdate`.
fn all_in_update(
    alloc: Global,
    moment: u64,
    children: Vec<XmlNode>,
) -> Result<Vec<XmlNode>, NoMemory>
    requires { moment ≤ last_moment }
    ensures { IfOk result (λ ns. map node_tree ns.items
        ≡ map (spec.each_named (codes "set")
        (spec.each_named (codes "prop") (spec.set_as moment))) (map node_tree children.items)) }
{
    let mut nodes = Vec::with_capacity(alloc, children.len())?;
    for child in children {
        nodes.push(in_update(alloc, moment, child)?)?;
    }
    Ok(nodes)
}

/// The body of a PROPPATCH as it is run at this moment, in seconds since 1970, which is at most the end of
/// 9999 (RFC 4918, section 9.2). In each `prop` of a `set` a `getlastmodified` and Windows'
/// `Win32LastModifiedTime` that are dates become the property by which such a time is kept, and a property of
/// the server's own namespace one of `DAV:`, which the machine refuses; all else stays. `Err` where there is
/// no memory.
pub fn patch_as(alloc: Global, moment: u64, tree: Element) -> Result<Element, NoMemory>
    requires { moment ≤ last_moment }
    ensures { IfOk result (λ e. e ≡ spec.patch_as moment tree) }
{
    let Element {
        name,
        prefix,
        namespace,
        attributes,
        children,
    } = tree;
    let children = all_in_update(alloc, moment, children)?;
    Ok(Element {
        name,
        prefix,
        namespace,
        attributes,
        children,
    })
}

// Whether a `prop` asks for a time.
fn asks_for_time(prop: &Element) -> bool
    ensures { result ≡ list_any spec.is_time (child_elements prop.now) }
{
    for child in prop.child_elems() {
        if is_time(child) {
            return true;
        }
    }
    false
}

// The property by which a time is kept, as it is asked for.
fn own_time(alloc: Global) -> Result<Element, NoMemory>
    ensures { IfOk result (λ e. e ≡ spec.own_time) }
{
    let mut element = Element::new2(alloc, "T:modified")?;
    element.namespace = Some(String::from_str(alloc, OWN_SPACE)?);
    Ok(element)
}

// An element that says what is asked for.
fn asked_too(alloc: Global, mut asked: Element) -> Result<Element, NoMemory>
    ensures { IfOk result (λ e. e ≡ spec.asked_too asked) }
{
    if asked.name.as_str() == "prop" && asks_for_time(&asked) {
        asked.push_element(own_time(alloc)?)?;
    }
    Ok(asked)
}

// A child of the body of a PROPFIND.
fn in_find(alloc: Global, child: XmlNode) -> Result<XmlNode, NoMemory>
    ensures { IfOk result (λ n. node_tree n ≡ spec.asked_too (node_tree child)) }
{
    match child {
        XmlNode::Element(element) => Ok(XmlNode::Element(asked_too(alloc, element)?)),
        XmlNode::Text(text) => Ok(XmlNode::Text(text)),
    }
}

// The children of the body of a PROPFIND.
fn all_in_find(alloc: Global, children: Vec<XmlNode>) -> Result<Vec<XmlNode>, NoMemory>
    ensures { IfOk result (λ ns. map node_tree ns.items
        ≡ map spec.asked_too (map node_tree children.items)) }
{
    let mut nodes = Vec::with_capacity(alloc, children.len())?;
    for child in children {
        nodes.push(in_find(alloc, child)?)?;
    }
    Ok(nodes)
}

/// The body of a PROPFIND as it is run (RFC 4918, section 9.1): each `prop` that asks for `getlastmodified` or
/// `Win32LastModifiedTime` asks for the time that is kept as well; all else stays. `Err` where there is no
/// memory.
pub fn find_as(alloc: Global, tree: Element) -> Result<Element, NoMemory>
    ensures { IfOk result (λ e. e ≡ spec.find_as tree) }
{
    let Element {
        name,
        prefix,
        namespace,
        attributes,
        children,
    } = tree;
    let children = all_in_find(alloc, children)?;
    Ok(Element {
        name,
        prefix,
        namespace,
        attributes,
        children,
    })
}
