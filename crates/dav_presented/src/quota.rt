//! The room that a folder tells (RFC 4331).
ghost use Rattle.std.specs.Prelude.{◌≡◌, ◌∷◌, ◌++◌, ◌&&◌, [], codes, decimal, map, not, option_map, string_bytes, IfOk, OnOk, Some};
ghost use Rattle.std.specs.List.{filter, list_any};
ghost use Rattle.dav_core.specs.Element.{child_elements, children_of, text, text_of, with_child, with_children, named_by};
ghost use Rattle.dav_core.specs.ElementView.{node_tree};
ghost use Rattle.dav_presented.specs.Missing as missing;
ghost use Rattle.dav_presented.specs.Quota as spec;
ghost use Rattle.dav_presented.specs.Responses.{ok_status, propstat_of};

use crate::missing::{is_in_prop, is_told, prop_asked};
use crate::names::is_dav;
use crate::responses::{Change, OK_STATUS, each_response, href, propstat_of, with_child};
use dav_core::element::{Element, XmlNode};
use dav_core::errors::NoMemory;
use std::alloc::Global;

/// The room for files (RFC 4331).
#[derive(Clone, Copy, Debug, PartialEq, Eq)]
pub struct Room {
    /// How many bytes are in use (section 4).
    pub used: u64,
    /// How many bytes can still be stored (section 3).
    pub available: u64,
}

// A property that is a number of bytes.
fn bytes_property(alloc: Global, name: &str, count: u64) -> Result<Element, NoMemory>
    ensures { IfOk result (λ e. e ≡ with_children (named_by name.now) (text (decimal count) ∷ [])) }
{
    let mut element = Element::new2(alloc, name)?;
    let count = format!(in alloc; "{count}")?;
    element.text(&count)?;
    Ok(element)
}

// Adds a property, where a `prop` names it and a response doesn't tell it.
fn add_named(
    prop: &Element,
    response: &Element,
    property: Element,
    named: &mut Vec<Element>,
) -> Result<(), NoMemory>
    ensures { OnOk result (named.new.items ≡ named.old.items
        ++ filter (λ e. missing.is_in_prop e prop.now && not (missing.is_told e response.now))
        (property ∷ [])) }
{
    if is_in_prop(&property, prop) && !is_told(&property, response) {
        named.push(property)?;
    }
    Ok(())
}

// The room, as far as a `prop` names it and a response doesn't tell it.
fn named_quota(
    alloc: Global,
    room: Room,
    prop: &Element,
    response: &Element,
) -> Result<Vec<Element>, NoMemory>
    ensures { IfOk result (λ es. es.items ≡ spec.named_quota room prop.now response.now) }
{
    let mut named = Vec::new(alloc);
    let available = bytes_property(alloc, "D:quota-available-bytes", room.available)?;
    add_named(prop, response, available, &mut named)?;
    let used = bytes_property(alloc, "D:quota-used-bytes", room.used)?;
    add_named(prop, response, used, &mut named)?;
    Ok(named)
}

// Whether a response is about a folder.
fn is_of_folder(alloc: Global, response: &Element) -> Result<bool, NoMemory>
    ensures { IfOk result (λ is. is ≡ spec.is_of_folder response.now) }
{
    let Some(href) = href(response) else {
        return Ok(false);
    };
    match href.get_text(alloc)? {
        Some(address) => Ok(address.as_bytes().ends_with(b"/")),
        None => Ok(false),
    }
}

// Whether an element is the status 200.
fn says_ok(alloc: Global, element: &Element) -> Result<bool, NoMemory>
    ensures { IfOk result (λ says. says ≡ spec.says_ok element.now) }
{
    if !is_dav(element, "status") {
        return Ok(false);
    }
    match element.get_text(alloc)? {
        Some(status) => Ok(status.as_str() == OK_STATUS),
        None => Ok(false),
    }
}

// Whether an element is a `propstat` of properties that are there.
fn is_found(alloc: Global, element: &Element) -> Result<bool, NoMemory>
    ensures { IfOk result (λ is. is ≡ spec.is_found element.now) }
{
    if !is_dav(element, "propstat") {
        return Ok(false);
    }
    for child in element.child_elems() {
        if says_ok(alloc, child)? {
            return Ok(true);
        }
    }
    Ok(false)
}

// Whether a response tells of properties that are there.
fn has_found(alloc: Global, response: &Element) -> Result<bool, NoMemory>
    ensures { IfOk result (λ has. has ≡ list_any spec.is_found (child_elements response.now)) }
{
    for child in response.child_elems() {
        if is_found(alloc, child)? {
            return Ok(true);
        }
    }
    Ok(false)
}

// A `prop` with copies of more properties.
fn more_in_prop(more: &[Element], prop: Element) -> Result<Element, NoMemory>
    ensures { IfOk result (λ e. e ≡ with_children prop (children_of prop ++ more.now)) }
{
    let mut filled = prop;
    for property in more {
        filled.push_element(property.clone()?)?;
    }
    Ok(filled)
}

// A child of a `propstat`.
fn in_propstat(more: &[Element], child: XmlNode) -> Result<XmlNode, NoMemory>
    ensures { IfOk result (λ node. node_tree node
        ≡ spec.more_in_prop more.now (node_tree child)) }
{
    match child {
        XmlNode::Element(element) => {
            if is_dav(&element, "prop") {
                Ok(XmlNode::Element(more_in_prop(more, element)?))
            } else {
                Ok(XmlNode::Element(element))
            }
        }
        XmlNode::Text(text) => Ok(XmlNode::Text(text)),
    }
}

// The children of a `propstat`.
fn all_in_propstat(
    alloc: Global,
    more: &[Element],
    children: Vec<XmlNode>,
) -> Result<Vec<XmlNode>, NoMemory>
    ensures { IfOk result (λ nodes. map node_tree nodes.items
        ≡ map (spec.more_in_prop more.now) (map node_tree children.items)) }
{
    let mut nodes = Vec::with_capacity(alloc, children.len())?;
    for child in children {
        nodes.push(in_propstat(more, child)?)?;
    }
    Ok(nodes)
}

// A `propstat` with more properties.
fn more_in_propstat(alloc: Global, more: &[Element], propstat: Element) -> Result<Element, NoMemory>
    ensures { IfOk result (λ e. e ≡ with_children propstat
        (map (spec.more_in_prop more.now) (children_of propstat))) }
{
    let Element {
        name,
        prefix,
        namespace,
        attributes,
        children,
    } = propstat;
    let children = all_in_propstat(alloc, more, children)?;
    Ok(Element {
        name,
        prefix,
        namespace,
        attributes,
        children,
    })
}

// A child of a response.
fn in_response(alloc: Global, more: &[Element], child: XmlNode) -> Result<XmlNode, NoMemory>
    ensures { IfOk result (λ node. node_tree node
        ≡ spec.more_in_found more.now (node_tree child)) }
{
    match child {
        XmlNode::Element(element) => {
            if is_found(alloc, &element)? {
                Ok(XmlNode::Element(more_in_propstat(alloc, more, element)?))
            } else {
                Ok(XmlNode::Element(element))
            }
        }
        XmlNode::Text(text) => Ok(XmlNode::Text(text)),
    }
}

// The children of a response.
fn all_in_response(
    alloc: Global,
    more: &[Element],
    children: Vec<XmlNode>,
) -> Result<Vec<XmlNode>, NoMemory>
    ensures { IfOk result (λ nodes. map node_tree nodes.items
        ≡ map (spec.more_in_found more.now) (map node_tree children.items)) }
{
    let mut nodes = Vec::with_capacity(alloc, children.len())?;
    for child in children {
        nodes.push(in_response(alloc, more, child)?)?;
    }
    Ok(nodes)
}

// A response with more properties under 200.
fn more_in_response(alloc: Global, more: &[Element], response: Element) -> Result<Element, NoMemory>
    ensures { IfOk result (λ e. e ≡ with_children response
        (map (spec.more_in_found more.now) (children_of response))) }
{
    let Element {
        name,
        prefix,
        namespace,
        attributes,
        children,
    } = response;
    let children = all_in_response(alloc, more, children)?;
    Ok(Element {
        name,
        prefix,
        namespace,
        attributes,
        children,
    })
}

// Properties under 200.
fn found_propstat(alloc: Global, properties: Vec<Element>) -> Result<Element, NoMemory>
    ensures { IfOk result (λ e. e ≡ propstat_of ok_status properties.items) }
{
    propstat_of(alloc, OK_STATUS, properties)
}

// A response with a `propstat` of these properties.
fn with_new(alloc: Global, more: Vec<Element>, response: Element) -> Result<Element, NoMemory>
    ensures { IfOk result (λ e. e ≡ with_child response (propstat_of ok_status more.items)) }
{
    with_child(Ok(response), found_propstat(alloc, more))
}

// A response with these properties under 200.
fn with_found(alloc: Global, more: Vec<Element>, response: Element) -> Result<Element, NoMemory>
    ensures { IfOk result (λ e. e ≡ spec.with_found more.items response) }
{
    if has_found(alloc, &response)? {
        more_in_response(alloc, &more, response)
    } else {
        with_new(alloc, more, response)
    }
}

// A response that tells more properties.
fn telling(alloc: Global, more: Vec<Element>, response: Element) -> Result<Element, NoMemory>
    ensures { IfOk result (λ e. e ≡ spec.telling more.items response) }
{
    if more.is_empty() {
        return Ok(response);
    }
    with_found(alloc, more, response)
}

// The change by which folders tell the room that a `prop` names.
#[derive(Drop)]
struct Measuring<'a> {
    room: Room,
    prop: &'a Element,
}

impl<'a> Change for Measuring<'a> {
    ghost use Rattle.dav_presented.specs.Quota.{with_quota_of};

    ghost changed = { λ t response. with_quota_of t.room t.prop.now response };

    fn change(&self, alloc: Global, response: Element) -> Result<Element, NoMemory> {
        if !is_of_folder(alloc, &response)? {
            return Ok(response);
        }
        let named = named_quota(alloc, self.room, self.prop, &response)?;
        telling(alloc, named, response)
    }
}

// Whether a `prop` names a property of the room.
fn names_quota(prop: &Element) -> bool
    ensures { result ≡ spec.names_quota prop.now }
{
    for child in prop.child_elems() {
        if is_dav(child, "quota-available-bytes") || is_dav(child, "quota-used-bytes") {
            return true;
        }
    }
    false
}

/// Whether the body of a PROPFIND asks for the room: by a `prop` that names `quota-available-bytes` or
/// `quota-used-bytes` of `DAV:` (RFC 4331, sections 3 and 4). Where it doesn't, `with_quota` changes
/// nothing.
pub fn asks_for_quota(propfind: &Element) -> bool
    ensures { result ≡ spec.asks_for_quota propfind.now }
{
    match prop_asked(propfind) {
        Some(prop) => names_quota(prop),
        None => false,
    }
}

// The multistatus to a request that asks by this element.
fn with_quota_for(
    alloc: Global,
    room: Room,
    prop: &Element,
    told: Element,
) -> Result<Element, NoMemory>
    ensures { IfOk result (λ sent. sent ≡ spec.with_quota_for room (Some prop.now) told) }
{
    if names_quota(prop) {
        each_response(alloc, &Measuring { room, prop }, told)
    } else {
        Ok(told)
    }
}

/// The multistatus to a PROPFIND with this body, in which each response about a folder, one whose
/// address ends in a slash, tells `quota-available-bytes` and `quota-used-bytes` of `DAV:` by this
/// room (RFC 4331, sections 3 and 4), where the body names them and the response didn't tell them
/// before. All else stays, as it does where the body asks for all properties, or for names alone.
/// `Err` where there is no memory.
pub fn with_quota(
    alloc: Global,
    room: Room,
    propfind: &Element,
    told: Element,
) -> Result<Element, NoMemory>
    ensures { IfOk result (λ sent. sent ≡ spec.with_quota room propfind.now told) }
{
    match prop_asked(propfind) {
        Some(prop) => with_quota_for(alloc, room, prop, told),
        None => Ok(told),
    }
}
