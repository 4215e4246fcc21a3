//! The responses of a multistatus, and how their parts are written (RFC 4918, sections 14.16 and 14.22).
ghost use Rattle.std.specs.Prelude.{◌≡◌, ◌∷◌, [], codes, map, option_map, IfOk, IsOkAnd};
ghost use Rattle.std.specs.List.{find};
ghost use Rattle.dav_core.specs.Element.{child_elements, named_by, text, with_child, with_children};
ghost use Rattle.dav_core.specs.ElementView.{node_tree};
ghost use Rattle.dav_presented.specs.Missing.{dav_element};
ghost use Rattle.dav_presented.specs.Names as name;
ghost use Rattle.dav_presented.specs.Responses as spec;

use crate::names::is_dav;
use dav_core::element::{Element, XmlNode};
use dav_core::errors::NoMemory;
use std::alloc::Global;

/// The status of properties that are there (RFC 9110, section 15.3.1).
pub(crate) const OK_STATUS: &str = "HTTP/1.1 200 OK";

/// A change of responses.
pub(crate) trait Change {
    ghost use Rattle.std.specs.Prelude.{◌≡◌, IfOk};
    ghost use Rattle.dav_core.specs.Element.{ElementTree};

    // What becomes of a response.
    ghost changed: { Self → ElementTree → ElementTree };

    /// What becomes of a response. `Err` where there is no memory.
    fn change(&self, alloc: Global, response: Element) -> Result<Element, NoMemory>
        ensures { IfOk result (λ e. e ≡ changed self.now response) };
}

// A child of a multistatus, where a response is changed.
fn changed_child<C: Change>(alloc: Global, change: &C, child: XmlNode) -> Result<XmlNode, NoMemory>
    ensures { IfOk result (λ node. node_tree node
        ≡ spec.changed_child (C.changed change.now) (node_tree child)) }
{
    match child {
        XmlNode::Element(element) => {
            if is_dav(&element, "response") {
                Ok(XmlNode::Element(change.change(alloc, element)?))
            } else {
                Ok(XmlNode::Element(element))
            }
        }
        XmlNode::Text(text) => Ok(XmlNode::Text(text)),
    }
}

// The children of a multistatus, where the responses are changed.
fn changed_children<C: Change>(
    alloc: Global,
    change: &C,
    children: Vec<XmlNode>,
) -> Result<Vec<XmlNode>, NoMemory>
    ensures { IfOk result (λ nodes. map node_tree nodes.items
        ≡ map (spec.changed_child (C.changed change.now)) (map node_tree children.items)) }
{
    let mut nodes = Vec::with_capacity(alloc, children.len())?;
    for child in children {
        nodes.push(changed_child(alloc, change, child)?)?;
    }
    Ok(nodes)
}

/// A multistatus whose responses are changed; all else stays. `Err` where there is no memory.
pub(crate) fn each_response<C: Change>(
    alloc: Global,
    change: &C,
    told: Element,
) -> Result<Element, NoMemory>
    ensures { IfOk result (λ sent. sent ≡ spec.each_response (C.changed change.now) told) }
{
    let Element {
        name,
        prefix,
        namespace,
        attributes,
        children,
    } = told;
    let children = changed_children(alloc, change, children)?;
    Ok(Element {
        name,
        prefix,
        namespace,
        attributes,
        children,
    })
}

// An element with elements in it.
fn holding_all(alloc: Global, name: &str, children: Vec<Element>) -> Result<Element, NoMemory>
    ensures { IfOk result (λ e. e ≡ with_children (named_by name.now) children.items) }
{
    let mut element = Element::new2(alloc, name)?;
    for child in children {
        element.push_element(child)?;
    }
    Ok(element)
}

// The status of properties.
fn status_element(alloc: Global, status: &str) -> Result<Element, NoMemory>
    ensures { IfOk result (λ e. e ≡ dav_element (codes "status") (text status.now ∷ [])) }
{
    let mut element = Element::new2(alloc, "D:status")?;
    element.text(status)?;
    Ok(element)
}

/// Properties under a status.
pub(crate) fn propstat_of(
    alloc: Global,
    status: &str,
    properties: Vec<Element>,
) -> Result<Element, NoMemory>
    ensures { IfOk result (λ e. e ≡ spec.propstat_of status.now properties.items) }
{
    let prop = holding_all(alloc, "D:prop", properties);
    let element = with_child(Element::new2(alloc, "D:propstat"), prop);
    with_child(element, status_element(alloc, status))
}

/// An element with one more child, where there was memory for both.
pub(crate) fn with_child(
    element: Result<Element, NoMemory>,
    child: Result<Element, NoMemory>,
) -> Result<Element, NoMemory>
    ensures { IfOk result (λ e. IsOkAnd element (λ parent. IsOkAnd child (λ c.
        e ≡ with_child parent c))) }
{
    let mut element = element?;
    element.push_element(child?)?;
    Ok(element)
}

/// The address in a response.
pub(crate) fn href(response: &Element) -> Option<&Element>
    ensures { option_map (λ e. e.now) result
        ≡ find (name.is_dav (codes "href")) (child_elements response.now) }
{
    for child in response.child_elems() {
        if is_dav(child, "href") {
            return Some(child);
        }
    }
    None
}
