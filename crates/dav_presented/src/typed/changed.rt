//! Trees in which properties are changed.
ghost use Rattle.std.specs.Prelude.{◌≡◌, ◌≤◌, ◌++◌, [], codes, map, option_map, IfOk, IfSome, OnOk};
ghost use Rattle.std.specs.List.{cons_option, filter_map};
ghost use Rattle.dav_core.specs.Element.{children_of, text_of, with_children};
ghost use Rattle.dav_core.specs.ElementView.{node_tree};
ghost use Rattle.dav_core.specs.World.{last_moment};
ghost use Rattle.dav_presented.specs.Times as times;
ghost use Rattle.dav_presented.specs.TimesParts.{IsDated};
ghost use Rattle.dav_presented.specs.Typed as spec;
ghost use Rattle.dav_presented.specs.declared.times.Telling.TheVariants.{Found};

use super::usual::with_usual_name;
use crate::names::is_dav;
use crate::responses::href;
use crate::texts::saying;
use crate::times::{Telling, Times, is_own, named_as_set, timed, times_told};
use crate::types::type_of;
use dav_core::element::{Element, XmlNode};
use dav_core::errors::NoMemory;
use std::alloc::Global;

// Whether an element has the type that says nothing.
fn is_unknown(alloc: Global, element: &Element) -> Result<bool, NoMemory>
    ensures { IfOk result (λ b. b ≡ spec.is_unknown (text_of element.now)) }
{
    match element.get_text(alloc)? {
        Some(told) => Ok(told.as_str() == "application/octet-stream"),
        None => Ok(false),
    }
}

// A property: that type gets this one, where there is one.
fn typed_property(alloc: Global, kind: Option<&str>, property: Element) -> Result<Element, NoMemory>
    ensures { IfOk result (λ e.
        e ≡ spec.typed_property (option_map (λ t. t.now) kind.entry) property) }
{
    let Some(kind) = kind else {
        return Ok(property);
    };
    if is_dav(&property, "getcontenttype") && is_unknown(alloc, &property)? {
        saying(alloc, property, kind)
    } else {
        Ok(property)
    }
}

// What is told of a property that was found.
fn found_property(
    alloc: Global,
    kind: Option<&str>,
    times: Option<Times>,
    property: Element,
) -> Result<Element, NoMemory>
    requires { IfSome times (λ times. times.0 ≤ last_moment) }
    ensures { IfOk result (λ e.
        e ≡ spec.found_property (option_map (λ t. t.now) kind.entry) times property) }
{
    let property = timed(alloc, times, property)?;
    with_usual_name(alloc, typed_property(alloc, kind, property)?)
}

// What is told of a property, if anything is.
fn told_property(
    alloc: Global,
    kind: Option<&str>,
    telling: Telling,
    property: Element,
) -> Result<Option<Element>, NoMemory>
    requires { IsDated telling }
    ensures { IfOk result (λ e.
        e ≡ spec.told_property (option_map (λ t. t.now) kind.entry) telling property) }
{
    match telling {
        Telling::Found(times) => {
            if is_own(&property) {
                Ok(None)
            } else {
                Ok(Some(found_property(alloc, kind, times, property)?))
            }
        }
        Telling::Outcome => Ok(Some(named_as_set(alloc, property)?)),
    }
}

// What is told of a child of a `prop`, if anything is.
fn in_prop(
    alloc: Global,
    kind: Option<&str>,
    telling: Telling,
    child: XmlNode,
) -> Result<Option<XmlNode>, NoMemory>
    requires { IsDated telling }
    ensures { IfOk result (λ n. option_map node_tree n ≡ spec.child_told
        (spec.told_property (option_map (λ t. t.now) kind.entry) telling) (node_tree child)) }
{
    match child {
        XmlNode::Element(element) => match told_property(alloc, kind, telling, element)? {
            Some(told) => Ok(Some(XmlNode::Element(told))),
            None => Ok(None),
        },
        XmlNode::Text(_) => Ok(None),
    }
}

// Adds what is told, if anything is.
fn add(nodes: &mut Vec<XmlNode>, told: Option<XmlNode>) -> Result<(), NoMemory>
    ensures { OnOk result (map node_tree nodes.new.items
        ≡ map node_tree nodes.old.items ++ cons_option (option_map node_tree told) []) }
{
    if let Some(told) = told {
        nodes.push(told)?;
    }
    Ok(())
}

// What is told of the children of a `prop`.
fn all_in_prop(
    alloc: Global,
    kind: Option<&str>,
    telling: Telling,
    children: Vec<XmlNode>,
) -> Result<Vec<XmlNode>, NoMemory>
    requires { IsDated telling }
    ensures { IfOk result (λ ns. map node_tree ns.items
        ≡ filter_map (spec.child_told
        (spec.told_property (option_map (λ t. t.now) kind.entry) telling))
        (map node_tree children.items)) }
{
    let mut nodes = Vec::with_capacity(alloc, children.len())?;
    for child in children {
        let told = in_prop(alloc, kind, telling, child)?;
        add(&mut nodes, told)?;
    }
    Ok(nodes)
}

// A child of a `propstat`.
fn in_propstat(
    alloc: Global,
    kind: Option<&str>,
    telling: Telling,
    child: XmlNode,
) -> Result<XmlNode, NoMemory>
    requires { IsDated telling }
    ensures { IfOk result (λ n. node_tree n
        ≡ spec.prop_told (spec.told_property (option_map (λ t. t.now) kind.entry) telling)
        (node_tree child)) }
{
    match child {
        XmlNode::Element(element) => {
            if is_dav(&element, "prop") {
                Ok(XmlNode::Element(prop(alloc, kind, telling, element)?))
            } else {
                Ok(XmlNode::Element(element))
            }
        }
        XmlNode::Text(text) => Ok(XmlNode::Text(text)),
    }
}

// A `prop` whose properties are told so.
fn prop(
    alloc: Global,
    kind: Option<&str>,
    telling: Telling,
    told: Element,
) -> Result<Element, NoMemory>
    requires { IsDated telling }
    ensures { IfOk result (λ e. e ≡ with_children told
        (filter_map (spec.child_told
        (spec.told_property (option_map (λ t. t.now) kind.entry) telling)) (children_of told))) }
{
    let Element {
        name,
        prefix,
        namespace,
        attributes,
        children,
    } = told;
    let children = all_in_prop(alloc, kind, telling, children)?;
    Ok(Element {
        name,
        prefix,
        namespace,
        attributes,
        children,
    })
}

// The children of a `propstat`.
fn all_in_propstat(
    alloc: Global,
    kind: Option<&str>,
    telling: Telling,
    children: Vec<XmlNode>,
) -> Result<Vec<XmlNode>, NoMemory>
    requires { IsDated telling }
    ensures { IfOk result (λ ns. map node_tree ns.items
        ≡ map (spec.prop_told (spec.told_property (option_map (λ t. t.now) kind.entry) telling))
        (map node_tree children.items)) }
{
    let mut nodes = Vec::with_capacity(alloc, children.len())?;
    for child in children {
        nodes.push(in_propstat(alloc, kind, telling, child)?)?;
    }
    Ok(nodes)
}

// A `propstat` whose properties are told so.
fn propstat(
    alloc: Global,
    kind: Option<&str>,
    telling: Telling,
    told: Element,
) -> Result<Element, NoMemory>
    requires { IsDated telling }
    ensures { IfOk result (λ e. e ≡ with_children told
        (map (spec.prop_told (spec.told_property (option_map (λ t. t.now) kind.entry) telling))
        (children_of told))) }
{
    let Element {
        name,
        prefix,
        namespace,
        attributes,
        children,
    } = told;
    let children = all_in_propstat(alloc, kind, telling, children)?;
    Ok(Element {
        name,
        prefix,
        namespace,
        attributes,
        children,
    })
}

// A child of a `response`.
fn in_response(
    alloc: Global,
    kind: Option<&str>,
    telling: Telling,
    child: XmlNode,
) -> Result<XmlNode, NoMemory>
    requires { IsDated telling }
    ensures { IfOk result (λ n. node_tree n ≡ spec.each_below (codes "propstat")
        (spec.prop_told (spec.told_property (option_map (λ t. t.now) kind.entry) telling))
        (node_tree child)) }
{
    match child {
        XmlNode::Element(element) => {
            if is_dav(&element, "propstat") {
                Ok(XmlNode::Element(propstat(alloc, kind, telling, element)?))
            } else {
                Ok(XmlNode::Element(element))
            }
        }
        XmlNode::Text(text) => Ok(XmlNode::Text(text)),
    }
}

// The children of a `response`.
fn all_in_response(
    alloc: Global,
    kind: Option<&str>,
    telling: Telling,
    children: Vec<XmlNode>,
) -> Result<Vec<XmlNode>, NoMemory>
    requires { IsDated telling }
    ensures { IfOk result (λ ns. map node_tree ns.items
        ≡ map (spec.each_below (codes "propstat") (spec.prop_told
        (spec.told_property (option_map (λ t. t.now) kind.entry) telling)))
        (map node_tree children.items)) }
{
    let mut nodes = Vec::with_capacity(alloc, children.len())?;
    for child in children {
        nodes.push(in_response(alloc, kind, telling, child)?)?;
    }
    Ok(nodes)
}

// A `response` whose properties are told so.
fn response(
    alloc: Global,
    kind: Option<&str>,
    telling: Telling,
    told: Element,
) -> Result<Element, NoMemory>
    requires { IsDated telling }
    ensures { IfOk result (λ e. e
        ≡ spec.typed_by (option_map (λ t. t.now) kind.entry) telling told) }
{
    let Element {
        name,
        prefix,
        namespace,
        attributes,
        children,
    } = told;
    let children = all_in_response(alloc, kind, telling, children)?;
    Ok(Element {
        name,
        prefix,
        namespace,
        attributes,
        children,
    })
}

// The type by an address.
fn type_at(alloc: Global, href: Option<&Element>) -> Result<Option<&'static str>, NoMemory>
    ensures { IfOk result (λ kind. option_map (λ t. t.now) kind
        ≡ spec.type_at (option_map (λ e. e.now) href.entry)) }
{
    let Some(href) = href else {
        return Ok(None);
    };
    match href.get_text(alloc)? {
        Some(address) => type_of(alloc, &address),
        None => Ok(None),
    }
}

// A response with the type by its address, the time that is kept, and usual names.
fn typed(alloc: Global, told: Element) -> Result<Element, NoMemory>
    ensures { IfOk result (λ e. e
        ≡ spec.typed_by (spec.type_in told) (Found (times.times_told told)) told) }
{
    let kind = type_at(alloc, href(&told))?;
    let times = times_told(alloc, &told)?;
    response(alloc, kind, Telling::Found(times), told)
}

// A child of a multistatus.
fn in_multistatus(alloc: Global, child: XmlNode) -> Result<XmlNode, NoMemory>
    ensures { IfOk result (λ n. node_tree n ≡ spec.typed_child (node_tree child)) }
{
    match child {
        XmlNode::Element(element) => {
            if is_dav(&element, "response") {
                Ok(XmlNode::Element(typed(alloc, element)?))
            } else {
                Ok(XmlNode::Element(element))
            }
        }
        XmlNode::Text(text) => Ok(XmlNode::Text(text)),
    }
}

// The children of a multistatus.
fn all_in_multistatus(alloc: Global, children: Vec<XmlNode>) -> Result<Vec<XmlNode>, NoMemory>
    ensures { IfOk result (λ ns. map node_tree ns.items
        ≡ map spec.typed_child (map node_tree children.items)) }
{
    let mut nodes = Vec::with_capacity(alloc, children.len())?;
    for child in children {
        nodes.push(in_multistatus(alloc, child)?)?;
    }
    Ok(nodes)
}

// A multistatus whose properties are told so.
fn typed_tree(alloc: Global, told: Element) -> Result<Element, NoMemory>
    ensures { IfOk result (λ sent. sent ≡ spec.typed told) }
{
    let Element {
        name,
        prefix,
        namespace,
        attributes,
        children,
    } = told;
    let children = all_in_multistatus(alloc, children)?;
    Ok(Element {
        name,
        prefix,
        namespace,
        attributes,
        children,
    })
}

/// A multistatus of what was found, in which each file has the type by its name, in the place of
/// `application/octet-stream`, where the table has one (RFC 4918, section 15.5), and the time that a client set,
/// as long as it isn't changed after that (section 15.7); `resourcetype` and `current-user-principal` have the
/// prefix `D` and no attributes, whatever the request wrote for them (section 14.18); and of the server's own
/// properties none is told. All else stays. `Err` where there is no memory.
#[tactic(auto, using(crate::proofs::TypedLemmas::tells_types_of))]
pub fn with_types(alloc: Global, told: Element) -> Result<Element, NoMemory>
    ensures is { IfOk result (λ sent. sent ≡ spec.typed told) }
    ensures tells { IfOk result (λ sent. spec.TellsTypes told sent) }
{
    typed_tree(alloc, told)
}

// A child of a multistatus that tells what was set.
fn in_outcomes(alloc: Global, child: XmlNode) -> Result<XmlNode, NoMemory>
    ensures { IfOk result (λ n. node_tree n ≡ spec.outcome_child (node_tree child)) }
{
    match child {
        XmlNode::Element(element) => {
            if is_dav(&element, "response") {
                let told = response(alloc, None, Telling::Outcome, element)?;
                Ok(XmlNode::Element(told))
            } else {
                Ok(XmlNode::Element(element))
            }
        }
        XmlNode::Text(text) => Ok(XmlNode::Text(text)),
    }
}

// The children of a multistatus that tells what was set.
fn all_in_outcomes(alloc: Global, children: Vec<XmlNode>) -> Result<Vec<XmlNode>, NoMemory>
    ensures { IfOk result (λ ns. map node_tree ns.items
        ≡ map spec.outcome_child (map node_tree children.items)) }
{
    let mut nodes = Vec::with_capacity(alloc, children.len())?;
    for child in children {
        nodes.push(in_outcomes(alloc, child)?)?;
    }
    Ok(nodes)
}

/// A multistatus of what was set, in which a time has the name by which the client set it, in the place of the
/// property by which it is kept; all else stays (RFC 4918, section 9.2.1). `Err` where there is no memory.
pub fn outcomes(alloc: Global, told: Element) -> Result<Element, NoMemory>
    ensures { IfOk result (λ sent. sent ≡ spec.outcomes told) }
{
    let Element {
        name,
        prefix,
        namespace,
        attributes,
        children,
    } = told;
    let children = all_in_outcomes(alloc, children)?;
    Ok(Element {
        name,
        prefix,
        namespace,
        attributes,
        children,
    })
}
