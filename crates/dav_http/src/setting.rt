//! How many dead properties the body of a PROPPATCH sets, at most (RFC 4918, sections 9.2 and 14.26).
ghost use Rattle.std.specs.Prelude.{◌≡◌, IfOk, cond, length, min};
ghost use Rattle.dav_core.specs.Element.{children_of};
ghost use Rattle.dav_core.specs.ElementView.{node_tree};
ghost use Rattle.dav_core.specs.Numbers.{max_u64};
ghost use Rattle.dav_store.specs.Sizes.{tree_len};
ghost use Rattle.dav_http.specs.Setting as spec;

use dav_core::element::{Element, XmlNode};
use dav_core::errors::NoMemory;
use dav_store::memfs::{Stored, tree_len};
use dav_xml::XmlError;
use std::alloc::Global;

// How many children an element has.
#[tactic(auto, using(crate::proofs::SettingLemmas::children_count))]
fn children_of(element: &Element) -> u64
    ensures { result ≡ length (children_of element.now) }
{
    element.children.len() as u64
}

// How many children a child has.
fn children_in(node: &XmlNode) -> u64
    ensures { result ≡ length (children_of (node_tree node.now)) }
{
    match node {
        XmlNode::Element(element) => children_of(element),
        XmlNode::Text(_) => 0,
    }
}

// How many properties are within what an element has; 2^64 - 1 where that is more.
fn within_set(set: &Element) -> u64
    ensures { result ≡ min (spec.within_set set.now) max_u64 }
{
    let mut total = 0u64;
    for child in &set.children {
        total = total.saturating_add(children_in(child));
    }
    total
}

// How many properties a child sets; 2^64 - 1 where that is more.
fn count_in(node: &XmlNode) -> u64
    ensures { result ≡ min (cond (spec.is_set (node_tree node.now))
        (spec.within_set (node_tree node.now)) 0) max_u64 }
{
    match node {
        XmlNode::Element(element) => {
            if element.name.as_str() == "set" {
                within_set(element)
            } else {
                0
            }
        }
        XmlNode::Text(_) => 0,
    }
}

// How many bytes a child has that sets properties; 2^64 - 1 where that is more.
fn bytes_in(node: &XmlNode) -> u64
    ensures { result ≡ min (cond (spec.is_set (node_tree node.now))
        (tree_len (node_tree node.now)) 0) max_u64 }
{
    match node {
        XmlNode::Element(element) => {
            if element.name.as_str() == "set" {
                tree_len(element)
            } else {
                0
            }
        }
        XmlNode::Text(_) => 0,
    }
}

// How many dead properties the body of a PROPPATCH with this tree sets, at most, and how many bytes they have.
fn set_by(tree: &Element) -> Stored
    ensures { result ≡ spec.set_by tree.now }
{
    let (mut count, mut bytes) = (0u64, 0u64);
    for child in &tree.children {
        count = count.saturating_add(count_in(child));
        bytes = bytes.saturating_add(bytes_in(child));
    }
    Stored {
        count,
        bytes: bytes.saturating_mul(2),
    }
}

/// How many dead properties a body of a PROPPATCH sets, at most: as many as there are elements and texts within what its `set` have. And
/// how many bytes they have, at most: twice those of its `set`, since each is known by its namespace and name, and has them in its element
/// too (RFC 4918, sections 9.2 and 14.26). None where it isn't read.
pub fn set_in(alloc: Global, body: &[u8]) -> Result<Stored, NoMemory>
    ensures { IfOk result (λ set. set ≡ spec.set_in body.now) }
{
    match dav_xml::read(alloc, body) {
        Ok(tree) => Ok(set_by(&tree)),
        Err(XmlError::Memory) => Err(NoMemory),
        Err(XmlError::Fault(_)) => Ok(Stored { count: 0, bytes: 0 }),
    }
}
