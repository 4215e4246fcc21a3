//! Element trees, as they are read.
ghost use Rattle.std.specs.Prelude.{◌≡◌, ◌≤◌, ◌++◌, ℕ, List, true, map, option_map, string_bytes, IfOk, Some};
ghost use Rattle.dav_core.specs.Element.{ElementTree, depth_of, is_element, trees};
ghost use Rattle.dav_core.specs.ElementView.{attribute_bytes, node_tree};
ghost use Rattle.dav_saved.specs.Front.{front_view};
ghost use Rattle.dav_saved.specs.Reading.{Gives, pair_at, many_at, list_at};
ghost use Rattle.dav_saved.specs.Trees.{front_at, tag_at, text_node_at, element_by, tree_at, element_from, made, tree, IsSaveable};

use crate::errors::LoadError;
use crate::reading::{number_of, optional_of, string_of};
use dav_core::element::{Element, XmlNode};
use std::alloc::Global;

// The name, prefix, namespace and attributes of an element.
#[derive(Drop)]
struct Front {
    name: String,
    prefix: Option<String>,
    namespace: Option<String>,
    attributes: Vec<(String, String)>,
}

// The attribute in front of bytes, and what is behind it.
#[tactic(auto, unfolding(crate::specs::Reading::pair_at))]
fn attribute_of(alloc: Global, bytes: &[u8]) -> Result<((String, String), &[u8]), LoadError>
    ensures { Gives (λ x. (attribute_bytes x.0, x.1.now)) result (pair_at bytes.now) }
{
    let (name, rest) = string_of(alloc, bytes)?;
    let (value, rest) = string_of(alloc, rest)?;
    Ok(((name, value), rest))
}

// So many attributes in front of bytes, and what is behind them.
fn attributes_at(
    alloc: Global,
    count: u64,
    bytes: &[u8],
) -> Result<(Vec<(String, String)>, &[u8]), LoadError>
    ensures { Gives (λ x. (map attribute_bytes x.0.items, x.1.now)) result
        (many_at pair_at count bytes.now) }
{
    let mut attributes = Vec::new(alloc);
    let mut rest = bytes;
    for _ in 0..count {
        let (attribute, after) = attribute_of(alloc, rest)?;
        attributes.push(attribute)?;
        rest = after;
    }
    Ok((attributes, rest))
}

// The attributes in front of bytes, and what is behind them.
#[tactic(auto, unfolding(crate::specs::Reading::list_at))]
fn attributes_of(alloc: Global, bytes: &[u8]) -> Result<(Vec<(String, String)>, &[u8]), LoadError>
    ensures { Gives (λ x. (map attribute_bytes x.0.items, x.1.now)) result
        (list_at pair_at bytes.now) }
{
    let (count, rest) = number_of(bytes)?;
    attributes_at(alloc, count, rest)
}

// The front of an element, and what is behind it.
#[tactic(auto, unfolding(crate::specs::Trees::front_at))]
fn front_of(alloc: Global, bytes: &[u8]) -> Result<(Front, &[u8]), LoadError>
    ensures { Gives (λ x. (front_view x.0, x.1.now)) result (front_at bytes.now) }
{
    let (name, rest) = string_of(alloc, bytes)?;
    let (prefix, rest) = optional_of(alloc, rest)?;
    let (namespace, rest) = optional_of(alloc, rest)?;
    let (attributes, rest) = attributes_of(alloc, rest)?;
    let front = Front {
        name,
        prefix,
        namespace,
        attributes,
    };
    Ok((front, rest))
}

// The element of these parts.
fn joined(front: Front, children: Vec<XmlNode>) -> Element
    ensures { result ≡ made (front_view front) (map node_tree children.items) }
{
    Element {
        name: front.name,
        prefix: front.prefix,
        namespace: front.namespace,
        attributes: front.attributes,
        children,
    }
}

// Whether an element follows, or else a text.
#[tactic(auto, unfolding(crate::specs::Trees::tag_at))]
fn tag_of(bytes: &[u8]) -> Result<(bool, &[u8]), LoadError>
    ensures { Gives (λ x. (x.0, x.1.now)) result (tag_at bytes.now) }
{
    match bytes {
        [0, rest @ ..] => Ok((true, rest)),
        [1, rest @ ..] => Ok((false, rest)),
        _ => Err(LoadError::NotSaved),
    }
}

// A text among children, behind its tag.
#[tactic(auto, unfolding(crate::specs::Trees::text_node_at))]
fn text_node(alloc: Global, bytes: &[u8]) -> Result<(XmlNode, &[u8]), LoadError>
    ensures { Gives (λ x. (node_tree x.0, x.1.now)) result (text_node_at bytes.now) }
{
    let (text, rest) = string_of(alloc, bytes)?;
    Ok((XmlNode::Text(text), rest))
}

// An element behind its tag, whose children have at most so many levels, and what is behind it.
#[cycle(reads)]
fn element_at(alloc: Global, levels: usize, bytes: &[u8]) -> Result<(Element, &[u8]), LoadError>
    ensures { Gives (λ x. (x.0, x.1.now)) result (element_by (tree_at levels) bytes.now) }
{
    let (front, rest) = front_of(alloc, bytes)?;
    let (count, rest) = number_of(rest)?;
    let (children, rest) = children_at(alloc, levels, count, rest)?;
    Ok((joined(front, children), rest))
}

// So many children of at most so many levels, and what is behind them.
#[cycle(reads)]
fn children_at(
    alloc: Global,
    levels: usize,
    count: u64,
    bytes: &[u8],
) -> Result<(Vec<XmlNode>, &[u8]), LoadError>
    ensures { Gives (λ x. (map node_tree x.0.items, x.1.now)) result
        (many_at (tree_at levels) count bytes.now) }
{
    let mut children = Vec::new(alloc);
    let mut rest = bytes;
    for _ in 0..count {
        let (child, after) = node_at(alloc, levels, rest)?;
        children.push(child)?;
        rest = after;
    }
    Ok((children, rest))
}

// A child of at most so many levels, and what is behind it.
#[cycle(reads)]
fn node_at(alloc: Global, levels: usize, bytes: &[u8]) -> Result<(XmlNode, &[u8]), LoadError>
    ensures { Gives (λ x. (node_tree x.0, x.1.now)) result (tree_at levels bytes.now) }
{
    let (is_element, rest) = tag_of(bytes)?;
    if !is_element {
        return text_node(alloc, rest);
    }
    if levels == 0 {
        return Err(LoadError::NotSaved);
    }
    let (element, rest) = element_at(alloc, levels - 1, rest)?;
    Ok((XmlNode::Element(element), rest))
}

// What `element_of` reads.
fn element_exact(alloc: Global, levels: usize, bytes: &[u8]) -> Result<(Element, &[u8]), LoadError>
    ensures { Gives (λ x. (x.0, x.1.now)) result (element_from levels bytes.now) }
{
    let (node, rest) = node_at(alloc, levels, bytes)?;
    match node {
        XmlNode::Element(element) => {
            // Reading a field lets the checker know that the tree is an element.
            let _ = &element.name;
            Ok((element, rest))
        }
        XmlNode::Text(_) => Err(LoadError::NotSaved),
    }
}

/// The element in front of bytes, and what is behind it. `NotSaved` where no element of at most so
/// many levels is there, which bounds how deep the reading goes.
pub fn element_of(alloc: Global, levels: usize, bytes: &[u8]) -> Result<(Element, &[u8]), LoadError>
    // What is read is saved so.
    ensures whole { IfOk result (λ x. bytes.now ≡ tree x.0 ++ x.1.now) }
    // What is saved so is read again, whatever follows, unless memory runs out.
    ensures back { (t : ElementTree) (rest : List ℕ) → is_element t ≡ true → depth_of t ≤ levels
        → IsSaveable t → bytes.now ≡ tree t ++ rest
        → Gives {Y = ElementTree × List ℕ} (λ x. (x.0, x.1.now)) result (Some (t, rest)) }
    // What is refused is none.
    ensures exact { Gives (λ x. (x.0, x.1.now)) result (element_from levels bytes.now) }
{
    element_exact(alloc, levels, bytes)
}
