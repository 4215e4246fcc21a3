//! The children of an element.
ghost use Rattle.std.specs.Prelude.{◌≡◌, ◌++◌, [], true, false, map, option_map, string_bytes, IfOk, MatchOption};
ghost use Rattle.std.specs.List.{filter_map};
ghost use Rattle.std.specs.Option.{unwrap_or};
ghost use Rattle.dav_core.specs.Element.{is_element, is_named, joined_texts, text_bytes, trees};
ghost use Rattle.dav_core.specs.ElementEq.{trees_eq};
ghost use Rattle.dav_core.specs.ElementView.{is_node_named, node_tree, IsFirst};

use super::{Element, XmlNode};
use crate::errors::NoMemory;
use std::alloc::Global;

impl XmlNode {
    /// The element, where the child is one.
    pub(super) fn as_element(&self) -> Option<&Element>
        ensures { MatchOption result (is_element (node_tree self.now) ≡ false)
            (λ e. (is_element e.now ≡ true) × (e.now ≡ node_tree self.now)) }
    {
        match self {
            XmlNode::Element(e) => {
                // Reading a field lets the checker know that the tree is an element.
                let _ = &e.name;
                Some(e)
            }
            XmlNode::Text(_) => None,
        }
    }

    /// The text, where the child is one.
    pub(super) fn as_text(&self) -> Option<&str>
        ensures { option_map (λ s. s.now) result ≡ text_bytes (node_tree self.now) }
    {
        match self {
            XmlNode::Element(e) => {
                // As above.
                let _ = &e.name;
                None
            }
            XmlNode::Text(text) => Some(text),
        }
    }

    // Whether the child is an element of that name.
    fn is_named(&self, name: &str) -> bool
        ensures { result ≡ is_named name.now (node_tree self.now) }
    {
        match self {
            XmlNode::Element(e) => e.name.as_str() == name,
            XmlNode::Text(_) => false,
        }
    }
}

/// The place of the first child element of a name.
pub(super) fn index_named(children: &[XmlNode], name: &str) -> Option<usize>
    ensures { IsFirst (is_node_named name.now) children.now result }
{
    for index in 0..children.len() {
        if children[index].is_named(name) {
            return Some(index);
        }
    }
    None
}

/// The texts among children, joined in order.
pub(super) fn joined_texts(alloc: Global, children: &[XmlNode]) -> Result<Option<String>, NoMemory>
    ensures { IfOk result (λ t. option_map string_bytes t
        ≡ joined_texts (filter_map text_bytes (map node_tree children.now))) }
{
    let mut joined = None;
    for child in children {
        let Some(text) = child.as_text() else {
            continue;
        };
        joined = Some(joined_with(alloc, joined, text)?);
    }
    Ok(joined)
}

// A text after another one, where there is one.
fn joined_with(alloc: Global, joined: Option<String>, text: &str) -> Result<String, NoMemory>
    ensures { IfOk result (λ t. string_bytes t
        ≡ unwrap_or (option_map string_bytes joined) [] ++ text.now) }
{
    let mut joined = joined.unwrap_or(String::new(alloc));
    joined.push_str(text)?;
    Ok(joined)
}

/// Copies of children, in order.
#[cycle(clones)]
pub(super) fn copied_children(children: &Vec<XmlNode>) -> Result<Vec<XmlNode>, NoMemory>
    ensures { IfOk result (λ v. map node_tree v.items ≡ map node_tree children.now.items) }
{
    let mut copies = Vec::with_capacity(*children.allocator(), children.len())?;
    for child in children {
        copies.push(child.clone()?)?;
    }
    Ok(copies)
}

/// Whether children are equal, one by one.
#[cycle(equals)]
pub(super) fn are_equal(left: &[XmlNode], right: &[XmlNode]) -> bool
    ensures { result ≡ trees_eq (trees (map node_tree left.now)) (trees (map node_tree right.now)) }
{
    if left.len() != right.len() {
        return false;
    }
    for index in 0..left.len() {
        if !left[index].eq(&right[index]) {
            return false;
        }
    }
    true
}
