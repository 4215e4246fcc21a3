//! How many bytes properties have.
ghost use Rattle.std.specs.Prelude.{◌≡◌, ◌+◌, length, map, min, option_map, string_bytes};
ghost use Rattle.std.specs.List.{sum_by};
ghost use Rattle.std.specs.Option.{option_map_or};
ghost use Rattle.dav_core.specs.Element.{trees};
ghost use Rattle.dav_core.specs.ElementView.{attribute_bytes, node_tree};
ghost use Rattle.dav_core.specs.Numbers.{max_u64};
ghost use Rattle.dav_store.specs.Sizes as spec;

use super::{Key, Properties};
use dav_core::element::{Element, XmlNode};

// A sum with the bytes of a text; 2^64 - 1 where that is more.
fn and_text(sum: u64, text: &str) -> u64
    ensures { result ≡ min (sum + length text.now) max_u64 }
{
    sum.saturating_add(text.len() as u64)
}

// A sum with the bytes of a text, if there is one.
fn and_optional(sum: u64, text: &Option<String>) -> u64
    ensures { result ≡ min (sum + spec.optional_len (option_map string_bytes text.now)) max_u64 }
{
    match text {
        Some(text) => and_text(sum, text),
        None => sum,
    }
}

// A sum with the bytes of two texts.
fn and_pair(sum: u64, one: &str, other: &str) -> u64
    ensures { result ≡ min (sum + spec.pair_len (one.now, other.now)) max_u64 }
{
    and_text(and_text(sum, one), other)
}

// A sum with the bytes of an attribute.
fn and_attribute(sum: u64, attribute: &(String, String)) -> u64
    ensures { result ≡ min (sum + spec.pair_len (attribute_bytes attribute.now)) max_u64 }
{
    and_pair(sum, &attribute.0, &attribute.1)
}

// A sum with the bytes of attributes.
fn and_attributes(sum: u64, attributes: &[(String, String)]) -> u64
    ensures { result
        ≡ min (sum + sum_by spec.pair_len (map attribute_bytes attributes.now)) max_u64 }
{
    let mut total = sum;
    for attribute in attributes {
        total = and_attribute(total, attribute);
    }
    total
}

// A sum with the bytes of an element.
#[cycle(sizes)]
fn and_element(sum: u64, element: &Element) -> u64
    ensures { result ≡ min (sum + spec.tree_len element.now) max_u64 }
{
    let sum = and_optional(and_text(sum, &element.name), &element.prefix);
    let sum = and_optional(sum, &element.namespace);
    and_children(and_attributes(sum, &element.attributes), &element.children)
}

// A sum with the bytes of children.
#[cycle(sizes)]
fn and_children(sum: u64, children: &Vec<XmlNode>) -> u64
    ensures { result
        ≡ min (sum + spec.trees_len (trees (map node_tree children.now.items))) max_u64 }
{
    let mut total = sum;
    for child in children {
        total = and_node(total, child);
    }
    total
}

// A sum with the bytes of a child.
#[cycle(sizes)]
fn and_node(sum: u64, node: &XmlNode) -> u64
    ensures { result ≡ min (sum + spec.tree_len (node_tree node.now)) max_u64 }
{
    match node {
        XmlNode::Element(element) => and_element(sum, element),
        XmlNode::Text(text) => and_text(sum, text),
    }
}

/// How many bytes an element has: those of all its names, prefixes, namespaces, attributes and texts; 2^64 - 1 where they are more.
pub fn tree_len(element: &Element) -> u64
    ensures { result ≡ min (spec.tree_len element.now) max_u64 }
{
    and_element(0, element)
}

// A sum with the bytes of a property's element, if there is one.
fn and_value(sum: u64, xml: &Option<Element>) -> u64
    ensures { result ≡ min (sum + option_map_or spec.tree_len xml.now 0) max_u64 }
{
    match xml {
        Some(element) => and_element(sum, element),
        None => sum,
    }
}

// A sum with the bytes of a property.
fn and_property(sum: u64, key: &Key, xml: &Option<Element>) -> u64
    ensures { result ≡ min (sum + spec.property_len (key.now, xml.now)) max_u64 }
{
    and_value(and_pair(sum, &key.namespace, &key.name), xml)
}

impl Properties {
    ghost use Rattle.std.specs.Prelude.{◌≡◌, ◌+◌, length, min};
    ghost use Rattle.dav_core.specs.Numbers.{max_u64};
    ghost use Rattle.dav_store.specs.Sizes.{properties_len};

    /// How many there are.
    pub fn count(&self) -> u64
        ensures { result ≡ length self.now }
    {
        self.entries.len() as u64
    }

    /// A sum with the bytes of all of them; 2^64 - 1 where that is more.
    pub fn size_from(&self, sum: u64) -> u64
        ensures { result ≡ min (sum + properties_len self.now) max_u64 }
    {
        let mut total = sum;
        for entry in &self.entries {
            total = and_property(total, &entry.0, &entry.1);
        }
        total
    }
}
