//! Element trees as they are saved.
ghost use Rattle.std.specs.Prelude.{◌≡◌, ◌++◌, map, option_map, string_bytes, IfSome, OnOk};
ghost use Rattle.std.specs.List.{AllByRecursion};
ghost use Rattle.dav_core.specs.Element.{text, trees};
ghost use Rattle.dav_core.specs.ElementView.{attribute_bytes, node_tree};
ghost use Rattle.dav_saved.specs.Spelling.{pair, many};
ghost use Rattle.dav_saved.specs.Trees.{front, tree, forest, IsText, IsPair, IsSaveable, AreSaveable};

use crate::writing::{put_number, put_optional, put_text};
use dav_core::element::{Element, XmlNode};
use std::alloc::AllocError;

// Adds an attribute: its name and its value.
fn put_attribute(out: &mut Vec<u8>, attribute: &(String, String)) -> Result<(), AllocError>
    ensures added { OnOk result (out.new.items
        ≡ out.old.items ++ pair (attribute_bytes attribute.now)) }
    ensures saveable { OnOk result (IsPair (attribute_bytes attribute.now)) }
{
    put_text(out, &attribute.0)?;
    put_text(out, &attribute.1)?;
    Ok(())
}

// Adds attributes.
fn put_attributes(out: &mut Vec<u8>, attributes: &[(String, String)]) -> Result<(), AllocError>
    ensures added { OnOk result (out.new.items
        ≡ out.old.items ++ many pair (map attribute_bytes attributes.now)) }
    ensures saveable { OnOk result (AllByRecursion IsPair (map attribute_bytes attributes.now)) }
{
    put_number(out, attributes.len() as u64)?;
    for attribute in attributes {
        put_attribute(out, attribute)?;
    }
    Ok(())
}

// Adds the name, prefix, namespace and attributes of an element.
#[tactic(auto, unfolding(crate::specs::Trees::front))]
fn put_front(
    out: &mut Vec<u8>,
    name: &str,
    prefix: &Option<String>,
    namespace: &Option<String>,
    attributes: &[(String, String)],
) -> Result<(), AllocError>
    ensures saveable { OnOk result (IsText name.now
        × (IfSome (option_map string_bytes prefix.now) IsText
        × (IfSome (option_map string_bytes namespace.now) IsText
        × AllByRecursion IsPair (map attribute_bytes attributes.now)))) }
    ensures added { OnOk result (out.new.items ≡ out.old.items ++ front (
      name.now,
      (
        option_map string_bytes prefix.now,
        (option_map string_bytes namespace.now, map attribute_bytes attributes.now),
      ),
    )) }
{
    put_text(out, name)?;
    put_optional(out, prefix)?;
    put_optional(out, namespace)?;
    put_attributes(out, attributes)?;
    Ok(())
}

/// Adds an element, which can be read again. After an error a part of it may have been added.
#[cycle(puts)]
pub fn put_element(out: &mut Vec<u8>, element: &Element) -> Result<(), AllocError>
    ensures added { OnOk result (out.new.items ≡ out.old.items ++ tree element.now) }
    ensures saveable { OnOk result (IsSaveable element.now) }
{
    let name = element.name.as_str();
    let attributes = element.attributes.as_slice();
    out.push(0)?;
    put_front(out, name, &element.prefix, &element.namespace, attributes)?;
    put_number(out, element.children.len() as u64)?;
    put_children(out, &element.children)?;
    Ok(())
}

// Adds the children of an element.
#[cycle(puts)]
fn put_children(out: &mut Vec<u8>, children: &Vec<XmlNode>) -> Result<(), AllocError>
    ensures added { OnOk result (out.new.items
        ≡ out.old.items ++ forest (trees (map node_tree children.now.items))) }
    ensures saveable { OnOk result (AreSaveable (trees (map node_tree children.now.items))) }
{
    for child in children {
        put_node(out, child)?;
    }
    Ok(())
}

// Adds a child of an element.
#[cycle(puts)]
fn put_node(out: &mut Vec<u8>, node: &XmlNode) -> Result<(), AllocError>
    ensures added { OnOk result (out.new.items ≡ out.old.items ++ tree (node_tree node.now)) }
    ensures saveable { OnOk result (IsSaveable (node_tree node.now)) }
{
    match node {
        XmlNode::Element(element) => put_element(out, element),
        XmlNode::Text(text) => put_tagged(out, text),
    }
}

// Adds a text among children.
fn put_tagged(out: &mut Vec<u8>, value: &str) -> Result<(), AllocError>
    ensures added { OnOk result (out.new.items ≡ out.old.items ++ tree (text value.now)) }
    ensures saveable { OnOk result (IsText value.now) }
{
    out.push(1)?;
    put_text(out, value)?;
    Ok(())
}
