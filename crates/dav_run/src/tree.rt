//! Element trees as JSON.
ghost use Rattle.std.specs.Prelude.{◌∷◌, map, option_map, string_bytes, OnOk};
ghost use Rattle.json.specs.Token.{begin_array};
ghost use Rattle.json.specs.Tree.{items_tokens};
ghost use Rattle.serde_json.specs.View.{items_of};
ghost use Rattle.serde_json.specs.Written.{items_outline};
ghost use Rattle.dav_core.specs.Element.{trees};
ghost use Rattle.dav_core.specs.ElementView.{attribute_bytes, node_tree};
ghost use Rattle.dav_run.specs.TreeData.{Adds, attribute_data, children_data, text_or_null, tokens_of, tree_data};

use dav_core::element::{Element, XmlNode};
use json::Writer;
use std::alloc::AllocError;

/// Writes an element as an object of five members, in this order: `attributes`, a list of pairs, each a list of a name
/// and a value; `children`, a list in which a text is a JSON text and an element such an object; `name`; `namespace` and
/// `prefix`, each null where the element has none.
#[cycle(trees)]
pub(crate) fn write_tree(out: &mut Writer, tree: &Element) -> Result<(), AllocError>
    ensures { OnOk result (Adds out.old out.new (tokens_of (tree_data tree.now))) }
{
    out.begin_object()?;
    out.key("attributes")?;
    write_attributes(out, &tree.attributes)?;
    out.key("children")?;
    write_children(out, &tree.children)?;
    out.key("name")?;
    out.string(&tree.name)?;
    out.key("namespace")?;
    write_text(out, &tree.namespace)?;
    out.key("prefix")?;
    write_text(out, &tree.prefix)?;
    out.end_object()
}

// A text, or null where there is none.
fn write_text(out: &mut Writer, text: &Option<String>) -> Result<(), AllocError>
    ensures { OnOk result (Adds out.old out.new
        (tokens_of (text_or_null (option_map string_bytes text.now)))) }
{
    match text {
        Some(text) => out.string(text),
        None => out.null(),
    }
}

// Attributes, in order.
fn write_attributes(out: &mut Writer, attributes: &[(String, String)]) -> Result<(), AllocError>
    ensures { OnOk result (Adds out.old out.new (begin_array
        ∷ items_tokens (items_outline (items_of (map attribute_data
        (map attribute_bytes attributes.now)))))) }
{
    out.begin_array()?;
    for (name, value) in attributes {
        write_attribute(out, name, value)?;
    }
    out.end_array()
}

// An attribute as a list of its name and its value.
fn write_attribute(out: &mut Writer, name: &str, value: &str) -> Result<(), AllocError>
    ensures { OnOk result (Adds out.old out.new
        (tokens_of (attribute_data (name.now, value.now)))) }
{
    out.begin_array()?;
    out.string(name)?;
    out.string(value)?;
    out.end_array()
}

// Children, in order.
#[cycle(trees)]
fn write_children(out: &mut Writer, children: &[XmlNode]) -> Result<(), AllocError>
    ensures { OnOk result (Adds out.old out.new (begin_array
        ∷ items_tokens (items_outline (children_data (trees (map node_tree children.now)))))) }
{
    out.begin_array()?;
    for child in children {
        write_child(out, child)?;
    }
    out.end_array()
}

// An element or a text.
#[cycle(trees)]
fn write_child(out: &mut Writer, child: &XmlNode) -> Result<(), AllocError>
    ensures { OnOk result (Adds out.old out.new (tokens_of (tree_data (node_tree child.now)))) }
{
    match child {
        XmlNode::Element(element) => write_tree(out, element),
        XmlNode::Text(text) => out.string(text),
    }
}
