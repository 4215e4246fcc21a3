//! The element trees of a script.
ghost use Rattle.std.specs.Prelude.{ℕ, List, map, option_map, string_bytes, IfOk, IsErrOf};
ghost use Rattle.serde_json.specs.View.{view, items_view};
ghost use Rattle.dav_core.specs.Element.{ElementTree, ElementTrees, trees};
ghost use Rattle.dav_core.specs.ElementView.{attribute_bytes, node_tree};
ghost use Rattle.dav_run.specs.Script.{AreAttributes, AreItems, IsAttribute, IsElement, IsNode};
ghost use Rattle.dav_run.specs.declared.script.ScriptError.TheVariants.{NotScript};

use super::{
    Form, ScriptError, check_members, list_of, read_names, read_string, read_text_or_none,
};
use dav_core::element::{Element, XmlNode};
use serde_json::Value;
use std::alloc::Global;

// An element: an object with a `name`, which may have a `prefix`, a `namespace`, `attributes` and `children`.
#[cycle(elements)]
pub(super) fn read_element(alloc: Global, value: &Value) -> Result<Element, ScriptError>
    ensures ok { IfOk result (IsElement (view value.now)) }
    ensures none { IsErrOf result NotScript → (t : ElementTree) → ¬ IsElement (view value.now) t }
{
    check_members(value, Form::Tree)?;
    let Some(name) = value.get("name") else {
        return Err(ScriptError::NotScript);
    };
    let name = read_string(alloc, name)?;
    let prefix = read_text_or_none(alloc, value.get("prefix"))?;
    let namespace = read_text_or_none(alloc, value.get("namespace"))?;
    let attributes = read_attributes(alloc, value.get("attributes"))?;
    let children = match value.get("children") {
        None => Vec::new(alloc),
        Some(list) => read_nodes(alloc, list_of(list)?)?,
    };
    Ok(Element {
        name,
        prefix,
        namespace,
        attributes,
        children,
    })
}

// Texts and elements, in order.
#[cycle(elements)]
fn read_nodes(alloc: Global, list: &[Value]) -> Result<Vec<XmlNode>, ScriptError>
    ensures ok { IfOk result
        (λ nodes. AreItems IsNode (items_view list.now) (map node_tree nodes.items)) }
    ensures none { IsErrOf result NotScript
        → (ts : List ElementTree) → ¬ AreItems IsNode (items_view list.now) ts }
{
    let mut nodes = Vec::new(alloc);
    for item in list {
        nodes.push(read_node(alloc, item)?)?;
    }
    Ok(nodes)
}

// A text or an element.
#[cycle(elements)]
fn read_node(alloc: Global, value: &Value) -> Result<XmlNode, ScriptError>
    ensures ok { IfOk result (λ node. IsNode (view value.now) (node_tree node)) }
    ensures none { IsErrOf result NotScript → (t : ElementTree) → ¬ IsNode (view value.now) t }
{
    if value.is_string() {
        return Ok(XmlNode::Text(read_string(alloc, value)?));
    }
    Ok(XmlNode::Element(read_element(alloc, value)?))
}

// Attributes, in order; none where the member is absent.
fn read_attributes(
    alloc: Global,
    value: Option<&Value>,
) -> Result<Vec<(String, String)>, ScriptError>
    ensures ok { IfOk result (λ attributes. AreAttributes
        (option_map (λ v. view v.now) value.entry) (map attribute_bytes attributes.items)) }
    ensures none { IsErrOf result NotScript → (attributes : List (List ℕ × List ℕ))
        → ¬ AreAttributes (option_map (λ v. view v.now) value.entry) attributes }
{
    match value {
        None => Ok(Vec::new(alloc)),
        Some(value) => read_attribute_list(alloc, list_of(value)?),
    }
}

// The attributes in a list.
fn read_attribute_list(alloc: Global, list: &[Value]) -> Result<Vec<(String, String)>, ScriptError>
    ensures ok { IfOk result (λ attributes.
        AreItems IsAttribute (items_view list.now) (map attribute_bytes attributes.items)) }
    ensures none { IsErrOf result NotScript → (attributes : List (List ℕ × List ℕ))
        → ¬ AreItems IsAttribute (items_view list.now) attributes }
{
    let mut attributes = Vec::new(alloc);
    for item in list {
        attributes.push(read_attribute(alloc, item)?)?;
    }
    Ok(attributes)
}

// An attribute: a list of its name and its value.
fn read_attribute(alloc: Global, value: &Value) -> Result<(String, String), ScriptError>
    ensures ok { IfOk result (λ a. IsAttribute (view value.now) (attribute_bytes a)) }
    ensures none { IsErrOf result NotScript
        → (a : List ℕ × List ℕ) → ¬ IsAttribute (view value.now) a }
{
    let texts = read_names(alloc, list_of(value)?)?;
    if texts.len() != 2 {
        return Err(ScriptError::NotScript);
    }
    let name = String::from_str(alloc, texts[0])?;
    let value = String::from_str(alloc, texts[1])?;
    Ok((name, value))
}
