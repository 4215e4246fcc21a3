//! Element trees as bytes, with names as they are written.
ghost use Rattle.std.specs.Prelude.{◌≡◌, ◌++◌, [], map, option_map, OnOk, IfOk, if◌then◌else◌};
ghost use Rattle.dav_core.specs.ElementView.{attribute_bytes};
ghost use Rattle.dav_xml.specs.Token.{opens, empty, closes};
ghost use Rattle.dav_core.specs.Element.{trees};
ghost use Rattle.dav_core.specs.ElementView.{node_tree};
ghost use Rattle.dav_xml.specs.Spelling as spec;
ghost use Rattle.dav_xml.specs.Flat.{flats, tree_spelling};
ghost use Rattle.dav_xml.specs.Scopes.{pair_bytes};
ghost use Rattle.dav_xml.specs.Written.{declaration, document_of, name_with, written, written_after};

use crate::written::{is_placed, namespace_of, place_of, prefix_of};
use dav_core::element::{Element, XmlNode};
use std::alloc::{AllocError, Global};

// The reference that stands for a byte of a text or of a value, where one does; most bytes are past the last that has one.
fn reference(byte: u8, attribute: bool) -> Option<&'static str>
    ensures { spec.or_byte byte (option_map (λ r. r.now) result)
        ≡ spec.escaped_byte attribute byte }
{
    if byte > b'>' {
        None
    } else if byte == b'&' {
        Some("&amp;")
    } else if byte == b'<' {
        Some("&lt;")
    } else if byte == b'>' {
        Some("&gt;")
    } else if byte == b'"' {
        Some("&quot;")
    } else if byte == b'\r' {
        Some("&#13;")
    } else if attribute && byte == b'\n' {
        Some("&#10;")
    } else if attribute && byte == b'\t' {
        Some("&#9;")
    } else {
        None
    }
}

// Adds a text or a value with references; what lies between two of them as one slice.
#[tactic(auto, unfolding(crate::specs::Spelling::escaped))]
fn push_escaped(out: &mut Vec<u8>, text: &str, attribute: bool) -> Result<(), AllocError>
    ensures { OnOk result (out.new.items ≡ out.old.items ++ spec.escaped attribute text.now) }
{
    let bytes = text.as_bytes();
    let mut from = 0;
    for at in 0..bytes.len() {
        if let Some(reference) = reference(bytes[at], attribute) {
            out.extend_from_slice(&bytes[from..at])?;
            out.extend_from_slice(reference.as_bytes())?;
            from = at + 1;
        }
    }
    out.extend_from_slice(&bytes[from..])
}

fn push_attribute(out: &mut Vec<u8>, attribute: &(String, String)) -> Result<(), AllocError>
    ensures { OnOk result (out.new.items
        ≡ out.old.items ++ spec.attribute_spelling (attribute_bytes attribute.now)) }
{
    out.extend_from_slice(b" ")?;
    out.extend_from_slice(attribute.0.as_bytes())?;
    out.extend_from_slice(b"=\"")?;
    push_escaped(out, &attribute.1, true)?;
    out.extend_from_slice(b"\"")
}

#[tactic(auto, unfolding(crate::specs::Spelling::attributes_spelling))]
fn push_attributes(out: &mut Vec<u8>, attributes: &[(String, String)]) -> Result<(), AllocError>
    ensures { OnOk result (out.new.items
        ≡ out.old.items ++ spec.attributes_spelling (map attribute_bytes attributes.now)) }
{
    for attribute in attributes {
        push_attribute(out, attribute)?;
    }
    Ok(())
}

// Adds a name with its prefix.
fn push_name(out: &mut Vec<u8>, prefix: &str, name: &str) -> Result<(), AllocError>
    ensures { OnOk result (out.new.items ≡ out.old.items ++ name_with prefix.now name.now) }
{
    if !prefix.is_empty() {
        out.extend_from_slice(prefix.as_bytes())?;
        out.push(b':')?;
    }
    out.extend_from_slice(name.as_bytes())
}

/// Adds the tag with which an element begins; of one without children it is the whole element. `Err` where memory runs out.
pub fn push_begin(
    out: &mut Vec<u8>,
    prefix: &str,
    name: &str,
    attributes: &[(String, String)],
    is_empty: bool,
) -> Result<(), AllocError>
    ensures { OnOk result (out.new.items ≡ out.old.items ++ spec.spelling
        (if is_empty then empty (name_with prefix.now name.now) (map attribute_bytes attributes.now)
        else opens (name_with prefix.now name.now) (map attribute_bytes attributes.now))) }
{
    out.push(b'<')?;
    push_name(out, prefix, name)?;
    push_attributes(out, attributes)?;
    if is_empty {
        out.extend_from_slice(b"/>")
    } else {
        Ok(out.push(b'>')?)
    }
}

/// Adds the tag with which an element ends that has children. `Err` where memory runs out.
pub fn push_end(
    out: &mut Vec<u8>,
    prefix: &str,
    name: &str,
    is_empty: bool,
) -> Result<(), AllocError>
    ensures { OnOk result (out.new.items ≡ out.old.items
        ++ (if is_empty then [] else spec.spelling (closes (name_with prefix.now name.now)))) }
{
    if is_empty {
        return Ok(());
    }
    out.extend_from_slice(b"</")?;
    push_name(out, prefix, name)?;
    Ok(out.push(b'>')?)
}

/// Adds a tree, with its names as they are written in a scope. `Err` where memory runs out.
#[cycle(writes)]
pub fn push_element<'e>(
    alloc: Global,
    out: &mut Vec<u8>,
    scope: &[(&'e [u8], &'e str)],
    tree: &'e Element,
) -> Result<(), AllocError>
    ensures { OnOk result (out.new.items
        ≡ out.old.items ++ tree_spelling (written (map pair_bytes scope.now) tree.now)) }
{
    let prefix = prefix_of(&tree.prefix);
    let name = tree.name.as_str();
    let namespace = namespace_of(&tree.namespace);
    let attributes = tree.attributes.as_slice();
    let is_empty = tree.children.as_slice().is_empty();
    if attributes.is_empty() && is_placed(scope, prefix, namespace) {
        push_begin(out, prefix, name, attributes, is_empty)?;
        push_children(alloc, out, scope, &tree.children)?;
        push_end(out, prefix, name, is_empty)?;
        return Ok(());
    }
    let place = place_of(alloc, scope, prefix, namespace, attributes)?;
    push_begin(out, prefix, name, &place.attributes, is_empty)?;
    push_children(alloc, out, &place.scope, &tree.children)?;
    push_end(out, prefix, name, is_empty)?;
    Ok(())
}

/// Adds trees one after another, with their names as they are written in a scope. `Err` where memory runs out.
#[cycle(writes)]
pub fn push_children<'e>(
    alloc: Global,
    out: &mut Vec<u8>,
    scope: &[(&'e [u8], &'e str)],
    children: &'e Vec<XmlNode>,
) -> Result<(), AllocError>
    ensures { OnOk result (out.new.items ≡ out.old.items ++ spec.spellings (flats (trees
        (written_after (map pair_bytes scope.now) [] (trees (map node_tree children.now.items)))))) }
{
    for child in children {
        push_node(alloc, out, scope, child)?;
    }
    Ok(())
}

#[cycle(writes)]
#[tactic(auto, using(crate::proofs::Spellings::text_spelled))]
fn push_node<'e>(
    alloc: Global,
    out: &mut Vec<u8>,
    scope: &[(&'e [u8], &'e str)],
    node: &'e XmlNode,
) -> Result<(), AllocError>
    ensures { OnOk result (out.new.items
        ≡ out.old.items ++ tree_spelling (written (map pair_bytes scope.now) (node_tree node.now))) }
{
    match node {
        XmlNode::Element(element) => push_element(alloc, out, scope, element),
        XmlNode::Text(text) => push_escaped(out, text, false),
    }
}

/// Adds the declaration with which a document begins (XML 1.0, section 2.8). `Err` where memory runs out.
pub fn push_declaration(out: &mut Vec<u8>) -> Result<(), AllocError>
    ensures { OnOk result (out.new.items ≡ out.old.items ++ declaration) }
{
    out.extend_from_slice(b"<?xml version=\"1.0\" encoding=\"utf-8\"?>\n")
}

/// The document of an element tree, in UTF-8 (XML 1.0; Namespaces in XML 1.0). `Err` where memory runs out.
///
/// The prefix of an element is declared on it where it has another namespace there. A prefix without a namespace and without a
/// declaration has one that is known, as `D` has `DAV:`.
pub fn write(alloc: Global, tree: &Element) -> Result<Vec<u8>, AllocError>
    ensures { IfOk result (λ v. v.items ≡ document_of tree.now) }
{
    let mut out = Vec::new(alloc);
    push_declaration(&mut out)?;
    push_element(alloc, &mut out, &[], tree)?;
    Ok(out)
}
