//! A document that is written child by child, so that no more of it than one child is a tree at a time.
ghost use Rattle.std.specs.Prelude.{◌≡◌, ◌++◌, map, IfOk, OnOk};
ghost use Rattle.dav_core.specs.ElementView.{attribute_bytes};
ghost use Rattle.dav_xml.specs.ByChild.{child_of, closing_of, content_of, opening_of, root_place, written_name};
ghost use Rattle.dav_xml.specs.Scopes.{pair_bytes};
ghost use Rattle.dav_xml.specs.Spelling.{spelling};
ghost use Rattle.dav_xml.specs.Token.{opens};

use crate::writing::{push_begin, push_children, push_declaration, push_element, push_end};
use crate::written::{namespace_of, place_of, prefix_of, scope_of};
use dav_core::element::Element;
use std::alloc::{AllocError, Global};

// The attributes with which the root of a document is written.
fn root_attributes(alloc: Global, root: &Element) -> Result<Vec<(String, String)>, AllocError>
    ensures { IfOk result (λ v. map attribute_bytes v.items ≡ (root_place root.now).0) }
{
    let prefix = prefix_of(&root.prefix);
    let attributes = root.attributes.as_slice();
    let place = place_of(
        alloc,
        &[],
        prefix,
        namespace_of(&root.namespace),
        attributes,
    )?;
    Ok(place.attributes)
}

// Adds a root's start tag with these attributes.
fn push_start(
    out: &mut Vec<u8>,
    root: &Element,
    attributes: &[(String, String)],
) -> Result<(), AllocError>
    ensures { OnOk result (out.new.items ≡ out.old.items
        ++ spelling (opens (written_name root.now) (map attribute_bytes attributes.now))) }
{
    push_begin(
        out,
        prefix_of(&root.prefix),
        root.name.as_str(),
        attributes,
        false,
    )
}

/// Adds what stands in a document before the children of its root: the declaration, and the root's start tag (XML 1.0, sections 2.8
/// and 3.1), whatever children this one has. `Err` where memory runs out.
///
/// A root without children is written by `write`.
pub fn push_opening(alloc: Global, out: &mut Vec<u8>, root: &Element) -> Result<(), AllocError>
    ensures { OnOk result (out.new.items ≡ out.old.items ++ opening_of root.now) }
{
    let attributes = root_attributes(alloc, root)?;
    push_declaration(out)?;
    push_start(out, root, &attributes)
}

// What is declared within the root of a document.
fn scope_within<'e>(
    alloc: Global,
    root: &'e Element,
) -> Result<Vec<(&'e [u8], &'e str)>, AllocError>
    ensures { IfOk result (λ v. map pair_bytes v.items ≡ (root_place root.now).1) }
{
    let prefix = prefix_of(&root.prefix);
    let attributes = root.attributes.as_slice();
    scope_of(
        alloc,
        &[],
        prefix,
        namespace_of(&root.namespace),
        attributes,
    )
}

/// Adds a child as it stands in a document with this root, with the declarations of namespaces that it needs there (Namespaces in
/// XML 1.0, section 3). `Err` where memory runs out.
pub fn push_child(
    alloc: Global,
    out: &mut Vec<u8>,
    root: &Element,
    child: &Element,
) -> Result<(), AllocError>
    ensures { OnOk result (out.new.items ≡ out.old.items ++ child_of root.now child.now) }
{
    let scope = scope_within(alloc, root)?;
    push_element(alloc, out, &scope, child)
}

/// Adds what stands in a document between the tags of its root: the root's children, in order, with the declarations of namespaces
/// that they need there (XML 1.0, section 3.1). `Err` where memory runs out.
pub fn push_content(alloc: Global, out: &mut Vec<u8>, root: &Element) -> Result<(), AllocError>
    ensures { OnOk result (out.new.items ≡ out.old.items ++ content_of root.now) }
{
    let scope = scope_within(alloc, root)?;
    push_children(alloc, out, &scope, &root.children)?;
    Ok(())
}

/// Adds what stands in a document after the children of its root: the root's end tag (XML 1.0, section 3.1). `Err` where memory
/// runs out.
pub fn push_closing(out: &mut Vec<u8>, root: &Element) -> Result<(), AllocError>
    ensures { OnOk result (out.new.items ≡ out.old.items ++ closing_of root.now) }
{
    push_end(out, prefix_of(&root.prefix), root.name.as_str(), false)
}
