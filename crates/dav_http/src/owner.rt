//! The owner of a lock, with the prefix by which XML can show it (RFC 4918, section 14.17).
ghost use Rattle.std.specs.Prelude.{◌≡◌, map, IfOk};
ghost use Rattle.dav_core.specs.ElementView.{node_tree};
ghost use Rattle.dav_http.specs.Owners.{prefixed_child, prefixed_owners};

use dav_core::element::{Element, XmlNode};
use dav_xml::with_prefix;
use std::alloc::{AllocError, Global};

// A child of the body, with the prefix `D` where it is an owner.
fn prefixed_child(alloc: Global, child: XmlNode) -> Result<XmlNode, AllocError>
    ensures { IfOk result (λ n. node_tree n ≡ prefixed_child (node_tree child)) }
{
    match child {
        XmlNode::Element(element) => {
            if element.name.as_str() == "owner" {
                Ok(XmlNode::Element(with_prefix(alloc, element, "D")?))
            } else {
                Ok(XmlNode::Element(element))
            }
        }
        XmlNode::Text(text) => Ok(XmlNode::Text(text)),
    }
}

// The children of the body, each owner with the prefix `D`.
fn prefixed_children(alloc: Global, children: Vec<XmlNode>) -> Result<Vec<XmlNode>, AllocError>
    ensures { IfOk result (λ v. map node_tree v.items
        ≡ map prefixed_child (map node_tree children.items)) }
{
    let mut prefixed = Vec::new(alloc);
    for child in children {
        prefixed.push(prefixed_child(alloc, child)?)?;
    }
    Ok(prefixed)
}

/// A body of which each owner has the prefix `D`, with which the list of locks keeps it. Without this an attribute under
/// the owner's own prefix would be shown under one that nothing declares, and no reply that tells of the lock could be read.
#[tactic(auto, using(crate::proofs::SentOwners::prefixed_is))]
pub fn with_prefixed_owners(alloc: Global, tree: Element) -> Result<Element, AllocError>
    ensures { IfOk result (λ t. t ≡ prefixed_owners tree) }
{
    let Element {
        name,
        prefix,
        namespace,
        attributes,
        children,
    } = tree;
    let children = prefixed_children(alloc, children)?;
    Ok(Element {
        name,
        prefix,
        namespace,
        attributes,
        children,
    })
}
