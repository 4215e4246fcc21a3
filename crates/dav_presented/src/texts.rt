//! Texts as the content of elements (XML 1.0, section 2.4).
ghost use Rattle.std.specs.Prelude.{◌≡◌, ◌∷◌, [], map, IfOk};
ghost use Rattle.dav_core.specs.Element.{text, with_children};
ghost use Rattle.dav_core.specs.ElementView.{node_tree};

use dav_core::element::{Element, XmlNode};
use dav_core::errors::NoMemory;
use std::alloc::Global;

// A text, as children.
pub(crate) fn texts(alloc: Global, value: &str) -> Result<Vec<XmlNode>, NoMemory>
    ensures { IfOk result (λ ns. map node_tree ns.items ≡ text value.now ∷ []) }
{
    let mut nodes = Vec::new(alloc);
    nodes.push(XmlNode::Text(String::from_str(alloc, value)?))?;
    Ok(nodes)
}

// An element with a text in the place of its children.
pub(crate) fn saying(alloc: Global, told: Element, value: &str) -> Result<Element, NoMemory>
    ensures { IfOk result (λ e. e ≡ with_children told (text value.now ∷ [])) }
{
    let Element {
        name,
        prefix,
        namespace,
        attributes,
        children: _,
    } = told;
    let children = texts(alloc, value)?;
    Ok(Element {
        name,
        prefix,
        namespace,
        attributes,
        children,
    })
}
