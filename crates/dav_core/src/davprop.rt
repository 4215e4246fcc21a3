//! Properties of a resource (RFC 4918, section 4).
#[cfg(test)]
mod tests;

ghost use Rattle.std.specs.Prelude.{◌≡◌, ◌∷◌, [], Some, IfOk};
ghost use Rattle.dav_core.specs.Element.{element, no_trees, text, tree_then, xmlns_name};

use crate::element::Element;
use crate::errors::NoMemory;
use std::alloc::Global;
use std::marker::Model;

/// A property: its name, prefix and namespace, and its element where it has a value.
#[derive(Debug, Drop)]
pub struct DavProp {
    /// The name, without its prefix.
    pub name: String,
    /// The prefix of the name.
    pub prefix: Option<String>,
    /// The namespace of the name; none and an empty one are the same.
    pub namespace: Option<String>,
    /// The element that holds the value.
    pub xml: Option<Element>,
}

impl Model for DavProp {
    ghost use Rattle.dav_core.specs.Property.{Property};
    ghost use Rattle.dav_core.specs.PropertyCode.{coded_property};

    ghost Value = { Property };

    ghost coded = { coded_property };

    ghost use Rattle.dav_core.specs.PropertyView.{property_of};

    ghost view = { property_of };
}

// An element of that name, prefix and namespace, with nothing in it.
fn tag(alloc: Global, name: &str, prefix: &str, namespace: &str) -> Result<Element, NoMemory>
    ensures { IfOk result (λ e. e
        ≡ element name.now (Some prefix.now) (Some namespace.now) [] no_trees) }
{
    Ok(Element {
        name: String::from_str(alloc, name)?,
        prefix: Some(String::from_str(alloc, prefix)?),
        namespace: Some(String::from_str(alloc, namespace)?),
        attributes: Vec::new(alloc),
        children: Vec::new(alloc),
    })
}

// The same, which declares its namespace and has one text.
fn valued(
    alloc: Global,
    name: &str,
    prefix: &str,
    namespace: &str,
    value: &str,
) -> Result<Element, NoMemory>
    ensures { IfOk result (λ e. e ≡ element name.now (Some prefix.now) (Some namespace.now)
        ((xmlns_name prefix.now, namespace.now) ∷ []) (tree_then (text value.now) no_trees)) }
{
    let mut element = tag(alloc, name, prefix, namespace)?;
    element.ns(prefix, namespace)?;
    element.text(value)?;
    Ok(element)
}

impl DavProp {
    ghost use Rattle.dav_core.specs.Property.{text_property};

    /// A property whose element has that name, prefix and namespace, the attribute `xmlns:` and the prefix (`xmlns` for
    /// an empty prefix) with the namespace, and the value as its one text.
    pub fn new(
        alloc: Global,
        name: &str,
        prefix: &str,
        namespace: &str,
        value: &str,
    ) -> Result<DavProp, NoMemory>
        ensures { IfOk result (λ p. p ≡ text_property name.now prefix.now namespace.now value.now) }
    {
        Ok(DavProp {
            name: String::from_str(alloc, name)?,
            prefix: Some(String::from_str(alloc, prefix)?),
            namespace: Some(String::from_str(alloc, namespace)?),
            xml: Some(valued(alloc, name, prefix, namespace, value)?),
        })
    }
}

impl Clone for DavProp {
    ghost use Rattle.std.specs.Prelude.{◌≡◌};

    ghost is_clone = { λ a b. a ≡ b };

    fn clone(&self) -> Result<DavProp, NoMemory> {
        Ok(DavProp {
            name: self.name.clone()?,
            prefix: self.prefix.clone()?,
            namespace: self.namespace.clone()?,
            xml: self.xml.clone()?,
        })
    }
}
