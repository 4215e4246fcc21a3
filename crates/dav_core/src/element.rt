//! Element trees, which stand for XML (RFC 4918, section 14; XML 1.0, section 3, and Namespaces in XML 1.0).
ghost use Rattle.std.specs.Prelude.{◌≡◌};
ghost use Rattle.dav_core.specs.ElementEq.{tag_eq};

mod attributes;
mod children;
#[cfg(test)]
mod tests;

use crate::errors::NoMemory;
use attributes::{are_attributes_equal, copied_attributes, set_attribute, xmlns_name};
use children::{are_equal, copied_children, index_named, joined_texts};
use std::alloc::Global;
use std::marker::Model;

/// An element of XML.
#[cycle(tree)]
#[derive(Debug, Drop)]
pub struct Element {
    /// The name, without its prefix.
    pub name: String,
    /// The prefix of the name.
    pub prefix: Option<String>,
    /// The namespace of the name.
    pub namespace: Option<String>,
    /// The attributes in order, names with their values.
    pub attributes: Vec<(String, String)>,
    /// The children in order.
    pub children: Vec<XmlNode>,
}

/// A child of an element.
#[cycle(tree)]
#[derive(Debug, Drop)]
pub enum XmlNode {
    /// An element.
    Element(Element),
    /// A text.
    Text(String),
}

impl Model for Element {
    ghost use Rattle.dav_core.specs.Element.{ElementTree, depth_of};
    ghost use Rattle.dav_core.specs.ElementCode.{coded_tree};

    ghost Value = { ElementTree };

    ghost coded = { coded_tree };

    ghost use Rattle.dav_core.specs.ElementView.{tree_of};

    ghost view = { tree_of };

    ghost size = { depth_of };

    ghost use Rattle.dav_core.specs.ElementFalls.{element_falls};

    ghost size_decreases = { λ a h. element_falls a };
}

#[tactic(auto, using(crate::proofs::ElementLemmas::tree_list_trees))]
impl Element {
    ghost use Rattle.std.specs.Prelude.{◌≡◌, ◌≢◌, ◌↔◌, None, [], min, option_map, string_bytes, IfOk, OnOk, OnErr, IsTrue};
    ghost use Rattle.std.specs.List.{find};
    ghost use Rattle.dav_core.specs.Element.{attributes_of, child_elements, children_of, depth_of, is_named, named, named_by, set_attribute, text, text_of, with_attributes, with_child, with_children, xmlns_name};
    ghost use Rattle.dav_core.specs.Lists.{without_first};
    ghost use Rattle.dav_core.specs.ChildElements.{elements_left};

    /// An element of that name, with nothing else.
    pub fn new(alloc: Global, name: &str) -> Result<Element, NoMemory>
        ensures { IfOk result (λ e. e ≡ named None name.now) }
    {
        Ok(Element {
            name: String::from_str(alloc, name)?,
            prefix: None,
            namespace: None,
            attributes: Vec::new(alloc),
            children: Vec::new(alloc),
        })
    }

    /// An element with the name after the first colon and the prefix before it; without a colon the whole is its name
    /// (Namespaces in XML 1.0, section 4).
    pub fn new2(alloc: Global, name: &str) -> Result<Element, NoMemory>
        ensures { IfOk result (λ e. e ≡ named_by name.now) }
    {
        let Some((prefix, name)) = name.split_once(':') else {
            return Element::new(alloc, name);
        };
        let mut element = Element::new(alloc, name)?;
        element.prefix = Some(String::from_str(alloc, prefix)?);
        Ok(element)
    }

    /// Sets the attribute `xmlns:` and the prefix, or `xmlns` for an empty prefix, to a namespace (Namespaces in XML
    /// 1.0, section 3): where the element has one, the first gets this value, else it is added after the others. The
    /// fields `prefix` and `namespace` stay. Where memory runs out, the element stays as it was.
    pub fn ns(&mut self, prefix: &str, uri: &str) -> Result<(), NoMemory>
        ensures ok { OnOk result (self.new
            ≡ with_attributes self.old
            (set_attribute (xmlns_name prefix.now) uri.now (attributes_of self.old))) }
        ensures err { OnErr result (self.new ≡ self.old) }
    {
        let alloc = *self.children.allocator();
        let name = xmlns_name(alloc, prefix)?;
        let value = String::from_str(alloc, uri)?;
        set_attribute(&mut self.attributes, name, value)
    }

    /// Adds a text after the children, also an empty one. Where memory runs out, the element stays as it was.
    pub fn text(&mut self, value: &str) -> Result<(), NoMemory>
        ensures ok { OnOk result (self.new ≡ with_child self.old (text value.now)) }
        ensures err { OnErr result (self.new ≡ self.old) }
    {
        let text = String::from_str(*self.children.allocator(), value)?;
        self.children.push(XmlNode::Text(text))?;
        Ok(())
    }

    /// Adds an element after the children. Where memory runs out, the element stays as it was.
    pub fn push_element(&mut self, child: Element) -> Result<(), NoMemory>
        ensures ok { OnOk result (self.new ≡ with_child self.old child) }
        ensures err { OnErr result (self.new ≡ self.old) }
    {
        self.children.push(XmlNode::Element(child))?;
        Ok(())
    }

    /// The texts among the children, joined in order; `None` where there is none. Those of child elements don't count.
    pub fn get_text(&self, alloc: Global) -> Result<Option<String>, NoMemory>
        ensures { IfOk result (λ t. option_map string_bytes t ≡ text_of self.now) }
    {
        joined_texts(alloc, &self.children)
    }

    /// The child elements, in order.
    pub fn child_elems(&self) -> ChildElems<'_>
        ensures { elements_left result ≡ child_elements self.now }
    {
        ChildElems {
            rest: &self.children,
        }
    }

    /// Whether there is an element among the children.
    pub fn has_child_elems(&self) -> bool
        ensures { IsTrue result ↔ (child_elements self.now ≢ []) }
    {
        self.child_elems().next().is_some()
    }

    /// Takes out the first child element of that name, in whatever namespace; `None` where there is none, and the
    /// element is then as it was.
    pub fn take_child(&mut self, name: &str) -> Option<Element>
        ensures taken { result ≡ find (is_named name.now) (children_of self.old) }
        ensures left { self.new ≡ with_children self.old
            (without_first (is_named name.now) (children_of self.old)) }
    {
        let index = index_named(&self.children, name)?;
        match self.children.remove(index) {
            XmlNode::Element(child) => Some(child),
            XmlNode::Text(_) => None,
        }
    }

    /// How many levels of elements are nested: 1 where no child is an element. At most `usize::MAX`.
    #[cycle(depths)]
    pub fn depth(&self) -> usize
        ensures { result ≡ min 18446744073709551615 (depth_of self.now) }
    {
        let mut most: usize = 0;
        for child in &self.children {
            most = most.max(child.depth());
        }
        most.saturating_add(1)
    }
}

impl XmlNode {
    ghost use Rattle.std.specs.Prelude.{◌≡◌, min};
    ghost use Rattle.dav_core.specs.Element.{depth_of};
    ghost use Rattle.dav_core.specs.ElementView.{node_tree};

    // How many levels of elements are nested.
    #[cycle(depths)]
    fn depth(&self) -> usize
        ensures { result ≡ min 18446744073709551615 (depth_of (node_tree self.now)) }
    {
        match self {
            XmlNode::Element(e) => e.depth(),
            XmlNode::Text(_) => 0,
        }
    }
}

/// The child elements of an element, in order.
#[derive(Drop)]
pub struct ChildElems<'a> {
    rest: &'a [XmlNode],
}

impl<'a> Iterator for ChildElems<'a> {
    type Item = &'a Element;

    ghost use Rattle.std.specs.Iterator.{YieldsFirstBy, item_count};
    ghost use Rattle.dav_core.specs.ChildElements.{elements_left};

    ghost next_gives = { YieldsFirstBy (λ e. e.now) elements_left };

    ghost remaining = { item_count elements_left };

    fn next(&mut self) -> Option<&'a Element> {
        while let Some((first, others)) = self.rest.split_first() {
            self.rest = others;
            if let Some(e) = first.as_element() {
                return Some(e);
            }
        }
        None
    }
}

impl Clone for Element {
    ghost use Rattle.std.specs.Prelude.{◌≡◌};

    ghost is_clone = { λ a b. a ≡ b };

    #[cycle(clones)]
    fn clone(&self) -> Result<Element, NoMemory> {
        Ok(Element {
            name: self.name.clone()?,
            prefix: self.prefix.clone()?,
            namespace: self.namespace.clone()?,
            attributes: copied_attributes(&self.attributes)?,
            children: copied_children(&self.children)?,
        })
    }
}

impl Clone for XmlNode {
    ghost use Rattle.std.specs.Prelude.{◌≡◌};
    ghost use Rattle.dav_core.specs.ElementView.{node_tree};

    ghost is_clone = { λ a b. node_tree a ≡ node_tree b };

    #[cycle(clones)]
    fn clone(&self) -> Result<XmlNode, NoMemory> {
        match self {
            XmlNode::Element(e) => Ok(XmlNode::Element(e.clone()?)),
            XmlNode::Text(text) => Ok(XmlNode::Text(text.clone()?)),
        }
    }
}

/// Compares all fields.
impl PartialEq for Element {
    ghost use Rattle.std.specs.Cmp.{partial_equiv_from_equiv};
    ghost use Rattle.dav_core.specs.ElementEq.{tree_eq, tree_eq-Decides, equality_by};

    ghost eq = { tree_eq };

    ghost laws = { partial_equiv_from_equiv (equality_by tree_eq tree_eq-Decides (λ t. t)) };

    #[cycle(equals)]
    fn eq(&self, other: &Element) -> bool {
        has_equal_tag(self, other) && are_equal(&self.children, &other.children)
    }
}

// Whether names, prefixes, namespaces and attributes are equal.
fn has_equal_tag(left: &Element, right: &Element) -> bool
    ensures { result ≡ tag_eq left.now right.now }
{
    if left.name != right.name || left.prefix != right.prefix || left.namespace != right.namespace {
        return false;
    }
    are_attributes_equal(&left.attributes, &right.attributes)
}

impl Eq for Element {
    ghost use Rattle.dav_core.specs.ElementEq.{tree_eq, tree_eq-Decides, equality_by};

    ghost laws = { equality_by tree_eq tree_eq-Decides (λ t. t) };
}

/// Compares the elements or the texts.
impl PartialEq for XmlNode {
    ghost use Rattle.std.specs.Ordering.{on};
    ghost use Rattle.std.specs.Cmp.{partial_equiv_from_equiv};
    ghost use Rattle.dav_core.specs.ElementEq.{tree_eq, tree_eq-Decides, equality_by};
    ghost use Rattle.dav_core.specs.ElementView.{node_tree};

    ghost eq = { on node_tree tree_eq };

    ghost laws = { partial_equiv_from_equiv (equality_by tree_eq tree_eq-Decides node_tree) };

    #[cycle(equals)]
    fn eq(&self, other: &XmlNode) -> bool {
        match self {
            XmlNode::Element(a) => {
                // Reading a field lets the checker know that the tree is an element.
                let _ = &a.name;
                match other {
                    XmlNode::Element(b) => a.eq(b),
                    XmlNode::Text(_) => false,
                }
            }
            XmlNode::Text(a) => other.as_text() == Some(a.as_str()),
        }
    }
}

impl Eq for XmlNode {
    ghost use Rattle.dav_core.specs.ElementEq.{tree_eq, tree_eq-Decides, equality_by};
    ghost use Rattle.dav_core.specs.ElementView.{node_tree};

    ghost laws = { equality_by tree_eq tree_eq-Decides node_tree };
}
