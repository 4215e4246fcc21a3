//! From names as they are written to names with their namespaces.
ghost use Rattle.std.specs.Prelude.{◌≡◌, ◌++◌, ◌∷◌, [], None, map, option_map, string_bytes, Ok};
ghost use Rattle.dav_core.specs.Element.{trees};
ghost use Rattle.dav_core.specs.ElementView.{attribute_bytes, node_tree};
ghost use Rattle.dav_xml.specs.Read.{Gives};
ghost use Rattle.dav_xml.specs.Scopes.{pair_bytes, pairs};
ghost use Rattle.dav_xml.specs.KeptView.{kept_view};
ghost use Rattle.dav_xml.specs.Namespaces as spec;

use crate::bytes::split_byte;
use crate::error::{Fault, XmlError};
use crate::front::read_raw;
use crate::names::plain_name;
use crate::scope::{XML, declared_by, uri_of};
use dav_core::element::{Element, XmlNode};
use std::alloc::Global;

// The attributes that are kept, and the namespaces and local parts of those that have a prefix.
#[derive(Drop)]
pub struct Kept {
    pub attributes: Vec<(String, String)>,
    pub names: Vec<(String, String)>,
}

#[tactic(auto, unfolding(crate::specs::Namespaces::qualified))]
fn qualified(alloc: Global, name: &str) -> Result<(Option<String>, String), XmlError>
    ensures { Gives (λ p. (option_map string_bytes p.0, string_bytes p.1)) result
        (spec.qualified name.now) }
{
    let bytes = name.as_bytes();
    match split_byte(bytes, b':') {
        None => {
            let local = plain_name(alloc, bytes)?;
            Ok((None, local))
        }
        Some((prefix, local)) => {
            let prefix = plain_name(alloc, prefix)?;
            let local = plain_name(alloc, local)?;
            Ok((Some(prefix), local))
        }
    }
}

fn uri_in<'s>(scope: &[(&'s [u8], &'s str)], prefix: &str) -> Result<&'s str, XmlError>
    ensures { Gives (λ u. u.now) result (spec.uri_in (map pair_bytes scope.now) prefix.now) }
{
    if prefix == "xml" {
        return Ok(XML);
    }
    match uri_of(prefix.as_bytes(), scope) {
        Some(uri) => Ok(uri),
        None => Err(XmlError::Fault(Fault::Malformed)),
    }
}

fn namespace_of(
    alloc: Global,
    scope: &[(&[u8], &str)],
    prefix: Option<&str>,
) -> Result<Option<String>, XmlError>
    ensures { Gives (λ u. option_map string_bytes u) result
        (spec.namespace_of (map pair_bytes scope.now) (option_map (λ p. p.now) prefix.entry)) }
{
    match prefix {
        None => match uri_of(b"", scope) {
            Some(uri) if !uri.is_empty() => Ok(Some(String::from_str(alloc, uri)?)),
            _ => Ok(None),
        },
        Some(prefix) => {
            let uri = uri_in(scope, prefix)?;
            Ok(Some(String::from_str(alloc, uri)?))
        }
    }
}

fn has_attribute(name: &str, attributes: &[(String, String)]) -> bool
    ensures { result ≡ spec.has_attribute name.now (map attribute_bytes attributes.now) }
{
    for attribute in attributes {
        if attribute.0.as_str() == name {
            return true;
        }
    }
    false
}

fn are_distinct(attributes: &[(String, String)]) -> bool
    ensures { result ≡ spec.are_distinct (map attribute_bytes attributes.now) }
{
    let mut rest = attributes;
    'rest: while let Some((first, others)) = rest.split_first() {
        if has_attribute(&first.0, others) {
            return false;
        }
        rest = others;
    }
    true
}

fn within_step<'s>(
    alloc: Global,
    scope: Vec<(&'s [u8], &'s str)>,
    attribute: &'s (String, String),
) -> Result<Vec<(&'s [u8], &'s str)>, XmlError>
    ensures { Gives (λ v. map pair_bytes v.items) result
        (spec.within_step (map pair_bytes scope.entry.items) (attribute_bytes attribute.now)) }
{
    let mut scope = scope;
    if let Some(declaration) = declared_by(alloc, attribute)? {
        scope.push(declaration)?;
    }
    Ok(scope)
}

fn copied<'s>(
    alloc: Global,
    scope: &[(&'s [u8], &'s str)],
) -> Result<Vec<(&'s [u8], &'s str)>, XmlError>
    ensures { Gives (λ v. map pair_bytes v.items) result (Ok (map pair_bytes scope.now)) }
{
    let mut copy = Vec::new(alloc);
    copy.extend_from_slice(scope)?;
    Ok(copy)
}

pub fn within<'s>(
    alloc: Global,
    scope: &[(&'s [u8], &'s str)],
    attributes: &'s [(String, String)],
) -> Result<Vec<(&'s [u8], &'s str)>, XmlError>
    ensures { Gives (λ v. map pair_bytes v.items) result
        (spec.within (map pair_bytes scope.now) (map attribute_bytes attributes.now)) }
{
    let mut inner = copied(alloc, scope)?;
    for attribute in attributes {
        inner = within_step(alloc, inner, attribute)?;
    }
    Ok(inner)
}

fn few<'s>(scope: Vec<(&'s [u8], &'s str)>) -> Result<Vec<(&'s [u8], &'s str)>, XmlError>
    ensures { Gives (λ v. pairs v.items) result (spec.few (pairs scope.entry.items)) }
{
    if scope.len() > 256 {
        return Err(XmlError::Fault(Fault::TooLarge));
    }
    Ok(scope)
}

fn inside<'s>(
    alloc: Global,
    scope: &[(&'s [u8], &'s str)],
    attributes: &'s [(String, String)],
) -> Result<Vec<(&'s [u8], &'s str)>, XmlError>
    ensures { Gives (λ v. map pair_bytes v.items) result
        (spec.inside (map pair_bytes scope.now) (map attribute_bytes attributes.now)) }
{
    if attributes.len() > 256 {
        return Err(XmlError::Fault(Fault::TooLarge));
    }
    if !are_distinct(attributes) {
        return Err(XmlError::Fault(Fault::Malformed));
    }
    few(within(alloc, scope, attributes)?)
}

// The name of the attribute that declares a prefix.
fn declaring(alloc: Global, prefix: &str) -> Result<String, XmlError>
    ensures { Gives string_bytes result (Ok (spec.declaring prefix.now)) }
{
    let mut name = String::from_str(alloc, "xmlns:")?;
    name.push_str(prefix)?;
    Ok(name)
}

pub fn has_prefix(own: Option<&str>, prefix: &str) -> bool
    ensures { result ≡ spec.has_prefix (option_map (λ p. p.now) own.entry) prefix.now }
{
    match own {
        None => false,
        Some(own) => own == prefix,
    }
}

fn again(
    alloc: Global,
    own: Option<&str>,
    kept: Vec<(String, String)>,
    prefix: &str,
    uri: &str,
) -> Result<Vec<(String, String)>, XmlError>
    ensures { Gives (λ v. map attribute_bytes v.items) result
        (Ok (spec.again (option_map (λ p. p.now) own.entry) (map attribute_bytes kept.items)
        prefix.now uri.now)) }
{
    let mut kept = kept;
    let name = declaring(alloc, prefix)?;
    if prefix == "xml" || has_prefix(own, prefix) || has_attribute(&name, &kept) {
        return Ok(kept);
    }
    let uri = String::from_str(alloc, uri)?;
    kept.push((name, uri))?;
    Ok(kept)
}

fn with_attribute(
    kept: Vec<(String, String)>,
    attribute: &(String, String),
) -> Result<Vec<(String, String)>, XmlError>
    ensures { Gives (λ v. map attribute_bytes v.items) result
        (Ok (map attribute_bytes kept.items ++ attribute_bytes attribute.now ∷ [])) }
{
    let mut kept = kept;
    kept.push((attribute.0.clone()?, attribute.1.clone()?))?;
    Ok(kept)
}

fn has_expanded(uri: &str, local: &str, names: &[(String, String)]) -> bool
    ensures { result ≡ spec.has_expanded (uri.now, local.now) (map attribute_bytes names.now) }
{
    for name in names {
        if name.0.as_str() == uri && name.1.as_str() == local {
            return true;
        }
    }
    false
}

fn kept_prefixed(
    alloc: Global,
    own: Option<&str>,
    kept: Kept,
    attribute: &(String, String),
    prefix: &str,
    uri: &str,
    local: String,
) -> Result<Kept, XmlError>
    ensures { Gives kept_view result (spec.kept_prefixed (option_map (λ p. p.now) own.entry)
        (kept_view kept) (attribute_bytes attribute.now) prefix.now uri.now (string_bytes local)) }
{
    let Kept {
        attributes,
        mut names,
    } = kept;
    if has_expanded(uri, &local, &names) {
        return Err(XmlError::Fault(Fault::Malformed));
    }
    let attributes = with_attribute(attributes, attribute)?;
    let attributes = again(alloc, own, attributes, prefix, uri)?;
    names.push((String::from_str(alloc, uri)?, local))?;
    Ok(Kept { attributes, names })
}

fn kept_as(
    alloc: Global,
    scope: &[(&[u8], &str)],
    own: Option<&str>,
    kept: Kept,
    attribute: &(String, String),
) -> Result<Kept, XmlError>
    ensures { Gives kept_view result (spec.kept_unless (map pair_bytes scope.now)
        (option_map (λ p. p.now) own.entry) (kept_view kept) (attribute_bytes attribute.now) None) }
{
    let (prefix, local) = qualified(alloc, &attribute.0)?;
    match prefix {
        None => {
            let Kept { attributes, names } = kept;
            let attributes = with_attribute(attributes, attribute)?;
            Ok(Kept { attributes, names })
        }
        Some(prefix) => {
            let uri = uri_in(scope, &prefix)?;
            kept_prefixed(alloc, own, kept, attribute, &prefix, uri, local)
        }
    }
}

fn kept_step(
    alloc: Global,
    scope: &[(&[u8], &str)],
    own: Option<&str>,
    kept: Kept,
    attribute: &(String, String),
) -> Result<Kept, XmlError>
    ensures { Gives kept_view result (spec.kept_step (map pair_bytes scope.now)
        (option_map (λ p. p.now) own.entry) (kept_view kept) (attribute_bytes attribute.now)) }
{
    match declared_by(alloc, attribute)? {
        Some(_) => Ok(kept),
        None => kept_as(alloc, scope, own, kept, attribute),
    }
}

pub fn kept_of(
    alloc: Global,
    scope: &[(&[u8], &str)],
    own: Option<&str>,
    attributes: &[(String, String)],
) -> Result<Kept, XmlError>
    ensures { Gives kept_view result (spec.kept_after (map pair_bytes scope.now)
        (option_map (λ p. p.now) own.entry) ([], []) (map attribute_bytes attributes.now)) }
{
    let mut state = Kept {
        attributes: Vec::new(alloc),
        names: Vec::new(alloc),
    };
    for attribute in attributes {
        state = kept_step(alloc, scope, own, state, attribute)?;
    }
    Ok(state)
}

#[tactic(auto, unfolding(crate::specs::Namespaces::expanded))]
fn expanded(
    alloc: Global,
    scope: &[(&[u8], &str)],
    name: &str,
    attributes: &[(String, String)],
    children: Vec<XmlNode>,
) -> Result<Element, XmlError>
    ensures { Gives (λ e. e) result (spec.expanded (map pair_bytes scope.now) name.now
        (map attribute_bytes attributes.now) (map node_tree children.items)) }
{
    let (prefix, local) = qualified(alloc, name)?;
    let namespace = namespace_of(alloc, scope, prefix.as_deref())?;
    let kept = kept_of(alloc, scope, prefix.as_deref(), attributes)?;
    Ok(Element {
        name: local,
        prefix,
        namespace,
        attributes: kept.attributes,
        children,
    })
}

// The tree with expanded names, in a scope.
#[cycle(expands)]
fn expanded_tree<'s>(
    alloc: Global,
    scope: &[(&'s [u8], &'s str)],
    element: &'s Element,
) -> Result<Element, XmlError>
    ensures { Gives (λ e. e) result (spec.expanded_tree (map pair_bytes scope.now) element.now) }
{
    let inner = inside(alloc, scope, &element.attributes)?;
    let children = expanded_children(alloc, &inner, &element.children)?;
    expanded(alloc, &inner, &element.name, &element.attributes, children)
}

#[cycle(expands)]
fn expanded_children<'s>(
    alloc: Global,
    scope: &[(&'s [u8], &'s str)],
    children: &'s Vec<XmlNode>,
) -> Result<Vec<XmlNode>, XmlError>
    ensures { Gives (λ v. map node_tree v.items) result (spec.expanded_after
        (map pair_bytes scope.now) [] (trees (map node_tree children.now.items))) }
{
    let mut made = Vec::new(alloc);
    for child in children {
        made.push(expanded_node(alloc, scope, child)?)?;
    }
    Ok(made)
}

#[cycle(expands)]
fn expanded_node<'s>(
    alloc: Global,
    scope: &[(&'s [u8], &'s str)],
    node: &'s XmlNode,
) -> Result<XmlNode, XmlError>
    ensures { Gives node_tree result
        (spec.expanded_tree (map pair_bytes scope.now) (node_tree node.now)) }
{
    match node {
        XmlNode::Element(element) => { Ok(XmlNode::Element(expanded_tree(alloc, scope, element)?)) }
        XmlNode::Text(text) => Ok(XmlNode::Text(text.clone()?)),
    }
}

// The tree with expanded names, where nothing is declared.
fn expanded_root(alloc: Global, tree: &Element) -> Result<Element, XmlError>
    ensures { Gives (λ e. e) result (spec.expanded_tree [] tree.now) }
{
    expanded_tree(alloc, &[], tree)
}

/// The element tree of a document (XML 1.0; Namespaces in XML 1.0).
///
/// It has UTF-8, no document type, and at most 1 MiB, 64 levels of elements, 256 attributes of an element and 256 prefixes that
/// are declared at one place. Texts stay as they are, also those of white space alone, and of the declarations those stay that the
/// prefix of an attribute needs, unless it is that of its element.
///
/// `Malformed` where it isn't well-formed, isn't in UTF-8, or has a document type or a prefix that isn't declared; `TooDeep` and
/// `TooLarge` past the limits; `Memory` where memory runs out.
#[tactic(auto, unfolding(crate::specs::Namespaces::document))]
pub fn read(alloc: Global, bytes: &[u8]) -> Result<Element, XmlError>
    ensures { Gives (λ e. e) result (spec.document bytes.now) }
{
    let tree = read_raw(alloc, bytes)?;
    expanded_root(alloc, &tree)
}
