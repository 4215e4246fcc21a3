//! Elements under another prefix (Namespaces in XML 1.0, sections 3 to 6).
ghost use Rattle.std.specs.Prelude.{◌≡◌, ◌++◌, ◌∷◌, [], map, option_map, string_bytes, IfOk, Ok};
ghost use Rattle.dav_core.specs.ElementView.{attribute_bytes};
ghost use Rattle.dav_xml.specs.Read.{Gives};
ghost use Rattle.dav_xml.specs.Scopes.{pair_bytes};
ghost use Rattle.dav_xml.specs.KeptView.{kept_view};
ghost use Rattle.dav_xml.specs.Prefixed.{under_prefix};
ghost use Rattle.dav_xml.specs.Prefixed as spec;

use crate::bytes::after_text;
use crate::error::XmlError;
use crate::namespaces::{Kept, has_prefix, kept_of, within};
use crate::scope::may_declare;
use crate::written::known;
use dav_core::element::Element;
use std::alloc::{AllocError, Global};

// Whether a name has this prefix.
fn is_under(prefix: &str, name: &str) -> bool
    ensures { result ≡ spec.is_under prefix.now name.now }
{
    match after_text(name.as_bytes(), prefix.as_bytes()) {
        Some([first, ..]) => *first == b':',
        _ => false,
    }
}

// The attributes before, and this one where its name doesn't have the prefix.
fn other_added(
    made: Vec<(String, String)>,
    prefix: &str,
    attribute: &(String, String),
) -> Result<Vec<(String, String)>, XmlError>
    ensures { Gives (λ v. map attribute_bytes v.items) result (Ok (map attribute_bytes made.items
        ++ spec.not_under prefix.now (attribute_bytes attribute.now ∷ []))) }
{
    let mut made = made;
    if !is_under(prefix, &attribute.0) {
        made.push((attribute.0.clone()?, attribute.1.clone()?))?;
    }
    Ok(made)
}

// The attributes whose names don't have this prefix.
fn not_under(
    alloc: Global,
    prefix: &str,
    attributes: &[(String, String)],
) -> Result<Vec<(String, String)>, XmlError>
    ensures { Gives (λ v. map attribute_bytes v.items) result
        (Ok (spec.not_under prefix.now (map attribute_bytes attributes.now))) }
{
    let mut others = Vec::new(alloc);
    for attribute in attributes {
        others = other_added(others, prefix, attribute)?;
    }
    Ok(others)
}

// The namespace of an element that gets this prefix.
fn namespace_under<'e>(
    alloc: Global,
    prefix: &str,
    namespace: Option<&'e str>,
) -> Result<&'e str, XmlError>
    ensures { Gives (λ u. u.now) result (Ok (spec.namespace_under prefix.now
        (option_map (λ u. u.now) namespace.entry))) }
{
    match namespace {
        Some(uri) if may_declare(alloc, prefix, uri)? => Ok(uri),
        _ => Ok(known(prefix)),
    }
}

// What is declared within an element that gets this prefix.
fn scope_under<'e>(
    scope: Vec<(&'e [u8], &'e str)>,
    prefix: &'e str,
    uri: &'e str,
    own: Option<&'e str>,
    namespace: Option<&'e str>,
) -> Result<Vec<(&'e [u8], &'e str)>, XmlError>
    ensures { Gives (λ v. map pair_bytes v.items) result
        (Ok (spec.scope_under prefix.now uri.now (option_map (λ p. p.now) own.entry)
        (option_map (λ u. u.now) namespace.entry) (map pair_bytes scope.entry.items))) }
{
    let mut scope = scope;
    if let (Some(own), Some(namespace)) = (own, namespace) {
        scope.push((own.as_bytes(), namespace))?;
    }
    scope.push((prefix.as_bytes(), uri))?;
    Ok(scope)
}

// What is kept of an element's attributes where it gets this prefix and namespace.
fn kept_under<'e>(
    alloc: Global,
    prefix: &'e str,
    uri: &'e str,
    own: Option<&'e str>,
    namespace: Option<&'e str>,
    attributes: &'e [(String, String)],
) -> Result<Kept, XmlError>
    ensures { Gives kept_view result (spec.kept_under prefix.now uri.now
        (option_map (λ p. p.now) own.entry) (option_map (λ u. u.now) namespace.entry)
        (map attribute_bytes attributes.now)) }
{
    let scope = within(alloc, &[], attributes)?;
    let scope = scope_under(scope, prefix, uri, own, namespace)?;
    let others = not_under(alloc, prefix, attributes)?;
    kept_of(alloc, &scope, Some(prefix), &others)
}

// The attributes that an element keeps where it gets this prefix and namespace; none where they are none of an element that was read.
fn attributes_under<'e>(
    alloc: Global,
    prefix: &'e str,
    uri: &'e str,
    own: Option<&'e str>,
    namespace: Option<&'e str>,
    attributes: &'e [(String, String)],
) -> Result<Vec<(String, String)>, AllocError>
    ensures { IfOk result (λ v. map attribute_bytes v.items ≡ spec.attributes_or_none
        (spec.kept_under prefix.now uri.now (option_map (λ p. p.now) own.entry)
        (option_map (λ u. u.now) namespace.entry) (map attribute_bytes attributes.now))) }
{
    match kept_under(alloc, prefix, uri, own, namespace, attributes) {
        Ok(kept) => Ok(kept.attributes),
        Err(XmlError::Memory) => Err(AllocError),
        Err(XmlError::Fault(_)) => Ok(Vec::new(alloc)),
    }
}

// An element with this prefix and namespace.
fn renamed(alloc: Global, prefix: &str, uri: &str, element: Element) -> Result<Element, AllocError>
    ensures { IfOk result (λ e. e ≡ spec.renamed prefix.now uri.now element) }
{
    let Element {
        name,
        prefix: own,
        namespace,
        attributes,
        children,
    } = element;
    let old = namespace.as_deref();
    let attributes = attributes_under(alloc, prefix, uri, own.as_deref(), old, &attributes)?;
    Ok(Element {
        name,
        prefix: Some(String::from_str(alloc, prefix)?),
        namespace: Some(String::from_str(alloc, uri)?),
        attributes,
        children,
    })
}

/// An element with this prefix (Namespaces in XML 1.0, sections 3 to 6).
///
/// It keeps its name and its children, and its namespace where the prefix may be declared with it; else it gets the one for which the prefix
/// is known. Its attributes stay, with the declarations that they need, but for those under this prefix, which would have another
/// namespace then. An element that has this prefix is as it was. `AllocError` where memory runs out.
pub fn with_prefix(alloc: Global, element: Element, prefix: &str) -> Result<Element, AllocError>
    ensures { IfOk result (λ e. e ≡ under_prefix prefix.now element) }
{
    if has_prefix(element.prefix.as_deref(), prefix) {
        return Ok(element);
    }
    let uri = match namespace_under(alloc, prefix, element.namespace.as_deref()) {
        Ok(uri) => String::from_str(alloc, uri)?,
        Err(_) => return Err(AllocError),
    };
    renamed(alloc, prefix, &uri, element)
}
