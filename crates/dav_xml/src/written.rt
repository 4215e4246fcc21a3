//! Where elements are written: with which attributes, and what is declared within them (Namespaces in XML 1.0, sections 3 and 6).
ghost use Rattle.std.specs.Prelude.{◌≡◌, [], map, option_map, string_bytes, IfOk};
ghost use Rattle.dav_core.specs.Element.{xmlns_name};
ghost use Rattle.dav_core.specs.ElementView.{attribute_bytes};
ghost use Rattle.dav_xml.specs.Scopes.{pair_bytes};
ghost use Rattle.dav_xml.specs.PlaceView.{place_view};
ghost use Rattle.dav_xml.specs.Written as spec;

use crate::bytes::after_text;
use crate::scope::uri_of;
use std::alloc::{AllocError, Global};

/// The attributes of an element as they are written, and what is declared within it.
#[derive(Drop)]
pub struct Place<'e> {
    pub attributes: Vec<(String, String)>,
    pub scope: Vec<(&'e [u8], &'e str)>,
}

// The prefix that an attribute of this name declares, as bytes.
fn declared_prefix(name: &str) -> Option<&[u8]>
    ensures { option_map (λ p. p.now) result ≡ spec.declared_prefix name.now }
{
    if name == "xmlns" {
        return Some(b"".as_slice());
    }
    after_text(name.as_bytes(), b"xmlns:")
}

/// The namespace of a prefix that stands in a tree without one, as `write` declares it: `D` is `DAV:` (RFC 4918, section 14), `A`,
/// `Z`, `nc` and `oc` are those of Apache, Microsoft, Nextcloud and ownCloud, and any other is `urn:unknown`.
pub fn known(prefix: &str) -> &'static str
    ensures { result.now ≡ spec.known prefix.now }
{
    if prefix == "D" {
        "DAV:"
    } else if prefix == "A" {
        "http://apache.org/dav/props/"
    } else if prefix == "Z" {
        "urn:schemas-microsoft-com:"
    } else if prefix == "nc" {
        "http://nextcloud.org/ns"
    } else if prefix == "oc" {
        "http://owncloud.org/ns"
    } else {
        "urn:unknown"
    }
}

fn with_prefix<'e>(
    scope: Vec<(&'e [u8], &'e str)>,
    uri: &'e str,
    prefix: Option<&'e [u8]>,
) -> Result<Vec<(&'e [u8], &'e str)>, AllocError>
    ensures { IfOk result (λ v. map pair_bytes v.items ≡ spec.with_prefix
        (map pair_bytes scope.entry.items) uri.now (option_map (λ p. p.now) prefix.entry)) }
{
    let mut scope = scope;
    if let Some(prefix) = prefix {
        scope.push((prefix, uri))?;
    }
    Ok(scope)
}

// What is declared within an element of those attributes.
fn opened<'e>(
    alloc: Global,
    scope: &[(&'e [u8], &'e str)],
    attributes: &'e [(String, String)],
) -> Result<Vec<(&'e [u8], &'e str)>, AllocError>
    ensures { IfOk result (λ v. map pair_bytes v.items ≡ spec.scope_below
        (map pair_bytes scope.now) (map attribute_bytes attributes.now)) }
{
    let mut inner = Vec::new(alloc);
    inner.extend_from_slice(scope)?;
    for attribute in attributes {
        inner = with_prefix(inner, &attribute.1, declared_prefix(&attribute.0))?;
    }
    Ok(inner)
}

// The namespace that an element's name has to have; empty for none.
fn wanted<'e>(scope: &[(&'e [u8], &'e str)], prefix: &str, namespace: Option<&'e str>) -> &'e str
    ensures { result.now ≡ spec.wanted (map pair_bytes scope.now) prefix.now
        (option_map (λ u. u.now) namespace.entry) }
{
    if let Some(uri) = namespace {
        return uri;
    }
    if prefix.is_empty() {
        return "";
    }
    match uri_of(prefix.as_bytes(), scope) {
        Some(uri) => uri,
        None => known(prefix),
    }
}

// The name of the attribute that declares a prefix.
fn declaring(alloc: Global, prefix: &str) -> Result<String, AllocError>
    ensures { IfOk result (λ s. string_bytes s ≡ xmlns_name prefix.now) }
{
    if prefix.is_empty() {
        return String::from_str(alloc, "xmlns");
    }
    let mut name = String::from_str(alloc, "xmlns:")?;
    name.push_str(prefix)?;
    Ok(name)
}

fn declares(prefix: &str, declared: Option<&[u8]>) -> bool
    ensures { result ≡ spec.declares prefix.now (option_map (λ p. p.now) declared.entry) }
{
    match declared {
        Some(other) => other == prefix.as_bytes(),
        None => false,
    }
}

fn other_added(
    made: Vec<(String, String)>,
    prefix: &str,
    attribute: &(String, String),
) -> Result<Vec<(String, String)>, AllocError>
    ensures { IfOk result (λ v. map attribute_bytes v.items ≡ spec.other_added prefix.now
        (map attribute_bytes made.items) (attribute_bytes attribute.now)) }
{
    let mut made = made;
    if !declares(prefix, declared_prefix(&attribute.0)) {
        made.push((attribute.0.clone()?, attribute.1.clone()?))?;
    }
    Ok(made)
}

// The attributes that don't declare a prefix.
fn others_than(
    alloc: Global,
    prefix: &str,
    attributes: &[(String, String)],
) -> Result<Vec<(String, String)>, AllocError>
    ensures { IfOk result (λ v. map attribute_bytes v.items ≡ spec.others_after prefix.now []
        (map attribute_bytes attributes.now)) }
{
    let mut made = Vec::new(alloc);
    for attribute in attributes {
        made = other_added(made, prefix, attribute)?;
    }
    Ok(made)
}

fn copied(
    alloc: Global,
    attributes: &[(String, String)],
) -> Result<Vec<(String, String)>, AllocError>
    ensures { IfOk result (λ v. map attribute_bytes v.items ≡ map attribute_bytes attributes.now) }
{
    let mut copies = Vec::new(alloc);
    for attribute in attributes {
        copies.push((attribute.0.clone()?, attribute.1.clone()?))?;
    }
    Ok(copies)
}

// Whether what was found for a prefix is that namespace; empty for none.
fn has_uri(found: Option<&str>, uri: &str) -> bool
    ensures { result ≡ spec.has_uri (option_map (λ u. u.now) found.entry) uri.now }
{
    match found {
        Some(found) => found == uri,
        None => uri.is_empty(),
    }
}

// Whether a prefix has that namespace; empty for none.
fn is_in_scope(scope: &[(&[u8], &str)], prefix: &str, uri: &str) -> bool
    ensures { result ≡ spec.is_in_scope (map pair_bytes scope.now) prefix.now uri.now }
{
    has_uri(uri_of(prefix.as_bytes(), scope), uri)
}

fn declared_too<'e>(
    alloc: Global,
    scope: Vec<(&'e [u8], &'e str)>,
    prefix: &'e str,
    uri: &'e str,
    attributes: &[(String, String)],
) -> Result<Place<'e>, AllocError>
    ensures { IfOk result (λ p. place_view p ≡ spec.declared_too (map pair_bytes scope.entry.items)
        prefix.now uri.now (map attribute_bytes attributes.now)) }
{
    let mut scope = scope;
    let mut attributes = others_than(alloc, prefix, attributes)?;
    let name = declaring(alloc, prefix)?;
    attributes.push((name, String::from_str(alloc, uri)?))?;
    scope.push((prefix.as_bytes(), uri))?;
    Ok(Place { attributes, scope })
}

fn placed<'e>(
    alloc: Global,
    scope: Vec<(&'e [u8], &'e str)>,
    prefix: &'e str,
    uri: &'e str,
    attributes: &[(String, String)],
) -> Result<Place<'e>, AllocError>
    ensures { IfOk result (λ p. place_view p ≡ spec.placed (map pair_bytes scope.entry.items)
        prefix.now uri.now (map attribute_bytes attributes.now)) }
{
    if is_in_scope(&scope, prefix, uri) {
        let attributes = copied(alloc, attributes)?;
        return Ok(Place { attributes, scope });
    }
    declared_too(alloc, scope, prefix, uri, attributes)
}

/// Where an element of this name and these attributes is written, in a scope.
pub fn place_of<'e>(
    alloc: Global,
    scope: &[(&'e [u8], &'e str)],
    prefix: &'e str,
    namespace: Option<&'e str>,
    attributes: &'e [(String, String)],
) -> Result<Place<'e>, AllocError>
    ensures { IfOk result (λ p. place_view p ≡ spec.place_of (map pair_bytes scope.now)
        prefix.now (option_map (λ u. u.now) namespace.entry) (map attribute_bytes attributes.now)) }
{
    let inner = opened(alloc, scope, attributes)?;
    let uri = wanted(&inner, prefix, namespace);
    placed(alloc, inner, prefix, uri, attributes)
}

/// What is declared within an element of this name and these attributes, in a scope. `Err` where memory runs out.
pub fn scope_of<'e>(
    alloc: Global,
    scope: &[(&'e [u8], &'e str)],
    prefix: &'e str,
    namespace: Option<&'e str>,
    attributes: &'e [(String, String)],
) -> Result<Vec<(&'e [u8], &'e str)>, AllocError>
    ensures { IfOk result (λ v. map pair_bytes v.items ≡ (spec.place_of (map pair_bytes scope.now)
        prefix.now (option_map (λ u. u.now) namespace.entry) (map attribute_bytes attributes.now)).1) }
{
    let mut inner = opened(alloc, scope, attributes)?;
    let uri = wanted(&inner, prefix, namespace);
    if !is_in_scope(&inner, prefix, uri) {
        inner.push((prefix.as_bytes(), uri))?;
    }
    Ok(inner)
}

/// The prefix of a name; empty for none.
pub fn prefix_of(prefix: &Option<String>) -> &str
    ensures { result.now ≡ spec.or_empty (option_map string_bytes prefix.now) }
{
    match prefix {
        Some(prefix) => prefix.as_str(),
        None => "",
    }
}

/// The namespace of a name, if it has one of its own.
pub fn namespace_of(namespace: &Option<String>) -> Option<&str>
    ensures { option_map (λ u. u.now) result ≡ option_map string_bytes namespace.now }
{
    match namespace {
        Some(uri) => Some(uri.as_str()),
        None => None,
    }
}

/// Whether a prefix has the namespace that an element's name has to have, where the element has no attributes.
pub fn is_placed(scope: &[(&[u8], &str)], prefix: &str, namespace: Option<&str>) -> bool
    ensures { result ≡ spec.is_in_scope (map pair_bytes scope.now) prefix.now
        (spec.wanted (map pair_bytes scope.now) prefix.now
        (option_map (λ u. u.now) namespace.entry)) }
{
    let found = uri_of(prefix.as_bytes(), scope);
    match namespace {
        Some(uri) => has_uri(found, uri),
        None if prefix.is_empty() => has_uri(found, ""),
        None => found.is_some(),
    }
}
