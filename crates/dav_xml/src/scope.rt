//! The prefixes that are declared at one place (Namespaces in XML 1.0, sections 3 and 6).
ghost use Rattle.std.specs.Prelude.{◌≡◌, ◌==◌, map, option_map, Ok};
ghost use Rattle.dav_core.specs.ElementView.{attribute_bytes};
ghost use Rattle.dav_xml.specs.Read.{Gives};
ghost use Rattle.dav_xml.specs.Scopes.{pair_bytes};
ghost use Rattle.dav_xml.specs.Scopes as spec;

use crate::bytes::after_text;
use crate::error::{Fault, XmlError};
use crate::names::is_plain;
use crate::references::text_of;
use std::alloc::Global;

/// The namespace of the prefix `xml`.
pub const XML: &str = "http://www.w3.org/XML/1998/namespace";

/// The namespace of the prefix `xmlns`.
const XMLNS: &str = "http://www.w3.org/2000/xmlns/";

/// The namespace of a prefix: the last that is declared.
pub fn uri_of<'s>(prefix: &[u8], scope: &[(&'s [u8], &'s str)]) -> Option<&'s str>
    ensures { option_map (λ u. u.now) result ≡ spec.uri_of prefix.now (map pair_bytes scope.now) }
{
    let mut found: Option<&'s str> = None;
    for declaration in scope {
        if declaration.0 == prefix {
            found = Some(declaration.1);
        }
    }
    found
}

// Whether a namespace is that of `xml` or of `xmlns`.
fn is_bound(uri: &str) -> bool
    ensures { result ≡ spec.is_bound uri.now }
{
    uri == XML || uri == XMLNS
}

// Whether a prefix may be declared with a namespace.
pub fn may_declare(alloc: Global, prefix: &str, uri: &str) -> Result<bool, XmlError>
    ensures { Gives (λ b. b) result (Ok (spec.may_declare prefix.now uri.now)) }
{
    if prefix == "xml" {
        return Ok(uri == XML);
    }
    if prefix == "xmlns" || is_bound(uri) || uri.is_empty() {
        return Ok(false);
    }
    is_plain(alloc, prefix)
}

fn default_declared<'s>(uri: &'s str) -> Result<Option<(&'s [u8], &'s str)>, XmlError>
    ensures { Gives (λ d. option_map pair_bytes d) result (spec.default_declared uri.now) }
{
    if is_bound(uri) {
        return Err(XmlError::Fault(Fault::Malformed));
    }
    Ok(Some((b"".as_slice(), uri)))
}

fn prefix_declared<'s>(
    alloc: Global,
    prefix: &'s [u8],
    uri: &'s str,
) -> Result<Option<(&'s [u8], &'s str)>, XmlError>
    ensures { Gives (λ d. option_map pair_bytes d) result
        (spec.prefix_declared prefix.now uri.now) }
{
    if !may_declare(alloc, text_of(prefix)?, uri)? {
        return Err(XmlError::Fault(Fault::Malformed));
    }
    Ok(Some((prefix, uri)))
}

/// What an attribute declares: a prefix, which is empty for names without one, and its namespace.
pub fn declared_by<'s>(
    alloc: Global,
    attribute: &'s (String, String),
) -> Result<Option<(&'s [u8], &'s str)>, XmlError>
    ensures { Gives (λ d. option_map pair_bytes d) result
        (spec.declared_by (attribute_bytes attribute.now)) }
{
    if attribute.0.as_str() == "xmlns" {
        return default_declared(&attribute.1);
    }
    match after_text(attribute.0.as_bytes(), b"xmlns:") {
        Some(prefix) => prefix_declared(alloc, prefix, &attribute.1),
        None => Ok(None),
    }
}
