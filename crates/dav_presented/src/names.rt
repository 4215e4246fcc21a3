//! The names of elements (Namespaces in XML 1.0, section 2.1).
ghost use Rattle.std.specs.Prelude.{◌≡◌, [], bytes_eq, codes, option_map};
ghost use Rattle.std.specs.Option.{option_copied};
ghost use Rattle.dav_presented.specs.Names as spec;

pub(crate) mod set;

use dav_core::element::Element;
use dav_xml::known;

/// The namespace of an element's name: its own, else the one that its prefix is known with; empty for
/// none (Namespaces in XML 1.0, section 2.1; RFC 4918, section 4.4).
pub fn space_of(element: &Element) -> &str
    ensures { result.now ≡ spec.space_of element.now }
{
    if let Some(space) = &element.namespace {
        return space.as_str();
    }
    match &element.prefix {
        Some(prefix) => known(prefix.as_str()),
        None => "",
    }
}

/// Whether two elements have the same name in the same namespace, whatever their prefixes are
/// (Namespaces in XML 1.0, section 2.1; RFC 4918, section 4.4).
pub fn is_same(one: &Element, other: &Element) -> bool
    ensures { result ≡ spec.is_same one.now other.now }
{
    is_text(space_of(one), space_of(other)) && is_text(one.name.as_str(), other.name.as_str())
}

/// Whether an element's name is in that namespace (Namespaces in XML 1.0, section 2.1).
pub fn is_in(element: &Element, space: &str) -> bool
    ensures { result ≡ spec.is_in space.now element.now }
{
    is_text(space_of(element), space)
}

/// Whether an element has that name in the namespace `DAV:` (RFC 4918, section 14).
pub fn is_dav(element: &Element, name: &str) -> bool
    ensures { result ≡ spec.is_dav name.now element.now }
{
    is_text(element.name.as_str(), name) && is_dav_space(space_of(element))
}

// Whether two texts are the same.
fn is_text(one: &str, other: &str) -> bool
    ensures { result ≡ bytes_eq one.now other.now }
{
    are_same(one.as_bytes(), other.as_bytes())
}

// Whether bytes are the same, one after another: names are short.
fn are_same(one: &[u8], other: &[u8]) -> bool
    ensures { result ≡ bytes_eq one.now other.now }
{
    if one.len() != other.len() {
        return false;
    }
    for (i, byte) in one.iter().enumerate() {
        if *byte != other[i] {
            return false;
        }
    }
    true
}

// Whether a namespace is `DAV:`.
fn is_dav_space(space: &str) -> bool
    ensures { result ≡ bytes_eq space.now (codes "DAV:") }
{
    matches!(space.as_bytes(), [b'D', b'A', b'V', b':'])
}
