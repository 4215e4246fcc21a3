//! Properties by the names that clients know.
ghost use Rattle.std.specs.Prelude.{◌≡◌, IfOk};
ghost use Rattle.dav_core.specs.Element.{children_of, name_of};
ghost use Rattle.dav_presented.specs.Missing.{dav_element};
ghost use Rattle.dav_presented.specs.Usual as spec;

use crate::names::is_dav;
use dav_core::element::Element;
use dav_core::errors::NoMemory;
use std::alloc::Global;

// Whether a property is `resourcetype` or `current-user-principal`.
fn has_usual_name(property: &Element) -> bool
    ensures { result ≡ spec.has_usual_name property.now }
{
    is_dav(property, "resourcetype") || is_dav(property, "current-user-principal")
}

// An element of `DAV:` with the name and the children of one.
fn renamed(alloc: Global, told: Element) -> Result<Element, NoMemory>
    ensures { IfOk result (λ e. e ≡ dav_element (name_of told) (children_of told)) }
{
    let Element {
        name,
        prefix: _,
        namespace: _,
        attributes: _,
        children,
    } = told;
    let prefix = String::from_str(alloc, "D")?;
    Ok(Element {
        name,
        prefix: Some(prefix),
        namespace: None,
        attributes: Vec::new(alloc),
        children,
    })
}

/// A property by its usual name: `resourcetype` and `current-user-principal` of the namespace `DAV:`
/// have the prefix `D`, no attributes and the children that they had; any other stays (RFC 4918,
/// section 14.18; RFC 5397, section 3). `Err` where there is no memory.
pub(crate) fn with_usual_name(alloc: Global, property: Element) -> Result<Element, NoMemory>
    ensures { IfOk result (λ e. e ≡ spec.usual property) }
{
    if has_usual_name(&property) {
        renamed(alloc, property)
    } else {
        Ok(property)
    }
}
