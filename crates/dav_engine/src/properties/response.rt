//! The response for one resource (RFC 4918, section 14.24).
ghost use Rattle.std.specs.Prelude.{◌≡◌, IfOk};
ghost use Rattle.dav_core.specs.Element.{named_by, with_children};
ghost use Rattle.dav_engine.specs.Properties.{propstat, property_response};
ghost use Rattle.dav_engine.specs.PropertyView.{groups_in};

use crate::reply::multistatus::{href, status_element};
use crate::reply::tree::with_child;
use dav_core::davpath::DavPath;
use dav_core::element::Element;
use dav_core::errors::NoMemory;
use std::alloc::Global;
use std::collections::BTreeMap;

// An element with elements in it.
fn holding_all(alloc: Global, name: &str, children: Vec<Element>) -> Result<Element, NoMemory>
    ensures { IfOk result (λ e. e ≡ with_children (named_by name.now) children.items) }
{
    let mut element = Element::new2(alloc, name)?;
    for child in children {
        element.push_element(child)?;
    }
    Ok(element)
}

// The properties that have this status.
fn propstat(alloc: Global, status: u16, properties: Vec<Element>) -> Result<Element, NoMemory>
    ensures { IfOk result (λ e. e ≡ propstat (status, properties.items)) }
{
    let told = holding_all(alloc, "D:prop", properties);
    let element = with_child(Element::new2(alloc, "D:propstat"), told);
    with_child(element, status_element(alloc, status))
}

// The response for one resource: its properties under their statuses, in rising order.
pub(crate) fn property_response(
    alloc: Global,
    path: &DavPath,
    groups: BTreeMap<u16, Vec<Element>>,
) -> Result<Element, NoMemory>
    ensures { IfOk result (λ e. e ≡ property_response path.now (groups_in groups)) }
{
    let mut response = with_child(Element::new2(alloc, "D:response"), href(alloc, path))?;
    for (status, properties) in groups {
        response.push_element(propstat(alloc, status, properties)?)?;
    }
    Ok(response)
}
