//! The times that are told in a multistatus.
ghost use Rattle.std.specs.Prelude.{◌≡◌, ◌≤◌, length, option_map, IfOk, IfSome};
ghost use Rattle.std.specs.List.{find};
ghost use Rattle.dav_core.specs.Element.{child_elements};
ghost use Rattle.dav_core.specs.World.{last_moment};
ghost use Rattle.dav_presented.specs.Times as spec;

use super::{OWN_SPACE, Times, WINDOWS_TIME, date_text, is_time, moment_in, moment_of};
use crate::names::{is_dav, is_in};
use crate::texts::saying;
use dav_core::element::Element;
use dav_core::errors::NoMemory;
use std::alloc::Global;

// Whether a property is the server's own.
pub(crate) fn is_own(property: &Element) -> bool
    ensures { result ≡ spec.is_own property.now }
{
    is_in(property, OWN_SPACE)
}

// Whether a property is one by which a time is kept.
fn is_kept(property: &Element) -> bool
    ensures { result ≡ spec.is_kept property.now }
{
    is_own(property) && property.name.as_str() == "modified"
}

// The first property of a `prop` by which a time is kept.
fn kept_in_prop(prop: &Element) -> Option<&Element>
    ensures { option_map (λ e. e.now) result ≡ find spec.is_kept (child_elements prop.now) }
{
    for child in prop.child_elems() {
        if is_kept(child) {
            return Some(child);
        }
    }
    None
}

// The first property of a `propstat` by which a time is kept.
fn kept_in_propstat(propstat: &Element) -> Option<&Element>
    ensures { option_map (λ e. e.now) result
        ≡ spec.kept_in_props (child_elements propstat.now) }
{
    for child in propstat.child_elems() {
        if !is_dav(child, "prop") {
            continue;
        }
        if let Some(kept) = kept_in_prop(child) {
            return Some(kept);
        }
    }
    None
}

// The first property of a response by which a time is kept.
fn kept_in(response: &Element) -> Option<&Element>
    ensures { option_map (λ e. e.now) result
        ≡ spec.kept_in_propstats (child_elements response.now) }
{
    for child in response.child_elems() {
        if !is_dav(child, "propstat") {
            continue;
        }
        if let Some(kept) = kept_in_propstat(child) {
            return Some(kept);
        }
    }
    None
}

// The two dates in a text.
fn times_of(bytes: &[u8]) -> Option<Times>
    ensures is { result ≡ spec.times_of bytes.now }
    ensures date { IfSome result (λ times. times.0 ≤ last_moment) }
{
    if bytes.len() < 29 {
        return None;
    }
    let (time, moment) = bytes.split_at(29);
    Some((moment_of(time)?, moment_of(moment)?))
}

/// The time that is kept of what a response is about, and the moment at which it was set; `None` where
/// none is told (RFC 4918, section 14.24). `Err` where there is no memory.
pub(crate) fn times_told(alloc: Global, response: &Element) -> Result<Option<Times>, NoMemory>
    ensures is { IfOk result (λ times. times ≡ spec.times_told response.now) }
    ensures date { IfOk result (λ found. IfSome found (λ times. times.0 ≤ last_moment)) }
{
    let Some(kept) = kept_in(response) else {
        return Ok(None);
    };
    match kept.get_text(alloc)? {
        Some(text) => Ok(times_of(text.as_bytes())),
        None => Ok(None),
    }
}

// Whether what was changed last at a time, if it is one, wasn't changed after this moment.
fn is_unchanged(changed: Option<u64>, moment: u64) -> bool
    ensures { result ≡ spec.is_unchanged changed moment }
{
    match changed {
        Some(changed) => changed <= moment,
        None => false,
    }
}

/// A property that was found: a time is the one that is kept, as long as the file wasn't changed after the
/// moment at which that was set; any other stays (RFC 4918, section 15.7). `Err` where there is no memory.
pub(crate) fn timed(
    alloc: Global,
    times: Option<Times>,
    property: Element,
) -> Result<Element, NoMemory>
    requires { IfSome times (λ times. times.0 ≤ last_moment) }
    ensures { IfOk result (λ e. e ≡ spec.timed times property) }
{
    let Some((time, moment)) = times else {
        return Ok(property);
    };
    if is_time(&property) && is_unchanged(moment_in(alloc, &property)?, moment) {
        let text = date_text(alloc, time)?;
        saying(alloc, property, text.as_str())
    } else {
        Ok(property)
    }
}

/// A property that was set: the one by which a time is kept gets the name by which the client set it;
/// any other stays (RFC 4918, section 9.2.1). `Err` where there is no memory.
pub(crate) fn named_as_set(alloc: Global, property: Element) -> Result<Element, NoMemory>
    ensures { IfOk result (λ e. e ≡ spec.named_as_set property) }
{
    if !is_kept(&property) {
        return Ok(property);
    }
    match property.prefix.as_deref() {
        Some("getlastmodified") => Element::new2(alloc, "D:getlastmodified"),
        Some(WINDOWS_TIME) => Element::new2(alloc, "Z:Win32LastModifiedTime"),
        _ => Ok(property),
    }
}
