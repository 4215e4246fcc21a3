//! Replies that say nothing of what isn't there (RFC 8144, section 2.1).
ghost use Rattle.std.specs.Prelude.{◌≡◌, [], codes, IfOk};
ghost use Rattle.std.specs.List.{list_any};
ghost use Rattle.dav_core.specs.Element.{child_elements, with_child};
ghost use Rattle.dav_presented.specs.Minimal as spec;
ghost use Rattle.dav_presented.specs.Names as name;
ghost use Rattle.dav_presented.specs.Responses.{ok_status, propstat_of};

use crate::missing::answered;
use crate::names::is_dav;
use crate::responses::{Change, OK_STATUS, each_response, propstat_of, with_child};
use dav_core::element::Element;
use dav_core::errors::NoMemory;
use std::alloc::Global;

// Whether a response tells of properties.
fn has_propstat(response: &Element) -> bool
    ensures { result
        ≡ list_any (name.is_dav (codes "propstat")) (child_elements response.now) }
{
    for child in response.child_elems() {
        if is_dav(child, "propstat") {
            return true;
        }
    }
    false
}

// A `propstat` of 200 in which nothing is found.
fn empty_propstat(alloc: Global) -> Result<Element, NoMemory>
    ensures { IfOk result (λ e. e ≡ propstat_of ok_status []) }
{
    propstat_of(alloc, OK_STATUS, Vec::new(alloc))
}

// A response with such a `propstat`.
fn with_empty(alloc: Global, response: Element) -> Result<Element, NoMemory>
    ensures { IfOk result (λ e. e ≡ with_child response (propstat_of ok_status [])) }
{
    with_child(Ok(response), empty_propstat(alloc))
}

// The change by which each response tells of properties.
#[derive(Drop)]
struct Filling;

impl Change for Filling {
    ghost use Rattle.dav_presented.specs.Minimal.{with_propstat};

    ghost changed = { λ _ response. with_propstat response };

    fn change(&self, alloc: Global, response: Element) -> Result<Element, NoMemory> {
        if has_propstat(&response) {
            Ok(response)
        } else {
            with_empty(alloc, response)
        }
    }
}

/// The multistatus that is sent to a PROPFIND with this body, of which the machine told this one.
/// Where it leaves out what is missing, it is as it was, but that a response without properties has
/// a `propstat` of 200 with an empty `prop` (RFC 8144, section 2.1); else it has each name that is
/// asked for (`answered`). `Err` where there is no memory.
pub fn answered_to(
    alloc: Global,
    leaves_out: bool,
    propfind: &Element,
    told: Element,
) -> Result<Element, NoMemory>
    ensures { IfOk result (λ sent. sent ≡ spec.answered_to leaves_out propfind.now told) }
{
    if leaves_out {
        each_response(alloc, &Filling, told)
    } else {
        answered(alloc, propfind, told)
    }
}
