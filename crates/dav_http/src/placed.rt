//! Where a PUT or PATCH begins to write that names a place in its file: Content-Range (RFC 9110, section 14.4), or X-Update-Range of
//! SabreDAV's partial updates.
ghost use Rattle.std.specs.Prelude.{◌≡◌, ◌≢◌, ◌⊎◌, ◌<◌, [], List, IfOk, IsSomeAnd, codes};
ghost use Rattle.std.specs.Bool.{Decides};
ghost use Rattle.http_header.specs.HeaderMap.{get_all};
ghost use Rattle.http_header.specs.FieldValue.{FieldValue};
ghost use Rattle.dav_headers.specs.ContentRange.{IsContentRange};
ghost use Rattle.dav_headers.specs.UpdateRange.{IsUpdateRange};
ghost use Rattle.dav_headers.specs.Value.{Decodes};
ghost use Rattle.dav_http.specs.Placed.{AreFirsts, BeginsPast, IsPlaced, IsRangedFrom, IsUpdatedFrom, NamesBytes};
ghost use Rattle.dav_http.specs.Refused.{IsUnread};
ghost use Rattle.dav_server.specs.Headers.{headers_of};

use crate::head::Head;
use dav_core::errors::NoMemory;
use dav_engine::headers::{absent_if_invalid, values_of};
use dav_headers::{ContentRange, XUpdateRange, names};
use dav_server::head::headers_of;
use http_header::HeaderMap;
use std::alloc::Global;

// What Content-Range says.
fn range_in(alloc: Global, headers: &HeaderMap) -> Result<Option<ContentRange>, NoMemory>
    ensures { IfOk result (λ range.
        Decodes IsContentRange (get_all headers.now (codes "content-range")) range) }
{
    let values = values_of(alloc, headers, names::CONTENT_RANGE())?;
    absent_if_invalid(ContentRange::decode(alloc, &values))
}

// Whether a range names bytes that a file can have.
fn names_bytes(range: &ContentRange) -> bool
    ensures { Decides result (NamesBytes range.now) }
{
    match (range.bounds, range.length) {
        (Some((first, last)), Some(length)) => first <= last && last < length,
        (Some((first, last)), None) => first <= last,
        (None, _) => false,
    }
}

// Whether a Content-Range that is there says this, or nothing, and so names no bytes.
fn names_none(range: Option<ContentRange>) -> bool
    ensures { (values : List FieldValue) → values ≢ [] → Decodes IsContentRange values range
        → Decides result (IsUnread IsPlaced values) }
{
    match range {
        Some(range) => !names_bytes(&range),
        None => true,
    }
}

/// Whether a Content-Range is there that names no bytes of a file (RFC 9110, section 14.5).
pub fn is_unplaced(alloc: Global, headers: &HeaderMap) -> Result<bool, NoMemory>
    ensures { IfOk result (λ is.
        Decides is (IsUnread IsPlaced (get_all headers.now (codes "content-range")))) }
{
    let values = values_of(alloc, headers, names::CONTENT_RANGE())?;
    if values.is_empty() {
        return Ok(false);
    }
    Ok(names_none(range_in(alloc, headers)?))
}

// What X-Update-Range says.
fn update_in(alloc: Global, headers: &HeaderMap) -> Result<Option<XUpdateRange>, NoMemory>
    ensures { IfOk result (λ update.
        Decodes IsUpdateRange (get_all headers.now (codes "x-update-range")) update) }
{
    let values = values_of(alloc, headers, names::X_UPDATE_RANGE())?;
    absent_if_invalid(XUpdateRange::decode(alloc, &values))
}

// The first byte that a range names, if it names one.
fn ranged_from(range: Option<ContentRange>) -> Option<u64>
    ensures { (values : List FieldValue) → Decodes IsContentRange values range
        → Decodes IsRangedFrom values result }
{
    match range {
        Some(range) => match range.bounds {
            Some((first, _)) => Some(first),
            None => None,
        },
        None => None,
    }
}

// The first byte that X-Update-Range names, where it names one.
fn first_of(update: XUpdateRange) -> Option<u64>
    ensures { (values : List FieldValue) → IsUpdateRange values update
        → Decodes IsUpdatedFrom values result }
{
    match update {
        XUpdateRange::FromTo(first, _) => Some(first),
        XUpdateRange::AllFrom(first) => Some(first),
        XUpdateRange::Last(_) => None,
        XUpdateRange::Append => None,
    }
}

// The first byte that an update names, if there is one and it names one.
fn updated_from(update: Option<XUpdateRange>) -> Option<u64>
    ensures { (values : List FieldValue) → Decodes IsUpdateRange values update
        → Decodes IsUpdatedFrom values result }
{
    match update {
        Some(update) => first_of(update),
        None => None,
    }
}

// Whether a byte is past so many.
fn is_past(first: Option<u64>, most: u64) -> bool
    ensures { Decides result (IsSomeAnd first (λ n. most < n)) }
{
    match first {
        Some(first) => most < first,
        None => false,
    }
}

// Whether one of two bytes is past so many.
fn is_either_past(one: Option<u64>, other: Option<u64>, most: u64) -> bool
    ensures { Decides result
        (IsSomeAnd one (λ n. most < n) ⊎ IsSomeAnd other (λ n. most < n)) }
{
    is_past(one, most) || is_past(other, most)
}

// Whether a method is PUT or PATCH.
fn writes(method: &[u8]) -> bool
    ensures { Decides result ((method.now ≡ codes "PUT") ⊎ (method.now ≡ codes "PATCH")) }
{
    method == b"PUT".as_slice() || method == b"PATCH".as_slice()
}

/// The first byte that Content-Range of a head names, and the one that its X-Update-Range does, where they name some.
pub fn firsts_in(alloc: Global, head: &Head<'_>) -> Result<(Option<u64>, Option<u64>), NoMemory>
    ensures { IfOk result (AreFirsts (headers_of head.now.fields)) }
{
    let headers = headers_of(alloc, head.view())?;
    let ranged = ranged_from(range_in(alloc, &headers)?);
    let updated = updated_from(update_in(alloc, &headers)?);
    Ok((ranged, updated))
}

/// Whether a request with this head begins to write past so many bytes of its file, by the place that it names: a PUT by
/// Content-Range, a PATCH by X-Update-Range.
pub fn begins_past(alloc: Global, head: &Head<'_>, most: u64) -> Result<bool, NoMemory>
    ensures { IfOk result (λ is. Decides is (BeginsPast most head.now)) }
{
    if !writes(head.method()) {
        return Ok(false);
    }
    let firsts = firsts_in(alloc, head)?;
    Ok(is_either_past(firsts.0, firsts.1, most))
}
