//! What the headers of a PUT or PATCH say (RFC 9110, sections 8.6 and 14.4; RFC 5789).
ghost use Rattle.std.specs.Prelude.{◌≡◌, codes, option_map, string_bytes, IfOk, Some};
ghost use Rattle.http_header.specs.HeaderMap.{get, get_all};
ghost use Rattle.dav_core.specs.Path.{names};
ghost use Rattle.dav_headers.specs.Length.{IsContentLength};
ghost use Rattle.dav_headers.specs.UpdateRange.{IsUpdateRange};
ghost use Rattle.dav_engine.specs.Headers.{Decodes};
ghost use Rattle.dav_engine.specs.Put as spec;

use crate::conditions::Conditions;
use crate::headers::{absent_if_invalid, text_of, values_of};
use crate::request::DavRequest;
use dav_core::errors::NoMemory;
use dav_headers::{ContentLength, ContentRange, ContentType, XUpdateRange, names};
use http_header::{HeaderMap, HeaderName, HeaderValue};
use std::alloc::Global;
use std::marker::Model;

/// The part of a file that Content-Range names.
#[derive(Clone, Copy)]
pub enum Bounds {
    /// The header is there, and is no range.
    Unread,
    /// All of the file: there is no such header, or it has no bounds.
    Whole,
    /// From the first of these bytes to the second.
    Within(u64, u64),
}

/// What the headers say.
#[derive(Drop)]
pub struct PutHeaders {
    pub conditions: Conditions,
    pub announced: Option<u64>,
    pub range: Bounds,
    pub is_partial: bool,
    pub update: Option<XUpdateRange>,
    pub checksum: Option<String>,
}

impl Model for PutHeaders {
    ghost use Rattle.dav_engine.specs.Put as said;

    ghost Value = { said.PutHeaders };

    ghost use Rattle.dav_engine.specs.PutView.{put_headers_of};

    ghost view = { put_headers_of };
}

/// Where the bytes go, and how many are announced.
#[derive(Clone, Copy)]
pub struct Writing {
    /// The place that they begin at; none where all of the file is replaced.
    pub from: Option<u64>,
    /// Whether they are appended to the file.
    pub appends: bool,
    /// How many of them are announced.
    pub announced: Option<u64>,
}

// The length that Content-Length announces.
fn content_length(alloc: Global, headers: &HeaderMap) -> Result<Option<u64>, NoMemory>
    ensures { IfOk result (λ length.
        Decodes IsContentLength (get_all headers.now (codes "content-length")) length) }
{
    let values = values_of(alloc, headers, names::CONTENT_LENGTH())?;
    decoded(alloc, &values)
}

// The length that X-Expected-Entity-Length announces.
fn expected_length(alloc: Global, headers: &HeaderMap) -> Result<Option<u64>, NoMemory>
    ensures { IfOk result (λ length.
        Decodes spec.IsExpectedLength (get_all headers.now (codes "x-expected-entity-length"))
        length) }
{
    let values = values_of(
        alloc,
        headers,
        HeaderName::from_static("x-expected-entity-length"),
    )?;
    match values.as_slice() {
        [first, ..] => decoded(alloc, std::slice::from_ref(first)),
        [] => Ok(None),
    }
}

// The number that all of these values state.
fn decoded(alloc: Global, values: &[HeaderValue]) -> Result<Option<u64>, NoMemory>
    ensures { IfOk result (λ length. Decodes IsContentLength values.now length) }
{
    match absent_if_invalid(ContentLength::decode(alloc, values))? {
        Some(length) => Ok(Some(length.0)),
        None => Ok(None),
    }
}

// The length that is announced for the body.
fn announced_length(alloc: Global, headers: &HeaderMap) -> Result<Option<u64>, NoMemory>
    ensures { IfOk result (λ length. spec.IsAnnounced headers.now length) }
{
    let length = content_length(alloc, headers)?;
    let expected = expected_length(alloc, headers)?;
    Ok(length.or(expected))
}

// What Content-Range says.
fn bounds_in(alloc: Global, headers: &HeaderMap) -> Result<Bounds, NoMemory>
    ensures { IfOk result (λ bounds.
        spec.TellsBounds (get_all headers.now (codes "content-range")) bounds) }
{
    let values = values_of(alloc, headers, names::CONTENT_RANGE())?;
    if values.is_empty() {
        return Ok(Bounds::Whole);
    }
    match ContentRange::decode(alloc, &values) {
        Ok(range) => Ok(bounds_of(&range)),
        Err(_) => Ok(Bounds::Unread),
    }
}

// The bounds of a range.
fn bounds_of(range: &ContentRange) -> Bounds
    ensures { result ≡ spec.bounds_of range.now.bounds }
{
    match range.bounds {
        Some((first, last)) => Bounds::Within(first, last),
        None => Bounds::Whole,
    }
}

// Whether the body is a partial update.
fn is_partial_update(alloc: Global, headers: &HeaderMap) -> Result<bool, NoMemory>
    ensures { IfOk result (λ it.
        it ≡ spec.is_partial_update (get_all headers.now (codes "content-type"))) }
{
    let values = values_of(alloc, headers, names::CONTENT_TYPE())?;
    match absent_if_invalid(ContentType::decode(alloc, &values))? {
        Some(kind) => Ok(kind.0.as_str() == "application/x-sabredav-partialupdate"),
        None => Ok(false),
    }
}

// The bytes that a partial update replaces.
fn update_in(alloc: Global, headers: &HeaderMap) -> Result<Option<XUpdateRange>, NoMemory>
    ensures { IfOk result (λ range.
        Decodes IsUpdateRange (get_all headers.now (codes "x-update-range")) range) }
{
    let values = values_of(alloc, headers, names::X_UPDATE_RANGE())?;
    absent_if_invalid(XUpdateRange::decode(alloc, &values))
}

// The checksum that comes with a body, where it is text.
fn checksum_in(alloc: Global, headers: &HeaderMap) -> Result<Option<String>, NoMemory>
    ensures { IfOk result (λ checksum.
        option_map string_bytes checksum ≡ spec.checksum_in headers.now) }
{
    let Some(value) = headers.get(HeaderName::from_static("oc-checksum")) else {
        return Ok(None);
    };
    match text_of(value) {
        Some(text) => Ok(Some(String::from_str(alloc, text)?)),
        None => Ok(None),
    }
}

impl PutHeaders {
    /// What the headers of a request say of its path; a header that doesn't decode counts as absent, except for
    /// Content-Range.
    pub fn decode(alloc: Global, request: &DavRequest) -> Result<PutHeaders, NoMemory>
        ensures { IfOk result (λ h. spec.ArePutHeaders request.now.headers request.now.path h) }
    {
        let headers = &request.headers;
        Ok(PutHeaders {
            conditions: Conditions::decode(alloc, request, &request.path)?,
            announced: announced_length(alloc, headers)?,
            range: bounds_in(alloc, headers)?,
            is_partial: is_partial_update(alloc, headers)?,
            update: update_in(alloc, headers)?,
            checksum: checksum_in(alloc, headers)?,
        })
    }
}
