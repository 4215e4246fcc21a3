//! What the fields of a request ask of a file (RFC 9110, sections 13 and 14).
ghost use Rattle.std.specs.Prelude.{◌≡◌, [], IfOk, IsTrue, bytes_eq, codes, length, option_map, string_bytes};
ghost use Rattle.std.specs.Option.{option_copied};
ghost use Rattle.http_header.specs.HeaderMap.{get_all};
ghost use Rattle.dav_presented.specs.Fields.{IsSent};
ghost use Rattle.dav_presented.specs.Verdict.{verdict_of};
ghost use Rattle.dav_presented.specs.declared.parts.verdict.Conditions.{Conditions};
ghost use Rattle.dav_server.specs.Head.{values_of};
ghost use Rattle.dav_server.specs.Headers.{headers_of};
ghost use Rattle.dav_http.specs.Presented.{AsksOf};
ghost use Rattle.dav_http.specs.PresentedParts.{IsValid};

use crate::head::Head;
use bytes::Bytes;
use dav_core::errors::NoMemory;
use dav_engine::headers::values_of;
use dav_headers::{ETag, names};
use dav_presented::fields::{Fields, answer_to};
use dav_presented::parts::Sent;
use dav_server::head::headers_of;
use http_header::{HeaderMap, IF_MODIFIED_SINCE, IF_RANGE, IF_UNMODIFIED_SINCE, RANGE};
use std::alloc::{AllocError, Global};

// Whether a request has none of the fields that ask for a part of a file, or for it on a condition.
fn asks_for_all(head: &Head<'_>) -> bool
    ensures { IsTrue result → (values_of (codes "if-match") head.now.fields ≡ [])
        × (values_of (codes "if-none-match") head.now.fields ≡ [])
        × (values_of (codes "if-modified-since") head.now.fields ≡ [])
        × (values_of (codes "if-unmodified-since") head.now.fields ≡ [])
        × (values_of (codes "if-range") head.now.fields ≡ [])
        × (values_of (codes "range") head.now.fields ≡ []) }
{
    head.lacks("if-match")
        && head.lacks("if-none-match")
        && head.lacks("if-modified-since")
        && head.lacks("if-unmodified-since")
        && head.lacks("if-range")
        && head.lacks("range")
}

// The fields of a request; none of them where it asks for all.
fn fields_of(alloc: Global, head: &Head<'_>) -> Result<HeaderMap, NoMemory>
    ensures { IfOk result (λ headers.
        (get_all headers (codes "if-match")
        ≡ get_all (headers_of head.now.fields) (codes "if-match"))
        × (get_all headers (codes "if-none-match")
        ≡ get_all (headers_of head.now.fields) (codes "if-none-match"))
        × (get_all headers (codes "if-modified-since")
        ≡ get_all (headers_of head.now.fields) (codes "if-modified-since"))
        × (get_all headers (codes "if-unmodified-since")
        ≡ get_all (headers_of head.now.fields) (codes "if-unmodified-since"))
        × (get_all headers (codes "if-range")
        ≡ get_all (headers_of head.now.fields) (codes "if-range"))
        × (get_all headers (codes "range")
        ≡ get_all (headers_of head.now.fields) (codes "range"))) }
{
    if asks_for_all(head) {
        return Ok(HeaderMap::new(alloc));
    }
    headers_of(alloc, head.view())
}

/// What is sent to a request of a file with this tag and these bytes that was changed last at this moment, where the request came
/// at `moment`; both in seconds since 1970.
pub fn answer_of(
    alloc: Global,
    head: &Head<'_>,
    tag: Option<&ETag>,
    modified: u64,
    moment: u64,
    body: Bytes,
) -> Result<Sent, AllocError>
    ensures sent { IfOk result (λ sent. (wanted : Conditions)
        × AsksOf head.now (option_copied tag.entry) modified moment wanted
        × IsSent (verdict_of wanted modified (length body)) body sent.status
        (option_map string_bytes sent.content_range) sent.body) }
    ensures valid { IfOk result (λ sent.
        IsValid sent.status (option_map string_bytes sent.content_range)) }
{
    let headers = fields_of(alloc, head)?;
    let if_match = values_of(alloc, &headers, names::IF_MATCH())?;
    let if_none_match = values_of(alloc, &headers, names::IF_NONE_MATCH())?;
    let if_modified_since = values_of(alloc, &headers, IF_MODIFIED_SINCE)?;
    let if_unmodified_since = values_of(alloc, &headers, IF_UNMODIFIED_SINCE)?;
    let if_range = values_of(alloc, &headers, IF_RANGE)?;
    let range = values_of(alloc, &headers, RANGE)?;
    let fields = Fields {
        is_get: head.method() == b"GET".as_slice(),
        if_match: &if_match,
        if_none_match: &if_none_match,
        if_modified_since: &if_modified_since,
        if_unmodified_since: &if_unmodified_since,
        if_range: &if_range,
        range: &range,
    };
    answer_to(alloc, fields, tag, modified, moment, body)
}
