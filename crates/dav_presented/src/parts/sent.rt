//! What is sent in the place of the 200 that the machine answers to GET and HEAD of a file (RFC 9110,
//! sections 13 to 15).
ghost use Rattle.std.specs.Prelude.{◌≡◌, length, string_bytes, option_map, IfOk, IfSome};
ghost use Rattle.dav_presented.specs.Parts as spec;
ghost use Rattle.dav_presented.specs.Range.{IsSpec};
ghost use Rattle.dav_presented.specs.Verdict.{verdict_of, IsWithinBody};

use crate::parts::range::shown;
use crate::parts::verdict::{Conditions, Verdict, decide};
use bytes::Bytes;
use std::alloc::{AllocError, Global};

/// What is sent in the place of a 200.
#[derive(Drop)]
pub struct Sent {
    /// The status: 200, 206, 304, 412 or 416 (RFC 9110, section 15).
    pub status: u16,
    /// Content-Range, which 206 and 416 have (RFC 9110, section 14.4).
    pub content_range: Option<String>,
    /// The body; empty but for 200 and 206.
    pub body: Bytes,
}

// The status of a verdict.
fn status_of(verdict: Verdict) -> u16
    ensures { result ≡ spec.status_of verdict }
{
    match verdict {
        Verdict::Whole => 200,
        Verdict::NotModified => 304,
        Verdict::Failed => 412,
        Verdict::Part(_, _) => 206,
        Verdict::Unsatisfiable => 416,
    }
}

// Content-Range, where a verdict has one.
fn content_range(alloc: Global, verdict: Verdict, len: usize) -> Result<Option<String>, AllocError>
    ensures { IfOk result (λ t. option_map string_bytes t ≡ spec.content_range_of verdict len) }
{
    match verdict {
        Verdict::Part(first, last) => Ok(Some(format!(in alloc; "bytes {first}-{last}/{len}")?)),
        Verdict::Unsatisfiable => Ok(Some(format!(in alloc; "bytes */{len}")?)),
        Verdict::Whole => Ok(None),
        Verdict::NotModified => Ok(None),
        Verdict::Failed => Ok(None),
    }
}

// The bytes that are sent.
fn body_of(verdict: Verdict, body: Bytes) -> Result<Bytes, AllocError>
    requires { IsWithinBody (length body) verdict }
    ensures { IfOk result (λ sent. sent ≡ spec.body_of verdict body) }
{
    match verdict {
        Verdict::Whole => Ok(body),
        Verdict::Part(first, last) => shown(&body, first, last),
        Verdict::NotModified => Ok(Bytes::new()),
        Verdict::Failed => Ok(Bytes::new()),
        Verdict::Unsatisfiable => Ok(Bytes::new()),
    }
}

/// What is sent to a GET or HEAD where the machine answers 200 with these bytes of a file, which was
/// changed last at `modified`, in seconds since 1970 began (RFC 9110, sections 13.2.2 and 14.2). A
/// part is sent to a GET alone, and it is the bytes that its Content-Range says. `Err` where there is
/// no memory.
pub fn presented(
    alloc: Global,
    asked: &Conditions,
    modified: u64,
    body: Bytes,
) -> Result<Sent, AllocError>
    requires { IfSome asked.now.range IsSpec }
    ensures status { IfOk result (λ sent.
        sent.status ≡ spec.status_of (verdict_of asked.now modified (length body))) }
    ensures content_range { IfOk result (λ sent. option_map string_bytes sent.content_range
        ≡ spec.content_range_of (verdict_of asked.now modified (length body)) (length body)) }
    ensures body { IfOk result (λ sent. sent.body
        ≡ spec.body_of (verdict_of asked.now modified (length body)) body) }
    ensures within { IsWithinBody (length body) (verdict_of asked.now modified (length body)) }
{
    let len = body.len();
    let verdict = decide(asked, modified, len);
    let content_range = content_range(alloc, verdict, len)?;
    let body = body_of(verdict, body)?;
    Ok(Sent {
        status: status_of(verdict),
        content_range,
        body,
    })
}
