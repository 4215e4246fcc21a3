//! The time of the file that a PUT brings, as its client tells it beside the file: X-OC-Mtime, which the clients of ownCloud and
//! Nextcloud and rclone send. It is set by a request of the server's own.
ghost use Rattle.std.specs.Prelude.{◌≡◌, ◌≤◌, ◌⊎◌, ◌++◌, ℕ, IfOk, MatchOption, OnOk, codes, option_map};
ghost use Rattle.std.specs.Bool.{Decides};
ghost use Rattle.http_header.specs.HeaderMap.{get_all};
ghost use Rattle.dav_core.specs.World.{last_moment};
ghost use Rattle.dav_server.specs.Head.{IsHead, Request};
ghost use Rattle.dav_server.specs.Headers.{headers_of};
ghost use Rattle.dav_http.specs.Uploaded.{AreTime, BringsTime, TellsTime, if_line, time_body, time_head};

use crate::head::Head;
use bytes::Bytes;
use dav_core::errors::NoMemory;
use dav_engine::headers::values_of;
use dav_headers::ContentLength;
use dav_presented::times::date_text;
use dav_server::exchange::LAST_MOMENT;
use dav_server::head::headers_of;
use http_header::{HeaderName, HeaderValue};
use std::alloc::Global;

/// The request by which the server sets the time of a file.
#[derive(Drop)]
pub struct TimeRequest {
    /// Its head.
    pub head: Vec<u8>,
    /// Its body.
    pub body: Bytes,
}

// Whether a PUT that was answered with this status brought its file.
fn is_done(status: u16) -> bool
    ensures { Decides result ((status ≡ 201) ⊎ (status ≡ 204)) }
{
    status == 201 || status == 204
}

// The time that values tell, if they tell one.
fn time_of_values(alloc: Global, values: &[HeaderValue]) -> Option<u64>
    ensures { MatchOption result ((time : ℕ) → ¬ AreTime values.now time) (AreTime values.now) }
{
    let Ok(ContentLength(time)) = ContentLength::decode(alloc, values) else {
        return None;
    };
    if time <= LAST_MOMENT {
        Some(time)
    } else {
        None
    }
}

// The time that X-OC-Mtime tells, if it tells one.
fn time_in(alloc: Global, head: &Head<'_>) -> Result<Option<u64>, NoMemory>
    ensures { IfOk result (λ found. MatchOption found
        ((time : ℕ) → ¬ AreTime (get_all (headers_of head.now.fields) (codes "x-oc-mtime")) time)
        (AreTime (get_all (headers_of head.now.fields) (codes "x-oc-mtime")))) }
{
    let headers = headers_of(alloc, head.view())?;
    let values = values_of(alloc, &headers, HeaderName::from_static("x-oc-mtime"))?;
    Ok(time_of_values(alloc, &values))
}

// The time that a PUT tells of its file.
fn time_of(alloc: Global, head: &Head<'_>) -> Result<Option<u64>, NoMemory>
    ensures { IfOk result (λ found. MatchOption found
        ((time : ℕ) → ¬ TellsTime head.now time) (TellsTime head.now)) }
{
    if head.method() == b"PUT".as_slice() {
        time_in(alloc, head)
    } else {
        Ok(None)
    }
}

// Adds the line of the If of the request that sets a time, where the PUT has one.
fn put_if(out: &mut Vec<u8>, value: Option<&[u8]>) -> Result<(), NoMemory>
    ensures { OnOk result (out.new.items
        ≡ out.old.items ++ if_line (option_map (λ v. v.now) value.entry)) }
{
    let Some(value) = value else {
        return Ok(());
    };
    out.extend_from_slice(b"If: ")?;
    out.extend_from_slice(value)?;
    out.extend_from_slice(b" (Not <DAV:no-lock>)\r\n")
}

// The head of the request that sets the time of the file of a PUT.
fn head_of(alloc: Global, head: &Head<'_>) -> Result<Vec<u8>, NoMemory>
    ensures { IfOk result (λ text. text.items ≡ time_head head.now) }
{
    let mut text = Vec::new(alloc);
    text.extend_from_slice(b"PROPPATCH ")?;
    text.extend_from_slice(head.target().as_bytes())?;
    text.extend_from_slice(b" HTTP/1.1\r\n")?;
    put_if(&mut text, head.value("if"))?;
    text.extend_from_slice(b"\r\n")?;
    Ok(text)
}

// The body of a request that sets this time.
fn body_of(alloc: Global, time: u64) -> Result<Bytes, NoMemory>
    requires { time ≤ last_moment }
    ensures { IfOk result (λ body. body ≡ time_body time) }
{
    let mut text = Vec::new(alloc);
    text.extend_from_slice(b"<propertyupdate xmlns=\"DAV:\"><set><prop><getlastmodified>")?;
    text.extend_from_slice(date_text(alloc, time)?.as_bytes())?;
    text.extend_from_slice(b"</getlastmodified></prop></set></propertyupdate>")?;
    Ok(Bytes::from_vec(text)?)
}

// The request that sets the time of the file that a PUT with this head brought, where it tells one.
fn request_for(alloc: Global, head: &Head<'_>) -> Result<Option<TimeRequest>, NoMemory>
    ensures { IfOk result (λ set. MatchOption set ((time : ℕ) → ¬ TellsTime head.now time)
        (λ t. (time : ℕ) × TellsTime head.now time × (t.head.items ≡ time_head head.now)
        × (t.body ≡ time_body time))) }
{
    let Some(time) = time_of(alloc, head)? else {
        return Ok(None);
    };
    Ok(Some(TimeRequest {
        head: head_of(alloc, head)?,
        body: body_of(alloc, time)?,
    }))
}

/// The request that sets the time of the file that a request with a head of these bytes, which was answered with this status,
/// brought and told the time of (RFC 4918, section 15.7): a PROPPATCH that submits the same tokens. `None` where it is no PUT that was
/// done and told a time; `Err` where there is no memory.
pub fn time_request(
    alloc: Global,
    head: &[u8],
    status: u16,
) -> Result<Option<TimeRequest>, NoMemory>
    ensures { IfOk result (λ set. MatchOption set
        ((r : Request) (time : ℕ) → IsHead head.now r → ¬ BringsTime r status time)
        (λ t. (r : Request) × (time : ℕ) × IsHead head.now r × BringsTime r status time
        × (t.head.items ≡ time_head r) × (t.body ≡ time_body time))) }
{
    if !is_done(status) {
        return Ok(None);
    }
    match Head::read(head) {
        Some(head) => request_for(alloc, &head),
        None => Ok(None),
    }
}
