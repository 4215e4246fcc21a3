//! Requests that aren't run (RFC 9110, section 13.2; RFC 4918, section 10.4).
ghost use Rattle.std.specs.Prelude.{◌≡◌, ◌≢◌, ◌⊎◌, IfOk, None, codes};
ghost use Rattle.std.specs.Bool.{Decides};
ghost use Rattle.dav_core.specs.declared.errors.DavError.TheVariants as DavError;
ghost use Rattle.http_header.specs.HeaderMap.{get_all};
ghost use Rattle.dav_headers.specs.ETagList.{IsTagList};
ghost use Rattle.dav_headers.specs.If.{IsIfHeader};
ghost use Rattle.dav_http.specs.Refused.{AsksForTooMany, HasUnread, IsUnread, MayBeRefused, MayChange, since_in};

use super::Handler;
use crate::head::{Head, is_safe};
use crate::placed::is_unplaced;
use dav_core::davpath::DavPath;
use dav_core::errors::{DavError, NoMemory};
use dav_engine::headers::{absent_if_invalid, values_of};
use dav_headers::{If, IfMatch, IfNoneMatch, names};
use dav_presented::fields::date_in;
use dav_presented::missing::asks_for_many;
use dav_server::head::headers_of;
use dav_server::method::method_of;
use dav_server::target::path_of;
use dav_xml::XmlError;
use http::StatusCode;
use http_header::{HeaderMap, IF_UNMODIFIED_SINCE};
use std::alloc::Global;

// Whether a method may change something.
fn may_change(method: &[u8]) -> bool
    ensures { Decides result (MayChange method.now) }
{
    method_of(method).is_ok() && !is_safe(method)
}

/// Whether a request with this method may be one that isn't run (`Handler::refusal`): a PROPFIND, or one that may change something.
pub fn may_be_refused(method: &[u8]) -> bool
    ensures { Decides result (MayBeRefused method.now) }
{
    method == b"PROPFIND".as_slice() || may_change(method)
}

// Whether an If is there and means nothing (RFC 4918, section 10.4).
fn is_unread_if(alloc: Global, headers: &HeaderMap) -> Result<bool, NoMemory>
    ensures { IfOk result (λ is.
        Decides is (IsUnread IsIfHeader (get_all headers.now (codes "if")))) }
{
    let values = values_of(alloc, headers, names::IF())?;
    if values.is_empty() {
        return Ok(false);
    }
    Ok(absent_if_invalid(If::decode(alloc, &values))?.is_none())
}

// Whether an If-Match is there and means nothing (RFC 9110, section 13.1.1).
fn is_unread_match(alloc: Global, headers: &HeaderMap) -> Result<bool, NoMemory>
    ensures { IfOk result (λ is.
        Decides is (IsUnread IsTagList (get_all headers.now (codes "if-match")))) }
{
    let values = values_of(alloc, headers, names::IF_MATCH())?;
    if values.is_empty() {
        return Ok(false);
    }
    Ok(absent_if_invalid(IfMatch::decode(alloc, &values))?.is_none())
}

// Whether an If-None-Match is there and means nothing (RFC 9110, section 13.1.2).
fn is_unread_none_match(alloc: Global, headers: &HeaderMap) -> Result<bool, NoMemory>
    ensures { IfOk result (λ is.
        Decides is (IsUnread IsTagList (get_all headers.now (codes "if-none-match")))) }
{
    let values = values_of(alloc, headers, names::IF_NONE_MATCH())?;
    if values.is_empty() {
        return Ok(false);
    }
    Ok(absent_if_invalid(IfNoneMatch::decode(alloc, &values))?.is_none())
}

// Whether a condition is there and means nothing.
fn has_unread_condition(alloc: Global, headers: &HeaderMap) -> Result<bool, NoMemory>
    ensures { IfOk result (λ has. Decides has (IsUnread IsIfHeader (get_all headers.now (codes "if"))
        ⊎ (IsUnread IsTagList (get_all headers.now (codes "if-match"))
        ⊎ IsUnread IsTagList (get_all headers.now (codes "if-none-match"))))) }
{
    if is_unread_if(alloc, headers)? {
        return Ok(true);
    }
    if is_unread_match(alloc, headers)? {
        return Ok(true);
    }
    is_unread_none_match(alloc, headers)
}

// Whether a condition, or a range, is there and means nothing.
fn has_unread(alloc: Global, headers: &HeaderMap) -> Result<bool, NoMemory>
    ensures { IfOk result (λ has. Decides has (HasUnread headers.now)) }
{
    if has_unread_condition(alloc, headers)? {
        return Ok(true);
    }
    is_unplaced(alloc, headers)
}

// The moment in an If-Unmodified-Since that counts.
fn since_in(alloc: Global, headers: &HeaderMap) -> Result<Option<u64>, NoMemory>
    ensures { IfOk result (λ since. since ≡ since_in headers.now) }
{
    let tags = values_of(alloc, headers, names::IF_MATCH())?;
    if !tags.is_empty() {
        return Ok(None);
    }
    let values = values_of(alloc, headers, IF_UNMODIFIED_SINCE)?;
    Ok(date_in(&values))
}

// Whether a PROPFIND asks for too many properties by their names (RFC 4918, section 9.1).
fn asks_for_too_many(alloc: Global, head: &Head<'_>, body: &[u8]) -> Result<bool, NoMemory>
    ensures { IfOk result (λ asks. Decides asks (AsksForTooMany head.now body.now)) }
{
    if head.method() != b"PROPFIND".as_slice() {
        return Ok(false);
    }
    match dav_xml::read(alloc, body) {
        Ok(tree) => Ok(asks_for_many(&tree)),
        Err(XmlError::Memory) => Err(NoMemory),
        Err(XmlError::Fault(_)) => Ok(false),
    }
}

// No moment where a target names no path; `NoMemory` where memory ran out.
fn never(error: DavError) -> Result<Option<u64>, NoMemory>
    ensures { IfOk result (λ at. (at ≡ None) × (error ≢ DavError.Memory)) }
{
    match error {
        DavError::Memory => Err(NoMemory),
        _ => Ok(None),
    }
}

impl Handler {
    ghost use Rattle.std.specs.Prelude.{◌≡◌, ℕ, IfOk, Some, option_map};
    ghost use Rattle.std.specs.Bool.{Decides};
    ghost use Rattle.std.specs.Option.{option_and_then};
    ghost use Rattle.dav_core.specs.Path.{names};
    ghost use Rattle.dav_core.specs.World.{node_at};
    ghost use Rattle.dav_server.specs.Headers.{headers_of};
    ghost use Rattle.dav_http.specs.Refused.{IsChangedAt, IsStale, IsUnmet, Refuses, Tells};

    // When what is at a path was changed last.
    fn changed_at(&self, path: &DavPath) -> Option<u64>
        ensures { result ≡ option_map (λ n. n.modified)
            (node_at self.now.server.state.store.world (names path.now)) }
    {
        match self.handler.fs().found_at(path) {
            Some(found) => Some(found.modified),
            None => None,
        }
    }

    // When what is at the target of a request was changed last.
    fn target_changed_at(&self, alloc: Global, head: &Head<'_>) -> Result<Option<u64>, NoMemory>
        ensures { IfOk result (λ at. Tells (IsChangedAt self.now.server head.now) at) }
    {
        let Ok(method) = method_of(head.method()) else {
            return Ok(None);
        };
        match path_of(alloc, method, head.target(), self.handler.prefix()) {
            Ok(path) => Ok(self.changed_at(&path)),
            Err(error) => never(error),
        }
    }

    // Whether what is at the target was changed after the moment that the request names.
    fn is_stale(
        &self,
        alloc: Global,
        head: &Head<'_>,
        headers: &HeaderMap,
    ) -> Result<bool, NoMemory>
        requires { headers.now ≡ headers_of head.now.fields }
        ensures { IfOk result (λ is. Decides is (IsStale self.now.server head.now)) }
    {
        let Some(since) = since_in(alloc, headers)? else {
            return Ok(false);
        };
        match self.target_changed_at(alloc, head)? {
            Some(moment) => Ok(since < moment),
            None => Ok(false),
        }
    }

    // With which status a request is answered by its conditions, where it isn't run.
    fn refusal_by(
        &self,
        alloc: Global,
        head: &Head<'_>,
        headers: &HeaderMap,
    ) -> Result<Option<StatusCode>, NoMemory>
        requires { headers.now ≡ headers_of head.now.fields }
        ensures { IfOk result (λ status. Tells (IsUnmet self.now.server head.now) status) }
    {
        if has_unread(alloc, headers)? {
            return Ok(Some(StatusCode::BAD_REQUEST));
        }
        if self.is_stale(alloc, head, headers)? {
            return Ok(Some(StatusCode::PRECONDITION_FAILED));
        }
        Ok(None)
    }

    /// With which status a request with this head and body is answered, where it isn't to be run; `None` where it is. 400 where a
    /// PROPFIND asks for more than 1,000 properties by their names, and where an If, an If-Match or an If-None-Match of a request
    /// that may change something means nothing, or its Content-Range names no bytes (RFC 9110, section 14.5); 412 where what is at
    /// its target was changed after the moment in its If-Unmodified-Since, which counts without If-Match (RFC 9110, section 13.1.4);
    /// 507 where a PROPPATCH sets so many dead properties (`set_in`) that its target would have more than 50,000, or more than 8 MiB of
    /// them, with those that it has (RFC 4918, section 9.2.1). Nothing changes.
    pub fn refusal(
        &self,
        alloc: Global,
        head: &Head<'_>,
        body: &[u8],
    ) -> Result<Option<StatusCode>, NoMemory>
        ensures { IfOk result (λ status.
            Tells (Refuses self.now.server head.now body.now) status) }
    {
        if asks_for_too_many(alloc, head, body)? {
            return Ok(Some(StatusCode::BAD_REQUEST));
        }
        if !may_change(head.method()) {
            return Ok(None);
        }
        let headers = headers_of(alloc, head.view())?;
        if let Some(status) = self.refusal_by(alloc, head, &headers)? {
            return Ok(Some(status));
        }
        if self.is_crowded(alloc, head, body)? {
            return Ok(Some(StatusCode::INSUFFICIENT_STORAGE));
        }
        Ok(None)
    }
}
