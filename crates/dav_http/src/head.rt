//! The head of a request that came, read once, and what of it is run and kept (RFC 9112, sections 2 to 5).
ghost use Rattle.std.specs.Prelude.{◌≡◌, ◌≢◌, ◌↔◌, ℕ, [], List, Ok, Option, true, IfOk, IsTrue, codes};
ghost use Rattle.std.specs.Option.{option_map};
ghost use Rattle.http_header.specs.HeaderMap.{get_all};
ghost use Rattle.dav_core.specs.declared.method.DavMethod.{DavMethod as DavMethodValue};
ghost use Rattle.dav_headers.specs.Timeout.{IsTimeout};
ghost use Rattle.dav_headers.specs.Value.{Decodes};
ghost use Rattle.dav_headers.specs.declared.timeout.DavTimeout.{DavTimeout as DavTimeoutValue};
ghost use Rattle.dav_engine.specs.LockHeaders.{preferred};
ghost use Rattle.dav_engine.specs.Reply.{headers_in};
ghost use Rattle.dav_server.specs.Head.{IsHead, Request};
ghost use Rattle.dav_server.specs.Headers.{headers_of};
ghost use Rattle.dav_server.specs.Leaving.{IsEarlyError, IsErrorReply, may_come_late};
ghost use Rattle.dav_server.specs.Method.{GivesServed};
ghost use Rattle.dav_server.specs.TagLaws.{is_safe};
ghost use Rattle.dav_http.specs.Kept.{lowered};
ghost use Rattle.dav_http.specs.Leaves.{Leaves};
ghost use Rattle.dav_http.specs.Steps.{TakesTree};

mod text;

use dav_core::errors::NoMemory;
use dav_core::method::DavMethod;
use dav_engine::Reply;
use dav_engine::headers::{absent_if_invalid, values_of};
use dav_headers::{DavTimeout, Timeout, names};
use dav_server::head::{RequestView, headers_of, read_head};
use dav_server::method::method_of;
use http_header::HeaderMap;
use std::alloc::Global;
use std::marker::Model;

/// A head that was read: it says a `Request`.
#[derive(Drop)]
pub struct Head<'a> {
    bytes: &'a [u8],
    view: RequestView<'a>,
}

impl<'a> Model for Head<'a> {
    ghost use Rattle.dav_server.specs.Head.{Request, IsHead};

    ghost Value = { Request };

    ghost view = { λ h. h.view };

    ghost invariant = { λ h. IsHead h.bytes.now h.view };
}

impl<'a> Head<'a> {
    ghost use Rattle.std.specs.Prelude.{◌≡◌, ◌↔◌, ℕ, [], IfOk, IsTrue, List, MatchOption};
    ghost use Rattle.std.specs.Option.{option_map};
    ghost use Rattle.std.specs.List.{slice_get};
    ghost use Rattle.dav_http.specs.Leaves.{Leaves};
    ghost use Rattle.dav_server.specs.Head.{Request, IsHead, values_of};
    ghost use Rattle.dav_http.specs.Kept.{GetsDepth, IsDepthless, IsKeptOf, Says};
    ghost use Rattle.std.specs.Bool.{Decides};

    /// Reads a head that is all of the bytes; none where the machine reads none in them. Allocates nothing.
    pub fn read(bytes: &'a [u8]) -> Option<Head<'a>>
        ensures { MatchOption result
            ((r : Request) → ¬ IsHead bytes.now r) (λ head. IsHead bytes.now head) }
    {
        let view = read_head(bytes).ok()?;
        Some(Head { bytes, view })
    }

    // What was read.
    pub(crate) fn view(&self) -> &RequestView<'a>
        ensures { result.now ≡ self.now }
    {
        &self.view
    }

    /// The method, as it is in the request line (RFC 9112, section 3.1).
    pub fn method(&self) -> &'a [u8]
        ensures { result.now ≡ self.now.method }
    {
        self.view.method()
    }

    /// The target, as it is in the request line (RFC 9112, section 3.2).
    pub fn target(&self) -> &'a str
        ensures { result.now ≡ self.now.target }
    {
        self.view.target()
    }

    /// The value of the first field with this name, without the optional whitespace (OWS) around it. ASCII case makes no
    /// difference in a name (RFC 9110, section 5.1).
    pub fn value(&self, name: &str) -> Option<&'a [u8]>
        ensures { option_map (λ v. v.now) result
            ≡ slice_get (values_of name.now self.now.fields) 0 }
    {
        self.view.values(name).next()
    }

    /// Whether the request, where it has this reply, left the server as it was: see the function `leaves`.
    pub fn leaves(&self, reply: &Reply) -> bool
        ensures { (bytes : List ℕ) → IsHead bytes self.now
            → (IsTrue result ↔ Leaves bytes reply.now) }
    {
        method_leaves(self.method(), reply)
    }

    // Whether there is no field with this name.
    pub(crate) fn lacks(&self, name: &str) -> bool
        ensures { Decides result (values_of name.now self.now.fields ≡ []) }
    {
        match self.value(name) {
            Some(_) => false,
            None => true,
        }
    }

    // Whether it is a PROPFIND without a Depth (RFC 4918, section 9.1).
    fn is_depthless(&self) -> bool
        ensures { Decides result (IsDepthless self.now) }
    {
        self.method() == b"PROPFIND".as_slice() && self.lacks("depth")
    }

    // Whether it gets a Depth, unless the machine's own answer is wanted.
    fn gets_depth(&self, strict: bool) -> bool
        ensures { Decides result (GetsDepth strict self.now) }
    {
        !strict && self.is_depthless()
    }

    /// The head that is run and kept: without the fields that show who asks, and those that speak of the connection alone; in an
    /// If each address of a resource is a whole URL (RFC 4918, section 10.4.2); in place of a LOCK's Timeout there is one of the
    /// seconds that it asks for, at most `most` (section 10.7); and a PROPFIND without a Depth has one of 1 (section 9.1), unless
    /// that is left to the machine (`strict`).
    pub fn kept(&self, alloc: Global, most: u32, strict: bool) -> Result<Vec<u8>, NoMemory>
        ensures { IfOk result (λ kept. (r : Request)
            × IsKeptOf most strict self.now r × Says kept.items r) }
    {
        if is_lock(self.method()) {
            let seconds = wanted_seconds(alloc, &self.view, most)?;
            return text::lock_text(alloc, &self.view, seconds);
        }
        if self.gets_depth(strict) {
            return text::depth_text(alloc, &self.view);
        }
        text::other_text(alloc, &self.view)
    }
}

/// Whether a method is LOCK (RFC 4918, section 9.10).
pub fn is_lock(method: &[u8]) -> bool
    ensures { IsTrue result ↔ (method.now ≡ codes "LOCK") }
{
    method == b"LOCK".as_slice()
}

/// Whether a method's body is an element tree (RFC 4918, sections 9.1, 9.2 and 9.10).
pub fn takes_tree(method: &[u8]) -> bool
    ensures { IsTrue result ↔ TakesTree method.now }
{
    method == b"PROPFIND".as_slice() || method == b"PROPPATCH".as_slice() || is_lock(method)
}

/// Whether a method only reads: GET, HEAD, OPTIONS and PROPFIND (RFC 9110, section 9.2.1; RFC 4918, section 9.1).
pub fn is_safe(method: &[u8]) -> bool
    ensures { IsTrue result
        ↔ (m : DavMethodValue) × GivesServed method.now (Ok m) × (is_safe m ≡ true) }
{
    matches!(
        method_of(method),
        Ok(DavMethod::Get | DavMethod::Head | DavMethod::Options | DavMethod::PropFind)
    )
}

// Whether there is a header.
#[tactic(auto, using(crate::proofs::LeavesLemmas::has_header))]
fn has_header(headers: &HeaderMap) -> bool
    ensures { IsTrue result ↔ (headers_in headers.now ≢ []) }
{
    headers.len() > 0
}

// Whether a reply is that to an error which ended the request: it has a header.
fn is_error_reply(reply: &Reply) -> bool
    ensures { IsTrue result ↔ IsErrorReply reply.now }
{
    (reply.status.as_u16() >= 400) & has_header(&reply.headers)
}

// Whether an error of this method with this status may come after something was changed.
fn may_come_late(method: DavMethod, status: u16) -> bool
    ensures { result ≡ may_come_late method status }
{
    match method {
        DavMethod::Put | DavMethod::Patch => (status == 404) | (status == 413) | (status == 500),
        DavMethod::Lock => !((status == 400) | (status == 415) | (status == 423)),
        _ => false,
    }
}

// Whether a reply is that to an error that only comes before this method changes something.
fn is_early_error(method: DavMethod, reply: &Reply) -> bool
    ensures { IsTrue result ↔ IsEarlyError method reply.now }
{
    is_error_reply(reply) && !may_come_late(method, reply.status.as_u16())
}

// Whether a request with this method, and which has this reply, left the server as it was.
fn method_leaves(method: &[u8], reply: &Reply) -> bool
    ensures { (head : List ℕ) (r : Request) → IsHead head r → method.now ≡ r.method
        → (IsTrue result ↔ Leaves head reply.now) }
{
    match method_of(method) {
        Ok(known) => is_safe(method) | is_early_error(known, reply),
        Err(_) => true,
    }
}

/// Whether a request with this head, and which has this reply, left the server as it was: the bytes are no head, its method only
/// reads or isn't served, or the reply is that to an error that only comes before its method changes something. A DELETE, COPY or
/// MOVE that was carried out in part has no reply to an error, though it may have its status. An error may come later where a PUT
/// or PATCH is answered 404, 413 or 500, and a LOCK otherwise than 400, 415 and 423 (RFC 9110, sections 9.2.1, 15.5 and 15.6).
pub fn leaves(head: &[u8], reply: &Reply) -> bool
    ensures { IsTrue result ↔ Leaves head.now reply.now }
{
    match Head::read(head) {
        Some(head) => method_leaves(head.method(), reply),
        None => true,
    }
}

// The times that Timeout asks for, where it is one (RFC 4918, section 10.7).
fn timeout_of(alloc: Global, view: &RequestView<'_>) -> Result<Option<Timeout>, NoMemory>
    ensures { IfOk result (λ t. Decodes IsTimeout
        (get_all (headers_of view.now.fields) (codes "timeout"))
        (option_map (λ times. times.0.items) t)) }
{
    let headers = headers_of(alloc, view)?;
    let values = values_of(alloc, &headers, names::TIMEOUT())?;
    absent_if_invalid(Timeout::decode(alloc, &values))
}

// For how many seconds a LOCK asks, at most this many.
fn wanted_seconds(alloc: Global, view: &RequestView<'_>, most: u32) -> Result<u32, NoMemory>
    ensures { IfOk result (λ n. (times : Option (List DavTimeoutValue))
        × Decodes IsTimeout (get_all (headers_of view.now.fields) (codes "timeout")) times
        × (n ≡ lowered most (preferred times))) }
{
    let timeout = timeout_of(alloc, view)?;
    let first = match &timeout {
        Some(timeout) => timeout.0.first(),
        None => None,
    };
    match first {
        Some(DavTimeout::Seconds(seconds)) => Ok((*seconds).min(most)),
        _ => Ok(most),
    }
}
