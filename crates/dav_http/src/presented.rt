//! What a client is shown of a reply of the machine (RFC 9110, sections 13 and 14; RFC 4918, section 9.1; RFC 4331; RFC 8144).
ghost use Rattle.std.specs.Prelude.{◌≡◌, ◌∷◌, ◌++◌, [], IfOk, OnOk, bytes_eq, codes, false, if◌then◌else◌};
ghost use Rattle.std.specs.Bool.{Decides};
ghost use Rattle.http_server.specs.Response.{IsBlank, fields_of};
ghost use Rattle.dav_http.specs.Presented.{IsOfFile, IsShown, ShowsFile, applied, found, leaves_out, outcomes_body, patched, shown_tree, shown_body};
ghost use Rattle.dav_presented.specs.Quota.{with_quota};
ghost use Rattle.dav_http.specs.Room.{room_in};
ghost use Rattle.dav_http.specs.Sending.{IsSentWith};

mod asked;
mod fields;
mod listing;
mod preferred;
mod told;

use crate::handler::Handler;
use crate::head::Head;
use crate::presented::asked::answer_of;
use crate::presented::fields::{fill, type_at};
use crate::presented::preferred::preferred_in;
use crate::presented::told::{modified_in, tag_in};
use crate::response::{body_of, send};
use bytes::Bytes;
use dav_core::davpath::DavPath;
use dav_core::element::Element;
use dav_core::errors::NoMemory;
use dav_engine::{Reply, ReplyBody};
use dav_presented::minimal::answered_to;
use dav_presented::quota::{Room, asks_for_quota, with_quota};
use dav_presented::typed::{outcomes, with_types};
use dav_xml::XmlError;
use http::StatusCode;
use http_header::{HeaderName, HeaderValue};
use http_server::Response;
pub use listing::{Listing, present_listing};
use std::alloc::{AllocError, Global};

// Whether a method is HEAD (RFC 9110, section 9.3.2).
fn is_head(method: &[u8]) -> bool
    ensures { result ≡ bytes_eq method.now (codes "HEAD") }
{
    method == b"HEAD".as_slice()
}

// Whether a method is PROPFIND (RFC 4918, section 9.1).
fn is_propfind(method: &[u8]) -> bool
    ensures { Decides result (method.now ≡ codes "PROPFIND") }
{
    method == b"PROPFIND".as_slice()
}

// Whether a method is PROPPATCH (RFC 4918, section 9.2).
fn is_proppatch(method: &[u8]) -> bool
    ensures { Decides result (method.now ≡ codes "PROPPATCH") }
{
    method == b"PROPPATCH".as_slice()
}

// Whether a file was asked for, and is told.
fn is_of_file(head: &Head<'_>, reply: &Reply) -> bool
    ensures { Decides result (IsOfFile head.now reply.now) }
{
    (head.method() == b"GET".as_slice() || is_head(head.method())) && reply.status.as_u16() == 200
}

// Fills a response with a file that was changed last at this moment, or with a part of it.
fn show_file(
    alloc: Global,
    head: &Head<'_>,
    moment: u64,
    modified: u64,
    reply: Reply,
    response: &mut Response,
) -> Result<(), AllocError>
    requires { IsBlank response.old }
    ensures { OnOk result (ShowsFile head.now moment reply modified response.new) }
{
    let Reply { headers, body, .. } = reply;
    let tag = tag_in(alloc, &headers)?;
    let bytes = body_of(alloc, body)?;
    let sent = answer_of(alloc, head, tag.as_ref(), modified, moment, bytes)?;
    let kind = type_at(alloc, head.target())?;
    fill(
        alloc,
        &headers,
        is_head(head.method()),
        kind,
        sent,
        response,
    )
}

/// A server whose store has room for so many more bytes.
#[derive(Clone, Copy)]
pub struct Store<'a> {
    /// The server.
    pub server: &'a Handler,
    /// Where the files are whose bytes count as used: at a path and below it; without one all of them (RFC 4331, section 4).
    pub place: Option<&'a DavPath>,
    /// How many bytes can still be stored there (RFC 4331, section 3).
    pub available: u64,
}

// How many bytes the files have that count as used.
fn used_in(alloc: Global, store: Store<'_>) -> Result<u64, NoMemory>
    ensures { IfOk result (λ used. used ≡ (room_in store.entry).used) }
{
    match store.place {
        Some(path) => Ok(store.server.amount_at(alloc, path)?.bytes),
        None => store.server.used_bytes(alloc),
    }
}

// The multistatus in which folders tell the room of a store, where it is asked for.
fn measured(
    alloc: Global,
    store: Store<'_>,
    propfind: &Element,
    told: Element,
) -> Result<Element, NoMemory>
    ensures { IfOk result (λ sent. sent ≡ with_quota (room_in store.entry) propfind.now told) }
{
    if !asks_for_quota(propfind) {
        return Ok(told);
    }
    let room = Room {
        used: used_in(alloc, store)?,
        available: store.available,
    };
    with_quota(alloc, room, propfind, told)
}

// What is told to a PROPFIND with a body of these bytes.
fn shown_tree(
    alloc: Global,
    leaves_out: bool,
    store: Store<'_>,
    body: &[u8],
    told: Element,
) -> Result<Element, NoMemory>
    ensures { IfOk result
        (λ sent. sent ≡ shown_tree leaves_out (room_in store.entry) body.now told) }
{
    let told = with_types(alloc, told)?;
    match dav_xml::read(alloc, body) {
        Ok(propfind) => {
            let told = measured(alloc, store, &propfind, told)?;
            answered_to(alloc, leaves_out, &propfind, told)
        }
        Err(XmlError::Memory) => Err(NoMemory),
        Err(XmlError::Fault(_)) => Ok(told),
    }
}

// The body of a listing, where it is a tree.
fn shown_body(
    alloc: Global,
    leaves_out: bool,
    store: Store<'_>,
    body: &[u8],
    told: ReplyBody,
) -> Result<ReplyBody, NoMemory>
    ensures { IfOk result
        (λ sent. sent ≡ shown_body leaves_out (room_in store.entry) body.now told) }
{
    match told {
        ReplyBody::Tree(tree) => {
            let tree = shown_tree(alloc, leaves_out, store, body, tree)?;
            Ok(ReplyBody::Tree(tree))
        }
        ReplyBody::Bytes(bytes) => Ok(ReplyBody::Bytes(bytes)),
        ReplyBody::Nothing => Ok(ReplyBody::Nothing),
    }
}

// The reply to a PROPFIND with a body of these bytes.
fn found(
    alloc: Global,
    leaves_out: bool,
    store: Store<'_>,
    body: &[u8],
    reply: Reply,
) -> Result<Reply, NoMemory>
    ensures { IfOk result (λ sent. sent ≡ found leaves_out (room_in store.entry) body.now reply) }
{
    let Reply {
        status,
        headers,
        body: told,
    } = reply;
    match status.as_u16() {
        207 => Ok(Reply {
            status,
            headers,
            body: shown_body(alloc, leaves_out, store, body, told)?,
        }),
        501 => Ok(Reply {
            status: StatusCode::FORBIDDEN,
            headers,
            body: told,
        }),
        _ => Ok(Reply {
            status,
            headers,
            body: told,
        }),
    }
}

// The body of a reply, where it is a tree, with the names by which times were set.
fn outcomes_body(alloc: Global, told: ReplyBody) -> Result<ReplyBody, NoMemory>
    ensures { IfOk result (λ sent. sent ≡ outcomes_body told) }
{
    match told {
        ReplyBody::Tree(tree) => Ok(ReplyBody::Tree(outcomes(alloc, tree)?)),
        ReplyBody::Bytes(bytes) => Ok(ReplyBody::Bytes(bytes)),
        ReplyBody::Nothing => Ok(ReplyBody::Nothing),
    }
}

// The reply to a PROPPATCH.
fn patched(alloc: Global, reply: Reply) -> Result<Reply, NoMemory>
    ensures { IfOk result (λ sent. sent ≡ patched reply) }
{
    let Reply {
        status,
        headers,
        body: told,
    } = reply;
    let body = if status.as_u16() == 207 {
        outcomes_body(alloc, told)?
    } else {
        told
    };
    Ok(Reply {
        status,
        headers,
        body,
    })
}

// Adds the field by which a listing says that it is minimal, where it is one.
fn add_applied(is_applied: bool, response: &mut Response) -> Result<(), AllocError>
    ensures fields { OnOk result (fields_of response.new ≡ fields_of response.old
        ++ (if is_applied then (codes "preference-applied", codes "return=minimal") ∷ [] else [])) }
    ensures status { OnOk result (response.new.status ≡ response.old.status) }
    ensures body { OnOk result (response.new.body ≡ response.old.body) }
{
    if !is_applied {
        return Ok(());
    }
    let name = HeaderName::from_static("preference-applied");
    response.add_header(name, HeaderValue::from_static("return=minimal"))
}

// Fills a response with what a PROPFIND found.
fn show_listing(
    alloc: Global,
    head: &Head<'_>,
    body: &[u8],
    store: Store<'_>,
    reply: Reply,
    response: &mut Response,
) -> Result<(), AllocError>
    requires { IsBlank response.old }
    ensures { OnOk result (IsSentWith (applied head.now reply) false
        (found (leaves_out head.now) (room_in store.entry) body.now reply) response.new) }
{
    let preferred = preferred_in(alloc, head)?;
    let is_applied = reply.status.as_u16() == 207 && preferred.is_minimal;
    let found = found(alloc, preferred.leaves_out, store, body, reply)?;
    send(alloc, found, false, response)?;
    add_applied(is_applied, response)
}

/// Fills a response with what a client is shown of the reply to a request with this head and body, which came at this moment, in
/// seconds since 1970, where the server is this one, and has so many bytes left for files. A file is shown whole, in part, or not
/// again (RFC 9110, sections 13 and 14), with its type by its name (section 8.3.1); a PROPFIND is told of each property that it
/// names (RFC 4918, section 9.1), or, where it wants, of those alone that are there (RFC 8144, section 2.1), of the times that
/// clients set (RFC 4918, section 15.7), of the room of folders (RFC 4331), and 403 where it goes too deep; a PROPPATCH is told of
/// times by the names by which it set them (section 9.2.1); all else is sent as it is.
pub fn present(
    alloc: Global,
    head: &Head<'_>,
    body: &[u8],
    moment: u64,
    store: Store<'_>,
    reply: Reply,
    response: &mut Response,
) -> Result<(), AllocError>
    requires { IsBlank response.old }
    ensures { OnOk result
        (IsShown head.now body.now moment (room_in store.entry) reply response.new) }
{
    if is_propfind(head.method()) {
        return show_listing(alloc, head, body, store, reply, response);
    }
    if is_proppatch(head.method()) {
        return send(alloc, patched(alloc, reply)?, false, response);
    }
    if !is_of_file(head, &reply) {
        return send(alloc, reply, is_head(head.method()), response);
    }
    match modified_in(&reply.headers) {
        Some(modified) => show_file(alloc, head, moment, modified, reply, response),
        None => send(alloc, reply, is_head(head.method()), response),
    }
}
