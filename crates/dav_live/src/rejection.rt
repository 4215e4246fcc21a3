//! Which requests aren't taken, by their heads alone (RFC 9110, section 15.5).
ghost use Rattle.std.specs.Prelude.{◌≡◌, ◌≢◌, ◌⊎◌, IsTrue, None, Ok, codes, map, string_bytes, take};
ghost use Rattle.std.specs.Bool.{Decides};
ghost use Rattle.dav_core.specs.declared.method.DavMethod.{DavMethod as DavMethodValue};
ghost use Rattle.dav_server.specs.Head.{IsHead, Request};
ghost use Rattle.dav_server.specs.Method.{GivesServed};
ghost use Rattle.dav_live.specs.Hosts.{value_of};
ghost use Rattle.dav_live.specs.Rejections as spec;

use crate::hosts::{asks_bad_port, is_for, is_own_origin};
use crate::numbers::is_at_most;
use dav_core::method::DavMethod;
use dav_http::{Head, is_safe};
use dav_server::method::method_of;
use dav_wire::Rejection;

/// The most bytes of a body that are taken of nobody who is known.
const MOST_UNKNOWN: u64 = 4_096;

// Whether bytes begin with this name, in letters of either case.
fn begins_with(bytes: &[u8], name: &[u8]) -> bool
    ensures { Decides result (spec.BeginsWithName bytes.now name.now) }
{
    match bytes.get(..name.len()) {
        Some(front) => front.eq_ignore_ascii_case(name),
        None => false,
    }
}

// Whether a line of a head, after the first one, begins with this name, in letters of either case (RFC 9112, section 5).
fn has_line(head: &[u8], name: &[u8]) -> bool
    ensures { Decides result (spec.HasLine head.now name.now) }
{
    for (i, byte) in head.iter().enumerate() {
        if *byte == b'\n' && begins_with(&head[i + 1..], name) {
            return true;
        }
    }
    false
}

// Whether the bytes of a head begin with the name of a method that asks for a representation, and a space.
fn begins_to_read(head: &[u8]) -> bool
    ensures { Decides result
        ((take 4 head.now ≡ codes "GET ") ⊎ (take 5 head.now ≡ codes "HEAD ")) }
{
    head.starts_with(b"GET ") || head.starts_with(b"HEAD ")
}

/// Whether the bytes of a head are of a GET or HEAD without a body, which is left to the answer: so the usual request isn't read
/// twice. False may be said of such a one too.
pub fn is_plain_read(head: &[u8]) -> bool
    ensures { IsTrue result → (r : Request) → IsHead head.now r → spec.IsPlainRead r }
{
    if has_line(head, b"content-length") {
        return false;
    }
    if has_line(head, b"transfer-encoding") {
        return false;
    }
    begins_to_read(head)
}

// Whether a head states a body of so many bytes at most, or no length (RFC 9112, section 6.2).
fn states_at_most(head: &Head<'_>, most: u64) -> bool
    ensures { Decides result (spec.StatesAtMost most head.now) }
{
    match head.value("content-length") {
        Some(value) => is_at_most(value, most),
        None => true,
    }
}

// Whether the body of a request comes in chunks, or may (RFC 9112, section 6.1).
fn has_coding(head: &Head<'_>) -> bool
    ensures { Decides result (value_of (codes "transfer-encoding") head.now ≢ None) }
{
    head.value("transfer-encoding").is_some()
}

// Whether a request may have a body of more bytes than so many; one in chunks may be empty (RFC 9112, section 7.1).
fn may_have_more(head: &Head<'_>, most: u64) -> bool
    ensures { Decides result (spec.MayHaveMore most head.now) }
{
    !states_at_most(head, most) || has_coding(head)
}

/// Whether a request may have a body so long that none of it is taken before it is known who makes the request.
pub fn may_be_long(head: &Head<'_>) -> bool
    ensures { Decides result (spec.MayHaveMore 4096 head.now) }
{
    may_have_more(head, MOST_UNKNOWN)
}

// Whether the machine takes a body with this method; with the others it answers 415.
fn takes_body(method: DavMethod) -> bool
    ensures { result ≡ spec.takes_body method }
{
    matches!(
        method,
        DavMethod::Put
            | DavMethod::Patch
            | DavMethod::PropFind
            | DavMethod::PropPatch
            | DavMethod::Lock
    )
}

// Whether a page of another origin makes a request that may change something.
fn is_forged(head: &Head<'_>) -> bool
    ensures { Decides result (spec.IsForged head.now) }
{
    !is_safe(head.method()) && !is_own_origin(head)
}

// Why a request with a method of this name, for this server, isn't taken that may have a body.
fn body_rejection(head: &Head<'_>) -> Option<Rejection>
    ensures { spec.TellsRefusedBody head.now result }
{
    match method_of(head.method()) {
        Err(_) => Some(Rejection::NotImplemented),
        Ok(method) if !takes_body(method) && !states_at_most(head, 0) => {
            Some(Rejection::UnsupportedMediaType)
        }
        Ok(_) => None,
    }
}

/// Why a request isn't taken, if it isn't: a page of another origin may only read (RFC 6454); and no body is taken of a request
/// for a host with a port that can't be, for another server, with a method that isn't served, or with one that takes none. All else is left to the answer.
pub fn rejection_of(head: &Head<'_>, hosts: &[String]) -> Option<Rejection>
    ensures { spec.TellsUntaken (map string_bytes hosts.now) head.now result }
{
    if is_forged(head) {
        return Some(Rejection::Forbidden);
    }
    if !may_have_more(head, 0) {
        return None;
    }
    if asks_bad_port(head) {
        return Some(Rejection::BadRequest);
    }
    if !is_for(head, hosts) {
        return Some(Rejection::Misdirected);
    }
    body_rejection(head)
}
