//! What is told to a request that a lock keeps out (RFC 4918, sections 11.3 and 16).
ghost use Rattle.std.specs.Prelude.{◌≡◌, IfOk, IsOkAnd, MatchOption, OnOk, false, map, string_bytes};
ghost use Rattle.std.specs.Bool.{Decides};
ghost use Rattle.std.specs.Option.{option_copied};
ghost use Rattle.dav_core.specs.Element.{named_by, with_child};
ghost use Rattle.dav_core.specs.Locks.{requester_of};
ghost use Rattle.dav_engine.specs.Multistatus.{href};
ghost use Rattle.dav_core.specs.Path.{names};
ghost use Rattle.dav_engine.specs.Conditions.{AreConditions, Conditions as ConditionsValue, submitted};
ghost use Rattle.dav_server.specs.Headers.{headers_of};
ghost use Rattle.dav_live.specs.Locked as spec;

use dav_confined::leave::Asked;
use dav_core::davpath::DavPath;
use dav_core::element::Element;
use dav_core::errors::NoMemory;
use dav_core::ls::{DavLock, DavLockSystem};
use dav_core::method::DavMethod;
use dav_engine::conditions::Conditions;
use dav_engine::reply::set_xml_type;
use dav_engine::{DavRequest, Reply, ReplyBody};
use dav_server::head::{RequestView, headers_of, read_head};
use dav_store::memls::MemLs;
use http_header::HeaderMap;
use std::alloc::Global;

/// Where a request may meet a lock: at a path, or at it and below it.
#[derive(Drop)]
pub struct Place {
    /// The path.
    pub path: DavPath,
    /// Whether what is below it counts too.
    pub deep: bool,
}

// Whether a request with this method changes what is at its target, and so meets the locks there.
fn changes_target(method: DavMethod) -> bool
    ensures { result ≡ spec.changes_target method }
{
    !matches!(method, DavMethod::Copy)
}

// Whether it meets the locks below its target too.
fn goes_below(method: DavMethod) -> bool
    ensures { result ≡ spec.goes_below method }
{
    matches!(
        method,
        DavMethod::Delete | DavMethod::Move | DavMethod::Lock
    )
}

// Whether it meets the locks at its destination.
fn has_destination(method: DavMethod) -> bool
    ensures { result ≡ spec.has_destination method }
{
    matches!(method, DavMethod::Copy | DavMethod::Move)
}

// Adds a path and the folder that it is in.
fn push_around(places: &mut Vec<Place>, path: DavPath, deep: bool) -> Result<(), NoMemory>
    ensures { OnOk result (spec.IsAround path deep places.old.items places.new.items) }
{
    let folder = path.parent()?;
    places.push(Place { path, deep })?;
    places.push(Place {
        path: folder,
        deep: false,
    })?;
    Ok(())
}

// Where a request meets locks: at its target, and in the folder that that is in; and so at its destination.
fn places_of(alloc: Global, asked: Asked) -> Result<Vec<Place>, NoMemory>
    ensures { IfOk result (λ places.
        spec.ArePlaces asked.method asked.path asked.destination places.items) }
{
    let Asked {
        method,
        path,
        destination,
        ..
    } = asked;
    let mut places = Vec::new(alloc);
    if changes_target(method) {
        push_around(&mut places, path, goes_below(method))?;
    }
    if !has_destination(method) {
        return Ok(places);
    }
    if let Some(destination) = destination {
        push_around(&mut places, destination, true)?;
    }
    Ok(places)
}

// The first lock of these that conflicts with a request at one of these places, if one does, by who makes it and the tokens that it
// submits (RFC 4918, section 7.5).
fn first_in_way<'l>(
    ls: &'l MemLs,
    principal: Option<&str>,
    tokens: &[String],
    places: &[Place],
) -> Option<&'l DavLock>
    ensures { MatchOption result
        (spec.IsNoneInWay
        (requester_of (map string_bytes tokens.now) false (option_copied principal.entry))
        ls.now places.now)
        (λ lock. spec.IsInWay
        (requester_of (map string_bytes tokens.now) false (option_copied principal.entry))
        ls.now places.now lock.now) }
{
    for place in places {
        match ls.check(&place.path, principal, false, place.deep, tokens) {
            Ok(()) => {}
            Err(lock) => return Some(lock),
        }
    }
    None
}

// The conditions that these fields state for a path.
fn conditions_of(
    alloc: Global,
    method: DavMethod,
    path: &DavPath,
    headers: HeaderMap,
) -> Result<Conditions, NoMemory>
    ensures { IfOk result (λ c.
        AreConditions headers path.now.prefix (names path.now) c) }
{
    let request = DavRequest {
        method,
        path: path.clone()?,
        headers,
    };
    Conditions::decode(alloc, &request, path)
}

// The tokens that the If of a request submits, whose target is this path.
fn tokens_by(
    alloc: Global,
    view: &RequestView<'_>,
    method: DavMethod,
    path: &DavPath,
) -> Result<Vec<String>, NoMemory>
    ensures { IfOk result (λ tokens. (c : ConditionsValue)
        × AreConditions (headers_of view.now.fields) path.now.prefix (names path.now) c
        × (map string_bytes tokens.items ≡ submitted c.lists)) }
{
    let conditions = conditions_of(alloc, method, path, headers_of(alloc, view)?)?;
    conditions.tokens(alloc)
}

// The tokens that the If of a request with this head submits, whose target is this path.
fn tokens_in(
    alloc: Global,
    head: &[u8],
    method: DavMethod,
    path: &DavPath,
) -> Result<Vec<String>, NoMemory>
    ensures { IfOk result (λ tokens.
        spec.AreSubmitted head.now path.now (map string_bytes tokens.items)) }
{
    match read_head(head) {
        Ok(view) => tokens_by(alloc, &view, method, path),
        Err(_) => Ok(Vec::new(alloc)),
    }
}

// Whether tokens count for a request with this method.
fn counts_tokens(method: DavMethod) -> bool
    ensures { result ≡ spec.counts_tokens method }
{
    !matches!(method, DavMethod::Lock)
}

// The tokens that count for a request with this head, of which this is asked: none where it asks for a lock of its own.
fn tokens_of(alloc: Global, head: &[u8], asked: &Asked) -> Result<Vec<String>, NoMemory>
    ensures { IfOk result (λ tokens. spec.AreTokensOf asked.now.method head.now asked.now.path
        (map string_bytes tokens.items)) }
{
    if counts_tokens(asked.method) {
        tokens_in(alloc, head, asked.method, &asked.path)
    } else {
        Ok(Vec::new(alloc))
    }
}

// Where a path is.
fn href(alloc: Global, path: &DavPath) -> Result<Element, NoMemory>
    ensures { IfOk result (λ e. e ≡ href path.now) }
{
    let text = path.with_prefix().as_url_string(alloc)?;
    let mut element = Element::new2(alloc, "D:href")?;
    element.text(&text)?;
    Ok(element)
}

// An element with an element in it, where there was memory for both.
fn holding(alloc: Global, name: &str, child: Result<Element, NoMemory>) -> Result<Element, NoMemory>
    ensures { IfOk result (λ e. IsOkAnd child (λ c. e ≡ with_child (named_by name.now) c)) }
{
    let mut element = Element::new2(alloc, name)?;
    element.push_element(child?)?;
    Ok(element)
}

// The name of the condition that a request with this method doesn't meet.
fn precondition(method: DavMethod) -> &'static str
    ensures { result.now ≡ spec.precondition method }
{
    match method {
        DavMethod::Lock => "D:no-conflicting-lock",
        _ => "D:lock-token-submitted",
    }
}

// The error of a request with this method that this lock keeps out.
fn locked_error(alloc: Global, method: DavMethod, lock: &DavLock) -> Result<Element, NoMemory>
    ensures { IfOk result (λ e. e ≡ spec.locked_error method lock.now) }
{
    let root = href(alloc, &lock.path);
    let child = holding(alloc, precondition(method), root)?;
    let mut element = Element::new2(alloc, "D:error")?;
    element.ns("D", "DAV:")?;
    element.push_element(child)?;
    Ok(element)
}

// A reply with this element tree as its body.
fn with_tree(reply: Reply, tree: Element) -> Result<Reply, NoMemory>
    ensures { IfOk result (spec.IsWithTree reply tree) }
{
    let Reply {
        status,
        mut headers,
        ..
    } = reply;
    set_xml_type(&mut headers)?;
    Ok(Reply {
        status,
        headers,
        body: ReplyBody::Tree(tree),
    })
}

// Whether a reply says that a lock keeps its request out, and no more.
fn is_bare_423(reply: &Reply) -> bool
    ensures { Decides result (spec.IsBare423 reply.now) }
{
    reply.status.as_u16() == 423 && matches!(&reply.body, ReplyBody::Nothing)
}

// A reply to what was asked, of this head and principal, with the lock of these that keeps it out.
fn told_by(
    alloc: Global,
    ls: &MemLs,
    head: &[u8],
    asked: Asked,
    principal: Option<&str>,
    reply: Reply,
) -> Result<Reply, NoMemory>
    ensures { IfOk result (spec.IsToldBy ls.now head.now asked
        (option_copied principal.entry) reply) }
{
    let method = asked.method;
    let tokens = tokens_of(alloc, head, &asked)?;
    let places = places_of(alloc, asked)?;
    match first_in_way(ls, principal, &tokens, &places) {
        Some(lock) => with_tree(reply, locked_error(alloc, method, lock)?),
        None => Ok(reply),
    }
}

/// A reply to a request with this head, of this principal, where these are the locks: one of 423 tells which lock keeps it out (RFC
/// 4918, sections 11.3 and 16), each other is as it was.
pub fn reply_told(
    alloc: Global,
    ls: Option<&MemLs>,
    head: &[u8],
    prefix: &str,
    principal: Option<&str>,
    reply: Reply,
) -> Result<Reply, NoMemory>
    ensures { IfOk result (spec.IsTold (option_copied ls.entry) prefix.now head.now
        (option_copied principal.entry) reply) }
{
    if !is_bare_423(&reply) {
        return Ok(reply);
    }
    let Some(ls) = ls else {
        return Ok(reply);
    };
    match Asked::read(alloc, head, prefix)? {
        Some(asked) => told_by(alloc, ls, head, asked, principal, reply),
        None => Ok(reply),
    }
}
