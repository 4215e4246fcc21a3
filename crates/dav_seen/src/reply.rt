//! The reply to a request that asks for a folder on the way.
ghost use Rattle.std.specs.Prelude.{◌≡◌, ◌++◌, ℕ, List, Some, IfOk, OnOk, map, option_map};
ghost use Rattle.std.specs.Option.{option_copied};
ghost use Rattle.std.specs.Result.{result_ok};
ghost use Rattle.dav_core.specs.Element.{children_of, with_children};
ghost use Rattle.dav_core.specs.ElementView.{node_tree};
ghost use Rattle.dav_core.specs.Path.{names};
ghost use Rattle.dav_xml.specs.Namespaces.{document};
ghost use Rattle.dav_seen.specs.Told.{ways_told};
ghost use Rattle.dav_seen.specs.Bodies.{IsRead};
ghost use Rattle.dav_seen.specs.Ways as spec;

use crate::error::LookError;
use crate::names::names_seen;
use crate::reading::{joined, read_members};
use crate::told::{listing_reply, multistatus, status_reply, too_deep_reply, way_options};
use crate::ways::ways;
use bytes::Bytes;
use dav_access::Rules;
use dav_confined::leave::Asked;
use dav_core::davpath::DavPath;
use dav_core::element::{Element, XmlNode};
use dav_core::errors::NoMemory;
use dav_core::method::DavMethod;
use dav_engine::{Caller, Reply};
use dav_http::{Handler, Head};
use dav_presented::minimal::answered_to;
use dav_presented::missing::asks_for_many;
use dav_xml::XmlError;
use http::StatusCode;
use std::alloc::Global;

// Whether a folder is asked for without its members (RFC 4918, section 10.2).
fn is_alone(depth: Option<&[u8]>) -> bool
    ensures { result ≡ spec.is_alone (option_map (λ d. d.now) depth.entry) }
{
    match depth {
        Some(depth) => depth == b"0".as_slice(),
        None => false,
    }
}

// Whether all below a folder is asked for (RFC 4918, section 10.2).
fn is_deep(depth: Option<&[u8]>) -> bool
    ensures { result ≡ spec.is_deep (option_map (λ d. d.now) depth.entry) }
{
    match depth {
        Some(depth) => depth == b"infinity".as_slice() || depth == b"Infinity".as_slice(),
        None => false,
    }
}

// The names of the members that are asked for, of those to which rules lead.
fn names_told<'r>(
    alloc: Global,
    depth: Option<&[u8]>,
    rules: &'r Rules,
    who: Option<&str>,
    path: &DavPath,
) -> Result<Vec<&'r [u8]>, NoMemory>
    ensures { IfOk result (λ told. map (λ n. n.now) told.items
        ≡ spec.names_told (option_map (λ d. d.now) depth.entry) rules.now
        (option_copied who.entry) (names path.now)) }
{
    if is_alone(depth) {
        return Ok(Vec::new(alloc));
    }
    names_seen(alloc, rules, who, path)
}

// The multistatus for folders on the way, as it is told where the request has this body.
fn ways_told(
    alloc: Global,
    propfind: Option<&Element>,
    paths: &[DavPath],
) -> Result<Element, NoMemory>
    ensures { IfOk result (λ e. e ≡ ways_told (option_copied propfind.entry) paths.now) }
{
    let told = multistatus(alloc, paths)?;
    match propfind {
        Some(propfind) => answered_to(alloc, false, propfind, told),
        None => Ok(told),
    }
}

// An element with more children, after its own.
fn with_more(element: Element, more: Vec<XmlNode>) -> Result<Element, NoMemory>
    ensures { IfOk result (λ e. e ≡ with_children element
        (children_of element ++ map node_tree more.items)) }
{
    let Element {
        name,
        prefix,
        namespace,
        attributes,
        children,
    } = element;
    let children = joined(children, more)?;
    Ok(Element {
        name,
        prefix,
        namespace,
        attributes,
        children,
    })
}

/// The reply to a request with this head and body, of this caller, that asks for a folder on the way to what it may read, by these
/// rules: of the folder that it is one, of its members those that may be seen. The server stays as it was.
pub fn way_reply(
    alloc: Global,
    rules: &Rules,
    handler: &mut Handler,
    head: &[u8],
    body: &Bytes,
    caller: &Caller<'_>,
) -> Result<Reply, LookError>
    ensures reply { IfOk result (spec.IsWayReply rules.now handler.old.server head.now body.now
        caller.now) }
    ensures same { OnOk result (handler.new.server ≡ handler.old.server) }
{
    let prefix = handler.prefix();
    let Some(asked) = Asked::read(alloc, head, prefix)? else {
        return Ok(status_reply(alloc, StatusCode::NOT_FOUND));
    };
    let Some(head) = Head::read(head) else {
        return Ok(status_reply(alloc, StatusCode::NOT_FOUND));
    };
    let depth = head.value("depth");
    reply_at(alloc, rules, handler, &asked, depth, body, caller)
}

// The reply to what was asked, of a folder on the way.
fn reply_at(
    alloc: Global,
    rules: &Rules,
    handler: &mut Handler,
    asked: &Asked,
    depth: Option<&[u8]>,
    body: &Bytes,
    caller: &Caller<'_>,
) -> Result<Reply, LookError>
    ensures reply { IfOk result (spec.IsReplyAt rules.now handler.old.server asked.now.method
        asked.now.path (option_map (λ d. d.now) depth.entry) body.now caller.now) }
    ensures same { OnOk result (handler.new.server ≡ handler.old.server) }
{
    if !handler.is_folder(&asked.path) {
        return Ok(status_reply(alloc, StatusCode::NOT_FOUND));
    }
    match asked.method {
        DavMethod::Options => Ok(way_options(alloc)?),
        DavMethod::PropFind => { listed(alloc, rules, handler, &asked.path, depth, body, caller) }
        _ => Ok(status_reply(alloc, StatusCode::METHOD_NOT_ALLOWED)),
    }
}

// The reply to a PROPFIND of a folder on the way.
fn listed(
    alloc: Global,
    rules: &Rules,
    handler: &mut Handler,
    path: &DavPath,
    depth: Option<&[u8]>,
    body: &Bytes,
    caller: &Caller<'_>,
) -> Result<Reply, LookError>
    ensures reply { IfOk result (spec.IsListed rules.now handler.old.server path.now
        (option_map (λ d. d.now) depth.entry) body.now caller.now) }
    ensures same { OnOk result (handler.new.server ≡ handler.old.server) }
{
    if is_deep(depth) {
        return Ok(too_deep_reply(alloc)?);
    }
    match propfind_in(alloc, body)? {
        Read::Tree(propfind) => {
            let propfind = Some(&propfind);
            listing(alloc, rules, handler, path, depth, propfind, body, caller)
        }
        Read::Nothing => listing(alloc, rules, handler, path, depth, None, body, caller),
        Read::Refused => Ok(status_reply(alloc, StatusCode::BAD_REQUEST)),
    }
}

// What was read of the body of a PROPFIND.
#[derive(Drop)]
enum Read {
    // An element.
    Tree(Element),
    // There is no body.
    Nothing,
    // The body isn't taken.
    Refused,
}

// A body that is a document: it isn't taken where it asks for too many properties by their names.
fn taken(propfind: Element) -> Read
    ensures { (bytes : List ℕ) → result_ok (document bytes) ≡ Some propfind → IsRead bytes result }
{
    if asks_for_many(&propfind) {
        Read::Refused
    } else {
        Read::Tree(propfind)
    }
}

// Reads the body of a PROPFIND.
fn propfind_in(alloc: Global, body: &Bytes) -> Result<Read, NoMemory>
    ensures { IfOk result (IsRead body.now) }
{
    match dav_xml::read(alloc, body.as_slice()) {
        Ok(propfind) => Ok(taken(propfind)),
        Err(XmlError::Memory) => Err(NoMemory),
        Err(XmlError::Fault(_)) if body.is_empty() => Ok(Read::Nothing),
        Err(XmlError::Fault(_)) => Ok(Read::Refused),
    }
}

// The listing of a folder on the way, to a PROPFIND with this body.
fn listing(
    alloc: Global,
    rules: &Rules,
    handler: &mut Handler,
    path: &DavPath,
    depth: Option<&[u8]>,
    propfind: Option<&Element>,
    body: &Bytes,
    caller: &Caller<'_>,
) -> Result<Reply, LookError>
    ensures reply { result_ok (document body.now) ≡ option_copied propfind.entry
        → IfOk result (spec.IsListing rules.now handler.old.server path.now
        (option_map (λ d. d.now) depth.entry) body.now caller.now) }
    ensures same { OnOk result (handler.new.server ≡ handler.old.server) }
{
    let members = names_told(alloc, depth, rules, caller.principal, path)?;
    let paths = ways(alloc, rules, caller.principal, handler, path, &members)?;
    let on_way = ways_told(alloc, propfind, &paths)?;
    let read = read_members(alloc, rules, handler, path, &members, body, caller)?;
    let tree = with_more(on_way, read)?;
    Ok(listing_reply(alloc, tree)?)
}
