//! The members of a folder on the way that may be read.
ghost use Rattle.std.specs.Prelude.{◌≡◌, ◌++◌, IfOk, OnOk, map, string_bytes};
ghost use Rattle.std.specs.Bool.{Decides};
ghost use Rattle.std.specs.Option.{option_copied};
ghost use Rattle.dav_core.specs.ElementView.{node_tree};
ghost use Rattle.dav_core.specs.Path.{full_bytes};
ghost use Rattle.dav_core.specs.UrlText.{path_text};
ghost use Rattle.dav_http.specs.Steps.{IsStepFor};
ghost use Rattle.dav_seen.specs.Ways as spec;

use crate::error::LookError;
use crate::ways::member;
use bytes::Bytes;
use dav_access::Rules;
use dav_confined::only_reads;
use dav_core::davpath::DavPath;
use dav_core::element::XmlNode;
use dav_core::errors::NoMemory;
use dav_engine::{Caller, Reply, ReplyBody};
use dav_http::{Handler, Head, leaves};
use std::alloc::{AllocError, Global};

// A path as it is written in an address.
fn address_of(alloc: Global, path: &DavPath) -> Result<String, NoMemory>
    ensures { IfOk result (λ text. string_bytes text ≡ path_text (full_bytes path.now)) }
{
    path.with_prefix().as_url_string(alloc)
}

// The head of the request for a member alone.
fn member_head(alloc: Global, path: &DavPath) -> Result<Vec<u8>, NoMemory>
    ensures { IfOk result (λ head. head.items ≡ spec.member_head path.now) }
{
    let address = address_of(alloc, path)?;
    let mut head = Vec::new(alloc);
    head.extend_from_slice(b"PROPFIND ")?;
    head.extend_from_slice(address.as_bytes())?;
    head.extend_from_slice(b" HTTP/1.1\r\nDepth: 0\r\n\r\n")?;
    Ok(head)
}

// What is in a multistatus; in nothing else is anything.
fn told_in(alloc: Global, body: ReplyBody) -> Vec<XmlNode>
    ensures { map node_tree result.items ≡ spec.told_in body }
{
    match body {
        ReplyBody::Tree(tree) => tree.children,
        ReplyBody::Bytes(_) => Vec::new(alloc),
        ReplyBody::Nothing => Vec::new(alloc),
    }
}

// The responses that a reply has.
fn responses_of(alloc: Global, reply: Reply) -> Vec<XmlNode>
    ensures { map node_tree result.items ≡ spec.responses_of reply }
{
    let Reply { status, body, .. } = reply;
    if status.as_u16() == 207 {
        told_in(alloc, body)
    } else {
        Vec::new(alloc)
    }
}

// The reply of a server to a request that leaves it as it was.
fn ask(
    alloc: Global,
    handler: &mut Handler,
    head: &[u8],
    body: Bytes,
    caller: &Caller<'_>,
) -> Result<Reply, LookError>
    ensures step { IfOk result (λ reply. IsStepFor head.now body caller.now handler.old.server
        reply handler.old.server) }
    ensures same { OnOk result (handler.new.server ≡ handler.old.server) }
{
    let reply = handler.handle(alloc, head, body, caller)?;
    if !leaves(head, &reply) {
        return Err(LookError::Changed);
    }
    Ok(reply)
}

// Whether a request with this head only reads, at what this principal may read.
fn is_reading(
    alloc: Global,
    rules: &Rules,
    who: Option<&str>,
    head: &[u8],
    prefix: &str,
) -> Result<bool, NoMemory>
    ensures { IfOk result (λ is. Decides is
        (spec.IsReading rules.now prefix.now (option_copied who.entry) head.now)) }
{
    match Head::read(head) {
        Some(_) => only_reads(alloc, rules, who, head, prefix),
        None => Ok(false),
    }
}

// What is told of a member that may be read.
fn read_member(
    alloc: Global,
    rules: &Rules,
    handler: &mut Handler,
    path: &DavPath,
    body: &Bytes,
    caller: &Caller<'_>,
) -> Result<Vec<XmlNode>, LookError>
    ensures told { IfOk result (λ told. spec.IsMemberTold rules.now handler.old.server body.now
        caller.now path.now (map node_tree told.items)) }
    ensures same { OnOk result (handler.new.server ≡ handler.old.server) }
{
    let head = member_head(alloc, path)?;
    let prefix = handler.prefix();
    if !is_reading(alloc, rules, caller.principal, &head, prefix)? {
        return Ok(Vec::new(alloc));
    }
    let reply = ask(alloc, handler, &head, body.clone()?, caller)?;
    Ok(responses_of(alloc, reply))
}

/// Nodes, with more after them.
pub fn joined(mut nodes: Vec<XmlNode>, more: Vec<XmlNode>) -> Result<Vec<XmlNode>, AllocError>
    ensures { IfOk result (λ all. all.items ≡ nodes.items ++ more.items) }
{
    for node in more {
        nodes.push(node)?;
    }
    Ok(nodes)
}

/// What is told of the members with these names that may be read, after these nodes.
pub fn read_members(
    alloc: Global,
    rules: &Rules,
    handler: &mut Handler,
    path: &DavPath,
    members: &[&[u8]],
    body: &Bytes,
    caller: &Caller<'_>,
) -> Result<Vec<XmlNode>, LookError>
    ensures told { IfOk result (λ told. spec.AreTold rules.now handler.old.server body.now
        caller.now path.now (map (λ n. n.now) members.now) (map node_tree told.items)) }
    ensures same { OnOk result (handler.new.server ≡ handler.old.server) }
{
    let mut told = Vec::new(alloc);
    for name in members {
        let one = member(path, name, false)?;
        let more = read_member(alloc, rules, handler, &one, body, caller)?;
        told = joined(told, more)?;
    }
    Ok(told)
}
