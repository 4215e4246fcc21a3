//! A WebDAV server without a socket over a store and a list of locks of one's own: heads and element trees of five requests in, a
//! line for each reply out (RFC 4918).
#![tactic(auto)]

mod locks;
mod store;

use anyhow::Result;
use bytes::Bytes;
use dav_core::element::Element;
use dav_core::errors::NoMemory;
use dav_core::method::DavMethodSet;
use dav_engine::Body;
use dav_server::davhandler::DavHandler;
use dav_server::exchange::{Exchange, GrantToken};
use dav_store::memfs::MemFs;
use dav_store::memls::MemLs;
use locks::CountingLocks;
use std::alloc::Global;
use std::io::{self, Write};
use store::CountingStore;

type Server = DavHandler<CountingStore<MemFs>, CountingLocks<MemLs>>;

/// September 2001, in seconds since 1970.
const MOMENT: u64 = 1_000_000_000;

/// The token of the one lock that is granted (RFC 4918, section 6.5).
const TOKEN: &str = "urn:uuid:e71d4fae-5dec-22d6-fea5-00a0c91e6be4";

const MKCOL: &[u8] = b"MKCOL /dav/letters HTTP/1.1\r\n\r\n";

const LOCK: &[u8] = b"LOCK /dav/letters HTTP/1.1\r\n\r\n";

const PUT: &[u8] = b"PUT /dav/letters/ben HTTP/1.1\r\nContent-Length: 9\r\n\r\n";

/// The same by who holds the lock (RFC 4918, section 10.4).
const PUT_HELD: &[u8] =
    b"PUT /dav/letters/ben HTTP/1.1\r\nContent-Length: 9\r\nIf: <http://localhost/dav/letters> (<urn:uuid:e71d4fae-5dec-22d6-fea5-00a0c91e6be4>)\r\n\r\n";

const GET: &[u8] = b"GET /dav/letters/ben HTTP/1.1\r\n\r\n";

const LETTER: &[u8] = b"Dear Ben\n";

// An element with one in it.
fn around(alloc: Global, name: &str, child: Element) -> Result<Element, NoMemory> {
    let mut element = Element::new(alloc, name)?;
    element.push_element(child)?;
    Ok(element)
}

// The body that asks for an exclusive lock (RFC 4918, section 14.11).
fn lockinfo(alloc: Global) -> Result<Element, NoMemory> {
    let mut lockinfo = around(alloc, "lockinfo", scope(alloc)?)?;
    lockinfo.push_element(kind(alloc)?)?;
    Ok(lockinfo)
}

fn scope(alloc: Global) -> Result<Element, NoMemory> {
    around(alloc, "lockscope", Element::new(alloc, "exclusive")?)
}

fn kind(alloc: Global) -> Result<Element, NoMemory> {
    around(alloc, "locktype", Element::new(alloc, "write")?)
}

// Makes a request, and writes the status of its reply, with what was counted until then.
fn make<W: Write>(
    alloc: Global,
    out: &mut W,
    server: &mut Server,
    head: &'static [u8],
    body: Body,
    principal: &'static str,
) -> Result<()> {
    let token = GrantToken::new(alloc, TOKEN)?;
    let exchange = Exchange::new(head, body, Some(principal), MOMENT, Some(token))?;
    let reply = server.handle(alloc, &exchange)?;
    let calls = server.fs().calls();
    let granted = match server.locks() {
        Some(locks) => locks.granted(),
        None => 0,
    };
    writeln!(
        out,
        "{principal} is answered {}; {calls} calls of the store, {granted} locks granted",
        reply.status.as_u16()
    )?;
    Ok(())
}

// A server with nothing in it, whose paths begin with /dav.
fn new_server(alloc: Global) -> Result<Server> {
    let store = CountingStore::new(MemFs::new(alloc)?);
    let locks = CountingLocks::new(MemLs::new(alloc)?);
    Ok(DavHandler::new(alloc, "/dav", DavMethodSet::all(), store, Some(locks))?)
}

fn main(rt: HostRuntime) -> Result<()> {
    let alloc = rt.alloc();
    let mut out = io::writer(&rt);
    let mut server = new_server(alloc)?;
    let lockinfo = lockinfo(alloc)?;
    make(alloc, &mut out, &mut server, MKCOL, Body::None, "anna")?;
    make(
        alloc,
        &mut out,
        &mut server,
        LOCK,
        Body::Tree(lockinfo),
        "anna",
    )?;
    let letter = Bytes::from_static(LETTER);
    make(
        alloc,
        &mut out,
        &mut server,
        PUT,
        Body::Bytes(letter),
        "ben",
    )?;
    let letter = Bytes::from_static(LETTER);
    make(
        alloc,
        &mut out,
        &mut server,
        PUT_HELD,
        Body::Bytes(letter),
        "anna",
    )?;
    make(alloc, &mut out, &mut server, GET, Body::None, "ben")?;
    Ok(())
}
