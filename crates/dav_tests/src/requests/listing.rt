//! Listings that are shown response by response.
use super::{parts, unescaped, value_in};
use bytes::{Buf, Bytes};
use dav_core::element::{Element, XmlNode};
use dav_engine::{Caller, Gathered, Reply, ReplyBody, Takes};
use dav_http::{Handler, Head, Listing, Store, present_listing};
use http::StatusCode;
use http_header::HeaderMap;
use http_server::Response;
use std::alloc::Global;
use std::process::Abort;
use std::str;
use std::test::Fail;

// What a request asks, a multistatus that a machine tells, and what is shown of it: the value of Preference-Applied, where it is
// told, and the document behind its declaration. In a request `^` is CRLF; the server has no files, and room for 7 bytes.
const ROWS: &str = "\
# a multistatus without a response (RFC 4918, 14.16)
PROPFIND / HTTP/1.1^^ -> <D:multistatus xmlns:D='DAV:'/> -> |<D:multistatus xmlns:D=\"DAV:\"/>
# responses in their order (9.1)
PROPFIND / HTTP/1.1^^ -> <D:multistatus xmlns:D='DAV:'><D:response><D:href>/a</D:href></D:response><D:response><D:href>/b&amp;c</D:href></D:response></D:multistatus> -> |<D:multistatus xmlns:D=\"DAV:\"><D:response><D:href>/a</D:href></D:response><D:response><D:href>/b&amp;c</D:href></D:response></D:multistatus>
# the type of each by its name (15.5)
PROPFIND / HTTP/1.1^^ -> <D:multistatus xmlns:D='DAV:'><D:response><D:href>/a.txt</D:href><D:propstat><D:prop><D:getcontenttype>application/octet-stream</D:getcontenttype></D:prop><D:status>HTTP/1.1 200 OK</D:status></D:propstat></D:response><D:response><D:href>/a.png</D:href><D:propstat><D:prop><D:getcontenttype>application/octet-stream</D:getcontenttype></D:prop><D:status>HTTP/1.1 200 OK</D:status></D:propstat></D:response></D:multistatus> -> |<D:multistatus xmlns:D=\"DAV:\"><D:response><D:href>/a.txt</D:href><D:propstat><D:prop><D:getcontenttype>text/plain; charset=utf-8</D:getcontenttype></D:prop><D:status>HTTP/1.1 200 OK</D:status></D:propstat></D:response><D:response><D:href>/a.png</D:href><D:propstat><D:prop><D:getcontenttype>image/png</D:getcontenttype></D:prop><D:status>HTTP/1.1 200 OK</D:status></D:propstat></D:response></D:multistatus>
# names that aren't there, in each (9.1), and none of them where a minimal reply is preferred (RFC 8144, 2.1)
PROPFIND / HTTP/1.1^^<D:propfind xmlns:D='DAV:'><D:prop><D:x/></D:prop></D:propfind> -> <D:multistatus xmlns:D='DAV:'><D:response><D:href>/a</D:href></D:response><D:response><D:href>/b</D:href></D:response></D:multistatus> -> |<D:multistatus xmlns:D=\"DAV:\"><D:response><D:href>/a</D:href><D:propstat><D:prop><D:x/></D:prop><D:status>HTTP/1.1 404 Not Found</D:status></D:propstat></D:response><D:response><D:href>/b</D:href><D:propstat><D:prop><D:x/></D:prop><D:status>HTTP/1.1 404 Not Found</D:status></D:propstat></D:response></D:multistatus>
PROPFIND / HTTP/1.1^Prefer: return=minimal^^<D:propfind xmlns:D='DAV:'><D:prop><D:x/></D:prop></D:propfind> -> <D:multistatus xmlns:D='DAV:'><D:response><D:href>/a</D:href></D:response></D:multistatus> -> return=minimal|<D:multistatus xmlns:D=\"DAV:\"><D:response><D:href>/a</D:href><D:propstat><D:prop/><D:status>HTTP/1.1 200 OK</D:status></D:propstat></D:response></D:multistatus>
# the room of folders alone (RFC 4331, 3)
PROPFIND / HTTP/1.1^Brief: t^^<D:propfind xmlns:D='DAV:'><D:prop><D:quota-available-bytes/></D:prop></D:propfind> -> <D:multistatus xmlns:D='DAV:'><D:response><D:href>/d/</D:href></D:response><D:response><D:href>/a</D:href></D:response></D:multistatus> -> |<D:multistatus xmlns:D=\"DAV:\"><D:response><D:href>/d/</D:href><D:propstat><D:prop><D:quota-available-bytes>7</D:quota-available-bytes></D:prop><D:status>HTTP/1.1 200 OK</D:status></D:propstat></D:response><D:response><D:href>/a</D:href><D:propstat><D:prop/><D:status>HTTP/1.1 200 OK</D:status></D:propstat></D:response></D:multistatus>
";

// The declaration that stands before each document (XML 1.0, section 2.8).
const DECLARATION: &str = "<?xml version=\"1.0\" encoding=\"utf-8\"?>\n";

// What is read as the start of a multistatus, a response of it, and what is written of both and of its end.
const MULTISTATUS: &str = "<D:multistatus xmlns:D='DAV:'/>";

const RESPONSE: &str =
    "<D:response xmlns:D='DAV:'><D:href>/a%20long%20name%20of%20a%20file</D:href></D:response>";

const START: &str = "<D:multistatus xmlns:D=\"DAV:\">";

const EACH: &str = "<D:response><D:href>/a%20long%20name%20of%20a%20file</D:href></D:response>";

const END: &str = "</D:multistatus>";

// How many pieces of a body are looked at.
const MOST_PIECES: usize = 16;

// What takes the responses to a request.
fn listing_for(alloc: Global, head: &Head<'_>, body: &[u8]) -> Result<Listing, Fail> {
    let server = Handler::new(alloc, "")?;
    let store = Store {
        server: &server,
        place: None,
        available: 7,
    };
    Ok(Listing::new(alloc, head, body, store)?)
}

// A listing that took these children of a multistatus.
fn take_all(alloc: Global, listing: &mut Listing, multistatus: Element) -> Result<(), Fail> {
    let mut multistatus = multistatus;
    let children = std::mem::replace(&mut multistatus.children, Vec::new(alloc));
    listing.open(alloc, multistatus)?;
    for child in children {
        if let XmlNode::Element(response) = child {
            listing.take(alloc, response)?;
        }
    }
    Ok(())
}

// What is sent of a listing: the value of Preference-Applied, a bar, and the document.
fn sent(alloc: Global, head: &Head<'_>, listing: Listing) -> Result<String, Fail> {
    let reply = Reply {
        status: StatusCode::MULTI_STATUS,
        headers: HeaderMap::new(alloc),
        body: ReplyBody::Nothing,
    };
    let mut response = Response::new(alloc);
    present_listing(alloc, head, reply, listing, &mut response)?;
    let mut out = Vec::new(alloc);
    if let Some(value) = value_in(&response, "preference-applied") {
        out.extend_from_slice(value)?;
    }
    out.push(b'|')?;
    for _ in 0..MOST_PIECES {
        let len = response.body.chunk().len();
        out.extend_from_slice(response.body.chunk())?;
        response.body.advance(len);
    }
    if response.body.has_remaining() {
        return Err("more pieces than are looked at")?;
    }
    Ok(String::from_str(alloc, str::from_utf8(&out)?)?)
}

// What is shown of a multistatus that is told to a request.
fn shown(alloc: Global, request: &str, told: &str) -> Result<String, Fail> {
    let bytes = unescaped(alloc, request)?;
    let (head, body) = parts(&bytes);
    let head = Head::read(head).ok_or("no head")?;
    let mut listing = listing_for(alloc, &head, body)?;
    take_all(alloc, &mut listing, dav_xml::read(alloc, told.as_bytes())?)?;
    sent(alloc, &head, listing)
}

#[test]
fn listings_are_shown_by_response(rt: HostRuntime) -> Result<(), Fail> {
    let alloc = rt.alloc();
    for row in ROWS.lines() {
        if let Some((request, rest)) = row.split_once(" -> ") {
            let (told, wanted) = rest.split_once(" -> ").ok_or(row)?;
            let wanted = wanted.replace(
                alloc,
                "|",
                "|<?xml version=\"1.0\" encoding=\"utf-8\"?>\n",
            )?;
            let found = shown(alloc, request, told)?;
            assert!(rt; found == wanted, "{row}\ngives: {found}");
        }
    }
    Ok(())
}

// A listing of some 400,000 bytes is sent whole, and in order.
#[test]
fn long_listings_are_shown_whole(rt: HostRuntime) -> Result<(), Fail> {
    let alloc = rt.alloc();
    let head = Head::read(b"PROPFIND / HTTP/1.1\r\n\r\n").ok_or("no head")?;
    let mut listing = listing_for(alloc, &head, b"")?;
    listing.open(alloc, dav_xml::read(alloc, MULTISTATUS.as_bytes())?)?;
    let mut wanted = String::from_str(alloc, "|")?;
    wanted.push_str(DECLARATION)?;
    wanted.push_str(START)?;
    for _ in 0..5_000 {
        listing.take(alloc, dav_xml::read(alloc, RESPONSE.as_bytes())?)?;
        wanted.push_str(EACH)?;
    }
    wanted.push_str(END)?;
    let found = sent(alloc, &head, listing)?;
    assert!(rt; found == wanted);
    Ok(())
}

// Requests to a server, one after another; behind each its status, and the addresses of the responses that are handed on, in order,
// or `whole` where nothing is (RFC 4918, section 9.1).
const HANDED: &str = "\
PUT /a HTTP/1.1^^x -> 201 whole
MKCOL /d HTTP/1.1^^ -> 201 whole
PUT /d/b HTTP/1.1^^x -> 201 whole
PROPFIND / HTTP/1.1^Depth: 1^^ -> 207 / /a /d/
PROPFIND /d HTTP/1.1^Depth: 0^^ -> 207 /d/
PROPFIND /d/ HTTP/1.1^Depth: 1^^ -> 207 /d/ /d/b
PROPFIND /a HTTP/1.1^Depth: 1^^ -> 207 /a
PROPFIND /none HTTP/1.1^Depth: 0^^ -> 404 whole
PROPFIND / HTTP/1.1^Depth: infinity^^ -> 501 whole
PROPFIND / HTTP/1.1^Depth: 0^^<a/> -> 400 whole
DELETE /d HTTP/1.1^^ -> 204 whole
PROPFIND / HTTP/1.1^Depth: 1^^ -> 207 / /a
";

// Adds the addresses of the responses of a multistatus, each behind a blank.
fn add_addresses(alloc: Global, out: &mut String, multistatus: &Element) -> Result<(), Fail> {
    for response in multistatus.child_elems() {
        for part in response.child_elems() {
            if let Some(address) = part.get_text(alloc)? {
                out.push(' ')?;
                out.push_str(&address)?;
            }
        }
    }
    Ok(())
}

// The status of the reply to a request, and what was handed on.
fn handed(alloc: Global, server: &mut Handler, request: &str) -> Result<String, Fail> {
    let bytes = unescaped(alloc, request)?;
    let (head, body) = parts(&bytes);
    let caller = Caller {
        principal: None,
        moment: 1,
        token: None,
    };
    let body = Bytes::copy_from_slice(alloc, body)?;
    let (reply, taken) = server.handle_to(alloc, head, body, &caller, Gathered::new())?;
    let mut out = format!(in alloc; "{}", reply.status.as_u16())?;
    match taken {
        Some(taken) => {
            let tree = taken.into_tree().ok_or("no multistatus")?;
            add_addresses(alloc, &mut out, &tree)?;
        }
        None => out.push_str(" whole")?,
    }
    Ok(out)
}

#[test]
fn listings_are_handed_on_by_response(rt: HostRuntime) -> Result<(), Fail> {
    let alloc = rt.alloc();
    let mut server = Handler::new(alloc, "")?;
    for row in HANDED.lines() {
        if let Some((request, wanted)) = row.split_once(" -> ") {
            let found = handed(alloc, &mut server, request)?;
            assert!(rt; found.as_str() == wanted, "{row}\ngives: {found}");
        }
    }
    Ok(())
}
