//! Requests as rows of text: what is kept of a head, and what a server answers. In a row `^` is
//! CRLF.

mod left;
mod listing;
mod presented;
mod refused;
mod saved;
mod uploaded;

use bytes::{Buf, Bytes};
use dav_engine::Caller;
use dav_http::{HandleError, Handler, Head, is_sendable_if_any, send, unlock_head};
use http_server::Response;
use std::alloc::{AllocError, Global};
use std::test::Fail;

// A head, and what is run and kept of it where a lock lasts an hour at most.
const KEPT: &str = "\
# what shows who asks, and what the machine reads nothing of (RFC 9110, sections 7.2 and 11.6.2; RFC 6265, section 5.4)
GET /a HTTP/1.1^Host: h^authorization: Basic eDp5^Accept:  */* ^^ -> GET /a HTTP/1.1^Accept:*/*^^
PUT /a HTTP/1.1^Host: h^Cookie: a=b^COOKIE: c^Proxy-Authorization: x^Content-Length: 3^If: (<a>)^^ -> PUT /a HTTP/1.1^Content-Length:3^If:(<a>)^^
^PUT /a HTTP/1.0^Transfer-Encoding: chunked^Cookies: 1^X:^^ -> PUT /a HTTP/1.1^Cookies:1^X:^^
GET /a HTTP/1.1^Timeout: Second-9^^ -> GET /a HTTP/1.1^Timeout:Second-9^^
# how long a lock is asked for (RFC 4918, section 10.7)
LOCK /a HTTP/1.1^Timeout: Second-60^Depth: 0^^ -> LOCK /a HTTP/1.1^Depth:0^timeout:Second-60^^
LOCK /a HTTP/1.1^TIMEOUT: Second-4100000000^^ -> LOCK /a HTTP/1.1^timeout:Second-3600^^
LOCK /a HTTP/1.1^Timeout: Infinite, Second-60^^ -> LOCK /a HTTP/1.1^timeout:Second-3600^^
LOCK /a HTTP/1.1^Timeout: Second-60, Infinite^^ -> LOCK /a HTTP/1.1^timeout:Second-60^^
LOCK /a HTTP/1.1^^ -> LOCK /a HTTP/1.1^timeout:Second-3600^^
LOCK /a HTTP/1.1^Timeout: soon^^ -> LOCK /a HTTP/1.1^timeout:Second-3600^^
LOCK /a HTTP/1.1^Timeout: Second-60^Timeout: Second-60^^ -> LOCK /a HTTP/1.1^timeout:Second-3600^^
lock /a HTTP/1.1^Timeout: Second-4100000000^^ -> lock /a HTTP/1.1^Timeout:Second-4100000000^^
# paths in an If, but not what stands between quotes (RFC 4918, section 10.4.2)
PUT /a HTTP/1.1^If: </d> (<urn:t>)^^ -> PUT /a HTTP/1.1^If:<http://localhost/d> (<urn:t>)^^
PUT /a HTTP/1.1^IF: </d>([\"</x\"]) </e>(Not <b>)^^ -> PUT /a HTTP/1.1^IF:<http://localhost/d>([\"</x\"]) <http://localhost/e>(Not <b>)^^
LOCK /a HTTP/1.1^If: </>(<b>)^^ -> LOCK /a HTTP/1.1^If:<http://localhost/>(<b>)^timeout:Second-3600^^
PUT /a HTTP/1.1^If: <http://h/d> (<urn:t>)^If-Match: \"</d>\"^^ -> PUT /a HTTP/1.1^If:<http://h/d> (<urn:t>)^If-Match:\"</d>\"^^
# how deep a PROPFIND goes (RFC 4918, section 9.1)
PROPFIND /a HTTP/1.1^X: 1^^ -> PROPFIND /a HTTP/1.1^X:1^depth:1^^
PROPFIND /a HTTP/1.1^DEPTH: 0^^ -> PROPFIND /a HTTP/1.1^DEPTH:0^^
# no heads
GET /a HTTP/1.1^ -> none
GET /a HTTP/1.1^Host : h^^ -> none
";

// The same where a PROPFIND without a Depth is left to the machine.
const KEPT_STRICTLY: &str = "\
PROPFIND /a HTTP/1.1^X: 1^^ -> PROPFIND /a HTTP/1.1^X:1^^
PROPFIND /a HTTP/1.1^Depth: 1^^ -> PROPFIND /a HTTP/1.1^Depth:1^^
LOCK /a HTTP/1.1^^ -> LOCK /a HTTP/1.1^timeout:Second-3600^^
";

// The requests of one session with their bodies, and of each answer the status, the content-length
// and the body.
const SESSION: &str = "\
# RFC 9110, sections 9.3.1, 9.3.2, 9.3.4 and 13.1.2
GET /a HTTP/1.1^^ -> 404 |
PUT /a HTTP/1.1^^hello -> 201 |
PUT /a HTTP/1.1^^hallo -> 204 |
GET /a HTTP/1.1^^ -> 200 |hallo
HEAD /a HTTP/1.1^^ -> 200 5|
PUT /a HTTP/1.1^If-None-Match: *^^other -> 412 |
POST /a HTTP/1.1^^x -> 501 |
GET /a HTTP/1.1^^ -> 200 |hallo
# RFC 4918, sections 8.2, 9.3.1 and 9.10.6
PROPFIND /a HTTP/1.1^Depth: 0^^<a -> 400 |
MKCOL /d HTTP/1.1^^ -> 201 |
MKCOL /d HTTP/1.1^^ -> 405 |
LOCK /d/n HTTP/1.1^^<lockinfo xmlns='DAV:'><lockscope><exclusive/></lockscope><locktype><write/></locktype></lockinfo> -> 201 *
PUT /d/n HTTP/1.1^^x -> 423 *
GET /d/n HTTP/1.1^^ -> 200 |
UNLOCK /d/n HTTP/1.1^Lock-Token: <urn:t>^^ -> 204 |
PUT /d/n HTTP/1.1^^x -> 204 |
";

// A field line or two, a name, and the value of the first field with it (RFC 9110, sections 5.1 and
// 5.5); `~` is a tab.
const VALUES: &str = "\
Host: h^ host -> h
HOST: h^ host -> h
host:h^ HOST -> h
Host: ~ h~ ^ host -> h
X: a b ~c^ x -> a b ~c
If-Match: \"a:b\"^ if-match -> \"a:b\"
X: 1^Host: h^ host -> h
Host: a^Host: b^ host -> a
X:^ x ->
X: ^X: 2^ x ->
Hosts: h^ host -> none
Hos: h^ host -> none
X-Host: h^ host -> none
Host: h^ hos -> none
";

// Code points, and whether a name with them may be told: XML 1.0, section 2.2, has the characters.
const NAMES: &str = "\
absent yes
 no
61.6E.6E.61 yes
9 yes
A yes
D yes
20 yes
0 no
1 no
8 no
B no
1F no
7F yes
85 yes
D7FF yes
E000 yes
FFFD yes
FFFE no
FFFF no
10000 yes
10FFFF yes
61.0.62 no
";

// Requests of anna at a second of 2001, each with its status; and `ends`, with the head of the
// request that ends the first lock whose time has passed then (RFC 4918, sections 6.6, 9.11 and
// 10.7). Without a Timeout it never does.
const ENDS: &str = "\
0 ends -> none
0 LOCK /dav/a%20b HTTP/1.1^Timeout: Second-2^^LOCKINFO -> 201
0 ends -> none
1 ends -> none
1 PUT /dav/a%20b HTTP/1.1^^x -> 423
2 ends -> UNLOCK /dav/a%20b HTTP/1.1^Lock-Token: <urn:t>^^
9 ends -> UNLOCK /dav/a%20b HTTP/1.1^Lock-Token: <urn:t>^^
9 PUT /dav/a%20b HTTP/1.1^^x -> 423
9 UNLOCK /dav/a%20b HTTP/1.1^Lock-Token: <urn:t>^^ -> 204
9 ends -> none
9 PUT /dav/a%20b HTTP/1.1^^x -> 204
10 LOCK /dav/late HTTP/1.1^Timeout: Second-20^^LOCKINFO -> 201
10 LOCK /dav/soon HTTP/1.1^Timeout: Second-5^^LOCKINFO -> 201
15 ends -> UNLOCK /dav/soon HTTP/1.1^Lock-Token: <urn:t>^^
30 ends -> UNLOCK /dav/late HTTP/1.1^Lock-Token: <urn:t>^^
30 LOCK /dav/late HTTP/1.1^If: (<urn:t>)^Timeout: Second-20^^ -> 200
30 ends -> UNLOCK /dav/soon HTTP/1.1^Lock-Token: <urn:t>^^
30 UNLOCK /dav/soon HTTP/1.1^Lock-Token: <urn:t>^^ -> 204
49 ends -> none
50 ends -> UNLOCK /dav/late HTTP/1.1^Lock-Token: <urn:t>^^
50 UNLOCK /dav/late HTTP/1.1^Lock-Token: <urn:t>^^ -> 204
60 LOCK /dav/n HTTP/1.1^^LOCKINFO -> 201
4000000000 ends -> none
";

// The bytes of a text in a row.
pub(crate) fn unescaped(alloc: Global, text: &str) -> Result<Vec<u8>, AllocError> {
    let mut out = Vec::new(alloc);
    for byte in text.as_bytes() {
        if *byte == b'^' {
            out.extend_from_slice(b"\r\n")?;
        } else {
            out.push(*byte)?;
        }
    }
    Ok(out)
}

// What is kept of a head, or that it is none.
fn kept(alloc: Global, bytes: &[u8], is_strict: bool) -> Result<Vec<u8>, AllocError> {
    match Head::read(bytes) {
        Some(head) => head.kept(alloc, 3600, is_strict),
        None => Vec::from_slice(alloc, b"none"),
    }
}

#[test]
fn heads_are_kept(rt: HostRuntime) -> Result<(), Fail> {
    let mut count = 0usize;
    for (rows, is_strict) in [(KEPT, false), (KEPT_STRICTLY, true)] {
        for row in rows.lines() {
            if let Some((input, wanted)) = row.split_once(" -> ") {
                let input = unescaped(rt.alloc(), input)?;
                let wanted = unescaped(rt.alloc(), wanted)?;
                let found = kept(rt.alloc(), &input, is_strict)?;
                assert!(rt; found.as_slice() == wanted.as_slice(), "{row}");
                count = count.saturating_add(1);
            }
        }
    }
    assert!(rt; count == 23, "{count} rows");
    Ok(())
}

// Where the body begins that follows a head.
fn body_at(bytes: &[u8]) -> usize {
    match bytes
        .windows(4)
        .position(|four| four == b"\r\n\r\n".as_slice())
    {
        Some(place) => place.saturating_add(4),
        None => bytes.len(),
    }
}

// The head and the body of a request.
pub(crate) fn parts(bytes: &[u8]) -> (&[u8], &[u8]) {
    let place = body_at(bytes);
    (
        bytes.get(..place).unwrap_or(bytes),
        bytes.get(place..).unwrap_or(&[]),
    )
}

// The value of the first field with a name.
pub(crate) fn value_in<'r>(response: &'r Response, name: &str) -> Option<&'r [u8]> {
    for (field, value) in response.headers.iter() {
        if field.as_str() == name {
            return Some(value.as_bytes());
        }
    }
    None
}

// Adds the status of a response, its Content-Length where it tells one, and its body.
fn add_answer(alloc: Global, out: &mut Vec<u8>, response: &Response) -> Result<(), AllocError> {
    let status = format!(in alloc; "{} ", response.status.as_u16())?;
    out.extend_from_slice(status.as_bytes())?;
    if let Some(value) = value_in(response, "content-length") {
        out.extend_from_slice(value)?;
    }
    out.push(b'|')?;
    out.extend_from_slice(response.body.chunk())
}

// What a server answers.
fn answer(alloc: Global, server: &mut Handler, bytes: &[u8]) -> Result<Vec<u8>, HandleError> {
    let (head, body) = parts(bytes);
    let caller = Caller {
        principal: Some("anna"),
        moment: 1_000_000_000,
        token: Some("urn:t"),
    };
    let body = Bytes::copy_from_slice(alloc, body)?;
    let reply = server.handle(alloc, head, body, &caller)?;
    let mut response = Response::new(alloc);
    send(alloc, reply, head.starts_with(b"HEAD"), &mut response)?;
    let mut out = Vec::new(alloc);
    add_answer(alloc, &mut out, &response)?;
    Ok(out)
}

// Whether an answer is the one that is wanted; behind `*` any bytes may follow.
fn fits(found: &[u8], wanted: &str) -> bool {
    match wanted.strip_suffix('*') {
        Some(front) => found.starts_with(front.as_bytes()),
        None => found == wanted.as_bytes(),
    }
}

#[test]
fn sessions_are_answered(rt: HostRuntime) -> Result<(), Fail> {
    let mut server = Handler::new(rt.alloc(), "")?;
    let mut count = 0usize;
    for row in SESSION.lines() {
        if let Some((input, wanted)) = row.split_once(" -> ") {
            let input = unescaped(rt.alloc(), input)?;
            let found = answer(rt.alloc(), &mut server, &input)?;
            assert!(rt; fits(&found, wanted), "{row}");
            count = count.saturating_add(1);
        }
    }
    assert!(rt; count == 16, "{count} rows");
    Ok(())
}

#[test]
fn nameless_callers_are_refused(rt: HostRuntime) -> Result<(), Fail> {
    let mut server = Handler::new(rt.alloc(), "")?;
    for name in ["", "a\u{1}b"] {
        let caller = Caller {
            principal: Some(name),
            moment: 0,
            token: None,
        };
        let body = Bytes::from_static(b"");
        let found = server.handle(rt.alloc(), b"GET / HTTP/1.1\r\n\r\n", body, &caller);
        assert!(rt; matches!(found, Err(HandleError::Principal)), "{name}");
    }
    Ok(())
}

// A text in a row, whose tabs are written `~`.
fn with_tabs(alloc: Global, text: &str) -> Result<Vec<u8>, AllocError> {
    let mut bytes = unescaped(alloc, text)?;
    for byte in bytes.iter_mut() {
        if *byte == b'~' {
            *byte = b'\t';
        }
    }
    Ok(bytes)
}

#[test]
fn values_are_found(rt: HostRuntime) -> Result<(), Fail> {
    for row in VALUES.lines() {
        let (input, wanted) = row.rsplit_once(" ->").ok_or(row)?;
        let (fields, name) = input.rsplit_once("^ ").ok_or(row)?;
        let text = format!(in rt.alloc(); "GET / HTTP/1.1^{fields}^^")?;
        let bytes = with_tabs(rt.alloc(), text.as_str())?;
        let head = Head::read(&bytes).ok_or(row)?;
        let found = head.value(name).unwrap_or(b"none");
        let wanted = with_tabs(rt.alloc(), wanted.strip_prefix(' ').unwrap_or(wanted))?;
        assert!(rt; found == wanted.as_slice(), "{row}");
    }
    Ok(())
}

// The text of code points, each with base 16.
fn text_of(alloc: Global, points: &str) -> Result<String, AllocError> {
    let mut text = String::new(alloc);
    for point in points.split('.') {
        if let Ok(point) = u32::from_str_radix(point, 16)
            && let Some(c) = char::from_u32(point)
        {
            text.push(c)?;
        }
    }
    Ok(text)
}

#[test]
fn names_are_judged(rt: HostRuntime) -> Result<(), Fail> {
    for row in NAMES.lines() {
        let (points, wanted) = row.split_once(' ').ok_or(row)?;
        let text = text_of(rt.alloc(), points)?;
        let name = if points == "absent" {
            None
        } else {
            Some(text.as_str())
        };
        assert!(rt; is_sendable_if_any(name) == (wanted == "yes"), "{row}");
    }
    Ok(())
}

// What asks for an exclusive lock (RFC 4918, section 9.10.7).
const LOCKINFO: &[u8] =
    b"<lockinfo xmlns='DAV:'><lockscope><exclusive/></lockscope><locktype><write/></locktype></lockinfo>";

// The status of a request at a moment.
fn status_at(
    alloc: Global,
    server: &mut Handler,
    moment: u64,
    text: &str,
) -> Result<u16, HandleError> {
    let bytes = unescaped(alloc, text)?;
    let place = body_at(&bytes);
    let body = match bytes.get(place..).unwrap_or(&[]) {
        b"LOCKINFO" => Bytes::from_static(LOCKINFO),
        other => Bytes::copy_from_slice(alloc, other)?,
    };
    let caller = Caller {
        principal: Some("anna"),
        moment,
        token: Some("urn:t"),
    };
    let reply = server.handle(alloc, bytes.get(..place).unwrap_or(&[]), body, &caller)?;
    Ok(reply.status.as_u16())
}

// The head of the request that ends the first lock whose time has passed at a moment, if there is
// one.
fn end_at(alloc: Global, server: &Handler, moment: u64) -> Result<String, HandleError> {
    match server.first_ended(moment) {
        Some(lock) => Ok(unlock_head(alloc, lock)?),
        None => Ok(String::from_str(alloc, "none")?),
    }
}

#[test]
fn locks_end(rt: HostRuntime) -> Result<(), Fail> {
    let alloc = rt.alloc();
    let mut server = Handler::new(alloc, "/dav")?;
    for row in ENDS.lines() {
        let (input, wanted) = row.split_once(" -> ").ok_or(row)?;
        let (second, text) = input.split_once(' ').ok_or(row)?;
        let moment = second.parse::<u64>()?.saturating_add(1_000_000_000);
        let found = if text == "ends" {
            end_at(alloc, &server, moment)?
        } else {
            format!(in alloc; "{}", status_at(alloc, &mut server, moment, text)?)?
        };
        let wanted = unescaped(alloc, wanted)?;
        assert!(rt; found.as_bytes() == wanted.as_slice(), "{row}: {found}");
    }
    Ok(())
}
