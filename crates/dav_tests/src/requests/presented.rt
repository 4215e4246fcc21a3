//! What a client is shown, as rows: each request, and its status, some of its fields, and its body.
use super::{parts, unescaped, value_in};
use bytes::{Buf, Bytes};
use dav_engine::Caller;
use dav_http::{HandleError, Handler, Head, Store, present};
use http_server::Response;
use std::alloc::{AllocError, Global};
use std::str;
use std::test::Fail;

// Requests of anna, each so many seconds after 09 Sep 2001, 01:46:40. In a row `^` is CRLF, and TAG
// the last entity tag that was told. Of the response the status is told, the fields that `told`
// names, and the body behind `|`; what follows `~` stands in the body.
const SHOWN: &str = "\
0 PUT /a.txt HTTP/1.1^^0123456789 -> 201 |
# types, and that parts may be asked for (RFC 9110, sections 8.3.1 and 14.3)
9 GET /a.txt HTTP/1.1^^ -> 200 text/plain; charset=utf-8 bytes nosniff|0123456789
9 GET /a.txt?x=.png HTTP/1.1^^ -> 200 text/plain; charset=utf-8 bytes nosniff|0123456789
9 GET /a.t%78t HTTP/1.1^^ -> 200 text/plain; charset=utf-8 bytes nosniff|0123456789
9 GET /%61%2etxt?x HTTP/1.1^^ -> 200 text/plain; charset=utf-8 bytes nosniff|0123456789
9 HEAD /a.txt HTTP/1.1^^ -> 200 10 text/plain; charset=utf-8 bytes nosniff|
# parts (section 14)
9 GET /a.txt HTTP/1.1^Range: bytes=2-4^^ -> 206 text/plain; charset=utf-8 bytes bytes 2-4/10 nosniff|234
9 GET /a.txt HTTP/1.1^Range: bytes=9-9^^ -> 206 text/plain; charset=utf-8 bytes bytes 9-9/10 nosniff|9
9 GET /a.txt HTTP/1.1^Range: bytes=-3^^ -> 206 text/plain; charset=utf-8 bytes bytes 7-9/10 nosniff|789
9 GET /a.txt HTTP/1.1^Range: bytes=10-^^ -> 416 bytes */10|
9 GET /a.txt HTTP/1.1^Range: bytes=0-1,3-4^^ -> 200 text/plain; charset=utf-8 bytes nosniff|0123456789
9 HEAD /a.txt HTTP/1.1^Range: bytes=2-4^^ -> 200 10 text/plain; charset=utf-8 bytes nosniff|
9 GET /a.txt HTTP/1.1^Range: bytes=2-4^If-Range: TAG^^ -> 206 text/plain; charset=utf-8 bytes bytes 2-4/10 nosniff|234
9 GET /a.txt HTTP/1.1^Range: bytes=2-4^If-Range: \"no\"^^ -> 200 text/plain; charset=utf-8 bytes nosniff|0123456789
9 GET /a.txt HTTP/1.1^Range: bytes=2-4^If-Range: Sun, 09 Sep 2001 01:46:40 GMT^^ -> 206 text/plain; charset=utf-8 bytes bytes 2-4/10 nosniff|234
0 GET /a.txt HTTP/1.1^Range: bytes=2-4^If-Range: Sun, 09 Sep 2001 01:46:40 GMT^^ -> 200 text/plain; charset=utf-8 bytes nosniff|0123456789
# conditions (section 13.1)
9 GET /a.txt HTTP/1.1^If-None-Match: W/TAG^^ -> 304 tag|
9 GET /a.txt HTTP/1.1^If-None-Match: TAG^^ -> 304 tag|
9 HEAD /a.txt HTTP/1.1^If-Modified-Since: Sun, 09 Sep 2001 01:46:40 GMT^^ -> 304 tag|
9 GET /a.txt HTTP/1.1^If-Modified-Since: Sun, 09 Sep 2001 01:46:39 GMT^^ -> 200 text/plain; charset=utf-8 bytes nosniff|0123456789
9 GET /a.txt HTTP/1.1^If-Unmodified-Since: Sun, 09 Sep 2001 01:46:39 GMT^^ -> 412 |
9 GET /a.txt HTTP/1.1^If-Unmodified-Since: Sun, 09 Sep 2001 01:46:40 GMT^^ -> 200 text/plain; charset=utf-8 bytes nosniff|0123456789
9 GET /no.txt HTTP/1.1^Range: bytes=2-4^^ -> 404 |
# what a browser would run
9 PUT /p.HTML HTTP/1.1^^<p> -> 201 |
9 GET /p.HTML HTTP/1.1^^ -> 200 text/html; charset=utf-8 bytes nosniff sandbox|<p>
9 PUT /none HTTP/1.1^^x -> 201 |
9 GET /none HTTP/1.1^^ -> 200 application/octet-stream bytes|x
# each property that is named, and the types of files (RFC 4918, sections 9.1 and 15.5)
9 PROPFIND /a.txt HTTP/1.1^Depth: 0^^<propfind xmlns='DAV:'><prop><getcontenttype/></prop></propfind> -> 207 ~text/plain; charset=utf-8
9 PROPFIND /a.txt HTTP/1.1^Depth: 0^^<propfind xmlns='DAV:'><prop><getetag/><none/></prop></propfind> -> 207 ~HTTP/1.1 404 Not Found
9 PROPFIND /p.HTML HTTP/1.1^Depth: 0^^ -> 207 ~text/html; charset=utf-8
9 PROPFIND /a.txt HTTP/1.1^Depth: 0^^<propfind xmlns='DAV:'> -> 400 |
9 PROPFIND /a.txt HTTP/1.1^Depth: 0^Prefer: return=minimal^^<propfind xmlns='DAV:'><prop><getcontenttype/><none/></prop></propfind> -> 207 return=minimal|~</D:propstat></D:response></D:multistatus>
9 PROPFIND /a.txt HTTP/1.1^Depth: 0^Prefer: return=minimal^^<propfind xmlns='DAV:'><prop><none/></prop></propfind> -> 207 return=minimal|~<D:propstat><D:prop/><D:status>HTTP/1.1 200 OK</D:status></D:propstat>
9 PROPFIND /a.txt HTTP/1.1^Depth: 0^Prefer: wait=1, Return=Minimal; x^^<propfind xmlns='DAV:'><prop><none/></prop></propfind> -> 207 return=minimal|~200 OK
9 PROPFIND /a.txt HTTP/1.1^Depth: 0^Brief: t^^<propfind xmlns='DAV:'><prop><none/></prop></propfind> -> 207 |~200 OK
9 PROPFIND /a.txt HTTP/1.1^Depth: 0^Prefer: return=representation^^<propfind xmlns='DAV:'><prop><none/></prop></propfind> -> 207 ~404 Not Found
9 PROPFIND /none.txt HTTP/1.1^Depth: 0^Prefer: return=minimal^^<propfind xmlns='DAV:'><prop><none/></prop></propfind> -> 404 |
# the room of folders (RFC 4331): 14 bytes are in files, and 7 are left
9 PROPFIND / HTTP/1.1^Depth: 0^^<propfind xmlns='DAV:'><prop><quota-used-bytes/></prop></propfind> -> 207 ~<D:quota-used-bytes>14</D:quota-used-bytes>
9 PROPFIND / HTTP/1.1^Depth: 0^^<propfind xmlns='DAV:'><prop><quota-available-bytes/></prop></propfind> -> 207 ~<D:quota-available-bytes>7</D:quota-available-bytes>
9 PROPFIND /a.txt HTTP/1.1^Depth: 0^^<propfind xmlns='DAV:'><prop><quota-used-bytes/></prop></propfind> -> 207 ~HTTP/1.1 404 Not Found
# times that clients set, as long as nothing is changed after that (sections 9.2 and 15.7); and the server's own property, which no client sets
20 PUT /photo HTTP/1.1^^x -> 201 |
20 PROPPATCH /photo HTTP/1.1^^<propertyupdate xmlns='DAV:'><set><prop><getlastmodified>Sun, 06 Nov 1994 08:49:37 GMT</getlastmodified></prop></set></propertyupdate> -> 207 ~<D:prop><D:getlastmodified
29 PROPFIND /photo HTTP/1.1^Depth: 0^^<propfind xmlns='DAV:'><prop><getlastmodified/></prop></propfind> -> 207 ~<D:prop><D:getlastmodified>Sun, 06 Nov 1994 08:49:37 GMT</D:getlastmodified></D:prop>
29 PROPFIND /photo HTTP/1.1^Depth: 0^^ -> 207 ~<D:getlastmodified>Sun, 06 Nov 1994 08:49:37 GMT</D:getlastmodified>
29 PROPFIND /photo HTTP/1.1^Depth: 0^^<propfind xmlns='DAV:' xmlns:t='vuldarg:times'><prop><t:modified/></prop></propfind> -> 207 ~HTTP/1.1 404 Not Found
29 PROPPATCH /photo HTTP/1.1^^<propertyupdate xmlns='DAV:' xmlns:z='urn:schemas-microsoft-com:'><set><prop><z:Win32LastModifiedTime>Sun, 06 Nov 1994 08:49:38 GMT</z:Win32LastModifiedTime></prop></set></propertyupdate> -> 207 ~Win32LastModifiedTime
29 PROPFIND /photo HTTP/1.1^Depth: 0^^<propfind xmlns='DAV:'><prop><getlastmodified/></prop></propfind> -> 207 ~<D:getlastmodified>Sun, 06 Nov 1994 08:49:38 GMT</D:getlastmodified>
29 COPY /photo HTTP/1.1^Destination: http://h/copy^^ -> 201 |
29 MOVE /photo HTTP/1.1^Destination: http://h/moved^^ -> 201 |
29 PROPFIND /moved HTTP/1.1^Depth: 0^^ -> 207 ~<D:getlastmodified>Sun, 06 Nov 1994 08:49:38 GMT</D:getlastmodified>
30 PUT /moved HTTP/1.1^^y -> 204 |
39 PROPFIND /moved HTTP/1.1^Depth: 0^^ -> 207 ~<D:getlastmodified>Sun, 09 Sep 2001 01:47:10 GMT</D:getlastmodified>
39 PROPPATCH /moved HTTP/1.1^^<propertyupdate xmlns='DAV:'><set><prop><getlastmodified>yesterday</getlastmodified></prop></set></propertyupdate> -> 207 ~HTTP/1.1 403 Forbidden
39 PROPPATCH /moved HTTP/1.1^^<propertyupdate xmlns='DAV:' xmlns:t='vuldarg:times'><set><prop><t:modified>x</t:modified></prop></set></propertyupdate> -> 207 ~HTTP/1.1 403 Forbidden
# how deep (section 9.1)
9 PROPFIND / HTTP/1.1^Depth: infinity^^ -> 403 ~propfind-finite-depth
";

// Adds the value of a field of a response, where it has it.
fn add_value(out: &mut Vec<u8>, response: &Response, name: &str) -> Result<(), AllocError> {
    if let Some(value) = value_in(response, name) {
        if out.len() > 4 {
            out.push(b' ')?;
        }
        out.extend_from_slice(value)?;
    }
    Ok(())
}

// Adds what a 200 or 206 tells of its file.
fn add_file(out: &mut Vec<u8>, response: &Response) -> Result<(), AllocError> {
    if matches!(response.status.as_u16(), 200 | 206) {
        for name in ["content-length", "content-type", "accept-ranges"] {
            add_value(out, response, name)?;
        }
    }
    Ok(())
}

// What a response tells.
fn told(alloc: Global, response: &Response) -> Result<Vec<u8>, AllocError> {
    let mut out = Vec::new(alloc);
    let status = format!(in alloc; "{} ", response.status.as_u16())?;
    out.extend_from_slice(status.as_bytes())?;
    if status.as_str() == "304 " && value_in(response, "etag").is_some() {
        out.extend_from_slice(b"tag")?;
    }
    add_file(&mut out, response)?;
    for name in [
        "content-range",
        "x-content-type-options",
        "content-security-policy",
        "preference-applied",
    ] {
        add_value(&mut out, response, name)?;
    }
    out.push(b'|')?;
    out.extend_from_slice(response.body.chunk())?;
    Ok(out)
}

// The response to a request at a moment.
fn shown(
    alloc: Global,
    server: &mut Handler,
    moment: u64,
    bytes: &[u8],
) -> Result<Response, HandleError> {
    let (head, body) = parts(bytes);
    let caller = Caller {
        principal: Some("anna"),
        moment,
        token: None,
    };
    let content = Bytes::copy_from_slice(alloc, body)?;
    let reply = server.handle(alloc, head, content, &caller)?;
    let mut response = Response::new(alloc);
    if let Some(read) = Head::read(head) {
        let store = Store {
            server,
            place: None,
            available: 7,
        };
        present(alloc, &read, body, moment, store, reply, &mut response)?;
    }
    Ok(response)
}

// Whether a response is the one that is wanted.
fn fits(alloc: Global, response: &Response, wanted: &str) -> Result<bool, AllocError> {
    let found = told(alloc, response)?;
    let Some((front, part)) = wanted.split_once('~') else {
        return Ok(found.as_slice() == wanted.as_bytes());
    };
    let text = str::from_utf8(&found).unwrap_or("");
    Ok(text.starts_with(front) && text.contains(part))
}

#[test]
fn clients_are_shown(rt: HostRuntime) -> Result<(), Fail> {
    let alloc = rt.alloc();
    let mut server = Handler::new(alloc, "")?;
    let mut tag = String::new(alloc);
    for row in SHOWN.lines() {
        if let Some((input, wanted)) = row.split_once(" -> ") {
            let (second, text) = input.split_once(' ').ok_or(row)?;
            let moment = second.parse::<u64>()?.saturating_add(1_000_000_000);
            let text = text.replace(alloc, "TAG", tag.as_str())?;
            let bytes = unescaped(alloc, text.as_str())?;
            let response = shown(alloc, &mut server, moment, &bytes)?;
            assert!(rt; fits(alloc, &response, wanted)?, "{row}");
            if let Some(value) = value_in(&response, "etag") {
                tag = String::from_str(alloc, str::from_utf8(value).unwrap_or(""))?;
            }
        }
    }
    Ok(())
}
