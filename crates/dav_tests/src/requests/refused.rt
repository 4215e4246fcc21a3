//! Which requests aren't run, as rows: each request, and its status; `run` where it is.
use super::{parts, unescaped};
use bytes::Bytes;
use dav_engine::Caller;
use dav_http::{HandleError, Handler, Head};
use std::alloc::{AllocError, Global};
use std::test::Fail;

// Requests to a server in which `/a` was written at 09 Sep 2001, 01:46:40. In a row `^` is CRLF, and
// MANY a question for 1,001 properties.
const REFUSED: &str = "\
# a condition that nobody understands (RFC 4918, section 10.4; RFC 9110, section 13.1)
PUT /a HTTP/1.1^If: (<urn:t>)^^x -> run
PUT /a HTTP/1.1^If: <http://h/a> ([\"1\"])^^x -> run
PUT /a HTTP/1.1^If: urn:t^^x -> 400
PUT /a HTTP/1.1^If: ()^^x -> 400
PUT /a HTTP/1.1^If:^^x -> 400
PUT /a HTTP/1.1^If: (<urn:t>)^If: (<urn:u>)^^x -> 400
DELETE /a HTTP/1.1^If: </a> (<urn:t>)^^ -> 400
LOCK /a HTTP/1.1^If: (<urn:t>^^ -> 400
GET /a HTTP/1.1^If: urn:t^^ -> run
POST /a HTTP/1.1^If: urn:t^^ -> run
PUT /a HTTP/1.1^If-Match: *^^x -> run
PUT /a HTTP/1.1^If-Match: \"\u{e9}\"^^x -> 400
PUT /a HTTP/1.1^If-None-Match: \"\u{e9}\"^^x -> 400
GET /a HTTP/1.1^If-None-Match: \"\u{e9}\"^^ -> run
# what was changed since (RFC 9110, section 13.1.4)
PUT /a HTTP/1.1^If-Unmodified-Since: Sun, 09 Sep 2001 01:46:39 GMT^^x -> 412
PUT /a HTTP/1.1^If-Unmodified-Since: Sunday, 09-Sep-01 01:46:39 GMT^^x -> 412
PUT /a HTTP/1.1^If-Unmodified-Since: Sun, 09 Sep 2001 01:46:40 GMT^^x -> run
DELETE /a HTTP/1.1^If-Unmodified-Since: Sun, 09 Sep 2001 01:46:39 GMT^^ -> 412
MOVE /a HTTP/1.1^If-Unmodified-Since: Sun, 09 Sep 2001 01:46:39 GMT^^ -> 412
GET /a HTTP/1.1^If-Unmodified-Since: Sun, 09 Sep 2001 01:46:39 GMT^^ -> run
PUT /a HTTP/1.1^If-Match: *^If-Unmodified-Since: Sun, 09 Sep 2001 01:46:39 GMT^^x -> run
PUT /b HTTP/1.1^If-Unmodified-Since: Sun, 09 Sep 2001 01:46:39 GMT^^x -> run
PUT /a HTTP/1.1^If-Unmodified-Since: yesterday^^x -> run
PUT /a HTTP/1.1^^x -> run
# too many names (RFC 4918, section 9.1)
PROPFIND /a HTTP/1.1^^<propfind xmlns='DAV:'><prop><getetag/></prop></propfind> -> run
PROPFIND /a HTTP/1.1^^MANY -> 400
PROPFIND /a HTTP/1.1^^<propfind -> run
PUT /a HTTP/1.1^^MANY -> run
";

// A question for 1,001 properties (RFC 4918, section 9.1).
fn many(alloc: Global) -> Result<String, AllocError> {
    let mut text = String::from_str(alloc, "<propfind xmlns='DAV:'><prop>")?;
    for _ in 0..1001 {
        text.push_str("<a/>")?;
    }
    text.push_str("</prop></propfind>")?;
    Ok(text)
}

// Writes `/a`.
fn write_a(alloc: Global, server: &mut Handler) -> Result<(), HandleError> {
    let caller = Caller {
        principal: None,
        moment: 1_000_000_000,
        token: None,
    };
    let body = Bytes::from_static(b"a");
    server.handle(alloc, b"PUT /a HTTP/1.1\r\n\r\n", body, &caller)?;
    Ok(())
}

// With which status a request is refused, or that it is run.
fn refusal(alloc: Global, server: &Handler, bytes: &[u8]) -> Result<String, AllocError> {
    let (head, body) = parts(bytes);
    let Some(head) = Head::read(head) else {
        return String::from_str(alloc, "no head");
    };
    match server.refusal(alloc, &head, body)? {
        Some(status) => format!(in alloc; "{}", status.as_u16()),
        None => String::from_str(alloc, "run"),
    }
}

#[test]
fn refused_requests_are_named(rt: HostRuntime) -> Result<(), Fail> {
    let alloc = rt.alloc();
    let mut server = Handler::new(alloc, "")?;
    write_a(alloc, &mut server)?;
    let many = many(alloc)?;
    for row in REFUSED.lines() {
        if let Some((input, wanted)) = row.split_once(" -> ") {
            let text = input.replace(alloc, "MANY", many.as_str())?;
            let bytes = unescaped(alloc, text.as_str())?;
            let found = refusal(alloc, &server, &bytes)?;
            assert!(rt; found.as_str() == wanted, "{row}: {found}");
        }
    }
    Ok(())
}
