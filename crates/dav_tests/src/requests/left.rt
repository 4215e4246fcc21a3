//! Which requests are known to leave a server as it was.

use dav_engine::{Reply, ReplyBody};
use dav_headers::names;
use dav_http::leaves;
use http::StatusCode;
use http_header::{HeaderMap, HeaderValue};
use std::alloc::Global;
use std::test::Fail;

// Methods with a status, with which a plan ended in an error, or which a reply has alone, and whether a
// request of the method that is answered so is known to leave the server as it was.
const LEFT: &str = "\
GET 200 alone yes
HEAD 404 error yes
OPTIONS 200 alone yes
PROPFIND 207 alone yes
POST 501 error yes
get 501 error yes
PUT 423 error yes
PUT 412 error yes
PUT 409 error yes
PUT 403 error yes
PATCH 415 error yes
PATCH 416 error yes
PUT 404 error no
PUT 413 error no
PATCH 500 error no
MKCOL 405 error yes
MKCOL 409 error yes
MKCOL 415 error yes
PROPPATCH 404 error yes
UNLOCK 409 error yes
COPY 412 error yes
COPY 403 error yes
COPY 403 alone no
COPY 404 error yes
COPY 404 alone no
COPY 409 error yes
COPY 502 error yes
MOVE 400 error yes
MOVE 403 error yes
MOVE 403 alone no
MOVE 404 error yes
MOVE 409 error yes
DELETE 423 error yes
DELETE 404 error yes
DELETE 409 error yes
DELETE 409 alone no
DELETE 403 alone no
LOCK 423 error yes
LOCK 400 error yes
LOCK 415 error yes
LOCK 409 error no
LOCK 412 error no
PUT 201 alone no
MKCOL 201 alone no
PROPPATCH 207 alone no
DELETE 204 alone no
UNLOCK 204 alone no
MOVE 207 alone no
";

// A reply with this status, and with the header of one to an error, or without a header.
fn reply_with(alloc: Global, status: &str, kind: &str) -> Result<Reply, Fail> {
    let mut headers = HeaderMap::new(alloc);
    if kind == "error" {
        headers.insert(names::CONTENT_LENGTH(), HeaderValue::from_static("0"))?;
    }
    Ok(Reply {
        status: StatusCode::from_u16(status.parse::<u16>()?)?,
        headers,
        body: ReplyBody::Nothing,
    })
}

#[test]
fn what_is_left_is_known(rt: HostRuntime) -> Result<(), Fail> {
    let alloc = rt.alloc();
    for row in LEFT.lines() {
        let mut words = row.split(' ');
        let method = words.next().ok_or(row)?;
        let head = format!(in alloc; "{method} / HTTP/1.1\r\n\r\n")?;
        let (status, kind) = (words.next().ok_or(row)?, words.next().ok_or(row)?);
        let found = leaves(head.as_bytes(), &reply_with(alloc, status, kind)?);
        assert!(rt; found == (words.next() == Some("yes")), "{row}");
    }
    Ok(())
}
