//! What is said of a request by its head alone.
use super::unescaped;
use crate::hosts::{asks_bad_port, is_for, is_own_origin};
use crate::rejection::{is_plain_read, may_be_long, rejection_of};
use dav_http::Head;
use std::alloc::{AllocError, Global};
use std::test::Fail;

/// The fields Host and Origin, with `-` for one that is missing: whether it is for this server, or for a port that can't be, and
/// whether a page of another site makes it. Besides its own names the server has `files.example`
/// and `[2001:db8::1]`.
const NAMES: &str = "\
# the machine's own names, in letters of either case and with any port (RFC 9110, section 7.2; RFC 3986, section 3.2)
localhost | - -> us same
localhost:4918 | - -> us same
LocalHost:4918 | - -> us same
localhost: | - -> us same
127.0.0.1 | - -> us same
127.0.0.1:65535 | - -> us same
[::1] | - -> us same
[::1]:4918 | - -> us same
- | - -> us same
# those that it was given
files.example | - -> us same
FILES.Example:8443 | - -> us same
[2001:db8::1] | - -> us same
[2001:DB8::1]:443 | - -> us same
# others
evil.example | - -> other same
evil.example:4918 | - -> other same
localhost.evil.example | - -> other same
localhost. | - -> other same
localhost:http | - -> other same
localhost:49a18 | - -> other same
localhost:4918:4918 | - -> other same
127.0.0.1.evil.example | - -> other same
127.0.0.2 | - -> other same
::1 | - -> other same
[::1 | - -> other same
[::2]:4918 | - -> other same
[2001:db8::2] | - -> other same
xfiles.example | - -> other same
files.example.org | - -> other same
anna@localhost | - -> other same
localhost/ | - -> other same
# ports (RFC 3986, section 3.2.3; RFC 6335, section 6)
localhost:0 | - -> us same
localhost:00000000000000000000080 | - -> us same
localhost:65536 | - -> bad same
localhost:99999999999 | - -> bad same
localhost:18446744073709551696 | - -> bad same
127.0.0.1:65536 | - -> bad same
[::1]:65536 | - -> bad same
files.example:100000 | - -> bad same
evil.example:65536 | - -> bad same
localhost:4918:65536 | - -> bad same
localhost:65536:4918 | - -> other same
localhost:-1 | - -> other same
localhost:65536 | http://localhost:65536 -> bad same
localhost:65536 | http://evil.example -> bad foreign
# pages of this server (RFC 6454, sections 6.2 and 7): the scheme makes no difference
localhost:4918 | http://localhost:4918 -> us same
localhost:4918 | https://localhost:4918 -> us same
localhost:4918 | HTTP://LocalHost:4918 -> us same
files.example | https://files.example -> us same
[::1]:4918 | http://[::1]:4918 -> us same
# pages of other sites: another host, another port, none at all
localhost:4918 | http://evil.example -> us foreign
localhost:4918 | http://evil.example:4918 -> us foreign
localhost:4918 | http://localhost -> us foreign
localhost:4918 | http://localhost:4919 -> us foreign
localhost | http://localhost:4918 -> us foreign
localhost:4918 | http://127.0.0.1:4918 -> us foreign
localhost:4918 | http://localhost:4918.evil.example -> us foreign
localhost:4918 | http://localhost:4918/ -> us foreign
localhost:4918 | http://localhost:4918 http://evil.example -> us foreign
localhost:4918 | http://evil.example://localhost:4918 -> us foreign
localhost:4918 | localhost:4918 -> us foreign
localhost:4918 | //localhost:4918 -> us foreign
localhost:4918 | null -> us foreign
localhost:4918 |  -> us foreign
- | http://localhost:4918 -> us foreign
evil.example | http://evil.example -> other same
";

/// A head, in which `^` is CRLF, with the fields `Host: localhost` and those of the row: the status by which it isn't
/// taken, or `-`; whether it is left to the answer as it is (`plain`); and whether nothing of its body is taken before it is
/// known who makes it (`long`).
const REQUESTS: &str = "\
# made by a page of another site: it may only read (RFC 9110, section 9.2.1)
PUT Origin: http://evil.example^Content-Length: 5 -> 403 - -
PUT Origin: http://evil.example -> 403 - -
PUT Origin: null -> 403 - -
DELETE Origin: http://evil.example -> 403 - -
MKCOL Origin: http://evil.example -> 403 - -
COPY Origin: http://evil.example -> 403 - -
MOVE Origin: http://evil.example -> 403 - -
LOCK Origin: http://evil.example^Content-Length: 5 -> 403 - -
UNLOCK Origin: http://evil.example -> 403 - -
PROPPATCH Origin: http://evil.example^Content-Length: 5 -> 403 - -
PATCH Origin: http://evil.example^Content-Length: 5 -> 403 - -
POST Origin: http://evil.example -> 403 - -
get Origin: http://evil.example -> 403 - -
GET Origin: http://evil.example -> - plain -
HEAD Origin: http://evil.example -> - plain -
OPTIONS Origin: http://evil.example -> - - -
PROPFIND Origin: http://evil.example^Content-Length: 5 -> - - -
PUT Origin: http://localhost^Content-Length: 5 -> - - -
DELETE Origin: http://localhost -> - - -
# a body for a Host that isn't served
PUT @evil.example Content-Length: 5 -> 421 - -
PUT @evil.example Transfer-Encoding: chunked -> 421 - long
PROPFIND @evil.example Content-Length: 5 -> 421 - -
GET @evil.example Content-Length: 5 -> 421 - -
POST @evil.example Content-Length: 5 -> 421 - -
PUT @evil.example Content-Length: 0 -> - - -
PUT @evil.example -> - - -
GET @evil.example -> - plain -
PUT @evil.example Origin: http://localhost^Content-Length: 5 -> 403 - -
PUT @evil.example Origin: http://evil.example^Content-Length: 5 -> 421 - -
# a body for a Host with a port that can't be (RFC 9112, section 3.2; RFC 6335, section 6)
PUT @localhost:65536 Content-Length: 5 -> 400 - -
PUT @localhost:99999999999 Transfer-Encoding: chunked -> 400 - long
PUT @evil.example:65536 Content-Length: 5 -> 400 - -
GET @[::1]:65536 Content-Length: 5 -> 400 - -
POST @localhost:65536 Content-Length: 5 -> 400 - -
PUT @localhost:65536 Origin: http://evil.example^Content-Length: 5 -> 403 - -
PUT @localhost:65535 Content-Length: 5 -> - - -
PUT @localhost:65536 -> - - -
GET @localhost:65536 -> - plain -
# a body with a method that isn't served, in this case (RFC 9110, section 9.1)
POST Content-Length: 5 -> 501 - -
REPORT Content-Length: 5 -> 501 - -
SEARCH Transfer-Encoding: chunked -> 501 - long
MKCALENDAR Content-Length: 5 -> 501 - -
put Content-Length: 5 -> 501 - -
POST Content-Length: 0 -> - - -
POST -> - - -
# a body with a method that takes none
GET Content-Length: 5 -> 415 - -
HEAD Content-Length: 5 -> 415 - -
OPTIONS Content-Length: 5 -> 415 - -
MKCOL Content-Length: 1 -> 415 - -
DELETE Content-Length: 5 -> 415 - -
COPY Content-Length: 5 -> 415 - -
MOVE Content-Length: 5 -> 415 - -
UNLOCK content-length: 5 -> 415 - -
MKCOL Content-Length: 0 -> - - -
MKCOL Content-Length: 00 -> - - -
MKCOL -> - - -
MKCOL Transfer-Encoding: chunked -> - - long
GET Content-Length: 0 -> - - -
GET Transfer-Encoding: chunked -> - - long
# a body that is taken, and how much of it of nobody who is known
PUT Content-Length: 5 -> - - -
PATCH Content-Length: 5 -> - - -
PROPFIND Content-Length: 5 -> - - -
PROPPATCH Content-Length: 5 -> - - -
LOCK Content-Length: 5 -> - - -
PUT Content-Length: 4096 -> - - -
PUT Content-Length: 4097 -> - - long
PUT CONTENT-LENGTH:4097 -> - - long
PUT Content-Length: 18446744073709551615 -> - - long
PUT Content-Length: 18446744073709551616 -> - - long
PUT Transfer-Encoding: chunked -> - - long
PUT -> - - -
# fields with a like name
GET X-Content-Length: 5 -> - plain -
GET If-None-Match: \"content-length\" -> - plain -
DELETE X-Origin: http://evil.example -> - - -
";

// Adds a field, unless its value is `-`.
fn add_field(head: &mut Vec<u8>, name: &str, value: &str) -> Result<(), AllocError> {
    if value != "-" {
        head.extend_from_slice(name.as_bytes())?;
        head.extend_from_slice(value.as_bytes())?;
        head.extend_from_slice(b"\r\n")?;
    }
    Ok(())
}

// The names that a server was given.
fn names(alloc: Global) -> Result<Vec<String>, AllocError> {
    let mut names = Vec::new(alloc);
    names.push(String::from_str(alloc, "files.example")?)?;
    names.push(String::from_str(alloc, "[2001:db8::1]")?)?;
    Ok(names)
}

// What is said of a request with this Host and this Origin.
fn names_said(head: &Head<'_>, hosts: &[String]) -> &'static str {
    if asks_bad_port(head) {
        return if is_own_origin(head) {
            "bad same"
        } else {
            "bad foreign"
        };
    }
    match (is_for(head, hosts), !is_own_origin(head)) {
        (true, false) => "us same",
        (true, true) => "us foreign",
        (false, false) => "other same",
        (false, true) => "other foreign",
    }
}

#[test]
fn hosts_and_origins_are_known(rt: HostRuntime) -> Result<(), Fail> {
    let hosts = names(rt.alloc())?;
    for row in NAMES.lines() {
        let Some((input, wanted)) = row.rsplit_once(" -> ") else {
            continue;
        };
        let (host, origin) = input.split_once(" | ").ok_or("a row without an Origin")?;
        let mut bytes = Vec::from_slice(rt.alloc(), b"GET /a HTTP/1.1\r\n")?;
        add_field(&mut bytes, "Host: ", host)?;
        add_field(&mut bytes, "Origin: ", origin)?;
        bytes.extend_from_slice(b"\r\n")?;
        let head = Head::read(&bytes).ok_or("no head")?;
        let found = names_said(&head, &hosts);
        assert!(&rt; found == wanted, "{row}\ngives: {found}");
    }
    Ok(())
}

// The head of a row: its method, perhaps another Host after `@`, and its fields.
fn head_in(alloc: Global, input: &str) -> Result<Vec<u8>, AllocError> {
    let (method, rest) = input.split_once(' ').unwrap_or((input, ""));
    let (host, fields) = match rest.strip_prefix('@') {
        Some(rest) => rest.split_once(' ').unwrap_or((rest, "")),
        None => ("localhost", rest),
    };
    let mut bytes = Vec::from_slice(alloc, method.as_bytes())?;
    bytes.extend_from_slice(b" /a HTTP/1.1\r\n")?;
    add_field(&mut bytes, "Host: ", host)?;
    if !fields.is_empty() {
        bytes.extend_from_slice(&unescaped(alloc, fields)?)?;
        bytes.extend_from_slice(b"\r\n")?;
    }
    bytes.extend_from_slice(b"\r\n")?;
    Ok(bytes)
}

// What is said of a request with this head.
fn request_said(alloc: Global, bytes: &[u8], hosts: &[String]) -> Result<String, Fail> {
    let head = Head::read(bytes).ok_or("no head")?;
    let plain = if is_plain_read(bytes) { "plain" } else { "-" };
    let long = if may_be_long(&head) { "long" } else { "-" };
    match rejection_of(&head, hosts) {
        Some(why) => Ok(format!(in alloc; "{} {plain} {long}", why.status())?),
        None => Ok(format!(in alloc; "- {plain} {long}")?),
    }
}

#[test]
fn requests_are_judged_by_their_heads(rt: HostRuntime) -> Result<(), Fail> {
    let hosts = names(rt.alloc())?;
    for row in REQUESTS.lines() {
        if let Some((input, wanted)) = row.rsplit_once(" -> ") {
            let bytes = head_in(rt.alloc(), input)?;
            let found = request_said(rt.alloc(), &bytes, &hosts)?;
            assert!(&rt; found.as_str() == wanted, "{row}\ngives: {found}");
        }
    }
    Ok(())
}
