//! Connections as rows of text: what comes, and what is written, where the bytes come in pieces of each length.
//!
//! In a row `^` is CRLF and `$` a line feed. The answerer tells the request line and the body that it was given, under the status that the target
//! has. It doesn't take a request for `/no-403`, and so with the status of each reason. Heads have at most 128 bytes, bodies at most 16, trees 32.
use crate::{Answerer, Asked, Config, Peer, Rejection, Stop};
use http::StatusCode;
use http_server::Response;
use http1::Limits;
use std::alloc::{AllocError, Global};
use std::str;
use std::test::Fail;

const ROWS: &str = "\
# requests (RFC 9112, sections 2.2, 3, 6 and 7.1)
GET /a HTTP/1.1^Host: h^^ -> HTTP/1.1 200 OK^content-length: 16^^GET /a HTTP/1.1|
^^GET /a HTTP/1.1^Host: h^^ -> HTTP/1.1 200 OK^content-length: 16^^GET /a HTTP/1.1|
HEAD /a HTTP/1.1^Host: h^^ -> HTTP/1.1 200 OK^content-length: 17^^
GET /404 HTTP/1.1^Host: h^^ -> HTTP/1.1 404 Not Found^content-length: 18^^GET /404 HTTP/1.1|
PUT /a HTTP/1.1^Host: h^Content-Length: 5^^hello -> HTTP/1.1 200 OK^content-length: 21^^PUT /a HTTP/1.1|hello
PUT /a HTTP/1.1^Host: h^Transfer-Encoding: chunked^^3;x=y^abc^2^de^0^T: v^^ -> HTTP/1.1 200 OK^content-length: 21^^PUT /a HTTP/1.1|abcde
GET /a HTTP/1.1^Host: h^^GET /b HTTP/1.1^Host: h^^ -> HTTP/1.1 200 OK^content-length: 16^^GET /a HTTP/1.1|HTTP/1.1 200 OK^content-length: 16^^GET /b HTTP/1.1|
PUT /a HTTP/1.1^Host: h^Content-Length: 2^^hiPUT /b HTTP/1.1^Host: h^Content-Length: 2^^ho -> HTTP/1.1 200 OK^content-length: 18^^PUT /a HTTP/1.1|hiHTTP/1.1 200 OK^content-length: 18^^PUT /b HTTP/1.1|ho

# what is asked of the connection (RFC 9110, section 10.1.1, and RFC 9112, section 9)
PUT /a HTTP/1.1^Host: h^Expect: 100-continue^Content-Length: 2^^hi -> HTTP/1.1 100 Continue^^HTTP/1.1 200 OK^content-length: 18^^PUT /a HTTP/1.1|hi
GET /a HTTP/1.1^Host: h^Connection: close^^GET /b HTTP/1.1^Host: h^^ -> HTTP/1.1 200 OK^content-length: 16^connection: close^^GET /a HTTP/1.1|
GET /a HTTP/1.0^^GET /b HTTP/1.1^Host: h^^ -> HTTP/1.0 200 OK^content-length: 16^connection: close^^GET /a HTTP/1.0|

# refusals (RFC 9110, section 15.5, and RFC 6585, section 5)
PUT /a HTTP/1.1^Host: h^Content-Length: 17^^ -> HTTP/1.1 413 Payload Too Large^content-type: text/plain; charset=utf-8^connection: close^content-length: 39^^This is larger than this server takes.$
PUT /a HTTP/1.1^Host: h^Transfer-Encoding: chunked^^11^01234567890123456^0^^ -> HTTP/1.1 413 Payload Too Large^content-type: text/plain; charset=utf-8^connection: close^content-length: 39^^This is larger than this server takes.$
LOCK /a HTTP/1.1^Host: h^Content-Length: 17^^01234567890123456 -> HTTP/1.1 200 OK^content-length: 34^^LOCK /a HTTP/1.1|01234567890123456
LOCK /a HTTP/1.1^Host: h^Content-Length: 33^^ -> HTTP/1.1 413 Payload Too Large^content-type: text/plain; charset=utf-8^connection: close^content-length: 39^^This is larger than this server takes.$
PUT /a HTTP/1.1^Host: h^Transfer-Encoding: gzip, chunked^^0^^ -> HTTP/1.1 501 Not Implemented^connection: close^content-length: 0^^
GET /a HTTP/1.1^^ -> HTTP/1.1 400 Bad Request^connection: close^content-length: 0^^
PUT /a HTTP/1.1^Host: h^Content-Length: 2^Transfer-Encoding: chunked^^0^^ -> HTTP/1.1 400 Bad Request^connection: close^content-length: 0^^
GET /a HTTP/1.1^Host: h^^PUT /b HTTP/1.1^Host: h^Content-Length: 2^^h -> HTTP/1.1 200 OK^content-length: 16^^GET /a HTTP/1.1|HTTP/1.1 400 Bad Request^connection: close^content-length: 0^^
GET /0123456789012345678901234567890123456789012345678901234567890123456789012345678901234567890123456789012345678901234567890123456789 HTTP/1.1^ -> HTTP/1.1 414 URI Too Long^connection: close^content-length: 0^^
GET /a HTTP/1.1^Host: h^A: 0123456789012345678901234567890123456789012345678901234567890123456789012345678901234567890123456789012345678901234567890123456789^ -> HTTP/1.1 431 Request Header Fields Too Large^connection: close^content-length: 0^^

# chunks, whose lines state how much comes (RFC 9112, section 7.1)
PUT /a HTTP/1.1^Host: h^Transfer-Encoding: chunked^^FFFFFFFFFFFFFFFF^ -> HTTP/1.1 413 Payload Too Large^content-type: text/plain; charset=utf-8^connection: close^content-length: 39^^This is larger than this server takes.$
PUT /a HTTP/1.1^Host: h^Transfer-Encoding: chunked^^ffffffffffffffff ;x=y^ -> HTTP/1.1 413 Payload Too Large^content-type: text/plain; charset=utf-8^connection: close^content-length: 39^^This is larger than this server takes.$
PUT /a HTTP/1.1^Host: h^Transfer-Encoding: chunked^^1FFFFFFFFFFFFFFFF^ -> HTTP/1.1 400 Bad Request^connection: close^content-length: 0^^
PUT /a HTTP/1.1^Host: h^Transfer-Encoding: chunked^^FFFFFFFFFFFFFFFF -> HTTP/1.1 400 Bad Request^connection: close^content-length: 0^^
PUT /a HTTP/1.1^Host: h^Transfer-Encoding: chunked^^11^ -> HTTP/1.1 413 Payload Too Large^content-type: text/plain; charset=utf-8^connection: close^content-length: 39^^This is larger than this server takes.$
PUT /a HTTP/1.1^Host: h^Transfer-Encoding: chunked^^3^abc^E^ -> HTTP/1.1 413 Payload Too Large^content-type: text/plain; charset=utf-8^connection: close^content-length: 39^^This is larger than this server takes.$
PUT /a HTTP/1.1^Host: h^Transfer-Encoding: chunked^^3^abc^D^ -> HTTP/1.1 400 Bad Request^connection: close^content-length: 0^^
PUT /a HTTP/1.1^Host: h^Transfer-Encoding: chunked^^3^abc^0000000000000000000D^0123456789012^0^^ -> HTTP/1.1 200 OK^content-length: 32^^PUT /a HTTP/1.1|abc0123456789012
PUT /a HTTP/1.1^Host: h^Transfer-Encoding: chunked^^0^FFFFFFFFFFFFFFFF^ -> HTTP/1.1 400 Bad Request^connection: close^content-length: 0^^
LOCK /a HTTP/1.1^Host: h^Transfer-Encoding: chunked^^20^ -> HTTP/1.1 400 Bad Request^connection: close^content-length: 0^^
LOCK /a HTTP/1.1^Host: h^Transfer-Encoding: chunked^^21^ -> HTTP/1.1 413 Payload Too Large^content-type: text/plain; charset=utf-8^connection: close^content-length: 39^^This is larger than this server takes.$
HEAD /a HTTP/1.1^Host: h^Transfer-Encoding: chunked^^11^ -> HTTP/1.1 413 Payload Too Large^content-type: text/plain; charset=utf-8^connection: close^content-length: 39^^

# rejections, of the head alone (RFC 9110, sections 10.1.1 and 15)
PUT /no-403 HTTP/1.1^Host: h^Content-Length: 5^^hello -> HTTP/1.1 403 Forbidden^content-type: text/plain; charset=utf-8^connection: close^content-length: 40^^This isn't allowed here, or not to you.$
PUT /no-403 HTTP/1.1^Host: h^Content-Length: 5^^ -> HTTP/1.1 403 Forbidden^content-type: text/plain; charset=utf-8^connection: close^content-length: 40^^This isn't allowed here, or not to you.$
PUT /no-403 HTTP/1.1^Host: h^Expect: 100-continue^Content-Length: 5^^ -> HTTP/1.1 403 Forbidden^content-type: text/plain; charset=utf-8^connection: close^content-length: 40^^This isn't allowed here, or not to you.$
PUT /no-415 HTTP/1.1^Host: h^Transfer-Encoding: chunked^^5^hello^0^^ -> HTTP/1.1 415 Unsupported Media Type^connection: close^content-length: 0^^
PUT /no-400 HTTP/1.1^Host: h^Content-Length: 5^^ -> HTTP/1.1 400 Bad Request^connection: close^content-length: 0^^
PUT /no-401 HTTP/1.1^Host: h^Content-Length: 5^^ -> HTTP/1.1 401 Unauthorized^www-authenticate: Basic realm=\"vuldarg\", charset=\"UTF-8\"^content-type: text/plain; charset=utf-8^connection: close^content-length: 48^^Who are you? Log in with a name and a password.$
GET /no-421 HTTP/1.1^Host: h^^GET /a HTTP/1.1^Host: h^^ -> HTTP/1.1 421 Misdirected Request^content-type: text/plain; charset=utf-8^connection: close^content-length: 50^^This server hasn't that name, or not that folder.$
PUT /no-429 HTTP/1.1^Host: h^Expect: 100-continue^Content-Length: 5^^ -> HTTP/1.1 429 Too Many Requests^retry-after: 60^content-type: text/plain; charset=utf-8^connection: close^content-length: 43^^Too many wrong logins: wait and try again.$
HEAD /no-501 HTTP/1.1^Host: h^^ -> HTTP/1.1 501 Not Implemented^connection: close^content-length: 0^^
GET /a HTTP/1.1^Host: h^^PUT /no-503 HTTP/1.0^Content-Length: 5^^ -> HTTP/1.1 200 OK^content-length: 16^^GET /a HTTP/1.1|HTTP/1.1 503 Service Unavailable^retry-after: 1^content-type: text/plain; charset=utf-8^connection: close^content-length: 41^^This can't be taken now: try again soon.$
HEAD /no-403 HTTP/1.1^Host: h^^ -> HTTP/1.1 403 Forbidden^content-type: text/plain; charset=utf-8^connection: close^content-length: 40^^
HEAD /a HTTP/1.1^Host: h^Content-Length: 17^^ -> HTTP/1.1 413 Payload Too Large^content-type: text/plain; charset=utf-8^connection: close^content-length: 39^^
PUT /no-403 HTTP/1.1^Host: h^Content-Length: 17^^ -> HTTP/1.1 413 Payload Too Large^content-type: text/plain; charset=utf-8^connection: close^content-length: 39^^This is larger than this server takes.$

# where there is room for 4 bytes of a body (RFC 9110, sections 10.2.3 and 15.6.4)
PUT /a HTTP/1.1^Host: h^Content-Length: 4^^hell -> HTTP/1.1 200 OK^content-length: 20^^PUT /a HTTP/1.1|hell
PUT /a HTTP/1.1^Host: h^Content-Length: 5^^hello -> HTTP/1.1 503 Service Unavailable^retry-after: 1^content-type: text/plain; charset=utf-8^connection: close^content-length: 41^^This can't be taken now: try again soon.$
PUT /a HTTP/1.1^Host: h^Expect: 100-continue^Content-Length: 5^^ -> HTTP/1.1 503 Service Unavailable^retry-after: 1^content-type: text/plain; charset=utf-8^connection: close^content-length: 41^^This can't be taken now: try again soon.$
LOCK /a HTTP/1.1^Host: h^Content-Length: 5^^hello -> HTTP/1.1 503 Service Unavailable^retry-after: 1^content-type: text/plain; charset=utf-8^connection: close^content-length: 41^^This can't be taken now: try again soon.$
PUT /a HTTP/1.1^Host: h^Transfer-Encoding: chunked^^3^abc^1^d^0^^ -> HTTP/1.1 200 OK^content-length: 20^^PUT /a HTTP/1.1|abcd
PUT /a HTTP/1.1^Host: h^Transfer-Encoding: chunked^^3^abc^2^de^0^^ -> HTTP/1.1 503 Service Unavailable^retry-after: 1^content-type: text/plain; charset=utf-8^connection: close^content-length: 41^^This can't be taken now: try again soon.$
PUT /a HTTP/1.1^Host: h^Expect: 100-continue^Transfer-Encoding: chunked^^5^abcde -> HTTP/1.1 100 Continue^^HTTP/1.1 503 Service Unavailable^retry-after: 1^content-type: text/plain; charset=utf-8^connection: close^content-length: 41^^This can't be taken now: try again soon.$
GET /a HTTP/1.1^Host: h^^PUT /a HTTP/1.1^Host: h^Content-Length: 4^^hellGET /b HTTP/1.1^Host: h^Content-Length: 0^^ -> HTTP/1.1 200 OK^content-length: 16^^GET /a HTTP/1.1|HTTP/1.1 200 OK^content-length: 20^^PUT /a HTTP/1.1|hellHTTP/1.1 200 OK^content-length: 16^^GET /b HTTP/1.1|
PUT /a HTTP/1.1^Host: h^Content-Length: 17^^ -> HTTP/1.1 413 Payload Too Large^content-type: text/plain; charset=utf-8^connection: close^content-length: 39^^This is larger than this server takes.$
PUT /a HTTP/1.1^Host: h^Transfer-Encoding: chunked^^5^ -> HTTP/1.1 503 Service Unavailable^retry-after: 1^content-type: text/plain; charset=utf-8^connection: close^content-length: 41^^This can't be taken now: try again soon.$
PUT /a HTTP/1.1^Host: h^Transfer-Encoding: chunked^^3^abc^2^ -> HTTP/1.1 503 Service Unavailable^retry-after: 1^content-type: text/plain; charset=utf-8^connection: close^content-length: 41^^This can't be taken now: try again soon.$
PUT /a HTTP/1.1^Host: h^Transfer-Encoding: chunked^^3^abc^1^ -> HTTP/1.1 400 Bad Request^connection: close^content-length: 0^^
PUT /a HTTP/1.1^Host: h^Transfer-Encoding: chunked^^11^ -> HTTP/1.1 413 Payload Too Large^content-type: text/plain; charset=utf-8^connection: close^content-length: 39^^This is larger than this server takes.$

# a response that can't be sent
GET /101 HTTP/1.1^Host: h^^ -> HTTP/1.1 500 Internal Server Error^connection: close^content-length: 0^^
";

const CONFIG: Config = Config {
    limits: Limits {
        max_head_len: 128,
        max_extensions_len: 16,
        max_trailers_len: 64,
    },
    max_body_len: 16,
    max_tree_len: 32,
    max_pending: 64,
};

// Answers with the request line and the body.
#[derive(Drop)]
struct Echo(Global);

impl Answerer for Echo {
    ghost judges = { λ old head verdict new. Unit {0} };

    ghost answers = { λ old asked response new. Unit {0} };

    fn judge(&mut self, head: &[u8]) -> Result<Option<Rejection>, Stop> {
        Ok(rejection_in(line_of(head)))
    }

    fn hear_refused(&mut self, _head: &[u8], _status: u16) {}

    fn answer(&mut self, asked: &Asked, response: &mut Response) -> Result<(), Stop> {
        let line = line_of(asked.head.as_slice());
        if let Some(status) = status_in(line) {
            response.status = status;
        }
        let mut text = Vec::from_slice(self.0, line)?;
        text.push(b'|')?;
        text.extend_from_slice(asked.body.as_slice())?;
        response.body.push(bytes::Bytes::from_vec(text)?)?;
        Ok(())
    }
}

// The request line of a head.
fn line_of(head: &[u8]) -> &[u8] {
    head.trim_ascii_start()
        .split(|b| *b == b'\r')
        .next()
        .unwrap_or(&[])
}

// Why a request for this target isn't taken.
fn rejection_in(line: &[u8]) -> Option<Rejection> {
    let target = line.split(|b| *b == b' ').nth(1)?;
    match target.strip_prefix(b"/no-".as_slice())? {
        b"400" => Some(Rejection::BadRequest),
        b"401" => Some(Rejection::Unauthorized),
        b"403" => Some(Rejection::Forbidden),
        b"415" => Some(Rejection::UnsupportedMediaType),
        b"421" => Some(Rejection::Misdirected),
        b"429" => Some(Rejection::TooManyRequests),
        b"501" => Some(Rejection::NotImplemented),
        b"503" => Some(Rejection::Unavailable),
        _ => None,
    }
}

// The status that a target has.
fn status_in(line: &[u8]) -> Option<StatusCode> {
    let target = line.split(|b| *b == b' ').nth(1)?;
    let number = str::from_utf8(target.get(1..)?).ok()?;
    StatusCode::from_u16(number.parse::<u16>().ok()?).ok()
}

// The bytes of a text in a row.
fn unescaped(alloc: Global, text: &str) -> Result<Vec<u8>, AllocError> {
    let mut out = Vec::new(alloc);
    for byte in text.as_bytes() {
        if *byte == b'^' {
            out.extend_from_slice(b"\r\n")?;
        } else if *byte == b'$' {
            out.push(b'\n')?;
        } else {
            out.push(*byte)?;
        }
    }
    Ok(out)
}

// Sends all that waits, and lets the connection answer again.
fn drain(peer: &mut Peer, echo: &mut Echo, room: usize, out: &mut Vec<u8>) -> Result<(), Stop> {
    for _ in 0..64 {
        peer.advance(echo, room)?;
        if peer.waiting() == 0 {
            break;
        }
        let piece = peer.output();
        let count = piece.len().min(10);
        out.extend_from_slice(piece.get(..count).unwrap_or(&[]))?;
        peer.sent(count);
    }
    Ok(())
}

// What is written where these bytes come in pieces of a length, and then their end.
fn written(alloc: Global, input: &[u8], step: usize, room: usize) -> Result<Vec<u8>, Stop> {
    let mut peer = Peer::new(alloc, CONFIG);
    let mut echo = Echo(alloc);
    let mut out = Vec::new(alloc);
    for piece in input.chunks(step.max(1)) {
        peer.take(piece)?;
        drain(&mut peer, &mut echo, room, &mut out)?;
    }
    peer.take(b"")?;
    drain(&mut peer, &mut echo, room, &mut out)?;
    if peer.is_open() {
        out.extend_from_slice(b" and is open")?;
    }
    Ok(out)
}

// For how many bytes there is room in the rows with this title.
fn room_in(title: &str) -> usize {
    if title.starts_with("where there is room for 4 ") {
        4
    } else {
        usize::MAX
    }
}

#[test]
fn rows_are_told(rt: HostRuntime) -> Result<(), Fail> {
    let (mut count, mut room) = (0usize, usize::MAX);
    for row in ROWS.lines() {
        if let Some(title) = row.strip_prefix("# ") {
            room = room_in(title);
        }
        if let Some((input, wanted)) = row.split_once(" -> ") {
            let input = unescaped(rt.alloc(), input)?;
            let wanted = unescaped(rt.alloc(), wanted)?;
            for step in [1, 2, 7, 1000] {
                let found = written(rt.alloc(), &input, step, room).map_err(|_| "stopped")?;
                assert!(rt;
                    found.as_slice() == wanted.as_slice(),
                    "{row} in pieces of {step}"
                );
            }
            count = count.saturating_add(1);
        }
    }
    assert!(rt; count == 60, "{count} rows");
    Ok(())
}
