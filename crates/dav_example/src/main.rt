//! A WebDAV server without a socket: the bytes of three requests in, the replies as text out (RFC
//! 9110; RFC 4918).
#![tactic(auto)]

ghost use Rattle.std.specs.Prelude.{IfOk};
ghost use Rattle.dav_example.specs.Example.{IsAnswered};

use anyhow::Result;
use bytes::{Buf, Bytes};
use dav_engine::Caller;
use dav_http::{Handler, Head, Store, present, send};
use http_server::Response;
use std::alloc::Global;
use std::io::{self, Write};

/// A file is stored, and read again.
const PUT: &[u8] = b"PUT /letter.txt HTTP/1.1\r\n\r\n";

const LETTER: &[u8] = b"Dear Ben\n";

const GET: &[u8] = b"GET /letter.txt HTTP/1.1\r\n\r\n";

/// A question for two properties of it (RFC 4918, section 9.1).
const PROPFIND: &[u8] = b"PROPFIND /letter.txt HTTP/1.1\r\nDepth: 0\r\n\r\n";

const PROPERTIES: &[u8] =
    b"<propfind xmlns='DAV:'><prop><getcontentlength/><getetag/></prop></propfind>";

// The response to a request that anna makes in September 2001.
fn answer(alloc: Global, server: &mut Handler, head: &[u8], body: Bytes) -> Result<Response>
    ensures { IfOk result (λ response.
        IsAnswered server.old.server head.now body response server.new.server) }
{
    let caller = Caller {
        principal: Some("anna"),
        moment: 1_000_000_000,
        token: None,
    };
    let reply = server.handle(alloc, head, body.clone()?, &caller)?;
    let mut response = Response::new(alloc);
    match Head::read(head) {
        Some(read) => {
            let bytes = body.as_slice();
            let store = Store {
                server,
                place: None,
                available: 1_000_000,
            };
            present(
                alloc,
                &read,
                bytes,
                caller.moment,
                store,
                reply,
                &mut response,
            )?;
        }
        None => send(alloc, reply, false, &mut response)?,
    }
    Ok(response)
}

// Writes a response: its status, a line for each field, an empty line, and the bytes of its body.
fn write_response<W: Write>(out: &mut W, response: &Response) -> Result<()> {
    writeln!(out, "{}", response.status.as_u16())?;
    for (name, value) in response.headers.iter() {
        write!(out, "{name}: ")?;
        out.write_all(value.as_bytes())?;
        out.write_all(b"\n")?;
    }
    out.write_all(b"\n")?;
    out.write_all(response.body.chunk())?;
    out.write_all(b"\n")?;
    Ok(())
}

fn main(rt: HostRuntime) -> Result<()> {
    let alloc = rt.alloc();
    let mut out = io::writer(&rt);
    let mut server = Handler::new(alloc, "")?;
    for (head, body) in [(PUT, LETTER), (GET, b"".as_slice()), (PROPFIND, PROPERTIES)] {
        let response = answer(alloc, &mut server, head, Bytes::from_static(body))?;
        write_response(&mut out, &response)?;
    }
    Ok(())
}
