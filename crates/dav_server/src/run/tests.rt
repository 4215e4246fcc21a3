//! Runs whose replies were worked out by hand from RFC 9110.
ghost use Rattle.std.specs.Prelude.{◌≡◌, IfOk};
ghost use Rattle.dav_server.specs.Headline.{empty_server};

use super::*;
use crate::asserting::same;
use crate::davhandler::tests::{lockless_server, shown};
use crate::exchange::BadMoment;
use bytes::Bytes;
use dav_core::method::DavMethodSet;
use dav_engine::Body;
use std::test::Fail;

// A request one second after 1970 began. An empty body is none.
fn exchange(head: &'static [u8], body: &'static [u8]) -> Result<Exchange<'static>, BadMoment> {
    let body = if body.is_empty() {
        Body::None
    } else {
        Body::Bytes(Bytes::from_static(body))
    };
    Exchange::new(head, body, None, 1, None)
}

// A server with locks, of a new store that refuses calls by a list: it is empty, so the headline holds of its runs.
fn refusing_server(alloc: Global) -> Result<DavHandler<Refusing<MemFs>, MemLs>, Fail>
    ensures { IfOk result (λ handler. handler.server ≡ empty_server handler.server.settings) }
{
    let fs = Refusing::new(MemFs::new(alloc)?);
    let ls = MemLs::new(alloc)?;
    Ok(DavHandler::new(alloc, "", DavMethodSet::all(), fs, Some(ls))?)
}

// The replies of such a server to a run.
fn replies_to(alloc: Global, steps: Vec<Step<'_>>) -> Result<Vec<Reply>, Fail> {
    let mut server = refusing_server(alloc)?;
    match run_refused(&mut server, alloc, steps) {
        Ok(replies) => Ok(replies),
        Err(_) => Err(NoMemory)?,
    }
}

// All replies, one after another.
fn all_shown(alloc: Global, replies: &[Reply]) -> Result<String, Fail> {
    let mut all = String::new(alloc);
    for reply in replies {
        all.push_str(shown(alloc, reply)?.as_str())?;
        all.push_str("\n")?;
    }
    Ok(all)
}

// A folder that was made, a file that was stored in it, and that file, by a server without locks.
const STORED_AND_READ: &str = "201

201
accept-ranges: bytes
content-length: 0
etag: \"3\"
last-modified: Thu, 01 Jan 1970 00:00:01 GMT

200
content-length: 3
content-type: application/octet-stream
etag: \"3\"
last-modified: Thu, 01 Jan 1970 00:00:01 GMT

one
";

#[test]
fn runs_requests_in_order(rt: HostRuntime) -> Result<(), Fail> {
    let mut server = lockless_server(rt.alloc())?;
    let exchanges = [
        exchange(b"MKCOL /d HTTP/1.1\r\n\r\n", b"")?,
        exchange(b"PUT /d/a HTTP/1.1\r\nContent-Length: 3\r\n\r\n", b"one")?,
        exchange(b"GET /d/a HTTP/1.1\r\n\r\n", b"")?,
    ];
    let replies = server.run(rt.alloc(), &exchanges).map_err(|_| NoMemory)?;
    same(
        &rt,
        &all_shown(rt.alloc(), &replies)?.as_str(),
        &STORED_AND_READ,
    );
    Ok(())
}

// The file of one byte keeps none of them: the write is refused after the truncation. The entry after it isn't used up, and
// the next request doesn't meet it.
const CUT_SHORT: &str = "201
accept-ranges: bytes
content-length: 0
etag: \"2\"
last-modified: Thu, 01 Jan 1970 00:00:01 GMT

507
content-length: 0

200
content-length: 0
content-type: application/octet-stream
etag: \"3\"
last-modified: Thu, 01 Jan 1970 00:00:01 GMT


";

// A PUT, the same again with these refusals, and a GET.
fn steps(alloc: Global, refusals: Vec<Option<FsError>>) -> Result<Vec<Step<'static>>, Fail> {
    let put = b"PUT /a HTTP/1.1\r\n\r\n";
    let mut steps = Vec::new(alloc);
    steps.push(Step {
        exchange: exchange(put, b"x")?,
        refusals: Vec::new(alloc),
    })?;
    steps.push(Step {
        exchange: exchange(put, b"y")?,
        refusals,
    })?;
    steps.push(Step {
        exchange: exchange(b"GET /a HTTP/1.1\r\n\r\n", b"")?,
        refusals: Vec::new(alloc),
    })?;
    Ok(steps)
}

#[test]
fn keeps_what_a_refused_write_left(rt: HostRuntime) -> Result<(), Fail> {
    let refusals = vec![in rt.alloc();
        None,
        None,
        Some(FsError::InsufficientStorage),
        Some(FsError::Forbidden),
    ]?;
    let steps = steps(rt.alloc(), refusals)?;
    let replies = replies_to(rt.alloc(), steps)?;
    same(&rt, &all_shown(rt.alloc(), &replies)?.as_str(), &CUT_SHORT);
    Ok(())
}
