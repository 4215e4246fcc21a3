//! How much is at paths and below them, through the requests of a session, and which requests would pass limits, as rows. In a row `^`
//! is CRLF.
use super::requests::{parts, unescaped};
use bytes::Bytes;
use dav_access::{Limit, Measure};
use dav_core::davpath::DavPath;
use dav_core::errors::NoMemory;
use dav_engine::Caller;
use dav_http::{HandleError, Handler};
use dav_limits::{Watches, is_past};
use std::alloc::Global;
use std::marker::Model;
use std::mem;
use std::test::Fail;

// A session, and how many files and folders, and how many bytes, are at `/`, at `/a` and at `/a/d`, and below them, after each request
// (RFC 4331, section 4).
const SESSION: &str = "\
MKCOL /a HTTP/1.1^^ -> 2 0, 1 0, 0 0
PUT /a/f HTTP/1.1^^hello -> 3 5, 2 5, 0 0
PUT /a/f HTTP/1.1^^hello, you -> 3 10, 2 10, 0 0
PUT /a/f HTTP/1.1^^hi -> 3 2, 2 2, 0 0
PATCH /a/f HTTP/1.1^Content-Type: application/x-sabredav-partialupdate^X-Update-Range: append^Content-Length: 3^^abc -> 3 5, 2 5, 0 0
PATCH /a/f HTTP/1.1^Content-Type: application/x-sabredav-partialupdate^X-Update-Range: bytes=7-9^Content-Length: 3^^abc -> 3 10, 2 10, 0 0
PUT /missing/f HTTP/1.1^^x -> 3 10, 2 10, 0 0
PUT /b HTTP/1.1^^x -> 4 11, 2 10, 0 0
MKCOL /a/d HTTP/1.1^^ -> 5 11, 3 10, 1 0
COPY /a/f HTTP/1.1^Destination: /a/d/g^^ -> 6 21, 4 20, 2 10
COPY /a/d HTTP/1.1^Destination: /a/d/e^^ -> 8 31, 6 30, 4 20
DELETE /a/d/e HTTP/1.1^^ -> 6 21, 4 20, 2 10
COPY /a/d HTTP/1.1^Destination: /e^^ -> 8 31, 4 20, 2 10
COPY /a/d HTTP/1.1^Destination: /e^Depth: 0^^ -> 8 31, 4 20, 2 10
DELETE /e/g HTTP/1.1^^ -> 7 21, 4 20, 2 10
MOVE /e HTTP/1.1^Destination: /a/d/e^^ -> 7 21, 5 20, 3 10
MOVE /a/d/g HTTP/1.1^Destination: /b^^ -> 6 20, 4 10, 2 0
MOVE /a/f HTTP/1.1^Destination: /a/d/f^^ -> 6 20, 4 10, 3 10
MOVE /a/d HTTP/1.1^Destination: /d^^ -> 6 20, 1 0, 0 0
MOVE /d HTTP/1.1^Destination: /a^^ -> 5 20, 3 10, 0 0
PROPPATCH /a HTTP/1.1^^<propertyupdate xmlns='DAV:'><set><prop><x xmlns='u:'>text</x></prop></set></propertyupdate> -> 5 30, 3 20, 0 0
LOCK /a/n HTTP/1.1^^<lockinfo xmlns='DAV:'><lockscope><exclusive/></lockscope><locktype><write/></locktype></lockinfo> -> 6 30, 4 20, 0 0
GET /a/f HTTP/1.1^^ -> 6 30, 4 20, 0 0
not a head -> 6 30, 4 20, 0 0
DELETE /a/e HTTP/1.1^^ -> 5 30, 3 20, 0 0
DELETE /a HTTP/1.1^^ -> 5 30, 3 20, 0 0
DELETE /b HTTP/1.1^^ -> 4 20, 3 20, 0 0
";

// Limits as `measure path most`, and which requests would pass them, where `/a`, a folder, has the file `/a/f` of five bytes, and `/b`
// the two `/b/f` and `/b/g` of three: with the folder `/` there are six (RFC 4918, section 11.5).
const PAST: &str = "\
# at the limit, and one more (RFC 4331, section 6)
files /a 3; PUT /a/g HTTP/1.1^^x -> no
files /a 2; PUT /a/g HTTP/1.1^^x -> yes
files /a 2; PUT /a/f HTTP/1.1^^x -> no
files /a 2; PUT /b/h HTTP/1.1^^x -> no
files / 7; PUT /c HTTP/1.1^^x -> no
files / 6; PUT /c HTTP/1.1^^x -> yes
files / 7; MKCOL /c HTTP/1.1^^ -> no
files / 6; MKCOL /c HTTP/1.1^^ -> yes
space /a 9; PUT /a/g HTTP/1.1^^four -> no
space /a 8; PUT /a/g HTTP/1.1^^four -> yes
space /a 8; PUT /a/g/../g HTTP/1.1^^four -> yes
space /a 8; PUT /%61/g HTTP/1.1^^four -> yes
# over a file that is there
space /a 5; PUT /a/f HTTP/1.1^^12345 -> no
space /a 5; PUT /a/f HTTP/1.1^^123456 -> yes
space /a 2; PUT /a/f HTTP/1.1^^12345 -> no
space /a 2; PUT /a/f HTTP/1.1^^123456 -> yes
space /a 2; PUT /a/g HTTP/1.1^^ -> no
# parts of a file
space /a 8; PATCH /a/f HTTP/1.1^X-Update-Range: append^^abc -> no
space /a 7; PATCH /a/f HTTP/1.1^X-Update-Range: append^^abc -> yes
space /a 5; PATCH /a/f HTTP/1.1^X-Update-Range: bytes=2-4^^abc -> no
space /a 10; PATCH /a/f HTTP/1.1^X-Update-Range: bytes=7-^^abc -> no
space /a 9; PATCH /a/f HTTP/1.1^X-Update-Range: bytes=7-^^abc -> yes
space /a 7; PATCH /a/f HTTP/1.1^X-Update-Range: bytes=-1^^abc -> yes
space /a 9; PUT /a/f HTTP/1.1^Content-Range: bytes 7-9/*^^abc -> yes
space /a 9; PUT /a/f HTTP/1.1^Content-Range: bytes 18446744073709551615-18446744073709551615/*^^a -> yes
# folders, locks
files /a 2; MKCOL /a/d HTTP/1.1^^ -> yes
files /a 2; LOCK /a/n HTTP/1.1^^ -> yes
files /a 2; LOCK /a/f HTTP/1.1^^ -> no
space /a 5; MKCOL /a/d HTTP/1.1^^ -> no
# copies: all of the source, in what holds the destination
space /a 11; COPY /b HTTP/1.1^Destination: /a/b^^ -> no
space /a 10; COPY /b HTTP/1.1^Destination: /a/b^^ -> yes
files /a 5; COPY /b HTTP/1.1^Destination: /a/b^^ -> no
files /a 4; COPY /b HTTP/1.1^Destination: /a/b^^ -> yes
space /b 6; COPY /b HTTP/1.1^Destination: /a/b^^ -> no
space /a 5; COPY /a HTTP/1.1^Destination: /c^^ -> no
space /a 5; COPY /a/f HTTP/1.1^^ -> no
# moves: not in what holds the source too
space /a 10; MOVE /b HTTP/1.1^Destination: /a/b^^ -> yes
space /a 5; MOVE /a/f HTTP/1.1^Destination: /a/g^^ -> no
space / 11; MOVE /b HTTP/1.1^Destination: /a/b^^ -> no
files / 5; MOVE /b HTTP/1.1^Destination: /a/b^^ -> no
# properties: twice the bytes of what is set, with `set` and `prop`; what is removed adds none
space / 28; PROPPATCH /a HTTP/1.1^^<a><set><prop><b/></prop></set></a> -> no
space / 26; PROPPATCH /a HTTP/1.1^^<a><set><prop><b/></prop></set></a> -> yes
space /a 21; PROPPATCH /a/f HTTP/1.1^^<a><set><prop><b/></prop></set></a> -> no
space /a 20; PROPPATCH /a/f HTTP/1.1^^<a><set><prop><b/></prop></set></a> -> yes
space /a 22; PROPPATCH /a/f HTTP/1.1^^<a><set><prop><b/></prop></set><set/></a> -> yes
space /b 6; PROPPATCH /a/f HTTP/1.1^^<a><set><prop><b/></prop></set></a> -> no
space / 0; PROPPATCH /a HTTP/1.1^^<a><remove><prop><b/></prop></remove></a> -> no
space / 0; PROPPATCH /a HTTP/1.1^^<a><set> -> no
# what adds nothing
space / 0; GET /a/f HTTP/1.1^^ -> no
space / 0; DELETE /a/f HTTP/1.1^^ -> no
files / 0; PROPPATCH /a HTTP/1.1^^<a/> -> no
files / 0; OPTIONS * HTTP/1.1^^ -> no
files / 0; BREW /a HTTP/1.1^^ -> no
files / 0; not a head -> no
# several
files /a 9, space /a 5; PUT /a/g HTTP/1.1^^x -> yes
files /a 2, space /a 9; PUT /a/g HTTP/1.1^^x -> yes
files /a 9, space /a 9; PUT /a/g HTTP/1.1^^x -> no
space /b 0, space / 99; PUT /a/g HTTP/1.1^^x -> no
";

// A server, and how much is at the paths of its limits.
#[derive(Drop)]
struct Watched {
    server: Handler,
    watches: Watches,
}

impl Model for Watched {
    ghost use Rattle.std.specs.Bool.{⊤};
    ghost use Rattle.dav_limits.specs.Watches.{AreExact};

    ghost Value = { ⊤ };

    ghost view = { λ _. tt };

    ghost invariant = { λ w. AreExact w.server.server w.watches };
}

impl Watched {
    // A new server with these limits.
    fn new(alloc: Global, limits: &[Limit]) -> Result<Watched, Fail> {
        let server = Handler::new(alloc, "")?;
        let watches = Watches::of(alloc, &server, limits)?;
        Ok(Watched { server, watches })
    }

    // Has the server run a request, given as a head and a body.
    fn run(&mut self, alloc: Global, bytes: &[u8]) -> Result<(), HandleError> {
        let (head, body) = parts(bytes);
        let caller = Caller {
            principal: None,
            moment: 1_000_000_000,
            token: Some("urn:uuid:1"),
        };
        let body = Bytes::copy_from_slice(alloc, body)?;
        let watches = mem::replace(&mut self.watches, Watches::new(alloc));
        let noted = watches.noted(alloc, &self.server, head)?;
        self.server.handle(alloc, head, body, &caller)?;
        self.watches = noted.renewed(alloc, &self.server)?;
        Ok(())
    }

    // How many files and folders, and how many bytes, are known to be at a path and below it, and whether as many are counted anew.
    fn amount_at(&self, alloc: Global, path: &DavPath) -> Result<(u64, u64, bool), NoMemory> {
        let known = self.watches.amount_at(alloc, &self.server, path)?;
        let counted = self.server.amount_at(alloc, path)?;
        Ok((known.files, known.bytes, counted == known))
    }

    // Whether a request, given as a head and a body, would pass one of these limits: by what is known, and counted anew.
    fn is_past(
        &self,
        alloc: Global,
        limits: &[Limit],
        bytes: &[u8],
    ) -> Result<(bool, bool), NoMemory> {
        let (head, body) = parts(bytes);
        let none = Watches::new(alloc);
        let known = is_past(alloc, limits, &self.watches, &self.server, head, body)?;
        Ok((
            known,
            is_past(alloc, limits, &none, &self.server, head, body)?,
        ))
    }
}

// A limit.
fn limit(alloc: Global, measure: &str, path: &str, most: &str) -> Result<Limit, Fail> {
    Ok(Limit {
        path: DavPath::new(alloc, path)?,
        measure: if measure == "files" {
            Measure::Files
        } else {
            Measure::Space
        },
        most: most.parse::<u64>()?,
    })
}

// Limits, as `measure path most`, with a comma between two.
fn limits(alloc: Global, text: &str) -> Result<Vec<Limit>, Fail> {
    let mut limits = Vec::new(alloc);
    for one in text.split(", ") {
        let (measure, rest) = one.split_once(' ').ok_or("no measure")?;
        let (path, most) = rest.split_once(' ').ok_or("no path")?;
        limits.push(limit(alloc, measure, path, most)?)?;
    }
    Ok(limits)
}

// How much is at `/`, `/a` and `/a/d`, and below them; and how often what is known isn't what is counted anew.
fn amounts(alloc: Global, watched: &Watched) -> Result<(String, usize), Fail> {
    let mut text = String::new(alloc);
    let mut wrong = 0usize;
    for place in ["/", "/a", "/a/d"] {
        let path = DavPath::new(alloc, place)?;
        let (files, bytes, is_same) = watched.amount_at(alloc, &path)?;
        if !is_same {
            wrong = wrong.saturating_add(1);
        }
        let comma = if text.is_empty() { "" } else { ", " };
        text.push_str(format!(in alloc; "{comma}{files} {bytes}")?.as_str())?;
    }
    Ok((text, wrong))
}

// A server with `/a/f`, `/b/f` and `/b/g`, and these limits.
fn filled(alloc: Global, limits: &[Limit]) -> Result<Watched, Fail> {
    let mut watched = Watched::new(alloc, limits)?;
    for bytes in [
        "MKCOL /a HTTP/1.1\r\n\r\n",
        "PUT /a/f HTTP/1.1\r\n\r\n12345",
        "MKCOL /b HTTP/1.1\r\n\r\n",
        "PUT /b/f HTTP/1.1\r\n\r\n123",
        "PUT /b/g HTTP/1.1\r\n\r\n123",
    ] {
        watched.run(alloc, bytes.as_bytes())?;
    }
    Ok(watched)
}

#[test]
fn amounts_are_known_through_a_session(rt: HostRuntime) -> Result<(), Fail> {
    let alloc = rt.alloc();
    let listed = limits(alloc, "files / 9, files /a 9, space /a/d 9")?;
    let mut watched = Watched::new(alloc, &listed)?;
    for row in SESSION.lines() {
        let (input, wanted) = row.split_once(" -> ").ok_or("a row without an end")?;
        let bytes = unescaped(alloc, input)?;
        watched.run(alloc, &bytes)?;
        let (found, wrong) = amounts(alloc, &watched)?;
        assert!(rt;
            found.as_str() == wanted && wrong == 0,
            "{row}: {found}, {wrong} wrong"
        );
    }
    Ok(())
}

#[test]
fn requests_past_limits_are_named(rt: HostRuntime) -> Result<(), Fail> {
    let alloc = rt.alloc();
    for row in PAST.lines() {
        if let Some((input, wanted)) = row.split_once(" -> ") {
            let (listed, request) = input.split_once("; ").ok_or("a row without limits")?;
            let listed = limits(alloc, listed)?;
            let watched = filled(alloc, &listed)?;
            let bytes = unescaped(alloc, request)?;
            let (known, counted) = watched.is_past(alloc, &listed, &bytes)?;
            let is = wanted == "yes";
            assert!(rt; known == is && counted == is, "{row}: {known}, {counted}");
        }
    }
    Ok(())
}
