//! Which part of a request names what is elsewhere, as rows of text.
use crate::{Part, elsewhere_in, first_folder};
use std::alloc::Global;
use std::test::Fail;

// A request, its fields after bars; the part of it that names what is elsewhere, or `-`, where `/a` and `/b c` alone are here, below `/dav`.
const HEADS: &str = "\
# at a folder and below it
GET /dav/a -> -
GET /dav/a/ -> -
GET /dav/a/x/y -> -
PROPFIND /dav/b%20c/x -> -
PUT /dav/a/x -> -
DELETE /dav/a -> -
UNLOCK /dav/a/x -> -
# elsewhere, and a name that only begins alike
GET /dav/b -> target
GET /dav/ab -> target
GET /dav/a%20 -> target
GET /dav/A -> target
PUT /dav/b/a -> target
MKCOL /dav/other -> target
LOCK /dav/x -> target
UNLOCK /dav/x -> target
PATCH /dav/x -> target
PROPPATCH /dav/x -> target
# the folder at the top has all
GET /dav -> target
PROPFIND /dav/ -> target
OPTIONS /dav/ -> target
OPTIONS * -> -
# spellings of a path
GET /dav//a -> -
GET /dav/./a -> -
GET /dav/%61/x -> -
GET /dav/b/../a -> -
GET /dav/a/.. -> target
GET /dav/a/%2e%2e/b -> target
GET /dav/a/../b -> target
GET http://h/dav/a -> -
GET http://h/dav/b -> target
GET /dav/a?b -> -
# Destination, of COPY and MOVE
COPY /dav/a/x | Destination: /dav/a/y -> -
COPY /dav/a/x | Destination: /dav/b%20c -> -
COPY /dav/a/x | Destination: /dav/b/x -> destination
MOVE /dav/a/x | Destination: http://h/dav/b/x -> destination
MOVE /dav/a | Destination: /dav/a/../ab -> destination
COPY /dav/a/x | Destination: /dav/ -> destination
COPY /dav/b/x | Destination: /dav/a/x -> target
PUT /dav/a/x | Destination: /dav/b/x -> -
COPY /dav/a/x -> -
COPY /dav/a/x | Destination: /other -> -
# paths of If
PUT /dav/a/x | If: (<urn:uuid:1>) -> -
PUT /dav/a/x | If: <http://h/dav/a/y> (<urn:uuid:1>) -> -
PUT /dav/a/x | If: <http://h/dav/b/y> (<urn:uuid:1>) -> condition
PUT /dav/a/x | If: <http://h/dav/b/y> (Not <DAV:no-lock>) -> condition
GET /dav/a/x | If: <http://h/dav/> ([\"1\"]) -> condition
PUT /dav/a/x | If: <http://h/dav/a/x> (<urn:uuid:1>) <http://h/dav/b> (<urn:uuid:2>) -> condition
PUT /dav/a/x | If: <urn:x> (<urn:uuid:1>) -> -
COPY /dav/a/x | Destination: /dav/b/x | If: <http://h/dav/b> (<urn:uuid:1>) -> destination
# what the machine doesn't read
FOO /dav/b -> -
GET /b -> -
GET * -> -
";

// A row without its comment, cut at its arrow.
fn parts(row: &str) -> Option<(&str, &str)> {
    if row.starts_with("#") {
        return None;
    }
    row.split_once(" -> ")
}

// The bytes of a head with these lines, between bars.
fn head_of(alloc: Global, lines: &str) -> Result<String, Fail> {
    let mut head = String::new(alloc);
    for (place, line) in lines.split(" | ").enumerate() {
        head.push_str(line)?;
        if place == 0 {
            head.push_str(" HTTP/1.1")?;
        }
        head.push_str("\r\n")?;
    }
    head.push_str("\r\n")?;
    Ok(head)
}

// A part, as a word.
fn word_of(part: Option<Part>) -> &'static str {
    match part {
        Some(Part::Target) => "target",
        Some(Part::Destination) => "destination",
        Some(Part::Condition) => "condition",
        None => "-",
    }
}

#[test]
fn heads_are_here(rt: HostRuntime) -> Result<(), Fail> {
    let mut folders = Vec::new(rt.alloc());
    let none = Vec::new(rt.alloc());
    for name in ["a", "b c"] {
        folders.push(first_folder(rt.alloc(), name)?.ok_or("no name")?)?;
    }
    for row in HEADS.lines() {
        if let Some((lines, wanted)) = parts(row) {
            let head = head_of(rt.alloc(), lines)?;
            let found = elsewhere_in(rt.alloc(), &folders, head.as_bytes(), "/dav")?;
            assert!(&rt; word_of(found) == wanted, "{row}");
            let all = elsewhere_in(rt.alloc(), &none, head.as_bytes(), "/dav")?;
            assert!(&rt; all.is_none(), "{row}, of a server that has all");
        }
    }
    Ok(())
}

#[test]
fn folders_have_names(rt: HostRuntime) -> Result<(), Fail> {
    for text in ["", ".", "..", "/", "a/b", "/a", "a/", "a\0"] {
        let folder = first_folder(rt.alloc(), text)?;
        assert!(&rt; folder.is_none(), "{text:?}");
    }
    for text in ["a", "b c", "...", "%2e", "a?b", "\u{e4}"] {
        let folder = first_folder(rt.alloc(), text)?.ok_or("no name")?;
        let mut names = folder.segments();
        assert!(&rt; names.next() == Some(text.as_bytes()), "{text:?}");
        assert!(&rt; names.next().is_none(), "{text:?}");
    }
    Ok(())
}
