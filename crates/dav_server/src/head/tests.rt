//! Heads whose meaning was worked out by hand from RFC 9110 and RFC 9112.
use super::{MOST_BYTES, MOST_FIELDS, RequestView, headers_of, read_head};
use crate::asserting::same;
use crate::rows::{NoRow, Player, play_rows, unescaped};
use dav_core::errors::NoMemory;
use std::alloc::{AllocError, Global};
use std::str;
use std::test::Fail;

// A head, and its method, its target and its fields, or the status that refuses it.
const HEADS: &str = r##"# heads
PUT /a HTTP/1.1\r\nContent-Length: 3\r\n\r\n -> PUT /a Content-Length=3
GET /a HTTP/1.1\r\n\r\n -> GET /a
GET /a HTTP/1.0\r\nIf:\t b \r\nX:\nif:c\r\n\r\n -> GET /a If=b X= if=c
# no heads
 -> 400
GET / HTTP/1.1\r\n -> 400
GET / HTTP/1.1\r\n\r\nx -> 400
GET / HTTP/1.1\r\n\r\n\r\n -> 400
GET / HTTP/2.0\r\n\r\n -> 400
GET /\xFF HTTP/1.1\r\n\r\n -> 400
GET / HTTP/1.1\r\na b: c\r\n\r\n -> 400
GET / HTTP/1.1\r\na: \x7F\r\n\r\n -> 400
GET / HTTP/1.1\r\na: \x01\r\n\r\n -> 400
"##;

// The fields of a head in their order, each as ` name=value`.
fn fields_in(alloc: Global, view: &RequestView<'_>) -> Result<Vec<u8>, AllocError> {
    let mut all = Vec::new(alloc);
    for place in 0..MOST_FIELDS {
        let Some((name, value)) = view.field(place) else {
            break;
        };
        all.push(b' ')?;
        all.extend_from_slice(name)?;
        all.push(b'=')?;
        all.extend_from_slice(value)?;
    }
    Ok(all)
}

// What a head says.
fn words_of(alloc: Global, view: &RequestView<'_>) -> Result<Vec<u8>, Fail> {
    let method = str::from_utf8(view.method())?;
    let target = view.target();
    let mut line = format!(in alloc; "{method} {target}")?.into_bytes();
    line.extend_from_slice(&fields_in(alloc, view)?)?;
    Ok(line)
}

// Asks what a head says.
#[derive(Drop)]
struct Heads;

impl Player for Heads {
    fn begin(&mut self, _alloc: Global) -> Result<(), Fail> {
        Ok(())
    }

    fn answer(&mut self, alloc: Global, question: &'static str) -> Result<Vec<u8>, Fail> {
        let head = unescaped(alloc, question)?;
        match read_head(&head) {
            Ok(view) => words_of(alloc, &view),
            Err(status) => Ok(format!(in alloc; "{}", status.as_u16())?.into_bytes()),
        }
    }
}

#[test]
fn reads_heads(rt: HostRuntime) -> Result<(), Fail> {
    play_rows(&rt, &mut Heads, HEADS)
}

// The fields of a head, a name, and the values of the fields with this name, each with a semicolon after it.
const VALUES: &str =
    r##"# case doesn't count in a name, and blanks at the ends of a value are cut off
if:  a\tb \t\r\nx: y\r\nIF:\r\niF: c\r\n | If -> a\tb;;c;
if:  a\tb \t\r\nx: y\r\nIF:\r\niF: c\r\n | X -> y;
if:  a\tb \t\r\nx: y\r\nIF:\r\niF: c\r\n | i -> none
if:  a\tb \t\r\nx: y\r\nIF:\r\niF: c\r\n | iff -> none
# bytes that are no UTF-8, and a field without a value
If:  a\r\nX: y\r\niF: b\xFF \r\nZ:\r\n | if -> a;b\xFF;
If:  a\r\nX: y\r\niF: b\xFF \r\nZ:\r\n | x -> y;
If:  a\r\nX: y\r\niF: b\xFF \r\nZ:\r\n | z -> ;
If:  a\r\nX: y\r\niF: b\xFF \r\nZ:\r\n | i -> none
"##;

// The values of a name in a head.
fn values_in_head(
    alloc: Global,
    view: &RequestView<'_>,
    name: &str,
) -> Result<Vec<u8>, AllocError> {
    let mut all = Vec::new(alloc);
    for value in view.values(name) {
        all.extend_from_slice(value)?;
        all.extend_from_slice(b";")?;
    }
    Ok(all)
}

// The values of a name in the map of a head's headers.
fn values_in_map(alloc: Global, view: &RequestView<'_>, name: &str) -> Result<Vec<u8>, NoMemory> {
    let headers = headers_of(alloc, view)?;
    let mut all = Vec::new(alloc);
    for value in headers.get_all(name) {
        all.extend_from_slice(value.as_bytes())?;
        all.extend_from_slice(b";")?;
    }
    Ok(all)
}

// Asks for the values of a name, in the head and in its map of headers.
#[derive(Drop)]
struct Values;

impl Player for Values {
    fn begin(&mut self, _alloc: Global) -> Result<(), Fail> {
        Ok(())
    }

    fn answer(&mut self, alloc: Global, question: &'static str) -> Result<Vec<u8>, Fail> {
        let (fields, name) = question.split_once(" | ").ok_or(NoRow(question))?;
        let mut head = Vec::from_slice(alloc, START)?;
        head.extend_from_slice(&unescaped(alloc, fields)?)?;
        head.extend_from_slice(b"\r\n")?;
        let view = read_head(&head)?;
        let mut values = values_in_head(alloc, &view, name)?;
        if values != values_in_map(alloc, &view, name)? {
            return Err(NoRow("the map has other values"))?;
        }
        if values.is_empty() {
            values.extend_from_slice(b"none")?;
        }
        Ok(values)
    }
}

#[test]
fn finds_values(rt: HostRuntime) -> Result<(), Fail> {
    play_rows(&rt, &mut Values, VALUES)
}

// How many headers a head has, and of how many names.
fn counts(alloc: Global, head: &[u8]) -> Result<(usize, usize), Fail> {
    let headers = headers_of(alloc, &read_head(head)?)?;
    Ok((headers.len(), headers.keys_len()))
}

#[test]
fn counts_headers(rt: HostRuntime) -> Result<(), Fail> {
    let some = counts(
        rt.alloc(),
        b"GET / HTTP/1.1\r\nIf:  a\r\nX: y\r\niF: b\xff \r\nZ:\r\n\r\n",
    )?;
    let none = counts(rt.alloc(), b"GET / HTTP/1.1\r\n\r\n")?;
    same(&rt, &[some, none], &[(4, 3), (0, 0)]);
    Ok(())
}

const START: &[u8] = b"GET / HTTP/1.1\r\n";

// How many bytes a head of one long field has, and whether it is taken.
fn takes_bytes(alloc: Global, bytes: usize) -> Result<(usize, bool), AllocError> {
    let mut head = Vec::from_slice(alloc, START)?;
    head.extend_from_slice(b"a:")?;
    for _ in 0..bytes.saturating_sub(START.len() + 6) {
        head.push(b'x')?;
    }
    head.extend_from_slice(b"\r\n\r\n")?;
    Ok((head.len(), read_head(&head).is_ok()))
}

// Whether a head of so many fields is taken.
fn takes_fields(alloc: Global, fields: usize) -> Result<bool, AllocError> {
    let mut head = Vec::from_slice(alloc, START)?;
    for _ in 0..fields {
        head.extend_from_slice(b"a: b\r\n")?;
    }
    head.extend_from_slice(b"\r\n")?;
    Ok(read_head(&head).is_ok())
}

#[test]
fn counts_bytes(rt: HostRuntime) -> Result<(), Fail> {
    let longest = takes_bytes(rt.alloc(), MOST_BYTES)?;
    let longer = takes_bytes(rt.alloc(), MOST_BYTES + 1)?;
    same(&rt, &[longest, longer], &[(65_536, true), (65_537, false)]);
    Ok(())
}

#[test]
fn counts_fields(rt: HostRuntime) -> Result<(), Fail> {
    let most = takes_fields(rt.alloc(), MOST_FIELDS)?;
    let more = takes_fields(rt.alloc(), MOST_FIELDS + 1)?;
    same(&rt, &[most, more], &[true, false]);
    Ok(())
}
