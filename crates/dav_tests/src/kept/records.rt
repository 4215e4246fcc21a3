//! Records as bytes.
use bytes::Bytes;
use dav_kept::{Record, Request};
use std::alloc::Global;
use std::test::Fail;

/// Moment, status, principal, token, head and body; `-` is a text that is missing, `.` one without
/// bytes.
const RECORDS: &str = "
1 201 - - GET . -> 0000000000000001 00c9 00 00 0000000000000003 474554 0000000000000000
1735689600 204 ann - . xy -> 0000000067748580 00cc 01 0000000000000003 616e6e 00 0000000000000000 0000000000000002 7879
0 65535 . é A B -> 0000000000000000 ffff 01 0000000000000000 01 0000000000000002 c3a9 0000000000000001 41 0000000000000001 42
18446744073709551615 0 - t . . -> ffffffffffffffff 0000 00 01 0000000000000001 74 0000000000000000 0000000000000000
";

/// Bytes that begin with no record: too few, a text that is neither missing nor there, one that
/// isn't UTF-8, one that ends early.
const NONE: &str = "
00000000000000
0000000000000001 00c9 00 00 0000000000000003 474554 00000000000000
0000000000000001 00c9 02 00 0000000000000000 0000000000000000
0000000000000001 00c9 01 0000000000000001 ff 00 0000000000000000 0000000000000000
0000000000000001 00c9 00 00 0000000000000004 474554 0000000000000000
0000000000000001 00c9 00 00 ffffffffffffffff 474554 0000000000000000
";

// The bytes of a text of two digits each, with base 16.
pub fn bytes_in(alloc: Global, text: &str) -> Result<Vec<u8>, Fail> {
    let mut bytes = Vec::new(alloc);
    let mut high = None;
    for c in text.chars() {
        let Some(digit) = c.to_digit(16) else {
            continue;
        };
        match high {
            None => high = Some(digit),
            Some(first) => {
                bytes.push(u8::try_from(first << 4 | digit).unwrap_or(0))?;
                high = None;
            }
        }
    }
    Ok(bytes)
}

// A text of a row that may be missing.
fn option_in(word: &str) -> Option<&str> {
    match word {
        "-" => None,
        "." => Some(""),
        _ => Some(word),
    }
}

// A text of a row.
fn text_in(word: &str) -> &[u8] {
    option_in(word).unwrap_or("").as_bytes()
}

// A word of a row.
pub fn word_at(row: &str, place: usize) -> &str {
    row.split(' ').nth(place).unwrap_or("-")
}

// The record of a row, as bytes.
fn record_bytes(alloc: Global, row: &str) -> Result<Vec<u8>, Fail> {
    let moment = word_at(row, 0).parse::<u64>()?;
    let status = word_at(row, 1).parse::<u16>()?;
    let (principal, token) = (word_at(row, 2), word_at(row, 3));
    let (head, body) = (word_at(row, 4), word_at(row, 5));
    let body = Bytes::copy_from_slice(alloc, text_in(body))?;
    let request = Request {
        moment,
        principal: option_in(principal),
        token: option_in(token),
        head: text_in(head),
        body: &body,
    };
    let mut bytes = Vec::new(alloc);
    request.record(status).write(&mut bytes)?;
    if bytes.len() > request.size() {
        return Err(Fail::new("the size is too small"));
    }
    Ok(bytes)
}

#[test]
fn records_are_these_bytes(rt: HostRuntime) -> Result<(), Fail> {
    let alloc = rt.alloc();
    for row in RECORDS.trim().lines() {
        let Some((record, expected)) = row.split_once(" -> ") else {
            return Err(Fail::new("a row without an arrow"));
        };
        let expected = bytes_in(alloc, expected)?;
        let mut bytes = record_bytes(alloc, record)?;
        assert_eq!(rt; bytes.as_slice(), expected.as_slice(), "{row}");
        bytes.extend_from_slice(b"rest")?;
        let Some((read, rest)) = Record::read(&bytes) else {
            return Err(Fail::new("a record that isn't read"));
        };
        let mut again = Vec::new(alloc);
        read.write(&mut again)?;
        assert_eq!(rt; again.as_slice(), expected.as_slice(), "{row}");
        assert_eq!(rt; rest, b"rest".as_slice(), "{row}");
    }
    for row in NONE.trim().lines() {
        let bytes = bytes_in(alloc, row)?;
        assert!(rt; Record::read(&bytes).is_none(), "{row}");
    }
    Ok(())
}
