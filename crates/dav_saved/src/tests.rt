//! What is saved, byte by byte, as rows. The expected bytes were worked out by hand.
//!
//! A row `what -> bytes` says that it is saved as these bytes, and read again from them, with what
//! follows left over. A row `what ! bytes` says that they are no such thing. In bytes `#n` is the
//! number n in eight bytes, `'t'` the text t, and any other word a byte.

use super::*;
use dav_core::davpath::DavPath;
use dav_core::element::Element;
use dav_core::ls::DavLock;
use std::alloc::{AllocError, Global};
use std::test::*;

const ROWS: &str = "\
number -> 0 0 0 0 0 0 1 2
number ! 0 0 0 0 0 0 1
text -> #2 'ab'
text ! #3 'ab'
text ! #1 255
bytes -> #2 255 0
nothing -> 0
element -> 0 #1 'a' 1 #1 'p' 1 #1 'n' #1 #1 'b' #1 'c' #2 1 #1 'x' 0 #1 'd' 0 0 #0 #0
element ! 1 #1 'a'
element ! 2 #1 'a' 0 0 #0 #0
element ! 0 #1 'a' 2 0 #0 #0
element ! 0 #1 'a' 0 0 #0 #1 2
element ! 0 #1 'a' 0 0 #0 #1 0 #1 'b' 0 0 #0 #1 0 #1 'c' 0 0 #0 #0
value -> 1 0 #1 'd' 0 0 #0 #0
value ! 2
lock -> #2 't1' #2 '/x' #3 '/ab' 1 #4 'anna' 1 0 #1 'd' 0 0 #0 #0 1 #160 1 #60 0 1
endless -> #2 't2' #0 #1 '/' 0 0 0 0 1 0
endless ! #2 't2' #0 #1 '/' 0 0 0 0 1 2
endless ! #2 't2' #0 #1 '/' 0 0 3 0 1 0
";

// The bytes of a row.
fn bytes_in(alloc: Global, words: &str) -> Result<Vec<u8>, Fail> {
    let mut bytes = Vec::new(alloc);
    for word in words.split(' ') {
        if let Some(number) = word.strip_prefix('#') {
            bytes.extend_from_slice(&number.parse::<u64>()?.to_be_bytes())?;
        } else if let Some(text) = word.strip_prefix('\'') {
            bytes.extend_from_slice(text.trim_end_matches('\'').as_bytes())?;
        } else {
            bytes.push(word.parse::<u8>()?)?;
        }
    }
    Ok(bytes)
}

// `<p:a b="c">x<d/></p:a>`, whose namespace is `n`.
fn element(alloc: Global) -> Result<Element, AllocError> {
    let mut element = Element::new2(alloc, "p:a")?;
    element.namespace = Some(String::from_str(alloc, "n")?);
    let attribute = (String::from_str(alloc, "b")?, String::from_str(alloc, "c")?);
    element.attributes.push(attribute)?;
    element.text("x")?;
    element.push_element(Element::new(alloc, "d")?)?;
    Ok(element)
}

// An exclusive lock of infinite depth, of anna, for a minute from second 100 on.
fn timed(alloc: Global) -> Result<DavLock, AllocError> {
    Ok(DavLock {
        token: String::from_str(alloc, "t1")?,
        path: DavPath::from_parts(alloc, "/x", b"/ab")?,
        principal: Some(String::from_str(alloc, "anna")?),
        owner: Some(Element::new(alloc, "d")?),
        timeout_at: Some(160),
        timeout: Some(60),
        shared: false,
        deep: true,
    })
}

// A shared lock of the root that never ends.
fn endless(alloc: Global) -> Result<DavLock, AllocError> {
    Ok(DavLock {
        token: String::from_str(alloc, "t2")?,
        path: DavPath::from_parts(alloc, "", b"/")?,
        principal: None,
        owner: None,
        timeout_at: None,
        timeout: None,
        shared: true,
        deep: false,
    })
}

// What is saved.
fn saved(alloc: Global, what: &str) -> Result<Vec<u8>, AllocError> {
    let mut out = Vec::new(alloc);
    match what {
        "number" => put_number(&mut out, 258)?,
        "text" => put_text(&mut out, "ab")?,
        "bytes" => put_bytes(&mut out, &[255, 0])?,
        "nothing" => put_optional(&mut out, &None)?,
        "element" => put_element(&mut out, &element(alloc)?)?,
        "value" => put_value(&mut out, &Some(Element::new(alloc, "d")?))?,
        "lock" => put_lock(&mut out, &timed(alloc)?)?,
        _ => put_lock(&mut out, &endless(alloc)?)?,
    }
    Ok(out)
}

// What is read in front of bytes is saved again; how many bytes are behind it.
fn reads<'a>(what: &str, out: &mut Vec<u8>, bytes: &'a [u8]) -> Result<&'a [u8], LoadError> {
    let alloc = *out.allocator();
    match what {
        "number" => {
            let (number, rest) = number_of(bytes)?;
            put_number(out, number)?;
            Ok(rest)
        }
        "text" => {
            let (text, rest) = string_of(alloc, bytes)?;
            put_text(out, &text)?;
            Ok(rest)
        }
        "bytes" => {
            let (read, rest) = bytes_of(bytes)?;
            put_bytes(out, read)?;
            Ok(rest)
        }
        "nothing" => {
            let (text, rest) = optional_of(alloc, bytes)?;
            put_optional(out, &text)?;
            Ok(rest)
        }
        _ => reads_tree(what, out, bytes),
    }
}

// The same of elements, of at most two levels, and of locks.
fn reads_tree<'a>(what: &str, out: &mut Vec<u8>, bytes: &'a [u8]) -> Result<&'a [u8], LoadError> {
    let alloc = *out.allocator();
    match what {
        "element" => {
            let (element, rest) = element_of(alloc, 2, bytes)?;
            put_element(out, &element)?;
            Ok(rest)
        }
        "value" => {
            let (element, rest) = value_of(alloc, 2, bytes)?;
            put_value(out, &element)?;
            Ok(rest)
        }
        _ => {
            let (lock, rest) = lock_of(alloc, 2, bytes)?;
            put_lock(out, &lock)?;
            Ok(rest)
        }
    }
}

// Whether it is saved as these bytes and read again, and no front of them is such a thing.
fn is_saved_as(alloc: Global, what: &str, words: &str) -> Result<bool, Fail> {
    let mut bytes = bytes_in(alloc, words)?;
    let (len, mut again) = (bytes.len(), Vec::new(alloc));
    let is_same = saved(alloc, what)? == bytes;
    bytes.extend_from_slice(b"rest")?;
    let rest = reads(what, &mut again, &bytes)?;
    let is_back = rest == b"rest".as_slice() && again.as_slice() == &bytes[..len];
    for front in 0..len {
        if !is_refused(alloc, what, &bytes[..front])? {
            return Ok(false);
        }
    }
    Ok(is_same && is_back)
}

// Whether bytes are no such thing.
fn is_refused(alloc: Global, what: &str, bytes: &[u8]) -> Result<bool, Fail> {
    match reads(what, &mut Vec::new(alloc), bytes) {
        Ok(_) => Ok(false),
        Err(LoadError::NotSaved) => Ok(true),
        Err(e) => Err(e.into()),
    }
}

#[test]
fn plays_rows(rt: HostRuntime) -> Result<(), Fail> {
    let alloc = rt.alloc();
    for row in ROWS.lines() {
        let is_right = match row.split_once(" -> ") {
            Some((what, words)) => is_saved_as(alloc, what, words)?,
            None => {
                let (what, words) = row.split_once(" ! ").unwrap_or((row, ""));
                is_refused(alloc, what, &bytes_in(alloc, words)?)?
            }
        };
        assert!(rt; is_right, "{row}");
    }
    Ok(())
}
