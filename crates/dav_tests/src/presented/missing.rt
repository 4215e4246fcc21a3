//! What is missing in a multistatus.
use super::{halves, holding, named, saying};
use dav_core::element::Element;
use dav_presented::missing::{MOST_NAMES, answered, asks_for_many};
use std::alloc::{AllocError, Global};
use std::process::Abort;
use std::test::Fail;

// The names that are asked for, and those that are told, with a plus between those of two `propstat`; then those
// that are under 404 (RFC 4918, sections 9.1 and 14.24).
const ROWS: &str = "\
D:displayname | D:displayname -> -
D:displayname | -> D:displayname
D:getetag D:displayname Z:Win32FileAttributes | D:getetag -> D:displayname Z:Win32FileAttributes
| D:a -> -
# in the order of the request, and each once
D:b D:a D:b | -> D:b D:a
D:b {DAV:}x:b {DAV:}b | -> D:b
# by namespace and local name, whatever the prefix is
D:a Z:a | D:a -> Z:a
{DAV:}x:a | D:a -> -
{urn:x}x:a | {urn:x}y:a -> -
{urn:x}x:a | {urn:y}x:a -> {urn:x}x:a
{urn:x}a | D:a -> {urn:x}a
# told under another status
D:a D:b D:c | D:a + D:b -> D:c
";

// An element with one child for each name in a text.
fn names_in(alloc: Global, name: &str, names: &str) -> Result<Element, AllocError> {
    let mut element = Element::new2(alloc, name)?;
    for one in names.split_ascii_whitespace() {
        element.push_element(named(alloc, one)?)?;
    }
    Ok(element)
}

// A multistatus with one response, that has one `propstat` for each group of names.
fn multistatus(alloc: Global, told: &str) -> Result<Element, AllocError> {
    let mut response = Element::new2(alloc, "D:response")?;
    for group in told.split(" + ") {
        let prop = names_in(alloc, "D:prop", group)?;
        response.push_element(holding(alloc, "D:propstat", prop)?)?;
    }
    holding(alloc, "D:multistatus", response)
}

// The name of an element, as it is in a row.
fn name_text(alloc: Global, element: &Element) -> Result<String, AllocError> {
    let mut text = String::new(alloc);
    if let Some(space) = &element.namespace {
        text.push_str("{")?;
        text.push_str(space)?;
        text.push_str("}")?;
    }
    if let Some(prefix) = &element.prefix {
        text.push_str(prefix)?;
        text.push_str(":")?;
    }
    text.push_str(&element.name)?;
    Ok(text)
}

// The names below a `propstat` that is of the status 404.
fn names_under_404(alloc: Global, propstat: &Element) -> Result<String, AllocError> {
    let mut names = String::new(alloc);
    let mut is_404 = false;
    for child in propstat.child_elems() {
        if child.name.as_str() == "status" {
            let status = saying(alloc, "D:status", "HTTP/1.1 404 Not Found")?;
            is_404 = *child == status;
        }
        for one in child.child_elems() {
            names.push_str(" ")?;
            names.push_str(&name_text(alloc, one)?)?;
        }
    }
    if is_404 {
        Ok(names)
    } else {
        Ok(String::new(alloc))
    }
}

// The names that are told to be missing in a multistatus.
fn missing(alloc: Global, tree: &Element) -> Result<String, AllocError> {
    let mut names = String::new(alloc);
    for response in tree.child_elems() {
        for propstat in response.child_elems() {
            names.push_str(&names_under_404(alloc, propstat)?)?;
        }
    }
    Ok(names)
}

fn played(alloc: Global, kind: &str, asked: &str, told: &str) -> Result<String, AllocError> {
    let propfind = holding(alloc, "D:propfind", names_in(alloc, kind, asked)?)?;
    let sent = answered(alloc, &propfind, multistatus(alloc, told)?)?;
    missing(alloc, &sent)
}

#[test]
fn tells_what_is_missing(rt: HostRuntime) -> Result<(), Fail> {
    let alloc = rt.alloc();
    for row in ROWS.lines() {
        if let Some((input, wanted)) = halves(row) {
            let (asked, told) = input.split_once("|").unwrap_or((input, ""));
            let found = played(alloc, "D:prop", asked, told)?;
            let wanted = wanted.strip_prefix("-").unwrap_or(wanted);
            assert!(&rt; found.as_str().trim() == wanted, "{row}\ngives: {found}");
        }
    }
    Ok(())
}

// Who asks for all properties, or for names alone, is told nothing of what is missing.
#[test]
fn all_is_told_as_it_is(rt: HostRuntime) -> Result<(), Fail> {
    let alloc = rt.alloc();
    let all = played(alloc, "D:allprop", "D:a", "D:b")?;
    assert_eq!(rt; all.as_str(), "");
    let names = played(alloc, "D:propname", "D:a", "D:b")?;
    assert_eq!(rt; names.as_str(), "");
    Ok(())
}

fn asking(alloc: Global, kind: &str, count: usize) -> Result<Element, AllocError> {
    let mut prop = Element::new2(alloc, kind)?;
    for _ in 0..count {
        prop.push_element(Element::new2(alloc, "D:a")?)?;
    }
    holding(alloc, "D:propfind", prop)
}

fn is_for_many(alloc: Global, kind: &str, count: usize) -> Result<bool, AllocError> {
    Ok(asks_for_many(&asking(alloc, kind, count)?))
}

#[test]
fn bounds_the_names(rt: HostRuntime) -> Result<(), Fail> {
    let rows = [
        ("D:prop", 0, false),
        ("D:prop", 1000, false),
        ("D:prop", 1001, true),
        ("D:allprop", 1001, false),
        ("D:propname", 1001, false),
    ];
    for (kind, count, wanted) in rows {
        let found = is_for_many(rt.alloc(), kind, count)?;
        assert!(&rt; found == wanted, "{kind} with {count}");
    }
    assert!(&rt; MOST_NAMES == 1000, "the bound");
    Ok(())
}
