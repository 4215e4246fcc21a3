//! Types and usual names in a multistatus.
use super::{halves, holding, named, saying};
use dav_core::element::Element;
use dav_presented::typed::with_types;
use std::alloc::{AllocError, Global};
use std::process::Abort;
use std::test::Fail;

// An address and the type that the machine tells of it, and what is sent (RFC 4918, section 15.5).
const TYPES: &str = "\
/photo.JPG application/octet-stream -> image/jpeg
/a%20b.pdf application/octet-stream -> application/pdf
# what the table hasn't
/core.dump application/octet-stream -> application/octet-stream
/docs.pdf/readme application/octet-stream -> application/octet-stream
# a folder, and a type of which more is known
/docs.pdf/ httpd/unix-directory -> httpd/unix-directory
/notes.md text/x-own -> text/x-own
";

// An address, a property of it with its attribute after @ and what is in it, and the property that is
// sent (RFC 4918, section 14.18; RFC 5397, section 3).
const NAMES: &str = "\
/docs/ {DAV:}resourcetype@xmlns=DAV: D:collection -> D:resourcetype
/docs/ {DAV:}x:resourcetype@xmlns:x=DAV: D:collection -> D:resourcetype
/a.txt {DAV:}x:resourcetype D:other -> D:resourcetype
/docs/ D:resourcetype D:collection -> D:resourcetype
/docs/ {DAV:}current-user-principal@xmlns=DAV: D:href=/me/ -> D:current-user-principal
# a property of another namespace, of none, and another property of DAV:
/docs/ {urn:x}resourcetype@xmlns=urn:x D:collection -> {urn:x}resourcetype@xmlns=urn:x
/docs/ resourcetype D:collection -> resourcetype
/docs/ {DAV:}x:supportedlock@xmlns:x=DAV: D:lockentry -> {DAV:}x:supportedlock@xmlns:x=DAV:
# another property with the text of an unknown type
/a.txt D:displayname D:a=application/octet-stream -> D:displayname
";

fn response(alloc: Global, address: &str, property: Element) -> Result<Element, AllocError> {
    let propstat = holding(alloc, "D:propstat", holding(alloc, "D:prop", property)?)?;
    let mut response = holding(alloc, "D:response", saying(alloc, "D:href", address)?)?;
    response.push_element(propstat)?;
    Ok(response)
}

fn multistatus(alloc: Global, address: &str, property: Element) -> Result<Element, AllocError> {
    holding(alloc, "D:multistatus", response(alloc, address, property)?)
}

fn telling(alloc: Global, address: &str, kind: &str) -> Result<Element, AllocError> {
    multistatus(alloc, address, saying(alloc, "D:getcontenttype", kind)?)
}

#[test]
fn tells_types(rt: HostRuntime) -> Result<(), Fail> {
    let alloc = rt.alloc();
    for row in TYPES.lines() {
        if let Some((input, wanted)) = halves(row) {
            let (address, kind) = input.split_once(" ").unwrap_or((input, ""));
            let sent = with_types(alloc, telling(alloc, address, kind)?)?;
            let expected = telling(alloc, address, wanted)?;
            assert!(&rt; sent == expected, "{row}");
        }
    }
    Ok(())
}

fn inner(alloc: Global, word: &str) -> Result<Element, AllocError> {
    match word.split_once("=") {
        Some((name, text)) => saying(alloc, name, text),
        None => named(alloc, word),
    }
}

fn with_attribute(alloc: Global, element: Element, text: &str) -> Result<Element, AllocError> {
    let mut element = element;
    if let Some((name, value)) = text.split_once("=") {
        let name = String::from_str(alloc, name)?;
        let value = String::from_str(alloc, value)?;
        element.attributes.push((name, value))?;
    }
    Ok(element)
}

fn property(alloc: Global, word: &str, child: &str) -> Result<Element, AllocError> {
    let (name, attribute) = word.split_once("@").unwrap_or((word, ""));
    let mut property = named(alloc, name)?;
    property.push_element(inner(alloc, child)?)?;
    with_attribute(alloc, property, attribute)
}

// What is told of a property, with a child.
fn having(alloc: Global, address: &str, word: &str, child: &str) -> Result<Element, AllocError> {
    multistatus(alloc, address, property(alloc, word, child)?)
}

#[test]
fn tells_usual_names(rt: HostRuntime) -> Result<(), Fail> {
    let alloc = rt.alloc();
    for row in NAMES.lines() {
        if let Some((input, wanted)) = halves(row) {
            let (address, rest) = input.split_once(" ").unwrap_or((input, ""));
            let (word, child) = rest.split_once(" ").unwrap_or((rest, ""));
            let sent = with_types(alloc, having(alloc, address, word, child)?)?;
            let expected = having(alloc, address, wanted, child)?;
            assert!(&rt; sent == expected, "{row}");
        }
    }
    Ok(())
}
