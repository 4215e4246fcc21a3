//! The room that folders tell, and replies without what is missing.
use super::halves;
use dav_core::element::Element;
use dav_presented::minimal::answered_to;
use dav_presented::quota::{Room, with_quota};
use dav_xml::{read, write};
use std::alloc::{AllocError, Global};
use std::test::Fail;

// The names that are asked for; the address of a response, and what it tells, by statuses; and what it tells then. There are 5 bytes in use,
// and room for 7 (RFC 4331, sections 3 and 4; RFC 8144, section 2.1, where a row begins with `minimal`).
const ROWS: &str = "\
quota-used-bytes | / -> 200 quota-used-bytes=5
quota-available-bytes | /d/ -> 200 quota-available-bytes=7
quota-used-bytes quota-available-bytes | / -> 200 quota-available-bytes=7 quota-used-bytes=5
quota-used-bytes quota quotaused | / -> 200 quota-used-bytes=5 ; 404 quota quotaused
# with what else is found
getetag quota-used-bytes | /d/ 200 getetag=x -> 200 getetag=x quota-used-bytes=5
getetag quota-used-bytes a | /d/ 200 getetag=x -> 200 getetag=x quota-used-bytes=5 ; 404 a
a quota-used-bytes b | /d/ 401 a ; 200 b -> 401 a ; 200 b quota-used-bytes=5
a quota-used-bytes | /d/ 401 a -> 401 a ; 200 quota-used-bytes=5
# not of a file, not if it isn't asked for, not twice
quota-used-bytes | /a.txt -> 404 quota-used-bytes
getetag | / 200 getetag=x -> 200 getetag=x
quota-used-bytes | / 200 quota-used-bytes=9 -> 200 quota-used-bytes=9
quota-used-bytes quota-used-bytes | / -> 200 quota-used-bytes=5
# what isn't there is left out
minimal getetag a | /a.txt 200 getetag=x -> 200 getetag=x
minimal a b | /a.txt -> 200
minimal quota-used-bytes a | / -> 200 quota-used-bytes=5
minimal quota-used-bytes | /a.txt -> 200
minimal a | /a.txt 401 a -> 401 a
";

// The element of a text.
fn tree(alloc: Global, text: &str) -> Result<Element, Fail> {
    match read(alloc, text.as_bytes()) {
        Ok(tree) => Ok(tree),
        Err(_) => Err("no XML".into()),
    }
}

// Adds a property, `name` or `name=text`.
fn add_property(text: &mut String, property: &str) -> Result<(), AllocError> {
    let (name, value) = property.split_once("=").unwrap_or((property, ""));
    text.push_str("<D:")?;
    text.push_str(name)?;
    text.push_str(">")?;
    text.push_str(value)?;
    text.push_str("</D:")?;
    text.push_str(name)?;
    text.push_str(">")
}

// Adds properties.
fn add_properties(text: &mut String, properties: &str) -> Result<(), AllocError> {
    text.push_str("<D:prop>")?;
    for property in properties.split_ascii_whitespace() {
        add_property(text, property)?;
    }
    text.push_str("</D:prop>")
}

fn status_text(number: &str) -> &'static str {
    match number {
        "200" => "HTTP/1.1 200 OK",
        "401" => "HTTP/1.1 401 Unauthorized",
        _ => "HTTP/1.1 404 Not Found",
    }
}

// Adds a `propstat`, a status and its properties; nothing for no text.
fn add_propstat(text: &mut String, told: &str) -> Result<(), AllocError> {
    if told.is_empty() {
        return Ok(());
    }
    let (number, properties) = told.split_once(" ").unwrap_or((told, ""));
    text.push_str("<D:propstat>")?;
    add_properties(text, properties)?;
    text.push_str("<D:status>")?;
    text.push_str(status_text(number))?;
    text.push_str("</D:status></D:propstat>")
}

// The text of a multistatus with one response.
fn multistatus(alloc: Global, address: &str, told: &str) -> Result<String, AllocError> {
    let mut text = String::from_str(
        alloc,
        "<D:multistatus xmlns:D=\"DAV:\"><D:response><D:href>",
    )?;
    text.push_str(address)?;
    text.push_str("</D:href>")?;
    for propstat in told.split(" ; ") {
        add_propstat(&mut text, propstat)?;
    }
    text.push_str("</D:response></D:multistatus>")?;
    Ok(text)
}

// The body of a PROPFIND.
fn propfind(alloc: Global, names: &str) -> Result<String, AllocError> {
    let mut text = String::from_str(alloc, "<D:propfind xmlns:D=\"DAV:\">")?;
    add_properties(&mut text, names)?;
    text.push_str("</D:propfind>")?;
    Ok(text)
}

// What is sent to a PROPFIND of these names.
fn sent(alloc: Global, names: &str, told: Element) -> Result<Element, Fail> {
    let (names, is_minimal) = match names.strip_prefix("minimal ") {
        Some(names) => (names, true),
        None => (names, false),
    };
    let propfind = tree(alloc, &propfind(alloc, names)?)?;
    let room = Room {
        used: 5,
        available: 7,
    };
    let told = with_quota(alloc, room, &propfind, told)?;
    Ok(answered_to(alloc, is_minimal, &propfind, told)?)
}

// An element as a client reads it.
fn read_again(alloc: Global, element: &Element) -> Result<Element, Fail> {
    match read(alloc, &write(alloc, element)?) {
        Ok(tree) => Ok(tree),
        Err(_) => Err("no XML".into()),
    }
}

// Whether a row's input gives what is wanted.
fn is_right(alloc: Global, input: &str, wanted: &str) -> Result<bool, Fail> {
    let (names, response) = input.split_once(" | ").unwrap_or((input, ""));
    let (address, told) = response.split_once(" ").unwrap_or((response, ""));
    let told = tree(alloc, &multistatus(alloc, address, told)?)?;
    let found = read_again(alloc, &sent(alloc, names, told)?)?;
    let expected = read_again(alloc, &tree(alloc, &multistatus(alloc, address, wanted)?)?)?;
    Ok(found == expected)
}

#[test]
fn tells_the_room(rt: HostRuntime) -> Result<(), Fail> {
    for row in ROWS.lines() {
        if let Some((input, wanted)) = halves(row) {
            assert!(&rt; is_right(rt.alloc(), input, wanted)?, "{row}");
        }
    }
    Ok(())
}
