//! A page of a folder, for a person.
ghost use Rattle.std.specs.Prelude.{◌≡◌, OnOk};

use bytes::Bytes;
use dav_core::element::Element;
use dav_http::Head;
use http::StatusCode;
use http_header::{CONTENT_LENGTH, CONTENT_SECURITY_POLICY, CONTENT_TYPE, HeaderValue};
use http_server::Response;
use percent_encoding::percent_decode;
use std::alloc::{AllocError, Global};
use std::str;

/// What is asked of a folder and its members.
pub const ASKED: &[u8] =
    b"<D:propfind xmlns:D='DAV:'><D:prop><D:resourcetype/><D:getcontentlength/><D:getlastmodified/></D:prop></D:propfind>";

// What stands before the title of a page.
const BEGIN: &str = "<!DOCTYPE html>\n<html lang=\"en\"><head><meta charset=\"utf-8\">\
<meta name=\"viewport\" content=\"width=device-width, initial-scale=1\">\
<meta name=\"color-scheme\" content=\"light dark\">\n<title>";

// The style of a page. The policy in `add_fields` allows it by its SHA-256 (Content Security Policy Level 3).
const STYLE: &str =
    "body{font:1rem/1.5 system-ui,sans-serif;max-width:60rem;margin:0 auto;padding:1rem}\
h1{font-size:1.3rem;overflow-wrap:anywhere}\
table{width:100%;border-collapse:collapse}\
th,td{padding:.3rem .5rem;text-align:left;vertical-align:top;border-bottom:1px solid #8884}\
td:first-child{overflow-wrap:anywhere}\
th+th,td+td{text-align:right}\
td+td{white-space:nowrap}\
@media(max-width:32rem){body{padding:.5rem}table{font-size:.8rem}th,td{padding:.3rem .25rem}}";

// The heads of the columns of a page.
const COLUMNS: &str =
    "<table>\n<thead><tr><th>Name</th><th>Size</th><th>Changed (UTC)</th></tr></thead>\n<tbody>\n";

/// The head of the request that asks for the folder and its members for which a request with this head asks.
pub fn asking_head(alloc: Global, asked: &[u8]) -> Result<Vec<u8>, AllocError> {
    let target = match Head::read(asked) {
        Some(asked) => asked.target(),
        None => "/",
    };
    let mut head = Vec::new(alloc);
    head.extend_from_slice(b"PROPFIND ")?;
    head.extend_from_slice(target.as_bytes())?;
    head.extend_from_slice(b" HTTP/1.1\r\nDepth: 1\r\n\r\n")?;
    Ok(head)
}

// Adds a text, with the characters that mean something in a page written as references.
fn add_text(page: &mut String, text: &str) -> Result<(), AllocError> {
    for c in text.chars() {
        match c {
            '&' => page.push_str("&amp;")?,
            '<' => page.push_str("&lt;")?,
            '>' => page.push_str("&gt;")?,
            '"' => page.push_str("&quot;")?,
            '\'' => page.push_str("&#39;")?,
            _ => page.push(c)?,
        }
    }
    Ok(())
}

// The first child element with a name.
fn child<'e>(element: &'e Element, name: &str) -> Option<&'e Element> {
    for it in element.child_elems() {
        if it.name.as_str() == name {
            return Some(it);
        }
    }
    None
}

// The text of a child element with a name.
fn text_in(alloc: Global, element: &Element, name: &str) -> Result<Option<String>, AllocError> {
    match child(element, name) {
        Some(part) => part.get_text(alloc),
        None => Ok(None),
    }
}

// The last name of an address.
fn last_name(address: &str) -> &str {
    let address = address.trim_end_matches('/');
    match address.rsplit_once('/') {
        Some((_, name)) => name,
        None => address,
    }
}

// Adds what an address, or a part of one, is shown by: what it escapes, where that is a text.
fn add_decoded(alloc: Global, page: &mut String, address: &str) -> Result<(), AllocError> {
    let mut bytes = Vec::new(alloc);
    percent_decode(address.as_bytes()).append_to(&mut bytes)?;
    match str::from_utf8(&bytes) {
        Ok(text) => add_text(page, text),
        Err(_) => add_text(page, address),
    }
}

// Adds the name that an address is shown by.
fn add_name(alloc: Global, page: &mut String, address: &str) -> Result<(), AllocError> {
    add_decoded(alloc, page, last_name(address))?;
    if address.ends_with('/') {
        page.push('/')
    } else {
        Ok(())
    }
}

// A number of thousandths of a unit, to the nearest tenth below 10 units, else to the nearest unit.
fn units_text(alloc: Global, thousandths: u64, unit: &str) -> Result<String, AllocError> {
    if thousandths < 9_950 {
        let tenths = thousandths.saturating_add(50) / 100;
        let (whole, tenth) = (tenths / 10, tenths % 10);
        return format!(in alloc; "{whole}.{tenth} {unit}");
    }
    let whole = thousandths.saturating_add(500) / 1_000;
    format!(in alloc; "{whole} {unit}")
}

// A number of bytes, in the unit of which there are 1 to 999 (a kB is 1,000 bytes), or in GB.
fn size_text(alloc: Global, bytes: u64) -> Result<String, AllocError> {
    if bytes < 1_000 {
        return format!(in alloc; "{bytes} B");
    }
    if bytes < 999_500 {
        return units_text(alloc, bytes, "kB");
    }
    if bytes < 999_500_000 {
        return units_text(alloc, bytes / 1_000, "MB");
    }
    units_text(alloc, bytes / 1_000_000, "GB")
}

/// What a size is shown by, of the text of a number of bytes: `9 B`, `1.0 kB`, `10 MB`. Another text stays.
pub(crate) fn shown_size(alloc: Global, told: &str) -> Result<String, AllocError> {
    match told.parse::<u64>() {
        Ok(bytes) => size_text(alloc, bytes),
        Err(_) => String::from_str(alloc, told),
    }
}

// The number of a month by its name in a date (RFC 9110, section 5.6.7).
fn month_number(name: &str) -> &'static str {
    match name {
        "Jan" => "01",
        "Feb" => "02",
        "Mar" => "03",
        "Apr" => "04",
        "May" => "05",
        "Jun" => "06",
        "Jul" => "07",
        "Aug" => "08",
        "Sep" => "09",
        "Oct" => "10",
        "Nov" => "11",
        "Dec" => "12",
        _ => "?",
    }
}

/// What a date is shown by, of its text as HTTP writes it (RFC 9110, section 5.6.7): `Sun, 09 Sep 2001 01:46:40 GMT` is
/// `2001-09-09 01:46`. A text of another length stays.
pub(crate) fn shown_date(alloc: Global, told: &str) -> Result<String, AllocError> {
    if told.len() != 29 {
        return String::from_str(alloc, told);
    }
    let day = told.get(5..7).unwrap_or("?");
    let month = month_number(told.get(8..11).unwrap_or("?"));
    let year = told.get(12..16).unwrap_or("?");
    let minute = told.get(17..22).unwrap_or("?");
    format!(in alloc; "{year}-{month}-{day} {minute}")
}

// The properties that a response tells.
fn told_in(response: &Element) -> Option<&Element> {
    child(child(response, "propstat")?, "prop")
}

// The text of a property that a response tells; empty where it tells none.
fn told_text(alloc: Global, response: &Element, name: &str) -> Result<String, AllocError> {
    let told = match told_in(response) {
        Some(prop) => text_in(alloc, prop, name)?,
        None => None,
    };
    Ok(told.unwrap_or(String::new(alloc)))
}

// Adds the cell with the size of a file.
fn add_size(alloc: Global, page: &mut String, response: &Element) -> Result<(), AllocError> {
    let told = told_text(alloc, response, "getcontentlength")?;
    let size = shown_size(alloc, told.as_str())?;
    page.push_str("<td>")?;
    add_text(page, size.as_str())?;
    page.push_str("</td>")
}

// Adds the cell with the time of the last change.
fn add_date(alloc: Global, page: &mut String, response: &Element) -> Result<(), AllocError> {
    let told = told_text(alloc, response, "getlastmodified")?;
    let date = shown_date(alloc, told.as_str())?;
    page.push_str("<td>")?;
    add_text(page, date.as_str())?;
    page.push_str("</td>")
}

// Whether a response tells of a folder.
fn is_folder(response: &Element) -> bool {
    match told_in(response) {
        Some(prop) => match child(prop, "resourcetype") {
            Some(kind) => child(kind, "collection").is_some(),
            None => false,
        },
        None => false,
    }
}

// Adds the link to a member.
fn add_link(alloc: Global, page: &mut String, address: &str) -> Result<(), AllocError> {
    page.push_str("<a href=\"")?;
    add_text(page, address)?;
    page.push_str("\">")?;
    add_name(alloc, page, address)?;
    page.push_str("</a>")
}

// Adds the row of a member.
fn add_row(
    alloc: Global,
    page: &mut String,
    address: &str,
    response: &Element,
) -> Result<(), AllocError> {
    page.push_str("<tr><td>")?;
    add_link(alloc, page, address)?;
    page.push_str("</td>")?;
    if is_folder(response) {
        page.push_str("<td></td>")?;
    } else {
        add_size(alloc, page, response)?;
    }
    add_date(alloc, page, response)?;
    page.push_str("</tr>\n")
}

// The address of the folder above (RFC 3986, section 5.2.4).
fn address_above(address: &str) -> &str {
    let name = address.trim_end_matches('/');
    match name.rfind('/') {
        Some(place) => address.get(..place.saturating_add(1)).unwrap_or("/"),
        None => "/",
    }
}

// Adds the head of the page of a folder, and its heading.
fn add_heading(alloc: Global, page: &mut String, address: &str) -> Result<(), AllocError> {
    page.push_str(BEGIN)?;
    add_decoded(alloc, page, address)?;
    page.push_str("</title>\n<style>")?;
    page.push_str(STYLE)?;
    page.push_str("</style></head>\n<body><h1>")?;
    add_decoded(alloc, page, address)?;
    page.push_str("</h1>\n")
}

// Whether an address is that of the folder at the top, which is that of the prefix.
fn is_top(alloc: Global, address: &str, prefix: &str) -> Result<bool, AllocError> {
    let mut bytes = Vec::new(alloc);
    percent_decode(address.as_bytes()).append_to(&mut bytes)?;
    match str::from_utf8(&bytes) {
        Ok(path) => Ok(path.trim_end_matches('/') == prefix.trim_end_matches('/')),
        Err(_) => Ok(false),
    }
}

// Adds the begin of the page of a folder, with the way up, where there is one below the prefix.
fn add_top(
    alloc: Global,
    page: &mut String,
    address: &str,
    prefix: &str,
) -> Result<(), AllocError> {
    add_heading(alloc, page, address)?;
    page.push_str(COLUMNS)?;
    if is_top(alloc, address, prefix)? {
        return Ok(());
    }
    page.push_str("<tr><td><a href=\"")?;
    add_text(page, address_above(address))?;
    page.push_str("\">..</a></td><td></td><td></td></tr>\n")
}

// Adds what a response tells of a member.
fn add_member(alloc: Global, page: &mut String, response: &Element) -> Result<(), AllocError> {
    match text_in(alloc, response, "href")? {
        Some(address) => add_row(alloc, page, address.as_str(), response),
        None => Ok(()),
    }
}

// Adds the members that are folders, or those that aren't: the first response is of the folder itself.
fn add_members(
    alloc: Global,
    page: &mut String,
    told: &Element,
    folders: bool,
) -> Result<(), AllocError> {
    let mut is_first = true;
    for response in told.child_elems() {
        if !is_first && is_folder(response) == folders {
            add_member(alloc, page, response)?;
        }
        is_first = false;
    }
    Ok(())
}

// The address of the folder itself, which the first response has.
fn own_address(alloc: Global, told: &Element) -> Result<String, AllocError> {
    let found = match child(told, "response") {
        Some(response) => text_in(alloc, response, "href")?,
        None => None,
    };
    Ok(found.unwrap_or(String::new(alloc)))
}

// The page of a folder, of what a PROPFIND of it told, where all paths are below a prefix.
fn page_of(alloc: Global, told: &Element, prefix: &str) -> Result<String, AllocError> {
    let address = own_address(alloc, told)?;
    let mut page = String::new(alloc);
    add_top(alloc, &mut page, address.as_str(), prefix)?;
    add_members(alloc, &mut page, told, true)?;
    add_members(alloc, &mut page, told, false)?;
    page.push_str("</tbody></table></body></html>\n")?;
    Ok(page)
}

// Adds the fields of a page; that of its length where the request is a HEAD, of which the connection tells else.
fn add_fields(
    alloc: Global,
    len: usize,
    is_head: bool,
    response: &mut Response,
) -> Result<(), AllocError>
    ensures { OnOk result (response.new.status ≡ response.old.status) }
{
    response.add_header(
        CONTENT_TYPE,
        HeaderValue::from_static("text/html; charset=utf-8"),
    )?;
    if is_head {
        response.add_header(CONTENT_LENGTH, number(alloc, len)?)?;
    }
    response.add_header(
        CONTENT_SECURITY_POLICY,
        HeaderValue::from_static(
            "default-src 'none'; style-src 'sha256-d5PW6GXzLIK4jRAh3gRta4XvK+d8n6gvQt610H/P8LU='",
        ),
    )
}

// A number as the value of a field.
fn number(alloc: Global, n: usize) -> Result<HeaderValue, AllocError> {
    let text = format!(in alloc; "{n}")?;
    match HeaderValue::from_bytes(alloc, text.as_bytes()) {
        Ok(value) => Ok(value),
        Err(_) => Err(AllocError),
    }
}

/// Fills the response to a GET or HEAD of a folder with a page, of what a PROPFIND of it told. The folder of the prefix has no way up.
pub fn show(
    alloc: Global,
    told: &Element,
    prefix: &str,
    is_head: bool,
    response: &mut Response,
) -> Result<(), AllocError>
    ensures { OnOk result (response.new.status ≡ 200) }
{
    let page = page_of(alloc, told, prefix)?;
    response.status = StatusCode::OK;
    add_fields(alloc, page.len(), is_head, response)?;
    response
        .body
        .push(Bytes::copy_from_slice(alloc, page.as_bytes())?)?;
    Ok(())
}
