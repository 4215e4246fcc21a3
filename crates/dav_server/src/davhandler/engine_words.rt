//! What the engine tells and asks without a store: conditions, headers, errors, and the items of a walk. What is expected was worked out
//! by hand from RFC 9110 and RFC 4918.
use super::*;
use crate::rows::{NoRow, Player, play_rows};
use dav_core::element::Element;
use dav_core::errors::FsError;
use dav_core::fs::DavMetaData;
use dav_engine::ReplyBody;
use dav_engine::conditions::{Conditions, etaglist_match, http_if_match, ifrange_match};
use dav_engine::reply::multistatus::{MultiError, multi_error};
use dav_engine::reply::{set_header, set_length, set_location, set_validators};
use dav_headers::{ETag, IfMatch, IfRange};
use http_header::{HeaderMap, HeaderName, HeaderValue};
use std::test::Fail;

// What is asked, and of what, with bars between.
const WORDS: &str =
    r##"# whether If-Match holds of what is found: nothing, something without a tag, or something with this tag
list|*|untagged -> true
list|*|W/"a" -> true
list|*|nothing -> false
list|"a", "b"|"b" -> true
list|"a"|"b" -> false
list|"a"|untagged -> false
list|"a"|nothing -> false
list|W/"a"|"a" -> false
list|"a"|W/"a" -> false
list||"a" -> false
list|""|"" -> true
# whether If-Range holds
range|"a"|"a" -> true
range|"a"|"b" -> false
range|W/"a"|W/"a" -> false
range|"a"|untagged -> false
# the status of a request with If-Match and with If-None-Match, for a file of a change number
PUT|absent|absent|26 -> go on
PUT|"1a"|absent|26 -> go on
PUT|"1b"|absent|26 -> 412
PUT|W/"1a"|absent|26 -> 412
PUT|*|absent|26 -> go on
PUT|*|absent|nothing -> 412
GET|absent|"1a"|26 -> 304
HEAD|absent|"1a"|26 -> 304
PUT|absent|"1a"|26 -> 412
GET|absent|"1b"|26 -> go on
PUT|absent|*|nothing -> go on
PUT|absent|*|26 -> 412
GET|"1b"|*|26 -> 412
PUT|é|absent|nothing -> go on
GET|absent|é|26 -> go on
# whether If-Match wants that something is there, and whether If-None-Match wants that nothing is
stars|absent|absent -> false false
stars|*|"a" -> true false
stars|"a"|* -> false true
# the validators of a file with a change number, at a time in seconds; the second one is that of RFC 9110's own example of a date
file|2|1 -> etag: "2"; last-modified: Thu, 01 Jan 1970 00:00:01 GMT;
file|26|784111777 -> etag: "1a"; last-modified: Sun, 06 Nov 1994 08:49:37 GMT;
file|18446744073709551615|951782400 -> etag: "ffffffffffffffff"; last-modified: Tue, 29 Feb 2000 00:00:00 GMT;
file|none|253402300799 -> last-modified: Fri, 31 Dec 9999 23:59:59 GMT;
# the location of a path below a prefix
path|/a/| -> content-location: /a/;
path|/p/a%20b/|/p -> content-location: /p/a%20b/;
path|/p/%c3%a9|/p -> content-location: /p/%C3%A9;
# a header in the place of two of its name, and a length
allow|HEAD|18446744073709551615 -> allow: HEAD; content-length: 18446744073709551615;
# the reply to an error
error|501 -> 501 content-length: 0; without a body
error|423 -> 423 content-length: 0; without a body
error|close 409 -> 409 connection: close; content-length: 0; without a body
error|close 400 -> 400 connection: close; content-length: 0; without a body
error|Forbidden -> 403 content-length: 0; without a body
error|InsufficientStorage -> 507 content-length: 0; without a body
error|Memory -> 507 content-length: 0; without a body
# the items of a walk at the path of a request: its own alone is its status
items|/d|/d 423 -> 423
items|/d|/d/ 204 -> 204
items|/d/|/d 405 -> 405
items|/d|/d/b 403 -> 207 application/xml; charset=utf-8 /d/b HTTP/1.1 403 Forbidden
items|/d|/e 204 -> 207 application/xml; charset=utf-8 /e HTTP/1.1 200 OK
items|/d|/e 201 -> 207 application/xml; charset=utf-8 /e HTTP/1.1 201 Created
items|/d|/d/a%20b 507, /d 409 -> 207 application/xml; charset=utf-8 /d/a%20b HTTP/1.1 507 Insufficient Storage /d HTTP/1.1 409 Conflict
items|/d|/d 403, /d 403 -> 207 application/xml; charset=utf-8 /d HTTP/1.1 403 Forbidden /d HTTP/1.1 403 Forbidden
items|/d| -> ChanError
"##;

// The tag of what is found.
fn tag_in(alloc: Global, text: &str) -> Result<Option<ETag>, Fail> {
    match text {
        "nothing" | "untagged" => Ok(None),
        _ => Ok(Some(ETag::from_str(alloc, text)?)),
    }
}

// Whether a list of tags holds of what is found.
fn list_holds(alloc: Global, text: &str, found: &str) -> Result<bool, Fail> {
    let values = [HeaderValue::from_str(alloc, text)?];
    let list = IfMatch::decode(alloc, &values)?.0;
    let tag = tag_in(alloc, found)?;
    Ok(etaglist_match(&list, found != "nothing", tag.as_ref()))
}

// Whether the tag of a range is that of what is found.
fn range_holds(alloc: Global, text: &str, found: &str) -> Result<bool, Fail> {
    let values = [HeaderValue::from_str(alloc, text)?];
    let range = IfRange::decode(alloc, &values)?;
    let tag = tag_in(alloc, found)?;
    Ok(ifrange_match(&range, tag.as_ref()))
}

// A request at /a, with these texts of If-Match and If-None-Match.
fn conditional(
    alloc: Global,
    method: &str,
    if_match: &str,
    if_none_match: &str,
) -> Result<DavRequest, Fail> {
    let mut headers = HeaderMap::new(alloc);
    for (name, text) in [("if-match", if_match), ("if-none-match", if_none_match)] {
        if text != "absent" {
            headers.append(name, HeaderValue::from_str(alloc, text)?)?;
        }
    }
    Ok(DavRequest {
        method: method_of(method.as_bytes())?,
        path: DavPath::new(alloc, "/a")?,
        headers,
    })
}

// The file that is found, of this change number.
fn found_in(text: &str) -> Result<Option<DavMetaData>, Fail> {
    match text {
        "nothing" => Ok(None),
        _ => Ok(Some(DavMetaData {
            len: 3,
            dir: false,
            created: 1,
            modified: 1,
            number: Some(text.parse::<u64>()?),
        })),
    }
}

// The status of a request with conditions, for what is found.
fn status_of(alloc: Global, request: &DavRequest, found: &str) -> Result<String, Fail> {
    let found = found_in(found)?;
    match http_if_match(alloc, request, found.as_ref())? {
        Some(status) => Ok(format!(in alloc; "{}", status.as_u16())?),
        None => Ok(String::from_str(alloc, "go on")?),
    }
}

// What the stars of a request want.
fn stars(alloc: Global, request: &DavRequest) -> Result<String, Fail> {
    let conditions = Conditions::decode(alloc, request, &request.path)?;
    let (some, none) = (conditions.wants_something(), conditions.wants_nothing());
    Ok(format!(in alloc; "{some} {none}")?)
}

// The headers in their order, each with a semicolon after it.
fn headers_shown(alloc: Global, headers: &HeaderMap) -> Result<String, Fail> {
    let mut out = String::new(alloc);
    for (name, value) in headers.iter() {
        if !out.is_empty() {
            out.push(' ')?;
        }
        out.push_str(name.as_str())?;
        out.push_str(": ")?;
        out.push_str(value.to_str()?)?;
        out.push(';')?;
    }
    Ok(out)
}

// The validators of a file.
fn validators(alloc: Global, number: &str, modified: &str) -> Result<String, Fail> {
    let modified = modified.parse::<u64>()?;
    if modified > 253402300799 {
        return Err(Fail::from("a year has at most four digits"));
    }
    let number = match number {
        "none" => None,
        _ => Some(number.parse::<u64>()?),
    };
    let file = DavMetaData {
        len: 3,
        dir: false,
        created: 1,
        modified,
        number,
    };
    let mut headers = HeaderMap::new(alloc);
    set_validators(alloc, &mut headers, &file)?;
    headers_shown(alloc, &headers)
}

// The location of a path.
fn location(alloc: Global, target: &str, prefix: &str) -> Result<String, Fail> {
    let mut path = DavPath::new(alloc, target)?;
    path.set_prefix(prefix)?;
    let mut headers = HeaderMap::new(alloc);
    set_location(alloc, &mut headers, &path)?;
    headers_shown(alloc, &headers)
}

// An `allow` in the place of two others, and a length.
fn replaced(alloc: Global, allow: &str, len: &str) -> Result<String, Fail> {
    let mut headers = HeaderMap::new(alloc);
    headers.append("allow", HeaderValue::from_static("GET"))?;
    headers.append("allow", HeaderValue::from_static("PUT"))?;
    let allow = HeaderValue::from_str(alloc, allow)?;
    set_header(&mut headers, HeaderName::from_static("allow"), allow)?;
    set_length(alloc, &mut headers, len.parse::<u64>()?)?;
    headers_shown(alloc, &headers)
}

// An error by its name.
fn error_of(name: &'static str) -> Result<DavError, Fail> {
    match name {
        "Forbidden" => Ok(DavError::FsError(FsError::Forbidden)),
        "InsufficientStorage" => Ok(DavError::FsError(FsError::InsufficientStorage)),
        "Memory" => Ok(DavError::Memory),
        _ => match name.strip_prefix("close ") {
            Some(code) => Ok(DavError::StatusClose(StatusCode::from_bytes(code.as_bytes())?)),
            None => Ok(DavError::Status(StatusCode::from_bytes(name.as_bytes())?)),
        },
    }
}

// The reply to an error.
fn error_shown(alloc: Global, name: &'static str) -> Result<String, Fail> {
    let reply = Reply::of_error(alloc, error_of(name)?)?;
    let headers = headers_shown(alloc, &reply.headers)?;
    let body = match &reply.body {
        ReplyBody::Nothing => "without a body",
        _ => "with a body",
    };
    Ok(format!(in alloc; "{} {headers} {body}", reply.status.as_u16())?)
}

// The items of a walk.
fn items_in(alloc: Global, text: &str) -> Result<Vec<(DavPath, StatusCode)>, Fail> {
    let mut errors = MultiError::new(Vec::new(alloc));
    for item in text.split(", ") {
        if let Some((path, status)) = item.split_once(' ') {
            let path = DavPath::new(alloc, path)?;
            errors.add_status(&path, StatusCode::from_bytes(status.as_bytes())?)?;
        }
    }
    Ok(errors.into_items())
}

// Adds the texts of the parts of a response.
fn add_texts(alloc: Global, out: &mut String, response: &Element) -> Result<(), Fail> {
    for part in response.child_elems() {
        if let Some(text) = part.get_text(alloc)? {
            out.push(' ')?;
            out.push_str(&text)?;
        }
    }
    Ok(())
}

// The status of a reply, the values of its headers, and the texts of its responses.
fn reply_shown(alloc: Global, reply: &Reply) -> Result<String, Fail> {
    let mut out = format!(in alloc; "{}", reply.status.as_u16())?;
    for (_, value) in reply.headers.iter() {
        out.push(' ')?;
        out.push_str(value.to_str()?)?;
    }
    if let ReplyBody::Tree(tree) = &reply.body {
        for response in tree.child_elems() {
            add_texts(alloc, &mut out, response)?;
        }
    }
    Ok(out)
}

// What the items of a walk are answered with.
fn items_shown(alloc: Global, path: &str, items: &str) -> Result<String, Fail> {
    let path = DavPath::new(alloc, path)?;
    match multi_error(alloc, &path, items_in(alloc, items)?) {
        Ok(reply) => reply_shown(alloc, &reply),
        Err(error) => Ok(format!(in alloc; "{error}")?),
    }
}

// What a word of the engine says of two texts.
fn said(
    alloc: Global,
    word: &'static str,
    first: &'static str,
    second: &'static str,
) -> Result<String, Fail> {
    match word {
        "list" => Ok(format!(in alloc; "{}", list_holds(alloc, first, second)?)?),
        "range" => Ok(format!(in alloc; "{}", range_holds(alloc, first, second)?)?),
        "stars" => stars(alloc, &conditional(alloc, "PUT", first, second)?),
        "file" => validators(alloc, first, second),
        "path" => location(alloc, first, second),
        "allow" => replaced(alloc, first, second),
        "items" => items_shown(alloc, first, second),
        _ => {
            let (second, found) = second.split_once('|').ok_or(NoRow(second))?;
            status_of(alloc, &conditional(alloc, word, first, second)?, found)
        }
    }
}

// Asks for words of the engine.
#[derive(Drop)]
struct Words;

impl Player for Words {
    fn begin(&mut self, _alloc: Global) -> Result<(), Fail> {
        Ok(())
    }

    fn answer(&mut self, alloc: Global, question: &'static str) -> Result<Vec<u8>, Fail> {
        let (word, texts) = question.split_once('|').ok_or(NoRow(question))?;
        let said = match texts.split_once('|') {
            Some((first, second)) => said(alloc, word, first, second)?,
            None => error_shown(alloc, texts)?,
        };
        Ok(said.into_bytes())
    }
}

#[test]
fn says_words_of_the_engine(rt: HostRuntime) -> Result<(), Fail> {
    play_rows(&rt, &mut Words, WORDS)
}
