//! Tags and headers made from texts, as they are written.
use super::*;
use crate::etag_list::ETagList;
use http_header::HeaderValue;
use std::process::Abort;
use std::str;

// A row: what is made, a text between bars, ` -> `, and the outcome: what is written, or `!` for a refusal. `tag`
// parses the text of a whole tag; `weak-tag` and `strong-tag` take the text between the quotes.
const ROWS: &str = r##"
# Tags of the text between their quotes
weak-tag |12345| -> W/"12345" is weak
strong-tag || -> "" is strong
strong-tag |a"b| -> !

# Texts of tags
tag |""| -> "" is strong
tag |"a"| -> "a" is strong
tag |W/"a"| -> W/"a" is weak
tag |"a,b"| -> "a,b" is strong
tag |"W/"| -> "W/" is strong
tag |W/""| -> W/"" is weak
tag |"é"| -> "é" is strong
tag || -> !
tag |"| -> !
tag |a| -> !
tag |"a| -> !
tag |a"| -> !
tag |"""| -> !
tag |"a"b"| -> !
tag |w/"a"| -> !
tag |W"a"| -> !
tag |W/| -> !
tag |W/"| -> !
tag |W/W/"a"| -> !
tag | "a"| -> !
tag |"a" | -> !
tag |*| -> !

# What is no text in a header can't be written
etag |é| -> !
if-match |é| -> !
destination |/é| -> !
content-type |é| -> !
content-type |a\x0Ab| -> !
content-type |\x7F| -> !
content-location |é| -> !
content-location |a\x0Ab| -> !
content-location |\x7F| -> !
lock-token |é| -> !
lock-token |a\x0Ab| -> !
lock-token |\x7F| -> !
x-litmus |é| -> !
x-litmus |a\x0Ab| -> !
x-litmus |\x7F| -> !
"##;

// A copy of a tag as text, and whether it is weak.
fn tag_text(alloc: Global, tag: ETag) -> Result<String, HeaderError> {
    let copy = tag.clone()?;
    let strength = if copy.is_weak() { "weak" } else { "strong" };
    Ok(format!(in alloc; "{copy} is {strength}")?)
}

// If-Match with one strong tag.
fn if_match(alloc: Global, text: &str) -> Result<IfMatch, HeaderError> {
    let mut tags = Vec::new(alloc);
    tags.push(ETag::new(alloc, false, text)?)?;
    Ok(IfMatch(ETagList::Tags(tags)))
}

// What is written for a header made from a text.
fn header_value(alloc: Global, name: &str, text: &str) -> Result<HeaderValue, HeaderError> {
    match name {
        "etag" => ETag::new(alloc, false, text)?.encode(alloc),
        "if-match" => if_match(alloc, text)?.encode(alloc),
        "destination" => Destination(String::from_str(alloc, text)?).encode(alloc),
        "content-type" => ContentType(String::from_str(alloc, text)?).encode(alloc),
        "content-location" => ContentLocation(String::from_str(alloc, text)?).encode(alloc),
        "lock-token" => LockToken(String::from_str(alloc, text)?).encode(alloc),
        "x-litmus" => XLitmus(String::from_str(alloc, text)?).encode(alloc),
        _ => Err(HeaderError::Memory),
    }
}

// What is made from a text, as text.
fn made(alloc: Global, name: &str, text: &str) -> Result<String, HeaderError> {
    match name {
        "tag" => tag_text(alloc, ETag::from_str(alloc, text)?),
        "weak-tag" => tag_text(alloc, ETag::new(alloc, true, text)?),
        "strong-tag" => tag_text(alloc, ETag::new(alloc, false, text)?),
        _ => {
            let value = header_value(alloc, name, text)?;
            Ok(String::from_str(alloc, value.to_str().unwrap_or("?"))?)
        }
    }
}

// Plays a row; the test fails where the outcome isn't the expected one.
fn play(rt: &impl Abort, alloc: Global, row: &str) -> Result<(), Fail> {
    let (name, text, wanted) = parts(row).ok_or("a line is no row")?;
    let text = text.strip_suffix('|').ok_or("a row has no text")?;
    let text = unescaped(alloc, text)?;
    let made = made(alloc, name, str::from_utf8(&text)?);
    let outcome = outcome_text(alloc, made)?;
    assert!(rt; outcome.as_str() == wanted, "{row}\ngives: {outcome}");
    Ok(())
}

#[test]
fn makes_tags_and_headers(rt: HostRuntime) -> Result<(), Fail> {
    let mut count = 0u32;
    for line in ROWS.lines() {
        if is_row(line) {
            play(&rt, rt.alloc(), line)?;
            count = count.wrapping_add(1);
        }
    }
    same(&rt, &count, &40);
    Ok(())
}

#[test]
fn writes_what_no_text_is_read_as(rt: HostRuntime) -> Result<(), Fail> {
    let refused = Depth::Default.encode(rt.alloc()).err();
    same(&rt, &refused, &Some(HeaderError::Invalid));
    let none = Timeout(Vec::new(rt.alloc())).encode(rt.alloc())?;
    same(&rt, &none.as_bytes(), &b"".as_slice());
    Ok(())
}

#[test]
fn compares_tags(rt: HostRuntime) -> Result<(), Fail> {
    let weak = ETag::from_str(rt.alloc(), "W/\"12345\"")?;
    let strong = ETag::from_str(rt.alloc(), "\"12345\"")?;
    let other = ETag::from_str(rt.alloc(), "\"12346\"")?;
    let copy = strong.clone()?;
    let with_weak = [
        weak.strong_eq(&weak),
        weak.strong_eq(&strong),
        strong.strong_eq(&weak),
    ];
    same(&rt, &with_weak, &[false; 3]);
    let of_strong = [
        strong.strong_eq(&other),
        other.strong_eq(&other),
        copy.strong_eq(&strong),
    ];
    same(&rt, &of_strong, &[false, true, true]);
    let weakly = [
        weak.weak_eq(&weak),
        weak.weak_eq(&strong),
        strong.weak_eq(&other),
    ];
    same(&rt, &weakly, &[true, true, false]);
    Ok(())
}
