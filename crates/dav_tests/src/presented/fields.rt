//! What the fields of a request ask, and what is sent by them.
use super::{halves, values};
use bytes::Bytes;
use dav_headers::ETag;
use dav_presented::fields::{
    Fields, answer_to, conditions_in, date_in, may_be_part, names_tag, range_in,
};
use dav_presented::parts::{Sent, Spec};
use std::alloc::{AllocError, Global};
use std::process::Abort;
use std::test::Fail;

// The date of the examples of RFC 9110, section 5.6.7, in seconds since 1970 began.
const CHANGED: u64 = 784111777;

// A Range, and its range; `-` for none (RFC 9110, sections 14.1.1, 14.1.2 and 14.2).
const RANGES: &str = "\
Range: bytes=0-0 -> 0-0
Range: bytes=500-999 -> 500-999
Range: bytes=9500- -> 9500-
Range: bytes=-500 -> last 500
Range: bytes=-1 -> last 1
Range: bytes=-0 -> last 0
# no range
Range: bytes=9-5 -> -
Range: bytes=- -> -
Range: bytes=5 -> -
Range: bytes=+5-9 -> -
Range: bytes=a-b -> -
Range: append -> -
If-Range: bytes=0-0 -> -
# several ranges, another unit, two values
Range: bytes=0-0,-1 -> -
Range: bytes= 0-999, 4500-5499, -1000 -> -
Range: lines=5-9 -> -
Range: bytes=0-0 | Range: bytes=0-0 -> -
";

// A date, and its seconds since 1970 began; `-` for none (RFC 9110, section 5.6.7).
const DATES: &str = "\
# the three formats
Date: Sun, 06 Nov 1994 08:49:37 GMT -> 784111777
Date: Sunday, 06-Nov-94 08:49:37 GMT -> 784111777
Date: Sun Nov  6 08:49:37 1994 -> 784111777
# the first moment, and a day of a leap year
Date: Thu, 01 Jan 1970 00:00:00 GMT -> 0
Date: Tue, 29 Feb 2000 23:59:59 GMT -> 951868799
# no date: another zone, no such day, a number, two dates
Date: Sun, 06 Nov 1994 08:49:37 CET -> -
Date: Mon, 30 Feb 1995 00:00:00 GMT -> -
Date: 784111777 -> -
Date: soon -> -
Date: Sun, 06 Nov 1994 08:49:37 GMT | Date: Sun, 06 Nov 1994 08:49:37 GMT -> -
If-Match: Sun, 06 Nov 1994 08:49:37 GMT -> -
";

// If-None-Match, and whether it names the file with the tag \"a\" (RFC 9110, sections 8.8.3.2 and 13.1.2).
const TAGS: &str = "\
If-None-Match: \"a\" -> true
If-None-Match: W/\"a\" -> true
If-None-Match: \"b\", W/\"a\" -> true
If-None-Match: \"b\" | If-None-Match: \"a\" -> true
If-None-Match: * -> true
If-None-Match: \"b\" -> false
If-None-Match: W/\"b\" -> false
If-None-Match: a -> false
If-Match: \"a\" -> false
";

// If-Range, and whether a part may be sent of the file with the tag \"a\" of that date, to a request of the
// second after it (RFC 9110, sections 8.8.2.2 and 13.1.5).
const IF_RANGES: &str = "\
Range: bytes=0-0 -> true
If-Range: \"a\" -> true
If-Range: W/\"a\" -> false
If-Range: \"b\" -> false
If-Range: Sun, 06 Nov 1994 08:49:37 GMT -> true
If-Range: Sunday, 06-Nov-94 08:49:37 GMT -> true
If-Range: Sun, 06 Nov 1994 08:49:36 GMT -> false
If-Range: Sun, 06 Nov 1994 08:49:38 GMT -> false
If-Range: soon -> false
If-Range: \"a\" | If-Range: \"a\" -> false
";

fn range_text(alloc: Global, spec: Option<Spec>) -> Result<String, AllocError> {
    match spec {
        Some(Spec::Between(first, last)) => format!(in alloc; "{first}-{last}"),
        Some(Spec::From(first)) => format!(in alloc; "{first}-"),
        Some(Spec::Suffix(count)) => format!(in alloc; "last {count}"),
        None => String::from_str(alloc, "-"),
    }
}

fn date_text(alloc: Global, date: Option<u64>) -> Result<String, AllocError> {
    match date {
        Some(date) => format!(in alloc; "{date}"),
        None => String::from_str(alloc, "-"),
    }
}

fn tag(alloc: Global) -> Result<ETag, Fail> {
    match ETag::new(alloc, false, "a") {
        Ok(tag) => Ok(tag),
        Err(_) => Err("no tag".into()),
    }
}

#[test]
fn reads_ranges(rt: HostRuntime) -> Result<(), Fail> {
    let alloc = rt.alloc();
    for row in RANGES.lines() {
        if let Some((fields, wanted)) = halves(row) {
            let range = range_in(alloc, &values(alloc, fields, "Range")?);
            let found = range_text(alloc, range)?;
            assert!(&rt; found.as_str() == wanted, "{row}\ngives: {found}");
        }
    }
    Ok(())
}

#[test]
fn reads_dates(rt: HostRuntime) -> Result<(), Fail> {
    let alloc = rt.alloc();
    for row in DATES.lines() {
        if let Some((fields, wanted)) = halves(row) {
            let date = date_in(&values(alloc, fields, "Date")?);
            let found = date_text(alloc, date)?;
            assert!(&rt; found.as_str() == wanted, "{row}\ngives: {found}");
        }
    }
    Ok(())
}

#[test]
fn finds_tags(rt: HostRuntime) -> Result<(), Fail> {
    let alloc = rt.alloc();
    let tag = tag(alloc)?;
    for row in TAGS.lines() {
        if let Some((fields, wanted)) = halves(row) {
            let found = names_tag(alloc, &values(alloc, fields, "If-None-Match")?, Some(&tag))?;
            assert!(&rt; found == (wanted == "true"), "{row}");
        }
    }
    Ok(())
}

#[test]
fn tells_whether_a_part_may_be_sent(rt: HostRuntime) -> Result<(), Fail> {
    let alloc = rt.alloc();
    let tag = tag(alloc)?;
    for row in IF_RANGES.lines() {
        if let Some((fields, wanted)) = halves(row) {
            let given = values(alloc, fields, "If-Range")?;
            let found = may_be_part(alloc, &given, Some(&tag), CHANGED, CHANGED + 1)?;
            assert!(&rt; found == (wanted == "true"), "{row}");
        }
    }
    Ok(())
}

// A date of the second of the request is no strong validator (RFC 9110, section 8.8.2.2); a tag is one.
#[test]
fn a_date_of_this_second_is_none(rt: HostRuntime) -> Result<(), Fail> {
    let alloc = rt.alloc();
    let tag = tag(alloc)?;
    let dates = values(alloc, "If-Range: Sun, 06 Nov 1994 08:49:37 GMT", "If-Range")?;
    let tags = values(alloc, "If-Range: \"a\"", "If-Range")?;
    let by_date = may_be_part(alloc, &dates, Some(&tag), CHANGED, CHANGED)?;
    let by_tag = may_be_part(alloc, &tags, Some(&tag), CHANGED, CHANGED)?;
    assert_eq!(rt; (by_date, by_tag), (false, true));
    Ok(())
}

// What is sent of ten bytes with the tag \"a\" of that date, to a request of the second after it: the status,
// Content-Range and the body (RFC 9110, sections 13.1, 13.2.2, 14.2, 14.4 and 15).
const ANSWERS: &str = "\
GET -> 200 [0123456789]
# parts
GET | Range: bytes=0-0 -> 206 bytes 0-0/10 [0]
GET | Range: bytes=-1 -> 206 bytes 9-9/10 [9]
GET | Range: bytes=5- -> 206 bytes 5-9/10 [56789]
GET | Range: bytes=2-4 -> 206 bytes 2-4/10 [234]
GET | Range: bytes=9-9 -> 206 bytes 9-9/10 [9]
GET | Range: bytes=0- -> 206 bytes 0-9/10 [0123456789]
GET | Range: bytes=8-99 -> 206 bytes 8-9/10 [89]
GET | Range: bytes=-99 -> 206 bytes 0-9/10 [0123456789]
# a first place behind the end, and no bytes at the end
GET | Range: bytes=10- -> 416 bytes */10 []
GET | Range: bytes=10-20 -> 416 bytes */10 []
GET | Range: bytes=-0 -> 416 bytes */10 []
# several ranges, another unit, no range, two values, another method
GET | Range: bytes=0-0,-1 -> 200 [0123456789]
GET | Range: lines=0-1 -> 200 [0123456789]
GET | Range: bytes=7-5 -> 200 [0123456789]
GET | Range: bytes=0-0 | Range: bytes=1-1 -> 200 [0123456789]
HEAD | Range: bytes=0-0 -> 200 [0123456789]
HEAD | Range: bytes=10- -> 200 [0123456789]
# If-Range
GET | Range: bytes=0-0 | If-Range: \"a\" -> 206 bytes 0-0/10 [0]
GET | Range: bytes=0-0 | If-Range: W/\"a\" -> 200 [0123456789]
GET | Range: bytes=0-0 | If-Range: \"b\" -> 200 [0123456789]
GET | Range: bytes=10- | If-Range: \"b\" -> 200 [0123456789]
GET | Range: bytes=0-0 | If-Range: Sun, 06 Nov 1994 08:49:37 GMT -> 206 bytes 0-0/10 [0]
GET | Range: bytes=0-0 | If-Range: Sun, 06 Nov 1994 08:49:36 GMT -> 200 [0123456789]
# If-None-Match
GET | If-None-Match: W/\"a\" -> 304 []
HEAD | If-None-Match: W/\"a\" -> 304 []
GET | If-None-Match: \"b\" -> 200 [0123456789]
GET | If-None-Match: W/\"a\" | Range: bytes=0-0 -> 304 []
# If-Modified-Since, which counts without If-None-Match
GET | If-Modified-Since: Sun, 06 Nov 1994 08:49:37 GMT -> 304 []
GET | If-Modified-Since: Sunday, 06-Nov-94 08:49:38 GMT -> 304 []
GET | If-Modified-Since: Sun Nov  6 08:49:36 1994 -> 200 [0123456789]
GET | If-Modified-Since: soon -> 200 [0123456789]
HEAD | If-Modified-Since: Sun, 06 Nov 1994 08:49:37 GMT -> 304 []
GET | If-Modified-Since: Sun, 06 Nov 1994 08:49:37 GMT | If-None-Match: \"b\" -> 200 [0123456789]
# If-Unmodified-Since, which counts without If-Match
GET | If-Unmodified-Since: Sun, 06 Nov 1994 08:49:37 GMT -> 200 [0123456789]
GET | If-Unmodified-Since: Sun, 06 Nov 1994 08:49:36 GMT -> 412 []
HEAD | If-Unmodified-Since: Sun, 06 Nov 1994 08:49:36 GMT -> 412 []
GET | If-Unmodified-Since: soon -> 200 [0123456789]
GET | If-Unmodified-Since: Sun, 06 Nov 1994 08:49:36 GMT | If-Match: \"a\" -> 200 [0123456789]
GET | If-Unmodified-Since: Sun, 06 Nov 1994 08:49:36 GMT | If-None-Match: W/\"a\" -> 412 []
";

fn sent_text(alloc: Global, sent: &Sent) -> Result<String, AllocError> {
    let body = std::str::from_utf8(&sent.body).unwrap_or("?");
    match &sent.content_range {
        Some(range) => format!(in alloc; "{} {range} [{body}]", sent.status),
        None => format!(in alloc; "{} [{body}]", sent.status),
    }
}

fn answer(alloc: Global, tag: &ETag, input: &str) -> Result<Sent, Fail> {
    let if_match = values(alloc, input, "If-Match")?;
    let if_none_match = values(alloc, input, "If-None-Match")?;
    let if_modified_since = values(alloc, input, "If-Modified-Since")?;
    let if_unmodified_since = values(alloc, input, "If-Unmodified-Since")?;
    let if_range = values(alloc, input, "If-Range")?;
    let range = values(alloc, input, "Range")?;
    let fields = Fields {
        is_get: input.starts_with("GET"),
        if_match: &if_match,
        if_none_match: &if_none_match,
        if_modified_since: &if_modified_since,
        if_unmodified_since: &if_unmodified_since,
        if_range: &if_range,
        range: &range,
    };
    let body = Bytes::copy_from_slice(alloc, b"0123456789")?;
    Ok(answer_to(alloc, fields, Some(tag), CHANGED, CHANGED + 1, body)?)
}

#[test]
fn answers_by_its_fields(rt: HostRuntime) -> Result<(), Fail> {
    let alloc = rt.alloc();
    let tag = tag(alloc)?;
    for row in ANSWERS.lines() {
        if let Some((input, wanted)) = halves(row) {
            let found = sent_text(alloc, &answer(alloc, &tag, input)?)?;
            assert!(&rt; found.as_str() == wanted, "{row}\ngives: {found}");
        }
    }
    Ok(())
}

#[test]
fn reads_all_fields(rt: HostRuntime) -> Result<(), Fail> {
    let alloc = rt.alloc();
    let range = values(alloc, "Range: bytes=5-", "Range")?;
    let fields = Fields {
        is_get: true,
        if_match: &[],
        if_none_match: &[],
        if_modified_since: &[],
        if_unmodified_since: &[],
        if_range: &[],
        range: &range,
    };
    let asked = conditions_in(alloc, fields, None, CHANGED, CHANGED)?;
    assert_eq!(rt; asked.range, Some(Spec::From(5)));
    assert_eq!(rt; asked.may_be_part, true);
    Ok(())
}
