//! What is sent by ranges and conditions that are read already.
ghost use Rattle.std.specs.Prelude.{IfSome};
ghost use Rattle.dav_presented.specs.Range.{IsSpec};

use super::halves;
use bytes::Bytes;
use dav_presented::parts::{Conditions, Part, Spec, Verdict, decide, part_of, presented, shown};
use std::alloc::{AllocError, Global};
use std::process::Abort;
use std::test::Fail;

// A range of so many bytes, and the part that it asks for; `-` where no byte is in it.
const PARTS: &str = "\
# the examples of RFC 9110, section 14.4
0-499/1234 -> 0-499
500-999/1234 -> 500-999
500-/1234 -> 500-1233
-500/1234 -> 734-1233
# those of section 14.1.2
0-499/10000 -> 0-499
500-999/10000 -> 500-999
-500/10000 -> 9500-9999
9500-/10000 -> 9500-9999
0-0/10000 -> 0-0
-1/10000 -> 9999-9999
# longer than what is there
9999-20000/10000 -> 9999-9999
-20000/10000 -> 0-9999
# behind the end, and of no bytes
10000-/10000 -> -
10000-10000/10000 -> -
-0/10000 -> -
0-/0 -> -
0-0/0 -> -
-5/0 -> all
";

fn number(text: &str) -> usize {
    text.parse::<usize>().unwrap_or(0)
}

fn spec(text: &str) -> Spec
    ensures { IsSpec result }
{
    let (first, last) = text.split_once("-").unwrap_or((text, ""));
    if first.is_empty() {
        return Spec::Suffix(number(last));
    }
    if last.is_empty() {
        return Spec::From(number(first));
    }
    let (first, last) = (number(first), number(last));
    if last < first {
        return Spec::From(first);
    }
    Spec::Between(first, last)
}

fn part_text(alloc: Global, part: Part) -> Result<String, AllocError> {
    match part {
        Part::Whole => String::from_str(alloc, "all"),
        Part::Bytes(first, last) => format!(in alloc; "{first}-{last}"),
        Part::Unsatisfiable => String::from_str(alloc, "-"),
    }
}

#[test]
fn finds_parts(rt: HostRuntime) -> Result<(), Fail> {
    for row in PARTS.lines() {
        if let Some((input, wanted)) = halves(row) {
            let (range, len) = input.split_once("/").unwrap_or((input, ""));
            let found = part_text(rt.alloc(), part_of(spec(range), number(len)))?;
            assert!(&rt; found.as_str() == wanted, "{row}\ngives: {found}");
        }
    }
    Ok(())
}

fn asked(range: Option<Spec>) -> Conditions
    requires { IfSome range IsSpec }
    ensures { IfSome result.range IsSpec }
{
    Conditions {
        is_get: true,
        has_match: false,
        has_none_match: false,
        names_tag: false,
        modified_since: None,
        unmodified_since: None,
        may_be_part: true,
        range,
    }
}

#[test]
fn sends_a_part(rt: HostRuntime) -> Result<(), Fail> {
    let alloc = rt.alloc();
    let asked = asked(Some(Spec::Between(2, 4)));
    assert_eq!(rt; decide(&asked, 1000, 10), Verdict::Part(2, 4));
    let body = Bytes::copy_from_slice(alloc, b"0123456789")?;
    let part = shown(&body, 2, 4)?;
    let sent = presented(alloc, &asked, 1000, body)?;
    assert_eq!(rt; sent.status, 206);
    assert_eq!(rt; sent.content_range.as_deref(), Some("bytes 2-4/10"));
    assert!(&rt; sent.body == part, "the bytes of the part");
    Ok(())
}

#[test]
fn judges_dates(rt: HostRuntime) -> Result<(), Fail> {
    let mut asked = asked(None);
    asked.unmodified_since = Some(999);
    assert_eq!(rt; decide(&asked, 1000, 10), Verdict::Failed);
    asked.has_match = true;
    assert_eq!(rt; decide(&asked, 1000, 10), Verdict::Whole);
    asked.modified_since = Some(1000);
    assert_eq!(rt; decide(&asked, 1000, 10), Verdict::NotModified);
    asked.has_none_match = true;
    assert_eq!(rt; decide(&asked, 1000, 10), Verdict::Whole);
    asked.names_tag = true;
    assert_eq!(rt; decide(&asked, 1000, 10), Verdict::NotModified);
    Ok(())
}
