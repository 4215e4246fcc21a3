//! What a 200 to GET or HEAD is sent as (RFC 9110, section 13.2.2).
ghost use Rattle.std.specs.Prelude.{◌≡◌, IfSome};
ghost use Rattle.dav_presented.specs.Range.{IsSpec};
ghost use Rattle.dav_presented.specs.Verdict.{is_later, is_not_later, ranged, verdict_of, IsWithinBody};

use crate::parts::range::{Part, Spec, part_of};

/// What the head of a GET or HEAD asks beside what the machine judges (RFC 9110, section 13.1). The
/// machine judges If-Match, and If-None-Match by the strong comparison.
#[derive(Clone, Copy, Debug, PartialEq, Eq)]
pub struct Conditions {
    /// Whether the method is GET, the only one with parts (section 14.2).
    pub is_get: bool,
    /// Whether there is an If-Match (section 13.1.1).
    pub has_match: bool,
    /// Whether there is an If-None-Match (section 13.1.2).
    pub has_none_match: bool,
    /// Whether If-None-Match names the file's tag by the weak comparison (section 13.1.2).
    pub names_tag: bool,
    /// If-Modified-Since in seconds since 1970 began, where it is one date (section 13.1.3).
    pub modified_since: Option<u64>,
    /// If-Unmodified-Since in seconds since 1970 began, where it is one date (section 13.1.4).
    pub unmodified_since: Option<u64>,
    /// Whether If-Range is absent, or names the file as it is (section 13.1.5).
    pub may_be_part: bool,
    /// Range, where it is one range of bytes (section 14.2).
    pub range: Option<Spec>,
}

/// What the reply is sent as (RFC 9110, section 15).
#[derive(Clone, Copy, Debug, PartialEq, Eq)]
pub enum Verdict {
    /// 200, with all bytes (section 15.3.1).
    Whole,
    /// 304 (section 15.4.5).
    NotModified,
    /// 412 (section 15.5.13).
    Failed,
    /// 206, with the bytes from one place to another, both among them (section 15.3.7).
    Part(usize, usize),
    /// 416 (section 15.5.17).
    Unsatisfiable,
}

// Whether a file was changed after this moment.
fn is_later(modified: u64, moment: Option<u64>) -> bool
    ensures { result ≡ is_later modified moment }
{
    match moment {
        Some(moment) => moment < modified,
        None => false,
    }
}

// Whether a file wasn't changed after this moment.
fn is_not_later(modified: u64, moment: Option<u64>) -> bool
    ensures { result ≡ is_not_later modified moment }
{
    match moment {
        Some(moment) => moment >= modified,
        None => false,
    }
}

// What a file of so many bytes is sent as by a range.
fn ranged(asked: &Conditions, len: usize, range: Option<Spec>) -> Verdict
    requires { IfSome range IsSpec }
    ensures is { result ≡ ranged asked.now len range }
    ensures within { IsWithinBody len result }
{
    let Some(spec) = range else {
        return Verdict::Whole;
    };
    if !(asked.is_get && asked.may_be_part) {
        return Verdict::Whole;
    }
    match part_of(spec, len) {
        Part::Whole => Verdict::Whole,
        Part::Bytes(first, last) => Verdict::Part(first, last),
        Part::Unsatisfiable => Verdict::Unsatisfiable,
    }
}

/// What a 200 about a file of `len` bytes is sent as, which was changed last at `modified`, in seconds
/// since 1970 began (RFC 9110, section 13.2.2).
pub fn decide(asked: &Conditions, modified: u64, len: usize) -> Verdict
    requires { IfSome asked.now.range IsSpec }
    ensures is { result ≡ verdict_of asked.now modified len }
    ensures within { IsWithinBody len result }
{
    if !asked.has_match && is_later(modified, asked.unmodified_since) {
        return Verdict::Failed;
    }
    if asked.names_tag {
        return Verdict::NotModified;
    }
    if !asked.has_none_match && is_not_later(modified, asked.modified_since) {
        return Verdict::NotModified;
    }
    ranged(asked, len, asked.range)
}
