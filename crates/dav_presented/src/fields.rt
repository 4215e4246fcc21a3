//! What the fields of a GET or HEAD ask of a file: which part, and on what conditions (RFC 9110,
//! sections 13 and 14). Each field is read by all its values; what is no date and no range of bytes
//! is as if it were absent.
ghost use Rattle.std.specs.Prelude.{◌≡◌, length, option_map, string_bytes, IfOk, IfSome, Option, Some, not, ℕ};
ghost use Rattle.std.specs.Option.{option_copied};
ghost use Rattle.dav_headers.specs.ETagList.{tag_list, tags};
ghost use Rattle.dav_headers.specs.Value.{only_text, Decodes};
ghost use Rattle.dav_presented.specs.Range.{IsSpec};
ghost use Rattle.dav_presented.specs.declared.parts.verdict.Conditions.{Conditions as Asked};
ghost use Rattle.dav_presented.specs.Verdict.{verdict_of};
ghost use Rattle.dav_presented.specs.Fields as spec;

use crate::parts::{Conditions, Sent, Spec, presented};
use bytes::Bytes;
use dav_headers::{ETag, ETagList, HeaderError, IfNoneMatch, IfRange, XUpdateRange};
use http_header::HeaderValue;
use httpdate::HttpDate;
use std::alloc::{AllocError, Global};

// The text of the only value.
pub(crate) fn only_text(values: &[HeaderValue]) -> Option<&str>
    ensures { option_map (λ t. t.now) result ≡ only_text values.now }
{
    match values {
        [value] => match value.to_str() {
            Ok(text) => Some(text),
            Err(_) => None,
        },
        _ => None,
    }
}

/// The moment in the only value of a field, in seconds since 1970 began, where it is a date in one of
/// the three formats (RFC 9110, section 5.6.7); `None` where it is none.
pub fn date_in(values: &[HeaderValue]) -> Option<u64>
    ensures is { Decodes spec.IsDate values.now result }
    ensures by { result ≡ spec.date_of values.now }
{
    let text = only_text(values)?;
    match HttpDate::parse_ascii(text.as_bytes()) {
        Ok(date) => Some(date.unix_secs()),
        Err(_) => None,
    }
}

// What one range says.
fn spec_of(range: XUpdateRange) -> Option<Spec>
    ensures is { result ≡ spec.spec_of range }
    ensures spec { IfSome result IsSpec }
{
    match range {
        XUpdateRange::FromTo(first, last) => {
            if last < first {
                None
            } else {
                Some(Spec::Between(first as usize, last as usize))
            }
        }
        XUpdateRange::AllFrom(first) => Some(Spec::From(first as usize)),
        XUpdateRange::Last(count) => Some(Spec::Suffix(count as usize)),
        XUpdateRange::Append => None,
    }
}

/// The range in a Range, where it is one range of bytes (RFC 9110, section 14.2). `None` for several
/// ranges and for another unit, as that section allows, and for what is no range.
pub fn range_in(alloc: Global, values: &[HeaderValue]) -> Option<Spec>
    ensures is { Decodes spec.IsRange values.now result }
    ensures spec { IfSome result IsSpec }
{
    match XUpdateRange::decode(alloc, values) {
        Ok(range) => spec_of(range),
        Err(_) => None,
    }
}

// Whether a tag is in a list, by the weak comparison.
fn has_weakly(listed: &[ETag], tag: &ETag) -> bool
    ensures { result ≡ spec.names_weakly (Some (tags listed.now)) (Some tag.now) }
{
    listed.iter().any(|t| t.weak_eq(tag))
}

// Whether a list names the tag, by the weak comparison.
fn list_names(list: &ETagList, tag: Option<&ETag>) -> bool
    ensures { result ≡ spec.names_weakly (Some (tag_list list.now)) (option_copied tag.entry) }
{
    match list {
        ETagList::Star => true,
        ETagList::Tags(listed) => match tag {
            Some(tag) => has_weakly(listed, tag),
            None => false,
        },
    }
}

/// Whether the values of If-None-Match name a file with this tag, if it has one, by the weak
/// comparison (RFC 9110, section 13.1.2); what is no list of tags names none. `Err` where there is no
/// memory.
pub fn names_tag(
    alloc: Global,
    values: &[HeaderValue],
    tag: Option<&ETag>,
) -> Result<bool, AllocError>
    ensures { IfOk result (λ names. spec.NamesTag values.now (option_copied tag.entry) names) }
{
    match IfNoneMatch::decode(alloc, values) {
        Ok(IfNoneMatch(list)) => Ok(list_names(&list, tag)),
        Err(HeaderError::Invalid) => Ok(false),
        Err(HeaderError::Memory) => Err(AllocError),
    }
}

// Whether a tag is the file's.
fn is_its_tag(wanted: &ETag, tag: Option<&ETag>) -> bool
    ensures { result ≡ spec.is_its_tag wanted.now (option_copied tag.entry) }
{
    match tag {
        Some(tag) => wanted.strong_eq(tag),
        None => false,
    }
}

// Whether a field is there.
fn is_there(values: &[HeaderValue]) -> bool
    ensures { result ≡ not (spec.is_absent values.now) }
{
    !values.is_empty()
}

// Whether the date in a field is that of the last change, which was before the second of the request.
fn is_its_date(values: &[HeaderValue], modified: u64, moment: u64) -> bool
    ensures { (date : Option ℕ) × Decodes spec.IsDate values.now date
        × (result ≡ spec.is_its_date date modified moment) }
{
    match date_in(values) {
        Some(date) => date == modified && modified < moment,
        None => false,
    }
}

/// Whether the values of If-Range let a part be sent of a file with this tag, if it has one (RFC 9110,
/// section 13.1.5). They do where there are none; where they are the tag, by the strong comparison;
/// and where they are the date of the last change, `modified`, which was before the second in which
/// the request came, `moment`, since a file may change again in that second (section 8.8.2.2). Both
/// are seconds since 1970 began. `Err` where there is no memory.
#[tactic(auto, using(crate::proofs::FieldLemmas::by_tag, crate::proofs::FieldLemmas::by_date, crate::proofs::FieldLemmas::by_absence))]
pub fn may_be_part(
    alloc: Global,
    values: &[HeaderValue],
    tag: Option<&ETag>,
    modified: u64,
    moment: u64,
) -> Result<bool, AllocError>
    ensures { IfOk result (λ may.
        spec.MayBePart values.now (option_copied tag.entry) modified moment may) }
{
    if !is_there(values) {
        return Ok(true);
    }
    match IfRange::decode(alloc, values) {
        Ok(IfRange::ETag(wanted)) => Ok(is_its_tag(&wanted, tag)),
        Err(HeaderError::Invalid) => Ok(is_its_date(values, modified, moment)),
        Err(HeaderError::Memory) => Err(AllocError),
    }
}

/// The fields of a GET or HEAD that are read here, each with all its values, in order (RFC 9110,
/// section 5.3).
#[derive(Clone, Copy)]
pub struct Fields<'a> {
    /// Whether the method is GET.
    pub is_get: bool,
    /// If-Match (section 13.1.1), of which it matters alone whether it is there.
    pub if_match: &'a [HeaderValue],
    /// If-None-Match (section 13.1.2).
    pub if_none_match: &'a [HeaderValue],
    /// If-Modified-Since (section 13.1.3).
    pub if_modified_since: &'a [HeaderValue],
    /// If-Unmodified-Since (section 13.1.4).
    pub if_unmodified_since: &'a [HeaderValue],
    /// If-Range (section 13.1.5).
    pub if_range: &'a [HeaderValue],
    /// Range (section 14.2).
    pub range: &'a [HeaderValue],
}

/// What the fields ask of a file with this tag, if it has one, that was changed last at `modified`,
/// where the request came at `moment`, both in seconds since 1970 began (RFC 9110, sections 13.1 and
/// 14.2). `Err` where there is no memory.
pub fn conditions_in(
    alloc: Global,
    fields: Fields<'_>,
    tag: Option<&ETag>,
    modified: u64,
    moment: u64,
) -> Result<Conditions, AllocError>
    ensures are { IfOk result (λ c. spec.AreConditions fields.entry.is_get fields.entry.if_match.now
        fields.entry.if_none_match.now fields.entry.if_modified_since.now
        fields.entry.if_unmodified_since.now fields.entry.if_range.now fields.entry.range.now
        (option_copied tag.entry) modified moment c) }
    ensures range { IfOk result (λ c. IfSome c.range IsSpec) }
{
    Ok(Conditions {
        is_get: fields.is_get,
        has_match: is_there(fields.if_match),
        has_none_match: is_there(fields.if_none_match),
        names_tag: names_tag(alloc, fields.if_none_match, tag)?,
        modified_since: date_in(fields.if_modified_since),
        unmodified_since: date_in(fields.if_unmodified_since),
        may_be_part: may_be_part(alloc, fields.if_range, tag, modified, moment)?,
        range: range_in(alloc, fields.range),
    })
}

/// What is sent to a GET or HEAD with these fields, where the machine answers 200 with these bytes of
/// a file with this tag, if it has one, that was changed last at `modified`, and the request came at
/// `moment`, both in seconds since 1970 began (RFC 9110, sections 13.2.2 and 14.2). `Err` where there
/// is no memory.
pub fn answer_to(
    alloc: Global,
    fields: Fields<'_>,
    tag: Option<&ETag>,
    modified: u64,
    moment: u64,
    body: Bytes,
) -> Result<Sent, AllocError>
    ensures { IfOk result (λ sent. (c : Asked) × spec.AreConditions fields.entry.is_get
        fields.entry.if_match.now fields.entry.if_none_match.now fields.entry.if_modified_since.now
        fields.entry.if_unmodified_since.now fields.entry.if_range.now fields.entry.range.now
        (option_copied tag.entry) modified moment c
        × spec.IsSent (verdict_of c modified (length body)) body sent.status
        (option_map string_bytes sent.content_range) sent.body) }
{
    let asked = conditions_in(alloc, fields, tag, modified, moment)?;
    presented(alloc, &asked, modified, body)
}
