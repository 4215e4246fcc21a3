//! Ranges of bytes that a request replaces (RFC 9110, section 14.4; SabreDAV's partial update by PATCH).
ghost use Rattle.std.specs.Prelude.{◌≡◌, ◌≢◌, ℕ, List, ◌++◌, ◌∷◌, codes, string_bytes, IfOk, IfSome, IfNone, IsOkUnless};
ghost use Rattle.std.specs.Result.{result_ok};
ghost use Rattle.http_header.specs.FieldValue.{plain_value};
ghost use Rattle.dav_headers.specs.ContentRange.{content_range_text, IsBounds, IsContentRange, IsLength};
ghost use Rattle.dav_headers.specs.Cut.{IsCut, NoCut};
ghost use Rattle.dav_headers.specs.UpdateRange.{update_range_text, IsEnds, IsUpdateRange};
ghost use Rattle.dav_headers.specs.Value.{Decodes};

use crate::errors::{HeaderError, NoMemory};
use crate::values::{cut, number, only_text, written};
use http_header::HeaderValue;
use std::alloc::Global;

/// The header X-Update-Range: the bytes of a file that a PATCH replaces.
#[derive(Clone, Debug, PartialEq, Eq, Drop)]
pub enum XUpdateRange {
    /// From the first of these offsets to the second.
    FromTo(u64, u64),
    /// Everything from this offset on.
    AllFrom(u64),
    /// The last so many bytes.
    Last(u64),
    /// What follows the end of the file.
    Append,
}

impl XUpdateRange {
    /// The range in the only value: `append`, `bytes=a-b`, `bytes=a-` or `bytes=-n`, with numbers of decimal digits
    /// below 2^64. `Invalid` for any other values. Allocates nothing.
    pub fn decode(_alloc: Global, values: &[HeaderValue]) -> Result<XUpdateRange, HeaderError>
        ensures reads { Decodes IsUpdateRange values.now (result_ok result) }
        ensures error { IsOkUnless result HeaderError.Invalid }
    {
        let Some(text) = only_text(values) else {
            return Err(HeaderError::Invalid);
        };
        if text == "append" {
            return Ok(XUpdateRange::Append);
        }
        let Some((from, to)) = dash_parts(text) else {
            return Err(HeaderError::Invalid);
        };
        match update_range(from, to) {
            Some(range) => Ok(range),
            None => Err(HeaderError::Invalid),
        }
    }

    /// `append`, `bytes=a-b`, `bytes=a-` or `bytes=-n`.
    pub fn encode(&self, alloc: Global) -> Result<HeaderValue, HeaderError>
        ensures ok { IfOk result (λ v. v ≡ plain_value (update_range_text self.now)) }
        ensures err { IsOkUnless result HeaderError.Memory }
    {
        written(alloc, &self.text(alloc)?)
    }

    fn text(&self, alloc: Global) -> Result<String, NoMemory>
        ensures { IfOk result (λ s. string_bytes s ≡ update_range_text self.now) }
    {
        match self {
            XUpdateRange::FromTo(from, to) => format!(in alloc; "bytes={from}-{to}"),
            XUpdateRange::AllFrom(from) => format!(in alloc; "bytes={from}-"),
            XUpdateRange::Last(length) => format!(in alloc; "bytes=-{length}"),
            XUpdateRange::Append => String::from_str(alloc, "append"),
        }
    }
}

// What is before and after the first dash that follows `bytes=`.
fn dash_parts(text: &str) -> Option<(&str, &str)>
    ensures found { IfSome result (λ p. (range : List ℕ)
        × (text.now ≡ codes "bytes=" ++ range) × IsCut 45 range p.0.now p.1.now) }
    ensures none { IfNone result
        ((from to : List ℕ) → text.now ≢ codes "bytes=" ++ (from ++ 45 ∷ to)) }
{
    cut(text.strip_prefix("bytes=")?, '-')
}

// The range with these two texts before and after its dash.
fn update_range(from: &str, to: &str) -> Option<XUpdateRange>
    ensures { Decodes (IsEnds from.now) to.now result }
{
    if from.is_empty() {
        return Some(XUpdateRange::Last(number(to)?));
    }
    let from = number(from)?;
    if to.is_empty() {
        return Some(XUpdateRange::AllFrom(from));
    }
    Some(XUpdateRange::FromTo(from, number(to)?))
}

/// The header Content-Range: which bytes of the whole a body is.
#[derive(Clone, Debug, PartialEq, Eq, Drop)]
pub struct ContentRange {
    /// The offsets of the first and the last byte, where they are given.
    pub bounds: Option<(u64, u64)>,
    /// The length of the whole, where it is known.
    pub length: Option<u64>,
}

impl ContentRange {
    /// The range in the only value: `bytes a-b/l` or `bytes */l`, where l may be `*`, with numbers of decimal digits
    /// below 2^64. `Invalid` for any other values. Allocates nothing.
    pub fn decode(_alloc: Global, values: &[HeaderValue]) -> Result<ContentRange, HeaderError>
        ensures reads { Decodes IsContentRange values.now (result_ok result) }
        ensures error { IsOkUnless result HeaderError.Invalid }
    {
        let Some(text) = only_text(values) else {
            return Err(HeaderError::Invalid);
        };
        let Some((range, size)) = slash_parts(text) else {
            return Err(HeaderError::Invalid);
        };
        let Some(bounds) = bounds(range) else {
            return Err(HeaderError::Invalid);
        };
        let Some(length) = length(size) else {
            return Err(HeaderError::Invalid);
        };
        Ok(ContentRange { bounds, length })
    }

    /// `bytes `, the bounds or `*`, a slash, the length or `*`.
    pub fn encode(&self, alloc: Global) -> Result<HeaderValue, HeaderError>
        ensures ok { IfOk result (λ v.
            v ≡ plain_value (content_range_text self.now.bounds self.now.length)) }
        ensures err { IsOkUnless result HeaderError.Memory }
    {
        written(alloc, &self.text(alloc)?)
    }

    fn text(&self, alloc: Global) -> Result<String, NoMemory>
        ensures { IfOk result (λ s. string_bytes s
            ≡ content_range_text self.now.bounds self.now.length) }
    {
        match (self.bounds, self.length) {
            (Some((first, last)), Some(length)) => format!(in alloc;
                "bytes {first}-{last}/{length}"
            ),
            (Some((first, last)), None) => format!(in alloc; "bytes {first}-{last}/*"),
            (None, Some(length)) => format!(in alloc; "bytes */{length}"),
            (None, None) => String::from_str(alloc, "bytes */*"),
        }
    }
}

// What is before and after the first slash that follows `bytes `.
fn slash_parts(text: &str) -> Option<(&str, &str)>
    ensures found { IfSome result (λ p. (range : List ℕ)
        × (text.now ≡ codes "bytes " ++ range) × IsCut 47 range p.0.now p.1.now) }
    ensures none { IfNone result
        ((range size : List ℕ) → text.now ≢ codes "bytes " ++ (range ++ 47 ∷ size)) }
{
    cut(text.strip_prefix("bytes ")?, '/')
}

// The bounds in a text.
fn bounds(text: &str) -> Option<Option<(u64, u64)>>
    ensures { Decodes IsBounds text.now result }
{
    if text == "*" {
        return Some(None);
    }
    let (first, last) = cut(text, '-')?;
    Some(Some((number(first)?, number(last)?)))
}

// The length in a text.
fn length(text: &str) -> Option<Option<u64>>
    ensures { Decodes IsLength text.now result }
{
    if text == "*" {
        return Some(None);
    }
    Some(Some(number(text)?))
}
