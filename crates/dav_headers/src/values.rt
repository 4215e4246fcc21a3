//! The values of a header, and how text is written as one (RFC 9110, section 5.5).
ghost use Rattle.std.specs.Prelude.{◌≡◌, ◌<◌, ◌↔◌, IfSome, IfNone, IsTrue, option_map, string_bytes};
ghost use Rattle.dav_headers.specs.Cut.{IsCut, NoCut};
ghost use Rattle.dav_headers.specs.Value.{only_text, Decodes, IsNumber, IsOnlyText, IsText, ReadsAs, Writes};

use crate::errors::HeaderError;
use http_header::{HeaderValue, HeaderValueError};
use std::alloc::Global;

// The text of the only value; `None` where there is no value or several, or where it isn't text.
pub(super) fn only_text(values: &[HeaderValue]) -> Option<&str>
    ensures { option_map (λ t. t.now) result ≡ only_text values.now }
{
    match values {
        [value] => match value.to_str() {
            Ok(text) => Some(text),
            Err(_) => None,
        },
        _ => None,
    }
}

// A copy of the text of the only value.
pub(super) fn copied_text(alloc: Global, values: &[HeaderValue]) -> Result<String, HeaderError>
    ensures { ReadsAs string_bytes IsOnlyText values.now result }
{
    let Some(text) = only_text(values) else {
        return Err(HeaderError::Invalid);
    };
    Ok(String::from_str(alloc, text)?)
}

// Whether a text can be the value of a header.
pub(super) fn is_text(text: &str) -> bool
    ensures { IsTrue result ↔ IsText text.now }
{
    text.as_bytes()
        .iter()
        .all(|b| *b == b'\t' || (*b >= b' ' && *b < 127))
}

// A text as a value; it is copied only where it is text.
pub(super) fn written(alloc: Global, text: &str) -> Result<HeaderValue, HeaderError>
    ensures { Writes result text.now }
{
    if !is_text(text) {
        return Err(HeaderError::Invalid);
    }
    match HeaderValue::from_str(alloc, text) {
        Ok(value) => Ok(value),
        Err(HeaderValueError::Invalid) => Err(HeaderError::Invalid),
        Err(HeaderValueError::OutOfMemory) => Err(HeaderError::Memory),
    }
}

// The number that a text is: one or more decimal digits, below 2^64. `parse` would accept a plus sign before them.
pub(super) fn number(text: &str) -> Option<u64>
    ensures { Decodes IsNumber text.now result }
{
    if text.starts_with('+') {
        return None;
    }
    text.parse::<u64>().ok()
}

// What is before and after the first such sign in a text.
pub(super) fn cut<'a>(text: &'a str, sign: char) -> Option<(&'a str, &'a str)>
    requires { sign < 128 }
    ensures found { IfSome result (λ p. IsCut sign text.now p.0.now p.1.now) }
    ensures none { IfNone result (NoCut sign text.now) }
{
    text.split_once(sign)
}
