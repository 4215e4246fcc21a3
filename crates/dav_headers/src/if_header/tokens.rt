//! The tokens of an If header, which borrow its bytes.
ghost use Rattle.std.specs.Prelude.{false, ◌≡◌, ◌<◌, ◌≤◌, ◌↔◌, List, map, length, option_map, IfSome, IsTrue};
ghost use Rattle.dav_headers.specs.IfTokens.{Token, angle, square, Spells};
ghost use Rattle.dav_headers.specs.IfTokenMachine.{is_white_space, is_word_byte, skip, inside_len, bracketed, word_len, word_at, token_at};
ghost use Rattle.dav_headers.specs.IfParts.{part_and_rest, part_view};
ghost use Rattle.dav_headers.specs.Value.{ReadsAs};

use crate::errors::HeaderError;
use std::alloc::Global;

/// A token, whose text is borrowed from the value.
#[derive(Clone, Copy)]
pub(super) enum Part<'a> {
    /// `(`
    Open,
    /// `)`
    Close,
    /// `Not`
    Not,
    /// What is in `<>`.
    Angle(&'a [u8]),
    /// What is in `[]`.
    Square(&'a [u8]),
    /// A bare word.
    Word(&'a [u8]),
}

// Whether a byte is white space: space, tab, CR or LF.
fn is_white_space(b: u8) -> bool
    ensures { result ≡ is_white_space b }
{
    b == b' ' || b == b'\t' || b == b'\r' || b == b'\n'
}

// Whether a byte may be in a bare word.
fn is_word_byte(b: u8) -> bool
    ensures { result ≡ is_word_byte b }
{
    b > b' ' && !matches!(b, b'<' | b'>' | b'(' | b')' | b'[' | b']')
}

// The text from its first byte on that isn't white space.
fn skip(text: &[u8]) -> &[u8]
    ensures { result.now ≡ skip text.now }
{
    for (i, b) in text.iter().enumerate() {
        if !is_white_space(*b) {
            return &text[i..];
        }
    }
    &[]
}

// How many bytes are before the closing sign; `None` where white space comes first, or there is no closing sign.
fn inside_len(text: &[u8], close: u8) -> Option<usize>
    ensures is { result ≡ inside_len close false text.now }
    ensures within { IfSome result (λ n. n < length text.now) }
{
    let mut quoted = false;
    for (i, b) in text.iter().enumerate() {
        if is_white_space(*b) {
            return None;
        }
        if *b == close && !quoted {
            return Some(i);
        }
        if *b == b'"' {
            quoted = !quoted;
        }
    }
    None
}

// What is in `<>`, behind its opening sign, and what follows it.
fn angle_at<'a>(text: &'a [u8]) -> Option<(Part<'a>, &'a [u8])>
    ensures is { option_map part_and_rest result ≡ bracketed angle 62 text.now }
    ensures shorter { IfSome result (λ x. length x.1.now < length text.now) }
{
    let n = inside_len(text, b'>')?;
    Some((Part::Angle(&text[..n]), &text[n + 1..]))
}

// What is in `[]`, behind its opening sign, and what follows it.
fn square_at<'a>(text: &'a [u8]) -> Option<(Part<'a>, &'a [u8])>
    ensures is { option_map part_and_rest result ≡ bracketed square 93 text.now }
    ensures shorter { IfSome result (λ x. length x.1.now < length text.now) }
{
    let n = inside_len(text, b']')?;
    Some((Part::Square(&text[..n]), &text[n + 1..]))
}

// How many bytes of a bare word the text begins with.
fn word_len(text: &[u8]) -> usize
    ensures is { result ≡ word_len text.now }
    ensures within { result ≤ length text.now }
{
    for (i, b) in text.iter().enumerate() {
        if !is_word_byte(*b) {
            return i;
        }
    }
    text.len()
}

// The bare word that the text begins with, and what follows it.
fn word_at<'a>(text: &'a [u8]) -> Option<(Part<'a>, &'a [u8])>
    ensures is { option_map part_and_rest result ≡ word_at text.now }
    ensures shorter { IfSome result (λ x. length x.1.now < length text.now) }
{
    let n = word_len(text);
    if n == 0 {
        return None;
    }
    Some((Part::Word(&text[..n]), &text[n..]))
}

// The token that the text begins with, and what follows it.
fn token_at<'a>(text: &'a [u8]) -> Option<(Part<'a>, &'a [u8])>
    ensures is { option_map part_and_rest result ≡ token_at text.now }
    ensures shorter { IfSome result (λ x. length x.1.now < length text.now) }
{
    if text.starts_with(b"Not") {
        return Some((Part::Not, &text[3..]));
    }
    match text.split_first() {
        Some((b'(', rest)) => Some((Part::Open, rest)),
        Some((b')', rest)) => Some((Part::Close, rest)),
        Some((b'<', rest)) => angle_at(rest),
        Some((b'[', rest)) => square_at(rest),
        _ => word_at(text),
    }
}

// Whether a text is made of tokens.
fn are_tokens(text: &[u8]) -> bool
    ensures { IsTrue result ↔ (ts : List Token) × Spells text.now ts }
{
    let mut rest = skip(text);
    while !rest.is_empty() {
        let Some((_part, after)) = token_at(rest) else {
            return false;
        };
        rest = skip(after);
    }
    true
}

/// The tokens of a text; `Invalid` where it isn't made of tokens.
pub(super) fn parts_of<'a>(alloc: Global, text: &'a [u8]) -> Result<Vec<Part<'a>>, HeaderError>
    ensures { ReadsAs (λ parts. map part_view parts.items) Spells text.now result }
{
    if !are_tokens(text) {
        return Err(HeaderError::Invalid);
    }
    let mut parts = Vec::new(alloc);
    let mut rest = skip(text);
    while !rest.is_empty() {
        let Some((part, after)) = token_at(rest) else {
            return Err(HeaderError::Invalid);
        };
        parts.push(part)?;
        rest = skip(after);
    }
    Ok(parts)
}
