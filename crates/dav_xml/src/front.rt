//! What comes before the markup, and documents.
ghost use Rattle.std.specs.Prelude.{◌≡◌, ◌↔◌, ◌==◌, ◌∷◌, false, map, length, codes, string_bytes, IsTrue, Ok};
ghost use Rattle.std.specs.List.{list_all};
ghost use Rattle.std.specs.Char.{is_ascii_digit};
ghost use Rattle.std.specs.Str.Lossy.{utf8_valid_len};
ghost use Rattle.dav_xml.specs.Read.{Gives};
ghost use Rattle.dav_core.specs.ElementView.{attribute_bytes};
ghost use Rattle.dav_xml.specs.Front as spec;
ghost use Rattle.dav_xml.specs.Legal.{IsLegal};

use crate::bytes::{after_space, after_text, is_space, split_text};
use crate::error::{Fault, XmlError};
use crate::markup::{attributes_at, has_byte, tokens, up_to};
use crate::nesting::nest;
use dav_core::element::Element;
use std::alloc::Global;

fn is_utf8(bytes: &[u8]) -> bool
    ensures { result ≡ (utf8_valid_len bytes.now == length bytes.now) }
{
    match str::from_utf8(bytes) {
        Ok(_) => true,
        Err(_) => false,
    }
}

fn are_printed(bytes: &[u8]) -> bool
    ensures { result ≡ list_all spec.is_printed bytes.now }
{
    bytes.iter().all(|b| *b >= 32 || is_space(*b))
}

#[tactic(auto, unfolding(crate::specs::Front::are_chars))]
fn are_chars(bytes: &[u8]) -> bool
    ensures { result ≡ spec.are_chars bytes.now }
{
    let is_text = is_utf8(bytes) && are_printed(bytes);
    is_text
        && split_text(bytes, &[239, 191, 190]).is_none()
        && split_text(bytes, &[239, 191, 191]).is_none()
}

/// Whether a text is of characters that a document may have (XML 1.0, section 2.2): no control characters below 32 but tabs, line
/// feeds and carriage returns, and neither U+FFFE nor U+FFFF.
pub fn is_legal(text: &str) -> bool
    ensures { IsTrue result ↔ IsLegal text.now }
{
    are_chars(text.as_bytes())
}

#[tactic(auto, unfolding(crate::specs::Front::lines))]
fn lines(alloc: Global, bytes: &[u8]) -> Result<Vec<u8>, XmlError>
    ensures { Gives (λ v. v.items) result (Ok (spec.lines false bytes.now)) }
{
    let mut out = Vec::new(alloc);
    let mut returned = false;
    for byte in bytes {
        if *byte == b'\r' {
            out.push(b'\n')?;
            returned = true;
        } else if *byte == b'\n' && returned {
            returned = false;
        } else {
            out.push(*byte)?;
            returned = false;
        }
    }
    Ok(out)
}

fn after_mark(bytes: &[u8]) -> &[u8]
    ensures { result.now ≡ spec.after_mark bytes.now }
{
    match after_text(bytes, &[239, 187, 191]) {
        Some(rest) => rest,
        None => bytes,
    }
}

fn have_digits(bytes: &[u8]) -> bool
    ensures { result ≡ list_all is_ascii_digit bytes.now }
{
    bytes.iter().all(|b| b.is_ascii_digit())
}

fn are_digits(bytes: &[u8]) -> bool
    ensures { result ≡ spec.are_digits bytes.now }
{
    !bytes.is_empty() && have_digits(bytes)
}

fn is_version(value: &str) -> bool
    ensures { result ≡ spec.is_version value.now }
{
    match after_text(value.as_bytes(), b"1.") {
        Some(digits) => are_digits(digits),
        None => false,
    }
}

fn is_encoding(value: &str) -> bool
    ensures { result ≡ spec.is_encoding value.now }
{
    value.eq_ignore_ascii_case("utf-8") || value.eq_ignore_ascii_case("us-ascii")
}

fn tells_version(attribute: &(String, String)) -> bool
    ensures { result ≡ spec.tells_version (attribute_bytes attribute.now) }
{
    attribute.0.as_str() == "version" && is_version(&attribute.1)
}

fn tells_encoding(attribute: &(String, String)) -> bool
    ensures { result ≡ spec.tells_encoding (attribute_bytes attribute.now) }
{
    attribute.0.as_str() == "encoding" && is_encoding(&attribute.1)
}

fn tells_standalone(attribute: &(String, String)) -> bool
    ensures { result ≡ spec.tells_standalone (attribute_bytes attribute.now) }
{
    let value = attribute.1.as_str();
    attribute.0.as_str() == "standalone" && (value == "yes" || value == "no")
}

fn is_declaration(attributes: &[(String, String)]) -> bool
    ensures { result ≡ spec.is_declaration (map attribute_bytes attributes.now) }
{
    match attributes {
        [a] => tells_version(a),
        [a, b] => tells_version(a) && (tells_encoding(b) || tells_standalone(b)),
        [a, b, c] => tells_version(a) && tells_encoding(b) && tells_standalone(c),
        _ => false,
    }
}

fn tells(alloc: Global, inside: &[u8]) -> Result<bool, XmlError>
    ensures { Gives (λ b. b) result (Ok (spec.tells inside.now)) }
{
    let (attributes, rest) = attributes_at(alloc, inside)?;
    let is_plain = !has_byte(inside, b'&');
    Ok(is_plain && is_declaration(&attributes) && after_space(rest).is_empty())
}

fn declaration_at(alloc: Global, bytes: &[u8]) -> Result<&[u8], XmlError>
    ensures { Gives (λ x. x.now) result (spec.declaration_at bytes.now) }
{
    let (inside, rest) = up_to(bytes, b"?>")?;
    if !tells(alloc, inside)? {
        return Err(XmlError::Fault(Fault::Malformed));
    }
    Ok(rest)
}

#[tactic(auto, unfolding(crate::specs::Front::after_declaration))]
fn after_declaration(alloc: Global, bytes: &[u8]) -> Result<&[u8], XmlError>
    ensures { Gives (λ x. x.now) result (spec.after_declaration bytes.now) }
{
    match after_text(bytes, b"<?xml") {
        None => Ok(bytes),
        Some(rest) => match rest {
            [first, ..] if is_space(*first) => declaration_at(alloc, rest),
            _ => Ok(bytes),
        },
    }
}

/// The tree of a document, with names as they are written.
#[tactic(auto, unfolding(crate::specs::Front::raw_document))]
pub fn read_raw(alloc: Global, bytes: &[u8]) -> Result<Element, XmlError>
    ensures { Gives (λ e. e) result (spec.raw_document bytes.now) }
{
    if bytes.len() > 0x10_0000 {
        return Err(XmlError::Fault(Fault::TooLarge));
    }
    if !are_chars(bytes) {
        return Err(XmlError::Fault(Fault::Malformed));
    }
    let text = lines(alloc, bytes)?;
    let rest = after_declaration(alloc, after_mark(&text))?;
    nest(alloc, tokens(alloc, rest)?)
}
