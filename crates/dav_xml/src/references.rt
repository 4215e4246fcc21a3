//! References of characters and of the five entities.
ghost use Rattle.std.specs.Prelude.{◌≡◌, ◌+◌, ◌<◌, ◌≤◌, ◌∷◌, length, string_bytes, option_map, IfOk, IfSome, Ok, None};
ghost use Rattle.dav_xml.specs.Read.{Gives};
ghost use Rattle.dav_xml.specs.References as spec;

use crate::bytes::{is_space, split_byte};
use crate::error::{Fault, XmlError};
use std::alloc::Global;

/// Whether a number is the code of a character that a document can contain.
fn is_char(code: u32) -> bool
    ensures { result ≡ spec.is_char code }
{
    code == 9
        || code == 10
        || code == 13
        || (code >= 32 && code < 0xD800)
        || (code >= 0xE000 && code < 0xFFFE)
        || (code >= 0x1_0000 && code <= 0x10_FFFF)
}

fn digit_of(hex: bool, byte: u8) -> Result<u32, XmlError>
    ensures value { Gives (λ x. x) result (spec.digit_of hex byte) }
    ensures small { IfOk result (λ d. d < 16) }
{
    match byte {
        b'0'..=b'9' => Ok((byte - b'0') as u32),
        b'A'..=b'F' if hex => Ok((byte - b'A') as u32 + 10),
        b'a'..=b'f' if hex => Ok((byte - b'a') as u32 + 10),
        _ => Err(XmlError::Fault(Fault::Malformed)),
    }
}

fn base_of(hex: bool) -> u32
    ensures value { result ≡ spec.base_of hex }
    ensures small { result ≤ 16 }
{
    if hex { 16 } else { 10 }
}

fn number_of(hex: bool, digits: &[u8]) -> Result<u32, XmlError>
    ensures { Gives (λ x. x) result (spec.number_of hex digits.now) }
{
    if digits.is_empty() {
        return Err(XmlError::Fault(Fault::Malformed));
    }
    let mut number: u32 = 0;
    for byte in digits {
        number = base_of(hex) * number + digit_of(hex, *byte)?;
        if number > 0x10_FFFF {
            return Err(XmlError::Fault(Fault::Malformed));
        }
    }
    Ok(number)
}

fn code_of(bytes: &[u8]) -> Result<u32, XmlError>
    ensures { Gives (λ x. x) result (spec.code_of bytes.now) }
{
    match bytes {
        [] => Err(XmlError::Fault(Fault::Malformed)),
        [b'x', digits @ ..] => number_of(true, digits),
        _ => number_of(false, bytes),
    }
}

fn character_of(bytes: &[u8]) -> Result<char, XmlError>
    ensures { Gives (λ x. x) result (spec.character_of bytes.now) }
{
    let code = code_of(bytes)?;
    if !is_char(code) {
        return Err(XmlError::Fault(Fault::Malformed));
    }
    match char::from_u32(code) {
        Some(character) => Ok(character),
        None => Err(XmlError::Fault(Fault::Malformed)),
    }
}

fn entity_of(name: &[u8]) -> Result<char, XmlError>
    ensures { Gives (λ x. x) result (spec.entity_of name.now) }
{
    match name {
        b"lt" => Ok('<'),
        b"gt" => Ok('>'),
        b"amp" => Ok('&'),
        b"quot" => Ok('"'),
        b"apos" => Ok('\''),
        _ => Err(XmlError::Fault(Fault::Malformed)),
    }
}

/// The character that stands for a reference, which is written between `&` and `;`.
fn reference_of(name: &[u8]) -> Result<char, XmlError>
    ensures { Gives (λ x. x) result (spec.reference_of name.now) }
{
    match name {
        [b'#', code @ ..] => character_of(code),
        _ => entity_of(name),
    }
}

/// The text that the bytes are.
pub fn text_of(bytes: &[u8]) -> Result<&str, XmlError>
    ensures { Gives (λ t. t.now) result (spec.utf8 bytes.now) }
{
    match str::from_utf8(bytes) {
        Ok(text) => Ok(text),
        Err(_) => Err(XmlError::Fault(Fault::Malformed)),
    }
}

/// A copy of the text that the bytes are.
pub fn string_of(alloc: Global, bytes: &[u8]) -> Result<String, XmlError>
    ensures { Gives string_bytes result (spec.utf8 bytes.now) }
{
    let text = text_of(bytes)?;
    Ok(String::from_str(alloc, text)?)
}

/// The text with each reference replaced by its character.
pub fn resolved(alloc: Global, bytes: &[u8], attribute: bool) -> Result<Vec<u8>, XmlError>
    ensures { Gives (λ v. v.items) result (spec.resolved attribute bytes.now) }
{
    let mut out = Vec::new(alloc);
    let mut rest = bytes;
    while let Some((first, after)) = rest.split_first() {
        if *first == b'&' {
            let Some((name, after)) = split_byte(after, b';') else {
                return Err(XmlError::Fault(Fault::Malformed));
            };
            let character = reference_of(name)?;
            out.extend_from_slice(character.encode_utf8(&mut [0; 4]).as_bytes())?;
            rest = after;
        } else {
            out.push(plain_byte(attribute, *first))?;
            rest = after;
        }
    }
    Ok(out)
}

fn plain_byte(attribute: bool, byte: u8) -> u8
    ensures { result ≡ spec.plain_byte attribute byte }
{
    if attribute && is_space(byte) {
        b' '
    } else {
        byte
    }
}
