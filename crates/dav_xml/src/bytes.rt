//! Bytes, runs of bytes and names.
ghost use Rattle.std.specs.Prelude.{◌≡◌, ◌+◌, ◌≤◌, ◌<◌, ◌∷◌, length, option_map, IfSome, Ok};
ghost use Rattle.std.specs.List.{prefix_len};
ghost use Rattle.dav_xml.specs.Read.{Gives};
ghost use Rattle.dav_xml.specs.Bytes as spec;
ghost use Rattle.dav_xml.specs.Classes.{class_test};

use crate::error::{Fault, XmlError};

/// White space.
#[inline]
pub fn is_space(byte: u8) -> bool
    ensures { result ≡ spec.is_space byte }
{
    byte == b' ' || byte == b'\t' || byte == b'\n' || byte == b'\r'
}

/// A byte that can begin a name.
#[inline]
pub fn is_name_start(byte: u8) -> bool
    ensures { result ≡ spec.is_name_start byte }
{
    byte.is_ascii_alphabetic() || byte == b'_' || byte == b':' || byte >= 128
}

/// A byte of a name.
#[inline]
pub fn is_name_byte(byte: u8) -> bool
    ensures { result ≡ spec.is_name_byte byte }
{
    is_name_start(byte) || byte.is_ascii_digit() || byte == b'-' || byte == b'.'
}

/// A set of bytes, to find a run of them.
#[derive(Clone, Copy)]
pub enum Class {
    Space,
    Name,
    Text,
}

fn is_in(class: Class, byte: u8) -> bool
    ensures { result ≡ class_test class byte }
{
    match class {
        Class::Space => is_space(byte),
        Class::Name => is_name_byte(byte),
        Class::Text => byte != b'<',
    }
}

fn run_len(bytes: &[u8], class: Class) -> usize
    ensures len { result ≡ prefix_len (class_test class) bytes.now }
    ensures within { result ≤ length bytes.now }
{
    bytes.iter().take_while(|b| is_in(class, **b)).count()
}

/// The longest front of the class, and the rest.
pub fn run(bytes: &[u8], class: Class) -> (&[u8], &[u8])
    ensures parts { (result.0.now, result.1.now) ≡ spec.run (class_test class) bytes.now }
    ensures lens { length result.0.now + length result.1.now ≡ length bytes.now }
{
    bytes.split_at(run_len(bytes, class))
}

/// What follows white space.
pub fn after_space(bytes: &[u8]) -> &[u8]
    ensures { result.now ≡ spec.after_space bytes.now }
{
    run(bytes, Class::Space).1
}

/// What stands before the first such byte, and what follows it.
pub fn split_byte(bytes: &[u8], byte: u8) -> Option<(&[u8], &[u8])>
    ensures parts { option_map (λ p. (p.0.now, p.1.now)) result ≡ spec.split_byte byte bytes.now }
    ensures shorter { IfSome result (λ p. length p.0.now + length p.1.now < length bytes.now) }
{
    for at in 0..bytes.len() {
        if bytes[at] == byte {
            return Some((&bytes[..at], &bytes[at + 1..]));
        }
    }
    None
}

/// What follows those bytes, where the text begins with them.
pub fn after_text<'a>(bytes: &'a [u8], wanted: &[u8]) -> Option<&'a [u8]>
    ensures { option_map (λ x. x.now) result ≡ spec.after_text wanted.now bytes.now }
{
    let mut rest = bytes;
    for w in wanted {
        let Some((first, after)) = rest.split_first() else {
            return None;
        };
        if *first != *w {
            return None;
        }
        rest = after;
    }
    Some(rest)
}

/// What stands before the first place of those bytes, and what follows them.
pub fn split_text<'a>(bytes: &'a [u8], wanted: &[u8]) -> Option<(&'a [u8], &'a [u8])>
    ensures { option_map (λ p. (p.0.now, p.1.now)) result ≡ spec.split_text wanted.now bytes.now }
{
    for at in 0..bytes.len() {
        let (front, rest) = bytes.split_at(at);
        if let Some(after) = after_text(rest, wanted) {
            return Some((front, after));
        }
    }
    None
}

/// The name at the front, and what follows it.
#[tactic(auto, unfolding(crate::specs::Bytes::name_at))]
pub fn name_at(bytes: &[u8]) -> Result<(&[u8], &[u8]), XmlError>
    ensures { Gives (λ p. (p.0.now, p.1.now)) result (spec.name_at bytes.now) }
{
    let (name, rest) = run(bytes, Class::Name);
    match name {
        [first, ..] if is_name_start(*first) => Ok((name, rest)),
        _ => Err(XmlError::Fault(Fault::Malformed)),
    }
}
