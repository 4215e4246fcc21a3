//! From bytes to pieces of markup.
ghost use Rattle.std.specs.Prelude.{◌≡◌, ◌==◌, ◌∷◌, map, length, codes, string_bytes, Ok};
ghost use Rattle.std.specs.List.{list_any, list_all};
ghost use Rattle.dav_xml.specs.Read.{Gives, needed};
ghost use Rattle.dav_xml.specs.Bytes.{after_text, split_text, is_space as is_white};
ghost use Rattle.dav_core.specs.ElementView.{attribute_bytes};
ghost use Rattle.dav_xml.specs.Token.{token_view, token_views};
ghost use Rattle.dav_xml.specs.Markup as spec;

use crate::bytes::{
    Class, after_space, after_text, is_space, name_at, run, split_byte, split_text,
};
use crate::error::{Fault, XmlError};
use crate::names::plain_name;
use crate::references::{resolved, string_of};
use crate::token::Token;
use std::alloc::Global;

fn space_at(bytes: &[u8]) -> Result<&[u8], XmlError>
    ensures { Gives (λ x. x.now) result (spec.space_at bytes.now) }
{
    match bytes {
        [first, ..] if is_space(*first) => Ok(after_space(bytes)),
        _ => Err(XmlError::Fault(Fault::Malformed)),
    }
}

fn byte_at(bytes: &[u8], wanted: u8) -> Result<&[u8], XmlError>
    ensures { Gives (λ x. x.now) result (spec.byte_at wanted bytes.now) }
{
    match bytes {
        [first, rest @ ..] if *first == wanted => Ok(rest),
        _ => Err(XmlError::Fault(Fault::Malformed)),
    }
}

fn quoted_at(bytes: &[u8]) -> Result<(&[u8], &[u8]), XmlError>
    ensures { Gives (λ x. (x.0.now, x.1.now)) result (spec.quoted_at bytes.now) }
{
    let Some((mark, rest)) = bytes.split_first() else {
        return Err(XmlError::Fault(Fault::Malformed));
    };
    if *mark != b'"' && *mark != b'\'' {
        return Err(XmlError::Fault(Fault::Malformed));
    }
    match split_byte(rest, *mark) {
        Some((value, rest)) => Ok((value, rest)),
        None => Err(XmlError::Fault(Fault::Malformed)),
    }
}

pub fn has_byte(bytes: &[u8], wanted: u8) -> bool
    ensures { result ≡ list_any (λ b. b == wanted) bytes.now }
{
    bytes.iter().any(|b| *b == wanted)
}

fn value_of(alloc: Global, raw: &[u8]) -> Result<String, XmlError>
    ensures { Gives string_bytes result (spec.value_of raw.now) }
{
    if has_byte(raw, b'<') {
        return Err(XmlError::Fault(Fault::Malformed));
    }
    let value = resolved(alloc, raw, true)?;
    string_of(alloc, &value)
}

#[tactic(auto, unfolding(crate::specs::Markup::attribute_at))]
fn attribute_at(alloc: Global, bytes: &[u8]) -> Result<((String, String), &[u8]), XmlError>
    ensures { Gives (λ x. (attribute_bytes x.0, x.1.now)) result (spec.attribute_at bytes.now) }
{
    let (name, rest) = name_at(space_at(bytes)?)?;
    let rest = byte_at(after_space(rest), b'=')?;
    let (raw, rest) = quoted_at(after_space(rest))?;
    let name = string_of(alloc, name)?;
    let value = value_of(alloc, raw)?;
    Ok(((name, value), rest))
}

pub fn attributes_at(
    alloc: Global,
    bytes: &[u8],
) -> Result<(Vec<(String, String)>, &[u8]), XmlError>
    ensures { Gives (λ x. (map attribute_bytes x.0.items, x.1.now)) result
        (Ok (spec.attributes_at bytes.now)) }
{
    let mut attributes = Vec::new(alloc);
    let mut rest = bytes;
    for _ in 0..bytes.len() {
        match attribute_at(alloc, rest) {
            Ok((attribute, after)) => {
                attributes.push(attribute)?;
                rest = after;
            }
            Err(XmlError::Fault(_)) => return Ok((attributes, rest)),
            Err(XmlError::Memory) => return Err(XmlError::Memory),
        }
    }
    Ok((attributes, rest))
}

// Whether the tag is an empty element's.
fn tag_end(bytes: &[u8]) -> Result<(bool, &[u8]), XmlError>
    ensures { Gives (λ x. (x.0, x.1.now)) result (spec.tag_end bytes.now) }
{
    match bytes {
        [b'>', rest @ ..] => Ok((false, rest)),
        [b'/', rest @ ..] => Ok((true, byte_at(rest, b'>')?)),
        _ => Err(XmlError::Fault(Fault::Malformed)),
    }
}

#[tactic(auto, unfolding(crate::specs::Markup::tag_at))]
fn tag_at(alloc: Global, bytes: &[u8]) -> Result<(Token, &[u8]), XmlError>
    ensures { Gives (λ x. (token_view x.0, x.1.now)) result (spec.tag_at bytes.now) }
{
    let (name, rest) = name_at(bytes)?;
    let (attributes, rest) = attributes_at(alloc, rest)?;
    let (is_empty, rest) = tag_end(after_space(rest))?;
    let name = string_of(alloc, name)?;
    if is_empty {
        return Ok((Token::Empty(name, attributes), rest));
    }
    Ok((Token::Open(name, attributes), rest))
}

#[tactic(auto, unfolding(crate::specs::Markup::close_at))]
fn close_at(alloc: Global, bytes: &[u8]) -> Result<(Token, &[u8]), XmlError>
    ensures { Gives (λ x. (token_view x.0, x.1.now)) result (spec.close_at bytes.now) }
{
    let (name, rest) = name_at(bytes)?;
    let rest = byte_at(after_space(rest), b'>')?;
    let name = string_of(alloc, name)?;
    Ok((Token::Close(name), rest))
}

/// What stands before the bytes, which have to be there, and what follows them.
pub fn up_to<'a>(bytes: &'a [u8], wanted: &[u8]) -> Result<(&'a [u8], &'a [u8]), XmlError>
    ensures { Gives (λ x. (x.0.now, x.1.now)) result (needed (split_text wanted.now bytes.now)) }
{
    match split_text(bytes, wanted) {
        Some((front, rest)) => Ok((front, rest)),
        None => Err(XmlError::Fault(Fault::Malformed)),
    }
}

#[tactic(auto, unfolding(crate::specs::Markup::comment_at))]
fn comment_at(bytes: &[u8]) -> Result<(Token, &[u8]), XmlError>
    ensures { Gives (λ x. (token_view x.0, x.1.now)) result (spec.comment_at bytes.now) }
{
    let (_, rest) = up_to(bytes, b"--")?;
    let rest = byte_at(rest, b'>')?;
    Ok((Token::Nothing, rest))
}

#[tactic(auto, unfolding(crate::specs::Markup::section_at))]
fn section_at(alloc: Global, bytes: &[u8]) -> Result<(Token, &[u8]), XmlError>
    ensures { Gives (λ x. (token_view x.0, x.1.now)) result (spec.section_at bytes.now) }
{
    let (text, rest) = up_to(bytes, b"]]>")?;
    let text = string_of(alloc, text)?;
    Ok((Token::Text(false, text), rest))
}

fn is_xml(name: &[u8]) -> bool
    ensures { result ≡ spec.is_xml name.now }
{
    match name {
        [a, b, c] => {
            (*a == b'x' || *a == b'X') && (*b == b'm' || *b == b'M') && (*c == b'l' || *c == b'L')
        }
        _ => false,
    }
}

fn instruction_end(bytes: &[u8]) -> Result<&[u8], XmlError>
    ensures { Gives (λ x. x.now) result
        (spec.instruction_end (after_text (codes "?>") bytes.now) bytes.now) }
{
    if let Some(rest) = after_text(bytes, b"?>") {
        return Ok(rest);
    }
    let (_, rest) = up_to(space_at(bytes)?, b"?>")?;
    Ok(rest)
}

#[tactic(auto, unfolding(crate::specs::Markup::instruction_at))]
fn instruction_at(alloc: Global, bytes: &[u8]) -> Result<(Token, &[u8]), XmlError>
    ensures { Gives (λ x. (token_view x.0, x.1.now)) result (spec.instruction_at bytes.now) }
{
    let (name, rest) = name_at(bytes)?;
    if is_xml(name) {
        return Err(XmlError::Fault(Fault::Malformed));
    }
    let rest = instruction_end(rest)?;
    let _ = plain_name(alloc, name)?;
    Ok((Token::Nothing, rest))
}

fn is_blank(bytes: &[u8]) -> bool
    ensures { result ≡ list_all is_white bytes.now }
{
    bytes.iter().all(|b| is_space(*b))
}

#[tactic(auto, unfolding(crate::specs::Markup::text_at))]
fn text_at(alloc: Global, bytes: &[u8]) -> Result<(Token, &[u8]), XmlError>
    ensures { Gives (λ x. (token_view x.0, x.1.now)) result (spec.text_at bytes.now) }
{
    let (text, rest) = run(bytes, Class::Text);
    if bytes.is_empty() || split_text(text, b"]]>").is_some() {
        return Err(XmlError::Fault(Fault::Malformed));
    }
    let value = resolved(alloc, text, false)?;
    let value = string_of(alloc, &value)?;
    Ok((Token::Text(is_blank(text), value), rest))
}

#[tactic(auto, unfolding(crate::specs::Markup::token_at))]
fn token_at(alloc: Global, bytes: &[u8]) -> Result<(Token, &[u8]), XmlError>
    ensures { Gives (λ x. (token_view x.0, x.1.now)) result (spec.token_at bytes.now) }
{
    if let Some(rest) = after_text(bytes, b"<!--") {
        return comment_at(rest);
    }
    if let Some(rest) = after_text(bytes, b"<![CDATA[") {
        return section_at(alloc, rest);
    }
    if let Some(rest) = after_text(bytes, b"<?") {
        return instruction_at(alloc, rest);
    }
    if let Some(rest) = after_text(bytes, b"</") {
        return close_at(alloc, rest);
    }
    if let Some(rest) = after_text(bytes, b"<") {
        return tag_at(alloc, rest);
    }
    text_at(alloc, bytes)
}

fn tokens_at(alloc: Global, bytes: &[u8]) -> Result<(Vec<Token>, &[u8]), XmlError>
    ensures { Gives (λ x. (token_views x.0.items, x.1.now)) result
        (Ok (spec.many spec.token_at (length bytes.now) bytes.now)) }
{
    let mut tokens = Vec::new(alloc);
    let mut rest = bytes;
    for _ in 0..bytes.len() {
        match token_at(alloc, rest) {
            Ok((token, after)) => {
                tokens.push(token)?;
                rest = after;
            }
            Err(XmlError::Fault(_)) => return Ok((tokens, rest)),
            Err(XmlError::Memory) => return Err(XmlError::Memory),
        }
    }
    Ok((tokens, rest))
}

/// The pieces of markup of a text.
#[tactic(auto, unfolding(crate::specs::Markup::tokens_of))]
pub fn tokens(alloc: Global, bytes: &[u8]) -> Result<Vec<Token>, XmlError>
    ensures { Gives (λ v. token_views v.items) result (spec.tokens_of bytes.now) }
{
    let (tokens, rest) = tokens_at(alloc, bytes)?;
    if !rest.is_empty() {
        return Err(XmlError::Fault(Fault::Malformed));
    }
    Ok(tokens)
}
