//! Names (XML 1.0, section 2.3; Namespaces in XML 1.0, section 4).
ghost use Rattle.std.specs.Prelude.{◌≡◌, string_bytes, IfOk, Ok};
ghost use Rattle.std.specs.Str.{chars};
ghost use Rattle.std.specs.List.{list_all};
ghost use Rattle.dav_xml.specs.Read.{Gives};
ghost use Rattle.dav_xml.specs.Names as spec;

use crate::error::{Fault, XmlError};
use crate::references::string_of;
use std::alloc::{AllocError, Global};

fn is_within(first: u32, last: u32, c: u32) -> bool
    ensures { result ≡ spec.is_within first last c }
{
    first <= c && c <= last
}

fn is_letter(c: u32) -> bool
    ensures { result ≡ spec.is_letter c }
{
    is_within(65, 90, c) || c == 95 || is_within(97, 122, c)
}

fn is_latin(c: u32) -> bool
    ensures { result ≡ spec.is_latin c }
{
    is_within(0xC0, 0xD6, c) || is_within(0xD8, 0xF6, c) || is_within(0xF8, 0x2FF, c)
}

fn is_early(c: u32) -> bool
    ensures { result ≡ spec.is_early c }
{
    is_within(0x370, 0x37D, c) || is_within(0x37F, 0x1FFF, c) || is_within(0x200C, 0x200D, c)
}

fn is_middle(c: u32) -> bool
    ensures { result ≡ spec.is_middle c }
{
    is_within(0x2070, 0x218F, c) || is_within(0x2C00, 0x2FEF, c) || is_within(0x3001, 0xD7FF, c)
}

fn is_late(c: u32) -> bool
    ensures { result ≡ spec.is_late c }
{
    is_within(0xF900, 0xFDCF, c) || is_within(0xFDF0, 0xFFFD, c) || is_within(0x1_0000, 0xE_FFFF, c)
}

// Whether a name may begin with this character, the colon apart.
fn may_begin(c: u32) -> bool
    ensures { result ≡ spec.may_begin c }
{
    is_letter(c) || is_latin(c) || is_early(c) || is_middle(c) || is_late(c)
}

fn is_later(c: u32) -> bool
    ensures { result ≡ spec.is_later c }
{
    c == 45 || c == 46 || is_within(48, 57, c) || c == 0xB7
}

// Whether this character may stand in a name, the colon apart.
fn may_continue(c: u32) -> bool
    ensures { result ≡ spec.may_continue c }
{
    may_begin(c) || is_later(c) || is_within(0x300, 0x36F, c) || is_within(0x203F, 0x2040, c)
}

fn all_continue(characters: &[char]) -> bool
    ensures { result ≡ list_all spec.may_continue characters.now }
{
    characters.iter().all(|c| may_continue(*c as u32))
}

// Whether those characters are a name without a colon.
fn are_plain(characters: &[char]) -> bool
    ensures { result ≡ spec.are_plain characters.now }
{
    let Some((first, rest)) = characters.split_first() else {
        return false;
    };
    may_begin(*first as u32) && all_continue(rest)
}

fn characters_of(alloc: Global, text: &str) -> Result<Vec<char>, AllocError>
    ensures { IfOk result (λ v. v.items ≡ chars text.now) }
{
    text.chars().collect(alloc)
}

/// Whether a text is a name without a colon.
pub fn is_plain(alloc: Global, name: &str) -> Result<bool, XmlError>
    ensures { Gives (λ b. b) result (Ok (spec.is_plain name.now)) }
{
    let characters = characters_of(alloc, name)?;
    Ok(are_plain(&characters))
}

/// The text of bytes, where it is a name without a colon.
pub fn plain_name(alloc: Global, bytes: &[u8]) -> Result<String, XmlError>
    ensures { Gives string_bytes result (spec.plain_name bytes.now) }
{
    let name = string_of(alloc, bytes)?;
    if !is_plain(alloc, &name)? {
        return Err(XmlError::Fault(Fault::Malformed));
    }
    Ok(name)
}
