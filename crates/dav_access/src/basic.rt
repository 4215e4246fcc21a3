//! Credentials of the scheme Basic (RFC 7617).
ghost use Rattle.std.specs.Prelude.{◌≡◌, ◌≢◌, ◌∷◌, ◌++◌, ℕ, List, IfOk, MatchOption, replicate, string_bytes};
ghost use Rattle.base64.specs.Engines.{standard};
ghost use Rattle.base64.specs.GeneralPurpose.{IsBytes, encode_of};
ghost use Rattle.dav_access.specs.Basic.{HasCode, IsBasic};

use crate::text::split_at_first;
use base64::DecodeAllocError;
use base64::engine::general_purpose::STANDARD;
use std::alloc::{AllocError, Global};
use std::str;

/// A name and a password.
#[derive(Drop)]
pub struct Credentials {
    /// The name, in which no colon is.
    pub name: String,
    /// The password.
    pub password: String,
}

// What follows a space at the front of some bytes.
fn after_space(bytes: &[u8]) -> Option<&[u8]>
    ensures { MatchOption result ((rest : List ℕ) → bytes.now ≢ 32 ∷ rest)
        (λ rest. bytes.now ≡ 32 ∷ rest.now) }
{
    let (first, rest) = bytes.split_first()?;
    if *first == b' ' { Some(rest) } else { None }
}

// What follows the spaces at the front of some bytes.
fn without_spaces(bytes: &[u8]) -> &[u8]
    ensures spaces { (count : ℕ) × (bytes.now ≡ replicate count 32 ++ result.now) }
    ensures bare { (rest : List ℕ) → result.now ≢ 32 ∷ rest }
{
    let mut rest = bytes;
    while let Some(after) = after_space(rest) {
        rest = after;
    }
    rest
}

// The code of a field's value that is of the scheme Basic.
fn code_of(value: &[u8]) -> Option<&[u8]>
    ensures { MatchOption result ((code : List ℕ) → ¬ HasCode value.now code)
        (λ code. HasCode value.now code.now) }
{
    let (scheme, after) = value.split_at_checked(5)?;
    if !scheme.eq_ignore_ascii_case(b"basic") {
        return None;
    }
    Some(without_spaces(after_space(after)?))
}

// The bytes that are encoded.
fn decoded(alloc: Global, code: &[u8]) -> Result<Option<Vec<u8>>, AllocError>
    ensures { IfOk result (λ bytes. MatchOption bytes
        ((text : List ℕ) → IsBytes text → code.now ≢ encode_of standard text)
        (λ v. IsBytes v.items × (code.now ≡ encode_of standard v.items)
        × ((text : List ℕ) → IsBytes text → code.now ≡ encode_of standard text → text ≡ v.items))) }
{
    match STANDARD.decode(alloc, code) {
        Ok(bytes) => Ok(Some(bytes)),
        Err(DecodeAllocError::OutOfMemory) => Err(AllocError),
        Err(DecodeAllocError::DecodeError(_)) => Ok(None),
    }
}

/// The credentials that the value of a field shows (RFC 7617, section 2), without white space
/// around it; `None` where it reads as none.
pub fn credentials_of(alloc: Global, value: &[u8]) -> Result<Option<Credentials>, AllocError>
    ensures { IfOk result (λ shown. MatchOption shown
        ((name password : List ℕ) → ¬ IsBasic value.now name password)
        (λ c. IsBasic value.now (string_bytes c.name) (string_bytes c.password))) }
{
    let Some(code) = code_of(value) else {
        return Ok(None);
    };
    let Some(bytes) = decoded(alloc, code)? else {
        return Ok(None);
    };
    let Ok(text) = str::from_utf8(&bytes) else {
        return Ok(None);
    };
    let Some((name, password)) = split_at_first(text, ':') else {
        return Ok(None);
    };
    Ok(Some(Credentials {
        name: String::from_str(alloc, name)?,
        password: String::from_str(alloc, password)?,
    }))
}
