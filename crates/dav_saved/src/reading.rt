//! Numbers, texts and options, as they are read.
ghost use Rattle.std.specs.Prelude.{◌≡◌, length, option_map, string_bytes};
ghost use Rattle.std.specs.Int.{w64};
ghost use Rattle.dav_core.specs.ElementView.{attribute_bytes};
ghost use Rattle.dav_saved.specs.Reading.{Gives, number_at, sized_at, text_at, optional_at, pair_at, many_at, list_at};

use crate::errors::LoadError;
use std::alloc::Global;
use std::str;

/// The number in front of bytes, and what is behind it. `NotSaved` where fewer than eight bytes are
/// there.
#[tactic(auto, unfolding(crate::specs::Reading::number_at))]
pub fn number_of(bytes: &[u8]) -> Result<(u64, &[u8]), LoadError>
    ensures { Gives (λ x. (x.0, x.1.now)) result (number_at bytes.now) }
{
    if bytes.len() < 8 {
        return Err(LoadError::NotSaved);
    }
    let (front, rest) = bytes.split_at(8);
    let number = u64::from_be_bytes([
        front[0], front[1], front[2], front[3], front[4], front[5], front[6], front[7],
    ]);
    Ok((number, rest))
}

/// The bytes in front, behind how many there are, and what is behind them. `NotSaved` where they
/// are fewer.
#[tactic(auto, unfolding(crate::specs::Reading::sized_at))]
pub fn bytes_of(bytes: &[u8]) -> Result<(&[u8], &[u8]), LoadError>
    ensures { Gives (λ x. (x.0.now, x.1.now)) result (sized_at bytes.now) }
{
    let (len, rest) = number_of(bytes)?;
    let len = len as usize;
    if rest.len() < len {
        return Err(LoadError::NotSaved);
    }
    Ok(rest.split_at(len))
}

/// The text in front of bytes, and what is behind it. `NotSaved` where no bytes that are UTF-8 are
/// there.
#[tactic(auto, unfolding(crate::specs::Reading::text_at))]
pub fn text_of(bytes: &[u8]) -> Result<(&str, &[u8]), LoadError>
    ensures { Gives (λ x. (x.0.now, x.1.now)) result (text_at bytes.now) }
{
    let (text, rest) = bytes_of(bytes)?;
    match str::from_utf8(text) {
        Ok(text) => Ok((text, rest)),
        Err(_) => Err(LoadError::NotSaved),
    }
}

/// The same as an owned text.
pub fn string_of(alloc: Global, bytes: &[u8]) -> Result<(String, &[u8]), LoadError>
    ensures { Gives (λ x. (string_bytes x.0, x.1.now)) result (text_at bytes.now) }
{
    let (text, rest) = text_of(bytes)?;
    Ok((String::from_str(alloc, text)?, rest))
}

/// The text that may be missing in front of bytes, and what is behind it. `NotSaved` where there is
/// none such.
#[tactic(auto, unfolding(crate::specs::Reading::optional_at))]
pub fn optional_of(alloc: Global, bytes: &[u8]) -> Result<(Option<String>, &[u8]), LoadError>
    ensures { Gives (λ x. (option_map string_bytes x.0, x.1.now)) result (optional_at bytes.now) }
{
    match bytes {
        [0, rest @ ..] => Ok((None, rest)),
        [1, rest @ ..] => {
            let (text, rest) = string_of(alloc, rest)?;
            Ok((Some(text), rest))
        }
        _ => Err(LoadError::NotSaved),
    }
}
