//! Elements and numbers that may be missing, and true or false.
ghost use Rattle.std.specs.Prelude.{◌≡◌, ◌++◌, ℕ, IfSome, OnOk};
ghost use Rattle.dav_saved.specs.Reading.{Gives};
ghost use Rattle.dav_saved.specs.Parts.{flag, flag_at, moment, moment_at, value, value_at, Fits64, IsValue, IsWithin};

use crate::elements::put_element;
use crate::errors::LoadError;
use crate::reading::number_of;
use crate::trees::element_of;
use crate::writing::put_number;
use dav_core::element::Element;
use std::alloc::{AllocError, Global};

/// Adds an element that may be missing. After an error a part of it may have been added.
pub fn put_value(out: &mut Vec<u8>, element: &Option<Element>) -> Result<(), AllocError>
    ensures added { OnOk result (out.new.items ≡ out.old.items ++ value element.now) }
    ensures saveable { OnOk result
        ((levels : ℕ) → IsWithin levels element.now → IsValue levels element.now) }
{
    match element {
        Some(element) => {
            // Reading a field lets the checker know that the tree is an element.
            let _ = &element.name;
            out.push(1)?;
            put_element(out, element)?;
            Ok(())
        }
        None => {
            out.push(0)?;
            Ok(())
        }
    }
}

/// The element that may be missing in front of bytes, and what is behind it. `NotSaved` where no
/// such element of at most so many levels is there.
#[tactic(auto, unfolding(crate::specs::Parts::value_at))]
pub fn value_of(
    alloc: Global,
    levels: usize,
    bytes: &[u8],
) -> Result<(Option<Element>, &[u8]), LoadError>
    ensures { Gives (λ x. (x.0, x.1.now)) result (value_at levels bytes.now) }
{
    match bytes {
        [0, rest @ ..] => Ok((None, rest)),
        [1, rest @ ..] => {
            let (element, rest) = element_of(alloc, levels, rest)?;
            Ok((Some(element), rest))
        }
        _ => Err(LoadError::NotSaved),
    }
}

// Adds a number that may be missing.
pub fn put_moment(out: &mut Vec<u8>, time: Option<u64>) -> Result<(), AllocError>
    ensures added { OnOk result (out.new.items ≡ out.old.items ++ moment time) }
    ensures saveable { IfSome time Fits64 }
{
    match time {
        Some(number) => {
            out.push(1)?;
            put_number(out, number)?;
            Ok(())
        }
        None => {
            out.push(0)?;
            Ok(())
        }
    }
}

// The number that may be missing in front of bytes, and what is behind it.
#[tactic(auto, unfolding(crate::specs::Parts::moment_at))]
pub fn moment_of(bytes: &[u8]) -> Result<(Option<u64>, &[u8]), LoadError>
    ensures { Gives (λ x. (x.0, x.1.now)) result (moment_at bytes.now) }
{
    match bytes {
        [0, rest @ ..] => Ok((None, rest)),
        [1, rest @ ..] => {
            let (number, rest) = number_of(rest)?;
            Ok((Some(number), rest))
        }
        _ => Err(LoadError::NotSaved),
    }
}

// Adds true or false.
pub fn put_flag(out: &mut Vec<u8>, is: bool) -> Result<(), AllocError>
    ensures { OnOk result (out.new.items ≡ out.old.items ++ flag is) }
{
    out.push(if is { 1 } else { 0 })?;
    Ok(())
}

// The true or false in front of bytes, and what is behind it.
#[tactic(auto, unfolding(crate::specs::Parts::flag_at))]
pub fn flag_of(bytes: &[u8]) -> Result<(bool, &[u8]), LoadError>
    ensures { Gives (λ x. (x.0, x.1.now)) result (flag_at bytes.now) }
{
    match bytes {
        [0, rest @ ..] => Ok((false, rest)),
        [1, rest @ ..] => Ok((true, rest)),
        _ => Err(LoadError::NotSaved),
    }
}
