//! Headers as rows of text: how their values are read, and what is written again.
//!
//! A row adds nothing to the proof of its test; a line of code adds seconds.
mod made;
mod read;

use super::*;
use crate::asserting::same;
use std::alloc::{AllocError, Global};
use std::test::Fail;

// The name at the start of a row, the text after its first bar (which ends with a bar, or is empty), and the expected
// outcome.
fn parts(row: &str) -> Option<(&str, &str, &str)> {
    let (input, wanted) = row.split_once(" -> ")?;
    let (name, texts) = input.split_once(" |")?;
    if texts.is_empty() || texts.ends_with('|') {
        Some((name, texts, wanted))
    } else {
        None
    }
}

// Whether a line is a row: neither empty nor a title.
fn is_row(line: &str) -> bool {
    !line.is_empty() && !line.starts_with("# ")
}

// The bytes of a text in a row, where `\t` is a tab and `\xE9` is that byte.
fn unescaped(alloc: Global, text: &str) -> Result<Vec<u8>, Fail> {
    let mut bytes = Vec::new(alloc);
    let mut pieces = text.split('\\');
    bytes.extend_from_slice(pieces.next().unwrap_or("").as_bytes())?;
    for piece in pieces {
        if let Some(rest) = piece.strip_prefix('t') {
            bytes.push(b'\t')?;
            bytes.extend_from_slice(rest.as_bytes())?;
        } else {
            let (digits, rest) = escaped_byte(piece).ok_or(
                "an escape that is neither a tab nor a byte",
            )?;
            bytes.push(u8::from_str_radix(digits, 16)?)?;
            bytes.extend_from_slice(rest.as_bytes())?;
        }
    }
    Ok(bytes)
}

// The two digits after the `x`, and the text after them.
fn escaped_byte(piece: &str) -> Option<(&str, &str)> {
    piece.strip_prefix('x')?.split_at_checked(2)
}

// An outcome as text: `!` for refused input.
fn outcome_text(alloc: Global, outcome: Result<String, HeaderError>) -> Result<String, AllocError> {
    match outcome {
        Ok(text) => Ok(text),
        Err(HeaderError::Invalid) => String::from_str(alloc, "!"),
        Err(HeaderError::Memory) => String::from_str(alloc, "out of memory"),
    }
}

#[test]
fn shows_errors(rt: HostRuntime) -> Result<(), Fail> {
    let shown = format!(in rt.alloc(); "{} {}", HeaderError::Invalid, HeaderError::Memory)?;
    same(&rt, &shown.as_str(), &"Invalid Memory");
    Ok(())
}
