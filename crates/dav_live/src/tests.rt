//! Who may come in and do what, heads, tokens, lines of the log and pages, as rows of text.
mod access;
mod closed;
mod heads;
mod pages;
mod words;

use std::alloc::{AllocError, Global};

// The bytes of a text in a row, in which `^` is CRLF.
fn unescaped(alloc: Global, text: &str) -> Result<Vec<u8>, AllocError> {
    let mut out = Vec::new(alloc);
    for byte in text.as_bytes() {
        if *byte == b'^' {
            out.extend_from_slice(b"\r\n")?;
        } else {
            out.push(*byte)?;
        }
    }
    Ok(out)
}
