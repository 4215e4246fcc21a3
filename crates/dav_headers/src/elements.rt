//! Lists in the values of headers (RFC 9110, section 5.6.1).
ghost use Rattle.std.specs.Prelude.{◌≡◌, map, string_bytes, IfOk};
ghost use Rattle.dav_headers.specs.Elements.{joined, trimmed};

use crate::errors::NoMemory;
use std::alloc::Global;

// The text without the ASCII white space at its ends.
pub(super) fn trimmed(text: &str) -> &str
    ensures { result.now ≡ trimmed text.now }
{
    text.trim_ascii()
}

// The texts with a comma and a space between them.
pub(super) fn joined(alloc: Global, texts: &[String]) -> Result<String, NoMemory>
    ensures { IfOk result (λ s. string_bytes s ≡ joined (map string_bytes texts.now)) }
{
    let Some((first, rest)) = texts.split_first() else {
        return Ok(String::new(alloc));
    };
    let mut text = String::from_str(alloc, first)?;
    for next in rest {
        text.push_str(", ")?;
        text.push_str(next)?;
    }
    Ok(text)
}
