//! The text of a path in a URL (RFC 3986, sections 2.1 and 2.3).
ghost use Rattle.std.specs.Prelude.{◌≡◌, IfOk, string_bytes};
ghost use Rattle.dav_core.specs.UrlText.{url_text};
ghost use Rattle.percent_encoding.specs.Iter.{encoded_text};

use crate::errors::NoMemory;
use percent_encoding::{AsciiSet, NON_ALPHANUMERIC, PercentEncode, ascii_set, percent_encode};
use std::alloc::Global;

/// The bytes that are escaped: all but letters, digits and `-_.~/`.
const ESCAPED: AsciiSet = ascii_set!(
    NON_ALPHANUMERIC
        .remove(b'-')
        .remove(b'_')
        .remove(b'.')
        .remove(b'~')
        .remove(b'/')
);

/// The bytes with escapes, to be written.
pub(super) fn escaped(bytes: &[u8]) -> PercentEncode<'_>
    ensures { encoded_text result ≡ url_text bytes.now }
{
    percent_encode(bytes, ESCAPED)
}

/// The bytes, with escapes.
pub(super) fn url_text(alloc: Global, bytes: &[u8]) -> Result<String, NoMemory>
    ensures { IfOk result (λ s. string_bytes s ≡ url_text bytes.now) }
{
    let mut text = String::new(alloc);
    percent_encode(bytes, ESCAPED).append_to(&mut text)?;
    Ok(text)
}
