//! What the fields of a reply say of its file (RFC 9110, section 8.8).
ghost use Rattle.std.specs.Prelude.{◌≡◌, IfOk, codes, option_map};
ghost use Rattle.dav_engine.specs.Reply.{headers_in};
ghost use Rattle.dav_http.specs.Presented.{TellsTag, field_in, modified_in};

use dav_headers::{ETag, HeaderError};
use http_header::HeaderMap;
use httpdate::HttpDate;
use std::alloc::{AllocError, Global};
use std::str;

// The value of the first field with this name.
fn field_in<'h>(headers: &'h HeaderMap, name: &str) -> Option<&'h [u8]>
    ensures { option_map (λ v. v.now) result ≡ field_in name.now (headers_in headers.now) }
{
    for (known, value) in headers.iter() {
        if known.as_str() == name {
            return Some(value.as_bytes());
        }
    }
    None
}

/// The entity tag of the file, if it has one (RFC 9110, section 8.8.3).
pub fn tag_in(alloc: Global, headers: &HeaderMap) -> Result<Option<ETag>, AllocError>
    ensures { IfOk result (λ tag. TellsTag (headers_in headers.now) tag) }
{
    let Some(value) = field_in(headers, "etag") else {
        return Ok(None);
    };
    let Ok(text) = str::from_utf8(value) else {
        return Ok(None);
    };
    match ETag::from_str(alloc, text) {
        Ok(tag) => Ok(Some(tag)),
        Err(HeaderError::Invalid) => Ok(None),
        Err(HeaderError::Memory) => Err(AllocError),
    }
}

/// When the file was changed last, in seconds since 1970 (RFC 9110, section 8.8.2).
pub fn modified_in(headers: &HeaderMap) -> Option<u64>
    ensures { result ≡ modified_in (headers_in headers.now) }
{
    let value = field_in(headers, "last-modified")?;
    match HttpDate::parse_ascii(value) {
        Ok(date) => Some(date.unix_secs()),
        Err(_) => None,
    }
}
