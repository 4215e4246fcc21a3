//! The headers of a request, as methods read them (RFC 9110, section 5).
ghost use Rattle.std.specs.Prelude.{◌≡◌, IfOk, IfErr, Some, Err};
ghost use Rattle.std.specs.Option.{ok_or, option_map};
ghost use Rattle.http_header.specs.HeaderMap.{get_all};
ghost use Rattle.dav_headers.specs.declared.errors.HeaderError.TheVariants as HeaderError;
ghost use Rattle.dav_engine.specs.Headers.{text_in};

use dav_core::errors::NoMemory;
use dav_headers::HeaderError;
use http_header::{HeaderMap, HeaderName, HeaderValue};
use std::alloc::Global;

/// The values of the fields with this name, in order.
pub fn values_of(
    alloc: Global,
    headers: &HeaderMap,
    name: HeaderName,
) -> Result<Vec<HeaderValue>, NoMemory>
    ensures { IfOk result (λ values. values.items ≡ get_all headers.now name) }
{
    let mut values = Vec::new(alloc);
    for value in headers.get_all(name) {
        values.push(value.clone()?)?;
    }
    Ok(values)
}

/// The text of a value, where it is text.
pub fn text_of(value: &HeaderValue) -> Option<&str>
    ensures { option_map (λ t. t.now) result ≡ text_in (Some value.now) }
{
    match value.to_str() {
        Ok(text) => Some(text),
        Err(_) => None,
    }
}

/// What was decoded: nothing where a header is invalid, which counts as absent.
pub fn absent_if_invalid<T>(decoded: Result<T, HeaderError>) -> Result<Option<T>, NoMemory>
    ensures ok { IfOk result (λ header. decoded ≡ ok_or header HeaderError.Invalid) }
    ensures err { IfErr result (λ e. decoded ≡ Err HeaderError.Memory) }
{
    match decoded {
        Ok(header) => Ok(Some(header)),
        Err(HeaderError::Invalid) => Ok(None),
        Err(HeaderError::Memory) => Err(NoMemory),
    }
}
