//! How long a body is (RFC 9110, section 8.6).
ghost use Rattle.std.specs.Prelude.{◌≡◌, decimal, IfOk, IsOkUnless, option_map};
ghost use Rattle.std.specs.Result.{result_ok};
ghost use Rattle.http_header.specs.FieldValue.{plain_value};
ghost use Rattle.dav_headers.specs.Value.{Decodes, IsNumber};
ghost use Rattle.dav_headers.specs.Length.{IsContentLength};

use crate::errors::HeaderError;
use crate::values::number;
use http_header::HeaderValue;
use std::alloc::Global;

/// The header Content-Length: how many bytes a body has.
#[derive(Clone, Debug, PartialEq, Eq, Drop)]
pub struct ContentLength(pub u64);

impl ContentLength {
    /// The number that all values are; `3` and `03` are the same number. `Invalid` where there are no values, one
    /// isn't a number of decimal digits below 2^64, or two are different numbers. Allocates nothing.
    pub fn decode(_alloc: Global, values: &[HeaderValue]) -> Result<ContentLength, HeaderError>
        ensures reads { Decodes IsContentLength values.now
            (option_map (λ l. l.0) (result_ok result)) }
        ensures error { IsOkUnless result HeaderError.Invalid }
    {
        let Some(first) = values.first() else {
            return Err(HeaderError::Invalid);
        };
        let Some(length) = length_of(first) else {
            return Err(HeaderError::Invalid);
        };
        if values.iter().all(|value| length_of(value) == Some(length)) {
            Ok(ContentLength(length))
        } else {
            Err(HeaderError::Invalid)
        }
    }

    /// The number in decimal digits.
    pub fn encode(&self, alloc: Global) -> Result<HeaderValue, HeaderError>
        ensures ok { IfOk result (λ v. v ≡ plain_value (decimal self.now.0)) }
        ensures err { IsOkUnless result HeaderError.Memory }
    {
        Ok(HeaderValue::from_u64(alloc, self.0)?)
    }
}

// The number in one value.
fn length_of(value: &HeaderValue) -> Option<u64>
    ensures { Decodes IsNumber value.now.bytes result }
{
    match value.to_str() {
        Ok(text) => number(text),
        Err(_) => None,
    }
}
