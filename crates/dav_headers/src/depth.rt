//! How far below its resource a request applies (RFC 4918, section 10.2).
ghost use Rattle.std.specs.Prelude.{◌≡◌, ◌↔◌, IfOk, IsErrOf, IsOkUnless, IsSomeAnd};
ghost use Rattle.std.specs.Result.{result_ok};
ghost use Rattle.http_header.specs.FieldValue.{plain_value};
ghost use Rattle.dav_headers.specs.Depth.{depth_text, IsDepth};
ghost use Rattle.dav_headers.specs.Value.{Decodes};

use crate::errors::HeaderError;
use crate::values::{only_text, written};
use http_header::HeaderValue;
use std::alloc::Global;

/// The header Depth: how far below its resource a request applies.
#[derive(Clone, Copy, Debug, PartialEq, Eq)]
pub enum Depth {
    /// The header was left out.
    Default,
    /// The resource alone.
    Zero,
    /// The resource and its members.
    One,
    /// The resource and everything below it.
    Infinity,
}

impl Depth {
    /// The depth in the only value: `0`, `1`, and `infinity` or `Infinity`. `Invalid` for any other values. Allocates
    /// nothing.
    pub fn decode(_alloc: Global, values: &[HeaderValue]) -> Result<Depth, HeaderError>
        ensures reads { Decodes IsDepth values.now (result_ok result) }
        ensures error { IsOkUnless result HeaderError.Invalid }
    {
        match only_text(values) {
            Some("0") => Ok(Depth::Zero),
            Some("1") => Ok(Depth::One),
            Some("infinity" | "Infinity") => Ok(Depth::Infinity),
            _ => Err(HeaderError::Invalid),
        }
    }

    /// `0`, `1` or `Infinity`; `Invalid` exactly for `Default`, which has no text.
    pub fn encode(&self, alloc: Global) -> Result<HeaderValue, HeaderError>
        ensures ok { IfOk result (λ v.
            IsSomeAnd (depth_text self.now) (λ text. v ≡ plain_value text)) }
        ensures invalid { IsErrOf result HeaderError.Invalid ↔ (self.now ≡ Depth.Default) }
    {
        match self {
            Depth::Default => Err(HeaderError::Invalid),
            Depth::Zero => written(alloc, "0"),
            Depth::One => written(alloc, "1"),
            Depth::Infinity => written(alloc, "Infinity"),
        }
    }
}
