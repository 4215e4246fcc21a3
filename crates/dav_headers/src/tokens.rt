//! Tokens of locks, and names of tests.
ghost use Rattle.std.specs.Prelude.{string_bytes};
ghost use Rattle.dav_headers.specs.Value.{IsOnlyText, ReadsAs, Writes};

use crate::errors::HeaderError;
use crate::values::{copied_text, written};
use http_header::HeaderValue;
use std::alloc::Global;

/// The header Lock-Token: a token between angle brackets (RFC 4918, section 10.5). It isn't parsed further.
#[derive(Clone, Debug, PartialEq, Eq, Drop)]
pub struct LockToken(pub String);

impl LockToken {
    /// The text of the only value; `Invalid` where there isn't exactly one, or it isn't text.
    pub fn decode(alloc: Global, values: &[HeaderValue]) -> Result<LockToken, HeaderError>
        ensures { ReadsAs (λ h. string_bytes h.0) IsOnlyText values.now result }
    {
        Ok(LockToken(copied_text(alloc, values)?))
    }

    /// The text as a value; `Invalid` exactly where it has other bytes than 32 to 126 and tab.
    pub fn encode(&self, alloc: Global) -> Result<HeaderValue, HeaderError>
        ensures { Writes result (string_bytes self.now.0) }
    {
        let Self(token) = self;
        written(alloc, token)
    }
}

/// The header X-Litmus: the name of a test, which the test suite litmus sends.
#[derive(Clone, Debug, PartialEq, Eq, Drop)]
pub struct XLitmus(pub String);

impl XLitmus {
    /// The text of the only value; `Invalid` where there isn't exactly one, or it isn't text.
    pub fn decode(alloc: Global, values: &[HeaderValue]) -> Result<XLitmus, HeaderError>
        ensures { ReadsAs (λ h. string_bytes h.0) IsOnlyText values.now result }
    {
        Ok(XLitmus(copied_text(alloc, values)?))
    }

    /// The text as a value; `Invalid` exactly where it has other bytes than 32 to 126 and tab.
    pub fn encode(&self, alloc: Global) -> Result<HeaderValue, HeaderError>
        ensures { Writes result (string_bytes self.now.0) }
    {
        let Self(test) = self;
        written(alloc, test)
    }
}
