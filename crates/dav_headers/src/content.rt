//! The media type of a body, and the resource that it represents (RFC 9110, sections 8.3 and 8.7).
ghost use Rattle.std.specs.Prelude.{string_bytes};
ghost use Rattle.dav_headers.specs.Value.{IsOnlyText, ReadsAs, Writes};

use crate::errors::HeaderError;
use crate::values::{copied_text, written};
use http_header::HeaderValue;
use std::alloc::Global;

/// The header Content-Type: the media type of a body (RFC 9110, section 8.3). It isn't parsed further.
#[derive(Clone, Debug, PartialEq, Eq, Drop)]
pub struct ContentType(pub String);

impl ContentType {
    /// The text of the only value; `Invalid` where there isn't exactly one, or it isn't text.
    pub fn decode(alloc: Global, values: &[HeaderValue]) -> Result<ContentType, HeaderError>
        ensures { ReadsAs (λ h. string_bytes h.0) IsOnlyText values.now result }
    {
        Ok(ContentType(copied_text(alloc, values)?))
    }

    /// The text as a value; `Invalid` exactly where it has other bytes than 32 to 126 and tab.
    pub fn encode(&self, alloc: Global) -> Result<HeaderValue, HeaderError>
        ensures { Writes result (string_bytes self.now.0) }
    {
        let Self(media_type) = self;
        written(alloc, media_type)
    }
}

/// The header Content-Location: a URI of the resource that a body represents (RFC 9110, section 8.7). It isn't parsed
/// further.
#[derive(Clone, Debug, PartialEq, Eq, Drop)]
pub struct ContentLocation(pub String);

impl ContentLocation {
    /// The text of the only value; `Invalid` where there isn't exactly one, or it isn't text.
    pub fn decode(alloc: Global, values: &[HeaderValue]) -> Result<ContentLocation, HeaderError>
        ensures { ReadsAs (λ h. string_bytes h.0) IsOnlyText values.now result }
    {
        Ok(ContentLocation(copied_text(alloc, values)?))
    }

    /// The text as a value; `Invalid` exactly where it has other bytes than 32 to 126 and tab.
    pub fn encode(&self, alloc: Global) -> Result<HeaderValue, HeaderError>
        ensures { Writes result (string_bytes self.now.0) }
    {
        let Self(location) = self;
        written(alloc, location)
    }
}
