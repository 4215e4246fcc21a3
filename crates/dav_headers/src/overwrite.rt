//! Whether a copy or a move replaces what is there (RFC 4918, section 10.6).
ghost use Rattle.std.specs.Prelude.{◌≡◌, IfOk, IsOkUnless, option_map};
ghost use Rattle.std.specs.Result.{result_ok};
ghost use Rattle.http_header.specs.FieldValue.{plain_value};
ghost use Rattle.dav_headers.specs.Overwrite.{overwrite_text, IsOverwrite};
ghost use Rattle.dav_headers.specs.Value.{Decodes};

use crate::errors::HeaderError;
use crate::values::{only_text, written};
use http_header::HeaderValue;
use std::alloc::Global;

/// The header Overwrite: whether COPY and MOVE replace what is at their destination.
#[derive(Clone, Debug, PartialEq, Eq, Drop)]
pub struct Overwrite(pub bool);

impl Overwrite {
    /// The flag in the only value: `T` or `F`. `Invalid` for any other values. Allocates nothing.
    pub fn decode(_alloc: Global, values: &[HeaderValue]) -> Result<Overwrite, HeaderError>
        ensures reads { Decodes IsOverwrite values.now (option_map (λ o. o.0) (result_ok result)) }
        ensures error { IsOkUnless result HeaderError.Invalid }
    {
        match only_text(values) {
            Some("T") => Ok(Overwrite(true)),
            Some("F") => Ok(Overwrite(false)),
            _ => Err(HeaderError::Invalid),
        }
    }

    /// `T` or `F`.
    pub fn encode(&self, alloc: Global) -> Result<HeaderValue, HeaderError>
        ensures ok { IfOk result (λ v. v ≡ plain_value (overwrite_text self.now.0)) }
        ensures err { IsOkUnless result HeaderError.Memory }
    {
        written(alloc, if self.0 { "T" } else { "F" })
    }
}
