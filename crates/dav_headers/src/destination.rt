//! Where a copy or a move goes (RFC 4918, section 10.3).
ghost use Rattle.std.specs.Prelude.{◌≡◌, ◌≢◌, ◌↔◌, IsTrue, ℕ, List, ◌++◌, ◌∷◌, IfSome, IfNone, string_bytes};
ghost use Rattle.std.specs.Option.{option_copied};
ghost use Rattle.dav_headers.specs.Value.{Decodes, ReadsAs, Writes};
ghost use Rattle.dav_headers.specs.Destination.{from_slash, IsDestination, IsDestinationText, IsHttp};

use crate::errors::HeaderError;
use crate::values::{cut, only_text, written};
use http_header::HeaderValue;
use std::alloc::Global;

/// The header Destination: the path that COPY and MOVE go to, as it is written in a URL.
#[derive(Clone, Debug, PartialEq, Eq, Drop)]
pub struct Destination(pub String);

impl Destination {
    /// The path in the only value. A text that begins with a slash is the path itself. Of an `http` or `https` URI
    /// (ASCII case of the scheme ignored) it is what follows the authority, from its first slash on, and `/` where
    /// there is no slash. `Invalid` for any other values.
    pub fn decode(alloc: Global, values: &[HeaderValue]) -> Result<Destination, HeaderError>
        ensures { ReadsAs (λ d. string_bytes d.0) IsDestination values.now result }
    {
        let Some(text) = only_text(values) else {
            return Err(HeaderError::Invalid);
        };
        let Some(path) = path_of(text) else {
            return Err(HeaderError::Invalid);
        };
        Ok(Destination(String::from_str(alloc, path)?))
    }

    /// The path as a value; `Invalid` exactly where it has other bytes than 32 to 126 and tab.
    pub fn encode(&self, alloc: Global) -> Result<HeaderValue, HeaderError>
        ensures { Writes result (string_bytes self.now.0) }
    {
        written(alloc, &self.0)
    }
}

// The path that a destination's text names.
fn path_of(text: &str) -> Option<&str>
    ensures { Decodes IsDestinationText text.now (option_copied result) }
{
    if text.starts_with('/') {
        return Some(text);
    }
    let after = after_scheme(text)?;
    Some(path_after(after))
}

// What follows `http://` or `https://`.
fn after_scheme(text: &str) -> Option<&str>
    ensures found { IfSome result (λ after. (scheme : List ℕ)
        × IsHttp scheme × (text.now ≡ scheme ++ 58 ∷ 47 ∷ 47 ∷ after.now)) }
    ensures none { IfNone result ((scheme after : List ℕ)
        → IsHttp scheme → text.now ≢ scheme ++ 58 ∷ 47 ∷ 47 ∷ after) }
{
    let (scheme, rest) = cut(text, ':')?;
    let after = rest.strip_prefix("//")?;
    if is_http(scheme) { Some(after) } else { None }
}

fn is_http(scheme: &str) -> bool
    ensures { IsTrue result ↔ IsHttp scheme.now }
{
    scheme.eq_ignore_ascii_case("http") || scheme.eq_ignore_ascii_case("https")
}

// The text from its first slash on; `/` where it has none.
fn path_after(authority: &str) -> &str
    ensures { result.now ≡ from_slash authority.now }
{
    match authority.find('/') {
        Some(i) => authority.split_at(i).1,
        None => "/",
    }
}
