//! Entity tags (RFC 9110, section 8.8.3).
use crate::errors::{HeaderError, NoMemory};
use crate::values::{is_text, only_text, written};
use http_header::HeaderValue;
use std::alloc::Global;
use std::fmt;
use std::marker::Model;

/// An entity tag: a text between quotes, and whether it is weak.
#[derive(Debug, Drop)]
pub struct ETag {
    weak: bool,
    tag: String,
}

impl Model for ETag {
    ghost use Rattle.std.specs.Prelude.{string_bytes};
    ghost use Rattle.dav_headers.specs.ETag.{EntityTag, IsUnquoted, coded_tag};

    ghost Value = { EntityTag };

    ghost coded = { coded_tag };

    ghost view = { λ e. record { weak = e.weak; tag = string_bytes e.tag } };

    ghost invariant = { λ e. IsUnquoted (string_bytes e.tag) };
}

ghost use Rattle.std.specs.Prelude.{◌≡◌, ◌∷◌, [], ◌↔◌, ℕ, List, false, IfOk, IfSome, IfNone, IsErrOf, IsTrue};
ghost use Rattle.dav_headers.specs.Value.{IsText, ReadsBy, Writes};
ghost use Rattle.dav_headers.specs.ETag.{tag_text, EntityTag, IsUnquoted, IsEntityTag, IsETag, is_strong_match, is_weak_match};

// Whether a tag's text is that of a weak tag, and what is between its quotes.
pub(super) fn parts(text: &str) -> Option<(bool, &str)>
    ensures found { IfSome result (λ p. IsEntityTag text.now record { weak = p.0; tag = p.1.now }) }
    ensures none { IfNone result ((e : EntityTag) → ¬ IsEntityTag text.now e) }
{
    match text.strip_prefix("W/") {
        Some(rest) => Some((true, unquoted(rest)?)),
        None => Some((false, unquoted(text)?)),
    }
}

// What is between the quotes of a text that has one at each end, and none between.
fn unquoted(text: &str) -> Option<&str>
    ensures found { IfSome result (λ tag.
        IsEntityTag text.now record { weak = false; tag = tag.now }) }
    ensures none { IfNone result ((tag : List ℕ)
        → ¬ IsEntityTag text.now record { weak = false; tag = tag }) }
{
    let tag = text.strip_prefix('"')?.strip_suffix('"')?;
    if tag.as_bytes().contains(&b'"') {
        None
    } else {
        Some(tag)
    }
}

impl ETag {
    /// A tag with this text between its quotes; `Invalid` exactly where there is a quote in the text.
    pub fn new(alloc: Global, weak: bool, text: &str) -> Result<ETag, HeaderError>
        ensures ok { IfOk result (λ e. (e.weak ≡ weak) × (e.tag ≡ text.now) × IsUnquoted text.now) }
        ensures invalid { IsErrOf result HeaderError.Invalid ↔ ¬ IsUnquoted text.now }
    {
        if text.as_bytes().contains(&b'"') {
            return Err(HeaderError::Invalid);
        }
        let tag = String::from_str(alloc, text)?;
        Ok(ETag { weak, tag })
    }

    /// The tag of a text as it is in a header: `W/` where it is weak, then a text without quotes between quotes.
    /// `Invalid` where the text isn't a tag.
    pub fn from_str(alloc: Global, text: &str) -> Result<ETag, HeaderError>
        ensures { ReadsBy IsEntityTag text.now result }
    {
        let Some((weak, tag)) = parts(text) else {
            return Err(HeaderError::Invalid);
        };
        let tag = String::from_str(alloc, tag)?;
        Ok(ETag { weak, tag })
    }

    /// Whether the tag is weak.
    pub fn is_weak(&self) -> bool
        ensures { result ≡ self.now.weak }
    {
        self.weak
    }

    /// The strong comparison (RFC 9110, section 8.8.3.2): neither is weak, and the texts between the quotes are equal.
    pub fn strong_eq(&self, other: &ETag) -> bool
        ensures { result ≡ is_strong_match self.now other.now }
    {
        !self.weak && !other.weak && self.tag == other.tag
    }

    /// The weak comparison (RFC 9110, section 8.8.3.2): the texts between the quotes are equal.
    pub fn weak_eq(&self, other: &ETag) -> bool
        ensures { result ≡ is_weak_match self.now other.now }
    {
        self.tag == other.tag
    }

    /// The tag in the only value of a header (`ETag`, RFC 9110, section 8.8.3). `Invalid` where there isn't exactly
    /// one value, or it isn't a tag.
    pub fn decode(alloc: Global, values: &[HeaderValue]) -> Result<ETag, HeaderError>
        ensures { ReadsBy IsETag values.now result }
    {
        let Some(text) = only_text(values) else {
            return Err(HeaderError::Invalid);
        };
        ETag::from_str(alloc, text)
    }

    // Whether the tag can be the value of a header.
    pub(super) fn is_text(&self) -> bool
        ensures { IsTrue result ↔ IsText (tag_text self.now.weak self.now.tag) }
    {
        is_text(&self.tag)
    }

    /// The tag as a value, which `decode` reads as this tag; `Invalid` exactly where it isn't text.
    pub fn encode(&self, alloc: Global) -> Result<HeaderValue, HeaderError>
        ensures writes { Writes result (tag_text self.now.weak self.now.tag) }
        ensures again { IfOk result (λ v. IsETag (v ∷ []) self.now) }
    {
        if !is_text(&self.tag) {
            return Err(HeaderError::Invalid);
        }
        let text = format!(in alloc; "{self}")?;
        written(alloc, &text)
    }
}

/// Writes `W/` where the tag is weak, and the text between quotes.
impl fmt::Display for ETag {
    ghost use Rattle.std.specs.Prelude.{Some};
    ghost use Rattle.dav_headers.specs.ETag.{tag_text};

    ghost output = { λ e. Some (tag_text e.weak e.tag) };

    fn fmt<W: fmt::Write>(&self, f: &mut fmt::Formatter<W>) -> fmt::Result {
        let mark = if self.weak { "W/" } else { "" };
        write!(f, "{mark}\"{}\"", self.tag)
    }
}

impl Clone for ETag {
    ghost use Rattle.std.specs.Prelude.{◌≡◌};

    ghost is_clone = { λ e copy. copy ≡ e };

    fn clone(&self) -> Result<ETag, NoMemory> {
        Ok(ETag {
            weak: self.weak,
            tag: self.tag.clone()?,
        })
    }
}
