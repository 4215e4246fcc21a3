//! The lifetimes that a client wants for a lock (RFC 4918, section 10.7).
ghost use Rattle.std.specs.Prelude.{◌≡◌, ◌↔◌, List, map, string_bytes, IfOk, IsOkUnless, IsTrue};
ghost use Rattle.http_header.specs.FieldValue.{plain_value};
ghost use Rattle.dav_headers.specs.Elements.{elements_of};
ghost use Rattle.dav_headers.specs.Timeout.{timeout_text, time_type_text, AreTimeTypes, IsTimeout, IsTimeType};
ghost use Rattle.dav_headers.specs.Value.{Decodes, ReadsAs};
ghost use Rattle.dav_headers.specs.declared.timeout.DavTimeout.{DavTimeout as DavTimeoutValue};

use crate::elements::{joined, trimmed};
use crate::errors::{HeaderError, NoMemory};
use crate::values::{number, only_text, written};
use http_header::HeaderValue;
use std::alloc::Global;

/// A TimeType: how long a lock is wanted.
#[derive(Clone, Debug, PartialEq, Eq, Drop)]
pub enum DavTimeout {
    /// So many seconds.
    Seconds(u32),
    /// For ever.
    Infinite,
}

/// The header Timeout: how long a lock is wanted, the preferred time first.
#[derive(Clone, Debug, PartialEq, Eq, Drop)]
pub struct Timeout(pub Vec<DavTimeout>);

impl Timeout {
    /// The TimeTypes in the only value, which are between its commas, without white space around them: `Infinite`, or
    /// `Second-` and a number of decimal digits below 2^32. `Invalid` for any other values.
    pub fn decode(alloc: Global, values: &[HeaderValue]) -> Result<Timeout, HeaderError>
        ensures { ReadsAs (λ t. t.0.items) IsTimeout values.now result }
    {
        let Some(text) = only_text(values) else {
            return Err(HeaderError::Invalid);
        };
        Ok(Timeout(time_types(alloc, text)?))
    }

    /// The TimeTypes in order, with a comma and a space between them.
    pub fn encode(&self, alloc: Global) -> Result<HeaderValue, HeaderError>
        ensures ok { IfOk result (λ v. v ≡ plain_value (timeout_text self.now.0.items)) }
        ensures err { IsOkUnless result HeaderError.Memory }
    {
        let texts = texts(alloc, &self.0)?;
        let text = joined(alloc, &texts)?;
        written(alloc, &text)
    }
}

// The TimeTypes that the list elements of a text are.
fn time_types(alloc: Global, text: &str) -> Result<Vec<DavTimeout>, HeaderError>
    ensures { ReadsAs (λ v. v.items) AreTimeTypes (elements_of text.now) result }
{
    if !are_time_types(text) {
        return Err(HeaderError::Invalid);
    }
    let mut time_types = Vec::new(alloc);
    for element in text.split(',') {
        let Some(time_type) = time_type(trimmed(element)) else {
            return Err(HeaderError::Invalid);
        };
        time_types.push(time_type)?;
    }
    Ok(time_types)
}

// Whether each list element of a text is a TimeType.
fn are_time_types(text: &str) -> bool
    ensures { IsTrue result ↔ (ts : List DavTimeoutValue) × AreTimeTypes (elements_of text.now) ts }
{
    for element in text.split(',') {
        if time_type(trimmed(element)).is_none() {
            return false;
        }
    }
    true
}

// The TimeType that a list element is.
fn time_type(element: &str) -> Option<DavTimeout>
    ensures { Decodes IsTimeType element.now result }
{
    if element == "Infinite" {
        return Some(DavTimeout::Infinite);
    }
    let seconds = number(element.strip_prefix("Second-")?)?;
    if seconds > 4_294_967_295 {
        return None;
    }
    Some(DavTimeout::Seconds(seconds as u32))
}

// Each TimeType as text.
fn texts(alloc: Global, time_types: &[DavTimeout]) -> Result<Vec<String>, NoMemory>
    ensures { IfOk result (λ texts. map string_bytes texts.items
        ≡ map time_type_text time_types.now) }
{
    let mut texts = Vec::new(alloc);
    for time_type in time_types {
        texts.push(time_type.text(alloc)?)?;
    }
    Ok(texts)
}

impl DavTimeout {
    fn text(&self, alloc: Global) -> Result<String, NoMemory>
        ensures { IfOk result (λ s. string_bytes s ≡ time_type_text self.now) }
    {
        match self {
            DavTimeout::Seconds(seconds) => format!(in alloc; "Second-{seconds}"),
            DavTimeout::Infinite => String::from_str(alloc, "Infinite"),
        }
    }
}
