//! The times of files that clients set: that of a picture, or of the file that was copied (RFC 4918,
//! section 15.7). The machine computes `getlastmodified`, so a time that is set is kept as a property
//! of the server's own, beside the moment at which it was set, and is told as long as the file isn't
//! changed after that moment.
ghost use Rattle.std.specs.Prelude.{◌≡◌, ◌≤◌, string_bytes, IfOk, IfSome};
ghost use Rattle.std.specs.Option.{option_and_then};
ghost use Rattle.httpdate.specs.Date.{parse_secs};
ghost use Rattle.dav_core.specs.Element.{text_of};
ghost use Rattle.dav_core.specs.World.{last_moment};
ghost use Rattle.dav_engine.specs.Date.{date_text_of};
ghost use Rattle.dav_presented.specs.Times as spec;

mod asked;
mod told;

use crate::names::{is_dav, is_in};
pub use asked::{find_as, patch_as};
use dav_core::element::Element;
use dav_core::errors::NoMemory;
use httpdate::{HttpDate, fmt_http_date};
use std::alloc::Global;
pub(crate) use told::{is_own, named_as_set, timed, times_told};

/// The namespace of the properties that are the server's own.
const OWN_SPACE: &str = "vuldarg:times";

/// The name of the time that Windows sets.
const WINDOWS_TIME: &str = "Win32LastModifiedTime";

/// The time of a file, and the moment at which it was set, both in seconds since 1970.
pub type Times = (u64, u64);

/// How properties are told: as they were found, with the time that is kept, if there is one; or as a client
/// set them.
#[derive(Clone, Copy, Debug)]
pub enum Telling {
    Found(Option<Times>),
    Outcome,
}

// Whether a property is the time of a file's last change.
fn is_time(property: &Element) -> bool
    ensures { result ≡ spec.is_time property.now }
{
    is_dav(property, "getlastmodified")
        || (property.name.as_str() == WINDOWS_TIME && is_in(property, "urn:schemas-microsoft-com:"))
}

// The moment that a date tells.
fn moment_of(date: &[u8]) -> Option<u64>
    ensures is { result ≡ parse_secs date.now }
    ensures date { IfSome result (λ moment. moment ≤ last_moment) }
{
    match HttpDate::parse_ascii(date) {
        Ok(date) => Some(date.unix_secs()),
        Err(_) => None,
    }
}

// The moment that a property tells.
fn moment_in(alloc: Global, property: &Element) -> Result<Option<u64>, NoMemory>
    ensures is { IfOk result (λ moment.
        moment ≡ option_and_then parse_secs (text_of property.now)) }
    ensures date { IfOk result (λ found. IfSome found (λ moment. moment ≤ last_moment)) }
{
    match property.get_text(alloc)? {
        Some(text) => Ok(moment_of(text.as_bytes())),
        None => Ok(None),
    }
}

/// A moment, in seconds since 1970, at most the end of 9999, as a date of HTTP (RFC 9110, section 5.6.7). `Err` where there is no memory.
pub fn date_text(alloc: Global, moment: u64) -> Result<String, NoMemory>
    requires { moment ≤ last_moment }
    ensures { IfOk result (λ t. string_bytes t ≡ date_text_of moment) }
{
    let date = HttpDate::from_unix_secs(moment).unwrap();
    fmt_http_date(alloc, date)
}
