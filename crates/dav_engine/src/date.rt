//! Dates as HTTP writes them (RFC 9110, section 5.6.7), and as the internet does (RFC 3339, section 5.6).
ghost use Rattle.std.specs.Prelude.{◌≡◌, ◌≤◌, pos, ◌*ℤ◌, string_bytes, IfOk};
ghost use Rattle.http_header.specs.FieldValue.{plain_value};
ghost use Rattle.dav_core.specs.World.{last_moment};
ghost use Rattle.dav_engine.specs.Date.{date_of, date_text_of};
ghost use Rattle.dav_engine.specs.InternetDate.{IsAtMoment};
ghost use Rattle.jiff.specs.Words.{IsBetween, civil_nanos};
ghost use Rattle.dav_engine.specs.Properties.{internet_date};

use dav_core::errors::NoMemory;
use http_header::HeaderValue;
use httpdate::{HttpDate, fmt_http_date};
use jiff::SignedDuration;
use jiff::civil::{DateTime, datetime};
use std::alloc::Global;

/// A moment, in seconds since 1970, as HTTP writes it.
pub fn date_value(alloc: Global, moment: u64) -> Result<HeaderValue, NoMemory>
    requires { moment ≤ last_moment }
    ensures { IfOk result (λ v. v ≡ plain_value (date_text_of moment)) }
{
    let date = HttpDate::from_unix_secs(moment).unwrap();
    match HeaderValue::from_bytes(alloc, &date.to_bytes()) {
        Ok(value) => Ok(value),
        Err(_) => Err(NoMemory),
    }
}

/// A moment, in seconds since 1970, as HTTP writes it.
pub fn date_text(alloc: Global, moment: u64) -> Result<String, NoMemory>
    requires { moment ≤ last_moment }
    ensures { IfOk result (λ t. string_bytes t ≡ date_text_of moment) }
{
    let date = HttpDate::from_unix_secs(moment).unwrap();
    fmt_http_date(alloc, date)
}

// The date and time of day so many seconds after 1970 began.
fn datetime_after(seconds: i64) -> DateTime
    requires { IsBetween (pos 0) (pos last_moment) seconds }
    ensures { civil_nanos result ≡ seconds *ℤ pos 1_000_000_000 }
{
    datetime(1970, 1, 1, 0, 0, 0, 0)
        .checked_add(SignedDuration::from_secs(seconds))
        .unwrap()
}

// The date and time of day of a moment.
fn datetime_of(moment: u64) -> DateTime
    requires { moment ≤ last_moment }
    ensures { IsAtMoment moment result }
{
    datetime_after(moment as i64)
}

/// A moment, in seconds since 1970, as the internet writes it (RFC 3339, section 5.6).
pub fn internet_date(alloc: Global, moment: u64) -> Result<String, NoMemory>
    requires { moment ≤ last_moment }
    ensures { IfOk result (λ t. string_bytes t ≡ internet_date (date_of moment)) }
{
    let date = datetime_of(moment);
    format!(in alloc; "{date}Z")
}
