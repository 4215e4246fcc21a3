//! Moments that HTTP can write.
ghost use Rattle.std.specs.Prelude.{◌≡◌, ◌≤◌, ◌<◌, ◌↔◌, IsOk, IfOk};

use thiserror::Error;

/// A moment, in seconds since 1970, up to the end of the year 9999 (RFC 9110, section 5.6.7).
#[derive(Clone, Copy, Debug)]
pub struct Moment {
    /// Seconds since 1970.
    pub seconds: u64,
    ghost in_range: { seconds ≤ 253_402_300_799 },
}

/// The last moment that HTTP can write.
pub const LAST_MOMENT: u64 = 253_402_300_799;

/// The moment is past the year 9999.
#[derive(Clone, Copy, Debug, PartialEq, Eq, Error)]
#[error("BadMoment")]
pub struct BadMoment;

impl Moment {
    /// The moment that is this many seconds after the beginning of 1970; `BadMoment` past the year 9999.
    pub fn new(seconds: u64) -> Result<Moment, BadMoment>
        ensures ok { IsOk result ↔ (seconds ≤ 253_402_300_799) }
        ensures value { IfOk result (λ m. m.seconds ≡ seconds) }
    {
        if seconds <= LAST_MOMENT {
            Ok(Moment { seconds })
        } else {
            Err(BadMoment)
        }
    }
}
