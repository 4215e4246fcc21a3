//! Numbers in digits.
ghost use Rattle.std.specs.Prelude.{◌≤◌, ℕ};
ghost use Rattle.std.specs.Bool.{Decides};
ghost use Rattle.dav_headers.specs.Value.{Decodes, IsNumber};

use std::str;

// The number that digits write, below 2^64. `parse` would take a plus sign before them.
fn number(text: &[u8]) -> Option<u64>
    ensures { Decodes IsNumber text.now result }
{
    if text.first() == Some(&b'+') {
        return None;
    }
    match str::from_utf8(text) {
        Ok(text) => text.parse::<u64>().ok(),
        Err(_) => None,
    }
}

/// Whether a text is a number of so many at most, as the value of a Content-Length or a port is (RFC 9110, section 8.6; RFC 3986,
/// section 3.2.3).
pub fn is_at_most(text: &[u8], most: u64) -> bool
    ensures { Decides result ((n : ℕ) × IsNumber text.now n × (n ≤ most)) }
{
    match number(text) {
        Some(len) => len <= most,
        None => false,
    }
}
