//! The marks between the front of a file and its first block: each can say how far the blocks reached.
ghost use Rattle.std.specs.Prelude.{◌≡◌, ◌<◌, ◌^◌, ℕ, Some, IfSome};
ghost use Rattle.dav_journal.specs.Block.{twice};
ghost use Rattle.dav_journal.specs.Mark.{mark_after};

use crate::block::{FRONT, number, twice_bytes};

/// The bytes of a mark: a number, and its complement.
pub const MARK: usize = 16;

// The place of the mark that is written after the one at this place.
pub fn mark_after(place: usize) -> usize
    ensures { result ≡ mark_after place }
{
    if place == FRONT {
        FRONT + MARK
    } else if place == FRONT + MARK {
        FRONT + 2 * MARK
    } else {
        FRONT
    }
}

// The number of a mark with these bytes.
pub fn mark_in(bytes: &[u8; MARK]) -> Option<u64>
    ensures some { IfSome result (λ n. bytes.now ≡ twice n) }
    ensures each { (n : ℕ) → n < 2 ^ 64 → bytes.now ≡ twice n → result ≡ Some n }
{
    let n = number(&bytes[..8]);
    if *bytes == twice_bytes(n) {
        Some(n)
    } else {
        None
    }
}
