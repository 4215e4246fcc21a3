//! Bytes that are written one part behind another.
ghost use Rattle.std.specs.Prelude.{◌≡◌, ◌+◌, ◌<◌, length, slice_range, take, IfSome};
ghost use Rattle.dav_journal.specs.Parts.{IsGated, PartsView, bytes_in};

use std::marker::Model;

/// Bytes in three parts, which follow one another: of a block what is before the body of its content, that body, and the gate
/// after it. None of them is copied to stand beside the others.
#[derive(Drop)]
pub struct Parts<'a> {
    pub first: &'a [u8],
    pub body: &'a [u8],
    pub last: &'a [u8],
}

impl<'a> Model for Parts<'a> {
    ghost use Rattle.dav_journal.specs.Parts.{PartsView};

    ghost Value = { PartsView };

    ghost view = { λ p. record { first = p.first.now; body = p.body.now; last = p.last.now } };
}

impl<'a> Parts<'a> {
    // Where they end that begin at this place.
    pub fn end_from(&self, at: usize) -> Option<usize>
        ensures { IfSome result (λ n. n ≡ at + length (bytes_in self.now)) }
    {
        at.checked_add(self.first.len())?
            .checked_add(self.body.len())?
            .checked_add(self.last.len())
    }

    // All but the gate that they begin with.
    pub fn behind_gate(&self) -> Parts<'a>
        requires { IsGated self.now }
        ensures rest { bytes_in result
            ≡ slice_range (bytes_in self.now) 1 (length (bytes_in self.now)) }
        ensures some { 0 < length result.first }
    {
        Parts {
            first: &self.first[1..],
            body: self.body,
            last: self.last,
        }
    }

    // The gate that they begin with.
    pub fn gate(&self) -> &'a [u8]
        requires { IsGated self.now }
        ensures { result.now ≡ take 1 (bytes_in self.now) }
    {
        &self.first[..1]
    }
}
