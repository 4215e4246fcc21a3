//! What answers the requests of all connections, and keeps what it answered.
ghost use Rattle.std.specs.Prelude.{ℕ, List, OnOk};

use dav_wire::{Answerer, Stop};
use std::alloc::AllocError;

/// Why a turn failed. Nothing that it ordered may be handed out.
#[derive(Clone, Copy, Debug, PartialEq, Eq)]
pub enum TurnError {
    /// A report has too many bytes, is of no kind, or doesn't fit its slot; or a write of the
    /// orders failed.
    Pipe,
    /// Memory ran out or the disk failed.
    Stopped(Stop),
}

impl From<Stop> for TurnError {
    ghost use Rattle.std.specs.Prelude.{◌≡◌};
    ghost use Rattle.dav_turns.specs.declared.keeper.TurnError.TheVariants.{Stopped};

    ghost from_gives = { λ stop error. error ≡ Stopped stop };

    fn from(stop: Stop) -> TurnError {
        TurnError::Stopped(stop)
    }
}

impl From<AllocError> for TurnError {
    ghost use Rattle.std.specs.Prelude.{◌≡◌};
    ghost use Rattle.dav_wire.specs.declared.answer.Stop.TheVariants.{Memory};
    ghost use Rattle.dav_turns.specs.declared.keeper.TurnError.TheVariants.{Stopped};

    ghost from_gives = { λ _ error. error ≡ Stopped Memory };

    fn from(_error: AllocError) -> TurnError {
        TurnError::Stopped(Stop::Memory)
    }
}

/// What answers requests, hears what the front reports besides, and keeps what it answered. After
/// an error nothing more may be released.
pub trait Keeper: Answerer {
    // The front began, with these random bytes.
    ghost greeted: { Self → List ℕ → Self → Type 0 };

    // The list of the users was written anew: these bytes.
    ghost listed: { Self → List ℕ → Self → Type 0 };

    // The requests that follow come from this address.
    ghost placed: { Self → List ℕ → Self → Type 0 };

    // A clock that goes on steadily and is never set shows these seconds, and the date is this, in
    // seconds since 1970.
    ghost passed: { Self → ℕ → ℕ → Self → Type 0 };

    // A second passed.
    ghost marked: { Self → Self → Type 0 };

    // All that was answered before the first state is kept in the second.
    ghost kept: { Self → Self → Type 0 };

    /// Takes the random bytes of the front.
    fn hear_hello(&mut self, bytes: &[u8])
        ensures { greeted self.old bytes.now self.new };

    /// Takes the list of the users anew.
    fn hear_users(&mut self, bytes: &[u8]) -> Result<(), Stop>
        ensures { OnOk result (listed self.old bytes.now self.new) };

    /// Takes how many bytes are free for files, as the front tells it. The keeper stays the same.
    fn hear_room(&self, bytes: &[u8]);

    /// Takes the address that the requests come from which are answered next.
    fn hear_address(&mut self, address: &[u8]) -> Result<(), Stop>
        ensures { OnOk result (placed self.old address.now self.new) };

    /// Takes the clocks of a report: the seconds of one that goes on steadily and is never set, and the
    /// date, in seconds since 1970.
    fn hear_clocks(&mut self, seconds: u64, date: u64) -> Result<(), Stop>
        ensures { OnOk result (passed self.old seconds date self.new) };

    /// Does what is to be done once a second.
    fn keep_mark(&mut self) -> Result<(), Stop>
        ensures { OnOk result (marked self.old self.new) };

    /// Keeps all that was answered.
    fn commit(&mut self) -> Result<(), Stop>
        ensures { OnOk result (kept self.old self.new) };
}
