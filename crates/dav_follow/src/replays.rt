//! What answers requests, and may go on with what another one keeps.
ghost use Rattle.std.specs.Prelude.{Bool, IfOk, IsTrue};

use dav_turns::Keeper;
use dav_wire::Stop;

/// A keeper that may go on with what another one keeps in its place.
pub trait Replays: Keeper {
    // What another one kept was heard; whether that goes on with what this one heard of it.
    ghost replayed: { Self → Bool → Self → Type 0 };

    // Nothing is left to be kept.
    ghost is_at_rest: { Self → Type 0 };

    /// Hears what another one kept since. False where that begins anew, so that this one has to be
    /// opened anew.
    fn replay(&mut self) -> Result<bool, Stop>
        ensures { IfOk result (λ goes. replayed self.old goes self.new) };

    /// Whether nothing that was answered is left to be kept.
    fn is_at_rest(&self) -> bool
        ensures { IsTrue result → is_at_rest self.now };
}
