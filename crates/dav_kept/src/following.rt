//! What keeps blocks may be read while another opening keeps more.
ghost use Rattle.std.specs.Prelude.{◌≡◌, ◌++◌, ◌∷◌, [], ℕ, List, false, IfOk, MatchOption};

use crate::error::KeptError;
use crate::journal::Keeps;
use std::alloc::Global;

/// Blocks that another opening keeps, which are read as they come.
pub trait Follows: Keeps {
    // No other opening began anew since the first block was read.
    ghost is_unturned: { Self → Type 0 };

    // These blocks were read, in this order, and none was left out. Where there are some, no block
    // follows them.
    ghost has_all: { Self → List (List ℕ) → Type 0 };

    /// The next block behind those that were read, of which there is one at least; `None` where none
    /// is whole yet. `Damaged` where one was kept. It may be of a journal that began anew, where
    /// `is_anew` is true after it.
    fn follow(&mut self, alloc: Global) -> Result<Option<Vec<u8>>, KeptError>
        ensures clean { Self.is_clean self.new → Self.is_clean self.old }
        ensures read { IfOk result (λ block. Self.is_clean self.new → (blocks : List (List ℕ))
            → Self.has_so_far self.old blocks → MatchOption block (has_all self.new blocks)
            (λ b. Self.has_so_far self.new (blocks ++ b.items ∷ []))) };

    /// Whether another opening began anew since the first block was read, or none was: this one has to
    /// be opened anew then.
    fn is_anew(&mut self) -> Result<bool, KeptError>
        ensures clean { Self.is_clean self.new → Self.is_clean self.old }
        ensures read { (blocks : List (List ℕ)) → Self.has_so_far self.old blocks
            → Self.has_so_far self.new blocks }
        ensures all { (blocks : List (List ℕ)) → has_all self.old blocks
            → has_all self.new blocks }
        ensures same { IfOk result (λ is. is ≡ false → Self.is_clean self.new
            → is_unturned self.new) };

    ghost read_is_all: { (j : Self) (blocks : List (List ℕ)) → Self.has_read j blocks
        → has_all j blocks };

    ghost all_is_so_far: { (j : Self) (blocks : List (List ℕ)) → has_all j blocks
        → Self.has_so_far j blocks };
}
