//! What keeps blocks of bytes.
ghost use Rattle.std.specs.Prelude.{◌≡◌, ◌<◌, ℕ, length, List, [], ◌∷◌, ◌++◌, MatchOption, IfOk, OnOk};

use crate::error::KeptError;
use std::alloc::Global;

/// What keeps blocks of bytes, over a crash too. Its blocks are read first, in their order, until
/// none follows; then it begins, and more are kept.
pub trait Keeps {
    // No wrong answer of what the blocks are on was taken for a true one.
    ghost is_clean: { Self → Type 0 };

    // These blocks were read, in this order, and none was left out.
    ghost has_so_far: { Self → List (List ℕ) → Type 0 };

    // The same, and no block follows them.
    ghost has_read: { Self → List (List ℕ) → Type 0 };

    // Whatever a crash leaves from here on has these blocks, in this order, and no others.
    ghost kept: { Self → List (List ℕ) → Type 0 };

    // Whatever a crash leaves at this moment has the first blocks and no others, or the second ones
    // and no others.
    ghost leaves: { Self → List (List ℕ) → List (List ℕ) → Type 0 };

    // Whatever a crash leaves, its blocks are as they read.
    ghost is_synced: { Self → Type 0 };

    // No other opening went on with what its blocks are on.
    ghost is_own: { Self → Type 0 };

    // Where in its file the blocks that were read end.
    ghost ends_at: { Self → ℕ };

    // Its file has these bytes at this place.
    ghost has_bytes: { Self → ℕ → List ℕ → Type 0 };

    /// The next block; `None` where none follows. `Damaged` where one did.
    fn next(&mut self, alloc: Global) -> Result<Option<Vec<u8>>, KeptError>
        ensures clean { is_clean self.new → is_clean self.old }
        ensures read { IfOk result (λ block. is_clean self.new → (blocks : List (List ℕ))
            → has_so_far self.old blocks → MatchOption block (has_read self.new blocks)
            (λ b. has_so_far self.new (blocks ++ b.items ∷ []))) };

    /// The place in the file where the blocks that were read end.
    fn place(&self) -> usize
        ensures { result ≡ ends_at self.now };

    /// How many bytes follow the last block, up to the last that isn't 0: what a crash left of a
    /// block that wasn't kept.
    fn rest(&mut self) -> Result<usize, KeptError>
        ensures clean { is_clean self.new → is_clean self.old }
        ensures read { (blocks : List (List ℕ)) → has_read self.old blocks
            → has_read self.new blocks };

    /// Reads bytes of the file from this place on.
    fn read(&mut self, at: usize, piece: &mut [u8]) -> Result<(), KeptError>
        ensures bytes { OnOk result (is_clean self.new → 0 < length piece.old
            → has_bytes self.old at piece.new) }
        ensures clean { is_clean self.new → is_clean self.old }
        ensures read { (blocks : List (List ℕ)) → has_read self.old blocks
            → has_read self.new blocks };

    /// Makes what was read ready for more blocks: what follows them is dropped.
    fn begin(&mut self) -> Result<(), KeptError>
        ensures clean { is_clean self.new → is_clean self.old }
        ensures kept { OnOk result (is_clean self.new → (blocks : List (List ℕ))
            → has_read self.old blocks → kept self.new blocks) };

    /// Makes room for a block of so many bytes. False where there is none.
    fn room(&mut self, size: usize) -> Result<bool, KeptError>
        ensures clean { is_clean self.new → is_clean self.old }
        ensures kept { (blocks : List (List ℕ)) → kept self.old blocks → kept self.new blocks };

    /// Keeps a block after the others, where no other opening went on with them. After an error, but for
    /// `Memory`, nothing more may be asked.
    fn keep(&mut self, alloc: Global, block: &[u8]) -> Result<(), KeptError>
        ensures clean { is_clean self.new → is_clean self.old }
        ensures own { OnOk result (is_clean self.new → is_own self.old) }
        ensures kept { OnOk result ((blocks : List (List ℕ)) → kept self.old blocks
            → kept self.new (blocks ++ block.now ∷ [])) }
        ensures any_moment { (blocks : List (List ℕ)) → kept self.old blocks
            → leaves self.new blocks (blocks ++ block.now ∷ []) };

    /// The same of a block that is in two parts, of which the second one is kept from where it is.
    fn keep_both(&mut self, alloc: Global, block: &[u8], body: &[u8]) -> Result<(), KeptError>
        ensures clean { is_clean self.new → is_clean self.old }
        ensures own { OnOk result (is_clean self.new → is_own self.old) }
        ensures kept { OnOk result ((blocks : List (List ℕ)) → kept self.old blocks
            → kept self.new (blocks ++ (block.now ++ body.now) ∷ [])) }
        ensures any_moment { (blocks : List (List ℕ)) → kept self.old blocks
            → leaves self.new blocks (blocks ++ (block.now ++ body.now) ∷ []) };

    /// Makes room to begin anew with a block of so many bytes. False where there is none.
    fn room_to_renew(&mut self, size: usize) -> Result<bool, KeptError>
        ensures clean { is_clean self.new → is_clean self.old }
        ensures kept { (blocks : List (List ℕ)) → kept self.old blocks → kept self.new blocks };

    /// Begins anew, as far as no other opening went on: this block takes the place of all that are
    /// kept. After an error nothing more may be asked.
    fn renew(&mut self, alloc: Global, block: &[u8]) -> Result<(), KeptError>
        ensures clean { is_clean self.new → is_clean self.old }
        ensures own { OnOk result (is_clean self.new → is_own self.old) }
        ensures kept { OnOk result (is_clean self.new → (blocks : List (List ℕ))
            → kept self.old blocks → kept self.new (block.now ∷ [])) }
        ensures any_moment { is_clean self.new → (blocks : List (List ℕ)) → kept self.old blocks
            → leaves self.new blocks (block.now ∷ []) };

    /// Sees that no other opening went on, and makes sure that the loss of the last block would be
    /// seen.
    fn keep_mark(&mut self) -> Result<(), KeptError>
        ensures clean { is_clean self.new → is_clean self.old }
        ensures own { OnOk result (is_clean self.new → is_own self.old) }
        ensures synced { OnOk result (is_synced self.new) }
        ensures kept { OnOk result ((blocks : List (List ℕ)) → kept self.old blocks
            → kept self.new blocks) }
        ensures any_moment { (blocks : List (List ℕ)) → kept self.old blocks
            → leaves self.new blocks blocks };

    ghost kept_is_left: { (j : Self) (blocks others : List (List ℕ)) → kept j blocks
        → leaves j blocks others × leaves j others blocks };
}
