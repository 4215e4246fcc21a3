//! What holds of the spelling of worlds and of lists of locks.
ghost use Rattle.std.specs.Prelude.{◌≡◌, ◌<◌, ◌++◌, ℕ, List, Some, get_or};
ghost use Rattle.dav_core.specs.World.{World};
ghost use Rattle.dav_core.specs.Locks.{Lock};
ghost use Rattle.dav_saved.specs.Worlds.{IsSaveableWorld, world, world_at};
ghost use Rattle.dav_saved.specs.Locks.{AreSaveableLocks, locks, locks_at};

/// What is saved of a world is read again, whatever follows.
pub fn worlds_are_read_again()
    ensures { (levels : ℕ) (w : World) (rest : List ℕ) → IsSaveableWorld levels w
        → world_at levels (world w ++ rest) ≡ Some (w, rest) }
{}

/// Whatever is read as a world is what is saved of it, and what follows: nothing is passed over,
/// and nothing is taken for another.
pub fn worlds_are_read_whole()
    ensures { (levels : ℕ) (bytes : List ℕ) (w : World) (rest : List ℕ)
        → ((i : ℕ) → get_or bytes i 0 < 256) → world_at levels bytes ≡ Some (w, rest)
        → bytes ≡ world w ++ rest }
{}

/// Two worlds that can be saved are saved differently, whatever follows.
pub fn worlds_are_told_apart()
    ensures { (levels : ℕ) (v w : World) (r s : List ℕ) → IsSaveableWorld levels v
        → IsSaveableWorld levels w → world v ++ r ≡ world w ++ s → (v ≡ w) × (r ≡ s) }
{}

/// What is saved of a list of locks is read again, whatever follows.
pub fn locks_are_read_again()
    ensures { (levels : ℕ) (ls : List Lock) (rest : List ℕ) → AreSaveableLocks levels ls
        → locks_at levels (locks ls ++ rest) ≡ Some (ls, rest) }
{}

/// Whatever is read as a list of locks is what is saved of it, and what follows.
pub fn locks_are_read_whole()
    ensures { (levels : ℕ) (bytes : List ℕ) (ls : List Lock) (rest : List ℕ)
        → ((i : ℕ) → get_or bytes i 0 < 256) → locks_at levels bytes ≡ Some (ls, rest)
        → bytes ≡ locks ls ++ rest }
{}

/// Two lists of locks that can be saved are saved differently, whatever follows.
pub fn locks_are_told_apart()
    ensures { (levels : ℕ) (k l : List Lock) (r s : List ℕ) → AreSaveableLocks levels k
        → AreSaveableLocks levels l → locks k ++ r ≡ locks l ++ s → (k ≡ l) × (r ≡ s) }
{}
