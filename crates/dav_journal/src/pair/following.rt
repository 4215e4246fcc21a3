//! The blocks that another opening of the files keeps are read.
ghost use Rattle.std.specs.Prelude.{◌≡◌, ◌++◌, ◌∷◌, [], ℕ, List, false, slice_index, IfOk, OnOk, IsErrOf, MatchOption};
ghost use Rattle.std.specs.Int.{w64, to_be_bytes};
ghost use Rattle.sqlite_disk.specs.Disk.{Holds};
ghost use Rattle.dav_journal.specs.Journal.{blocks_end, file_of};
ghost use Rattle.dav_journal.specs.Pair.{HasAllPair, IsCleanPair, IsReadingPair, IsUnturned, OnlyLooksPair, OnlyReadsPair, PairStandsFor, counting, generation_of};
ghost use Rattle.dav_journal.specs.declared.error.JournalError.TheVariants.{Damaged};

use crate::block::START;
use crate::error::JournalError;
use crate::pair::Pair;
use sqlite_disk::Disk;
use std::alloc::Global;

impl<D: Disk + Drop> Pair<D> {
    /// The content of the next block that another opening kept behind those that were read, of which there is one at least. `None` where none is
    /// whole yet. `Damaged` where a mark says that it was kept, or the file ends there, and the first block is as it was. The content may be
    /// of another generation, where `is_anew` is true after it.
    pub fn follow(&mut self, alloc: Global) -> Result<Option<Vec<u8>>, JournalError>
        ensures reads { OnlyReadsPair D.Disk self.old self.new }
        ensures read { IfOk result (λ block. IsCleanPair D.Disk self.new
            → (contents : List (List ℕ)) → IsReadingPair D.Disk self.old contents
            → MatchOption block (HasAllPair D.Disk self.new contents)
            (λ b. IsReadingPair D.Disk self.new (contents ++ b.items ∷ []))) }
        ensures damaged { (place : ℕ) → IsErrOf result (Damaged place)
            → IsCleanPair D.Disk self.new → (contents : List (List ℕ))
            → IsReadingPair D.Disk self.old contents
            → (place ≡ blocks_end (counting self.old))
            × ((others : List (List ℕ)) → PairStandsFor D.Disk self.old others → ⊥) }
    {
        if self.counts.len() == START {
            return Ok(None);
        }
        match self.counts.next_whole(alloc) {
            Err(JournalError::Damaged(place)) => self.see_missing(place),
            followed => followed,
        }
    }

    // What is missing at this place: damage, where the first block is as it was; where it isn't, another opening began anew, and nothing is
    // missing.
    fn see_missing(&mut self, place: usize) -> Result<Option<Vec<u8>>, JournalError>
        ensures looks { OnlyLooksPair D.Disk self.old self.new }
        ensures none { IfOk result (λ block. IsCleanPair D.Disk self.new
            → slice_index (file_of D.Disk (counting self.old)) 72 ≡ 1
            → Holds (file_of D.Disk (counting self.old)) 121
            (to_be_bytes w64 (generation_of self.old)) → ⊥) }
        ensures place { (other : ℕ) → IsErrOf result (Damaged other) → other ≡ place }
    {
        match self.counts.see_begin(self.generation.to_be_bytes()) {
            Ok(()) => Err(JournalError::Damaged(place)),
            Err(JournalError::Passed) => Ok(None),
            Err(error) => Err(error),
        }
    }

    /// Whether another opening began anew since the files were opened: the first block is no more that of its generation, or one is in the other
    /// file; or none was read. They have to be opened anew then.
    #[tactic(auto, using(crate::proofs::LookLemmas::reading_pair_looks, crate::proofs::LookLemmas::all_pair_looks, crate::proofs::LookLemmas::unturned_looks))]
    pub fn is_anew(&mut self) -> Result<bool, JournalError>
        ensures looks { OnlyLooksPair D.Disk self.old self.new }
        ensures read { (contents : List (List ℕ)) → IsReadingPair D.Disk self.old contents
            → IsReadingPair D.Disk self.new contents }
        ensures all { (contents : List (List ℕ)) → HasAllPair D.Disk self.old contents
            → HasAllPair D.Disk self.new contents }
        ensures same { IfOk result (λ is. is ≡ false → IsCleanPair D.Disk self.new
            → IsUnturned D.Disk self.new) }
    {
        match self.see_unturned() {
            Ok(()) => Ok(false),
            Err(JournalError::Passed) => Ok(true),
            Err(error) => Err(error),
        }
    }

    // Sees that a first block was read, is there, and is of its generation, and that none is in the other file: `Passed` where it isn't so.
    fn see_unturned(&mut self) -> Result<(), JournalError>
        ensures looks { OnlyLooksPair D.Disk self.old self.new }
        ensures same { OnOk result (IsCleanPair D.Disk self.new → IsUnturned D.Disk self.old) }
    {
        if self.counts.len() == START {
            return Err(JournalError::Passed);
        }
        self.counts.see_begin(self.generation.to_be_bytes())?;
        self.spare.see_shut()
    }
}
