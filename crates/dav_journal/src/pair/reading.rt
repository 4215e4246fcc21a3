//! The blocks of the file that counts are read.
ghost use Rattle.std.specs.Prelude.{◌≡◌, ◌≢◌, ◌⊎◌, ◌≤◌, ◌<◌, ◌+◌, ◌^◌, ◌++◌, ◌∷◌, [], ℕ, List, Option, length, slice_index, IsTrue, IfOk, IfSome, OnOk, IsErrOf, MatchOption};
ghost use Rattle.std.specs.Int.{w64, to_be_bytes};
ghost use Rattle.sqlite_disk.specs.Disk.{Holds};
ghost use Rattle.dav_journal.specs.File.{Recovers};
ghost use Rattle.dav_journal.specs.declared.error.JournalError.TheVariants.{Damaged};
ghost use Rattle.dav_journal.specs.Journal.{HasRead, IsClean, IsReading, OnlyReads, blocks_end, blocks_len, disk_of, file_of};
ghost use Rattle.dav_journal.specs.Pair.{HasFirst, HasReadPair, IsCleanPair, IsKeptPair, IsMixingPair, IsReadingPair, OnlyReadsPair, PairLeaves, PairLeavesOnly, PairRecovers, PairStandsFor, StaysPair, WereOpened, counting, generation_of, spare_of};

use crate::block::START;
use crate::error::JournalError;
use crate::pair::Pair;
use sqlite_disk::Disk;
use std::alloc::Global;

impl<D: Disk + Drop> Pair<D> {
    /// The content of the next block that is there. `None` where no block follows. `Damaged` as
    /// `Journal::next` has it, of the file that counts.
    pub fn next(&mut self, alloc: Global) -> Result<Option<Vec<u8>>, JournalError>
        ensures reads { OnlyReadsPair D.Disk self.old self.new }
        ensures read { IfOk result (λ block. IsCleanPair D.Disk self.new
            → (contents : List (List ℕ)) → IsReadingPair D.Disk self.old contents
            → MatchOption block (HasReadPair D.Disk self.new contents)
            (λ b. IsReadingPair D.Disk self.new (contents ++ b.items ∷ []))) }
        ensures damaged { (place : ℕ) → IsErrOf result (Damaged place)
            → IsCleanPair D.Disk self.new → IsMixingPair D.Disk self.new
            → (contents : List (List ℕ)) → IsReadingPair D.Disk self.old contents
            → (place ≡ blocks_end (counting self.old))
            × ((others : List (List ℕ)) → PairStandsFor D.Disk self.old others → ⊥) }
    {
        if self.counts.len() == START {
            return self.first(alloc);
        }
        self.counts.next(alloc)
    }

    // The content of the first block, without the generation.
    fn first(&mut self, alloc: Global) -> Result<Option<Vec<u8>>, JournalError>
        ensures reads { OnlyReadsPair D.Disk self.old self.new }
        ensures read { IfOk result (λ block. IsCleanPair D.Disk self.new
            → IsReadingPair D.Disk self.old [] → MatchOption block (HasReadPair D.Disk self.new [])
            (λ b. IsReadingPair D.Disk self.new (b.items ∷ []))) }
        ensures damaged { (place : ℕ) → IsErrOf result (Damaged place)
            → IsCleanPair D.Disk self.new → IsMixingPair D.Disk self.new
            → IsReadingPair D.Disk self.old [] → (place ≡ blocks_end (counting self.old))
            × ((others : List (List ℕ)) → PairStandsFor D.Disk self.old others → ⊥) }
    {
        let Some(block) = self.counts.next_block(alloc)? else {
            if self.generation != 0 {
                return Err(JournalError::Io);
            }
            self.counts.see_end()?;
            return Ok(None);
        };
        let Some(content) = content_in(&block, self.generation) else {
            return Err(JournalError::Io);
        };
        Ok(Some(Vec::from_slice(alloc, content)?))
    }

    /// How many bytes of the file that counts `cut` drops: from the end of the blocks that were
    /// read to the last byte that isn't 0.
    pub fn rest(&mut self) -> Result<usize, JournalError>
        ensures stays { StaysPair D.Disk self.old self.new }
        ensures rest { IfOk result (λ n. IsCleanPair D.Disk self.new
            → length (file_of D.Disk (counting self.old)) ≡ blocks_len (counting self.old)
            → (i : ℕ) → blocks_end (counting self.old) + n ≤ i
            → slice_index (file_of D.Disk (counting self.old)) i ≡ 0) }
    {
        self.counts.rest()
    }

    /// Reads bytes of the file that counts from this place on.
    pub fn read(&mut self, at: usize, piece: &mut [u8]) -> Result<(), JournalError>
        ensures stays { StaysPair D.Disk self.old self.new }
        ensures read { OnOk result (IsCleanPair D.Disk self.new → 0 < length piece.old
            → Holds (file_of D.Disk (counting self.old)) at piece.new) }
    {
        self.counts.read(at, piece)
    }
}

// What follows the generation in a first block.
fn content_in(block: &[u8], generation: u64) -> Option<&[u8]>
    ensures { IfSome result (λ content. block.now ≡ to_be_bytes w64 generation ++ content.now) }
{
    let bytes = block.get(..8)?;
    if bytes == generation.to_be_bytes().as_slice() {
        block.get(8..)
    } else {
        None
    }
}
