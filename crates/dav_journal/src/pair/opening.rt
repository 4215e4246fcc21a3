//! Which file of a pair counts.
ghost use Rattle.std.specs.Prelude.{◌≡◌, ◌≢◌, ◌⊎◌, ◌≤◌, ◌<◌, ◌+◌, ◌^◌, ◌++◌, ◌∷◌, [], ℕ, List, Option, length, slice_index, IsTrue, IfErr, IfOk, IfSome, OnOk, IsErrOf, MatchOption};
ghost use Rattle.std.specs.Int.{w64, to_be_bytes};
ghost use Rattle.sqlite_disk.specs.Disk.{Holds};
ghost use Rattle.dav_journal.specs.File.{Recovers};
ghost use Rattle.dav_journal.specs.declared.error.JournalError.TheVariants.{Damaged};
ghost use Rattle.dav_journal.specs.Error.{IsNoDamage};
ghost use Rattle.dav_journal.specs.Journal.{HasRead, IsClean, IsReading, OnlyReads, Stays, blocks_end, blocks_len, disk_of, file_of};
ghost use Rattle.dav_journal.specs.Mark.{NoneMarkedPast};
ghost use Rattle.dav_journal.specs.Pair.{HasFirst, HasReadPair, IsCleanPair, IsKeptPair, IsMixingPair, IsOfGeneration, IsReadingPair, OnlyReadsPair, PairLeaves, PairLeavesOnly, PairRecovers, PairStandsFor, StaysPair, WereOpened, counting, generation_of, spare_of};

use crate::block::number;
use crate::error::JournalError;
use crate::journal::Journal;
use crate::pair::Pair;
use sqlite_disk::Disk;
use std::alloc::Global;

impl<D: Disk + Drop> Pair<D> {
    /// Opens both files. One that is empty, or has what a crash left of the first write, becomes a
    /// journal; no other is changed. That with the higher generation counts. `Foreign` where one is
    /// something else, or both are of one generation. `Damaged` where the one that counts is of the
    /// first generation, and the other one has no first block, and had.
    pub fn open(&mut self, alloc: Global) -> Result<(), JournalError>
        ensures clean { IsCleanPair D.Disk self.new → IsCleanPair D.Disk self.old }
        ensures reading { OnOk result (IsCleanPair D.Disk self.new
            → IsReadingPair D.Disk self.new []) }
        ensures generation { OnOk result (IsCleanPair D.Disk self.new
            → IsOfGeneration D.Disk (counting self.new) (generation_of self.new)) }
        ensures unmarked { OnOk result (IsCleanPair D.Disk self.new → generation_of self.new ≡ 0
            → NoneMarkedPast (file_of D.Disk (spare_of self.new)) 72) }
        ensures any_moment { IsCleanPair D.Disk self.new → (contents : List (List ℕ))
            → PairLeavesOnly D.Disk self.old contents → PairLeavesOnly D.Disk self.new contents }
        ensures begun { IsCleanPair D.Disk self.new → WereOpened D.Disk self.old self.new }
        ensures damaged { (place : ℕ) → IsErrOf result (Damaged place)
            → IsCleanPair D.Disk self.new → IsMixingPair D.Disk self.new
            → (contents : List (List ℕ)) → PairStandsFor D.Disk self.old contents → ⊥ }
    {
        self.counts.open()?;
        self.spare.open()?;
        let first = first_generation(&mut self.counts, alloc)?;
        let second = first_generation(&mut self.spare, alloc)?;
        self.choose(first, second)?;
        self.see_spare()
    }

    // Sees that the other file has lost no first block, where the one that counts is of the first
    // generation: `Damaged` where it has. In a later one its marks tell nothing: the pair began anew
    // beside it.
    fn see_spare(&mut self) -> Result<(), JournalError>
        ensures counts { counting self.new ≡ counting self.old }
        ensures spare { Stays D.Disk (spare_of self.old) (spare_of self.new) }
        ensures generation { generation_of self.new ≡ generation_of self.old }
        ensures unmarked { OnOk result (IsCleanPair D.Disk self.new → generation_of self.old ≡ 0
            → IsReading D.Disk (spare_of self.old) []
            → NoneMarkedPast (file_of D.Disk (spare_of self.old)) 72) }
        ensures damaged { (place : ℕ) → IsErrOf result (Damaged place)
            → IsCleanPair D.Disk self.new → IsMixingPair D.Disk self.new
            → IsReadingPair D.Disk self.old [] → IsReading D.Disk (spare_of self.old) []
            → IsOfGeneration D.Disk (counting self.old) (generation_of self.old)
            → (contents : List (List ℕ)) → PairStandsFor D.Disk self.old contents → ⊥ }
    {
        if self.generation != 0 {
            return Ok(());
        }
        self.spare.see_end()
    }

    // Chooses the file that counts, where their first blocks are of these generations.
    fn choose(&mut self, first: Option<u64>, second: Option<u64>) -> Result<(), JournalError>
        ensures sound { (place : ℕ) → IsErrOf result (Damaged place) → ⊥ }
        ensures chosen { OnOk result (IsReading D.Disk (counting self.old) []
            → IsReading D.Disk (spare_of self.old) []
            → HasFirst D.Disk (counting self.old) first
            → HasFirst D.Disk (spare_of self.old) second → IsReadingPair D.Disk self.new []) }
        ensures generation { OnOk result (HasFirst D.Disk (counting self.old) first
            → HasFirst D.Disk (spare_of self.old) second
            → IsOfGeneration D.Disk (counting self.new) (generation_of self.new)) }
        ensures same { ((counting self.new ≡ counting self.old)
            × (spare_of self.new ≡ spare_of self.old))
            ⊎ ((counting self.new ≡ spare_of self.old) × (spare_of self.new ≡ counting self.old)) }
    {
        match (first, second) {
            (None, None) => self.generation = 0,
            (Some(one), None) => self.generation = one,
            (None, Some(other)) => self.turn(other),
            (Some(one), Some(other)) => {
                if one == other {
                    return Err(JournalError::Foreign);
                }
                if one < other {
                    self.turn(other);
                } else {
                    self.generation = one;
                }
            }
        }
        Ok(())
    }
}

// The generation that the first block of a journal begins with, which was opened; `None` where it
// has no block.
pub fn first_generation<D: Disk + Drop>(
    journal: &mut Journal<D>,
    alloc: Global,
) -> Result<Option<u64>, JournalError>
    ensures reads { OnlyReads D.Disk (disk_of journal.old) (disk_of journal.new) }
    ensures read { IfOk result (λ generation. IsClean D.Disk journal.new
        → IsReading D.Disk journal.old [] → 72 < length (file_of D.Disk journal.old)
        → IsReading D.Disk journal.new [] × HasFirst D.Disk journal.new generation) }
    ensures sound { IfErr result IsNoDamage }
{
    let Some(block) = journal.next_block(alloc)? else {
        return Ok(None);
    };
    let Some(generation) = generation_in(&block) else {
        return Err(JournalError::Foreign);
    };
    journal.again();
    Ok(Some(generation))
}

// The generation that a first block begins with.
fn generation_in(block: &[u8]) -> Option<u64>
    ensures small { IfSome result (λ n. n < 2 ^ 64) }
    ensures begins { IfSome result (λ n. (content : List ℕ)
        × (block.now ≡ to_be_bytes w64 n ++ content)) }
{
    let bytes = block.get(..8)?;
    let generation = number(bytes);
    if bytes == generation.to_be_bytes().as_slice() {
        Some(generation)
    } else {
        None
    }
}
