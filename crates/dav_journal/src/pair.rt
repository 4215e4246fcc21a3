//! A pair of journals over two files, of which one counts, so that what is kept can begin anew.
ghost use Rattle.std.specs.Prelude.{◌≡◌, ◌≢◌, ◌⊎◌, ◌≤◌, ◌<◌, ◌+◌, ◌^◌, ◌++◌, ◌∷◌, [], ℕ, List, Option, length, slice_index, IsTrue, IfOk, IfSome, OnOk, IsErr, IsErrOf, MatchOption};
ghost use Rattle.std.specs.Int.{w64, to_be_bytes};
ghost use Rattle.sqlite_disk.specs.Disk.{Holds};
ghost use Rattle.dav_journal.specs.File.{Recovers};
ghost use Rattle.dav_journal.specs.declared.error.JournalError.TheVariants.{Damaged};
ghost use Rattle.dav_journal.specs.Journal.{HasRead, IsClean, IsReading, OnlyReads, blocks_end, blocks_len, disk_of, file_of};
ghost use Rattle.dav_journal.specs.Mark.{KeepsOthers};
ghost use Rattle.dav_journal.specs.Pair.{Counts, GoesOn, HasFirst, HasReadPair, IsCleanPair, IsKeptPair, IsMixingPair, IsOwnPair, IsPassed, Knows, IsReadingPair, OnlyReadsPair, PairLeaves, PairLeavesOnly, PairRecovers, PairStandsFor, StaysPair, WereOpened, counting, generation_of, spare_of};

mod adopting;
mod elder;
mod following;
mod keeping;
mod opening;
mod reading;
#[cfg(test)]
mod tests;

use crate::error::JournalError;
use crate::journal::{Journal, crash};
use sqlite_disk::{Crash, Disk};
use std::alloc::Global;
use std::mem;

/// Two journals: the one that counts, the other one, and the generation of the first.
#[derive(Drop)]
pub struct Pair<D: Disk> {
    counts: Journal<D>,
    spare: Journal<D>,
    generation: u64,
}

impl<D: Disk + Drop> Pair<D> {
    /// A pair over two disks, which isn't open yet.
    pub fn new(one: D, other: D) -> Pair<D>
        ensures one { disk_of (counting result) ≡ one }
        ensures other { disk_of (spare_of result) ≡ other }
    {
        Pair {
            counts: Journal::new(one),
            spare: Journal::new(other),
            generation: 0,
        }
    }

    // The other journal counts from now on, which is of this generation.
    fn turn(&mut self, generation: u64)
        ensures counts { counting self.new ≡ spare_of self.old }
        ensures spare { spare_of self.new ≡ counting self.old }
        ensures generation { generation_of self.new ≡ generation }
    {
        mem::swap(&mut self.counts, &mut self.spare);
        self.generation = generation;
    }

    /// How many bytes the blocks take in the file that counts.
    pub fn len(&self) -> usize
        ensures { result ≡ blocks_end (counting self.now) }
    {
        self.counts.len()
    }
}

/// Begins anew with a content, and then the machine stops and comes back: whether it was
/// acknowledged. Over two `Fuse`s of any counts of calls this is a crash at any call of `renew`.
pub fn renew_and_crash<D: Crash + Drop>(pair: &mut Pair<D>, alloc: Global, content: &[u8]) -> bool
    ensures left { IsCleanPair D.Disk pair.new → (contents : List (List ℕ))
        → IsKeptPair D.Disk pair.old contents
        → PairStandsFor D.Disk pair.new contents
        ⊎ PairStandsFor D.Disk pair.new (content.now ∷ []) }
    ensures acknowledged { IsTrue result → IsCleanPair D.Disk pair.new
        → (contents : List (List ℕ)) → IsKeptPair D.Disk pair.old contents
        → PairStandsFor D.Disk pair.new (content.now ∷ []) }
{
    let Ok(()) = pair.renew(alloc, content) else {
        crash(&mut pair.counts);
        crash(&mut pair.spare);
        return false;
    };
    crash(&mut pair.counts);
    crash(&mut pair.spare);
    true
}

/// A pair of files stands for one list of contents alone, whichever of them is told first.
pub fn pair_stands_for_one_list()
    ensures one { (file other : List ℕ) (xs ys : List (List ℕ))
        → PairRecovers file other xs → PairRecovers file other ys → xs ≡ ys }
    ensures either { (file other : List ℕ) (xs : List (List ℕ))
        → PairRecovers file other xs → PairRecovers other file xs }
{}

/// A mark that comes late changes nothing: where a pair has begun anew, it stands for the same
/// contents whatever is at the places of the marks of the file that doesn't count.
pub fn late_marks_change_nothing()
    ensures { (file other late first : List ℕ) (more : List (List ℕ))
        → (counts : Counts file other (first ∷ more)) → 0 < counts.generation
        → KeepsOthers other late → PairRecovers file late (first ∷ more) }
{}

/// Where another opening went on with the files of a pair, they are its own no more: so it keeps
/// nothing behind that, and begins nothing anew (`own` of `keep` and `renew`).
pub fn what_was_passed_is_not_own<D: Disk + Drop>(pair: &Pair<D>)
    ensures { IsPassed D.Disk pair.now → IsOwnPair D.Disk pair.now → ⊥ }
{}

/// What a pair keeps it knows, whatever another opening does to the files.
pub fn what_is_kept_is_known<D: Disk + Drop>(pair: &Pair<D>)
    ensures { (contents : List (List ℕ)) → IsKeptPair D.Disk pair.now contents
        → Knows pair.now contents }
{}

/// Where a later opening of the same files keeps a block that an earlier one doesn't know, as the one
/// that notes it, the earlier one keeps nothing behind that: it is refused, and only reads.
pub fn keep_behind_another<D: Disk + Drop>(
    earlier: &mut Pair<D>,
    later: &Pair<D>,
    alloc: Global,
    content: &[u8],
) -> Result<(), JournalError>
    ensures { IsCleanPair D.Disk earlier.new → (contents blocks : List (List ℕ))
        → Knows earlier.old contents → IsKeptPair D.Disk later.now blocks
        → GoesOn D.Disk earlier.old later.now contents blocks
        → IsErr result × OnlyReadsPair D.Disk earlier.old earlier.new }
{
    earlier.keep(alloc, content)
}

/// What was read of a pair is what its files stand for, if they stand for anything.
pub fn reads_what_it_stands_for<D: Disk + Drop>(pair: &Pair<D>)
    ensures { (contents others : List (List ℕ)) → HasReadPair D.Disk pair.now contents
        → PairStandsFor D.Disk pair.now others → others ≡ contents }
{}
