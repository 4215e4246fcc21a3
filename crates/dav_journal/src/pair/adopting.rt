//! The file of a server from before, whose blocks have no generation, is taken over.
ghost use Rattle.std.specs.Prelude.{◌≡◌, ◌++◌, ◌∷◌, [], ℕ, List, IsTrue, IsFalse, IfOk, OnOk};
ghost use Rattle.std.specs.Int.{w64, to_be_bytes};
ghost use Rattle.dav_journal.specs.File.{Recovers};
ghost use Rattle.dav_journal.specs.Journal.{HasRead, IsClean, IsJournal, IsKept, IsReading, LeavesOnly, OnlyReads, disk_of, file_of};
ghost use Rattle.dav_journal.specs.Pair.{IsCleanPair, LeavesFormer, PairLeavesOnly, counting, spare_of};

use crate::error::JournalError;
use crate::journal::Journal;
use crate::pair::Pair;
use crate::pair::keeping::first_block;
use crate::pair::opening::first_generation;
use sqlite_disk::Disk;
use std::alloc::Global;

impl<D: Disk + Drop> Pair<D> {
    /// Takes over a file of before, which is the first of the two: one whose first block is
    /// `former`. Its other blocks are written to the other file, after `first`, and then it is
    /// cleared. False where its first block is another, or none: then nothing is taken over.
    /// `Foreign` where the other file has more than a call left that didn't end. `open` comes next;
    /// after an error nothing more may be asked.
    pub fn adopt(
        &mut self,
        alloc: Global,
        former: &[u8],
        first: &[u8],
    ) -> Result<bool, JournalError>
        ensures clean { IsCleanPair D.Disk self.new → IsCleanPair D.Disk self.old }
        ensures adopted { IfOk result (λ is. IsCleanPair D.Disk self.new
            → (blocks : List (List ℕ))
            → LeavesOnly D.Disk (counting self.old) (former.now ∷ blocks)
            → IsTrue is × PairLeavesOnly D.Disk self.new (first.now ∷ blocks)) }
        ensures any_moment { IsCleanPair D.Disk self.new → (blocks : List (List ℕ))
            → LeavesOnly D.Disk (counting self.old) (former.now ∷ blocks)
            → LeavesFormer D.Disk self.new (former.now ∷ blocks) (first.now ∷ blocks) }
        ensures another { IfOk result (λ is. IsFalse is → IsCleanPair D.Disk self.new
            → (contents : List (List ℕ)) → PairLeavesOnly D.Disk self.old contents
            → PairLeavesOnly D.Disk self.new contents) }
    {
        if !self.has_former(alloc, former)? {
            return Ok(false);
        }
        self.copy_former(alloc, first)?;
        self.counts.clear()?;
        Ok(true)
    }

    // Opens both files, and tells whether the first block of the first one is this, which was read
    // then. Where it is another, the other file isn't opened.
    fn has_former(&mut self, alloc: Global, former: &[u8]) -> Result<bool, JournalError>
        ensures clean { IsCleanPair D.Disk self.new → IsCleanPair D.Disk self.old }
        ensures stands { IsCleanPair D.Disk self.new
            → IsJournal (file_of D.Disk (counting self.old))
            → OnlyReads D.Disk (disk_of (counting self.old)) (disk_of (counting self.new)) }
        ensures begins { IfOk result (λ is. IsTrue is → IsCleanPair D.Disk self.new
            → IsReading D.Disk (counting self.new) (former.now ∷ [])) }
        ensures another { IfOk result (λ is. IsFalse is → IsCleanPair D.Disk self.new
            → (blocks : List (List ℕ))
            → Recovers (file_of D.Disk (counting self.old)) (former.now ∷ blocks) → ⊥) }
        ensures spare { IfOk result (λ is. IsFalse is → spare_of self.new ≡ spare_of self.old) }
    {
        if !begins_with(&mut self.counts, alloc, former)? {
            return Ok(false);
        }
        see_copy(&mut self.counts, &mut self.spare, alloc)?;
        if begins_with(&mut self.counts, alloc, former)? {
            Ok(true)
        } else {
            Err(JournalError::Io)
        }
    }

    // Writes the blocks after the one that was read in the first file to the other one, after
    // `first`.
    fn copy_former(&mut self, alloc: Global, first: &[u8]) -> Result<(), JournalError>
        ensures reads { OnlyReads D.Disk (disk_of (counting self.old))
            (disk_of (counting self.new)) }
        ensures clean { IsCleanPair D.Disk self.new → IsCleanPair D.Disk self.old }
        ensures copied { OnOk result (IsCleanPair D.Disk self.new → (former : List ℕ)
            → IsReading D.Disk (counting self.old) (former ∷ []) → (blocks : List (List ℕ))
            × HasRead D.Disk (counting self.new) (former ∷ blocks)
            × IsKept D.Disk (spare_of self.new)
            ((to_be_bytes w64 0 ++ first.now) ∷ blocks)) }
    {
        begin_copy(&mut self.spare, alloc, first)?;
        copy_blocks(&mut self.counts, &mut self.spare, alloc)?;
        self.spare.keep_mark()
    }
}

// Opens a journal, and tells whether its first block is this one, which was read then.
pub fn begins_with<D: Disk + Drop>(
    journal: &mut Journal<D>,
    alloc: Global,
    former: &[u8],
) -> Result<bool, JournalError>
    ensures clean { IsClean D.Disk journal.new → IsClean D.Disk journal.old }
    ensures stands { IsClean D.Disk journal.new → IsJournal (file_of D.Disk journal.old)
        → OnlyReads D.Disk (disk_of journal.old) (disk_of journal.new) }
    ensures begins { IfOk result (λ is. IsTrue is → IsClean D.Disk journal.new
        → IsReading D.Disk journal.new (former.now ∷ [])) }
    ensures another { IfOk result (λ is. IsFalse is → IsClean D.Disk journal.new
        → (blocks : List (List ℕ))
        → Recovers (file_of D.Disk journal.old) (former.now ∷ blocks) → ⊥) }
{
    journal.open()?;
    let Some(block) = journal.next_block(alloc)? else {
        return Ok(false);
    };
    Ok(block.as_slice() == former)
}

// Makes sure that a journal has no other blocks after its first one than those that follow in the
// journal of before: none, or a copy that didn't end. `Foreign` where it has.
fn see_copy<D: Disk + Drop>(
    from: &mut Journal<D>,
    to: &mut Journal<D>,
    alloc: Global,
) -> Result<(), JournalError>
    ensures reads { OnlyReads D.Disk (disk_of from.old) (disk_of from.new) }
    ensures clean { IsClean D.Disk to.new → IsClean D.Disk to.old }
{
    to.open()?;
    to.next_block(alloc)?;
    for _ in 0..u64::MAX {
        let Some(copied) = to.next_block(alloc)? else {
            return Ok(());
        };
        if !is_next(from, alloc, &copied)? {
            return Err(JournalError::Foreign);
        }
    }
    Err(JournalError::Io)
}

// Reads the next block, and tells whether it has this content.
fn is_next<D: Disk + Drop>(
    journal: &mut Journal<D>,
    alloc: Global,
    content: &[u8],
) -> Result<bool, JournalError>
    ensures { OnlyReads D.Disk (disk_of journal.old) (disk_of journal.new) }
{
    match journal.next(alloc)? {
        Some(block) => Ok(block.as_slice() == content),
        None => Ok(false),
    }
}

// Makes a journal one of the first generation, with this content: it has no block, or what an
// earlier call left that didn't end.
pub fn begin_copy<D: Disk + Drop>(
    journal: &mut Journal<D>,
    alloc: Global,
    first: &[u8],
) -> Result<(), JournalError>
    ensures clean { IsClean D.Disk journal.new → IsClean D.Disk journal.old }
    ensures kept { OnOk result (IsClean D.Disk journal.new
        → IsKept D.Disk journal.new ((to_be_bytes w64 0 ++ first.now) ∷ [])) }
{
    journal.open()?;
    if first_generation(journal, alloc)?.unwrap_or(0) != 0 {
        return Err(JournalError::Foreign);
    }
    journal.clear()?;
    let block = first_block(alloc, 0, first)?;
    journal.keep(alloc, &block)
}

// Writes the blocks that weren't read yet in the one journal to the other one.
fn copy_blocks<D: Disk + Drop>(
    from: &mut Journal<D>,
    to: &mut Journal<D>,
    alloc: Global,
) -> Result<(), JournalError>
    ensures reads { OnlyReads D.Disk (disk_of from.old) (disk_of from.new) }
    ensures clean { IsClean D.Disk to.new → IsClean D.Disk to.old }
    ensures copied { OnOk result ((blocks : List (List ℕ))
        × (IsClean D.Disk from.new → (before : List (List ℕ))
        → IsReading D.Disk from.old before → HasRead D.Disk from.new (before ++ blocks))
        × ((before : List (List ℕ)) → IsKept D.Disk to.old before
        → IsKept D.Disk to.new (before ++ blocks))) }
{
    for _ in 0..u64::MAX {
        let Some(block) = from.next(alloc)? else {
            return Ok(());
        };
        to.keep(alloc, &block)?;
    }
    Err(JournalError::Io)
}
