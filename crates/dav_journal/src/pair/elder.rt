//! A file of the elder format is taken over.
ghost use Rattle.std.specs.Prelude.{◌≡◌, ◌++◌, ◌∷◌, [], ℕ, List, IsTrue, IsFalse, IfOk, OnOk};
ghost use Rattle.std.specs.Int.{w64, to_be_bytes};
ghost use Rattle.dav_journal.specs.Elder.{HasReadElder, IsGoing, IsReadingElder, LeavesGoing, LeavesGone, Mixes};
ghost use Rattle.dav_journal.specs.File.{Recovers};
ghost use Rattle.dav_journal.specs.Journal.{IsClean, IsKept, LeavesOnly, OnlyReads, disk_of, file_of};
ghost use Rattle.dav_journal.specs.Pair.{IsCleanPair, PairLeavesOnly, counting, spare_of};

use crate::error::JournalError;
use crate::journal::Journal;
use crate::pair::Pair;
use crate::pair::adopting::{begin_copy, begins_with};
use crate::pair::keeping::first_block;
use sqlite_disk::Disk;
use std::alloc::Global;

impl<D: Disk + Drop> Pair<D> {
    /// Takes over a file of the elder format (`vuldarg1`), which is the first of the two: one whose
    /// first block is `former`. Its other blocks are written to the other file, after `first`, and
    /// then it becomes a journal without blocks. False where it is of another format: then nothing
    /// is changed. `Foreign` where its first block is another one, or where the other file has
    /// more than a call left that didn't end. `open` comes next; after an error nothing more may
    /// be asked.
    pub fn adopt_elder(
        &mut self,
        alloc: Global,
        former: &[u8],
        first: &[u8],
    ) -> Result<bool, JournalError>
        ensures clean { IsCleanPair D.Disk self.new → IsCleanPair D.Disk self.old }
        ensures adopted { IfOk result (λ is. IsCleanPair D.Disk self.new
            → (blocks : List (List ℕ)) → LeavesGoing D.Disk self.old former.now first.now blocks
            → IsTrue is × PairLeavesOnly D.Disk self.new (first.now ∷ blocks)) }
        ensures any_moment { Mixes D.Disk → IsCleanPair D.Disk self.new
            → (blocks : List (List ℕ)) → LeavesGoing D.Disk self.old former.now first.now blocks
            → LeavesGone D.Disk self.new former.now first.now blocks }
        ensures newer { IsCleanPair D.Disk self.new → (contents : List (List ℕ))
            → Recovers (file_of D.Disk (counting self.old)) contents
            → OnlyReads D.Disk (disk_of (counting self.old)) (disk_of (counting self.new))
            × (spare_of self.new ≡ spare_of self.old) × IfOk result IsFalse }
        ensures another { IfOk result (λ is. IsFalse is → IsCleanPair D.Disk self.new
            → (contents : List (List ℕ)) → PairLeavesOnly D.Disk self.old contents
            → PairLeavesOnly D.Disk self.new contents) }
    {
        if !self.copy_elder(alloc, former, first)? {
            return Ok(false);
        }
        self.counts.let_go(former)?;
        Ok(true)
    }

    // Makes sure that the blocks of a file of the elder format are in the other file. False where
    // the first file is of another format.
    fn copy_elder(
        &mut self,
        alloc: Global,
        former: &[u8],
        first: &[u8],
    ) -> Result<bool, JournalError>
        ensures clean { IsCleanPair D.Disk self.new → IsCleanPair D.Disk self.old }
        ensures going { IsCleanPair D.Disk self.new → (blocks : List (List ℕ))
            → LeavesGoing D.Disk self.old former.now first.now blocks
            → LeavesGoing D.Disk self.new former.now first.now blocks }
        ensures copied { IfOk result (λ is. IsCleanPair D.Disk self.new
            → (blocks : List (List ℕ)) → LeavesGoing D.Disk self.old former.now first.now blocks
            → IsTrue is × ((contents : List (List ℕ))
            × IsReadingElder D.Disk (counting self.new) contents)
            × IsGoing former.now blocks (file_of D.Disk (counting self.new))
            × LeavesOnly D.Disk (spare_of self.new)
            ((to_be_bytes w64 0 ++ first.now) ∷ blocks)) }
        ensures newer { IsCleanPair D.Disk self.new → (contents : List (List ℕ))
            → Recovers (file_of D.Disk (counting self.old)) contents
            → OnlyReads D.Disk (disk_of (counting self.old)) (disk_of (counting self.new))
            × (spare_of self.new ≡ spare_of self.old) × IfOk result IsFalse }
        ensures another { IfOk result (λ is. IsFalse is
            → OnlyReads D.Disk (disk_of (counting self.old)) (disk_of (counting self.new))
            × (spare_of self.new ≡ spare_of self.old)) }
    {
        if !self.counts.open_elder()? {
            return Ok(false);
        }
        if self.counts.is_let_go(former)? {
            see_first(&mut self.spare, alloc, first)?;
            return Ok(true);
        }
        let Some(block) = self.counts.next_elder(alloc)? else {
            self.counts.see_no_version()?;
            return Ok(false);
        };
        if block.as_slice() != former {
            return Err(JournalError::Foreign);
        }
        self.copy_whole(alloc, former, first)?;
        Ok(true)
    }

    // Writes the blocks of a file of the elder format after its first one, which is this, to the
    // other file, after `first`.
    fn copy_whole(&mut self, alloc: Global, former: &[u8], first: &[u8]) -> Result<(), JournalError>
        ensures clean { IsCleanPair D.Disk self.new → IsCleanPair D.Disk self.old }
        ensures reads { OnlyReads D.Disk (disk_of (counting self.old))
            (disk_of (counting self.new)) }
        ensures copied { OnOk result (IsCleanPair D.Disk self.new → (blocks : List (List ℕ))
            × HasReadElder D.Disk (counting self.new) (former.now ∷ blocks)
            × IsKept D.Disk (spare_of self.new) ((to_be_bytes w64 0 ++ first.now) ∷ blocks)) }
    {
        see_elder_copy(&mut self.counts, &mut self.spare, alloc)?;
        if !begins_with_elder(&mut self.counts, alloc, former)? {
            return Err(JournalError::Io);
        }
        begin_copy(&mut self.spare, alloc, first)?;
        copy_elder_blocks(&mut self.counts, &mut self.spare, alloc)?;
        self.spare.keep_mark()?;
        Ok(())
    }
}

// Makes sure that a journal begins with this content, as one of the first generation.
fn see_first<D: Disk + Drop>(
    journal: &mut Journal<D>,
    alloc: Global,
    first: &[u8],
) -> Result<(), JournalError>
    ensures clean { IsClean D.Disk journal.new → IsClean D.Disk journal.old }
    ensures stands { IsClean D.Disk journal.new → (contents : List (List ℕ))
        → Recovers (file_of D.Disk journal.old) contents
        → OnlyReads D.Disk (disk_of journal.old) (disk_of journal.new) }
{
    let block = first_block(alloc, 0, first)?;
    if begins_with(journal, alloc, &block)? {
        Ok(())
    } else {
        Err(JournalError::Foreign)
    }
}

// Opens a file of the elder format, and tells whether its first block is this one, which was read
// then.
fn begins_with_elder<D: Disk + Drop>(
    journal: &mut Journal<D>,
    alloc: Global,
    former: &[u8],
) -> Result<bool, JournalError>
    ensures reads { OnlyReads D.Disk (disk_of journal.old) (disk_of journal.new) }
    ensures begins { IfOk result (λ is. IsTrue is → IsClean D.Disk journal.new
        → IsReadingElder D.Disk journal.new (former.now ∷ [])) }
{
    if !journal.open_elder()? {
        return Ok(false);
    }
    let Some(block) = journal.next_elder(alloc)? else {
        return Ok(false);
    };
    Ok(block.as_slice() == former)
}

// Makes sure that a journal has no other blocks after its first one than those that follow in the
// file of the elder format: none, or a copy that didn't end. `Foreign` where it has.
fn see_elder_copy<D: Disk + Drop>(
    from: &mut Journal<D>,
    to: &mut Journal<D>,
    alloc: Global,
) -> Result<(), JournalError>
    ensures reads { OnlyReads D.Disk (disk_of from.old) (disk_of from.new) }
    ensures clean { IsClean D.Disk to.new → IsClean D.Disk to.old }
{
    to.open()?;
    to.next_block(alloc)?;
    for _ in 0..u64::MAX {
        let Some(copied) = to.next_block(alloc)? else {
            return Ok(());
        };
        if !is_next_elder(from, alloc, &copied)? {
            return Err(JournalError::Foreign);
        }
    }
    Err(JournalError::Io)
}

// Reads the next block, and tells whether it has this content.
fn is_next_elder<D: Disk + Drop>(
    journal: &mut Journal<D>,
    alloc: Global,
    content: &[u8],
) -> Result<bool, JournalError>
    ensures { OnlyReads D.Disk (disk_of journal.old) (disk_of journal.new) }
{
    match journal.next_elder(alloc)? {
        Some(block) => Ok(block.as_slice() == content),
        None => Ok(false),
    }
}

// Writes the blocks that weren't read yet in the file of the elder format to the journal.
fn copy_elder_blocks<D: Disk + Drop>(
    from: &mut Journal<D>,
    to: &mut Journal<D>,
    alloc: Global,
) -> Result<(), JournalError>
    ensures reads { OnlyReads D.Disk (disk_of from.old) (disk_of from.new) }
    ensures clean { IsClean D.Disk to.new → IsClean D.Disk to.old }
    ensures copied { OnOk result ((blocks : List (List ℕ))
        × (IsClean D.Disk from.new → (before : List (List ℕ))
        → IsReadingElder D.Disk from.old before
        → HasReadElder D.Disk from.new (before ++ blocks))
        × ((before : List (List ℕ)) → IsKept D.Disk to.old before
        → IsKept D.Disk to.new (before ++ blocks))) }
{
    for _ in 0..u64::MAX {
        let Some(block) = from.next_elder(alloc)? else {
            return Ok(());
        };
        to.keep(alloc, &block)?;
    }
    Err(JournalError::Io)
}
