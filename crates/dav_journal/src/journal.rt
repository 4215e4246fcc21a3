//! A journal over a file.
ghost use Rattle.std.specs.Prelude.{◌≡◌, ◌≢◌, ◌⊎◌, ◌≤◌, ◌<◌, ◌+◌, ◌^◌, ◌++◌, ◌∷◌, [], ℕ, List, Some, length, slice_index, IsTrue, IfOk, IfErr, IfSome, OnOk, IsErrOf, IsNone, MatchOption};
ghost use Rattle.sqlite_disk.specs.Disk.{Follows, Holds, Only, Torn};
ghost use Rattle.dav_journal.specs.Block.{IsBlock, IsNoBlock, front_of, head_of, twice};
ghost use Rattle.dav_journal.specs.File.{IsBegun, Recovers};
ghost use Rattle.dav_journal.specs.Mark.{IsLastMark, IsMark, IsMarkPlace, NoneMarkedPast};
ghost use Rattle.dav_journal.specs.declared.error.JournalError.TheVariants.{Damaged};
ghost use Rattle.dav_journal.specs.Error.{IsNoDamage};
ghost use Rattle.dav_journal.specs.Journal.{HasRead, IsBare, IsClean, IsCleared, IsJournal, IsKept, IsOpened, IsReading, IsShut, IsSynced, IsWrittenBlock, LeavesAtMost, LeavesEither, LeavesOnly, OnlyReads, Stays, blocks_end, blocks_len, disk_of, file_of};
ghost use Rattle.dav_journal.specs.Write.{HasZeros, KeepsBelow};

mod clearing;
mod cutting;
mod elder;
mod following;
mod keeping;
mod leaving;
mod looking;
mod marks;
mod reading;
#[cfg(test)]
mod tests;

use crate::block::{FRONT, START, is_begun, key_in, new_bytes};
use crate::error::JournalError;
use sqlite_disk::{Crash, Disk};
use std::alloc::Global;

/// So many bytes are written or looked through at once.
pub const PIECE: usize = 65_536;

/// A journal: its file, the key of its digests, where its blocks end, up to where zeros are kept after them, where the file ends, and where
/// the next mark is written.
#[derive(Drop)]
pub struct Journal<D: Disk> {
    disk: D,
    key: u64,
    end: usize,
    zeros: usize,
    len: usize,
    mark: usize,
}

impl<D: Disk + Drop> Journal<D> {
    /// A journal over a disk, which isn't open yet.
    pub fn new(disk: D) -> Journal<D>
        ensures { disk_of result ≡ disk }
    {
        Journal {
            disk,
            key: 0,
            end: START,
            zeros: 0,
            len: 0,
            mark: FRONT,
        }
    }

    /// Opens the file. One that is empty, or has what a crash left of the first write, becomes a journal; no other is changed.
    /// `Foreign` where it is something else.
    pub fn open(&mut self) -> Result<(), JournalError>
        ensures sound { IfErr result IsNoDamage }
        ensures reading { OnOk result (IsClean D.Disk self.new → IsReading D.Disk self.new []) }
        ensures any_moment { IsClean D.Disk self.new → (contents : List (List ℕ))
            → LeavesOnly D.Disk self.old contents → LeavesOnly D.Disk self.new contents }
        ensures begun { IsClean D.Disk self.new → IsBegun (file_of D.Disk self.old)
            ⊎ OnlyReads D.Disk (disk_of self.old) (disk_of self.new) }
        ensures long { OnOk result (IsClean D.Disk self.new
            → 72 < length (file_of D.Disk self.new)) }
        ensures stands { IsClean D.Disk self.new → IsJournal (file_of D.Disk self.old)
            → OnlyReads D.Disk (disk_of self.old) (disk_of self.new) }
        ensures clean { IsClean D.Disk self.new → IsClean D.Disk self.old }
    {
        if !self.disk.may_be_used() {
            return Err(JournalError::Io);
        }
        self.disk.sync()?;
        let len = self.disk.len()?;
        if len <= START {
            return self.make(len);
        }
        let mut front = [0u8; FRONT];
        self.disk.read_at(0, &mut front)?;
        let Some(key) = key_in(&front) else {
            return self.make(len);
        };
        self.key = key;
        self.end = START;
        self.len = len;
        Ok(())
    }

    // Makes a journal of a file that is empty, or has what a crash left of the first write.
    fn make(&mut self, len: usize) -> Result<(), JournalError>
        ensures sound { IfErr result IsNoDamage }
        ensures reading { OnOk result (IsClean D.Disk self.new
            → length (file_of D.Disk self.old) ≡ len → IsReading D.Disk self.new []) }
        ensures long { OnOk result (IsClean D.Disk self.new
            → 72 < length (file_of D.Disk self.new)) }
        ensures clean { IsClean D.Disk self.new → IsClean D.Disk self.old }
        ensures begun { IsClean D.Disk self.new → length (file_of D.Disk self.old) ≡ len
            → IsBegun (file_of D.Disk self.old)
            ⊎ OnlyReads D.Disk (disk_of self.old) (disk_of self.new) }
    {
        if !self.disk.may_be_used() {
            return Err(JournalError::Io);
        }
        let mut found = [0u8; START + 1];
        let Some(found) = found.get_mut(..len) else {
            return Err(JournalError::Foreign);
        };
        self.disk.read_at(0, found)?;
        if !is_begun(found) {
            return Err(JournalError::Foreign);
        }
        let key = self.disk.key();
        self.disk.write_at(0, &new_bytes(key))?;
        self.disk.sync()?;
        self.key = key;
        self.end = START;
        self.len = START + 1;
        Ok(())
    }

    // Begins to read from the first block on again.
    pub fn again(&mut self)
        ensures disk { disk_of self.new ≡ disk_of self.old }
        ensures reading { (contents : List (List ℕ)) → IsReading D.Disk self.old contents
            → IsReading D.Disk self.new [] }
        ensures stays { self.new ≡ record self.old { end = 72 } }
    {
        self.end = START;
    }

    /// How many bytes the blocks take.
    pub fn len(&self) -> usize
        ensures { result ≡ blocks_end self.now }
    {
        self.end
    }
}

// The machine stops and comes back.
pub fn crash<D: Crash + Drop>(journal: &mut Journal<D>)
    ensures left { D.Disk.may_leave (disk_of journal.old) (file_of D.Disk journal.new) }
    ensures clean { IsClean D.Disk journal.new → IsClean D.Disk journal.old }
{
    journal.disk.crash();
}

/// Keeps a content, and then the machine stops and comes back: whether it was acknowledged. Over a `Fuse` of any count of
/// calls this is a crash at any call of `keep`.
pub fn keep_and_crash<D: Crash + Drop>(
    journal: &mut Journal<D>,
    alloc: Global,
    content: &[u8],
) -> bool
    ensures left { (contents : List (List ℕ)) → IsKept D.Disk journal.old contents
        → Recovers (file_of D.Disk journal.new) contents
        ⊎ Recovers (file_of D.Disk journal.new) (contents ++ content.now ∷ []) }
    ensures acknowledged { IsTrue result → (contents : List (List ℕ))
        → IsKept D.Disk journal.old contents
        → Recovers (file_of D.Disk journal.new) (contents ++ content.now ∷ []) }
{
    let Ok(()) = journal.keep(alloc, content) else {
        crash(journal);
        return false;
    };
    crash(journal);
    true
}

/// A file stands for one list of contents alone: what a start reads is all that there is to read.
pub fn stands_for_one_list()
    ensures { (file : List ℕ) (xs ys : List (List ℕ))
        → Recovers file xs → Recovers file ys → xs ≡ ys }
{}
