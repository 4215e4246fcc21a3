//! The marks, which say how far the blocks reached.
ghost use Rattle.std.specs.Prelude.{◌≡◌, ◌≢◌, ◌⊎◌, ◌≤◌, ◌<◌, ◌+◌, ◌^◌, ◌++◌, ◌∷◌, [], ℕ, List, Some, length, replicate, slice_index, IsTrue, IfOk, IfErr, IfSome, OnOk, IsErrOf, IsNone, MatchOption};
ghost use Rattle.sqlite_disk.specs.Disk.{Follows, Holds, Only, Torn};
ghost use Rattle.dav_journal.specs.Block.{IsBlock, IsNoBlock, front_of, head_of, twice};
ghost use Rattle.dav_journal.specs.File.{IsBegun, Recovers};
ghost use Rattle.dav_journal.specs.Mark.{IsBlank, IsLastMark, IsMark, IsMarkPlace, NoneMarkedPast};
ghost use Rattle.dav_journal.specs.declared.error.JournalError.TheVariants.{Damaged};
ghost use Rattle.dav_journal.specs.Error.{IsNoDamage};
ghost use Rattle.dav_journal.specs.Journal.{HasRead, IsBare, IsClean, IsCleared, IsKept, IsOpened, IsReading, IsShut, IsSynced, IsWrittenBlock, LeavesAtMost, LeavesBehind, LeavesEither, LeavesOnly, OnlyLooks, OnlyReads, Stays, blocks_end, blocks_len, disk_of, file_of};
ghost use Rattle.dav_journal.specs.Write.{HasZeros, KeepsBelow};

use crate::block::{FRONT, twice_bytes};
use crate::error::JournalError;
use crate::journal::Journal;
use crate::mark::{MARK, mark_after, mark_in};
use sqlite_disk::Disk;

impl<D: Disk + Drop> Journal<D> {
    // The place and the number of the last mark of the file, 0 where it has none.
    pub(super) fn last_mark(&mut self) -> Result<(usize, u64), JournalError>
        ensures sound { IfErr result IsNoDamage }
        ensures stays { Stays D.Disk self.old self.new }
        ensures place { IfOk result (λ last. IsMarkPlace last.0) }
        ensures last { IfOk result (λ last. IsClean D.Disk self.new
            → IsLastMark (file_of D.Disk self.old) last.0 last.1) }
    {
        let first = self.mark_at(FRONT)?;
        let second = self.mark_at(FRONT + MARK)?;
        let third = self.mark_at(FRONT + 2 * MARK)?;
        if third >= first && third >= second {
            return Ok((FRONT + 2 * MARK, third));
        }
        if second >= first {
            return Ok((FRONT + MARK, second));
        }
        Ok((FRONT, first))
    }

    // The number of the mark at this place, 0 where there is none.
    fn mark_at(&mut self, place: usize) -> Result<u64, JournalError>
        ensures sound { IfErr result IsNoDamage }
        ensures stays { Stays D.Disk self.old self.new }
        ensures some { IfOk result (λ n. IsClean D.Disk self.new → 0 < n
            → Holds (file_of D.Disk self.old) place (twice n)) }
        ensures most { IfOk result (λ n. IsClean D.Disk self.new → (m : ℕ) → m < 2 ^ 64
            → Holds (file_of D.Disk self.old) place (twice m) → m ≤ n) }
    {
        if !self.disk.may_be_used() {
            return Err(JournalError::Io);
        }
        let mut bytes = [0u8; MARK];
        self.disk.read_at(place, &mut bytes)?;
        Ok(mark_in(&bytes).unwrap_or(0))
    }

    // Leaves the last mark alone, with zeros at the places of the others. Where the disk isn't mixing there are none.
    pub(super) fn clear_marks(&mut self) -> Result<(), JournalError>
        ensures clean { IsClean D.Disk self.new → IsClean D.Disk self.old }
        ensures cleared { OnOk result (IsClean D.Disk self.new → (contents : List (List ℕ))
            → HasRead D.Disk self.old contents → IsCleared D.Disk self.new contents) }
        ensures any_moment { IsClean D.Disk self.new → (contents : List (List ℕ))
            → HasRead D.Disk self.old contents → LeavesOnly D.Disk self.old contents
            → LeavesOnly D.Disk self.new contents }
    {
        let (place, number) = self.last_mark()?;
        if !self.disk.mixes() {
            return self.see_no_marks();
        }
        if number == 0 {
            return self.clear_all();
        }
        self.clear_others(place)
    }

    // `Foreign` where anything but zeros is at the places of marks.
    pub(super) fn see_no_marks(&mut self) -> Result<(), JournalError>
        ensures reads { OnlyReads D.Disk (disk_of self.old) (disk_of self.new) }
        ensures cleared { OnOk result (IsClean D.Disk self.new → (contents : List (List ℕ))
            → HasRead D.Disk self.old contents → IsCleared D.Disk self.new contents) }
        ensures bare { OnOk result (IsClean D.Disk self.new → IsSynced D.Disk self.old
            → IsOpened D.Disk self.old → IsBare D.Disk self.new) }
    {
        if !self.has_no_marks()? {
            return Err(JournalError::Foreign);
        }
        self.mark = FRONT;
        Ok(())
    }

    // Writes zeros over all marks.
    pub(super) fn clear_all(&mut self) -> Result<(), JournalError>
        ensures clean { IsClean D.Disk self.new → IsClean D.Disk self.old }
        ensures cleared { OnOk result ((contents : List (List ℕ)) → HasRead D.Disk self.old contents
            → IsCleared D.Disk self.new contents) }
        ensures bare { OnOk result (IsOpened D.Disk self.old → IsBare D.Disk self.new) }
        ensures any_moment { IsTrue (D.Disk.is_mixing (disk_of self.old))
            → (contents : List (List ℕ)) → LeavesOnly D.Disk self.old contents
            → LeavesOnly D.Disk self.new contents }
        ensures behind { IsTrue (D.Disk.is_mixing (disk_of self.old)) → (generation : ℕ)
            → LeavesBehind D.Disk self.old generation → LeavesBehind D.Disk self.new generation }
        ensures kept { OnOk result (IsTrue (D.Disk.is_mixing (disk_of self.old))
            → (contents : List (List ℕ)) → IsKept D.Disk self.old contents
            → IsKept D.Disk self.new contents) }
        ensures blank { OnOk result ((at : ℕ) → IsMarkPlace at
            → IsBlank (file_of D.Disk self.new) at) }
    {
        if !self.disk.may_be_used() {
            return Err(JournalError::Io);
        }
        self.disk.write_at(FRONT, &[0; 3 * MARK])?;
        self.disk.sync()?;
        self.mark = FRONT;
        Ok(())
    }

    /// Writes zeros over all marks, where there are some: what came late to a file without blocks.
    /// After an error nothing more may be asked.
    pub fn drop_late_marks(&mut self) -> Result<(), JournalError>
        ensures clean { IsClean D.Disk self.new → IsClean D.Disk self.old }
        ensures kept { OnOk result ((contents : List (List ℕ)) → IsKept D.Disk self.old contents
            → IsKept D.Disk self.new contents) }
        ensures any_moment { (contents : List (List ℕ)) → IsKept D.Disk self.old contents
            → LeavesOnly D.Disk self.new contents }
        ensures unmarked { OnOk result (IsClean D.Disk self.new
            → IsTrue (D.Disk.is_mixing (disk_of self.new))
            → (at : ℕ) → IsMarkPlace at → IsBlank (file_of D.Disk self.new) at) }
    {
        if self.has_no_marks()? {
            return Ok(());
        }
        if !self.disk.mixes() {
            return Ok(());
        }
        self.clear_all()
    }

    // Whether zeros are at the places of the marks.
    fn has_no_marks(&mut self) -> Result<bool, JournalError>
        ensures looks { OnlyLooks D.Disk self.old self.new }
        ensures blank { IfOk result (λ is. IsTrue is → IsClean D.Disk self.new
            → Holds (file_of D.Disk self.old) 24 (replicate 48 0)) }
    {
        if !self.disk.may_be_used() {
            return Err(JournalError::Io);
        }
        let mut marks = [0u8; 3 * MARK];
        self.disk.read_at(FRONT, &mut marks)?;
        Ok(marks == [0; 3 * MARK])
    }

    // Writes zeros over the marks but for the one at this place.
    fn clear_others(&mut self, place: usize) -> Result<(), JournalError>
        requires { IsMarkPlace place }
        ensures clean { IsClean D.Disk self.new → IsClean D.Disk self.old }
        ensures cleared { OnOk result ((contents : List (List ℕ))
            → HasRead D.Disk self.old contents
            → IsMark (file_of D.Disk self.old) (blocks_end self.old) place
            → IsCleared D.Disk self.new contents) }
        ensures any_moment { IsTrue (D.Disk.is_mixing (disk_of self.old))
            → (contents : List (List ℕ)) → LeavesOnly D.Disk self.old contents
            → LeavesOnly D.Disk self.new contents }
    {
        let next = mark_after(place);
        if !self.disk.may_be_used() {
            return Err(JournalError::Io);
        }
        self.disk.write_at(next, &[0; MARK])?;
        self.disk.write_at(mark_after(next), &[0; MARK])?;
        self.disk.sync()?;
        self.mark = next;
        Ok(())
    }

    // Says in the front that the blocks reach to here, on a disk that is mixing. The next sync keeps that.
    pub(super) fn set_mark(&mut self) -> Result<(), JournalError>
        ensures clean { IsClean D.Disk self.new → IsClean D.Disk self.old }
        ensures kept { OnOk result ((contents : List (List ℕ)) → IsKept D.Disk self.old contents
            → IsSynced D.Disk self.old → IsKept D.Disk self.new contents) }
        ensures any_moment { (contents : List (List ℕ)) → IsKept D.Disk self.old contents
            → IsSynced D.Disk self.old
            → LeavesOnly D.Disk self.new contents }
    {
        if !self.disk.mixes() {
            return Ok(());
        }
        if !self.disk.may_be_used() {
            return Err(JournalError::Io);
        }
        let next = mark_after(self.mark);
        self.disk
            .write_at(self.mark, &twice_bytes(self.end as u64))?;
        self.disk.write_at(next, &[0; MARK])?;
        self.mark = next;
        Ok(())
    }

    /// Makes sure, in a quiet moment, that the mark of the last block is kept too, as the next `keep` does otherwise. After an error nothing
    /// more may be asked.
    pub fn keep_mark(&mut self) -> Result<(), JournalError>
        ensures clean { IsClean D.Disk self.new → IsClean D.Disk self.old }
        ensures kept { OnOk result ((contents : List (List ℕ)) → IsKept D.Disk self.old contents
            → IsKept D.Disk self.new contents) }
        ensures synced { OnOk result (IsSynced D.Disk self.new) }
        ensures any_moment { (contents : List (List ℕ)) → IsKept D.Disk self.old contents
            → LeavesOnly D.Disk self.new contents }
    {
        if !self.disk.may_be_used() {
            return Err(JournalError::Io);
        }
        self.disk.sync()?;
        Ok(())
    }
}
