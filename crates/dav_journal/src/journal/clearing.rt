//! All blocks are dropped.
ghost use Rattle.std.specs.Prelude.{◌≡◌, ◌≢◌, ◌⊎◌, ◌≤◌, ◌<◌, ◌+◌, ◌^◌, ◌++◌, ◌∷◌, [], ℕ, List, Some, length, slice_index, IsTrue, IfOk, IfErr, IfSome, OnOk, IsErrOf, IsNone, MatchOption};
ghost use Rattle.sqlite_disk.specs.Disk.{Follows, Holds, Only, Torn};
ghost use Rattle.dav_journal.specs.Block.{IsBlock, IsNoBlock, front_of, head_of, twice};
ghost use Rattle.dav_journal.specs.File.{IsBegun, Recovers};
ghost use Rattle.dav_journal.specs.Mark.{IsLastMark, IsMark, IsMarkPlace, NoneMarkedPast};
ghost use Rattle.dav_journal.specs.declared.error.JournalError.TheVariants.{Damaged};
ghost use Rattle.dav_journal.specs.Error.{IsNoDamage};
ghost use Rattle.dav_journal.specs.Journal.{HasRead, IsBare, IsClean, IsCleared, IsKept, IsOpened, IsReading, IsShut, IsSynced, IsWrittenBlock, LeavesAtMost, LeavesBehind, LeavesEither, LeavesOnly, OnlyReads, Stays, blocks_end, blocks_len, disk_of, file_of};

use crate::block::{OPEN, START};
use crate::error::JournalError;
use crate::journal::Journal;
use sqlite_disk::Disk;

impl<D: Disk + Drop> Journal<D> {
    /// Drops all blocks, of which nothing need be known: the journal is as a new one then.
    /// `Foreign` where the disk isn't mixing and the file has marks. After an error nothing more
    /// may be asked.
    pub fn clear(&mut self) -> Result<(), JournalError>
        ensures clean { IsClean D.Disk self.new → IsClean D.Disk self.old }
        ensures kept { OnOk result (IsClean D.Disk self.new → IsOpened D.Disk self.old
            → IsKept D.Disk self.new []) }
        ensures any_moment { IsClean D.Disk self.new → IsOpened D.Disk self.old
            → (contents : List (List ℕ)) → LeavesOnly D.Disk self.old contents
            → LeavesEither D.Disk (disk_of self.new) contents [] }
        ensures behind { IsClean D.Disk self.new → IsOpened D.Disk self.old → (generation : ℕ)
            → LeavesBehind D.Disk self.old generation → LeavesBehind D.Disk self.new generation }
    {
        self.drop_marks()?;
        self.shut_first()?;
        self.level()
    }

    // Leaves no marks.
    fn drop_marks(&mut self) -> Result<(), JournalError>
        ensures clean { IsClean D.Disk self.new → IsClean D.Disk self.old }
        ensures bare { OnOk result (IsClean D.Disk self.new → IsOpened D.Disk self.old
            → IsBare D.Disk self.new) }
        ensures any_moment { (contents : List (List ℕ)) → LeavesOnly D.Disk self.old contents
            → LeavesOnly D.Disk self.new contents }
        ensures behind { (generation : ℕ) → LeavesBehind D.Disk self.old generation
            → LeavesBehind D.Disk self.new generation }
    {
        if self.disk.mixes() {
            return self.clear_all();
        }
        self.sync()?;
        self.see_no_marks()
    }

    // Makes sure that the file is on the disk as it reads.
    fn sync(&mut self) -> Result<(), JournalError>
        ensures stays { Stays D.Disk self.old self.new }
        ensures synced { OnOk result (IsSynced D.Disk self.new) }
    {
        if !self.disk.may_be_used() {
            return Err(JournalError::Io);
        }
        self.disk.sync()?;
        Ok(())
    }

    // Shuts the gate of the first block, where it is open: the blocks end before it.
    fn shut_first(&mut self) -> Result<(), JournalError>
        ensures clean { IsClean D.Disk self.new → IsClean D.Disk self.old }
        ensures shut { OnOk result (IsClean D.Disk self.new → IsBare D.Disk self.old
            → IsShut D.Disk self.new []) }
        ensures any_moment { IsClean D.Disk self.new → IsBare D.Disk self.old
            → (contents : List (List ℕ)) → LeavesOnly D.Disk self.old contents
            → LeavesEither D.Disk (disk_of self.new) contents [] }
        ensures behind { IsClean D.Disk self.new → IsBare D.Disk self.old → (generation : ℕ)
            → LeavesBehind D.Disk self.old generation → LeavesBehind D.Disk self.new generation }
    {
        if !self.disk.may_be_used() {
            return Err(JournalError::Io);
        }
        let mut gate = [0u8; 1];
        self.disk.read_at(START, &mut gate)?;
        self.end = START;
        if gate[0] != OPEN {
            return Ok(());
        }
        self.disk.write_at(START, &[0])?;
        self.disk.sync()?;
        Ok(())
    }
}
