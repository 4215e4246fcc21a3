//! What isn't whole is cut off.
ghost use Rattle.std.specs.Prelude.{◌≡◌, ◌≢◌, ◌⊎◌, ◌≤◌, ◌<◌, ◌+◌, ◌^◌, ◌++◌, ◌∷◌, [], ℕ, List, Some, length, slice_index, IsTrue, IfOk, IfErr, IfSome, OnOk, IsErrOf, IsNone, MatchOption};
ghost use Rattle.sqlite_disk.specs.Disk.{Follows, Holds, Only, Torn};
ghost use Rattle.dav_journal.specs.Block.{IsBlock, IsNoBlock, front_of, head_of, twice};
ghost use Rattle.dav_journal.specs.File.{IsBegun, Recovers};
ghost use Rattle.dav_journal.specs.Mark.{IsLastMark, IsMark, IsMarkPlace, NoneMarkedPast};
ghost use Rattle.dav_journal.specs.declared.error.JournalError.TheVariants.{Damaged};
ghost use Rattle.dav_journal.specs.Error.{IsNoDamage};
ghost use Rattle.dav_journal.specs.Journal.{HasRead, IsBare, IsClean, IsCleared, IsKept, IsOpened, IsReading, IsShut, IsSynced, IsWrittenBlock, LeavesAtMost, LeavesEither, LeavesOnly, OnlyReads, Stays, blocks_end, blocks_len, disk_of, file_of};
ghost use Rattle.dav_journal.specs.Write.{HasZeros, KeepsBelow};

use crate::block::OPEN;
use crate::error::JournalError;
use crate::journal::Journal;
use sqlite_disk::Disk;

impl<D: Disk + Drop> Journal<D> {
    /// Makes the end of the blocks that were read the end of the file: what follows is cut off. `Foreign` where the disk isn't mixing and the
    /// file has marks.
    pub fn cut(&mut self) -> Result<(), JournalError>
        ensures clean { IsClean D.Disk self.new → IsClean D.Disk self.old }
        ensures kept { OnOk result (IsClean D.Disk self.new → (contents : List (List ℕ))
            → HasRead D.Disk self.old contents → IsKept D.Disk self.new contents) }
        ensures any_moment { IsClean D.Disk self.new → (contents : List (List ℕ))
            → HasRead D.Disk self.old contents → LeavesOnly D.Disk self.old contents
            → LeavesOnly D.Disk self.new contents }
    {
        self.clear_marks()?;
        self.shut()?;
        self.level()?;
        self.set_mark()
    }

    // Shuts the gate at the end of the blocks, where it is open.
    fn shut(&mut self) -> Result<(), JournalError>
        ensures shut { OnOk result (IsClean D.Disk self.new → (contents : List (List ℕ))
            → IsCleared D.Disk self.old contents → IsShut D.Disk self.new contents) }
        ensures any_moment { IsClean D.Disk self.new → (contents : List (List ℕ))
            → IsCleared D.Disk self.old contents → LeavesOnly D.Disk self.new contents }
        ensures clean { IsClean D.Disk self.new → IsClean D.Disk self.old }
    {
        if !self.disk.may_be_used() {
            return Err(JournalError::Io);
        }
        let mut gate = [0u8; 1];
        self.disk.read_at(self.end, &mut gate)?;
        if gate[0] != OPEN {
            return Ok(());
        }
        self.disk.write_at(self.end, &[0])?;
        self.disk.sync()?;
        Ok(())
    }

    // Cuts the file after its last gate, which is shut.
    pub(super) fn level(&mut self) -> Result<(), JournalError>
        ensures clean { IsClean D.Disk self.new → IsClean D.Disk self.old }
        ensures kept { OnOk result ((contents : List (List ℕ)) → IsShut D.Disk self.old contents
            → IsKept D.Disk self.new contents) }
        ensures any_moment { (contents : List (List ℕ)) → IsShut D.Disk self.old contents
            → LeavesOnly D.Disk self.new contents }
        ensures synced { OnOk result (IsSynced D.Disk self.new) }
    {
        let Some(end) = self.end.checked_add(1) else {
            return Err(JournalError::NoRoom);
        };
        if !self.disk.may_be_used() {
            return Err(JournalError::Io);
        }
        self.disk.set_len(end)?;
        self.disk.sync()?;
        self.disk.write_at(self.end, &[0])?;
        self.disk.sync()?;
        self.zeros = end;
        self.len = end;
        Ok(())
    }
}
