//! A file of the elder format is let go, once its blocks are in another file.
ghost use Rattle.std.specs.Prelude.{◌≡◌, ◌⊎◌, ◌≤◌, ◌<◌, ◌+◌, ◌^◌, ◌++◌, ◌∷◌, [], ℕ, List, IsTrue, OnOk};
ghost use Rattle.dav_journal.specs.Elder.{IsEmptied, IsGoing, IsLetGo, IsReadingElder, Mixes};
ghost use Rattle.dav_journal.specs.File.{IsBegun, Recovers};
ghost use Rattle.dav_journal.specs.Journal.{IsClean, IsSynced, LeavesOnly, disk_of, file_of};
ghost use Rattle.dav_journal.specs.Write.{HasZeros};

use crate::block::{START, new_bytes};
use crate::elder::{ELDER_FRONT, elder_head_bytes};
use crate::error::JournalError;
use crate::journal::Journal;
use sqlite_disk::Disk;

impl<D: Disk + Drop> Journal<D> {
    // Lets a file of the elder format go, whose first block has this content: it is a journal
    // without blocks then. On disks of a kind that is mixing a crash at any moment leaves a file
    // that stands for the same blocks, or one that tells that it was let go, or what `open` makes
    // a journal of.
    pub fn let_go(&mut self, former: &[u8]) -> Result<(), JournalError>
        ensures clean { IsClean D.Disk self.new → IsClean D.Disk self.old }
        ensures gone { OnOk result ((contents : List (List ℕ))
            → IsReadingElder D.Disk self.old contents → (blocks : List (List ℕ))
            → IsGoing former.now blocks (file_of D.Disk self.old)
            → LeavesOnly D.Disk self.new []) }
        ensures any_moment { Mixes D.Disk → (contents : List (List ℕ))
            → IsReadingElder D.Disk self.old contents → (blocks : List (List ℕ))
            → IsGoing former.now blocks (file_of D.Disk self.old) → (c : List ℕ)
            → D.Disk.may_leave (disk_of self.new) c
            → IsGoing former.now blocks c ⊎ IsBegun c }
    {
        self.fade()?;
        self.lose_head(former)?;
        self.shorten()?;
        self.make_anew()?;
        Ok(())
    }

    // Writes zeros over the version of a file of the elder format.
    fn fade(&mut self) -> Result<(), JournalError>
        ensures clean { IsClean D.Disk self.new → IsClean D.Disk self.old }
        ensures reading { OnOk result ((contents : List (List ℕ))
            → IsReadingElder D.Disk self.old contents
            → IsReadingElder D.Disk self.new contents × HasZeros (file_of D.Disk self.new) 0 8) }
        ensures going { OnOk result ((contents : List (List ℕ))
            → IsReadingElder D.Disk self.old contents → (former : List ℕ) (blocks : List (List ℕ))
            → IsGoing former blocks (file_of D.Disk self.old)
            → IsGoing former blocks (file_of D.Disk self.new)) }
        ensures any_moment { Mixes D.Disk → (contents : List (List ℕ))
            → IsReadingElder D.Disk self.old contents → (former : List ℕ) (blocks : List (List ℕ))
            → IsGoing former blocks (file_of D.Disk self.old) → (c : List ℕ)
            → D.Disk.may_leave (disk_of self.new) c → IsGoing former blocks c }
    {
        if !self.disk.may_be_used() {
            return Err(JournalError::Io);
        }
        self.disk.write_at(0, &[0; 8])?;
        self.disk.sync()?;
        Ok(())
    }

    // Writes zeros over the digests of the head of its first block, which has this content.
    fn lose_head(&mut self, former: &[u8]) -> Result<(), JournalError>
        ensures clean { IsClean D.Disk self.new → IsClean D.Disk self.old }
        ensures lost { OnOk result ((contents : List (List ℕ))
            → IsReadingElder D.Disk self.old contents → HasZeros (file_of D.Disk self.old) 0 8
            → (blocks : List (List ℕ)) → IsGoing former.now blocks (file_of D.Disk self.old)
            → IsLetGo former.now (file_of D.Disk self.new)
            × HasZeros (file_of D.Disk self.new) 24 40) }
        ensures synced { OnOk result (IsSynced D.Disk self.new) }
        ensures any_moment { Mixes D.Disk → (contents : List (List ℕ))
            → IsReadingElder D.Disk self.old contents → HasZeros (file_of D.Disk self.old) 0 8
            → (blocks : List (List ℕ)) → IsGoing former.now blocks (file_of D.Disk self.old)
            → (c : List ℕ) → D.Disk.may_leave (disk_of self.new) c
            → IsGoing former.now blocks c }
    {
        let head = elder_head_bytes(self.key, ELDER_FRONT as u64, former);
        if head[8..] == [0; 16] {
            return Err(JournalError::Foreign);
        }
        if !self.disk.may_be_used() {
            return Err(JournalError::Io);
        }
        self.disk.write_at(24, &[0; 16])?;
        self.disk.sync()?;
        Ok(())
    }

    // Leaves of a file that was let go 73 bytes, with zeros from byte 24 on.
    fn shorten(&mut self) -> Result<(), JournalError>
        ensures clean { IsClean D.Disk self.new → IsClean D.Disk self.old }
        ensures emptied { OnOk result ((former : List ℕ)
            → IsLetGo former (file_of D.Disk self.old) → HasZeros (file_of D.Disk self.old) 24 40
            → IsEmptied (file_of D.Disk self.new)) }
        ensures synced { OnOk result (IsSynced D.Disk self.new) }
        ensures any_moment { IsSynced D.Disk self.old → (former : List ℕ)
            → IsLetGo former (file_of D.Disk self.old) → (c : List ℕ)
            → D.Disk.may_leave (disk_of self.new) c → IsLetGo former c }
    {
        if !self.disk.may_be_used() {
            return Err(JournalError::Io);
        }
        self.disk.write_at(40, &[0; 33])?;
        self.disk.set_len(START + 1)?;
        self.disk.sync()?;
        Ok(())
    }

    // Makes a journal of what is left of it.
    fn make_anew(&mut self) -> Result<(), JournalError>
        ensures clean { IsClean D.Disk self.new → IsClean D.Disk self.old }
        ensures made { OnOk result (IsEmptied (file_of D.Disk self.old)
            → Recovers (file_of D.Disk self.new) []) }
        ensures synced { OnOk result (IsSynced D.Disk self.new) }
        ensures any_moment { Mixes D.Disk → IsSynced D.Disk self.old
            → IsEmptied (file_of D.Disk self.old) → (c : List ℕ)
            → D.Disk.may_leave (disk_of self.new) c → IsBegun c }
    {
        if !self.disk.may_be_used() {
            return Err(JournalError::Io);
        }
        let key = self.disk.key();
        self.disk.write_at(0, &new_bytes(key))?;
        self.disk.sync()?;
        Ok(())
    }
}
