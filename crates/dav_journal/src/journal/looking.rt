//! Whether another opening went on with the file.
ghost use Rattle.std.specs.Prelude.{◌≡◌, ℕ, List, slice_index, IfErr, IsTrue, OnOk, IsErrOf, ◌↔◌};
ghost use Rattle.sqlite_disk.specs.Disk.{Holds};
ghost use Rattle.dav_journal.specs.Block.{IsNoBlock};
ghost use Rattle.dav_journal.specs.Error.{IsNoDamage};
ghost use Rattle.dav_journal.specs.Journal.{IsClean, IsOwn, OnlyLooks, Stays, blocks_end, file_of};
ghost use Rattle.dav_journal.specs.Mark.{NoneMarkedPast};
ghost use Rattle.dav_journal.specs.declared.error.JournalError.TheVariants.{Passed};

use crate::block::{HEAD, OPEN, START};
use crate::error::JournalError;
use crate::journal::Journal;
use sqlite_disk::Disk;

impl<D: Disk + Drop> Journal<D> {
    /// Sees that no other opening went on with the file: `Passed` where a block is where the blocks end, or the first one, where there are some,
    /// isn't there, or begins with other bytes than these.
    pub fn see_own(&mut self, begins: [u8; 8]) -> Result<(), JournalError>
        ensures looks { OnlyLooks D.Disk self.old self.new }
        ensures own { OnOk result (IsClean D.Disk self.new → IsOwn D.Disk self.old begins) }
    {
        self.see_shut()?;
        if self.end == START {
            return Ok(());
        }
        self.see_begin(begins)
    }

    /// Sees that no block is where the blocks end: `Passed` where one is.
    pub fn see_shut(&mut self) -> Result<(), JournalError>
        ensures looks { OnlyLooks D.Disk self.old self.new }
        ensures nothing { OnOk result (IsClean D.Disk self.new
            → IsNoBlock self.old.key (file_of D.Disk self.old) (blocks_end self.old)) }
    {
        if self.gate()? == OPEN {
            return Err(JournalError::Passed);
        }
        Ok(())
    }

    /// Sees that the first block is there, and begins with these bytes: `Passed` where it isn't so.
    pub fn see_begin(&mut self, begins: [u8; 8]) -> Result<(), JournalError>
        ensures sound { IfErr result IsNoDamage }
        ensures looks { OnlyLooks D.Disk self.old self.new }
        ensures first { OnOk result (IsClean D.Disk self.new
            → (slice_index (file_of D.Disk self.old) 72 ≡ 1)
            × Holds (file_of D.Disk self.old) 121 begins) }
        ensures passed { IsErrOf result Passed → IsClean D.Disk self.new
            → slice_index (file_of D.Disk self.old) 72 ≡ 1
            → Holds (file_of D.Disk self.old) 121 begins → ⊥ }
    {
        if !self.disk.may_be_used() {
            return Err(JournalError::Io);
        }
        let mut gate = [0u8; 1];
        self.disk.read_at(START, &mut gate)?;
        if gate[0] != OPEN {
            return Err(JournalError::Passed);
        }
        let mut found = [0u8; 8];
        self.disk.read_at(START + HEAD, &mut found)?;
        if !are_same(&found, &begins) {
            return Err(JournalError::Passed);
        }
        Ok(())
    }

    /// Sees that no block was kept behind those that were read, since then: `Passed` where one was.
    pub fn see_same_end(&mut self) -> Result<(), JournalError>
        ensures stays { Stays D.Disk self.old self.new }
        ensures unmarked { OnOk result (IsClean D.Disk self.new
            → NoneMarkedPast (file_of D.Disk self.old) (blocks_end self.old)) }
    {
        match self.see_end() {
            Err(JournalError::Damaged(_)) => Err(JournalError::Passed),
            seen => seen,
        }
    }

    /// Whether a block of so many bytes fits into the file as it is.
    pub fn fits(&self, count: usize) -> bool {
        let wanted = self.end.saturating_add(HEAD + 1).saturating_add(count);
        wanted <= self.len
    }
}

// Whether these are the same bytes.
pub fn are_same(one: &[u8; 8], other: &[u8; 8]) -> bool
    ensures { IsTrue result ↔ (one.now ≡ other.now) }
{
    *one == *other
}
