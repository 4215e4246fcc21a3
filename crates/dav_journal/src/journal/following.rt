//! The blocks that another opening keeps behind those that were read.
ghost use Rattle.std.specs.Prelude.{◌≡◌, ◌≤◌, ◌<◌, ◌++◌, ◌∷◌, [], ℕ, List, IfErr, IfOk, OnOk, IsErrOf, MatchOption};
ghost use Rattle.dav_journal.specs.Error.{IsNoDamage};
ghost use Rattle.dav_journal.specs.File.{Recovers};
ghost use Rattle.dav_journal.specs.Journal.{HasRead, IsClean, IsReading, OnlyReads, blocks_end, blocks_len, disk_of, file_of};
ghost use Rattle.dav_journal.specs.Mark.{IsLastMark, IsMarkPlace, NoneMarkedPast};
ghost use Rattle.dav_journal.specs.declared.error.JournalError.TheVariants.{Damaged};

use crate::block::HEAD;
use crate::error::JournalError;
use crate::journal::Journal;
use sqlite_disk::Disk;
use std::alloc::Global;

impl<D: Disk + Drop> Journal<D> {
    /// The content of the next block, where it is whole; another opening may be writing it, so an open gate tells nothing here. `None` where
    /// none is there yet. `Damaged` where a mark says that it was kept, or the file ends there: a mark is written once all before it is kept,
    /// and the marks are read before the block, so what they tell of was there.
    pub fn next_whole(&mut self, alloc: Global) -> Result<Option<Vec<u8>>, JournalError>
        ensures reads { OnlyReads D.Disk (disk_of self.old) (disk_of self.new) }
        ensures read { IfOk result (λ block. IsClean D.Disk self.new → (contents : List (List ℕ))
            → IsReading D.Disk self.old contents
            → MatchOption block (HasRead D.Disk self.new contents)
            (λ b. IsReading D.Disk self.new (contents ++ b.items ∷ []))) }
        ensures damaged { (place : ℕ) → IsErrOf result (Damaged place) → IsClean D.Disk self.new
            → (contents : List (List ℕ)) → IsReading D.Disk self.old contents
            → (place ≡ blocks_end self.old)
            × ((others : List (List ℕ)) → Recovers (file_of D.Disk self.old) others → ⊥) }
    {
        let last = self.last_mark()?;
        self.measure()?;
        self.next_here(alloc, last)
    }

    // The same, of a file that is as long as it was, and has this last mark.
    fn next_here(
        &mut self,
        alloc: Global,
        last: (usize, u64),
    ) -> Result<Option<Vec<u8>>, JournalError>
        ensures reads { OnlyReads D.Disk (disk_of self.old) (disk_of self.new) }
        ensures read { IfOk result (λ block. IsClean D.Disk self.new → (contents : List (List ℕ))
            → IsReading D.Disk self.old contents
            → IsLastMark (file_of D.Disk self.old) last.0 last.1
            → MatchOption block (HasRead D.Disk self.new contents)
            (λ b. IsReading D.Disk self.new (contents ++ b.items ∷ []))) }
        ensures damaged { (place : ℕ) → IsErrOf result (Damaged place) → IsClean D.Disk self.new
            → (contents : List (List ℕ)) → IsReading D.Disk self.old contents
            → IsMarkPlace last.0 → IsLastMark (file_of D.Disk self.old) last.0 last.1
            → (place ≡ blocks_end self.old)
            × ((others : List (List ℕ)) → Recovers (file_of D.Disk self.old) others → ⊥) }
    {
        let Some(content) = self.block_here(alloc)? else {
            self.see_reached(last.1)?;
            return Ok(None);
        };
        self.end += HEAD + content.len();
        Ok(Some(content))
    }

    // Sees that the blocks may end here, where the last mark says that they reached so far: `Damaged` where they went further, or the file
    // ends here.
    fn see_reached(&self, reached: u64) -> Result<(), JournalError>
        ensures more { OnOk result (blocks_end self.now < blocks_len self.now) }
        ensures low { OnOk result (reached ≤ blocks_end self.now) }
        ensures damaged { (place : ℕ) → IsErrOf result (Damaged place)
            → (place ≡ blocks_end self.now)
            × (reached ≤ blocks_end self.now → blocks_end self.now < blocks_len self.now → ⊥) }
    {
        if self.len <= self.end || reached > self.end as u64 {
            return Err(JournalError::Damaged(self.end));
        }
        Ok(())
    }

    // Asks anew how long the file is.
    fn measure(&mut self) -> Result<(), JournalError>
        ensures sound { IfErr result IsNoDamage }
        ensures reads { OnlyReads D.Disk (disk_of self.old) (disk_of self.new) }
        ensures place { blocks_end self.new ≡ blocks_end self.old }
        ensures read { OnOk result (IsClean D.Disk self.new → (contents : List (List ℕ))
            → IsReading D.Disk self.old contents → IsReading D.Disk self.new contents) }
    {
        if !self.disk.may_be_used() {
            return Err(JournalError::Io);
        }
        self.len = self.disk.len()?;
        Ok(())
    }
}
