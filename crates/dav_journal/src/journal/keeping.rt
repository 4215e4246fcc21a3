//! Blocks are kept.
ghost use Rattle.std.specs.Prelude.{◌≡◌, ◌≢◌, ◌⊎◌, ◌≤◌, ◌<◌, ◌+◌, ◌^◌, ◌++◌, ◌∷◌, [], ℕ, List, Some, length, slice_index, IsTrue, IfOk, IfErr, IfSome, OnOk, IsErrOf, IsNone, MatchOption};
ghost use Rattle.sqlite_disk.specs.Disk.{Follows, Holds, Only, Torn};
ghost use Rattle.dav_journal.specs.Block.{IsBlock, IsNoBlock, front_of, head_of, twice};
ghost use Rattle.dav_journal.specs.File.{IsBegun, Recovers};
ghost use Rattle.dav_journal.specs.Mark.{IsLastMark, IsMark, IsMarkPlace, NoneMarkedPast};
ghost use Rattle.dav_journal.specs.declared.error.JournalError.TheVariants.{Damaged};
ghost use Rattle.dav_journal.specs.Error.{IsNoDamage};
ghost use Rattle.dav_journal.specs.Journal.{HasRead, IsBare, IsClean, IsCleared, IsKept, IsOpened, IsReading, IsShut, IsSynced, IsWrittenBlock, LeavesAtMost, LeavesEither, LeavesOnly, OnlyReads, Stays, blocks_end, blocks_len, disk_of, file_of};
ghost use Rattle.dav_journal.specs.Parts.{IsGated, bytes_in};
ghost use Rattle.dav_journal.specs.Write.{HasZeros, KeepsBelow};

use crate::block::{HEAD, first_part, last_part};
use crate::error::JournalError;
use crate::journal::{Journal, PIECE};
use crate::parts::Parts;
use crate::write::{write_once, write_twice};
use sqlite_disk::Disk;
use std::alloc::Global;

/// So much room is made at once, where the disk has it.
const ROOM: usize = 1_048_576;

impl<D: Disk + Drop> Journal<D> {
    /// Makes room for a block of so many bytes. `NoRoom` where the disk has none; the journal is as it was then.
    pub fn room(&mut self, count: usize) -> Result<(), JournalError>
        ensures clean { IsClean D.Disk self.new → IsClean D.Disk self.old }
        ensures kept { (contents : List (List ℕ)) → IsKept D.Disk self.old contents
            → IsKept D.Disk self.new contents }
    {
        if self.fits(count) {
            return Ok(());
        }
        let wanted = self.end.saturating_add(HEAD + 1).saturating_add(count);
        if self.grow(wanted.saturating_add(ROOM))? {
            return Ok(());
        }
        if self.grow(wanted)? {
            return Ok(());
        }
        Err(JournalError::NoRoom)
    }

    // Writes zeros up to this length. False where that fails.
    fn grow(&mut self, len: usize) -> Result<bool, JournalError>
        ensures clean { IsClean D.Disk self.new → IsClean D.Disk self.old }
        ensures kept { (contents : List (List ℕ)) → IsKept D.Disk self.old contents
            → IsKept D.Disk self.new contents }
    {
        if self.zeros != self.len {
            return self.grow_more(len);
        }
        let reached = fill(&mut self.disk, self.len, len)?;
        self.len = reached;
        if reached < len {
            return Ok(false);
        }
        if !self.disk.mixes() {
            return Ok(true);
        }
        self.settle()?;
        Ok(true)
    }

    // The same, where what is before the zeros isn't known to be zeros.
    fn grow_more(&mut self, len: usize) -> Result<bool, JournalError>
        ensures clean { IsClean D.Disk self.new → IsClean D.Disk self.old }
        ensures kept { (contents : List (List ℕ)) → IsKept D.Disk self.old contents
            → IsKept D.Disk self.new contents }
    {
        let reached = fill(&mut self.disk, self.len, len)?;
        self.len = reached;
        Ok(reached >= len)
    }

    // Makes sure that the zeros up to the end of the file are kept.
    fn settle(&mut self) -> Result<(), JournalError>
        ensures clean { IsClean D.Disk self.new → IsClean D.Disk self.old }
        ensures kept { (contents : List (List ℕ)) → IsKept D.Disk self.old contents
            → HasZeros (file_of D.Disk self.old) self.old.zeros self.old.len
            → IsKept D.Disk self.new contents }
    {
        if !self.disk.may_be_used() {
            return Err(JournalError::Io);
        }
        self.disk.sync()?;
        self.zeros = self.len;
        Ok(())
    }

    /// Writes a block of this content after the others, and makes sure that it is kept. After an error, but for `Memory`,
    /// nothing more may be asked.
    pub fn keep(&mut self, alloc: Global, content: &[u8]) -> Result<(), JournalError>
        ensures clean { IsClean D.Disk self.new → IsClean D.Disk self.old }
        ensures kept { OnOk result ((contents : List (List ℕ)) → IsKept D.Disk self.old contents
            → IsKept D.Disk self.new (contents ++ content.now ∷ [])) }
        ensures any_moment { (contents : List (List ℕ)) → IsKept D.Disk self.old contents
            → LeavesAtMost D.Disk (disk_of self.new) contents content.now }
    {
        self.keep_both(alloc, content, &[])
    }

    /// The same, of a content that is in two parts, of which the second one is written from where it is.
    pub fn keep_both(
        &mut self,
        alloc: Global,
        content: &[u8],
        body: &[u8],
    ) -> Result<(), JournalError>
        ensures clean { IsClean D.Disk self.new → IsClean D.Disk self.old }
        ensures kept { OnOk result ((contents : List (List ℕ)) → IsKept D.Disk self.old contents
            → IsKept D.Disk self.new (contents ++ (content.now ++ body.now) ∷ [])) }
        ensures any_moment { (contents : List (List ℕ)) → IsKept D.Disk self.old contents
            → LeavesAtMost D.Disk (disk_of self.new) contents (content.now ++ body.now) }
    {
        let first = first_part(alloc, self.key, self.end as u64, content, body)?;
        let bytes = Parts {
            first: first.as_slice(),
            body,
            last: last_part(body),
        };
        let Some(zeros) = bytes.end_from(self.end) else {
            return Err(JournalError::NoRoom);
        };
        if !self.disk.may_be_used() {
            return Err(JournalError::Io);
        }
        self.write(zeros - 1, &bytes)?;
        self.set_mark()
    }

    // Writes a block, and the gate after it, so that both are kept.
    fn write(&mut self, end: usize, bytes: &Parts<'_>) -> Result<(), JournalError>
        requires usable { IsTrue (D.Disk.is_usable (disk_of self.old)) }
        requires gated { IsGated bytes.now }
        requires ends { end + 1 ≡ blocks_end self.old + length (bytes_in bytes.now) }
        requires fits { end + 1 < 2 ^ 64 }
        ensures clean { IsClean D.Disk self.new → IsClean D.Disk self.old }
        ensures kept { OnOk result ((contents : List (List ℕ)) (content : List ℕ)
            → IsWrittenBlock self.old content (bytes_in bytes.now) → IsKept D.Disk self.old contents
            → IsKept D.Disk self.new (contents ++ content ∷ [])) }
        ensures synced { OnOk result (IsSynced D.Disk self.new) }
        ensures any_moment { (contents : List (List ℕ)) (content : List ℕ)
            → IsWrittenBlock self.old content (bytes_in bytes.now) → IsKept D.Disk self.old contents
            → LeavesAtMost D.Disk (disk_of self.new) contents content }
    {
        if self.disk.mixes() && end < self.zeros {
            return self.keep_once(end, bytes);
        }
        self.keep_twice(end, bytes)
    }

    // Writes a block, and the gate after it, by two syncs.
    fn keep_twice(&mut self, end: usize, bytes: &Parts<'_>) -> Result<(), JournalError>
        requires usable { IsTrue (D.Disk.is_usable (disk_of self.old)) }
        requires gated { IsGated bytes.now }
        requires ends { end + 1 ≡ blocks_end self.old + length (bytes_in bytes.now) }
        requires fits { end + 1 < 2 ^ 64 }
        ensures clean { IsClean D.Disk self.new → IsClean D.Disk self.old }
        ensures kept { OnOk result ((contents : List (List ℕ)) (content : List ℕ)
            → IsWrittenBlock self.old content (bytes_in bytes.now) → IsKept D.Disk self.old contents
            → IsKept D.Disk self.new (contents ++ content ∷ [])) }
        ensures synced { OnOk result (IsSynced D.Disk self.new) }
        ensures any_moment { (contents : List (List ℕ)) (content : List ℕ)
            → IsWrittenBlock self.old content (bytes_in bytes.now) → IsKept D.Disk self.old contents
            → LeavesAtMost D.Disk (disk_of self.new) contents content }
    {
        write_twice(&mut self.disk, self.end, bytes)?;
        self.end = end;
        self.zeros = end + 1;
        self.len = self.len.max(end + 1);
        Ok(())
    }

    // Writes a block over zeros that are kept, and the gate after it, by one sync.
    fn keep_once(&mut self, end: usize, bytes: &Parts<'_>) -> Result<(), JournalError>
        requires usable { IsTrue (D.Disk.is_usable (disk_of self.old)) }
        requires mixes { IsTrue (D.Disk.is_mixing (disk_of self.old)) }
        requires gated { IsGated bytes.now }
        requires ends { end + 1 ≡ blocks_end self.old + length (bytes_in bytes.now) }
        requires room { end + 1 ≤ self.old.zeros }
        requires fits { end + 1 < 2 ^ 64 }
        ensures clean { IsClean D.Disk self.new → IsClean D.Disk self.old }
        ensures kept { OnOk result ((contents : List (List ℕ)) (content : List ℕ)
            → IsWrittenBlock self.old content (bytes_in bytes.now) → IsKept D.Disk self.old contents
            → IsKept D.Disk self.new (contents ++ content ∷ [])) }
        ensures synced { OnOk result (IsSynced D.Disk self.new) }
        ensures any_moment { (contents : List (List ℕ)) (content : List ℕ)
            → IsWrittenBlock self.old content (bytes_in bytes.now) → IsKept D.Disk self.old contents
            → LeavesAtMost D.Disk (disk_of self.new) contents content }
    {
        write_once(&mut self.disk, self.end, bytes)?;
        self.end = end;
        Ok(())
    }
}

// Writes zeros from here up to a length: how far that went.
fn fill<D: Disk>(disk: &mut D, from: usize, len: usize) -> Result<usize, JournalError>
    ensures clean { IsTrue (D.Disk.is_clean disk.new) → IsTrue (D.Disk.is_clean disk.old) }
    ensures reached { IfOk result (λ n. from ≤ n) }
    ensures others { (n : ℕ) → n ≤ from
        → KeepsBelow n (D.Disk.seen disk.old) (D.Disk.seen disk.new) }
    ensures zeros { IfOk result (λ n. from ≤ length (D.Disk.seen disk.old)
        → HasZeros (D.Disk.seen disk.new) from n) }
    ensures crash { (n : ℕ) → n ≤ from
        → Follows (KeepsBelow n) (D.Disk.may_leave disk.old) (D.Disk.may_leave disk.new) }
{
    let zeros = [0u8; PIECE];
    let mut at = from;
    for _ in 0..u64::MAX {
        let count = PIECE.min(len.saturating_sub(at));
        if count == 0 {
            break;
        }
        if !disk.may_be_used() {
            return Err(JournalError::Io);
        }
        let Some(piece) = zeros.get(..count) else {
            break;
        };
        let Ok(()) = disk.write_at(at, piece) else {
            break;
        };
        at = at.saturating_add(count);
    }
    Ok(at)
}
