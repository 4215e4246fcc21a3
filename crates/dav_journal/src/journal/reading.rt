//! The blocks of a journal are read.
ghost use Rattle.std.specs.Prelude.{◌≡◌, ◌≢◌, ◌⊎◌, ◌≤◌, ◌<◌, ◌+◌, ◌^◌, ◌++◌, ◌∷◌, [], ℕ, List, Some, length, slice_index, IsTrue, IfOk, IfErr, IfSome, OnOk, IsErrOf, IsNone, MatchOption};
ghost use Rattle.sqlite_disk.specs.Disk.{Follows, Holds, Only, Torn};
ghost use Rattle.dav_journal.specs.Block.{IsBlock, IsNoBlock, front_of, head_of, twice};
ghost use Rattle.dav_journal.specs.File.{IsBegun, Recovers};
ghost use Rattle.dav_journal.specs.Mark.{IsLastMark, IsMark, IsMarkPlace, NoneMarkedPast};
ghost use Rattle.dav_journal.specs.declared.error.JournalError.TheVariants.{Damaged};
ghost use Rattle.dav_journal.specs.Error.{IsNoDamage};
ghost use Rattle.dav_journal.specs.Journal.{HasRead, IsAtEnd, IsBare, IsClean, IsCleared, IsKept, IsOpened, IsReading, IsShut, IsSynced, IsWrittenBlock, LeavesAtMost, LeavesEither, LeavesOnly, OnlyLooks, OnlyReads, Stays, blocks_end, blocks_len, disk_of, file_of};
ghost use Rattle.dav_journal.specs.Write.{HasZeros, KeepsBelow};

use crate::block::{HEAD, OPEN, is_head, len_in};
use crate::error::JournalError;
use crate::journal::{Journal, PIECE};
use sqlite_disk::Disk;
use std::alloc::Global;

impl<D: Disk + Drop> Journal<D> {
    /// The content of the next block that is there. `None` where no block follows. `Damaged` where no block follows, and one did: a mark
    /// says so, or the file ends there, or the gate is open on a disk that isn't mixing.
    pub fn next(&mut self, alloc: Global) -> Result<Option<Vec<u8>>, JournalError>
        ensures reads { OnlyReads D.Disk (disk_of self.old) (disk_of self.new) }
        ensures read { IfOk result (λ block. IsClean D.Disk self.new → (contents : List (List ℕ))
            → IsReading D.Disk self.old contents
            → MatchOption block (HasRead D.Disk self.new contents)
            (λ b. IsReading D.Disk self.new (contents ++ b.items ∷ []))) }
        ensures damaged { (place : ℕ) → IsErrOf result (Damaged place) → IsClean D.Disk self.new
            → IsTrue (D.Disk.is_mixing (disk_of self.new)) → (contents : List (List ℕ))
            → IsReading D.Disk self.old contents → (place ≡ blocks_end self.old)
            × ((others : List (List ℕ)) → Recovers (file_of D.Disk self.old) others → ⊥) }
    {
        let Some(content) = self.next_block(alloc)? else {
            self.see_end()?;
            return Ok(None);
        };
        Ok(Some(content))
    }

    /// The same, whatever the marks say and however the file ends: `None` where no block follows.
    pub fn next_block(&mut self, alloc: Global) -> Result<Option<Vec<u8>>, JournalError>
        ensures sound { IfErr result IsNoDamage }
        ensures reads { OnlyReads D.Disk (disk_of self.old) (disk_of self.new) }
        ensures stays { IfOk result (λ block. IsNone block → Stays D.Disk self.old self.new) }
        ensures read { IfOk result (λ block. IsClean D.Disk self.new → (contents : List (List ℕ))
            → IsReading D.Disk self.old contents
            → MatchOption block (IsAtEnd D.Disk self.new contents)
            (λ b. IsReading D.Disk self.new (contents ++ b.items ∷ []))) }
    {
        let Some(content) = self.block_here(alloc)? else {
            return Ok(None);
        };
        self.end += HEAD + content.len();
        Ok(Some(content))
    }

    // The content of the block after those that were read; `None` where none is there.
    pub(super) fn block_here(&mut self, alloc: Global) -> Result<Option<Vec<u8>>, JournalError>
        ensures sound { IfErr result IsNoDamage }
        ensures stays { Stays D.Disk self.old self.new }
        ensures fits { IfOk result (λ block. IfSome block (λ b.
            blocks_end self.old + 49 + length b.items ≤ blocks_len self.old)) }
        ensures read { IfOk result (λ block. IsClean D.Disk self.new
            → length (file_of D.Disk self.old) ≡ blocks_len self.old
            → MatchOption block
            (IsNoBlock self.old.key (file_of D.Disk self.old) (blocks_end self.old))
            (λ b. IsBlock self.old.key (file_of D.Disk self.old) (blocks_end self.old) b.items)) }
    {
        let Some(head) = self.next_head()? else {
            return Ok(None);
        };
        let Some(len) = self.fitting(&head) else {
            return Ok(None);
        };
        let content = self.content(alloc, len)?;
        if !is_head(alloc, self.key, self.end as u64, &head, &content)? {
            return Ok(None);
        }
        Ok(Some(content))
    }

    // The bytes at the end of the blocks that were read, as many as a gate and a head have; `None` where the file has fewer.
    fn next_head(&mut self) -> Result<Option<[u8; HEAD]>, JournalError>
        ensures sound { IfErr result IsNoDamage }
        ensures stays { Stays D.Disk self.old self.new }
        ensures head { IfOk result
            (λ head. MatchOption head (blocks_len self.old < blocks_end self.old + 49)
            (λ h. (length h ≡ 49) × (blocks_end self.old + 49 ≤ blocks_len self.old)
            × (IsClean D.Disk self.new
            → Holds (file_of D.Disk self.old) (blocks_end self.old) h))) }
    {
        if self.len < HEAD || self.len - HEAD < self.end {
            return Ok(None);
        }
        if !self.disk.may_be_used() {
            return Err(JournalError::Io);
        }
        let mut bytes = [0u8; HEAD];
        self.disk.read_at(self.end, &mut bytes)?;
        Ok(Some(bytes))
    }

    // The length that a head has, where a content of it fits.
    fn fitting(&self, head: &[u8]) -> Option<usize>
        ensures none { (key place : ℕ) (content : List ℕ) → length content < 2 ^ 64
            → head.now ≡ 1 ∷ head_of key place content
            → blocks_end self.now + 49 + length content ≤ blocks_len self.now
            → result ≡ Some (length content) }
        ensures some { IfSome result (λ n. blocks_end self.now + 49 + n ≤ blocks_len self.now) }
        ensures small { IfSome result (λ n. blocks_end self.now + 49 + n < 2 ^ 64) }
    {
        let len = usize::try_from(len_in(head)?).ok()?;
        let rest = self.len.checked_sub(self.end)?.checked_sub(HEAD)?;
        if len <= rest { Some(len) } else { None }
    }

    // So many bytes after a head.
    fn content(&mut self, alloc: Global, len: usize) -> Result<Vec<u8>, JournalError>
        requires { blocks_end self.old + 49 + len < 2 ^ 64 }
        ensures sound { IfErr result IsNoDamage }
        ensures stays { Stays D.Disk self.old self.new }
        ensures len { IfOk result (λ v. length v.items ≡ len) }
        ensures read { IfOk result (λ v. IsClean D.Disk self.new → 0 < len
            → Holds (file_of D.Disk self.old) (blocks_end self.old + 49) v.items) }
    {
        let mut content = Vec::new(alloc);
        content.resize(len, 0u8)?;
        if !self.disk.may_be_used() {
            return Err(JournalError::Io);
        }
        self.disk.read_at(self.end + HEAD, &mut content)?;
        Ok(content)
    }

    /// Whether the blocks may end here, where no other follows: `Damaged` where one did.
    pub fn see_end(&mut self) -> Result<(), JournalError>
        ensures stays { Stays D.Disk self.old self.new }
        ensures more { OnOk result (blocks_end self.old < blocks_len self.old) }
        ensures unmarked { OnOk result (IsClean D.Disk self.new
            → NoneMarkedPast (file_of D.Disk self.old) (blocks_end self.old)) }
        ensures damaged { (place : ℕ) → IsErrOf result (Damaged place) → IsClean D.Disk self.new
            → IsTrue (D.Disk.is_mixing (disk_of self.new)) → (place ≡ blocks_end self.old)
            × (NoneMarkedPast (file_of D.Disk self.old) (blocks_end self.old)
            → blocks_end self.old < blocks_len self.old → ⊥) }
    {
        if self.len <= self.end {
            return Err(JournalError::Damaged(self.end));
        }
        let (_, reached) = self.last_mark()?;
        if reached > self.end as u64 {
            return Err(JournalError::Damaged(self.end));
        }
        if self.gate()? == OPEN && !self.disk.mixes() {
            return Err(JournalError::Damaged(self.end));
        }
        Ok(())
    }

    // The gate at the end of the blocks.
    pub(super) fn gate(&mut self) -> Result<u8, JournalError>
        ensures sound { IfErr result IsNoDamage }
        ensures stays { Stays D.Disk self.old self.new }
        ensures looks { OnlyLooks D.Disk self.old self.new }
        ensures gate { IfOk result (λ gate. IsClean D.Disk self.new
            → slice_index (file_of D.Disk self.old) (blocks_end self.old) ≡ gate) }
    {
        if !self.disk.may_be_used() {
            return Err(JournalError::Io);
        }
        let mut gate = [0u8; 1];
        self.disk.read_at(self.end, &mut gate)?;
        Ok(gate[0])
    }

    /// How many bytes `cut` drops: from the end of the blocks that were read to the last byte that isn't 0.
    pub fn rest(&mut self) -> Result<usize, JournalError>
        ensures stays { Stays D.Disk self.old self.new }
        ensures rest { IfOk result (λ n. IsClean D.Disk self.new
            → length (file_of D.Disk self.old) ≡ blocks_len self.old → (i : ℕ)
            → blocks_end self.old + n ≤ i → slice_index (file_of D.Disk self.old) i ≡ 0) }
    {
        let mut piece = [0u8; PIECE];
        let mut to = self.len;
        while to > self.end {
            let from = to.saturating_sub(PIECE).max(self.end);
            let window = &mut piece[..to - from];
            self.read(from, window)?;
            let count = used(window);
            if count > 0 {
                return Ok(from - self.end + count);
            }
            to = from;
        }
        Ok(0)
    }

    /// Reads bytes of the file from this place on.
    pub fn read(&mut self, at: usize, piece: &mut [u8]) -> Result<(), JournalError>
        ensures stays { Stays D.Disk self.old self.new }
        ensures read { OnOk result (IsClean D.Disk self.new → 0 < length piece.old
            → Holds (file_of D.Disk self.old) at piece.new) }
    {
        if !self.disk.may_be_used() {
            return Err(JournalError::Io);
        }
        self.disk.read_at(at, piece)?;
        Ok(())
    }
}

// How many bytes there are up to the last that isn't 0.
fn used(bytes: &[u8]) -> usize
    ensures within { result ≤ length bytes.now }
    ensures zeros { (i : ℕ) → result ≤ i → slice_index bytes.now i ≡ 0 }
{
    let mut rest = bytes;
    while let [before @ .., last] = rest {
        if *last != 0 {
            return rest.len();
        }
        rest = before;
    }
    0
}
