//! The blocks of a file of the elder format are read.
ghost use Rattle.std.specs.Prelude.{◌≡◌, ◌≤◌, ◌<◌, ◌+◌, ◌^◌, ◌++◌, ◌∷◌, [], ℕ, List, Some, length, IsTrue, IsFalse, IfOk, IfErr, IfSome, OnOk, MatchOption};
ghost use Rattle.std.specs.Int.{w64, to_be_bytes};
ghost use Rattle.sqlite_disk.specs.Disk.{Holds};
ghost use Rattle.dav_journal.specs.Elder.{HasElderFront, HasReadElder, IsElder, IsLetGo, IsNoElder, IsReadingElder, elder_head};
ghost use Rattle.dav_journal.specs.Error.{IsNoDamage};
ghost use Rattle.dav_journal.specs.Journal.{IsClean, OnlyReads, Stays, blocks_end, blocks_len, disk_of, file_of};

use crate::elder::{
    ELDER_FRONT, ELDER_HEAD, ELDER_VERSION, elder_head_bytes, elder_len_in, is_any_head, is_faint,
    number_in,
};
use crate::error::JournalError;
use crate::journal::looking::are_same;
use crate::journal::{Journal, PIECE};
use sqlite_disk::Disk;
use std::alloc::Global;

/// So many bytes a file of the elder format has at least that has a first block.
const FIRST: usize = 40;

impl<D: Disk + Drop> Journal<D> {
    // Opens a file of the elder format, and tells whether it is one that may have a block. It is
    // only read.
    pub fn open_elder(&mut self) -> Result<bool, JournalError>
        ensures reads { OnlyReads D.Disk (disk_of self.old) (disk_of self.new) }
        ensures reading { IfOk result (λ is. IsTrue is → IsClean D.Disk self.new
            → IsReadingElder D.Disk self.new []) }
        ensures another { IfOk result (λ is. IsFalse is → IsClean D.Disk self.new → (key : ℕ)
            → HasElderFront key (file_of D.Disk self.old)
            → 40 ≤ length (file_of D.Disk self.old) → ⊥) }
    {
        if !self.disk.may_be_used() {
            return Err(JournalError::Io);
        }
        self.disk.sync()?;
        let len = self.disk.len()?;
        if len < FIRST {
            return Ok(false);
        }
        let mut version = [0u8; 8];
        self.disk.read_at(0, &mut version)?;
        if !is_faint(&version, &ELDER_VERSION) {
            return Ok(false);
        }
        let mut key = [0u8; 8];
        self.disk.read_at(8, &mut key)?;
        let Some(key) = number_in(&key) else {
            return Err(JournalError::Io);
        };
        self.key = key;
        self.end = ELDER_FRONT;
        self.len = len;
        Ok(true)
    }

    // Whether a file that was opened so, and whose first block had this content, was let go.
    pub fn is_let_go(&mut self, former: &[u8]) -> Result<bool, JournalError>
        ensures stays { Stays D.Disk self.old self.new }
        ensures is { IfOk result (λ is. IsTrue is → IsClean D.Disk self.new
            → IsReadingElder D.Disk self.old [] → IsLetGo former.now (file_of D.Disk self.old)) }
        ensures other { IfOk result (λ is. IsFalse is → IsClean D.Disk self.new
            → IsReadingElder D.Disk self.old []
            → IsLetGo former.now (file_of D.Disk self.old) → ⊥) }
    {
        let mut version = [0u8; 8];
        self.read(0, &mut version)?;
        let mut head = [0u8; ELDER_HEAD];
        self.read(ELDER_FRONT, &mut head)?;
        let was = elder_head_bytes(self.key, ELDER_FRONT as u64, former);
        if version != [0; 8] {
            return Ok(false);
        }
        if head == was {
            return Ok(false);
        }
        if !is_faint(&head, &was) {
            return Ok(false);
        }
        self.tells_length(former)
    }

    // Whether the head of the first block has the length of this content.
    fn tells_length(&mut self, former: &[u8]) -> Result<bool, JournalError>
        ensures stays { Stays D.Disk self.old self.new }
        ensures is { IfOk result (λ is. IsTrue is → IsClean D.Disk self.new
            → Holds (file_of D.Disk self.old) 16 (to_be_bytes w64 (length former.now))) }
        ensures other { IfOk result (λ is. IsFalse is → IsClean D.Disk self.new
            → Holds (file_of D.Disk self.old) 16 (to_be_bytes w64 (length former.now)) → ⊥) }
    {
        let mut told = [0u8; 8];
        self.read(ELDER_FRONT, &mut told)?;
        Ok(are_same(&told, &(former.len() as u64).to_be_bytes()))
    }

    // Makes sure that a file without a first block hasn't the version of the elder format, whole.
    // `Damaged` where it has.
    pub fn see_no_version(&mut self) -> Result<(), JournalError>
        ensures stays { Stays D.Disk self.old self.new }
    {
        let mut version = [0u8; 8];
        self.read(0, &mut version)?;
        if version == ELDER_VERSION {
            return Err(JournalError::Damaged(self.end));
        }
        Ok(())
    }

    // The content of the next block of a file of the elder format. `None` where no block follows.
    // `Damaged` where none follows, and the head of one is further behind.
    pub fn next_elder(&mut self, alloc: Global) -> Result<Option<Vec<u8>>, JournalError>
        ensures reads { OnlyReads D.Disk (disk_of self.old) (disk_of self.new) }
        ensures read { IfOk result (λ block. IsClean D.Disk self.new → (contents : List (List ℕ))
            → IsReadingElder D.Disk self.old contents
            → MatchOption block (HasReadElder D.Disk self.new contents)
            (λ b. IsReadingElder D.Disk self.new (contents ++ b.items ∷ []))) }
    {
        let Some(content) = self.elder_here(alloc)? else {
            self.see_elder_end()?;
            return Ok(None);
        };
        self.end += ELDER_HEAD + content.len();
        Ok(Some(content))
    }

    // The content of the block after those that were read; `None` where none is there.
    fn elder_here(&mut self, alloc: Global) -> Result<Option<Vec<u8>>, JournalError>
        ensures stays { Stays D.Disk self.old self.new }
        ensures fits { IfOk result (λ block. IfSome block (λ b.
            blocks_end self.old + 24 + length b.items ≤ blocks_len self.old)) }
        ensures read { IfOk result (λ block. IsClean D.Disk self.new
            → length (file_of D.Disk self.old) ≡ blocks_len self.old
            → MatchOption block
            (IsNoElder self.old.key (file_of D.Disk self.old) (blocks_end self.old))
            (λ b. IsElder self.old.key (file_of D.Disk self.old) (blocks_end self.old) b.items)) }
    {
        let Some(head) = self.next_elder_head()? else {
            return Ok(None);
        };
        let Some(len) = self.elder_fitting(&head) else {
            return Ok(None);
        };
        let content = self.elder_content(alloc, len)?;
        if head != elder_head_bytes(self.key, self.end as u64, &content) {
            return Ok(None);
        }
        Ok(Some(content))
    }

    // The bytes at the end of the blocks that were read, as many as a head has; `None` where the
    // file has fewer.
    fn next_elder_head(&mut self) -> Result<Option<[u8; ELDER_HEAD]>, JournalError>
        ensures stays { Stays D.Disk self.old self.new }
        ensures head { IfOk result
            (λ head. MatchOption head (blocks_len self.old < blocks_end self.old + 24)
            (λ h. (length h ≡ 24) × (blocks_end self.old + 24 ≤ blocks_len self.old)
            × (IsClean D.Disk self.new
            → Holds (file_of D.Disk self.old) (blocks_end self.old) h))) }
    {
        if self.len < ELDER_HEAD || self.len - ELDER_HEAD < self.end {
            return Ok(None);
        }
        let mut bytes = [0u8; ELDER_HEAD];
        self.read(self.end, &mut bytes)?;
        Ok(Some(bytes))
    }

    // The length that a head has, where it isn't 0 and a content of it fits.
    fn elder_fitting(&self, head: &[u8; ELDER_HEAD]) -> Option<usize>
        ensures none { (key place : ℕ) (content : List ℕ) → 0 < length content
            → length content < 2 ^ 64 → head.now ≡ elder_head key place content
            → blocks_end self.now + 24 + length content ≤ blocks_len self.now
            → result ≡ Some (length content) }
        ensures some { IfSome result (λ n. 0 < n) }
        ensures within { IfSome result (λ n. blocks_end self.now + 24 + n ≤ blocks_len self.now) }
        ensures small { IfSome result (λ n. blocks_end self.now + 24 + n < 2 ^ 64) }
    {
        let len = usize::try_from(elder_len_in(head)).ok()?;
        let rest = self.len.checked_sub(self.end)?.checked_sub(ELDER_HEAD)?;
        if len > 0 && len <= rest {
            Some(len)
        } else {
            None
        }
    }

    // So many bytes after a head.
    fn elder_content(&mut self, alloc: Global, len: usize) -> Result<Vec<u8>, JournalError>
        requires { blocks_end self.old + 24 + len < 2 ^ 64 }
        ensures stays { Stays D.Disk self.old self.new }
        ensures len { IfOk result (λ v. length v.items ≡ len) }
        ensures read { IfOk result (λ v. IsClean D.Disk self.new → 0 < len
            → Holds (file_of D.Disk self.old) (blocks_end self.old + 24) v.items) }
    {
        let mut content = Vec::new(alloc);
        content.resize(len, 0u8)?;
        if !self.disk.may_be_used() {
            return Err(JournalError::Io);
        }
        self.disk.read_at(self.end + ELDER_HEAD, &mut content)?;
        Ok(content)
    }

    // Makes sure that no head of a block is behind the end of the blocks that were read.
    fn see_elder_end(&mut self) -> Result<(), JournalError>
        ensures stays { Stays D.Disk self.old self.new }
    {
        let mut piece = [0u8; PIECE];
        let mut at = self.end.saturating_add(1);
        while at < self.len {
            let count = PIECE.min(self.len - at);
            if count < ELDER_HEAD {
                return Ok(());
            }
            let window = &mut piece[..count];
            self.read(at, window)?;
            if has_head(self.key, at as u64, window) {
                return Err(JournalError::Damaged(self.end));
            }
            at += count - ELDER_HEAD + 1;
        }
        Ok(())
    }
}

// Whether the head of a block, of whatever content, is in these bytes, which are at this place.
fn has_head(key: u64, place: u64, bytes: &[u8]) -> bool {
    let mut at = place;
    let mut rest = bytes;
    while let [_, after @ ..] = rest {
        if is_any_head(key, at, rest) {
            return true;
        }
        at = at.saturating_add(1);
        rest = after;
    }
    false
}
