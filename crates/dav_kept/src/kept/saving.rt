//! What is kept begins anew with the state.
ghost use Rattle.std.specs.Prelude.{◌≡◌, ◌≢◌, ◌⊎◌, ◌+◌, ◌*◌, ◌<◌, ◌^◌, ◌++◌, ◌∷◌, ◌↔◌, ℕ, Option, Some, None, List, length, [], true, false, IsTrue, MatchOption, IfSome, IfOk, OnOk};
ghost use Rattle.std.specs.List.{concat};
ghost use Rattle.http_server.specs.declared.response.Response.{Response};
ghost use Rattle.http_server.specs.Response.{IsBlank};
ghost use Rattle.dav_kept.specs.Records.{IsRecord, record_bytes, token_count};
ghost use Rattle.dav_kept.specs.Kept.{Begins, IsAnswerOf, RecordsFollow, IsRunOf, PlaysRecords, Snapshot, StaysAsKept, StaysInJournal, after, committed, filled, first_block, first_day, held_by, is_new, journal_of, preface_of, snapshot_bytes, snapshot_of, answer_step, base_of, with_batch, with_count, with_first, with_snapshot};
ghost use Rattle.dav_kept.specs.declared.handler.Effect.TheVariants.{Changed};

use crate::error::KeptError;
use crate::handler::Handles;
use crate::journal::Keeps;
use crate::kept::Kept;
use crate::record::put;
use std::alloc::{AllocError, Global};

/// With zeros the preface has so many bytes where no snapshot follows it.
pub const WITHOUT_SNAPSHOT: usize = 8192;
/// With zeros the preface has so many bytes where a snapshot follows it.
pub const BEFORE_SNAPSHOT: usize = 4096;

// A preface as it stands in a first block.
pub fn filled(
    alloc: Global,
    preface: &[u8],
    has_zeros: bool,
    count: usize,
) -> Result<Vec<u8>, AllocError>
    ensures { IfOk result (λ v. v.items ≡ filled count (preface.now, has_zeros)) }
{
    let mut filled = Vec::from_slice(alloc, preface)?;
    if has_zeros && filled.len() < count {
        filled.resize(count, 0)?;
    }
    Ok(filled)
}

// The first block of a journal without a snapshot.
pub fn plain_block(alloc: Global, preface: &[u8], has_zeros: bool) -> Result<Vec<u8>, KeptError>
    ensures { IfOk result (λ v. v.items ≡ first_block (preface.now, has_zeros) None) }
{
    let filled = filled(alloc, preface, has_zeros, WITHOUT_SNAPSHOT)?;
    let mut block = Vec::new(alloc);
    put(&mut block, &filled)?;
    Ok(block)
}

/// Whether a journal is to begin anew whose blocks take so many bytes, where they took `base` at the
/// last snapshot: they are more than twice that, and more than the least.
pub fn is_due(size: usize, base: usize, least: usize) -> bool
    ensures { IsTrue result ↔ (least < size) × (2 * base < size) }
{
    least < size && base < size && base < size - base
}

impl<H: Handles + Drop, J: Keeps + Drop> Kept<H, J> {
    /// Keeps the batch, and then makes the journal begin anew with a snapshot: what is saved of the
    /// state takes the place of the records that led to it. False where that can't be saved so that
    /// it could be loaded, or where memory doesn't suffice for it or the disk has no room: then only
    /// the batch is kept.
    pub fn snapshot(&mut self) -> Result<bool, KeptError>
        ensures held { IfOk result (λ _. held_by self.new ≡ committed (held_by self.old)) }
        ensures saveable { IfOk result (λ b. IsTrue b
            → H.is_saveable (held_by self.old).state) }
        ensures stays { StaysInJournal self.old self.new }
        ensures clean { J.is_clean (journal_of self.new) → J.is_clean (journal_of self.old) }
        ensures base { IfOk result (λ b. IsTrue b
            → base_of self.new ≡ J.ends_at (journal_of self.new)) }
        ensures kept { IfOk result (λ b. J.is_clean (journal_of self.new)
            → (blocks : List (List ℕ)) → J.kept (journal_of self.old) blocks
            → J.kept (journal_of self.new) (with_snapshot b
            (first_block (preface_of self.old) (Some (snapshot_of H.saved (held_by self.old))))
            (with_batch blocks (held_by self.old).batch))) }
        ensures any_moment { J.is_clean (journal_of self.new)
            → (blocks : List (List ℕ)) → J.kept (journal_of self.old) blocks
            → J.leaves (journal_of self.new) blocks (with_batch blocks (held_by self.old).batch)
            ⊎ (H.is_saveable (held_by self.old).state
            × J.leaves (journal_of self.new) (with_batch blocks (held_by self.old).batch)
            (first_block (preface_of self.old)
            (Some (snapshot_of H.saved (held_by self.old))) ∷ [])) }
    {
        self.commit()?;
        self.base = self.journal.place();
        let Some(block) = self.fitting()? else {
            return Ok(false);
        };
        if !self.journal.room_to_renew(block.len())? {
            return Ok(false);
        }
        self.journal.renew(self.alloc, &block)?;
        self.is_marked = true;
        self.base = self.journal.place();
        Ok(true)
    }

    // The first block of a journal that begins anew now, if the state can be saved, and memory suffices
    // for that and for what is written of it.
    fn fitting(&self) -> Result<Option<Vec<u8>>, KeptError>
        ensures { IfOk result (λ block. IfSome block (λ v. (v.items ≡ first_block
            (preface_of self.now) (Some (snapshot_of H.saved (held_by self.now))))
            × H.is_saveable (held_by self.now).state)) }
    {
        match self.beginning() {
            Ok(Some(block)) => {
                if has_memory(self.alloc, block.len()) {
                    Ok(Some(block))
                } else {
                    Ok(None)
                }
            }
            Ok(None) | Err(KeptError::Memory) => Ok(None),
            Err(error) => Err(error),
        }
    }

    // The first block of a journal that begins anew now, if the state can be saved.
    fn beginning(&self) -> Result<Option<Vec<u8>>, KeptError>
        ensures { IfOk result (λ block. IfSome block (λ v. (v.items ≡ first_block
            (preface_of self.now) (Some (snapshot_of H.saved (held_by self.now))))
            × H.is_saveable (held_by self.now).state)) }
    {
        let preface = filled(self.alloc, &self.preface, self.has_zeros, BEFORE_SNAPSHOT)?;
        let mut block = Vec::new(self.alloc);
        put(&mut block, &preface)?;
        block.extend_from_slice(&self.tokens.to_be_bytes())?;
        block.extend_from_slice(&self.latest.to_be_bytes())?;
        if self.handler.save(&mut block)? {
            Ok(Some(block))
        } else {
            Ok(None)
        }
    }
}

// Whether memory suffices for so many bytes four times: a copy behind its generation, and one as a
// block, which takes as much again and twice that while it grows.
fn has_memory(alloc: Global, len: usize) -> bool {
    let room = len.saturating_mul(4).saturating_add(65_536);
    let copies: Result<Vec<u8>, AllocError> = Vec::with_capacity(alloc, room);
    copies.is_ok()
}
