//! A handler and the journal of what it answered.
ghost use Rattle.std.specs.Prelude.{◌≡◌, ◌≢◌, ◌⊎◌, ◌+◌, ◌*◌, ◌<◌, ◌^◌, ◌++◌, ◌∷◌, ◌↔◌, ℕ, Option, Some, None, List, length, [], true, false, IsTrue, MatchOption, IfSome, IfOk, OnOk};
ghost use Rattle.std.specs.List.{concat};
ghost use Rattle.http_server.specs.declared.response.Response.{Response};
ghost use Rattle.http_server.specs.Response.{IsBlank};
ghost use Rattle.dav_kept.specs.Records.{IsRecord, record_bytes, token_count};
ghost use Rattle.dav_kept.specs.Kept.{Begins, IsAnswerOf, IsBeat, RecordsFollow, IsRunOf, PlaysRecords, Snapshot, StaysAsKept, StaysInJournal, after, committed, first_block, first_day, held_by, is_new, journal_of, preface_of, snapshot_bytes, snapshot_of, answer_step, base_of, with_batch, with_count, with_first, with_opening, with_snapshot};
ghost use Rattle.dav_kept.specs.declared.handler.Effect.TheVariants.{Changed};

mod following;
mod saving;
mod starting;

use crate::batch::Batch;
use crate::error::KeptError;
use crate::handler::{Asks, Effect, Handles};
use crate::journal::Keeps;
use crate::record::Request;
use http_server::Response;
pub use saving::{is_due, plain_block};
use std::alloc::Global;

/// At most so many quiet moments in a row pass without a look at the journal.
const BEAT: u64 = 4;

/// A handler and its journal: the handler's state is that of the run of the records in the
/// journal's blocks and in the batch, from the state that the journal begins with.
#[derive(Drop)]
pub struct Kept<H, J> {
    alloc: Global,
    handler: H,
    journal: J,
    /// What the first block of the journal begins with.
    preface: Vec<u8>,
    /// Whether zeros stand behind that: not in a journal from before.
    has_zeros: bool,
    /// Whether the journal has no block.
    is_new: bool,
    /// Where the blocks ended when a snapshot was last made or tried; at a start, where the first one
    /// ends.
    base: usize,
    /// Whether the loss of its last block would be seen.
    is_marked: bool,
    /// How many quiet moments in a row passed without a look at the journal.
    quiet: u64,
    /// The records since the last commit.
    batch: Batch,
    /// How many of all records have a token.
    tokens: u64,
    /// The latest moment of all records.
    latest: u64,
}

impl<H: Handles + Drop, J: Keeps + Drop> Kept<H, J> {
    /// A server whose state is that of the run of the records in the blocks of a journal, from that
    /// of this handler, or from the snapshot in the first block. The first block begins with the
    /// preface, behind which zeros stand unless the journal is one from before: `OtherPreface` where
    /// it is another. `Damaged` where the first block or a snapshot is none, where a block has no
    /// records, where the handler takes a request of them for none, or where a reply has another
    /// status than its record.
    pub fn open(
        alloc: Global,
        handler: H,
        journal: J,
        preface: &[u8],
    ) -> Result<Kept<H, J>, KeptError>
        ensures run { IfOk result (λ k. (start : Option Snapshot) × (blocks : List (List ℕ))
            × IsRunOf (answer_step H.answers) H.loads handler start blocks (held_by k)
            × (J.is_clean (journal_of k) → J.has_so_far journal []
            → J.has_read (journal_of k)
            (with_first (is_new k) (first_block (preface_of k) start) blocks))
            × (is_new k ≡ true → (blocks ≡ []) × (start ≡ None))) }
        ensures empty { IfOk result (λ k. (held_by k).batch ≡ []) }
        ensures clean { IfOk result (λ k. J.is_clean (journal_of k) → J.is_clean journal) }
        ensures preface { IfOk result (λ k. (preface_of k).0 ≡ preface.now) }
        ensures zeros { IfOk result (λ k. is_new k ≡ true → (preface_of k).1 ≡ true) }
    {
        let mut kept = Kept {
            alloc,
            handler,
            journal,
            preface: Vec::from_slice(alloc, preface)?,
            has_zeros: true,
            is_new: true,
            base: 0,
            is_marked: false,
            quiet: 0,
            batch: Batch::new(alloc),
            tokens: 0,
            latest: 0,
        };
        kept.replay()?;
        Ok(kept)
    }

    // Whether the token of a request can be counted.
    fn can_count(&self, request: &Request<'_>) -> bool
        ensures { IsTrue result
            ↔ ((held_by self.now).tokens + token_count request.now.token < 2 ^ 64) }
    {
        let tokens = self.tokens;
        match request.token {
            Some(_) => tokens < u64::MAX,
            None => true,
        }
    }

    // Counts the token of a request, and notes its moment.
    fn count(&mut self, request: &Request<'_>)
        requires { (held_by self.old).tokens + token_count request.now.token < 2 ^ 64 }
        ensures held { held_by self.new ≡ with_count (held_by self.old) request.now }
        ensures stays { StaysAsKept self.old self.new }
        ensures journal { journal_of self.new ≡ journal_of self.old }
    {
        self.latest = self.latest.max(request.moment);
        if request.token.is_some() {
            self.tokens += 1;
        }
    }

    /// How many bytes of the journal's file `begin` drops, and after which place: what a crash left
    /// of a block that was never kept. 0 where none follow but zeros.
    pub fn rest(&mut self) -> Result<(usize, usize), KeptError>
        ensures place { IfOk result (λ p. p.0 ≡ J.ends_at (journal_of self.new)) }
        ensures held { held_by self.new ≡ held_by self.old }
        ensures stays { StaysAsKept self.old self.new }
        ensures clean { J.is_clean (journal_of self.new) → J.is_clean (journal_of self.old) }
        ensures read { (blocks : List (List ℕ)) → J.has_read (journal_of self.old) blocks
            → J.has_read (journal_of self.new) blocks }
    {
        let count = self.journal.rest()?;
        Ok((self.journal.place(), count))
    }

    /// Reads bytes of the journal's file from this place on.
    pub fn read(&mut self, at: usize, piece: &mut [u8]) -> Result<(), KeptError>
        ensures bytes { OnOk result (J.is_clean (journal_of self.new) → 0 < length piece.old
            → J.has_bytes (journal_of self.old) at piece.new) }
        ensures held { held_by self.new ≡ held_by self.old }
        ensures stays { StaysAsKept self.old self.new }
        ensures clean { J.is_clean (journal_of self.new) → J.is_clean (journal_of self.old) }
        ensures read { (blocks : List (List ℕ)) → J.has_read (journal_of self.old) blocks
            → J.has_read (journal_of self.new) blocks }
    {
        self.journal.read(at, piece)
    }

    /// Makes the journal ready for requests: drops what isn't whole, and notes this opening by a block,
    /// behind which no earlier opening keeps one. That of a new journal is the first, which has the
    /// preface alone; of another it has no record. False where the disk has no room for it.
    pub fn begin(&mut self) -> Result<bool, KeptError>
        ensures held { held_by self.new ≡ held_by self.old }
        ensures clean { J.is_clean (journal_of self.new) → J.is_clean (journal_of self.old) }
        ensures preface { preface_of self.new ≡ preface_of self.old }
        ensures begun { OnOk result (is_new self.new ≡ false) }
        ensures noted { is_new self.old ≡ true → IfOk result (λ is_noted. IsTrue is_noted) }
        ensures first { is_new self.old ≡ true → OnOk result (J.is_clean (journal_of self.new)
            → J.has_read (journal_of self.old) []
            → J.kept (journal_of self.new) (first_block (preface_of self.old) None ∷ [])) }
        ensures again { is_new self.old ≡ false → IfOk result (λ is_noted.
            J.is_clean (journal_of self.new) → (blocks : List (List ℕ))
            → J.has_read (journal_of self.old) blocks
            → J.kept (journal_of self.new) (with_opening is_noted blocks)) }
    {
        let first = plain_block(self.alloc, &self.preface, self.has_zeros)?;
        self.journal.begin()?;
        if self.is_new {
            self.journal.keep(self.alloc, &first)?;
            self.is_new = false;
            self.base = self.journal.place();
            return Ok(true);
        }
        self.note_opening()
    }

    // Keeps a block without a record. False where the disk has no room for it.
    fn note_opening(&mut self) -> Result<bool, KeptError>
        ensures held { held_by self.new ≡ held_by self.old }
        ensures stays { StaysAsKept self.old self.new }
        ensures clean { J.is_clean (journal_of self.new) → J.is_clean (journal_of self.old) }
        ensures kept { IfOk result (λ is_noted. (blocks : List (List ℕ))
            → J.kept (journal_of self.old) blocks
            → J.kept (journal_of self.new) (with_opening is_noted blocks)) }
    {
        if !self.journal.room(0)? {
            return Ok(false);
        }
        self.journal.keep(self.alloc, b"")?;
        Ok(true)
    }

    /// Answers a request. The record of one that changed the state is in the batch. `None` where
    /// there is no room for its record, on the disk or among the tokens that can be counted:
    /// nothing is done then, and the client is told so (507: RFC 4918, section 11.5).
    pub fn answer(
        &mut self,
        request: &Request<'_>,
        response: &mut Response,
    ) -> Result<Option<Effect>, KeptError>
        requires { IsBlank response.old }
        ensures answered { IfOk result (λ effect. MatchOption effect
            ((held_by self.new ≡ held_by self.old) × (response.new ≡ response.old))
            (λ e. IsAnswerOf H.answers (held_by self.old) request.now response.new e
            (held_by self.new))) }
        ensures follows { OnOk result
            (RecordsFollow (answer_step H.answers) (held_by self.old) (held_by self.new)) }
        ensures stays { StaysInJournal self.old self.new }
        ensures clean { J.is_clean (journal_of self.new) → J.is_clean (journal_of self.old) }
        ensures kept { (blocks : List (List ℕ)) → J.kept (journal_of self.old) blocks
            → J.kept (journal_of self.new) blocks }
    {
        if !self.has_room(request)? {
            return Ok(None);
        }
        let effect = self.handler.handle(request, response)?;
        if effect == Effect::Changed {
            self.add(request, response.status.as_u16())?;
        }
        Ok(Some(effect))
    }

    // Whether the record of a request can be kept, and its token be counted.
    fn has_room(&mut self, request: &Request<'_>) -> Result<bool, KeptError>
        ensures held { held_by self.new ≡ held_by self.old }
        ensures stays { StaysInJournal self.old self.new }
        ensures counts { IfOk result (λ b. IsTrue b
            → (held_by self.old).tokens + token_count request.now.token < 2 ^ 64) }
        ensures clean { J.is_clean (journal_of self.new) → J.is_clean (journal_of self.old) }
        ensures kept { (blocks : List (List ℕ)) → J.kept (journal_of self.old) blocks
            → J.kept (journal_of self.new) blocks }
    {
        if !self.can_count(request) {
            return Ok(false);
        }
        self.journal
            .room(self.batch.len().saturating_add(request.size()))
    }

    // Adds the record of a request to the batch: its reply had this status.
    fn add(&mut self, request: &Request<'_>, status: u16) -> Result<(), KeptError>
        requires { (held_by self.old).tokens + token_count request.now.token < 2 ^ 64 }
        ensures held { OnOk result (held_by self.new ≡ after (held_by self.old)
            (record { request = request.now; status = status }) Changed (held_by self.old).state) }
        ensures is { IsRecord (record { request = request.now; status = status }) }
        ensures stays { StaysInJournal self.old self.new }
        ensures journal { journal_of self.new ≡ journal_of self.old }
    {
        self.batch.add(&request.record(status), request.body)?;
        self.count(request);
        Ok(())
    }

    /// Answers a request that only reads (RFC 9110, section 9.2.1): it is never recorded. `Changed`
    /// where it changed the state.
    pub fn answer_safe(
        &mut self,
        request: &Request<'_>,
        response: &mut Response,
    ) -> Result<(), KeptError>
        requires { IsBlank response.old }
        ensures answered { OnOk result (H.answers (held_by self.old).state request.now response.new
            (held_by self.new).state) }
        ensures held { OnOk result (held_by self.new ≡ held_by self.old) }
        ensures stays { StaysInJournal self.old self.new }
        ensures journal { journal_of self.new ≡ journal_of self.old }
    {
        match self.handler.handle(request, response)? {
            Effect::Left => Ok(()),
            Effect::Changed => Err(KeptError::Changed),
        }
    }

    /// Has the handler asked something beside its records: all is as it was.
    pub fn ask<A: Asks<H>>(
        &mut self,
        what: &A,
        request: &Request<'_>,
        response: &mut Response,
    ) -> Result<(), KeptError>
        requires { IsBlank response.old }
        ensures told { OnOk result
            (A.tells what.now (held_by self.old).state request.now response.new) }
        ensures held { OnOk result (held_by self.new ≡ held_by self.old) }
        ensures stays { StaysInJournal self.old self.new }
        ensures journal { journal_of self.new ≡ journal_of self.old }
    {
        Ok(what.ask(&mut self.handler, request, response)?)
    }

    /// Keeps the batch as one block; where it is empty there is nothing to keep. At `Ok` each
    /// request that was answered is kept, and no other opening had gone on with the journal.
    pub fn commit(&mut self) -> Result<(), KeptError>
        ensures held { OnOk result (held_by self.new ≡ committed (held_by self.old)) }
        ensures stays { StaysInJournal self.old self.new }
        ensures clean { J.is_clean (journal_of self.new) → J.is_clean (journal_of self.old) }
        ensures kept { OnOk result ((blocks : List (List ℕ)) → J.kept (journal_of self.old) blocks
            → J.kept (journal_of self.new) (with_batch blocks (held_by self.old).batch)) }
        ensures own { OnOk result ((held_by self.old).batch ≢ []
            → J.is_clean (journal_of self.new) → J.is_own (journal_of self.old)) }
        ensures nothing { (held_by self.old).batch ≡ []
            → journal_of self.new ≡ journal_of self.old }
        ensures any_moment { (held_by self.old).batch ≢ [] → (blocks : List (List ℕ))
            → J.kept (journal_of self.old) blocks → J.leaves (journal_of self.new) blocks
            (with_batch blocks (held_by self.old).batch) }
    {
        if self.batch.is_empty() {
            return Ok(());
        }
        let (text, body) = self.batch.parts();
        self.journal.keep_both(self.alloc, text, body)?;
        self.batch.empty(self.alloc);
        self.is_marked = false;
        Ok(())
    }

    /// Makes sure, in a quiet moment, that the loss of what was committed would be seen; and in each
    /// fifth one without that sees whether another opening went on with the journal, and whether its
    /// disk still keeps what it is told.
    pub fn keep_mark(&mut self) -> Result<(), KeptError>
        ensures held { held_by self.new ≡ held_by self.old }
        ensures stays { StaysInJournal self.old self.new }
        ensures clean { J.is_clean (journal_of self.new) → J.is_clean (journal_of self.old) }
        ensures kept { OnOk result ((blocks : List (List ℕ)) → J.kept (journal_of self.old) blocks
            → J.kept (journal_of self.new) blocks) }
        ensures beat { OnOk result (IsBeat J.is_clean J.is_own J.is_synced self.old self.new) }
    {
        if self.is_marked && self.quiet < BEAT {
            self.quiet += 1;
            return Ok(());
        }
        self.journal.keep_mark()?;
        self.is_marked = true;
        self.quiet = 0;
        Ok(())
    }

    /// Ends the server: its journal, which has what was committed.
    pub fn end(self) -> J
        ensures { result ≡ journal_of self }
    {
        let Kept { journal, .. } = self;
        journal
    }

    /// Whether the journal is to begin anew: its blocks take more than so many bytes, and more than
    /// twice what they took when a snapshot was last made or tried.
    pub fn is_long(&self, least: usize) -> bool
        ensures { IsTrue result ↔ (least < J.ends_at (journal_of self.now))
            × (2 * base_of self.now < J.ends_at (journal_of self.now)) }
    {
        is_due(self.journal.place(), self.base, least)
    }

    /// Whether the journal had no block when it was read, and isn't begun yet: nothing was ever kept.
    pub fn is_new(&self) -> bool
        ensures { result ≡ is_new self.now }
    {
        self.is_new
    }

    /// Whether all that was answered is kept: the batch is empty.
    pub fn is_at_rest(&self) -> bool
        ensures { IsTrue result ↔ ((held_by self.now).batch ≡ []) }
    {
        self.batch.is_empty()
    }

    /// How many of all records have a token.
    pub fn tokens(&self) -> u64
        ensures { result ≡ (held_by self.now).tokens }
    {
        self.tokens
    }

    /// The latest moment of all records, 0 where there are none.
    pub fn latest(&self) -> u64
        ensures { result ≡ (held_by self.now).latest }
    {
        self.latest
    }

    /// The handler.
    pub fn handler(&self) -> &H
        ensures { result.now ≡ (held_by self.now).state }
    {
        &self.handler
    }
}
