//! A server begins with what its journal has.
ghost use Rattle.std.specs.Prelude.{◌≡◌, ◌≢◌, ◌⊎◌, ◌+◌, ◌*◌, ◌<◌, ◌^◌, ◌++◌, ◌∷◌, ◌↔◌, ℕ, Option, Some, None, List, length, [], true, false, IsTrue, MatchOption, IfSome, IfOk, OnOk};
ghost use Rattle.std.specs.List.{concat};
ghost use Rattle.http_server.specs.declared.response.Response.{Response};
ghost use Rattle.http_server.specs.Response.{IsBlank};
ghost use Rattle.dav_kept.specs.Records.{IsRecord, record_bytes, token_count};
ghost use Rattle.dav_kept.specs.Kept.{Begins, IsAnswerOf, RecordsFollow, IsRunOf, PlaysRecords, Snapshot, StaysAsKept, StaysInJournal, after, committed, filled, first_block, first_day, held_by, is_new, journal_of, preface_of, snapshot_bytes, snapshot_of, answer_step, base_of, with_batch, with_count, with_first, with_snapshot};
ghost use Rattle.dav_kept.specs.declared.handler.Effect.TheVariants.{Changed};

use crate::error::{KeptError, refusal};
use crate::handler::Handles;
use crate::journal::Keeps;
use crate::kept::Kept;
use crate::kept::saving::{BEFORE_SNAPSHOT, WITHOUT_SNAPSHOT, filled};
use crate::record::{Record, number_in, taken};
use bytes::Bytes;
use http_server::Response;

impl<H: Handles + Drop, J: Keeps + Drop> Kept<H, J> {
    // Plays what the journal has: the first block has to begin with the preface, and the others
    // have records.
    pub(crate) fn replay(&mut self) -> Result<(), KeptError>
        requires is_new { is_new self.old ≡ true }
        requires first { held_by self.old ≡ first_day (held_by self.old).state }
        ensures run { OnOk result ((start : Option Snapshot) × (blocks : List (List ℕ))
            × IsRunOf (answer_step H.answers) H.loads (held_by self.old).state start blocks
            (held_by self.new)
            × (J.is_clean (journal_of self.new) → J.has_so_far (journal_of self.old) []
            → J.has_read (journal_of self.new)
            (with_first (is_new self.new) (first_block (preface_of self.new) start) blocks))
            × (is_new self.new ≡ true → (blocks ≡ []) × (start ≡ None))) }
        ensures batch { OnOk result ((held_by self.new).batch ≡ []) }
        ensures clean { J.is_clean (journal_of self.new) → J.is_clean (journal_of self.old) }
        ensures preface { (preface_of self.new).0 ≡ (preface_of self.old).0 }
        ensures zeros { OnOk result
            (is_new self.new ≡ true → preface_of self.new ≡ preface_of self.old) }
    {
        let place = self.journal.place();
        let Some(block) = self.next_block()? else {
            return Ok(());
        };
        self.start(&block, place)?;
        self.is_new = false;
        self.base = self.journal.place();
        self.play_blocks()
    }

    // Begins with the first block, at this place: the preface, and a snapshot if it has one.
    fn start(&mut self, block: &[u8], place: usize) -> Result<(), KeptError>
        requires { held_by self.old ≡ first_day (held_by self.old).state }
        ensures begins { OnOk result ((start : Option Snapshot)
            × (block.now ≡ first_block (preface_of self.new) start)
            × Begins H.loads (held_by self.old).state start (held_by self.new)) }
        ensures batch { OnOk result ((held_by self.new).batch ≡ []) }
        ensures preface { (preface_of self.new).0 ≡ (preface_of self.old).0 }
        ensures novelty { is_new self.new ≡ is_new self.old }
        ensures journal { journal_of self.new ≡ journal_of self.old }
    {
        let Some((preface, rest)) = taken(block) else {
            return Err(KeptError::Damaged(place));
        };
        if rest.is_empty() {
            return self.see_preface(preface, WITHOUT_SNAPSHOT);
        }
        self.see_preface(preface, BEFORE_SNAPSHOT)?;
        self.load(rest, place)
    }

    // Sees that a first block has the preface, up to so many bytes where zeros stand behind it, and
    // notes whether they do.
    fn see_preface(&mut self, found: &[u8], count: usize) -> Result<(), KeptError>
        ensures found { OnOk result (found.now ≡ filled count (preface_of self.new)) }
        ensures preface { (preface_of self.new).0 ≡ (preface_of self.old).0 }
        ensures held { held_by self.new ≡ held_by self.old }
        ensures novelty { is_new self.new ≡ is_new self.old }
        ensures journal { journal_of self.new ≡ journal_of self.old }
    {
        let with_zeros = filled(self.alloc, &self.preface, true, count)?;
        if found == with_zeros.as_slice() {
            self.has_zeros = true;
            return Ok(());
        }
        if found != self.preface.as_slice() {
            return Err(KeptError::OtherPreface);
        }
        self.has_zeros = false;
        Ok(())
    }

    // Loads the snapshot of the first block, at this place.
    fn load(&mut self, bytes: &[u8], place: usize) -> Result<(), KeptError>
        requires { held_by self.old ≡ first_day (held_by self.old).state }
        ensures loaded { OnOk result ((start : Snapshot) × (bytes.now ≡ snapshot_bytes start)
            × Begins H.loads (held_by self.old).state (Some start) (held_by self.new)) }
        ensures stays { StaysAsKept self.old self.new }
        ensures journal { journal_of self.new ≡ journal_of self.old }
    {
        let Some((tokens, rest)) = number_in(bytes) else {
            return Err(KeptError::Damaged(place));
        };
        let Some((latest, saved)) = number_in(rest) else {
            return Err(KeptError::Damaged(place));
        };
        match self.handler.load(saved) {
            Ok(()) => {}
            Err(error) => return Err(refusal(error, place)),
        }
        self.tokens = tokens;
        self.latest = latest;
        Ok(())
    }

    // The next block of the journal; `None` where none follows.
    fn next_block(&mut self) -> Result<Option<Vec<u8>>, KeptError>
        ensures held { held_by self.new ≡ held_by self.old }
        ensures stays { StaysAsKept self.old self.new }
        ensures clean { J.is_clean (journal_of self.new) → J.is_clean (journal_of self.old) }
        ensures read { IfOk result (λ block. J.is_clean (journal_of self.new)
            → (blocks : List (List ℕ)) → J.has_so_far (journal_of self.old) blocks
            → MatchOption block (J.has_read (journal_of self.new) blocks)
            (λ b. J.has_so_far (journal_of self.new) (blocks ++ b.items ∷ []))) }
    {
        self.journal.next(self.alloc)
    }

    // Plays the blocks of the journal that weren't read yet.
    pub(super) fn play_blocks(&mut self) -> Result<(), KeptError>
        ensures played { OnOk result ((blocks : List (List ℕ))
            × PlaysRecords (answer_step H.answers) (concat blocks) (held_by self.old)
            (held_by self.new)
            × (J.is_clean (journal_of self.new) → (before : List (List ℕ))
            → J.has_so_far (journal_of self.old) before
            → J.has_read (journal_of self.new) (before ++ blocks))) }
        ensures stays { StaysAsKept self.old self.new }
        ensures clean { J.is_clean (journal_of self.new) → J.is_clean (journal_of self.old) }
    {
        for _ in 0..u64::MAX {
            let place = self.journal.place();
            let Some(block) = self.next_block()? else {
                return Ok(());
            };
            self.play_block(&block, place)?;
        }
        Err(KeptError::Disk)
    }

    // Plays the records of the block at this place.
    pub(super) fn play_block(&mut self, block: &[u8], place: usize) -> Result<(), KeptError>
        ensures played { OnOk result
            (PlaysRecords (answer_step H.answers) block.now (held_by self.old) (held_by self.new)) }
        ensures stays { StaysAsKept self.old self.new }
        ensures journal { journal_of self.new ≡ journal_of self.old }
    {
        let mut rest = block;
        while !rest.is_empty() {
            let Some((record, after)) = Record::read(rest) else {
                return Err(KeptError::Damaged(place));
            };
            self.play(&record, place)?;
            rest = after;
        }
        Ok(())
    }

    // Plays a record of the block at this place: the reply has to have the status that it had.
    fn play(&mut self, record: &Record<'_>, place: usize) -> Result<(), KeptError>
        requires { IsRecord record.now }
        ensures played { OnOk result (PlaysRecords (answer_step H.answers) (record_bytes record.now)
            (held_by self.old) (held_by self.new)) }
        ensures stays { StaysAsKept self.old self.new }
        ensures journal { journal_of self.new ≡ journal_of self.old }
    {
        let body = Bytes::copy_from_slice(self.alloc, record.body)?;
        let request = record.request(&body);
        let mut response = Response::new(self.alloc);
        match self.handler.handle(&request, &mut response) {
            Ok(_) => {}
            Err(error) => return Err(refusal(error, place)),
        }
        if response.status.as_u16() != record.status {
            return Err(KeptError::Damaged(place));
        }
        if !self.can_count(&request) {
            return Err(KeptError::Damaged(place));
        }
        self.count(&request);
        Ok(())
    }
}
