//! A server's state goes on with what another one keeps.
ghost use Rattle.std.specs.Prelude.{◌≡◌, ◌++◌, ◌∷◌, [], ℕ, List, true, false, IfOk, OnOk, MatchOption};
ghost use Rattle.std.specs.List.{concat};
ghost use Rattle.dav_kept.specs.Followed.{TakesOver};
ghost use Rattle.dav_kept.specs.Kept.{PlaysRecords, StaysAsKept, answer_step, held_by, is_new, journal_of, preface_of};

use crate::error::KeptError;
use crate::following::Follows;
use crate::handler::Handles;
use crate::journal::Keeps;
use crate::kept::Kept;
use std::alloc::Global;

impl<H: Handles + Drop, J: Follows + Drop> Kept<H, J> {
    /// Plays the blocks that another opening kept behind those that were played, each once, until none
    /// is whole yet. `Damaged` where one that was kept can't be read. False where that one began anew,
    /// or no block was ever read: this one has to be opened anew then. After an error nothing may be
    /// asked.
    pub fn follow(&mut self) -> Result<bool, KeptError>
        ensures played { IfOk result (λ goes. (blocks : List (List ℕ))
            × PlaysRecords (answer_step H.answers) (concat blocks) (held_by self.old)
            (held_by self.new)
            × (goes ≡ true → J.is_clean (journal_of self.new) → (before : List (List ℕ))
            → J.has_so_far (journal_of self.old) before
            → J.has_all (journal_of self.new) (before ++ blocks))) }
        ensures same { IfOk result (λ goes. goes ≡ true → J.is_clean (journal_of self.new)
            → J.is_unturned (journal_of self.new)) }
        ensures stays { StaysAsKept self.old self.new }
        ensures clean { J.is_clean (journal_of self.new) → J.is_clean (journal_of self.old) }
    {
        for _ in 0..u64::MAX {
            let place = self.journal.place();
            let block = self.coming_block()?;
            if self.is_anew()? {
                return Ok(false);
            }
            let Some(block) = block else {
                return Ok(true);
            };
            self.play_block(&block, place)?;
        }
        Err(KeptError::Disk)
    }

    // The next block that another opening kept, where it is whole.
    fn coming_block(&mut self) -> Result<Option<Vec<u8>>, KeptError>
        ensures held { held_by self.new ≡ held_by self.old }
        ensures stays { StaysAsKept self.old self.new }
        ensures clean { J.is_clean (journal_of self.new) → J.is_clean (journal_of self.old) }
        ensures read { IfOk result (λ block. J.is_clean (journal_of self.new)
            → (blocks : List (List ℕ)) → J.has_so_far (journal_of self.old) blocks
            → MatchOption block (J.has_all (journal_of self.new) blocks)
            (λ b. J.has_so_far (journal_of self.new) (blocks ++ b.items ∷ []))) }
    {
        self.journal.follow(self.alloc)
    }

    // Whether another opening began anew.
    fn is_anew(&mut self) -> Result<bool, KeptError>
        ensures held { held_by self.new ≡ held_by self.old }
        ensures stays { StaysAsKept self.old self.new }
        ensures clean { J.is_clean (journal_of self.new) → J.is_clean (journal_of self.old) }
        ensures read { (blocks : List (List ℕ)) → J.has_so_far (journal_of self.old) blocks
            → J.has_so_far (journal_of self.new) blocks }
        ensures all { (blocks : List (List ℕ)) → J.has_all (journal_of self.old) blocks
            → J.has_all (journal_of self.new) blocks }
        ensures same { IfOk result (λ is. is ≡ false → J.is_clean (journal_of self.new)
            → J.is_unturned (journal_of self.new)) }
    {
        self.journal.is_anew()
    }
}

impl<H: Handles + Drop, J: Keeps + Drop> Kept<H, J> {
    /// Goes on over another opening of what was read here, in the place of who kept it: reads its
    /// blocks, without a request of them being run again, until they end where those end that were
    /// played here, and plays the ones that follow. `Damaged` where none ends there. `begin` comes
    /// next.
    pub fn take_over<K: Keeps + Drop>(self, mut journal: K) -> Result<Kept<H, K>, KeptError>
        ensures { IfOk result (λ k. TakesOver H.answers J.ends_at K.is_clean K.has_so_far
            K.has_read K.ends_at self journal k) }
    {
        read_until(self.alloc, &mut journal, self.journal.place())?;
        self.go_on_over(journal)
    }

    /// Goes on over another journal, of which those blocks were read that were played here: plays the
    /// ones that follow, until none does. `begin` comes next.
    pub fn go_on_over<K: Keeps + Drop>(self, journal: K) -> Result<Kept<H, K>, KeptError>
        ensures played { IfOk result (λ k. (blocks : List (List ℕ))
            × PlaysRecords (answer_step H.answers) (concat blocks) (held_by self) (held_by k)
            × (K.is_clean (journal_of k) → (before : List (List ℕ)) → K.has_so_far journal before
            → K.has_read (journal_of k) (before ++ blocks))) }
        ensures batch { IfOk result (λ k. (held_by k).batch ≡ (held_by self).batch) }
        ensures novelty { IfOk result (λ k. is_new k ≡ is_new self) }
        ensures preface { IfOk result (λ k. preface_of k ≡ preface_of self) }
        ensures clean { IfOk result (λ k. K.is_clean (journal_of k) → K.is_clean journal) }
    {
        let Kept {
            alloc,
            handler,
            preface,
            has_zeros,
            is_new,
            base,
            batch,
            tokens,
            latest,
            ..
        } = self;
        let mut kept = Kept {
            alloc,
            handler,
            journal,
            preface,
            has_zeros,
            is_new,
            base,
            is_marked: false,
            quiet: 0,
            batch,
            tokens,
            latest,
        };
        kept.play_blocks()?;
        Ok(kept)
    }
}

// Reads the blocks of a journal that end up to this place: `Damaged` where none ends there.
fn read_until<K: Keeps>(alloc: Global, journal: &mut K, place: usize) -> Result<(), KeptError>
    ensures read { OnOk result ((blocks : List (List ℕ)) × (K.is_clean journal.new
        → (before : List (List ℕ)) → K.has_so_far journal.old before
        → K.has_so_far journal.new (before ++ blocks))) }
    ensures place { OnOk result (K.ends_at journal.new ≡ place) }
    ensures clean { K.is_clean journal.new → K.is_clean journal.old }
{
    for _ in 0..u64::MAX {
        let here = journal.place();
        if here == place {
            return Ok(());
        }
        if here > place {
            return Err(KeptError::Damaged(here));
        }
        let Some(_block) = journal.next(alloc)? else {
            return Err(KeptError::Damaged(here));
        };
    }
    Err(KeptError::Disk)
}
