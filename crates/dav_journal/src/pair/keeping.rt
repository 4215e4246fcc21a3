//! Blocks are kept in the file that counts, and what is kept begins anew in the other one.
ghost use Rattle.std.specs.Prelude.{◌≡◌, ◌≢◌, ◌⊎◌, ◌≤◌, ◌<◌, ◌+◌, ◌^◌, ◌++◌, ◌∷◌, [], ℕ, List, Option, length, slice_index, IsTrue, IfOk, IfSome, OnOk, IsErrOf, MatchOption};
ghost use Rattle.std.specs.Int.{w64, to_be_bytes};
ghost use Rattle.sqlite_disk.specs.Disk.{Holds};
ghost use Rattle.dav_journal.specs.File.{Recovers};
ghost use Rattle.dav_journal.specs.declared.error.JournalError.TheVariants.{Damaged};
ghost use Rattle.dav_journal.specs.Journal.{HasRead, IsClean, IsReading, IsSynced, OnlyReads, blocks_end, blocks_len, disk_of, file_of};
ghost use Rattle.dav_journal.specs.Pair.{HasFirst, HasReadPair, IsAsRead, IsCleanPair, IsKeptPair, IsMixingPair, IsOwnPair, IsReadingPair, OnlyLooksPair, OnlyReadsPair, PairLeaves, PairLeavesOnly, PairRecovers, PairStandsFor, StaysPair, WereOpened, counting, generation_of, spare_of};

use crate::block::START;
use crate::error::JournalError;
use crate::pair::Pair;
use sqlite_disk::Disk;
use std::alloc::{AllocError, Global};

/// The bytes of a generation, before the first content.
const GENERATION: usize = 8;

impl<D: Disk + Drop> Pair<D> {
    /// Makes the end of the blocks that were read the end of the file that counts, and drops all
    /// blocks of the other one. `Passed` where another opening went on with the files since they were
    /// read, which are only read then.
    pub fn cut(&mut self) -> Result<(), JournalError>
        ensures clean { IsCleanPair D.Disk self.new → IsCleanPair D.Disk self.old }
        ensures kept { OnOk result (IsCleanPair D.Disk self.new → (contents : List (List ℕ))
            → HasReadPair D.Disk self.old contents → IsKeptPair D.Disk self.new contents) }
        ensures any_moment { IsCleanPair D.Disk self.new → (contents : List (List ℕ))
            → HasReadPair D.Disk self.old contents → PairLeavesOnly D.Disk self.old contents
            → PairLeavesOnly D.Disk self.new contents }
        ensures same { OnOk result (IsCleanPair D.Disk self.new → IsAsRead D.Disk self.old) }
        ensures passed { IsCleanPair D.Disk self.new
            → OnlyReadsPair D.Disk self.old self.new ⊎ IsAsRead D.Disk self.old }
    {
        self.look_again()?;
        self.cut_rest()
    }

    // Sees that no other opening went on with the files since they were read: `Passed` where one did.
    fn look_again(&mut self) -> Result<(), JournalError>
        ensures reads { OnlyReadsPair D.Disk self.old self.new }
        ensures read { (contents : List (List ℕ)) → HasReadPair D.Disk self.old contents
            → HasReadPair D.Disk self.new contents }
        ensures same { OnOk result (IsCleanPair D.Disk self.new → IsAsRead D.Disk self.old) }
    {
        self.counts.see_same_end()?;
        if self.counts.len() == START {
            return self.spare.see_same_end();
        }
        self.counts.see_begin(self.generation.to_be_bytes())
    }

    // Drops what follows the blocks that were read, and all blocks of the other file.
    fn cut_rest(&mut self) -> Result<(), JournalError>
        ensures clean { IsCleanPair D.Disk self.new → IsCleanPair D.Disk self.old }
        ensures kept { OnOk result (IsCleanPair D.Disk self.new → (contents : List (List ℕ))
            → HasReadPair D.Disk self.old contents → IsKeptPair D.Disk self.new contents) }
        ensures any_moment { IsCleanPair D.Disk self.new → (contents : List (List ℕ))
            → HasReadPair D.Disk self.old contents → PairLeavesOnly D.Disk self.old contents
            → PairLeavesOnly D.Disk self.new contents }
    {
        self.counts.cut()?;
        self.counts.keep_mark()?;
        self.spare.clear()
    }

    // Sees that no other opening went on with the files: `Passed` where one did.
    fn look(&mut self) -> Result<(), JournalError>
        ensures looks { OnlyLooksPair D.Disk self.old self.new }
        ensures own { OnOk result (IsCleanPair D.Disk self.new → IsOwnPair D.Disk self.old) }
    {
        self.counts.see_own(self.generation.to_be_bytes())?;
        self.spare.see_shut()
    }

    /// Makes room for a block of so many bytes. `NoRoom` where the disk has none; the pair is as it
    /// was then. `Passed` where another opening went on with the files, which are only read then.
    pub fn room(&mut self, count: usize) -> Result<(), JournalError>
        ensures clean { IsCleanPair D.Disk self.new → IsCleanPair D.Disk self.old }
        ensures kept { (contents : List (List ℕ)) → IsKeptPair D.Disk self.old contents
            → IsKeptPair D.Disk self.new contents }
        ensures passed { IsCleanPair D.Disk self.new
            → OnlyReadsPair D.Disk self.old self.new ⊎ IsOwnPair D.Disk self.old }
    {
        let count = count.saturating_add(GENERATION);
        if self.counts.fits(count) {
            return Ok(());
        }
        self.look()?;
        self.make_room(count)
    }

    // Makes room in the file that counts.
    fn make_room(&mut self, count: usize) -> Result<(), JournalError>
        ensures clean { IsCleanPair D.Disk self.new → IsCleanPair D.Disk self.old }
        ensures kept { (contents : List (List ℕ)) → IsKeptPair D.Disk self.old contents
            → IsKeptPair D.Disk self.new contents }
    {
        self.counts.room(count)
    }

    /// Makes room to begin anew with a content of so many bytes. `NoRoom` where the disk has none;
    /// the pair is as it was then. `Passed` as that of `room`.
    pub fn room_to_renew(&mut self, count: usize) -> Result<(), JournalError>
        ensures clean { IsCleanPair D.Disk self.new → IsCleanPair D.Disk self.old }
        ensures kept { (contents : List (List ℕ)) → IsKeptPair D.Disk self.old contents
            → IsKeptPair D.Disk self.new contents }
        ensures passed { IsCleanPair D.Disk self.new
            → OnlyReadsPair D.Disk self.old self.new ⊎ IsOwnPair D.Disk self.old }
    {
        self.look()?;
        self.make_room_to_renew(count.saturating_add(GENERATION))
    }

    // Makes room in the other file.
    fn make_room_to_renew(&mut self, count: usize) -> Result<(), JournalError>
        ensures clean { IsCleanPair D.Disk self.new → IsCleanPair D.Disk self.old }
        ensures kept { (contents : List (List ℕ)) → IsKeptPair D.Disk self.old contents
            → IsKeptPair D.Disk self.new contents }
    {
        self.spare.room(count)
    }

    /// Writes a block of this content after the others, and makes sure that it is kept. `Passed`
    /// where another opening went on with the files, which are only read then. After an error, but
    /// for `Memory`, nothing more may be asked.
    pub fn keep(&mut self, alloc: Global, content: &[u8]) -> Result<(), JournalError>
        ensures clean { IsCleanPair D.Disk self.new → IsCleanPair D.Disk self.old }
        ensures kept { OnOk result ((contents : List (List ℕ))
            → IsKeptPair D.Disk self.old contents
            → IsKeptPair D.Disk self.new (contents ++ content.now ∷ [])) }
        ensures any_moment { (contents : List (List ℕ)) → IsKeptPair D.Disk self.old contents
            → PairLeaves D.Disk self.new contents (contents ++ content.now ∷ []) }
        ensures own { OnOk result (IsCleanPair D.Disk self.new → IsOwnPair D.Disk self.old) }
        ensures passed { IsCleanPair D.Disk self.new
            → OnlyReadsPair D.Disk self.old self.new ⊎ IsOwnPair D.Disk self.old }
    {
        self.look()?;
        self.add(alloc, content, &[])
    }

    /// The same, of a content that is in two parts, of which the second one is written from where it
    /// is: no copy of it is made.
    pub fn keep_both(
        &mut self,
        alloc: Global,
        content: &[u8],
        body: &[u8],
    ) -> Result<(), JournalError>
        ensures clean { IsCleanPair D.Disk self.new → IsCleanPair D.Disk self.old }
        ensures kept { OnOk result ((contents : List (List ℕ))
            → IsKeptPair D.Disk self.old contents
            → IsKeptPair D.Disk self.new (contents ++ (content.now ++ body.now) ∷ [])) }
        ensures any_moment { (contents : List (List ℕ)) → IsKeptPair D.Disk self.old contents
            → PairLeaves D.Disk self.new contents
            (contents ++ (content.now ++ body.now) ∷ []) }
        ensures own { OnOk result (IsCleanPair D.Disk self.new → IsOwnPair D.Disk self.old) }
        ensures passed { IsCleanPair D.Disk self.new
            → OnlyReadsPair D.Disk self.old self.new ⊎ IsOwnPair D.Disk self.old }
    {
        self.look()?;
        self.add(alloc, content, body)
    }

    // Writes a block after the others, of a content that is in two parts.
    fn add(&mut self, alloc: Global, content: &[u8], body: &[u8]) -> Result<(), JournalError>
        ensures clean { IsCleanPair D.Disk self.new → IsCleanPair D.Disk self.old }
        ensures kept { OnOk result ((contents : List (List ℕ))
            → IsKeptPair D.Disk self.old contents
            → IsKeptPair D.Disk self.new (contents ++ (content.now ++ body.now) ∷ [])) }
        ensures any_moment { (contents : List (List ℕ)) → IsKeptPair D.Disk self.old contents
            → PairLeaves D.Disk self.new contents
            (contents ++ (content.now ++ body.now) ∷ []) }
    {
        if self.counts.len() == START {
            let block = first_block(alloc, self.generation, content)?;
            return self.counts.keep_both(alloc, &block, body);
        }
        self.counts.keep_both(alloc, content, body)
    }

    /// Makes sure, in a quiet moment, that the mark of the last block is kept too, as the next
    /// `keep` does otherwise. `Passed` as that of `keep`. After an error nothing more may be asked.
    pub fn keep_mark(&mut self) -> Result<(), JournalError>
        ensures clean { IsCleanPair D.Disk self.new → IsCleanPair D.Disk self.old }
        ensures kept { OnOk result ((contents : List (List ℕ))
            → IsKeptPair D.Disk self.old contents → IsKeptPair D.Disk self.new contents) }
        ensures any_moment { (contents : List (List ℕ)) → IsKeptPair D.Disk self.old contents
            → PairLeavesOnly D.Disk self.new contents }
        ensures synced { OnOk result (IsSynced D.Disk (counting self.new)) }
        ensures own { OnOk result (IsCleanPair D.Disk self.new → IsOwnPair D.Disk self.old) }
    {
        self.look()?;
        self.sync_mark()
    }

    // Makes sure that what was written to the file that counts is kept.
    fn sync_mark(&mut self) -> Result<(), JournalError>
        ensures clean { IsCleanPair D.Disk self.new → IsCleanPair D.Disk self.old }
        ensures kept { OnOk result ((contents : List (List ℕ))
            → IsKeptPair D.Disk self.old contents → IsKeptPair D.Disk self.new contents) }
        ensures any_moment { (contents : List (List ℕ)) → IsKeptPair D.Disk self.old contents
            → PairLeavesOnly D.Disk self.new contents }
        ensures synced { OnOk result (IsSynced D.Disk (counting self.new)) }
    {
        self.counts.keep_mark()
    }

    /// Begins anew: this content takes the place of all that is kept. It becomes the first block of
    /// the other file, which counts from then on; the blocks of the first one are dropped. `Passed`
    /// as that of `keep`. After an error, but for `Memory`, nothing more may be asked.
    pub fn renew(&mut self, alloc: Global, content: &[u8]) -> Result<(), JournalError>
        ensures clean { IsCleanPair D.Disk self.new → IsCleanPair D.Disk self.old }
        ensures kept { OnOk result (IsCleanPair D.Disk self.new → (contents : List (List ℕ))
            → IsKeptPair D.Disk self.old contents
            → IsKeptPair D.Disk self.new (content.now ∷ [])) }
        ensures any_moment { IsCleanPair D.Disk self.new → (contents : List (List ℕ))
            → IsKeptPair D.Disk self.old contents
            → PairLeaves D.Disk self.new contents (content.now ∷ []) }
        ensures own { OnOk result (IsCleanPair D.Disk self.new → IsOwnPair D.Disk self.old) }
        ensures passed { IsCleanPair D.Disk self.new
            → OnlyReadsPair D.Disk self.old self.new ⊎ IsOwnPair D.Disk self.old }
    {
        self.look()?;
        self.begin_anew(alloc, content)
    }

    // Has this content take the place of all that is kept.
    fn begin_anew(&mut self, alloc: Global, content: &[u8]) -> Result<(), JournalError>
        ensures clean { IsCleanPair D.Disk self.new → IsCleanPair D.Disk self.old }
        ensures kept { OnOk result (IsCleanPair D.Disk self.new → (contents : List (List ℕ))
            → IsKeptPair D.Disk self.old contents
            → IsKeptPair D.Disk self.new (content.now ∷ [])) }
        ensures any_moment { IsCleanPair D.Disk self.new → (contents : List (List ℕ))
            → IsKeptPair D.Disk self.old contents
            → PairLeaves D.Disk self.new contents (content.now ∷ []) }
    {
        let Some(generation) = self.generation.checked_add(1) else {
            return Err(JournalError::NoRoom);
        };
        self.spare.drop_late_marks()?;
        self.spare
            .keep_both(alloc, &generation.to_be_bytes(), content)?;
        self.spare.keep_mark()?;
        self.turn(generation);
        self.spare.clear()
    }
}

// The first block of a file of this generation, with this content.
pub fn first_block(alloc: Global, generation: u64, content: &[u8]) -> Result<Vec<u8>, AllocError>
    ensures { IfOk result (λ v. v.items ≡ to_be_bytes w64 generation ++ content.now) }
{
    let mut block = Vec::new(alloc);
    block.extend_from_slice(&generation.to_be_bytes())?;
    block.extend_from_slice(content)?;
    Ok(block)
}
