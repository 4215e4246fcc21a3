//! A pair of journals of dav_journal keeps blocks.
ghost use Rattle.dav_journal.specs.Journal.{IsSynced, blocks_end, file_of};
ghost use Rattle.dav_journal.specs.Pair.{HasAllPair, HasReadPair, IsCleanPair, IsKeptPair, IsOwnPair, IsReadingPair, IsUnturned, PairLeaves, counting};
ghost use Rattle.sqlite_disk.specs.Disk.{Holds};
ghost use Rattle.dav_journal.proofs.BlockLemmas.{rests_recovers};
ghost use Rattle.dav_journal.proofs.PairLemmas.{pair_alone};
ghost use Rattle.std.proofs.Common.{inl, inr};

use crate::error::KeptError;
use crate::following::Follows;
use crate::journal::Keeps;
use dav_journal::{JournalError, Pair};
use sqlite_disk::Disk;
use std::alloc::Global;

impl<D: Disk + Drop> Keeps for Pair<D> {
    ghost is_clean = { λ p. IsCleanPair D.Disk p };

    ghost has_so_far = { λ p blocks. IsReadingPair D.Disk p blocks };

    ghost has_read = { λ p blocks. HasReadPair D.Disk p blocks };

    ghost kept = { λ p blocks. IsKeptPair D.Disk p blocks };

    ghost is_synced = { λ p. IsSynced D.Disk (counting p) };

    ghost is_own = { λ p. IsOwnPair D.Disk p };

    ghost ends_at = { λ p. blocks_end (counting p) };

    ghost has_bytes = { λ p at bytes. Holds (file_of D.Disk (counting p)) at bytes };

    ghost leaves = { λ p one other. PairLeaves D.Disk p one other };

    fn next(&mut self, alloc: Global) -> Result<Option<Vec<u8>>, KeptError> {
        Ok(Pair::next(self, alloc)?)
    }

    fn place(&self) -> usize {
        self.len()
    }

    fn rest(&mut self) -> Result<usize, KeptError> {
        Ok(Pair::rest(self)?)
    }

    fn read(&mut self, at: usize, piece: &mut [u8]) -> Result<(), KeptError> {
        Ok(Pair::read(self, at, piece)?)
    }

    fn begin(&mut self) -> Result<(), KeptError> {
        Ok(self.cut()?)
    }

    fn room(&mut self, size: usize) -> Result<bool, KeptError> {
        match Pair::room(self, size) {
            Ok(()) => Ok(true),
            Err(JournalError::NoRoom) => Ok(false),
            Err(error) => Err(error.into()),
        }
    }

    fn keep(&mut self, alloc: Global, block: &[u8]) -> Result<(), KeptError> {
        Ok(Pair::keep(self, alloc, block)?)
    }

    fn keep_both(&mut self, alloc: Global, block: &[u8], body: &[u8]) -> Result<(), KeptError> {
        Ok(Pair::keep_both(self, alloc, block, body)?)
    }

    fn room_to_renew(&mut self, size: usize) -> Result<bool, KeptError> {
        match Pair::room_to_renew(self, size) {
            Ok(()) => Ok(true),
            Err(JournalError::NoRoom) => Ok(false),
            Err(error) => Err(error.into()),
        }
    }

    fn renew(&mut self, alloc: Global, block: &[u8]) -> Result<(), KeptError> {
        Ok(Pair::renew(self, alloc, block)?)
    }

    fn keep_mark(&mut self) -> Result<(), KeptError> {
        Ok(Pair::keep_mark(self)?)
    }

    ghost kept_is_left = { λ p blocks others kept. (
      (λ c d may might. inl (pair_alone c d _ blocks kept.small
          (rests_recovers _ _ _ _ _ kept.kept.small (kept.kept.outcomes c may))
          (rests_recovers _ _ _ _ _ kept.spare.small (kept.spare.outcomes d might)))),
      (λ c d may might. inr (pair_alone c d _ blocks kept.small
          (rests_recovers _ _ _ _ _ kept.kept.small (kept.kept.outcomes c may))
          (rests_recovers _ _ _ _ _ kept.spare.small (kept.spare.outcomes d might)))),
    ) };
}

impl<D: Disk + Drop> Follows for Pair<D> {
    ghost is_unturned = { λ p. IsUnturned D.Disk p };

    ghost has_all = { λ p blocks. HasAllPair D.Disk p blocks };

    fn follow(&mut self, alloc: Global) -> Result<Option<Vec<u8>>, KeptError> {
        Ok(Pair::follow(self, alloc)?)
    }

    fn is_anew(&mut self) -> Result<bool, KeptError> {
        Ok(Pair::is_anew(self)?)
    }

    ghost read_is_all = { λ p blocks read. record {
      reading = record { small = read.small; reading = read.read.reading; spare = read.spare };
      all = λ _. read;
    } };

    ghost all_is_so_far = { λ p blocks all. all.reading };
}
