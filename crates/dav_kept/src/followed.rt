//! Blocks that another opening keeps are read, and none is kept here.
ghost use Rattle.std.specs.Prelude.{◌≡◌, ⊤};
ghost use Rattle.dav_kept.specs.Followed.{followed_by};

use crate::error::KeptError;
use crate::following::Follows;
use crate::journal::Keeps;
use std::alloc::Global;

/// The blocks that another opening keeps, read as they come. Nothing is kept here: there is never
/// room for a block.
#[derive(Drop)]
pub struct Followed<J> {
    journal: J,
    /// Whether a block was read.
    has_first: bool,
}

impl<J> Followed<J> {
    /// The blocks of a journal of which none was read yet.
    pub fn new(journal: J) -> Followed<J>
        ensures { followed_by result ≡ journal }
    {
        Followed {
            journal,
            has_first: false,
        }
    }
}

impl<J: Follows> Keeps for Followed<J> {
    ghost is_clean = { λ f. J.is_clean (followed_by f) };

    ghost has_so_far = { λ f blocks. J.has_so_far (followed_by f) blocks };

    // More may come at any time.
    ghost has_read = { λ f blocks. J.has_all (followed_by f) blocks };

    ghost kept = { λ _ _. ⊥ };

    ghost leaves = { λ _ _ _. ⊤ };

    ghost is_synced = { λ f. J.is_synced (followed_by f) };

    ghost is_own = { λ f. J.is_own (followed_by f) };

    ghost ends_at = { λ f. J.ends_at (followed_by f) };

    ghost has_bytes = { λ f at bytes. J.has_bytes (followed_by f) at bytes };

    fn next(&mut self, alloc: Global) -> Result<Option<Vec<u8>>, KeptError> {
        if self.has_first {
            return self.journal.follow(alloc);
        }
        let first = self.journal.next(alloc)?;
        self.has_first = first.is_some();
        Ok(first)
    }

    fn place(&self) -> usize {
        self.journal.place()
    }

    fn rest(&mut self) -> Result<usize, KeptError> {
        Err(KeptError::Disk)
    }

    fn read(&mut self, _at: usize, _piece: &mut [u8]) -> Result<(), KeptError> {
        Err(KeptError::Disk)
    }

    fn begin(&mut self) -> Result<(), KeptError> {
        Err(KeptError::Disk)
    }

    fn room(&mut self, _size: usize) -> Result<bool, KeptError> {
        Ok(false)
    }

    fn keep(&mut self, _alloc: Global, _block: &[u8]) -> Result<(), KeptError> {
        Err(KeptError::Disk)
    }

    fn keep_both(&mut self, _alloc: Global, _block: &[u8], _body: &[u8]) -> Result<(), KeptError> {
        Err(KeptError::Disk)
    }

    fn room_to_renew(&mut self, _size: usize) -> Result<bool, KeptError> {
        Ok(false)
    }

    fn renew(&mut self, _alloc: Global, _block: &[u8]) -> Result<(), KeptError> {
        Err(KeptError::Disk)
    }

    fn keep_mark(&mut self) -> Result<(), KeptError> {
        Err(KeptError::Disk)
    }

    ghost kept_is_left = { λ _ _ _ _. (tt, tt) };
}

impl<J: Follows> Follows for Followed<J> {
    ghost is_unturned = { λ f. J.is_unturned (followed_by f) };

    ghost has_all = { λ f blocks. J.has_all (followed_by f) blocks };

    fn follow(&mut self, alloc: Global) -> Result<Option<Vec<u8>>, KeptError> {
        self.journal.follow(alloc)
    }

    fn is_anew(&mut self) -> Result<bool, KeptError> {
        self.journal.is_anew()
    }

    ghost read_is_all = { λ _ _ read. read };

    ghost all_is_so_far = { λ f blocks all. J.all_is_so_far (followed_by f) blocks all };
}
