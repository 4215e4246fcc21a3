//! How much can still be stored, and how much a request takes of that (RFC 4331, section 3; RFC 4918, section 11.5).
ghost use Rattle.std.specs.Prelude.{◌≤◌};

use std::cell::Cell;

/// What a file, a folder, a lock or a property takes besides its bytes, in bytes.
const EACH: u64 = 1024;

/// How many bytes can still be stored: as many as the front told last, less those that requests took since.
#[derive(Drop)]
pub struct Room {
    left: Cell<Option<u64>>,
}

/// What a request with a body of so many bytes takes at most that stores it.
pub fn needed_for(bytes: u64) -> u64
    ensures { bytes ≤ result }
{
    bytes.saturating_add(EACH)
}

/// What a copy of so many files and folders takes, with so many bytes.
pub fn needed_for_copies(files: u64, bytes: u64) -> u64
    ensures { bytes ≤ result }
{
    bytes.saturating_add(files.saturating_mul(EACH))
}

impl Room {
    /// Nothing was told yet.
    pub fn new() -> Room {
        Room {
            left: Cell::new(None),
        }
    }

    /// The front tells how many bytes can be stored.
    pub fn hear(&self, available: u64) {
        self.left.set(Some(available));
    }

    /// How many bytes can still be stored; 0 as long as nothing was told.
    pub fn left(&self) -> u64 {
        self.left.get().unwrap_or(0)
    }

    /// Takes so many bytes. False where fewer are left: then none are taken. As long as nothing was told all may be taken.
    pub fn take(&self, needed: u64) -> bool {
        match self.left.get() {
            None => true,
            Some(left) if left < needed => false,
            Some(left) => {
                self.left.set(Some(left - needed));
                true
            }
        }
    }
}
