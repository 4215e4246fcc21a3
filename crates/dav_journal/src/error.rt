//! Why a journal can't be read or written.
use std::alloc::AllocError;
use std::io;
use thiserror::Error;

/// Why a journal can't be read or written.
#[derive(Clone, Copy, Debug, PartialEq, Eq, Error)]
pub enum JournalError {
    /// The file couldn't be read, written or synced.
    #[error("Io")]
    Io,
    /// There is no room for the block.
    #[error("NoRoom")]
    NoRoom,
    /// The file isn't a journal of this version.
    #[error("Foreign")]
    Foreign,
    /// No block is at this place, and one was.
    #[error("Damaged")]
    Damaged(usize),
    /// Another opening came after this one, and went on with the files.
    #[error("Passed")]
    Passed,
    /// Memory ran out.
    #[error("Memory")]
    Memory,
}

impl From<AllocError> for JournalError {
    ghost use Rattle.std.specs.Prelude.{◌≡◌};
    ghost use Rattle.dav_journal.specs.declared.error.JournalError.TheVariants.{Memory};

    ghost from_gives = { λ _ e. e ≡ Memory };

    fn from(_error: AllocError) -> JournalError {
        JournalError::Memory
    }
}

impl From<io::Error> for JournalError {
    ghost use Rattle.std.specs.Prelude.{◌≡◌};
    ghost use Rattle.dav_journal.specs.declared.error.JournalError.TheVariants.{Io};

    ghost from_gives = { λ _ e. e ≡ Io };

    fn from(_error: io::Error) -> JournalError {
        JournalError::Io
    }
}
