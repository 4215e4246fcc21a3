//! Why a request can't be answered, and why records can't be kept or played.
ghost use Rattle.std.specs.Prelude.{◌≡◌};
ghost use Rattle.dav_kept.specs.declared.error.HandleError.TheVariants as handler;
ghost use Rattle.dav_kept.specs.declared.error.KeptError.TheVariants as kept;

use dav_journal::JournalError;
use std::alloc::{AllocError, AllocFailed};
use thiserror::Error;

/// Why a handler has no answer.
#[derive(Clone, Copy, Debug, PartialEq, Eq, Error)]
pub enum HandleError {
    /// Memory ran out.
    #[error("Memory")]
    Memory,
    /// The request is none that a record may have.
    #[error("Malformed")]
    Malformed,
}

impl From<AllocError> for HandleError {
    ghost use Rattle.std.specs.Prelude.{◌≡◌};
    ghost use Rattle.dav_kept.specs.declared.error.HandleError.TheVariants.{Memory};

    ghost from_gives = { λ _ e. e ≡ Memory };

    fn from(_error: AllocError) -> HandleError {
        HandleError::Memory
    }
}

impl<T: Drop> From<AllocFailed<T>> for HandleError {
    ghost use Rattle.std.specs.Prelude.{◌≡◌};
    ghost use Rattle.dav_kept.specs.declared.error.HandleError.TheVariants.{Memory};

    ghost from_gives = { λ _ e. e ≡ Memory };

    fn from(_error: AllocFailed<T>) -> HandleError {
        HandleError::Memory
    }
}

/// Why records can't be kept or played. After any of these a server may have answered what isn't
/// kept: it has to end.
#[derive(Clone, Copy, Debug, PartialEq, Eq, Error)]
pub enum KeptError {
    /// Memory ran out.
    #[error("Memory")]
    Memory,
    /// The disk failed or is full, or another opening went on with the journal.
    #[error("Disk")]
    Disk,
    /// The file isn't a journal of this version.
    #[error("Foreign")]
    Foreign,
    /// The journal has another preface.
    #[error("OtherPreface")]
    OtherPreface,
    /// The journal is damaged at this place, or a request of the block there is answered otherwise
    /// than it was.
    #[error("Damaged")]
    Damaged(usize),
    /// The handler takes the request for none.
    #[error("Malformed")]
    Malformed,
    /// A request that was only to read changed the state.
    #[error("Changed")]
    Changed,
}

impl From<AllocError> for KeptError {
    ghost use Rattle.std.specs.Prelude.{◌≡◌};
    ghost use Rattle.dav_kept.specs.declared.error.KeptError.TheVariants.{Memory};

    ghost from_gives = { λ _ e. e ≡ Memory };

    fn from(_error: AllocError) -> KeptError {
        KeptError::Memory
    }
}

impl<T: Drop> From<AllocFailed<T>> for KeptError {
    ghost use Rattle.std.specs.Prelude.{◌≡◌};
    ghost use Rattle.dav_kept.specs.declared.error.KeptError.TheVariants.{Memory};

    ghost from_gives = { λ _ e. e ≡ Memory };

    fn from(_error: AllocFailed<T>) -> KeptError {
        KeptError::Memory
    }
}

impl From<HandleError> for KeptError {
    ghost use Rattle.std.specs.Prelude.{◌≡◌};
    ghost use Rattle.dav_kept.specs.Error.{of_handler};

    ghost from_gives = { λ error e. e ≡ of_handler error };

    fn from(error: HandleError) -> KeptError {
        match error {
            HandleError::Memory => KeptError::Memory,
            HandleError::Malformed => KeptError::Malformed,
        }
    }
}

impl From<JournalError> for KeptError {
    ghost use Rattle.std.specs.Prelude.{◌≡◌};
    ghost use Rattle.dav_kept.specs.Error.{of_journal};

    ghost from_gives = { λ error e. e ≡ of_journal error };

    fn from(error: JournalError) -> KeptError {
        match error {
            JournalError::Io | JournalError::NoRoom | JournalError::Passed => KeptError::Disk,
            JournalError::Foreign => KeptError::Foreign,
            JournalError::Damaged(place) => KeptError::Damaged(place),
            JournalError::Memory => KeptError::Memory,
        }
    }
}

// Why the records of the block at this place can't be played, where a handler refuses a request of
// them.
pub fn refusal(error: HandleError, place: usize) -> KeptError
    ensures memory { error ≡ handler.Memory → result ≡ kept.Memory }
    ensures malformed { error ≡ handler.Malformed → result ≡ kept.Damaged place }
{
    match error {
        HandleError::Memory => KeptError::Memory,
        HandleError::Malformed => KeptError::Damaged(place),
    }
}
