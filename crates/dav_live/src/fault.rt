//! Why a server ends, and why it can't begin.
ghost use Rattle.std.specs.Prelude.{◌≢◌};
ghost use Rattle.dav_live.specs.declared.fault.Fault.TheVariants.{Ended};

use dav_journal::JournalError;
use dav_kept::KeptError;
use dav_server::davhandler::HandlerError;
use dav_turns::TurnError;
use dav_wire::Stop;
use std::alloc::{AllocError, AllocFailed};
use thiserror::Error;

/// Why a server ended.
#[derive(Clone, Copy, Debug, PartialEq, Eq, Error)]
pub enum Fault {
    /// The input ended.
    #[error("Ended")]
    Ended,
    /// A report wasn't understood, or the pipes failed.
    #[error("Pipe")]
    Pipe,
    /// Memory ran out. Nothing was released since the last commit.
    #[error("Memory")]
    Memory,
    /// The disk failed at a commit. Nothing was released since the one before.
    #[error("Disk")]
    Disk,
}

impl Fault {
    /// Why a server ends whose requests can't be answered or kept any more.
    pub(crate) fn of(stop: Stop) -> Fault
        ensures { result ≢ Ended }
    {
        match stop {
            Stop::Memory => Fault::Memory,
            Stop::Disk => Fault::Disk,
        }
    }
}

impl From<AllocError> for Fault {
    ghost use Rattle.std.specs.Prelude.{◌≡◌};
    ghost use Rattle.dav_live.specs.declared.fault.Fault.TheVariants.{Memory};

    ghost from_gives = { λ _ fault. fault ≡ Memory };

    fn from(_error: AllocError) -> Fault {
        Fault::Memory
    }
}

impl From<TurnError> for Fault {
    ghost use Rattle.std.specs.Prelude.{◌≢◌};
    ghost use Rattle.dav_live.specs.declared.fault.Fault.TheVariants.{Ended};

    ghost from_gives = { λ _ fault. fault ≢ Ended };

    fn from(error: TurnError) -> Fault {
        match error {
            TurnError::Pipe => Fault::Pipe,
            TurnError::Stopped(stop) => Fault::of(stop),
        }
    }
}

/// Why a server can't begin. Nothing was changed.
#[derive(Clone, Copy, Debug, PartialEq, Eq, Error)]
pub enum OpenError {
    /// A setting is wrong: the prefix or the users.
    #[error("Settings")]
    Settings,
    /// The state was kept under another prefix.
    #[error("OtherPrefix")]
    OtherPrefix,
    /// The file isn't a state of this version.
    #[error("Foreign")]
    Foreign,
    /// The state is damaged at this place, or the request there is answered otherwise than it was.
    #[error("Damaged")]
    Damaged(usize),
    /// The disk failed or is full.
    #[error("Disk")]
    Disk,
    /// Memory ran out.
    #[error("Memory")]
    Memory,
}

impl From<AllocError> for OpenError {
    ghost use Rattle.std.specs.Prelude.{◌≡◌};
    ghost use Rattle.dav_live.specs.declared.fault.OpenError.TheVariants.{Memory};

    ghost from_gives = { λ _ e. e ≡ Memory };

    fn from(_error: AllocError) -> OpenError {
        OpenError::Memory
    }
}

impl<T: Drop> From<AllocFailed<T>> for OpenError {
    ghost use Rattle.std.specs.Prelude.{◌≡◌};
    ghost use Rattle.dav_live.specs.declared.fault.OpenError.TheVariants.{Memory};

    ghost from_gives = { λ _ e. e ≡ Memory };

    fn from(_error: AllocFailed<T>) -> OpenError {
        OpenError::Memory
    }
}

impl From<HandlerError> for OpenError {
    fn from(error: HandlerError) -> OpenError {
        match error {
            HandlerError::BadPrefix => OpenError::Settings,
            HandlerError::Memory => OpenError::Memory,
        }
    }
}

impl From<KeptError> for OpenError {
    fn from(error: KeptError) -> OpenError {
        match error {
            KeptError::Memory => OpenError::Memory,
            KeptError::Disk => OpenError::Disk,
            KeptError::Foreign => OpenError::Foreign,
            KeptError::OtherPreface => OpenError::OtherPrefix,
            KeptError::Damaged(place) => OpenError::Damaged(place),
            KeptError::Malformed | KeptError::Changed => OpenError::Damaged(0),
        }
    }
}

impl From<JournalError> for OpenError {
    fn from(error: JournalError) -> OpenError {
        match error {
            JournalError::Io | JournalError::NoRoom | JournalError::Passed => OpenError::Disk,
            JournalError::Foreign => OpenError::Foreign,
            JournalError::Damaged(place) => OpenError::Damaged(place),
            JournalError::Memory => OpenError::Memory,
        }
    }
}
