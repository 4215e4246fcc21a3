//! Why a folder on the way isn't told of.
ghost use Rattle.dav_http.specs.declared.handler.HandleError.{HandleError as HandleErrorValue};
ghost use Rattle.dav_http.specs.declared.handler.HandleError.TheVariants as handle;

use dav_core::errors::NoMemory;
use dav_http::HandleError;
use std::alloc::{AllocError, AllocFailed};
use thiserror::Error;

/// Why a folder on the way isn't told of.
#[derive(Clone, Copy, Debug, PartialEq, Eq, Error)]
pub enum LookError {
    /// The name of who asks is empty, or has a character that no document has.
    #[error("Principal")]
    Principal,
    /// Memory ran out: nothing more may be asked of the server.
    #[error("Memory")]
    Memory,
    /// It isn't known that the server is as it was after a request that was only to read.
    #[error("Changed")]
    Changed,
}

impl From<AllocError> for LookError {
    ghost use Rattle.std.specs.Prelude.{◌≡◌};
    ghost use Rattle.dav_seen.specs.declared.error.LookError.TheVariants.{Memory};

    ghost from_gives = { λ _ e. e ≡ Memory };

    fn from(_error: AllocError) -> LookError {
        LookError::Memory
    }
}

impl From<HandleError> for LookError {
    fn from(error: HandleError) -> LookError {
        match error {
            HandleError::Principal => LookError::Principal,
            HandleError::Memory => LookError::Memory,
        }
    }
}
