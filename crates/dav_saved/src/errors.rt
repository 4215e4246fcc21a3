//! Why what was saved can't be read.
ghost use Rattle.std.specs.Prelude.{◌≡◌};
ghost use Rattle.dav_saved.specs.declared.errors.LoadError.TheVariants.{Memory};

use std::alloc::{AllocError, AllocFailed};
use thiserror::Error;

/// Why what was saved can't be read.
#[derive(Clone, Copy, Debug, PartialEq, Eq, Error)]
pub enum LoadError {
    /// Memory ran out.
    #[error("Memory")]
    Memory,
    /// The bytes aren't such as are saved.
    #[error("NotSaved")]
    NotSaved,
}

impl From<AllocError> for LoadError {
    ghost from_gives = { λ _ e. e ≡ Memory };

    fn from(_error: AllocError) -> LoadError {
        LoadError::Memory
    }
}

impl<T: Drop> From<AllocFailed<T>> for LoadError {
    ghost from_gives = { λ _ e. e ≡ Memory };

    fn from(_error: AllocFailed<T>) -> LoadError {
        LoadError::Memory
    }
}
