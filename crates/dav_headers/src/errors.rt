//! Why a header can't be read or written.
pub use std::alloc::AllocError as NoMemory;
use std::alloc::AllocFailed;
use thiserror::Error;

/// Why a header can't be read or written.
#[derive(Clone, Copy, Debug, PartialEq, Eq, Error)]
pub enum HeaderError {
    /// The values aren't in the header's grammar, or what is to be written isn't text.
    #[error("Invalid")]
    Invalid,
    /// Memory ran out.
    #[error("Memory")]
    Memory,
}

impl From<NoMemory> for HeaderError {
    ghost use Rattle.std.specs.Prelude.{◌≡◌};
    ghost use Rattle.dav_headers.specs.declared.errors.HeaderError.TheVariants.{Memory};

    ghost from_gives = { λ _ e. e ≡ Memory };

    fn from(_error: NoMemory) -> HeaderError {
        HeaderError::Memory
    }
}

impl<T: Drop> From<AllocFailed<T>> for HeaderError {
    ghost use Rattle.std.specs.Prelude.{◌≡◌};
    ghost use Rattle.dav_headers.specs.declared.errors.HeaderError.TheVariants.{Memory};

    ghost from_gives = { λ _ e. e ≡ Memory };

    fn from(_error: AllocFailed<T>) -> HeaderError {
        HeaderError::Memory
    }
}
