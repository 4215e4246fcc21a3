//! Why a text is no list of users, and why somebody isn't let in.
use std::alloc::{AllocError, AllocFailed};
use thiserror::Error;

/// Why a text is no list of users.
#[derive(Clone, Copy, Debug, PartialEq, Eq, Error)]
pub enum UsersError {
    /// The line with this number, from 1, is none of a user.
    #[error("line {0} isn't name:$5$.. as `vuldarg user NAME` writes it, or its name can't be written in XML")]
    Line(usize),
    /// There is no user.
    #[error("there is no user in it")]
    Nobody,
    /// Memory ran out.
    #[error("out of memory")]
    Memory,
}

impl From<AllocError> for UsersError {
    ghost use Rattle.std.specs.Prelude.{◌≡◌};
    ghost use Rattle.dav_access.specs.declared.error.UsersError.TheVariants.{Memory};

    ghost from_gives = { λ _ e. e ≡ Memory };

    fn from(_error: AllocError) -> UsersError {
        UsersError::Memory
    }
}

impl<T: Drop> From<AllocFailed<T>> for UsersError {
    ghost use Rattle.std.specs.Prelude.{◌≡◌};
    ghost use Rattle.dav_access.specs.declared.error.UsersError.TheVariants.{Memory};

    ghost from_gives = { λ _ e. e ≡ Memory };

    fn from(_error: AllocFailed<T>) -> UsersError {
        UsersError::Memory
    }
}

/// Why a request isn't let in.
#[derive(Debug, Drop, PartialEq, Eq, Error)]
pub enum Refusal {
    /// It shows no user with its password; the name that it shows, empty where it shows none.
    #[error("no user with this password: {0}")]
    Unknown(String),
    /// Memory ran out.
    #[error("out of memory")]
    Memory,
}

impl From<AllocError> for Refusal {
    ghost use Rattle.std.specs.Prelude.{◌≡◌};
    ghost use Rattle.dav_access.specs.declared.error.Refusal.TheVariants.{Memory};

    ghost from_gives = { λ _ e. e ≡ Memory };

    fn from(_error: AllocError) -> Refusal {
        Refusal::Memory
    }
}
