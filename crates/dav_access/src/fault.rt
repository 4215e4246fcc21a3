//! Why a text is no text of rules.
use dav_core::errors::ParseError;
use std::alloc::{AllocError, AllocFailed};
use thiserror::Error;

/// What is wrong in a line.
#[derive(Debug, Drop, PartialEq, Eq, Error)]
pub enum Fault {
    /// Its first word is no right.
    #[error("there is no right '{0}'")]
    NoRight(String),
    /// It has no path.
    #[error("there is no path in it")]
    NoPath,
    /// Its path can't be read.
    #[error("its path can't be read: {0}")]
    BadPath(ParseError),
    /// It names nobody.
    #[error("it names nobody")]
    Nobody,
    /// There is no user of this name.
    #[error("there is no user '{0}'")]
    NoUser(String),
    /// No line says who is in this group.
    #[error("there is no group '{0}'")]
    NoGroup(String),
    /// A line before it says who is in this group.
    #[error("the group '{0}' is defined twice")]
    DoubleGroup(String),
    /// It has no number.
    #[error("there is no number in it")]
    NoNumber,
    /// This isn't a number, or none below 2 ^ 64.
    #[error("'{0}' isn't a number that it can be")]
    BadNumber(String),
    /// This word follows its last one.
    #[error("'{0}' is a word too many")]
    TooMany(String),
}

/// Why a text is no text of rules.
#[derive(Debug, Drop, PartialEq, Eq, Error)]
pub enum AccessError {
    /// The line with this number, from 1, is the first that is at fault.
    #[error("line {0}: {1}")]
    Line(usize, Fault),
    /// A word isn't UTF-8.
    #[error("it isn't UTF-8")]
    NotUtf8,
    /// A user is called `everybody` or `users`.
    #[error("no user may be called `everybody` or `users`")]
    TakenName,
    /// Memory ran out.
    #[error("out of memory")]
    Memory,
}

impl From<AllocError> for AccessError {
    ghost use Rattle.std.specs.Prelude.{◌≡◌};
    ghost use Rattle.dav_access.specs.declared.fault.AccessError.TheVariants.{Memory};

    ghost from_gives = { λ _ e. e ≡ Memory };

    fn from(_error: AllocError) -> AccessError {
        AccessError::Memory
    }
}

impl<T: Drop> From<AllocFailed<T>> for AccessError {
    ghost use Rattle.std.specs.Prelude.{◌≡◌};
    ghost use Rattle.dav_access.specs.declared.fault.AccessError.TheVariants.{Memory};

    ghost from_gives = { λ _ e. e ≡ Memory };

    fn from(_error: AllocFailed<T>) -> AccessError {
        AccessError::Memory
    }
}

// Why a line can't be read.
#[derive(Drop)]
pub enum Stop {
    Fault(Fault),
    Memory,
}

impl Stop {
    ghost use Rattle.std.specs.Prelude.{◌≡◌};
    ghost use Rattle.dav_access.specs.RulesFaults.{error_at};

    // The error of a text whose line with this number can't be read.
    pub fn at(self, line: usize) -> AccessError
        ensures { result ≡ error_at line self }
    {
        match self {
            Stop::Fault(fault) => AccessError::Line(line, fault),
            Stop::Memory => AccessError::Memory,
        }
    }
}

impl From<AllocError> for Stop {
    ghost use Rattle.std.specs.Prelude.{◌≡◌};
    ghost use Rattle.dav_access.specs.declared.fault.Stop.TheVariants.{Memory};

    ghost from_gives = { λ _ e. e ≡ Memory };

    fn from(_error: AllocError) -> Stop {
        Stop::Memory
    }
}

impl<T: Drop> From<AllocFailed<T>> for Stop {
    ghost use Rattle.std.specs.Prelude.{◌≡◌};
    ghost use Rattle.dav_access.specs.declared.fault.Stop.TheVariants.{Memory};

    ghost from_gives = { λ _ e. e ≡ Memory };

    fn from(_error: AllocFailed<T>) -> Stop {
        Stop::Memory
    }
}
