//! Why a text isn't read.
use std::alloc::{AllocError, AllocFailed};
use thiserror::Error;

/// What is wrong with a text.
#[derive(Clone, Copy, Debug, PartialEq, Eq, Error)]
pub enum Fault {
    /// It isn't a well-formed document of declared prefixes in UTF-8, or it has a document type.
    #[error("Malformed")]
    Malformed,
    /// It has more than 64 levels of elements.
    #[error("TooDeep")]
    TooDeep,
    /// It has more than 1 MiB, an element of more than 256 attributes, or more than 256 prefixes that are declared at one place.
    #[error("TooLarge")]
    TooLarge,
}

/// Why a text isn't read as an element tree.
#[derive(Clone, Copy, Debug, PartialEq, Eq, Error)]
pub enum XmlError {
    /// Memory ran out.
    #[error("Memory")]
    Memory,
    /// Something is wrong with the text.
    #[error("{0}")]
    Fault(Fault),
}

impl From<AllocError> for XmlError {
    ghost use Rattle.std.specs.Prelude.{◌≡◌};
    ghost use Rattle.dav_xml.specs.declared.error.XmlError.TheVariants.{Memory};

    ghost from_gives = { λ _ e. e ≡ Memory };

    fn from(_error: AllocError) -> XmlError {
        XmlError::Memory
    }
}

impl<T: Drop> From<AllocFailed<T>> for XmlError {
    ghost use Rattle.std.specs.Prelude.{◌≡◌};
    ghost use Rattle.dav_xml.specs.declared.error.XmlError.TheVariants.{Memory};

    ghost from_gives = { λ _ e. e ≡ Memory };

    fn from(_error: AllocFailed<T>) -> XmlError {
        XmlError::Memory
    }
}
