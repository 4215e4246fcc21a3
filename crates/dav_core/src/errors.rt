//! Why a call fails.
ghost use Rattle.std.specs.Prelude.{◌≡◌};
ghost use Rattle.dav_core.specs.ErrorNames.{fs_error_name};
ghost use Rattle.dav_core.specs.Status.{dav_status, must_close};

#[cfg(test)]
mod tests;

use http::StatusCode;
pub use std::alloc::AllocError as NoMemory;
use std::alloc::AllocFailed;
use std::fmt;
use thiserror::Error;

/// Why a text names no path.
#[derive(Clone, Copy, Debug, PartialEq, Eq, Error)]
pub enum ParseError {
    /// It isn't a text that can name a path, or one of its decoded segments has a zero byte or a slash.
    #[error("InvalidPath")]
    InvalidPath,
    /// The path isn't at or below the prefix.
    #[error("PrefixMismatch")]
    PrefixMismatch,
    /// It climbs above the root.
    #[error("ForbiddenPath")]
    ForbiddenPath,
    /// Memory ran out.
    #[error("Memory")]
    Memory,
}

impl From<NoMemory> for ParseError {
    ghost use Rattle.std.specs.Prelude.{◌≡◌};
    ghost use Rattle.dav_core.specs.declared.errors.ParseError.TheVariants.{Memory};

    ghost from_gives = { λ _ e. e ≡ Memory };

    fn from(_error: NoMemory) -> ParseError {
        ParseError::Memory
    }
}

impl<T: Drop> From<AllocFailed<T>> for ParseError {
    ghost use Rattle.std.specs.Prelude.{◌≡◌};
    ghost use Rattle.dav_core.specs.declared.errors.ParseError.TheVariants.{Memory};

    ghost from_gives = { λ _ e. e ≡ Memory };

    fn from(_error: AllocFailed<T>) -> ParseError {
        ParseError::Memory
    }
}

/// Why a file store refuses a call.
#[derive(Clone, Copy, Debug, PartialEq, Eq)]
pub enum FsError {
    /// The store doesn't implement this call: 501 (RFC 9110, section 15.6.2).
    NotImplemented,
    /// It failed for a reason that has no name here: 500 (RFC 9110, section 15.6.1).
    GeneralFailure,
    /// Something is there already: 405 (RFC 9110, section 15.5.6; RFC 4918, section 9.3.1).
    Exists,
    /// Nothing is there: 404 (RFC 9110, section 15.5.5).
    NotFound,
    /// The store doesn't allow it: 403 (RFC 9110, section 15.5.4).
    Forbidden,
    /// There is no room for it, or memory ran out: 507 (RFC 4918, section 11.5).
    InsufficientStorage,
    /// It met the same folder twice: 508 (RFC 5842, section 7.2).
    LoopDetected,
    /// The path is longer than the store accepts: 414 (RFC 9110, section 15.5.15).
    PathTooLong,
    /// The file would be larger than the store accepts: 413 (RFC 9110, section 15.5.14).
    TooLarge,
    /// It is in another store: 502 (RFC 4918, section 9.8.5).
    IsRemote,
}

/// What a call of a file store answers.
pub type FsResult<T> = Result<T, FsError>;

impl FsError {
    // The variant's name.
    fn name(self) -> &'static str
        ensures { result.now ≡ fs_error_name self }
    {
        match self {
            FsError::NotImplemented => "NotImplemented",
            FsError::GeneralFailure => "GeneralFailure",
            FsError::Exists => "Exists",
            FsError::NotFound => "NotFound",
            FsError::Forbidden => "Forbidden",
            FsError::InsufficientStorage => "InsufficientStorage",
            FsError::LoopDetected => "LoopDetected",
            FsError::PathTooLong => "PathTooLong",
            FsError::TooLarge => "TooLarge",
            FsError::IsRemote => "IsRemote",
        }
    }
}

/// Writes the variant's name.
impl fmt::Display for FsError {
    ghost use Rattle.std.specs.Prelude.{Some};
    ghost use Rattle.dav_core.specs.ErrorNames.{fs_error_name};

    ghost output = { λ e. Some (fs_error_name e) };

    fn fmt<W: fmt::Write>(&self, f: &mut fmt::Formatter<W>) -> fmt::Result {
        f.write_str(self.name())
    }
}

impl std::error::Error for FsError {}

/// The status with which a store's error is reported to a client.
impl From<FsError> for StatusCode {
    ghost use Rattle.dav_core.specs.Status.{fs_status};

    ghost from_gives = { λ e status. status ≡ fs_status e };

    fn from(error: FsError) -> StatusCode {
        match error {
            FsError::NotImplemented => StatusCode::NOT_IMPLEMENTED,
            FsError::GeneralFailure => StatusCode::INTERNAL_SERVER_ERROR,
            FsError::Exists => StatusCode::METHOD_NOT_ALLOWED,
            FsError::NotFound => StatusCode::NOT_FOUND,
            FsError::Forbidden => StatusCode::FORBIDDEN,
            FsError::InsufficientStorage => StatusCode::INSUFFICIENT_STORAGE,
            FsError::LoopDetected => StatusCode::LOOP_DETECTED,
            FsError::PathTooLong => StatusCode::URI_TOO_LONG,
            FsError::TooLarge => StatusCode::PAYLOAD_TOO_LARGE,
            FsError::IsRemote => StatusCode::BAD_GATEWAY,
        }
    }
}

/// Why a request is refused.
#[derive(Clone, Copy, Debug, PartialEq, Eq, Error)]
pub enum DavError {
    /// The body isn't the XML that the method needs: 400 (RFC 9110, section 15.5.1).
    #[error("XmlParseError")]
    XmlParseError,
    /// A text names no path: 400.
    #[error("InvalidPath")]
    InvalidPath,
    /// A path climbs above the root: 403 (RFC 9110, section 15.5.4).
    #[error("ForbiddenPath")]
    ForbiddenPath,
    /// A path isn't at or below the prefix: 502 (RFC 4918, section 9.8.5).
    #[error("IllegalPath")]
    IllegalPath,
    /// No method of this name is known: 501 (RFC 9110, section 15.6.2).
    #[error("UnknownDavMethod")]
    UnknownDavMethod,
    /// What was to be collected is missing: 500 (RFC 9110, section 15.6.1).
    #[error("ChanError")]
    ChanError,
    /// This status.
    #[error("Status")]
    Status(StatusCode),
    /// This status, and the connection closes after the reply (RFC 9112, section 9.6).
    #[error("StatusClose")]
    StatusClose(StatusCode),
    /// The store refused: the error's own status.
    #[error("FsError")]
    FsError(FsError),
    /// Memory ran out: 507 (RFC 4918, section 11.5).
    #[error("Memory")]
    Memory,
}

/// What a method answers.
pub type DavResult<T> = Result<T, DavError>;

impl DavError {
    /// The status with which the error is reported to the client.
    pub fn statuscode(&self) -> StatusCode
        ensures { result ≡ dav_status self.now }
    {
        match *self {
            DavError::XmlParseError => StatusCode::BAD_REQUEST,
            DavError::InvalidPath => StatusCode::BAD_REQUEST,
            DavError::ForbiddenPath => StatusCode::FORBIDDEN,
            DavError::IllegalPath => StatusCode::BAD_GATEWAY,
            DavError::UnknownDavMethod => StatusCode::NOT_IMPLEMENTED,
            DavError::ChanError => StatusCode::INTERNAL_SERVER_ERROR,
            DavError::Status(status) => status,
            DavError::StatusClose(status) => status,
            DavError::FsError(refusal) => refusal.into(),
            DavError::Memory => StatusCode::INSUFFICIENT_STORAGE,
        }
    }

    /// Whether the connection closes after the reply (RFC 9112, section 9.6).
    pub fn must_close(&self) -> bool
        ensures { result ≡ must_close self.now }
    {
        matches!(self, DavError::StatusClose(_))
    }
}

impl From<FsError> for DavError {
    ghost use Rattle.dav_core.specs.declared.errors.DavError.TheVariants as dav;

    ghost from_gives = { λ e d. d ≡ dav.FsError e };

    fn from(error: FsError) -> DavError {
        DavError::FsError(error)
    }
}

impl From<StatusCode> for DavError {
    ghost use Rattle.dav_core.specs.declared.errors.DavError.TheVariants as dav;

    ghost from_gives = { λ status d. d ≡ dav.Status status };

    fn from(code: StatusCode) -> DavError {
        DavError::Status(code)
    }
}

impl From<ParseError> for DavError {
    ghost use Rattle.dav_core.specs.Status.{path_error};

    ghost from_gives = { λ e d. d ≡ path_error e };

    fn from(error: ParseError) -> DavError {
        match error {
            ParseError::InvalidPath => DavError::InvalidPath,
            ParseError::PrefixMismatch => DavError::IllegalPath,
            ParseError::ForbiddenPath => DavError::ForbiddenPath,
            ParseError::Memory => DavError::Memory,
        }
    }
}

impl From<NoMemory> for DavError {
    ghost use Rattle.dav_core.specs.declared.errors.DavError.TheVariants as dav;

    ghost from_gives = { λ _ d. d ≡ dav.Memory };

    fn from(_error: NoMemory) -> DavError {
        DavError::Memory
    }
}

impl<T: Drop> From<AllocFailed<T>> for DavError {
    ghost use Rattle.dav_core.specs.declared.errors.DavError.TheVariants as dav;

    ghost from_gives = { λ _ d. d ≡ dav.Memory };

    fn from(_error: AllocFailed<T>) -> DavError {
        DavError::from(NoMemory)
    }
}
