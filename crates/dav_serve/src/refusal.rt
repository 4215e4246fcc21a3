//! Why the program can't begin.
ghost use Rattle.std.specs.Prelude.{◌≡◌};
ghost use Rattle.dav_serve.specs.Status.{status_refused, unopened};

use crate::options::OptionsError;
use dav_live::{ListsError, OpenError};
use std::alloc::AllocError;
use thiserror::Error;

/// Why the program can't begin.
#[derive(Debug, Drop, Error)]
pub enum Refusal {
    /// The arguments are wrong.
    #[error("{0}")]
    Options(OptionsError),
    /// The prefix is none.
    #[error("--prefix: '{0}' isn't a path as /dav or /team/files")]
    Prefix(String),
    /// This file can't be read.
    #[error("{0} can't be read")]
    Unread(String),
    /// The users or the rules of access of the folder aren't what they are to be.
    #[error("{0}/{1}")]
    Lists(String, ListsError),
    /// The folder had rules of access, and has none.
    #[error("{0}/access isn't there, and {0}/state.ruled says that there were rules (to let each user do everything, remove that too)")]
    Unruled(String),
    /// The state of the folder can't be opened.
    #[error("the state in {0} can't be opened: the folder is missing, or what is there can't be read and written")]
    State(String),
    /// Another process has the state of the folder.
    #[error("the state in {0} is in use: another server has it")]
    InUse(String),
    /// The same, where who began this one waits for it.
    #[error("the state is in use, and is waited for")]
    Awaited,
    /// The state of the folder was kept under another prefix.
    #[error("the state in {0} was kept under another --prefix")]
    OtherPrefix(String),
    /// The state of the folder is of another version, or its two files don't belong together.
    #[error("the state in {0} is none that this version or an earlier one (vuldarg1, vuldarg2) kept under this --prefix, or its first bytes are damaged, or state and state-wal don't belong together; nothing was changed")]
    Foreign(String),
    /// The state of the folder was begun, and has no block.
    #[error("the state in {0} is gone: state and state-wal have no block, and state.begun says that there was one (to begin a new state, remove the three)")]
    Gone(String),
    /// A file of the folder's state is damaged at this place.
    #[error("{0}/state or {0}/state-wal is damaged at byte {1}; nothing was changed")]
    Damaged(String, usize),
    /// What a start drops of the state can't be kept beside.
    #[error("{0}/state.cut-N can't be written, so what a crash left in {0}/state or {0}/state-wal isn't dropped; nothing was changed")]
    Cut(String),
    /// The state can't be claimed.
    #[error("{0}/state.claim can't be written, by which another server would know that this one has the state; nothing was changed")]
    Claim(String),
    /// The disk failed or is full.
    #[error("{0}/state or {0}/state-wal can't be read or written: the disk failed or is full")]
    Disk(String),
    /// Memory ran out.
    #[error("out of memory")]
    Memory,
}

impl From<OptionsError> for Refusal {
    fn from(error: OptionsError) -> Refusal {
        match error {
            OptionsError::Memory => Refusal::Memory,
            error => Refusal::Options(error),
        }
    }
}

impl From<AllocError> for Refusal {
    fn from(_error: AllocError) -> Refusal {
        Refusal::Memory
    }
}

// Why the server of a folder with this prefix can't begin.
pub fn refused(folder: String, prefix: String, error: OpenError) -> Refusal {
    match error {
        OpenError::Settings => Refusal::Prefix(prefix),
        OpenError::OtherPrefix => Refusal::OtherPrefix(folder),
        OpenError::Foreign => Refusal::Foreign(folder),
        OpenError::Damaged(place) => Refusal::Damaged(folder, place),
        OpenError::Disk => Refusal::Disk(folder),
        OpenError::Memory => Refusal::Memory,
    }
}

// Why the files of a folder's state can't be opened; whether one in use is waited for.
pub fn unopened(folder: String, waits: bool, error: sqlite_std_file::OpenError) -> Refusal
    ensures { result ≡ unopened folder waits error }
{
    match error {
        sqlite_std_file::OpenError::Busy => {
            if waits {
                Refusal::Awaited
            } else {
                Refusal::InUse(folder)
            }
        }
        sqlite_std_file::OpenError::OutOfMemory => Refusal::Memory,
        sqlite_std_file::OpenError::Io(_) | sqlite_std_file::OpenError::HotJournal => {
            Refusal::State(folder)
        }
    }
}

// The exit status of a refusal.
pub fn status_of(refusal: &Refusal) -> u8
    ensures { result ≡ status_refused refusal.now }
{
    match refusal {
        Refusal::Memory => 3,
        Refusal::Foreign(_) | Refusal::Gone(_) | Refusal::Damaged(_, _) => 4,
        Refusal::Cut(_) | Refusal::Claim(_) | Refusal::Disk(_) => 5,
        Refusal::InUse(_) | Refusal::Awaited => 6,
        Refusal::Options(_)
        | Refusal::Prefix(_)
        | Refusal::Unread(_)
        | Refusal::Lists(_, _)
        | Refusal::Unruled(_)
        | Refusal::State(_)
        | Refusal::OtherPrefix(_) => 1,
    }
}
