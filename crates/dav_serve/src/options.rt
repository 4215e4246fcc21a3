//! The arguments of the program.
use dav_live::{Limit, Measure, Settings, first_folder, limit_of_all};
use std::alloc::{AllocError, AllocFailed, Global};
use std::env::Args;
use thiserror::Error;

/// The longest time of a lock in seconds where none is told: a day.
const LOCK_TIME: u32 = 86_400;

/// The most seconds that a lock's time can be told in (RFC 4918, section 10.7).
const MOST_LOCK_TIME: u64 = 4_294_967_295;

/// The most bytes of a body where none is told: 256 MiB.
const BODY: u64 = 268_435_456;

/// The least of what the bodies that are being read may have together where that isn't told: 1 GiB.
const WAITING: u64 = 1_073_741_824;

/// The bytes past which a journal may begin anew with a snapshot, where that isn't told: 64 MiB.
const SHORT_JOURNAL: usize = 67_108_864;

/// The folder of the state, and the settings.
#[derive(Drop)]
pub struct Options {
    pub folder: String,
    pub settings: Settings,
    /// Whether the state is waited for where it is in use.
    pub waits: bool,
    /// Whether it is shown then, as who has it keeps it.
    pub follows: bool,
}

/// Why arguments aren't understood.
#[derive(Debug, Drop, Error)]
pub enum OptionsError {
    /// There is no folder among them.
    #[error("usage: dav-serve FOLDER [--prefix /PATH] [--host NAME].. [--lock-time SECONDS] [--body BYTES] [--waiting BYTES] [--files COUNT] [--space BYTES] [--only NAME].. [--snapshot-past BYTES] [--strict] [--read-only] [--log] [--wait] [--follow]")]
    NoFolder,
    /// No option has this name.
    #[error("'{0}' isn't an option")]
    Unknown(String),
    /// The option with this name has no value.
    #[error("{0}: its value is missing")]
    NoValue(String),
    /// The option with this name has a value that isn't a number within its bounds.
    #[error("{0}: '{1}' isn't a number that it can be")]
    NoNumber(String, String),
    /// A first folder is told by what can't be the name of one.
    #[error("--only: '{0}' isn't the name of a folder")]
    NoFolderName(String),
    /// All bodies that are being read may have fewer bytes together than one: so many.
    #[error("--waiting: {0} is less than --body")]
    FewWaiting(u64),
    /// Memory ran out.
    #[error("out of memory")]
    Memory,
}

impl From<AllocError> for OptionsError {
    fn from(_error: AllocError) -> OptionsError {
        OptionsError::Memory
    }
}

impl<T: Drop> From<AllocFailed<T>> for OptionsError {
    fn from(_error: AllocFailed<T>) -> OptionsError {
        OptionsError::Memory
    }
}

impl Options {
    /// The options of arguments: a folder, and then options, each with its value but for `--log`, `--strict`, `--read-only`,
    /// `--wait` and `--follow`. Of an option that comes twice the last one counts, but for `--host` and `--only`.
    pub fn read(alloc: Global, arguments: &mut Args) -> Result<Options, OptionsError> {
        let Some(folder) = arguments.next() else {
            return Err(OptionsError::NoFolder);
        };
        let mut settings = Settings {
            prefix: String::new(alloc),
            hosts: Vec::new(alloc),
            lock_time: LOCK_TIME,
            strict: false,
            read_only: false,
            most_body: BODY,
            most_waiting: 0,
            limits: Vec::new(alloc),
            only: Vec::new(alloc),
            short_journal: SHORT_JOURNAL,
            logs: false,
        };
        let (mut waits, mut follows) = (false, false);
        for _ in 0..u64::MAX {
            let Some(name) = arguments.next() else {
                break;
            };
            match name.as_str() {
                "--log" => settings.logs = true,
                "--strict" => settings.strict = true,
                "--read-only" => settings.read_only = true,
                "--wait" => waits = true,
                "--follow" => follows = true,
                _ => set(&mut settings, name, arguments.next())?,
            }
        }
        settings.most_waiting = waiting_of(settings.most_waiting, settings.most_body)?;
        Ok(Options {
            folder,
            settings,
            waits,
            follows,
        })
    }
}

// The most bytes of all bodies that are being read: what is told, which has room for one at least; where it isn't told (0), for
// four, and 1 GiB at least.
fn waiting_of(told: u64, most_body: u64) -> Result<u64, OptionsError> {
    if told == 0 {
        return Ok(most_body.saturating_mul(4).max(WAITING));
    }
    if told < most_body {
        return Err(OptionsError::FewWaiting(told));
    }
    Ok(told)
}

// Sets what an option names.
fn set(settings: &mut Settings, name: String, value: Option<String>) -> Result<(), OptionsError> {
    if !takes_value(name.as_str()) {
        return Err(OptionsError::Unknown(name));
    }
    let Some(value) = value else {
        return Err(OptionsError::NoValue(name));
    };
    match name.as_str() {
        "--prefix" => settings.prefix = value,
        "--host" => settings.hosts.push(value)?,
        "--lock-time" => {
            let seconds = number(name, value, MOST_LOCK_TIME)?;
            settings.lock_time = u32::try_from(seconds).unwrap_or(u32::MAX);
        }
        "--waiting" => settings.most_waiting = number(name, value, u64::MAX)?,
        "--files" => {
            let most = number(name, value, u64::MAX)?;
            limit(&mut settings.limits, Measure::Files, most)?;
        }
        "--space" => {
            let most = number(name, value, u64::MAX)?;
            limit(&mut settings.limits, Measure::Space, most)?;
        }
        "--only" => add_folder(settings, value)?,
        "--snapshot-past" => {
            let bytes = number(name, value, u64::MAX)?;
            settings.short_journal = usize::try_from(bytes).unwrap_or(usize::MAX);
        }
        _ => settings.most_body = number(name, value, u64::MAX)?,
    }
    Ok(())
}

// Sets the limit of the whole server for a measure, in place of the one that was told before, if one was.
fn limit(limits: &mut Vec<Limit>, measure: Measure, most: u64) -> Result<(), AllocError> {
    for limit in limits.iter_mut() {
        if limit.measure == measure {
            limit.most = most;
            return Ok(());
        }
    }
    let limit = limit_of_all(*limits.allocator(), measure, most)?;
    Ok(limits.push(limit)?)
}

// Adds the first folder of this name to those that the server has.
fn add_folder(settings: &mut Settings, name: String) -> Result<(), OptionsError> {
    let alloc = *settings.only.allocator();
    match first_folder(alloc, name.as_str())? {
        Some(folder) => Ok(settings.only.push(folder)?),
        None => Err(OptionsError::NoFolderName(name)),
    }
}

// Whether there is an option with this name that has a value.
fn takes_value(name: &str) -> bool {
    matches!(
        name,
        "--prefix"
            | "--host"
            | "--lock-time"
            | "--body"
            | "--waiting"
            | "--files"
            | "--space"
            | "--only"
            | "--snapshot-past"
    )
}

// A value as a number from 1 to the most that it can be.
fn number(name: String, value: String, most: u64) -> Result<u64, OptionsError> {
    match value.as_str().parse::<u64>() {
        Ok(number) if 0 < number && number <= most => Ok(number),
        _ => Err(OptionsError::NoNumber(name, value)),
    }
}
