//! The state that another server has is shown as that one keeps it, until its lock can be had: then this one takes its place.
use crate::claim::{Claim, Owned};
use crate::options::Options;
use crate::refusal::{Refusal, refused};
use crate::watcher::Watcher;
use crate::{files_of, finish, lists_in, made_ready, options_of, owned};
use dav_follow::Shown;
use dav_live::{Fault, Follower, Live, OpenError};
use dav_turns::Pipe;
use sqlite_disk::Files;
use sqlite_std_file::File;
use std::alloc::Global;
use std::rt::{Clock, Runtime};
use std::time::{Duration, Instant};
use std::{io, thread};

/// So often at most it is looked whether the lock can be had, in seconds.
const BEAT: u64 = 1;

/// So many times the files are opened that another server may just be writing, so many milliseconds one after another.
const TIMES: u32 = 100;

const REST: u64 = 100;

// What is followed: a folder, the prefix of its paths, and whether it has rules of access.
#[derive(Drop)]
struct Followed {
    folder: String,
    prefix: String,
    is_ruled: bool,
}

// When it was looked last whether the lock can be had.
#[derive(Drop)]
struct Beat {
    last: Option<Instant>,
}

impl Beat {
    // Whether it is time to look; then it begins anew.
    fn is_due(&mut self, rt: &HostRuntime) -> bool {
        let Ok(now) = Instant::now(rt) else {
            return true;
        };
        if let Some(last) = self.last {
            if now.saturating_duration_since(last) < Duration::from_secs(BEAT) {
                return false;
            }
        }
        self.last = Some(now);
        true
    }
}

/// Shows the state of a folder that another server has. Once its lock can be had it takes that one's place, with all connections, and
/// serves until the input ends: why it ended.
pub fn follow(rt: &HostRuntime, alloc: Global) -> Result<Fault, Refusal> {
    let (state, mut follower) = begin(rt, alloc)?;
    let folder = state.folder.as_str();
    // A failed write to standard error can't be reported anywhere.
    let _ = eprintln!(rt; "serve: another server has the state in {folder}; it is followed");
    let (mut pipe, mut orders) = (Pipe::new(alloc)?, Vec::new(alloc));
    let (mut reader, mut writer, mut watcher) = (
        rt.reader(),
        io::writer(rt),
        Watcher::new(rt, None),
    );
    let mut beat = Beat { last: None };
    for _ in 0..u64::MAX {
        match follower.listen(&mut pipe, &mut reader) {
            Ok(true) => {}
            Ok(false) => try_anew(rt, alloc, folder, &mut follower),
            Err(Fault::Disk) => open_again(rt, alloc, &state, &mut follower)?,
            Err(fault) => return Ok(fault),
        }
        match follower.answer(&mut pipe, &mut orders, &mut writer, &mut watcher) {
            Ok(()) => {}
            Err(fault) => return Ok(fault),
        }
        if !beat.is_due(rt) {
            continue;
        }
        if let Ok(files) = files_of(rt, alloc, folder) {
            let _ = eprintln!(rt;
                "serve: no other server has the state in {folder}; this one has it"
            );
            let (mut live, claim) = take_over(rt, alloc, &state, follower, files)?;
            let mut watcher = Watcher::new(rt, Some(folder));
            let fault = live.run_on(&mut pipe, &mut reader, &mut writer, &mut watcher);
            return Ok(finish(claim, fault));
        }
    }
    Ok(Fault::Pipe)
}

// Begins behind the server that has the state; again where that one may just have been writing what was read.
fn begin(rt: &HostRuntime, alloc: Global) -> Result<(Followed, Follower<Shown>), Refusal> {
    for _ in 0..TIMES {
        match opened(rt, alloc) {
            Err(Refusal::Foreign(_) | Refusal::Damaged(_, _) | Refusal::Disk(_)) => {
                thread::sleep(rt, Duration::from_millis(REST));
            }
            other => return other,
        }
    }
    opened(rt, alloc)
}

// The same, once.
fn opened(rt: &HostRuntime, alloc: Global) -> Result<(Followed, Follower<Shown>), Refusal> {
    let Options {
        folder,
        settings,
        ..
    } = options_of(rt, alloc)?;
    let (lists, is_ruled) = lists_in(rt, alloc, folder.as_str())?;
    let prefix = settings.prefix.clone()?;
    let Ok((one, other)) = shown(rt, alloc, folder.as_str()) else {
        return Err(Refusal::Disk(folder));
    };
    match Follower::open(alloc, one, other, lists, settings) {
        Ok(follower) => Ok((
            Followed {
                folder,
                prefix,
                is_ruled,
            },
            follower,
        )),
        Err(error) => Err(refused(folder, prefix, error)),
    }
}

// The two files of a folder's state, as they are shown.
fn shown(rt: &HostRuntime, alloc: Global, folder: &str) -> io::Result<(Shown, Shown)> {
    let one = format!(in alloc; "{folder}/state")?;
    let other = format!(in alloc; "{folder}/state-wal")?;
    Ok((
        Shown::open(rt, one.as_str())?,
        Shown::open(rt, other.as_str())?,
    ))
}

// Opens the files anew, where the other server began anew.
fn open_anew(
    rt: &HostRuntime,
    alloc: Global,
    folder: &str,
    follower: &mut Follower<Shown>,
) -> Result<(), OpenError> {
    let Ok((one, other)) = shown(rt, alloc, folder) else {
        return Err(OpenError::Disk);
    };
    follower.open_anew(one, other)
}

// The same, where that can be done now: else what is answered is as it was, and it is tried again with the next reports.
fn try_anew(rt: &HostRuntime, alloc: Global, folder: &str, follower: &mut Follower<Shown>) {
    if open_anew(rt, alloc, folder, follower).is_ok() {
        // What fails now fails with the next reports too.
        let _ = follower.hear();
    }
}

// Opens the files anew where what the other server kept couldn't be read: what is damaged is told as at a start. Again where that server may
// just have been writing what was read.
fn open_again(
    rt: &HostRuntime,
    alloc: Global,
    state: &Followed,
    follower: &mut Follower<Shown>,
) -> Result<(), Refusal> {
    let mut opened = open_anew(rt, alloc, state.folder.as_str(), follower);
    for _ in 0..TIMES {
        if !matches!(
            opened,
            Err(OpenError::Foreign | OpenError::Damaged(_) | OpenError::Disk)
        ) {
            break;
        }
        thread::sleep(rt, Duration::from_millis(REST));
        opened = open_anew(rt, alloc, state.folder.as_str(), follower);
    }
    match opened {
        Ok(()) => Ok(()),
        Err(error) => Err(refused_of(alloc, state, error)?),
    }
}

// Takes the place of the server that was followed, whose files these are.
fn take_over(
    rt: &HostRuntime,
    alloc: Global,
    state: &Followed,
    mut follower: Follower<Shown>,
    files: Files<File>,
) -> Result<(Live<Owned>, Claim), Refusal> {
    let folder = state.folder.as_str();
    let claim = Claim::take(rt, alloc, folder, true)?;
    let (one, other) = owned(alloc, folder, &claim, files)?;
    match hear_last(rt, alloc, folder, &mut follower) {
        Ok(()) => {}
        Err(error) => return Err(refused_of(alloc, state, error)?),
    }
    match follower.take_over(one, other) {
        Ok(live) => {
            let live = made_ready(
                rt,
                alloc,
                folder,
                state.prefix.as_str(),
                state.is_ruled,
                live,
            )?;
            Ok((live, claim))
        }
        Err(error) => Err(refused_of(alloc, state, error)?),
    }
}

// Hears what the other server kept last. Where that can't be read the files are opened anew, which tells why.
fn hear_last(
    rt: &HostRuntime,
    alloc: Global,
    folder: &str,
    follower: &mut Follower<Shown>,
) -> Result<(), OpenError> {
    match follower.hear() {
        Ok(true) => Ok(()),
        Ok(false) | Err(Fault::Disk) => open_anew(rt, alloc, folder, follower),
        Err(Fault::Memory) => Err(OpenError::Memory),
        Err(_) => Err(OpenError::Disk),
    }
}

// Why the place can't be taken.
fn refused_of(alloc: Global, state: &Followed, error: OpenError) -> Result<Refusal, Refusal> {
    let folder = String::from_str(alloc, state.folder.as_str())?;
    let prefix = String::from_str(alloc, state.prefix.as_str())?;
    Ok(refused(folder, prefix, error))
}
