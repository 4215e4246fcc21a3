//! The program `dav-serve FOLDER [OPTION..]`: a live server over its standard input and output, which a front gives it. It keeps
//! its state in FOLDER/state and FOLDER/state-wal, of which one counts.
//!
//! That a state was begun is told by FOLDER/state.begun: where that is there, and no block of the state, the state is gone. That there
//! were rules of access is told by FOLDER/state.ruled: where that is there, and no FOLDER/access, a start is refused. Whose the state is tells
//! FOLDER/state.claim: a server that doesn't find its own claim there writes nothing, and tells nothing as kept. Which logins were right is
//! kept in FOLDER/state.logins.
//!
//! Exit status: 0 the input ended; 1 the arguments, the folder, the users or the rules of access are wrong; 2 a report wasn't understood, or a
//! pipe failed; 3 memory ran out; 4 the state is damaged or of another version, and nothing was changed; 5 the disk is full or failed; 6
//! another process has the state: with `--wait` that isn't said on standard error, since who began the program begins it again.
#![tactic(auto)]

ghost use Rattle.std.specs.Prelude.{◌≡◌};
ghost use Rattle.dav_serve.specs.Status.{status_after};

mod begun;
mod claim;
mod follow;
mod found;
mod known;
mod options;
mod refusal;
mod rest;
mod ruled;
mod watcher;

use begun::{note_begun, see_begun, see_blocks};
use claim::{Claim, Owned};
use dav_claim::Claimed;
use dav_live::{Fault, Lists, ListsError, Live};
use follow::follow;
use found::text_in;
use known::known_in;
use options::Options;
use refusal::{Refusal, refused, status_of, unopened};
use rest::keep_rest;
use ruled::{note_ruled, see_ruled};
use sqlite_disk::Files;
use sqlite_std_file::{File, OpenError, Unknown, open};
use std::alloc::Global;
use std::process::ExitCode;
use std::{env, fs, io};
use watcher::Watcher;

// The exit status of a server that ended.
fn status_after(fault: Fault) -> u8
    ensures { result ≡ status_after fault }
{
    match fault {
        Fault::Ended => 0,
        Fault::Pipe => 2,
        Fault::Memory => 3,
        Fault::Disk => 5,
    }
}

// The text of a file, where it is there.
fn text_of(rt: &HostRuntime, path: String) -> Result<Option<Vec<u8>>, Refusal> {
    let read = fs::read(rt, path.as_str());
    text_in(path, read)
}

// The users and the rules of access of a folder, where it has files of them, and whether it has rules: where it had some, and has none, it is
// refused.
fn lists_in(rt: &HostRuntime, alloc: Global, folder: &str) -> Result<(Lists, bool), Refusal> {
    let users = text_of(rt, format!(in alloc; "{folder}/users")?)?;
    let access = text_of(rt, format!(in alloc; "{folder}/access")?)?;
    if access.is_none() {
        see_ruled(rt, alloc, folder)?;
    }
    match Lists::read(alloc, users.as_deref(), access.as_deref()) {
        Ok(lists) => Ok((lists, access.is_some())),
        Err(ListsError::Memory) => Err(Refusal::Memory),
        Err(error) => Err(Refusal::Lists(String::from_str(alloc, folder)?, error)),
    }
}

// The options of the program.
fn options_of(rt: &HostRuntime, alloc: Global) -> Result<Options, Refusal> {
    let Ok(mut arguments) = env::args(rt) else {
        return Err(Refusal::Memory);
    };
    let _program = arguments.next();
    Ok(Options::read(alloc, &mut arguments)?)
}

// The files of a folder's state, which no other process has.
fn files_of(rt: &HostRuntime, alloc: Global, folder: &str) -> Result<Files<File>, OpenError> {
    let path = format!(in alloc; "{folder}/state")?;
    open(rt, path.as_str(), Unknown)
}

// These files, as they are written under a claim.
fn owned(
    alloc: Global,
    folder: &str,
    claim: &Claim,
    files: Files<File>,
) -> Result<(Owned, Owned), Refusal> {
    let Files { db, log } = files;
    match (claim.again(), claim.again()) {
        (Ok(one), Ok(other)) => Ok((Claimed::new(db, one), Claimed::new(log, other))),
        _ => Err(Refusal::Claim(String::from_str(alloc, folder)?)),
    }
}

// Says how much a server has, where there is memory to count it.
fn say_amount(rt: &HostRuntime, live: &Live<Owned>) {
    if let Ok(amount) = live.amount() {
        let (count, bytes) = (amount.files.saturating_sub(1), amount.bytes);
        // A failed write to standard error can't be reported anywhere.
        let _ = eprintln!(rt; "serve: files and folders there: {count}, bytes: {bytes}");
    }
}

// A server that was opened, ready for requests.
fn made_ready(
    rt: &HostRuntime,
    alloc: Global,
    folder: &str,
    prefix: &str,
    is_ruled: bool,
    mut live: Live<Owned>,
) -> Result<Live<Owned>, Refusal> {
    see_begun(rt, alloc, folder, &live)?;
    keep_rest(rt, alloc, folder, &mut live)?;
    if let Err(error) = live.begin() {
        let folder = String::from_str(alloc, folder)?;
        return Err(refused(folder, String::from_str(alloc, prefix)?, error));
    }
    note_begun(rt, alloc, folder)?;
    if is_ruled {
        note_ruled(rt, alloc, folder)?;
    }
    live.know(known_in(rt, alloc, folder)?);
    say_amount(rt, &live);
    Ok(live)
}

// The server of a folder, whose files these are.
fn open_live(
    rt: &HostRuntime,
    alloc: Global,
    options: Options,
    lists: Lists,
    is_ruled: bool,
    files: Files<File>,
) -> Result<(Live<Owned>, Claim), Refusal> {
    let Options {
        folder,
        settings,
        waits,
        ..
    } = options;
    let claim = Claim::take(rt, alloc, folder.as_str(), waits)?;
    see_blocks(rt, alloc, folder.as_str())?;
    let (one, other) = owned(alloc, folder.as_str(), &claim, files)?;
    let prefix = settings.prefix.clone()?;
    match Live::open(alloc, one, other, lists, settings) {
        Ok(live) => {
            let live = made_ready(rt, alloc, folder.as_str(), prefix.as_str(), is_ruled, live)?;
            Ok((live, claim))
        }
        Err(error) => Err(refused(folder, prefix, error)),
    }
}

// Lets go of the state, where the input of its server ended.
fn finish(claim: Claim, fault: Fault) -> Fault
    ensures { result ≡ fault }
{
    if fault == Fault::Ended {
        // Where that fails, a standby waits a second.
        let _ = claim.end();
    }
    fault
}

// Serves until the input ends, or something fails: why it ended.
fn serve(rt: &HostRuntime, alloc: Global) -> Result<Fault, Refusal> {
    let options = options_of(rt, alloc)?;
    let (lists, is_ruled) = lists_in(rt, alloc, options.folder.as_str())?;
    let files = match files_of(rt, alloc, options.folder.as_str()) {
        Ok(files) => files,
        Err(OpenError::Busy) if options.follows => return follow(rt, alloc),
        Err(error) => return Err(unopened(options.folder, options.waits, error)),
    };
    let folder = options.folder.clone()?;
    let (mut live, claim) = open_live(rt, alloc, options, lists, is_ruled, files)?;
    let mut watcher = Watcher::new(rt, Some(folder.as_str()));
    let fault = live.run(&mut rt.reader(), &mut io::writer(rt), &mut watcher);
    Ok(finish(claim, fault))
}

fn main(rt: HostRuntime) -> ExitCode {
    match serve(&rt, rt.alloc()) {
        Ok(fault) => ExitCode::from(status_after(fault)),
        Err(refusal) => {
            if !matches!(refusal, Refusal::Awaited) {
                // A failed write to standard error can't be reported anywhere.
                let _ = eprintln!(rt; "serve: {refusal}");
            }
            ExitCode::from(status_of(&refusal))
        }
    }
}
