//! Plays a script: from the bytes of a reader to the lines of a writer.
ghost use Rattle.std.specs.Prelude.{◌≡◌, ◌≢◌, ◌↔◌, ◌≤◌, ◌<◌, ◌⊎◌, ◌++◌, map, take, length, ℕ, List, [], if◌then◌else◌, None, Some, IsTrue, IfSome, IfOk, IfErr, OnOk, IsErrOf};
ghost use Rattle.std.specs.Io.KnownBytes.{Appends};
ghost use Rattle.dav_core.specs.Locks.{Lock};
ghost use Rattle.dav_engine.specs.Reply as said;
ghost use Rattle.dav_run.specs.Print.{lines_of, place_line};
ghost use Rattle.dav_run.specs.Script.{IsScript, IsShort, script_request, script_content};
ghost use Rattle.dav_server.specs.Isolation.{HolderTurns};
ghost use Rattle.dav_server.specs.Naming.{NamesLock};
ghost use Rattle.dav_server.specs.Server.{AnswersAll};
ghost use Rattle.dav_server.specs.Setup.{IsPrefix};
ghost use Rattle.dav_run.specs.Play.{Plays, PlaysSome, IsPlayable, AreRunReplies, AreSomeRunReplies, AreAloneReplies, AreFirstAloneReplies, MayBeGranted, RunsSome, settings_for, new_state, turn_for, fault_status};
ghost use Rattle.dav_run.specs.declared.play.Fault.TheVariants.{NotScript, Io, Memory};

use crate::print::{alone_line, reply_line};
use crate::request::Request;
use crate::script::{Script, ScriptError};
use dav_core::errors::NoMemory;
use dav_engine::{Body, Reply};
use dav_server::davhandler::{DavHandler, HandlerError};
use dav_server::exchange::{Exchange, GrantToken};
use dav_server::refusing::Refusing;
use dav_server::run::{RunFault, Step, run_refused};
use dav_store::memfs::MemFs;
use dav_store::memls::MemLs;
use std::alloc::{AllocError, AllocFailed, Global};
use std::io;
use std::io::{Read, Write};

/// The status after a script was played to its end.
pub const PLAYED: u8 = 0;

/// The status where the bytes aren't a script; nothing was written then.
pub const NOT_SCRIPT: u8 = 1;

/// The status where a read or a write failed.
pub const IO_FAILED: u8 = 2;

/// The status where memory ran out; the replies before that were written.
pub const OUT_OF_MEMORY: u8 = 3;

/// The most bytes that a script may have.
pub const MAX_SCRIPT_BYTES: usize = 16_777_216;

// The first fault.
#[derive(Clone, Copy, Debug, PartialEq, Eq)]
enum Fault {
    NotScript,
    Io,
    Memory,
}

impl From<io::Error> for Fault {
    ghost from_gives = { λ _ e. e ≡ Io };

    fn from(_error: io::Error) -> Fault {
        Fault::Io
    }
}

impl From<AllocError> for Fault {
    ghost from_gives = { λ _ e. e ≡ Memory };

    fn from(_error: AllocError) -> Fault {
        Fault::Memory
    }
}

impl<T: Drop> From<AllocFailed<T>> for Fault {
    ghost from_gives = { λ _ e. e ≡ Memory };

    fn from(_error: AllocFailed<T>) -> Fault {
        Fault::Memory
    }
}

impl From<HandlerError> for Fault {
    ghost use Rattle.dav_server.specs.declared.davhandler.HandlerError.{HandlerError};

    ghost from_gives = { λ error e. (e ≢ Io) × (e ≡ NotScript ↔ error ≡ HandlerError.BadPrefix) };

    fn from(error: HandlerError) -> Fault {
        match error {
            HandlerError::BadPrefix => Fault::NotScript,
            HandlerError::Memory => Fault::Memory,
        }
    }
}

impl From<RunFault> for Fault {
    ghost from_gives = { λ _ e. e ≡ Memory };

    fn from(_fault: RunFault) -> Fault {
        Fault::Memory
    }
}

impl From<ScriptError> for Fault {
    ghost use Rattle.dav_run.specs.declared.script.ScriptError.{ScriptError};

    ghost from_gives = { λ error e. (e ≢ Io) × (e ≡ NotScript ↔ error ≡ ScriptError.NotScript) };

    fn from(error: ScriptError) -> Fault {
        match error {
            ScriptError::NotScript => Fault::NotScript,
            ScriptError::Memory => Fault::Memory,
        }
    }
}

/// Reads a script to its end, plays it on a new server, and writes one line of JSON per reply. Where the script has
/// `alone`, it writes the place of that request after them, and the replies of the later requests that name its token as
/// its principal, run alone on a second server. Returns [`PLAYED`], or the status of the first fault: after
/// [`OUT_OF_MEMORY`] the lines that were written are the first of these. Where memory ran out, but the replies before
/// that can't be written, the status is [`IO_FAILED`].
///
/// Of the replies that are written the promises of [`DavHandler::run`] are true; and the headline of [`run_refused`] is, where the
/// server begins empty and has locks, and no two requests hand in one token.
pub fn play<R: Read, W: Write>(alloc: Global, reader: &mut R, writer: &mut W) -> u8
    ensures status { result ≤ 3 }
    ensures played { result ≡ 0 → IfSome (R.remaining reader.old) (λ text.
        (lines : List ℕ) × Plays text lines
        × Appends (W.contents writer.old) (W.contents writer.new) lines) }
    ensures not_script { result ≡ 1
        → IfSome (R.remaining reader.old) (λ text. ¬ IsPlayable text) }
    ensures untouched { result ≡ 1 → writer.new ≡ writer.old }
    ensures short { result ≡ 3 → IfSome (R.remaining reader.old) (λ text.
        (lines : List ℕ) × PlaysSome text lines
        × Appends (W.contents writer.old) (W.contents writer.new) lines) }
{
    match play_through(alloc, reader, writer) {
        Ok(()) => PLAYED,
        Err(fault) => status_of(fault),
    }
}

// The status of a fault.
fn status_of(fault: Fault) -> u8
    ensures { result ≡ fault_status fault }
{
    match fault {
        Fault::NotScript => NOT_SCRIPT,
        Fault::Io => IO_FAILED,
        Fault::Memory => OUT_OF_MEMORY,
    }
}

// Plays the reader's script, and writes the replies.
fn play_through<R: Read, W: Write>(
    alloc: Global,
    reader: &mut R,
    writer: &mut W,
) -> Result<(), Fault>
    ensures played { OnOk result (IfSome (R.remaining reader.old) (λ text.
        (lines : List ℕ) × Plays text lines
        × Appends (W.contents writer.old) (W.contents writer.new) lines)) }
    ensures not_script { IsErrOf result NotScript
        → IfSome (R.remaining reader.old) (λ text. ¬ IsPlayable text) }
    ensures untouched { IsErrOf result NotScript → writer.new ≡ writer.old }
    ensures short { IsErrOf result Memory → IfSome (R.remaining reader.old) (λ text.
        (lines : List ℕ) × PlaysSome text lines
        × Appends (W.contents writer.old) (W.contents writer.new) lines) }
{
    let script = read_script(alloc, reader)?;
    play_all(alloc, &script, writer)?;
    match script.alone {
        None => Ok(()),
        Some(place) => play_alone(alloc, &script, place, writer),
    }
}

// Plays all requests of a script on a new server, and writes the replies.
fn play_all<W: Write>(alloc: Global, script: &Script, writer: &mut W) -> Result<(), Fault>
    ensures prefix { OnOk result (IsPrefix (script_content script.now).prefix) }
    ensures played { OnOk result ((lines : List ℕ) × AreRunReplies (script_content script.now) lines
        × Appends (W.contents writer.old) (W.contents writer.new) lines) }
    ensures bad { IsErrOf result NotScript → ¬ IsPrefix (script_content script.now).prefix }
    ensures untouched { IsErrOf result NotScript → writer.new ≡ writer.old }
    ensures short { IsErrOf result Memory → (lines : List ℕ)
        × ((lines ≡ []) ⊎ (IsPrefix (script_content script.now).prefix
        × AreSomeRunReplies (script_content script.now) lines))
        × Appends (W.contents writer.old) (W.contents writer.new) lines }
{
    let mut handler = server_of(alloc, script)?;
    let steps = turns_of(alloc, &script.requests)?;
    play_turns(&mut handler, alloc, steps, writer)
}

// Plays the requests after the one at `place` that name its token as its principal, on a new server on which the
// requests up to that one were played. Writes the place and the replies.
fn play_alone<W: Write>(
    alloc: Global,
    script: &Script,
    place: usize,
    writer: &mut W,
) -> Result<(), Fault>
    requires { place < length script.now.requests.items }
    ensures played { OnOk result
        ((lines : List ℕ) × AreAloneReplies (script_content script.now) place lines
        × Appends (W.contents writer.old) (W.contents writer.new) lines) }
    ensures bad { IsErrOf result NotScript → ¬ IsPrefix (script_content script.now).prefix }
    ensures short { IsErrOf result Memory → (lines : List ℕ)
        × ((lines ≡ []) ⊎ AreFirstAloneReplies (script_content script.now) place lines)
        × Appends (W.contents writer.old) (W.contents writer.new) lines }
{
    let (first, later) = script.requests.split_at(place + 1);
    let mut handler = server_of(alloc, script)?;
    let first = turns_of(alloc, first)?;
    let own = own_steps(alloc, &script.requests[place], later)?;
    run_refused(&mut handler, alloc, first)?;
    write_place(alloc, place, writer)?;
    play_turns(&mut handler, alloc, own, writer)
}

// Plays requests on a server, one after another. The reply to each is written before the next is played, so that only one
// is held at a time.
fn play_turns<W: Write>(
    handler: &mut DavHandler<Refusing<MemFs>, MemLs>,
    alloc: Global,
    steps: Vec<Step<'_>>,
    writer: &mut W,
) -> Result<(), Fault>
    ensures played { OnOk result ((replies : List said.Reply)
        × AnswersAll handler.old.server steps.entry.items replies handler.new.server
        × Appends (W.contents writer.old) (W.contents writer.new) (lines_of replies)) }
    ensures err { IfErr result (λ e. e ≢ NotScript) }
    ensures short { IsErrOf result Memory → (replies : List said.Reply)
        × RunsSome handler.old.server steps.entry.items replies
        × Appends (W.contents writer.old) (W.contents writer.new) (lines_of replies) }
{
    for step in steps {
        let mut one = Vec::new(alloc);
        one.push(step)?;
        play_together(handler, alloc, one, writer)?;
    }
    Ok(())
}

// Plays requests on a server, and writes their replies.
fn play_together<W: Write>(
    handler: &mut DavHandler<Refusing<MemFs>, MemLs>,
    alloc: Global,
    steps: Vec<Step<'_>>,
    writer: &mut W,
) -> Result<(), Fault>
    ensures same { handler.new.server.settings ≡ handler.old.server.settings }
    ensures played { OnOk result ((replies : List said.Reply)
        × AnswersAll handler.old.server steps.entry.items replies handler.new.server
        × Appends (W.contents writer.old) (W.contents writer.new) (lines_of replies)) }
    ensures err { IfErr result (λ e. e ≢ NotScript) }
    ensures short { IsErrOf result Memory → (replies : List said.Reply)
        × RunsSome handler.old.server steps.entry.items replies
        × Appends (W.contents writer.old) (W.contents writer.new) (lines_of replies) }
{
    match run_refused(handler, alloc, steps) {
        Ok(replies) => write_replies(alloc, &replies, writer),
        Err(fault) => {
            write_replies(alloc, &fault.replies, writer)?;
            Err(Fault::Memory)
        }
    }
}

// The script in a reader.
fn read_script<R: Read>(alloc: Global, reader: &mut R) -> Result<Script, Fault>
    ensures ok { IfOk result (λ script. IfSome (R.remaining reader.old) (λ text.
        IsShort text × IsScript text (script_content script))) }
    ensures there { IfOk result (λ script.
        IfSome script.alone (λ place. place < length script.requests.items)) }
    ensures not_script { IsErrOf result NotScript
        → IfSome (R.remaining reader.old) (λ text. ¬ IsPlayable text) }
{
    let bytes = read_bytes(alloc, reader)?;
    Ok(Script::from_bytes(alloc, &bytes)?)
}

// All bytes that a reader has left. Each read but the last returns at least one byte, so the loop has enough turns to
// find out that there are too many bytes.
fn read_bytes<R: Read>(alloc: Global, reader: &mut R) -> Result<Vec<u8>, Fault>
    ensures ok { IfOk result (λ bytes. IfSome (R.remaining reader.old) (λ text.
        (bytes.items ≡ text) × IsShort text)) }
    ensures not_script { IsErrOf result NotScript
        → IfSome (R.remaining reader.old) (λ text. ¬ IsShort text) }
{
    let mut bytes = Vec::new(alloc);
    let mut piece = [0u8; 4096];
    for _ in 0..=MAX_SCRIPT_BYTES {
        let count = reader.read(&mut piece)?;
        if count == 0 {
            return Ok(bytes);
        }
        if bytes.len() + count > MAX_SCRIPT_BYTES {
            return Err(Fault::NotScript);
        }
        bytes.extend_from_slice(&piece[..count])?;
    }
    Err(Fault::NotScript)
}

// An empty list of locks, where there is to be one.
fn locks_of(alloc: Global, wanted: bool) -> Result<Option<MemLs>, NoMemory>
    ensures { IfOk result (λ ls. ls ≡ (if wanted then Some [] else None)) }
{
    if wanted {
        Ok(Some(MemLs::new(alloc)?))
    } else {
        Ok(None)
    }
}

// The server that a script sets up.
fn server_of(alloc: Global, script: &Script) -> Result<DavHandler<Refusing<MemFs>, MemLs>, Fault>
    ensures prefix { OnOk result (IsPrefix (script_content script.now).prefix) }
    ensures settings { IfOk result (λ h.
        h.server.settings ≡ settings_for (script_content script.now)) }
    ensures state { IfOk result (λ h.
        h.server.state ≡ new_state (script_content script.now)) }
    ensures bad { IsErrOf result NotScript → ¬ IsPrefix (script_content script.now).prefix }
    ensures err { IfErr result (λ e. e ≢ Io) }
{
    let fs = Refusing::new(MemFs::new_at(alloc, script.next)?);
    let ls = locks_of(alloc, script.locks)?;
    Ok(DavHandler::new(alloc, &script.prefix, script.methods, fs, ls)?)
}

// The steps of requests.
fn turns_of(alloc: Global, requests: &[Request]) -> Result<Vec<Step<'_>>, NoMemory>
    ensures { IfOk result (λ steps.
        steps.items ≡ map turn_for (map script_request requests.now)) }
{
    let mut steps = Vec::new(alloc);
    for request in requests {
        steps.push(turn_of(alloc, request)?)?;
    }
    Ok(steps)
}

// The steps of those of these requests that name the token of the request `grant` as its principal.
fn own_steps<'a>(
    alloc: Global,
    grant: &Request,
    requests: &'a [Request],
) -> Result<Vec<Step<'a>>, NoMemory>
    ensures { IfOk result (λ steps.
        (h : Lock) → MayBeGranted (turn_for (script_request grant.now)) h
        → HolderTurns h (map turn_for (map script_request requests.now)) steps.items) }
{
    let mut steps = Vec::new(alloc);
    for request in requests {
        let step = turn_of(alloc, request)?;
        if is_own(alloc, grant, request, &step)? {
            steps.push(step)?;
        }
    }
    Ok(steps)
}

// Whether a request, whose step this is, names the token of the request `grant` as its principal.
fn is_own(
    alloc: Global,
    grant: &Request,
    request: &Request,
    step: &Step<'_>,
) -> Result<bool, NoMemory>
    requires { step.now ≡ turn_for (script_request request.now) }
    ensures { IfOk result (λ own.
        (h : Lock) → MayBeGranted (turn_for (script_request grant.now)) h
        → (IsTrue own ↔ NamesLock h step.now.asked)) }
{
    match &grant.token {
        Some(token) if request.principal == grant.principal => {
            step.exchange.names(alloc, token.as_str())
        }
        _ => Ok(false),
    }
}

// The step of a request. The exchange accepts its moment.
fn turn_of(alloc: Global, request: &Request) -> Result<Step<'_>, NoMemory>
    ensures { IfOk result (λ step. step ≡ turn_for (script_request request.now)) }
{
    let body = body_of(&request.body)?;
    let refusals = request.refusals.clone()?;
    let principal = request.principal.as_deref();
    let token = token_of(alloc, &request.token)?;
    let exchange = Exchange::new(&request.head, body, principal, request.moment, token).unwrap();
    Ok(Step { exchange, refusals })
}

// The same token.
fn token_of(alloc: Global, token: &Option<GrantToken>) -> Result<Option<GrantToken>, NoMemory>
    ensures { IfOk result (λ copy. copy ≡ token.now) }
{
    let Some(token) = token else {
        return Ok(None);
    };
    match GrantToken::new(alloc, token.as_str()) {
        Ok(copy) => Ok(Some(copy)),
        Err(_) => Err(NoMemory),
    }
}

// The same body, which shares its bytes.
fn body_of(body: &Body) -> Result<Body, NoMemory>
    ensures { IfOk result (λ copy. copy ≡ body.now) }
{
    match body {
        Body::None => Ok(Body::None),
        Body::Bytes(bytes) => Ok(Body::Bytes(bytes.clone()?)),
        Body::Tree(tree) => Ok(Body::Tree(tree.clone()?)),
        Body::Malformed => Ok(Body::Malformed),
    }
}

// Writes the line of a place.
fn write_place<W: Write>(alloc: Global, place: usize, writer: &mut W) -> Result<(), Fault>
    ensures written { OnOk result
        (Appends (W.contents writer.old) (W.contents writer.new) (place_line place)) }
    ensures err { IfErr result (λ e. e ≢ NotScript) }
    ensures short { IsErrOf result Memory → writer.new ≡ writer.old }
{
    let line = alone_line(alloc, place)?;
    writer.write_all(line.as_bytes())?;
    writer.flush()?;
    Ok(())
}

// Writes one line for each reply. A line is flushed before the next one is made.
fn write_replies<W: Write>(alloc: Global, replies: &[Reply], writer: &mut W) -> Result<(), Fault>
    ensures written { OnOk result
        (Appends (W.contents writer.old) (W.contents writer.new) (lines_of replies.now)) }
    ensures err { IfErr result (λ e. e ≢ NotScript) }
    ensures short { IsErrOf result Memory → (k : ℕ)
        × Appends (W.contents writer.old) (W.contents writer.new) (lines_of (take k replies.now)) }
{
    for reply in replies {
        let line = reply_line(alloc, reply)?;
        writer.write_all(&line)?;
        writer.flush()?;
    }
    Ok(())
}
