//! Whole runs: requests one after another.
ghost use Rattle.std.specs.Option.{is_some};
ghost use Rattle.std.specs.Prelude.{◌≡◌, ◌<◌, ◌≤◌, ◌++◌, ◌∷◌, [], true, vec_len, IfOk, IfErr, OnOk, OnErr};
ghost use Rattle.std.specs.Vec.{vec_capacity};
ghost use Rattle.dav_core.specs.World.{last_moment};
ghost use Rattle.dav_server.specs.Headline.{FromAnEmptyServer};
ghost use Rattle.dav_server.specs.Isolation.{AreLoaded};
ghost use Rattle.dav_server.specs.Promises.{Promises};
ghost use Rattle.dav_server.specs.Server.{AddsReply, AnswersAll, AnswersSome, StopsIn, at_turn, turns};

#[cfg(test)]
mod tests;

use crate::davhandler::DavHandler;
use crate::exchange::Exchange;
use crate::refusing::Refusing;
use dav_core::errors::{FsError, NoMemory};
use dav_core::fs::DavFileSystem;
use dav_core::ls::DavLockSystem;
use dav_engine::Reply;
use dav_store::memfs::MemFs;
use dav_store::memls::MemLs;
use std::alloc::Global;
use std::marker::Model;

/// A request, and which calls of the store are refused while it is answered: one entry for each call, an error where that
/// call is refused. Past the end of the list no call is refused.
#[derive(Drop)]
pub struct Step<'a> {
    /// The request.
    pub exchange: Exchange<'a>,
    /// The entries.
    pub refusals: Vec<Option<FsError>>,
}

impl<'a> Model for Step<'a> {
    ghost use Rattle.std.specs.Prelude.{Some};
    ghost use Rattle.dav_core.specs.contracts.errors.FsError as fs_error;
    ghost use Rattle.dav_engine.specs.contracts.request.Body as request_body;
    ghost use Rattle.dav_server.specs.Run as said;
    ghost use Rattle.dav_server.specs.ServerCode.{coded_turn};

    ghost Value = { said.Turn };

    ghost coded = { coded_turn request_body.the_row.coded fs_error.the_row.coded };

    ghost view = { λ s. record { asked = s.exchange; refusals = Some s.refusals.items } };
}

/// Memory ran out: the replies that were given before.
#[derive(Drop)]
pub struct RunFault {
    /// The replies, in order.
    pub replies: Vec<Reply>,
}

// Adds a reply at the end, where there is room.
fn add(replies: &mut Vec<Reply>, reply: Reply)
    requires { vec_len replies.old < vec_capacity replies.old }
    ensures { replies.new.items ≡ replies.old.items ++ reply ∷ [] }
{
    let _ = replies.push(reply);
}

// Answers a request, and adds the reply at the end. The room for it is made before the request is answered.
fn answer_next<F: DavFileSystem, L: DavLockSystem>(
    handler: &mut DavHandler<F, L>,
    alloc: Global,
    exchange: &Exchange<'_>,
    replies: &mut Vec<Reply>,
) -> Result<(), NoMemory>
    ensures same { handler.new.server.settings ≡ handler.old.server.settings }
    ensures ok { OnOk result (AddsReply handler.old.server exchange.now
        replies.old.items replies.new.items handler.new.server) }
    ensures replies { OnErr result (replies.new.items ≡ replies.old.items) }
    ensures cut { OnErr result (StopsIn handler.old.server exchange.now
        handler.new.server) }
    ensures moment { exchange.now.moment ≤ last_moment }
{
    // Reading the moment lets the checker know that HTTP can write it.
    let _ = &exchange.moment;
    replies.reserve(1)?;
    let reply = handler.handle(alloc, exchange)?;
    add(replies, reply);
    Ok(())
}

impl<F: DavFileSystem, L: DavLockSystem> DavHandler<F, L> {
    /// Answers requests, one after another: the replies, the store and the locks are those of a run of the machine, which promises
    /// what the record `Promises` says. Requests that only read change nothing, nor do those that are answered 412, 416 or 423 (but
    /// a PUT or PATCH where the store refused to seek, and of the list a LOCK with If-None-Match `*` where it refused the empty
    /// file and a lock has its token); what is there is kept under If-None-Match `*`; no request
    /// ends a lock whose token it doesn't name, one that hands in the lock's token for a lock of its own aside; locks that cover
    /// one path stay shared. From a world, as a new store holds one: a 304 is true; no update on condition of a tag is lost; equal
    /// entity tags show equal bytes (RFC 9110, sections 8.8.1 and 13.1); no request changes what an exclusive lock covers, nor which
    /// members the folder has that such a lock is on, of either depth, unless it names the lock's token as the lock's principal
    /// (RFC 4918, sections 7 and 7.4); and the href of each response of a multistatus leads to a path that its request is about
    /// (RFC 4918, section 8.3).
    ///
    /// `RunFault` where memory ran out outside the store, with the replies that were given before; they are those of a run
    /// of the machine, and of the next request at most the first calls of the store were made, each of them whole; one that only
    /// reads has changed nothing, and no lock was granted whose token its client doesn't learn.
    pub fn run(&mut self, alloc: Global, exchanges: &[Exchange<'_>]) -> Result<Vec<Reply>, RunFault>
        ensures same { self.new.server.settings ≡ self.old.server.settings }
        ensures run { IfOk result (λ replies.
            AnswersAll self.old.server (turns exchanges.now) replies.items self.new.server) }
        ensures promises { IfOk result (λ replies.
            Promises self.old.server (turns exchanges.now) replies.items) }
        ensures fault { IfErr result (λ fault.
            AnswersSome self.old.server (turns exchanges.now) fault.replies.items self.new.server) }
    {
        let mut replies = Vec::new(alloc);
        for exchange in exchanges {
            match answer_next(self, alloc, exchange, &mut replies) {
                Ok(()) => {}
                Err(_) => return Err(RunFault { replies }),
            }
        }
        Ok(replies)
    }
}

// Loads the refusals of a step, and answers its request.
fn answer_turn(
    handler: &mut DavHandler<Refusing<MemFs>, MemLs>,
    alloc: Global,
    step: Step<'_>,
    replies: &mut Vec<Reply>,
) -> Result<(), NoMemory>
    ensures same { handler.new.server.settings ≡ handler.old.server.settings }
    ensures ok { OnOk result (AddsReply (at_turn step.entry handler.old.server) step.entry.asked
        replies.old.items replies.new.items handler.new.server) }
    ensures replies { OnErr result (replies.new.items ≡ replies.old.items) }
    ensures cut { OnErr result (StopsIn (at_turn step.entry handler.old.server)
        step.entry.asked handler.new.server) }
    ensures moment { step.entry.asked.moment ≤ last_moment }
    ensures loaded { is_some step.entry.refusals ≡ true }
{
    let Step { exchange, refusals } = step;
    handler.fs.load(refusals);
    answer_next(handler, alloc, &exchange, replies)
}

/// Answers requests, one after another, on a store in memory that refuses the calls which each turn names: the replies, the
/// store and the locks are those of a run of the machine, and where the store's `was_short` is false, no other run leaves
/// it so. It promises what [`DavHandler::run`] does. And, since each turn has its own refusals: while an exclusive lock of infinite
/// depth stands on a folder, only its holder names it and no request hands in its token, the folder and the answers to the holder
/// are as if the holder's requests were alone; from no locks on, it is enough that the lock was granted and that the tokens which
/// are handed in differ, and then no lock ends unless the request names its token. All this in one piece, from an empty server on,
/// is the clause `headline` (RFC 4918, sections 6.5 and 7).
///
/// `RunFault` where memory ran out outside the store, with the replies that were given before; they are those of a run of
/// the machine, and of the next request at most the first calls of the store were made, each of them whole; one that only reads
/// has changed nothing, and no lock was granted whose token its client doesn't learn.
pub fn run_refused(
    handler: &mut DavHandler<Refusing<MemFs>, MemLs>,
    alloc: Global,
    steps: Vec<Step<'_>>,
) -> Result<Vec<Reply>, RunFault>
    ensures same { handler.new.server.settings ≡ handler.old.server.settings }
    ensures run { IfOk result (λ replies.
        AnswersAll handler.old.server steps.entry.items replies.items handler.new.server) }
    ensures promises { IfOk result (λ replies.
        Promises handler.old.server steps.entry.items replies.items) }
    ensures loaded { OnOk result (AreLoaded steps.entry.items) }
    ensures headline { IfOk result (λ replies. FromAnEmptyServer
        handler.old.server steps.entry.items replies.items handler.new.server) }
    ensures fault { IfErr result (λ fault.
        AnswersSome handler.old.server steps.entry.items fault.replies.items handler.new.server) }
{
    let mut replies = Vec::new(alloc);
    for step in steps {
        match answer_turn(handler, alloc, step, &mut replies) {
            Ok(()) => {}
            Err(_) => return Err(RunFault { replies }),
        }
    }
    Ok(replies)
}
