//! One connection, step by step.
ghost use Rattle.std.specs.Prelude.{◌≡◌, ◌≢◌, ℕ, ◌<◌, ◌≤◌, ◌⊎◌, ◌↔◌, [], ◌++◌, length, MatchBool, IsTrue, IsFalse, OnOk, OnErr, true};
ghost use Rattle.http_server.specs.declared.state.TheConstants.{MAX_HEADERS};
ghost use Rattle.dav_wire.specs.Refusals.{closing_text, known_status};

use crate::answer::{Answerer, Asked, Rejection, Stop};
use crate::explained::explanation;
use crate::intake::{Found, Intake};
use crate::reply::{write_head, write_rest};
use crate::state::{Config, Reason, Refusal, State, closing_head, known_status};
use bytes::{Buf, BufMut, BytesMut};
use http_server::{Log, Response, Rope};
use http1::WriteError;
use httparse::spans::HeaderSpan;
use std::alloc::{AllocError, Global};

const CONTINUE: &[u8] = b"HTTP/1.1 100 Continue\r\n\r\n";

/// A connection between two calls.
#[derive(Drop)]
pub(crate) struct Line {
    pub(crate) alloc: Global,
    pub(crate) state: State,
    /// Why it was aborted, where it was.
    pub(crate) stop: Stop,
    pub(crate) intake: Intake,
    /// What waits to be sent.
    pub(crate) output: Rope,
    /// It is filled anew for each request.
    pub(crate) response: Response,
    /// The input after each piece that came, and where that begins.
    pub(crate) reads: Log<BytesMut, usize>,
    /// The output before each piece that was sent, and how long that was.
    pub(crate) writes: Log<Rope, usize>,
    /// The requests that the answerer got, with its responses.
    pub(crate) calls: Log<Asked, Response>,
    /// The heads that the answerer judged, and why it didn't take the request, if it didn't.
    pub(crate) judgements: Log<BytesMut, Option<Rejection>>,
}

impl Line {
    ghost use Rattle.dav_wire.specs.History.{Acts, new_history, after_taken, after_sent};
    ghost use Rattle.dav_wire.specs.Place.{place, work, history_of, Holds, KeepsLine, Reaches, IsAtHead, IsGiven, IsAnswered, FitsIn, KeepsBody, IsUnrefused, invited, aborted, closed_with};
    ghost use Rattle.dav_wire.specs.Refusals.{known_status, closing_text, is_bare, refusal_status};

    pub(crate) fn new(alloc: Global, config: Config) -> Line
        ensures history { history_of result ≡ new_history }
        ensures config { result.intake.config ≡ config }
        ensures holds { Holds result }
    {
        Line {
            alloc,
            state: State::Open,
            stop: Stop::Memory,
            intake: Intake::new(alloc, config),
            output: Rope::new(alloc),
            response: Response::new(alloc),
            reads: Log::new(),
            writes: Log::new(),
            calls: Log::new(),
            judgements: Log::new(),
        }
    }

    /// Takes what came; no bytes are the end, after which nothing is taken.
    pub(crate) fn take(&mut self, bytes: &[u8]) -> Result<(), AllocError>
        ensures ok { OnOk result
            (history_of self.new ≡ after_taken (history_of self.old) bytes.now) }
        ensures err { OnErr result (history_of self.new ≡ history_of self.old) }
        ensures holds { Holds self.old → Holds self.new }
        ensures config { self.new.intake.config ≡ self.old.intake.config }
    {
        if self.intake.ended {
            return Ok(());
        }
        let len = self.intake.input.len();
        self.intake.input.extend_from_slice(bytes)?;
        self.reads = self.reads.and(&self.intake.input, &len);
        self.intake.ended = bytes.is_empty();
        Ok(())
    }

    /// Drops what was sent.
    pub(crate) fn sent(&mut self, count: usize)
        requires { count ≤ length self.old.output.items }
        ensures history { history_of self.new ≡ after_sent (history_of self.old) count }
        ensures holds { Holds self.old → Holds self.new }
        ensures config { self.new.intake.config ≡ self.old.intake.config }
    {
        self.writes = self.writes.and(&self.output, &count);
        self.output.advance(count);
    }

    pub(crate) fn is_open(&self) -> bool
        ensures { IsTrue result ↔ (self.now.state ≡ State.Open) }
    {
        matches!(self.state, State::Open)
    }

    pub(crate) fn is_aborted(&self) -> bool
        ensures { IsTrue result ↔ (self.now.state ≡ State.Aborted) }
    {
        matches!(self.state, State::Aborted)
    }

    /// Takes one event from the input, where there is room for so many bytes of a body. Whether there may be more to do.
    pub(crate) fn step<S: Answerer>(
        &mut self,
        answerer: &mut S,
        spans: &mut [HeaderSpan],
        room: usize,
    ) -> bool
        requires { length spans.old ≡ MAX_HEADERS }
        ensures reaches { Holds self.old → Reaches (work (place self.old.intake)) result self.new }
        ensures acts { self.new.state ≢ State.Aborted → Acts S.judges S.answers
            answerer.old answerer.new (history_of self.old) (history_of self.new) }
        ensures settled { self.old.state ≢ State.Open → self.new ≡ self.old }
        ensures keeps { KeepsLine self.old self.new }
        ensures fits { FitsIn room self.old.intake → FitsIn room self.new.intake }
        ensures told { (told : ℕ) → self.old.state ≡ State.Open
            → self.new.state ≡ State.Closing (Reason.Refused (Refusal.NoRoom told))
            → told ≡ room }
    {
        if !self.is_open() || self.output.len() > self.intake.config.max_pending {
            return false;
        }
        match self.intake.read(spans, room) {
            Ok(Found::Nothing) => false,
            Ok(Found::End) => self.close(Reason::EndOfInput),
            Ok(Found::Head(waits)) => self.judge(answerer, waits),
            Ok(Found::Part) => true,
            Ok(Found::Request(asked, is_head)) => self.answer(answerer, &asked, is_head),
            Ok(Found::Refused(why)) => {
                self.tell(answerer, why);
                self.refuse(why)
            }
            Err(_) => self.abort(Stop::Memory),
        }
    }

    // Has a head judged, before anything of its body is taken: its request is rejected, or its sender is told to go on, if it
    // waits for that.
    fn judge<S: Answerer>(&mut self, answerer: &mut S, waits: bool) -> bool
        ensures reaches { (old : ℕ) → work (place self.old.intake) < old
            → IsAtHead (place self.old.intake) (history_of self.old) waits
            → Reaches old result self.new }
        ensures acts { self.new.state ≢ State.Aborted → Acts S.judges S.answers
            answerer.old answerer.new (history_of self.old) (history_of self.new) }
        ensures keeps { KeepsLine self.old self.new }
        ensures body { KeepsBody self.old.intake self.new.intake }
        ensures unrefused { IsUnrefused self.old self.new }
    {
        let verdict = match answerer.judge(self.intake.head.as_slice()) {
            Ok(verdict) => verdict,
            Err(why) => return self.abort(why),
        };
        self.judgements = self.judgements.and(&self.intake.head, &verdict);
        match verdict {
            Some(why) => self.end(Reason::Rejected(why), why.status(), self.intake.is_head),
            None if waits => self.invite(),
            None => true,
        }
    }

    // Tells the sender of a head to go on.
    fn invite(&mut self) -> bool
        ensures written { MatchBool result
            (history_of self.new ≡ invited (history_of self.old))
            (history_of self.new ≡ aborted (history_of self.old)) }
        ensures intake { self.new.intake ≡ self.old.intake }
        ensures keeps { KeepsLine self.old self.new }
    {
        match self.output.put_slice(CONTINUE) {
            Ok(()) => true,
            Err(_) => self.abort(Stop::Memory),
        }
    }

    // Has a request answered.
    fn answer<S: Answerer>(&mut self, answerer: &mut S, asked: &Asked, is_head: bool) -> bool
        ensures reaches { (old : ℕ) → work (place self.old.intake) < old
            → IsGiven (place self.old.intake) (history_of self.old) asked.now is_head
            → Reaches old result self.new }
        ensures acts { self.new.state ≢ State.Aborted → Acts S.judges S.answers
            answerer.old answerer.new (history_of self.old) (history_of self.new) }
        ensures keeps { KeepsLine self.old self.new }
        ensures body { KeepsBody self.old.intake self.new.intake }
        ensures unrefused { IsUnrefused self.old self.new }
    {
        self.response.clear();
        if let Err(why) = answerer.answer(asked, &mut self.response) {
            return self.abort(why);
        }
        self.calls = self.calls.and(asked, &self.response);
        self.reply(is_head)
    }

    // Writes the response, after which the connection goes on, or is closed.
    fn reply(&mut self, is_head: bool) -> bool
        ensures reaches { (old : ℕ) → work (place self.old.intake) < old
            → IsAnswered (place self.old.intake) (history_of self.old) self.old.response is_head
            → Reaches old result self.new }
        ensures acts { (self.new.calls ≡ self.old.calls)
            × (self.new.judgements ≡ self.old.judgements) }
        ensures keeps { KeepsLine self.old self.new }
        ensures body { KeepsBody self.old.intake self.new.intake }
        ensures unrefused { IsUnrefused self.old self.new }
    {
        let server = &mut self.intake.server;
        match write_head(self.alloc, server, &mut self.output, &self.response) {
            Ok(()) => {}
            Err(error) => return self.fail(error),
        }
        let server = &mut self.intake.server;
        let Ok(()) = write_rest(server, &mut self.output, &mut self.response.body, is_head) else {
            return self.abort(Stop::Memory);
        };
        if self.intake.server.is_closed() {
            return self.close(Reason::Asked);
        }
        true
    }

    // Ends where a response can't be sent.
    fn fail(&mut self, error: WriteError) -> bool
        ensures written { ((history_of self.new
            ≡ closed_with (Reason.Unsendable error) (closing_text true 500) (history_of self.old))
            × (error ≢ WriteError.OutOfMemory))
            ⊎ (history_of self.new ≡ aborted (history_of self.old)) }
        ensures stops { IsFalse result }
        ensures intake { self.new.intake ≡ self.old.intake }
        ensures keeps { KeepsLine self.old self.new }
        ensures acts { (self.new.calls ≡ self.old.calls)
            × (self.new.judgements ≡ self.old.judgements) }
    {
        match error {
            WriteError::OutOfMemory => self.abort(Stop::Memory),
            _ => self.end(Reason::Unsendable(error), 500, true),
        }
    }

    // Tells an answerer of a request that is refused for its body.
    fn tell<S: Answerer>(&self, answerer: &mut S, why: Refusal)
        ensures { answerer.new ≡ answerer.old }
    {
        if why.is_of_body() {
            answerer.hear_refused(self.intake.head.as_slice(), why.status());
        }
    }

    // Refuses the next request.
    fn refuse(&mut self, why: Refusal) -> bool
        ensures written { (history_of self.new
            ≡ closed_with (Reason.Refused why)
            (closing_text (is_bare why self.old.intake.is_head) (refusal_status why))
            (history_of self.old))
            ⊎ (history_of self.new ≡ aborted (history_of self.old)) }
        ensures stops { IsFalse result }
        ensures intake { self.new.intake ≡ self.old.intake }
        ensures keeps { KeepsLine self.old self.new }
        ensures acts { (self.new.calls ≡ self.old.calls)
            × (self.new.judgements ≡ self.old.judgements) }
    {
        self.end(
            Reason::Refused(why),
            why.status(),
            why.is_bare(self.intake.is_head),
        )
    }

    // Ends with a text of the connection's own.
    fn end(&mut self, why: Reason, status: u16, bare: bool) -> bool
        ensures written { (history_of self.new
            ≡ closed_with why (closing_text bare (known_status status)) (history_of self.old))
            ⊎ (history_of self.new ≡ aborted (history_of self.old)) }
        ensures stops { IsFalse result }
        ensures intake { self.new.intake ≡ self.old.intake }
        ensures keeps { KeepsLine self.old self.new }
        ensures acts { (self.new.calls ≡ self.old.calls)
            × (self.new.judgements ≡ self.old.judgements) }
    {
        match put_closing(&mut self.output, status, bare) {
            Ok(()) => self.close(why),
            Err(_) => self.abort(Stop::Memory),
        }
    }

    // Closes, once what waits is sent.
    fn close(&mut self, why: Reason) -> bool
        ensures written { self.new ≡ record (self.old) { state = State.Closing why } }
        ensures stops { IsFalse result }
    {
        self.state = State::Closing(why);
        false
    }

    // Drops what waits: nothing more may be sent.
    fn abort(&mut self, why: Stop) -> bool
        ensures written { history_of self.new ≡ aborted (history_of self.old) }
        ensures stops { IsFalse result }
        ensures intake { self.new.intake ≡ self.old.intake }
        ensures keeps { KeepsLine self.old self.new }
        ensures acts { (self.new.calls ≡ self.old.calls)
            × (self.new.judgements ≡ self.old.judgements) }
    {
        self.output.clear();
        self.state = State::Aborted;
        self.stop = why;
        false
    }
}

// Writes the last response of a connection, with the words of its status, or bare.
fn put_closing(output: &mut Rope, status: u16, bare: bool) -> Result<(), AllocError>
    ensures { OnOk result (output.new.items
        ≡ output.old.items ++ closing_text bare (known_status status)) }
{
    output.put_slice(closing_head(status))?;
    if bare {
        return Ok(());
    }
    output.put_slice(explanation(known_status(status)))
}
