//! A keeper that follows another one.
ghost use Rattle.std.specs.Prelude.{◌≡◌, ◌∷◌, ◌++◌, [], List, ℕ, None, OnOk, codes, decimal};
ghost use Rattle.std.specs.Str.{IsTrimAsciiStart};
ghost use Rattle.http_server.specs.Response.{IsBlank, IsResponse, fields_of};
ghost use Rattle.dav_follow.specs.Following.{begins_to_read, elsewhere_fields, verdict_behind};
ghost use Rattle.dav_wire.specs.Explained.{explanation};

use crate::replays::Replays;
use bytes::Bytes;
use dav_turns::Keeper;
use dav_wire::{Answerer, Asked, Rejection, Stop, explanation};
use http::StatusCode;
use http_header::{CONTENT_TYPE, HeaderName, HeaderValue, RETRY_AFTER};
use http_server::Response;
use std::alloc::Global;

/// Answers what only reads, as its keeper does, and says for how many seconds that may have missed
/// what another one kept; to all else that it may be sent again soon. Nothing is kept.
#[derive(Drop)]
pub struct Following<K> {
    /// What hears what another one keeps.
    pub keeper: K,
    alloc: Global,
    clock: Clock,
}

/// When all that another one kept was heard last.
#[derive(Clone, Copy, Debug, PartialEq, Eq)]
struct Clock {
    /// The seconds of the front's steady clock.
    seconds: u64,
    /// The seconds at which it was.
    heard: u64,
    /// Whether it is so now.
    is_level: bool,
}

impl<K> Following<K> {
    ghost use Rattle.dav_follow.specs.Following.{clock_of, first_clock, seconds_behind};

    /// What follows another one by this keeper, which heard all that that one kept.
    pub fn new(alloc: Global, keeper: K) -> Following<K>
        ensures keeper { result.keeper ≡ keeper }
        ensures clock { clock_of result ≡ first_clock }
    {
        Following {
            keeper,
            alloc,
            clock: Clock {
                seconds: 0,
                heard: 0,
                is_level: true,
            },
        }
    }

    /// The keeper.
    pub fn into_keeper(self) -> K
        ensures { result ≡ self.keeper }
    {
        let Following { keeper, .. } = self;
        keeper
    }

    /// For how many seconds what another one kept may not have been heard.
    pub fn seconds_behind(&self) -> u64
        ensures { result ≡ seconds_behind (clock_of self.now) }
    {
        self.clock.seconds.saturating_sub(self.clock.heard)
    }

    // Says in a response for how many seconds it is behind.
    fn say(&self, response: &mut Response) -> Result<(), Stop>
        ensures fields { OnOk result (fields_of response.new ≡ fields_of response.old
            ++ (codes "vuldarg-follows", decimal (seconds_behind (clock_of self.now))) ∷ []) }
        ensures status { response.new.status ≡ response.old.status }
        ensures body { response.new.body ≡ response.old.body }
    {
        let behind = self.seconds_behind();
        let text = format!(in self.alloc; "{behind}")?;
        let Ok(value) = HeaderValue::from_bytes(self.alloc, text.as_bytes()) else {
            return Err(Stop::Memory);
        };
        Ok(response.add_header(HeaderName::from_static("vuldarg-follows"), value)?)
    }
}

impl<K: Replays> Following<K> {
    ghost use Rattle.std.specs.Prelude.{IfOk};
    ghost use Rattle.dav_follow.specs.Following.{after_replay, clock_of};

    /// Hears what another one kept since. False where this one has to be opened anew for that: until
    /// then it is behind.
    pub fn catch_up(&mut self) -> Result<bool, Stop>
        ensures heard { IfOk result (λ goes. K.replayed self.old.keeper goes self.new.keeper) }
        ensures clock { IfOk result (λ goes.
            clock_of self.new ≡ after_replay goes (clock_of self.old)) }
    {
        let goes = self.keeper.replay()?;
        self.clock.is_level = goes;
        if goes {
            self.clock.heard = self.clock.seconds;
        }
        Ok(goes)
    }
}

// Whether a request line begins with the method of a request that only reads.
fn begins_to_read(line: &[u8]) -> bool
    ensures { result ≡ begins_to_read line.now }
{
    line.starts_with(b"GET ")
        || line.starts_with(b"HEAD ")
        || line.starts_with(b"OPTIONS ")
        || line.starts_with(b"PROPFIND ")
}

// Whether a head is of a request that only reads.
fn only_reads(head: &[u8]) -> bool
    ensures { (line : List ℕ) × IsTrimAsciiStart head.now line × (result ≡ begins_to_read line) }
{
    begins_to_read(head.trim_ascii_start())
}

// What is said of a request by its head, of which the keeper says this: one that it would take, and that doesn't only read, may be sent
// again.
fn verdict_behind(reads: bool, own: Option<Rejection>) -> Option<Rejection>
    ensures { result ≡ verdict_behind reads own }
{
    match own {
        None if !reads => Some(Rejection::Unavailable),
        _ => own,
    }
}

// Whether a request of which the keeper says this is told to come again, for it doesn't only read.
fn is_sent_elsewhere(reads: bool, own: Option<Rejection>) -> bool {
    !reads && own.is_none()
}

// Fills the response to a request that may be sent again in a second (RFC 9110, sections 10.2.3 and
// 15.6.4).
fn fill_elsewhere(response: &mut Response) -> Result<(), Stop>
    requires { IsBlank response.old }
    ensures { OnOk result
        (IsResponse 503 elsewhere_fields (explanation 503) response.new) }
{
    response.status = StatusCode::SERVICE_UNAVAILABLE;
    response.body.push(Bytes::from_static(explanation(503)))?;
    response.add_header(RETRY_AFTER, HeaderValue::from_static("1"))?;
    let text = HeaderValue::from_static("text/plain; charset=utf-8");
    Ok(response.add_header(CONTENT_TYPE, text)?)
}

impl<K: Replays> Answerer for Following<K> {
    ghost use Rattle.dav_follow.specs.Following.{AnswersBehind, JudgesBehind};

    ghost judges = { λ old head verdict new. JudgesBehind K.judges old head verdict new };

    ghost answers = { λ old asked sent new. AnswersBehind K.answers old asked sent new };

    fn judge(&mut self, head: &[u8]) -> Result<Option<Rejection>, Stop> {
        let reads = only_reads(head);
        let own = self.keeper.judge(head)?;
        if is_sent_elsewhere(reads, own) {
            self.keeper.hear_refused(head, 503);
        }
        Ok(verdict_behind(reads, own))
    }

    fn hear_refused(&mut self, head: &[u8], status: u16) {
        self.keeper.hear_refused(head, status);
    }

    fn answer(&mut self, asked: &Asked, response: &mut Response) -> Result<(), Stop> {
        if only_reads(asked.head.as_slice()) {
            self.keeper.answer(asked, response)?;
            self.say(response)?;
        } else {
            fill_elsewhere(response)?;
        }
        Ok(())
    }
}

impl<K: Replays> Keeper for Following<K> {
    ghost use Rattle.dav_follow.specs.Following.{KeepsBehind, PassesBehind, StaysBehind, clock_of};

    ghost greeted = { λ old bytes new. K.greeted old.keeper bytes new.keeper
        × (clock_of new ≡ clock_of old) };

    ghost listed = { λ old bytes new. K.listed old.keeper bytes new.keeper
        × (clock_of new ≡ clock_of old) };

    ghost placed = { λ old address new. K.placed old.keeper address new.keeper
        × (clock_of new ≡ clock_of old) };

    ghost passed = { λ old seconds date new. PassesBehind K.passed old seconds date new };

    ghost marked = { λ old new. StaysBehind old new };

    ghost kept = { λ old new. KeepsBehind K.is_at_rest old new };

    fn hear_hello(&mut self, bytes: &[u8]) {
        self.keeper.hear_hello(bytes);
    }

    fn hear_users(&mut self, bytes: &[u8]) -> Result<(), Stop> {
        self.keeper.hear_users(bytes)
    }

    fn hear_room(&self, bytes: &[u8]) {
        self.keeper.hear_room(bytes);
    }

    fn hear_address(&mut self, address: &[u8]) -> Result<(), Stop> {
        self.keeper.hear_address(address)
    }

    fn hear_clocks(&mut self, seconds: u64, date: u64) -> Result<(), Stop> {
        self.keeper.hear_clocks(seconds, date)?;
        self.clock.seconds = seconds;
        if self.clock.is_level {
            self.clock.heard = seconds;
        }
        Ok(())
    }

    // Another one keeps the mark.
    fn keep_mark(&mut self) -> Result<(), Stop> {
        Ok(())
    }

    // Where something was to be kept all the same, nothing may be handed out.
    fn commit(&mut self) -> Result<(), Stop> {
        if self.keeper.is_at_rest() {
            Ok(())
        } else {
            Err(Stop::Disk)
        }
    }
}
