//! One connection: the bytes that came, and those that are to go.
ghost use Rattle.std.specs.Prelude.{◌≡◌, ◌≢◌, ℕ, ◌≤◌, ◌<◌, ◌↔◌, [], length, nat_lt, take, IsTrue, OnOk, OnErr, IsErr};
ghost use Rattle.dav_wire.specs.History.{Acts, IsServed, IsQuiet, Rests, held, new_history, after_taken, after_sent};
ghost use Rattle.dav_wire.specs.Place.{Holds};

use crate::answer::{Answerer, Stop};
use crate::line::Line;
use crate::state::{Config, Reason, Refusal, State};
use bytes::Buf;
use http_server::MAX_HEADERS;
use httparse::spans::EMPTY_HEADER_SPAN;
use std::alloc::{AllocError, Global};

/// At most so many bytes are handed out at once.
const MOST_PIECE: usize = 262_144;

/// A connection. Give it what comes (`take`), let it answer (`advance`), and send what waits (`output`, `sent`); then
/// let it answer again.
#[derive(Drop)]
pub struct Peer {
    line: Line,
    ghost holds: { ∥ Holds line ∥₁ },
}

impl Peer {
    ghost use Rattle.dav_wire.specs.Peer.{config_of, history};

    /// A connection on which nothing came yet.
    pub fn new(alloc: Global, config: Config) -> Peer
        ensures config { config_of result ≡ config }
        ensures history { history result ≡ new_history }
    {
        Peer {
            line: Line::new(alloc, config),
        }
    }

    /// Takes what came; no bytes are the end, after which nothing is taken. After an error nothing was taken.
    pub fn take(&mut self, bytes: &[u8]) -> Result<(), AllocError>
        ensures ok { OnOk result (history self.new ≡ after_taken (history self.old) bytes.now) }
        ensures err { OnErr result (history self.new ≡ history self.old) }
        ensures config { config_of self.new ≡ config_of self.old }
    {
        self.line.take(bytes)
    }

    /// Has heads judged and the requests answered that came whole, in order, while not too much waits to be sent. A request is refused
    /// where its body has more bytes than there is room for: at its head where that states so, else once a chunk's line states so. After an error, where memory
    /// ran out or the answerer stopped (its reason is the error), the connection is `Aborted`, and what waited is dropped.
    pub fn advance<S: Answerer>(&mut self, answerer: &mut S, room: usize) -> Result<(), Stop>
        ensures served { ∥ IsServed (config_of self.new) (history self.new) ∥₁ }
        ensures acts { OnOk result (Acts S.judges S.answers answerer.old answerer.new
            (history self.old) (history self.new)) }
        ensures stops { IsErr result ↔ ((history self.new).state ≡ State.Aborted) }
        ensures rests { Rests (config_of self.new) (history self.new) }
        ensures settled { (history self.old).state ≢ State.Open
            → history self.new ≡ history self.old }
        ensures quiet { IsQuiet (history self.old) (history self.new) }
        ensures fits { held (history self.old) ≤ room → held (history self.new) ≤ room }
        ensures told { (told : ℕ) → (history self.old).state ≡ State.Open
            → (history self.new).state ≡ State.Closing (Reason.Refused (Refusal.NoRoom told))
            → told ≡ room }
        ensures config { config_of self.new ≡ config_of self.old }
    {
        let mut spans = [EMPTY_HEADER_SPAN; MAX_HEADERS];
        while self.line.step(answerer, &mut spans, room) {}
        if self.line.is_aborted() {
            return Err(self.line.stop);
        }
        Ok(())
    }

    /// What is to be sent next: the front of what waits, of at most 256 KiB.
    pub fn output(&self) -> &[u8]
        ensures front { result.now ≡ take (length result.now) (history self.now).pending }
        ensures fits { length result.now ≤ length (history self.now).pending }
        ensures within { length result.now ≤ 262144 }
        ensures some { (history self.now).pending ≢ [] → result.now ≢ [] }
    {
        front_of(self.line.output.chunk(), MOST_PIECE)
    }

    /// Drops what was sent from the front of what waits.
    pub fn sent(&mut self, count: usize)
        requires { count ≤ length (history self.old).pending }
        ensures history { history self.new ≡ after_sent (history self.old) count }
        ensures config { config_of self.new ≡ config_of self.old }
    {
        self.line.sent(count);
    }

    /// How many bytes wait to be sent.
    pub fn waiting(&self) -> usize
        ensures { result ≡ length (history self.now).pending }
    {
        self.line.output.len()
    }

    /// For how many bytes of the body that is being read there has to be room: as many as its head or its chunks state, or as came.
    pub fn held(&self) -> usize
        ensures { result ≡ held (history self.now) }
    {
        self.line.intake.stated.max(self.line.intake.body.len())
    }

    /// Whether so much waits to be sent that no further request is read before that.
    pub fn is_full(&self) -> bool
        ensures { IsTrue result
            ↔ ((config_of self.now).max_pending < length (history self.now).pending) }
    {
        self.line.output.len() > self.line.intake.config.max_pending
    }

    /// Whether the connection goes on after what waits is sent.
    pub fn is_open(&self) -> bool
        ensures { IsTrue result ↔ ((history self.now).state ≡ State.Open) }
    {
        self.line.is_open()
    }

    /// Whether the connection, where it goes on, waits for the rest of a body: the head of a request was judged whose body isn't whole.
    pub fn is_in_body(&self) -> bool
        ensures { (history self.now).state ≡ State.Open → result
            ≡ nat_lt (length (history self.now).calls) (length (history self.now).judgements) }
    {
        self.line.intake.is_within
    }

    /// Whether bytes came that weren't read yet, as of a part of a head.
    pub fn has_unread(&self) -> bool
        ensures { result ≡ nat_lt 0 (length (history self.now).unread) }
    {
        self.line.intake.input.len() > 0
    }

    /// What is true of each connection, after any calls. It does nothing.
    pub fn is_served(&self)
        ensures { ∥ IsServed (config_of self.now) (history self.now) ∥₁ }
    {}
}

// The front of bytes, of at most so many.
fn front_of(waiting: &[u8], most: usize) -> &[u8]
    requires { 0 < most }
    ensures front { result.now ≡ take (length result.now) waiting.now }
    ensures fits { length result.now ≤ length waiting.now }
    ensures within { length result.now ≤ most }
    ensures some { 0 < length waiting.now → 0 < length result.now }
{
    if waiting.len() > most {
        &waiting[..most]
    } else {
        waiting
    }
}
