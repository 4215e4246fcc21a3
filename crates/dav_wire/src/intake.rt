//! The bytes that came, and the request that is being cut from them.
ghost use Rattle.std.specs.Prelude.{◌≡◌, ◌≢◌, ◌+◌, ◌<◌, ◌≤◌, List, ℕ, [], false, length, take, IsTrue, IsFalse, IfOk, MatchOption, OnErr};
ghost use Rattle.std.specs.Bool.{Decides};
ghost use Rattle.httparse.specs.Spans.{IsRequestWithin, IsWithin};
ghost use Rattle.http1.specs.Framing.{method_kind};
ghost use Rattle.http1.specs.Conn.{unread_size};
ghost use Rattle.http1.specs.Server.{is_head, reading};
ghost use Rattle.http_server.specs.declared.state.TheConstants.{MAX_HEADERS};

use crate::answer::Asked;
use crate::spot::Spot;
use crate::state::{Config, Refusal, most_of};
use bytes::{Bytes, BytesMut};
use http1::framing::MethodKind;
use http1::{BodySize, Event, Server};
use httparse::spans::{HeaderSpan, RequestSpans, Span};
use std::alloc::{AllocError, Global};
use std::mem;

/// What the bytes hold next.
#[derive(Drop)]
pub(crate) enum Found {
    /// Nothing more before more bytes come.
    Nothing,
    /// The end, after a whole request.
    End,
    /// A head, and whether its sender waits for `100 Continue` (RFC 9110, section 10.1.1).
    Head(bool),
    /// A piece of a body.
    Part,
    /// A whole request, and whether its method is HEAD.
    Request(Asked, bool),
    /// A request that is refused.
    Refused(Refusal),
}

/// The bytes that came, and the request that is being read.
#[derive(Drop)]
pub(crate) struct Intake {
    alloc: Global,
    pub(crate) config: Config,
    /// What came and was not read yet.
    pub(crate) input: BytesMut,
    /// Whether the input has ended.
    pub(crate) ended: bool,
    pub(crate) server: Server,
    /// Whether a head was read, whose body isn't whole.
    pub(crate) is_within: bool,
    /// The bytes of that head, whether its method is HEAD, and the most bytes of its body.
    pub(crate) head: BytesMut,
    pub(crate) is_head: bool,
    pub(crate) most: usize,
    /// How many bytes that head states its body to have, or the chunks that came of it; 0 where they state none.
    pub(crate) stated: usize,
    /// Where the reader is in these chunks.
    pub(crate) spot: Spot,
    /// What was read of its body.
    pub(crate) body: Vec<u8>,
}

impl Intake {
    ghost use Rattle.dav_wire.specs.Place.{place, Standing, IsStarved, HasHead, HasPiece, HasEnd, HasNone, Finds, FitsIn, TellsRoom, IsExcess, judged_at, known_len, work, KeepsIntake};
    ghost use Rattle.dav_wire.specs.History.{HasWork};
    ghost use Rattle.dav_wire.specs.Spots.{chunk_left, followed, tallied};

    pub(crate) fn new(alloc: Global, config: Config) -> Intake
        ensures standing { Standing (place result) [] [] }
        ensures fresh { (result.config ≡ config) × (result.ended ≡ false)
            × (result.input.items ≡ []) × (result.stated ≡ 0) × (result.body.items ≡ []) }
    {
        Intake {
            alloc,
            config,
            input: BytesMut::new(alloc),
            ended: false,
            server: Server::new(config.limits),
            is_within: false,
            head: BytesMut::new(alloc),
            is_head: false,
            most: 0,
            stated: 0,
            spot: Spot::Size(0),
            body: Vec::new(alloc),
        }
    }

    /// Reads one event from the bytes, where there is room for so many bytes of a body.
    pub(crate) fn read(
        &mut self,
        spans: &mut [HeaderSpan],
        room: usize,
    ) -> Result<Found, AllocError>
        requires { length spans.old ≡ MAX_HEADERS }
        ensures finds { (stream interim : List ℕ) → Standing (place self.old) stream interim
            → IfOk result (λ found. Finds found self.old.ended (judged_at (place self.old))
            (work (place self.old)) (place self.new) stream interim) }
        ensures fails { (stream interim : List ℕ) → Standing (place self.old) stream interim
            → OnErr result (HasWork self.old.config.limits self.old.ended stream) }
        ensures keeps { KeepsIntake self.old self.new }
        ensures fits { FitsIn room self.old → FitsIn room self.new }
        ensures told { IfOk result (TellsRoom room) }
    {
        let read = match self.server.read(self.input.as_slice(), spans) {
            Ok(read) => read,
            Err(error) => return Ok(Found::Refused(Refusal::Unreadable(error))),
        };
        match read.event {
            Event::Head(head) => self.begin(&head, spans, room),
            Event::Data(piece) => self.add(piece, room),
            Event::End(_) => {
                self.input.advance(read.consumed);
                self.finish()
            }
            _ => Ok(self.pause(read.consumed, room)),
        }
    }

    // There is no more to read after so many bytes. What they state of a body may be too much.
    fn pause(&mut self, count: usize, room: usize) -> Found
        requires { count ≤ length self.old.input.items }
        ensures finds { (stream interim : List ℕ)
            → HasNone (place self.old) count stream interim
            → Finds result self.old.ended (judged_at (place self.old)) (work (place self.old))
            (place self.new) stream interim }
        ensures keeps { KeepsIntake self.old self.new }
        ensures fits { FitsIn room self.old → FitsIn room self.new }
        ensures told { TellsRoom room result }
    {
        self.follow(count);
        self.input.advance(count);
        let len = self.body.len();
        match self.weigh(len, room) {
            Some(why) => Found::Refused(why),
            None => self.wait(),
        }
    }

    // Notes where the reader is in the chunks of a body after so many bytes.
    fn follow(&mut self, count: usize)
        requires { count ≤ length self.old.input.items }
        ensures { self.new ≡ record self.old {
          spot = followed (unread_size (reading self.old.server)) self.old.spot
              (take count self.old.input.items);
        } }
    {
        if let BodySize::Unknown = self.server.unread_size() {
            self.spot = self.spot.after(&self.input.as_slice()[..count]);
        }
    }

    // How many bytes of the chunk that came last are to come.
    fn to_come(&self) -> u64
        ensures { result ≡ chunk_left (unread_size (reading self.now.server)) self.now.spot }
    {
        match self.server.unread_size() {
            BodySize::Unknown => self.spot.to_come(),
            BodySize::Known(_) | BodySize::Empty => 0,
        }
    }

    // Notes what the chunks state of a body of which so many bytes came, and tells why it isn't taken, if it isn't.
    fn weigh(&mut self, len: usize, room: usize) -> Option<Refusal>
        ensures { let size = unread_size (reading self.old.server) in
            let total = len + chunk_left size self.old.spot in
            MatchOption result
            ((total ≤ self.old.most) × (total ≤ room)
            × (self.new ≡ record self.old { stated = tallied size self.old.stated total }))
            (λ why. IsExcess why self.old.most room total × (self.new ≡ self.old)) }
    {
        let to_come = self.to_come();
        if is_past(len, to_come, self.most) {
            return Some(Refusal::BodyTooLong);
        }
        if is_past(len, to_come, room) {
            return Some(Refusal::NoRoom(room));
        }
        if let BodySize::Unknown = self.server.unread_size() {
            self.stated = len + to_come as usize;
        }
        None
    }

    // There is no more to read: more bytes may come, or the input ended here.
    fn wait(&self) -> Found
        ensures told { (room : ℕ) → TellsRoom room result }
        ensures finds { (stream interim : List ℕ) (before : ℕ)
            → IsStarved (place self.now) stream interim
            → Finds result self.now.ended (judged_at (place self.now)) before (place self.now)
            stream interim }
    {
        if !self.ended {
            return Found::Nothing;
        }
        if self.is_between() {
            return Found::End;
        }
        Found::Refused(Refusal::Truncated)
    }

    // Whether nothing of a request came.
    fn is_between(&self) -> bool
        ensures between { IsTrue result
            → (self.now.is_within ≡ false) × (self.now.input.items ≡ []) }
        ensures within { IsFalse result → self.now.is_within ≡ false → self.now.input.items ≢ [] }
    {
        !self.is_within && self.input.is_empty()
    }

    // A head came: its request may be refused before its body is read.
    fn begin(
        &mut self,
        head: &RequestSpans,
        spans: &[HeaderSpan],
        room: usize,
    ) -> Result<Found, AllocError>
        requires { IsRequestWithin self.old.input.items spans.now head.now }
        ensures finds { (stream interim : List ℕ)
            → HasHead (place self.old) spans.now head.now stream interim
            → IfOk result (λ found. Finds found self.old.ended (judged_at (place self.old))
            (work (place self.old)) (place self.new) stream interim) }
        ensures fails { (stream interim : List ℕ)
            → HasHead (place self.old) spans.now head.now stream interim
            → OnErr result (HasWork self.old.config.limits self.old.ended stream) }
        ensures keeps { KeepsIntake self.old self.new }
        ensures fits { FitsIn room self.old → FitsIn room self.new }
        ensures told { IfOk result (TellsRoom room) }
    {
        if self.server.has_codings() {
            return Ok(Found::Refused(Refusal::UnknownCoding));
        }
        let input = self.input.as_slice();
        let method = head.method.of(input);
        self.most = most_of(&self.config, method);
        self.is_head = is_head(method);
        self.head.clear();
        self.head.extend_from_slice(&input[..head.len])?;
        self.input.advance(head.len);
        self.is_within = true;
        self.spot = Spot::Size(0);
        if self.states_more(self.most) {
            return Ok(Found::Refused(Refusal::BodyTooLong));
        }
        if self.states_more(room) {
            return Ok(Found::Refused(Refusal::NoRoom(room)));
        }
        self.stated = self.len_stated();
        Ok(Found::Head(self.server.expects_continue()))
    }

    // Whether the head states a longer body than this.
    fn states_more(&self, most: usize) -> bool
        ensures long { IsTrue result → (len : ℕ)
            × (unread_size (reading self.now.server) ≡ BodySize.Known len) × (most < len) }
        ensures short { IsFalse result → (len : ℕ)
            → unread_size (reading self.now.server) ≡ BodySize.Known len → len ≤ most }
    {
        match self.server.unread_size() {
            BodySize::Known(len) => len > most as u64,
            _ => false,
        }
    }

    // How long a body the head states; 0 where it states none.
    fn len_stated(&self) -> usize
        ensures known { result ≡ known_len (unread_size (reading self.now.server)) }
        ensures within { (most : ℕ) → ((len : ℕ)
            → unread_size (reading self.now.server) ≡ BodySize.Known len → len ≤ most)
            → result ≤ most }
    {
        match self.server.unread_size() {
            BodySize::Known(len) => len as usize,
            _ => 0,
        }
    }

    // A piece of the body came.
    fn add(&mut self, piece: Span, room: usize) -> Result<Found, AllocError>
        requires { IsWithin (length self.old.input.items) piece }
        ensures finds { (stream interim : List ℕ) → HasPiece (place self.old) piece stream interim
            → IfOk result (λ found. Finds found self.old.ended (judged_at (place self.old))
            (work (place self.old)) (place self.new) stream interim) }
        ensures fails { (stream interim : List ℕ) → HasPiece (place self.old) piece stream interim
            → OnErr result (HasWork self.old.config.limits self.old.ended stream) }
        ensures keeps { KeepsIntake self.old self.new }
        ensures fits { FitsIn room self.old → FitsIn room self.new }
        ensures told { IfOk result (TellsRoom room) }
    {
        self.follow(piece.end);
        let len = self.body.len() + piece.of(self.input.as_slice()).len();
        if let Some(why) = self.weigh(len, room) {
            return Ok(Found::Refused(why));
        }
        let bytes = piece.of(self.input.as_slice());
        let to_come = self.stated.saturating_sub(self.body.len());
        self.body.reserve(to_come)?;
        self.body.extend_from_slice(bytes)?;
        self.input.advance(piece.end);
        Ok(Found::Part)
    }

    // The request is whole.
    fn finish(&mut self) -> Result<Found, AllocError>
        ensures finds { (stream interim : List ℕ) (before : ℕ) → work (place self.old) ≤ before
            → HasEnd (place self.old) stream
            → IfOk result (λ found. Finds found self.old.ended (judged_at (place self.old))
            before (place self.new) stream interim) }
        ensures fails { (stream : List ℕ) → HasEnd (place self.old) stream
            → OnErr result (HasWork self.old.config.limits self.old.ended stream) }
        ensures keeps { KeepsIntake self.old self.new }
        ensures fits { (room : ℕ) → FitsIn room self.old → FitsIn room self.new }
        ensures told { (room : ℕ) → IfOk result (TellsRoom room) }
    {
        if !self.is_within {
            return Ok(Found::Nothing);
        }
        let head = self.head.freeze_to(self.head.len())?;
        let body = Bytes::from_vec(mem::replace(&mut self.body, Vec::new(self.alloc)))?;
        self.is_within = false;
        self.stated = 0;
        Ok(Found::Request(Asked { head, body }, self.is_head))
    }
}

// Whether a method is HEAD.
fn is_head(method: &[u8]) -> bool
    ensures { result ≡ is_head (method_kind method.now) }
{
    matches!(MethodKind::of(method), MethodKind::Head)
}

// Whether these bytes and those to come are more than so many.
fn is_past(len: usize, to_come: u64, most: usize) -> bool
    ensures { Decides result (most < len + to_come) }
{
    len > most || to_come > (most - len) as u64
}
