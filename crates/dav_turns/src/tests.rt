//! Reports as rows of bytes, and turns as rows of text: reports, what the keeper was told, and the
//! orders.
use crate::frames::{
    CLOSE, GONE, GOT, HELLO, Next, OPENED, READ, READ_BODY, READ_HEAD, ROOM, Report, SENT, TELL,
    TICK, USERS, has_report, next_in,
};
use crate::{Keeper, Pipe, ReadError, TurnError, Turns, TurnsConfig};
use dav_wire::{Answerer, Asked, Config, Rejection, Stop};
use http_server::Response;
use http1::Limits;
use std::alloc::{AllocError, Global};
use std::cell::Cell;
use std::io::{self, ErrorKind, Read};
use std::test::Fail;

/// Bytes as two digits each, by docs/SERVE.md: slot, kind, length, the seconds of the steady clock, the
/// date, and the bytes that came.
const FRAMES: &str = "\
# nothing, a part, a whole report, too much
 -> part
02 -> part
02000000 02 03000000 0500000000000000 06000000000000 -> part
02000000 02 03000000 0500000000000000 0600000000000000 -> part
02000000 02 03000000 0500000000000000 0600000000000000 6162 -> part
02000000 02 03000000 0500000000000000 0600000000000000 616263 -> 2 2 5 6 abc
02000000 02 03000000 0500000000000000 0600000000000000 61626364 -> 2 2 5 6 abc
ff010000 05 00000000 0001000000000000 0000010000000000 -> 511 5 256 65536 
78563412 ff 00000000 ffffffffffffffff fffffffffffffffe -> 305419896 255 18446744073709551615 18374686479671623679 
00000000 02 00000100 0000000000000000 0000000000000000 -> part
00000000 02 01000100 0000000000000000 0000000000000000 -> wrong
00000000 02 000000ff 0000000000000000 0000000000000000 61 -> wrong
00000000 02 01000100 0000000000000000 00000000000000 -> part
";

/// Reports are kind, slot, seconds and bytes; `8@1008` are the seconds 8 and the date 1008, which is
/// 8 too without. `^` is CRLF and `$` a line feed. The keeper says what it was told, and
/// the orders are slot, what is next, and bytes; after `!` it is why the turn failed, and nothing
/// was written.
const TURNS: &str = "\
# what isn't for a connection
 -> commit -> 
hello 0 7 abc -> at 7, hello abc, commit -> 
tick 0 8 -> at 8, mark, commit -> 
tick 0 8@1008 -> at 8 of 1008, mark, commit -> 
opened 2 5@3 ::1 ; gone 2 18446744073709551615@0 -> at 5 of 3, at 18446744073709551615 of 0, commit -> 2 read 
users 0 8 anna:x -> at 8, users anna:x, commit -> 
room 0 8 12345678 -> at 8, commit, room of 8 -> 
tick 0 8 ; tick 0 9 -> at 8, mark, at 9, mark, commit -> 

# connections in their slots
opened 2 5 ::1 -> at 5, commit -> 2 read 
opened 0 5 a ; opened 511 6 b -> at 5, at 6, commit -> 0 read  ; 511 read 
opened 2 5 a ; got 2 6 GET /x HTTP/1.1^Host: h^^ -> at 5, at 6, from a, GET /x, commit -> 2 read  ; 2 read HTTP/1.1 200 OK^content-length: 7^^GET /x|
opened 2 5 a ; opened 3 5 b ; got 3 6 GET /x HTTP/1.1^Host: h^^ ; got 2 6 GET /y HTTP/1.1^Host: h^^ -> at 5, at 5, at 6, from b, GET /x, at 6, from a, GET /y, commit -> 2 read  ; 3 read  ; 3 read HTTP/1.1 200 OK^content-length: 7^^GET /x| ; 2 read HTTP/1.1 200 OK^content-length: 7^^GET /y|
opened 2 5 a ; opened 3 5 b ; got 2 6 PUT /x HTTP/1.1^Host: h^ ; got 3 6 GET /y HTTP/1.1^ ; got 2 7 Content-Length: 2^^hi ; got 3 7 Host: h^^ -> at 5, at 5, at 6, from a, at 6, from b, at 7, from a, PUT /x, at 7, from b, GET /y, commit -> 2 read  ; 3 read  ; 2 head  ; 3 head  ; 2 read HTTP/1.1 200 OK^content-length: 9^^PUT /x|hi ; 3 read HTTP/1.1 200 OK^content-length: 7^^GET /y|

# what may take long ends a turn that heard what doesn't, and is the next one
opened 2 5 a ; got 2 6 PROPFIND /x HTTP/1.1^Host: h^^ -> at 5, commit, at 6, from a, PROPFIND /x, commit -> 2 read  ; 2 read HTTP/1.1 200 OK^content-length: 12^^PROPFIND /x|
opened 2 5 a ; opened 3 5 b ; got 3 6 GET /y HTTP/1.1^Host: h^^ ; got 2 6 DELETE /x HTTP/1.1^Host: h^^ ; got 3 7 GET /z HTTP/1.1^Host: h^^ -> at 5, at 5, at 6, from b, GET /y, commit, at 6, from a, DELETE /x, at 7, from b, GET /z, commit -> 2 read  ; 3 read  ; 3 read HTTP/1.1 200 OK^content-length: 7^^GET /y| ; 2 read HTTP/1.1 200 OK^content-length: 10^^DELETE /x| ; 3 read HTTP/1.1 200 OK^content-length: 7^^GET /z|
opened 2 5 a ; got 2 6 MOVE /x HTTP/1.1^Host: h^^ ; got 2 7 COPY /x HTTP/1.1^Host: h^^ ; tick 0 8 ; got 2 8 PROPFIND /x HTTP/1.1^Host: h^^ -> at 5, commit, at 6, from a, MOVE /x, at 7, from a, COPY /x, at 8, mark, commit, at 8, from a, PROPFIND /x, commit -> 2 read  ; 2 read HTTP/1.1 200 OK^content-length: 8^^MOVE /x| ; 2 read HTTP/1.1 200 OK^content-length: 8^^COPY /x| ; 2 read HTTP/1.1 200 OK^content-length: 12^^PROPFIND /x|
opened 2 5 a ; got 2 6 PROPFIND /x HTTP/1.1^Host: h^Content-Length: 4^^ ; tick 0 7 ; got 2 7 <a/> -> at 5, commit, at 6, from a, at 7, mark, commit, at 7, from a, PROPFIND /x, commit -> 2 read  ; 2 body  ; 2 read HTTP/1.1 200 OK^content-length: 16^^PROPFIND /x|<a/>
opened 2 5 a ; got 2 6 PROPFINDS /x HTTP/1.1^Host: h^^ ; got 2 7 COP -> at 5, at 6, from a, PROPFINDS /x, at 7, from a, commit -> 2 read  ; 2 read HTTP/1.1 200 OK^content-length: 13^^PROPFINDS /x| ; 2 head 

# what is sent before more is read
opened 2 5 a ; got 2 6 PUT /x HTTP/1.1^Host: h^Content-Length: 20^^01234567890123456789GET /y HTTP/1.1^Host: h^^ -> at 5, at 6, from a, PUT /x, commit -> 2 read  ; 2 tell HTTP/1.1 200 OK^content-length: 27^^PUT /x|01234567890123456789
opened 2 5 a ; got 2 6 PUT /x HTTP/1.1^Host: h^Content-Length: 20^^01234567890123456789GET /y HTTP/1.1^Host: h^^ ; sent 2 7 -> at 5, at 6, from a, PUT /x, at 7, from a, GET /y, commit -> 2 read  ; 2 tell HTTP/1.1 200 OK^content-length: 27^^PUT /x|01234567890123456789 ; 2 read HTTP/1.1 200 OK^content-length: 7^^GET /y|

# a request that isn't taken
opened 2 5 a ; got 2 6 PUT /no HTTP/1.1^Host: h^Content-Length: 20^^ ; sent 2 7 -> at 5, at 6, from a, no PUT /no, at 7, from a, commit -> 2 read  ; 2 tell HTTP/1.1 403 Forbidden^content-type: text/plain; charset=utf-8^connection: close^content-length: 40^^This isn't allowed here, or not to you.$ ; 2 close 
opened 2 5 a ; got 2 6 PUT /x HTTP/1.1^Host: h^Content-Length: 2^^hiPUT /no HTTP/1.1^Host: h^^GET /y HTTP/1.1^Host: h^^ -> at 5, at 6, from a, PUT /x, no PUT /no, commit -> 2 read  ; 2 tell HTTP/1.1 200 OK^content-length: 9^^PUT /x|hiHTTP/1.1 403 Forbidden^content-type: text/plain; charset=utf-8^connection: close^content-length: 40^^This isn't allowed here, or not to you.$

# bodies that wait: at most 48 bytes of all (RFC 9110, sections 10.2.3 and 15.6.4)
opened 2 5 a ; opened 3 5 b ; got 2 6 PUT /x HTTP/1.1^Host: h^Content-Length: 30^^ ; got 3 6 PUT /y HTTP/1.1^Host: h^Content-Length: 18^^ ; got 2 7 012345678901234567890123456789 ; got 3 7 012345678901234567 -> at 5, at 5, at 6, from a, at 6, from b, at 7, from a, PUT /x, at 7, from b, PUT /y, commit -> 2 read  ; 3 read  ; 2 body  ; 3 body  ; 2 tell HTTP/1.1 200 OK^content-length: 37^^PUT /x|012345678901234567890123456789 ; 3 read HTTP/1.1 200 OK^content-length: 25^^PUT /y|012345678901234567
opened 2 5 a ; opened 3 5 b ; got 2 6 PUT /x HTTP/1.1^Host: h^Content-Length: 30^^ ; got 3 6 PUT /y HTTP/1.1^Host: h^Content-Length: 19^^ -> at 5, at 5, at 6, from a, at 6, from b, commit -> 2 read  ; 3 read  ; 2 body  ; 3 tell HTTP/1.1 503 Service Unavailable^retry-after: 1^content-type: text/plain; charset=utf-8^connection: close^content-length: 41^^This can't be taken now: try again soon.$
opened 2 5 a ; opened 3 5 b ; got 2 6 PUT /x HTTP/1.1^Host: h^Content-Length: 30^^ ; got 3 6 PUT /y HTTP/1.1^Host: h^Expect: 100-continue^Content-Length: 19^^ -> at 5, at 5, at 6, from a, at 6, from b, commit -> 2 read  ; 3 read  ; 2 body  ; 3 tell HTTP/1.1 503 Service Unavailable^retry-after: 1^content-type: text/plain; charset=utf-8^connection: close^content-length: 41^^This can't be taken now: try again soon.$
opened 2 5 a ; opened 3 5 b ; got 2 6 PUT /x HTTP/1.1^Host: h^Content-Length: 30^^ ; got 3 6 PUT /y HTTP/1.1^Host: h^Content-Length: 18^^ ; opened 4 6 c ; got 4 6 GET /z HTTP/1.1^Host: h^^ -> at 5, at 5, at 6, from a, at 6, from b, at 6, at 6, from c, GET /z, commit -> 2 read  ; 3 read  ; 2 body  ; 3 body  ; 4 read  ; 4 read HTTP/1.1 200 OK^content-length: 7^^GET /z|
opened 2 5 a ; opened 3 5 b ; got 2 6 PUT /x HTTP/1.1^Host: h^Content-Length: 20^^01234567890123456789 ; got 3 6 PUT /y HTTP/1.1^Host: h^Content-Length: 32^^ -> at 5, at 5, at 6, from a, PUT /x, at 6, from b, commit -> 2 read  ; 3 read  ; 2 tell HTTP/1.1 200 OK^content-length: 27^^PUT /x|01234567890123456789 ; 3 body 
opened 2 5 a ; got 2 6 PUT /x HTTP/1.1^Host: h^Content-Length: 30^^ ; gone 2 6 ; opened 3 5 b ; got 3 6 PUT /y HTTP/1.1^Host: h^Content-Length: 32^^ -> at 5, at 6, from a, at 6, at 5, at 6, from b, commit -> 2 read  ; 2 body  ; 3 read  ; 3 body 
opened 2 5 a ; got 2 6 PUT /no HTTP/1.1^Host: h^Content-Length: 30^^ ; sent 2 6 ; opened 3 5 b ; got 3 6 PUT /y HTTP/1.1^Host: h^Content-Length: 32^^ -> at 5, at 6, from a, no PUT /no, at 6, from a, at 5, at 6, from b, commit -> 2 read  ; 2 tell HTTP/1.1 403 Forbidden^content-type: text/plain; charset=utf-8^connection: close^content-length: 40^^This isn't allowed here, or not to you.$ ; 2 close  ; 3 read  ; 3 body 
opened 2 5 a ; opened 3 5 b ; got 2 6 PUT /x HTTP/1.1^Host: h^Content-Length: 30^^ ; got 3 6 PUT /y HTTP/1.1^Host: h^Transfer-Encoding: chunked^^a^0123456789^ ; got 3 7 8^01234567^0^^ -> at 5, at 5, at 6, from a, at 6, from b, at 7, from b, PUT /y, commit -> 2 read  ; 3 read  ; 2 body  ; 3 body  ; 3 read HTTP/1.1 200 OK^content-length: 25^^PUT /y|012345678901234567
opened 2 5 a ; opened 3 5 b ; got 2 6 PUT /x HTTP/1.1^Host: h^Content-Length: 30^^ ; got 3 6 PUT /y HTTP/1.1^Host: h^Transfer-Encoding: chunked^^a^0123456789^ ; got 3 7 9^012345678^0^^ -> at 5, at 5, at 6, from a, at 6, from b, at 7, from b, commit -> 2 read  ; 3 read  ; 2 body  ; 3 body  ; 3 tell HTTP/1.1 503 Service Unavailable^retry-after: 1^content-type: text/plain; charset=utf-8^connection: close^content-length: 41^^This can't be taken now: try again soon.$
opened 2 5 a ; opened 3 5 b ; got 2 6 PUT /x HTTP/1.1^Host: h^Content-Length: 30^^ ; got 3 6 PUT /y HTTP/1.1^Host: h^Transfer-Encoding: chunked^^13^ -> at 5, at 5, at 6, from a, at 6, from b, commit -> 2 read  ; 3 read  ; 2 body  ; 3 tell HTTP/1.1 503 Service Unavailable^retry-after: 1^content-type: text/plain; charset=utf-8^connection: close^content-length: 41^^This can't be taken now: try again soon.$
opened 2 5 a ; opened 3 5 b ; got 3 6 PUT /y HTTP/1.1^Host: h^Transfer-Encoding: chunked^^14^01234567890123456789^ ; got 2 6 PUT /x HTTP/1.1^Host: h^Content-Length: 29^^ -> at 5, at 5, at 6, from b, at 6, from a, commit -> 2 read  ; 3 read  ; 3 body  ; 2 tell HTTP/1.1 503 Service Unavailable^retry-after: 1^content-type: text/plain; charset=utf-8^connection: close^content-length: 41^^This can't be taken now: try again soon.$
opened 2 5 a ; opened 3 5 b ; got 3 6 PUT /y HTTP/1.1^Host: h^Transfer-Encoding: chunked^^14^0 ; got 2 6 PUT /x HTTP/1.1^Host: h^Content-Length: 29^^ -> at 5, at 5, at 6, from b, at 6, from a, commit -> 2 read  ; 3 read  ; 3 body  ; 2 tell HTTP/1.1 503 Service Unavailable^retry-after: 1^content-type: text/plain; charset=utf-8^connection: close^content-length: 41^^This can't be taken now: try again soon.$

# the end of a connection
opened 2 5 a ; got 2 6 -> at 5, at 6, from a, commit -> 2 read  ; 2 close 
opened 2 5 a ; got 2 6 GET /x HTTP/1.0^^ ; opened 2 7 b -> at 5, at 6, from a, GET /x, at 7, commit -> 2 read  ; 2 close HTTP/1.0 200 OK^content-length: 7^connection: close^^GET /x| ; 2 read 
opened 2 5 a ; gone 2 6 ; opened 2 7 b ; got 2 8 GET /x HTTP/1.1^Host: h^^ -> at 5, at 6, at 7, at 8, from b, GET /x, commit -> 2 read  ; 2 read  ; 2 read HTTP/1.1 200 OK^content-length: 7^^GET /x|
opened 2 5 a ; got 2 6 GET ; gone 2 6 ; opened 2 7 b ; got 2 8 GET /x HTTP/1.1^Host: h^^ -> at 5, at 6, from a, at 6, at 7, at 8, from b, GET /x, commit -> 2 read  ; 2 head  ; 2 read  ; 2 read HTTP/1.1 200 OK^content-length: 7^^GET /x|

# what doesn't fit
opened 4096 5 a -> ! Pipe
opened 2 5 a ; opened 2 5 b -> ! Pipe
got 2 5 GET -> ! Pipe
sent 2 5 -> ! Pipe
gone 2 5 -> ! Pipe
opened 2 5 a ; gone 2 5 ; got 2 5 GET -> ! Pipe
opened 2 5 a ; got 2 6 ; gone 2 6 -> ! Pipe
opened 2 5 a ; got 3 6 GET -> ! Pipe
other 2 5 -> ! Pipe

# a keeper that stops
opened 2 5 a ; got 2 6 GET /memory HTTP/1.1^Host: h^^ -> ! Memory
opened 2 5 a ; got 2 6 GET /disk HTTP/1.1^Host: h^^ -> ! Disk
hello 0 5 full ; opened 2 5 a ; got 2 6 GET /x HTTP/1.1^Host: h^^ -> ! Disk
users 0 5 none -> ! Memory
opened 2 5 a ; got 2 6 PUT /stop HTTP/1.1^Host: h^Content-Length: 20^^ -> ! Disk
";

const CONFIG: TurnsConfig = TurnsConfig {
    connection: CONNECTION,
    max_waiting: 48,
};

const CONNECTION: Config = Config {
    limits: Limits {
        max_head_len: 128,
        max_extensions_len: 16,
        max_trailers_len: 64,
    },
    max_body_len: 32,
    max_tree_len: 32,
    max_pending: 64,
};

// Answers with the method, the target and the body, and says what it was told. It doesn't take
// `PUT /no`.
#[derive(Drop)]
struct Noting {
    alloc: Global,
    notes: Vec<u8>,
    is_full: bool,
    // How many bytes told of the room.
    measured: Cell<usize>,
}

impl Noting {
    fn note(&mut self, what: &str, bytes: &[u8]) -> Result<(), Stop> {
        if !self.notes.is_empty() {
            self.notes.extend_from_slice(b", ")?;
        }
        self.notes.extend_from_slice(what.as_bytes())?;
        Ok(self.notes.extend_from_slice(bytes)?)
    }
}

impl Answerer for Noting {
    ghost judges = { λ old head verdict new. Unit {0} };

    ghost answers = { λ old asked response new. Unit {0} };

    fn judge(&mut self, head: &[u8]) -> Result<Option<Rejection>, Stop> {
        let line = line_of(head);
        if line == b"PUT /stop".as_slice() {
            return Err(Stop::Disk);
        }
        if line != b"PUT /no".as_slice() {
            return Ok(None);
        }
        self.note("no ", line)?;
        Ok(Some(Rejection::Forbidden))
    }

    fn hear_refused(&mut self, _head: &[u8], _status: u16) {}

    fn answer(&mut self, asked: &Asked, response: &mut Response) -> Result<(), Stop> {
        let line = line_of(asked.head.as_slice());
        if line == b"GET /memory".as_slice() {
            return Err(Stop::Memory);
        }
        if line == b"GET /disk".as_slice() {
            return Err(Stop::Disk);
        }
        self.note("", line)?;
        let mut text = Vec::from_slice(self.alloc, line)?;
        text.push(b'|')?;
        text.extend_from_slice(asked.body.as_slice())?;
        response.body.push(bytes::Bytes::from_vec(text)?)?;
        Ok(())
    }
}

impl Keeper for Noting {
    ghost greeted = { λ old bytes new. Unit {0} };

    ghost listed = { λ old bytes new. Unit {0} };

    ghost placed = { λ old bytes new. Unit {0} };

    ghost passed = { λ old seconds date new. Unit {0} };

    ghost marked = { λ old new. Unit {0} };

    ghost kept = { λ old new. Unit {0} };

    fn hear_hello(&mut self, bytes: &[u8]) {
        self.is_full = bytes == b"full".as_slice();
        let _ = self.note("hello ", bytes);
    }

    fn hear_users(&mut self, bytes: &[u8]) -> Result<(), Stop> {
        if bytes == b"none".as_slice() {
            return Err(Stop::Memory);
        }
        self.note("users ", bytes)
    }

    fn hear_room(&self, bytes: &[u8]) {
        self.measured.set(bytes.len());
    }

    fn hear_address(&mut self, address: &[u8]) -> Result<(), Stop> {
        self.note("from ", address)
    }

    fn hear_clocks(&mut self, seconds: u64, date: u64) -> Result<(), Stop> {
        let text = if seconds == date {
            format!(in self.alloc; "at {seconds}")?
        } else {
            format!(in self.alloc; "at {seconds} of {date}")?
        };
        self.note(text.as_str(), &[])
    }

    fn keep_mark(&mut self) -> Result<(), Stop> {
        self.note("mark", &[])
    }

    fn commit(&mut self) -> Result<(), Stop> {
        if self.is_full {
            return Err(Stop::Disk);
        }
        self.note("commit", &[])?;
        if self.measured.get() == 0 {
            return Ok(());
        }
        let text = format!(in self.alloc; "room of {}", self.measured.get())?;
        self.note(text.as_str(), &[])
    }
}

// The method and the target of a head.
fn line_of(head: &[u8]) -> &[u8] {
    let line = head.split(|b| *b == b'\r').next().unwrap_or(&[]);
    let end = line.iter().rposition(|b| *b == b' ').unwrap_or(line.len());
    line.get(..end).unwrap_or(&[])
}

// The bytes of a text in a row.
fn unescaped(alloc: Global, text: &str) -> Result<Vec<u8>, AllocError> {
    let mut out = Vec::new(alloc);
    for byte in text.as_bytes() {
        if *byte == b'^' {
            out.extend_from_slice(b"\r\n")?;
        } else if *byte == b'$' {
            out.push(b'\n')?;
        } else {
            out.push(*byte)?;
        }
    }
    Ok(out)
}

// The kind of a report.
fn kind_of(name: &str) -> u8 {
    match name {
        "hello" => HELLO,
        "opened" => OPENED,
        "got" => GOT,
        "sent" => SENT,
        "gone" => GONE,
        "tick" => TICK,
        "users" => USERS,
        "room" => ROOM,
        _ => 8,
    }
}

// How many bytes these are; no row has many.
fn len_of(bytes: &[u8]) -> u32 {
    u32::try_from(bytes.len()).unwrap_or(u32::MAX)
}

// Adds a report, as its row has it.
fn add_report(out: &mut Vec<u8>, alloc: Global, text: &str) -> Result<(), AllocError> {
    let mut words = text.splitn(4, ' ');
    let kind = kind_of(words.next().unwrap_or(""));
    let slot = words.next().unwrap_or("").parse::<u32>().unwrap_or(0);
    let clocks = words.next().unwrap_or("");
    let (seconds, date) = clocks.split_once('@').unwrap_or((clocks, clocks));
    let bytes = unescaped(alloc, words.next().unwrap_or(""))?;
    out.extend_from_slice(&slot.to_le_bytes())?;
    out.push(kind)?;
    out.extend_from_slice(&len_of(&bytes).to_le_bytes())?;
    for clock in [seconds, date] {
        let seconds = clock.parse::<u64>().unwrap_or(0);
        out.extend_from_slice(&seconds.to_le_bytes())?;
    }
    out.extend_from_slice(&bytes)
}

// The orders of a row, as their bytes.
fn orders_in(alloc: Global, text: &str) -> Result<Vec<u8>, AllocError> {
    let mut out = Vec::new(alloc);
    if text.is_empty() {
        return Ok(out);
    }
    for order in text.split(" ; ") {
        let mut words = order.splitn(3, ' ');
        let slot = words.next().unwrap_or("").parse::<u32>().unwrap_or(0);
        let next = match words.next().unwrap_or("") {
            "tell" => TELL,
            "read" => READ,
            "head" => READ_HEAD,
            "body" => READ_BODY,
            _ => CLOSE,
        };
        let bytes = unescaped(alloc, words.next().unwrap_or(""))?;
        out.extend_from_slice(&slot.to_le_bytes())?;
        out.push(next)?;
        out.extend_from_slice(&len_of(&bytes).to_le_bytes())?;
        out.extend_from_slice(&bytes)?;
    }
    Ok(out)
}

// What the keeper was told, and what was written.
#[derive(Drop)]
struct Outcome {
    notes: Vec<u8>,
    written: Vec<u8>,
    failed: Option<TurnError>,
}

// Answers requests, and was told nothing.
fn new_keeper(alloc: Global) -> Noting {
    Noting {
        alloc,
        notes: Vec::new(alloc),
        is_full: false,
        measured: Cell::new(0),
    }
}

// Serves reports, turn after turn, until no whole one is left.
fn served(alloc: Global, reports: &[u8]) -> Result<Outcome, TurnError> {
    let mut turns = Turns::new(alloc, CONFIG)?;
    let mut keeper = new_keeper(alloc);
    let mut orders = Vec::new(alloc);
    let mut written = Vec::new(alloc);
    let mut failed = None;
    let mut left = reports;
    for _ in 0..reports.len().saturating_add(1) {
        match turns.serve(&mut keeper, left, &mut orders, &mut written) {
            Ok(used) => left = left.get(used..).unwrap_or(&[]),
            Err(error) => failed = Some(error),
        }
        if !has_report(left) || failed.is_some() {
            break;
        }
    }
    Ok(Outcome {
        notes: keeper.notes,
        written,
        failed,
    })
}

// Gives at most so many bytes at once; each second read is interrupted.
#[derive(Drop)]
struct Pieces<'r> {
    left: &'r [u8],
    step: usize,
    is_interrupted: bool,
}

impl Read for Pieces<'_> {
    fn read(&mut self, buf: &mut [u8]) -> io::Result<usize> {
        self.is_interrupted = !self.is_interrupted;
        if self.is_interrupted {
            return Err(ErrorKind::Interrupted.into());
        }
        let count = self.step.min(buf.len()).min(self.left.len());
        let (came, left) = self.left.split_at(count);
        buf[..count].copy_from_slice(came);
        self.left = left;
        Ok(count)
    }
}

// What is written for reports that come in pieces of so many bytes, and how many bytes are left.
fn piped(alloc: Global, reports: &[u8], step: usize) -> Result<(Vec<u8>, usize), Fail> {
    let mut reader = Pieces {
        left: reports,
        step,
        is_interrupted: false,
    };
    let mut pipe = Pipe::new(alloc)?;
    let mut turns = Turns::new(alloc, CONFIG)?;
    let mut keeper = new_keeper(alloc);
    let mut orders = Vec::new(alloc);
    let mut written = Vec::new(alloc);
    for _ in 0..reports.len().saturating_mul(2).saturating_add(2) {
        match pipe.read_more(&mut reader) {
            Ok(()) => {}
            Err(ReadError::Ended) => return Ok((written, pipe.unheard().len())),
            Err(_) => return Err("not read".into()),
        }
        let Ok(used) = turns.serve(&mut keeper, pipe.unheard(), &mut orders, &mut written) else {
            return Err("stopped".into());
        };
        pipe.drop_heard(used);
    }
    Err("endless".into())
}

// The name of an error, as rows have it.
fn name_of(error: TurnError) -> &'static str {
    match error {
        TurnError::Pipe => "! Pipe",
        TurnError::Stopped(Stop::Memory) => "! Memory",
        TurnError::Stopped(Stop::Disk) => "! Disk",
    }
}

#[test]
fn turns_are_served(rt: HostRuntime) -> Result<(), Fail> {
    let alloc = rt.alloc();
    let mut count = 0usize;
    for row in TURNS.lines() {
        let Some((input, wanted)) = row.split_once(" -> ") else {
            continue;
        };
        let mut reports = Vec::new(alloc);
        for report in input.split(" ; ") {
            if !report.is_empty() {
                add_report(&mut reports, alloc, report)?;
            }
        }
        let found = served(alloc, &reports).map_err(|_| "stopped")?;
        if let Some((notes, orders)) = wanted.split_once(" -> ") {
            assert!(rt; found.failed.is_none(), "{row}");
            let told = std::str::from_utf8(&found.notes).unwrap_or("?");
            assert!(rt; told == notes, "{row}: {told}");
            let orders = orders_in(alloc, orders)?;
            let text = std::str::from_utf8(&found.written).unwrap_or("?");
            assert!(rt;
                found.written.as_slice() == orders.as_slice(),
                "{row}: {text}"
            );
            for step in [1, 7, 50] {
                let (written, left) = piped(alloc, &reports, step)?;
                let is_same = written.as_slice() == orders.as_slice();
                assert!(rt; is_same && left == 0, "{row} in pieces of {step}");
            }
        } else {
            let name = found.failed.map_or("", name_of);
            assert!(rt; name == wanted, "{row}: {name}");
            assert!(rt; found.written.is_empty(), "{row}");
        }
        count = count.saturating_add(1);
    }
    assert!(rt; count == 52, "{count} rows");
    Ok(())
}

// The bytes that digits in a row say.
fn from_digits(alloc: Global, text: &str) -> Result<Vec<u8>, AllocError> {
    let mut out = Vec::new(alloc);
    let mut high = None;
    for digit in text.bytes().filter_map(|b| (b as char).to_digit(16)) {
        match high {
            None => high = Some(digit as u8),
            Some(first) => {
                out.push(first << 4 | digit as u8)?;
                high = None;
            }
        }
    }
    Ok(out)
}

#[test]
fn frames_are_read(rt: HostRuntime) -> Result<(), Fail> {
    let alloc = rt.alloc();
    let mut count = 0usize;
    for row in FRAMES.lines() {
        if let Some((digits, wanted)) = row.split_once(" -> ") {
            let bytes = from_digits(alloc, digits)?;
            let found = match next_in(&bytes) {
                Next::Part => String::from_str(alloc, "part")?,
                Next::Wrong => String::from_str(alloc, "wrong")?,
                Next::Whole(report) => {
                    let text = std::str::from_utf8(report.bytes).unwrap_or("?");
                    let Report {
                        slot,
                        kind,
                        seconds,
                        date,
                        ..
                    } = report;
                    format!(in alloc; "{slot} {kind} {seconds} {date} {text}")?
                }
            };
            assert!(rt; found.as_str() == wanted, "{row}: {found}");
            count = count.saturating_add(1);
        }
    }
    assert!(rt; count == 13, "{count} rows");
    Ok(())
}
