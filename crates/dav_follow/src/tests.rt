//! What follows another one, as rows of text; and a file that is shown.
use crate::{Following, Replays, Shown};
use bytes::Bytes;
use dav_turns::Keeper;
use dav_wire::{Answerer, Asked, Rejection, Stop};
use http_server::Response;
use sqlite_disk::Disk;
use std::alloc::{AllocError, Global};
use std::fs;
use std::test::Fail;

/// Steps, and what comes of them. `clock` is what the front's steady clock shows; `replay` hears what another one kept, and `anew` finds
/// that it began anew; `left` has something left to be kept. Of a request, whose line is told, comes what is said of its head, where it
/// isn't taken, the status, and the value of a field: of `vuldarg-follows`, or of `retry-after` (RFC 9110, sections 9.2.1, 10.2.3 and
/// 15.6.4). `^` is CRLF (RFC 9112, section 2.2).
const FOLLOWED: &str = "
clock 5 ; GET /a -> 200 follows 0
clock 5 ; HEAD /a -> 200 follows 0
clock 5 ; OPTIONS * -> 200 follows 0
clock 5 ; PROPFIND /a -> 200 follows 0
clock 5 ; ^GET /a -> 200 follows 0
clock 5 ; ^^PROPFIND /a -> 200 follows 0
PUT /a -> Unavailable 503 retry 1 content-type text/plain; charset=utf-8
^PUT /a -> Unavailable 503 retry 1 content-type text/plain; charset=utf-8
DELETE /a -> Unavailable 503 retry 1 content-type text/plain; charset=utf-8
MKCOL /a -> Unavailable 503 retry 1 content-type text/plain; charset=utf-8
COPY /a -> Unavailable 503 retry 1 content-type text/plain; charset=utf-8
MOVE /a -> Unavailable 503 retry 1 content-type text/plain; charset=utf-8
PROPPATCH /a -> Unavailable 503 retry 1 content-type text/plain; charset=utf-8
LOCK /a -> Unavailable 503 retry 1 content-type text/plain; charset=utf-8
UNLOCK /a -> Unavailable 503 retry 1 content-type text/plain; charset=utf-8
POST /a -> Unavailable 503 retry 1 content-type text/plain; charset=utf-8
PATCH /a -> Unavailable 503 retry 1 content-type text/plain; charset=utf-8
get /a -> Unavailable 503 retry 1 content-type text/plain; charset=utf-8
GETS /a -> Unavailable 503 retry 1 content-type text/plain; charset=utf-8
PUT /no -> Forbidden 503 retry 1 content-type text/plain; charset=utf-8
GET /no -> Forbidden 200 follows 0
clock 5 ; anew ; clock 9 ; GET /a -> 200 follows 4
clock 5 ; replay ; clock 9 ; GET /a -> 200 follows 0
clock 5 ; anew ; clock 9 ; replay ; GET /a -> 200 follows 0
clock 5 ; anew ; clock 9 ; replay ; clock 12 ; GET /a -> 200 follows 0
clock 5 ; anew ; clock 9 ; anew ; clock 12 ; GET /a -> 200 follows 7
clock 5 ; anew ; clock 9 ; PUT /a -> Unavailable 503 retry 1 content-type text/plain; charset=utf-8
commit -> kept
tick ; commit -> kept
PUT /a ; commit -> Unavailable 503 retry 1 content-type text/plain; charset=utf-8, kept
left ; commit -> Disk
left ; GET /a ; commit -> 200 follows 0, Disk
";

// Forbids `/no`, and answers all else with an empty 200.
#[derive(Drop)]
struct Scripted {
    goes: bool,
    has_left: bool,
}

impl Answerer for Scripted {
    ghost judges = { λ old head verdict new. Unit {0} };

    ghost answers = { λ old asked response new. Unit {0} };

    fn judge(&mut self, head: &[u8]) -> Result<Option<Rejection>, Stop> {
        match std::str::from_utf8(head) {
            Ok(text) if text.contains(" /no ") => Ok(Some(Rejection::Forbidden)),
            _ => Ok(None),
        }
    }

    fn hear_refused(&mut self, _head: &[u8], _status: u16) {}

    fn answer(&mut self, _asked: &Asked, _response: &mut Response) -> Result<(), Stop> {
        Ok(())
    }
}

impl Keeper for Scripted {
    ghost greeted = { λ old bytes new. Unit {0} };

    ghost listed = { λ old bytes new. Unit {0} };

    ghost placed = { λ old bytes new. Unit {0} };

    ghost passed = { λ old seconds date new. Unit {0} };

    ghost marked = { λ old new. Unit {0} };

    ghost kept = { λ old new. Unit {0} };

    fn hear_hello(&mut self, _bytes: &[u8]) {}

    fn hear_users(&mut self, _bytes: &[u8]) -> Result<(), Stop> {
        Ok(())
    }

    fn hear_room(&self, _bytes: &[u8]) {}

    fn hear_address(&mut self, _address: &[u8]) -> Result<(), Stop> {
        Ok(())
    }

    fn hear_clocks(&mut self, _seconds: u64, _date: u64) -> Result<(), Stop> {
        Ok(())
    }

    // A follower's is never asked.
    fn keep_mark(&mut self) -> Result<(), Stop> {
        Err(Stop::Disk)
    }

    fn commit(&mut self) -> Result<(), Stop> {
        Err(Stop::Disk)
    }
}

impl Replays for Scripted {
    ghost replayed = { λ old goes new. Unit {0} };

    ghost is_at_rest = { λ s. Unit {0} };

    fn replay(&mut self) -> Result<bool, Stop> {
        Ok(self.goes)
    }

    fn is_at_rest(&self) -> bool {
        !self.has_left
    }
}

// What is said of a request's head, and its response.
fn asked(alloc: Global, following: &mut Following<Scripted>, line: &str) -> Result<String, Fail> {
    let line = line.replace(alloc, "^", "\r\n")?;
    let head = format!(in alloc; "{line} HTTP/1.1\r\nHost: h\r\n\r\n")?;
    let mut text = String::new(alloc);
    if let Some(why) = following.judge(head.as_bytes()).map_err(|_| "judge")? {
        text = format!(in alloc; "{why:?} ")?;
    }
    let asked = Asked {
        head: Bytes::copy_from_slice(alloc, head.as_bytes())?,
        body: Bytes::new(),
    };
    let mut response = Response::new(alloc);
    following
        .answer(&asked, &mut response)
        .map_err(|_| "answer")?;
    let status = response.status.as_u16();
    let mut field = String::new(alloc);
    for (name, value) in response.headers.iter() {
        let name = match name.as_str() {
            "vuldarg-follows" => "follows",
            "retry-after" => "retry",
            other => other,
        };
        let value = std::str::from_utf8(value.as_bytes()).unwrap_or("?");
        field = format!(in alloc; "{field} {name} {value}")?;
    }
    Ok(format!(in alloc; "{text}{status}{field}")?)
}

// What comes of a step.
fn step(alloc: Global, following: &mut Following<Scripted>, step: &str) -> Result<String, Fail> {
    match step.split_once(' ') {
        Some(("clock", seconds)) => {
            let seconds = seconds.parse::<u64>().unwrap_or(0);
            following
                .hear_clocks(seconds, seconds)
                .map_err(|_| "clocks")?;
            return Ok(String::new(alloc));
        }
        Some(_) => return asked(alloc, following, step),
        None => {}
    }
    match step {
        "tick" => following.keep_mark().map_err(|_| "mark")?,
        "left" => following.keeper.has_left = true,
        "commit" => {
            let kept = match following.commit() {
                Ok(()) => "kept",
                Err(Stop::Disk) => "Disk",
                Err(Stop::Memory) => "Memory",
            };
            return Ok(String::from_str(alloc, kept)?);
        }
        "replay" | "anew" => {
            following.keeper.goes = step == "replay";
            following.catch_up().map_err(|_| "replay")?;
        }
        _ => return asked(alloc, following, step),
    }
    Ok(String::new(alloc))
}

#[test]
fn follows(rt: HostRuntime) -> Result<(), Fail> {
    let alloc = rt.alloc();
    let mut count = 0usize;
    for row in FOLLOWED.lines() {
        let Some((steps, wanted)) = row.split_once(" -> ") else {
            continue;
        };
        let scripted = Scripted {
            goes: true,
            has_left: false,
        };
        let mut following = Following::new(alloc, scripted);
        let mut found = String::new(alloc);
        for word in steps.split(" ; ") {
            let text = step(alloc, &mut following, word)?;
            if !text.is_empty() && !found.is_empty() {
                found.push_str(", ")?;
            }
            found.push_str(text.as_str())?;
        }
        assert!(rt; found.as_str() == wanted, "{row}: {found}");
        count = count.saturating_add(1);
    }
    assert!(rt; count == 32, "{count} rows");
    Ok(())
}

#[test]
fn keeper_is_given_back(rt: HostRuntime) -> Result<(), Fail> {
    let scripted = Scripted {
        goes: true,
        has_left: true,
    };
    let following = Following::new(rt.alloc(), scripted);
    assert_eq!(rt; following.seconds_behind(), 0);
    assert!(rt; following.into_keeper().has_left);
    Ok(())
}

#[test]
fn file_is_shown(rt: HostRuntime) -> Result<(), Fail> {
    let path = "dav_follow_shown";
    assert!(rt; Shown::open(&rt, "dav_follow_no_file").is_err());
    fs::write(&rt, path, b"abc".as_slice())?;
    let mut shown = Shown::open(&rt, path)?;
    assert_eq!(rt; shown.len()?, 3);
    fs::write(&rt, path, b"abcdef".as_slice())?;
    assert_eq!(rt; shown.len()?, 6);
    let mut piece = [0u8; 4];
    shown.read_at(1, &mut piece)?;
    assert_eq!(rt; piece, *b"bcde");
    assert!(rt; shown.read_at(3, &mut piece).is_err());
    assert!(rt; shown.write_at(0, b"x".as_slice()).is_err() && shown.set_len(1).is_err());
    shown.sync()?;
    assert!(rt; shown.may_be_used());
    assert_eq!(rt; fs::read(&rt, path)?.as_slice(), b"abcdef".as_slice());
    fs::remove_file(&rt, path)?;
    Ok(())
}
