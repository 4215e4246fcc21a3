//! Lives of a server over a disk in memory.
ghost use Rattle.std.specs.Prelude.{◌≡◌, ⊤, ℕ, List};

use bytes::Bytes;
use dav_journal::Pair;
use dav_kept::{Effect, HandleError, Handles, Keeps, Kept, KeptError, Request, adopt, is_due};
use http::StatusCode;
use http_server::Response;
use sqlite_disk::{Disk, Memory};
use std::alloc::{AllocError, Global};
use std::marker::Model;
use std::process::Abort;
use std::test::Fail;

mod following;
mod records;
mod room;
mod zeros;

use records::{bytes_in, word_at};

/// What a server does, and then the heads of its state, its tokens, its latest moment, and how many
/// snapshots it made. The first request comes in second 1, and each other a second after the one
/// before: `+x` changes the state, `*x` too and has a token, `-x` leaves it, and with `?` in front it
/// is to be answered as one that only reads. With `restart` it ends and starts again; with `204` it
/// answers changes so from then on; with `due` it makes a snapshot where the journal is long enough. A
/// state with a `!` can't be saved. A request with an `L` has a long body.
const LIVES: &str = "
restart -> . 0 0 0
+a commit restart -> a 0 1 0
+a restart -> . 0 0 0
+a commit +b restart -> a 0 1 0
+a -b commit restart -> a 0 1 0
-a -b -> . 0 0 0
+a *b +c commit *d -e commit restart -> abcd 2 4 0
*a commit restart *b commit restart *c commit restart -> abc 3 3 0
+a commit commit restart +b mark commit mark mark restart -> ab 0 2 0
-a ?-b +c ?-d commit restart -> c 0 3 0
+a ?+b -> Changed
+none -> Malformed
+a commit 204 restart -> Damaged
204 restart +a commit restart -> a 0 1 0
/b restart -> OtherPreface
";

/// The same, with snapshots.
const SNAPSHOTS: &str = "
snap restart -> . 0 0 1
+a *b snap restart -> ab 1 2 1
+a *b snap *c -d commit restart -> abc 2 3 1
+a snap +b restart -> a 0 1 1
+aL commit due -> aL 0 1 0
+aL commit +bL commit due restart due -> aLbL 0 2 1
+aL commit +bL commit restart due due -> aLbL 0 2 1
+a commit snap snap restart snap +b commit snap restart +c commit restart -> abc 0 3 4
+a ?-b snap ?-c mark snap mark restart -> a 0 1 2
+a snap ?+b -> Changed
+a snap 204 restart +b commit restart -> ab 0 2 1
+a snap +b commit 204 restart -> Damaged
+a snap /b restart -> OtherPreface
+a +! snap restart -> a! 0 2 0
+aL commit +!L commit due due restart due -> aL!L 0 2 0
+a snap +! snap restart -> a! 0 2 1
";

/// The first block of a journal, and what a server over it has. It begins with the preface, which is
/// `/`, as a text with its length; a snapshot has two numbers and a state.
const FIRSTS: &str = "
0000000000000001 2f -> . 0 0 0
0000000000000001 2f 0000000000000002 0000000000000007 6162 -> ab 2 7 0
0000000000000001 2f 0000000000000000 0000000000000000 -> . 0 0 0
0000000000000001 2f ffffffffffffffff ffffffffffffffff 61 -> a 18446744073709551615 18446744073709551615 0
0000000000000001 2f 00 -> Damaged
0000000000000001 2f 0000000000000002 00000000000007 -> Damaged
0000000000000001 2f 0000000000000002 0000000000000007 6121 -> Damaged
0000000000000001 61 -> OtherPreface
0000000000000002 2f61 -> OtherPreface
0000000000000000 -> OtherPreface
0000000000000002 2f -> Damaged
ffffffffffffffff 2f -> Damaged
00000000000000 -> Damaged
. -> Damaged
";

/// The state that a server of before wrote, with a PUT of a file: one file whose first block is the
/// preface alone. Its marks are left out, since a disk in memory has none.
const FORMER: &str = "
76756c6461726732774abc87a534a416
88b543785acb5be9
000000000000000000000000000000000000000000000000000000000000000000000000000000000000000000000000
010000000000000001fffffffffffffffe0000000000000000ffffffffffffffff0374d0d3b09dfc9dcb30cdf559dd0e
7c
2f
01000000000000005effffffffffffffa10000000000000015ffffffffffffffea2157fa85f8a6b9de6cb43c9ba1eb75
5b
000000003b99788000c90000000000000000003e505554202f6f6c6420485454502f312e310d0a486f73743a206c6f63
616c686f73743a343931380d0a436f6e74656e742d4c656e6774683a20340d0a0d0a00000000000000046b657074
00
";

/// The same in the elder format.
const ELDER: &str = "
76756c64617267313a9808e0803017aa
0000000000000001f4d369d7b0a133fa592d79283a86807a
2f
000000000000005edcf2d8cd789eec1aa8e13f6d017aa7ce
000000003b99788000c90000000000000000003e505554202f6f6c6420485454502f312e310d0a486f73743a206c6f63
616c686f73743a343931380d0a436f6e74656e742d4c656e6774683a20340d0a0d0a00000000000000046b657074
";

/// How many bytes a journal's blocks take, how many they took at the last snapshot, how many are the
/// least for one, and whether it is to begin anew.
const DUE: &str = "
0 0 0 -> false
1 0 0 -> true
64 0 64 -> false
65 0 64 -> true
200 100 64 -> false
201 100 64 -> true
201 100 201 -> false
5 9 0 -> false
18446744073709551615 9223372036854775807 67108864 -> true
18446744073709551615 9223372036854775808 67108864 -> false
";

// The heads of the requests that had a body, which are answered with a status of one's own.
#[derive(Drop)]
pub struct Heads {
    pub heads: Vec<u8>,
    pub made: StatusCode,
}

impl Model for Heads {
    ghost Value = { List ℕ };

    ghost view = { λ h. h.heads.items };
}

impl Handles for Heads {
    ghost answers = { λ old request response new. ⊤ };

    fn handle(
        &mut self,
        request: &Request<'_>,
        response: &mut Response,
    ) -> Result<Effect, HandleError> {
        if request.head == b"none".as_slice() {
            return Err(HandleError::Malformed);
        }
        if request.body.is_empty() {
            return Ok(Effect::Left);
        }
        self.heads.extend_from_slice(request.head)?;
        response.status = self.made;
        Ok(Effect::Changed)
    }

    ghost saved = { λ heads. heads };

    ghost is_saveable = { λ heads. ⊤ };

    ghost loads = { λ old bytes new. new ≡ bytes };

    ghost loads_what_was_saved = { λ first state loaded records run can is. is };

    fn save(&self, out: &mut Vec<u8>) -> Result<bool, HandleError> {
        out.extend_from_slice(&self.heads)?;
        Ok(!self.heads.contains(&b'!'))
    }

    fn load(&mut self, bytes: &[u8]) -> Result<(), HandleError> {
        if bytes.contains(&b'!') {
            return Err(HandleError::Malformed);
        }
        self.heads.clear();
        self.heads.extend_from_slice(bytes)?;
        Ok(())
    }
}

// A server over a journal, at `/b` where it moves there, or else at `/`.
fn start(
    alloc: Global,
    mut journal: Pair<Memory>,
    made: StatusCode,
    moves: bool,
) -> Result<Kept<Heads, Pair<Memory>>, KeptError> {
    journal.open(alloc)?;
    let heads = Heads {
        heads: Vec::new(alloc),
        made,
    };
    let preface = if moves {
        b"/b".as_slice()
    } else {
        b"/".as_slice()
    };
    let mut kept = Kept::open(alloc, heads, journal, preface)?;
    let (place, rest) = kept.rest()?;
    kept.read(place.saturating_sub(1), &mut [0u8; 1])?;
    if rest > 0 {
        return Err(KeptError::Foreign);
    }
    kept.begin()?;
    Ok(kept)
}

// The body of the request of a word: two long ones are longer than a first block with its zeros.
fn body_of(alloc: Global, word: &str) -> Result<Bytes, AllocError> {
    if word.starts_with('-') {
        return Ok(Bytes::new());
    }
    let mut body = Vec::new(alloc);
    let len = if word.contains('L') { 5_000 } else { 4 };
    body.resize(len, b'b')?;
    Bytes::copy_from_slice(alloc, &body)
}

// The token of the request of a word.
fn token_of(word: &str) -> Option<&'static str> {
    if word.starts_with('*') {
        return Some("token");
    }
    None
}

// Asks a request of a word, which comes at this moment.
pub fn ask<J: Keeps + Drop>(
    alloc: Global,
    kept: &mut Kept<Heads, J>,
    word: &str,
    moment: u64,
) -> Result<Option<Effect>, KeptError> {
    let reads = word.starts_with('?');
    let word = word.trim_start_matches('?');
    let body = body_of(alloc, word)?;
    let token = token_of(word);
    let head = word.trim_start_matches(['+', '-', '*']);
    let request = Request {
        moment,
        principal: Some("ann"),
        token,
        head: head.as_bytes(),
        body: &body,
    };
    let mut response = Response::new(alloc);
    if !reads {
        return kept.answer(&request, &mut response);
    }
    kept.answer_safe(&request, &mut response)?;
    Ok(None)
}

// Two empty files.
fn files(alloc: Global) -> Pair<Memory> {
    Pair::new(Memory::new(alloc), Memory::new(alloc))
}

// What a server became: itself, and how many snapshots it made.
type Lived = Result<(Kept<Heads, Pair<Memory>>, usize), KeptError>;

// Lives a row.
fn live(alloc: Global, row: &str) -> Lived {
    let (mut made, mut moves, mut moment) = (StatusCode::CREATED, false, 0u64);
    let mut snapshots = 0usize;
    let mut kept = start(alloc, files(alloc), made, moves)?;
    for word in row.split(' ') {
        match word {
            "commit" => kept.commit()?,
            "mark" => kept.keep_mark()?,
            "snap" | "due" => {
                if (word == "snap" || kept.is_long(0)) && kept.snapshot()? {
                    snapshots = snapshots.saturating_add(1);
                }
            }
            "204" => made = StatusCode::NO_CONTENT,
            "/b" => moves = true,
            "restart" => kept = start(alloc, kept.end(), made, moves)?,
            _ => {
                moment = moment.saturating_add(1);
                ask(alloc, &mut kept, word, moment)?;
            }
        }
    }
    Ok((kept, snapshots))
}

// What a server became, as a row has it; or why it ended.
fn outcome(alloc: Global, lived: Lived) -> Result<String, Fail> {
    match lived {
        Ok((kept, snapshots)) => {
            let heads = String::from_utf8(kept.handler().heads.clone()?)?;
            let heads = if heads.is_empty() {
                "."
            } else {
                heads.as_str()
            };
            let (tokens, latest) = (kept.tokens(), kept.latest());
            Ok(format!(in alloc; "{heads} {tokens} {latest} {snapshots}")?)
        }
        Err(error) => Ok(format!(in alloc; "{error}")?),
    }
}

// Lives each row of a text.
fn assert_lives(rt: &impl Abort, alloc: Global, rows: &str) -> Result<(), Fail> {
    for row in rows.trim().lines() {
        let Some((life, expected)) = row.split_once(" -> ") else {
            return Err(Fail::new("a row without an arrow"));
        };
        let found = outcome(alloc, live(alloc, life))?;
        assert_eq!(rt; found.as_str(), expected, "{row}");
    }
    Ok(())
}

#[test]
fn lives_give_these_states(rt: HostRuntime) -> Result<(), Fail> {
    assert_lives(&rt, rt.alloc(), LIVES)
}

#[test]
fn lives_with_snapshots_give_these_states(rt: HostRuntime) -> Result<(), Fail> {
    assert_lives(&rt, rt.alloc(), SNAPSHOTS)
}

// Two files with one block of these bytes.
fn files_with(alloc: Global, block: &[u8]) -> Result<Pair<Memory>, KeptError> {
    let mut pair = files(alloc);
    pair.open(alloc)?;
    Keeps::next(&mut pair, alloc)?;
    pair.cut()?;
    Keeps::keep(&mut pair, alloc, block)?;
    Ok(pair)
}

// A server over a first block.
fn begin(alloc: Global, block: &[u8]) -> Lived {
    let kept = start(alloc, files_with(alloc, block)?, StatusCode::CREATED, false)?;
    Ok((kept, 0))
}

/// A journal of before is taken over, once, of either format.
#[test]
fn a_journal_of_before_is_taken_over(rt: HostRuntime) -> Result<(), Fail> {
    let alloc = rt.alloc();
    let head = "PUT /old HTTP/1.1\r\nHost: localhost:4918\r\nContent-Length: 4\r\n\r\n";
    for state in [FORMER, ELDER] {
        let mut disk = Memory::new(alloc);
        disk.write_at(0, &bytes_in(alloc, state)?)?;
        disk.sync()?;
        let mut pair = Pair::new(disk, Memory::new(alloc));
        assert!(rt; adopt(alloc, &mut pair, b"/")?);
        assert!(rt; !adopt(alloc, &mut pair, b"/")?);
        let kept = start(alloc, pair, StatusCode::CREATED, false)?;
        assert_eq!(rt; kept.handler().heads.as_slice(), head.as_bytes());
        assert_eq!(rt; (kept.tokens(), kept.latest()), (0, 999_913_600));
    }
    Ok(())
}

#[test]
fn a_long_journal_is_to_begin_anew(rt: HostRuntime) -> Result<(), Fail> {
    for row in DUE.trim().lines() {
        let Some((sizes, expected)) = row.split_once(" -> ") else {
            return Err(Fail::new("a row without an arrow"));
        };
        let size = word_at(sizes, 0).parse::<usize>()?;
        let base = word_at(sizes, 1).parse::<usize>()?;
        let least = word_at(sizes, 2).parse::<usize>()?;
        assert_eq!(rt; is_due(size, base, least), expected == "true", "{row}");
    }
    Ok(())
}

#[test]
fn first_blocks_give_these_states(rt: HostRuntime) -> Result<(), Fail> {
    let alloc = rt.alloc();
    for row in FIRSTS.trim().lines() {
        let Some((block, expected)) = row.split_once(" -> ") else {
            return Err(Fail::new("a row without an arrow"));
        };
        let found = outcome(alloc, begin(alloc, &bytes_in(alloc, block)?))?;
        assert_eq!(rt; found.as_str(), expected, "{row}");
    }
    Ok(())
}
