//! A server that follows another one: blocks come while it looks.
ghost use Rattle.std.specs.Prelude.{⊤};

use crate::kept::Heads;
use bytes::Bytes;
use dav_kept::{Followed, Follows, Keeps, Kept, KeptError, Record, Request};
use http::StatusCode;
use http_server::Response;
use std::alloc::{AllocError, Global};
use std::test::Fail;

/// What each look at the journal finds: a block with the records of these heads, with commas between
/// them (`,` has none); `.`, that none is whole; `bad`, a block that has no records; or `anew`, a block
/// of a journal that began anew. Then, for each time that the server follows, its heads after it.
const FOLLOWED: &str = "
. -> .
. . -> . .
a . -> a
a . . b . -> a a ab
a b . -> ab
a,b . , . c . -> ab ab abc
anew -> anew
a anew -> anew
a . anew -> a anew
a . bad -> a Damaged
";

// The first block is read at a start; what comes then is scripted.
#[derive(Drop)]
struct Coming {
    has_first: bool,
    script: String,
    looks: usize,
    is_anew: bool,
    // Where what was read ends.
    ended: usize,
}

impl Coming {
    // The word of the next look.
    fn word(&mut self) -> &str {
        let looks = self.looks;
        self.looks = looks.saturating_add(1);
        self.script.as_str().split(' ').nth(looks).unwrap_or(".")
    }
}

// A block with the records of these heads.
fn block_of(alloc: Global, heads: &str) -> Result<Vec<u8>, AllocError> {
    let mut block = Vec::new(alloc);
    for head in heads.split(',') {
        if head.is_empty() {
            continue;
        }
        let record = Record {
            moment: 1,
            status: 201,
            principal: None,
            token: None,
            head: head.as_bytes(),
            body: b"body",
        };
        record.write(&mut block)?;
    }
    Ok(block)
}

impl Keeps for Coming {
    ghost is_clean = { λ j. ⊤ };

    ghost has_so_far = { λ j blocks. ⊤ };

    ghost has_read = { λ j blocks. ⊤ };

    ghost kept = { λ j blocks. ⊤ };

    ghost is_synced = { λ j. ⊤ };

    ghost is_own = { λ j. ⊤ };

    ghost ends_at = { λ j. j.ended };

    ghost has_bytes = { λ j at bytes. ⊤ };

    ghost leaves = { λ j one other. ⊤ };

    fn next(&mut self, alloc: Global) -> Result<Option<Vec<u8>>, KeptError> {
        if !self.has_first {
            return Ok(None);
        }
        self.has_first = false;
        Ok(Some(Vec::from_slice(alloc, b"\0\0\0\0\0\0\0\x01/")?))
    }

    fn place(&self) -> usize {
        self.ended
    }

    fn rest(&mut self) -> Result<usize, KeptError> {
        Ok(0)
    }

    fn read(&mut self, _at: usize, _piece: &mut [u8]) -> Result<(), KeptError> {
        Ok(())
    }

    fn begin(&mut self) -> Result<(), KeptError> {
        Ok(())
    }

    fn room(&mut self, _size: usize) -> Result<bool, KeptError> {
        Ok(true)
    }

    fn keep(&mut self, _alloc: Global, _block: &[u8]) -> Result<(), KeptError> {
        Ok(())
    }

    fn keep_both(&mut self, _alloc: Global, _block: &[u8], _body: &[u8]) -> Result<(), KeptError> {
        Ok(())
    }

    fn room_to_renew(&mut self, _size: usize) -> Result<bool, KeptError> {
        Ok(false)
    }

    fn renew(&mut self, _alloc: Global, _block: &[u8]) -> Result<(), KeptError> {
        Err(KeptError::Disk)
    }

    fn keep_mark(&mut self) -> Result<(), KeptError> {
        Ok(())
    }

    ghost kept_is_left = { λ j blocks others kept. (kept, kept) };
}

impl Follows for Coming {
    ghost is_unturned = { λ j. ⊤ };

    ghost has_all = { λ j blocks. ⊤ };

    fn follow(&mut self, alloc: Global) -> Result<Option<Vec<u8>>, KeptError> {
        match self.word() {
            "." => Ok(None),
            "bad" => Ok(Some(Vec::from_slice(alloc, b"bad")?)),
            "anew" => {
                self.is_anew = true;
                Ok(Some(Vec::from_slice(alloc, b"bad")?))
            }
            heads => Ok(Some(block_of(alloc, heads)?)),
        }
    }

    fn is_anew(&mut self) -> Result<bool, KeptError> {
        Ok(self.is_anew)
    }

    ghost read_is_all = { λ j blocks read. read };

    ghost all_is_so_far = { λ j blocks all. all };
}

// A journal whose first block is there, or was read before; this comes then.
fn journal_that(alloc: Global, has_first: bool, script: &str) -> Result<Coming, AllocError> {
    Ok(Coming {
        has_first,
        script: String::from_str(alloc, script)?,
        looks: 0,
        is_anew: false,
        ended: 0,
    })
}

// A server that answered nothing.
fn no_heads(alloc: Global) -> Heads {
    Heads {
        heads: Vec::new(alloc),
        made: StatusCode::CREATED,
    }
}

// The heads of a server, `.` where it has none.
fn heads_of<J: Keeps + Drop>(alloc: Global, kept: &Kept<Heads, J>) -> Result<String, Fail> {
    let heads = String::from_utf8(kept.handler().heads.clone()?)?;
    if heads.is_empty() {
        return Ok(String::from_str(alloc, ".")?);
    }
    Ok(heads)
}

// What a server is each time that it followed, so many times at most.
fn followed(alloc: Global, script: &str, times: usize) -> Result<String, Fail> {
    let mut kept = Kept::open(
        alloc,
        no_heads(alloc),
        journal_that(alloc, true, script)?,
        b"/",
    )?;
    let mut found = String::new(alloc);
    for time in 0..times {
        if time > 0 {
            found.push_str(" ")?;
        }
        match kept.follow() {
            Ok(true) => found.push_str(heads_of(alloc, &kept)?.as_str())?,
            Ok(false) => found.push_str("anew")?,
            Err(error) => found.push_str(format!(in alloc; "{error}")?.as_str())?,
        }
    }
    Ok(found)
}

/// What comes is played, each block once, and no part of one.
#[test]
fn what_comes_is_played(rt: HostRuntime) -> Result<(), Fail> {
    let alloc = rt.alloc();
    for row in FOLLOWED.trim().lines() {
        let Some((script, expected)) = row.split_once(" -> ") else {
            return Err(Fail::new("a row without an arrow"));
        };
        let times = expected.split(' ').count();
        assert_eq!(rt; followed(alloc, script, times)?.as_str(), expected, "{row}");
    }
    Ok(())
}

/// A server that followed goes on over another journal, whose blocks from there on it plays.
#[test]
fn it_goes_on_over_another_journal(rt: HostRuntime) -> Result<(), Fail> {
    let alloc = rt.alloc();
    let mut kept = Kept::open(
        alloc,
        no_heads(alloc),
        journal_that(alloc, true, "a *b .")?,
        b"/",
    )?;
    assert!(rt; kept.follow()?);
    let kept = kept.go_on_over(journal_that(alloc, false, "")?)?;
    assert_eq!(rt; heads_of(alloc, &kept)?.as_str(), "a*b");
    assert_eq!(rt;
        (kept.tokens(), kept.latest(), kept.is_new()),
        (0, 1, false)
    );
    Ok(())
}

/// A journal that is followed is read from its first block on, and nothing is kept there.
#[test]
fn what_is_followed_is_only_read(rt: HostRuntime) -> Result<(), Fail> {
    let alloc = rt.alloc();
    let journal = Followed::new(journal_that(alloc, true, "a b . c .")?);
    let mut kept = Kept::open(alloc, no_heads(alloc), journal, b"/")?;
    assert_eq!(rt; heads_of(alloc, &kept)?.as_str(), "ab");
    assert!(rt; kept.follow()? && kept.is_at_rest());
    assert_eq!(rt; heads_of(alloc, &kept)?.as_str(), "abc");
    let body = Bytes::new();
    let request = Request {
        moment: 2,
        principal: None,
        token: None,
        head: b"d",
        body: &body,
    };
    let mut response = Response::new(alloc);
    assert!(rt; kept.answer(&request, &mut response)?.is_none() && kept.is_at_rest());
    assert_eq!(rt; heads_of(alloc, &kept)?.as_str(), "abc");
    Ok(())
}

/// The place of who kept it is taken where what was played ends, and else not.
#[test]
fn its_place_is_taken(rt: HostRuntime) -> Result<(), Fail> {
    let alloc = rt.alloc();
    let journal = Followed::new(journal_that(alloc, true, "a *b .")?);
    let kept = Kept::open(alloc, no_heads(alloc), journal, b"/")?;
    let kept = kept.take_over(journal_that(alloc, false, "")?)?;
    assert_eq!(rt; heads_of(alloc, &kept)?.as_str(), "a*b");
    let mut shorter = journal_that(alloc, true, ".")?;
    shorter.ended = 7;
    let kept = Kept::open(alloc, no_heads(alloc), Followed::new(shorter), b"/")?;
    let other = kept.take_over(journal_that(alloc, false, "")?);
    assert!(rt; matches!(other, Err(KeptError::Damaged(0))));
    Ok(())
}
