//! Where the disk has no room.
ghost use Rattle.std.specs.Prelude.{⊤};

use crate::kept::{Heads, ask};
use dav_kept::{Keeps, Kept, KeptError};
use http::StatusCode;
use std::alloc::Global;
use std::test::Fail;

// What begins with a first block or has none, counts the blocks that it has to keep, and has room for
// none, or for one more but not to begin anew.
#[derive(Drop)]
struct Full {
    has_first: bool,
    has_room: bool,
    blocks: usize,
}

impl Keeps for Full {
    ghost is_clean = { λ j. ⊤ };

    ghost has_so_far = { λ j blocks. ⊤ };

    ghost has_read = { λ j blocks. ⊤ };

    ghost kept = { λ j blocks. ⊤ };

    ghost is_synced = { λ j. ⊤ };

    ghost is_own = { λ j. ⊤ };

    ghost ends_at = { λ j. 0 };

    ghost has_bytes = { λ j at bytes. ⊤ };

    ghost leaves = { λ j one other. ⊤ };

    fn next(&mut self, alloc: Global) -> Result<Option<Vec<u8>>, KeptError> {
        if !self.has_first {
            return Ok(None);
        }
        self.has_first = false;
        Ok(Some(Vec::from_slice(alloc, b"\0\0\0\0\0\0\0\x01/")?))
    }

    fn place(&self) -> usize {
        0
    }

    fn rest(&mut self) -> Result<usize, KeptError> {
        Ok(0)
    }

    fn read(&mut self, _at: usize, _piece: &mut [u8]) -> Result<(), KeptError> {
        Ok(())
    }

    fn begin(&mut self) -> Result<(), KeptError> {
        Ok(())
    }

    fn room(&mut self, _size: usize) -> Result<bool, KeptError> {
        Ok(self.has_room)
    }

    fn keep(&mut self, _alloc: Global, _block: &[u8]) -> Result<(), KeptError> {
        self.blocks = self.blocks.saturating_add(1);
        Ok(())
    }

    fn keep_both(&mut self, _alloc: Global, _block: &[u8], _body: &[u8]) -> Result<(), KeptError> {
        self.blocks = self.blocks.saturating_add(1);
        Ok(())
    }

    fn room_to_renew(&mut self, _size: usize) -> Result<bool, KeptError> {
        Ok(false)
    }

    fn renew(&mut self, _alloc: Global, _block: &[u8]) -> Result<(), KeptError> {
        Err(KeptError::Disk)
    }

    fn keep_mark(&mut self) -> Result<(), KeptError> {
        Ok(())
    }

    ghost kept_is_left = { λ j blocks others kept. (kept, kept) };
}

// A server over a journal with a first block or without one, with room or without.
fn start(alloc: Global, has_first: bool, has_room: bool) -> Result<Kept<Heads, Full>, KeptError> {
    let heads = Heads {
        heads: Vec::new(alloc),
        made: StatusCode::CREATED,
    };
    let full = Full {
        has_first,
        has_room,
        blocks: 0,
    };
    Kept::open(alloc, heads, full, b"/")
}

/// An opening is noted by one block; without room it isn't, and goes on.
#[test]
fn an_opening_is_noted(rt: HostRuntime) -> Result<(), Fail> {
    let alloc = rt.alloc();
    let rows = [
        (false, false, true, 1),
        (false, true, true, 1),
        (true, true, true, 1),
        (true, false, false, 0),
    ];
    for (has_first, has_room, is_noted, blocks) in rows {
        let mut kept = start(alloc, has_first, has_room)?;
        assert_eq!(rt; kept.begin()?, is_noted);
        assert_eq!(rt; kept.end().blocks, blocks);
    }
    Ok(())
}

#[test]
fn without_room_nothing_is_done(rt: HostRuntime) -> Result<(), Fail> {
    let alloc = rt.alloc();
    for (has_room, state, blocks) in [(false, "", 1), (true, "a", 2)] {
        let mut kept = start(alloc, false, has_room)?;
        kept.begin()?;
        assert_eq!(rt; ask(alloc, &mut kept, "+a", 1)?.is_some(), has_room);
        assert!(rt; !kept.snapshot()?);
        assert_eq!(rt; kept.handler().heads.as_slice(), state.as_bytes());
        assert_eq!(rt; kept.end().blocks, blocks);
    }
    Ok(())
}
