//! Crashes and damage over disks in memory.
use crate::block::twice_bytes;
use crate::error::JournalError;
use crate::journal::Journal;
use sqlite_disk::{Crash, Disk, Fuse, Memory};
use std::alloc::Global;
use std::mem;
use std::process::Abort;
use std::test::Fail;

/// What is kept in each test.
const CONTENTS: [&[u8]; 3] = [b"one", b"", b"\0three\0"];

impl<D: Disk + Drop> Journal<D> {
    /// Changes disks with another journal.
    pub fn swap_disks(&mut self, other: &mut Journal<D>) {
        mem::swap(&mut self.disk, &mut other.disk);
    }
}

// Reads what a journal has: how many of the contents, in order. An error where it has anything else.
fn read<D: Disk + Drop>(alloc: Global, journal: &mut Journal<D>) -> Result<usize, JournalError> {
    journal.open()?;
    for content in &CONTENTS {
        match journal.next(alloc)? {
            None => break,
            Some(block) if block.as_slice() == *content => {}
            Some(_) => return Err(JournalError::NoRoom),
        }
    }
    let end = journal.len();
    if journal.next(alloc)?.is_some() {
        return Err(JournalError::NoRoom);
    }
    Ok(match end {
        72 => 0,
        124 => 1,
        173 => 2,
        _ => 3,
    })
}

// Keeps a content, in two parts perhaps.
fn keep_one<D: Disk + Drop>(
    alloc: Global,
    journal: &mut Journal<D>,
    content: &[u8],
    in_parts: bool,
) -> Result<(), JournalError> {
    if in_parts {
        let half = content.len() / 2;
        return journal.keep_both(alloc, &content[..half], &content[half..]);
    }
    journal.keep(alloc, content)
}

// Keeps the contents in a journal that has so many of them: how many it has then, as far as was answered.
fn keep<D: Disk + Drop>(alloc: Global, journal: &mut Journal<D>, first: usize) -> usize {
    keep_them(alloc, journal, first, false)
}

// The same, each in two parts perhaps.
fn keep_them<D: Disk + Drop>(
    alloc: Global,
    journal: &mut Journal<D>,
    first: usize,
    in_parts: bool,
) -> usize {
    if journal.cut().is_err() {
        return first;
    }
    let mut kept = first;
    for content in CONTENTS.iter().skip(first) {
        if keep_one(alloc, journal, content, in_parts).is_err() {
            break;
        }
        kept = kept.saturating_add(1);
    }
    kept
}

/// Each call is the last before a crash, and then each of the start after that.
#[test]
fn a_crash_at_each_call(rt: HostRuntime) -> Result<(), Fail> {
    crash_at_each_call(&rt, rt.alloc(), false)
}

/// The same, where each content is kept in two parts.
#[test]
fn a_crash_at_each_call_of_parts(rt: HostRuntime) -> Result<(), Fail> {
    crash_at_each_call(&rt, rt.alloc(), true)
}

fn crash_at_each_call(rt: &impl Abort, alloc: Global, in_parts: bool) -> Result<(), Fail> {
    for calls in 0..50 {
        let mut journal = Journal::new(Fuse::new(Memory::new(alloc), calls));
        let kept = match read(alloc, &mut journal) {
            Ok(found) => keep_them(alloc, &mut journal, found, in_parts),
            Err(_) => 0,
        };
        journal.disk.crash();
        let found = read(alloc, &mut journal)?;
        assert!(rt;
            found == kept || found == kept.saturating_add(1),
            "{calls} calls: {kept} kept, {found} found"
        );
        assert_eq!(rt;
            keep_them(alloc, &mut journal, found, in_parts),
            3,
            "{calls} calls"
        );
        journal.disk.crash();
        assert_eq!(rt; read(alloc, &mut journal)?, 3, "{calls} calls");
    }
    Ok(())
}

// A file with the contents, with a mark as on a disk that is mixing.
fn whole(alloc: Global) -> Result<Vec<u8>, JournalError> {
    let mut journal = Journal::new(Memory::new(alloc));
    read(alloc, &mut journal)?;
    keep(alloc, &mut journal, 0);
    let mut bytes = Vec::new(alloc);
    bytes.extend_from_slice(journal.disk.bytes())?;
    if let Some(mark) = bytes.as_mut_slice().get_mut(24..40) {
        mark.copy_from_slice(&twice_bytes(journal.len() as u64));
    }
    Ok(bytes)
}

// What a start finds in a file of these bytes; none where it is refused.
fn found(alloc: Global, bytes: &[u8]) -> Result<Option<usize>, Fail> {
    let mut disk = Memory::new(alloc);
    disk.write_at(0, bytes)?;
    disk.sync()?;
    let mut journal = Journal::new(disk);
    Ok(read(alloc, &mut journal).ok())
}

/// Each byte changed, the file cut at each place, zeros from each place of a block on.
#[test]
fn what_is_damaged_is_refused(rt: HostRuntime) -> Result<(), Fail> {
    let alloc = rt.alloc();
    let bytes = whole(alloc)?;
    assert_eq!(rt; found(alloc, &bytes)?, Some(3));
    for place in 0..bytes.len() {
        for flip in [1, 128, 255] {
            let mut damaged = bytes.clone()?;
            if let Some(byte) = damaged.get_mut(place) {
                *byte ^= flip;
            }
            let there = found(alloc, &damaged)?;
            assert!(rt;
                there.is_none() || there == Some(3),
                "byte {place}: {there:?}"
            );
        }
        // A file that ends within its first mark can't be told from a new one.
        let wanted = if place < 32 { Some(0) } else { None };
        assert_eq!(rt;
            found(alloc, bytes.get(..place).unwrap_or(&[]))?,
            wanted,
            "cut at {place}"
        );
        if place >= 40 {
            let mut damaged = bytes.clone()?;
            if let Some(rest) = damaged.as_mut_slice().get_mut(place..) {
                rest.fill(0);
            }
            let there = found(alloc, &damaged)?;
            assert!(rt;
                there.is_none() || there == Some(3),
                "zeros from {place} on: {there:?}"
            );
        }
    }
    Ok(())
}

/// Blocks left out, doubled and exchanged: the parts of the file that are put together.
#[test]
fn blocks_in_another_order_are_refused(rt: HostRuntime) -> Result<(), Fail> {
    let alloc = rt.alloc();
    let bytes = whole(alloc)?;
    let (front, one, two, three, gate) = ((0, 72), (72, 124), (124, 173), (173, 229), (229, 230));
    let rows = [
        [front, two, three, gate, gate],
        [front, one, three, gate, gate],
        [front, one, two, gate, gate],
        [front, one, one, two, three],
        [front, one, two, two, three],
        [front, two, one, three, gate],
        [front, one, three, two, gate],
        [front, three, two, one, gate],
    ];
    for row in rows {
        let mut damaged = Vec::new(alloc);
        for (from, to) in row {
            damaged.extend_from_slice(bytes.get(from..to).unwrap_or(&[]))?;
        }
        assert_eq!(rt; found(alloc, &damaged)?, None, "{row:?}");
    }
    Ok(())
}

/// Room is made at once, an allocation that fails changes nothing, and what follows the last block can be read before it is dropped.
#[test]
fn what_a_start_drops_can_be_read(rt: HostRuntime) -> Result<(), Fail> {
    let alloc = rt.alloc();
    let bytes = whole(alloc)?;
    let mut disk = Memory::new(alloc);
    disk.write_at(0, bytes.get(..72).unwrap_or(&[]))?;
    disk.write_at(24, &[0; 48])?;
    disk.write_at(72, b"\0torn\0\0")?;
    disk.sync()?;
    let mut journal = Journal::new(disk);
    assert_eq!(rt; read(alloc, &mut journal)?, 0);
    assert_eq!(rt; (journal.len(), journal.rest()?), (72, 5));
    let mut piece = [0u8; 5];
    journal.read(72, &mut piece)?;
    assert_eq!(rt; piece, *b"\0torn");
    journal.cut()?;
    assert_eq!(rt; journal.rest()?, 0);
    journal.room(20)?;
    for content in CONTENTS {
        if journal.keep(alloc, content).is_err() {
            journal.keep(alloc, content)?;
        }
    }
    journal.disk.crash();
    assert_eq!(rt; read(alloc, &mut journal)?, 3);
    Ok(())
}
