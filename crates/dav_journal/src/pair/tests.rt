//! Lives of a pair over disks in memory, with crashes and damage.
use crate::block::twice_bytes;
use crate::error::JournalError;
use crate::journal::{Journal, crash};
use crate::pair::Pair;
use sqlite_disk::{Disk, Fuse, Memory};
use std::alloc::Global;
use std::test::Fail;

mod adopting;
mod elder;
mod following;
mod passing;

/// What a pair has after each step of its life: the third and the fifth begin anew.
pub const STEPS: [&str; 6] = ["", "one,", "one,two,", "three,", "three,four,", "five,"];

/// Opens a pair, and reads what it has: each content, and a comma.
pub fn read<D: Disk + Drop>(alloc: Global, pair: &mut Pair<D>) -> Result<Vec<u8>, JournalError> {
    let mut found = Vec::new(alloc);
    pair.open(alloc)?;
    for _ in 0..9 {
        let Some(content) = pair.next(alloc)? else {
            return Ok(found);
        };
        found.extend_from_slice(&content)?;
        found.extend_from_slice(b",")?;
    }
    Err(JournalError::NoRoom)
}

// After how many steps a pair has what it has.
pub fn found<D: Disk + Drop>(alloc: Global, pair: &mut Pair<D>) -> Result<usize, JournalError> {
    let found = read(alloc, pair)?;
    for (step, text) in STEPS.iter().enumerate() {
        if found.as_slice() == text.as_bytes() {
            return Ok(step);
        }
    }
    Err(JournalError::NoRoom)
}

/// Takes the step after so many.
pub fn step<D: Disk + Drop>(
    alloc: Global,
    pair: &mut Pair<D>,
    steps: usize,
) -> Result<(), JournalError> {
    match steps {
        0 => pair.keep(alloc, b"one"),
        1 => pair.keep(alloc, b"two"),
        2 => pair.renew(alloc, b"three"),
        3 => pair.keep(alloc, b"four"),
        _ => pair.renew(alloc, b"five"),
    }
}

/// Lives on from a step to another: how many steps it has taken, as far as was answered.
pub fn live<D: Disk + Drop>(alloc: Global, pair: &mut Pair<D>, from: usize, to: usize) -> usize {
    if pair.cut().is_err() {
        return from;
    }
    let mut taken = from;
    for steps in from..to {
        if step(alloc, pair, steps).is_err() {
            break;
        }
        taken = steps.saturating_add(1);
    }
    taken
}

// A life until a crash, where the files take so many calls, and another life after it: how many
// steps were answered before the crash, were found after it, and were found at the end.
fn crash_after(alloc: Global, one: u64, other: u64) -> Result<(usize, usize, usize), JournalError> {
    let one = Fuse::new(Memory::new(alloc), one);
    let other = Fuse::new(Memory::new(alloc), other);
    let mut pair = Pair::new(one, other);
    let kept = match found(alloc, &mut pair) {
        Ok(steps) => live(alloc, &mut pair, steps, 5),
        Err(_) => 0,
    };
    crash(&mut pair.counts);
    crash(&mut pair.spare);
    let there = found(alloc, &mut pair)?;
    live(alloc, &mut pair, there, 5);
    crash(&mut pair.counts);
    crash(&mut pair.spare);
    Ok((kept, there, found(alloc, &mut pair)?))
}

/// Each call of each file is the last before a crash.
#[test]
fn a_crash_at_each_call(rt: HostRuntime) -> Result<(), Fail> {
    let alloc = rt.alloc();
    assert_eq!(rt; crash_after(alloc, 99, 99)?, (5, 5, 5));
    for calls in 0..100 {
        for (one, other) in [(calls, 1_000), (1_000, calls)] {
            let (kept, there, end) = crash_after(alloc, one, other)?;
            assert!(rt;
                there == kept || there == kept.saturating_add(1),
                "{one}, {other} calls: {kept} kept, {there} found"
            );
            assert_eq!(rt; end, 5, "{one}, {other} calls");
        }
    }
    Ok(())
}

/// The bytes of a file up to the gate after its last block, with a mark as on a disk that is mixing.
pub fn file_of(alloc: Global, journal: &mut Journal<Memory>) -> Result<Vec<u8>, JournalError> {
    let mut bytes = Vec::new(alloc);
    bytes.resize(journal.len().saturating_add(1), 0u8)?;
    journal.read(0, &mut bytes)?;
    if let Some(mark) = bytes.as_mut_slice().get_mut(24..40) {
        mark.copy_from_slice(&twice_bytes(journal.len() as u64));
    }
    Ok(bytes)
}

// The file that counts and the other one, after so many steps.
pub fn files(alloc: Global, steps: usize) -> Result<(Vec<u8>, Vec<u8>), JournalError> {
    let mut pair = Pair::new(Memory::new(alloc), Memory::new(alloc));
    read(alloc, &mut pair)?;
    live(alloc, &mut pair, 0, steps);
    Ok((
        file_of(alloc, &mut pair.counts)?,
        file_of(alloc, &mut pair.spare)?,
    ))
}

// A disk with a file of these bytes.
pub fn disk(alloc: Global, bytes: &[u8]) -> Result<Memory, Fail> {
    let mut disk = Memory::new(alloc);
    if !bytes.is_empty() {
        disk.write_at(0, bytes)?;
        disk.sync()?;
    }
    Ok(disk)
}

// After how many steps a pair of these files is; none where it is refused.
fn steps_of(alloc: Global, one: &[u8], other: &[u8]) -> Result<Option<usize>, Fail> {
    let mut pair = Pair::new(disk(alloc, one)?, disk(alloc, other)?);
    Ok(found(alloc, &mut pair).ok())
}

/// Two files at a start, in either order, and after how many steps they are, or why they are refused. `front` has no block; `old`,
/// `new` and `newer` are of one generation each, after 2, 3 and 5 steps; `begun` and `zeros` are what a crash left of a first
/// write. Of `new` a crash within `renew` leaves `unmarked`, whole but not switched to, and `torn` and `early`, which isn't whole
/// yet. Damage makes of it `flipped`, `short` and `lost`, and of `newer` `gone`. To `front` came a mark that an earlier server had
/// under way: `late`.
const FILES: &str = "
empty empty -> 0
empty front -> 0
front front -> 0
begun empty -> 0
zeros empty -> 0
begun front -> 0
old empty -> 2
old begun -> 2
old front -> 2
new empty -> 3
new front -> 3
old new -> 3
old newer -> 5
new newer -> 5
old unmarked -> 3
empty unmarked -> 3
old torn -> 2
old early -> 2
front torn -> 0
old flipped -> Damaged
old short -> Damaged
old lost -> Damaged
newer flipped -> 5
newer lost -> 5
new gone -> 3
empty lost -> Damaged
new late -> 3
newer late -> 5
old late -> Damaged
front late -> Damaged
empty late -> Damaged
old old -> Foreign
new new -> Foreign
new unmarked -> Foreign
old other -> Foreign
empty other -> Foreign
";

// Changes a byte.
fn set(bytes: &mut [u8], place: usize, byte: u8) {
    if let Some(old) = bytes.get_mut(place) {
        *old = byte;
    }
}

// A mark comes late, which says that the blocks reached so far.
pub fn mark(bytes: &mut [u8], reached: u64) {
    if let Some(place) = bytes.get_mut(56..72) {
        place.copy_from_slice(&twice_bytes(reached));
    }
}

// Makes a part zeros.
pub fn zero(bytes: &mut [u8], from: usize, to: usize) {
    if let Some(part) = bytes.get_mut(from..to) {
        part.fill(0);
    }
}

// Makes of the file `new` another of these names.
fn change(name: &str, new: &mut Vec<u8>) {
    let len = new.len();
    match name {
        "new" | "old" | "newer" => return,
        "begun" => new.truncate(31),
        "short" => new.truncate(len.saturating_sub(4)),
        "flipped" => set(new, len.saturating_sub(2), b'E'),
        "lost" | "gone" => zero(new, 72, len),
        _ => zero(new, 24, 72),
    }
    match name {
        "torn" => {
            set(new, 72, 0);
            set(new, len.saturating_sub(2), 0);
        }
        "early" => {
            set(new, 72, 0);
            zero(new, 100, len);
        }
        _ => {}
    }
}

// The file of a name.
pub fn file(alloc: Global, name: &str) -> Result<Vec<u8>, Fail> {
    let steps = match name {
        "old" => 2,
        "newer" | "gone" => 5,
        _ => 3,
    };
    let (mut counts, mut spare) = files(alloc, steps)?;
    match name {
        "empty" => Ok(Vec::new(alloc)),
        "zeros" => Ok(Vec::from_slice(alloc, &[0; 16])?),
        "other" => Ok(Vec::from_slice(alloc, &[b'v'; 200])?),
        "front" => Ok(spare),
        "late" => {
            mark(&mut spare, 200);
            Ok(spare)
        }
        _ => {
            change(name, &mut counts);
            Ok(counts)
        }
    }
}

// What a start finds over two files, or why it is refused; without their marks, as on a disk that isn't mixing, it is the same, and
// lives on.
fn start(alloc: Global, one: &[u8], other: &[u8]) -> Result<String, Fail> {
    let mut pair = Pair::new(disk(alloc, one)?, disk(alloc, other)?);
    let steps = match found(alloc, &mut pair) {
        Ok(steps) => steps,
        Err(error) => return Ok(format!(in alloc; "{error}")?),
    };
    let (mut one, mut other) = (Vec::from_slice(alloc, one)?, Vec::from_slice(alloc, other)?);
    zero(&mut one, 24, 72);
    zero(&mut other, 24, 72);
    let mut pair = Pair::new(disk(alloc, &one)?, disk(alloc, &other)?);
    let again = found(alloc, &mut pair)?;
    let taken = live(alloc, &mut pair, again, 5);
    let end = found(alloc, &mut pair)?;
    if (again, taken, end) != (steps, 5, 5) {
        return Ok(format!(in alloc; "{steps}, then {again}, {taken}, {end}")?);
    }
    Ok(format!(in alloc; "{steps}")?)
}

/// The file with the higher generation counts, in whichever order they come; two of one generation
/// are refused.
#[test]
fn the_newer_file_counts(rt: HostRuntime) -> Result<(), Fail> {
    let alloc = rt.alloc();
    for row in FILES.trim().lines() {
        let Some((names, wanted)) = row.split_once(" -> ") else {
            return Err(Fail::new("a row without an arrow"));
        };
        let Some((one, other)) = names.split_once(' ') else {
            return Err(Fail::new("a row of one file"));
        };
        let (one, other) = (file(alloc, one)?, file(alloc, other)?);
        let (found, turned) = (start(alloc, &one, &other)?, start(alloc, &other, &one)?);
        assert_eq!(rt; found.as_str(), wanted, "{row}");
        assert_eq!(rt; turned.as_str(), wanted, "{row}, turned");
    }
    Ok(())
}

// Whether a file, damaged at one byte or with zeros from there on, is refused beside another one,
// or has what it had.
fn is_seen(alloc: Global, one: &[u8], other: &[u8], place: usize) -> Result<bool, Fail> {
    let wanted = steps_of(alloc, one, other)?;
    for flip in [1, 128, 255, 0] {
        let mut damaged = Vec::from_slice(alloc, one)?;
        if let Some(byte) = damaged.get_mut(place) {
            *byte ^= flip;
        }
        if flip == 0 && place >= 40 {
            if let Some(rest) = damaged.as_mut_slice().get_mut(place..) {
                rest.fill(0);
            }
        }
        let there = steps_of(alloc, &damaged, other)?;
        if there.is_some() && there != wanted {
            return Ok(false);
        }
    }
    Ok(wanted.is_some())
}

/// A damaged file is never another state: not that of the other file, and no empty one.
#[test]
fn what_is_damaged_is_refused(rt: HostRuntime) -> Result<(), Fail> {
    let alloc = rt.alloc();
    let (first, _) = files(alloc, 2)?;
    let (second, none) = files(alloc, 4)?;
    let rows: [(&[u8], &[u8]); 3] = [(&second, &none), (&second, &first), (&none, &second)];
    for (one, other) in rows {
        for place in 0..one.len() {
            assert!(rt; is_seen(alloc, one, other, place)?, "byte {place}");
        }
    }
    Ok(())
}

/// Room is made for either, what a start drops can be read before, and what was renewed is read
/// again.
#[test]
fn room_and_rest(rt: HostRuntime) -> Result<(), Fail> {
    let alloc = rt.alloc();
    let (first, _) = files(alloc, 1)?;
    let mut torn = Vec::from_slice(alloc, &first)?;
    if let Some(marks) = torn.as_mut_slice().get_mut(24..72) {
        marks.fill(0);
    }
    torn.extend_from_slice(b"\0\0\0torn\0\0")?;
    let mut pair = Pair::new(Memory::new(alloc), disk(alloc, &torn)?);
    assert_eq!(rt; read(alloc, &mut pair)?.as_slice(), b"one,".as_slice());
    assert_eq!(rt; (pair.len(), pair.rest()?), (132, 8));
    let mut piece = [0u8; 4];
    pair.read(136, &mut piece)?;
    assert_eq!(rt; piece, *b"torn");
    pair.cut()?;
    assert_eq!(rt; pair.rest()?, 0);
    pair.room(3)?;
    step(alloc, &mut pair, 1)?;
    pair.keep_mark()?;
    pair.room_to_renew(5)?;
    step(alloc, &mut pair, 2)?;
    assert_eq!(rt; found(alloc, &mut pair)?, 3);
    Ok(())
}
