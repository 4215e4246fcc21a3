//! A file of the elder format is taken over.
use crate::elder::{ELDER_VERSION, elder_head_bytes};
use crate::error::JournalError;
use crate::journal::{Journal, crash};
use crate::pair::Pair;
use crate::pair::tests::{disk, file, files, found, zero};
use sqlite_disk::{Disk, Fuse, Memory};
use std::alloc::{AllocError, Global};
use std::test::Fail;

/// A file of the elder format and another one, and after how many steps they are once it was taken over, or why it is refused.
/// `whole` has the first block and `two`; `torn` and `zeros` have something after it that is no block. `first` and `second` are
/// damaged in that block, `bad` has a block after one that is bad, and `foreign` another first block. `dropped` is what is left
/// of a file that was let go, `halfway` what a crash left before, and `faded` has lost its version alone. `copy` is a copy that
/// is whole or didn't end, `begun` has its first block alone, and `longer` isn't a copy. `nothing` is what a power cut left of a first
/// write, zeros alone.
const ELDER: &str = "
whole empty -> taken over, 2
whole front -> taken over, 2
whole begun -> taken over, 2
whole copy -> taken over, 2
whole longer -> Foreign
whole new -> Foreign
torn empty -> taken over, 2
zeros empty -> taken over, 2
faded empty -> taken over, 2
first empty -> Damaged
second empty -> taken over, 1
bad empty -> Damaged
foreign empty -> Foreign
halfway copy -> taken over, 2
dropped copy -> taken over, 2
halfway empty -> Foreign
dropped empty -> Foreign
nothing empty -> 0
nothing front -> 0
nothing copy -> 2
old empty -> 2
empty empty -> 0
empty new -> 3
";

// Adds a block of the elder format.
fn add(bytes: &mut Vec<u8>, content: &[u8]) -> Result<(), AllocError> {
    let place = bytes.len() as u64;
    bytes.extend_from_slice(&elder_head_bytes(7, place, content))?;
    bytes.extend_from_slice(content)
}

// A file of these blocks in the elder format.
fn of_blocks(alloc: Global, blocks: &[&[u8]]) -> Result<Vec<u8>, AllocError> {
    let mut bytes = Vec::from_slice(alloc, &ELDER_VERSION)?;
    bytes.extend_from_slice(&7u64.to_be_bytes())?;
    for block in blocks {
        add(&mut bytes, block)?;
    }
    Ok(bytes)
}

// Changes a byte.
fn flip(bytes: &mut [u8], place: usize) {
    if let Some(byte) = bytes.get_mut(place) {
        *byte ^= 1;
    }
}

// Changes the file of two blocks into that of a name.
fn change(name: &str, bytes: &mut Vec<u8>) -> Result<(), AllocError> {
    match name {
        "torn" => bytes.extend_from_slice(b"torn torn torn torn torn torn"),
        "zeros" => bytes.extend_from_slice(&[0; 99]),
        "bad" => {
            add(bytes, b"three")?;
            flip(bytes, 66);
            Ok(())
        }
        "first" => {
            flip(bytes, 30);
            Ok(())
        }
        "second" => {
            flip(bytes, 66);
            Ok(())
        }
        "faded" => {
            zero(bytes, 0, 8);
            Ok(())
        }
        "halfway" => {
            zero(bytes, 0, 8);
            zero(bytes, 24, 33);
            Ok(())
        }
        "dropped" => {
            zero(bytes, 0, 8);
            bytes.resize(73, 0u8)?;
            zero(bytes, 24, 73);
            Ok(())
        }
        _ => Ok(()),
    }
}

// The file of a name.
fn first_file(alloc: Global, name: &str) -> Result<Vec<u8>, Fail> {
    match name {
        "old" | "empty" => Ok(file(alloc, name)?),
        "nothing" => Ok(Vec::from_slice(alloc, &[0; 73])?),
        "foreign" => Ok(of_blocks(alloc, &[b"?", b"two"])?),
        _ => {
            let mut bytes = of_blocks(alloc, &[b"/", b"two"])?;
            change(name, &mut bytes)?;
            Ok(bytes)
        }
    }
}

// The other file of a name, without marks.
fn other_file(alloc: Global, name: &str) -> Result<Vec<u8>, Fail> {
    let mut bytes = match name {
        "begun" => files(alloc, 1)?.0,
        "copy" => files(alloc, 2)?.0,
        "longer" => {
            let mut pair = Pair::new(Memory::new(alloc), Memory::new(alloc));
            found(alloc, &mut pair)?;
            pair.cut()?;
            for content in [b"one".as_slice(), b"two", b"three"] {
                pair.keep(alloc, content)?;
            }
            bytes_of(alloc, &mut pair.counts)?
        }
        _ => file(alloc, name)?,
    };
    zero(&mut bytes, 24, 72);
    Ok(bytes)
}

// The bytes of a file up to the gate after its last block.
fn bytes_of(alloc: Global, journal: &mut Journal<Memory>) -> Result<Vec<u8>, JournalError> {
    let mut bytes = Vec::new(alloc);
    bytes.resize(journal.len().saturating_add(1), 0u8)?;
    journal.read(0, &mut bytes)?;
    Ok(bytes)
}

// Takes a file of the elder format over, whose first block becomes `one`: whether it was one, and after how many steps the pair is.
fn adopt<D: Disk + Drop>(alloc: Global, pair: &mut Pair<D>) -> Result<(bool, usize), JournalError> {
    let is_elder = pair.adopt_elder(alloc, b"/", b"one")?;
    Ok((is_elder, found(alloc, pair)?))
}

#[test]
fn a_file_of_the_elder_format_is_taken_over(rt: HostRuntime) -> Result<(), Fail> {
    let alloc = rt.alloc();
    for row in ELDER.trim().lines() {
        let Some((names, wanted)) = row.split_once(" -> ") else {
            return Err(Fail::new("a row without an arrow"));
        };
        let Some((one, other)) = names.split_once(' ') else {
            return Err(Fail::new("a row of one file"));
        };
        let (one, other) = (first_file(alloc, one)?, other_file(alloc, other)?);
        let mut pair = Pair::new(disk(alloc, &one)?, disk(alloc, &other)?);
        let told = match adopt(alloc, &mut pair) {
            Ok((true, steps)) => format!(in alloc; "taken over, {steps}")?,
            Ok((false, steps)) => format!(in alloc; "{steps}")?,
            Err(error) => format!(in alloc; "{error}")?,
        };
        assert_eq!(rt; told.as_str(), wanted, "{row}");
    }
    Ok(())
}

/// A crash at each call of it leaves what is taken over again, or what was.
#[test]
fn a_crash_while_an_elder_file_is_taken_over(rt: HostRuntime) -> Result<(), Fail> {
    let alloc = rt.alloc();
    let bytes = of_blocks(alloc, &[b"/", b"two"])?;
    let mut ends = 0u32;
    for calls in 0..40 {
        for (one, other) in [(calls, 1_000), (1_000, calls)] {
            let one = Fuse::new(disk(alloc, &bytes)?, one);
            let other = Fuse::new(Memory::new(alloc), other);
            let mut pair = Pair::new(one, other);
            if pair.adopt_elder(alloc, b"/", b"one").is_err() {
                ends = ends.saturating_add(1);
            }
            crash(&mut pair.counts);
            crash(&mut pair.spare);
            let (_, steps) = adopt(alloc, &mut pair)?;
            assert_eq!(rt; steps, 2, "{calls} calls");
        }
    }
    assert!(rt; ends > 20);
    Ok(())
}

/// What a power cut left of the first write of the very first file is a new state: zeros of any length, or that write with a part of its
/// first bytes lost.
#[test]
fn what_is_left_of_a_first_write_is_new(rt: HostRuntime) -> Result<(), Fail> {
    let alloc = rt.alloc();
    let front = other_file(alloc, "front")?;
    for to in 0..74 {
        let mut zeros = Vec::new(alloc);
        zeros.resize(to, 0u8)?;
        for other in ["empty", "front"] {
            let other = other_file(alloc, other)?;
            let mut pair = Pair::new(disk(alloc, &zeros)?, disk(alloc, &other)?);
            assert_eq!(rt; adopt(alloc, &mut pair), Ok((false, 0)), "{to} zeros");
        }
        for from in [0, 8, 16] {
            let mut lost = front.clone()?;
            zero(&mut lost, from, to.min(24));
            let mut pair = Pair::new(disk(alloc, &lost)?, Memory::new(alloc));
            assert_eq!(rt; adopt(alloc, &mut pair), Ok((false, 0)), "{from} to {to}");
        }
    }
    Ok(())
}
