//! A pair that reads what another opening of its files keeps, as it comes.
use crate::error::JournalError;
use crate::journal::Journal;
use crate::pair::Pair;
use crate::pair::tests::passing::{hand, new_pair};
use crate::pair::tests::{STEPS, disk, file_of, live, read, step};
use sqlite_disk::Memory;
use std::alloc::Global;
use std::test::Fail;

// In which generation a pair is after so many steps; none where it has no block.
fn generation_after(steps: usize) -> Option<usize> {
    match steps {
        0 => None,
        1 | 2 => Some(0),
        3 | 4 => Some(1),
        _ => Some(2),
    }
}

// Reads what was kept since, each content and a comma, until none is whole. None where it began anew.
fn follow(alloc: Global, pair: &mut Pair<Memory>) -> Result<Option<Vec<u8>>, JournalError> {
    let mut found = Vec::new(alloc);
    for _ in 0..9 {
        let content = pair.follow(alloc)?;
        if pair.is_anew()? {
            return Ok(None);
        }
        let Some(content) = content else {
            return Ok(Some(found));
        };
        found.extend_from_slice(&content)?;
        found.extend_from_slice(b",")?;
    }
    Err(JournalError::NoRoom)
}

// One opening takes so many steps, another one reads them, and the first one goes on up to another
// count: what the second one read at first, and what it then follows.
fn follow_from(
    alloc: Global,
    steps: usize,
    more: usize,
) -> Result<(Vec<u8>, Option<Vec<u8>>, Vec<u8>), JournalError> {
    let mut writer = new_pair(alloc);
    read(alloc, &mut writer)?;
    live(alloc, &mut writer, 0, steps);
    let mut follower = new_pair(alloc);
    hand(&mut writer, &mut follower);
    let before = read(alloc, &mut follower)?;
    hand(&mut follower, &mut writer);
    for taken in steps..more {
        step(alloc, &mut writer, taken)?;
    }
    hand(&mut writer, &mut follower);
    let since = follow(alloc, &mut follower)?;
    Ok((before, since, read(alloc, &mut follower)?))
}

/// What another opening kept since is read, each content once, unless it began anew; then the pair is
/// opened anew, and has all.
#[test]
fn what_is_kept_is_followed(rt: HostRuntime) -> Result<(), Fail> {
    let alloc = rt.alloc();
    for steps in 0..6usize {
        for more in steps..6 {
            let (mut all, since, anew) = follow_from(alloc, steps, more)?;
            let is_one = steps > 0 && generation_after(steps) == generation_after(more);
            assert_eq!(rt; since.is_some(), is_one, "{steps} steps, {more} steps");
            if let Some(since) = since {
                all.extend_from_slice(&since)?;
                assert_eq!(rt;
                    all.as_slice(),
                    STEPS[more].as_bytes(),
                    "{steps} steps, {more} steps"
                );
            }
            assert_eq!(rt;
                anew.as_slice(),
                STEPS[more].as_bytes(),
                "{steps} steps, {more} steps"
            );
        }
    }
    Ok(())
}

// The file that counts after one step and after two, of one pair, and the other file.
fn one_and_two(alloc: Global) -> Result<(Vec<u8>, Vec<u8>, Vec<u8>), JournalError> {
    let mut pair = new_pair(alloc);
    read(alloc, &mut pair)?;
    live(alloc, &mut pair, 0, 1);
    let one = file_of(alloc, &mut pair.counts)?;
    step(alloc, &mut pair, 1)?;
    let two = file_of(alloc, &mut pair.counts)?;
    Ok((one, two, file_of(alloc, &mut pair.spare)?))
}

// A file of which a byte was lost; none where it was 0.
fn without(mut file: Vec<u8>, place: usize) -> Option<Vec<u8>> {
    let byte = file.as_mut_slice().get_mut(place)?;
    if *byte == 0 {
        return None;
    }
    *byte = 0;
    Some(file)
}

// Gives a file the marks of another one.
fn copy_marks(from: &[u8], to: &mut Vec<u8>) {
    if let (Some(from), Some(to)) = (from.get(24..72), to.as_mut_slice().get_mut(24..72)) {
        to.copy_from_slice(from);
    }
}

// A pair that read the first step of these files, of which the first one counts.
fn at_one(alloc: Global, one: &[u8], spare: &[u8]) -> Result<Pair<Memory>, Fail> {
    let mut pair = Pair::new(disk(alloc, one)?, disk(alloc, spare)?);
    if read(alloc, &mut pair)?.as_slice() != b"one,".as_slice() {
        return Err(Fail::new("the first step isn't read"));
    }
    Ok(pair)
}

/// A block of which a byte isn't there yet is none yet, as long as no mark tells of it; it is one once it is whole.
#[test]
fn half_a_block_is_none_yet(rt: HostRuntime) -> Result<(), Fail> {
    let alloc = rt.alloc();
    let (one, two, spare) = one_and_two(alloc)?;
    for place in one.len().saturating_sub(1)..two.len().saturating_sub(1) {
        let Some(mut torn) = without(two.clone()?, place) else {
            continue;
        };
        copy_marks(&one, &mut torn);
        let mut pair = at_one(alloc, &one, &spare)?;
        for (file, expected) in [(&torn, b"".as_slice()), (&two, b"two,"), (&two, b"")] {
            pair.counts
                .swap_disks(&mut Journal::new(disk(alloc, file)?));
            let found = follow(alloc, &mut pair)?;
            assert_eq!(rt; found.as_deref(), Some(expected), "byte {place}");
        }
    }
    Ok(())
}

/// A block that a mark tells of, and of which a byte is lost, is damage, as it is at a start; but where the first block was dropped too, the
/// other opening began anew.
#[test]
fn half_a_marked_block_is_damage(rt: HostRuntime) -> Result<(), Fail> {
    let alloc = rt.alloc();
    let (one, two, spare) = one_and_two(alloc)?;
    let end = one.len().saturating_sub(1);
    for place in end..two.len().saturating_sub(1) {
        let Some(torn) = without(two.clone()?, place) else {
            continue;
        };
        let mut pair = at_one(alloc, &one, &spare)?;
        pair.counts
            .swap_disks(&mut Journal::new(disk(alloc, &torn)?));
        let found = follow(alloc, &mut pair);
        assert_eq!(rt; found, Err(JournalError::Damaged(end)), "byte {place}");
        let Some(dropped) = without(torn, 72) else {
            return Err(Fail::new("no first block"));
        };
        let mut pair = at_one(alloc, &one, &spare)?;
        pair.counts
            .swap_disks(&mut Journal::new(disk(alloc, &dropped)?));
        assert_eq!(rt; follow(alloc, &mut pair)?, None, "byte {place}");
    }
    Ok(())
}

/// A file that ends where the blocks end that were read is damage, where a mark tells of more.
#[test]
fn a_file_that_is_cut_short_is_damage(rt: HostRuntime) -> Result<(), Fail> {
    let alloc = rt.alloc();
    let (one, two, spare) = one_and_two(alloc)?;
    let end = one.len().saturating_sub(1);
    for len in 72..two.len().saturating_sub(1) {
        let mut cut = two.clone()?;
        cut.truncate(len);
        let mut pair = at_one(alloc, &one, &spare)?;
        pair.counts
            .swap_disks(&mut Journal::new(disk(alloc, &cut)?));
        let found = follow(alloc, &mut pair);
        assert!(rt;
            found == Err(JournalError::Damaged(end)) || found == Err(JournalError::Io),
            "{len} bytes: {found:?}"
        );
    }
    Ok(())
}
