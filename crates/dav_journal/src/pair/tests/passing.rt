//! Two openings of one pair of files: the earlier one keeps nothing behind the later one.
use crate::error::JournalError;
use crate::pair::Pair;
use crate::pair::tests::{file_of, live, read, step};
use sqlite_disk::Memory;
use std::alloc::Global;
use std::test::Fail;

// Gives the disks of a pair to another one, and takes those of that one: the first file is the one
// that counts of an even generation.
pub fn hand(from: &mut Pair<Memory>, to: &mut Pair<Memory>) {
    if from.generation % 2 == to.generation % 2 {
        from.counts.swap_disks(&mut to.counts);
        from.spare.swap_disks(&mut to.spare);
    } else {
        from.counts.swap_disks(&mut to.spare);
        from.spare.swap_disks(&mut to.counts);
    }
}

// A new pair.
pub fn new_pair(alloc: Global) -> Pair<Memory> {
    Pair::new(Memory::new(alloc), Memory::new(alloc))
}

// What the earlier of two openings is answered by: the third call of a turn of it is one of these.
fn ask(alloc: Global, pair: &mut Pair<Memory>, what: usize) -> Result<(), JournalError> {
    match what {
        0 => pair.keep(alloc, b"late"),
        1 => pair.renew(alloc, b"late"),
        2 => pair.keep_mark(),
        3 => pair.room(3_000_000),
        _ => pair.room_to_renew(3_000_000),
    }
}

// An opening takes so many steps; a later one, over the same files, takes them up to another count;
// then the earlier one goes on: what it is answered, and whether the files are as the later left them.
fn go_on(
    alloc: Global,
    steps: usize,
    more: usize,
    what: usize,
) -> Result<(Result<(), JournalError>, bool), JournalError> {
    let mut earlier = new_pair(alloc);
    read(alloc, &mut earlier)?;
    live(alloc, &mut earlier, 0, steps);
    let mut later = new_pair(alloc);
    hand(&mut earlier, &mut later);
    read(alloc, &mut later)?;
    later.cut()?;
    later.keep(alloc, b"")?;
    for taken in steps..more {
        step(alloc, &mut later, taken)?;
    }
    let was = (
        file_of(alloc, &mut later.counts)?,
        file_of(alloc, &mut later.spare)?,
    );
    hand(&mut later, &mut earlier);
    let answer = ask(alloc, &mut earlier, what);
    hand(&mut earlier, &mut later);
    let is = (
        file_of(alloc, &mut later.counts)?,
        file_of(alloc, &mut later.spare)?,
    );
    Ok((answer, is == was))
}

/// Whatever the later opening did, the earlier one is refused at its next call, and changes nothing.
#[test]
fn what_was_passed_keeps_nothing(rt: HostRuntime) -> Result<(), Fail> {
    let alloc = rt.alloc();
    for steps in 0..6usize {
        for more in steps..6 {
            for what in 0..5 {
                let (answer, is_same) = go_on(alloc, steps, more, what)?;
                assert!(rt;
                    is_same
                        && (answer == Err(JournalError::Passed) || answer == Err(JournalError::Io)),
                    "{steps} steps, {more} steps, {what}: {answer:?}, {is_same}"
                );
            }
        }
    }
    Ok(())
}

// An opening takes so many steps; a later one reads the files; the earlier one goes on up to another
// count; then the later one makes ready: what it is answered, and whether the files are as the earlier
// one left them.
fn make_ready(
    alloc: Global,
    steps: usize,
    more: usize,
) -> Result<(Result<(), JournalError>, bool), JournalError> {
    let mut earlier = new_pair(alloc);
    read(alloc, &mut earlier)?;
    live(alloc, &mut earlier, 0, steps);
    let mut later = new_pair(alloc);
    hand(&mut earlier, &mut later);
    read(alloc, &mut later)?;
    hand(&mut later, &mut earlier);
    for taken in steps..more {
        step(alloc, &mut earlier, taken)?;
    }
    let was = (
        file_of(alloc, &mut earlier.counts)?,
        file_of(alloc, &mut earlier.spare)?,
    );
    hand(&mut earlier, &mut later);
    let answer = later.cut();
    hand(&mut later, &mut earlier);
    let is = (
        file_of(alloc, &mut earlier.counts)?,
        file_of(alloc, &mut earlier.spare)?,
    );
    Ok((answer, is == was))
}

/// What the earlier opening kept while the later one read the files isn't cut off: that one is refused.
#[test]
fn what_came_since_is_not_cut_off(rt: HostRuntime) -> Result<(), Fail> {
    let alloc = rt.alloc();
    for steps in 0..5usize {
        for more in steps.saturating_add(1)..6 {
            let (answer, is_same) = make_ready(alloc, steps, more)?;
            assert!(rt;
                is_same && (answer == Err(JournalError::Passed) || answer == Err(JournalError::Io)),
                "{steps} steps, {more} steps: {answer:?}, {is_same}"
            );
        }
    }
    Ok(())
}

/// One that nobody passed goes on, also after the other file counted.
#[test]
fn what_was_not_passed_goes_on(rt: HostRuntime) -> Result<(), Fail> {
    let alloc = rt.alloc();
    for steps in 1..6 {
        for what in 0..5 {
            let mut pair = new_pair(alloc);
            read(alloc, &mut pair)?;
            assert_eq!(rt; live(alloc, &mut pair, 0, steps.min(5)), steps.min(5));
            assert_eq!(rt; ask(alloc, &mut pair, what), Ok(()));
        }
    }
    Ok(())
}
