//! A file of before is taken over.
use crate::error::JournalError;
use crate::journal::{Journal, crash};
use crate::pair::Pair;
use crate::pair::tests::{disk, file, files, found, mark, zero};
use sqlite_disk::{Disk, Fuse, Memory};
use std::alloc::Global;
use std::test::Fail;

/// A file of before and another one, and after how many steps they are once it was taken over, or why it is refused. `former` has
/// a block of before and one more; `copy` is what a crash left of its copy, and `another` and `longer` aren't copies of it. Of
/// `lost`, one of before, the marks alone are left; to `late`, which was cleared, a mark came late.
const FORMER: &str = "
former empty -> taken over, 2
former front -> taken over, 2
former begun -> taken over, 2
former copy -> taken over, 2
former old -> taken over, 2
former another -> Foreign
former longer -> Foreign
former new -> Foreign
former newer -> Foreign
former other -> Foreign
cut empty -> Damaged
lost empty -> Damaged
lost copy -> Damaged
late new -> 3
late newer -> 5
other empty -> Foreign
old empty -> 2
old new -> 3
empty empty -> 0
empty new -> 3
front former -> Foreign
";

// A file of before, which has `two` after its first block.
fn former(alloc: Global) -> Result<Vec<u8>, JournalError> {
    of_blocks(alloc, &[b"/", b"two"])
}

// A file of these blocks.
fn of_blocks(alloc: Global, blocks: &[&[u8]]) -> Result<Vec<u8>, JournalError> {
    let mut journal = Journal::new(Memory::new(alloc));
    journal.open()?;
    journal.next(alloc)?;
    journal.cut()?;
    for block in blocks {
        journal.keep(alloc, block)?;
    }
    let mut bytes = Vec::new(alloc);
    bytes.resize(journal.len().saturating_add(1), 0u8)?;
    journal.read(0, &mut bytes)?;
    Ok(bytes)
}

// A file of before whose blocks are lost.
fn lost(alloc: Global) -> Result<Vec<u8>, Fail> {
    let mut bytes = former(alloc)?;
    let len = bytes.len();
    zero(&mut bytes, 72, len);
    mark(&mut bytes, len.saturating_sub(1) as u64);
    Ok(bytes)
}

// The file of a name, without marks but for `lost` and `late`.
fn unmarked(alloc: Global, name: &str) -> Result<Vec<u8>, Fail> {
    let mut bytes = match name {
        "lost" => return lost(alloc),
        "late" => return file(alloc, name),
        "former" => former(alloc)?,
        "cut" => {
            let mut bytes = former(alloc)?;
            bytes.truncate(bytes.len().saturating_sub(4));
            bytes
        }
        "copy" => files(alloc, 1)?.0,
        "another" => of_blocks(alloc, &[b"\0\0\0\0\0\0\0\0one", b"three"])?,
        "longer" => of_blocks(alloc, &[b"\0\0\0\0\0\0\0\0one", b"two", b"three"])?,
        _ => file(alloc, name)?,
    };
    zero(&mut bytes, 24, 72);
    Ok(bytes)
}

// Takes a file of before over, whose first block becomes `one`: whether it was one, and after how many steps the pair is.
fn adopt<D: Disk + Drop>(alloc: Global, pair: &mut Pair<D>) -> Result<(bool, usize), JournalError> {
    let is_former = pair.adopt(alloc, b"/", b"one")?;
    Ok((is_former, found(alloc, pair)?))
}

#[test]
fn a_file_of_before_is_taken_over(rt: HostRuntime) -> Result<(), Fail> {
    let alloc = rt.alloc();
    for row in FORMER.trim().lines() {
        let Some((names, wanted)) = row.split_once(" -> ") else {
            return Err(Fail::new("a row without an arrow"));
        };
        let Some((one, other)) = names.split_once(' ') else {
            return Err(Fail::new("a row of one file"));
        };
        let (one, other) = (unmarked(alloc, one)?, unmarked(alloc, other)?);
        let mut pair = Pair::new(disk(alloc, &one)?, disk(alloc, &other)?);
        let told = match adopt(alloc, &mut pair) {
            Ok((true, steps)) => format!(in alloc; "taken over, {steps}")?,
            Ok((false, steps)) => format!(in alloc; "{steps}")?,
            Err(error) => format!(in alloc; "{error}")?,
        };
        assert_eq!(rt; told.as_str(), wanted, "{row}");
    }
    Ok(())
}

/// A crash at each call of it leaves what is taken over again.
#[test]
fn a_crash_while_a_file_is_taken_over(rt: HostRuntime) -> Result<(), Fail> {
    let alloc = rt.alloc();
    let bytes = former(alloc)?;
    let mut ends = 0u32;
    for calls in 0..40 {
        for (one, other) in [(calls, 1_000), (1_000, calls)] {
            let one = Fuse::new(disk(alloc, &bytes)?, one);
            let other = Fuse::new(Memory::new(alloc), other);
            let mut pair = Pair::new(one, other);
            if pair.adopt(alloc, b"/", b"one").is_err() {
                ends = ends.saturating_add(1);
            }
            crash(&mut pair.counts);
            crash(&mut pair.spare);
            let (_, steps) = adopt(alloc, &mut pair)?;
            assert_eq!(rt; steps, 2, "{calls} calls");
        }
    }
    assert!(rt; ends > 20);
    Ok(())
}
