//! When a disk looks for its claim.
ghost use Rattle.std.specs.Prelude.{⊤};

use crate::{Claimed, Claims};
use sqlite_disk::{Disk, Memory};
use std::alloc::Global;
use std::process::Abort;
use std::test::Fail;

/// How many looks find the claim, and what is asked of a disk of two bytes then: `r` a read, `l` its length, `w` a write behind its
/// end, `W` one of 65,536 bytes, `c` another length, `s` a sync; then what each was answered by, `+` or `-`, or `.` where the disk may not be used any more; how
/// many looks there were, and how many bytes the disk has.
const CALLS: &str = "
9 r -> + 0 2
9 w -> + 1 3
9 w w -> ++ 1 4
9 w s -> ++ 2 3
9 w s w -> +++ 2 4
9 w s w r w -> +++++ 3 5
9 w s w l w s -> ++++++ 4 5
9 c s -> ++ 2 9
9 c c w s -> ++++ 3 10
9 s s -> ++ 2 2
0 r l -> ++ 0 2
0 w -> - 1 2
0 w w r w -> --+- 3 2
0 c -> - 1 2
0 s -> - 1 2
1 w s -> +- 2 3
1 w s w r s l c -> +-..... 2 3
1 w r w -> ++- 2 3
1 w r c s -> ++-- 3 3
2 w s w r w -> ++++- 3 4
2 w s w s -> +++- 3 4
9 W W w W s -> +++++ 4 196611
1 w w W W -> ++-- 3 4
1 W W W r w -> +--+- 4 65538
1 W w w -> +++ 1 65540
2 w c c -> ++- 3 9
2 W s c W -> ++-- 4 65538
";

// A claim that so many looks find.
#[derive(Drop)]
struct Until {
    most: u64,
    looks: u64,
}

impl<D> Claims<D> for Until {
    ghost found_own = { λ claim disk. ⊤ };

    fn is_own(&mut self, _disk: &D) -> bool {
        self.looks = self.looks.saturating_add(1);
        self.looks <= self.most
    }
}

// What a call is answered by.
fn answer(disk: &mut Claimed<Memory, Until>, word: &str) -> &'static str {
    if !disk.may_be_used() {
        return ".";
    }
    let is_done = match word {
        "r" => disk.read_at(0, &mut [0u8; 2]).is_ok(),
        "l" => disk.len().is_ok(),
        "w" => {
            let end = disk.disk.bytes().len();
            disk.write_at(end, b"x").is_ok()
        }
        "W" => {
            let end = disk.disk.bytes().len();
            disk.write_at(end, &[0; 65_536]).is_ok()
        }
        "c" => disk.set_len(9).is_ok(),
        _ => disk.sync().is_ok(),
    };
    if is_done { "+" } else { "-" }
}

// Asks a row of calls.
fn outcome(alloc: Global, row: &str) -> Result<String, Fail> {
    let mut memory = Memory::new(alloc);
    memory.write_at(0, b"ab")?;
    let Some((most, calls)) = row.split_once(' ') else {
        return Err(Fail::new("a row without calls"));
    };
    let claim = Until {
        most: most.parse::<u64>()?,
        looks: 0,
    };
    let mut disk = Claimed::new(memory, claim);
    let mut answers = String::new(alloc);
    for word in calls.split(' ') {
        answers.push_str(answer(&mut disk, word))?;
    }
    let (looks, size) = (disk.look.claim.looks, disk.disk.bytes().len());
    Ok(format!(in alloc; "{answers} {looks} {size}")?)
}

#[test]
fn a_disk_looks_for_its_claim(rt: HostRuntime) -> Result<(), Fail> {
    let alloc = rt.alloc();
    for row in CALLS.trim().lines() {
        let Some((calls, expected)) = row.split_once(" -> ") else {
            return Err(Fail::new("a row without an arrow"));
        };
        let found = outcome(alloc, calls)?;
        assert_eq!(rt; found.as_str(), expected, "{row}");
    }
    Ok(())
}
