//! First blocks in which zeros stand behind the preface.

use crate::kept::records::bytes_in;
use crate::kept::{begin, live, outcome};
use dav_kept::Keeps;
use std::alloc::Global;
use std::test::Fail;

/// First blocks, as bytes, a count of zeros and bytes behind them, and what a server becomes that
/// begins with one, or why it doesn't. Zeros are there up to 8,192 bytes, and before a snapshot up to
/// 4,096.
const ZEROS: &str = "
0000000000002000 2f, 8191, . -> . 0 0 0
0000000000001000 2f, 4095, 0000000000000002 0000000000000007 6162 -> ab 2 7 0
0000000000001000 2f, 4095, 0000000000000000 0000000000000000 -> . 0 0 0
0000000000001000 2f, 4095, 00 -> Damaged
0000000000001000 2f, 4095, . -> OtherPreface
0000000000002000 2f, 8191, 0000000000000002 0000000000000007 6162 -> OtherPreface
0000000000001fff 2f, 8190, . -> OtherPreface
0000000000002001 2f, 8192, . -> OtherPreface
0000000000000002 2f, 1, . -> OtherPreface
0000000000002000 2f, 8190, 01 -> OtherPreface
0000000000002000 61, 8191, . -> OtherPreface
0000000000002000 2f, 8190, . -> Damaged
";

// The bytes of a row.
fn block_in(alloc: Global, text: &str) -> Result<Vec<u8>, Fail> {
    let mut parts = text.split(',');
    let mut block = bytes_in(alloc, parts.next().unwrap_or(""))?;
    let count = parts.next().unwrap_or("").trim().parse::<usize>()?;
    block.resize(block.len().saturating_add(count), 0)?;
    block.extend_from_slice(&bytes_in(alloc, parts.next().unwrap_or(""))?)?;
    Ok(block)
}

#[test]
fn zeros_stand_behind_a_preface(rt: HostRuntime) -> Result<(), Fail> {
    let alloc = rt.alloc();
    for row in ZEROS.trim().lines() {
        let Some((block, expected)) = row.split_once(" -> ") else {
            return Err(Fail::new("a row without an arrow"));
        };
        let found = outcome(alloc, begin(alloc, &block_in(alloc, block)?))?;
        assert_eq!(rt; found.as_str(), expected, "{row}");
    }
    Ok(())
}

/// What a server keeps first: the preface, zeros, and a snapshot, if it made one.
#[test]
fn first_blocks_have_zeros(rt: HostRuntime) -> Result<(), Fail> {
    let alloc = rt.alloc();
    let rows = [
        ("+a commit", "0000000000002000 2f, 8191, ."),
        (
            "*a commit +b snap",
            "0000000000001000 2f, 4095, 0000000000000001 0000000000000002 6162",
        ),
    ];
    for (life, expected) in rows {
        let (kept, _) = live(alloc, life)?;
        let mut journal = kept.end();
        journal.open(alloc)?;
        let found = Keeps::next(&mut journal, alloc)?.unwrap_or(Vec::new(alloc));
        let expected = block_in(alloc, expected)?;
        assert!(rt; found == expected, "{life}");
    }
    Ok(())
}
