//! The bytes of the elder format, `vuldarg1`: of the front of its file, and of the heads of its blocks.
ghost use Rattle.std.specs.Prelude.{◌≡◌, ◌++◌, ◌<◌, ◌^◌, ◌⊎◌, ℕ, List, Some, length, slice_index, codes, IfSome, IsTrue, ◌↔◌};
ghost use Rattle.std.specs.Int.{from_be_bytes, to_be_bytes, w64};
ghost use Rattle.dav_journal.specs.Elder.{elder_head};
ghost use Rattle.dav_journal.specs.Mark.{IsFaint};

use crate::block::{digest_of_head, number};
use sqlite_disk::digest_of;

/// The bytes in front of the first block: the version, and the key of the digests.
pub const ELDER_FRONT: usize = 16;

/// The bytes of a block's head: the length of its content, the digest of its content, the digest of
/// the length, of that digest and of the place.
pub const ELDER_HEAD: usize = 24;

/// What a file of this format begins with.
pub const ELDER_VERSION: [u8; 8] = *b"vuldarg1";

// Three numbers, one after another.
fn three_bytes(first: u64, second: u64, third: u64) -> [u8; 24]
    ensures { result
        ≡ to_be_bytes w64 first ++ (to_be_bytes w64 second ++ to_be_bytes w64 third) }
{
    let (first, second, third) = (
        first.to_be_bytes(),
        second.to_be_bytes(),
        third.to_be_bytes(),
    );
    let mut bytes = [0u8; 24];
    bytes[..8].copy_from_slice(&first);
    bytes[8..16].copy_from_slice(&second);
    bytes[16..].copy_from_slice(&third);
    bytes
}

// The head of a block with this content at this place.
pub fn elder_head_bytes(key: u64, place: u64, content: &[u8]) -> [u8; ELDER_HEAD]
    ensures { result ≡ elder_head key place content.now }
{
    let len = content.len() as u64;
    let told = digest_of(key, content);
    three_bytes(len, told, digest_of_head(key, place, len, told))
}

// The number that has these bytes.
pub fn number_in(bytes: &[u8; 8]) -> Option<u64>
    ensures { IfSome result (λ n. bytes.now ≡ to_be_bytes w64 n) }
{
    let n = number(bytes);
    if *bytes == n.to_be_bytes() {
        Some(n)
    } else {
        None
    }
}

// The length that a head tells.
pub fn elder_len_in(head: &[u8; ELDER_HEAD]) -> u64
    ensures { (key place : ℕ) (content : List ℕ) → length content < 2 ^ 64
        → head.now ≡ elder_head key place content → result ≡ length content }
{
    number(&head[..8])
}

// Whether each of some bytes is 0 or as in those that were there.
pub fn is_faint(found: &[u8], were: &[u8]) -> bool
    ensures { IsTrue result ↔ IsFaint found.now 0 were.now }
{
    let mut place = 0usize;
    while place < were.len() {
        let byte = found.get(place).copied().unwrap_or(0);
        if byte != 0 && byte != were[place] {
            return false;
        }
        place += 1;
    }
    true
}

// Whether bytes begin with the head of a block at this place, of whatever content.
pub fn is_any_head(key: u64, place: u64, bytes: &[u8]) -> bool {
    let (Some(len), Some(told), Some(own)) = (bytes.get(..8), bytes.get(8..16), bytes.get(16..24))
    else {
        return false;
    };
    let (len, told, own) = (number(len), number(told), number(own));
    len != 0 && digest_of_head(key, place, len, told) == own
}
