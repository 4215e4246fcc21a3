//! The bytes of blocks, and of the front of the file.
ghost use Rattle.std.specs.Prelude.{◌≡◌, ◌≢◌, ◌≤◌, ◌<◌, ◌^◌, ◌++◌, ◌∷◌, [], ℕ, List, Some, length, codes, replicate, IfSome, IfNone, IfOk, OnOk, IsTrue, slice_index, ◌+◌, ◌↔◌};
ghost use Rattle.std.specs.Int.{w64, from_be_bytes, to_be_bytes};
ghost use Rattle.dav_journal.specs.Block.{block_bytes, digest_at, front_of, head_of, twice, zeros_in};
ghost use Rattle.dav_journal.specs.File.{AreZeros, IsBegun};
ghost use Rattle.dav_journal.specs.Mark.{IsFaint};
ghost use Rattle.dav_journal.specs.Parts.{gate_after};
ghost use Rattle.sqlite_disk.specs.Digest.{digest};

use sqlite_disk::digest_of;
use std::alloc::{AllocError, Global};
use std::hash::{DefaultHasher, Hasher};

/// The bytes of a block's gate and head: the gate, the length of its content and how many of its bytes are 0, each with its
/// complement, the digest of its content, the digest of the length, of that digest and of the place.
pub const HEAD: usize = 49;

/// The first bytes of a file: its version, and the key of its digests with its complement.
pub const FRONT: usize = 24;

/// Where the first block begins, after the front and three marks of 16 bytes.
pub const START: usize = 72;

/// What a file of this version begins with.
const VERSION: [u8; 8] = *b"vuldarg2";

/// The gate of a block that counts.
pub const OPEN: u8 = 1;

// Eight bytes as a number.
pub fn number(bytes: &[u8]) -> u64
    ensures { length bytes.now ≡ 8 → result ≡ from_be_bytes w64 bytes.now }
{
    match bytes {
        [a, b, c, d, e, f, g, h] => u64::from_be_bytes([*a, *b, *c, *d, *e, *f, *g, *h]),
        _ => 0,
    }
}

// 1 for a byte that is 0.
fn one_if_zero(byte: u8) -> u64
    ensures value { result ≡ zeros_in (byte ∷ []) }
    ensures few { result ≤ 1 }
{
    (byte == 0) as u64
}

// How many of eight bytes are 0.
fn zeros_of_eight(bytes: [u8; 8]) -> u64
    ensures value { result ≡ zeros_in bytes }
    ensures few { result ≤ 8 }
{
    let [a, b, c, d, e, f, g, h] = bytes;
    let first = one_if_zero(a) + one_if_zero(b) + one_if_zero(c) + one_if_zero(d);
    first + one_if_zero(e) + one_if_zero(f) + one_if_zero(g) + one_if_zero(h)
}

// How many of the bytes are 0.
fn zeros_of(bytes: &[u8]) -> u64
    ensures value { result ≡ zeros_in bytes.now }
    ensures few { result ≤ length bytes.now }
{
    let mut count = 0u64;
    let mut rest = bytes;
    while let Some((eight, after)) = rest.split_first_chunk::<8>() {
        count += zeros_of_eight(*eight);
        rest = after;
    }
    while let [first, after @ ..] = rest {
        count += one_if_zero(*first);
        rest = after;
    }
    count
}

// The digest that a head at this place has at its end.
pub fn digest_of_head(key: u64, place: u64, len: u64, told: u64) -> u64
    ensures { result ≡ digest_at key place len told }
{
    let (at, len, told) = (place.to_be_bytes(), len.to_be_bytes(), told.to_be_bytes());
    let mut bytes = [0u8; 24];
    bytes[..8].copy_from_slice(&at);
    bytes[8..16].copy_from_slice(&len);
    bytes[16..].copy_from_slice(&told);
    digest_of(key, &bytes)
}

// Adds a number and its complement.
fn add_twice(out: &mut Vec<u8>, n: u64) -> Result<(), AllocError>
    ensures { OnOk result (out.new.items ≡ out.old.items ++ twice n) }
{
    out.extend_from_slice(&n.to_be_bytes())?;
    out.extend_from_slice(&(u64::MAX - n).to_be_bytes())?;
    Ok(())
}

// Adds two digests.
fn add_digests(out: &mut Vec<u8>, told: u64, own: u64) -> Result<(), AllocError>
    ensures { OnOk result (out.new.items
        ≡ out.old.items ++ (to_be_bytes w64 told ++ to_be_bytes w64 own)) }
{
    out.extend_from_slice(&told.to_be_bytes())?;
    out.extend_from_slice(&own.to_be_bytes())
}

// The digest of a content that is in two parts.
fn digest_of_both(key: u64, content: &[u8], body: &[u8]) -> u64
    ensures { result ≡ digest key (content.now ++ body.now) }
{
    let mut hasher = DefaultHasher::new();
    hasher.write(&key.to_le_bytes());
    hasher.write(content);
    hasher.write(body);
    1u64.max(hasher.finish())
}

// Adds the head of a block at this place, whose content is in two parts and has so many bytes.
pub fn add_head(
    out: &mut Vec<u8>,
    key: u64,
    place: u64,
    len: u64,
    content: &[u8],
    body: &[u8],
) -> Result<(), AllocError>
    requires { len ≡ length content.now + length body.now }
    ensures { OnOk result (out.new.items
        ≡ out.old.items ++ head_of key place (content.now ++ body.now)) }
{
    let told = digest_of_both(key, content, body);
    add_twice(out, len)?;
    add_twice(out, zeros_of(content) + zeros_of(body))?;
    add_digests(out, told, digest_of_head(key, place, len, told))
}

// The first bytes of a block at this place, whose content is in two parts: all that is before the second one. Where that is
// empty they are all of the block, and the gate after it, which is shut.
pub fn first_part(
    alloc: Global,
    key: u64,
    place: u64,
    content: &[u8],
    body: &[u8],
) -> Result<Vec<u8>, AllocError>
    ensures whole { IfOk result (λ v. v.items ++ (body.now ++ gate_after body.now)
        ≡ block_bytes key place (content.now ++ body.now) ++ 0 ∷ []) }
    ensures gated { IfOk result (λ v. (1 < length v.items) × (slice_index v.items 0 ≡ 1)) }
{
    let Some(len) = content.len().checked_add(body.len()) else {
        return Err(AllocError);
    };
    let mut bytes = Vec::new(alloc);
    bytes.push(OPEN)?;
    add_head(&mut bytes, key, place, len as u64, content, body)?;
    bytes.extend_from_slice(content)?;
    if body.is_empty() {
        bytes.push(0)?;
    }
    Ok(bytes)
}

// What is written behind the second part of a block's content.
pub fn last_part(body: &[u8]) -> &'static [u8]
    ensures { result.now ≡ gate_after body.now }
{
    match body {
        [] => &[],
        _ => &[0],
    }
}

// Whether these are the gate and the head of a block with this content at this place.
pub fn is_head(
    alloc: Global,
    key: u64,
    place: u64,
    head: &[u8],
    content: &[u8],
) -> Result<bool, AllocError>
    ensures { IfOk result (λ b. IsTrue b ↔ (head.now ≡ 1 ∷ head_of key place content.now)) }
{
    let mut wanted = Vec::new(alloc);
    wanted.push(OPEN)?;
    add_head(&mut wanted, key, place, content.len() as u64, content, &[])?;
    Ok(wanted.as_slice() == head)
}

// The length that a gate and a head tell.
pub fn len_in(head: &[u8]) -> Option<u64>
    ensures { (key place : ℕ) (content : List ℕ) → length content < 2 ^ 64
        → head.now ≡ 1 ∷ head_of key place content → result ≡ Some (length content) }
{
    Some(number(head.get(1..9)?))
}

// A number and its complement.
pub fn twice_bytes(n: u64) -> [u8; 16]
    ensures { result ≡ twice n }
{
    let mut bytes = [0u8; 16];
    bytes[..8].copy_from_slice(&n.to_be_bytes());
    bytes[8..].copy_from_slice(&(u64::MAX - n).to_be_bytes());
    bytes
}

// The front of a file with this key.
fn front_bytes(key: u64) -> [u8; FRONT]
    ensures { result ≡ front_of key }
{
    let mut bytes = [0u8; FRONT];
    bytes[..8].copy_from_slice(&VERSION);
    bytes[8..].copy_from_slice(&twice_bytes(key));
    bytes
}

// The key of a file that begins with these bytes.
pub fn key_in(front: &[u8; FRONT]) -> Option<u64>
    ensures some { IfSome result (λ key. front.now ≡ front_of key) }
    ensures none { IfNone result ((key : ℕ) → key < 2 ^ 64 → front.now ≢ front_of key) }
{
    let key = number(&front[8..16]);
    if *front == front_bytes(key) {
        Some(key)
    } else {
        None
    }
}

// A new file with this key: the front, no marks, and a shut gate.
pub fn new_bytes(key: u64) -> [u8; START + 1]
    ensures { result ≡ front_of key ++ replicate 49 0 }
{
    let mut bytes = [0u8; START + 1];
    bytes[..FRONT].copy_from_slice(&front_bytes(key));
    bytes
}

// Whether all of the bytes are 0.
fn are_zeros(bytes: &[u8]) -> bool
    ensures { IsTrue result ↔ AreZeros bytes.now }
{
    zeros_of(bytes) == bytes.len() as u64
}

// Whether a crash may have left the first bytes of these of a write of the version over nothing.
fn may_begin(bytes: &[u8]) -> bool
    ensures { IsTrue result ↔ IsFaint bytes.now 0 (codes "vuldarg2") }
{
    let mut place = 0usize;
    while place < VERSION.len() && place < bytes.len() {
        if bytes[place] != 0 && bytes[place] != VERSION[place] {
            return false;
        }
        place += 1;
    }
    true
}

// Whether a crash may have left these bytes of the first write of a file.
pub fn is_begun(bytes: &[u8]) -> bool
    ensures { IsTrue result ↔ IsBegun bytes.now }
{
    if bytes.len() > START + 1 {
        return false;
    }
    if !may_begin(bytes) {
        return false;
    }
    bytes.len() <= FRONT || are_zeros(&bytes[FRONT..])
}
