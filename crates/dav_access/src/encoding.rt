//! How a digest is written in a secret.
ghost use Rattle.std.specs.Prelude.{◌%◌, ◌≡◌, ◌≢◌, ◌<◌, ◌↔◌, ◌++◌, ℕ, List, IsTrue, MatchOption, slice_index};
ghost use Rattle.dav_access.specs.Crypt.{alphabet, bits_at, encoding_of, four_digits};

/// The digits of a digest.
const DIGITS: [u8; 64] = *b"./0123456789ABCDEFGHIJKLMNOPQRSTUVWXYZabcdefghijklmnopqrstuvwxyz";

/// The bytes of a digest in the order in which they are written, three at a time; the last two
/// follow.
const GROUPS: [(usize, usize, usize); 10] = [
    (0, 10, 20),
    (21, 1, 11),
    (12, 22, 2),
    (3, 13, 23),
    (24, 4, 14),
    (15, 25, 5),
    (6, 16, 26),
    (27, 7, 17),
    (18, 28, 8),
    (9, 19, 29),
];

// The digit of the lowest six bits.
fn digit(bits: u32) -> u8
    ensures { result ≡ slice_index alphabet (bits % 64) }
{
    DIGITS[(bits % 64) as usize]
}

// The digits of 24 bits.
fn four_digits(bits: u32) -> [u8; 4]
    ensures { result ≡ four_digits bits }
{
    [
        digit(bits),
        digit(bits / 64),
        digit(bits / 4096),
        digit(bits / 262_144),
    ]
}

// A byte of a digest; 0 past its end.
fn byte_at(digest: &[u8; 32], place: usize) -> u32
    ensures value { result ≡ slice_index digest.now place }
    ensures byte { result < 256 }
{
    match digest.get(place) {
        Some(byte) => u32::from(*byte),
        None => 0,
    }
}

// The bits of three bytes of a digest.
fn bits_at(digest: &[u8; 32], group: (usize, usize, usize)) -> u32
    ensures { result ≡ bits_at digest.now group }
{
    let (high, middle, low) = group;
    byte_at(digest, high) * 65_536 + byte_at(digest, middle) * 256 + byte_at(digest, low)
}

// What follows these bytes, where a text begins with them.
fn after<'t>(text: &'t [u8], front: &[u8]) -> Option<&'t [u8]>
    ensures { MatchOption result ((rest : List ℕ) → text.now ≢ front.now ++ rest)
        (λ rest. text.now ≡ front.now ++ rest.now) }
{
    let (found, rest) = text.split_at_checked(front.len())?;
    if found == front { Some(rest) } else { None }
}

/// Whether a text is how a digest is written.
pub fn is_encoding_of(digest: &[u8; 32], text: &[u8]) -> bool
    ensures { IsTrue result ↔ (text.now ≡ encoding_of digest.now) }
{
    let mut rest = text;
    for group in GROUPS.iter() {
        match after(rest, four_digits(bits_at(digest, *group)).as_slice()) {
            Some(more) => rest = more,
            None => return false,
        }
    }
    let last = four_digits(byte_at(digest, 31) * 256 + byte_at(digest, 30));
    rest == &last[..3]
}
