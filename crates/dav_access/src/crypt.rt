//! The digest of a password by SHA-256-crypt. The numbers are those of the steps of its
//! specification (`specs/Crypt.antt`).
ghost use Rattle.std.specs.Prelude.{◌≡◌, ℕ, ◌<◌, ◌≤◌, ◌++◌, ◌^◌, List, [], if◌then◌else◌, length};
ghost use Rattle.std.specs.List.{repeat};
ghost use Rattle.sha2.specs.Hashers.{Holds256};
ghost use Rattle.sha2.specs.Sha256.{sha256};
ghost use Rattle.dav_access.specs.Crypt.{after_rounds, by_bits, crypt_of, digest_a, digest_b, round_message, spread};

use sha2::{Digest, Sha256};

// Adds bytes where a test holds, and else others.
fn update_either(hasher: &mut Sha256, test: bool, bytes: &[u8], others: &[u8])
    ensures { (m : List ℕ) → Holds256 hasher.old m
        → Holds256 hasher.new (m ++ (if test then bytes.now else others.now)) }
{
    if test {
        hasher.update(bytes);
    } else {
        hasher.update(others);
    }
}

// Adds a text so many times.
fn update_repeated(hasher: &mut Sha256, count: usize, bytes: &[u8])
    ensures { (m : List ℕ) → Holds256 hasher.old m
        → Holds256 hasher.new (m ++ repeat count bytes.now) }
{
    for i in 0..count {
        hasher.update(bytes);
    }
}

// Adds so many bytes of a digest, over and over.
fn update_spread(hasher: &mut Sha256, count: usize, digest: &[u8; 32])
    ensures { (m : List ℕ) → Holds256 hasher.old m
        → Holds256 hasher.new (m ++ spread count digest.now) }
{
    update_repeated(hasher, count / 32, digest.as_slice());
    hasher.update(&digest[..count % 32]);
}

// Adds bytes where a test holds, and else so many bytes of a digest.
fn update_or_spread(hasher: &mut Sha256, test: bool, bytes: &[u8], count: usize, digest: &[u8; 32])
    ensures { (m : List ℕ) → Holds256 hasher.old m
        → Holds256 hasher.new (m ++ (if test then bytes.now else spread count digest.now)) }
{
    if test {
        hasher.update(bytes);
    } else {
        update_spread(hasher, count, digest);
    }
}

// Adds what the bits of the password's length ask for (11).
fn update_by_bits(hasher: &mut Sha256, password: &[u8], digest: &[u8])
    ensures { (m : List ℕ) → Holds256 hasher.old m
        → Holds256 hasher.new (m ++ by_bits password.now digest.now) }
{
    let mut bits = password.len();
    for i in 0..64 - password.len().leading_zeros() {
        update_either(hasher, bits % 2 == 1, digest, password);
        bits /= 2;
    }
}

// Digest B (4 to 8).
fn digest_b(password: &[u8], salt: &[u8]) -> [u8; 32]
    ensures { result ≡ digest_b password.now salt.now }
{
    let mut hasher = Sha256::new();
    hasher.update(password);
    hasher.update(salt);
    hasher.update(password);
    hasher.finalize()
}

// Digest A (1 to 12).
fn digest_a(password: &[u8], salt: &[u8]) -> [u8; 32]
    ensures { result ≡ digest_a password.now salt.now }
{
    let other = digest_b(password, salt);
    let mut hasher = Sha256::new();
    hasher.update(password);
    hasher.update(salt);
    update_spread(&mut hasher, password.len(), &other);
    update_by_bits(&mut hasher, password, other.as_slice());
    hasher.finalize()
}

// The digest of a text, so many times (13 to 15, 17 to 19).
fn digest_of_repeated(count: usize, bytes: &[u8]) -> [u8; 32]
    ensures { result ≡ sha256 (repeat count bytes.now) }
{
    let mut hasher = Sha256::new();
    update_repeated(&mut hasher, count, bytes);
    hasher.finalize()
}

// The first bytes of a digest.
fn front(digest: &[u8; 32], count: usize) -> &[u8]
    requires { count < 32 }
    ensures { result.now ≡ spread count digest.now }
{
    &digest[..count]
}

// One round (21).
fn next_digest(k: u32, last: &[u8; 32], count: usize, password: &[u8; 32], salt: &[u8]) -> [u8; 32]
    ensures { result ≡ sha256 (round_message k last.now (spread count password.now) salt.now) }
{
    let mut hasher = Sha256::new();
    update_or_spread(&mut hasher, k % 2 == 0, last.as_slice(), count, password);
    update_either(&mut hasher, k % 3 == 0, &[], salt);
    update_or_spread(&mut hasher, k % 7 == 0, &[], count, password);
    update_or_spread(&mut hasher, k % 2 == 1, last.as_slice(), count, password);
    hasher.finalize()
}

/// The digest of a password under a salt of at most 16 bytes, after so many rounds.
pub fn crypt_of(password: &[u8], salt: &[u8], rounds: u32) -> [u8; 32]
    requires { length salt.now ≤ 16 }
    ensures { result ≡ crypt_of password.now salt.now rounds }
{
    let first = digest_a(password, salt);
    let of_password = digest_of_repeated(password.len(), password);
    let of_salt = digest_of_repeated(16 + first[0] as usize, salt);
    let salt = front(&of_salt, salt.len());
    let mut last = first;
    for k in 0..rounds {
        last = next_digest(k, &last, password.len(), &of_password, salt);
    }
    last
}
