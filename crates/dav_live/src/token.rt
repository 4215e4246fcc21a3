//! The tokens that locks are granted with (RFC 4918, section 6.5; RFC 9562, section 5.8).
ghost use Rattle.std.specs.Prelude.{◌≡◌, ◌++◌, IfOk, string_bytes};
ghost use Rattle.sha2.specs.Sha256.{sha256};
ghost use Rattle.dav_live.specs.Tokens.{token_text};

use sha2::{Digest, Sha256};
use std::alloc::{AllocError, Global};
use uuid::Uuid;

/// The token of a number: a UUID of version 8 with the 64 bits of the number, and with 58 that only who knows the random bytes can tell.
pub fn token_text(alloc: Global, random: &[u8; 16], number: u64) -> Result<String, AllocError>
    ensures { IfOk result (λ text. string_bytes text ≡ token_text random.now number) }
{
    let n = number.to_be_bytes();
    let r = token_digest(random, &n);
    let uuid = Uuid::new_v8([
        r[0], r[1], r[2], r[3], r[4], r[5], r[6], n[0], r[7], n[1], n[2], n[3], n[4], n[5], n[6],
        n[7],
    ]);
    let mut buffer = Uuid::encode_buffer();
    String::from_str(alloc, uuid.urn().encode_lower(&mut buffer))
}

// The digest of the random bytes and of those of a number.
fn token_digest(random: &[u8; 16], number: &[u8; 8]) -> [u8; 32]
    ensures { result ≡ sha256 (random.now ++ number.now) }
{
    let mut hasher = Sha256::new();
    hasher.update(random);
    hasher.update(number);
    hasher.finalize()
}
