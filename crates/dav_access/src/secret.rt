//! The secret of a password.
ghost use Rattle.std.specs.Prelude.{◌↔◌, IsTrue, MatchOption};
ghost use Rattle.dav_access.specs.Crypt.{Fits};
ghost use Rattle.dav_access.specs.Secrets.{HasRounds, IsSecret, IsSecretOf};

use crate::crypt::crypt_of;
use crate::encoding::is_encoding_of;
use crate::text::{after_front, split_at_first};

/// The most bytes of a password.
pub const MOST_PASSWORD: usize = 72;

/// The most bytes of a salt.
const MOST_SALT: usize = 16;

/// The bytes of a digest as it is written.
const DIGEST: usize = 43;

/// The rounds where none are asked for, and the bounds of those that are.
const ROUNDS: u32 = 5000;

const LEAST_ROUNDS: u32 = 1000;

const MOST_ROUNDS: u32 = 1_000_000;

// The parts of a secret.
#[derive(Clone, Copy)]
struct Parts<'s> {
    rounds: u32,
    salt: &'s str,
    digest: &'s str,
}

// The rounds of a text, and what follows them.
fn rounds_in(text: &str) -> (u32, &str)
    ensures { HasRounds text.now result.0 result.1.now }
{
    if let Some(asked) = after_front(text, "rounds=")
        && let Some((number, rest)) = split_at_first(asked, '$')
        && let Ok(rounds) = number.parse::<u32>()
    {
        return (rounds.max(LEAST_ROUNDS).min(MOST_ROUNDS), rest);
    }
    (ROUNDS, text)
}

// The parts of a secret; `None` where a text is none.
fn parts_of(secret: &str) -> Option<Parts<'_>>
    ensures { MatchOption result (¬ IsSecret secret.now)
        (λ p. IsSecretOf secret.now p.rounds p.salt.now p.digest.now) }
{
    let (rounds, rest) = rounds_in(after_front(secret, "$5$")?);
    let (salt, digest) = split_at_first(rest, '$')?;
    if salt.len() > MOST_SALT || digest.len() != DIGEST {
        return None;
    }
    Some(Parts {
        rounds,
        salt,
        digest,
    })
}

/// Whether a text has the form of a secret.
pub fn is_secret(secret: &str) -> bool
    ensures { IsTrue result ↔ IsSecret secret.now }
{
    parts_of(secret).is_some()
}

/// Whether a password has this secret, as `openssl passwd -5` makes it. A password of more than 72
/// bytes isn't looked at.
pub fn matches_secret(password: &[u8], secret: &str) -> bool
    ensures { IsTrue result ↔ Fits password.now secret.now }
{
    if password.len() > MOST_PASSWORD {
        return false;
    }
    match parts_of(secret) {
        Some(parts) => {
            let digest = crypt_of(password, parts.salt.as_bytes(), parts.rounds);
            is_encoding_of(&digest, parts.digest.as_bytes())
        }
        None => false,
    }
}
