//! The check of a password.
use crate::secret::{MOST_PASSWORD, matches_secret};
use sha2::{Digest, Sha256};
use std::alloc::{AllocError, Global};
use std::marker::Model;

/// The secret of a password, and the digest of the password that fitted last.
#[derive(Drop)]
pub struct Check {
    secret: String,
    last_fitting: Option<[u8; 32]>,
}

impl Model for Check {
    ghost use Rattle.std.specs.Prelude.{ℕ, List, string_bytes};
    ghost use Rattle.dav_access.specs.Users.{IsLastFitting};

    ghost Value = { List ℕ };

    ghost view = { λ c. string_bytes c.secret };

    ghost invariant = { λ c. IsLastFitting (string_bytes c.secret) c.last_fitting };
}

impl Check {
    ghost use Rattle.std.specs.Prelude.{◌≡◌, ◌≤◌, IfOk, IsTrue, length};
    ghost use Rattle.sha2.specs.Sha256.{sha256};
    ghost use Rattle.dav_access.specs.Crypt.{Fits};
    ghost use Rattle.dav_access.specs.Users.{HasFitting};

    /// The check of a secret. No password fitted it.
    pub fn new(alloc: Global, secret: &str) -> Result<Check, AllocError>
        ensures { IfOk result (λ c. c ≡ secret.now) }
    {
        Ok(Check {
            secret: String::from_str(alloc, secret)?,
            last_fitting: None,
        })
    }

    /// The secret.
    pub fn secret(&self) -> &str
        ensures { result.now ≡ self.now }
    {
        self.secret.as_str()
    }

    /// Whether a password has this secret. One that fitted last is known by its digest alone; a
    /// password of more than 72 bytes isn't looked at.
    pub fn admits(&mut self, password: &[u8]) -> bool
        ensures same { self.new ≡ self.old }
        ensures short { IsTrue result → length password.now ≤ 72 }
        ensures sound { IsTrue result → HasFitting self.old (sha256 password.now) }
        ensures complete { Fits password.now self.old → IsTrue result }
    {
        if password.len() > MOST_PASSWORD {
            return false;
        }
        let digest = Sha256::digest(password);
        if let Some(last) = &self.last_fitting
            && last.as_slice() == digest.as_slice()
        {
            return true;
        }
        if !matches_secret(password, self.secret.as_str()) {
            return false;
        }
        self.last_fitting = Some(digest);
        true
    }
}
