//! The name of a user.
use dav_xml::is_legal;
use std::alloc::{AllocError, Global};
use std::marker::Model;

/// The name of a user. It may stand in a reply.
#[derive(Drop)]
pub struct Name {
    text: String,
}

impl Model for Name {
    ghost use Rattle.std.specs.Prelude.{ℕ, List, string_bytes};
    ghost use Rattle.dav_access.specs.Users.{IsName};

    ghost Value = { List ℕ };

    ghost view = { λ n. string_bytes n.text };

    ghost invariant = { λ n. IsName (string_bytes n.text) };
}

impl Name {
    ghost use Rattle.std.specs.Prelude.{◌≡◌, IfOk, MatchOption};
    ghost use Rattle.dav_access.specs.Users.{IsName};

    /// The name of a text; `None` where a name can't be so.
    pub fn new(alloc: Global, text: &str) -> Result<Option<Name>, AllocError>
        ensures name { IfOk result (λ name. MatchOption name (¬ IsName text.now)
            (λ n. IsName text.now × (n ≡ text.now))) }
    {
        if text.is_empty() || !is_legal(text) {
            return Ok(None);
        }
        Ok(Some(Name {
            text: String::from_str(alloc, text)?,
        }))
    }

    /// The name's text.
    pub fn as_str(&self) -> &str
        ensures text { result.now ≡ self.now }
        ensures named { IsName self.now }
    {
        self.text.as_str()
    }
}

impl Clone for Name {
    ghost use Rattle.std.specs.Prelude.{◌≡◌};

    ghost is_clone = { λ a b. a ≡ b };

    fn clone(&self) -> Result<Name, AllocError> {
        Ok(Name {
            text: self.text.clone()?,
        })
    }
}
