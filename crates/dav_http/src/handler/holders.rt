//! Whose the locks are that an UNLOCK may end.
ghost use Rattle.std.specs.Bool.{Decides};
ghost use Rattle.std.specs.List.{AllByRecursion};
ghost use Rattle.std.specs.Str.Iter.{HasSubslice};
ghost use Rattle.std.specs.Prelude.{◌≡◌, ◌↔◌, Some, IsTrue};
ghost use Rattle.dav_http.specs.Holders.{IsOwnOrUnnamed};

use super::Handler;
use dav_core::ls::DavLock;
use dav_store::memls::MemLs;

// Whether a token stands in a text.
#[tactic(auto, using(std::proofs::lemmas::Str::Pattern::contains_text))]
fn names(text: &str, token: &str) -> bool
    ensures { IsTrue result ↔ HasSubslice text.now token.now }
{
    text.contains(token)
}

// Whether a lock is of this user.
fn is_of(lock: &DavLock, user: &str) -> bool
    ensures { IsTrue result ↔ (lock.now.principal ≡ Some user.now) }
{
    match &lock.principal {
        Some(principal) => principal.as_str() == user,
        None => false,
    }
}

// Whether a lock is this user's, or its token doesn't stand in a text.
fn is_own_or_unnamed(lock: &DavLock, user: &str, text: &str) -> bool
    ensures { Decides result (IsOwnOrUnnamed user.now text.now lock.now) }
{
    is_of(lock, user) || !names(text, lock.token.as_str())
}

// Whether each lock is this user's, or its token doesn't stand in a text.
fn are_own_or_unnamed(ls: &MemLs, user: &str, text: &str) -> bool
    ensures { Decides result (AllByRecursion (IsOwnOrUnnamed user.now text.now) ls.now) }
{
    for i in 0..ls.len() {
        let Some(lock) = ls.get(i) else {
            unreachable!();
        };
        if !is_own_or_unnamed(lock, user, text) {
            return false;
        }
    }
    true
}

impl Handler {
    ghost use Rattle.std.specs.Prelude.{◌≡◌};
    ghost use Rattle.std.specs.Bool.{Decides};
    ghost use Rattle.std.specs.Option.{option_copied};
    ghost use Rattle.dav_http.specs.Holders.{NamesOwn};

    /// The locks, if there is a list of them. Nothing changes.
    pub fn locks(&self) -> Option<&MemLs>
        ensures { option_copied result ≡ self.now.server.state.locks }
    {
        self.handler.locks()
    }

    /// Whether a text has no token of a lock but this user's own: so an UNLOCK with it ends no other's (RFC 4918, sections 6.4
    /// and 9.11).
    pub fn names_own(&self, user: &str, text: &str) -> bool
        ensures { Decides result (NamesOwn self.now.server.state.locks user.now text.now) }
    {
        match self.handler.locks() {
            Some(ls) => are_own_or_unnamed(ls, user, text),
            None => true,
        }
    }
}
