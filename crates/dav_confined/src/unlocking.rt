//! Which locks an UNLOCK names, and whether its principal may end them (RFC 4918, section 9.11).
ghost use Rattle.std.specs.Prelude.{◌≡◌, IfOk, codes, string_bytes};
ghost use Rattle.std.specs.Bool.{Decides};
ghost use Rattle.std.specs.List.{AllByRecursion};
ghost use Rattle.std.specs.Option.{option_copied, option_map};
ghost use Rattle.dav_engine.specs.Headers.{Decodes};
ghost use Rattle.dav_engine.specs.LockToken.{SaysLockToken};
ghost use Rattle.dav_server.specs.Machine.{Exchange, Settings};
ghost use Rattle.dav_confined.specs.Leave.{MayUnlock};
ghost use Rattle.dav_confined.specs.Unlocking.{MayEndNamed};

use crate::leave::may_end;
use crate::reading::target_in;
use dav_access::Rules;
use dav_core::davpath::DavPath;
use dav_core::errors::NoMemory;
use dav_core::ls::DavLock;
use dav_core::method::DavMethod;
use dav_engine::lock_token::{lock_token, token_in};
use dav_server::head::{headers_of, read_head};
use dav_store::memls::MemLs;
use http_header::HeaderMap;
use std::alloc::Global;
use std::marker::Model;

// What an UNLOCK names locks by: a path, and a token.
#[derive(Drop)]
struct Unlock {
    path: DavPath,
    token: String,
}

impl Model for Unlock {
    ghost use Rattle.std.specs.Prelude.{string_bytes};
    ghost use Rattle.dav_confined.specs.Unlocking.{UnlockView};

    ghost Value = { UnlockView };

    ghost view = { λ u. record { path = u.path; token = string_bytes u.token } };
}

// The token that Lock-Token says, if it says one (RFC 4918, section 10.5).
fn token_of(alloc: Global, headers: &HeaderMap) -> Result<Option<String>, NoMemory>
    ensures { IfOk result (λ token.
        Decodes SaysLockToken headers.now (option_map string_bytes token)) }
{
    let said = lock_token(alloc, headers)?;
    match token_in(said.as_ref()) {
        Some(token) => Ok(Some(String::from_str(alloc, token)?)),
        None => Ok(None),
    }
}

// Whether a method is UNLOCK.
fn is_unlock(method: &[u8]) -> bool
    ensures { Decides result (method.now ≡ codes "UNLOCK") }
{
    method == b"UNLOCK".as_slice()
}

impl Unlock {
    ghost use Rattle.std.specs.Prelude.{◌≡◌, ◌↔◌, IfOk, MatchOption};
    ghost use Rattle.std.specs.Bool.{Decides};
    ghost use Rattle.dav_core.specs.Locks.{Lock};
    ghost use Rattle.dav_server.specs.Machine.{Exchange, Settings};
    ghost use Rattle.dav_confined.specs.ConfinedSteps.{UnlocksLock};
    ghost use Rattle.dav_confined.specs.Unlocking.{Names};

    // The UNLOCK that the bytes of a head are below a prefix; none where they are none that names a lock.
    fn read(alloc: Global, head: &[u8], prefix: &str) -> Result<Option<Unlock>, NoMemory>
        ensures { (s : Settings) (x : Exchange) → s.prefix ≡ prefix.now → x.head ≡ head.now
            → IfOk result (λ unlock. MatchOption unlock ((l : Lock) → ¬ UnlocksLock s x l)
            (λ u. (l : Lock) → Names u l ↔ UnlocksLock s x l)) }
    {
        let Ok(view) = read_head(head) else {
            return Ok(None);
        };
        if !is_unlock(view.method()) {
            return Ok(None);
        }
        let Some(path) = target_in(alloc, DavMethod::Unlock, view.target(), prefix)? else {
            return Ok(None);
        };
        let headers = headers_of(alloc, &view)?;
        match token_of(alloc, &headers)? {
            Some(token) => Ok(Some(Unlock { path, token })),
            None => Ok(None),
        }
    }

    // Whether it names a lock.
    fn names(&self, lock: &DavLock) -> bool
        ensures { Decides result (Names self.now lock.now) }
    {
        lock.token.as_str() == self.token.as_str() && self.path.is_at_or_under(&lock.path)
    }
}

// Whether a principal may end a lock, where an UNLOCK names it.
fn may_end_named(rules: &Rules, who: Option<&str>, unlock: &Unlock, lock: &DavLock) -> bool
    ensures { Decides result
        (MayEndNamed rules.now (option_copied who.entry) unlock.now lock.now) }
{
    !unlock.names(lock) || may_end(rules, who, lock)
}

// Whether a principal may end each lock of a list that an UNLOCK names.
fn may_end_each(rules: &Rules, who: Option<&str>, unlock: &Unlock, locks: &MemLs) -> bool
    ensures { Decides result (AllByRecursion
        (MayEndNamed rules.now (option_copied who.entry) unlock.now) locks.now) }
{
    for place in 0..locks.len() {
        let Some(lock) = locks.get(place) else {
            unreachable!();
        };
        if !may_end_named(rules, who, unlock, lock) {
            return false;
        }
    }
    true
}

/// Whether a request with these bytes as its head, of this principal, none where no name was shown, is no UNLOCK of a lock of the
/// list that the principal may not end, below a prefix. `NoMemory` where memory runs out.
pub fn may_unlock(
    alloc: Global,
    rules: &Rules,
    who: Option<&str>,
    head: &[u8],
    prefix: &str,
    locks: &MemLs,
) -> Result<bool, NoMemory>
    ensures { (s : Settings) (x : Exchange) → s.prefix ≡ prefix.now → x.head ≡ head.now
        → x.principal ≡ option_copied who.entry
        → IfOk result (λ may. Decides may (MayUnlock rules.now s x locks.now)) }
{
    match Unlock::read(alloc, head, prefix)? {
        Some(unlock) => Ok(may_end_each(rules, who, &unlock, locks)),
        None => Ok(true),
    }
}
