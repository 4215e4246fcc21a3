//! Logins that were wrong or right, and who has to wait for the check of a password.
ghost use Rattle.std.specs.Prelude.{◌≡◌, ◌≢◌, ◌≤◌, ◌*◌, ◌&&◌, ◌||◌, ◌==◌, ◌++◌, ◌∷◌, [], ℕ, All, IfOk, MatchOption, OnOk, bytes_eq, count_by, if◌then◌else◌, length, nat_lt, not, take};
ghost use Rattle.std.specs.List.{filter, flat_map};
ghost use Rattle.dav_access.specs.Logins.{is_recent, login_digest};

use sha2::{Digest, Sha256};
use std::alloc::{AllocError, Global};
use std::marker::Model;

/// Past so many wrong logins of one name from one address within a minute, further ones wait.
const FEW: usize = 4;

/// Past so many from one address within a minute, whatever their names are, further ones wait.
const FEW_FROM_ONE: usize = 19;

/// So many wrong logins may be within a second, before one waits from where another was wrong.
const MOST_AT_ONCE: usize = 8;

/// So many, before one waits from where none was. In a minute these are fewer than are known.
const MOST_OF_ALL: usize = 16;

/// So many wrong logins are known, and so many right ones; within a minute there are no more wrong ones.
const MOST: usize = 1024;

const MINUTE: u64 = 60;

/// So many bytes the salt of digests has that are kept over a restart.
const SALT: usize = 16;

/// A digest has so many bytes.
const DIGEST: usize = 32;

/// A wrong login: the SHA-256 of the name and of the address that it came from, and when, in the
/// seconds of a clock that goes on steadily.
#[derive(Clone, Copy, Debug, PartialEq, Eq)]
pub struct WrongLogin {
    pub name: [u8; 32],
    pub address: [u8; 32],
    pub seconds: u64,
}

/// The logins that were wrong within the last minute, and those that were right when they were tried
/// last, at most 1,024 of each.
#[derive(Drop)]
pub struct Logins {
    salt: Vec<u8>,
    address: Vec<u8>,
    wrong: Vec<WrongLogin>,
    right: Vec<[u8; 32]>,
}

impl Model for Logins {
    ghost use Rattle.dav_access.specs.Logins.{LoginsView};

    ghost Value = { LoginsView };

    ghost view = { λ l. record {
      salt = l.salt.items;
      address = l.address.items;
      wrong = l.wrong.items;
      right = l.right.items;
    } };
}

// Whether a wrong login is of the last minute.
fn is_recent(login: &WrongLogin, now: u64) -> bool
    ensures { result ≡ is_recent now login.now }
{
    now.saturating_sub(login.seconds) < MINUTE
}

// Whether it is, and came from the address with this digest.
fn is_from(login: &WrongLogin, address: &[u8; 32], now: u64) -> bool
    ensures { result ≡ (is_recent now login.now && bytes_eq login.now.address address.now) }
{
    is_recent(login, now) && login.address.as_slice() == address.as_slice()
}

// Whether it is, came from that address, and is of the name with this digest.
fn is_of(login: &WrongLogin, address: &[u8; 32], name: &[u8; 32], now: u64) -> bool
    ensures { result ≡ ((is_recent now login.now && bytes_eq login.now.address address.now)
        && bytes_eq login.now.name name.now) }
{
    is_from(login, address, now) && login.name.as_slice() == name.as_slice()
}

// How many wrong logins there are of a second.
fn count_at(wrong: &[WrongLogin], now: u64) -> usize
    ensures { result ≡ count_by (λ w. w.seconds == now) wrong.now }
{
    wrong.iter().filter(|w| w.seconds == now).count()
}

// How many of the last minute came from the address with this digest.
fn count_from(wrong: &[WrongLogin], address: &[u8; 32], now: u64) -> usize
    ensures { result
        ≡ count_by (λ w. is_recent now w && bytes_eq w.address address.now) wrong.now }
{
    wrong.iter().filter(|w| is_from(w, address, now)).count()
}

// How many of these are of the name with this digest.
fn count_of(wrong: &[WrongLogin], address: &[u8; 32], name: &[u8; 32], now: u64) -> usize
    ensures { result ≡ count_by (λ w. (is_recent now w && bytes_eq w.address address.now)
        && bytes_eq w.name name.now) wrong.now }
{
    wrong
        .iter()
        .filter(|w| is_of(w, address, name, now))
        .count()
}

// Whether so many wrong logins of a name from an address, or from there, are many.
fn are_many(of_name: usize, from_address: usize) -> bool
    ensures { result ≡ (nat_lt 4 of_name || nat_lt 19 from_address) }
{
    of_name > FEW || from_address > FEW_FROM_ONE
}

// Whether so many wrong logins of a second are all that there may be, for who comes from where one was wrong or none.
fn is_full(at_once: usize, has_erred: bool) -> bool
    ensures { result ≡ nat_lt (if has_erred then 7 else 15) at_once }
{
    if has_erred {
        at_once >= MOST_AT_ONCE
    } else {
        at_once >= MOST_OF_ALL
    }
}

// Forgets the wrong logins before the last minute, and adds one.
fn remember(wrong: &mut Vec<WrongLogin>, login: WrongLogin, now: u64) -> Result<(), AllocError>
    ensures { OnOk result (wrong.new.items
        ≡ take 1024 (filter (is_recent now) wrong.old.items ++ login ∷ [])) }
{
    forget(wrong, now);
    wrong.push(login)?;
    wrong.truncate(MOST);
    Ok(())
}

// Forgets the wrong logins before the last minute.
fn forget(wrong: &mut Vec<WrongLogin>, now: u64)
    ensures { wrong.new.items ≡ filter (is_recent now) wrong.old.items }
{
    wrong.retain(|w| is_recent(w, now));
}

// Forgets that the login with this digest was right.
fn forget_right(right: &mut Vec<[u8; 32]>, digest: &[u8; 32])
    ensures { right.new.items ≡ filter (λ d. not (bytes_eq d digest.now)) right.old.items }
{
    right.retain(|d| d.as_slice() != digest.as_slice());
}

// The digest of a login.
fn login_digest(salt: &[u8], name: &[u8], password: &[u8]) -> [u8; DIGEST]
    ensures { result ≡ login_digest salt.now name.now password.now }
{
    let mut hasher = Sha256::new();
    hasher.update(salt);
    hasher.update(name);
    hasher.update(b":");
    hasher.update(password);
    hasher.finalize()
}

// Digests that stand one behind another; `None` where these bytes are no whole count of them, or more than 1,024.
fn digests_in(alloc: Global, bytes: &[u8]) -> Result<Option<Vec<[u8; DIGEST]>>, AllocError>
    ensures { IfOk result (λ digests. MatchOption digests
        ((count : ℕ) → count ≤ 1024 → length bytes.now ≢ 32 * count)
        (λ v. All (λ d. length d ≡ 32) v.items × (length v.items ≤ 1024)
        × (flat_map (λ d. d) v.items ≡ bytes.now))) }
{
    if bytes.len() > MOST * DIGEST {
        return Ok(None);
    }
    let mut digests = Vec::new(alloc);
    let mut rest = bytes;
    while let Some((digest, after)) = rest.split_first_chunk::<DIGEST>() {
        digests.push(*digest)?;
        rest = after;
    }
    Ok(if rest.is_empty() { Some(digests) } else { None })
}

impl Logins {
    ghost use Rattle.std.specs.Prelude.{◌≡◌, ◌≢◌, ◌≤◌, ◌+◌, ◌*◌, ℕ, IfOk, MatchOption, OnOk, length, not};
    ghost use Rattle.dav_access.specs.Logins.{IsRecalled, after_right, after_wrong, are_many, digest_of, has_erred, is_full, is_right, known_bytes, no_logins, wait_of, wrong_login};

    /// None was tried, and nothing is to be known of them at a later start.
    pub fn new(alloc: Global) -> Logins
        ensures { result ≡ no_logins }
    {
        Logins {
            salt: Vec::new(alloc),
            address: Vec::new(alloc),
            wrong: Vec::new(alloc),
            right: Vec::new(alloc),
        }
    }

    /// The logins of which these bytes were kept by `known_bytes`, or, with a salt of 16 bytes alone, none yet; `None` where they have the
    /// length of none.
    pub fn recalled(alloc: Global, bytes: &[u8]) -> Result<Option<Logins>, AllocError>
        ensures { IfOk result (λ logins. MatchOption logins
            ((count : ℕ) → count ≤ 1024 → length bytes.now ≢ 16 + 32 * count)
            (IsRecalled bytes.now)) }
    {
        let Some((salt, digests)) = bytes.split_first_chunk::<SALT>() else {
            return Ok(None);
        };
        let Some(right) = digests_in(alloc, digests)? else {
            return Ok(None);
        };
        let mut logins = Logins::new(alloc);
        logins.salt.extend_from_slice(salt)?;
        logins.right = right;
        Ok(Some(logins))
    }

    /// What is to be kept of them over a restart: the salt, and the digests of those that were right when they were tried last.
    pub fn known_bytes(&self, alloc: Global) -> Result<Vec<u8>, AllocError>
        ensures { IfOk result (λ bytes. bytes.items ≡ known_bytes self.now) }
    {
        let mut bytes = self.salt.to_vec(alloc)?;
        for digest in &self.right {
            bytes.extend_from_slice(digest)?;
        }
        Ok(bytes)
    }

    // The digest of a login.
    fn digest_of(&self, name: &[u8], password: &[u8]) -> [u8; DIGEST]
        ensures { result ≡ digest_of self.now name.now password.now }
    {
        login_digest(&self.salt, name, password)
    }

    /// The logins that follow come from this address.
    pub fn hear_address(&mut self, address: &[u8]) -> Result<(), AllocError>
        ensures { OnOk result (self.new ≡ record self.old { address = address.now }) }
    {
        self.address.clear();
        self.address.extend_from_slice(address)
    }

    /// For how many seconds a login waits at this time, in seconds, before its password is checked: 0
    /// where it was right when it was tried last; 60 where of the last minute five were wrong of that
    /// name from the address that was heard last, or twenty from there; 1 where eight were wrong within
    /// this second, or sixteen, where none of the last minute was wrong from there; else 0.
    pub fn wait_of(&self, name: &[u8], password: &[u8], now: u64) -> u64
        ensures { result ≡ wait_of self.now name.now password.now now }
    {
        if self.is_right(&self.digest_of(name, password)) {
            0
        } else if self.are_many(name, now) {
            MINUTE
        } else if self.is_full(now) {
            1
        } else {
            0
        }
    }

    // Whether the login with this digest was right when it was tried last.
    fn is_right(&self, digest: &[u8; 32]) -> bool
        ensures { result ≡ is_right digest.now self.now }
    {
        self.right.iter().any(|d| d.as_slice() == digest.as_slice())
    }

    // Whether a wrong login of the last minute came from where the next one comes from.
    fn has_erred(&self, now: u64) -> bool
        ensures { result ≡ has_erred self.now now }
    {
        count_from(&self.wrong, &Sha256::digest(&self.address), now) > 0
    }

    // Whether there are no more wrong logins to be in a second.
    fn is_full(&self, now: u64) -> bool
        ensures { result ≡ is_full self.now now }
    {
        is_full(count_at(&self.wrong, now), self.has_erred(now))
    }

    // Whether there were many wrong logins within the last minute.
    fn are_many(&self, name: &[u8], now: u64) -> bool
        ensures { result ≡ are_many self.now name.now now }
    {
        let address = Sha256::digest(&self.address);
        are_many(
            count_of(&self.wrong, &address, &Sha256::digest(name), now),
            count_from(&self.wrong, &address, now),
        )
    }

    // A wrong login of this name.
    fn wrong_login(&self, name: &[u8], now: u64) -> WrongLogin
        ensures { result ≡ wrong_login self.now name.now now }
    {
        WrongLogin {
            name: Sha256::digest(name),
            address: Sha256::digest(&self.address),
            seconds: now,
        }
    }

    /// Notes that a login was wrong, at this time, in seconds. What is older than a minute is
    /// forgotten.
    pub fn note_wrong(&mut self, name: &[u8], password: &[u8], now: u64) -> Result<(), AllocError>
        ensures { OnOk result (self.new ≡ after_wrong self.old name.now password.now now) }
    {
        let login = self.wrong_login(name, now);
        remember(&mut self.wrong, login, now)?;
        let digest = self.digest_of(name, password);
        forget_right(&mut self.right, &digest);
        Ok(())
    }

    /// Notes that a login was right. Whether that wasn't known.
    pub fn note_right(&mut self, name: &[u8], password: &[u8]) -> Result<bool, AllocError>
        ensures after { OnOk result (self.new ≡ after_right self.old name.now password.now) }
        ensures anew { IfOk result (λ is_anew. is_anew
            ≡ not (is_right (digest_of self.old name.now password.now) self.old)) }
    {
        let digest = self.digest_of(name, password);
        if self.is_right(&digest) {
            return Ok(false);
        }
        self.right.insert(0, digest)?;
        self.right.truncate(MOST);
        Ok(true)
    }
}
