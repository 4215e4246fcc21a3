//! Who may log in, and who may do what: the list of users and the rules of access, which are taken together or not at all.
ghost use Rattle.std.specs.Prelude.{◌≡◌, ◌≢◌, ◌==◌, ℕ, [], List, MatchResult, Some};
ghost use Rattle.std.specs.List.{position};
ghost use Rattle.std.specs.Option.{option_copied};
ghost use Rattle.std.specs.Str.{IsUtf8};
ghost use Rattle.dav_access.specs.Reading.{IsReadFault};
ghost use Rattle.dav_access.specs.RulesFaults.{IsAccessFault};
ghost use Rattle.dav_access.specs.Users.{ListsUsers};
ghost use Rattle.dav_live.specs.Lists.{AreLists, AreRules, AreTexts, AreUsers, IsUnlisted, text_if_any};

use dav_access::{AccessError, Limit, Rules, Users, UsersError, file};
use std::alloc::Global;
use std::str;
use thiserror::Error;

/// The users, if there is a list of them, the rules, if there are any, and their limits. Without a list nobody logs in; without rules each
/// user may do everything, and so may everybody where there is no list.
#[derive(Drop)]
pub struct Lists {
    pub users: Option<Users>,
    pub rules: Option<Rules>,
    /// How much there may be at paths and below them.
    pub limits: Vec<Limit>,
}

/// Why there are no users and rules in two texts.
#[derive(Debug, Drop, PartialEq, Eq, Error)]
pub enum ListsError {
    /// What is wrong with the list of users.
    #[error("users: {0}")]
    Users(UsersError),
    /// What is wrong with the rules.
    #[error("access: {0}")]
    Access(AccessError),
    /// Memory ran out.
    #[error("out of memory")]
    Memory,
}

impl From<UsersError> for ListsError {
    ghost use Rattle.dav_live.specs.Lists.{IsOfUsers};

    ghost from_gives = { IsOfUsers };

    fn from(error: UsersError) -> ListsError {
        match error {
            UsersError::Memory => ListsError::Memory,
            error => ListsError::Users(error),
        }
    }
}

impl From<AccessError> for ListsError {
    ghost use Rattle.dav_live.specs.Lists.{IsOfAccess};

    ghost from_gives = { IsOfAccess };

    fn from(error: AccessError) -> ListsError {
        match error {
            AccessError::Memory => ListsError::Memory,
            error => ListsError::Access(error),
        }
    }
}

// The users of a text.
fn users_of(alloc: Global, text: &[u8]) -> Result<Users, UsersError>
    ensures { MatchResult result (λ users. ListsUsers text.now users × (users ≢ []))
        (λ e. IsUtf8 text.now → IsReadFault text.now e) }
{
    match str::from_utf8(text) {
        Ok(text) => Users::read(alloc, text),
        Err(_) => Err(UsersError::Nobody),
    }
}

// The users of a text, if there is one.
fn users_in(alloc: Global, text: Option<&[u8]>) -> Result<Option<Users>, UsersError>
    ensures { MatchResult result (AreUsers (option_copied text.entry)) (λ e. (t : List ℕ)
        × (option_copied text.entry ≡ Some t) × (IsUtf8 t → IsReadFault t e)) }
{
    match text {
        Some(text) => Ok(Some(users_of(alloc, text)?)),
        None => Ok(None),
    }
}

// The rules of a text, if there is one, by these users, and its limits.
fn rules_in(
    alloc: Global,
    text: Option<&[u8]>,
    users: &Option<Users>,
) -> Result<(Option<Rules>, Vec<Limit>), AccessError>
    ensures { MatchResult result
        (λ r. AreRules users.now (option_copied text.entry) r.0 r.1.items) (λ e. (t : List ℕ)
        × (option_copied text.entry ≡ Some t) × IsAccessFault users.now t e) }
{
    match text {
        Some(text) => {
            let access = file::read(alloc, text, users.as_ref())?;
            Ok((Some(access.rules), access.limits))
        }
        None => Ok((None, Vec::new(alloc))),
    }
}

impl Lists {
    /// The users, and the rules with their limits, of two texts, either of which may be missing. The rules are read by these users.
    pub fn read(
        alloc: Global,
        users: Option<&[u8]>,
        access: Option<&[u8]>,
    ) -> Result<Lists, ListsError>
        ensures { MatchResult result
            (λ l. AreLists (option_copied users.entry) (option_copied access.entry) l.users l.rules
            l.limits.items)
            (IsUnlisted (option_copied users.entry) (option_copied access.entry)) }
    {
        let users = users_in(alloc, users)?;
        let (rules, limits) = rules_in(alloc, access, &users)?;
        Ok(Lists {
            users,
            rules,
            limits,
        })
    }
}

// Where the first byte 0 is.
fn zero_in(bytes: &[u8]) -> Option<usize>
    ensures { result ≡ position (λ b. b == 0) bytes.now }
{
    bytes.iter().position(|b| *b == 0)
}

/// The texts of a report: that of the list of users, and, after the first byte 0, that of the rules. Before that byte nothing stands where
/// there is no list.
pub fn texts_in(report: &[u8]) -> (Option<&[u8]>, Option<&[u8]>)
    ensures { AreTexts report.now (option_copied result.0) (option_copied result.1) }
{
    match zero_in(report) {
        Some(place) => (text_if_any(&report[..place]), Some(&report[place + 1..])),
        None => (Some(report), None),
    }
}

// A text that isn't empty.
fn text_if_any(text: &[u8]) -> Option<&[u8]>
    ensures { option_copied result ≡ text_if_any text.now }
{
    if text.is_empty() { None } else { Some(text) }
}
