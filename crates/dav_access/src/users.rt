//! The list of the users.
ghost use Rattle.std.specs.Prelude.{◌≡◌, ◌↔◌, ℕ, List, IfOk, IsTrue, MatchOption, MatchResult, map};
ghost use Rattle.dav_access.specs.Reading.{IsLineFault};
ghost use Rattle.dav_access.specs.Users.{IsSkipped, IsUserLine, ListsUsers, line_of, next_lines};

use crate::check::Check;
use crate::error::UsersError;
use crate::name::Name;
use crate::secret::is_secret;
use crate::text::split_at_first;
use std::alloc::{AllocError, Global};
use std::marker::Model;

/// A user: a name, and the check of the password.
#[derive(Drop)]
struct User {
    name: Name,
    check: Check,
}

/// The users of a server, as the list of their names and secrets.
#[derive(Drop)]
pub struct Users {
    users: Vec<User>,
    /// The check of who isn't listed: it costs what that of the first user does, and its outcome is
    /// dropped.
    nobody: Check,
}

impl Model for Users {
    ghost use Rattle.std.specs.Prelude.{ℕ, List, map};

    ghost Value = { List (List ℕ × List ℕ) };

    ghost view = { λ u. map (λ user. (user.name, user.check)) u.users.items };
}

impl Users {
    ghost use Rattle.std.specs.Prelude.{◌≡◌, ◌≢◌, ℕ, List, [], IfOk, IsTrue, MatchOption, MatchResult, bytes_eq, false, true};
    ghost use Rattle.std.specs.List.{All, list_any};
    ghost use Rattle.dav_access.specs.Crypt.{Fits};
    ghost use Rattle.dav_access.specs.Users.{Admits, IsFirstOf, IsListed, IsName, ListsUsers};
    ghost use Rattle.dav_access.specs.Reading.{IsReadFault};

    /// The users of a text of lines `name:secret`, each with a secret as `openssl passwd -5` makes
    /// it; empty lines and those that begin with `#` are skipped. A name isn't empty, and is of
    /// characters that a document of XML may have, as it stands in replies (XML 1.0, section 2.2).
    /// `Line` with the number of the first line that is anything else; `Nobody` where no user is
    /// there.
    pub fn read(alloc: Global, text: &str) -> Result<Users, UsersError>
        ensures listed { MatchResult result (λ users. ListsUsers text.now users)
            (IsReadFault text.now) }
        ensures some { IfOk result (λ users. users ≢ []) }
    {
        let users = users_in(alloc, text)?;
        let Some(first) = users.first() else {
            return Err(UsersError::Nobody);
        };
        let nobody = Check::new(alloc, first.check.secret())?;
        Ok(Users { users, nobody })
    }

    /// Whether a user of this name is let in with this password, of at most 72 bytes: that of the
    /// first user of this name. A name that isn't listed costs a check too.
    pub fn knows(&mut self, name: &str, password: &[u8]) -> bool
        ensures same { self.new ≡ self.old }
        ensures sound { IsTrue result → Admits self.old name.now password.now }
        ensures complete { (secret : List ℕ) → IsListed self.old name.now secret
            → Fits password.now secret → IsTrue result }
        ensures named { IsTrue result → IsName name.now }
    {
        match self.place_of(name.as_bytes()) {
            Some(place) => self.users[place].check.admits(password),
            None => {
                self.nobody.admits(password);
                false
            }
        }
    }

    /// The name of a user with this name.
    pub fn named(&self, name: &[u8]) -> Option<&Name>
        ensures { MatchOption result (list_any (λ u. bytes_eq u.0 name.now) self.now ≡ false)
            (λ n. (list_any (λ u. bytes_eq u.0 name.now) self.now ≡ true) × (n.now ≡ name.now)) }
    {
        match self.place_of(name) {
            Some(place) => Some(&self.users[place].name),
            None => None,
        }
    }

    // The place of the first user of this name.
    fn place_of(&self, name: &[u8]) -> Option<usize>
        ensures { MatchOption result (All (λ u. u.0 ≢ name.now) self.now)
            (λ place. IsFirstOf self.now name.now place) }
    {
        for (place, user) in self.users.iter().enumerate() {
            if user.name.as_str().as_bytes() == name {
                return Some(place);
            }
        }
        None
    }
}

// The first line of a text, without the line feed at its end, and what follows that.
fn first_line(text: &str) -> (&str, &str)
    ensures line { result.0.now ≡ line_of text.now }
    ensures rest { result.1.now ≡ next_lines text.now }
{
    match split_at_first(text, '\n') {
        Some(parts) => parts,
        None => (text, ""),
    }
}

// Whether a line is empty or a comment.
fn is_skipped(line: &str) -> bool
    ensures { IsTrue result ↔ IsSkipped line.now }
{
    let line = line.trim();
    line.is_empty() || line.starts_with('#')
}

// The user of a line; `None` where it is none of a user.
fn user_of(alloc: Global, line: &str) -> Result<Option<User>, AllocError>
    ensures { IfOk result (λ user. MatchOption user
        ((u : List ℕ × List ℕ) → ¬ IsUserLine line.now u)
        (λ u. IsUserLine line.now (u.name, u.check))) }
{
    let Some((name, secret)) = split_at_first(line.trim(), ':') else {
        return Ok(None);
    };
    if !is_secret(secret) {
        return Ok(None);
    }
    let Some(name) = Name::new(alloc, name)? else {
        return Ok(None);
    };
    Ok(Some(User {
        name,
        check: Check::new(alloc, secret)?,
    }))
}

// The users of a text.
fn users_in(alloc: Global, text: &str) -> Result<Vec<User>, UsersError>
    ensures { MatchResult result
        (λ users. ListsUsers text.now (map (λ u. (u.name, u.check)) users.items))
        (IsLineFault text.now) }
{
    let mut users = Vec::new(alloc);
    let mut rest = text;
    let mut count = 0usize;
    while !rest.is_empty() {
        let (line, after) = first_line(rest);
        if !is_skipped(line) {
            match user_of(alloc, line)? {
                Some(user) => users.push(user)?,
                None => return Err(UsersError::Line(count + 1)),
            }
        }
        count += 1;
        rest = after;
    }
    Ok(users)
}
