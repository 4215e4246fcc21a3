//! The text of the rules.
ghost use Rattle.std.specs.Prelude.{◌≡◌, ◌≢◌, ◌++◌, ℕ, [], ◌∷◌, true, false, IfOk, IsTrue, List, MatchOption, MatchResult, OnOk, map};
ghost use Rattle.std.specs.Option.{option_copied};
ghost use Rattle.percent_encoding.specs.Percent.{percent_decode};
ghost use Rattle.dav_access.specs.declared.grant.Right.{Right as RightValue};
ghost use Rattle.dav_access.specs.declared.limit.Measure.{Measure as MeasureValue};
ghost use Rattle.dav_access.specs.Amounts.{IsAmount};
ghost use Rattle.dav_access.specs.RulesText.{AreLimitsOf, AreRulesOf, BeginsLimit, IsLimitLine, IsMeasureWord, IsPathWord, IsRightWord, has_taken_name, is_user};
ghost use Rattle.dav_access.specs.RulesFaults.{IfFault, IsAccessFault, IsLimitFault, IsMostFault, IsPathFault, NamesBadNumber, NamesDoubleGroup, NamesNoGroup, NamesNoRight, NamesNoUser, NamesTooMany, granted_by, limited_by};

use crate::amount::amount_of;
use crate::fault::{AccessError, Fault, Stop};
use crate::grant::{Grant, Right, Whom};
use crate::limit::{Access, Limit, Measure, Said};
use crate::line::{Line, is_comment, is_group, lines_of, members_of};
use crate::name::Name;
use crate::rules::Rules;
use crate::users::Users;
use dav_core::davpath::DavPath;
use dav_core::errors::ParseError;
use percent_encoding::percent_decode;
use std::alloc::{AllocError, Global};

// The right that a word means.
fn right_of(word: &str) -> Option<Right>
    ensures { MatchOption result ((right : RightValue) → ¬ IsRightWord word.now right)
        (IsRightWord word.now) }
{
    match word {
        "read" => Some(Right::Read),
        "write" => Some(Right::Write),
        "admin" => Some(Right::Admin),
        _ => None,
    }
}

// What a word says to be limited.
fn measure_of(word: &str) -> Option<Measure>
    ensures { MatchOption result ((measure : MeasureValue) → ¬ IsMeasureWord word.now measure)
        (IsMeasureWord word.now) }
{
    match word {
        "files" => Some(Measure::Files),
        "space" => Some(Measure::Space),
        _ => None,
    }
}

// The path of a word: it is read as the target of a request is, and isn't `*`.
fn path_of(alloc: Global, word: &str) -> Result<DavPath, Stop>
    ensures { MatchResult result (IsPathWord word.now) (IfFault (IsPathFault word.now)) }
{
    match DavPath::new(alloc, word) {
        Ok(path) => {
            if path.is_star() {
                return Err(Stop::Fault(Fault::BadPath(ParseError::InvalidPath)));
            }
            Ok(path)
        }
        Err(ParseError::Memory) => Err(Stop::Memory),
        Err(error) => Err(Stop::Fault(Fault::BadPath(error))),
    }
}

// The user whose name a word is, as in a URL (RFC 3986, section 2.1).
fn user_of(alloc: Global, users: Option<&Users>, word: &str) -> Result<Option<Name>, AllocError>
    ensures { IfOk result (λ user. MatchOption user
        (is_user (option_copied users.entry) (percent_decode word.now) ≡ false)
        (λ name. (is_user (option_copied users.entry) (percent_decode word.now) ≡ true)
        × (name ≡ percent_decode word.now))) }
{
    let Some(users) = users else {
        return Ok(None);
    };
    let mut name = Vec::new(alloc);
    percent_decode(word.as_bytes()).append_to(&mut name)?;
    match users.named(&name) {
        Some(name) => Ok(Some(name.clone()?)),
        None => Ok(None),
    }
}

// A word that is no user's name.
fn no_user(alloc: Global, word: &str) -> Stop
    ensures { IfFault (NamesNoUser word.now) result }
{
    match String::from_str(alloc, word) {
        Ok(text) => Stop::Fault(Fault::NoUser(text)),
        Err(_) => Stop::Memory,
    }
}

// A word that is no right.
fn no_right(alloc: Global, word: &str) -> Stop
    ensures { IfFault (NamesNoRight word.now) result }
{
    match String::from_str(alloc, word) {
        Ok(text) => Stop::Fault(Fault::NoRight(text)),
        Err(_) => Stop::Memory,
    }
}

// A word that is no group.
fn no_group(alloc: Global, word: &str) -> Stop
    ensures { IfFault (NamesNoGroup word.now) result }
{
    match String::from_str(alloc, word) {
        Ok(text) => Stop::Fault(Fault::NoGroup(text)),
        Err(_) => Stop::Memory,
    }
}

// A group of which a line before says who is in it.
fn double_group(alloc: Global, word: &str) -> Stop
    ensures { IfFault (NamesDoubleGroup word.now) result }
{
    match String::from_str(alloc, word) {
        Ok(text) => Stop::Fault(Fault::DoubleGroup(text)),
        Err(_) => Stop::Memory,
    }
}

// A word that is no number.
fn bad_number(alloc: Global, word: &str) -> Stop
    ensures { IfFault (NamesBadNumber word.now) result }
{
    match String::from_str(alloc, word) {
        Ok(text) => Stop::Fault(Fault::BadNumber(text)),
        Err(_) => Stop::Memory,
    }
}

// A word that follows the last one.
fn too_many(alloc: Global, word: &str) -> Stop
    ensures { IfFault (NamesTooMany word.now) result }
{
    match String::from_str(alloc, word) {
        Ok(text) => Stop::Fault(Fault::TooMany(text)),
        Err(_) => Stop::Memory,
    }
}

// How much a limit is, by the words that follow its path.
fn most_of(alloc: Global, words: &[&str]) -> Result<u64, Stop>
    ensures { MatchResult result
        (λ most. (word : List ℕ) × (map (λ w. w.now) words.now ≡ word ∷ []) × IsAmount word most)
        (IfFault (IsMostFault (map (λ w. w.now) words.now))) }
{
    let Some((word, rest)) = words.split_first() else {
        return Err(Stop::Fault(Fault::NoNumber));
    };
    let Some(most) = amount_of(word) else {
        return Err(bad_number(alloc, word));
    };
    match rest.split_first() {
        Some((extra, _)) => Err(too_many(alloc, extra)),
        None => Ok(most),
    }
}

// What a line with these words limits, if it begins with the word for that.
fn limited(alloc: Global, word: &str, rest: &[&str]) -> Result<Option<Limit>, Stop>
    ensures { MatchResult result
        (λ limit. MatchOption limit (¬ BeginsLimit (word.now ∷ map (λ w. w.now) rest.now))
        (IsLimitLine (word.now ∷ map (λ w. w.now) rest.now)))
        (IfFault (IsLimitFault (word.now ∷ map (λ w. w.now) rest.now))) }
{
    let Some(measure) = measure_of(word) else {
        return Ok(None);
    };
    let Some((path, words)) = rest.split_first() else {
        return Err(Stop::Fault(Fault::NoPath));
    };
    Ok(Some(Limit {
        path: path_of(alloc, path)?,
        measure,
        most: most_of(alloc, words)?,
    }))
}

// A grant of this right at this path for each of these.
fn grants_for(
    alloc: Global,
    whom: Vec<Whom>,
    right: Right,
    path: &DavPath,
) -> Result<Vec<Grant>, AllocError>
    ensures { IfOk result (λ grants. grants.items
        ≡ map (λ w. record { whom = w; right = right; path = path.now }) whom.items) }
{
    let mut grants = Vec::new(alloc);
    for whom in whom {
        grants.push(Grant {
            whom,
            right,
            path: path.clone()?,
        })?;
    }
    Ok(grants)
}

// Adds what a line says to what the lines before it say.
fn add(grants: &mut Vec<Grant>, limits: &mut Vec<Limit>, said: Said) -> Result<(), AllocError>
    ensures { IfOk result (λ _. (grants.new.items ≡ grants.old.items ++ granted_by said)
        × (limits.new.items ≡ limits.old.items ++ limited_by said)) }
{
    match said {
        Said::Granted(mut more) => grants.append(&mut more)?,
        Said::Limited(limit) => limits.push(limit)?,
    }
    Ok(())
}

// Where words are read: the users, if there is a list of them, and the lines of the text.
#[derive(Drop)]
struct Reader<'l, 't> {
    alloc: Global,
    users: Option<&'l Users>,
    lines: &'l [Line<'t>],
}

impl<'l, 't> Reader<'l, 't> {
    ghost use Rattle.std.specs.Prelude.{◌≡◌, ◌≢◌, ℕ, List, [], ◌∷◌, true, false, MatchResult, map};
    ghost use Rattle.std.specs.Option.{option_copied};
    ghost use Rattle.dav_access.specs.RulesText.{AllUsers, Grants, HasNoGroup, IsGrantLine, Limits, MeanAll, Means, is_group};
    ghost use Rattle.dav_access.specs.RulesFaults.{HasUnknown, IfFault, IsGrantFault, IsGrantsFault, IsGroupFault, IsRulesLineFault, IsUnknown, Says};

    // Whom a word means that is no group.
    fn one_of(&self, word: &str) -> Result<Whom, Stop>
        requires { is_group word.now ≡ false }
        ensures { MatchResult result
            (λ whom. Means (option_copied self.now.users) self.now.lines.now word.now (whom ∷ []))
            (IfFault (IsUnknown (option_copied self.now.users) self.now.lines.now word.now)) }
    {
        match word {
            "everybody" => Ok(Whom::Everybody),
            "users" => match self.users {
                Some(_) => Ok(Whom::EachUser),
                None => Err(no_user(self.alloc, word)),
            },
            name => match user_of(self.alloc, self.users, name)? {
                Some(user) => Ok(Whom::User(user)),
                None => Err(no_user(self.alloc, name)),
            },
        }
    }

    // The users of a group.
    fn users_of(&self, group: &str) -> Result<Vec<Whom>, Stop>
        requires { is_group group.now ≡ true }
        ensures { MatchResult result
            (λ whom. Means (option_copied self.now.users) self.now.lines.now group.now whom.items)
            (IfFault (IsUnknown (option_copied self.now.users) self.now.lines.now group.now)) }
    {
        let Some(members) = members_of(self.lines, group) else {
            return Err(no_group(self.alloc, group));
        };
        let mut whom = Vec::new(self.alloc);
        for word in members {
            if let Some(name) = user_of(self.alloc, self.users, word)? {
                whom.push(Whom::User(name))?;
            }
        }
        Ok(whom)
    }

    // Whom a word means.
    fn whom_of(&self, word: &str) -> Result<Vec<Whom>, Stop>
        ensures { MatchResult result
            (λ whom. Means (option_copied self.now.users) self.now.lines.now word.now whom.items)
            (IfFault (IsUnknown (option_copied self.now.users) self.now.lines.now word.now)) }
    {
        if is_group(word) {
            return self.users_of(word);
        }
        let mut whom = Vec::new(self.alloc);
        whom.push(self.one_of(word)?)?;
        Ok(whom)
    }

    // Whom words mean.
    fn all_of(&self, words: &[&str]) -> Result<Vec<Whom>, Stop>
        ensures { MatchResult result
            (λ whom. MeanAll (option_copied self.now.users) self.now.lines.now
            (map (λ w. w.now) words.now) whom.items)
            (IfFault (HasUnknown (option_copied self.now.users) self.now.lines.now
            (map (λ w. w.now) words.now))) }
    {
        let mut whom = Vec::new(self.alloc);
        for word in words {
            whom.append(&mut self.whom_of(word)?)?;
        }
        Ok(whom)
    }

    // Sees that a line may say who is in a group, where these lines are before it.
    fn check_group(&self, before: &[Line<'t>], group: &str, members: &[&str]) -> Result<(), Stop>
        ensures { MatchResult result
            (λ _. HasNoGroup before.now group.now × (map (λ w. w.now) members.now ≢ [])
            × AllUsers (option_copied self.now.users) (map (λ w. w.now) members.now))
            (IfFault (IsGroupFault (option_copied self.now.users) before.now group.now
            (map (λ w. w.now) members.now))) }
    {
        if members_of(before, group).is_some() {
            return Err(double_group(self.alloc, group));
        }
        if members.is_empty() {
            return Err(Stop::Fault(Fault::Nobody));
        }
        for word in members {
            if user_of(self.alloc, self.users, word)?.is_none() {
                return Err(no_user(self.alloc, word));
            }
        }
        Ok(())
    }

    // What a line with these words grants.
    fn granted(&self, word: &str, rest: &[&str]) -> Result<Vec<Grant>, Stop>
        ensures { MatchResult result
            (λ grants. IsGrantLine (option_copied self.now.users) self.now.lines.now
            (word.now ∷ map (λ w. w.now) rest.now) grants.items)
            (IfFault (IsGrantFault (option_copied self.now.users) self.now.lines.now
            (word.now ∷ map (λ w. w.now) rest.now))) }
    {
        let Some(right) = right_of(word) else {
            return Err(no_right(self.alloc, word));
        };
        let Some((path, names)) = rest.split_first() else {
            return Err(Stop::Fault(Fault::NoPath));
        };
        let path = path_of(self.alloc, path)?;
        if names.is_empty() {
            return Err(Stop::Fault(Fault::Nobody));
        }
        let whom = self.all_of(names)?;
        Ok(grants_for(self.alloc, whom, right, &path)?)
    }

    // What a line says, where these are before it.
    fn read_line(&self, before: &[Line<'t>], line: &Line<'t>) -> Result<Said, Stop>
        ensures { MatchResult result
            (Says (option_copied self.now.users) self.now.lines.now before.now line.now)
            (IfFault (IsRulesLineFault (option_copied self.now.users) self.now.lines.now before.now
            line.now)) }
    {
        let Some((word, rest)) = line.words().split_first() else {
            return Ok(Said::Granted(Vec::new(self.alloc)));
        };
        if is_comment(word) {
            return Ok(Said::Granted(Vec::new(self.alloc)));
        }
        if let Some(limit) = limited(self.alloc, word, rest)? {
            return Ok(Said::Limited(limit));
        }
        let Some((group, members)) = line.group() else {
            return Ok(Said::Granted(self.granted(word, rest)?));
        };
        self.check_group(before, group, members)?;
        Ok(Said::Granted(Vec::new(self.alloc)))
    }

    // What the lines say.
    fn read_lines(&self) -> Result<Access, AccessError>
        ensures { MatchResult result
            (λ access. Grants (option_copied self.now.users) self.now.lines.now []
            self.now.lines.now access.rules × Limits self.now.lines.now access.limits.items)
            (IsGrantsFault (option_copied self.now.users) self.now.lines.now) }
    {
        let mut grants = Vec::new(self.alloc);
        let mut limits = Vec::new(self.alloc);
        for (place, line) in self.lines.iter().enumerate() {
            match self.read_line(&self.lines[..place], line) {
                Ok(said) => add(&mut grants, &mut limits, said)?,
                Err(stop) => return Err(stop.at(place + 1)),
            }
        }
        Ok(Access {
            rules: Rules::new(grants),
            limits,
        })
    }
}

// Whether a user is called as a word that means more than one.
fn has_taken_name(users: Option<&Users>) -> bool
    ensures { result ≡ has_taken_name (option_copied users.entry) }
{
    match users {
        Some(users) => users.named(b"everybody").is_some() || users.named(b"users").is_some(),
        None => false,
    }
}

/// The rules and the limits of a text of lines `right path whom..`, `@group = user..`, and
/// `files path most` or `space path most`; lines without words, and those that begin with `#`, say
/// nothing.
///
/// A right is `read`, `write` or `admin`; a path is written as in a URL, below the prefix; `whom`
/// is `everybody`, `users`, a group or the name of a user, which is written as in a URL. `most` is
/// a number of files and folders, or of bytes: decimal digits, which may end in `k`, `m` or `g` of
/// 1,024.
///
/// `Line` has the first line that is at fault, and its first fault. Before that comes `TakenName`
/// where a user is called `everybody` or `users`, and then `NotUtf8` where a word isn't UTF-8.
pub fn read(alloc: Global, text: &[u8], users: Option<&Users>) -> Result<Access, AccessError>
    ensures { MatchResult result
        (λ access. (has_taken_name (option_copied users.entry) ≡ false)
        × AreRulesOf (option_copied users.entry) text.now access.rules
        × AreLimitsOf text.now access.limits.items)
        (IsAccessFault (option_copied users.entry) text.now) }
{
    if has_taken_name(users) {
        return Err(AccessError::TakenName);
    }
    let lines = lines_of(alloc, text)?;
    let reader = Reader {
        alloc,
        users,
        lines: &lines,
    };
    let access = reader.read_lines()?;
    Ok(access)
}
