//! The lines of a text of rules.
ghost use Rattle.std.specs.Prelude.{◌≡◌, ◌≢◌, ℕ, All, IfOk, List, MatchOption, MatchResult, map};
ghost use Rattle.std.specs.Char.{is_ascii_whitespace};
ghost use Rattle.std.specs.List.{filter, slice_split};
ghost use Rattle.std.specs.Str.{IsUtf8};
ghost use Rattle.dav_core.specs.Path.{is_nonempty};
ghost use Rattle.dav_access.specs.RulesText.{HasNoGroup, IsGroupIn, begins_with, is_group, lines_of, words_of};
ghost use Rattle.dav_access.specs.RulesFaults.{IsLinesFault, IsWordsFault};

use crate::fault::AccessError;
use std::alloc::{AllocError, Global};
use std::marker::Model;
use std::str;

/// The words of a line.
#[derive(Drop)]
pub struct Line<'t> {
    words: Vec<&'t str>,
}

impl<'t> Model for Line<'t> {
    ghost use Rattle.std.specs.Prelude.{ℕ, List, map};

    ghost Value = { List (List ℕ) };

    ghost view = { λ l. map (λ w. w.now) l.words.items };
}

impl<'t> Line<'t> {
    ghost use Rattle.std.specs.Prelude.{◌≡◌, ℕ, List, MatchOption, map};
    ghost use Rattle.dav_access.specs.RulesText.{SaysGroup};

    /// The words.
    pub fn words(&self) -> &[&'t str]
        ensures { map (λ w. w.now) result.now ≡ self.now }
    {
        &self.words
    }

    /// The group of which it says who is in it, and the words for these.
    pub fn group(&self) -> Option<(&'t str, &[&'t str])>
        ensures { MatchOption result
            ((group : List ℕ) (members : List (List ℕ)) → ¬ SaysGroup self.now group members)
            (λ g. SaysGroup self.now g.0.now (map (λ w. w.now) g.1.now)) }
    {
        let (group, rest) = self.words.split_first()?;
        let (equals, members) = rest.split_first()?;
        if is_group(group) && *equals == "=" {
            Some((*group, members))
        } else {
            None
        }
    }

    /// The words for who is in a group, where it says so.
    pub fn members(&self, group: &str) -> Option<&[&'t str]>
        ensures { MatchOption result
            ((members : List (List ℕ)) → ¬ SaysGroup self.now group.now members)
            (λ members. SaysGroup self.now group.now (map (λ w. w.now) members.now)) }
    {
        let (name, members) = self.group()?;
        if name == group { Some(members) } else { None }
    }
}

/// Whether a word begins a comment.
pub fn is_comment(word: &str) -> bool
    ensures { result ≡ begins_with 35 word.now }
{
    match word.as_bytes() {
        [b'#', ..] => true,
        _ => false,
    }
}

/// Whether a word is the name of a group.
pub fn is_group(word: &str) -> bool
    ensures { result ≡ is_group word.now }
{
    match word.as_bytes() {
        [b'@', ..] => true,
        _ => false,
    }
}

/// The words that say who is in a group, where a line does.
pub fn members_of<'l, 't>(lines: &'l [Line<'t>], group: &str) -> Option<&'l [&'t str]>
    ensures { MatchOption result (HasNoGroup lines.now group.now)
        (λ members. IsGroupIn lines.now group.now (map (λ w. w.now) members.now)) }
{
    for line in lines {
        if let Some(members) = line.members(group) {
            return Some(members);
        }
    }
    None
}

// The words of a line, as bytes.
fn words_of(alloc: Global, line: &[u8]) -> Result<Vec<&[u8]>, AllocError>
    ensures { IfOk result (λ words. map (λ w. w.now) words.items ≡ words_of line.now) }
{
    line.split(|b| b.is_ascii_whitespace())
        .filter(|word| !word.is_empty())
        .collect(alloc)
}

// Words as text.
fn texts_of<'t>(alloc: Global, words: &[&'t [u8]]) -> Result<Line<'t>, AccessError>
    ensures { MatchResult result (λ line. (line ≡ map (λ w. w.now) words.now) × All IsUtf8 line)
        (IsWordsFault (map (λ w. w.now) words.now)) }
{
    let mut texts = Vec::new(alloc);
    for word in words {
        match str::from_utf8(word) {
            Ok(text) => texts.push(text)?,
            Err(_) => return Err(AccessError::NotUtf8),
        }
    }
    Ok(Line { words: texts })
}

/// The lines of a text. `NotUtf8` where a word isn't UTF-8.
pub fn lines_of(alloc: Global, text: &[u8]) -> Result<Vec<Line<'_>>, AccessError>
    ensures { MatchResult result
        (λ lines. (lines.items ≡ lines_of text.now) × All (All IsUtf8) lines.items)
        (IsLinesFault text.now) }
{
    let mut lines = Vec::new(alloc);
    for line in text.split(|b| *b == b'\n') {
        let words = words_of(alloc, line)?;
        lines.push(texts_of(alloc, &words)?)?;
    }
    Ok(lines)
}
