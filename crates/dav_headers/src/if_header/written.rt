//! The lists of conditions that tokens are, as they are written: they borrow the value's bytes.
ghost use Rattle.std.specs.Prelude.{◌≡◌, ◌<◌, ◌≤◌, ℕ, List, ◌∷◌, map, drop, length, Some, None, option_map, MatchOption, IfOk, IsErrOf};
ghost use Rattle.dav_headers.specs.IfTokens.{negation};
ghost use Rattle.dav_headers.specs.IfParts.{part_view};
ghost use Rattle.dav_headers.specs.IfWritten.{WrittenList, conditions_at, front_at, item_at, ListAt, NoList, ListsAt};
ghost use Rattle.dav_headers.specs.IfTexts.{item_view, condition_view, resource_view, list_view, StepsAs};

use super::tokens::Part;
use crate::errors::HeaderError;
use std::alloc::Global;

/// An item as it is written.
#[derive(Clone, Copy)]
pub(super) enum ItemText<'a> {
    StateToken(&'a [u8]),
    EntityTag(&'a [u8]),
}

/// An item, and whether there is a `Not` before it.
#[derive(Clone, Copy)]
pub(super) struct ConditionText<'a> {
    pub(super) not: bool,
    pub(super) item: ItemText<'a>,
}

/// A list of conditions, and the text of its resource tag.
#[derive(Drop)]
pub(super) struct ListText<'a> {
    pub(super) resource: Option<&'a [u8]>,
    pub(super) conditions: Vec<ConditionText<'a>>,
}

// A token as an item.
fn item_of<'a>(part: Part<'a>) -> Option<ItemText<'a>>
    ensures { option_map item_view result ≡ item_at (part_view part.entry) }
{
    match part {
        Part::Angle(text) | Part::Word(text) => Some(ItemText::StateToken(text)),
        Part::Square(text) => Some(ItemText::EntityTag(text)),
        _ => None,
    }
}

// What is after a `Not`: a condition, or the end of the list; and how many tokens it takes, with the `Not`.
fn negated_at<'a>(parts: &[Part<'a>]) -> Option<(Option<ConditionText<'a>>, usize)>
    ensures { StepsAs (negation ∷ map part_view parts.now) result }
{
    match parts.split_first() {
        Some((Part::Close, _)) => Some((None, 2)),
        Some((part, _)) => {
            let item = item_of(*part)?;
            Some((Some(ConditionText { not: true, item }), 2))
        }
        None => None,
    }
}

// What the tokens begin with: a condition, or the end of the list; and how many tokens it takes.
fn step_at<'a>(parts: &[Part<'a>]) -> Option<(Option<ConditionText<'a>>, usize)>
    ensures { StepsAs (map part_view parts.now) result }
{
    match parts.split_first() {
        Some((Part::Close, _)) => Some((None, 1)),
        Some((Part::Not, rest)) => negated_at(rest),
        Some((part, _)) => {
            let item = item_of(*part)?;
            Some((Some(ConditionText { not: false, item }), 1))
        }
        None => None,
    }
}

// The conditions up to the end of the list, and how many tokens they take, with the end.
fn conditions_of<'a>(
    alloc: Global,
    parts: &[Part<'a>],
) -> Result<(Vec<ConditionText<'a>>, usize), HeaderError>
    ensures found { IfOk result
        (λ x. (x.1 ≤ length parts.now) × (conditions_at (map part_view parts.now)
        ≡ Some (map condition_view x.0.items, drop x.1 (map part_view parts.now)))) }
    ensures none { IsErrOf result HeaderError.Invalid → conditions_at (map part_view parts.now)
        ≡ None }
{
    let mut found = Vec::new(alloc);
    let mut at = 0;
    'conditions: loop {
        let Some((condition, n)) = step_at(&parts[at..]) else {
            return Err(HeaderError::Invalid);
        };
        at += n;
        match condition {
            Some(condition) => found.push(condition)?,
            None => return Ok((found, at)),
        }
    }
}

// The resource tag of a list, and how many tokens are before its first condition.
fn front_of<'a>(parts: &[Part<'a>]) -> Option<(Option<&'a [u8]>, usize)>
    ensures is { MatchOption result (front_at (map part_view parts.now) ≡ None)
        (λ x. (0 < x.1) × (x.1 ≤ length parts.now)
        × (front_at (map part_view parts.now) ≡ Some (resource_view x.0, drop x.1 (map part_view parts.now)))) }
{
    match parts {
        [Part::Open, ..] => Some((None, 1)),
        [Part::Angle(tag), Part::Open, ..] => Some((Some(*tag), 2)),
        _ => None,
    }
}

// The list that the tokens begin with, and how many tokens it takes.
fn list_at<'a>(alloc: Global, parts: &[Part<'a>]) -> Result<(ListText<'a>, usize), HeaderError>
    ensures found { IfOk result (λ x. (0 < x.1) × (x.1 ≤ length parts.now)
        × ListAt (map part_view parts.now) (list_view x.0) (drop x.1 (map part_view parts.now))) }
    ensures none { IsErrOf result HeaderError.Invalid → NoList (map part_view parts.now) }
{
    let Some((resource, opened)) = front_of(parts) else {
        return Err(HeaderError::Invalid);
    };
    let (conditions, n) = conditions_of(alloc, &parts[opened..])?;
    if conditions.is_empty() {
        return Err(HeaderError::Invalid);
    }
    Ok((
        ListText {
            resource,
            conditions,
        },
        opened + n,
    ))
}

/// The lists that the tokens are; `Invalid` where they aren't lists.
pub(super) fn lists_of<'a>(
    alloc: Global,
    parts: &[Part<'a>],
) -> Result<Vec<ListText<'a>>, HeaderError>
    ensures found { IfOk result
        (λ lists. ListsAt (map part_view parts.now) (map list_view lists.items)) }
    ensures none { IsErrOf result HeaderError.Invalid → (ls : List WrittenList)
        → ¬ ListsAt (map part_view parts.now) ls }
{
    let mut lists = Vec::new(alloc);
    let mut at = 0;
    while at < parts.len() {
        let (list, n) = list_at(alloc, &parts[at..])?;
        lists.push(list)?;
        at += n;
    }
    Ok(lists)
}
