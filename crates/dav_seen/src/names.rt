//! The members of a folder that lead to what a principal may read.
ghost use Rattle.std.specs.Prelude.{◌≡◌, IfOk, map};
ghost use Rattle.std.specs.Option.{option_copied};
ghost use Rattle.dav_core.specs.Path.{names, rest_after};
ghost use Rattle.dav_core.specs.PathRef.{names_left};
ghost use Rattle.dav_seen.specs.Names as spec;

use dav_access::{Grant, Rules};
use dav_core::davpath::{DavPath, Segments};
use std::alloc::{AllocError, Global};
use std::cmp::Ordering;

// The name that follows a front in a path; `None` where the path isn't below it.
fn name_after<'a>(mut front: Segments<'_>, mut path: Segments<'a>) -> Option<&'a [u8]>
    ensures { option_copied result
        ≡ spec.first_of (rest_after (names_left front.entry) (names_left path.entry)) }
{
    let Some(x) = front.next() else {
        return path.next();
    };
    let Some(y) = path.next() else {
        return None;
    };
    match x.cmp(&y) {
        Ordering::Equal => name_after(front, path),
        Ordering::Less => None,
        Ordering::Greater => None,
    }
}

// The name of the member of a folder that a grant is for, or leads to.
fn next_name<'g>(grant: &'g Grant, who: Option<&str>, path: &DavPath) -> Option<&'g [u8]>
    ensures { option_copied result
        ≡ spec.next_name (option_copied who.entry) (names path.now) grant.now }
{
    if grant.whom.is_for(who) {
        name_after(path.segments(), grant.path.segments())
    } else {
        None
    }
}

// Whether a name is among these.
fn is_among(found: &[&[u8]], name: &[u8]) -> bool
    ensures { result ≡ spec.is_among (map (λ n. n.now) found.now) name.now }
{
    for other in found {
        if *other == name {
            return true;
        }
    }
    false
}

// Names, and one more, if there is one and it isn't among them.
fn with_next<'g>(
    mut found: Vec<&'g [u8]>,
    name: Option<&'g [u8]>,
) -> Result<Vec<&'g [u8]>, AllocError>
    ensures { IfOk result (λ names. map (λ n. n.now) names.items
        ≡ spec.with_next (map (λ n. n.now) found.entry.items) (option_copied name.entry)) }
{
    let Some(name) = name else {
        return Ok(found);
    };
    if !is_among(&found, name) {
        found.push(name)?;
    }
    Ok(found)
}

/// The names of the members of a folder to which rules lead a principal, none where no name was shown, in the order of the grants,
/// each once.
pub fn names_seen<'r>(
    alloc: Global,
    rules: &'r Rules,
    who: Option<&str>,
    path: &DavPath,
) -> Result<Vec<&'r [u8]>, AllocError>
    ensures { IfOk result (λ seen. map (λ n. n.now) seen.items
        ≡ spec.names_seen rules.now (option_copied who.entry) (names path.now)) }
{
    let grants = rules.grants();
    let mut found = Vec::new(alloc);
    for grant in grants {
        found = with_next(found, next_name(grant, who, path))?;
    }
    Ok(found)
}
