//! Paths compared name by name (RFC 3986, section 3.3).
ghost use Rattle.std.specs.Prelude.{◌≡◌, take, length, ◌≤◌};
ghost use Rattle.dav_core.specs.Path.{names, name_cmp, path_cmp, is_same_path};
ghost use Rattle.dav_core.specs.PathRef.{names_left};

use dav_core::davpath::{DavPath, Segments};
use std::cmp::Ordering;

// Compares name by name, and a path before what is below it.
fn compare(mut a: Segments<'_>, mut b: Segments<'_>) -> Ordering
    ensures { result ≡ path_cmp (names_left a.entry) (names_left b.entry) }
{
    match a.next() {
        None => match b.next() {
            None => Ordering::Equal,
            Some(_) => Ordering::Less,
        },
        Some(x) => match b.next() {
            None => Ordering::Greater,
            Some(y) => match x.cmp(&y) {
                Ordering::Equal => compare(a, b),
                other => other,
            },
        },
    }
}

// Whether the segments are the first so many of a path.
fn are_first(mut front: Segments<'_>, mut path: Segments<'_>, len: usize) -> bool
    ensures { result ≡ is_same_path (names_left front.entry) (take len (names_left path.entry)) }
{
    if len == 0 {
        return front.next().is_none();
    }
    let Some(y) = path.next() else {
        return front.next().is_none();
    };
    let Some(x) = front.next() else {
        return false;
    };
    match x.cmp(&y) {
        Ordering::Equal => are_first(front, path, len - 1),
        Ordering::Less => false,
        Ordering::Greater => false,
    }
}

/// Whether the front is the first so many names of the path.
pub fn is_front(front: &DavPath, path: &DavPath, len: usize) -> bool
    ensures { result ≡ is_same_path (names front.now) (take len (names path.now)) }
{
    are_first(front.segments(), path.segments(), len)
}

// How many names are left, where there are at most so many.
fn count_left(mut rest: Segments<'_>, at_most: usize) -> usize
    requires { length (names_left rest) ≤ at_most }
    ensures { result ≡ length (names_left rest.entry) }
{
    match rest.next() {
        None => 0,
        Some(_) => 1 + count_left(rest, at_most - 1),
    }
}

/// How many names a path has.
pub fn count(path: &DavPath) -> usize
    ensures { result ≡ length (names path.now) }
{
    count_left(path.segments(), path.as_bytes().len())
}

/// Whether both are the same path.
pub fn is_same(a: &DavPath, b: &DavPath) -> bool
    ensures { result ≡ is_same_path (names a.now) (names b.now) }
{
    compare(a.segments(), b.segments()).is_eq()
}
