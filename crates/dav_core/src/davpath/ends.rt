//! The end of a path: the slash there, the last name, and what comes before it.
ghost use Rattle.std.specs.Prelude.{◌≡◌, ◌≢◌, ℕ, List, MatchOption, ◌==◌, ◌++◌, [], ◌∷◌, not, if◌then◌else◌, OnOk, OnErr};
ghost use Rattle.dav_core.specs.Path.{is_collection, without_first_slash, without_slash, trimmed, end_for};
ghost use Rattle.dav_core.specs.PathEnds.{without_end, parent_by};
ghost use Rattle.dav_core.specs.PathRef.{CutsAt};

use crate::errors::NoMemory;

/// Whether a path ends in a slash.
pub(super) fn is_collection(bytes: &[u8]) -> bool
    ensures { result ≡ is_collection bytes.now }
{
    bytes.ends_with(b"/")
}

/// The path without the slash at its end.
pub(super) fn without_slash(bytes: &[u8]) -> &[u8]
    ensures { result.now ≡ without_slash bytes.now }
{
    if bytes.ends_with(b"/") {
        &bytes[..bytes.len() - 1]
    } else {
        bytes
    }
}

/// The path without the slash that it begins with.
pub(super) fn without_first_slash(bytes: &[u8]) -> &[u8]
    ensures { result.now ≡ without_first_slash bytes.now }
{
    match bytes {
        [b'/', rest @ ..] => rest,
        _ => bytes,
    }
}

// What follows a text in another that begins with it.
fn behind<'a>(front: &[u8], bytes: &'a [u8]) -> Option<&'a [u8]>
    ensures { MatchOption result ((rest : List ℕ) → bytes.now ≢ front.now ++ rest)
        (λ r. bytes.now ≡ front.now ++ r.now) }
{
    bytes.strip_prefix(front)
}

/// Whether a path lacks the slash after a prefix; `None` where this text is no prefix of it.
pub(super) fn lacks_slash(prefix: &[u8], bytes: &[u8]) -> Option<bool>
    ensures { CutsAt prefix.now bytes.now result }
{
    if prefix.is_empty() {
        return Some(false);
    }
    let Some(rest) = behind(prefix, bytes) else {
        return None;
    };
    if rest.is_empty() {
        return Some(true);
    }
    if rest[0] == b'/' { Some(false) } else { None }
}

/// A path without its slash at the end, if it is longer than one byte.
pub(super) fn trimmed(bytes: &[u8]) -> &[u8]
    ensures { result.now ≡ trimmed bytes.now }
{
    if bytes.len() > 1 {
        without_slash(bytes)
    } else {
        bytes
    }
}

// The bytes without the slashes at their end.
fn without_slashes(mut bytes: &[u8]) -> &[u8]
    ensures { result.now ≡ without_end (λ b. b == 47) bytes.entry.now }
{
    while let [rest @ .., last] = bytes
        && *last == b'/'
    {
        bytes = rest;
    }
    bytes
}

// A text up to and with its last slash.
fn through_last_slash(mut bytes: &[u8]) -> &[u8]
    ensures { result.now ≡ without_end (λ b. not (b == 47)) bytes.entry.now }
{
    while let [rest @ .., last] = bytes
        && *last != b'/'
    {
        bytes = rest;
    }
    bytes
}

/// The path up to and with the slash before its last name; all of it where there is none and it has no names.
pub(super) fn parent(bytes: &[u8], is_root: bool) -> &[u8]
    ensures { result.now ≡ parent_by is_root bytes.now }
{
    let front = through_last_slash(without_slashes(bytes));
    if front.is_empty() && is_root {
        bytes
    } else {
        front
    }
}

/// Adds a slash, if it isn't there, and a name after it.
pub(super) fn push_after_slash(
    path: &mut Vec<u8>,
    is_collection: bool,
    name: &[u8],
) -> Result<(), NoMemory>
    ensures ok { OnOk result (path.new.items
        ≡ path.old.items ++ end_for is_collection ++ name.now) }
    ensures err { OnErr result (path.new.items ≡ path.old.items) }
{
    let len = path.len();
    if !is_collection {
        path.push(b'/')?;
    }
    let added = path.extend_from_slice(name);
    if added.is_err() {
        path.truncate(len);
    }
    added
}
