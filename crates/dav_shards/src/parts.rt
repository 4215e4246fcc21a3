//! Which part of a request names what is elsewhere, for a server that has some folders alone.
ghost use Rattle.std.specs.Prelude.{◌≡◌, IfOk, MatchOption};
ghost use Rattle.std.specs.List.{list_all, list_any};
ghost use Rattle.dav_core.specs.Path.{is_at_or_under, names};
ghost use Rattle.dav_shards.specs.declared.parts.Part.{Part as PartValue};
ghost use Rattle.dav_shards.specs.Shards as spec;

use dav_confined::leave::Asked;
use dav_core::davpath::DavPath;
use dav_core::errors::NoMemory;
use dav_core::method::DavMethod;
use std::alloc::Global;

/// A part of a request that names a path.
#[derive(Clone, Copy, Debug, PartialEq, Eq)]
pub enum Part {
    /// Its target (RFC 9110, section 7.1).
    Target,
    /// Its Destination (RFC 4918, section 10.3).
    Destination,
    /// A list of its If (RFC 4918, section 10.4.2).
    Condition,
}

// Whether a path is at one of these folders or below it.
fn is_in_one(folders: &[DavPath], path: &DavPath) -> bool
    ensures { result ≡ list_any (λ f. is_at_or_under (names path.now) (names f)) folders.now }
{
    folders.iter().any(|folder| path.is_at_or_under(folder))
}

// Whether a server that has these folders alone, or all, where none is named, has what is at a path.
fn is_here(folders: &[DavPath], path: &DavPath) -> bool
    ensures { result ≡ spec.is_here folders.now (names path.now) }
{
    folders.is_empty() || is_in_one(folders, path)
}

// Whether the target of a request is here.
fn has_target(folders: &[DavPath], asked: &Asked) -> bool
    ensures { result ≡ spec.has_target folders.now asked.now }
{
    asked.path.is_star() || is_here(folders, &asked.path)
}

// Whether a place is here, if there is one.
fn has_place(folders: &[DavPath], place: &Option<DavPath>) -> bool
    ensures { result ≡ spec.has_place folders.now place.now }
{
    match place {
        Some(path) => is_here(folders, path),
        None => true,
    }
}

// Whether the place is here to which a COPY or MOVE goes.
fn has_destination(folders: &[DavPath], asked: &Asked) -> bool
    ensures { result ≡ spec.has_destination folders.now asked.now.method asked.now.destination }
{
    match asked.method {
        DavMethod::Copy | DavMethod::Move => has_place(folders, &asked.destination),
        _ => true,
    }
}

// Whether all these paths are here.
fn has_each(folders: &[DavPath], paths: &[DavPath]) -> bool
    ensures { result ≡ list_all (λ p. spec.is_here folders.now (names p)) paths.now }
{
    paths.iter().all(|path| is_here(folders, path))
}

// Whether all paths are here of which the lists of an If speak.
fn has_conditions(folders: &[DavPath], asked: &Asked) -> bool
    ensures { result ≡ list_all (spec.is_here folders.now) asked.now.spoken_of }
{
    has_each(folders, &asked.spoken_of)
}

// Which part of a request names what is elsewhere, if one does.
fn elsewhere(folders: &[DavPath], asked: &Asked) -> Option<Part>
    ensures { result ≡ spec.elsewhere folders.now asked.now }
{
    if !has_target(folders, asked) {
        return Some(Part::Target);
    }
    if !has_destination(folders, asked) {
        return Some(Part::Destination);
    }
    if !has_conditions(folders, asked) {
        return Some(Part::Condition);
    }
    None
}

/// Which part of a request with these bytes as its head, below a prefix, names what is elsewhere, for a server that has these folders
/// alone, or all, where none is given: its target, else the Destination of a COPY or MOVE, else a list of its If. `None` where none
/// does, and where the machine reads no request: it answers that with an error. `NoMemory` where memory runs out.
pub fn elsewhere_in(
    alloc: Global,
    folders: &[DavPath],
    head: &[u8],
    prefix: &str,
) -> Result<Option<Part>, NoMemory>
    ensures { IfOk result (λ part. MatchOption part
        ((p : PartValue) → ¬ spec.IsElsewhere folders.now prefix.now head.now p)
        (spec.IsElsewhere folders.now prefix.now head.now)) }
{
    if folders.is_empty() {
        return Ok(None);
    }
    match Asked::read(alloc, head, prefix)? {
        Some(asked) => Ok(elsewhere(folders, &asked)),
        None => Ok(None),
    }
}
