//! Paths as they are read from what was saved.
ghost use Rattle.std.specs.Prelude.{◌≡◌, ◌⊎◌, ◌<◌, ℕ, All};
ghost use Rattle.std.specs.Bool.{Decides};
ghost use Rattle.std.specs.List.{AllByRecursion};
ghost use Rattle.dav_core.specs.Path.{IsName, IsBlank, parent_piece};
ghost use Rattle.dav_saved.specs.Reading.{sized_at, many_at};
ghost use Rattle.dav_store.specs.Loaded.{GivesOnly, IsNameOfBytes};

use super::{Name, Names};
use dav_saved::{LoadError, bytes_of, number_of};
use std::alloc::Global;

// Whether a segment names nothing, or the parent.
fn is_dots(bytes: &[u8]) -> bool
    ensures { Decides result (IsBlank bytes.now ⊎ (bytes.now ≡ parent_piece)) }
{
    match bytes {
        [] | [b'.'] | [b'.', b'.'] => true,
        _ => false,
    }
}

// Whether bytes are a name (RFC 3986, section 3.3).
fn is_name(bytes: &[u8]) -> bool
    ensures name { Decides result (IsName bytes.now) }
    ensures bytes { All (λ b. b < 256) bytes.now }
{
    if is_dots(bytes) {
        return false;
    }
    bytes.iter().all(|b| *b != 0 && *b != b'/')
}

// The name in front of bytes, and what is behind it.
fn name_of(alloc: Global, bytes: &[u8]) -> Result<(Name, &[u8]), LoadError>
    ensures { GivesOnly IsNameOfBytes (λ x. (x.0, x.1.now)) result (sized_at bytes.now) }
{
    let (name, rest) = bytes_of(bytes)?;
    if !is_name(name) {
        return Err(LoadError::NotSaved);
    }
    Ok((Name::from_slice(alloc, name)?, rest))
}

// So many names in front of bytes, and what is behind them.
fn names_at(alloc: Global, count: u64, bytes: &[u8]) -> Result<(Names, &[u8]), LoadError>
    ensures { GivesOnly (AllByRecursion IsNameOfBytes) (λ x. (x.0, x.1.now)) result
        (many_at sized_at count bytes.now) }
{
    let mut names = Vec::new(alloc);
    let mut rest = bytes;
    for _ in 0..count {
        let (name, after) = name_of(alloc, rest)?;
        names.push(name)?;
        rest = after;
    }
    Ok((Names { names }, rest))
}

impl Names {
    ghost use Rattle.std.specs.Prelude.{◌≡◌, ℕ};
    ghost use Rattle.std.specs.List.{AllByRecursion};
    ghost use Rattle.dav_saved.specs.Reading.{sized_at, list_at};
    ghost use Rattle.dav_store.specs.Loaded.{GivesOnly, IsNameOfBytes};

    /// The names in front of bytes, and what is behind them. `NotSaved` where no names (RFC 3986, section 3.3) are there.
    pub fn load(alloc: Global, bytes: &[u8]) -> Result<(Names, &[u8]), LoadError>
        ensures { GivesOnly (AllByRecursion IsNameOfBytes) (λ x. (x.0, x.1.now)) result
            (list_at sized_at bytes.now) }
    {
        let (count, rest) = number_of(bytes)?;
        names_at(alloc, count, rest)
    }
}
