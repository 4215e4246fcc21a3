//! The folders that a server has, by their names.
ghost use Rattle.std.specs.Prelude.{◌≡◌, ◌⊎◌, ◌∷◌, [], IfOk, MatchOption};
ghost use Rattle.std.specs.Bool.{Decides};
ghost use Rattle.dav_core.specs.Path.{IsBlank, IsName, names, parent_piece};

use dav_core::davpath::DavPath;
use dav_core::errors::NoMemory;
use std::alloc::Global;

// Whether a text names nothing, or the parent.
fn is_dots(text: &[u8]) -> bool
    ensures { Decides result (IsBlank text.now ⊎ (text.now ≡ parent_piece)) }
{
    match text {
        [] | [b'.'] | [b'.', b'.'] => true,
        _ => false,
    }
}

// Whether a text is a name (RFC 3986, section 3.3).
fn is_name(text: &[u8]) -> bool
    ensures { Decides result (IsName text.now) }
{
    if is_dots(text) {
        return false;
    }
    text.iter().all(|b| *b != 0 && *b != b'/')
}

/// The first folder of this name, right below the top; none where that is no name: it is empty, `.` or `..`, or has a slash or a zero byte
/// in it. Nothing of it is decoded.
pub fn first_folder(alloc: Global, name: &str) -> Result<Option<DavPath>, NoMemory>
    ensures { IfOk result (λ folder. MatchOption folder (¬ IsName name.now)
        (λ f. IsName name.now × (names f ≡ name.now ∷ []))) }
{
    if !is_name(name.as_bytes()) {
        return Ok(None);
    }
    let mut bytes = Vec::from_slice(alloc, b"/")?;
    bytes.extend_from_slice(name.as_bytes())?;
    Ok(Some(DavPath::from_parts(alloc, "", &bytes)?))
}
