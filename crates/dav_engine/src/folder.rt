//! Paths of folders (RFC 4918, section 5.2).
ghost use Rattle.std.specs.Prelude.{◌≡◌, ◌<◌, ◌^◌, codes, length, IfOk, IsOkAnd, OnOk};
ghost use Rattle.std.specs.Option.{option_copied};
ghost use Rattle.http_header.specs.FieldValue.{plain_value};
ghost use Rattle.http_header.specs.HeaderMap.{insert};
ghost use Rattle.dav_engine.specs.Folder.{child_of, closed, is_folder_found, with_location};
ghost use Rattle.dav_engine.specs.Multistatus.{xml_type};
ghost use Rattle.dav_engine.specs.Options as spec;

use crate::reply::{set_location, set_xml_type};
use dav_core::davpath::DavPath;
use dav_core::errors::NoMemory;
use dav_core::fs::DavMetaData;
use http_header::HeaderMap;
use std::alloc::Global;

/// The path with a slash at its end, where that is wanted.
pub fn closed(path: &DavPath, wanted: bool) -> Result<DavPath, NoMemory>
    ensures { IfOk result (λ p. p ≡ closed wanted path.now) }
{
    let mut path = path.clone()?;
    path.add_slash_if(wanted)?;
    Ok(path)
}

/// Whether what was found is a folder.
pub fn is_folder_found(found: Option<&DavMetaData>) -> bool
    ensures { result ≡ is_folder_found (option_copied found.entry) }
{
    match found {
        Some(meta) => meta.dir,
        None => false,
    }
}

/// Headers of a reply that has an element tree, after those that are there: `content-location` where a folder was found and its path
/// lacks the slash (RFC 4918, section 5.2), and `content-type`.
pub(crate) fn tree_headers(
    alloc: Global,
    headers: Result<HeaderMap, NoMemory>,
    path: &DavPath,
    found: Option<&DavMetaData>,
) -> Result<HeaderMap, NoMemory>
    ensures { IfOk result (λ entries. IsOkAnd headers (λ first. entries
        ≡ insert (with_location first (option_copied found.entry) path.now)
        (codes "content-type") (plain_value xml_type.1))) }
{
    let mut headers = headers?;
    set_location_found(alloc, &mut headers, path, found)?;
    set_xml_type(&mut headers)?;
    Ok(headers)
}

/// Sets `content-location` where a folder was found and its path lacks the slash (RFC 4918, section 5.2).
pub fn set_location_found(
    alloc: Global,
    headers: &mut HeaderMap,
    path: &DavPath,
    found: Option<&DavMetaData>,
) -> Result<(), NoMemory>
    ensures { OnOk result (headers.new
        ≡ with_location headers.old (option_copied found.entry) path.now) }
{
    if is_folder_found(found) && !path.is_collection() {
        let path = closed(path, true)?;
        set_location(alloc, headers, &path)?;
    }
    Ok(())
}

// The path of a member, which ends in a slash where it is a folder.
pub(crate) fn child(path: &DavPath, name: &[u8], dir: bool) -> Result<DavPath, NoMemory>
    ensures { IfOk result (λ p. p ≡ child_of path.now name.now dir) }
{
    let mut child = path.clone()?;
    child.push_segment(name)?;
    child.add_slash_if(dir)?;
    Ok(child)
}

// Whether a path is the root.
pub(crate) fn is_root(path: &DavPath) -> bool
    ensures { result ≡ spec.is_root path.now }
{
    path.as_bytes() == b"/".as_slice()
}

// A path that is in memory has fewer than 2^64 bytes, and so fewer names. A walk that goes one name deeper at each step ends
// therefore; the proofs take it from here.
pub(crate) fn names_fit(path: &DavPath)
    ensures { length path.now.bytes < 2 ^ 64 }
{
    let _bytes = path.as_ref().as_bytes().len();
}
