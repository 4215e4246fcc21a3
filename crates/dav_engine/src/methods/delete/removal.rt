//! The removal of what is at a path and below it (RFC 4918, section 9.6.1).
ghost use Rattle.std.specs.Prelude.{◌≡◌, ◌≢◌, ◌≤◌, ◌-◌, ◌<◌, ◌++◌, ◌∷◌, [], map, All, OnOk, OnErr};
ghost use Rattle.dav_core.specs.Lists.{is_empty};
ghost use Rattle.dav_core.specs.World.{last_moment};
ghost use Rattle.dav_core.specs.Path.{names, star};
ghost use Rattle.dav_core.specs.Status.{fs_status};
ghost use Rattle.dav_engine.specs.Folder.{room_at};
ghost use Rattle.dav_engine.specs.Reach.{reaches_below};
ghost use Rattle.dav_engine.specs.Removal.{remove, removal, remove_member, each, emptied_status, report_of};
ghost use Rattle.dav_engine.specs.Walked.{Walks};
ghost use Rattle.dav_engine.specs.WalkView.{below, entry_view};

use crate::depth::Reach;
use crate::folder::{child, names_fit};
use crate::reply::multistatus::MultiError;
use dav_core::davpath::DavPath;
use dav_core::errors::{FsError, NoMemory};
use dav_core::fs::{DavDirEntry, DavFileSystem, ReadDirMeta};
use http::StatusCode;
use std::alloc::Global;

// Adds a path with its status to the collector.
pub(crate) fn report(
    path: &DavPath,
    status: StatusCode,
    errors: &mut MultiError,
) -> Result<(), NoMemory>
    ensures ok { OnOk result (errors.new ≡ errors.old ++ (path.now, status) ∷ []) }
    ensures err { OnErr result (errors.new ≡ errors.old) }
{
    errors.add_status(path, status)
}

// The status of an error of the store.
pub(crate) fn status_of(error: FsError) -> StatusCode
    ensures { result ≡ fs_status error }
{
    error.into()
}

// The status of a folder that isn't removed though its members are.
fn status_emptied(error: FsError) -> StatusCode
    ensures { result ≡ emptied_status error }
{
    match error {
        FsError::Exists => StatusCode::CONFLICT,
        other => status_of(other),
    }
}

// Removes what is at a path, which is a folder or not, with everything below it. Whether nothing stays.
#[cycle(removal)]
fn remove_one<F: DavFileSystem>(
    fs: &mut F,
    alloc: Global,
    path: &DavPath,
    dir: bool,
    now: u64,
    errors: &mut MultiError,
) -> Result<bool, NoMemory>
    requires moment { now ≤ last_moment }
    requires path { path.now.bytes ≢ star }
    ensures { Walks report_of is_empty (remove (room_at path.now) now path.now dir)
        (F.state fs.old) errors.old errors.new result (F.state fs.new) }
{
    if !dir {
        return match fs.remove_file(path, now) {
            Ok(()) => Ok(true),
            Err(e) => {
                report(path, status_of(e), errors)?;
                Ok(false)
            }
        };
    }
    names_fit(path);
    let entries = match fs.read_dir(alloc, path, ReadDirMeta::DataSymlink) {
        Ok(entries) => entries,
        Err(e) => {
            report(path, status_of(e), errors)?;
            return Ok(false);
        }
    };
    if !remove_each(fs, alloc, path, &entries, now, errors)? {
        return Ok(false);
    }
    match fs.remove_dir(path, now) {
        Ok(()) => Ok(true),
        Err(e) => {
            report(path, status_emptied(e), errors)?;
            Ok(false)
        }
    }
}

// Removes the members of a folder. Whether nothing stays.
#[cycle(removal)]
fn remove_each<F: DavFileSystem>(
    fs: &mut F,
    alloc: Global,
    path: &DavPath,
    entries: &[F::Entry],
    now: u64,
    errors: &mut MultiError,
) -> Result<bool, NoMemory>
    requires moment { now ≤ last_moment }
    requires path { path.now.bytes ≢ star }
    requires folder { All (λ e. F.Entry.entry_folder e ≡ names path.now) entries.now }
    ensures { Walks report_of is_empty (each (remove_member (below now path.now) path.now)
        (map (entry_view F.Entry.entry_name F.Entry.entry_dir) entries.now))
        (F.state fs.old) errors.old errors.new result (F.state fs.new) }
{
    let mut clean = true;
    for entry in entries {
        let inside = remove_entry(fs, alloc, path, entry, now, errors)?;
        clean = clean && inside;
    }
    Ok(clean)
}

// Removes a member of a folder, by its metadata. Whether nothing stays.
#[cycle(removal)]
fn remove_entry<F: DavFileSystem>(
    fs: &mut F,
    alloc: Global,
    path: &DavPath,
    entry: &F::Entry,
    now: u64,
    errors: &mut MultiError,
) -> Result<bool, NoMemory>
    requires moment { now ≤ last_moment }
    requires path { path.now.bytes ≢ star }
    requires folder { F.Entry.entry_folder entry.now ≡ names path.now }
    ensures { Walks report_of is_empty (remove_member (below now path.now) path.now
        (entry_view F.Entry.entry_name F.Entry.entry_dir entry.now))
        (F.state fs.old) errors.old errors.new result (F.state fs.new) }
{
    let meta = match fs.entry_metadata(entry) {
        Ok(meta) => meta,
        Err(e) => {
            report(path, status_of(e), errors)?;
            return Ok(false);
        }
    };
    names_fit(path);
    let child = child(path, entry.name(), meta.dir)?;
    remove_one(fs, alloc, &child, meta.dir, now, errors)
}

/// Removes what is at a path, which is a folder or not, alone or with everything below it; it goes on where the
/// store refuses a call (RFC 4918, section 9.6.1). Whether nothing stays: what does is added to the collector.
pub fn removal<F: DavFileSystem>(
    fs: &mut F,
    alloc: Global,
    reach: Reach,
    path: &DavPath,
    dir: bool,
    now: u64,
    errors: &mut MultiError,
) -> Result<bool, NoMemory>
    requires moment { now ≤ last_moment }
    requires path { path.now.bytes ≢ star }
    ensures { Walks report_of is_empty (removal (reaches_below reach) now path.now dir)
        (F.state fs.old) errors.old errors.new result (F.state fs.new) }
{
    if reach.reaches_below() {
        return remove_one(fs, alloc, path, dir, now, errors);
    }
    if !dir {
        return remove_one(fs, alloc, path, false, now, errors);
    }
    match fs.remove_dir(path, now) {
        Ok(()) => Ok(true),
        Err(e) => {
            report(path, status_of(e), errors)?;
            Ok(false)
        }
    }
}
