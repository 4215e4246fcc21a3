//! What is told of the members of a folder, and of what is below them (RFC 4918, section 9.1).
ghost use Rattle.std.specs.Prelude.{◌≡◌, ◌≢◌, map, All};
ghost use Rattle.dav_core.specs.Path.{names, star};
ghost use Rattle.dav_engine.specs.ConditionView.{locks_in};
ghost use Rattle.dav_engine.specs.FindView.{told_below, told_entry};
ghost use Rattle.dav_engine.specs.Folder.{room_at};
ghost use Rattle.dav_engine.specs.Follows.{as_is};
ghost use Rattle.dav_engine.specs.Propfind.{tell_below, tell_members};
ghost use Rattle.dav_engine.specs.Reach.{reaches_below};
ghost use Rattle.dav_engine.specs.WalkView.{entry_view};
ghost use Rattle.dav_engine.specs.ResponseWriter.{hands_on, Tells};

use crate::depth::Reach;
use crate::folder::{child, names_fit};
use crate::properties::live::Resource;
use crate::properties::response_writer::ResponseWriter;
use crate::properties::takes::Takes;
use dav_core::davpath::DavPath;
use dav_core::errors::NoMemory;
use dav_core::fs::{DavDirEntry, DavFileSystem, ReadDirMeta};
use dav_core::ls::DavLockSystem;
use std::alloc::Global;

/// Hands the responses on for what is below a path, where that is wanted: for each member of the folder alone, or with everything
/// below the member after it. What the store refuses to list or to tell of is passed over.
#[cycle(members)]
pub fn tell_below<F: DavFileSystem, L: DavLockSystem, T: Takes>(
    fs: &mut F,
    ls: Option<&L>,
    alloc: Global,
    reach: Reach,
    writer: &mut ResponseWriter<T>,
    path: &DavPath,
    wanted: bool,
) -> Result<(), NoMemory>
    requires path { path.now.bytes ≢ star }
    ensures { Tells (locks_in L.locks ls.entry) (hands_on T.taken) as_is
        (tell_below (reaches_below reach) (room_at path.now) writer.old.writer path.now wanted)
        writer.old (λ _. writer.new) (F.state fs.old) result (F.state fs.new) }
{
    if !wanted {
        return Ok(());
    }
    names_fit(path);
    match fs.read_dir(alloc, path, ReadDirMeta::DataSymlink) {
        Ok(entries) => tell_members(fs, ls, alloc, reach, writer, path, &entries),
        Err(_) => Ok(()),
    }
}

// Hands the responses on for the members of a folder.
#[cycle(members)]
fn tell_members<F: DavFileSystem, L: DavLockSystem, T: Takes>(
    fs: &mut F,
    ls: Option<&L>,
    alloc: Global,
    reach: Reach,
    writer: &mut ResponseWriter<T>,
    path: &DavPath,
    entries: &[F::Entry],
) -> Result<(), NoMemory>
    requires path { path.now.bytes ≢ star }
    requires folder { All (λ e. F.Entry.entry_folder e ≡ names path.now) entries.now }
    ensures { Tells (locks_in L.locks ls.entry) (hands_on T.taken) as_is
        (λ known. tell_members (told_below (reaches_below reach) path.now writer.old.writer)
        writer.old.writer path.now known
        (map (entry_view F.Entry.entry_name F.Entry.entry_dir) entries.now))
        writer.old (λ _. writer.new) (F.state fs.old) result (F.state fs.new) }
{
    for entry in entries {
        tell_entry(fs, ls, alloc, reach, writer, path, entry)?;
    }
    Ok(())
}

// Hands the responses on for a member of a folder, and for what is below it.
#[cycle(members)]
fn tell_entry<F: DavFileSystem, L: DavLockSystem, T: Takes>(
    fs: &mut F,
    ls: Option<&L>,
    alloc: Global,
    reach: Reach,
    writer: &mut ResponseWriter<T>,
    path: &DavPath,
    entry: &F::Entry,
) -> Result<(), NoMemory>
    requires path { path.now.bytes ≢ star }
    requires folder { F.Entry.entry_folder entry.now ≡ names path.now }
    ensures { Tells (locks_in L.locks ls.entry) (hands_on T.taken) as_is
        (told_entry (reaches_below reach) path.now
        writer.old.writer (F.Entry.entry_name entry.now))
        writer.old (λ _. writer.new) (F.state fs.old) result (F.state fs.new) }
{
    let Ok(meta) = fs.entry_metadata(entry) else {
        return Ok(());
    };
    names_fit(path);
    let child = child(path, entry.name(), meta.dir)?;
    let member = Resource {
        path: &child,
        meta: &meta,
    };
    writer.tell(alloc, fs, ls, member)?;
    let wanted = meta.dir && reach.reaches_below();
    tell_below(fs, ls, alloc, reach, writer, &child, wanted)
}
