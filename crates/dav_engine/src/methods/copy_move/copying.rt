//! The copy of what is at a path and below it to another path (RFC 4918, section 9.8.3), and its move (section 9.9).
ghost use Rattle.std.specs.Prelude.{◌≡◌, ◌≢◌, ◌≤◌, ◌↔◌, ◌++◌, ◌∷◌, [], map, All, IsTrue, IfOk, OnErr, true, Some, Err};
ghost use Rattle.dav_core.specs.declared.errors.FsError.{FsError as Refusal};
ghost use Rattle.dav_core.specs.declared.errors.FsError.TheVariants as fs;
ghost use Rattle.dav_core.specs.Asking.{Asks, Rename};
ghost use Rattle.dav_core.specs.World.{last_moment};
ghost use Rattle.dav_core.specs.Path.{names, star};
ghost use Rattle.dav_engine.specs.Copying.{copy_report, last_refusal, copy_folder, copy_members};
ghost use Rattle.dav_engine.specs.Copying as spec;
ghost use Rattle.dav_engine.specs.CopyView.{copy_below};
ghost use Rattle.dav_engine.specs.Folder.{child_of};
ghost use Rattle.dav_engine.specs.Reach.{reaches_below};
ghost use Rattle.dav_engine.specs.Walked.{Walked, Walks};
ghost use Rattle.dav_engine.specs.WalkView.{entry_view};

use crate::depth::Reach;
use crate::folder::{child, names_fit};
use crate::methods::delete::removal::{report, status_of};
use crate::reply::multistatus::MultiError;
use dav_core::davpath::DavPath;
use dav_core::errors::{FsError, NoMemory};
use dav_core::fs::{DavDirEntry, DavFileSystem, ReadDirMeta};
use std::alloc::Global;

/// What is copied where: a whole copy, or the part of one that is at a path and below it.
#[derive(Clone, Copy)]
pub struct CopyJob<'a> {
    /// Where the whole copy goes. That isn't copied itself, so a folder can be copied to a path below it.
    pub top: &'a DavPath,
    /// What is copied.
    pub source: &'a DavPath,
    /// Where it is copied to.
    pub destination: &'a DavPath,
    /// Whether the source is copied alone, or with everything below it.
    pub reach: Reach,
    /// When it is copied, in seconds since 1970.
    pub moment: u64,
}

// Adds a path that wasn't copied to the collector, and returns why.
fn refused(
    path: &DavPath,
    error: FsError,
    errors: &mut MultiError,
) -> Result<Option<FsError>, NoMemory>
    ensures ok { IfOk result (λ last. (last ≡ Some error)
        × (errors.new ≡ errors.old ++ copy_report (path.now, error) ∷ [])) }
    ensures err { OnErr result (errors.new ≡ errors.old) }
{
    report(path, status_of(error), errors)?;
    Ok(Some(error))
}

// Copies a file. Why it isn't copied, where that is so.
fn copy_file<F: DavFileSystem>(
    fs: &mut F,
    alloc: Global,
    job: &CopyJob<'_>,
    errors: &mut MultiError,
) -> Result<Option<FsError>, NoMemory>
    requires moment { job.now.moment ≤ last_moment }
    ensures { Walks copy_report last_refusal
        (spec.copy_file job.now.moment job.now.source.now job.now.destination.now)
        (F.state fs.old) errors.old errors.new result (F.state fs.new) }
{
    match fs.copy(alloc, job.source, job.destination, job.moment) {
        Ok(()) => Ok(None),
        Err(e) => refused(job.source, e, errors),
    }
}

// Whether the refusal is that something is there already.
fn is_there(error: FsError) -> bool
    ensures { IsTrue result ↔ (error ≡ fs.Exists) }
{
    matches!(error, FsError::Exists)
}

// Copies a folder without what is in it.
fn copy_alone<F: DavFileSystem>(
    fs: &mut F,
    alloc: Global,
    destination: &DavPath,
    moment: u64,
    errors: &mut MultiError,
) -> Result<Option<FsError>, NoMemory>
    requires moment { moment ≤ last_moment }
    ensures { Walks copy_report last_refusal (spec.copy_alone moment destination.now)
        (F.state fs.old) errors.old errors.new result (F.state fs.new) }
{
    match fs.create_dir(alloc, destination, moment) {
        Ok(()) => Ok(None),
        Err(e) => {
            if is_there(e) {
                return Ok(None);
            }
            refused(destination, e, errors)
        }
    }
}

// Copies what is at a path, with everything below it or alone. Why the last of what isn't copied isn't.
#[cycle(copying)]
fn copy_one<F: DavFileSystem>(
    fs: &mut F,
    alloc: Global,
    job: &CopyJob<'_>,
    errors: &mut MultiError,
) -> Result<Option<FsError>, NoMemory>
    requires moment { job.now.moment ≤ last_moment }
    requires path { job.now.source.now.bytes ≢ star }
    ensures { Walks copy_report last_refusal (spec.copying
        (reaches_below job.now.reach) job.now.moment
        job.now.top.now job.now.source.now job.now.destination.now)
        (F.state fs.old) errors.old errors.new result (F.state fs.new) }
{
    names_fit(job.source);
    if job.source == job.top {
        return Ok(None);
    }
    let meta = match fs.metadata(job.source) {
        Ok(meta) => meta,
        Err(e) => return refused(job.source, e, errors),
    };
    if !meta.dir {
        return copy_file(fs, alloc, job, errors);
    }
    if !job.reach.reaches_below() {
        return copy_alone(fs, alloc, job.destination, job.moment, errors);
    }
    copy_folder(fs, alloc, job, errors)
}

// Copies a folder with everything that is in it.
#[cycle(copying)]
fn copy_folder<F: DavFileSystem>(
    fs: &mut F,
    alloc: Global,
    job: &CopyJob<'_>,
    errors: &mut MultiError,
) -> Result<Option<FsError>, NoMemory>
    requires moment { job.now.moment ≤ last_moment }
    requires path { job.now.source.now.bytes ≢ star }
    ensures { Walks copy_report last_refusal
        (copy_folder true (copy_below job.now.moment job.now.top.now job.now.source.now)
        job.now.moment job.now.source.now job.now.destination.now)
        (F.state fs.old) errors.old errors.new result (F.state fs.new) }
{
    match fs.create_dir(alloc, job.destination, job.moment) {
        Ok(()) => {}
        Err(e) => return refused(job.destination, e, errors),
    }
    match fs.read_dir(alloc, job.source, ReadDirMeta::DataSymlink) {
        Ok(entries) => copy_each(fs, alloc, job, &entries, errors),
        Err(e) => refused(job.source, e, errors),
    }
}

// Copies the members of a folder, up to one that the store doesn't report.
#[cycle(copying)]
fn copy_each<F: DavFileSystem>(
    fs: &mut F,
    alloc: Global,
    job: &CopyJob<'_>,
    entries: &[F::Entry],
    errors: &mut MultiError,
) -> Result<Option<FsError>, NoMemory>
    requires moment { job.now.moment ≤ last_moment }
    requires path { job.now.source.now.bytes ≢ star }
    requires folder { All (λ e. F.Entry.entry_folder e ≡ names job.now.source.now) entries.now }
    ensures { Walks copy_report last_refusal
        (copy_members (copy_below job.now.moment job.now.top.now job.now.source.now)
        job.now.source.now job.now.destination.now
        (map (entry_view F.Entry.entry_name F.Entry.entry_dir) entries.now))
        (F.state fs.old) errors.old errors.new result (F.state fs.new) }
{
    let mut last = None;
    for entry in entries {
        let meta = match fs.entry_metadata(entry) {
            Ok(meta) => meta,
            Err(e) => return refused(job.source, e, errors),
        };
        let inside = copy_entry(fs, alloc, job, entry, meta.dir, errors)?;
        last = inside.or(last);
    }
    Ok(last)
}

// Copies a member of a folder.
#[cycle(copying)]
fn copy_entry<F: DavFileSystem>(
    fs: &mut F,
    alloc: Global,
    job: &CopyJob<'_>,
    entry: &F::Entry,
    dir: bool,
    errors: &mut MultiError,
) -> Result<Option<FsError>, NoMemory>
    requires moment { job.now.moment ≤ last_moment }
    requires path { job.now.source.now.bytes ≢ star }
    ensures { Walks copy_report last_refusal
        (copy_below job.now.moment job.now.top.now job.now.source.now
        (child_of job.now.source.now (F.Entry.entry_name entry.now) dir)
        (child_of job.now.destination.now (F.Entry.entry_name entry.now) dir))
        (F.state fs.old) errors.old errors.new result (F.state fs.new) }
{
    names_fit(job.source);
    let name = entry.name();
    let from = child(job.source, name, dir)?;
    let to = child(job.destination, name, dir)?;
    let member = CopyJob {
        top: job.top,
        source: &from,
        destination: &to,
        reach: Reach::WithAllBelow,
        moment: job.moment,
    };
    copy_one(fs, alloc, &member, errors)
}

/// Copies what is at a path to another path, with everything below it or alone, as part of a whole copy (RFC 4918, section
/// 9.8.3); it goes on where the store refuses a call. Why the last of what isn't copied isn't: each is added to the collector.
pub fn copying<F: DavFileSystem>(
    fs: &mut F,
    alloc: Global,
    job: &CopyJob<'_>,
    errors: &mut MultiError,
) -> Result<Option<FsError>, NoMemory>
    requires moment { job.now.moment ≤ last_moment }
    requires path { job.now.source.now.bytes ≢ star }
    ensures { Walks copy_report last_refusal (spec.copying
        (reaches_below job.now.reach) job.now.moment
        job.now.top.now job.now.source.now job.now.destination.now)
        (F.state fs.old) errors.old errors.new result (F.state fs.new) }
{
    copy_one(fs, alloc, job, errors)
}

/// Moves what is at a path to another path, with everything below it.
pub fn renaming<F: DavFileSystem>(
    fs: &mut F,
    alloc: Global,
    source: &DavPath,
    destination: &DavPath,
    now: u64,
    errors: &mut MultiError,
) -> Result<Option<FsError>, NoMemory>
    requires moment { now ≤ last_moment }
    ensures ok { IfOk result (λ last. Walked copy_report last_refusal
        (spec.renaming now source.now destination.now)
        (F.state fs.old) errors.old errors.new last (F.state fs.new)) }
    ensures err { OnErr result (((e : Refusal)
        × Asks (Rename (names source.now) (names destination.now) now)
        (F.state fs.old) (Err e) (F.state fs.new)) × (errors.new ≡ errors.old)) }
{
    match fs.rename(alloc, source, destination, now) {
        Ok(()) => Ok(None),
        Err(e) => refused(source, e, errors),
    }
}
