//! A file store in memory (RFC 4918, section 5).
ghost use Rattle.std.specs.Prelude.{◌≡◌, ◌++◌, IfOk, OnOk, map};
ghost use Rattle.std.specs.List.{list_any};
ghost use Rattle.std.specs.Option.{is_some};
ghost use Rattle.dav_core.specs.Path.{names, is_nonempty, only_name, rest_after};
ghost use Rattle.dav_core.specs.World.{members};
ghost use Rattle.dav_core.specs.Handle.{place_for};
ghost use Rattle.dav_core.specs.Property.{patched, patch_of, without_xml, patched_property};

mod filesystem;
mod found;
mod loaded;
mod passing;
mod saved;
#[cfg(test)]
pub(crate) mod tests;
mod used;

use crate::entries::{self, Entries, changes, listing};
use crate::names::{Name, Names};
use crate::node::Node;
use crate::properties::Properties;
pub use crate::properties::tree_len;
use dav_core::davpath::DavPath;
use dav_core::errors::{FsError, FsResult, NoMemory};
use dav_core::fs::{DavProp, OpenOptions};
use http::StatusCode;
use std::alloc::Global;
use std::io::SeekFrom;
use std::marker::Model;
pub use used::{Amount, Stored};

/// The most bytes that a file can hold.
pub const MAX_FILE_LEN: u64 = 2_147_483_647;

/// Files and folders in memory.
///
/// A call that allocates answers `InsufficientStorage` where that fails, after all refusals that its docstring names. It changes nothing
/// then, and `was_short` is true from then on.
#[derive(Drop)]
pub struct MemFs {
    entries: Entries,
    next: u64,
    short: bool,
}

impl Model for MemFs {
    ghost use Rattle.dav_store.specs.Store.{Store};
    ghost use Rattle.dav_store.specs.StoreCode.{coded_store};
    ghost use Rattle.dav_store.specs.Makings.{IsNumbered};

    ghost Value = { Store };

    ghost coded = { coded_store };

    ghost view = { λ s. record { world = record { nodes = s.entries.nodes; next = s.next }; short = s.short } };

    ghost invariant = { λ s. IsNumbered s.next s.entries };
}

/// An independent copy: a change to one doesn't change the other.
impl Clone for MemFs {
    ghost use Rattle.std.specs.Prelude.{◌≡◌};

    ghost is_clone = { λ a b. a ≡ b };

    fn clone(&self) -> Result<MemFs, NoMemory> {
        Ok(MemFs {
            entries: self.entries.clone()?,
            next: self.next,
            short: self.short,
        })
    }
}

/// An open file: it refers to the file that was created under its change number.
#[derive(Drop)]
pub struct MemFile {
    made: u64,
    position: u64,
    reads: bool,
    writes: bool,
    appends: bool,
}

impl Model for MemFile {
    ghost use Rattle.dav_core.specs.Handle.{Handle};

    ghost Value = { Handle };

    ghost view = { λ f. record { made = f.made; position = f.position; reads = f.reads; writes = f.writes; appends = f.appends } };
}

impl MemFile {
    ghost use Rattle.std.specs.Prelude.{◌≡◌, ℕ, List, length};
    ghost use Rattle.dav_core.specs.Handle.{opened, write_place};
    ghost use Rattle.dav_core.specs.Metadata.{opening_of};

    // A file that was just opened.
    fn open(made: u64, options: &OpenOptions) -> MemFile
        ensures { result ≡ opened made (opening_of options.now) }
    {
        MemFile {
            made,
            position: 0,
            reads: options.read,
            writes: options.write || options.append,
            appends: options.append,
        }
    }

    // Where the next write begins in a file of this length.
    fn write_place(&self, len: usize) -> u64
        ensures { (bytes : List ℕ) → length bytes ≡ len → result ≡ write_place self.now bytes }
    {
        if self.appends {
            len as u64
        } else {
            self.position
        }
    }
}

// Where a seek goes, from a place in a file of this length; `None` before 0 or past 2^64 - 1.
fn place_for(to: SeekFrom, position: u64, len: u64) -> Option<u64>
    ensures { result ≡ place_for to position len }
{
    match to {
        SeekFrom::Start(place) => Some(place),
        SeekFrom::End(offset) => len.checked_add_signed(offset),
        SeekFrom::Current(offset) => position.checked_add_signed(offset),
    }
}

/// An entry of a listing.
#[derive(Drop)]
pub struct MemEntry {
    folder: Names,
    name: Name,
    dir: bool,
}

// The entries of a folder, in order.
fn list(alloc: Global, entries: &Entries, path: &DavPath) -> Result<Vec<MemEntry>, NoMemory>
    ensures members { IfOk result (λ list. map (λ e. (e.name, e.dir)) list.items
        ≡ members (names path.now) entries.now.nodes) }
    ensures folder { IfOk result
        (λ list. map (λ e. e.folder) list.items ≡ map (λ _. names path.now) list.items) }
{
    let members = listing::list(alloc, entries, path)?;
    let mut list = Vec::new(alloc);
    for (name, dir) in members {
        list.push(MemEntry {
            folder: Names::of(alloc, path)?,
            name,
            dir,
        })?;
    }
    Ok(list)
}

// The properties after these changes, in their order, and the answers to them.
fn properties_after(
    alloc: Global,
    properties: &Properties,
    patches: Vec<(bool, DavProp)>,
) -> Result<(Properties, Vec<(StatusCode, DavProp)>), NoMemory>
    ensures { IfOk result (λ r. (r.0 ≡ patched (map patch_of patches.items) properties.now)
        × (r.1.items ≡ map (λ patch. (200, without_xml (patched_property patch)))
        (map patch_of patches.items))) }
{
    properties.patched(alloc, patches)
}

impl MemFs {
    ghost use Rattle.std.specs.Prelude.{◌≡◌, ◌≤◌, ◌<◌, Ok, None, IfOk, OnErr, IfSome, IsSome, false, true, max, ℕ, List, length};
    ghost use Rattle.dav_core.specs.Path.{names, parent_of};
    ghost use Rattle.dav_core.specs.World.{empty_from, last_moment, last_number, node_at, is_folder, is_folder_kind, fresh, Node as Seen};
    ghost use Rattle.dav_core.specs.Calls.{with_copy, open_found, open_missing, write_bytes};
    ghost use Rattle.dav_core.specs.Metadata.{opening_of};
    ghost use Rattle.dav_core.specs.Asking.{seen};
    ghost use Rattle.dav_store.specs.Store.{Answers, AnswersExactly, refusal_in};

    /// The empty store: only the root, a folder of number 0, created and changed at moment 0.
    pub fn new(alloc: Global) -> Result<MemFs, NoMemory>
        ensures { IfOk result (λ s. s ≡ record { world = empty_from 1; short = false }) }
    {
        MemFs::new_at(alloc, 1)
    }

    /// The same, with the change number that the next change takes; 0 counts as 1.
    pub fn new_at(alloc: Global, next: u64) -> Result<MemFs, NoMemory>
        ensures { IfOk result (λ s. s ≡ record { world = empty_from (max next 1); short = false }) }
    {
        Ok(MemFs {
            entries: entries::of_root(alloc, Node::new_folder(alloc, 0, 0))?,
            next: next.max(1),
            short: false,
        })
    }

    // Puts a copy of a file at a path in a folder, where there is a file or nothing.
    fn put_copy(&mut self, alloc: Global, to: &DavPath, copy: Node, now: u64) -> FsResult<()>
        requires now { now ≤ last_moment }
        requires next { self.old.world.next < last_number }
        requires made { copy.made ≡ self.old.world.next }
        requires file { is_folder_kind copy.kind ≡ false }
        requires free { is_folder self.old.world (names to.now) ≡ false }
        requires folder { is_folder self.old.world (parent_of (names to.now)) ≡ true }
        ensures { (source : Seen) → copy
            ≡ record (fresh self.old.world.next source.kind now) { properties = source.properties }
            → Answers (Ok (
              tt,
              with_copy self.old.world (names to.now) source
                  (node_at self.old.world (names to.now)) now,
            )) result self.old self.new }
    {
        match entries::node_at(&self.entries, to) {
            Some(_) => {
                changes::copy_over(&mut self.entries, to, copy);
                self.next += 1;
                Ok(())
            }
            None => {
                if let Err(_) = changes::add_node(alloc, &mut self.entries, to, copy, now) {
                    self.short = true;
                    return Err(FsError::InsufficientStorage);
                }
                self.next += 1;
                Ok(())
            }
        }
    }

    // Opens what is at a path: a file, which is emptied if the options say so.
    fn open_found(&mut self, path: &DavPath, options: &OpenOptions, now: u64) -> FsResult<MemFile>
        requires now { now ≤ last_moment }
        requires found { IsSome (node_at self.old.world (names path.now)) }
        ensures { IfSome (node_at self.old.world (names path.now))
            (λ n. AnswersExactly
            (open_found self.old.world (names path.now) (opening_of options.now) now n) result
            self.old self.new) }
    {
        let Some(node) = entries::node_at(&self.entries, path) else {
            return Err(FsError::NotFound);
        };
        if node.is_folder() {
            return Err(FsError::Forbidden);
        }
        if options.create_new {
            return Err(FsError::Exists);
        }
        let file = MemFile::open(node.creation_number(), options);
        if !options.truncate {
            return Ok(file);
        }
        if self.next == u64::MAX {
            return Err(FsError::GeneralFailure);
        }
        changes::empty_at(&mut self.entries, path, self.next, now);
        self.next += 1;
        Ok(file)
    }

    // Opens a path where nothing is: creates an empty file if the options say so.
    fn open_missing(
        &mut self,
        alloc: Global,
        path: &DavPath,
        options: &OpenOptions,
        now: u64,
    ) -> FsResult<MemFile>
        requires now { now ≤ last_moment }
        requires missing { node_at self.old.world (names path.now) ≡ None }
        ensures { Answers (open_missing self.old.world (names path.now)
            (opening_of options.now) now) result self.old self.new }
    {
        if !options.create && !options.create_new {
            return Err(FsError::NotFound);
        }
        if !entries::has_folder(&self.entries, path) {
            return Err(FsError::NotFound);
        }
        if self.next == u64::MAX {
            return Err(FsError::GeneralFailure);
        }
        let node = Node::new_file(alloc, self.next, now);
        let made = self.next;
        if let Err(_) = changes::add_node(alloc, &mut self.entries, path, node, now) {
            self.short = true;
            return Err(FsError::InsufficientStorage);
        }
        self.next += 1;
        Ok(MemFile::open(made, options))
    }

    // Writes these bytes, as `write_bytes` does.
    fn write_chunk(
        &mut self,
        alloc: Global,
        file: &mut MemFile,
        chunk: &[u8],
        now: u64,
    ) -> FsResult<()>
        requires { now ≤ last_moment }
        ensures answers { Answers (write_bytes self.old.world file.old chunk.now now)
            (seen (λ _. file.new) result) self.old self.new }
        ensures err { OnErr result (file.new ≡ file.old) }
    {
        let Some(node) = entries::file_made_with(&self.entries, file.made) else {
            return Err(FsError::NotFound);
        };
        let place = file.write_place(node.bytes().len());
        if !file.writes {
            return Err(FsError::Forbidden);
        }
        if place.saturating_add(chunk.len() as u64) > MAX_FILE_LEN {
            return Err(FsError::TooLarge);
        }
        if chunk.is_empty() {
            return Ok(());
        }
        if self.next == u64::MAX {
            return Err(FsError::GeneralFailure);
        }
        let (made, number) = (file.made, self.next);
        if let Err(_) = changes::write_file_made_with(
            alloc,
            &mut self.entries,
            made,
            place as usize,
            chunk,
            number,
            now,
        ) {
            self.short = true;
            return Err(FsError::InsufficientStorage);
        }
        file.position = place + chunk.len() as u64;
        self.next += 1;
        Ok(())
    }

    // Why a write of so many bytes is refused; `None` where no rule refuses it.
    fn write_refusal(&self, file: &MemFile, len: usize) -> Option<FsError>
        ensures { (bytes : List ℕ) (now : ℕ) → length bytes ≡ len → result
            ≡ refusal_in (write_bytes self.now.world file.now bytes now) }
    {
        let Some(node) = entries::file_made_with(&self.entries, file.made) else {
            return Some(FsError::NotFound);
        };
        let place = file.write_place(node.bytes().len());
        if !file.writes {
            return Some(FsError::Forbidden);
        }
        if place.saturating_add(len as u64) > MAX_FILE_LEN {
            return Some(FsError::TooLarge);
        }
        if len > 0 && self.next == u64::MAX {
            return Some(FsError::GeneralFailure);
        }
        None
    }
}
