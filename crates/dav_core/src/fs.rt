//! What a file store is, for its callers (RFC 4918, section 5).
ghost use Rattle.std.specs.Prelude.{◌≡◌, ◌==◌, Bool, true, false, not, IfOk, string_bytes};
ghost use Rattle.std.specs.Option.{option_map};
ghost use Rattle.std.specs.Result.{IsErrOf};
ghost use Rattle.dav_core.specs.Metadata.{tag_of, opening_of, no_opening};

#[cfg(test)]
mod tests;

use crate::davpath::DavPath;
pub use crate::davprop::DavProp;
use crate::element::Element;
use crate::errors::{FsError, FsResult, NoMemory};
use bytes::{Buf, Bytes};
use http::StatusCode;
use std::alloc::Global;
use std::io::SeekFrom;

/// What a store reports of a file or folder.
#[derive(Clone, Copy, Debug)]
pub struct DavMetaData {
    /// How many bytes the file has; 0 for a folder.
    pub len: u64,
    /// Whether it is a folder.
    pub dir: bool,
    /// When it was created, in seconds since 1970.
    pub created: u64,
    /// When it was last changed, in seconds since 1970.
    pub modified: u64,
    /// The last change number that it took, where the store counts changes.
    pub number: Option<u64>,
}

impl DavMetaData {
    /// The entity tag (RFC 9110, section 8.8.3): the number in lower-case hexadecimal, in quotes. `None` without a
    /// number.
    pub fn tag(&self, alloc: Global) -> Result<Option<String>, NoMemory>
        ensures { IfOk result (λ tag. option_map string_bytes tag
            ≡ option_map tag_of self.now.number) }
    {
        let Some(number) = self.number else {
            return Ok(None);
        };
        Ok(Some(format!(in alloc; "\"{number:x}\"")?))
    }

    /// When it was last read: no store keeps this, so it is always `NotImplemented`.
    pub fn accessed(&self) -> FsResult<u64>
        ensures { IsErrOf result FsError.NotImplemented }
    {
        Err(FsError::NotImplemented)
    }

    /// When its description was last changed: no store keeps this, so it is always `NotImplemented`.
    pub fn status_changed(&self) -> FsResult<u64>
        ensures { IsErrOf result FsError.NotImplemented }
    {
        Err(FsError::NotImplemented)
    }

    /// Whether it may be run: no store keeps this, so it is always `NotImplemented`.
    pub fn executable(&self) -> FsResult<bool>
        ensures { IsErrOf result FsError.NotImplemented }
    {
        Err(FsError::NotImplemented)
    }

    /// Whether it is a folder.
    pub fn is_dir(&self) -> bool
        ensures { result ≡ self.now.dir }
    {
        self.dir
    }

    /// Whether it is a file.
    pub fn is_file(&self) -> bool
        ensures { result ≡ not self.now.dir }
    {
        !self.dir
    }

    /// Whether it is a symbolic link: never.
    pub fn is_symlink(&self) -> bool
        ensures { result ≡ false }
    {
        false
    }

    /// Whether it has no bytes.
    pub fn is_empty(&self) -> bool
        ensures { result ≡ (self.now.len == 0) }
    {
        self.len == 0
    }
}

/// How a file is to be opened. By default no option is set.
#[derive(Clone, Debug, Default, Drop)]
pub struct OpenOptions {
    /// For reading.
    pub read: bool,
    /// For writing, at the current position.
    pub write: bool,
    /// For writing, always at the end.
    pub append: bool,
    /// A file that is there is emptied.
    pub truncate: bool,
    /// A file is made where nothing is there.
    pub create: bool,
    /// A file is made, and nothing may be there.
    pub create_new: bool,
    /// How many bytes will be written, where that is known.
    pub size: Option<u64>,
    /// The checksum that the caller has of them.
    pub checksum: Option<String>,
}

impl OpenOptions {
    /// For reading alone.
    pub fn read() -> OpenOptions
        ensures { opening_of result ≡ record no_opening { read = true } }
    {
        OpenOptions {
            read: true,
            ..OpenOptions::default()
        }
    }

    /// For writing alone.
    pub fn write() -> OpenOptions
        ensures { opening_of result ≡ record no_opening { write = true } }
    {
        OpenOptions {
            write: true,
            ..OpenOptions::default()
        }
    }
}

/// What a caller wants to know of the entries of a listing. It has no effect here.
#[derive(Clone, Copy, Debug)]
pub enum ReadDirMeta {
    /// What they are.
    Data,
    /// What they are, and of a symbolic link what that is.
    DataSymlink,
    /// Nothing.
    None,
}

/// An entry of a listing. What it reports needs no further call of the store.
pub trait DavDirEntry: Drop {
    ghost use Rattle.std.specs.Prelude.{◌≡◌, ℕ, Bool, false, not, List};
    ghost use Rattle.dav_core.specs.Path.{Path, IsSegment};

    /// The folder that was listed.
    ghost entry_folder: { Self → Path };

    /// The name in it.
    ghost entry_name: { Self → List ℕ };

    /// Whether a folder was there.
    ghost entry_dir: { Self → Bool };

    /// The name; it isn't empty and holds no slash.
    fn name(&self) -> &[u8]
        ensures value { result.now ≡ entry_name self.now }
        ensures segment { IsSegment result.now };

    /// Whether it was a folder.
    fn is_dir(&self) -> bool
        ensures { result ≡ entry_dir self.now };

    /// Whether it was a file.
    fn is_file(&self) -> bool
        ensures { result ≡ not (entry_dir self.now) }
    {
        !self.is_dir()
    }

    /// Whether it was a symbolic link: never.
    fn is_symlink(&self) -> bool
        ensures { result ≡ false }
    {
        false
    }
}

/// A store of files and folders, which may refuse any call.
///
/// What a store holds is a map from paths to folders and files, with the number that the next change takes. Each call is
/// answered by what it means (`specs/Calls.antt`), unless the store refuses it: then nothing of the map changes. A call that
/// allocates answers `InsufficientStorage` where that fails, after all refusals that its docstring names, and `was_short` is true from
/// then on. Moments are in seconds since 1970, and one that is stored is at most 253402300799, the end of the year 9999.
pub trait DavFileSystem {
    ghost use Rattle.std.specs.Prelude.{◌≡◌, ◌≤◌, ◌∷◌, [], ◌++◌, ℕ, Bool, true, false, List, All, map, Option, Result, Ok, Err, IfOk, OnErr};
    ghost use Rattle.std.specs.Result.{result_unwrap_or};
    ghost use Rattle.dav_core.specs.declared.errors.FsError.{FsError as Refusal};
    ghost use Rattle.dav_core.specs.Path.{names};
    ghost use Rattle.dav_core.specs.World.{last_moment};
    ghost use Rattle.dav_core.specs.Property.{property_key, patch_of};
    ghost use Rattle.dav_core.specs.Handle.{Handle};
    ghost use Rattle.dav_core.specs.Asking.{Asks, StoreState, seen, Metadata, ReadDir, EntryMetadata, CreateDir, RemoveDir, RemoveFile, Rename, Copy, HaveProps, PatchProps, GetProps, GetProp, GetQuota, SetAccessed, SetModified, Open, Read, Write, Seek, Flush, FileMetadata};

    /// An open file. It refers to the same file through renames, until that file is removed, or another one is renamed onto its path.
    type File: Drop;

    /// An entry of a listing.
    type Entry: DavDirEntry;

    /// What the store holds, which calls it will refuse, and whether it ever ran out of memory.
    ghost state: { Self → StoreState };

    /// An open file as contracts see it.
    ghost handle: { Self.File → Handle };

    /// Opens a file, with the position at 0; where it appends, each write goes to the end. `Forbidden` for a folder; `Exists`
    /// where nothing may be there; `NotFound` where nothing is there and no file is to be made, or its folder is missing;
    /// `GeneralFailure` where a change is to be made and no change number is left.
    fn open(
        &mut self,
        alloc: Global,
        path: &DavPath,
        options: &OpenOptions,
        now: u64,
    ) -> FsResult<Self::File>
        requires { now ≤ last_moment }
        ensures { Asks (Open (names path.now) (opening_of options.now) now) (state self.old)
            (seen handle result) (state self.new) };

    /// Lists a folder, in the order of the names' bytes. `NotFound`; `Forbidden` for a file.
    fn read_dir(
        &mut self,
        alloc: Global,
        path: &DavPath,
        meta: ReadDirMeta,
    ) -> FsResult<Vec<Self::Entry>>
        ensures asks { Asks (ReadDir (names path.now)) (state self.old)
            (seen (λ entries. map
            (λ e. (Self.Entry.entry_name e, Self.Entry.entry_dir e)) entries.items) result)
            (state self.new) }
        ensures folder { IfOk result
            (λ entries. All (λ e. Self.Entry.entry_folder e ≡ names path.now) entries.items) };

    /// The metadata of what is now where an entry was. `NotFound` where nothing is.
    fn entry_metadata(&mut self, entry: &Self::Entry) -> FsResult<DavMetaData>
        ensures asks { Asks (EntryMetadata
            (Self.Entry.entry_folder entry.now ++ Self.Entry.entry_name entry.now ∷ []))
            (state self.old) result (state self.new) }
        ensures times { IfOk result (λ m. (m.created ≤ last_moment) × (m.modified ≤ last_moment)) };

    /// The metadata of what is at a path. `NotFound` where nothing is.
    fn metadata(&mut self, path: &DavPath) -> FsResult<DavMetaData>
        ensures asks { Asks (Metadata (names path.now)) (state self.old) result (state self.new) }
        ensures times { IfOk result (λ m. (m.created ≤ last_moment) × (m.modified ≤ last_moment)) };

    /// The same, of a symbolic link itself; there are none.
    fn symlink_metadata(&mut self, path: &DavPath) -> FsResult<DavMetaData>
        ensures asks { Asks (Metadata (names path.now)) (state self.old) result (state self.new) }
        ensures times { IfOk result (λ m. (m.created ≤ last_moment) × (m.modified ≤ last_moment)) }
    {
        self.metadata(path)
    }

    /// Makes a folder. `Exists` where something is; `NotFound` without a folder above; `GeneralFailure` where no
    /// change number is left.
    fn create_dir(&mut self, alloc: Global, path: &DavPath, now: u64) -> FsResult<()>
        requires { now ≤ last_moment }
        ensures { Asks (CreateDir (names path.now) now) (state self.old) result (state self.new) };

    /// Removes a folder without members. `Forbidden` for the root; `NotFound`; `Forbidden` for a file; `Exists` where it
    /// has members.
    fn remove_dir(&mut self, path: &DavPath, now: u64) -> FsResult<()>
        requires { now ≤ last_moment }
        ensures { Asks (RemoveDir (names path.now) now) (state self.old) result (state self.new) };

    /// Removes a file. `NotFound`; `Forbidden` for a folder.
    fn remove_file(&mut self, path: &DavPath, now: u64) -> FsResult<()>
        requires { now ≤ last_moment }
        ensures { Asks (RemoveFile (names path.now) now) (state self.old) result (state self.new) };

    /// Moves what is at a path, with everything below it, to another path, in the place of what is there. `Forbidden`
    /// from or to the root; `NotFound`; nothing changes where both are one path; `Forbidden` to a path below itself;
    /// `NotFound` without a folder above; `Exists` onto a folder with members.
    fn rename(&mut self, alloc: Global, from: &DavPath, to: &DavPath, now: u64) -> FsResult<()>
        requires { now ≤ last_moment }
        ensures { Asks (Rename (names from.now) (names to.now) now) (state self.old) result
            (state self.new) };

    /// Copies the bytes and dead properties of a file. `NotFound`; `Forbidden` for a folder, onto itself, and onto a
    /// folder; `NotFound` without a folder above; `GeneralFailure` where no change number is left.
    fn copy(&mut self, alloc: Global, from: &DavPath, to: &DavPath, now: u64) -> FsResult<()>
        requires { now ≤ last_moment }
        ensures { Asks (Copy (names from.now) (names to.now) now) (state self.old) result
            (state self.new) };

    /// Whether the store has dead properties (RFC 4918, section 4); false where it refuses the call.
    fn have_props(&mut self, path: &DavPath) -> bool
        ensures { (answer : Result Bool Refusal)
            × Asks (HaveProps (names path.now)) (state self.old) answer (state self.new)
            × (result ≡ result_unwrap_or answer false) };

    /// Sets properties (`true`) and removes properties (`false`), in their order (RFC 4918, section 9.2). Each is answered
    /// 200, with its name, prefix and namespace and without its element. No namespace and an empty one are the same.
    /// `NotFound` where nothing is at the path.
    fn patch_props(
        &mut self,
        alloc: Global,
        path: &DavPath,
        patches: Vec<(bool, DavProp)>,
    ) -> FsResult<Vec<(StatusCode, DavProp)>>
        ensures { Asks (PatchProps (names path.now) (map patch_of patches.items)) (state self.old)
            (seen (λ answers. answers.items) result) (state self.new) };

    /// The properties in order of namespace and name, with their elements or without. `NotFound` where nothing is at the
    /// path.
    fn get_props(&mut self, alloc: Global, path: &DavPath, content: bool) -> FsResult<Vec<DavProp>>
        ensures { Asks (GetProps (names path.now) content) (state self.old)
            (seen (λ properties. properties.items) result) (state self.new) };

    /// The element of the property of this namespace and name. `NotFound` where nothing is at the path, where it has no
    /// such property, and where that was stored without an element.
    fn get_prop(&mut self, alloc: Global, path: &DavPath, property: &DavProp) -> FsResult<Element>
        ensures { Asks (GetProp (names path.now) (property_key property.now))
            (state self.old) result (state self.new) };

    /// How many bytes are used, and how many there are in all, where that is known (RFC 4331, section 3):
    /// `NotImplemented`.
    fn get_quota(&mut self) -> FsResult<(u64, Option<u64>)>
        ensures { Asks GetQuota (state self.old) result (state self.new) };

    /// Sets when something was last read: `NotImplemented`.
    fn set_accessed(&mut self, path: &DavPath, time: u64) -> FsResult<()>
        ensures { Asks (SetAccessed (names path.now) time) (state self.old) result
            (state self.new) };

    /// Sets when something was last changed: `NotImplemented`.
    fn set_modified(&mut self, path: &DavPath, time: u64) -> FsResult<()>
        ensures { Asks (SetModified (names path.now) time) (state self.old) result
            (state self.new) };

    /// Reads at most `count` bytes, fewer only at the end. `NotFound` where the file was removed; `Forbidden` where it
    /// isn't open for reading.
    fn read_bytes(&mut self, alloc: Global, file: &mut Self::File, count: usize) -> FsResult<Bytes>
        ensures asks { Asks (Read (handle file.old) count) (state self.old)
            (seen (λ bytes. (bytes, handle file.new)) result) (state self.new) }
        ensures err { OnErr result (handle file.new ≡ handle file.old) };

    /// Writes bytes. `NotFound` where the file was removed; `Forbidden` where it isn't open for writing; `TooLarge` where
    /// they would end past 2,147,483,647 bytes; `GeneralFailure` where there are any and no change number is left.
    fn write_bytes(
        &mut self,
        alloc: Global,
        file: &mut Self::File,
        bytes: Bytes,
        now: u64,
    ) -> FsResult<()>
        requires { now ≤ last_moment }
        ensures asks { Asks (Write (handle file.old) bytes now) (state self.old)
            (seen (λ _. handle file.new) result) (state self.new) }
        ensures err { OnErr result (handle file.new ≡ handle file.old) };

    /// The same with the bytes that a buffer has left.
    fn write_buf<B: Buf + Drop>(
        &mut self,
        alloc: Global,
        file: &mut Self::File,
        buf: B,
        now: u64,
    ) -> FsResult<()>
        requires { now ≤ last_moment }
        ensures asks { Asks (Write (handle file.old) (B.unread buf) now) (state self.old)
            (seen (λ _. handle file.new) result) (state self.new) }
        ensures err { OnErr result (handle file.new ≡ handle file.old) };

    /// Moves the position of the next read or write, and answers the new one. `NotFound` where the file was removed;
    /// `GeneralFailure` before 0 or past 2^64 - 1.
    fn seek(&mut self, file: &mut Self::File, to: SeekFrom) -> FsResult<u64>
        ensures asks { Asks (Seek (handle file.old) to) (state self.old)
            (seen (λ place. (place, handle file.new)) result) (state self.new) }
        ensures err { OnErr result (handle file.new ≡ handle file.old) };

    /// Makes sure that everything that was written is kept. `NotFound` where the file was removed.
    fn flush(&mut self, file: &mut Self::File) -> FsResult<()>
        ensures asks { Asks (Flush (handle file.old)) (state self.old) result (state self.new) }
        ensures same { handle file.new ≡ handle file.old };

    /// The metadata of the file. `NotFound` where it was removed.
    fn file_metadata(&mut self, file: &Self::File) -> FsResult<DavMetaData>
        ensures asks { Asks (FileMetadata (handle file.now)) (state self.old) result
            (state self.new) }
        ensures times { IfOk result (λ m. (m.created ≤ last_moment) × (m.modified ≤ last_moment)) };

    /// Whether the store ever ran out of memory. This makes no call of the store.
    fn was_short(&self) -> bool
        ensures { result ≡ (state self.now).short };
}
