//! A store of one's own around another one.
ghost use Rattle.std.specs.Prelude.{◌≡◌};

use bytes::{Buf, Bytes};
use dav_core::davpath::DavPath;
use dav_core::element::Element;
use dav_core::errors::FsResult;
use dav_core::fs::{DavFileSystem, DavMetaData, DavProp, OpenOptions, ReadDirMeta};
use http::StatusCode;
use std::alloc::Global;
use std::io::SeekFrom;

/// A store that counts the calls which are made of it. What it holds, and what it answers, is the inner store's: so it meets the
/// contracts of `DavFileSystem` wherever that does.
#[derive(Drop)]
pub struct CountingStore<F> {
    inner: F,
    calls: u64,
}

impl<F: DavFileSystem> CountingStore<F> {
    /// A store around this one, of which no call was made.
    pub fn new(inner: F) -> CountingStore<F> {
        CountingStore { inner, calls: 0 }
    }

    /// How many calls were made.
    pub fn calls(&self) -> u64 {
        self.calls
    }

    // Counts a call.
    fn count(&mut self)
        ensures { self.new.inner ≡ self.old.inner }
    {
        self.calls = self.calls.saturating_add(1);
    }
}

impl<F: DavFileSystem> DavFileSystem for CountingStore<F> {
    type File = F::File;

    type Entry = F::Entry;

    ghost state = { λ r. F.state r.inner };

    ghost handle = { F.handle };

    fn open(
        &mut self,
        alloc: Global,
        path: &DavPath,
        options: &OpenOptions,
        now: u64,
    ) -> FsResult<F::File> {
        self.count();
        self.inner.open(alloc, path, options, now)
    }

    fn read_dir(
        &mut self,
        alloc: Global,
        path: &DavPath,
        meta: ReadDirMeta,
    ) -> FsResult<Vec<F::Entry>> {
        self.count();
        self.inner.read_dir(alloc, path, meta)
    }

    fn entry_metadata(&mut self, entry: &F::Entry) -> FsResult<DavMetaData> {
        self.count();
        self.inner.entry_metadata(entry)
    }

    fn metadata(&mut self, path: &DavPath) -> FsResult<DavMetaData> {
        self.count();
        self.inner.metadata(path)
    }

    fn symlink_metadata(&mut self, path: &DavPath) -> FsResult<DavMetaData> {
        self.count();
        self.inner.symlink_metadata(path)
    }

    fn create_dir(&mut self, alloc: Global, path: &DavPath, now: u64) -> FsResult<()> {
        self.count();
        self.inner.create_dir(alloc, path, now)
    }

    fn remove_dir(&mut self, path: &DavPath, now: u64) -> FsResult<()> {
        self.count();
        self.inner.remove_dir(path, now)
    }

    fn remove_file(&mut self, path: &DavPath, now: u64) -> FsResult<()> {
        self.count();
        self.inner.remove_file(path, now)
    }

    fn rename(&mut self, alloc: Global, from: &DavPath, to: &DavPath, now: u64) -> FsResult<()> {
        self.count();
        self.inner.rename(alloc, from, to, now)
    }

    fn copy(&mut self, alloc: Global, from: &DavPath, to: &DavPath, now: u64) -> FsResult<()> {
        self.count();
        self.inner.copy(alloc, from, to, now)
    }

    fn have_props(&mut self, path: &DavPath) -> bool {
        self.count();
        self.inner.have_props(path)
    }

    fn patch_props(
        &mut self,
        alloc: Global,
        path: &DavPath,
        patches: Vec<(bool, DavProp)>,
    ) -> FsResult<Vec<(StatusCode, DavProp)>> {
        self.count();
        self.inner.patch_props(alloc, path, patches)
    }

    fn get_props(
        &mut self,
        alloc: Global,
        path: &DavPath,
        content: bool,
    ) -> FsResult<Vec<DavProp>> {
        self.count();
        self.inner.get_props(alloc, path, content)
    }

    fn get_prop(&mut self, alloc: Global, path: &DavPath, property: &DavProp) -> FsResult<Element> {
        self.count();
        self.inner.get_prop(alloc, path, property)
    }

    fn get_quota(&mut self) -> FsResult<(u64, Option<u64>)> {
        self.count();
        self.inner.get_quota()
    }

    fn set_accessed(&mut self, path: &DavPath, time: u64) -> FsResult<()> {
        self.count();
        self.inner.set_accessed(path, time)
    }

    fn set_modified(&mut self, path: &DavPath, time: u64) -> FsResult<()> {
        self.count();
        self.inner.set_modified(path, time)
    }

    fn read_bytes(&mut self, alloc: Global, file: &mut F::File, count: usize) -> FsResult<Bytes> {
        self.count();
        self.inner.read_bytes(alloc, file, count)
    }

    fn write_bytes(
        &mut self,
        alloc: Global,
        file: &mut F::File,
        bytes: Bytes,
        now: u64,
    ) -> FsResult<()> {
        self.count();
        self.inner.write_bytes(alloc, file, bytes, now)
    }

    fn write_buf<B: Buf + Drop>(
        &mut self,
        alloc: Global,
        file: &mut F::File,
        buf: B,
        now: u64,
    ) -> FsResult<()> {
        self.count();
        self.inner.write_buf(alloc, file, buf, now)
    }

    fn seek(&mut self, file: &mut F::File, to: SeekFrom) -> FsResult<u64> {
        self.count();
        self.inner.seek(file, to)
    }

    fn flush(&mut self, file: &mut F::File) -> FsResult<()> {
        self.count();
        self.inner.flush(file)
    }

    fn file_metadata(&mut self, file: &F::File) -> FsResult<DavMetaData> {
        self.count();
        self.inner.file_metadata(file)
    }

    fn was_short(&self) -> bool {
        self.inner.was_short()
    }
}
