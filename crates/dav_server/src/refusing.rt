//! A file store that refuses calls by a list.
ghost use Rattle.std.specs.Prelude.{◌≡◌, []};

#[cfg(test)]
mod tests;

use bytes::{Buf, Bytes};
use dav_core::davpath::DavPath;
use dav_core::element::Element;
use dav_core::errors::{FsError, FsResult};
use dav_core::fs::{DavFileSystem, DavMetaData, DavProp, OpenOptions, ReadDirMeta};
use http::StatusCode;
use std::alloc::Global;
use std::io::SeekFrom;
use std::marker::Model;

/// A store with a list of refusals before it. Each call takes the next entry of the list; where that is an error, it is the
/// answer, and the store isn't asked. Past the end of the list every call reaches the store.
#[derive(Drop)]
pub struct Refusing<F> {
    inner: F,
    refusals: Option<Vec<Option<FsError>>>,
    at: usize,
}

impl<F> Model for Refusing<F> {
    ghost use Rattle.std.specs.Prelude.{drop};
    ghost use Rattle.dav_server.specs.Refusals.{RefusingStore};

    ghost Value = { RefusingStore F };

    ghost use Rattle.dav_server.specs.RefusalList.{left};

    ghost view = { λ r. record { inner = r.inner; coming = left r.refusals r.at } };
}

impl<F: DavFileSystem> Refusing<F> {
    ghost use Rattle.dav_server.specs.Refusals.{with_refusals};
    ghost use Rattle.dav_core.specs.Asking.{rest_of, next_refusal};

    /// A store without refusals but its own. Allocates nothing.
    pub fn new(inner: F) -> Refusing<F>
        ensures value { result ≡ record { inner = inner; coming = [] } }
        ensures state { ⟦<Refusing<F> as DavFileSystem>⟧.state result ≡ F.state inner }
    {
        Refusing {
            inner,
            refusals: None,
            at: 0,
        }
    }

    /// Puts a list in place of the one that was loaded before, of which nothing is left. Allocates nothing.
    pub fn load(&mut self, refusals: Vec<Option<FsError>>)
        ensures value { self.new ≡ record self.old { coming = refusals.items } }
        ensures state { ⟦<Refusing<F> as DavFileSystem>⟧.state self.new
            ≡ with_refusals refusals.items (F.state self.old.inner) }
    {
        self.refusals = Some(refusals);
        self.at = 0;
    }

    /// The store as it is. Allocates nothing.
    pub fn into_inner(self) -> F
        ensures { result ≡ self.inner }
    {
        let Refusing { inner, .. } = self;
        inner
    }

    // Uses up the next entry, and returns the error in it.
    fn take(&mut self) -> Option<FsError>
        ensures inner { self.new.inner ≡ self.old.inner }
        ensures first { result ≡ next_refusal self.old.coming }
        ensures left { self.new.coming ≡ rest_of self.old.coming }
    {
        match &self.refusals {
            Some(list) if self.at < list.len() => {
                let entry = list[self.at];
                self.at += 1;
                entry
            }
            _ => None,
        }
    }
}

#[tactic(auto, using(crate::proofs::RefusalLemmas::over_refused, crate::proofs::RefusalLemmas::over_passed))]
impl<F: DavFileSystem> DavFileSystem for Refusing<F> {
    type File = F::File;

    type Entry = F::Entry;

    ghost use Rattle.dav_server.specs.Refusals.{with_refusals};

    ghost state = { λ r. with_refusals r.coming (F.state r.inner) };

    ghost handle = { F.handle };

    fn open(
        &mut self,
        alloc: Global,
        path: &DavPath,
        options: &OpenOptions,
        now: u64,
    ) -> FsResult<F::File> {
        match self.take() {
            Some(error) => Err(error),
            None => self.inner.open(alloc, path, options, now),
        }
    }

    fn read_dir(
        &mut self,
        alloc: Global,
        path: &DavPath,
        meta: ReadDirMeta,
    ) -> FsResult<Vec<F::Entry>> {
        match self.take() {
            Some(error) => Err(error),
            None => self.inner.read_dir(alloc, path, meta),
        }
    }

    fn entry_metadata(&mut self, entry: &F::Entry) -> FsResult<DavMetaData> {
        match self.take() {
            Some(error) => Err(error),
            None => self.inner.entry_metadata(entry),
        }
    }

    fn metadata(&mut self, path: &DavPath) -> FsResult<DavMetaData> {
        match self.take() {
            Some(error) => Err(error),
            None => self.inner.metadata(path),
        }
    }

    fn symlink_metadata(&mut self, path: &DavPath) -> FsResult<DavMetaData> {
        match self.take() {
            Some(error) => Err(error),
            None => self.inner.symlink_metadata(path),
        }
    }

    fn create_dir(&mut self, alloc: Global, path: &DavPath, now: u64) -> FsResult<()> {
        match self.take() {
            Some(error) => Err(error),
            None => self.inner.create_dir(alloc, path, now),
        }
    }

    fn remove_dir(&mut self, path: &DavPath, now: u64) -> FsResult<()> {
        match self.take() {
            Some(error) => Err(error),
            None => self.inner.remove_dir(path, now),
        }
    }

    fn remove_file(&mut self, path: &DavPath, now: u64) -> FsResult<()> {
        match self.take() {
            Some(error) => Err(error),
            None => self.inner.remove_file(path, now),
        }
    }

    fn rename(&mut self, alloc: Global, from: &DavPath, to: &DavPath, now: u64) -> FsResult<()> {
        match self.take() {
            Some(error) => Err(error),
            None => self.inner.rename(alloc, from, to, now),
        }
    }

    fn copy(&mut self, alloc: Global, from: &DavPath, to: &DavPath, now: u64) -> FsResult<()> {
        match self.take() {
            Some(error) => Err(error),
            None => self.inner.copy(alloc, from, to, now),
        }
    }

    fn have_props(&mut self, path: &DavPath) -> bool {
        match self.take() {
            Some(_) => false,
            None => self.inner.have_props(path),
        }
    }

    fn patch_props(
        &mut self,
        alloc: Global,
        path: &DavPath,
        patches: Vec<(bool, DavProp)>,
    ) -> FsResult<Vec<(StatusCode, DavProp)>> {
        match self.take() {
            Some(error) => Err(error),
            None => self.inner.patch_props(alloc, path, patches),
        }
    }

    fn get_props(
        &mut self,
        alloc: Global,
        path: &DavPath,
        content: bool,
    ) -> FsResult<Vec<DavProp>> {
        match self.take() {
            Some(error) => Err(error),
            None => self.inner.get_props(alloc, path, content),
        }
    }

    fn get_prop(&mut self, alloc: Global, path: &DavPath, property: &DavProp) -> FsResult<Element> {
        match self.take() {
            Some(error) => Err(error),
            None => self.inner.get_prop(alloc, path, property),
        }
    }

    fn get_quota(&mut self) -> FsResult<(u64, Option<u64>)> {
        match self.take() {
            Some(error) => Err(error),
            None => self.inner.get_quota(),
        }
    }

    fn set_accessed(&mut self, path: &DavPath, time: u64) -> FsResult<()> {
        match self.take() {
            Some(error) => Err(error),
            None => self.inner.set_accessed(path, time),
        }
    }

    fn set_modified(&mut self, path: &DavPath, time: u64) -> FsResult<()> {
        match self.take() {
            Some(error) => Err(error),
            None => self.inner.set_modified(path, time),
        }
    }

    fn read_bytes(&mut self, alloc: Global, file: &mut F::File, count: usize) -> FsResult<Bytes> {
        match self.take() {
            Some(error) => Err(error),
            None => self.inner.read_bytes(alloc, file, count),
        }
    }

    fn write_bytes(
        &mut self,
        alloc: Global,
        file: &mut F::File,
        bytes: Bytes,
        now: u64,
    ) -> FsResult<()> {
        match self.take() {
            Some(error) => Err(error),
            None => self.inner.write_bytes(alloc, file, bytes, now),
        }
    }

    fn write_buf<B: Buf + Drop>(
        &mut self,
        alloc: Global,
        file: &mut F::File,
        buf: B,
        now: u64,
    ) -> FsResult<()> {
        match self.take() {
            Some(error) => Err(error),
            None => self.inner.write_buf(alloc, file, buf, now),
        }
    }

    fn seek(&mut self, file: &mut F::File, to: SeekFrom) -> FsResult<u64> {
        match self.take() {
            Some(error) => Err(error),
            None => self.inner.seek(file, to),
        }
    }

    fn flush(&mut self, file: &mut F::File) -> FsResult<()> {
        match self.take() {
            Some(error) => Err(error),
            None => self.inner.flush(file),
        }
    }

    fn file_metadata(&mut self, file: &F::File) -> FsResult<DavMetaData> {
        match self.take() {
            Some(error) => Err(error),
            None => self.inner.file_metadata(file),
        }
    }

    fn was_short(&self) -> bool {
        self.inner.was_short()
    }
}
