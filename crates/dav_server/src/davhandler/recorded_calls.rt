//! Which calls of the store each method makes, and in which order: those of the table in docs/SCRIPTS.md.
ghost use Rattle.std.specs.Prelude.{◌≡◌};

use super::engine_calls::{Engine, EngineRequest, request_of};
use super::tests::lock_for_anna;
use super::*;
use crate::rows::{Player, play_rows};
use bytes::{Buf, Bytes};
use dav_core::element::Element;
use dav_core::errors::FsResult;
use dav_core::fs::{DavMetaData, DavProp, OpenOptions, ReadDirMeta};
use dav_store::memfs::MemFs;
use dav_store::memls::MemLs;
use std::io::SeekFrom;
use std::test::Fail;

// A request of the engine, and the status of its reply with the calls of the store that were made.
const ROWS: &str = r##"# a file is stored, whole and in part, and removed
PUT /f | bytes one -> 201 metadata open write_bytes flush file_metadata
PUT /f -> 204 metadata open flush file_metadata
PUT /f | if: (["3"]) | bytes two -> 204 metadata metadata open write_bytes flush file_metadata
PUT /f | if-match: "3" | bytes one -> 412 metadata
PATCH /f | content-type: application/x-sabredav-partialupdate | content-length: 1 | x-update-range: bytes=1- | bytes y -> 204 metadata open seek write_bytes flush file_metadata
PUT /d/f | bytes one -> 409 metadata open
DELETE /f -> 204 symlink_metadata remove_file
DELETE /f -> 404 symlink_metadata
# a folder is made once, and removed with what is in it, or alone
MKCOL /d -> 201 metadata create_dir
MKCOL /d -> 405 metadata create_dir
PUT /d/a -> 201 metadata open flush file_metadata
MKCOL /d/b -> 201 metadata create_dir
DELETE /d | depth: 0 -> 405 symlink_metadata remove_dir
DELETE /d -> 204 symlink_metadata read_dir entry_metadata remove_file entry_metadata read_dir remove_dir remove_dir
MKCOL /d -> 201 metadata create_dir
DELETE /d | depth: 0 -> 204 symlink_metadata remove_dir
# a file is copied and moved; what it replaces is removed, and where the folder above is missing nothing is looked for
PUT /f | bytes one -> 201 metadata open write_bytes flush file_metadata
COPY /f | destination: /g -> 201 metadata metadata symlink_metadata metadata copy
COPY /f | destination: /g -> 204 metadata metadata symlink_metadata remove_file metadata copy
COPY /f | destination: /g | overwrite: F -> 412 metadata metadata symlink_metadata
COPY /f | destination: /d/g -> 409 metadata metadata
COPY /f | destination: /f -> 403 metadata metadata symlink_metadata
COPY /n | destination: /g -> 404 metadata
MOVE /f | destination: /g -> 204 symlink_metadata metadata symlink_metadata remove_file rename
MOVE /g | destination: /f -> 201 symlink_metadata metadata symlink_metadata rename
# a folder is copied with what is in it, or alone
MKCOL /d -> 201 metadata create_dir
PUT /d/a -> 201 metadata open flush file_metadata
COPY /d | destination: /e | depth: 0 -> 201 metadata metadata symlink_metadata metadata create_dir
COPY /d | destination: /e | depth: 0 -> 204 metadata metadata symlink_metadata metadata create_dir
COPY /d | destination: /e -> 204 metadata metadata symlink_metadata read_dir remove_dir metadata create_dir read_dir entry_metadata metadata copy
# locks ask of the store whether something is there, and make an empty file where nothing is
LOCK /n | lockinfo exclusive -> 201 metadata open
LOCK /n | if: (<urn:t:1>) -> 200 metadata
UNLOCK /n | lock-token: <urn:t:1> -> 204 metadata
LOCK /n | lockinfo exclusive -> 200 metadata
PUT /n | bytes x -> 423 metadata
LOCK /d/n | lockinfo exclusive -> 409 metadata open
# no call is made for the check of a lock
MKCOL /d -> 201 metadata create_dir
anna locks /d -> granted
PUT /d/a | bytes x -> 423 metadata
MKCOL /d/a -> 423 metadata
DELETE /d -> 423 symlink_metadata
PROPPATCH /d | sets a -> 423 metadata
OPTIONS /d/a -> 200 metadata
# properties are told and changed
MKCOL /d -> 201 metadata create_dir
PUT /d/a -> 201 metadata open flush file_metadata
PROPPATCH /d/a | sets a -> 207 metadata have_props patch_props
PROPFIND /d/a | depth: 0 -> 207 metadata have_props get_props
PROPFIND /d | depth: 1 -> 207 metadata have_props get_props read_dir entry_metadata have_props get_props
PROPFIND /d -> 207 metadata read_dir entry_metadata have_props get_props
PROPFIND /d | depth: infinity -> 501
PROPFIND /n | depth: 0 -> 404 metadata
"##;

// The name of a call that lists a folder, with what else is asked for where that isn't the metadata of each member.
fn listing_call(meta: ReadDirMeta) -> &'static str {
    match meta {
        ReadDirMeta::DataSymlink => "read_dir",
        ReadDirMeta::Data => "read_dir(Data)",
        ReadDirMeta::None => "read_dir(None)",
    }
}

// A store that keeps the names of the calls that are made.
#[derive(Drop)]
struct Recording<F> {
    inner: F,
    calls: Vec<&'static str>,
}

impl<F: DavFileSystem> Recording<F> {
    // Keeps the name of a call, where there is memory for it.
    fn note(&mut self, call: &'static str)
        ensures { self.new.inner ≡ self.old.inner }
    {
        if self.calls.push(call).is_err() {
            self.calls.clear();
        }
    }
}

impl<F: DavFileSystem> DavFileSystem for Recording<F> {
    type File = F::File;

    type Entry = F::Entry;

    ghost state = { λ r. F.state r.inner };

    ghost handle = { F.handle };

    fn open(
        &mut self,
        alloc: Global,
        path: &DavPath,
        options: &OpenOptions,
        now: u64,
    ) -> FsResult<F::File> {
        self.note("open");
        self.inner.open(alloc, path, options, now)
    }

    fn read_dir(
        &mut self,
        alloc: Global,
        path: &DavPath,
        meta: ReadDirMeta,
    ) -> FsResult<Vec<F::Entry>> {
        self.note(listing_call(meta));
        self.inner.read_dir(alloc, path, meta)
    }

    fn entry_metadata(&mut self, entry: &F::Entry) -> FsResult<DavMetaData> {
        self.note("entry_metadata");
        self.inner.entry_metadata(entry)
    }

    fn metadata(&mut self, path: &DavPath) -> FsResult<DavMetaData> {
        self.note("metadata");
        self.inner.metadata(path)
    }

    fn symlink_metadata(&mut self, path: &DavPath) -> FsResult<DavMetaData> {
        self.note("symlink_metadata");
        self.inner.symlink_metadata(path)
    }

    fn create_dir(&mut self, alloc: Global, path: &DavPath, now: u64) -> FsResult<()> {
        self.note("create_dir");
        self.inner.create_dir(alloc, path, now)
    }

    fn remove_dir(&mut self, path: &DavPath, now: u64) -> FsResult<()> {
        self.note("remove_dir");
        self.inner.remove_dir(path, now)
    }

    fn remove_file(&mut self, path: &DavPath, now: u64) -> FsResult<()> {
        self.note("remove_file");
        self.inner.remove_file(path, now)
    }

    fn rename(&mut self, alloc: Global, from: &DavPath, to: &DavPath, now: u64) -> FsResult<()> {
        self.note("rename");
        self.inner.rename(alloc, from, to, now)
    }

    fn copy(&mut self, alloc: Global, from: &DavPath, to: &DavPath, now: u64) -> FsResult<()> {
        self.note("copy");
        self.inner.copy(alloc, from, to, now)
    }

    fn have_props(&mut self, path: &DavPath) -> bool {
        self.note("have_props");
        self.inner.have_props(path)
    }

    fn patch_props(
        &mut self,
        alloc: Global,
        path: &DavPath,
        patches: Vec<(bool, DavProp)>,
    ) -> FsResult<Vec<(StatusCode, DavProp)>> {
        self.note("patch_props");
        self.inner.patch_props(alloc, path, patches)
    }

    fn get_props(
        &mut self,
        alloc: Global,
        path: &DavPath,
        content: bool,
    ) -> FsResult<Vec<DavProp>> {
        self.note("get_props");
        self.inner.get_props(alloc, path, content)
    }

    fn get_prop(&mut self, alloc: Global, path: &DavPath, property: &DavProp) -> FsResult<Element> {
        self.note("get_prop");
        self.inner.get_prop(alloc, path, property)
    }

    fn get_quota(&mut self) -> FsResult<(u64, Option<u64>)> {
        self.note("get_quota");
        self.inner.get_quota()
    }

    fn set_accessed(&mut self, path: &DavPath, time: u64) -> FsResult<()> {
        self.note("set_accessed");
        self.inner.set_accessed(path, time)
    }

    fn set_modified(&mut self, path: &DavPath, time: u64) -> FsResult<()> {
        self.note("set_modified");
        self.inner.set_modified(path, time)
    }

    fn read_bytes(&mut self, alloc: Global, file: &mut F::File, count: usize) -> FsResult<Bytes> {
        self.note("read_bytes");
        self.inner.read_bytes(alloc, file, count)
    }

    fn write_bytes(
        &mut self,
        alloc: Global,
        file: &mut F::File,
        bytes: Bytes,
        now: u64,
    ) -> FsResult<()> {
        self.note("write_bytes");
        self.inner.write_bytes(alloc, file, bytes, now)
    }

    fn write_buf<B: Buf + Drop>(
        &mut self,
        alloc: Global,
        file: &mut F::File,
        buf: B,
        now: u64,
    ) -> FsResult<()> {
        self.note("write_buf");
        self.inner.write_buf(alloc, file, buf, now)
    }

    fn seek(&mut self, file: &mut F::File, to: SeekFrom) -> FsResult<u64> {
        self.note("seek");
        self.inner.seek(file, to)
    }

    fn flush(&mut self, file: &mut F::File) -> FsResult<()> {
        self.note("flush");
        self.inner.flush(file)
    }

    fn file_metadata(&mut self, file: &F::File) -> FsResult<DavMetaData> {
        self.note("file_metadata");
        self.inner.file_metadata(file)
    }

    fn was_short(&self) -> bool {
        self.inner.was_short()
    }
}

// A new store in memory that keeps the names of its calls.
fn new_store(alloc: Global) -> Result<Recording<MemFs>, Fail> {
    Ok(Recording {
        inner: MemFs::new(alloc)?,
        calls: Vec::new(alloc),
    })
}

impl Player for Engine<Recording<MemFs>, MemLs> {
    fn begin(&mut self, alloc: Global) -> Result<(), Fail> {
        self.fs = new_store(alloc)?;
        self.ls = Some(MemLs::new(alloc)?);
        Ok(())
    }

    fn answer(&mut self, alloc: Global, question: &'static str) -> Result<Vec<u8>, Fail> {
        if let Some(path) = question.strip_prefix("anna locks ") {
            return lock_for_anna(alloc, &mut self.ls, path);
        }
        let asked = request_of(alloc, question)?;
        self.recorded(alloc, &asked)
    }
}

impl Engine<Recording<MemFs>, MemLs> {
    // The status of the reply to a request, and the calls that were made for it.
    fn recorded(&mut self, alloc: Global, asked: &EngineRequest) -> Result<Vec<u8>, Fail> {
        self.fs.calls.clear();
        let status = match self.handle(alloc, asked) {
            Ok(reply) => reply.status.as_u16(),
            Err(error) => error.statuscode().as_u16(),
        };
        let mut text = format!(in alloc; "{status}")?;
        for call in self.fs.calls.iter() {
            text.push(' ')?;
            text.push_str(call)?;
        }
        Ok(text.into_bytes())
    }
}

#[test]
fn makes_the_calls_of_the_table(rt: HostRuntime) -> Result<(), Fail> {
    let fs = new_store(rt.alloc())?;
    let ls = Some(MemLs::new(rt.alloc())?);
    play_rows(&rt, &mut Engine { fs, ls }, ROWS)
}
