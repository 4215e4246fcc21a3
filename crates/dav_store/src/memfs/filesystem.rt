//! `MemFs` as a `DavFileSystem`: each call is answered as it means. The tests of its rules come first, in their order,
//! and only then is memory allocated.
use super::{MemEntry, MemFile, MemFs, list, place_for, properties_after};
use crate::entries::{self, changes};
use crate::node::Node;
use crate::paths;
use bytes::{Buf, Bytes};
use dav_core::davpath::DavPath;
use dav_core::element::Element;
use dav_core::errors::{FsError, FsResult};
use dav_core::fs::{DavDirEntry, DavFileSystem, DavMetaData, DavProp, OpenOptions, ReadDirMeta};
use http::StatusCode;
use std::alloc::Global;
use std::io::SeekFrom;

impl DavDirEntry for MemEntry {
    ghost use Rattle.dav_store.specs.Listed.{folder_listed, name_listed, was_folder};

    ghost entry_folder = { folder_listed };

    ghost entry_name = { name_listed };

    ghost entry_dir = { was_folder };

    fn name(&self) -> &[u8] {
        self.name.as_slice()
    }

    fn is_dir(&self) -> bool {
        self.dir
    }
}

impl DavFileSystem for MemFs {
    type File = MemFile;

    type Entry = MemEntry;

    ghost use Rattle.dav_store.specs.Store.{state_of};

    ghost state = { state_of };

    ghost handle = { λ f. f };

    fn open(
        &mut self,
        alloc: Global,
        path: &DavPath,
        options: &OpenOptions,
        now: u64,
    ) -> FsResult<MemFile> {
        if entries::node_at(&self.entries, path).is_some() {
            self.open_found(path, options, now)
        } else {
            self.open_missing(alloc, path, options, now)
        }
    }

    fn read_dir(
        &mut self,
        alloc: Global,
        path: &DavPath,
        _meta: ReadDirMeta,
    ) -> FsResult<Vec<MemEntry>> {
        if entries::node_at(&self.entries, path).is_none() {
            return Err(FsError::NotFound);
        }
        if entries::is_file(&self.entries, path) {
            return Err(FsError::Forbidden);
        }
        match list(alloc, &self.entries, path) {
            Ok(list) => Ok(list),
            Err(_) => {
                self.short = true;
                Err(FsError::InsufficientStorage)
            }
        }
    }

    fn entry_metadata(&mut self, entry: &MemEntry) -> FsResult<DavMetaData> {
        match entries::member_at(&self.entries, &entry.folder, &entry.name) {
            Some(node) => Ok(node.metadata()),
            None => Err(FsError::NotFound),
        }
    }

    fn metadata(&mut self, path: &DavPath) -> FsResult<DavMetaData> {
        match entries::node_at(&self.entries, path) {
            Some(node) => Ok(node.metadata()),
            None => Err(FsError::NotFound),
        }
    }

    fn create_dir(&mut self, alloc: Global, path: &DavPath, now: u64) -> FsResult<()> {
        if entries::node_at(&self.entries, path).is_some() {
            return Err(FsError::Exists);
        }
        if !entries::has_folder(&self.entries, path) {
            return Err(FsError::NotFound);
        }
        if self.next == u64::MAX {
            return Err(FsError::GeneralFailure);
        }
        let node = Node::new_folder(alloc, self.next, now);
        if let Err(_) = changes::add_node(alloc, &mut self.entries, path, node, now) {
            self.short = true;
            return Err(FsError::InsufficientStorage);
        }
        self.next += 1;
        Ok(())
    }

    fn remove_dir(&mut self, path: &DavPath, now: u64) -> FsResult<()> {
        if path.is_root() {
            return Err(FsError::Forbidden);
        }
        if entries::node_at(&self.entries, path).is_none() {
            return Err(FsError::NotFound);
        }
        if entries::is_file(&self.entries, path) {
            return Err(FsError::Forbidden);
        }
        if entries::has_members(&self.entries, path) {
            return Err(FsError::Exists);
        }
        changes::prune(&mut self.entries, path);
        changes::touch_folder(&mut self.entries, path, now);
        Ok(())
    }

    fn remove_file(&mut self, path: &DavPath, now: u64) -> FsResult<()> {
        if entries::node_at(&self.entries, path).is_none() {
            return Err(FsError::NotFound);
        }
        if entries::is_folder(&self.entries, path) {
            return Err(FsError::Forbidden);
        }
        changes::prune(&mut self.entries, path);
        changes::touch_folder(&mut self.entries, path, now);
        Ok(())
    }

    fn rename(&mut self, alloc: Global, from: &DavPath, to: &DavPath, now: u64) -> FsResult<()> {
        if from.is_root() || to.is_root() {
            return Err(FsError::Forbidden);
        }
        if entries::node_at(&self.entries, from).is_none() {
            return Err(FsError::NotFound);
        }
        if paths::is_same(from, to) {
            return Ok(());
        }
        if to.is_under(from) {
            return Err(FsError::Forbidden);
        }
        if !entries::has_folder(&self.entries, to) {
            return Err(FsError::NotFound);
        }
        if entries::is_folder(&self.entries, to) && entries::has_members(&self.entries, to) {
            return Err(FsError::Exists);
        }
        if let Err(_) = changes::move_nodes(alloc, &mut self.entries, from, to) {
            self.short = true;
            return Err(FsError::InsufficientStorage);
        }
        changes::touch_folder(&mut self.entries, to, now);
        changes::touch_folder(&mut self.entries, from, now);
        Ok(())
    }

    fn copy(&mut self, alloc: Global, from: &DavPath, to: &DavPath, now: u64) -> FsResult<()> {
        let Some(source) = entries::node_at(&self.entries, from) else {
            return Err(FsError::NotFound);
        };
        if source.is_folder() || paths::is_same(from, to) {
            return Err(FsError::Forbidden);
        }
        if entries::is_folder(&self.entries, to) {
            return Err(FsError::Forbidden);
        }
        if !entries::has_folder(&self.entries, to) {
            return Err(FsError::NotFound);
        }
        if self.next == u64::MAX {
            return Err(FsError::GeneralFailure);
        }
        let Ok(copy) = source.copy(self.next, now) else {
            self.short = true;
            return Err(FsError::InsufficientStorage);
        };
        self.put_copy(alloc, to, copy, now)
    }

    fn have_props(&mut self, _path: &DavPath) -> bool {
        true
    }

    fn patch_props(
        &mut self,
        alloc: Global,
        path: &DavPath,
        patches: Vec<(bool, DavProp)>,
    ) -> FsResult<Vec<(StatusCode, DavProp)>> {
        let Some(node) = entries::node_at(&self.entries, path) else {
            return Err(FsError::NotFound);
        };
        let Ok((properties, answers)) = properties_after(alloc, node.properties(), patches) else {
            self.short = true;
            return Err(FsError::InsufficientStorage);
        };
        changes::set_properties_at(&mut self.entries, path, properties);
        Ok(answers)
    }

    fn get_props(
        &mut self,
        alloc: Global,
        path: &DavPath,
        content: bool,
    ) -> FsResult<Vec<DavProp>> {
        let Some(node) = entries::node_at(&self.entries, path) else {
            return Err(FsError::NotFound);
        };
        let Ok(list) = node.properties().list(alloc, content) else {
            self.short = true;
            return Err(FsError::InsufficientStorage);
        };
        Ok(list)
    }

    fn get_prop(
        &mut self,
        _alloc: Global,
        path: &DavPath,
        property: &DavProp,
    ) -> FsResult<Element> {
        let Some(node) = entries::node_at(&self.entries, path) else {
            return Err(FsError::NotFound);
        };
        let Some(stored) = node.properties().get(property) else {
            return Err(FsError::NotFound);
        };
        let Some(xml) = stored else {
            return Err(FsError::NotFound);
        };
        let Ok(xml) = xml.clone() else {
            self.short = true;
            return Err(FsError::InsufficientStorage);
        };
        Ok(xml)
    }

    fn get_quota(&mut self) -> FsResult<(u64, Option<u64>)> {
        Err(FsError::NotImplemented)
    }

    fn set_accessed(&mut self, _path: &DavPath, _time: u64) -> FsResult<()> {
        Err(FsError::NotImplemented)
    }

    fn set_modified(&mut self, _path: &DavPath, _time: u64) -> FsResult<()> {
        Err(FsError::NotImplemented)
    }

    fn read_bytes(&mut self, _alloc: Global, file: &mut MemFile, count: usize) -> FsResult<Bytes> {
        let Some(node) = entries::file_made_with(&self.entries, file.made) else {
            return Err(FsError::NotFound);
        };
        if !file.reads {
            return Err(FsError::Forbidden);
        }
        let Ok(chunk) = node.read(file.position, count) else {
            self.short = true;
            return Err(FsError::InsufficientStorage);
        };
        file.position += chunk.len() as u64;
        Ok(chunk)
    }

    fn write_bytes(
        &mut self,
        alloc: Global,
        file: &mut MemFile,
        bytes: Bytes,
        now: u64,
    ) -> FsResult<()> {
        self.write_chunk(alloc, file, bytes.as_slice(), now)
    }

    fn write_buf<B: Buf + Drop>(
        &mut self,
        alloc: Global,
        file: &mut MemFile,
        mut buf: B,
        now: u64,
    ) -> FsResult<()> {
        let len = buf.remaining();
        if let Some(e) = self.write_refusal(file, len) {
            return Err(e);
        }
        let Ok(chunk) = buf.copy_to_bytes(alloc, len) else {
            self.short = true;
            return Err(FsError::InsufficientStorage);
        };
        self.write_chunk(alloc, file, chunk.as_slice(), now)
    }

    fn seek(&mut self, file: &mut MemFile, to: SeekFrom) -> FsResult<u64> {
        let Some(node) = entries::file_made_with(&self.entries, file.made) else {
            return Err(FsError::NotFound);
        };
        match place_for(to, file.position, node.bytes().len() as u64) {
            Some(place) => {
                file.position = place;
                Ok(place)
            }
            None => Err(FsError::GeneralFailure),
        }
    }

    fn flush(&mut self, file: &mut MemFile) -> FsResult<()> {
        match entries::file_made_with(&self.entries, file.made) {
            Some(_) => Ok(()),
            None => Err(FsError::NotFound),
        }
    }

    fn file_metadata(&mut self, file: &MemFile) -> FsResult<DavMetaData> {
        match entries::file_made_with(&self.entries, file.made) {
            Some(node) => Ok(node.metadata()),
            None => Err(FsError::NotFound),
        }
    }

    fn was_short(&self) -> bool {
        self.short
    }
}
