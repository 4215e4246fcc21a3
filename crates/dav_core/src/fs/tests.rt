ghost use Rattle.std.specs.Prelude.{◌≡◌, ◌||◌};
ghost use Rattle.dav_core.specs.Path.{names, is_root, parent_of};

use super::*;
use crate::asserting::same;
use std::test::Fail;

#[test]
fn shows_tags(rt: HostRuntime) -> Result<(), Fail> {
    let meta = DavMetaData {
        len: 3,
        dir: false,
        created: 1,
        modified: 2,
        number: Some(255),
    };
    same(&rt, &meta.tag(rt.alloc())?.as_deref(), &Some("\"ff\""));
    let without = DavMetaData {
        number: None,
        ..meta
    };
    same(&rt, &without.tag(rt.alloc())?.as_deref(), &None);
    Ok(())
}

#[test]
fn tells_what_it_is(rt: HostRuntime) {
    let file = DavMetaData {
        len: 3,
        dir: false,
        created: 1,
        modified: 2,
        number: None,
    };
    assert!(rt; file.is_file() && !file.is_dir() && !file.is_symlink() && !file.is_empty());
    let folder = DavMetaData {
        len: 0,
        dir: true,
        ..file
    };
    assert!(rt; folder.is_dir() && !folder.is_file() && !folder.is_symlink() && folder.is_empty());
    same(&rt, &file.accessed(), &Err(FsError::NotImplemented));
    same(&rt, &file.status_changed(), &Err(FsError::NotImplemented));
    same(&rt, &file.executable(), &Err(FsError::NotImplemented));
}

#[test]
fn opens_for_one_thing(rt: HostRuntime) -> Result<(), Fail> {
    let none = OpenOptions::default();
    assert!(rt;
        !none.read
            && !none.write
            && !none.append
            && !none.truncate
            && !none.create
            && !none.create_new
    );
    assert!(rt; none.size.is_none() && none.checksum.is_none());
    let read = OpenOptions::read();
    assert!(rt;
        read.read
            && !read.write
            && !read.append
            && !read.truncate
            && !read.create
            && !read.create_new
    );
    let write = OpenOptions::write();
    assert!(rt;
        !write.read
            && write.write
            && !write.append
            && !write.truncate
            && !write.create
            && !write.create_new
    );
    let sum = OpenOptions {
        checksum: Some(String::from_str(rt.alloc(), "SHA1:ab")?),
        size: Some(7),
        ..write
    };
    let copy = sum.clone()?;
    same(&rt, &copy.checksum.as_deref(), &Some("SHA1:ab"));
    same(&rt, &copy.size, &Some(7));
    assert!(rt; copy.write && !copy.read);
    Ok(())
}

// A store that holds the root alone, and runs out of memory whenever it allocates.
#[derive(Drop)]
struct EmptyFs {
    short: bool,
}

// A file that was removed.
#[derive(Drop)]
struct GoneFile;

// An entry that was removed.
#[derive(Drop)]
struct GoneEntry;

impl DavDirEntry for GoneEntry {
    ghost use Rattle.std.specs.Prelude.{[], ◌∷◌, false};

    ghost entry_folder = { λ e. [] };

    ghost entry_name = { λ e. 120 ∷ [] };

    ghost entry_dir = { λ e. false };

    fn name(&self) -> &[u8] {
        b"x".as_slice()
    }

    fn is_dir(&self) -> bool {
        false
    }
}

// Whether the path is the root.
fn is_root(path: &DavPath) -> bool
    ensures { result ≡ is_root (names path.now) }
{
    path.segments().next().is_none()
}

// Whether the path is the root, or directly below it.
fn is_in_root(path: &DavPath) -> bool
    ensures { result ≡ is_root (parent_of (names path.now)) }
{
    let mut segments = path.segments();
    match segments.next() {
        Some(_) => segments.next().is_none(),
        None => true,
    }
}

// Whether a file is made where nothing is.
fn makes(options: &OpenOptions) -> bool
    ensures { result ≡ (options.now.create || options.now.create_new) }
{
    options.create || options.create_new
}

impl DavFileSystem for EmptyFs {
    type File = GoneFile;

    type Entry = GoneEntry;

    ghost use Rattle.std.specs.Prelude.{[], true, false};
    ghost use Rattle.dav_core.specs.World.{empty_from};

    ghost state = { λ s. record { world = empty_from 1; refusals = []; short = s.short } };

    ghost handle = { λ f. record { made = 1; position = 0; reads = true; writes = true; appends = false } };

    fn open(
        &mut self,
        _alloc: Global,
        path: &DavPath,
        options: &OpenOptions,
        _now: u64,
    ) -> FsResult<GoneFile> {
        if is_root(path) {
            return Err(FsError::Forbidden);
        }
        if !is_in_root(path) {
            return Err(FsError::NotFound);
        }
        if !makes(options) {
            return Err(FsError::NotFound);
        }
        self.short = true;
        Err(FsError::InsufficientStorage)
    }

    fn read_dir(
        &mut self,
        alloc: Global,
        path: &DavPath,
        _meta: ReadDirMeta,
    ) -> FsResult<Vec<GoneEntry>> {
        if is_root(path) {
            Ok(Vec::new(alloc))
        } else {
            Err(FsError::NotFound)
        }
    }

    fn entry_metadata(&mut self, _entry: &GoneEntry) -> FsResult<DavMetaData> {
        Err(FsError::NotFound)
    }

    fn metadata(&mut self, path: &DavPath) -> FsResult<DavMetaData> {
        if is_root(path) {
            Ok(DavMetaData {
                len: 0,
                dir: true,
                created: 0,
                modified: 0,
                number: Some(0),
            })
        } else {
            Err(FsError::NotFound)
        }
    }

    fn create_dir(&mut self, _alloc: Global, path: &DavPath, _now: u64) -> FsResult<()> {
        if is_root(path) {
            return Err(FsError::Exists);
        }
        if !is_in_root(path) {
            return Err(FsError::NotFound);
        }
        self.short = true;
        Err(FsError::InsufficientStorage)
    }

    fn remove_dir(&mut self, path: &DavPath, _now: u64) -> FsResult<()> {
        if is_root(path) {
            Err(FsError::Forbidden)
        } else {
            Err(FsError::NotFound)
        }
    }

    fn remove_file(&mut self, path: &DavPath, _now: u64) -> FsResult<()> {
        if is_root(path) {
            Err(FsError::Forbidden)
        } else {
            Err(FsError::NotFound)
        }
    }

    fn rename(&mut self, _alloc: Global, from: &DavPath, to: &DavPath, _now: u64) -> FsResult<()> {
        if is_root(from) {
            return Err(FsError::Forbidden);
        }
        if is_root(to) {
            return Err(FsError::Forbidden);
        }
        Err(FsError::NotFound)
    }

    fn copy(&mut self, _alloc: Global, from: &DavPath, _to: &DavPath, _now: u64) -> FsResult<()> {
        if is_root(from) {
            Err(FsError::Forbidden)
        } else {
            Err(FsError::NotFound)
        }
    }

    fn have_props(&mut self, _path: &DavPath) -> bool {
        true
    }

    fn patch_props(
        &mut self,
        _alloc: Global,
        path: &DavPath,
        _patches: Vec<(bool, DavProp)>,
    ) -> FsResult<Vec<(StatusCode, DavProp)>> {
        if !is_root(path) {
            return Err(FsError::NotFound);
        }
        self.short = true;
        Err(FsError::InsufficientStorage)
    }

    fn get_props(
        &mut self,
        _alloc: Global,
        path: &DavPath,
        _content: bool,
    ) -> FsResult<Vec<DavProp>> {
        if !is_root(path) {
            return Err(FsError::NotFound);
        }
        self.short = true;
        Err(FsError::InsufficientStorage)
    }

    fn get_prop(
        &mut self,
        _alloc: Global,
        _path: &DavPath,
        _property: &DavProp,
    ) -> FsResult<Element> {
        Err(FsError::NotFound)
    }

    fn get_quota(&mut self) -> FsResult<(u64, Option<u64>)> {
        Err(FsError::NotImplemented)
    }

    fn set_accessed(&mut self, _path: &DavPath, _time: u64) -> FsResult<()> {
        Err(FsError::NotImplemented)
    }

    fn set_modified(&mut self, _path: &DavPath, _time: u64) -> FsResult<()> {
        Err(FsError::NotImplemented)
    }

    fn read_bytes(
        &mut self,
        _alloc: Global,
        _file: &mut GoneFile,
        _count: usize,
    ) -> FsResult<Bytes> {
        Err(FsError::NotFound)
    }

    fn write_bytes(
        &mut self,
        _alloc: Global,
        _file: &mut GoneFile,
        _bytes: Bytes,
        _now: u64,
    ) -> FsResult<()> {
        Err(FsError::NotFound)
    }

    fn write_buf<B: Buf + Drop>(
        &mut self,
        _alloc: Global,
        _file: &mut GoneFile,
        _buf: B,
        _now: u64,
    ) -> FsResult<()> {
        Err(FsError::NotFound)
    }

    fn seek(&mut self, _file: &mut GoneFile, _to: SeekFrom) -> FsResult<u64> {
        Err(FsError::NotFound)
    }

    fn flush(&mut self, _file: &mut GoneFile) -> FsResult<()> {
        Err(FsError::NotFound)
    }

    fn file_metadata(&mut self, _file: &GoneFile) -> FsResult<DavMetaData> {
        Err(FsError::NotFound)
    }

    fn was_short(&self) -> bool {
        self.short
    }
}

// How many members a folder has, in any store.
fn members_of<F: DavFileSystem>(fs: &mut F, alloc: Global, path: &DavPath) -> FsResult<usize> {
    let entries = fs.read_dir(alloc, path, ReadDirMeta::DataSymlink)?;
    Ok(entries.len())
}

#[test]
fn asks_a_store(rt: HostRuntime) -> Result<(), Fail> {
    let mut fs = EmptyFs { short: false };
    let root = DavPath::new(rt.alloc(), "/")?;
    let missing = DavPath::new(rt.alloc(), "/a")?;
    same(&rt, &members_of(&mut fs, rt.alloc(), &root), &Ok(0));
    same(
        &rt,
        &members_of(&mut fs, rt.alloc(), &missing),
        &Err(FsError::NotFound),
    );
    same(&rt, &fs.metadata(&root).map(|m| m.dir), &Ok(true));
    same(
        &rt,
        &fs.symlink_metadata(&missing).map(|m| m.dir),
        &Err(FsError::NotFound),
    );
    same(&rt, &fs.remove_dir(&root, 1), &Err(FsError::Forbidden));
    assert!(rt; !fs.was_short());
    same(
        &rt,
        &fs.create_dir(rt.alloc(), &missing, 1),
        &Err(FsError::InsufficientStorage),
    );
    assert!(rt; fs.was_short());
    Ok(())
}
