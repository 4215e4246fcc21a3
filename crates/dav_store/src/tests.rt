//! Tests of calls that an allocation failure may refuse: `./fail-alloc dav_store` runs them with each allocation
//! failing in turn. They pass either way, and print whether a call was refused. A refused call leaves everything as
//! it was, and succeeds when it is made once more.
use crate::asserting::same;
use crate::memfs::{MemFile, MemFs};
use crate::memls::MemLs;
use bytes::Bytes;
use dav_core::davpath::DavPath;
use dav_core::errors::{FsError, FsResult, NoMemory};
use dav_core::fs::{DavDirEntry, DavFileSystem, DavMetaData, DavProp, OpenOptions, ReadDirMeta};
use dav_core::ls::DavLockSystem;
use std::alloc::Global;
use std::io::SeekFrom;
use std::process::Abort;
use std::test::Fail;

// What a run prints at its end.
fn outcome(refused: bool) -> &'static str {
    if refused {
        "a call was refused"
    } else {
        "no call was refused"
    }
}

// The metadata of a node: its length, whether it is a folder, when it was created and changed, its number.
type Told = Option<(u64, bool, u64, u64, Option<u64>)>;

fn told(answer: FsResult<DavMetaData>) -> Told {
    let m = answer.ok()?;
    Some((m.len, m.dir, m.created, m.modified, m.number))
}

// A snapshot of a store: the root and other paths, an open file and its place, and how many members and properties
// the root has.
#[derive(Debug, Drop, PartialEq)]
struct Sight {
    nodes: [Told; 4],
    file: Told,
    place: Option<u64>,
    members: Option<usize>,
    properties: Option<usize>,
}

// A call that allocates, or one between such calls.
#[derive(Clone, Copy, Debug)]
enum Asked {
    MakeFolder,
    WriteBytes,
    WriteBuffer,
    GoBack,
    ReadBytes,
    Rename,
    CopyFile,
    Empty,
    SetProperty,
    ListProperties,
    ShowProperty,
    ListMembers,
}

// A store, one of its open files, the paths that are looked at, the root first, a property, and whether a call was
// refused.
#[derive(Drop)]
struct Watched<'a, F: DavFileSystem> {
    fs: F,
    file: F::File,
    paths: &'a [DavPath; 4],
    property: &'a DavProp,
    refused: bool,
}

impl<'a, F: DavFileSystem> Watched<'a, F> {
    fn seen(&mut self, alloc: Global) -> Sight {
        let [root, d, f, g] = self.paths;
        Sight {
            nodes: [
                told(self.fs.metadata(root)),
                told(self.fs.metadata(d)),
                told(self.fs.metadata(f)),
                told(self.fs.metadata(g)),
            ],
            file: told(self.fs.file_metadata(&self.file)),
            place: self.fs.seek(&mut self.file, SeekFrom::Current(0)).ok(),
            members: match self.fs.read_dir(alloc, root, ReadDirMeta::None) {
                Ok(list) => Some(list.len()),
                Err(_) => None,
            },
            properties: match self.fs.get_props(alloc, root, false) {
                Ok(list) => Some(list.len()),
                Err(_) => None,
            },
        }
    }

    // Makes a call, and returns whether it answers what it should. One that is refused because memory ran out must
    // change nothing, and is made once more.
    fn call(&mut self, rt: &impl Abort, alloc: Global, asked: Asked) -> FsResult<bool> {
        let before = self.seen(alloc);
        let answer = self.made(alloc, asked);
        if answer != Err(FsError::InsufficientStorage) {
            return answer;
        }
        self.refused = true;
        assert!(rt; self.seen(alloc) == before);
        self.made(alloc, asked)
    }

    // Makes a call, and returns whether it answers what it should.
    fn made(&mut self, alloc: Global, asked: Asked) -> FsResult<bool> {
        match asked {
            Asked::MakeFolder | Asked::Rename | Asked::CopyFile => self.placed(alloc, asked),
            Asked::Empty => self.emptied(alloc),
            Asked::WriteBytes | Asked::WriteBuffer | Asked::GoBack => self.written(alloc, asked),
            Asked::ReadBytes => self.read(alloc),
            Asked::SetProperty => self.set(alloc),
            Asked::ListProperties => self.listed(alloc),
            Asked::ShowProperty => self.shown(alloc),
            Asked::ListMembers => self.members(alloc),
        }
    }

    fn placed(&mut self, alloc: Global, asked: Asked) -> FsResult<bool> {
        let [_, d, f, g] = self.paths;
        match asked {
            Asked::MakeFolder => self.fs.create_dir(alloc, d, 2)?,
            Asked::Rename => self.fs.rename(alloc, f, g, 4)?,
            _ => {
                self.fs.copy(alloc, g, f, 5)?;
                return Ok(told(self.fs.metadata(f)) == Some((3, false, 5, 5, Some(5))));
            }
        }
        Ok(true)
    }

    fn emptied(&mut self, alloc: Global) -> FsResult<bool> {
        let [_, _, _, g] = self.paths;
        self.fs.open(alloc, g, &to_empty(), 6)?;
        Ok(told(self.fs.file_metadata(&self.file)) == Some((0, false, 1, 6, Some(6))))
    }

    fn written(&mut self, alloc: Global, asked: Asked) -> FsResult<bool> {
        match asked {
            Asked::WriteBytes => {
                let bytes = Bytes::from_static(b"ab");
                self.fs.write_bytes(alloc, &mut self.file, bytes, 3)?;
            }
            Asked::WriteBuffer => {
                self.fs
                    .write_buf(alloc, &mut self.file, b"c".as_slice(), 3)?;
            }
            _ => return Ok(self.fs.seek(&mut self.file, SeekFrom::Start(1))? == 1),
        }
        Ok(true)
    }

    fn read(&mut self, alloc: Global) -> FsResult<bool> {
        let bytes = self.fs.read_bytes(alloc, &mut self.file, 10)?;
        Ok(bytes.as_slice() == b"bc".as_slice())
    }

    fn set(&mut self, alloc: Global) -> FsResult<bool> {
        let [root, _, _, _] = self.paths;
        let patches = to_set(alloc, self.property)?;
        Ok(self.fs.patch_props(alloc, root, patches)?.len() == 1)
    }

    fn listed(&mut self, alloc: Global) -> FsResult<bool> {
        let [root, _, _, _] = self.paths;
        Ok(self.fs.get_props(alloc, root, true)?.len() == 1)
    }

    fn shown(&mut self, alloc: Global) -> FsResult<bool> {
        let [root, _, _, _] = self.paths;
        let property = self.property;
        let xml = self.fs.get_prop(alloc, root, property)?;
        let is_set = property.xml.as_ref() == Some(&xml);
        Ok(is_set)
    }

    fn members(&mut self, alloc: Global) -> FsResult<bool> {
        let [root, _, _, _] = self.paths;
        let list = self.fs.read_dir(alloc, root, ReadDirMeta::Data)?;
        let Some(last) = list.last() else {
            return Ok(false);
        };
        let is_f = last.name() == b"f".as_slice();
        let meta = told(self.fs.entry_metadata(last));
        Ok(list.len() == 2 && is_f && meta == Some((3, false, 5, 5, Some(5))))
    }
}

// A list with one property to set.
fn to_set(alloc: Global, property: &DavProp) -> FsResult<Vec<(bool, DavProp)>> {
    set_one(alloc, property).map_err(|_| FsError::InsufficientStorage)
}

fn set_one(alloc: Global, property: &DavProp) -> Result<Vec<(bool, DavProp)>, NoMemory> {
    let mut patches = Vec::new(alloc);
    patches.push((true, property.clone()?))?;
    Ok(patches)
}

// Opens for reading and writing; the file is created where nothing is there.
fn to_make() -> OpenOptions {
    OpenOptions {
        read: true,
        create: true,
        ..OpenOptions::write()
    }
}

// Opens for writing; the file is emptied.
fn to_empty() -> OpenOptions {
    OpenOptions {
        truncate: true,
        ..OpenOptions::write()
    }
}

// The paths /, /d, /f and /d/g, and a property.
fn names(alloc: Global) -> Option<([DavPath; 4], DavProp)> {
    let paths = [
        DavPath::new(alloc, "/").ok()?,
        DavPath::new(alloc, "/d").ok()?,
        DavPath::new(alloc, "/f").ok()?,
        DavPath::new(alloc, "/d/g").ok()?,
    ];
    let property = DavProp::new(alloc, "foo", "n", "urn:n", "v").ok()?;
    Some((paths, property))
}

// A store with an open file.
fn store(alloc: Global, path: &DavPath) -> Option<(MemFs, MemFile)> {
    let mut fs = MemFs::new(alloc).ok()?;
    let file = fs.open(alloc, path, &to_make(), 1).ok()?;
    Some((fs, file))
}

// The calls that remove.
fn remove<F: DavFileSystem>(rt: &impl Abort, store: &mut Watched<'_, F>) {
    let [_, d, _, g] = store.paths;
    same(rt, &store.fs.remove_dir(d, 7), &Err(FsError::Exists));
    same(rt, &store.fs.remove_file(g, 7), &Ok(()));
    same(rt, &store.fs.remove_dir(d, 8), &Ok(()));
    same(
        rt,
        &store.fs.flush(&mut store.file),
        &Err(FsError::NotFound),
    );
}

#[test]
fn store_goes_on_after_a_refusal(rt: HostRuntime) -> Result<(), Fail> {
    let alloc = rt.alloc();
    let mut refused = false;
    let (paths, property) = match names(alloc) {
        Some(made) => made,
        None => {
            refused = true;
            names(alloc).ok_or("no names")?
        }
    };
    let [_, _, f, g] = &paths;
    let (fs, file) = match store(alloc, f) {
        Some(made) => made,
        None => {
            refused = true;
            store(alloc, f).ok_or("no store")?
        }
    };
    let mut watched = Watched {
        fs,
        file,
        paths: &paths,
        property: &property,
        refused,
    };
    let calls = [
        Asked::MakeFolder,
        Asked::WriteBytes,
        Asked::WriteBuffer,
        Asked::GoBack,
        Asked::ReadBytes,
        Asked::Rename,
        Asked::CopyFile,
        Asked::Empty,
        Asked::SetProperty,
        Asked::ListProperties,
        Asked::ShowProperty,
        Asked::ListMembers,
    ];
    for asked in calls {
        let answer = watched.call(&rt, alloc, asked);
        assert_eq!(rt; answer, Ok(true), "{asked:?}");
    }
    let mut copy = match watched.fs.clone() {
        Ok(copy) => copy,
        Err(_) => {
            watched.refused = true;
            watched.fs.clone()?
        }
    };
    remove(&rt, &mut watched);
    same(
        &rt,
        &told(copy.metadata(g)),
        &Some((0, false, 1, 6, Some(6))),
    );
    let refused = watched.refused || watched.fs.was_short();
    println!(rt; "{}", outcome(refused))?;
    Ok(())
}

// A snapshot of a list of locks: the lock that conflicts with a requester without tokens, at each of two paths.
type Held = Option<(Option<u64>, bool)>;

fn held<L: DavLockSystem>(ls: &L, paths: &[DavPath; 2]) -> [Held; 2] {
    let [d, f] = paths;
    [held_at(ls, d), held_at(ls, f)]
}

// When the lock that conflicts at a path or below it ends, and whether it is shared.
fn held_at<L: DavLockSystem>(ls: &L, path: &DavPath) -> Held {
    match ls.check(path, None, true, true, &[]) {
        Ok(()) => None,
        Err(lock) => Some((lock.timeout_at, lock.shared)),
    }
}

// A call of a list of locks that allocates: an exclusive lock, the locks on a path, a refresh, a shared lock.
#[derive(Clone, Copy, Debug)]
enum LockCall {
    Lock,
    Discover,
    Refresh,
    Share,
}

// Makes a call: when the lock that it returns ends, or how many locks it lists; `None` where the call is refused.
fn made<L: DavLockSystem>(
    alloc: Global,
    ls: &mut L,
    paths: &[DavPath; 2],
    asked: LockCall,
) -> Option<Option<u64>> {
    let [d, f] = paths;
    match asked {
        LockCall::Lock => {
            let who = Some("anna");
            let lock = ls.lock(alloc, d, who, None, Some(60), false, true, "t1", 100);
            Some(lock.ok()?.timeout_at)
        }
        LockCall::Discover => Some(Some(ls.discover(alloc, f).ok()?.len() as u64)),
        LockCall::Refresh => Some(ls.refresh(alloc, f, "t1", Some(30), 150).ok()?.timeout_at),
        LockCall::Share => {
            let lock = ls.lock(alloc, f, None, None, None, true, false, "t2", 200);
            Some(lock.ok()?.timeout_at)
        }
    }
}

// Makes a call, and returns whether it was refused at first. A refused call must change nothing, and is made once
// more.
fn call<L: DavLockSystem>(
    rt: &impl Abort,
    alloc: Global,
    ls: &mut L,
    paths: &[DavPath; 2],
    asked: LockCall,
    wanted: Option<u64>,
) -> bool {
    let before = held(ls, paths);
    let first = made(alloc, ls, paths, asked);
    if first == Some(wanted) {
        return false;
    }
    assert!(rt; held(ls, paths) == before);
    assert_eq!(rt; made(alloc, ls, paths, asked), Some(wanted), "{asked:?}");
    true
}

#[test]
fn locks_go_on_after_a_refusal(rt: HostRuntime) -> Result<(), Fail> {
    let alloc = rt.alloc();
    let mut refused = false;
    let (paths, mut ls) = match no_locks(alloc) {
        Some(made) => made,
        None => {
            refused = true;
            no_locks(alloc).ok_or("no locks")?
        }
    };
    let [d, f] = &paths;
    refused |= call(&rt, alloc, &mut ls, &paths, LockCall::Lock, Some(160));
    refused |= call(&rt, alloc, &mut ls, &paths, LockCall::Discover, Some(1));
    refused |= call(&rt, alloc, &mut ls, &paths, LockCall::Refresh, Some(180));
    let until = Some((Some(180), false));
    same(&rt, &held(&ls, &paths), &[until, until]);
    assert!(rt; ls.unlock(f, "t1").is_ok());
    refused |= call(&rt, alloc, &mut ls, &paths, LockCall::Share, None);
    let shared = Some((None, true));
    same(&rt, &held(&ls, &paths), &[shared, shared]);
    assert!(rt; ls.delete(d).is_ok());
    same(&rt, &held(&ls, &paths), &[None, None]);
    println!(rt; "{}", outcome(refused))?;
    Ok(())
}

// The paths /d and /d/f, and no locks.
fn no_locks(alloc: Global) -> Option<([DavPath; 2], MemLs)> {
    let d = DavPath::new(alloc, "/d").ok()?;
    let f = DavPath::new(alloc, "/d/f").ok()?;
    let ls = MemLs::new(alloc).ok()?;
    Some(([d, f], ls))
}
