//! A store in memory with a list of refusals.
use super::*;
use crate::asserting::same;
use crate::rows::{NoRow, Player, play_rows};
use dav_store::memfs::MemFs;
use std::alloc::AllocError;
use std::test::Fail;

// A list of refusals, where `-` refuses nothing, or a call of the store; and what is answered.
const CALLS: &str = r##"# each call takes the next entry
load - Forbidden LoopDetected - -> Ok(Done)
create_dir /d -> Ok(Done)
metadata /d -> Err(Forbidden)
symlink_metadata /d -> Err(LoopDetected)
symlink_metadata /d -> Ok(Folder)
read_dir / -> Ok(Count(1))
# all calls of the store are counted, but was_short
load - TooLarge - IsRemote Exists - -> Ok(Done)
open /f -> Ok(Done)
was_short / -> Ok(Flag(false))
write_bytes /f -> Err(TooLarge)
have_props /f -> Ok(Flag(true))
have_props /f -> Ok(Flag(false))
get_quota / -> Err(Exists)
get_quota / -> Err(NotImplemented)
file_metadata /f -> Ok(Count(0))
# a list that is loaded takes the place of the one before
load NotFound NotFound -> Ok(Done)
metadata / -> Err(NotFound)
load - Exists -> Ok(Done)
metadata / -> Ok(Folder)
metadata / -> Err(Exists)
metadata / -> Ok(Folder)
"##;

// What a call answers.
#[derive(Clone, Copy, Debug)]
enum Answer {
    Done,
    Flag(bool),
    Count(u64),
    Folder,
    File,
}

// Whether something is a folder or a file.
fn kind_of(found: FsResult<DavMetaData>) -> FsResult<Answer> {
    match found {
        Ok(found) if found.is_dir() => Ok(Answer::Folder),
        Ok(_) => Ok(Answer::File),
        Err(error) => Err(error),
    }
}

// The refusal with this name; no row names the general failure, so a name that isn't known shows.
fn refusal_of(word: &str) -> Option<FsError> {
    match word {
        "-" => None,
        "Forbidden" => Some(FsError::Forbidden),
        "LoopDetected" => Some(FsError::LoopDetected),
        "TooLarge" => Some(FsError::TooLarge),
        "IsRemote" => Some(FsError::IsRemote),
        "Exists" => Some(FsError::Exists),
        "NotFound" => Some(FsError::NotFound),
        _ => Some(FsError::GeneralFailure),
    }
}

// The list of refusals with these names.
fn refusals_of(alloc: Global, words: &str) -> Result<Vec<Option<FsError>>, AllocError> {
    let mut refusals = Vec::new(alloc);
    for word in words.split(' ') {
        refusals.push(refusal_of(word))?;
    }
    Ok(refusals)
}

// Calls a store, and keeps the file that it opened.
#[derive(Drop)]
struct Calls<F: DavFileSystem + Drop> {
    fs: Refusing<F>,
    file: Option<F::File>,
}

impl<F: DavFileSystem + Drop> Calls<F> {
    // Makes a folder.
    fn create_dir(&mut self, alloc: Global, path: &DavPath) -> FsResult<Answer> {
        self.fs.create_dir(alloc, path, 1)?;
        Ok(Answer::Done)
    }

    // Counts the members of a folder.
    fn read_dir(&mut self, alloc: Global, path: &DavPath) -> FsResult<Answer> {
        let entries = self.fs.read_dir(alloc, path, ReadDirMeta::DataSymlink)?;
        Ok(Answer::Count(entries.len() as u64))
    }

    // Makes a file and keeps it open.
    fn open(&mut self, alloc: Global, path: &DavPath) -> FsResult<Answer> {
        let options = OpenOptions {
            create: true,
            ..OpenOptions::write()
        };
        self.file = Some(self.fs.open(alloc, path, &options, 1)?);
        Ok(Answer::Done)
    }

    // Writes into the open file.
    fn write_bytes(&mut self, alloc: Global) -> FsResult<Answer> {
        let Some(file) = &mut self.file else {
            return Err(FsError::GeneralFailure);
        };
        self.fs
            .write_bytes(alloc, file, Bytes::from_static(b"ab"), 1)?;
        Ok(Answer::Done)
    }

    // Counts the bytes of the open file.
    fn file_metadata(&mut self) -> FsResult<Answer> {
        let Some(file) = &self.file else {
            return Err(FsError::GeneralFailure);
        };
        Ok(Answer::Count(self.fs.file_metadata(file)?.len))
    }

    // Asks for the quota.
    fn get_quota(&mut self) -> FsResult<Answer> {
        self.fs.get_quota()?;
        Ok(Answer::Done)
    }

    // A call by its name.
    fn call(&mut self, alloc: Global, name: &str, path: &DavPath) -> FsResult<Answer> {
        match name {
            "create_dir" => self.create_dir(alloc, path),
            "metadata" => kind_of(self.fs.metadata(path)),
            "symlink_metadata" => kind_of(self.fs.symlink_metadata(path)),
            "read_dir" => self.read_dir(alloc, path),
            "have_props" => Ok(Answer::Flag(self.fs.have_props(path))),
            "open" => self.open(alloc, path),
            "was_short" => Ok(Answer::Flag(self.fs.was_short())),
            "get_quota" => self.get_quota(),
            "write_bytes" => self.write_bytes(alloc),
            "file_metadata" => self.file_metadata(),
            _ => Err(FsError::GeneralFailure),
        }
    }
}

impl Player for Calls<MemFs> {
    fn begin(&mut self, alloc: Global) -> Result<(), Fail> {
        self.fs = Refusing::new(MemFs::new(alloc)?);
        self.file = None;
        Ok(())
    }

    fn answer(&mut self, alloc: Global, question: &'static str) -> Result<Vec<u8>, Fail> {
        let (name, argument) = question.split_once(' ').ok_or(NoRow(question))?;
        let answer = if name == "load" {
            self.fs.load(refusals_of(alloc, argument)?);
            Ok(Answer::Done)
        } else {
            self.call(alloc, name, &DavPath::new(alloc, argument)?)
        };
        Ok(format!(in alloc; "{answer:?}")?.into_bytes())
    }
}

#[test]
fn refuses_calls(rt: HostRuntime) -> Result<(), Fail> {
    let fs = Refusing::new(MemFs::new(rt.alloc())?);
    let mut calls = Calls { fs, file: None };
    play_rows(&rt, &mut calls, CALLS)
}

#[test]
fn gives_the_store_back(rt: HostRuntime) -> Result<(), Fail> {
    let mut fs = Refusing::new(MemFs::new(rt.alloc())?);
    let root = DavPath::new(rt.alloc(), "/")?;
    fs.load(vec![in rt.alloc(); Some(FsError::NotFound)]?);
    let mut inner = fs.into_inner();
    same(&rt, &inner.metadata(&root).is_ok(), &true);
    Ok(())
}
