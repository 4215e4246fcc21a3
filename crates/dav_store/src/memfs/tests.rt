//! Calls of a store as rows. The expected answers were worked out by hand from RFC 4918 and the docstrings of the
//! calls.
//!
//! A line `# title` begins a new store. Each other line is a call and, after ` -> `, its answer: `ok`, the name of an
//! error, or what the call returns. `open` opens the one file that `write`, `buffer` and the like use; a folder in a
//! listing ends in a slash. A property is written by its name, after a colon where it has no namespace, and `set` stores
//! one without an element where its value is missing. `properties` lists them with their elements, as `name=value`, and
//! `names` without. `saved` asks whether the store is saved as these bytes: `#n` is the number n in eight bytes, `'t'` the
//! text t, any other word a byte. `load` goes on with the store that is loaded from bytes, if they are one. `reload` goes on
//! with the store that is loaded from what is saved of it; it answers whether each front of those bytes is refused.
ghost use Rattle.std.specs.Prelude.{◌≤◌};
ghost use Rattle.dav_core.specs.World.{last_moment};

use super::*;
use bytes::Bytes;
use dav_core::element::Element;
use dav_core::fs::{DavDirEntry, DavFileSystem, DavMetaData, ReadDirMeta};
use dav_saved::LoadError;
use std::mem;
use std::process::Abort;
use std::test::Fail;

const ROWS: &str = r##"
# an open file follows its node through a rename, and ends with it
open /f read,create,write 1 -> ok
write ab 1 -> ok
rename /f /g 2 -> ok
write c 3 -> ok
metadata /f -> NotFound
metadata /g -> len 3, number 3, created 1, modified 3
clone -> ok
other -> ok
bytes /g -> abc
other -> ok
remove /g 4 -> ok
write d 5 -> NotFound
flush -> NotFound
short -> no
other -> ok
metadata /g -> len 3, number 3, created 1, modified 3
# an open file is found where others come and go before it
open /m read,create,write 1 -> ok
write a 2 -> ok
mkdir /a 3 -> ok
write b 4 -> ok
bytes /m -> ab
rmdir /a 5 -> ok
write c 6 -> ok
bytes /m -> abc
metadata /m -> len 3, number 5, created 1, modified 6
# folders
mkdir /d/e 1 -> NotFound
mkdir /d 1 -> ok
mkdir /d 1 -> Exists
mkdir /d/e 2 -> ok
rmdir /d 3 -> Exists
remove /d 3 -> Forbidden
rmdir / 3 -> Forbidden
rename /d /d/e 3 -> Forbidden
rmdir /d/e 3 -> ok
metadata /d -> folder, number 1, created 1, modified 3
rmdir /d 4 -> ok
list / ->
# a listing is in the order of the names' bytes
mkdir /g 1 -> ok
mkdir /f 1 -> ok
mkdir /f-x 1 -> ok
open /f/a read,create,write 1 -> ok
list / -> f/ f-x/ g/
entry 2 -> folder, number 1, created 1, modified 1
rmdir /g 2 -> ok
entry 2 -> NotFound
list /f -> a
# a copy has the bytes and the dead properties
open /f read,create,write 1 -> ok
write one 1 -> ok
set /f foo v -> 200 foo without xml
properties /f -> foo=v
copy /f /g 2 -> ok
property /g foo v -> as it was set
metadata /g -> len 3, number 3, created 2, modified 2
unset /f foo -> 200 foo without xml
property /f foo -> NotFound
bytes /g -> one
copy /f /f 3 -> Forbidden
# a file and its properties, from its creation to its removal
open /f read,create,write 1 -> ok
write one 2 -> ok
buffer two 3 -> ok
bytes /f -> onetwo
metadata /f -> len 6, number 3, created 1, modified 3
set /f b two -> 200 b without xml
set /f a one -> 200 a without xml
set /f :c three -> 200 c without xml
properties /f -> c=three a=one b=two
names /f -> c a b
property /f a one -> as it was set
property /f :a one -> NotFound
set /f a first -> 200 a without xml
property /f a first -> as it was set
unset /f b -> 200 b without xml
unset /f b -> 200 b without xml
property /f b -> NotFound
set /f d -> 200 d without xml
property /f d -> NotFound
properties /f -> c=three a=first d
metadata /f -> len 6, number 3, created 1, modified 3
copy /f /g 4 -> ok
metadata /g -> len 6, number 4, created 4, modified 4
bytes /g -> onetwo
properties /g -> c=three a=first d
names /g -> c a d
set /g a other -> 200 a without xml
property /g a other -> as it was set
property /f a first -> as it was set
rename /f /h 5 -> ok
metadata /h -> len 6, number 3, created 1, modified 3
properties /h -> c=three a=first d
property /h :c three -> as it was set
properties /f -> NotFound
names /f -> NotFound
property /f a -> NotFound
set /f a one -> NotFound
write x 6 -> ok
metadata /h -> len 7, number 5, created 1, modified 6
properties /h -> c=three a=first d
list / -> g h
entry 1 -> len 7, number 5, created 1, modified 6
remove /h 7 -> ok
entry 1 -> NotFound
entry 0 -> len 6, number 4, created 4, modified 4
properties /h -> NotFound
unset /h a -> NotFound
open /h read,create,write 8 -> ok
entry 1 -> len 0, number 6, created 8, modified 8
properties /h ->
property /h a -> NotFound
# no number is left for the file
next 18446744073709551615 -> ok
open /f read,create,write 1 -> GeneralFailure
# no number is left for its bytes
next 18446744073709551614 -> ok
open /f read,create,write 1 -> ok
write x 1 -> GeneralFailure
metadata /f -> len 0, number 18446744073709551614, created 1, modified 1
# the most bytes of a file, places of a seek, and a gap
open /f read,create,write 1 -> ok
seek start 2147483647 -> 2147483647
write x 1 -> TooLarge
metadata /f -> len 0, number 1, created 1, modified 1
seek here -2147483648 -> GeneralFailure
seek start 2 -> 2
buffer x 1 -> ok
flush -> ok
told -> len 3, number 2, created 1, modified 1
bytes /f -> \0\0x
open /f read 1 -> ok
write x 1 -> Forbidden
# what a store says of itself
has_properties / -> yes
quota -> NotImplemented
set_accessed / 1 -> NotImplemented
set_modified / 1 -> NotImplemented
link / -> folder, number 0, created 0, modified 0
# what is saved of a store
saved #1 #1 #0 #0 #0 0 #0 #0 #0 -> yes
mkdir /d 1 -> ok
open /d/f read,create,write 2 -> ok
write ab 3 -> ok
set /d :x -> 200 x without xml
saved #4 #3 #0 #0 #0 0 #0 #0 #1 #1 #1 'd' #1 #1 0 #1 #0 #1 'x' 0 #1 #2 #2 #1 'd' #1 'f' #2 #3 1 #2 'ab' #0 #2 #3 -> yes
reload -> fronts are refused
bytes /d/f -> ab
metadata /d/f -> len 2, number 3, created 2, modified 3
properties /d -> x
list /d -> f
metadata / -> folder, number 0, created 0, modified 1
short -> no
open /d/f write 4 -> ok
write c 4 -> ok
open /g read,create,write 5 -> ok
metadata /d/f -> len 2, number 4, created 2, modified 4
metadata /g -> len 0, number 5, created 5, modified 5
reload -> fronts are refused
list / -> d/ g
bytes /d/f -> cb
# a store that is loaded: the root, the folder /d with a property, and the file /d/f
load #4 #3 #0 #0 #0 0 #0 #0 #0 #1 #1 'd' #1 #1 0 #1 #0 #1 'x' 0 #1 #2 #2 #1 'd' #1 'f' #2 #3 1 #2 'ab' #0 #2 #3 -> ok
bytes /d/f -> ab
metadata /d/f -> len 2, number 3, created 2, modified 3
mkdir /d/e 4 -> ok
metadata /d/e -> folder, number 4, created 4, modified 4
rename /d /c 5 -> ok
list /c -> e/ f
properties /c -> x
load #1 #1 #0 #0 #0 0 #0 #0 #0 7 -> more
load #18446744073709551615 #1 #0 #0 #0 0 #0 #253402300799 #253402300799 -> ok
mkdir /d 1 -> GeneralFailure
# the root, and it alone begins
load #4 #0 -> NotSaved
load #4 #1 #1 #1 'd' #1 #1 0 #0 #0 #0 -> NotSaved
load #4 #1 #0 #0 #0 1 #1 'a' #0 #0 #0 -> NotSaved
load #4 #1 #0 #1 #1 0 #0 #0 #0 -> NotSaved
load #4 #2 #0 #0 #0 0 #0 #0 #0 #0 #1 #1 0 #0 #0 #0 -> NotSaved
# each path once, in order
load #4 #3 #0 #0 #0 0 #0 #0 #0 #1 #1 'd' #1 #1 0 #0 #0 #0 #1 #1 'e' #2 #2 0 #0 #0 #0 -> ok
load #4 #3 #0 #0 #0 0 #0 #0 #0 #1 #1 'd' #1 #1 0 #0 #0 #0 #1 #1 'd' #2 #2 0 #0 #0 #0 -> NotSaved
load #4 #3 #0 #0 #0 0 #0 #0 #0 #1 #1 'e' #1 #1 0 #0 #0 #0 #1 #1 'd' #2 #2 0 #0 #0 #0 -> NotSaved
load #4 #3 #0 #0 #0 0 #0 #0 #0 #2 #1 'd' #1 'f' #1 #1 0 #0 #0 #0 #1 #1 'd' #2 #2 0 #0 #0 #0 -> NotSaved
# each in a folder
load #4 #2 #0 #0 #0 0 #0 #0 #0 #2 #1 'd' #1 'f' #1 #1 0 #0 #0 #0 -> NotSaved
load #4 #3 #0 #0 #0 0 #0 #0 #0 #1 #1 'd' #1 #1 1 #0 #0 #0 #0 #2 #1 'd' #1 'f' #2 #2 0 #0 #0 #0 -> NotSaved
# each change number once, and below the next
load #4 #3 #0 #0 #0 0 #0 #0 #0 #1 #1 'd' #1 #3 0 #0 #0 #0 #1 #1 'e' #2 #2 0 #0 #0 #0 -> ok
load #4 #3 #0 #0 #0 0 #0 #0 #0 #1 #1 'd' #1 #3 0 #0 #0 #0 #1 #1 'e' #2 #3 0 #0 #0 #0 -> NotSaved
load #4 #3 #0 #0 #0 0 #0 #0 #0 #1 #1 'd' #1 #3 0 #0 #0 #0 #1 #1 'e' #1 #2 0 #0 #0 #0 -> NotSaved
load #4 #3 #0 #0 #0 0 #0 #0 #0 #1 #1 'd' #1 #3 0 #0 #0 #0 #1 #1 'e' #3 #3 0 #0 #0 #0 -> NotSaved
load #4 #3 #0 #0 #0 0 #0 #0 #0 #1 #1 'd' #1 #2 0 #0 #0 #0 #1 #1 'e' #2 #3 0 #0 #0 #0 -> NotSaved
load #4 #3 #0 #0 #0 0 #0 #0 #0 #1 #1 'd' #2 #3 0 #0 #0 #0 #1 #1 'e' #1 #2 0 #0 #0 #0 -> NotSaved
load #4 #2 #0 #0 #0 0 #0 #0 #0 #1 #1 'd' #0 #1 0 #0 #0 #0 -> NotSaved
load #4 #2 #0 #0 #0 0 #0 #0 #0 #1 #1 'd' #2 #1 0 #0 #0 #0 -> NotSaved
load #4 #2 #0 #0 #0 0 #0 #0 #0 #1 #1 'd' #1 #4 0 #0 #0 #0 -> NotSaved
load #0 #1 #0 #0 #0 0 #0 #0 #0 -> NotSaved
# times that are dates
load #1 #1 #0 #0 #0 0 #0 #253402300800 #0 -> NotSaved
load #1 #1 #0 #0 #0 0 #0 #0 #253402300800 -> NotSaved
# properties in order of their keys, each key once
load #1 #1 #0 #0 #0 0 #2 #0 #1 'x' 0 #0 #1 'y' 0 #0 #0 -> ok
load #1 #1 #0 #0 #0 0 #2 #0 #1 'y' 0 #0 #1 'x' 0 #0 #0 -> NotSaved
load #1 #1 #0 #0 #0 0 #2 #0 #1 'x' 0 #0 #1 'x' 0 #0 #0 -> NotSaved
# names
load #4 #2 #0 #0 #0 0 #0 #0 #0 #1 #3 '...' #1 #1 0 #0 #0 #0 -> ok
load #4 #2 #0 #0 #0 0 #0 #0 #0 #1 #0 #1 #1 0 #0 #0 #0 -> NotSaved
load #4 #2 #0 #0 #0 0 #0 #0 #0 #1 #1 '.' #1 #1 0 #0 #0 #0 -> NotSaved
load #4 #2 #0 #0 #0 0 #0 #0 #0 #1 #2 '..' #1 #1 0 #0 #0 #0 -> NotSaved
load #4 #2 #0 #0 #0 0 #0 #0 #0 #1 #3 'a/b' #1 #1 0 #0 #0 #0 -> NotSaved
load #4 #2 #0 #0 #0 0 #0 #0 #0 #1 #2 'a' 0 #1 #1 0 #0 #0 #0 -> NotSaved
"##;

// The store that rows are played on, with one open file and the entries that were listed last.
#[derive(Drop)]
pub(crate) struct Played<F: DavFileSystem> {
    fs: F,
    file: Option<F::File>,
    entries: Vec<F::Entry>,
}

// A row: the name of a call and its arguments.
pub(crate) type Row<'a> = [&'a str; 4];

pub(crate) fn row(line: &str) -> Row<'_> {
    let (call, rest) = line.split_once(' ').unwrap_or((line, ""));
    let (first, rest) = rest.split_once(' ').unwrap_or((rest, ""));
    let (second, third) = rest.split_once(' ').unwrap_or((rest, ""));
    [call, first, second, third]
}

// An owned text; no row expects the error for memory.
pub(crate) fn text(alloc: Global, text: &str) -> FsResult<String> {
    String::from_str(alloc, text).map_err(|_| FsError::InsufficientStorage)
}

pub(crate) fn path(alloc: Global, text: &str) -> FsResult<DavPath> {
    DavPath::new(alloc, text).map_err(|_| FsError::PathTooLong)
}

// The end of the year 9999.
const LAST_MOMENT: u64 = 253_402_300_799;

// The moment of a row; 0 where it is none.
pub(crate) fn moment(text: &str) -> u64
    ensures { result ≤ last_moment }
{
    match text.parse::<u64>() {
        Ok(moment) if moment <= LAST_MOMENT => moment,
        _ => 0,
    }
}

pub(crate) fn options(words: &str) -> OpenOptions {
    let mut options = OpenOptions::default();
    for word in words.split(',') {
        match word {
            "read" => options.read = true,
            "write" => options.write = true,
            "create" => options.create = true,
            "truncate" => options.truncate = true,
            "append" => options.append = true,
            _ => options.create_new = true,
        }
    }
    options
}

// The metadata of a file or folder, as text.
pub(crate) fn shown(alloc: Global, found: &DavMetaData) -> FsResult<String> {
    let number = found.number.unwrap_or(u64::MAX);
    let (created, modified) = (found.created, found.modified);
    let text = if found.dir {
        format!(in alloc; "folder, number {number}, created {created}, modified {modified}")
    } else {
        let len = found.len;
        format!(in alloc; "len {len}, number {number}, created {created}, modified {modified}")
    };
    text.map_err(|_| FsError::InsufficientStorage)
}

fn push(text: &mut String, part: &str) -> FsResult<()> {
    text.push_str(part)
        .map_err(|_| FsError::InsufficientStorage)
}

// Bytes as a text: a zero byte is `\0`.
pub(crate) fn readable(alloc: Global, bytes: &[u8]) -> FsResult<String> {
    let mut text = String::new(alloc);
    for byte in bytes {
        let pushed = if *byte == 0 {
            text.push_str("\\0")
        } else {
            text.push(*byte as char)
        };
        pushed.map_err(|_| FsError::InsufficientStorage)?;
    }
    Ok(text)
}

impl<F: DavFileSystem> Played<F> {
    // Makes the call of a row, and returns its answer as text.
    pub(crate) fn play(&mut self, alloc: Global, row: Row<'_>) -> FsResult<String> {
        match row[0] {
            "mkdir" | "rmdir" | "remove" | "rename" | "copy" => self.change(alloc, row),
            "open" | "told" | "flush" | "seek" => self.handle(alloc, row),
            "write" | "buffer" => self.write(alloc, row),
            "bytes" => self.bytes(alloc, row),
            "metadata" | "link" | "entry" => self.metadata(alloc, row),
            "list" => self.list(alloc, row),
            "set" | "unset" => self.patch(alloc, row),
            "properties" | "names" => self.properties(alloc, row),
            "property" => self.property(alloc, row),
            _ => self.ask(alloc, row),
        }
    }

    fn change(&mut self, alloc: Global, row: Row<'_>) -> FsResult<String> {
        let [call, first, second, third] = row;
        let at = path(alloc, first)?;
        match call {
            "mkdir" => self.fs.create_dir(alloc, &at, moment(second))?,
            "rmdir" => self.fs.remove_dir(&at, moment(second))?,
            "remove" => self.fs.remove_file(&at, moment(second))?,
            _ => self.bring(alloc, call, &at, &path(alloc, second)?, moment(third))?,
        }
        text(alloc, "ok")
    }

    fn bring(
        &mut self,
        alloc: Global,
        call: &str,
        from: &DavPath,
        to: &DavPath,
        now: u64,
    ) -> FsResult<()>
        requires { now ≤ last_moment }
    {
        match call {
            "rename" => self.fs.rename(alloc, from, to, now),
            _ => self.fs.copy(alloc, from, to, now),
        }
    }

    fn handle(&mut self, alloc: Global, row: Row<'_>) -> FsResult<String> {
        let [call, first, second, third] = row;
        if call == "open" {
            let at = path(alloc, first)?;
            self.file = Some(self.fs.open(alloc, &at, &options(second), moment(third))?);
            return text(alloc, "ok");
        }
        let Some(file) = &mut self.file else {
            return Err(FsError::IsRemote);
        };
        match call {
            "told" => shown(alloc, &self.fs.file_metadata(file)?),
            "flush" => {
                self.fs.flush(file)?;
                text(alloc, "ok")
            }
            _ => {
                let place = self.fs.seek(file, place(first, second))?;
                format!(in alloc; "{place}").map_err(|_| FsError::InsufficientStorage)
            }
        }
    }

    fn write(&mut self, alloc: Global, row: Row<'_>) -> FsResult<String> {
        let [call, first, second, _] = row;
        let Some(file) = &mut self.file else {
            return Err(FsError::IsRemote);
        };
        let now = moment(second);
        if call == "buffer" {
            self.fs.write_buf(alloc, file, first.as_bytes(), now)?;
        } else {
            let bytes = Bytes::copy_from_slice(alloc, first.as_bytes());
            let bytes = bytes.map_err(|_| FsError::InsufficientStorage)?;
            self.fs.write_bytes(alloc, file, bytes, now)?;
        }
        text(alloc, "ok")
    }

    // All bytes of a file that is opened for it.
    fn bytes(&mut self, alloc: Global, row: Row<'_>) -> FsResult<String> {
        let at = path(alloc, row[1])?;
        let mut file = self.fs.open(alloc, &at, &OpenOptions::read(), 1)?;
        let bytes = self.fs.read_bytes(alloc, &mut file, 100)?;
        readable(alloc, &bytes)
    }

    fn metadata(&mut self, alloc: Global, row: Row<'_>) -> FsResult<String> {
        let [call, first, _, _] = row;
        if call == "entry" {
            let place = first.parse::<usize>().unwrap_or(usize::MAX);
            let Some(entry) = self.entries.get(place) else {
                return Err(FsError::IsRemote);
            };
            return shown(alloc, &self.fs.entry_metadata(entry)?);
        }
        let at = path(alloc, first)?;
        let found = match call {
            "link" => self.fs.symlink_metadata(&at)?,
            _ => self.fs.metadata(&at)?,
        };
        shown(alloc, &found)
    }

    fn list(&mut self, alloc: Global, row: Row<'_>) -> FsResult<String> {
        let at = path(alloc, row[1])?;
        self.entries = self.fs.read_dir(alloc, &at, ReadDirMeta::DataSymlink)?;
        let mut names = String::new(alloc);
        for entry in &self.entries {
            let is_folder = entry.is_dir() && !entry.is_file();
            tell(alloc, &mut names, entry.name(), is_folder)?;
        }
        Ok(names)
    }

    fn patch(&mut self, alloc: Global, row: Row<'_>) -> FsResult<String> {
        let [call, first, second, third] = row;
        let at = path(alloc, first)?;
        let mut patches = Vec::new(alloc);
        let patch = (call == "set", property(alloc, second, third)?);
        patches
            .push(patch)
            .map_err(|_| FsError::InsufficientStorage)?;
        let answers = self.fs.patch_props(alloc, &at, patches)?;
        match answers.as_slice() {
            [(status, property)] => answered(alloc, *status, property),
            _ => Err(FsError::IsRemote),
        }
    }

    fn properties(&mut self, alloc: Global, row: Row<'_>) -> FsResult<String> {
        let at = path(alloc, row[1])?;
        let list = self.fs.get_props(alloc, &at, row[0] == "properties")?;
        named(alloc, &list)
    }

    fn property(&mut self, alloc: Global, row: Row<'_>) -> FsResult<String> {
        let at = path(alloc, row[1])?;
        let wanted = property(alloc, row[2], row[3])?;
        let found = self.fs.get_prop(alloc, &at, &wanted)?;
        as_it_was(alloc, &wanted, &found)
    }

    fn ask(&mut self, alloc: Global, row: Row<'_>) -> FsResult<String> {
        let [call, first, second, _] = row;
        let answer = match call {
            "short" => self.fs.was_short(),
            "quota" => self.fs.get_quota()?.0 > 0,
            _ => {
                let at = path(alloc, first)?;
                match call {
                    "has_properties" => self.fs.have_props(&at),
                    "set_accessed" => self.fs.set_accessed(&at, moment(second)).map(|_| true)?,
                    "set_modified" => self.fs.set_modified(&at, moment(second)).map(|_| true)?,
                    _ => return text(alloc, "no such call"),
                }
            }
        };
        text(alloc, if answer { "yes" } else { "no" })
    }
}

pub(crate) fn place(from: &str, count: &str) -> SeekFrom {
    match from {
        "start" => SeekFrom::Start(count.parse::<u64>().unwrap_or(0)),
        "end" => SeekFrom::End(count.parse::<i64>().unwrap_or(0)),
        _ => SeekFrom::Current(count.parse::<i64>().unwrap_or(0)),
    }
}

// The property that a row names, with this value; without an element where the value is empty.
pub(crate) fn property(alloc: Global, name: &str, value: &str) -> FsResult<DavProp> {
    let (namespace, name) = match name.strip_prefix(':') {
        Some(name) => ("", name),
        None => ("urn:n", name),
    };
    let property = DavProp::new(alloc, name, "n", namespace, value);
    let mut property = property.map_err(|_| FsError::InsufficientStorage)?;
    if value.is_empty() {
        property.xml = None;
    }
    Ok(property)
}

// Adds an entry of a listing.
pub(crate) fn tell(alloc: Global, told: &mut String, name: &[u8], is_folder: bool) -> FsResult<()> {
    if !told.is_empty() {
        push(told, " ")?;
    }
    push(told, readable(alloc, name)?.as_str())?;
    push(told, if is_folder { "/" } else { "" })
}

// The names of properties, with their values where they have elements.
pub(crate) fn named(alloc: Global, list: &[DavProp]) -> FsResult<String> {
    let mut names = String::new(alloc);
    for property in list {
        if !names.is_empty() {
            push(&mut names, " ")?;
        }
        push(&mut names, &property.name)?;
        if let Some(xml) = &property.xml {
            push(&mut names, "=")?;
            push(&mut names, value_of(alloc, xml)?.as_str())?;
        }
    }
    Ok(names)
}

// Whether the element of a property is the one that was found, as text.
pub(crate) fn as_it_was(alloc: Global, wanted: &DavProp, found: &Element) -> FsResult<String> {
    let is_same = wanted.xml.as_ref() == Some(found);
    text(alloc, if is_same { "as it was set" } else { "another" })
}

// The value in the element of a property.
fn value_of(alloc: Global, xml: &Element) -> FsResult<String> {
    let value = xml.get_text(alloc);
    let value = value.map_err(|_| FsError::InsufficientStorage)?;
    value.ok_or(FsError::IsRemote)
}

// The answer to a change of a property, as text.
pub(crate) fn answered(alloc: Global, status: StatusCode, property: &DavProp) -> FsResult<String> {
    let xml = if property.xml.is_none() {
        "without xml"
    } else {
        "with xml"
    };
    let (status, name) = (status.as_u16(), property.name.as_str());
    format!(in alloc; "{status} {name} {xml}").map_err(|_| FsError::InsufficientStorage)
}

// A new store, whose next change takes this number.
pub(crate) fn begun(alloc: Global, next: u64) -> Result<Played<MemFs>, Fail> {
    Ok(Played {
        fs: MemFs::new_at(alloc, next)?,
        file: None,
        entries: Vec::new(alloc),
    })
}

// Asserts that a call answers what its row says.
fn check(rt: &impl Abort, alloc: Global, line: &str, answer: FsResult<String>) -> Result<(), Fail> {
    let (_, wanted) = line.split_once(" ->").unwrap_or((line, " no answer"));
    let found = match answer {
        Ok(found) => found,
        Err(error) => format!(in alloc; "{error}")?,
    };
    assert!(*rt; found.as_str() == wanted.trim(), "{line}: {found}");
    Ok(())
}

// Adds the bytes that a word means.
fn push_word(bytes: &mut Vec<u8>, word: &str) -> Result<(), Fail> {
    if let Some(number) = word.strip_prefix('#') {
        bytes.extend_from_slice(&number.parse::<u64>()?.to_be_bytes())?;
    } else if let Some(name) = word.strip_prefix('\'') {
        bytes.extend_from_slice(name.trim_end_matches('\'').as_bytes())?;
    } else {
        bytes.push(word.parse::<u8>()?)?;
    }
    Ok(())
}

// The bytes of a row.
fn bytes_of(alloc: Global, row: Row<'_>) -> Result<Vec<u8>, Fail> {
    let mut bytes = Vec::new(alloc);
    for words in &row[1..] {
        for word in words.split(' ') {
            if !word.is_empty() {
                push_word(&mut bytes, word)?;
            }
        }
    }
    Ok(bytes)
}

// Whether a store is saved as the bytes of a row.
fn is_saved_as(alloc: Global, fs: &MemFs, row: Row<'_>) -> Result<bool, Fail> {
    let mut saved = Vec::new(alloc);
    fs.save(&mut saved)?;
    Ok(saved == bytes_of(alloc, row)?)
}

// Goes on with the store that is loaded from bytes, and answers whether they are one, and nothing more.
fn load(alloc: Global, fs: &mut MemFs, bytes: &[u8]) -> &'static str {
    match MemFs::load(alloc, 1, bytes) {
        Ok((loaded, rest)) => {
            let is_all = rest.is_empty();
            *fs = loaded;
            if is_all { "ok" } else { "more" }
        }
        Err(LoadError::NotSaved) => "NotSaved",
        Err(LoadError::Memory) => "Memory",
    }
}

// Goes on with the store that is loaded from what is saved of it, and answers whether each front of that is refused.
fn reload(alloc: Global, fs: &mut MemFs) -> Result<&'static str, Fail> {
    let mut saved = Vec::new(alloc);
    fs.save(&mut saved)?;
    for end in 0..saved.len() {
        if load(alloc, fs, &saved[..end]) != "NotSaved" {
            return Ok("a front is taken");
        }
    }
    if load(alloc, fs, &saved) == "ok" {
        Ok("fronts are refused")
    } else {
        Ok("it is refused")
    }
}

// Makes the call of a row: here, where it is about whole stores, and else on the store.
fn play(
    alloc: Global,
    played: &mut Played<MemFs>,
    other: &mut MemFs,
    row: Row<'_>,
) -> Result<FsResult<String>, Fail> {
    match row[0] {
        "saved" => {
            let is_so = is_saved_as(alloc, &played.fs, row)?;
            return Ok(text(alloc, if is_so { "yes" } else { "no" }));
        }
        "load" => {
            let bytes = bytes_of(alloc, row)?;
            return Ok(text(alloc, load(alloc, &mut played.fs, &bytes)));
        }
        "reload" => return Ok(text(alloc, reload(alloc, &mut played.fs)?)),
        "next" => *played = begun(alloc, row[1].parse::<u64>()?)?,
        "clone" => *other = played.fs.clone()?,
        "other" => mem::swap(&mut played.fs, other),
        _ => return Ok(played.play(alloc, row)),
    }
    Ok(text(alloc, "ok"))
}

// Plays a line: a title, which begins a new store, or a row.
fn play_line(
    rt: &impl Abort,
    alloc: Global,
    played: &mut Played<MemFs>,
    other: &mut MemFs,
    line: &str,
) -> Result<(), Fail> {
    if line.starts_with('#') {
        *played = begun(alloc, 1)?;
        return Ok(());
    }
    let (asked, _) = line.split_once(" ->").unwrap_or((line, ""));
    let answer = play(alloc, played, other, row(asked))?;
    check(rt, alloc, line, answer)
}

#[test]
fn plays_rows(rt: HostRuntime) -> Result<(), Fail> {
    let mut played = begun(rt.alloc(), 1)?;
    let mut other = MemFs::new(rt.alloc())?;
    for line in ROWS.lines().skip(1) {
        play_line(&rt, rt.alloc(), &mut played, &mut other, line)?;
    }
    Ok(())
}
