//! A store as a list of paths and nodes, in order of the paths, that each call walks.
ghost use Rattle.std.specs.Prelude.{◌≤◌};
ghost use Rattle.dav_core.specs.World.{last_moment};

use crate::memfs::MAX_FILE_LEN;
use crate::memfs::tests::{
    Row, answered, as_it_was, moment, named, options, path, place, property, readable, shown, tell,
    text,
};
use crate::node::Node;
use dav_core::davpath::DavPath;
use dav_core::errors::{FsError, FsResult};
use dav_core::fs::{DavMetaData, OpenOptions};
use std::alloc::Global;
use std::io::SeekFrom;
use std::test::Fail;

// The names of a path, from the root down.
type Names = Vec<Vec<u8>>;

#[derive(Drop)]
pub(super) struct ListedFs {
    nodes: Vec<(Names, Node)>,
    next: u64,
    file: Option<ListedFile>,
    entries: Vec<Names>,
}

// An open file: the file that was made with this number.
#[derive(Drop)]
struct ListedFile {
    made: u64,
    place: u64,
    writes: bool,
    appends: bool,
}

// A file that is opened at its beginning.
fn opened_file(made: u64, options: &OpenOptions) -> ListedFile {
    ListedFile {
        made,
        place: 0,
        writes: options.write || options.append,
        appends: options.append,
    }
}

// What a call that allocates answers where memory runs out.
fn made<T, E: Drop>(answer: Result<T, E>) -> FsResult<T> {
    match answer {
        Ok(value) => Ok(value),
        Err(_) => Err(FsError::InsufficientStorage),
    }
}

fn names_of(alloc: Global, path: &DavPath) -> FsResult<Names> {
    let mut names = Vec::new(alloc);
    for name in path.segments() {
        made(names.push(made(name.to_vec(alloc))?))?;
    }
    Ok(names)
}

// The names of the folder of a path.
fn folder(names: &[Vec<u8>]) -> &[Vec<u8>] {
    match names {
        [] => &[],
        [front @ .., _] => front,
    }
}

// The name at the end of a path.
fn last(names: &[Vec<u8>]) -> &[u8] {
    match names {
        [] => &[],
        [.., last] => last.as_slice(),
    }
}

fn is_at_or_under(names: &[Vec<u8>], front: &[Vec<u8>]) -> bool {
    names.starts_with(front)
}

fn is_under(names: &[Vec<u8>], front: &[Vec<u8>]) -> bool {
    names.len() > front.len() && names.starts_with(front)
}

// The names with others in the place of their front.
fn grafted(names: &[Vec<u8>], front: &[Vec<u8>], to: &Names) -> FsResult<Names> {
    let mut grafted = made(to.clone())?;
    for name in names.iter().skip(front.len()) {
        made(grafted.push(made(name.clone())?))?;
    }
    Ok(grafted)
}

impl ListedFs {
    pub(super) fn new(alloc: Global) -> Result<ListedFs, Fail> {
        let mut nodes = Vec::new(alloc);
        nodes.push((Vec::new(alloc), Node::new_folder(alloc, 0, 0)))?;
        Ok(ListedFs {
            nodes,
            next: 1,
            file: None,
            entries: Vec::new(alloc),
        })
    }

    fn node(&self, at: &[Vec<u8>]) -> FsResult<&Node> {
        for e in &self.nodes {
            if e.0.as_slice() == at {
                return Ok(&e.1);
            }
        }
        Err(FsError::NotFound)
    }

    fn is_folder(&self, at: &[Vec<u8>]) -> bool {
        match self.node(at) {
            Ok(node) => node.is_folder(),
            Err(_) => false,
        }
    }

    fn has_members(&self, at: &[Vec<u8>]) -> bool {
        for e in &self.nodes {
            if is_under(&e.0, at) {
                return true;
            }
        }
        false
    }

    fn file_made_with(&self, made: u64) -> FsResult<&Node> {
        for e in &self.nodes {
            if e.1.creation_number() == made && !e.1.is_folder() {
                return Ok(&e.1);
            }
        }
        Err(FsError::NotFound)
    }

    // The change number that is used up next.
    fn take_number(&mut self) -> FsResult<u64> {
        let number = self.next;
        match number.checked_add(1) {
            Some(next) => {
                self.next = next;
                Ok(number)
            }
            None => Err(FsError::GeneralFailure),
        }
    }

    fn touch_folder(&mut self, at: &[Vec<u8>], now: u64)
        requires { now ≤ last_moment }
    {
        for e in &mut self.nodes {
            if e.0.as_slice() == folder(at) {
                e.1.touch(now);
            }
        }
    }

    // A node at a path, in the place of what is there.
    fn put(&mut self, at: Names, node: Node) -> FsResult<()> {
        self.nodes.retain(|e| e.0 != at);
        let mut place = 0usize;
        for e in &self.nodes {
            if e.0 < at {
                place = place.saturating_add(1);
            }
        }
        made(self.nodes.insert(place.min(self.nodes.len()), (at, node)))
    }

    fn add(&mut self, at: Names, node: Node, now: u64) -> FsResult<()>
        requires { now ≤ last_moment }
    {
        self.touch_folder(&at, now);
        self.put(at, node)
    }

    fn create_dir(&mut self, alloc: Global, at: Names, now: u64) -> FsResult<()>
        requires { now ≤ last_moment }
    {
        if self.node(&at).is_ok() {
            return Err(FsError::Exists);
        }
        if !self.is_folder(folder(&at)) {
            return Err(FsError::NotFound);
        }
        let number = self.take_number()?;
        self.add(at, Node::new_folder(alloc, number, now), now)
    }

    fn remove(&mut self, at: &[Vec<u8>], is_file: bool, now: u64) -> FsResult<()>
        requires { now ≤ last_moment }
    {
        if at.is_empty() || self.node(at)?.is_folder() == is_file {
            return Err(FsError::Forbidden);
        }
        if self.has_members(at) {
            return Err(FsError::Exists);
        }
        self.nodes.retain(|e| e.0.as_slice() != at);
        self.touch_folder(at, now);
        Ok(())
    }

    fn rename(&mut self, alloc: Global, from: &Names, to: &Names, now: u64) -> FsResult<()>
        requires { now ≤ last_moment }
    {
        if from.is_empty() || to.is_empty() {
            return Err(FsError::Forbidden);
        }
        self.node(from)?;
        if from == to {
            return Ok(());
        }
        if is_under(to, from) {
            return Err(FsError::Forbidden);
        }
        if !self.is_folder(folder(to)) {
            return Err(FsError::NotFound);
        }
        if self.has_members(to) {
            return Err(FsError::Exists);
        }
        self.move_nodes(alloc, from, to)?;
        self.touch_folder(to, now);
        self.touch_folder(from, now);
        Ok(())
    }

    // What is at a path and below it goes to another, in the place of what is there.
    fn move_nodes(&mut self, alloc: Global, from: &Names, to: &Names) -> FsResult<()> {
        let nodes = std::mem::replace(&mut self.nodes, Vec::new(alloc));
        let mut moving = Vec::new(alloc);
        for (names, node) in nodes {
            if is_at_or_under(&names, from) {
                made(moving.push((grafted(&names, from, to)?, node)))?;
            } else {
                made(self.nodes.push((names, node)))?;
            }
        }
        for (names, node) in moving {
            self.put(names, node)?;
        }
        Ok(())
    }

    fn copy(&mut self, from: &Names, to: &Names, now: u64) -> FsResult<()>
        requires { now ≤ last_moment }
    {
        if self.node(from)?.is_folder() || from == to || self.is_folder(to) {
            return Err(FsError::Forbidden);
        }
        if !self.is_folder(folder(to)) {
            return Err(FsError::NotFound);
        }
        let number = self.take_number()?;
        let copy = made(self.node(from)?.copy(number, now))?;
        if self.node(to).is_err() {
            return self.add(made(to.clone())?, copy, now);
        }
        self.copy_over(to, copy);
        Ok(())
    }

    // A copy goes where a file is, which stays the node that it was.
    fn copy_over(&mut self, at: &[Vec<u8>], copy: Node) {
        let mut copy = Some(copy);
        for e in &mut self.nodes {
            if e.0.as_slice() == at {
                if let Some(copy) = copy.take() {
                    e.1.become_like(copy);
                }
            }
        }
    }

    fn open(
        &mut self,
        alloc: Global,
        at: Names,
        options: &OpenOptions,
        now: u64,
    ) -> FsResult<ListedFile>
        requires { now ≤ last_moment }
    {
        if let Ok(node) = self.node(&at) {
            let made = node.creation_number();
            if node.is_folder() {
                return Err(FsError::Forbidden);
            }
            if options.create_new {
                return Err(FsError::Exists);
            }
            if options.truncate {
                self.empty(&at, now)?;
            }
            return Ok(opened_file(made, options));
        }
        if !options.create && !options.create_new || !self.is_folder(folder(&at)) {
            return Err(FsError::NotFound);
        }
        let made = self.take_number()?;
        self.add(at, Node::new_file(alloc, made, now), now)?;
        Ok(opened_file(made, options))
    }

    // Takes the bytes of a file away.
    fn empty(&mut self, at: &[Vec<u8>], now: u64) -> FsResult<()>
        requires { now ≤ last_moment }
    {
        let number = self.take_number()?;
        for e in &mut self.nodes {
            if e.0.as_slice() == at {
                e.1.empty(number, now);
            }
        }
        Ok(())
    }

    // Writes bytes to the open file: at its place, or where it is opened to append at its end.
    fn write(&mut self, alloc: Global, bytes: &[u8], now: u64) -> FsResult<()>
        requires { now ≤ last_moment }
    {
        let (made_with, place) = self.opened()?;
        let len = self.file_made_with(made_with)?.bytes().len() as u64;
        if !self.writes() {
            return Err(FsError::Forbidden);
        }
        let place = if self.appends() { len } else { place };
        if place > MAX_FILE_LEN || bytes.len() as u64 > MAX_FILE_LEN - place {
            return Err(FsError::TooLarge);
        }
        if bytes.is_empty() {
            return Ok(());
        }
        let number = self.take_number()?;
        for e in &mut self.nodes {
            if e.1.creation_number() == made_with && !e.1.is_folder() {
                made(e.1.write(alloc, place as usize, bytes, number, now))?;
            }
        }
        self.go_to(place + bytes.len() as u64);
        Ok(())
    }

    // The number that the open file was made with, and its place.
    fn opened(&self) -> FsResult<(u64, u64)> {
        match &self.file {
            Some(file) => Ok((file.made, file.place)),
            None => Err(FsError::IsRemote),
        }
    }

    fn writes(&self) -> bool {
        match &self.file {
            Some(file) => file.writes,
            None => false,
        }
    }

    fn appends(&self) -> bool {
        match &self.file {
            Some(file) => file.appends,
            None => false,
        }
    }

    fn go_to(&mut self, place: u64) {
        if let Some(file) = &mut self.file {
            file.place = place;
        }
    }

    fn seek(&mut self, to: SeekFrom) -> FsResult<u64> {
        let (made, position) = self.opened()?;
        let len = self.file_made_with(made)?.bytes().len() as u64;
        let place = match to {
            SeekFrom::Start(place) => Some(place),
            SeekFrom::End(offset) => len.checked_add_signed(offset),
            SeekFrom::Current(offset) => position.checked_add_signed(offset),
        };
        let place = place.ok_or(FsError::GeneralFailure)?;
        self.go_to(place);
        Ok(place)
    }

    // The metadata of what is at a path, of an entry that was listed, or of the open file.
    fn metadata(&self, alloc: Global, row: Row<'_>) -> FsResult<DavMetaData> {
        let [call, first, _, _] = row;
        match call {
            "told" => Ok(self.file_made_with(self.opened()?.0)?.metadata()),
            "entry" => {
                let place = first.parse::<usize>().unwrap_or(usize::MAX);
                match self.entries.get(place) {
                    Some(names) => Ok(self.node(names)?.metadata()),
                    None => Err(FsError::IsRemote),
                }
            }
            _ => {
                let names = names_of(alloc, &path(alloc, first)?)?;
                Ok(self.node(&names)?.metadata())
            }
        }
    }

    // Lists a folder.
    fn read_dir(&mut self, alloc: Global, at: &Names) -> FsResult<String> {
        if !self.node(at)?.is_folder() {
            return Err(FsError::Forbidden);
        }
        let mut list = Vec::new(alloc);
        let mut told = String::new(alloc);
        for e in &self.nodes {
            if is_under(&e.0, at) && folder(&e.0) == at.as_slice() {
                let (names, dir) = (made(e.0.clone())?, e.1.is_folder());
                tell(alloc, &mut told, last(&names), dir)?;
                made(list.push(names))?;
            }
        }
        self.entries = list;
        Ok(told)
    }

    fn patch(&mut self, alloc: Global, at: &Names, row: Row<'_>) -> FsResult<String> {
        let [call, _, second, third] = row;
        let mut patches = Vec::new(alloc);
        made(patches.push((call == "set", property(alloc, second, third)?)))?;
        let (properties, answers) = made(self.node(at)?.properties().patched(alloc, patches))?;
        let mut properties = Some(properties);
        for e in &mut self.nodes {
            if e.0 == *at {
                if let Some(properties) = properties.take() {
                    e.1.set_properties(properties);
                }
            }
        }
        match answers.as_slice() {
            [(status, property)] => answered(alloc, *status, property),
            _ => Err(FsError::IsRemote),
        }
    }

    // The properties of what is at a path: all, with their elements or without, or whether one is as it was set.
    fn properties(&self, alloc: Global, at: &Names, row: Row<'_>) -> FsResult<String> {
        let [call, _, second, third] = row;
        let properties = self.node(at)?.properties();
        if call != "property" {
            let list = made(properties.list(alloc, call == "properties"))?;
            return named(alloc, &list);
        }
        let wanted = property(alloc, second, third)?;
        match properties.get(&wanted) {
            Some(Some(found)) => as_it_was(alloc, &wanted, found),
            _ => Err(FsError::NotFound),
        }
    }

    // All bytes of a file.
    fn bytes(&self, alloc: Global, at: &Names) -> FsResult<String> {
        let node = self.node(at)?;
        if node.is_folder() {
            return Err(FsError::Forbidden);
        }
        readable(alloc, &made(node.read(0, 100))?)
    }

    // Makes the call of a row that changes a file or folder.
    fn change(&mut self, alloc: Global, at: Names, row: Row<'_>) -> FsResult<String> {
        let [call, _, second, third] = row;
        match call {
            "mkdir" => self.create_dir(alloc, at, moment(second))?,
            "rmdir" => self.remove(&at, false, moment(second))?,
            "remove" => self.remove(&at, true, moment(second))?,
            "open" => {
                self.file = Some(self.open(alloc, at, &options(second), moment(third))?);
            }
            _ => {
                let to = names_of(alloc, &path(alloc, second)?)?;
                match call {
                    "rename" => self.rename(alloc, &at, &to, moment(third))?,
                    _ => self.copy(&at, &to, moment(third))?,
                }
            }
        }
        text(alloc, "ok")
    }

    // Makes the call of a row, and returns its answer as text.
    pub(super) fn play(&mut self, alloc: Global, row: Row<'_>) -> FsResult<String> {
        let [call, first, second, _] = row;
        match call {
            "write" | "buffer" => {
                self.write(alloc, first.as_bytes(), moment(second))?;
                return text(alloc, "ok");
            }
            "flush" => {
                self.file_made_with(self.opened()?.0)?;
                return text(alloc, "ok");
            }
            "seek" => {
                let place = self.seek(place(first, second))?;
                return made(format!(in alloc; "{place}"));
            }
            "metadata" | "entry" | "told" => return shown(alloc, &self.metadata(alloc, row)?),
            _ => {}
        }
        let at = names_of(alloc, &path(alloc, first)?)?;
        match call {
            "list" => self.read_dir(alloc, &at),
            "bytes" => self.bytes(alloc, &at),
            "set" | "unset" => self.patch(alloc, &at, row),
            "properties" | "names" | "property" => self.properties(alloc, &at, row),
            _ => self.change(alloc, at, row),
        }
    }
}
