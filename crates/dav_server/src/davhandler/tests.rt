//! How servers are made, and replies that were worked out by hand from RFC 4918.
use super::*;
use crate::asserting::same;
use crate::rows::{NoRow, Player, play_rows, unescaped};
use dav_core::element::Element;
use dav_core::errors::FsResult;
use dav_engine::ReplyBody;
use dav_store::memfs::MemFs;
use dav_store::memls::MemLs;
use http_header::{HeaderName, HeaderValue};
use std::test::Fail;

// A request one second after 1970 began, and its reply. After ` | ` comes its body: `tree 64` (that many nested elements) or
// `allprop 64` (such a tree that asks for all properties). A script of dav_run has no room for trees as deep.
const TREES: &str = r##"# PROPFIND takes trees up to 64 elements deep
PROPFIND / HTTP/1.1\r\nDepth: 0\r\n\r\n | allprop 64 -> 207\ncache-control: no-cache\npragma: no-cache\ncontent-type: application/xml; charset=utf-8\n\n /\n
PROPFIND / HTTP/1.1\r\nDepth: 0\r\n\r\n | allprop 65 -> 400\ncontent-length: 0\n
PROPFIND / HTTP/1.1\r\nDepth: infinity\r\n\r\n | allprop 65 -> 400\ncontent-length: 0\n
PROPFIND / HTTP/1.1\r\nDepth: 0\r\n\r\n | tree 64 -> 400\ncontent-length: 0\n
"##;

// Adds a header on a line.
fn add_header(text: &mut String, name: &HeaderName, value: &HeaderValue) -> Result<(), Fail> {
    text.push_str(name.as_str())?;
    text.push_str(": ")?;
    text.push_str(value.to_str()?)?;
    text.push_str("\n")?;
    Ok(())
}

// Adds the texts of a response on a line.
fn add_response(alloc: Global, text: &mut String, response: &Element) -> Result<(), Fail> {
    for part in response.child_elems() {
        if let Some(value) = part.get_text(alloc)? {
            text.push(' ')?;
            text.push_str(&value)?;
        }
    }
    text.push_str("\n")?;
    Ok(())
}

// Adds each response of a multistatus.
fn add_responses(alloc: Global, text: &mut String, tree: &Element) -> Result<(), Fail> {
    for response in tree.child_elems() {
        add_response(alloc, text, response)?;
    }
    Ok(())
}

// Adds a body after an empty line.
fn add_body(alloc: Global, text: &mut String, body: &ReplyBody) -> Result<(), Fail> {
    match body {
        ReplyBody::Nothing => {}
        ReplyBody::Bytes(bytes) => {
            text.push_str("\n")?;
            text.push_str(str::from_utf8(bytes)?)?;
        }
        ReplyBody::Tree(tree) => {
            text.push_str("\n")?;
            add_responses(alloc, text, tree)?;
        }
    }
    Ok(())
}

/// A reply in one text: its status, each header on a line, and after an empty line the bytes of its body, or the texts of its
/// responses, each on a line.
pub(crate) fn shown(alloc: Global, reply: &Reply) -> Result<String, Fail> {
    let mut text = format!(in alloc; "{}\n", reply.status.as_u16())?;
    for (name, value) in reply.headers.iter() {
        add_header(&mut text, name, value)?;
    }
    add_body(alloc, &mut text, &reply.body)?;
    Ok(text)
}

/// A server of a new store in memory, with locks, below a prefix, that allows every method.
pub(super) fn server_below(
    alloc: Global,
    prefix: &str,
) -> Result<DavHandler<MemFs, MemLs>, HandlerError> {
    let fs = MemFs::new(alloc)?;
    let ls = MemLs::new(alloc)?;
    DavHandler::new(alloc, prefix, DavMethodSet::all(), fs, Some(ls))
}

// Such a server below no prefix.
fn new_server(alloc: Global) -> Result<DavHandler<MemFs, MemLs>, Fail> {
    Ok(server_below(alloc, "")?)
}

// Whether an exclusive lock on a path and on all below it is granted, by the token `urn:t:1`.
fn lock<L: DavLockSystem>(
    alloc: Global,
    ls: &mut L,
    path: &str,
    principal: Option<&str>,
) -> Result<bool, ParseError> {
    let path = DavPath::new(alloc, path)?;
    let granted = ls.lock(
        alloc, &path, principal, None, None, false, true, "urn:t:1", 1,
    );
    Ok(granted.is_ok())
}

/// Requests such a lock for anna; the answer as text.
pub(super) fn lock_for_anna<L: DavLockSystem>(
    alloc: Global,
    ls: &mut Option<L>,
    path: &str,
) -> Result<Vec<u8>, Fail> {
    let granted = match ls {
        Some(ls) => lock(alloc, ls, path, Some("anna"))?,
        None => false,
    };
    let answer = if granted { "granted" } else { "refused" };
    Ok(Vec::from_slice(alloc, answer.as_bytes())?)
}

// A tree of this many nested elements; 1 at least.
fn nested(alloc: Global, depth: usize) -> Result<Element, NoMemory> {
    let mut tree = Element::new(alloc, "x")?;
    for _ in 1..depth {
        let mut outer = Element::new(alloc, "x")?;
        outer.push_element(tree)?;
        tree = outer;
    }
    Ok(tree)
}

// What asks for all properties, in a tree of this many nested elements; 2 at least.
fn asking_for_all(alloc: Global, depth: usize) -> Result<Element, NoMemory> {
    let mut tree = Element::new(alloc, "propfind")?;
    tree.namespace = Some(String::from_str(alloc, "DAV:")?);
    tree.push_element(Element::new(alloc, "allprop")?)?;
    tree.push_element(nested(alloc, depth.saturating_sub(1))?)?;
    Ok(tree)
}

// A tree by its kind.
fn tree_of(alloc: Global, text: &'static str) -> Result<Element, Fail> {
    let (kind, depth) = text.split_once(' ').ok_or(NoRow(text))?;
    let depth = depth.parse()?;
    match kind {
        "allprop" => Ok(asking_for_all(alloc, depth)?),
        _ => Ok(nested(alloc, depth)?),
    }
}

// Plays requests.
#[derive(Drop)]
struct Requests<F: DavFileSystem + Drop, L: DavLockSystem + Drop> {
    server: DavHandler<F, L>,
}

impl<F: DavFileSystem + Drop, L: DavLockSystem + Drop> Player for Requests<F, L> {
    fn begin(&mut self, _alloc: Global) -> Result<(), Fail> {
        Ok(())
    }

    fn answer(&mut self, alloc: Global, question: &'static str) -> Result<Vec<u8>, Fail> {
        let (head, tree) = question.split_once(" | ").ok_or(NoRow(question))?;
        let head = unescaped(alloc, head)?;
        let body = Body::Tree(tree_of(alloc, tree)?);
        let exchange = Exchange::new(&head, body, None, 1, None)?;
        let reply = self.server.handle(alloc, &exchange)?;
        Ok(shown(alloc, &reply)?.into_bytes())
    }
}

#[test]
fn answers_requests_with_deep_trees(rt: HostRuntime) -> Result<(), Fail> {
    let server = new_server(rt.alloc())?;
    play_rows(&rt, &mut Requests { server }, TREES)
}

const PREFIXES: &str = r##"# prefixes
 -> taken
/dav -> taken
/dav/ -> taken
# other texts
dav -> BadPrefix
/a%20b -> BadPrefix
/a//b -> BadPrefix
"##;

// Makes a server below a prefix.
#[derive(Drop)]
struct Prefixes;

impl Player for Prefixes {
    fn begin(&mut self, _alloc: Global) -> Result<(), Fail> {
        Ok(())
    }

    fn answer(&mut self, alloc: Global, question: &'static str) -> Result<Vec<u8>, Fail> {
        match server_below(alloc, question) {
            Ok(_) => Ok(Vec::from_slice(alloc, b"taken")?),
            Err(error) => Ok(format!(in alloc; "{error}")?.into_bytes()),
        }
    }
}

#[test]
fn takes_prefixes(rt: HostRuntime) -> Result<(), Fail> {
    play_rows(&rt, &mut Prefixes, PREFIXES)
}

// A server of a store with one folder, and of a list with one lock on it, which has no principal.
fn lending_server(alloc: Global, folder: &DavPath) -> Result<DavHandler<MemFs, MemLs>, Fail> {
    let mut fs = MemFs::new(alloc)?;
    make_folder(alloc, &mut fs, folder)?;
    let mut ls = MemLs::new(alloc)?;
    lock(alloc, &mut ls, "/d", None)?;
    Ok(DavHandler::new(alloc, "", DavMethodSet::all(), fs, Some(ls))?)
}

// Makes a folder.
fn make_folder<F: DavFileSystem>(alloc: Global, fs: &mut F, path: &DavPath) -> FsResult<()> {
    fs.create_dir(alloc, path, 1)
}

// Whether a store has a folder at a path.
fn has_folder<F: DavFileSystem>(fs: &mut F, path: &DavPath) -> bool {
    fs.metadata(path).is_ok_and(|found| found.is_dir())
}

// How many locks of a server cover a path.
fn count_locks<F: DavFileSystem, L: DavLockSystem>(
    alloc: Global,
    server: &DavHandler<F, L>,
    path: &DavPath,
) -> Result<usize, NoMemory> {
    match server.locks() {
        Some(locks) => Ok(locks.discover(alloc, path)?.len()),
        None => Ok(0),
    }
}

#[test]
fn lends_its_store_and_its_locks(rt: HostRuntime) -> Result<(), Fail> {
    let d = DavPath::new(rt.alloc(), "/d")?;
    let server = lending_server(rt.alloc(), &d)?;
    same(&rt, &has_folder(&mut server.fs().clone()?, &d), &true);
    same(&rt, &count_locks(rt.alloc(), &server, &d)?, &1);
    Ok(())
}

/// A server without locks.
pub(crate) fn lockless_server(alloc: Global) -> Result<DavHandler<MemFs, MemLs>, Fail> {
    Ok(DavHandler::new(alloc, "", DavMethodSet::all(), MemFs::new(alloc)?, None)?)
}

#[test]
fn lends_no_locks_where_there_are_none(rt: HostRuntime) -> Result<(), Fail> {
    same(&rt, &lockless_server(rt.alloc())?.locks().is_none(), &true);
    Ok(())
}
