//! COPY and MOVE by calls of the engine, over a store in memory that refuses calls by a list. What is expected was worked out by
//! hand from RFC 4918, sections 9.8 and 9.9.
use super::engine_calls::{Engine, EngineRequest, nobody, request_of};
use super::tests::{lock_for_anna, shown};
use super::*;
use crate::refusing::Refusing;
use crate::rows::{NoRow, Player, play_rows};
use dav_core::errors::FsError;
use dav_core::fs::OpenOptions;
use dav_engine::reply::multistatus::MultiError;
use dav_headers::Depth;
use dav_store::memfs::MemFs;
use dav_store::memls::MemLs;
use std::test::Fail;

// A request and its reply; or a question: what is at a path, its tag, how many locks cover it; or a call by itself. `refuse`
// names the store call of the next request that is refused, and how.
const COPIES: &str =
    r##"# a file with an escaped name is moved: it is found by another text of its path, with its own number
PUT /a%20b | bytes x -> 201
MOVE /a%20b | destination: /x/../c%20d -> 201\n
at /c%20d -> file x
at /a%20b -> nothing
at /c%2520d -> nothing
MOVE /c%20d | destination: http://other/%61 -> 201\n
at /a -> file x
tag /a -> "2"
# a copy takes the next number, onto a file too, and its source keeps its own
PUT /a | bytes x -> 201
COPY /a | destination: /g -> 201\n
tag /g -> "3"
PUT /a | bytes y -> 204
tag /a -> "5"
at /g -> file x
COPY /a | destination: /g -> 204\n
tag /g -> "6"
tag /a -> "5"
at /g -> file y
# Overwrite F keeps what is there, a file or a folder
PUT /a | bytes x -> 201
PUT /g | bytes y -> 201
MKCOL /d -> 201
PUT /d/m | bytes m -> 201
COPY /a | destination: /g | overwrite: F -> error 412
MOVE /a | destination: /g | overwrite: F -> error 412
COPY /a | destination: /d | overwrite: F -> error 412
MOVE /d | destination: /g | overwrite: F -> error 412
at /g -> file y
at /d/m -> file m
COPY /a | destination: /h | overwrite: F -> 201\n
at /h -> file x
# without it a file replaces a folder with all that is in it, and a folder a file
PUT /a | bytes x -> 201
MKCOL /d -> 201
PUT /d/m | bytes m -> 201
COPY /a | destination: /d | overwrite: T -> 204\n
at /d -> file x
at /d/m -> nothing
MKCOL /e -> 201
PUT /e/n | bytes n -> 201
MOVE /e | destination: /d -> 204\n
at /d/n -> file n
at /e -> nothing
MKCOL /f -> 201
PUT /f/o | bytes o -> 201
COPY /f | destination: /d | overwrite: f -> 204\n
at /d/n -> nothing
at /d/o -> file o
# Depth 0 copies a folder alone, and onto a folder that is there; it removes no folder; MOVE is of infinite depth
MKCOL /d -> 201
PUT /d/a | bytes x -> 201
COPY /d | destination: /e | depth: 1 -> error 400
MOVE /d | destination: /e | depth: 1 -> error 400
MOVE /d | destination: /e | depth: 0 -> error 400
at /e -> nothing
COPY /d | destination: /e | depth: 0 -> 201\n
at /e -> folder
at /e/a -> nothing
COPY /d | destination: /e | depth: infinity -> 204\n
at /e/a -> file x
COPY /d | destination: /e | depth: 0 -> 204\n
at /e/a -> file x
COPY /d/a | destination: /e | depth: 0 -> 403\n
at /e/a -> file x
COPY /d/a | destination: /e/a | depth: 0 -> 204\n
MOVE /d | destination: /m | depth: infinity -> 201\n
at /m/a -> file x
at /d -> nothing
# Destination is missing, no path, or above the root; or no folder is above it, or nothing at the source
PUT /f | bytes x -> 201
COPY /f -> error 400
MOVE /f -> error 400
COPY /f | destination: f -> error 400
COPY /f | destination: ftp://h/g -> error 400
COPY /f | destination: /a%2Fb -> error 400
COPY /f | destination: /../g -> error 403
COPY /none | destination: /g -> error 404
MOVE /none | destination: /g -> error 404
COPY /f | destination: /d/g -> error 409
MOVE /f | destination: /f/g -> error 409
# the prefix is cut from Destination as from the target, before locks are asked
MKCOL /d -> 201
PUT /f | bytes x -> 201
anna locks /d -> granted
COPY /dav/f | prefix /dav | destination: /dav/d/a -> error 423
COPY /dav/f | prefix /dav | destination: /other/x -> error 502
COPY /dav/f | prefix /dav | destination: /davx -> error 502
MOVE /dav/f | prefix /dav | destination: /dav/d/a -> error 423
MOVE /dav/f | prefix /dav | destination: /dav -> error 403
COPY /dav/f | prefix /dav | destination: /dav/g -> 201\n
at /g -> file x
# nothing goes onto itself, or onto a folder above; a folder is copied below itself, and isn't moved there
MKCOL /d -> 201
PUT /d/a | bytes x -> 201
COPY /d | destination: /d/ -> error 403
COPY /d/a | destination: /d/%61 -> error 403
COPY /d/a | destination: /d -> error 403
MOVE /d/a | destination: / -> error 403
COPY /d | destination: /d/c -> 201\n
at /d/c/a -> file x
at /d/c/c -> nothing
MOVE /d | destination: /d/e -> 403\n
at /d/c/a -> file x
MOVE /d | destination: /d/c -> 403\n
at /d/c -> nothing
at /d/a -> file x
COPY / | destination: /c -> 201\n
at /c/d/a -> file x
at /c/c -> nothing
# a file that isn't copied is reported, and the copy goes on
MKCOL /d -> 201
PUT /d/a | bytes a -> 201
PUT /d/b | bytes b -> 201
refuse 9 Forbidden -> next
COPY /d | destination: /e -> 207\ncontent-type: application/xml; charset=utf-8\n\n /d/a HTTP/1.1 403 Forbidden\n
at /e/a -> nothing
at /e/b -> file b
refuse 16 InsufficientStorage -> next
COPY /d | destination: /e -> 207\ncontent-type: application/xml; charset=utf-8\n\n /d/b HTTP/1.1 507 Insufficient Storage\n
at /e/a -> file a
at /e/b -> nothing
at /d/b -> file b
# a member that isn't looked at ends its folder; a folder that isn't made is reported by its own path
MKCOL /d -> 201
PUT /d/a | bytes a -> 201
PUT /d/b | bytes b -> 201
refuse 7 NotFound -> next
COPY /d | destination: /e -> 404\n
at /e -> folder
at /e/a -> nothing
at /e/b -> nothing
refuse 5 Forbidden -> next
COPY /d | destination: /f -> 207\ncontent-type: application/xml; charset=utf-8\n\n /f HTTP/1.1 403 Forbidden\n
at /f -> nothing
# a look at the destination that is refused counts as finding nothing, and the store keeps what is there
MKCOL /d -> 201
PUT /d/a | bytes a -> 201
PUT /f | bytes x -> 201
refuse 3 Forbidden -> next
MOVE /f | destination: /d | overwrite: F -> 405\n
refuse 3 Forbidden -> next
COPY /f | destination: /d | overwrite: F -> 403\n
at /d/a -> file a
at /f -> file x
# what stays at the destination is reported, and nothing is moved
MKCOL /d -> 201
PUT /d/a | bytes a -> 201
PUT /f | bytes x -> 201
refuse 6 Forbidden -> next
MOVE /f | destination: /d -> 207\ncontent-type: application/xml; charset=utf-8\n\n /d/a HTTP/1.1 403 Forbidden\n
at /d/a -> file a
at /f -> file x
# the locks of what is replaced end, and those of what is moved; a lock of the source doesn't keep it from being copied
PUT /f | bytes x -> 201
PUT /g | bytes y -> 201
LOCK /g | lockinfo exclusive -> 200
COPY /f | destination: /g -> error 423
MOVE /f | destination: /g -> error 423
COPY /f | if: (<urn:t:1>) | destination: /g -> 204\n
locks /g -> 0
at /g -> file x
LOCK /f | lockinfo exclusive -> 200
MOVE /f | destination: /h -> error 423
COPY /f | destination: /h -> 201\n
locks /f -> 1
locks /h -> 0
MOVE /f | if: (<urn:t:1>) | destination: /h -> 204\n
locks /f -> 0
locks /h -> 0
at /f -> nothing
# a lock below the source keeps it from being moved, and one below the destination from being replaced
MKCOL /d -> 201
PUT /d/a | bytes a -> 201
PUT /f | bytes x -> 201
LOCK /d/a | lockinfo exclusive -> 200
MOVE /d | destination: /e -> error 423
COPY /f | destination: /d -> error 423
MOVE /f | destination: /d -> error 423
COPY /d | destination: /e -> 201\n
at /e/a -> file a
# conditions are on the source
PUT /f | bytes x -> 201
PUT /g | bytes y -> 201
COPY /f | if-match: "4" | destination: /g -> error 412
MOVE /f | if-none-match: * | destination: /g -> error 412
COPY /f | if: (<DAV:no-lock>) | destination: /g -> error 412
COPY /f | if-match: "2" | destination: /g -> 204\n
# calls by themselves: the top of a copy isn't copied; Depth 0 alone copies no members
MKCOL /d -> 201
PUT /d/a | bytes a -> 201
PUT /d/b | bytes b -> 201
do_copy infinity /d /d/b /e -> ok
at /e/a -> file a
at /e/b -> nothing
do_copy 0 /d /z /g -> ok
do_copy 0 /d /z /g -> ok
at /g -> folder
at /g/a -> nothing
do_copy 1 /d /z /h -> ok
at /h/b -> file b
do_copy infinity /none /z /q -> error 404, 1 reported
do_copy infinity /d /z /g -> error 405, 1 reported
do_move /e /f -> ok
at /f/a -> file a
at /e -> nothing
do_move /e /f -> error 404, 1 reported
do_move /f /d -> error 405, 1 reported
# a removal by itself: at Depth 0 a folder alone, else all that is in it, whatever locks it; and the locks stay
MKCOL /d -> 201
PUT /d/a | bytes a -> 201
PUT /d/b | bytes b -> 201
anna locks /d/b -> granted
delete_items 0 /d -> error 405, 1 reported
at /d/a -> file a
delete_items 0 /d/a -> ok
at /d/a -> nothing
delete_items infinity /d -> ok
at /d -> nothing
locks /d/b -> 1
# a removal goes on where the store refuses, and its error is the last one
MKCOL /d -> 201
PUT /d/a | bytes a -> 201
PUT /d/b | bytes b -> 201
refuse 4 Forbidden -> next
delete_items infinity /d -> error 403, 1 reported
at /d/a -> file a
at /d/b -> nothing
delete_items 1 /d -> ok
at /d -> nothing
# where the store refuses the file of a LOCK, no lock is left, and the next LOCK is granted
refuse 2 InsufficientStorage -> next
LOCK /n | lockinfo exclusive -> error 507
at /n -> nothing
locks /n -> 0
LOCK /n | lockinfo exclusive -> 201
locks /n -> 1
"##;

// The error of this name.
fn error_of(name: &'static str) -> Result<FsError, NoRow> {
    match name {
        "Forbidden" => Ok(FsError::Forbidden),
        "Exists" => Ok(FsError::Exists),
        "NotFound" => Ok(FsError::NotFound),
        "InsufficientStorage" => Ok(FsError::InsufficientStorage),
        _ => Err(NoRow(name)),
    }
}

// The list that refuses the call of a row.
fn refusals_of(alloc: Global, row: &'static str) -> Result<Vec<Option<FsError>>, Fail> {
    let (call, name) = row.split_once(' ').ok_or(NoRow(row))?;
    let call: usize = call.parse()?;
    let mut refusals = Vec::new(alloc);
    for _ in 1..call {
        refusals.push(None)?;
    }
    refusals.push(Some(error_of(name)?))?;
    Ok(refusals)
}

// The depth of this text.
fn depth_of(text: &'static str) -> Result<Depth, NoRow> {
    match text {
        "0" => Ok(Depth::Zero),
        "1" => Ok(Depth::One),
        "infinity" => Ok(Depth::Infinity),
        _ => Err(NoRow(text)),
    }
}

// Paths, between blanks.
fn paths_of(alloc: Global, text: &'static str) -> Result<Vec<DavPath>, Fail> {
    let mut paths = Vec::new(alloc);
    for part in text.split(' ') {
        paths.push(DavPath::new(alloc, part)?)?;
    }
    Ok(paths)
}

// What a call by itself returns, as text.
fn outcome_text(alloc: Global, outcome: DavResult<()>, errors: MultiError) -> Result<String, Fail> {
    let count = errors.into_items().len();
    match outcome {
        Ok(()) => Ok(String::from_str(alloc, "ok")?),
        Err(error) => {
            Ok(format!(in alloc; "error {}, {count} reported", error.statuscode().as_u16())?)
        }
    }
}

impl<F: DavFileSystem + Drop, L: DavLockSystem + Drop> Engine<F, L> {
    // The reply to a request as text: of a COPY or MOVE all of it, else its status.
    fn replied(&mut self, alloc: Global, asked: &EngineRequest) -> Result<String, Fail> {
        match self.handle(alloc, asked) {
            Ok(reply) => match asked.request.method {
                DavMethod::Copy | DavMethod::Move => shown(alloc, &reply),
                _ => Ok(format!(in alloc; "{}", reply.status.as_u16())?),
            },
            Err(error) => Ok(format!(in alloc; "error {}", error.statuscode().as_u16())?),
        }
    }

    // What is at a path, as text.
    fn content(&mut self, alloc: Global, path: &DavPath) -> Result<String, Fail> {
        match self.fs.metadata(path) {
            Err(_) => Ok(String::from_str(alloc, "nothing")?),
            Ok(meta) if meta.dir => Ok(String::from_str(alloc, "folder")?),
            Ok(_) => self.file(alloc, path),
        }
    }

    // The first bytes of a file, as text.
    fn file(&mut self, alloc: Global, path: &DavPath) -> Result<String, Fail> {
        let fs = &mut self.fs;
        let mut file = fs.open(alloc, path, &OpenOptions::read(), 1)?;
        let bytes = fs.read_bytes(alloc, &mut file, 64)?;
        let text = str::from_utf8(&bytes)?;
        Ok(format!(in alloc; "file {text}")?)
    }

    // The entity tag of what is at a path.
    fn tag(&mut self, alloc: Global, path: &DavPath) -> Result<String, Fail> {
        let fs = &mut self.fs;
        match fs.metadata(path)?.tag(alloc)? {
            Some(tag) => Ok(tag),
            None => Ok(String::from_str(alloc, "none")?),
        }
    }

    // How many locks cover a path, as text.
    fn locks(&self, alloc: Global, path: &DavPath) -> Result<String, Fail> {
        let count = match &self.ls {
            Some(ls) => ls.discover(alloc, path)?.len(),
            None => 0,
        };
        Ok(format!(in alloc; "{count}")?)
    }

    // A copy by itself.
    fn copy(&mut self, alloc: Global, text: &'static str) -> Result<String, Fail> {
        let (depth, rest) = text.split_once(' ').ok_or(NoRow(text))?;
        let depth = depth_of(depth)?;
        let paths = paths_of(alloc, rest)?;
        let [source, top, to] = paths.as_slice() else {
            return Err(NoRow(text))?;
        };
        if source.is_star() {
            return Err(NoRow(text))?;
        }
        let asker = &nobody(source);
        let mut inner = DavInner {
            fs: &mut self.fs,
            ls: &mut self.ls,
            allow: DavMethodSet::all(),
            moment: 1,
            caller: asker,
        };
        let mut errors = MultiError::new(Vec::new(alloc));
        let outcome = inner.do_copy(alloc, source, top, to, depth, &mut errors);
        outcome_text(alloc, outcome, errors)
    }

    // A removal by itself.
    fn remove(&mut self, alloc: Global, text: &'static str) -> Result<String, Fail> {
        let (depth, rest) = text.split_once(' ').ok_or(NoRow(text))?;
        let depth = depth_of(depth)?;
        let path = DavPath::new(alloc, rest)?;
        if path.is_star() {
            return Err(NoRow(text))?;
        }
        let meta = self.fs.metadata(&path)?;
        let asker = &nobody(&path);
        let mut inner = DavInner {
            fs: &mut self.fs,
            ls: &mut self.ls,
            allow: DavMethodSet::all(),
            moment: 1,
            caller: asker,
        };
        let mut errors = MultiError::new(Vec::new(alloc));
        let outcome = inner.delete_items(alloc, &mut errors, depth, &meta, &path);
        outcome_text(alloc, outcome, errors)
    }

    // A move by itself.
    fn move_by_itself(&mut self, alloc: Global, text: &'static str) -> Result<String, Fail> {
        let paths = paths_of(alloc, text)?;
        let [source, to] = paths.as_slice() else {
            return Err(NoRow(text))?;
        };
        let asker = &nobody(source);
        let mut inner = DavInner {
            fs: &mut self.fs,
            ls: &mut self.ls,
            allow: DavMethodSet::all(),
            moment: 1,
            caller: asker,
        };
        let mut errors = MultiError::new(Vec::new(alloc));
        let outcome = inner.do_move(alloc, source, to, &mut errors);
        outcome_text(alloc, outcome, errors)
    }

    // The answer to a question with one argument.
    fn asked(
        &mut self,
        alloc: Global,
        word: &'static str,
        rest: &'static str,
        question: &'static str,
    ) -> Result<String, Fail> {
        match word {
            "at" => self.content(alloc, &DavPath::new(alloc, rest)?),
            "tag" => self.tag(alloc, &DavPath::new(alloc, rest)?),
            "locks" => self.locks(alloc, &DavPath::new(alloc, rest)?),
            "do_copy" => self.copy(alloc, rest),
            "do_move" => self.move_by_itself(alloc, rest),
            "delete_items" => self.remove(alloc, rest),
            _ => self.replied(alloc, &request_of(alloc, question)?),
        }
    }
}

impl Player for Engine<Refusing<MemFs>, MemLs> {
    fn begin(&mut self, alloc: Global) -> Result<(), Fail> {
        self.fs = Refusing::new(MemFs::new(alloc)?);
        self.ls = Some(MemLs::new(alloc)?);
        Ok(())
    }

    fn answer(&mut self, alloc: Global, question: &'static str) -> Result<Vec<u8>, Fail> {
        if let Some(path) = question.strip_prefix("anna locks ") {
            return lock_for_anna(alloc, &mut self.ls, path);
        }
        let (word, rest) = question.split_once(' ').ok_or(NoRow(question))?;
        if word == "refuse" {
            let refusals = refusals_of(alloc, rest)?;
            self.fs.load(refusals);
            return Ok(Vec::from_slice(alloc, b"next")?);
        }
        Ok(self.asked(alloc, word, rest, question)?.into_bytes())
    }
}

#[test]
fn copies_and_moves(rt: HostRuntime) -> Result<(), Fail> {
    let fs = Refusing::new(MemFs::new(rt.alloc())?);
    let ls = Some(MemLs::new(rt.alloc())?);
    play_rows(&rt, &mut Engine { fs, ls }, COPIES)
}
