//! Servers on which memory runs out: `./fail-alloc` runs these tests with each allocation failing
//! in turn. They pass either way, and print where it ran out.
use super::engine_calls::{body_in, nobody};
use super::tests::server_below;
use super::*;
use crate::asserting::same;
use crate::refusing::Refusing;
use crate::rows::NoRow;
use dav_core::element::Element;
use dav_core::errors::FsError;
use dav_engine::ReplyBody;
use dav_engine::reply::multistatus::MultiError;
use dav_headers::Depth;
use dav_store::memfs::MemFs;
use dav_store::memls::MemLs;
use std::alloc::AllocError;
use std::test::Fail;

// Requests, their replies, and behind ` or ` what is answered where the request was carried out
// before, and memory ran out then. `^` is CRLF. A reply is a status, and the bytes of a file or the
// number of child elements.
const REQUESTS: &str = "\
MKCOL /d HTTP/1.1^^ -> 201 or 405
PUT /d/a HTTP/1.1^^ | bytes one -> 201 or 204
GET /d/a HTTP/1.1^^ -> 200 one
HEAD /d/a HTTP/1.1^^ -> 200
PATCH /d/a HTTP/1.1^Content-Length: 1^Content-Type: application/x-sabredav-partialupdate^X-Update-Range: bytes=1-1^^ | bytes x -> 204
GET /d/a HTTP/1.1^^ -> 200 oxe
OPTIONS /d/a HTTP/1.1^^ -> 200
PROPPATCH /d/a HTTP/1.1^^ | sets a -> 207 1
COPY /d/a HTTP/1.1^Destination: /d/b^^ -> 201 or 204
PROPFIND /d HTTP/1.1^Depth: 1^^ -> 207 3
MOVE /d/b HTTP/1.1^Destination: /d/c^^ -> 201 or 404
LOCK /d/n HTTP/1.1^^ | lockinfo exclusive -> 201 1
PUT /d/n HTTP/1.1^^ | bytes x -> 423
UNLOCK /d/n HTTP/1.1^Lock-Token: <urn:t:1>^^ -> 204
DELETE /d/n HTTP/1.1^^ -> 204 or 404
GET /d/c HTTP/1.1^^ -> 200 oxe
PROPFIND /d HTTP/1.1^Depth: 1^^ -> 207 3
DELETE /d HTTP/1.1^^ -> 204 or 404
GET /d/c HTTP/1.1^^ -> 404
";

// Where memory ran out in a run.
#[derive(Clone, Copy, Debug, PartialEq, Eq)]
enum Shortage {
    Nowhere,
    Test,
    Store,
    Handler,
}

// The head and the body of a request of a row, and the token for a lock that it creates.
#[derive(Drop)]
struct Asked {
    head: Vec<u8>,
    body: Body,
    token: GrantToken,
}

// The bytes of a head.
fn head_of(alloc: Global, text: &str) -> Result<Vec<u8>, AllocError> {
    let mut head = Vec::new(alloc);
    for line in text.split_inclusive('^') {
        match line.strip_suffix('^') {
            Some(line) => {
                head.extend_from_slice(line.as_bytes())?;
                head.extend_from_slice(b"\r\n")?;
            }
            None => head.extend_from_slice(line.as_bytes())?,
        }
    }
    Ok(head)
}

// What a row asks, where there is memory for it.
fn asked_in(alloc: Global, row: &'static str) -> Option<Asked> {
    let (head, part) = row.split_once(" | ").unwrap_or((row, ""));
    let body = match part {
        "" => Body::None,
        _ => body_in(alloc, part).ok()??,
    };
    Some(Asked {
        head: head_of(alloc, head).ok()?,
        body,
        token: GrantToken::new(alloc, "urn:t:1").ok()?,
    })
}

// How many child elements an element has.
fn count_elements(tree: &Element) -> usize {
    let mut count = 0usize;
    for _ in tree.child_elems() {
        count = count.saturating_add(1);
    }
    count
}

// Whether a reply is the one that a row says.
fn is_as(reply: &Reply, wanted: &str) -> bool {
    let (status, body) = wanted.split_once(' ').unwrap_or((wanted, ""));
    let is_same_body = match &reply.body {
        ReplyBody::Nothing => body.is_empty(),
        ReplyBody::Bytes(bytes) => is_same(bytes, body.as_bytes()),
        ReplyBody::Tree(tree) => body.parse() == Ok(count_elements(tree)),
    };
    is_same_body && status.parse() == Ok(reply.status.as_u16())
}

// A server that is asked again where memory ran out.
#[derive(Drop)]
struct Insisting<F: DavFileSystem + Drop, L: DavLockSystem + Drop> {
    server: DavHandler<F, L>,
    shortage: Shortage,
}

impl<F: DavFileSystem + Drop, L: DavLockSystem + Drop> Insisting<F, L> {
    // What a row asks.
    fn asked(&mut self, alloc: Global, row: &'static str) -> Result<Asked, Fail> {
        match asked_in(alloc, row) {
            Some(asked) => Ok(asked),
            None => {
                self.shortage = Shortage::Test;
                Ok(asked_in(alloc, row).ok_or(NoRow(row))?)
            }
        }
    }

    // The reply to a request, and whether memory ran out in it at first.
    fn reply(&mut self, alloc: Global, row: &'static str) -> Result<(Reply, bool), Fail> {
        let Asked { head, body, token } = self.asked(alloc, row)?;
        let exchange = Exchange::new(&head, body, None, 1, Some(token))?;
        let was_short = self.server.fs().was_short();
        match self.server.handle(alloc, &exchange) {
            Err(NoMemory) => self.shortage = Shortage::Handler,
            Ok(_) if self.server.fs().was_short() != was_short => self.shortage = Shortage::Store,
            Ok(reply) => return Ok((reply, false)),
        }
        Ok((self.server.handle(alloc, &exchange)?, true))
    }

    // Whether a request is answered as its row says.
    fn answers(&mut self, alloc: Global, row: &'static str) -> Result<bool, Fail> {
        let (question, wanted) = row.split_once(" -> ").ok_or(NoRow(row))?;
        let (reply, is_again) = self.reply(alloc, question)?;
        let (first, again) = wanted.split_once(" or ").unwrap_or((wanted, wanted));
        Ok(is_as(&reply, first) || (is_again && is_as(&reply, again)))
    }

    // The first row whose request isn't answered as it says; no text where all are.
    fn first_wrong(&mut self, alloc: Global) -> Result<&'static str, Fail> {
        for row in REQUESTS.lines() {
            if !self.answers(alloc, row)? {
                return Ok(row);
            }
        }
        Ok("")
    }
}

// A server of a new store in memory.
fn first_server(alloc: Global) -> Result<Insisting<MemFs, MemLs>, Fail> {
    match server_below(alloc, "") {
        Ok(server) => Ok(Insisting {
            server,
            shortage: Shortage::Nowhere,
        }),
        Err(_) => Ok(Insisting {
            server: server_below(alloc, "")?,
            shortage: Shortage::Test,
        }),
    }
}

// A request in which memory ran out is answered when it is made once more, and so is each one after
// it.
#[test]
fn handler_goes_on_after_a_refusal(rt: HostRuntime) -> Result<(), Fail> {
    let mut insisting = first_server(rt.alloc())?;
    let wrong = insisting.first_wrong(rt.alloc())?;
    same(&rt, &wrong, &"");
    println!(rt; "memory ran out: {:?}", insisting.shortage)?;
    Ok(())
}

// The requests that build a folder with two files, and a third in a folder below.
const TREE: &str = "\
MKCOL /d HTTP/1.1^^
PUT /d/a HTTP/1.1^^ | bytes one
PUT /d/b HTTP/1.1^^ | bytes two
MKCOL /d/s HTTP/1.1^^
PUT /d/s/g HTTP/1.1^^ | bytes three
";

// Walks over that tree, by a request or by a call of the engine, and which calls of the store are
// refused in it: those that remove or copy a file.
const WALKS: &str = "\
DELETE /d HTTP/1.1^^ -> 4 6 10
COPY /d HTTP/1.1^Destination: /e^^ -> 9 12 19
delete_items -> 4 6 10
do_copy -> 6 9 16
";

// The list that refuses these calls, where there is memory for it.
fn refusals_in(alloc: Global, calls: &str) -> Option<Vec<Option<FsError>>> {
    let mut refusals = Vec::new(alloc);
    for call in calls.split(' ') {
        let call: usize = call.parse().ok()?;
        for _ in refusals.len().saturating_add(1)..call {
            refusals.push(None).ok()?;
        }
        refusals.push(Some(FsError::Forbidden)).ok()?;
    }
    Some(refusals)
}

// How many faults a walk met, and how many of them are reported, where it was carried out or cut
// short by a lack of memory; a request has no reply then. Whether the store lacked memory in it,
// which is a fault too.
#[derive(Clone, Copy, Debug, PartialEq, Eq)]
enum Report {
    Whole {
        met: usize,
        told: usize,
        short: bool,
    },
    Cut {
        met: usize,
        told: usize,
    },
    NoReply,
}

impl Report {
    // Whether what was met is told; but for the last fault, where memory ran out in its report.
    fn is_honest(self) -> bool {
        match self {
            Report::Whole { met, told, .. } => met == told,
            Report::Cut { met, told } => met == told || met == told.saturating_add(1),
            Report::NoReply => true,
        }
    }
}

// How many paths a reply reports: those of a multistatus, or its own where it is an error.
fn reports(reply: &Reply) -> usize {
    match &reply.body {
        ReplyBody::Tree(tree) => count_elements(tree),
        _ if reply.status.as_u16() >= 400 => 1,
        _ => 0,
    }
}

// A server of a store that refuses calls by a list, and the paths of the walks.
#[derive(Drop)]
struct Walking<F: DavFileSystem + Drop, L: DavLockSystem + Drop> {
    server: DavHandler<Refusing<F>, L>,
    root: DavPath,
    from: DavPath,
    to: DavPath,
}

impl<F: DavFileSystem + Drop, L: DavLockSystem + Drop> Walking<F, L> {
    // The outcome of a request of a row, where there is memory to ask.
    fn reply(&mut self, alloc: Global, row: &'static str) -> Option<Result<Reply, NoMemory>> {
        let Asked { head, body, token } = asked_in(alloc, row)?;
        let exchange = Exchange::new(&head, body, None, 1, Some(token)).ok()?;
        Some(self.server.handle(alloc, &exchange))
    }

    // Whether a request of a row makes what it asks for.
    fn makes(&mut self, alloc: Global, row: &'static str) -> bool {
        match self.reply(alloc, row) {
            Some(Ok(reply)) => reply.status == StatusCode::CREATED,
            _ => false,
        }
    }

    // Builds the tree; whether there is memory for it.
    fn builds(&mut self, alloc: Global) -> bool {
        for row in TREE.lines() {
            if !self.makes(alloc, row) {
                return false;
            }
        }
        true
    }

    // How many faults the walk met: those of the list that no later call meets, and a lack of
    // memory in the store.
    fn met(&mut self) -> usize {
        let fs = &mut self.server.fs;
        let mut met = if fs.was_short() { 4usize } else { 3usize };
        for _ in 0..32 {
            if fs.metadata(&self.root).is_err() {
                met = met.saturating_sub(1);
            }
        }
        met
    }

    // The outcome of a copy by itself, and how many paths it reports.
    fn copied(&mut self, alloc: Global) -> Option<(DavResult<()>, usize)> {
        let (from, to) = (&self.from, &self.to);
        if from.is_star() {
            return None;
        }
        let asker = &nobody(from);
        let mut inner = DavInner {
            fs: &mut self.server.fs,
            ls: &mut self.server.ls,
            allow: DavMethodSet::all(),
            moment: 1,
            caller: asker,
        };
        let mut errors = MultiError::new(Vec::new(alloc));
        let outcome = inner.do_copy(alloc, from, to, to, Depth::Infinity, &mut errors);
        Some((outcome, errors.into_items().len()))
    }

    // The outcome of a removal by itself, and how many paths it reports.
    fn removed(&mut self, alloc: Global) -> Option<(DavResult<()>, usize)> {
        let from = &self.from;
        if from.is_star() {
            return None;
        }
        let found = self.server.fs.metadata(from).ok()?;
        let asker = &nobody(from);
        let mut inner = DavInner {
            fs: &mut self.server.fs,
            ls: &mut self.server.ls,
            allow: DavMethodSet::all(),
            moment: 1,
            caller: asker,
        };
        let mut errors = MultiError::new(Vec::new(alloc));
        let outcome = inner.delete_items(alloc, &mut errors, Depth::Infinity, &found, from);
        Some((outcome, errors.into_items().len()))
    }

    // The report of a walk that was carried out.
    fn whole(&self, met: usize, told: usize) -> Report {
        Report::Whole {
            met,
            told,
            short: self.server.fs().was_short(),
        }
    }

    // What a request met and reported, where there is memory to ask.
    fn requested(&mut self, alloc: Global, row: &'static str) -> Option<Report> {
        let outcome = self.reply(alloc, row)?;
        let met = self.met();
        match outcome {
            Ok(reply) => Some(self.whole(met, reports(&reply))),
            Err(NoMemory) => Some(Report::NoReply),
        }
    }

    // What a call of the engine met and reported, where there is memory to ask.
    fn called(&mut self, alloc: Global, call: &str) -> Option<Report> {
        let (outcome, told) = if call == "do_copy" {
            self.copied(alloc)?
        } else {
            self.removed(alloc)?
        };
        let met = self.met();
        match outcome {
            Err(DavError::Memory) => Some(Report::Cut { met, told }),
            _ => Some(self.whole(met, told)),
        }
    }

    // What a walk met and reported, where there is memory to ask.
    fn walked(&mut self, alloc: Global, row: &'static str) -> Option<Report> {
        let (walk, calls) = row.split_once(" -> ")?;
        if !self.builds(alloc) {
            return None;
        }
        let refusals = refusals_in(alloc, calls)?;
        self.server.fs.load(refusals);
        if walk.contains(' ') {
            self.requested(alloc, walk)
        } else {
            self.called(alloc, walk)
        }
    }
}

// A server of a store, where there is memory for it.
fn begin_walk<F: DavFileSystem + Drop, L: DavLockSystem + Drop>(
    alloc: Global,
    fs: F,
    ls: L,
) -> Option<Walking<F, L>> {
    let fs = Refusing::new(fs);
    let server = DavHandler::new(alloc, "", DavMethodSet::all(), fs, Some(ls)).ok()?;
    Some(Walking {
        server,
        root: DavPath::new(alloc, "/").ok()?,
        from: DavPath::new(alloc, "/d").ok()?,
        to: DavPath::new(alloc, "/e").ok()?,
    })
}

// What a walk over a new tree met and reported, where there is memory to ask.
fn walked(alloc: Global, row: &'static str) -> Option<Report> {
    let fs = MemFs::new(alloc).ok()?;
    let ls = MemLs::new(alloc).ok()?;
    let mut walking = begin_walk(alloc, fs, ls)?;
    walking.walked(alloc, row)
}

// No reply to a walk reports less than the walk met: where memory runs out there is none. What was
// reported before that stays with who called the engine.
#[test]
fn walks_report_what_they_met_after_a_refusal(rt: HostRuntime) -> Result<(), Fail> {
    for row in WALKS.lines() {
        let report = match walked(rt.alloc(), row) {
            Some(report) => report,
            None => {
                println!(rt; "{row}: again")?;
                walked(rt.alloc(), row).ok_or(NoRow(row))?
            }
        };
        assert!(rt; report.is_honest(), "{row}: {report:?}");
        println!(rt; "{row}: {report:?}")?;
    }
    Ok(())
}
