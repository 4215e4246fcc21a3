//! GET and HEAD (RFC 9110, sections 9.3.1 and 9.3.2).
ghost use Rattle.std.specs.Prelude.{◌≡◌, ◌≤◌, Some, IfOk};
ghost use Rattle.dav_core.specs.Asking.{Asks, Open, StoreState, seen};
ghost use Rattle.dav_core.specs.Path.{names};
ghost use Rattle.dav_core.specs.World.{last_moment};
ghost use Rattle.dav_engine.specs.ConditionView.{locks_in};
ghost use Rattle.dav_engine.specs.Follows.{as_is, FollowsOneOf, FollowsOnStore, FollowsWithLocks};
ghost use Rattle.dav_engine.specs.Method.{MethodPlan};
ghost use Rattle.dav_engine.specs.Reply.{headers_in};
ghost use Rattle.dav_engine.specs.Reply as said;
ghost use Rattle.dav_server.specs.Get as spec;

use bytes::Bytes;
use dav_core::davpath::DavPath;
use dav_core::errors::{DavError, DavResult, FsResult, NoMemory};
use dav_core::fs::{DavFileSystem, DavMetaData, OpenOptions};
use dav_core::ls::DavLockSystem;
use dav_core::method::DavMethod;
use dav_engine::conditions::Conditions;
use dav_engine::reply::{set_header, set_length, set_tag, set_validators};
use dav_engine::{DavRequest, Reply, ReplyBody};
use dav_headers::names;
use http::StatusCode;
use http_header::{HeaderMap, HeaderValue};
use std::alloc::Global;

// The headers of a reply about a file with this many bytes.
fn file_headers(alloc: Global, len: u64, file: &DavMetaData) -> Result<HeaderMap, NoMemory>
    requires { file.now.modified ≤ last_moment }
    ensures { IfOk result (λ headers. headers_in headers ≡ spec.file_headers len file.now) }
{
    let mut headers = HeaderMap::new(alloc);
    set_length(alloc, &mut headers, len)?;
    let kind = HeaderValue::from_static("application/octet-stream");
    set_header(&mut headers, names::CONTENT_TYPE(), kind)?;
    set_validators(alloc, &mut headers, file)?;
    Ok(headers)
}

// The reply with a file's bytes.
fn shown(alloc: Global, file: &DavMetaData, bytes: Bytes) -> Result<Reply, NoMemory>
    requires { file.now.modified ≤ last_moment }
    ensures { IfOk result (λ r. r ≡ spec.shown file.now bytes) }
{
    let headers = file_headers(alloc, bytes.len() as u64, file)?;
    Ok(Reply {
        status: StatusCode::OK,
        headers,
        body: ReplyBody::Bytes(bytes),
    })
}

// The reply that reports a file without its bytes.
fn told(alloc: Global, file: &DavMetaData) -> Result<Reply, NoMemory>
    requires { file.now.modified ≤ last_moment }
    ensures { IfOk result (λ r. r ≡ spec.told file.now) }
{
    let headers = file_headers(alloc, file.len, file)?;
    Ok(Reply {
        status: StatusCode::OK,
        headers,
        body: ReplyBody::Nothing,
    })
}

// The reply where the client has the file already: the tag alone.
fn not_modified(alloc: Global, file: &DavMetaData) -> Result<Reply, NoMemory>
    ensures { IfOk result (λ r. r ≡ spec.not_modified file.now) }
{
    let mut headers = HeaderMap::new(alloc);
    set_tag(alloc, &mut headers, file.number)?;
    Ok(Reply {
        status: StatusCode::NOT_MODIFIED,
        headers,
        body: ReplyBody::Nothing,
    })
}

// Opens a file for reading.
fn open<F: DavFileSystem>(fs: &mut F, alloc: Global, path: &DavPath, now: u64) -> FsResult<F::File>
    requires { now ≤ last_moment }
    ensures { Asks (Open (names path.now) spec.reading now)
        (F.state fs.old) (seen F.handle result) (F.state fs.new) }
{
    let options = OpenOptions::read();
    fs.open(alloc, path, &options, now)
}

// Answers with the bytes of a file.
fn show<F: DavFileSystem>(
    fs: &mut F,
    alloc: Global,
    path: &DavPath,
    now: u64,
    found: &DavMetaData,
) -> DavResult<Reply>
    requires at { now ≤ last_moment }
    requires shown { found.now.modified ≤ last_moment }
    ensures { FollowsOnStore as_is (spec.show (names path.now) now found.now)
        (F.state fs.old) result (F.state fs.new) }
{
    let mut file = match open(fs, alloc, path, now) {
        Ok(file) => file,
        Err(e) => return Err(DavError::FsError(e)),
    };
    let bytes = match fs.read_bytes(alloc, &mut file, found.len as usize) {
        Ok(bytes) => bytes,
        Err(e) => return Err(DavError::FsError(e)),
    };
    Ok(shown(alloc, found, bytes)?)
}

// Reports the file for HEAD, and answers with its bytes for GET.
fn show_or_tell<F: DavFileSystem>(
    fs: &mut F,
    alloc: Global,
    method: DavMethod,
    path: &DavPath,
    now: u64,
    found: &DavMetaData,
) -> DavResult<Reply>
    requires at { now ≤ last_moment }
    requires shown { found.now.modified ≤ last_moment }
    ensures { FollowsOnStore as_is (spec.show_or_tell method (names path.now) now found.now)
        (F.state fs.old) result (F.state fs.new) }
{
    match method {
        DavMethod::Head => Ok(told(alloc, found)?),
        _ => show(fs, alloc, path, now, found),
    }
}

// The outcome of a request whose conditions answer a status.
fn judged(alloc: Global, status: StatusCode, found: &DavMetaData) -> DavResult<Reply>
    ensures { (next : MethodPlan said.Reply) (s : StoreState)
        → FollowsOnStore as_is (spec.unless_condition_status (Some status) found.now next)
        s result s }
{
    if status.as_u16() == 304 {
        Ok(not_modified(alloc, found)?)
    } else {
        Err(DavError::Status(status))
    }
}

// Reports the file at a path or answers with its bytes, where the conditions allow it.
fn get<F: DavFileSystem, L: DavLockSystem>(
    fs: &mut F,
    ls: Option<&L>,
    alloc: Global,
    request: &DavRequest,
    conditions: &Conditions,
    now: u64,
) -> DavResult<Reply>
    requires { now ≤ last_moment }
    ensures { FollowsWithLocks (locks_in L.locks ls.entry) as_is
        (spec.get request.now.method conditions.now (names request.now.path) now)
        (F.state fs.old) result (F.state fs.new) }
{
    let path = &request.path;
    let found = match fs.metadata(path) {
        Ok(found) => found,
        Err(e) => return Err(DavError::FsError(e)),
    };
    if found.is_dir() {
        return Err(DavError::Status(StatusCode::METHOD_NOT_ALLOWED));
    }
    match conditions.if_match(alloc, request.method, Some(&found), fs, ls)? {
        Some(status) => judged(alloc, status, &found),
        None => show_or_tell(fs, alloc, request.method, path, now, &found),
    }
}

/// Answers a GET (RFC 9110, section 9.3.1) or HEAD (section 9.3.2) of the file at the request's path: 200 with its length,
/// its tag and its time, and for GET with its bytes.
///
/// The first of these that applies is answered: the refusal of a store that doesn't report what is there; 405 for a folder;
/// 412 where If or If-Match doesn't hold, and 304 with the tag alone where If-None-Match doesn't (section 13.2); each other
/// refusal of the store is its own status.
pub fn handle_gethead<F: DavFileSystem, L: DavLockSystem>(
    fs: &mut F,
    ls: Option<&L>,
    alloc: Global,
    request: &DavRequest,
    now: u64,
) -> DavResult<Reply>
    requires { now ≤ last_moment }
    ensures { FollowsOneOf as_is (spec.GetOf request.now now) (F.state fs.old)
        (locks_in L.locks ls.entry) result (F.state fs.new) (locks_in L.locks ls.entry) }
{
    let conditions = Conditions::decode(alloc, request, &request.path)?;
    get(fs, ls, alloc, request, &conditions, now)
}
