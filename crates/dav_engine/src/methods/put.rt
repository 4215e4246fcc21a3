//! PUT (RFC 9110, section 9.3.4; RFC 4918, section 9.7) and PATCH (RFC 5789, with SabreDAV's partial updates).
ghost use Rattle.std.specs.Prelude.{◌≡◌, ◌≤◌, [], IfOk, IfSome};
ghost use Rattle.std.specs.Option.{option_copied};
ghost use Rattle.dav_core.specs.World.{last_moment};
ghost use Rattle.dav_core.specs.Metadata.{opening_of};
ghost use Rattle.dav_core.specs.Path.{names};
ghost use Rattle.dav_engine.specs.OnHandler.{SameLocksBorrowed, FollowsOn, ServesFrom, PutOf};
ghost use Rattle.dav_engine.specs.Follows.{as_is, FollowsOnStore};
ghost use Rattle.dav_engine.specs.Put as spec;

pub(crate) mod headers;

use crate::davinner::DavInner;
use crate::depth::Reach;
use crate::locks::{Members, member_allowed};
use crate::methods::put::headers::{Bounds, PutHeaders, Writing};
use crate::opening::missing_status;
use crate::reply::{Reply, ReplyBody, set_header, set_length, set_validators};
use crate::request::{Body, DavRequest};
use bytes::Bytes;
use dav_core::davpath::DavPath;
use dav_core::errors::{DavError, DavResult, FsError, NoMemory};
use dav_core::fs::{DavFileSystem, DavMetaData, OpenOptions};
use dav_core::ls::DavLockSystem;
use dav_core::method::DavMethod;
use dav_headers::XUpdateRange;
use http::StatusCode;
use http_header::{HeaderMap, HeaderValue};
use std::alloc::Global;
use std::io::SeekFrom;

const UNSATISFIABLE: DavError = DavError::StatusClose(StatusCode::RANGE_NOT_SATISFIABLE);

// Whether there are n bytes from the first of two places to the second, both included.
fn spans(first: u64, last: u64, n: u64) -> bool
    ensures { result ≡ spec.spans first last n }
{
    last >= first && (last - first).checked_add(1) == Some(n)
}

// The place that is n bytes before the end of the file that was found; 0 where nothing was found.
fn from_end(n: u64, found: Option<&DavMetaData>) -> DavResult<u64>
    ensures { result ≡ spec.from_end n (option_copied found.entry) }
{
    match found {
        None => Ok(0),
        Some(meta) if meta.len < n => Err(UNSATISFIABLE),
        Some(meta) => Ok(meta.len - n),
    }
}

// Where a partial update of n bytes begins.
fn update_from(range: &XUpdateRange, n: u64, found: Option<&DavMetaData>) -> DavResult<u64>
    ensures { result ≡ spec.update_from range.now n (option_copied found.entry) }
{
    match range {
        XUpdateRange::FromTo(first, last) => {
            if spans(*first, *last, n) {
                Ok(*first)
            } else {
                Err(UNSATISFIABLE)
            }
        }
        XUpdateRange::AllFrom(first) => Ok(*first),
        XUpdateRange::Last(k) => from_end(*k, found),
        XUpdateRange::Append => Ok(0),
    }
}

fn is_append(range: &XUpdateRange) -> bool
    ensures { result ≡ spec.is_append range.now }
{
    matches!(range, XUpdateRange::Append)
}

// What a partial update writes.
fn updates(
    announced: Option<u64>,
    range: &Option<XUpdateRange>,
    found: Option<&DavMetaData>,
) -> DavResult<Writing>
    ensures { result ≡ spec.updates announced range.now (option_copied found.entry) }
{
    let Some(n) = announced else {
        return Err(DavError::StatusClose(StatusCode::LENGTH_REQUIRED));
    };
    let Some(range) = range else {
        return Err(DavError::StatusClose(StatusCode::BAD_REQUEST));
    };
    Ok(Writing {
        from: Some(update_from(range, n, found)?),
        appends: is_append(range),
        announced,
    })
}

// What a method writes without a Content-Range.
fn written_by(
    method: DavMethod,
    headers: &PutHeaders,
    found: Option<&DavMetaData>,
) -> DavResult<Writing>
    ensures { result ≡ spec.written_by method headers.now (option_copied found.entry) }
{
    match method {
        DavMethod::Patch if headers.is_partial => {
            updates(headers.announced, &headers.update, found)
        }
        DavMethod::Patch => Err(DavError::StatusClose(StatusCode::UNSUPPORTED_MEDIA_TYPE)),
        _ => Ok(Writing {
            from: None,
            appends: false,
            announced: headers.announced,
        }),
    }
}

// What is written with this Content-Range.
fn bounded(range: Bounds, writing: Writing) -> DavResult<Writing>
    ensures { result ≡ spec.bounded range writing }
{
    match range {
        Bounds::Unread => Err(DavError::StatusClose(StatusCode::BAD_REQUEST)),
        Bounds::Whole => Ok(writing),
        Bounds::Within(first, last) => within(first, last, writing),
    }
}

fn within(first: u64, last: u64, writing: Writing) -> DavResult<Writing>
    ensures { result ≡ spec.bounded (Bounds.Within first last) writing }
{
    if last < first {
        return Err(UNSATISFIABLE);
    }
    let Some(n) = (last - first).checked_add(1) else {
        return Err(UNSATISFIABLE);
    };
    if let Some(announced) = writing.announced {
        if announced != n {
            return Err(UNSATISFIABLE);
        }
    }
    Ok(Writing {
        from: Some(first),
        appends: writing.appends,
        announced: Some(n),
    })
}

// Where the bytes go, and how many are announced.
fn writing_of(
    method: DavMethod,
    headers: &PutHeaders,
    found: Option<&DavMetaData>,
) -> DavResult<Writing>
    ensures { result ≡ spec.writing_of method headers.now (option_copied found.entry) }
{
    bounded(headers.range, written_by(method, headers, found)?)
}

// Whether the body has the length that is announced for it, where one is.
fn is_announced(announced: Option<u64>, bytes: &Bytes) -> bool
    ensures { result ≡ spec.is_announced announced bytes.now }
{
    match announced {
        None => true,
        Some(len) => len == bytes.len() as u64,
    }
}

// The error where the store refuses to open the file.
fn open_error(options: &OpenOptions, error: FsError) -> DavError
    ensures { result ≡ spec.open_error (opening_of options.now) error }
{
    match error {
        FsError::NotFound => DavError::StatusClose(missing_status(options)),
        FsError::Exists => DavError::StatusClose(missing_status(options)),
        other => DavError::FsError(other),
    }
}

// How the file is opened.
fn put_opening(headers: &PutHeaders, writing: Writing) -> Result<OpenOptions, NoMemory>
    ensures { IfOk result (λ options. opening_of options ≡ spec.put_opening headers.now writing) }
{
    Ok(OpenOptions {
        write: true,
        append: writing.appends,
        truncate: writing.from.is_none(),
        create: !headers.conditions.wants_something(),
        create_new: headers.conditions.wants_nothing(),
        size: headers.announced,
        checksum: headers.checksum.clone()?,
        ..OpenOptions::default()
    })
}

// The reply to a file that was stored.
fn stored(alloc: Global, found: bool, file: Option<DavMetaData>) -> Result<Reply, NoMemory>
    requires { IfSome file (λ m. m.modified ≤ last_moment) }
    ensures { IfOk result (λ r. r ≡ spec.stored found file) }
{
    let mut headers = HeaderMap::new(alloc);
    let ranges = HeaderValue::from_static("bytes");
    set_header(&mut headers, http_header::ACCEPT_RANGES, ranges)?;
    if !found {
        set_length(alloc, &mut headers, 0)?;
    }
    if let Some(file) = file {
        set_validators(alloc, &mut headers, &file)?;
    }
    let status = if found {
        StatusCode::NO_CONTENT
    } else {
        StatusCode::CREATED
    };
    Ok(Reply {
        status,
        headers,
        body: ReplyBody::Nothing,
    })
}

// Seeks a place in an open file, where there is one.
fn seek<F: DavFileSystem>(fs: &mut F, file: &mut F::File, place: Option<u64>) -> DavResult<()>
    ensures { FollowsOnStore (λ _. F.handle file.new) (spec.sought place (F.handle file.old))
        (F.state fs.old) result (F.state fs.new) }
{
    let Some(place) = place else {
        return Ok(());
    };
    match fs.seek(file, SeekFrom::Start(place)) {
        Ok(_) => Ok(()),
        Err(_) => Err(UNSATISFIABLE),
    }
}

// Writes bytes to an open file, where there are any.
fn write<F: DavFileSystem>(
    fs: &mut F,
    alloc: Global,
    file: &mut F::File,
    bytes: &Bytes,
    now: u64,
) -> DavResult<()>
    requires { now ≤ last_moment }
    ensures { FollowsOnStore (λ _. F.handle file.new)
        (spec.written (F.handle file.old) bytes.now now)
        (F.state fs.old) result (F.state fs.new) }
{
    if bytes.is_empty() {
        return Ok(());
    }
    match fs.write_bytes(alloc, file, bytes.clone()?, now) {
        Ok(()) => Ok(()),
        Err(e) => Err(DavError::FsError(e)),
    }
}

// What is stored: bytes, at a path, from this place of the file on where one is given; and whether something was found there.
#[derive(Clone, Copy)]
struct Upload<'a> {
    path: &'a DavPath,
    from: Option<u64>,
    bytes: &'a Bytes,
    found: bool,
}

// Stores bytes at a path.
fn store<F: DavFileSystem>(
    fs: &mut F,
    alloc: Global,
    options: &OpenOptions,
    upload: Upload<'_>,
    now: u64,
) -> DavResult<Reply>
    requires { now ≤ last_moment }
    ensures { FollowsOnStore as_is (spec.store (opening_of options.now) upload.entry.from
        (names upload.entry.path.now) upload.entry.bytes.now now upload.entry.found)
        (F.state fs.old) result (F.state fs.new) }
{
    let mut file = match fs.open(alloc, upload.path, options, now) {
        Ok(file) => file,
        Err(e) => return Err(open_error(options, e)),
    };
    seek(fs, &mut file, upload.from)?;
    write(fs, alloc, &mut file, upload.bytes, now)?;
    match fs.flush(&mut file) {
        Ok(()) => {}
        Err(e) => return Err(DavError::FsError(e)),
    }
    let after = fs.file_metadata(&file);
    Ok(stored(alloc, upload.found, after.ok())?)
}

// The bytes of a body; of one without, those of `empty`.
fn bytes_of<'b>(body: &'b Body, empty: &'b Bytes) -> Option<&'b Bytes>
    requires { empty.now ≡ [] }
    ensures { option_copied result ≡ spec.bytes_of_body body.now }
{
    match body {
        Body::None => Some(empty),
        Body::Bytes(bytes) => Some(bytes),
        Body::Tree(_) => None,
        Body::Malformed => None,
    }
}

impl<'a, 'b, 'c, F: DavFileSystem, L: DavLockSystem> DavInner<'a, 'b, 'c, F, L> {
    /// Stores a body at the path of a request: PUT all of a file (RFC 9110, section 9.3.4; RFC 4918, section 9.7), or the
    /// part that Content-Range names (RFC 9110, section 14.4); PATCH the part that X-Update-Range names. 201 where nothing
    /// was found there before, else 204, with the tag and the time of the file where the store reports them.
    ///
    /// Each of these closes the connection, and the first that applies is answered: for PATCH 415 where the body isn't
    /// `application/x-sabredav-partialupdate`, 411 without a length, 400 without X-Update-Range, 416 for one that isn't as
    /// long as announced or begins before the file; 400 for a Content-Range that isn't one, 416 for one that isn't as long
    /// as announced; 412 where a condition fails; 423 where a lock conflicts, or where nothing was found one on the folder above; 400 for a body
    /// that isn't of the announced length; 412 or 409 where the file isn't there or is, or no folder is above it; 416 where the seek to the place
    /// fails. Each other refusal of the store is its own status. 415 for a body that is an element tree, or that was to be one and is
    /// malformed, before anything else. `Memory` where memory runs out.
    pub fn handle_put(
        &mut self,
        alloc: Global,
        request: &DavRequest,
        body: &Body,
    ) -> DavResult<Reply>
        requires moment { self.old.moment ≤ last_moment }
        ensures lent { SameLocksBorrowed L.locks self.old self.new }
        ensures serves { ServesFrom F.state L.locks (PutOf request.now body.now)
            self.old result self.new }
    {
        let headers = PutHeaders::decode(alloc, request)?;
        let empty = Bytes::new();
        match bytes_of(body, &empty) {
            Some(bytes) => self.put(alloc, request, &headers, bytes),
            None => Err(DavError::Status(StatusCode::UNSUPPORTED_MEDIA_TYPE)),
        }
    }

    // Stores bytes at the path of a request, where they may be stored.
    fn put(
        &mut self,
        alloc: Global,
        request: &DavRequest,
        headers: &PutHeaders,
        bytes: &Bytes,
    ) -> DavResult<Reply>
        requires moment { self.old.moment ≤ last_moment }
        ensures lent { SameLocksBorrowed L.locks self.old self.new }
        ensures plan { FollowsOn F.state L.locks as_is (λ who. spec.put request.now.method
            headers.now (names request.now.path) who bytes.now) self.old result self.new }
    {
        let (writing, found) = self.may_put(alloc, request, headers, bytes)?;
        let options = put_opening(headers, writing)?;
        let upload = Upload {
            path: &request.path,
            from: writing.from,
            bytes,
            found,
        };
        store(self.fs, alloc, &options, upload, self.moment)
    }

    // Checks whether bytes may be stored at the path of a request: returns where they go, and whether something was found
    // there.
    fn may_put(
        &mut self,
        alloc: Global,
        request: &DavRequest,
        headers: &PutHeaders,
        bytes: &Bytes,
    ) -> DavResult<(Writing, bool)>
        ensures lent { SameLocksBorrowed L.locks self.old self.new }
        ensures plan { FollowsOn F.state L.locks as_is (λ who. spec.put_allowed
            request.now.method headers.now (names request.now.path) who bytes.now)
            self.old result self.new }
    {
        let asker = self.caller;
        let fs = &mut *self.fs;
        let ls = self.ls.as_ref();
        let method = request.method;
        let found = fs.metadata(&request.path).ok();
        let writing = writing_of(method, headers, found.as_ref())?;
        let conditions = &headers.conditions;
        let tokens = match conditions.if_match_get_tokens(alloc, method, found.as_ref(), fs, ls)? {
            Ok(tokens) => tokens,
            Err(status) => return Err(DavError::StatusClose(status)),
        };
        member_allowed(
            ls,
            Reach::Alone,
            Members::when_made(found.as_ref()),
            &request.path,
            asker.principal,
            &tokens,
            DavError::StatusClose(StatusCode::LOCKED),
        )?;
        if !is_announced(writing.announced, bytes) {
            return Err(DavError::StatusClose(StatusCode::BAD_REQUEST));
        }
        Ok((writing, found.is_some()))
    }
}
