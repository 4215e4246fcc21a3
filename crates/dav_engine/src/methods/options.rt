//! OPTIONS (RFC 9110, section 9.3.7; RFC 4918, section 10.1).
ghost use Rattle.std.specs.Prelude.{◌≡◌, bytes_eq, codes, map, IfOk, OnOk};
ghost use Rattle.std.specs.List.{join_by};
ghost use Rattle.std.specs.Option.{option_copied};
ghost use Rattle.http_header.specs.HeaderMap.{insert};
ghost use Rattle.http_header.specs.FieldValue.{plain_value};
ghost use Rattle.dav_core.specs.Method.{method_name};
ghost use Rattle.dav_core.specs.Path.{star};
ghost use Rattle.dav_engine.specs.OnHandler.{SameLocksBorrowed, ServesFrom, OptionsOf};
ghost use Rattle.dav_engine.specs.Options as spec;

use crate::davinner::DavInner;
use crate::folder::is_root;
use crate::reply::{Reply, ReplyBody, set_header, set_length};
use crate::request::{Body, DavRequest};
use dav_core::davpath::DavPath;
use dav_core::errors::{DavResult, NoMemory};
use dav_core::fs::{DavFileSystem, DavMetaData};
use dav_core::ls::DavLockSystem;
use dav_core::method::{DavMethod, DavMethodSet};
use http::StatusCode;
use http_header::{HeaderMap, HeaderName, HeaderValue};
use std::alloc::Global;

// The methods of a file, and of the whole server.
const OF_FILE: [DavMethod; 11] = [
    DavMethod::Head,
    DavMethod::Get,
    DavMethod::Patch,
    DavMethod::Put,
    DavMethod::Options,
    DavMethod::PropFind,
    DavMethod::Copy,
    DavMethod::Move,
    DavMethod::Delete,
    DavMethod::Lock,
    DavMethod::Unlock,
];

// Those of a file that can't go away.
const OF_LASTING_FILE: [DavMethod; 9] = [
    DavMethod::Head,
    DavMethod::Get,
    DavMethod::Patch,
    DavMethod::Put,
    DavMethod::Options,
    DavMethod::PropFind,
    DavMethod::Copy,
    DavMethod::Lock,
    DavMethod::Unlock,
];

// Those of a folder.
const OF_FOLDER: [DavMethod; 7] = [
    DavMethod::Options,
    DavMethod::PropFind,
    DavMethod::Copy,
    DavMethod::Move,
    DavMethod::Delete,
    DavMethod::Lock,
    DavMethod::Unlock,
];

// Those of a folder that can't go away.
const OF_LASTING_FOLDER: [DavMethod; 5] = [
    DavMethod::Options,
    DavMethod::PropFind,
    DavMethod::Copy,
    DavMethod::Lock,
    DavMethod::Unlock,
];

// Those of a path at which nothing is.
const OF_NOTHING: [DavMethod; 4] = [
    DavMethod::Options,
    DavMethod::MkCol,
    DavMethod::Put,
    DavMethod::Lock,
];

/// The name of a method, as requests have it.
pub fn name_of(method: DavMethod) -> &'static str
    ensures { result.now ≡ method_name method }
{
    match method {
        DavMethod::Head => "HEAD",
        DavMethod::Get => "GET",
        DavMethod::Put => "PUT",
        DavMethod::Patch => "PATCH",
        DavMethod::Options => "OPTIONS",
        DavMethod::PropFind => "PROPFIND",
        DavMethod::PropPatch => "PROPPATCH",
        DavMethod::MkCol => "MKCOL",
        DavMethod::Copy => "COPY",
        DavMethod::Move => "MOVE",
        DavMethod::Delete => "DELETE",
        DavMethod::Lock => "LOCK",
        DavMethod::Unlock => "UNLOCK",
        DavMethod::Report => "REPORT",
        DavMethod::MkCalendar => "MKCALENDAR",
        DavMethod::MkAddressbook => "MKADDRESSBOOK",
    }
}

// The methods of what is there.
fn methods_found(file: bool, member: bool) -> &'static [DavMethod]
    ensures { result.now ≡ spec.methods_found file member }
{
    match (file, member) {
        (true, true) => &OF_FILE,
        (true, false) => &OF_LASTING_FILE,
        (false, true) => &OF_FOLDER,
        (false, false) => &OF_LASTING_FOLDER,
    }
}

// Whether a path is the whole server.
fn is_server(path: &DavPath) -> bool
    ensures { result ≡ bytes_eq path.now.bytes star }
{
    path.as_bytes() == b"*".as_slice()
}

// The methods of a path, by what was found there.
fn methods_for(path: &DavPath, found: Option<&DavMetaData>) -> &'static [DavMethod]
    ensures { result.now ≡ spec.methods_for path.now (option_copied found.entry) }
{
    if is_server(path) {
        return methods_found(true, true);
    }
    match found {
        None => &OF_NOTHING,
        Some(found) => methods_found(!found.dir, !is_root(path)),
    }
}

// Whether a method needs a lock system.
fn needs_locks(method: DavMethod) -> bool
    ensures { result ≡ spec.needs_locks method }
{
    match method {
        DavMethod::Lock | DavMethod::Unlock => true,
        _ => false,
    }
}

// Whether a server offers a method.
fn is_offered(allow: DavMethodSet, locks: bool, method: DavMethod) -> bool
    ensures { result ≡ spec.is_offered allow locks method }
{
    allow.contains(method) && (locks || !needs_locks(method))
}

// The names of those of the methods that a server offers.
fn names_of(
    alloc: Global,
    allow: DavMethodSet,
    locks: bool,
    methods: &[DavMethod],
) -> Result<Vec<&'static str>, NoMemory>
    ensures { IfOk result (λ names. map (λ name. name.now) names.items
        ≡ map method_name (spec.offered allow locks methods.now)) }
{
    let mut names = Vec::new(alloc);
    for method in methods {
        if is_offered(allow, locks, *method) {
            names.push(name_of(*method))?;
        }
    }
    Ok(names)
}

// These texts, with commas between them.
fn joined(alloc: Global, texts: &[&'static str]) -> Result<HeaderValue, NoMemory>
    ensures { IfOk result (λ value. value
        ≡ plain_value (join_by (λ text. text.now) (codes ",") texts.now)) }
{
    let text = texts.join(alloc, ",")?;
    HeaderValue::from_string(text).map_err(|_| NoMemory)
}

// The names of those methods, with commas between them.
fn listed(
    alloc: Global,
    allow: DavMethodSet,
    locks: bool,
    methods: &[DavMethod],
) -> Result<HeaderValue, NoMemory>
    ensures { IfOk result (λ value. value
        ≡ plain_value (spec.listed (spec.offered allow locks methods.now))) }
{
    let names = names_of(alloc, allow, locks, methods)?;
    joined(alloc, &names)
}

// Sets what the server complies with (RFC 4918, sections 10.1 and 18).
fn set_classes(headers: &mut HeaderMap) -> Result<(), NoMemory>
    ensures { OnOk result (headers.new ≡ insert headers.old (codes "dav")
        (plain_value (codes "1,2,3,sabredav-partialupdate"))) }
{
    let classes = HeaderValue::from_static("1,2,3,sabredav-partialupdate");
    set_header(headers, HeaderName::from_static("dav"), classes)
}

// Sets what tells some clients that they may write.
fn set_author(headers: &mut HeaderMap) -> Result<(), NoMemory>
    ensures { OnOk result (headers.new ≡ insert headers.old (codes "ms-author-via")
        (plain_value (codes "DAV"))) }
{
    let author = HeaderValue::from_static("DAV");
    set_header(headers, HeaderName::from_static("ms-author-via"), author)
}

// The reply to an OPTIONS.
fn options_reply(
    alloc: Global,
    allow: DavMethodSet,
    locks: bool,
    path: &DavPath,
    found: Option<&DavMetaData>,
) -> Result<Reply, NoMemory>
    ensures { IfOk result (λ r. r ≡ spec.options_reply (spec.offered allow locks
        (spec.methods_for path.now (option_copied found.entry)))) }
{
    let mut headers = HeaderMap::new(alloc);
    set_classes(&mut headers)?;
    set_author(&mut headers)?;
    set_length(alloc, &mut headers, 0)?;
    let value = listed(alloc, allow, locks, methods_for(path, found))?;
    set_header(&mut headers, http_header::ALLOW, value)?;
    Ok(Reply {
        status: StatusCode::OK,
        headers,
        body: ReplyBody::Nothing,
    })
}

impl<'a, 'b, 'c, F: DavFileSystem, L: DavLockSystem> DavInner<'a, 'b, 'c, F, L> {
    /// Tells what may be done at the path of a request (RFC 9110, section 9.3.7): 200, with `dav` (RFC 4918, section 10.1),
    /// `ms-author-via`, `content-length: 0`, and in `allow` those of the allowed methods that what is at the path has. Where
    /// nothing is there, or the store refuses to tell, these are those that make something; of the whole server, `*`, those of
    /// a file. LOCK and UNLOCK are told where there is a lock system.
    ///
    /// Changes nothing. The body isn't looked at. `Memory` where memory runs out.
    pub fn handle_options(
        &mut self,
        alloc: Global,
        request: &DavRequest,
        _body: &Body,
    ) -> DavResult<Reply>
        ensures lent { SameLocksBorrowed L.locks self.old self.new }
        ensures serves { ServesFrom F.state L.locks (OptionsOf self.old.allow request.now)
            self.old result self.new }
    {
        let allow = self.allow;
        let found = self.fs.metadata(&request.path).ok();
        let locks = self.ls.is_some();
        Ok(options_reply(alloc, allow, locks, &request.path, found.as_ref())?)
    }
}
