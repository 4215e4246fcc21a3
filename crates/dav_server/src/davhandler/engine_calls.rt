//! Each call of the engine by itself, over a store and locks in memory. What is expected was worked out by hand from RFC
//! 9110 and RFC 4918.
use super::tests::{lock_for_anna, shown};
use super::*;
use crate::rows::{NoRow, Player, play_rows};
use bytes::Bytes;
use dav_core::element::Element;
use dav_core::fs::DavMetaData;
use dav_engine::conditions::{dav_if_match, http_if_match, if_match, if_match_get_tokens};
use dav_store::memfs::MemFs;
use dav_store::memls::MemLs;
use http_header::{HeaderMap, HeaderName, HeaderValue};
use std::test::Fail;

// A call, the method and the path of its request, its headers and its bytes, and what it returns.
const CALLS: &str = r##"# a file is stored
handle_put | PUT /a | bytes one -> 201\naccept-ranges: bytes\ncontent-length: 0\netag: "2"\nlast-modified: Thu, 01 Jan 1970 00:00:01 GMT\n
# a part of a file is replaced
handle_put | PUT /f | bytes x -> 201\naccept-ranges: bytes\ncontent-length: 0\netag: "2"\nlast-modified: Thu, 01 Jan 1970 00:00:01 GMT\n
handle_put | PATCH /f | content-type: application/x-sabredav-partialupdate | content-length: 1 | x-update-range: append | bytes y -> 204\naccept-ranges: bytes\netag: "3"\nlast-modified: Thu, 01 Jan 1970 00:00:01 GMT\n
# a folder is made once
handle_mkcol | MKCOL /f -> 201\n
handle_mkcol | MKCOL /f -> error 405
# a lock is granted, on an empty file that is made; it keeps others out, is refreshed by its token, and ends
handle_lock | LOCK /n | lockinfo exclusive -> 201\ncontent-type: application/xml; charset=utf-8\nlock-token: <urn:t:1>\n\n\n
handle_lock | LOCK /n | lockinfo exclusive -> error 423
handle_put | PUT /n | bytes x -> error 423
handle_lock | LOCK /n -> error 400
handle_lock | LOCK /n | if: (<urn:t:1>) -> 200\ncontent-type: application/xml; charset=utf-8\n\n\n
handle_unlock | UNLOCK /n -> error 400
handle_unlock | UNLOCK /n | lock-token: <urn:t:1> -> 204\n
handle_unlock | UNLOCK /n | lock-token: <urn:t:1> -> error 409
handle_put | PUT /n | bytes x -> 204\naccept-ranges: bytes\netag: "3"\nlast-modified: Thu, 01 Jan 1970 00:00:01 GMT\n
# a lock of another depth than 0 or infinity, or of another kind, isn't granted
handle_lock | LOCK /n | depth: 1 | lockinfo exclusive -> error 400
handle_lock | LOCK /n | lockinfo none -> error 400
handle_lock | LOCK /n | if-match: * | lockinfo shared -> error 412
# a property is stored and told, a path is asked what may be done there, and a file is removed
handle_options | OPTIONS /f -> 200\ndav: 1,2,3,sabredav-partialupdate\nms-author-via: DAV\ncontent-length: 0\nallow: OPTIONS,MKCOL,PUT,LOCK\n
handle_put | PUT /f | bytes x -> 201\naccept-ranges: bytes\ncontent-length: 0\netag: "2"\nlast-modified: Thu, 01 Jan 1970 00:00:01 GMT\n
handle_proppatch | PROPPATCH /f | sets a -> 207\ncontent-type: application/xml; charset=utf-8\n\n /f\n
handle_propfind | PROPFIND /f | depth: 0 -> 207\ncache-control: no-cache\npragma: no-cache\ncontent-type: application/xml; charset=utf-8\n\n /f\n
handle_delete | DELETE /f | depth: 1 -> error 400
handle_delete | DELETE /f -> 204\n
handle_delete | DELETE /f -> error 404
# conditions of the file /f with the tag "2", and of nothing; the last ones under a lock
handle_put | PUT /f | bytes x -> 201\naccept-ranges: bytes\ncontent-length: 0\netag: "2"\nlast-modified: Thu, 01 Jan 1970 00:00:01 GMT\n
http_if_match | GET /f | if-none-match: "2" -> 304
http_if_match | PUT /f | if-match: "1" -> 412
http_if_match | PUT /none | if-match: "1" -> 412
http_if_match | PUT /f | if-match: * -> go on
dav_if_match | PUT /f | if: (<DAV:no-lock>) -> false, 1 tokens
dav_if_match | PUT /f | if: (Not <DAV:no-lock>) (<a:b>) -> true, 2 tokens
if_match | GET /f | if: (<DAV:no-lock>) | if-none-match: "2" -> 412
if_match | GET /f | if-none-match: "2" -> 304
if_match_get_tokens | PUT /f | if: (Not <DAV:no-lock>) -> 1 tokens
if_match_get_tokens | PUT /f | if: (<DAV:no-lock>) -> 412
anna locks /f -> granted
dav_if_match | PUT /f | if: (<urn:t:1> ["2"]) -> true, 1 tokens
dav_if_match | PUT /f | if: (<urn:t:2>) -> false, 1 tokens
"##;

// A request of the engine, and its body.
#[derive(Drop)]
pub(super) struct EngineRequest {
    pub(super) request: DavRequest,
    pub(super) body: Body,
}

// An element with one element in it.
fn around(alloc: Global, outer: &str, inner: &str) -> Result<Element, NoMemory> {
    let mut element = Element::new(alloc, outer)?;
    element.push_element(Element::new(alloc, inner)?)?;
    Ok(element)
}

// What asks for a lock of this scope, for writing.
fn lock_info(alloc: Global, scope: &str) -> Result<Element, NoMemory> {
    let mut info = Element::new(alloc, "lockinfo")?;
    info.push_element(around(alloc, "lockscope", scope)?)?;
    info.push_element(around(alloc, "locktype", "write")?)?;
    Ok(info)
}

// What asks for a property to be set, without anything in it.
fn update(alloc: Global, name: &str) -> Result<Element, NoMemory> {
    let mut set = Element::new(alloc, "set")?;
    set.push_element(around(alloc, "prop", name)?)?;
    let mut update = Element::new(alloc, "propertyupdate")?;
    update.push_element(set)?;
    Ok(update)
}

/// The body that a part of a row stands for, if it does.
pub(super) fn body_in(alloc: Global, part: &'static str) -> Result<Option<Body>, NoMemory> {
    if let Some(bytes) = part.strip_prefix("bytes ") {
        return Ok(Some(Body::Bytes(Bytes::from_static(bytes.as_bytes()))));
    }
    if let Some(scope) = part.strip_prefix("lockinfo ") {
        return Ok(Some(Body::Tree(lock_info(alloc, scope)?)));
    }
    match part.strip_prefix("sets ") {
        Some(name) => Ok(Some(Body::Tree(update(alloc, name)?))),
        None => Ok(None),
    }
}

// Adds the header that a part of a row says.
fn add_header(alloc: Global, headers: &mut HeaderMap, part: &'static str) -> Result<(), Fail> {
    let (name, value) = part.split_once(": ").ok_or(NoRow(part))?;
    let name = HeaderName::from_bytes(alloc, name.as_bytes())?;
    headers.append(name, HeaderValue::from_str(alloc, value)?)?;
    Ok(())
}

// The request that the first part of a row says, without headers.
fn begun(alloc: Global, part: &'static str) -> Result<DavRequest, Fail> {
    let (name, path) = part.split_once(' ').ok_or(NoRow(part))?;
    Ok(DavRequest {
        method: method_of(name.as_bytes())?,
        path: DavPath::new(alloc, path)?,
        headers: HeaderMap::new(alloc),
    })
}

// The request of a row, without the call.
pub(super) fn request_of(alloc: Global, text: &'static str) -> Result<EngineRequest, Fail> {
    let mut parts = text.split(" | ");
    let request = begun(alloc, parts.next().unwrap_or(""))?;
    let body = Body::None;
    let mut asked = EngineRequest { request, body };
    for part in parts {
        asked.add(alloc, part)?;
    }
    Ok(asked)
}

impl EngineRequest {
    // Adds what a part of a row says: a prefix, the body or a header.
    fn add(&mut self, alloc: Global, part: &'static str) -> Result<(), Fail> {
        if let Some(prefix) = part.strip_prefix("prefix ") {
            self.request.path.set_prefix(prefix)?;
        } else if let Some(body) = body_in(alloc, part)? {
            self.body = body;
        } else {
            add_header(alloc, &mut self.request.headers, part)?;
        }
        Ok(())
    }
}

// The call that answers the requests of a method.
fn handler_of(method: DavMethod) -> &'static str {
    match method {
        DavMethod::Put | DavMethod::Patch => "handle_put",
        DavMethod::MkCol => "handle_mkcol",
        DavMethod::Delete => "handle_delete",
        DavMethod::Copy | DavMethod::Move => "handle_copymove",
        DavMethod::Lock => "handle_lock",
        DavMethod::Unlock => "handle_unlock",
        DavMethod::PropFind => "handle_propfind",
        DavMethod::PropPatch => "handle_proppatch",
        _ => "handle_options",
    }
}

// A status that conditions answer, as text.
fn status_text(alloc: Global, status: Option<StatusCode>) -> Result<String, Fail> {
    match status {
        Some(status) => Ok(format!(in alloc; "{}", status.as_u16())?),
        None => Ok(String::from_str(alloc, "go on")?),
    }
}

// Who makes a request for a path.
pub(super) fn nobody<'c>(_path: &'c DavPath) -> Asker<'c> {
    Asker {
        principal: None,
        token: Some("urn:t:1"),
    }
}

/// A store and locks, on which calls of the engine are made. What calls the engine is proved for any store and locks: for those in memory
/// it would cost a multiple.
#[derive(Drop)]
pub(super) struct Engine<F: DavFileSystem + Drop, L: DavLockSystem + Drop> {
    pub(super) fs: F,
    pub(super) ls: Option<L>,
}

impl<F: DavFileSystem + Drop, L: DavLockSystem + Drop> Engine<F, L> {
    /// The reply of a request's method.
    pub(super) fn handle(&mut self, alloc: Global, asked: &EngineRequest) -> DavResult<Reply> {
        let request = &asked.request;
        let body = &asked.body;
        let asker = &nobody(&request.path);
        let mut inner = DavInner {
            fs: &mut self.fs,
            ls: &mut self.ls,
            allow: DavMethodSet::all(),
            moment: 1,
            caller: asker,
        };
        if request.path.is_star() {
            return Err(DavError::Status(StatusCode::FORBIDDEN));
        }
        match request.method {
            DavMethod::Put | DavMethod::Patch => inner.handle_put(alloc, request, body),
            DavMethod::MkCol => inner.handle_mkcol(alloc, request, body),
            DavMethod::Delete => inner.handle_delete(alloc, request, body),
            DavMethod::Copy | DavMethod::Move => inner.handle_copymove(alloc, request, body),
            DavMethod::Lock => inner.handle_lock(alloc, request, body),
            DavMethod::Unlock => inner.handle_unlock(alloc, request, body),
            DavMethod::PropFind => inner.handle_propfind(alloc, request, body),
            DavMethod::PropPatch => inner.handle_proppatch(alloc, request, body),
            _ => inner.handle_options(alloc, request, body),
        }
    }

    // What a call of the handler returns, as text.
    fn handled(&mut self, alloc: Global, asked: &EngineRequest) -> Result<String, Fail> {
        match self.handle(alloc, asked) {
            Ok(reply) => shown(alloc, &reply),
            Err(error) => Ok(format!(in alloc; "error {}", error.statuscode().as_u16())?),
        }
    }

    // What is at the path of a request.
    fn found(&mut self, request: &DavRequest) -> Option<DavMetaData> {
        self.fs.metadata(&request.path).ok()
    }

    // What `dav_if_match` returns, as text.
    fn holds(&mut self, alloc: Global, request: &DavRequest) -> Result<String, Fail> {
        let ls = self.ls.as_ref();
        let (holds, tokens) = dav_if_match(alloc, request, &mut self.fs, ls, &request.path)?;
        Ok(format!(in alloc; "{holds}, {} tokens", tokens.len())?)
    }

    // What `if_match` returns, as text.
    fn status(&mut self, alloc: Global, request: &DavRequest) -> Result<String, Fail> {
        let found = self.found(request);
        let ls = self.ls.as_ref();
        let path = &request.path;
        let status = if_match(alloc, request, found.as_ref(), &mut self.fs, ls, path)?;
        status_text(alloc, status)
    }

    // What `if_match_get_tokens` returns, as text.
    fn tokens(&mut self, alloc: Global, request: &DavRequest) -> Result<String, Fail> {
        let found = self.found(request);
        let ls = self.ls.as_ref();
        let path = &request.path;
        match if_match_get_tokens(alloc, request, found.as_ref(), &mut self.fs, ls, path)? {
            Ok(tokens) => Ok(format!(in alloc; "{} tokens", tokens.len())?),
            Err(status) => status_text(alloc, Some(status)),
        }
    }

    // What a call returns, as text.
    fn call(
        &mut self,
        alloc: Global,
        call: &'static str,
        asked: &EngineRequest,
    ) -> Result<String, Fail> {
        let request = &asked.request;
        match call {
            "http_if_match" => {
                let found = self.found(request);
                status_text(alloc, http_if_match(alloc, request, found.as_ref())?)
            }
            "dav_if_match" => self.holds(alloc, request),
            "if_match" => self.status(alloc, request),
            "if_match_get_tokens" => self.tokens(alloc, request),
            _ if call == handler_of(request.method) => self.handled(alloc, asked),
            _ => Err(NoRow(call).into()),
        }
    }
}

impl Player for Engine<MemFs, MemLs> {
    fn begin(&mut self, alloc: Global) -> Result<(), Fail> {
        self.fs = MemFs::new(alloc)?;
        self.ls = Some(MemLs::new(alloc)?);
        Ok(())
    }

    fn answer(&mut self, alloc: Global, question: &'static str) -> Result<Vec<u8>, Fail> {
        if let Some(path) = question.strip_prefix("anna locks ") {
            return lock_for_anna(alloc, &mut self.ls, path);
        }
        let (call, rest) = question.split_once(" | ").ok_or(NoRow(question))?;
        let asked = request_of(alloc, rest)?;
        Ok(self.call(alloc, call, &asked)?.into_bytes())
    }
}

#[test]
fn calls_the_engine(rt: HostRuntime) -> Result<(), Fail> {
    let fs = MemFs::new(rt.alloc())?;
    let ls = Some(MemLs::new(rt.alloc())?);
    play_rows(&rt, &mut Engine { fs, ls }, CALLS)
}
