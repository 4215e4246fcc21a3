//! PROPFIND (RFC 4918, section 9.1).
ghost use Rattle.std.specs.Prelude.{◌≡◌, ◌≢◌, ◌≤◌, ◌++◌, ◌∷◌, [], codes, IfOk, None, Some};
ghost use Rattle.dav_core.specs.Path.{star};
ghost use Rattle.dav_core.specs.World.{last_moment};
ghost use Rattle.http_header.specs.HeaderMap.{insert};
ghost use Rattle.http_header.specs.FieldValue.{plain_value};
ghost use Rattle.dav_engine.specs.OnHandler.{SameLocksBorrowed, ServesFrom, PropfindOf, caller_in, state_in};
ghost use Rattle.dav_engine.specs.Reply.{Reply};
ghost use Rattle.dav_engine.specs.ConditionView.{locks_in};
ghost use Rattle.dav_engine.specs.FindView.{response_at};
ghost use Rattle.dav_engine.specs.Folder.{closed, location_found};
ghost use Rattle.dav_engine.specs.Follows.{as_is};
ghost use Rattle.dav_engine.specs.Multistatus.{dav_element, declares_dav};
ghost use Rattle.dav_engine.specs.Propfind as spec;
ghost use Rattle.dav_engine.specs.ResponseWriter.{hands_on, started, Tells};
ghost use Rattle.dav_engine.specs.Taking.{FollowsHandingOn, IsHandedOn, ServesHandingOn, grown_tree, opened_tree};
ghost use Rattle.dav_engine.specs.declared.reply.ReplyBody.TheVariants.{Nothing, Tree};
ghost use Rattle.dav_core.specs.Element.{ElementTree};

mod headers;
mod members;
mod query;

use crate::davinner::{Caller, DavInner};
use crate::folder::{closed, tree_headers};
use crate::methods::propfind::headers::FindHeaders;
use crate::methods::propfind::members::tell_below;
use crate::methods::propfind::query::query_in;
use crate::properties::live::Resource;
use crate::properties::response_writer::ResponseWriter;
use crate::properties::takes::{Gathered, Takes};
use crate::properties::writer::Writer;
use crate::reply::tree::{declaring_dav, with_child};
use crate::reply::{Reply, ReplyBody, set_header, set_xml_type, tree_reply};
use crate::request::{Body, DavRequest};
use dav_core::davpath::DavPath;
use dav_core::element::Element;
use dav_core::errors::{DavError, DavResult, NoMemory};
use dav_core::fs::{DavFileSystem, DavMetaData};
use dav_core::ls::DavLockSystem;
use http::StatusCode;
use http_header::{HeaderMap, HeaderValue};
use std::alloc::Global;

// Headers that say that the reply isn't to be stored (RFC 9111, section 5.2).
fn uncached(alloc: Global) -> Result<HeaderMap, NoMemory>
    ensures { IfOk result (λ headers. headers ≡ insert
        (insert [] (codes "cache-control") (plain_value (codes "no-cache")))
        (codes "pragma") (plain_value (codes "no-cache"))) }
{
    let mut headers = HeaderMap::new(alloc);
    let no_cache = HeaderValue::from_static("no-cache");
    set_header(&mut headers, http_header::CACHE_CONTROL, no_cache)?;
    let no_cache = HeaderValue::from_static("no-cache");
    set_header(&mut headers, http_header::PRAGMA, no_cache)?;
    Ok(headers)
}

// The condition that the depth be finite, in an element (RFC 4918, section 16).
fn finite_depth_error(alloc: Global) -> Result<Element, NoMemory>
    ensures { IfOk result (λ e. e ≡ declares_dav (dav_element (codes "error")
        (dav_element (codes "propfind-finite-depth") [] ∷ []))) }
{
    let condition = Element::new2(alloc, "D:propfind-finite-depth");
    with_child(declaring_dav(alloc, "D:error"), condition)
}

// 501, with the condition that the depth be finite (RFC 4918, section 9.1.1).
fn finite_depth(alloc: Global) -> Result<Reply, NoMemory>
    ensures { IfOk result (λ r. r ≡ spec.finite_depth) }
{
    let mut headers = uncached(alloc)?;
    set_xml_type(&mut headers)?;
    let status = StatusCode::NOT_IMPLEMENTED;
    tree_reply(status, Ok(headers), finite_depth_error(alloc))
}

// 207, of which the multistatus was handed on.
fn found_reply(alloc: Global, asked: &DavPath, found: &DavMetaData) -> Result<Reply, NoMemory>
    ensures { IfOk result (λ r. r ≡ spec.found_reply
        (location_found (Some found.now) asked.now) Nothing) }
{
    let headers = tree_headers(alloc, uncached(alloc), asked, Some(found))?;
    Ok(Reply {
        status: StatusCode::MULTI_STATUS,
        headers,
        body: ReplyBody::Nothing,
    })
}

// Tells what was found at a path, and what is below it, as deep as the headers say.
fn told<F: DavFileSystem, L: DavLockSystem, T: Takes + Drop>(
    fs: &mut F,
    ls: Option<&L>,
    alloc: Global,
    headers: &FindHeaders,
    writer: Writer,
    found: Resource<'_>,
    to: T,
) -> Result<ResponseWriter<T>, NoMemory>
    requires path { found.path.now.bytes ≢ star }
    requires created { found.meta.now.created ≤ last_moment }
    requires modified { found.meta.now.modified ≤ last_moment }
    ensures { Tells (locks_in L.locks ls.entry) (hands_on T.taken) as_is
        (λ known. response_at headers.now writer found.entry.path.now found.entry.meta.now)
        (started T.opened writer to) as_is (F.state fs.old) result (F.state fs.new) }
{
    let mut writer = ResponseWriter::started(alloc, writer, to)?;
    if headers.tells_itself() {
        writer.tell(alloc, fs, ls, found)?;
    }
    let reach = headers.member_reach();
    let wanted = found.meta.dir && headers.tells_members();
    tell_below(fs, ls, alloc, reach, &mut writer, found.path, wanted)?;
    Ok(writer)
}

// A PROPFIND: the request, what its headers say, its body, and who makes it.
#[derive(Clone, Copy)]
struct Search<'a, 'c> {
    request: &'a DavRequest,
    headers: &'a FindHeaders,
    body: &'a Body,
    caller: &'a Caller<'c>,
}

// Tells what was found at the path of a request.
fn propfind_found<F: DavFileSystem, L: DavLockSystem, T: Takes + Drop>(
    fs: &mut F,
    ls: Option<&L>,
    alloc: Global,
    search: Search<'_, '_>,
    found: &DavMetaData,
    to: T,
) -> DavResult<(Reply, Option<T>)>
    requires path { search.request.now.path.bytes ≢ star }
    requires created { found.now.created ≤ last_moment }
    requires modified { found.now.modified ≤ last_moment }
    ensures { FollowsHandingOn T.opened T.taken to (locks_in L.locks ls.entry)
        (spec.propfind_found search.entry.headers.now search.entry.request.now.headers
        (closed found.now.dir search.entry.request.now.path)
        (location_found (Some found.now) search.entry.request.now.path)
        search.entry.body.now search.entry.caller.now found.now)
        (F.state fs.old) result (F.state fs.new) }
{
    let Search {
        request,
        headers,
        body,
        caller,
    } = search;
    let path = closed(&request.path, found.dir)?;
    let Some((telling, properties)) = query_in(alloc, body)? else {
        return Err(DavError::XmlParseError);
    };
    let writer = Writer::new(
        alloc,
        telling,
        &request.headers,
        caller.principal,
        properties,
    )?;
    let resource = Resource {
        path: &path,
        meta: found,
    };
    let told = told(fs, ls, alloc, headers, writer, resource, to)?;
    let reply = found_reply(alloc, &request.path, found)?;
    Ok((reply, Some(told.into_finished())))
}

// Tells what is at the path of a request.
fn propfind<F: DavFileSystem, L: DavLockSystem, T: Takes + Drop>(
    fs: &mut F,
    ls: Option<&L>,
    alloc: Global,
    search: Search<'_, '_>,
    to: T,
) -> DavResult<(Reply, Option<T>)>
    requires path { search.request.now.path.bytes ≢ star }
    ensures { FollowsHandingOn T.opened T.taken to (locks_in L.locks ls.entry)
        (spec.propfind search.entry.headers.now search.entry.request.now.headers
        search.entry.request.now.path search.entry.body.now search.entry.caller.now)
        (F.state fs.old) result (F.state fs.new) }
{
    if !search.headers.is_served() {
        return Ok((finite_depth(alloc)?, None));
    }
    match fs.metadata(&search.request.path) {
        Ok(found) => propfind_found(fs, ls, alloc, search, &found, to),
        Err(e) => Err(DavError::FsError(e)),
    }
}

// A reply with a tree as its body.
fn with_tree(told: Reply, tree: Gathered) -> Reply
    ensures { (root : ElementTree) → tree ≡ Some root → result ≡ record told { body = Tree root } }
{
    let Reply {
        status,
        headers,
        ..
    } = told;
    let body = match tree.into_tree() {
        Some(root) => ReplyBody::Tree(root),
        None => ReplyBody::Nothing,
    };
    Reply {
        status,
        headers,
        body,
    }
}

/// The whole reply to a request, of which this was told, and of which the multistatus was handed on to a tree, if it was. Allocates
/// nothing.
pub fn gathered(told: Reply, tree: Option<Gathered>) -> Reply
    ensures { (whole : Reply) → IsHandedOn opened_tree grown_tree None whole told tree
        → result ≡ whole }
{
    match tree {
        Some(tree) => with_tree(told, tree),
        None => told,
    }
}

impl<'a, 'b, 'c, F: DavFileSystem, L: DavLockSystem> DavInner<'a, 'b, 'c, F, L> {
    /// Tells properties of what is at the path of a request (RFC 4918, section 9.1): 207 with a response for each resource. At
    /// Depth 0 it is told of alone, at Depth 1 with the members of the folder that it is, in the order of their names, and at
    /// Depth infinity with everything below it, what is below a member behind that member. Without a Depth only the members
    /// are told of. A folder that the store refuses to list is told of without members, and a member that it refuses to tell
    /// of is left out, with what is below it. `content-location` is told where the path is that of a folder and lacks its slash.
    ///
    /// The body asks for the properties of a `prop`, for all with `allprop` or without a body, or for names alone with
    /// `propname`. What isn't found is left out; what the store keeps beside that is told too. No reply is to be stored by
    /// caches.
    ///
    /// The first of these that applies is answered: 501 with `propfind-finite-depth` for Depth infinity, unless the request
    /// tests servers by X-Litmus; the store's status where it doesn't report what is at the path; 400 where the body asks for
    /// nothing. No condition and no lock is checked.
    pub fn handle_propfind(
        &mut self,
        alloc: Global,
        request: &DavRequest,
        body: &Body,
    ) -> DavResult<Reply>
        requires path { request.now.path.bytes ≢ star }
        ensures lent { SameLocksBorrowed L.locks self.old self.new }
        ensures serves { ServesFrom F.state L.locks (PropfindOf request.now body.now)
            self.old result self.new }
    {
        match self.handle_propfind_to(alloc, request, body, Gathered::new()) {
            Ok((reply, tree)) => Ok(gathered(reply, tree)),
            Err(error) => Err(error),
        }
    }

    /// The same, and the multistatus is handed on to `to`, without responses and then response by response, as they are made: the
    /// reply is told without a body then, and what took the responses is given back. `None` where nothing was handed on: the reply
    /// is whole.
    pub fn handle_propfind_to<T: Takes + Drop>(
        &mut self,
        alloc: Global,
        request: &DavRequest,
        body: &Body,
        to: T,
    ) -> DavResult<(Reply, Option<T>)>
        requires path { request.now.path.bytes ≢ star }
        ensures lent { SameLocksBorrowed L.locks self.old self.new }
        ensures serves { ServesHandingOn T.opened T.taken to
            (PropfindOf request.now body.now (caller_in self.old))
            (state_in F.state L.locks self.old) result (state_in F.state L.locks self.new) }
    {
        let headers = FindHeaders::decode(alloc, &request.headers)?;
        let caller = self.caller.at(self.moment);
        let search = Search {
            request,
            headers: &headers,
            body,
            caller: &caller,
        };
        propfind(self.fs, self.ls.as_ref(), alloc, search, to)
    }
}
