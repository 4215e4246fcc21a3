//! PROPPATCH (RFC 4918, section 9.2).
ghost use Rattle.std.specs.Prelude.{◌≡◌, ◌∷◌, [], Some, IfOk, IsOkAnd};
ghost use Rattle.dav_engine.specs.OnHandler.{SameLocksBorrowed, ServesFrom, ProppatchOf};
ghost use Rattle.dav_engine.specs.ConditionView.{locks_in};
ghost use Rattle.dav_engine.specs.Folder.{location_found};
ghost use Rattle.dav_engine.specs.Follows.{as_is, FollowsWithLocks, FollowsOnStore};
ghost use Rattle.dav_engine.specs.Multistatus.{multistatus};
ghost use Rattle.dav_engine.specs.Proppatch as spec;

mod changes;

use crate::conditions::Conditions;
use crate::davinner::{Caller, DavInner};
use crate::depth::Reach;
use crate::folder::{closed, tree_headers};
use crate::locks::is_open;
use crate::methods::proppatch::changes::{
    Change, all_done, all_failed, as_patches, changes_in, grouped, has_refused, judge,
};
use crate::properties::response::property_response;
use crate::reply::tree::{declaring_dav, with_child};
use crate::reply::{Reply, tree_reply};
use crate::request::{Body, DavRequest};
use dav_core::davpath::DavPath;
use dav_core::element::Element;
use dav_core::errors::{DavError, DavResult, NoMemory};
use dav_core::fs::{DavFileSystem, DavMetaData, DavProp};
use dav_core::ls::DavLockSystem;
use dav_core::method::DavMethod;
use http::StatusCode;
use http_header::HeaderMap;
use std::alloc::Global;

// The element with one response, where there was memory for that.
fn multistatus(alloc: Global, response: Result<Element, NoMemory>) -> Result<Element, NoMemory>
    ensures { IfOk result (λ e. IsOkAnd response (λ one. e ≡ multistatus (one ∷ []))) }
{
    with_child(declaring_dav(alloc, "D:multistatus"), response)
}

// The reply that tells what became of properties of a path: 207, with one response.
fn proppatch_reply(
    alloc: Global,
    asked: &DavPath,
    found: &DavMetaData,
    path: &DavPath,
    told: Vec<(StatusCode, Element)>,
) -> Result<Reply, NoMemory>
    ensures { IfOk result (λ r. r ≡ spec.proppatch_reply
        (location_found (Some found.now) asked.now) path.now told.items) }
{
    let groups = grouped(alloc, told)?;
    let headers = tree_headers(alloc, Ok(HeaderMap::new(alloc)), asked, Some(found));
    let tree = multistatus(alloc, property_response(alloc, path, groups));
    tree_reply(StatusCode::MULTI_STATUS, headers, tree)
}

// Stores changes, if there are any.
fn store_changes<F: DavFileSystem>(
    fs: &mut F,
    alloc: Global,
    path: &DavPath,
    changes: &[Change<'_>],
) -> DavResult<Vec<(StatusCode, DavProp)>>
    ensures { FollowsOnStore (λ done. done.items) (spec.store_changes path.now changes.now)
        (F.state fs.old) result (F.state fs.new) }
{
    if changes.is_empty() {
        return Ok(Vec::new(alloc));
    }
    let patches = as_patches(alloc, changes)?;
    match fs.patch_props(alloc, path, patches) {
        Ok(done) => Ok(done),
        Err(e) => Err(DavError::FsError(e)),
    }
}

// Makes all changes, or none where one is refused, and tells what became of each.
fn change_properties<F: DavFileSystem>(
    fs: &mut F,
    alloc: Global,
    path: &DavPath,
    changes: Vec<Change<'_>>,
) -> DavResult<Vec<(StatusCode, Element)>>
    ensures { FollowsOnStore (λ told. told.items)
        (spec.change_properties path.now changes.entry.items)
        (F.state fs.old) result (F.state fs.new) }
{
    let has = fs.have_props(path);
    let judged = judge(alloc, has, changes)?;
    if has_refused(&judged.answered) {
        return Ok(all_failed(alloc, &judged)?);
    }
    let done = store_changes(fs, alloc, path, &judged.stored)?;
    Ok(all_done(alloc, &judged.answered, &done)?)
}

// Makes the changes of a body.
fn patch_properties<F: DavFileSystem>(
    fs: &mut F,
    alloc: Global,
    asked: &DavPath,
    found: &DavMetaData,
    path: &DavPath,
    body: &Body,
) -> DavResult<Reply>
    ensures { FollowsOnStore as_is (spec.patch_body path.now
        (location_found (Some found.now) asked.now) body.now)
        (F.state fs.old) result (F.state fs.new) }
{
    let Some(changes) = changes_in(alloc, body)? else {
        return Err(DavError::XmlParseError);
    };
    let told = change_properties(fs, alloc, path, changes)?;
    Ok(proppatch_reply(alloc, asked, found, path, told)?)
}

// A PROPPATCH: its conditions, the path that it asks for, its body, and who makes it.
#[derive(Clone, Copy)]
struct Update<'a, 'c> {
    conditions: &'a Conditions,
    asked: &'a DavPath,
    body: &'a Body,
    caller: &'a Caller<'c>,
}

// Changes properties of what was found at a path, where they may be changed.
fn proppatch_found<F: DavFileSystem, L: DavLockSystem>(
    fs: &mut F,
    ls: Option<&L>,
    alloc: Global,
    update: Update<'_, '_>,
    found: &DavMetaData,
) -> DavResult<Reply>
    ensures { FollowsWithLocks (locks_in L.locks ls.entry) as_is
        (spec.proppatch_at update.entry.conditions.now update.entry.asked.now
        update.entry.body.now update.entry.caller.now found.now)
        (F.state fs.old) result (F.state fs.new) }
{
    let Update {
        conditions,
        asked,
        body,
        caller,
    } = update;
    let path = closed(asked, found.dir)?;
    let method = DavMethod::PropPatch;
    let verdict = conditions.if_match_get_tokens(alloc, method, Some(found), fs, ls)?;
    let tokens = match verdict {
        Ok(tokens) => tokens,
        Err(status) => return Err(DavError::Status(status)),
    };
    if !is_open(ls, &path, caller.principal, Reach::Alone, &tokens) {
        return Err(DavError::Status(StatusCode::LOCKED));
    }
    patch_properties(fs, alloc, asked, found, &path, body)
}

// Changes properties of what is at a path.
fn proppatch<F: DavFileSystem, L: DavLockSystem>(
    fs: &mut F,
    ls: Option<&L>,
    alloc: Global,
    update: Update<'_, '_>,
) -> DavResult<Reply>
    ensures { FollowsWithLocks (locks_in L.locks ls.entry) as_is
        (spec.proppatch update.entry.conditions.now update.entry.asked.now
        update.entry.body.now update.entry.caller.now)
        (F.state fs.old) result (F.state fs.new) }
{
    match fs.metadata(update.asked) {
        Ok(found) => proppatch_found(fs, ls, alloc, update, &found),
        Err(e) => Err(DavError::FsError(e)),
    }
}

impl<'a, 'b, 'c, F: DavFileSystem, L: DavLockSystem> DavInner<'a, 'b, 'c, F, L> {
    /// Sets and removes properties of what is at the path of a request, as its body tells (RFC 4918, section 9.2): all of
    /// them, or none. 207 with one response, which has each property under its status, the statuses rising, and
    /// `content-location` where the path is that of a folder and lacks its slash.
    ///
    /// The first of these that applies is answered: the store's status where it doesn't report what is at the path; 412 where
    /// a condition fails; 423 where a lock conflicts; 400 where the body isn't a `propertyupdate`; the store's status where it
    /// refuses the changes.
    ///
    /// What the server computes can't be changed: 403, also for `displayname` and `getcontentlanguage` where the store keeps no
    /// properties; 409 where the value of a known property isn't a text, or that of `getcontentlanguage` no list of languages.
    /// Where one change is refused, nothing is stored, and 424 is told of the others. What Windows sets is answered 200, and
    /// isn't stored; so is the removal of `displayname` and `getcontentlanguage`.
    ///
    /// `Memory` where memory runs out; the changes may then be made.
    pub fn handle_proppatch(
        &mut self,
        alloc: Global,
        request: &DavRequest,
        body: &Body,
    ) -> DavResult<Reply>
        ensures lent { SameLocksBorrowed L.locks self.old self.new }
        ensures serves { ServesFrom F.state L.locks (ProppatchOf request.now body.now)
            self.old result self.new }
    {
        let conditions = Conditions::decode(alloc, request, &request.path)?;
        let caller = self.caller.at(self.moment);
        let update = Update {
            conditions: &conditions,
            asked: &request.path,
            body,
            caller: &caller,
        };
        proppatch(self.fs, self.ls.as_ref(), alloc, update)
    }
}
