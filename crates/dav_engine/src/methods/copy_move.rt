//! COPY and MOVE (RFC 4918, sections 9.8 and 9.9).
ghost use Rattle.std.specs.Prelude.{◌≡◌, ◌≢◌, ◌≤◌, ◌&&◌, ◌||◌, not, [], if◌then◌else◌, IfOk, true, false, map, string_bytes};
ghost use Rattle.std.specs.Option.{option_map, option_copied, is_some, unwrap_or};
ghost use Rattle.dav_core.specs.Asking.{Asks, Metadata};
ghost use Rattle.dav_core.specs.Lists.{is_empty};
ghost use Rattle.dav_core.specs.Locks.{deleted, requester_of};
ghost use Rattle.dav_core.specs.World.{last_moment};
ghost use Rattle.dav_core.specs.Path.{names, is_at_or_under, star};
ghost use Rattle.dav_engine.specs.OnHandler.{SameLocksBorrowed, SameStateBorrowed, ServesFrom, CopyMoveOf};
ghost use Rattle.dav_engine.specs.ConditionView.{locks_in};
ghost use Rattle.dav_engine.specs.Copied.{Copies, FollowsLater};
ghost use Rattle.dav_engine.specs.CopyMove as spec;
ghost use Rattle.dav_engine.specs.CopyView.{result_of};
ghost use Rattle.dav_engine.specs.Copying as walk;
ghost use Rattle.dav_engine.specs.Follows.{as_is, viewed, Follows, FollowsWithLocks, FollowsOnStore, FollowsOnLocks};
ghost use Rattle.dav_engine.specs.MembersView.{members_change};
ghost use Rattle.dav_engine.specs.Method.{is_open};
ghost use Rattle.dav_engine.specs.Plan.{Locks};
ghost use Rattle.dav_engine.specs.Reach.{reaches_below};
ghost use Rattle.dav_engine.specs.Removal.{report_of};
ghost use Rattle.dav_engine.specs.Walked.{Walks, goes_below};

mod copying;
mod headers;

use crate::conditions::Conditions;
use crate::davinner::{Caller, DavInner};
use crate::depth::{Reach, reach_at, whole_depth};
use crate::folder::{closed, is_folder_found};
use crate::locks::{Members, drop_locks, is_open, parent_allowed};
use crate::methods::copy_move::copying::{CopyJob, copying, renaming};
use crate::methods::copy_move::headers::CopyHeaders;
use crate::methods::delete::removal::removal;
use crate::reply::Reply;
use crate::reply::multistatus::{MultiError, multi_error, status_reply};
use crate::request::{Body, DavRequest};
use dav_core::davpath::DavPath;
use dav_core::errors::{DavError, DavResult, FsError, FsResult, NoMemory};
use dav_core::fs::{DavFileSystem, DavMetaData};
use dav_core::ls::DavLockSystem;
use dav_core::method::DavMethod;
use dav_headers::Depth;
pub use headers::destination_in;
use http::StatusCode;
use std::alloc::Global;

const LOCKED: DavError = DavError::Status(StatusCode::LOCKED);

/// What a COPY or MOVE is to do.
#[derive(Clone, Copy)]
struct Transfer<'a, 'c> {
    /// Which of both it is.
    method: DavMethod,
    /// Whether the source goes alone, or with everything below it.
    reach: Reach,
    /// What is copied or moved.
    source: &'a DavPath,
    /// Where it goes.
    destination: &'a DavPath,
    /// Who makes the request, and when.
    caller: &'a Caller<'c>,
}

// Whether the method is MOVE.
fn is_move(method: DavMethod) -> bool
    ensures { result ≡ spec.is_move method }
{
    matches!(method, DavMethod::Move)
}

// Whether the source goes alone, or with everything below it; the error for a depth that the method doesn't have.
fn copy_depth(method: DavMethod, depth: Option<Depth>) -> DavResult<Reach>
    ensures { viewed reaches_below result ≡ spec.copy_depth (spec.is_move method) depth }
{
    match depth {
        Some(Depth::Zero) if is_move(method) => Err(DavError::Status(StatusCode::BAD_REQUEST)),
        other => whole_depth(other),
    }
}

// Whether what is found at the destination may be overwritten, or nothing is.
fn may_overwrite(overwrite: Option<bool>, there: Option<&DavMetaData>) -> bool
    ensures { result ≡ (unwrap_or overwrite true || not (is_some (option_copied there.entry))) }
{
    overwrite.unwrap_or(true) || there.is_none()
}

// What is found at the destination, where it may be overwritten and a folder is above it.
fn destination_found<F: DavFileSystem>(
    fs: &mut F,
    overwrite: Option<bool>,
    destination: &DavPath,
) -> DavResult<Option<DavMetaData>>
    ensures { FollowsOnStore as_is (spec.destination_found overwrite destination.now)
        (F.state fs.old) result (F.state fs.new) }
{
    let parent = destination.parent()?;
    let above = fs.metadata(&parent).ok();
    if !is_folder_found(above.as_ref()) {
        return Err(DavError::Status(StatusCode::CONFLICT));
    }
    let there = fs.symlink_metadata(destination).ok();
    if !may_overwrite(overwrite, there.as_ref()) {
        return Err(DavError::Status(StatusCode::PRECONDITION_FAILED));
    }
    Ok(there)
}

// Whether what was found at the destination is removed.
fn is_replaced(reach: Reach, there: Option<&DavMetaData>) -> bool
    ensures { result ≡ spec.is_replaced (reaches_below reach) (option_copied there.entry) }
{
    match there {
        Some(meta) => reach.reaches_below() || !meta.dir,
        None => false,
    }
}

// What the request does to the members of the folder above the source: a MOVE takes one away.
fn source_members(method: DavMethod) -> Members
    ensures { members_change result ≡ spec.is_move method }
{
    if is_move(method) {
        Members::Change
    } else {
        Members::Stay
    }
}

// What the request does to the members of the folder above the destination.
fn destination_members(method: DavMethod, reach: Reach, there: Option<&DavMetaData>) -> Members
    ensures { members_change result ≡ spec.changes_members (spec.is_move method)
        (reaches_below reach) (option_copied there.entry) }
{
    if is_move(method) || there.is_none() || is_replaced(reach, there) {
        Members::Change
    } else {
        Members::Stay
    }
}

// Checks whether no lock conflicts: for a move at the source, and at the destination.
fn are_free<L: DavLockSystem>(
    ls: Option<&L>,
    method: DavMethod,
    path: &DavPath,
    destination: &DavPath,
    principal: Option<&str>,
    tokens: &[String],
) -> bool
    ensures { result ≡ (if spec.is_move method then is_open true
        (requester_of (map string_bytes tokens.now) false (option_copied principal.entry))
        (names path.now) (locks_in L.locks ls.entry) else true)
        && is_open true
        (requester_of (map string_bytes tokens.now) false (option_copied principal.entry))
        (names destination.now) (locks_in L.locks ls.entry) }
{
    if is_move(method) && !is_open(ls, path, principal, Reach::WithAllBelow, tokens) {
        return false;
    }
    is_open(ls, destination, principal, Reach::WithAllBelow, tokens)
}

// Checks whether no lock conflicts on the folders above both: for a move at the source, and at the destination where its members
// change.
fn folders_free<L: DavLockSystem>(
    ls: Option<&L>,
    method: DavMethod,
    members: Members,
    path: &DavPath,
    destination: &DavPath,
    principal: Option<&str>,
    tokens: &[String],
) -> DavResult<()>
    ensures { FollowsOnLocks (λ u. u) (spec.folders_free
        (spec.is_move method) (members_change members)
        (requester_of (map string_bytes tokens.now) false (option_copied principal.entry))
        path.now destination.now)
        (locks_in L.locks ls.entry) result (locks_in L.locks ls.entry) }
{
    parent_allowed(ls, source_members(method), path, principal, tokens, LOCKED)?;
    parent_allowed(ls, members, destination, principal, tokens, LOCKED)
}

// Checks whether conditions and locks let the request go on; else returns the error that says why not.
fn copy_free<F: DavFileSystem, L: DavLockSystem>(
    fs: &mut F,
    ls: Option<&L>,
    alloc: Global,
    conditions: &Conditions,
    job: &Transfer<'_, '_>,
    found: &DavMetaData,
    there: Option<&DavMetaData>,
) -> DavResult<()>
    ensures { FollowsWithLocks (locks_in L.locks ls.entry) (λ u. u)
        (spec.copy_free job.now.method (reaches_below job.now.reach) conditions.now
        job.now.source.now job.now.destination.now job.now.caller.now found.now
        (option_copied there.entry))
        (F.state fs.old) result (F.state fs.new) }
{
    let verdict = conditions.if_match_get_tokens(alloc, job.method, Some(found), fs, ls)?;
    let tokens = match verdict {
        Ok(tokens) => tokens,
        Err(status) => return Err(DavError::Status(status)),
    };
    let method = job.method;
    let members = destination_members(method, job.reach, there);
    let caller = job.caller;
    let principal = caller.principal;
    if !are_free(ls, method, job.source, job.destination, principal, &tokens) {
        return Err(LOCKED);
    }
    folders_free(
        ls,
        method,
        members,
        job.source,
        job.destination,
        principal,
        &tokens,
    )
}

// Checks whether the request may be carried out: returns what is found at the destination.
fn copy_allowed<F: DavFileSystem, L: DavLockSystem>(
    fs: &mut F,
    ls: Option<&L>,
    alloc: Global,
    headers: &CopyHeaders,
    job: &Transfer<'_, '_>,
    found: &DavMetaData,
) -> DavResult<Option<DavMetaData>>
    ensures { FollowsWithLocks (locks_in L.locks ls.entry) as_is
        (spec.copy_allowed job.now.method (reaches_below job.now.reach) headers.now
        job.now.source.now job.now.destination.now job.now.caller.now found.now)
        (F.state fs.old) result (F.state fs.new) }
{
    let there = destination_found(fs, headers.overwrite, job.destination)?;
    if job.source.is_at_or_under(job.destination) {
        return Err(DavError::Status(StatusCode::FORBIDDEN));
    }
    let conditions = &headers.conditions;
    copy_free(fs, ls, alloc, conditions, job, found, there.as_ref())?;
    Ok(there)
}

// Removes what was found at the destination, where it is replaced. Whether nothing of that stays.
fn clearing<F: DavFileSystem>(
    fs: &mut F,
    alloc: Global,
    job: &Transfer<'_, '_>,
    there: Option<&DavMetaData>,
    errors: &mut MultiError,
) -> Result<bool, NoMemory>
    requires moment { job.now.caller.now.moment ≤ last_moment }
    requires path { job.now.destination.now.bytes ≢ star }
    ensures { Walks report_of is_empty (spec.clearing
        (reaches_below job.now.reach) job.now.caller.now.moment
        job.now.destination.now (option_copied there.entry))
        (F.state fs.old) errors.old errors.new result (F.state fs.new) }
{
    if !is_replaced(job.reach, there) {
        return Ok(true);
    }
    let dir = is_folder_found(there);
    let caller = job.caller;
    removal(
        fs,
        alloc,
        Reach::WithAllBelow,
        job.destination,
        dir,
        caller.moment,
        errors,
    )
}

// The status of the reply where all was copied or moved.
fn copied_status(there: Option<&DavMetaData>) -> StatusCode
    ensures { result ≡ spec.copied_status (option_copied there.entry) }
{
    if there.is_some() {
        StatusCode::NO_CONTENT
    } else {
        StatusCode::CREATED
    }
}

// Moves what is at a path.
fn move_to<F: DavFileSystem, L: DavLockSystem>(
    fs: &mut F,
    ls: &mut Option<L>,
    alloc: Global,
    job: &Transfer<'_, '_>,
    status: StatusCode,
) -> DavResult<Reply>
    requires moment { job.now.caller.now.moment ≤ last_moment }
    ensures { FollowsLater as_is (spec.transfer_reply true
        (reaches_below job.now.reach) job.now.caller.now.moment
        job.now.source.now job.now.destination.now status)
        (F.state fs.old) (option_map L.locks ls.old) result
        (F.state fs.new) (option_map L.locks ls.new) }
{
    let mut errors = MultiError::new(Vec::new(alloc));
    let caller = job.caller;
    let moment = caller.moment;
    if renaming(fs, alloc, job.source, job.destination, moment, &mut errors)?.is_some() {
        return multi_error(alloc, job.source, errors.into_items());
    }
    drop_locks(ls, job.source);
    Ok(status_reply(alloc, status))
}

// Copies what is at a path.
fn copy_to<F: DavFileSystem>(
    fs: &mut F,
    alloc: Global,
    job: &Transfer<'_, '_>,
    status: StatusCode,
) -> DavResult<Reply>
    requires moment { job.now.caller.now.moment ≤ last_moment }
    requires path { job.now.source.now.bytes ≢ star }
    ensures { (ls : Locks) → FollowsLater as_is
        (spec.transfer_reply false (reaches_below job.now.reach) job.now.caller.now.moment
        job.now.source.now job.now.destination.now status)
        (F.state fs.old) ls result (F.state fs.new) ls }
{
    let mut errors = MultiError::new(Vec::new(alloc));
    let caller = job.caller;
    let whole = CopyJob {
        top: job.destination,
        source: job.source,
        destination: job.destination,
        reach: job.reach,
        moment: caller.moment,
    };
    if copying(fs, alloc, &whole, &mut errors)?.is_some() {
        return multi_error(alloc, job.source, errors.into_items());
    }
    Ok(status_reply(alloc, status))
}

// Ends the locks at a path and below it, where that is wanted.
fn drop_if<L: DavLockSystem>(ls: &mut Option<L>, wanted: bool, front: &DavPath)
    ensures { option_map L.locks ls.new ≡ (if wanted
        then option_map (deleted (names front.now)) (option_map L.locks ls.old)
        else option_map L.locks ls.old) }
{
    if wanted {
        drop_locks(ls, front);
    }
}

// Moves or copies what is at a path, and ends the locks of what was replaced before that.
fn bring<F: DavFileSystem, L: DavLockSystem>(
    fs: &mut F,
    ls: &mut Option<L>,
    alloc: Global,
    job: &Transfer<'_, '_>,
    there: Option<&DavMetaData>,
) -> DavResult<Reply>
    requires moment { job.now.caller.now.moment ≤ last_moment }
    requires path { job.now.source.now.bytes ≢ star }
    ensures { Follows as_is (spec.transfer_if_cleared
        (spec.is_move job.now.method) (reaches_below job.now.reach)
        job.now.caller.now.moment job.now.source.now job.now.destination.now
        (option_copied there.entry) [])
        (F.state fs.old) (option_map L.locks ls.old) result
        (F.state fs.new) (option_map L.locks ls.new) }
{
    drop_if(ls, is_replaced(job.reach, there), job.destination);
    let status = copied_status(there);
    if is_move(job.method) {
        move_to(fs, ls, alloc, job, status)
    } else {
        copy_to(fs, alloc, job, status)
    }
}

// Carries out a COPY or MOVE of what was found at a path, where it may be carried out.
fn copy_found<F: DavFileSystem, L: DavLockSystem>(
    fs: &mut F,
    ls: &mut Option<L>,
    alloc: Global,
    headers: &CopyHeaders,
    job: &Transfer<'_, '_>,
    found: &DavMetaData,
) -> DavResult<Reply>
    requires moment { job.now.caller.now.moment ≤ last_moment }
    requires path { job.now.source.now.bytes ≢ star }
    requires destination { job.now.destination.now.bytes ≢ star }
    ensures { Follows as_is (spec.copy_found job.now.method
        (reaches_below job.now.reach) headers.now
        job.now.source.now job.now.destination.now job.now.caller.now found.now)
        (F.state fs.old) (option_map L.locks ls.old) result
        (F.state fs.new) (option_map L.locks ls.new) }
{
    let there = copy_allowed(fs, ls.as_ref(), alloc, headers, job, found)?;
    let there = there.as_ref();
    let mut errors = MultiError::new(Vec::new(alloc));
    if !clearing(fs, alloc, job, there, &mut errors)? {
        return multi_error(alloc, job.source, errors.into_items());
    }
    bring(fs, ls, alloc, job, there)
}

// What is at the source: of a symbolic link a MOVE moves the link itself.
fn source_metadata<F: DavFileSystem>(
    fs: &mut F,
    method: DavMethod,
    path: &DavPath,
) -> FsResult<DavMetaData>
    ensures { Asks (Metadata (names path.now)) (F.state fs.old) result (F.state fs.new) }
{
    if is_move(method) {
        fs.symlink_metadata(path)
    } else {
        fs.metadata(path)
    }
}

// Carries out a COPY or MOVE.
fn copy_or_move<F: DavFileSystem, L: DavLockSystem>(
    fs: &mut F,
    ls: &mut Option<L>,
    alloc: Global,
    method: DavMethod,
    headers: &CopyHeaders,
    path: &DavPath,
    caller: &Caller<'_>,
) -> DavResult<Reply>
    requires moment { caller.now.moment ≤ last_moment }
    requires path { path.now.bytes ≢ star }
    requires destination { IfOk headers.now.destination (λ d. d.bytes ≢ star) }
    ensures { Follows as_is (spec.copy_or_move method headers.now path.now caller.now)
        (F.state fs.old) (option_map L.locks ls.old) result
        (F.state fs.new) (option_map L.locks ls.new) }
{
    let reach = copy_depth(method, headers.depth)?;
    let destination = match &headers.destination {
        Ok(destination) => destination,
        Err(error) => return Err(*error),
    };
    let found = match source_metadata(fs, method, path) {
        Ok(found) => found,
        Err(e) => return Err(DavError::FsError(e)),
    };
    let source = closed(path, found.dir)?;
    let job = Transfer {
        method,
        reach,
        source: &source,
        destination,
        caller,
    };
    copy_found(fs, ls, alloc, headers, &job, &found)
}

// Copies what is at a path.
fn copy_items<F: DavFileSystem>(
    fs: &mut F,
    alloc: Global,
    job: &CopyJob<'_>,
    errors: &mut MultiError,
) -> DavResult<()>
    requires moment { job.now.moment ≤ last_moment }
    requires path { job.now.source.now.bytes ≢ star }
    ensures { Copies (walk.copying (reaches_below job.now.reach) job.now.moment
        job.now.top.now job.now.source.now job.now.destination.now)
        (F.state fs.old) errors.old errors.new result (F.state fs.new) }
{
    let last = copying(fs, alloc, job, errors)?;
    result_of(last)
}

// Moves what is at a path.
fn move_items<F: DavFileSystem>(
    fs: &mut F,
    alloc: Global,
    source: &DavPath,
    destination: &DavPath,
    now: u64,
    errors: &mut MultiError,
) -> DavResult<()>
    requires moment { now ≤ last_moment }
    ensures { Copies (walk.renaming now source.now destination.now)
        (F.state fs.old) errors.old errors.new result (F.state fs.new) }
{
    let last = renaming(fs, alloc, source, destination, now, errors)?;
    result_of(last)
}

// What a copy or a move by itself returns.
fn result_of(last: Option<FsError>) -> DavResult<()>
    ensures { result ≡ result_of last }
{
    match last {
        None => Ok(()),
        Some(e) => Err(DavError::FsError(e)),
    }
}

impl<'a, 'b, 'c, F: DavFileSystem, L: DavLockSystem> DavInner<'a, 'b, 'c, F, L> {
    /// Copies what is at the path of a request to its Destination, or moves it there, with everything below it, or for a COPY
    /// at Depth 0 alone (RFC 4918, sections 9.8 and 9.9): 204 where something was at the destination, else 201. What is at the
    /// destination is removed before that, with everything below it; but a folder stays for a COPY at Depth 0. The locks of
    /// what was removed end, and so do those of what was moved.
    ///
    /// The first of these that applies is answered: 400 for Depth 1, and for a MOVE at Depth 0; 400 without a Destination, or
    /// where it names no path, 403 where it climbs above the root, 502 where it isn't at or below the prefix; the store's
    /// status where it doesn't report what is at the path; 409 where no folder is above the destination; 412 where something
    /// is at the destination and Overwrite is `F`; 403 where the destination is the path, or above it; 412 where a condition
    /// fails; 423 where a lock conflicts, for a MOVE at the path or below it, and for both at the destination or below it; or on the
    /// folder above the path of a MOVE, or above the destination where its members change.
    /// Where the store refuses a call after that, what stays at the destination is reported as by a DELETE, and nothing is
    /// copied or moved; else the copy goes on with the rest, and what isn't copied is reported: 207 with each path and its
    /// status, or that status alone where the only path is the request's. The body isn't looked at.
    pub fn handle_copymove(
        &mut self,
        alloc: Global,
        request: &DavRequest,
        _body: &Body,
    ) -> DavResult<Reply>
        requires moment { self.old.moment ≤ last_moment }
        requires path { request.now.path.bytes ≢ star }
        ensures lent { SameStateBorrowed self.old self.new }
        ensures serves { ServesFrom F.state L.locks (CopyMoveOf request.now)
            self.old result self.new }
    {
        let headers = CopyHeaders::decode(alloc, request)?;
        let caller = self.caller.at(self.moment);
        let path = &request.path;
        copy_or_move(
            self.fs,
            self.ls,
            alloc,
            request.method,
            &headers,
            path,
            &caller,
        )
    }

    /// Copies what is at a path to another path, as part of a copy to `topdest`: with everything below it, or at Depth 0 alone
    /// (RFC 4918, section 9.8.3). `topdest` itself isn't copied, so a folder can be copied to a path below it. Where the store
    /// refuses a call, the copy goes on with the rest, and the path that wasn't copied or created is added to the collector
    /// with its status. The locks stay.
    ///
    /// Where something wasn't copied, the error is the refusal that was added last; `Memory` where an allocation fails, and
    /// then the copy stops there: what the collector had stays, and behind it are the first paths that weren't copied, as they were
    /// added so far.
    pub fn do_copy<'p>(
        &mut self,
        alloc: Global,
        source: &'p DavPath,
        topdest: &'p DavPath,
        dest: &'p DavPath,
        depth: Depth,
        errors: &mut MultiError,
    ) -> DavResult<()>
        requires moment { self.old.moment ≤ last_moment }
        requires path { source.now.bytes ≢ star }
        ensures lent { SameLocksBorrowed L.locks self.old self.new }
        ensures copies { Copies (walk.copying (goes_below depth) self.old.moment
            topdest.now source.now dest.now)
            (F.state self.old.fs.now) errors.old errors.new result (F.state self.new.fs.now) }
    {
        let job = CopyJob {
            top: topdest,
            source,
            destination: dest,
            reach: reach_at(depth),
            moment: self.moment,
        };
        copy_items(self.fs, alloc, &job, errors)
    }

    /// Moves what is at a path to another path, with everything below it (RFC 4918, section 9.9). The locks stay. Where the
    /// store refuses it, the path is added to the collector with its status, and the refusal is the error; `Memory` where an
    /// allocation fails, and the collector then stays as it was.
    pub fn do_move(
        &mut self,
        alloc: Global,
        source: &DavPath,
        dest: &DavPath,
        errors: &mut MultiError,
    ) -> DavResult<()>
        requires moment { self.old.moment ≤ last_moment }
        ensures lent { SameLocksBorrowed L.locks self.old self.new }
        ensures copies { Copies (walk.renaming self.old.moment source.now dest.now)
            (F.state self.old.fs.now) errors.old errors.new result (F.state self.new.fs.now) }
    {
        move_items(self.fs, alloc, source, dest, self.moment, errors)
    }
}
