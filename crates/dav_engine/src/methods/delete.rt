//! DELETE (RFC 4918, section 9.6).
ghost use Rattle.std.specs.Prelude.{◌≢◌, ◌≤◌};
ghost use Rattle.std.specs.Option.{option_map};
ghost use Rattle.dav_core.specs.World.{last_moment};
ghost use Rattle.dav_core.specs.Path.{star};
ghost use Rattle.dav_engine.specs.OnHandler.{SameLocksBorrowed, SameStateBorrowed, ServesFrom, DeleteOf};
ghost use Rattle.dav_engine.specs.ConditionView.{locks_in};
ghost use Rattle.dav_engine.specs.Delete.{delete_allowed, delete_found, deleting};
ghost use Rattle.dav_engine.specs.Follows.{as_is, Follows, FollowsWithLocks};
ghost use Rattle.dav_engine.specs.Reach.{reaches_below};
ghost use Rattle.dav_engine.specs.Removal.{removal};
ghost use Rattle.dav_engine.specs.Walked.{Removes, goes_below};

pub(crate) mod removal;

use crate::conditions::Conditions;
use crate::davinner::{Caller, DavInner};
use crate::depth::{Reach, depth_in, reach_at, whole_depth};
use crate::folder::closed;
use crate::locks::{Members, drop_locks, member_allowed};
use crate::methods::delete::removal::removal;
use crate::reply::Reply;
use crate::reply::multistatus::{MultiError, multi_error, status_reply};
use crate::request::{Body, DavRequest};
use dav_core::davpath::DavPath;
use dav_core::errors::{DavError, DavResult};
use dav_core::fs::{DavFileSystem, DavMetaData};
use dav_core::ls::DavLockSystem;
use dav_core::method::DavMethod;
use dav_headers::Depth;
use http::StatusCode;
use std::alloc::Global;

/// What a DELETE is to remove.
#[derive(Clone, Copy)]
struct Deletion<'a, 'c> {
    /// What is removed.
    path: &'a DavPath,
    /// Whether it is removed alone, or with everything below it.
    reach: Reach,
    /// Who makes the request, and when.
    caller: &'a Caller<'c>,
}

// Checks whether what was found at a path may be removed; else returns the error that says why not.
fn allowed<F: DavFileSystem, L: DavLockSystem>(
    fs: &mut F,
    ls: Option<&L>,
    alloc: Global,
    conditions: &Conditions,
    job: &Deletion<'_, '_>,
    found: &DavMetaData,
) -> DavResult<()>
    ensures { FollowsWithLocks (locks_in L.locks ls.entry) (λ u. u)
        (delete_allowed conditions.now job.now.path.now job.now.caller.now found.now)
        (F.state fs.old) result (F.state fs.new) }
{
    let verdict = conditions.if_match_get_tokens(alloc, DavMethod::Delete, Some(found), fs, ls)?;
    let tokens = match verdict {
        Ok(tokens) => tokens,
        Err(status) => return Err(DavError::Status(status)),
    };
    let caller = job.caller;
    member_allowed(
        ls,
        Reach::WithAllBelow,
        Members::Change,
        job.path,
        caller.principal,
        &tokens,
        DavError::Status(StatusCode::LOCKED),
    )
}

// Removes what is at a path; where something stays, the error is the status that was added last.
fn delete_items<F: DavFileSystem>(
    fs: &mut F,
    alloc: Global,
    errors: &mut MultiError,
    depth: Depth,
    meta: &DavMetaData,
    path: &DavPath,
    now: u64,
) -> DavResult<()>
    requires moment { now ≤ last_moment }
    requires path { path.now.bytes ≢ star }
    ensures { Removes (removal (goes_below depth) now path.now meta.now.dir)
        (F.state fs.old) errors.old errors.new result (F.state fs.new) }
{
    let reach = reach_at(depth);
    if removal(fs, alloc, reach, path, meta.dir, now, errors)? {
        return Ok(());
    }
    Err(errors.last_error())
}

// Removes what was found at a path, where it may be removed.
fn delete_found<F: DavFileSystem, L: DavLockSystem>(
    fs: &mut F,
    ls: &mut Option<L>,
    alloc: Global,
    conditions: &Conditions,
    job: &Deletion<'_, '_>,
    found: &DavMetaData,
) -> DavResult<Reply>
    requires moment { job.now.caller.now.moment ≤ last_moment }
    requires path { job.now.path.now.bytes ≢ star }
    ensures { Follows as_is (delete_found (reaches_below job.now.reach) conditions.now
        job.now.path.now job.now.caller.now found.now)
        (F.state fs.old) (option_map L.locks ls.old) result
        (F.state fs.new) (option_map L.locks ls.new) }
{
    allowed(fs, ls.as_ref(), alloc, conditions, job, found)?;
    let mut errors = MultiError::new(Vec::new(alloc));
    let path = job.path;
    let caller = job.caller;
    let moment = caller.moment;
    if !removal(fs, alloc, job.reach, path, found.dir, moment, &mut errors)? {
        return multi_error(alloc, path, errors.into_items());
    }
    drop_locks(ls, path);
    Ok(status_reply(alloc, StatusCode::NO_CONTENT))
}

// Removes what is at a path.
fn delete<F: DavFileSystem, L: DavLockSystem>(
    fs: &mut F,
    ls: &mut Option<L>,
    alloc: Global,
    conditions: &Conditions,
    depth: Option<Depth>,
    path: &DavPath,
    caller: &Caller<'_>,
) -> DavResult<Reply>
    requires moment { caller.now.moment ≤ last_moment }
    requires path { path.now.bytes ≢ star }
    ensures { Follows as_is (deleting conditions.now depth path.now caller.now)
        (F.state fs.old) (option_map L.locks ls.old) result
        (F.state fs.new) (option_map L.locks ls.new) }
{
    let reach = whole_depth(depth)?;
    let found = match fs.symlink_metadata(path) {
        Ok(found) => found,
        Err(e) => return Err(DavError::FsError(e)),
    };
    let path = closed(path, found.dir)?;
    let job = Deletion {
        path: &path,
        reach,
        caller,
    };
    delete_found(fs, ls, alloc, conditions, &job, &found)
}

impl<'a, 'b, 'c, F: DavFileSystem, L: DavLockSystem> DavInner<'a, 'b, 'c, F, L> {
    /// Removes what is at the path of a request, with everything below it, or at Depth 0 alone (RFC 4918, section 9.6): 204
    /// where nothing stays, and the locks at the path and below it end.
    ///
    /// The first of these that applies is answered: 400 for Depth 1; the store's status where it doesn't report what is at the
    /// path; 412 where a condition fails; 423 where a lock at the path or below it conflicts, or one on the folder above. Where the store refuses a call
    /// after that, the removal goes on with the rest. What stays is reported: 207 with each path and its status, or that
    /// status alone where the only path is the request's; a folder that stays because of what is in it isn't reported. The
    /// locks then stay too. The body isn't looked at.
    pub fn handle_delete(
        &mut self,
        alloc: Global,
        request: &DavRequest,
        _body: &Body,
    ) -> DavResult<Reply>
        requires moment { self.old.moment ≤ last_moment }
        requires path { request.now.path.bytes ≢ star }
        ensures lent { SameStateBorrowed self.old self.new }
        ensures serves { ServesFrom F.state L.locks (DeleteOf request.now)
            self.old result self.new }
    {
        let conditions = Conditions::decode(alloc, request, &request.path)?;
        let depth = depth_in(alloc, &request.headers)?;
        let caller = self.caller.at(self.moment);
        let path = &request.path;
        delete(self.fs, self.ls, alloc, &conditions, depth, path, &caller)
    }

    /// Removes what is at a path, of which this is the metadata: with everything below it, or at Depth 0 alone (RFC 4918,
    /// section 9.6.1). Where the store refuses a call, the removal goes on with the rest, and the path that stays is added to
    /// the collector with its status; a folder that stays because of what is in it isn't added. The locks stay.
    ///
    /// Where something stays, the error is the status that was added last; `Memory` where an allocation fails, and then the
    /// removal stops there: what the collector had stays, and behind it are the first paths that stay, as they were added so far.
    pub fn delete_items(
        &mut self,
        alloc: Global,
        errors: &mut MultiError,
        depth: Depth,
        meta: &DavMetaData,
        path: &DavPath,
    ) -> DavResult<()>
        requires moment { self.old.moment ≤ last_moment }
        requires path { path.now.bytes ≢ star }
        ensures lent { SameLocksBorrowed L.locks self.old self.new }
        ensures removes { Removes
            (removal (goes_below depth) self.old.moment path.now meta.now.dir)
            (F.state self.old.fs.now) errors.old errors.new result (F.state self.new.fs.now) }
    {
        delete_items(self.fs, alloc, errors, depth, meta, path, self.moment)
    }
}
