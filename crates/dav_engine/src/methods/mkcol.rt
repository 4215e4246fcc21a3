//! MKCOL (RFC 4918, section 9.3).
ghost use Rattle.std.specs.Prelude.{◌≡◌, ◌≤◌, IfOk};
ghost use Rattle.dav_core.specs.World.{last_moment};
ghost use Rattle.dav_engine.specs.OnHandler.{SameLocksBorrowed, ServesFrom, MkcolOf};
ghost use Rattle.dav_engine.specs.ConditionView.{locks_in};
ghost use Rattle.dav_engine.specs.Follows.{as_is, FollowsWithLocks};
ghost use Rattle.dav_engine.specs.Mkcol as spec;

use crate::conditions::Conditions;
use crate::davinner::{Caller, DavInner};
use crate::depth::Reach;
use crate::locks::{Members, member_allowed};
use crate::reply::{Reply, ReplyBody, set_location};
use crate::request::{Body, DavRequest};
use dav_core::davpath::DavPath;
use dav_core::errors::{DavError, DavResult, FsError, NoMemory};
use dav_core::fs::DavFileSystem;
use dav_core::ls::DavLockSystem;
use dav_core::method::DavMethod;
use http::StatusCode;
use http_header::HeaderMap;
use std::alloc::Global;

// The error where the store refuses to make a folder.
fn create_error(error: FsError) -> DavError
    ensures { result ≡ spec.create_error error }
{
    match error {
        FsError::Exists => DavError::Status(StatusCode::METHOD_NOT_ALLOWED),
        FsError::NotFound => DavError::Status(StatusCode::CONFLICT),
        other => DavError::FsError(other),
    }
}

// The reply to a folder that was made.
fn made(alloc: Global, path: &DavPath) -> Result<Reply, NoMemory>
    ensures { IfOk result (λ r. r ≡ spec.made path.now) }
{
    let mut headers = HeaderMap::new(alloc);
    if path.is_collection() {
        set_location(alloc, &mut headers, path)?;
    }
    Ok(Reply {
        status: StatusCode::CREATED,
        headers,
        body: ReplyBody::Nothing,
    })
}

// Checks whether a folder may be made at a path; else returns the error that says why not.
fn allowed<F: DavFileSystem, L: DavLockSystem>(
    fs: &mut F,
    ls: Option<&L>,
    alloc: Global,
    conditions: &Conditions,
    path: &DavPath,
    caller: &Caller<'_>,
) -> DavResult<()>
    ensures { FollowsWithLocks (locks_in L.locks ls.entry) (λ u. u)
        (spec.mkcol_allowed conditions.now path.now caller.now)
        (F.state fs.old) result (F.state fs.new) }
{
    let found = fs.metadata(path).ok();
    let verdict = conditions.if_match_get_tokens(alloc, DavMethod::MkCol, found.as_ref(), fs, ls)?;
    let tokens = match verdict {
        Ok(tokens) => tokens,
        Err(status) => return Err(DavError::Status(status)),
    };
    member_allowed(
        ls,
        Reach::Alone,
        Members::when_made(found.as_ref()),
        path,
        caller.principal,
        &tokens,
        DavError::Status(StatusCode::LOCKED),
    )
}

// Makes a folder at a path, where it may be made.
fn mkcol<F: DavFileSystem, L: DavLockSystem>(
    fs: &mut F,
    ls: Option<&L>,
    alloc: Global,
    conditions: &Conditions,
    path: &DavPath,
    caller: &Caller<'_>,
) -> DavResult<Reply>
    requires moment { caller.now.moment ≤ last_moment }
    ensures { FollowsWithLocks (locks_in L.locks ls.entry) as_is
        (spec.mkcol conditions.now path.now caller.now)
        (F.state fs.old) result (F.state fs.new) }
{
    allowed(fs, ls, alloc, conditions, path, caller)?;
    match fs.create_dir(alloc, path, caller.moment) {
        Ok(()) => {}
        Err(e) => return Err(create_error(e)),
    }
    Ok(made(alloc, path)?)
}

impl<'a, 'b, 'c, F: DavFileSystem, L: DavLockSystem> DavInner<'a, 'b, 'c, F, L> {
    /// Makes a folder at the path of a request (RFC 4918, section 9.3): 201, with `content-location` where the target ends
    /// in a slash.
    ///
    /// The first of these that applies is answered: 412 where a condition fails; 423 where a lock conflicts, or where nothing is
    /// found one on the folder above; 405 where something is there; 409 where no folder is above it; each other refusal of the store is its own status. The body
    /// isn't looked at.
    pub fn handle_mkcol(
        &mut self,
        alloc: Global,
        request: &DavRequest,
        _body: &Body,
    ) -> DavResult<Reply>
        requires moment { self.old.moment ≤ last_moment }
        ensures lent { SameLocksBorrowed L.locks self.old self.new }
        ensures serves { ServesFrom F.state L.locks (MkcolOf request.now)
            self.old result self.new }
    {
        let conditions = Conditions::decode(alloc, request, &request.path)?;
        let caller = self.caller.at(self.moment);
        let ls = self.ls.as_ref();
        mkcol(self.fs, ls, alloc, &conditions, &request.path, &caller)
    }
}
