//! UNLOCK (RFC 4918, section 9.11).
ghost use Rattle.std.specs.Prelude.{◌≡◌, IfOk, OnErr};
ghost use Rattle.std.specs.Option.{option_map, option_copied};
ghost use Rattle.dav_engine.specs.OnHandler.{SameLocksBorrowed, SameStateBorrowed, ServesFrom, UnlockOf};
ghost use Rattle.dav_engine.specs.Folder.{location_found};
ghost use Rattle.dav_engine.specs.Follows.{as_is, Follows};
ghost use Rattle.dav_engine.specs.Unlock as spec;

use crate::davinner::DavInner;
use crate::folder::set_location_found;
use crate::lock_token::{lock_token, token_in};
use crate::reply::{Reply, ReplyBody};
use crate::request::{Body, DavRequest};
use dav_core::davpath::DavPath;
use dav_core::errors::{DavError, DavResult, NoMemory};
use dav_core::fs::{DavFileSystem, DavMetaData};
use dav_core::ls::DavLockSystem;
use http::StatusCode;
use http_header::HeaderMap;
use std::alloc::Global;

// The reply where a lock was ended.
fn unlocked(alloc: Global, path: &DavPath, found: Option<&DavMetaData>) -> Result<Reply, NoMemory>
    ensures { IfOk result (λ r. r
        ≡ spec.unlocked_reply (location_found (option_copied found.entry) path.now)) }
{
    let mut headers = HeaderMap::new(alloc);
    set_location_found(alloc, &mut headers, path, found)?;
    Ok(Reply {
        status: StatusCode::NO_CONTENT,
        headers,
        body: ReplyBody::Nothing,
    })
}

// Ends the lock that a token and a path mean.
fn end_lock<F: DavFileSystem, L: DavLockSystem>(
    fs: &mut F,
    ls: &mut Option<L>,
    alloc: Global,
    path: &DavPath,
    token: &str,
) -> DavResult<Reply>
    ensures follows { Follows as_is (spec.end_lock path.now token.now)
        (F.state fs.old) (option_map L.locks ls.old) result
        (F.state fs.new) (option_map L.locks ls.new) }
    ensures kept { OnErr result (option_map L.locks ls.new ≡ option_map L.locks ls.old) }
{
    let found = fs.metadata(path).ok();
    let Some(ls) = ls else {
        return Err(DavError::Status(StatusCode::METHOD_NOT_ALLOWED));
    };
    let reply = unlocked(alloc, path, found.as_ref())?;
    match ls.unlock(path, token) {
        Ok(()) => Ok(reply),
        Err(()) => Err(DavError::Status(StatusCode::CONFLICT)),
    }
}

impl<'a, 'b, 'c, F: DavFileSystem, L: DavLockSystem> DavInner<'a, 'b, 'c, F, L> {
    /// Ends the lock whose token is in the header Lock-Token, at the path of a request or above it (RFC 4918, section 9.11):
    /// of several with this token the one with the shortest path, and of these the one that was granted first. 204, with
    /// `content-location` where the path is that of a folder and lacks its slash.
    ///
    /// The first of these that applies is answered: 405 without a lock system; 400 without a Lock-Token; 409 where there is no
    /// such lock. Who knows the token of a lock may end it: no condition and no other lock is checked, and whose the lock is
    /// isn't asked. The body isn't looked at. `Memory` where memory runs out. Where it fails, all locks stay.
    pub fn handle_unlock(
        &mut self,
        alloc: Global,
        request: &DavRequest,
        _body: &Body,
    ) -> DavResult<Reply>
        ensures lent { SameStateBorrowed self.old self.new }
        ensures kept { OnErr result (SameLocksBorrowed L.locks self.old self.new) }
        ensures serves { ServesFrom F.state L.locks (UnlockOf request.now)
            self.old result self.new }
    {
        let said = lock_token(alloc, &request.headers)?;
        let token = token_in(said.as_ref());
        if self.ls.is_none() {
            return Err(DavError::Status(StatusCode::METHOD_NOT_ALLOWED));
        }
        let Some(token) = token else {
            return Err(DavError::Status(StatusCode::BAD_REQUEST));
        };
        end_lock(self.fs, self.ls, alloc, &request.path, token)
    }
}
