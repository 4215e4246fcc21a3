//! LOCK (RFC 4918, sections 6, 7 and 9.10).
ghost use Rattle.std.specs.Prelude.{◌≡◌, ◌≢◌, ◌≤◌, ◌+◌, ◌⊎◌, [], codes, false, IfOk, IsOk, IsOkAnd, IfErr, IfSome, IsErrOf, Ok, Err, OnErr, option_map, string_bytes, map};
ghost use Rattle.std.specs.Option.{is_some, option_copied};
ghost use Rattle.std.specs.Result.{result_err};
ghost use Rattle.http_header.specs.FieldValue.{plain_value};
ghost use Rattle.http_header.specs.HeaderMap.{insert};
ghost use Rattle.dav_core.specs.declared.errors.DavError.TheVariants as DavError;
ghost use Rattle.dav_core.specs.Locks.{ends_at};
ghost use Rattle.dav_core.specs.Metadata.{opening_of};
ghost use Rattle.dav_core.specs.Numbers.{max_u64};
ghost use Rattle.dav_core.specs.Path.{names};
ghost use Rattle.dav_core.specs.World.{last_moment};
ghost use Rattle.dav_engine.specs.OnHandler.{SameLocksBorrowed, SameStateBorrowed, KeepsWorld, FollowsOn, ServesFrom, LockOf};
ghost use Rattle.dav_engine.specs.Caller.{requester};
ghost use Rattle.dav_engine.specs.Conditions.{submitted};
ghost use Rattle.dav_engine.specs.ConditionView.{locks_in};
ghost use Rattle.dav_engine.specs.Folder.{location_found, with_location};
ghost use Rattle.dav_engine.specs.Follows.{as_is, FollowsOnLocks, viewed};
ghost use Rattle.dav_engine.specs.Lock as spec;
ghost use Rattle.dav_engine.specs.Lock.{is_absent};
ghost use Rattle.dav_engine.specs.LockView.{GrantsNew, LastsFrom};
ghost use Rattle.dav_engine.specs.MembersView.{members_change};
ghost use Rattle.dav_engine.specs.Method.{require_parent};
ghost use Rattle.dav_engine.specs.Multistatus.{xml_type};
ghost use Rattle.dav_engine.specs.Plan.{Ran};
ghost use Rattle.dav_engine.specs.Reach.{reaches_below};
ghost use Rattle.dav_core.specs.Asking.{Asks};

mod headers;
mod info;

use crate::conditions::Conditions;
use crate::davinner::{Caller, DavInner};
use crate::depth::{Reach, whole_depth};
use crate::folder::{closed, is_folder_found, tree_headers};
use crate::locks::{Members, is_open, parent_allowed};
use crate::methods::lock::headers::LockHeaders;
use crate::methods::lock::info::{LockInfo, lock_info};
use crate::opening::missing_status;
use crate::properties::locks::lock_reply;
use crate::reply::tree::copy_of;
use crate::reply::{Reply, set_header, tree_reply};
use crate::request::{Body, DavRequest, is_absent};
use dav_core::davpath::DavPath;
use dav_core::errors::{DavError, DavResult, FsError, NoMemory};
use dav_core::fs::{DavFileSystem, DavMetaData, OpenOptions};
use dav_core::ls::{DavLock, DavLockSystem, LockRefusal, RefreshRefusal};
use dav_core::method::DavMethod;
use dav_headers::names;
use http::StatusCode;
use http_header::{HeaderMap, HeaderValue};
use std::alloc::Global;

// The only token of several.
fn one_token(tokens: &[String]) -> DavResult<&String>
    ensures { viewed (λ t. string_bytes t.now) result
        ≡ spec.one_token (map string_bytes tokens.now) }
{
    match tokens {
        [token] => Ok(token),
        _ => Err(DavError::Status(StatusCode::BAD_REQUEST)),
    }
}

// The reply to a LOCK that refreshed a lock.
fn refreshed_reply(
    alloc: Global,
    path: &DavPath,
    found: Option<&DavMetaData>,
    lock: &DavLock,
) -> Result<Reply, NoMemory>
    ensures { IfOk result (λ r. r
        ≡ spec.refreshed_reply (location_found (option_copied found.entry) path.now) lock.now) }
{
    let headers = tree_headers(alloc, Ok(HeaderMap::new(alloc)), path, found);
    tree_reply(StatusCode::OK, headers, lock_reply(alloc, lock))
}

// The reply to a LOCK that refreshed a lock; else why none was refreshed.
fn refreshed(
    alloc: Global,
    path: &DavPath,
    found: Option<&DavMetaData>,
    lock: DavResult<DavLock>,
) -> DavResult<Reply>
    ensures ok { IfOk result (λ r. IsOkAnd lock (λ l. r
        ≡ spec.refreshed_reply (location_found (option_copied found.entry) path.now) l)) }
    ensures err { IfErr result (λ e. (lock ≡ Err e) ⊎ (IsOk lock × (e ≡ DavError.Memory))) }
{
    let lock = lock?;
    Ok(refreshed_reply(alloc, path, found, &lock)?)
}

// Gives the lock that a token and a path mean a new timeout.
fn refresh<L: DavLockSystem>(
    ls: &mut Option<L>,
    alloc: Global,
    path: &DavPath,
    token: &str,
    timeout: Option<u64>,
    now: u64,
) -> DavResult<DavLock>
    requires { IfSome timeout (λ seconds. now + seconds ≤ max_u64) }
    ensures sets { FollowsOnLocks as_is (spec.refresh token.now (names path.now) timeout now)
        (option_map L.locks ls.old) result (option_map L.locks ls.new) }
    ensures same { OnErr result (option_map L.locks ls.new ≡ option_map L.locks ls.old) }
{
    let Some(ls) = ls else {
        return Err(DavError::Status(StatusCode::METHOD_NOT_ALLOWED));
    };
    match ls.refresh(alloc, path, token, timeout, now) {
        Ok(lock) => Ok(lock),
        Err(RefreshRefusal::NotThere) => Err(DavError::Status(StatusCode::PRECONDITION_FAILED)),
        Err(RefreshRefusal::Memory) => Err(DavError::Memory),
    }
}

// When a lock ends that has this timeout.
fn ends_at(now: u64, timeout: Option<u64>) -> Option<u64>
    requires { IfSome timeout (λ seconds. now + seconds ≤ max_u64) }
    ensures { result ≡ ends_at now timeout }
{
    match timeout {
        Some(seconds) => Some(now + seconds),
        None => None,
    }
}

// The lock that a body asks for.
fn lock_of(
    alloc: Global,
    headers: &LockHeaders,
    path: &DavPath,
    caller: &Caller<'_>,
    reach: Reach,
    info: LockInfo,
    token: &str,
) -> Result<DavLock, NoMemory>
    requires { caller.now.moment ≤ last_moment }
    ensures lock { IfOk result (λ l. l
        ≡ spec.lock_of headers.now path.now caller.now (reaches_below reach) info token.now) }
    ensures lasts { IfOk result (LastsFrom caller.now.moment) }
    ensures path { IfOk result (λ l. l.path ≡ path.now) }
{
    let timeout = headers.granted_for(info.scope);
    Ok(DavLock {
        token: String::from_str(alloc, token)?,
        path: path.clone()?,
        principal: copy_of(alloc, caller.principal)?,
        timeout_at: ends_at(caller.moment, timeout),
        timeout,
        shared: info.scope.is_shared(),
        deep: reach.reaches_below(),
        owner: info.owner,
    })
}

// Checks the locks on the folder above a path, where its members change.
fn folder_allowed<L: DavLockSystem>(
    ls: Option<&L>,
    alloc: Global,
    conditions: &Conditions,
    path: &DavPath,
    caller: &Caller<'_>,
    members: Members,
) -> DavResult<()>
    ensures { FollowsOnLocks (λ u. u) (require_parent (members_change members)
        (requester caller.now (submitted conditions.now.lists)) (names path.now)
        (DavError.Status 423)) (locks_in L.locks ls.entry) result (locks_in L.locks ls.entry) }
{
    let tokens = conditions.tokens(alloc)?;
    let locked = DavError::Status(StatusCode::LOCKED);
    parent_allowed(ls, members, path, caller.principal, &tokens, locked)
}

// Why a lock isn't granted, if it isn't.
fn refusal(granted: Result<DavLock, LockRefusal>) -> Option<LockRefusal>
    ensures { result ≡ result_err granted }
{
    granted.err()
}

// Grants a lock.
fn grant<L: DavLockSystem>(
    ls: &mut Option<L>,
    alloc: Global,
    lock: &DavLock,
    now: u64,
) -> DavResult<()>
    requires { LastsFrom now lock.now }
    ensures sets { FollowsOnLocks (λ u. u) (spec.grant lock.now)
        (option_map L.locks ls.old) result (option_map L.locks ls.new) }
    ensures same { OnErr result (option_map L.locks ls.new ≡ option_map L.locks ls.old) }
{
    let Some(ls) = ls else {
        return Err(DavError::Status(StatusCode::METHOD_NOT_ALLOWED));
    };
    let granted = ls.lock(
        alloc,
        &lock.path,
        lock.principal.as_deref(),
        lock.owner.as_ref(),
        lock.timeout,
        lock.shared,
        lock.deep,
        &lock.token,
        now,
    );
    match refusal(granted) {
        None => Ok(()),
        Some(LockRefusal::Conflict) => Err(DavError::Status(StatusCode::LOCKED)),
        Some(LockRefusal::Memory) => Err(DavError::Memory),
    }
}

// Ends the lock that a token and a path mean, if one is meant.
fn take_back<L: DavLockSystem>(ls: &mut Option<L>, path: &DavPath, token: &str)
    ensures { option_map L.locks ls.new
        ≡ option_map (spec.taken_back token.now (names path.now)) (option_map L.locks ls.old) }
{
    if let Some(ls) = ls {
        let _ = ls.unlock(path, token);
    }
}

// How an empty file is opened.
fn empty_opening(conditions: &Conditions) -> OpenOptions
    ensures { opening_of result ≡ spec.empty_opening conditions.now }
{
    OpenOptions {
        write: true,
        create: !conditions.wants_something(),
        create_new: conditions.wants_nothing(),
        ..OpenOptions::default()
    }
}

// The error where the store refuses to open an empty file.
fn empty_error(options: &OpenOptions, error: FsError) -> DavError
    ensures is { result ≡ spec.empty_error (opening_of options.now) error }
    ensures other { result ≢ DavError.Memory }
{
    match error {
        FsError::NotFound => DavError::Status(missing_status(options)),
        FsError::Exists => DavError::Status(missing_status(options)),
        other => DavError::FsError(other),
    }
}

// Opens an empty file at a path that was locked with a token; where that is refused, the lock ends.
fn open_empty<F: DavFileSystem, L: DavLockSystem>(
    fs: &mut F,
    ls: &mut Option<L>,
    alloc: Global,
    path: &DavPath,
    token: &str,
    options: &OpenOptions,
    now: u64,
) -> DavResult<()>
    requires { now ≤ last_moment }
    ensures ran { Ran Asks
        (spec.open_empty (opening_of options.now) token.now (names path.now) now)
        (F.state fs.old) (option_map L.locks ls.old) result
        (F.state fs.new) (option_map L.locks ls.new) }
    ensures other { IfErr result (λ e. e ≢ DavError.Memory) }
{
    match fs.open(alloc, path, options, now) {
        Ok(_) => Ok(()),
        Err(e) => {
            take_back(ls, path, token);
            Err(empty_error(options, e))
        }
    }
}

// Grants a lock, and opens an empty file at its path where nothing was found there; where that is refused, the lock ends.
fn grant_new<F: DavFileSystem, L: DavLockSystem>(
    fs: &mut F,
    ls: &mut Option<L>,
    alloc: Global,
    conditions: &Conditions,
    found: bool,
    lock: &DavLock,
    now: u64,
) -> DavResult<()>
    requires lasts { LastsFrom now lock.now }
    requires moment { now ≤ last_moment }
    ensures grants { GrantsNew lock.now (spec.empty_opening conditions.now) now
        found (F.state fs.old) (option_map L.locks ls.old) result
        (F.state fs.new) (option_map L.locks ls.new) }
    ensures memory { IsErrOf result DavError.Memory → (F.state fs.new ≡ F.state fs.old)
        × (option_map L.locks ls.new ≡ option_map L.locks ls.old) }
{
    grant(ls, alloc, lock, now)?;
    if found {
        return Ok(());
    }
    let options = empty_opening(conditions);
    open_empty(fs, ls, alloc, &lock.path, &lock.token, &options, now)
}

// The reply to what was done; else why it wasn't.
fn given(reply: Reply, done: DavResult<()>) -> DavResult<Reply>
    ensures ok { IfOk result (λ r. (done ≡ Ok tt) × (r ≡ reply)) }
    ensures err { IfErr result (λ e. done ≡ Err e) }
{
    match done {
        Ok(()) => Ok(reply),
        Err(e) => Err(e),
    }
}

// The token of a lock in angle brackets, as a header has it.
fn token_value(alloc: Global, token: &str) -> Result<HeaderValue, NoMemory>
    ensures { IfOk result (λ v. v ≡ plain_value (spec.lock_token_header token.now).1) }
{
    let text = format!(in alloc; "<{token}>")?;
    HeaderValue::from_string(text).map_err(|_| NoMemory)
}

// The headers of the reply to a LOCK that was granted.
fn granted_headers(
    alloc: Global,
    path: &DavPath,
    found: Option<&DavMetaData>,
    lock: &DavLock,
) -> Result<HeaderMap, NoMemory>
    ensures { IfOk result (λ entries. entries ≡ insert
        (insert (with_location [] (option_copied found.entry) path.now)
        (codes "content-type") (plain_value xml_type.1))
        (codes "lock-token") (plain_value (spec.lock_token_header lock.now.token).1)) }
{
    let mut headers = tree_headers(alloc, Ok(HeaderMap::new(alloc)), path, found)?;
    let token = token_value(alloc, &lock.token)?;
    set_header(&mut headers, names::LOCK_TOKEN(), token)?;
    Ok(headers)
}

// The reply to a LOCK that was granted.
fn granted_reply(
    alloc: Global,
    path: &DavPath,
    found: Option<&DavMetaData>,
    lock: &DavLock,
) -> Result<Reply, NoMemory>
    ensures { IfOk result (λ r. r ≡ spec.granted_reply (is_some (option_copied found.entry))
        (location_found (option_copied found.entry) path.now) lock.now) }
{
    let status = if found.is_some() {
        StatusCode::OK
    } else {
        StatusCode::CREATED
    };
    let headers = granted_headers(alloc, path, found, lock);
    tree_reply(status, headers, lock_reply(alloc, lock))
}

impl<'a, 'b, 'c, F: DavFileSystem, L: DavLockSystem> DavInner<'a, 'b, 'c, F, L> {
    // The token of the lock that is to be refreshed.
    fn token_to_refresh(
        &mut self,
        alloc: Global,
        headers: &LockHeaders,
        path: &DavPath,
    ) -> DavResult<String>
        ensures lent { SameLocksBorrowed L.locks self.old self.new }
        ensures plan { FollowsOn F.state L.locks string_bytes
            (λ who. spec.token_to_refresh headers.now (names path.now) who)
            self.old result self.new }
    {
        let asker = self.caller;
        let fs = &mut *self.fs;
        let ls = self.ls.as_ref();
        let (_, tokens) = headers.conditions.dav_if_match(alloc, fs, ls)?;
        let token = one_token(&tokens)?;
        if !is_open(ls, path, asker.principal, Reach::Alone, &tokens) {
            return Err(DavError::Status(StatusCode::PRECONDITION_FAILED));
        }
        Ok(token.clone()?)
    }

    // Refreshes a lock.
    fn lock_again(
        &mut self,
        alloc: Global,
        request: &DavRequest,
        headers: &LockHeaders,
        path: &DavPath,
        found: Option<&DavMetaData>,
    ) -> DavResult<Reply>
        requires { self.old.moment ≤ last_moment }
        ensures lent { SameStateBorrowed self.old self.new }
        ensures plan { FollowsOn F.state L.locks as_is (λ who. spec.lock_again headers.now path.now
            (location_found (option_copied found.entry) request.now.path) who)
            self.old result self.new }
        ensures world { KeepsWorld F.state self.old self.new }
    {
        let token = self.token_to_refresh(alloc, headers, path)?;
        let timeout = headers.refreshed_for();
        let lock = refresh(self.ls, alloc, path, &token, timeout, self.moment);
        refreshed(alloc, &request.path, found, lock)
    }

    // The lock that a body asks for, where the conditions hold.
    fn asked_lock(
        &mut self,
        alloc: Global,
        headers: &LockHeaders,
        path: &DavPath,
        body: &Body,
        found: Option<&DavMetaData>,
    ) -> DavResult<DavLock>
        requires moment { self.old.moment ≤ last_moment }
        ensures lent { SameLocksBorrowed L.locks self.old self.new }
        ensures plan { FollowsOn F.state L.locks as_is (λ who. spec.asked_lock headers.now
            path.now body.now who (option_copied found.entry)) self.old result self.new }
        ensures lasts { IfOk result (LastsFrom self.old.moment) }
        ensures path { IfOk result (λ l. l.path ≡ path.now) }
    {
        let reach = whole_depth(headers.depth)?;
        let caller = self.caller.at(self.moment);
        let fs = &mut *self.fs;
        let ls = self.ls.as_ref();
        let verdict = headers
            .conditions
            .if_match(alloc, DavMethod::Lock, found, fs, ls)?;
        if let Some(status) = verdict {
            return Err(DavError::Status(status));
        }
        let Some(info) = lock_info(alloc, body)? else {
            return Err(DavError::XmlParseError);
        };
        let Some(token) = caller.token else {
            return Err(DavError::Status(StatusCode::INTERNAL_SERVER_ERROR));
        };
        folder_allowed(
            ls,
            alloc,
            &headers.conditions,
            path,
            &caller,
            Members::when_made(found),
        )?;
        Ok(lock_of(alloc, headers, path, &caller, reach, info, token)?)
    }

    // Grants a new lock. All memory for the reply is had before, so that no lock is granted whose token the client doesn't learn.
    fn lock_new(
        &mut self,
        alloc: Global,
        request: &DavRequest,
        headers: &LockHeaders,
        body: &Body,
        path: &DavPath,
        found: Option<&DavMetaData>,
    ) -> DavResult<Reply>
        requires moment { self.old.moment ≤ last_moment }
        ensures lent { SameStateBorrowed self.old self.new }
        ensures plan { FollowsOn F.state L.locks as_is (λ who. spec.lock_new headers.now path.now
            (location_found (option_copied found.entry) request.now.path) body.now who
            (option_copied found.entry)) self.old result self.new }
        ensures memory { IsErrOf result DavError.Memory
            → SameLocksBorrowed L.locks self.old self.new }
        ensures world { IsErrOf result DavError.Memory → KeepsWorld F.state self.old self.new }
    {
        let lock = self.asked_lock(alloc, headers, path, body, found)?;
        let reply = granted_reply(alloc, &request.path, found, &lock)?;
        let granted = grant_new(
            self.fs,
            self.ls,
            alloc,
            &headers.conditions,
            found.is_some(),
            &lock,
            self.moment,
        );
        given(reply, granted)
    }

    // Locks what was found at the path of a request, or refreshes a lock there.
    fn lock_found(
        &mut self,
        alloc: Global,
        request: &DavRequest,
        headers: &LockHeaders,
        body: &Body,
        found: Option<&DavMetaData>,
    ) -> DavResult<Reply>
        requires moment { self.old.moment ≤ last_moment }
        ensures lent { SameStateBorrowed self.old self.new }
        ensures plan { FollowsOn F.state L.locks as_is (λ who. spec.lock_found headers.now
            request.now.path body.now who (option_copied found.entry))
            self.old result self.new }
        ensures memory { IsErrOf result DavError.Memory
            → is_absent body.now ≡ false → SameLocksBorrowed L.locks self.old self.new }
        ensures world { IsErrOf result DavError.Memory → KeepsWorld F.state self.old self.new }
    {
        let path = closed(&request.path, is_folder_found(found))?;
        if is_absent(body) {
            return self.lock_again(alloc, request, headers, &path, found);
        }
        self.lock_new(alloc, request, headers, body, &path, found)
    }

    /// Locks the path of a request, or, without a body, refreshes a lock there (RFC 4918, section 9.10); a body of no bytes is
    /// none. The reply holds the lock, and `content-location` where the path is that of a folder and lacks its slash.
    ///
    /// A new lock is of infinite depth, unless Depth is 0; it lasts as long as the first time in Timeout says, an exclusive lock
    /// for ten minutes at most and a shared one for a day. Where nothing is found at the path, an empty file is made there
    /// (section 7.3): it is created only where If-Match isn't `*`, and with If-None-Match `*` it has to be new; where the store
    /// refuses it, the lock is taken back. 201 where nothing was found, else 200, with the token in Lock-Token.
    ///
    /// The first of these that applies is answered: 405 without a lock system; 400 for Depth 1; 412 where a condition fails; 400
    /// for a body that asks for no lock; 500 without a token for it; 423 where another lock conflicts, or where nothing is
    /// found one on the folder above; 412 or 409 where the file
    /// isn't there or is, or no folder is above it. Each other refusal of the store is its own status.
    ///
    /// To refresh a lock, If has to submit its token and no other (400), whether or not If holds; 412 where the path is locked
    /// against the client that has only this token, and where no lock at the path or above it has it. The lock then lasts ten
    /// minutes at most, or without an end where Timeout doesn't say otherwise.
    ///
    /// `Memory` where memory runs out: the store's files are then as they were, and a new lock isn't granted.
    pub fn handle_lock(
        &mut self,
        alloc: Global,
        request: &DavRequest,
        body: &Body,
    ) -> DavResult<Reply>
        requires moment { self.old.moment ≤ last_moment }
        ensures lent { SameStateBorrowed self.old self.new }
        ensures serves { ServesFrom F.state L.locks (LockOf request.now body.now)
            self.old result self.new }
        ensures memory { IsErrOf result DavError.Memory
            → is_absent body.now ≡ false → SameLocksBorrowed L.locks self.old self.new }
        ensures world { IsErrOf result DavError.Memory → KeepsWorld F.state self.old self.new }
    {
        let headers = LockHeaders::decode(alloc, request)?;
        if self.ls.is_none() {
            return Err(DavError::Status(StatusCode::METHOD_NOT_ALLOWED));
        }
        let found = self.fs.metadata(&request.path).ok();
        self.lock_found(alloc, request, &headers, body, found.as_ref())
    }
}
