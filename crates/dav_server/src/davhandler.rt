//! The handler: from a request to its reply (RFC 9110; RFC 4918).
ghost use Rattle.std.specs.Prelude.{◌≡◌, ◌≢◌, ◌≤◌, ◌↔◌, ◌⊎◌, [], false, IsTrue, Ok, None, IfOk, OnOk, OnErr};
ghost use Rattle.std.specs.Bool.{Decides};
ghost use Rattle.dav_core.specs.Method.{Has};
ghost use Rattle.dav_core.specs.Path.{star};
ghost use Rattle.std.specs.Option.{option_map, option_copied};
ghost use Rattle.dav_core.specs.declared.errors.DavError.TheVariants.{Memory};
ghost use Rattle.dav_engine.specs.Asker.{caller_at};
ghost use Rattle.dav_engine.specs.Follows.{Serves};
ghost use Rattle.dav_engine.specs.Taking.{ServesHandingOn};
ghost use Rattle.dav_core.specs.World.{last_moment};
ghost use Rattle.dav_engine.specs.OnHandler.{MkcolOf, DeleteOf, PutOf, CopyMoveOf, OptionsOf, LockOf, UnlockOf};
ghost use Rattle.dav_engine.specs.ConditionView.{locks_in};
ghost use Rattle.dav_engine.specs.Lock.{is_absent};
ghost use Rattle.dav_server.specs.Get.{GetOf};
ghost use Rattle.dav_engine.specs.Reply.{error_reply};
ghost use Rattle.dav_server.specs.HrefLaws.{ReplyLeadsBack, ReplyIsWhole};
ghost use Rattle.dav_server.specs.Leaving.{SameContent, SafeLeaves, CreateOnlyLeaves, RefusedStatusLeaves, HasLockBody, AsksForLock};
ghost use Rattle.dav_server.specs.Machine.{caller, PlanOf, Means, MeansOf};
ghost use Rattle.dav_server.specs.Method.{IsServed};
ghost use Rattle.dav_server.specs.Server.{Answers, AnswersInParts, StopsIn};
ghost use Rattle.dav_server.specs.Headers.{headers_of};
ghost use Rattle.dav_core.specs.Target.{Reads};
ghost use Rattle.dav_server.specs.Setup.{IsPrefix};
ghost use Rattle.dav_server.specs.Target.{BeginsWithSlash};
ghost use Rattle.std.specs.Result.{IsErrOf};

#[cfg(test)]
mod copy_calls;
#[cfg(test)]
mod engine_calls;
#[cfg(test)]
mod engine_words;
#[cfg(test)]
mod property_calls;
#[cfg(test)]
mod recorded_calls;
#[cfg(test)]
mod shortage;
#[cfg(test)]
pub(crate) mod tests;

use crate::body::body_for;
use crate::exchange::{Exchange, GrantToken};
use crate::handle_gethead::handle_gethead;
use crate::head::{RequestView, headers_of, read_head};
use crate::method::method_of;
use crate::target::{begins_with_slash, path_of};
use dav_core::davpath::DavPath;
use dav_core::errors::{DavError, DavResult, NoMemory, ParseError};
use dav_core::fs::DavFileSystem;
use dav_core::ls::DavLockSystem;
use dav_core::method::{DavMethod, DavMethodSet};
use dav_engine::{Asker, Body, DavInner, DavRequest, Gathered, Reply, Takes, gathered};
use http::StatusCode;
use std::alloc::Global;
use std::marker::Model;
use thiserror::Error;

/// Why a handler isn't made.
#[derive(Clone, Copy, Debug, PartialEq, Eq, Error)]
pub enum HandlerError {
    /// The text isn't a prefix.
    #[error("BadPrefix")]
    BadPrefix,
    /// Memory ran out.
    #[error("Memory")]
    Memory,
}

impl From<NoMemory> for HandlerError {
    ghost use Rattle.std.specs.Prelude.{◌≡◌};
    ghost use Rattle.dav_server.specs.declared.davhandler.HandlerError.TheVariants.{Memory};

    ghost from_gives = { λ _ e. e ≡ Memory };

    fn from(_error: NoMemory) -> HandlerError {
        HandlerError::Memory
    }
}

/// A server of files: a store, and locks where it has a lock system.
#[derive(Drop)]
pub struct DavHandler<F: DavFileSystem, L: DavLockSystem> {
    prefix: String,
    allowed: DavMethodSet,
    pub(crate) fs: F,
    pub(crate) ls: Option<L>,
}

impl<F: DavFileSystem, L: DavLockSystem> Model for DavHandler<F, L> {
    ghost use Rattle.std.specs.Prelude.{string_bytes};
    ghost use Rattle.std.specs.Option.{option_map};
    ghost use Rattle.dav_core.specs.contracts.errors.FsError as fs_error;
    ghost use Rattle.dav_server.specs.Server.{HandlerView};
    ghost use Rattle.dav_server.specs.ServerCode.{coded_handler};

    ghost Value = { HandlerView F L };

    ghost coded = { coded_handler F.code L.code fs_error.the_row.coded };

    ghost view = { λ h. record {
      fs = h.fs;
      ls = h.ls;
      server = record {
        settings = record { prefix = string_bytes h.prefix; allowed = h.allowed };
        state = record { store = F.state h.fs; locks = option_map L.locks h.ls };
      };
    } };
}

// Whether the bytes are the same.
fn is_same(a: &[u8], b: &[u8]) -> bool
    ensures { IsTrue result ↔ (a.now ≡ b.now) }
{
    a == b
}

// Whether a text is the path that it names, byte for byte.
fn is_kept(alloc: Global, text: &str) -> Result<bool, NoMemory>
    ensures { IfOk result (λ kept. IsTrue kept ↔ Reads text.now text.now) }
{
    match DavPath::new(alloc, text) {
        Ok(path) => Ok(is_same(path.with_prefix().as_bytes(), text.as_bytes())),
        Err(ParseError::Memory) => Err(NoMemory),
        Err(ParseError::InvalidPath) => Ok(false),
        Err(ParseError::ForbiddenPath) => Ok(false),
        Err(ParseError::PrefixMismatch) => Ok(false),
    }
}

// Whether a text is a prefix.
fn is_prefix(alloc: Global, text: &str) -> Result<bool, NoMemory>
    ensures ok { IfOk result (λ it. IsTrue it ↔ IsPrefix text.now) }
    ensures memory { OnErr result (BeginsWithSlash text.now) }
{
    if text.is_empty() {
        return Ok(true);
    }
    if !begins_with_slash(text) {
        return Ok(false);
    }
    is_kept(alloc, text)
}

impl<F: DavFileSystem + Drop, L: DavLockSystem + Drop> DavHandler<F, L> {
    /// A handler of a store, and of locks where there is a lock system, for the paths below a prefix and the methods that
    /// are allowed. `BadPrefix` for a prefix that isn't empty and isn't a text that begins with a slash and that
    /// `DavPath::new` keeps byte for byte; `Memory` where memory runs out, never for a text that begins with another byte.
    /// A refusal drops the store and the locks.
    pub fn new(
        alloc: Global,
        prefix: &str,
        allowed: DavMethodSet,
        fs: F,
        ls: Option<L>,
    ) -> Result<DavHandler<F, L>, HandlerError>
        ensures prefix { OnOk result (IsPrefix prefix.now) }
        ensures settings { IfOk result (λ h. h.server.settings ≡ record {
          prefix = prefix.now;
          allowed = allowed;
        }) }
        ensures fs { IfOk result (λ h. h.fs ≡ fs) }
        ensures ls { IfOk result (λ h. h.ls ≡ ls) }
        ensures state { IfOk result (λ h. h.server.state ≡ record {
          store = F.state fs;
          locks = option_map L.locks ls;
        }) }
        ensures bad { IsErrOf result HandlerError.BadPrefix → ¬ IsPrefix prefix.now }
        ensures memory { IsErrOf result HandlerError.Memory
            → (prefix.now ≡ []) ⊎ BeginsWithSlash prefix.now }
    {
        if !is_prefix(alloc, prefix)? {
            return Err(HandlerError::BadPrefix);
        }
        let prefix = String::from_str(alloc, prefix)?;
        Ok(DavHandler {
            prefix,
            allowed,
            fs,
            ls,
        })
    }

    /// Goes on with another store, and with other locks where there is a lock system. Its own are dropped. Allocates nothing.
    pub fn restore(&mut self, fs: F, ls: Option<L>)
        ensures settings { self.new.server.settings ≡ self.old.server.settings }
        ensures fs { self.new.fs ≡ fs }
        ensures ls { self.new.ls ≡ ls }
        ensures state { self.new.server.state ≡ record {
          store = F.state fs;
          locks = option_map L.locks ls;
        } }
    {
        self.fs = fs;
        self.ls = ls;
    }
}

// The token for a lock that a request creates.
fn token_of(token: &Option<GrantToken>) -> Option<&str>
    ensures { option_copied result ≡ token.now }
{
    match token {
        Some(token) => Some(token.as_str()),
        None => None,
    }
}

// Who makes a request, and the token for a lock that it creates.
fn asker_of<'c>(exchange: &'c Exchange<'_>) -> Asker<'c>
    ensures { caller_at exchange.now.moment result ≡ caller exchange.now }
{
    Asker {
        principal: exchange.principal,
        token: token_of(&exchange.token),
    }
}

// A request that is made at this moment, while it is answered by a handler.
macro_rules! inner {
    ($handler:expr, $moment:expr, $asker:expr) => {
        DavInner {
            fs: &mut $handler.fs,
            ls: &mut $handler.ls,
            allow: $handler.allowed,
            moment: $moment,
            caller: $asker,
        }
    };
}

// Whether a method is PROPFIND.
fn is_propfind(method: DavMethod) -> bool
    ensures { Decides result (method ≡ DavMethod.PropFind) }
{
    matches!(method, DavMethod::PropFind)
}

// Hands a request to its method, which isn't PROPFIND. Only OPTIONS is for the server itself.
fn serve<F: DavFileSystem, L: DavLockSystem>(
    handler: &mut DavHandler<F, L>,
    alloc: Global,
    request: &DavRequest,
    body: &Body,
    exchange: &Exchange<'_>,
) -> DavResult<Reply>
    requires path { request.now.method ≢ DavMethod.Options → request.now.path.bytes ≢ star }
    requires served { IsServed request.now.method }
    requires other { request.now.method ≢ DavMethod.PropFind }
    ensures same { handler.new.server.settings ≡ handler.old.server.settings }
    ensures serves { Serves (PlanOf handler.old.server.settings.allowed request.now.headers
        request.now.path body.now (caller exchange.now) request.now.method)
        handler.old.server.state result handler.new.server.state }
    ensures ungranted { IsErrOf result Memory
        → request.now.method ≡ DavMethod.Lock → is_absent body.now ≡ false
        → SameContent handler.old.server.state handler.new.server.state }
{
    let asker = &asker_of(exchange);
    let now = exchange.moment.seconds;
    match request.method {
        DavMethod::Get => {
            handle_gethead(&mut handler.fs, handler.ls.as_ref(), alloc, request, now)
        }
        DavMethod::Head => {
            handle_gethead(&mut handler.fs, handler.ls.as_ref(), alloc, request, now)
        }
        DavMethod::Put => inner!(handler, now, asker).handle_put(alloc, request, body),
        DavMethod::Patch => inner!(handler, now, asker).handle_put(alloc, request, body),
        DavMethod::MkCol => inner!(handler, now, asker).handle_mkcol(alloc, request, body),
        DavMethod::Delete => inner!(handler, now, asker).handle_delete(alloc, request, body),
        DavMethod::Copy => inner!(handler, now, asker).handle_copymove(alloc, request, body),
        DavMethod::Move => inner!(handler, now, asker).handle_copymove(alloc, request, body),
        DavMethod::Options => inner!(handler, now, asker).handle_options(alloc, request, body),
        DavMethod::PropPatch => inner!(handler, now, asker).handle_proppatch(alloc, request, body),
        DavMethod::Lock => inner!(handler, now, asker).handle_lock(alloc, request, body),
        DavMethod::Unlock => inner!(handler, now, asker).handle_unlock(alloc, request, body),
        DavMethod::PropFind
        | DavMethod::Report
        | DavMethod::MkCalendar
        | DavMethod::MkAddressbook => unreachable!(),
    }
}

// Hands a request to its method; a multistatus of properties is handed on to `to`.
fn serve_to<F: DavFileSystem, L: DavLockSystem, T: Takes + Drop>(
    handler: &mut DavHandler<F, L>,
    alloc: Global,
    request: &DavRequest,
    body: &Body,
    exchange: &Exchange<'_>,
    to: T,
) -> DavResult<(Reply, Option<T>)>
    requires path { request.now.method ≢ DavMethod.Options → request.now.path.bytes ≢ star }
    requires served { IsServed request.now.method }
    ensures same { handler.new.server.settings ≡ handler.old.server.settings }
    ensures serves { ServesHandingOn T.opened T.taken to
        (PlanOf handler.old.server.settings.allowed request.now.headers
        request.now.path body.now (caller exchange.now) request.now.method)
        handler.old.server.state result handler.new.server.state }
    ensures ungranted { IsErrOf result Memory
        → request.now.method ≡ DavMethod.Lock → is_absent body.now ≡ false
        → SameContent handler.old.server.state handler.new.server.state }
{
    if is_propfind(request.method) {
        let asker = &asker_of(exchange);
        let now = exchange.moment.seconds;
        return inner!(handler, now, asker).handle_propfind_to(alloc, request, body, to);
    }
    match serve(handler, alloc, request, body, exchange) {
        Ok(reply) => Ok((reply, None)),
        Err(error) => Err(error),
    }
}

// The outcome of a request whose method is known; a multistatus of properties is handed on to `to`.
fn answer_method<F: DavFileSystem, L: DavLockSystem, T: Takes + Drop>(
    handler: &mut DavHandler<F, L>,
    alloc: Global,
    view: &RequestView<'_>,
    method: DavMethod,
    exchange: &Exchange<'_>,
    to: T,
) -> DavResult<(Reply, Option<T>)>
    requires { IsServed method }
    ensures same { handler.new.server.settings ≡ handler.old.server.settings }
    ensures serves { ServesHandingOn T.opened T.taken to
        (MeansOf handler.old.server.settings exchange.now view.now method)
        handler.old.server.state result handler.new.server.state }
    ensures ungranted { IsErrOf result Memory
        → method ≡ DavMethod.Lock → HasLockBody exchange.now
        → SameContent handler.old.server.state handler.new.server.state }
{
    if !handler.allowed.contains(method) {
        return Err(DavError::StatusClose(StatusCode::METHOD_NOT_ALLOWED));
    }
    let path = path_of(alloc, method, view.target(), &handler.prefix)?;
    let body = body_for(method, &exchange.body)?;
    let headers = headers_of(alloc, view)?;
    let request = DavRequest {
        method,
        path,
        headers,
    };
    serve_to(handler, alloc, &request, body.as_body(), exchange, to)
}

// The outcome of a request, from the bytes of its head on; a multistatus of properties is handed on to `to`.
fn answer<F: DavFileSystem, L: DavLockSystem, T: Takes + Drop>(
    handler: &mut DavHandler<F, L>,
    alloc: Global,
    exchange: &Exchange<'_>,
    to: T,
) -> DavResult<(Reply, Option<T>)>
    ensures same { handler.new.server.settings ≡ handler.old.server.settings }
    ensures serves { ServesHandingOn T.opened T.taken to
        (Means handler.old.server.settings exchange.now)
        handler.old.server.state result handler.new.server.state }
    ensures ungranted { IsErrOf result Memory
        → AsksForLock exchange.now
        → SameContent handler.old.server.state handler.new.server.state }
{
    let view = match read_head(exchange.head) {
        Ok(view) => view,
        Err(status) => return Err(DavError::Status(status)),
    };
    let method = method_of(view.method())?;
    answer_method(handler, alloc, &view, method, exchange, to)
}

impl<F: DavFileSystem, L: DavLockSystem> DavHandler<F, L> {
    /// The prefix below which it answers. Allocates nothing.
    pub fn prefix(&self) -> &str
        ensures { result.now ≡ self.now.server.settings.prefix }
    {
        self.prefix.as_str()
    }

    /// The store. Allocates nothing.
    pub fn fs(&self) -> &F
        ensures fs { result.now ≡ self.now.fs }
        ensures state { F.state result.now ≡ self.now.server.state.store }
    {
        &self.fs
    }

    /// The locks, where there is a lock system. Allocates nothing.
    pub fn locks(&self) -> Option<&L>
        ensures ls { option_copied result ≡ self.now.ls }
        ensures state { locks_in L.locks result ≡ self.now.server.state.locks }
    {
        self.ls.as_ref()
    }

    /// Answers a request: the reply, the store and the locks are those of one step of the machine, from the bytes of the
    /// head on. A request that only reads changes nothing, nor does one that is answered 412, 416 or 423 (but a PUT or PATCH
    /// whose 416 says that the store refused to seek; and of the list a LOCK with If-None-Match `*` whose 412 says that the
    /// store refused its empty file, where a lock has its token); and what is there is kept under If-None-Match `*`. The href
    /// of each response of a multistatus leads to a path that the request is about; a PROPFIND that is answered 207 tells of
    /// all that its depth asks for, each once, where the store refuses neither to list what is there nor to tell of it.
    ///
    /// `NoMemory` where memory ran out outside the store: then each call of the store that was made is whole, and the locks
    /// are as before, or as the request leaves them where the store refuses each later call. A request that only reads has changed
    /// nothing, nor has a LOCK with a body (where no lock has its token): no lock is granted whose token its client doesn't learn.
    /// The handler can still answer requests.
    pub fn handle(&mut self, alloc: Global, exchange: &Exchange<'_>) -> Result<Reply, NoMemory>
        ensures same { self.new.server.settings ≡ self.old.server.settings }
        ensures ok { IfOk result (λ reply. Answers self.old.server exchange.now reply
            self.new.server) }
        ensures reading { SafeLeaves exchange.now self.old.server.state self.new.server.state }
        ensures created { IfOk result (λ reply. CreateOnlyLeaves self.old.server.settings
            exchange.now reply self.old.server.state self.new.server.state) }
        ensures refused { IfOk result (λ reply. RefusedStatusLeaves self.old.server.settings
            exchange.now reply self.old.server.state self.new.server.state) }
        ensures hrefs { IfOk result (λ reply.
            ReplyLeadsBack self.old.server exchange.now reply) }
        ensures listing { IfOk result (λ reply.
            ReplyIsWhole self.old.server exchange.now reply self.new.server) }
        ensures err { OnErr result (StopsIn self.old.server exchange.now self.new.server) }
    {
        match answer(self, alloc, exchange, Gathered::new()) {
            Ok((told, tree)) => Ok(gathered(told, tree)),
            Err(error) => refuse(alloc, error),
        }
    }

    /// The same, but that the multistatus of a PROPFIND is handed on to `to` in parts: first without responses, and then response by
    /// response, as they are made (RFC 4918, section 13). The reply is told without a body then, and what took the responses is given
    /// back; `None` where nothing was handed on: the reply is whole.
    ///
    /// `NoMemory` as for `handle`, and where `to` has none: then some responses may have been taken.
    pub fn handle_to<T: Takes + Drop>(
        &mut self,
        alloc: Global,
        exchange: &Exchange<'_>,
        to: T,
    ) -> Result<(Reply, Option<T>), NoMemory>
        ensures same { self.new.server.settings ≡ self.old.server.settings }
        ensures ok { IfOk result (λ told. AnswersInParts T.opened T.taken to
            self.old.server exchange.now told.0 told.1 self.new.server) }
        ensures reading { SafeLeaves exchange.now self.old.server.state self.new.server.state }
        ensures err { OnErr result (StopsIn self.old.server exchange.now self.new.server) }
    {
        match answer(self, alloc, exchange, to) {
            Ok(told) => Ok(told),
            Err(error) => refuse_whole(alloc, error),
        }
    }
}

// The reply to a request that an error ended. Out of memory has none.
fn refuse(alloc: Global, error: DavError) -> Result<Reply, NoMemory>
    ensures { IfOk result (λ reply. (reply ≡ error_reply error) × (error ≢ Memory)) }
{
    match error {
        DavError::Memory => Err(NoMemory),
        other => Reply::of_error(alloc, other),
    }
}

// The same, of which nothing was handed on.
fn refuse_whole<T>(alloc: Global, error: DavError) -> Result<(Reply, Option<T>), NoMemory>
    ensures { IfOk result (λ told.
        (told.0 ≡ error_reply error) × (error ≢ Memory) × (told.1 ≡ None)) }
{
    Ok((refuse(alloc, error)?, None))
}
