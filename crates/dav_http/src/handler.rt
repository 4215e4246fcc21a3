//! A server in memory. It is asked for what may be sent alone, so what it tells each client can read.
ghost use Rattle.std.specs.Prelude.{◌≡◌, ◌≤◌, ◌↔◌, IfOk};
ghost use Rattle.std.specs.Option.{option_copied};
ghost use Rattle.std.specs.Result.{IsErrOf};
ghost use Rattle.dav_core.specs.World.{last_moment};
ghost use Rattle.dav_server.specs.Head.{Request, IsHead};
ghost use Rattle.dav_http.specs.Sent.{IsSendableTextIfAny};
ghost use Rattle.dav_http.specs.Steps.{IsBodyOf, IsExchangeOf, IsTokenOf, with_times};

mod crowded;
mod holders;
mod refused;
mod saved;

use crate::head::{Head, takes_tree};
use crate::owner::with_prefixed_owners;
use crate::sendable::is_sendable_if_any;
use bytes::Bytes;
use dav_core::davpath::DavPath;
use dav_core::element::Element;
use dav_core::errors::NoMemory;
use dav_core::fs::DavFileSystem;
use dav_core::ls::DavLock;
use dav_core::method::DavMethodSet;
use dav_engine::{Body, Caller, Gathered, Reply, Takes, gathered};
use dav_presented::times::{find_as, patch_as};
use dav_server::davhandler::{DavHandler, HandlerError};
use dav_server::exchange::{Exchange, GrantToken, LAST_MOMENT, TokenError};
use dav_store::memfs::{Amount, MemFs};
use dav_store::memls::MemLs;
use dav_xml::XmlError;
pub use refused::may_be_refused;
use std::alloc::{AllocError, Global};
use std::marker::Model;
use thiserror::Error;

/// Why a request isn't answered.
#[derive(Clone, Copy, Debug, PartialEq, Eq, Error)]
pub enum HandleError {
    /// The name of who makes it is empty, or has a character that no document has. Nothing was done.
    #[error("Principal")]
    Principal,
    /// Memory ran out. The server may have done a part of the request: nothing more may be asked of it.
    #[error("Memory")]
    Memory,
}

impl From<AllocError> for HandleError {
    ghost use Rattle.std.specs.Prelude.{◌≡◌};
    ghost use Rattle.dav_http.specs.declared.handler.HandleError.TheVariants.{Memory};

    ghost from_gives = { λ _ e. e ≡ Memory };

    fn from(_error: AllocError) -> HandleError {
        HandleError::Memory
    }
}

/// A server over a store and locks in memory. What these hold may be sent.
#[derive(Drop)]
pub struct Handler {
    handler: DavHandler<MemFs, MemLs>,
}

impl Model for Handler {
    ghost use Rattle.std.specs.Prelude.{List};
    ghost use Rattle.std.specs.Coded.{coded_list};
    ghost use Rattle.dav_core.specs.contracts.errors.FsError as fs_error;
    ghost use Rattle.dav_core.specs.LockCode.{lock_code};
    ghost use Rattle.dav_core.specs.Locks.{Lock};
    ghost use Rattle.dav_server.specs.Server.{HandlerView};
    ghost use Rattle.dav_server.specs.ServerCode.{coded_handler};
    ghost use Rattle.dav_store.specs.Store.{Store};
    ghost use Rattle.dav_store.specs.StoreCode.{coded_store};
    ghost use Rattle.dav_http.specs.SentLaws.{IsSendableServer};

    ghost Value = { HandlerView Store (List Lock) };

    ghost coded = { coded_handler coded_store (coded_list lock_code) fs_error.the_row.coded };

    ghost view = { λ h. h.handler };

    ghost invariant = { λ h. IsSendableServer h.handler.server.state };
}

// An element tree with the times of files as the server keeps them.
fn with_times(
    alloc: Global,
    method: &[u8],
    moment: u64,
    tree: Element,
) -> Result<Element, AllocError>
    requires { moment ≤ last_moment }
    ensures { IfOk result (λ t. t ≡ with_times method.now moment tree) }
{
    if method == b"PROPPATCH".as_slice() {
        return patch_as(alloc, moment, tree);
    }
    if method == b"PROPFIND".as_slice() {
        return find_as(alloc, tree);
    }
    Ok(tree)
}

// The body of a request with this method that is run at this moment, as the machine takes it.
fn body_of(alloc: Global, method: &[u8], moment: u64, body: Bytes) -> Result<Body, AllocError>
    requires { moment ≤ last_moment }
    ensures { IfOk result (IsBodyOf method.now moment body) }
{
    if body.is_empty() {
        return Ok(Body::None);
    }
    if !takes_tree(method) {
        return Ok(Body::Bytes(body));
    }
    match dav_xml::read(alloc, body.as_slice()) {
        Ok(tree) => {
            let tree = with_times(alloc, method, moment, tree)?;
            Ok(Body::Tree(with_prefixed_owners(alloc, tree)?))
        }
        Err(XmlError::Memory) => Err(AllocError),
        Err(XmlError::Fault(_)) => Ok(Body::Malformed),
    }
}

// The token of a text, where a lock can be granted with it.
fn token_of(alloc: Global, text: Option<&str>) -> Result<Option<GrantToken>, NoMemory>
    ensures { IfOk result (IsTokenOf (option_copied text.entry)) }
{
    let Some(text) = text else {
        return Ok(None);
    };
    match GrantToken::new(alloc, text) {
        Ok(token) => Ok(Some(token)),
        Err(TokenError::Refused) => Ok(None),
        Err(TokenError::Memory) => Err(NoMemory),
    }
}

/// The method of a head; no bytes where it is none (RFC 9112, section 3.1).
pub fn method_of(head: &[u8]) -> &[u8]
    ensures { (r : Request) → IsHead head.now r → result.now ≡ r.method }
{
    match Head::read(head) {
        Some(head) => head.method(),
        None => &[],
    }
}

// A request as the machine takes it.
fn exchange_of<'r>(
    alloc: Global,
    head: &'r [u8],
    body: Bytes,
    caller: &Caller<'r>,
) -> Result<Exchange<'r>, HandleError>
    ensures asked { IfOk result (IsExchangeOf head.now body caller.now) }
    ensures sendable { IfOk result (λ x. IsSendableTextIfAny x.principal) }
    ensures principal { IsErrOf result HandleError.Principal
        ↔ ¬ IsSendableTextIfAny caller.now.principal }
{
    if !is_sendable_if_any(caller.principal) {
        return Err(HandleError::Principal);
    }
    let moment = caller.moment.min(LAST_MOMENT);
    let body = body_of(alloc, method_of(head), moment, body)?;
    let token = token_of(alloc, caller.token)?;
    match Exchange::new(head, body, caller.principal, moment, token) {
        Ok(exchange) => Ok(exchange),
        Err(_) => Err(HandleError::Memory),
    }
}

impl Handler {
    ghost use Rattle.std.specs.Prelude.{◌≡◌, ◌≤◌, ◌↔◌, Err, IfOk, List, OnErr, OnOk, Some, false};
    ghost use Rattle.std.specs.Option.{option_copied};
    ghost use Rattle.std.specs.Result.{IsErrOf};
    ghost use Rattle.dav_core.specs.Locks.{Lock};
    ghost use Rattle.dav_core.specs.Path.{names};
    ghost use Rattle.dav_core.specs.World.{IsWorld, is_folder, last_moment, node_at};
    ghost use Rattle.dav_server.specs.Server.{Answers};
    ghost use Rattle.dav_server.specs.Setup.{IsPrefix};
    ghost use Rattle.dav_store.specs.LockEnds.{first_ended};
    ghost use Rattle.dav_store.specs.Used.{amount_alone, amount_at, file_len, used_bytes};
    ghost use Rattle.dav_http.specs.Leaves.{Leaves};
    ghost use Rattle.dav_http.specs.Sent.{HoldsSendable, IsSendableTextIfAny};
    ghost use Rattle.dav_http.specs.SentLaws.{IsSendableRequest};
    ghost use Rattle.dav_http.specs.Steps.{AnsweredInParts, IsStepFor, IsStepInParts, new_server};

    /// The server of an empty store, for the paths below a prefix. `BadPrefix` where the text is none; `Memory` where memory
    /// runs out.
    pub fn new(alloc: Global, prefix: &str) -> Result<Handler, HandlerError>
        ensures prefix { OnOk result (IsPrefix prefix.now) }
        ensures new { IfOk result (λ h. h.server ≡ new_server prefix.now) }
        ensures bad { IsErrOf result HandlerError.BadPrefix → ¬ IsPrefix prefix.now }
    {
        let fs = MemFs::new(alloc)?;
        let ls = MemLs::new(alloc)?;
        let handler = DavHandler::new(alloc, prefix, DavMethodSet::all(), fs, Some(ls))?;
        Ok(Handler { handler })
    }

    /// The reply to a request with this head and a body of these bytes, by this caller: those of a step of the machine. What
    /// the client is told in XML may be sent, so it can be read (RFC 4918, section 8.2). A request that only reads, one of a method that isn't
    /// served, and one whose reply is that to an error that only comes before a change leave the server as it was (`Leaves`).
    ///
    /// `Principal` exactly where a reply can't tell the caller's name; nothing is changed then. `Memory` where memory runs out.
    pub fn handle(
        &mut self,
        alloc: Global,
        head: &[u8],
        body: Bytes,
        caller: &Caller<'_>,
    ) -> Result<Reply, HandleError>
        ensures step { IfOk result (λ reply.
            IsStepFor head.now body caller.now self.old.server reply self.new.server) }
        ensures left { IfOk result (λ reply. Leaves head.now reply
            → self.new.server ≡ self.old.server) }
        ensures principal { IsErrOf result HandleError.Principal
            ↔ ¬ IsSendableTextIfAny caller.now.principal }
        ensures unchanged { IsErrOf result HandleError.Principal → self.new ≡ self.old }
    {
        match self.handle_to(alloc, head, body, caller, Gathered::new()) {
            Ok((told, tree)) => Ok(gathered(told, tree)),
            Err(error) => Err(error),
        }
    }

    /// The same, but that the multistatus of a PROPFIND is handed on to `to` in parts: first without responses, and then response by
    /// response, as they are made (RFC 4918, section 13). The reply is told without a body then, and what took the responses is given
    /// back; `None` where nothing was handed on: the reply is whole.
    ///
    /// `Principal` and `Memory` as for `handle`.
    pub fn handle_to<T: Takes + Drop>(
        &mut self,
        alloc: Global,
        head: &[u8],
        body: Bytes,
        caller: &Caller<'_>,
        to: T,
    ) -> Result<(Reply, Option<T>), HandleError>
        ensures step { IfOk result (λ told. IsStepInParts T.opened T.taken to head.now body
            caller.now self.old.server told.0 told.1 self.new.server) }
        ensures left { IfOk result (λ told. Leaves head.now told.0
            → self.new.server ≡ self.old.server) }
        ensures principal { IsErrOf result HandleError.Principal
            ↔ ¬ IsSendableTextIfAny caller.now.principal }
        ensures unchanged { IsErrOf result HandleError.Principal → self.new ≡ self.old }
    {
        let exchange = exchange_of(alloc, head, body, caller)?;
        self.answer(alloc, &exchange, to)
    }

    /// The first lock whose time ended at this moment or before, in seconds since 1970; `None` where none did.
    pub fn first_ended(&self, now: u64) -> Option<&DavLock>
        ensures { (locks : List Lock) → self.now.server.state.locks ≡ Some locks
            → option_copied result ≡ first_ended now locks }
    {
        self.handler.locks()?.first_ended(now)
    }

    /// How many bytes all files and dead properties have together (RFC 4331, section 4); 2^64 - 1 where they are more. Nothing changes.
    pub fn used_bytes(&self, alloc: Global) -> Result<u64, NoMemory>
        ensures { IfOk result
            (λ used. used ≡ used_bytes self.now.server.state.store.world.nodes) }
    {
        self.handler.fs().used_bytes(alloc)
    }

    /// How much is at a path and below it: files and folders, and bytes of files and dead properties, 2^64 - 1 where they are more.
    /// Takes time for each node and property there. Nothing changes.
    pub fn amount_at(&self, alloc: Global, path: &DavPath) -> Result<Amount, NoMemory>
        ensures { IfOk result (λ amount. amount
            ≡ amount_at (names path.now) self.now.server.state.store.world.nodes) }
    {
        self.handler.fs().amount_at(alloc, path)
    }

    /// How much is at a path alone: nothing where nothing is, and of a folder it alone. Nothing changes.
    pub fn amount_alone(&self, path: &DavPath) -> Amount
        ensures { result
            ≡ amount_alone (node_at self.now.server.state.store.world (names path.now)) }
    {
        self.handler.fs().amount_alone(path)
    }

    /// How many bytes the file at a path has; none where no file is. Nothing changes.
    pub fn file_len(&self, path: &DavPath) -> u64
        ensures { result ≡ file_len (node_at self.now.server.state.store.world (names path.now)) }
    {
        self.handler.fs().file_len(path)
    }

    /// What is always true of a server: its store holds a world. It does nothing.
    pub fn see_world(&self)
        ensures { IsWorld self.now.server.state.store.world }
    {
        let _ = &self.handler;
    }

    /// Whether a folder is at a path. Nothing changes.
    pub fn is_folder(&self, path: &DavPath) -> bool
        ensures { result ≡ is_folder self.now.server.state.store.world (names path.now) }
    {
        match self.handler.fs().found_at(path) {
            Some(found) => found.dir,
            None => false,
        }
    }

    /// The prefix of the server's paths.
    pub fn prefix(&self) -> &str
        ensures { result.now ≡ self.now.server.settings.prefix }
    {
        self.handler.prefix()
    }

    // The reply to a request that may be sent, of which the multistatus is handed on to `to`.
    fn answer<T: Takes + Drop>(
        &mut self,
        alloc: Global,
        exchange: &Exchange<'_>,
        to: T,
    ) -> Result<(Reply, Option<T>), HandleError>
        requires moment { exchange.now.moment ≤ last_moment }
        requires sendable { IsSendableRequest exchange.now }
        ensures parts { IfOk result (λ told. AnsweredInParts T.opened T.taken to
            self.old.server exchange.now told.0 told.1 self.new.server) }
        ensures left { IfOk result (λ told. Leaves exchange.now.head told.0
            → self.new.server ≡ self.old.server) }
        ensures memory { OnErr result (result ≡ Err HandleError.Memory) }
    {
        if self.handler.fs().was_short() {
            return Err(HandleError::Memory);
        }
        match self.handler.handle_to(alloc, exchange, to) {
            Ok(told) => {
                if self.handler.fs().was_short() {
                    return Err(HandleError::Memory);
                }
                Ok(told)
            }
            Err(_) => Err(HandleError::Memory),
        }
    }
}
