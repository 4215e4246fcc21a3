//! What the requests of a live server are answered by: the machine, and a page where somebody asks for a folder.
ghost use Rattle.std.specs.Prelude.{◌≡◌, ◌⊎◌, ◌↔◌, ℕ, IfOk, IfSome, IsFalse, IsTrue, List, OnOk, codes};
ghost use Rattle.dav_http.specs.Saved.{IsSaveable, Loads, saved_bytes};
ghost use Rattle.std.specs.Bool.{Decides};
ghost use Rattle.std.specs.Option.{option_copied};
ghost use Rattle.http_server.specs.Response.{IsBlank};
ghost use Rattle.dav_engine.specs.Reply.{Reply as ReplyValue};
ghost use Rattle.dav_http.specs.Leaves.{Leaves};
ghost use Rattle.dav_http.specs.Steps.{IsStepFor};
ghost use Rattle.dav_kept.specs.declared.handler.Effect.TheVariants.{Left};
ghost use Rattle.dav_live.specs.SavedRuns.{loads_what_was_saved};
ghost use Rattle.dav_seen.specs.Ways.{IsWayReply};
ghost use Rattle.dav_server.specs.Head.{IsHead};
ghost use Rattle.dav_live.specs.Answers.{AsksToSee, IsAnswer, IsSentFor, barred_status, caller_of};
ghost use Rattle.dav_live.specs.Locked.{IsTold};

use crate::ends::Ends;
use crate::locked::reply_told;
use crate::page;
use crate::room::{Room, needed_for, needed_for_copies};
use bytes::Bytes;
use dav_access::{Limit, Measure, Rules};
use dav_confined::leave::Asked;
use dav_confined::may_unlock;
use dav_core::davpath::DavPath;
use dav_core::errors::NoMemory;
use dav_engine::{Caller, Reply, ReplyBody};
use dav_http::{
    HandleError as HttpError, Handler, Head, Listing, Store, leaves, may_be_refused, method_of,
    present, present_listing, send, set_in, unlock_head,
};
use dav_kept::{Effect, HandleError, Handles, Request};
use dav_limits::{Watches, is_past};
use dav_presented::typed::with_types;
use dav_saved::LoadError;
use dav_seen::{LookError, way_reply};
use dav_store::memfs::Amount;
use http::StatusCode;
use http_server::Response;
use std::alloc::Global;
use std::cell::Cell;
use std::marker::Model;
use std::{mem, str};

/// A machine, as records are played on it.
#[derive(Drop)]
pub struct Machine {
    alloc: Global,
    handler: Handler,
    /// How many bytes can still be stored.
    room: Room,
    /// The limits that hold from the next request on, where these are others.
    told: Cell<Option<Vec<Limit>>>,
    /// The limits that hold, for what is told of the room.
    limits: Vec<Limit>,
    /// How much is at their paths and below them.
    watches: Watches,
}

impl Model for Machine {
    ghost use Rattle.dav_core.specs.contracts.errors.FsError as fs_error;
    ghost use Rattle.dav_server.specs.Server.{Server};
    ghost use Rattle.dav_server.specs.ServerCode.{server_code};

    ghost Value = { Server };

    ghost coded = { server_code fs_error.the_row.coded };

    ghost view = { λ m. m.handler.server };

    ghost use Rattle.dav_limits.specs.Watches.{AreExact};

    ghost invariant = { λ m. AreExact m.handler.server m.watches };
}

// Whether a method is HEAD.
fn is_head(method: &[u8]) -> bool
    ensures { IsTrue result ↔ (method.now ≡ codes "HEAD") }
{
    method == b"HEAD".as_slice()
}

// Whether a method asks for a representation.
fn is_get_or_head(method: &[u8]) -> bool
    ensures { IsTrue result ↔ (method.now ≡ codes "GET") ⊎ (method.now ≡ codes "HEAD") }
{
    method == b"GET".as_slice() || is_head(method)
}

// Whether a method is PROPFIND.
fn is_propfind(method: &[u8]) -> bool
    ensures { Decides result (method.now ≡ codes "PROPFIND") }
{
    method == b"PROPFIND".as_slice()
}

// The head of a PROPFIND, where these bytes are one.
fn propfind_in(head: &[u8]) -> Option<Head<'_>>
    ensures { IfSome result (λ h. IsHead head.now h × (h.method ≡ codes "PROPFIND")) }
{
    match Head::read(head) {
        Some(head) => {
            if is_propfind(head.method()) {
                Some(head)
            } else {
                None
            }
        }
        None => None,
    }
}

// Whether a method stores nothing: what it changes is there already.
fn stores_nothing(method: &[u8]) -> bool {
    method == b"DELETE".as_slice() || method == b"MOVE".as_slice() || is_unlock(method)
}

// Whether a method is UNLOCK.
fn is_unlock(method: &[u8]) -> bool
    ensures { Decides result (method.now ≡ codes "UNLOCK") }
{
    method == b"UNLOCK".as_slice()
}

impl Machine {
    ghost use Rattle.std.specs.Prelude.{◌≡◌, List, ℕ, Some, IfOk, option_map};
    ghost use Rattle.std.specs.Option.{option_copied};
    ghost use Rattle.std.specs.Bool.{Decides};
    ghost use Rattle.dav_live.specs.Answers.{IsBarred, IsForeignUnlock, MayUnlockIn};
    ghost use Rattle.std.specs.Str.{IsUtf8};
    ghost use Rattle.dav_http.specs.Holders.{NamesOwn};

    // Whether the value of a Lock-Token, if there is one, is a text that names a lock of another than this user.
    fn names_foreign(&self, value: Option<&[u8]>, user: &str) -> bool
        ensures { Decides result ((text : List ℕ)
            × (option_map (λ v. v.now) value.entry ≡ Some text)
            × IsUtf8 text × (¬ NamesOwn self.now.state.locks user.now text)) }
    {
        let Some(value) = value else {
            return false;
        };
        match str::from_utf8(value) {
            Ok(text) => !self.handler.names_own(user, text),
            Err(_) => false,
        }
    }

    // Whether a request with this head is an UNLOCK of a lock of another than this user.
    fn is_foreign(&self, head: &Head<'_>, user: Option<&str>) -> bool
        ensures { Decides result ((name : List ℕ) × (option_copied user.entry ≡ Some name)
            × IsForeignUnlock self.now.state.locks head.now name) }
    {
        match user {
            Some(user) => {
                is_unlock(head.method()) && self.names_foreign(head.value("lock-token"), user)
            }
            None => false,
        }
    }

    // Whether the principal of a request may end each lock that it names as an UNLOCK, by rules.
    fn may_unlock(&self, rules: &Rules, request: &Request<'_>) -> Result<bool, NoMemory>
        ensures { IfOk result (λ may.
            Decides may (MayUnlockIn rules.now self.now request.now)) }
    {
        let Some(locks) = self.handler.locks() else {
            return Ok(true);
        };
        let (who, prefix) = (request.principal, self.handler.prefix());
        may_unlock(self.alloc, rules, who, request.head, prefix, locks)
    }

    // Whether a request is an UNLOCK of a lock that its principal may not end, by rules, where there are any.
    fn is_barred(
        &self,
        rules: Option<&Rules>,
        head: &Head<'_>,
        request: &Request<'_>,
    ) -> Result<bool, NoMemory>
        ensures { IfOk result (λ is. Decides is
            (IsBarred (option_copied rules.entry) self.now head.now request.now)) }
    {
        let Some(rules) = rules else {
            return Ok(self.is_foreign(head, request.principal));
        };
        if !is_unlock(head.method()) {
            return Ok(false);
        }
        Ok(!self.may_unlock(rules, request)?)
    }

    /// The machine of a server.
    pub fn new(alloc: Global, handler: Handler) -> Machine
        ensures { result ≡ handler.server }
    {
        Machine {
            alloc,
            handler,
            room: Room::new(),
            told: Cell::new(None),
            limits: Vec::new(alloc),
            watches: Watches::new(alloc),
        }
    }
}

impl Machine {
    ghost use Rattle.dav_live.specs.Answers.{IsRefused};
    ghost use Rattle.dav_limits.specs.Limits.{IsPast};
    ghost use Rattle.dav_http.specs.Refused.{Tells};
    ghost use Rattle.std.specs.Prelude.{IfOk, length};
    ghost use Rattle.std.specs.Bool.{Decides};
    ghost use Rattle.dav_live.specs.Answers.{IsKeptFrom};

    // With which status the server refuses a request, which came with this head, for its conditions or for what it asks.
    fn refused_status(
        &self,
        head: &Head<'_>,
        request: &Request<'_>,
    ) -> Result<Option<StatusCode>, NoMemory>
        requires { IsKeptFrom head.now request.now.head }
        ensures { IfOk result (λ status. Tells (IsRefused self.now request.now) status) }
    {
        if !may_be_refused(head.method()) {
            return Ok(None);
        }
        match Head::read(request.head) {
            Some(kept) => self
                .handler
                .refusal(self.alloc, &kept, request.body.as_slice()),
            None => Ok(None),
        }
    }

    // Whether a request would add more than limits leave.
    fn is_past(&self, limits: &[Limit], request: &Request<'_>) -> Result<bool, NoMemory>
        ensures { IfOk result (λ is. Decides is
            (IsPast limits.now self.now request.now.head request.now.body)) }
    {
        let (watches, body) = (&self.watches, request.body.as_slice());
        is_past(
            self.alloc,
            limits,
            watches,
            &self.handler,
            request.head,
            body,
        )
    }
}

// Why a handler has no answer to a request.
fn refused(error: HttpError) -> HandleError {
    match error {
        HttpError::Memory => HandleError::Memory,
        HttpError::Principal => HandleError::Malformed,
    }
}

impl Machine {
    // Counts how much is at the paths of the limits that were told, where some were.
    fn see_told(&mut self) -> Result<(), NoMemory>
        ensures { self.new ≡ self.old }
    {
        if let Some(limits) = self.told.replace(None) {
            self.watches = Watches::of(self.alloc, &self.handler, &limits)?;
            self.limits = limits;
        }
        Ok(())
    }

    // The reply of the handler to a request with this head and body.
    fn ask(&mut self, head: &[u8], body: Bytes, caller: &Caller<'_>) -> Result<Reply, HttpError>
        ensures step { IfOk result (λ reply.
            IsStepFor head.now body caller.now self.old reply self.new) }
        ensures left { IfOk result (λ reply. Leaves head.now reply
            → self.new ≡ self.old) }
    {
        self.see_told()?;
        let watches = mem::replace(&mut self.watches, Watches::new(self.alloc));
        let noted = watches.noted(self.alloc, &self.handler, head)?;
        let reply = self.handler.handle(self.alloc, head, body, caller)?;
        self.watches = noted.renewed(self.alloc, &self.handler)?;
        Ok(reply)
    }

    // The reply of the handler to a request.
    fn run(&mut self, request: &Request<'_>) -> Result<Reply, HttpError>
        ensures step { IfOk result (λ reply. IsStepFor request.now.head request.now.body
            (caller_of request.now) self.old reply self.new) }
        ensures left { IfOk result (λ reply. Leaves request.now.head reply
            → self.new ≡ self.old) }
    {
        let caller = caller_of(request);
        let body = request.body.clone()?;
        self.ask(request.head, body, &caller)
    }

    // The reply to a request.
    fn reply_to(&mut self, request: &Request<'_>) -> Result<Reply, HandleError>
        ensures step { IfOk result (λ reply. IsStepFor request.now.head request.now.body
            (caller_of request.now) self.old reply self.new) }
        ensures left { IfOk result (λ reply. Leaves request.now.head reply
            → self.new ≡ self.old) }
    {
        match self.run(request) {
            Ok(reply) => Ok(reply),
            Err(error) => Err(refused(error)),
        }
    }

    // The same, and `Malformed` where it isn't known that the request leaves the state.
    fn read(&mut self, head: &[u8], body: Bytes, caller: &Caller<'_>) -> Result<Reply, HandleError>
        ensures { OnOk result (self.new ≡ self.old) }
    {
        match self.ask(head, body, caller) {
            Ok(reply) => left_only(head, reply),
            Err(error) => Err(refused(error)),
        }
    }

    // Fills the response with a page of the folder that a request asks for. False where it can't be listed.
    fn show(&mut self, request: &Request<'_>, response: &mut Response) -> Result<bool, HandleError>
        requires { IsBlank response.old }
        ensures same { OnOk result (self.new ≡ self.old) }
        ensures shown { IfOk result (λ is. IsTrue is → response.new.status ≡ 200) }
        ensures blank { IfOk result (λ is. IsFalse is → response.new ≡ response.old) }
    {
        let head = page::asking_head(self.alloc, request.head)?;
        let caller = caller_of(request);
        let reply = self.read(&head, Bytes::from_static(page::ASKED), &caller)?;
        if reply.status.as_u16() != 207 {
            return Ok(false);
        }
        let is_head = is_head(method_of(request.head));
        let prefix = self.handler.prefix();
        show_tree(self.alloc, reply.body, prefix, is_head, response)
    }
}

// A reply to a request with this head that is known to leave the server.
fn left_only(head: &[u8], reply: Reply) -> Result<Reply, HandleError>
    ensures { OnOk result (Leaves head.now reply) }
{
    if leaves(head, &reply) {
        Ok(reply)
    } else {
        Err(HandleError::Malformed)
    }
}

// Fills the response with a page of what a PROPFIND told, with the times that clients set; false where that is no element tree.
fn show_tree(
    alloc: Global,
    body: ReplyBody,
    prefix: &str,
    is_head: bool,
    response: &mut Response,
) -> Result<bool, HandleError>
    ensures shown { IfOk result (λ is. IsTrue is → response.new.status ≡ 200) }
    ensures blank { IfOk result (λ is. IsFalse is → response.new ≡ response.old) }
{
    match body {
        ReplyBody::Tree(tree) => {
            let tree = with_types(alloc, tree)?;
            page::show(alloc, &tree, prefix, is_head, response)?;
            Ok(true)
        }
        _ => Ok(false),
    }
}

// Who makes a request.
fn caller_of<'r>(request: &Request<'r>) -> Caller<'r>
    ensures { result ≡ caller_of request.now }
{
    Caller {
        principal: request.principal,
        moment: request.moment,
        token: request.token,
    }
}

// Whether a request with this head asks for a folder as for a file.
fn is_for_folder(head: &[u8], reply: &Reply) -> bool
    ensures { IsTrue result → (reply.now.status ≡ 405) × AsksToSee head.now }
{
    if reply.status.as_u16() != 405 {
        return false;
    }
    match Head::read(head) {
        Some(head) => is_get_or_head(head.method()),
        None => false,
    }
}

// The status of an UNLOCK of a lock that this user may not end.
fn barred_status(user: Option<&str>) -> StatusCode
    ensures { result ≡ barred_status (option_copied user.entry) }
{
    match user {
        Some(_) => StatusCode::FORBIDDEN,
        None => StatusCode::UNAUTHORIZED,
    }
}

// What a request with this head, and which has this reply, did to the state.
fn effect_of(head: &Head<'_>, reply: &Reply) -> Effect
    ensures { (bytes : List ℕ) → IsHead bytes head.now → result ≡ Left
        → Leaves bytes reply.now }
{
    if head.leaves(reply) {
        Effect::Left
    } else {
        Effect::Changed
    }
}

impl Machine {
    ghost use Rattle.std.specs.Prelude.{◌≡◌, [], IfOk};
    ghost use Rattle.dav_store.specs.Used.{amount_at};

    /// How many files and folders there are, the one at the top too, and how many bytes. Takes time for each of them.
    pub fn amount(&self) -> Result<Amount, NoMemory>
        ensures { IfOk result (λ amount. amount ≡ amount_at [] self.now.state.store.world.nodes) }
    {
        let top = DavPath::from_parts(self.alloc, "", b"/")?;
        Ok(self.handler.amount_at(self.alloc, &top)?)
    }

    // Where the limit of bytes is that leaves least of those that count what is at a path, if there is one, and how many bytes can
    // still be stored there.
    fn room_at(&self, path: &DavPath) -> Result<(Option<&DavPath>, u64), NoMemory> {
        let (mut place, mut least) = (None, u64::MAX);
        for limit in &self.limits {
            if limit.measure == Measure::Space && path.is_at_or_under(&limit.path) {
                let there = self
                    .watches
                    .amount_at(self.alloc, &self.handler, &limit.path)?;
                let left = limit.most.saturating_sub(there.bytes);
                if left <= least {
                    (place, least) = (Some(&limit.path), left);
                }
            }
        }
        Ok((place, least.min(self.room.left())))
    }

    // How many bytes a COPY with this head takes.
    fn copied_by(&self, head: &[u8]) -> Result<u64, NoMemory> {
        let Some(asked) = Asked::read(self.alloc, head, self.handler.prefix())? else {
            return Ok(0);
        };
        let there = self
            .watches
            .amount_at(self.alloc, &self.handler, &asked.path)?;
        Ok(needed_for_copies(there.files, there.bytes))
    }

    // How many bytes a PROPPATCH with this body takes at most.
    fn set_by(&self, body: &[u8]) -> Result<u64, NoMemory> {
        let set = set_in(self.alloc, body)?;
        Ok(needed_for_copies(set.count, set.bytes.max(body.len() as u64)))
    }

    // How many bytes a request takes at most of what can still be stored.
    fn needed_by(&self, request: &Request<'_>) -> Result<u64, NoMemory> {
        let method = method_of(request.head);
        if method == b"COPY".as_slice() {
            self.copied_by(request.head)
        } else if stores_nothing(method) {
            Ok(0)
        } else if method == b"PROPPATCH".as_slice() {
            self.set_by(request.body.as_slice())
        } else {
            Ok(needed_for(request.body.len() as u64))
        }
    }

    // The server with the room that a request with this head is told of, where it tells of room.
    fn store_for(&self, head: &[u8]) -> Result<Store<'_>, NoMemory>
        ensures { IfOk result (λ store. store.server.now.server ≡ self.now) }
    {
        let (mut place, mut available) = (None, self.room.left());
        if !self.limits.is_empty() && method_of(head) == b"PROPFIND".as_slice() {
            if let Some(asked) = Asked::read(self.alloc, head, self.handler.prefix())? {
                (place, available) = self.room_at(&asked.path)?;
            }
        }
        Ok(Store {
            server: &self.handler,
            place,
            available,
        })
    }

    // A reply to a request, with the lock that keeps it out, where one does.
    fn reply_told(&self, request: &Request<'_>, reply: Reply) -> Result<Reply, NoMemory>
        ensures { IfOk result (IsTold self.now.state.locks self.now.settings.prefix
            request.now.head request.now.principal reply) }
    {
        let (ls, prefix) = (self.handler.locks(), self.handler.prefix());
        let (head, who) = (request.head, request.principal);
        reply_told(self.alloc, ls, head, prefix, who, reply)
    }

    // Fills the response to a request with what its client is shown of a reply.
    fn answer_with(
        &self,
        request: &Request<'_>,
        reply: Reply,
        response: &mut Response,
    ) -> Result<Effect, HandleError>
        requires { IsBlank response.old }
        ensures { IfOk result (λ effect. IsSentFor self.now request.now reply response.new
            × (effect ≡ Left → Leaves request.now.head reply)) }
    {
        let Some(head) = Head::read(request.head) else {
            send(self.alloc, reply, false, response)?;
            return Ok(Effect::Left);
        };
        let effect = effect_of(&head, &reply);
        let told = self.reply_told(request, reply)?;
        let store = self.store_for(request.head)?;
        let body = request.body.as_slice();
        present(
            self.alloc,
            &head,
            body,
            request.moment,
            store,
            told,
            response,
        )?;
        Ok(effect)
    }

    // Fills the response to a request for a folder with a page; where there is none with the reply.
    fn answer_folder(
        &mut self,
        request: &Request<'_>,
        reply: Reply,
        response: &mut Response,
    ) -> Result<Effect, HandleError>
        requires { IsBlank response.old }
        ensures { OnOk result ((self.new ≡ self.old) × ((response.new.status ≡ 200)
            ⊎ IsSentFor self.new request.now reply response.new)) }
    {
        if self.show(request, response)? {
            return Ok(Effect::Left);
        }
        self.answer_with(request, reply, response)
    }
}

impl Machine {
    // The reply to a request with this head and body that looks at a folder on the way.
    fn look_at(
        &mut self,
        rules: &Rules,
        head: &[u8],
        body: &Bytes,
        caller: &Caller<'_>,
    ) -> Result<Reply, HandleError>
        ensures reply { IfOk result
            (IsWayReply rules.now self.old head.now body.now caller.now) }
        ensures same { OnOk result (self.new ≡ self.old) }
    {
        let watches = mem::replace(&mut self.watches, Watches::new(self.alloc));
        match way_reply(self.alloc, rules, &mut self.handler, head, body, caller) {
            Ok(reply) => {
                self.watches = watches;
                Ok(reply)
            }
            Err(error) => Err(unseen(error)),
        }
    }

    // The reply to a request that looks at a folder on the way.
    fn way_reply(&mut self, rules: &Rules, request: &Request<'_>) -> Result<Reply, HandleError>
        ensures reply { IfOk result (IsWayReply rules.now self.old request.now.head
            request.now.body (caller_of request.now)) }
        ensures same { OnOk result (self.new ≡ self.old) }
    {
        let caller = caller_of(request);
        self.look_at(rules, request.head, request.body, &caller)
    }

    // Fills the response to a request with what its client is shown of a reply, whatever the request did.
    fn tell_way(
        &self,
        request: &Request<'_>,
        reply: Reply,
        response: &mut Response,
    ) -> Result<(), HandleError>
        requires { IsBlank response.old }
        ensures { OnOk result (IsSentFor self.now request.now reply response.new) }
    {
        let _ = self.answer_with(request, reply, response)?;
        Ok(())
    }

    // What is told of a folder on the way and its members, for a page.
    fn way_told(&mut self, rules: &Rules, request: &Request<'_>) -> Result<Reply, HandleError>
        ensures { OnOk result (self.new ≡ self.old) }
    {
        let head = page::asking_head(self.alloc, request.head)?;
        let body = Bytes::from_static(page::ASKED);
        let caller = caller_of(request);
        self.look_at(rules, &head, &body, &caller)
    }

    // Fills the response to a request that looks at a folder with a page; where there is none with the reply.
    fn show_way(
        &mut self,
        rules: &Rules,
        request: &Request<'_>,
        reply: Reply,
        response: &mut Response,
    ) -> Result<(), HandleError>
        requires { IsBlank response.old }
        ensures told { OnOk result ((response.new.status ≡ 200)
            ⊎ IsSentFor self.old request.now reply response.new) }
        ensures same { OnOk result (self.new ≡ self.old) }
    {
        let told = self.way_told(rules, request)?;
        let is_head = is_head(method_of(request.head));
        let prefix = self.handler.prefix();
        if show_tree(self.alloc, told.body, prefix, is_head, response)? {
            return Ok(());
        }
        self.tell_way(request, reply, response)
    }
}

// Why a folder on the way isn't told of.
fn unseen(error: LookError) -> HandleError {
    match error {
        LookError::Memory => HandleError::Memory,
        LookError::Principal | LookError::Changed => HandleError::Malformed,
    }
}

impl Machine {
    ghost use Rattle.std.specs.Prelude.{Option};
    ghost use Rattle.dav_core.specs.Path.{Path};
    ghost use Rattle.dav_http.specs.Listing.{IsBegun, opened, taken};
    ghost use Rattle.dav_http.specs.Presented.{leaves_out};
    ghost use Rattle.dav_http.specs.Room.{room_of};
    ghost use Rattle.dav_http.specs.Steps.{IsStepInParts};
    ghost use Rattle.dav_live.specs.Answers.{IsListingSent};

    // What takes the responses to a PROPFIND with this head.
    fn listing_for(&self, head: &Head<'_>, request: &Request<'_>) -> Result<Listing, NoMemory>
        ensures { IfOk result (λ listing. (place : Option Path) × (available : ℕ)
            × IsBegun (leaves_out head.now) (room_of self.now place available)
            request.now.body listing) }
    {
        let store = self.store_for(request.head)?;
        Listing::new(self.alloc, head, request.body.as_slice(), store)
    }

    // The reply of the handler to a request that only reads, of which the multistatus is handed on to a listing.
    fn hand_on(
        &mut self,
        request: &Request<'_>,
        listing: Listing,
    ) -> Result<(Reply, Option<Listing>), HandleError>
        requires { (reply : ReplyValue) → Leaves request.now.head reply }
        ensures step { IfOk result (λ told. IsStepInParts opened taken listing
            request.now.head request.now.body (caller_of request.now)
            self.old told.0 told.1 self.new) }
        ensures same { OnOk result (self.new ≡ self.old) }
    {
        let watches = mem::replace(&mut self.watches, Watches::new(self.alloc));
        let caller = caller_of(request);
        let content = request.body.clone()?;
        match self
            .handler
            .handle_to(self.alloc, request.head, content, &caller, listing)
        {
            Ok(told) => {
                self.watches = watches;
                Ok(told)
            }
            Err(error) => Err(refused(error)),
        }
    }

    // Fills the response to a PROPFIND with this head with a reply, of which a listing took the multistatus, if it did.
    fn show_listing(
        &self,
        head: &Head<'_>,
        request: &Request<'_>,
        reply: Reply,
        taken: Option<Listing>,
        response: &mut Response,
    ) -> Result<(), HandleError>
        requires { IsBlank response.old }
        ensures { OnOk result
            (IsListingSent self.now request.now head.now reply taken response.new) }
    {
        match taken {
            Some(listing) => Ok(present_listing(self.alloc, head, reply, listing, response)?),
            None => self.tell_way(request, reply, response),
        }
    }

    // Fills the response to a PROPFIND with this head: what is told is written response by response, as it is made.
    fn list(
        &mut self,
        head: &Head<'_>,
        request: &Request<'_>,
        response: &mut Response,
    ) -> Result<Effect, HandleError>
        requires blank { IsBlank response.old }
        requires head { IsHead request.now.head head.now }
        requires finds { head.now.method ≡ codes "PROPFIND" }
        ensures answers { IfOk result (λ _.
            IsAnswer self.old request.now response.new self.new) }
        ensures same { OnOk result (self.new ≡ self.old) }
    {
        self.see_told()?;
        let listing = self.listing_for(head, request)?;
        let (reply, taken) = self.hand_on(request, listing)?;
        self.show_listing(head, request, reply, taken, response)?;
        Ok(Effect::Left)
    }

    // Fills the response to a request that isn't a PROPFIND.
    fn answer(
        &mut self,
        request: &Request<'_>,
        response: &mut Response,
    ) -> Result<Effect, HandleError>
        requires { IsBlank response.old }
        ensures answers { IfOk result (λ _.
            IsAnswer self.old request.now response.new self.new) }
        ensures left { IfOk result (λ effect. effect ≡ Left → self.new ≡ self.old) }
    {
        let reply = self.reply_to(request)?;
        if is_for_folder(request.head, &reply) {
            self.answer_folder(request, reply, response)
        } else {
            self.answer_with(request, reply, response)
        }
    }
}

impl Handles for Machine {
    ghost answers = { λ old request response new. IsAnswer old request response new };

    fn handle(
        &mut self,
        request: &Request<'_>,
        response: &mut Response,
    ) -> Result<Effect, HandleError> {
        match propfind_in(request.head) {
            Some(head) => self.list(&head, request, response),
            None => self.answer(request, response),
        }
    }

    ghost saved = { λ server. saved_bytes server };

    ghost is_saveable = { λ server. IsSaveable server };

    ghost loads = { λ old bytes new. Loads old bytes new };

    fn save(&self, out: &mut Vec<u8>) -> Result<bool, HandleError> {
        Ok(self.handler.save(self.alloc, out)?)
    }

    fn load(&mut self, bytes: &[u8]) -> Result<(), HandleError> {
        self.watches = Watches::new(self.alloc);
        match self.handler.load(self.alloc, bytes) {
            Ok(()) => Ok(()),
            Err(LoadError::NotSaved) => Err(HandleError::Malformed),
            Err(LoadError::Memory) => Err(HandleError::Memory),
        }
    }

    ghost loads_what_was_saved = { loads_what_was_saved };
}

impl Ends for Machine {
    ghost use Rattle.dav_live.specs.Answers.{IsLook, IsNextEnd, IsNotRun};

    ghost ends = { λ server now head. IsNextEnd server.state.locks now head };

    fn next_end(&self, now: u64) -> Result<Option<String>, NoMemory> {
        match self.handler.first_ended(now) {
            Some(lock) => Ok(Some(unlock_head(self.alloc, lock)?)),
            None => Ok(None),
        }
    }

    fn see_room(&self, available: u64) {
        self.room.hear(available);
    }

    fn takes_room(&self, request: &Request<'_>) -> Result<bool, NoMemory> {
        Ok(self.room.take(self.needed_by(request)?))
    }

    ghost looks = { λ rules server q sent. IsLook rules server q sent };

    fn look(
        &mut self,
        rules: &Rules,
        request: &Request<'_>,
        response: &mut Response,
    ) -> Result<(), HandleError> {
        let reply = self.way_reply(rules, request)?;
        let is_seen = is_for_folder(request.head, &reply);
        if is_seen {
            self.show_way(rules, request, reply, response)
        } else {
            self.tell_way(request, reply, response)
        }
    }

    fn see_limits(&self, limits: Vec<Limit>) {
        let _ = self.told.replace(Some(limits));
    }

    ghost refuses = { λ rules limits server came q status.
        IsNotRun rules limits server came q status };

    fn refusal(
        &self,
        rules: Option<&Rules>,
        limits: &[Limit],
        head: &Head<'_>,
        request: &Request<'_>,
    ) -> Result<Option<StatusCode>, NoMemory> {
        if self.is_barred(rules, head, request)? {
            return Ok(Some(barred_status(request.principal)));
        }
        if let Some(status) = self.refused_status(head, request)? {
            return Ok(Some(status));
        }
        if self.is_past(limits, request)? {
            return Ok(Some(StatusCode::INSUFFICIENT_STORAGE));
        }
        Ok(None)
    }
}
