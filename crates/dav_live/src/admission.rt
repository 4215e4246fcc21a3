//! Which requests are run, and what is run of them.
ghost use Rattle.std.specs.Prelude.{◌≡◌, ◌≢◌, ◌↔◌, [], IfOk, IsTrue, OnOk, option_map, unwrap_or, string_bytes};
ghost use Rattle.std.specs.Bool.{Decides};
ghost use Rattle.http_server.specs.Response.{IsBlank, IsResponse};
ghost use Rattle.dav_core.specs.declared.errors.DavError.TheVariants.{IllegalPath, Memory};
ghost use Rattle.dav_live.specs.Full.{IsUnrun};
ghost use Rattle.dav_live.specs.Admission.{HasManySlashes, HasSwollenBody, IsOutside, IsTokenFor, reason_for, refusal_fields, slashes_in, status_elsewhere, status_of};
ghost use Rattle.dav_live.specs.declared.admission.RefusedRequest.{RefusedRequest as RefusedValue};

mod judging;
mod login;

use crate::clock::moment_after;
use crate::full::fill_past;
use crate::hosts::{asks_bad_port, is_for};
use crate::limits::joined;
use crate::lists::{Lists, ListsError, texts_in};
use crate::settings::Settings;
use crate::swollen::is_swollen;
use crate::token::token_text;
use bytes::Bytes;
use dav_access::{Limit, Refusal, Rules, Users, principal_of};
use dav_confined::{has_leave, may_look};
use dav_core::errors::DavError;
use dav_core::method::DavMethod;
use dav_http::{Head, begins_past, is_lock, is_safe, takes_tree};
use dav_server::exchange::LAST_MOMENT;
use dav_server::target::path_of;
use dav_shards::{Part, elsewhere_in};
use dav_wire::Stop;
use http::StatusCode;
use http_header::{HeaderValue, WWW_AUTHENTICATE};
use http_server::Response;
use std::alloc::{AllocError, Global};
use std::marker::Model;

/// The most slashes in a target or a Destination.
const MOST_SLASHES: usize = 1024;

/// Why a request isn't run.
#[derive(Clone, Copy, Debug, PartialEq, Eq)]
pub enum Reason {
    /// It is for a host with a port that can't be (400).
    BadPort,
    /// It is for another host (421).
    Misdirected,
    /// It doesn't show a user, and has no leave else (401).
    Unauthorized,
    /// It has no leave, by the rules (403).
    Forbidden,
    /// This part of it names what is elsewhere (421, 502, 412).
    Elsewhere(Part),
    /// Its target or its Destination has too many slashes (414).
    TooLong,
    /// Its target isn't at or below the prefix (404).
    Outside,
    /// It may do more than read, and none may (403).
    ReadOnly,
    /// It begins to write past the most bytes of a body (413).
    TooFar,
    /// Its body would be read as an element tree far larger than it (413).
    Swollen,
}

impl Reason {
    /// The status of the response (RFC 9110, sections 15.5.1, 15.5.2, 15.5.4, 15.5.5, 15.5.13, 15.5.14, 15.5.15, 15.5.20 and
    /// 15.6.3).
    pub fn status(self) -> StatusCode
        ensures { result ≡ status_of self }
    {
        match self {
            Reason::BadPort => StatusCode::BAD_REQUEST,
            Reason::Misdirected => StatusCode::MISDIRECTED_REQUEST,
            Reason::Unauthorized => StatusCode::UNAUTHORIZED,
            Reason::Forbidden | Reason::ReadOnly => StatusCode::FORBIDDEN,
            Reason::Elsewhere(part) => status_elsewhere(part),
            Reason::TooLong => StatusCode::URI_TOO_LONG,
            Reason::Outside => StatusCode::NOT_FOUND,
            Reason::TooFar | Reason::Swollen => StatusCode::PAYLOAD_TOO_LARGE,
        }
    }
}

// The status where this part of a request names what is elsewhere (RFC 9110, section 15.5.20; RFC 4918, sections 9.8.5, 9.9.4 and
// 10.4).
fn status_elsewhere(part: Part) -> StatusCode
    ensures { result ≡ status_elsewhere part }
{
    match part {
        Part::Target => StatusCode::MISDIRECTED_REQUEST,
        Part::Destination => StatusCode::BAD_GATEWAY,
        Part::Condition => StatusCode::PRECONDITION_FAILED,
    }
}

/// A request that isn't run: why, and the user that it says to be of.
#[derive(Drop)]
pub struct RefusedRequest {
    pub reason: Reason,
    pub user: String,
}

/// What is run of a request: the head that is kept of it, who makes it, the token for a lock, and whether it only reads.
#[derive(Drop)]
pub struct Admitted {
    pub head: Vec<u8>,
    pub principal: Option<String>,
    pub token: Option<String>,
    pub only_reads: bool,
}

impl Admitted {
    /// The name of the user, empty where there is none.
    pub fn user(&self) -> &str {
        self.principal.as_deref().unwrap_or("")
    }
}

/// What becomes of a request.
#[derive(Drop)]
pub enum Decision {
    Refused(RefusedRequest),
    Look(Admitted),
    Run(Admitted),
}

/// What a server goes by before it runs a request.
#[derive(Drop)]
pub struct Admission {
    alloc: Global,
    settings: Settings,
    users: Option<Users>,
    rules: Option<Rules>,
    /// The settings' limits and those of the rules.
    limits: Vec<Limit>,
    moment: u64,
    /// The seconds that the front's steady clock told last; none before its first report.
    seconds: Option<u64>,
    random: [u8; 16],
}

impl Model for Admission {
    ghost use Rattle.std.specs.Prelude.{◌≤◌, map, string_bytes};
    ghost use Rattle.dav_core.specs.World.{last_moment};
    ghost use Rattle.dav_live.specs.Admission.{AdmissionView};

    ghost Value = { AdmissionView };

    ghost view = { λ a. record {
      prefix = string_bytes a.settings.prefix;
      hosts = map string_bytes a.settings.hosts.items;
      lock_time = a.settings.lock_time;
      strict = a.settings.strict;
      read_only = a.settings.read_only;
      users = a.users;
      rules = a.rules;
      own = a.settings.limits.items;
      limits = a.limits.items;
      only = a.settings.only.items;
      moment = a.moment;
      seconds = a.seconds;
      random = a.random;
      most_body = a.settings.most_body;
    } };

    ghost invariant = { λ a. a.moment ≤ last_moment };
}

// Whether a request has a body that would be read as an element tree far larger than it.
fn has_swollen_body(head: &Head<'_>, body: &Bytes) -> bool
    ensures { Decides result (HasSwollenBody head.now body.now) }
{
    takes_tree(head.method()) && is_swollen(body.as_slice())
}

// How many slashes a text has.
fn slashes_in(text: &[u8]) -> usize
    ensures { result ≡ slashes_in text.now }
{
    text.iter().filter(|b| **b == b'/').count()
}

// Whether a target or a Destination has too many slashes.
fn has_many_slashes(head: &Head<'_>) -> bool
    ensures { IsTrue result ↔ HasManySlashes head.now }
{
    let destination = head.value("destination").unwrap_or(&[]);
    slashes_in(head.target().as_bytes()) > MOST_SLASHES || slashes_in(destination) > MOST_SLASHES
}

// Whether an error says that a path isn't at or below the prefix.
fn is_illegal(error: &DavError) -> Result<bool, Stop>
    ensures is { IfOk result (λ is. IsTrue is ↔ (error.now ≡ IllegalPath)) }
    ensures ample { OnOk result (error.now ≢ Memory) }
{
    match error {
        DavError::IllegalPath => Ok(true),
        DavError::Memory => Err(Stop::Memory),
        _ => Ok(false),
    }
}

// Whether a head's target names a path that isn't at or below the prefix.
fn is_outside(alloc: Global, head: &Head<'_>, prefix: &str) -> Result<bool, Stop>
    ensures { IfOk result (λ is. IsTrue is ↔ IsOutside prefix.now head.now) }
{
    match &path_of(alloc, DavMethod::Get, head.target(), prefix) {
        Ok(_) => Ok(false),
        Err(error) => is_illegal(error),
    }
}

// The token for a lock that a request may create, where tokens of so many numbers were given.
fn token_for(
    alloc: Global,
    random: &[u8; 16],
    tokens: u64,
    head: &Head<'_>,
    body: &Bytes,
) -> Result<Option<String>, AllocError>
    ensures { IfOk result (λ token. IsTokenFor random.now tokens head.now.method body.now
        (option_map string_bytes token)) }
{
    if body.is_empty() {
        return Ok(None);
    }
    if !is_lock(head.method()) {
        return Ok(None);
    }
    Ok(Some(token_text(alloc, random, tokens)?))
}

// A request that isn't run.
fn refused(reason: Reason, user: String) -> Decision
    ensures { result ≡ Decision.Refused (record { reason = reason; user = user }) }
{
    Decision::Refused(RefusedRequest { reason, user })
}

impl Admission {
    ghost use Rattle.std.specs.Prelude.{◌≡◌, ◌≢◌, ◌⊎◌, ◌≤◌, ◌<◌, ◌↔◌, ◌++◌, ℕ, List, Option, Some, None, IfErr, IfOk, IfSome, IsFalse, IsTrue, MatchOption, codes, map, min, option_map, replicate, string_bytes};
    ghost use Rattle.std.specs.Bool.{Decides};
    ghost use Rattle.std.specs.Option.{is_some, option_copied};
    ghost use Rattle.dav_access.specs.Principals.{IsRefusal};
    ghost use Rattle.dav_access.specs.Rules.{Rules as RulesValue};
    ghost use Rattle.dav_access.specs.declared.limit.Limit.{Limit as LimitValue};
    ghost use Rattle.dav_access.specs.RulesText.{UserList};
    ghost use Rattle.dav_access.specs.Users.{IsName};
    ghost use Rattle.dav_core.specs.World.{last_moment};
    ghost use Rattle.dav_http.specs.Placed.{BeginsPast};
    ghost use Rattle.dav_live.specs.Full.{IsUnrun};
    ghost use Rattle.dav_live.specs.Admission.{HasManySlashes, HasLeaveIn, HasSwollenBody, IsDecision, IsClosedTo, IsElsewhereIn, IsHeadKept, IsHereIn, IsLetIn, IsMadeBy, LooksIn, MayAskIn, IsOutside, IsRequestOf, TellsSafe, after_clocks, gone_on, request_in, users_for, with_random};
    ghost use Rattle.dav_live.specs.Hosts.{value_of};
    ghost use Rattle.dav_live.specs.Lists.{IsFaulty, Reports};

    /// What a server with these settings, users, rules and limits goes by at a moment, at most the end of the year 9999.
    pub fn new(
        alloc: Global,
        settings: Settings,
        lists: Lists,
        moment: u64,
    ) -> Result<Admission, AllocError>
        ensures { IfOk result (λ a. a ≡ record {
          prefix = string_bytes settings.prefix;
          hosts = map string_bytes settings.hosts.items;
          lock_time = settings.lock_time;
          strict = settings.strict;
          read_only = settings.read_only;
          users = lists.users;
          rules = lists.rules;
          own = settings.limits.items;
          limits = settings.limits.items ++ lists.limits.items;
          only = settings.only.items;
          moment = min moment last_moment;
          seconds = None;
          random = replicate 16 0;
          most_body = settings.most_body;
        }) }
    {
        let limits = joined(alloc, &settings.limits, &lists.limits)?;
        Ok(Admission {
            alloc,
            settings,
            users: lists.users,
            rules: lists.rules,
            limits,
            moment: moment.min(LAST_MOMENT),
            seconds: None,
            random: [0; 16],
        })
    }

    /// The moment, in seconds since 1970, at most the end of the year 9999.
    pub fn moment(&self) -> u64
        ensures is { result ≡ self.now.moment }
        ensures date { result ≤ last_moment }
    {
        self.moment
    }

    /// The prefix of all paths.
    pub fn prefix(&self) -> &str
        ensures { result.now ≡ self.now.prefix }
    {
        self.settings.prefix.as_str()
    }

    /// The rules, if there are any.
    pub fn rules(&self) -> Option<&Rules>
        ensures { option_copied result ≡ self.now.rules }
    {
        self.rules.as_ref()
    }

    /// The limits.
    pub fn limits(&self) -> &[Limit]
        ensures { result.now ≡ self.now.limits }
    {
        &self.limits
    }

    /// Whether the front reported its clocks.
    pub fn has_begun(&self) -> bool
        ensures { result ≡ is_some self.now.seconds }
    {
        self.seconds.is_some()
    }

    /// What becomes of a request with this head and body, where tokens of so many numbers were given. Nothing changes.
    pub fn decide(&mut self, head: &Head<'_>, body: &Bytes, tokens: u64) -> Result<Decision, Stop>
        ensures same { self.new ≡ self.old }
        ensures decision { IfOk result (IsDecision self.old tokens head.now body.now) }
    {
        if asks_bad_port(head) {
            return Ok(refused(Reason::BadPort, String::new(self.alloc)));
        }
        if !is_for(head, &self.settings.hosts) {
            return Ok(refused(Reason::Misdirected, String::new(self.alloc)));
        }
        match self.principal_of(head) {
            Ok(principal) => self.admit_lean(principal, head, body, tokens),
            Err(Refusal::Unknown(shown)) => Ok(refused(Reason::Unauthorized, shown)),
            Err(Refusal::Memory) => Err(Stop::Memory),
        }
    }

    // Who makes a request: nobody who shows no name, where there are rules.
    fn principal_of(&mut self, head: &Head<'_>) -> Result<Option<String>, Refusal>
        ensures same { self.new ≡ self.old }
        ensures principal { IfOk result
            (λ name. IsMadeBy self.old head.now (option_map string_bytes name)) }
        ensures refusal { IfErr result (IsRefusal (users_for self.old head.now)
            (value_of (codes "authorization") head.now)) }
        ensures named { IfOk result (λ name. IfSome name (λ n. IsName (string_bytes n))) }
    {
        match head.value("authorization") {
            None if self.rules.is_some() => Ok(None),
            shown => principal_of(self.alloc, &mut self.users, shown),
        }
    }

    // The head that is run and kept of a request with this head.
    fn kept_of(&self, head: &Head<'_>) -> Result<Vec<u8>, Stop>
        ensures { IfOk result (λ kept. IsHeadKept self.now head.now kept.items) }
    {
        let (most, strict) = (self.settings.lock_time, self.settings.strict);
        Ok(head.kept(self.alloc, most, strict)?)
    }

    /// Whether a request has leave of which this head is kept, of this user, or of nobody.
    pub fn has_leave(&self, user: Option<&str>, kept: &[u8]) -> Result<bool, Stop>
        ensures { IfOk result (λ leave.
            Decides leave (HasLeaveIn self.now (option_copied user.entry) kept.now)) }
    {
        match &self.rules {
            Some(rules) => {
                let prefix = self.settings.prefix.as_str();
                Ok(has_leave(self.alloc, rules, user, kept, prefix)?)
            }
            None => Ok(true),
        }
    }

    // Whether this user may be told of folders on the way, or, where there are no users, nobody may.
    fn is_told(&self, user: Option<&str>) -> bool
        ensures { Decides result
            ((option_copied user.entry ≢ None) ⊎ (self.now.users ≡ None)) }
    {
        user.is_some() || self.users.is_none()
    }

    /// Whether a request may look, by rules, of which this head is kept, of this user, or, where there are no users, of nobody: at a
    /// folder on the way.
    pub fn may_look(&self, user: Option<&str>, kept: &[u8]) -> Result<bool, Stop>
        ensures { IfOk result (λ may.
            Decides may (LooksIn self.now (option_copied user.entry) kept.now)) }
    {
        if !self.is_told(user) {
            return Ok(false);
        }
        match &self.rules {
            Some(rules) => {
                let below = self.settings.prefix.as_str();
                Ok(may_look(self.alloc, rules, user, kept, below)?)
            }
            None => Ok(false),
        }
    }

    /// Whether a request has leave of which this head is kept, of this user, or of nobody, or may look.
    pub fn may_ask(&self, user: Option<&str>, kept: &[u8]) -> Result<bool, Stop>
        ensures { IfOk result (λ may.
            Decides may (MayAskIn self.now (option_copied user.entry) kept.now)) }
    {
        if self.has_leave(user, kept)? {
            return Ok(true);
        }
        self.may_look(user, kept)
    }

    /// Whether requests may only read, and this one may do more.
    pub fn is_closed_to(&self, head: &Head<'_>) -> bool
        ensures { IsTrue result ↔ IsClosedTo self.now head.now }
    {
        self.settings.read_only && !is_safe(head.method())
    }

    // Which part of a request names what is elsewhere of which this head is kept, if one does.
    fn elsewhere_in(&self, kept: &[u8]) -> Result<Option<Part>, Stop>
        ensures { IfOk result (λ part. MatchOption part (IsHereIn self.now kept.now)
            (IsElsewhereIn self.now kept.now)) }
    {
        let below = self.settings.prefix.as_str();
        Ok(elsewhere_in(self.alloc, &self.settings.only, kept, below)?)
    }

    // What becomes of a request that is let in, of this user: nothing is read of a body that would swell.
    fn admit_lean(
        &self,
        principal: Option<String>,
        head: &Head<'_>,
        body: &Bytes,
        tokens: u64,
    ) -> Result<Decision, Stop>
        requires let_in { IsLetIn self.now head.now (option_map string_bytes principal) }
        requires named { IfSome principal (λ n. IsName (string_bytes n)) }
        ensures { IfOk result (IsDecision self.now tokens head.now body.now) }
    {
        if has_swollen_body(head, body) {
            return Ok(refused_of(self.alloc, Reason::Swollen, principal));
        }
        Ok(self.admit(principal, head, body, tokens)?)
    }

    // What becomes of a request that is let in, of this user, whose body doesn't swell.
    fn admit(
        &self,
        principal: Option<String>,
        head: &Head<'_>,
        body: &Bytes,
        tokens: u64,
    ) -> Result<Decision, Stop>
        requires let_in { IsLetIn self.now head.now (option_map string_bytes principal) }
        requires named { IfSome principal (λ n. IsName (string_bytes n)) }
        requires lean { ¬ HasSwollenBody head.now body.now }
        ensures { IfOk result (IsDecision self.now tokens head.now body.now) }
    {
        if has_many_slashes(head) {
            return Ok(refused_of(self.alloc, Reason::TooLong, principal));
        }
        if is_outside(self.alloc, head, self.settings.prefix.as_str())? {
            return Ok(refused_of(self.alloc, Reason::Outside, principal));
        }
        if self.is_closed_to(head) {
            return Ok(refused_of(self.alloc, Reason::ReadOnly, principal));
        }
        let kept = self.kept_of(head)?;
        if !self.has_leave(principal.as_deref(), &kept)? {
            return self.look_of(principal, kept, head);
        }
        if let Some(part) = self.elsewhere_in(&kept)? {
            return Ok(refused_of(self.alloc, Reason::Elsewhere(part), principal));
        }
        if begins_past(self.alloc, head, self.settings.most_body)? {
            return Ok(refused_of(self.alloc, Reason::TooFar, principal));
        }
        Ok(Decision::Run(self.admitted(principal, kept, head, body, tokens)?))
    }

    // What becomes of a request that is let in, of which this head is kept, and that has no leave: it may look.
    fn look_of(
        &self,
        principal: Option<String>,
        bytes: Vec<u8>,
        head: &Head<'_>,
    ) -> Result<Decision, Stop>
        requires let_in { IsLetIn self.now head.now (option_map string_bytes principal) }
        requires few { ¬ HasManySlashes head.now }
        requires inside { ¬ IsOutside self.now.prefix head.now }
        requires open_to { ¬ IsClosedTo self.now head.now }
        requires kept { IsHeadKept self.now head.now bytes.items }
        requires lacks { ¬ HasLeaveIn self.now (option_map string_bytes principal) bytes.items }
        ensures { (tokens : ℕ) (body : List ℕ) → ¬ HasSwollenBody head.now body
            → IfOk result (IsDecision self.now tokens head.now body) }
    {
        if !self.may_look(principal.as_deref(), &bytes)? {
            return Ok(refused_of(self.alloc, reason_for(&principal), principal));
        }
        if let Some(part) = self.elsewhere_in(&bytes)? {
            return Ok(refused_of(self.alloc, Reason::Elsewhere(part), principal));
        }
        Ok(Decision::Look(Admitted {
            head: bytes,
            principal,
            token: None,
            only_reads: true,
        }))
    }

    // What is run of a request that is let in, and has leave, of which this head is kept.
    fn admitted(
        &self,
        principal: Option<String>,
        kept: Vec<u8>,
        head: &Head<'_>,
        body: &Bytes,
        tokens: u64,
    ) -> Result<Admitted, Stop>
        requires let_in { IsLetIn self.now head.now (option_map string_bytes principal) }
        requires few { ¬ HasManySlashes head.now }
        requires inside { ¬ IsOutside self.now.prefix head.now }
        requires open_to { ¬ IsClosedTo self.now head.now }
        requires kept { IsHeadKept self.now head.now kept.items }
        requires leave { HasLeaveIn self.now (option_map string_bytes principal) kept.items }
        requires here { IsHereIn self.now kept.items }
        requires within { ¬ BeginsPast self.now.most_body head.now }
        requires lean { ¬ HasSwollenBody head.now body.now }
        ensures request { IfOk result (λ admitted. IsRequestOf self.now tokens head.now body.now
            (request_in self.now admitted body.now)) }
        ensures safe { IfOk result (λ admitted. TellsSafe head.now admitted.only_reads) }
    {
        let token = token_for(self.alloc, &self.random, tokens, head, body)?;
        Ok(Admitted {
            head: kept,
            principal,
            token,
            only_reads: is_safe(head.method()),
        })
    }

    /// Takes the random bytes of the front, the first sixteen.
    pub fn hear_hello(&mut self, bytes: &[u8])
        ensures { self.new ≡ record self.old { random = with_random bytes.now self.old.random } }
    {
        let len = bytes.len().min(16);
        self.random[..len].copy_from_slice(&bytes[..len]);
    }

    /// Takes the list of the users and the rules with their limits anew, all or nothing. The fault of those that aren't taken: then all
    /// is as it was.
    pub fn hear_users(&mut self, bytes: &[u8]) -> Result<Option<ListsError>, Stop>
        ensures { IfOk result (λ fault. MatchOption fault
            ((users : UserList) × (rules : Option RulesValue) × (listed : List LimitValue)
            × Reports bytes.now users rules listed × (self.new ≡ record self.old {
              users = users;
              rules = rules;
              limits = self.old.own ++ listed;
            }))
            (λ f. IsFaulty bytes.now f × (self.new ≡ self.old))) }
    {
        let (users, access) = texts_in(bytes);
        match Lists::read(self.alloc, users, access) {
            Ok(lists) => {
                self.limits = joined(self.alloc, &self.settings.limits, &lists.limits)?;
                self.users = lists.users;
                self.rules = lists.rules;
                Ok(None)
            }
            Err(ListsError::Memory) => Err(Stop::Memory),
            Err(error) => Ok(Some(error)),
        }
    }

    /// Goes on from this moment, where it is later.
    pub fn go_on_from(&mut self, latest: u64)
        ensures { self.new ≡ gone_on latest self.old }
    {
        self.moment = self.moment.max(latest.min(LAST_MOMENT));
    }

    /// Takes the front's clocks: the seconds of the steady one, and the date, in seconds since 1970. Whether the moment went on.
    pub fn hear_clocks(&mut self, seconds: u64, date: u64) -> bool
        ensures clocks { self.new ≡ after_clocks self.old seconds date }
        ensures later { IsTrue result ↔ (self.old.moment < self.new.moment) }
        ensures still { IsFalse result → self.new.moment ≡ self.old.moment }
    {
        let moment = moment_after(self.moment, self.seconds, seconds, date);
        let is_later = self.moment < moment;
        self.moment = moment;
        self.seconds = Some(seconds);
        is_later
    }
}

// Why a request of this user isn't run that has no leave.
fn reason_for(user: &Option<String>) -> Reason
    ensures { result ≡ reason_for (option_map string_bytes user.now) }
{
    match user {
        Some(_) => Reason::Forbidden,
        None => Reason::Unauthorized,
    }
}

// A request that isn't run, of this user.
fn refused_of(alloc: Global, reason: Reason, user: Option<String>) -> Decision
    ensures { (refusal : RefusedValue) × (result ≡ Decision.Refused refusal)
        × (refusal.reason ≡ reason)
        × (string_bytes refusal.user ≡ unwrap_or (option_map string_bytes user) []) }
{
    refused(reason, user.unwrap_or(String::new(alloc)))
}

/// Fills the response to a request that isn't run with this status: 401 has the challenge (RFC 9110, section 11.6.1), and 507 is the error
/// that a limit would be passed (RFC 4331, section 6).
pub fn refuse_with(status: StatusCode, response: &mut Response) -> Result<(), AllocError>
    requires { IsBlank response.old }
    ensures { OnOk result (IsUnrun status response.new) }
{
    if status == StatusCode::UNAUTHORIZED {
        return refuse(Reason::Unauthorized, response);
    }
    if status == StatusCode::INSUFFICIENT_STORAGE {
        return fill_past(response);
    }
    response.status = status;
    Ok(())
}

/// Fills the response to a request that isn't run: its status, and the challenge of 401 (RFC 9110, section 11.6.1; RFC 7617, section
/// 2.1).
pub fn refuse(reason: Reason, response: &mut Response) -> Result<(), AllocError>
    requires { IsBlank response.old }
    ensures { OnOk result (IsResponse (status_of reason) (refusal_fields reason) [] response.new) }
{
    response.status = reason.status();
    match reason {
        Reason::Unauthorized => {
            let value = HeaderValue::from_static("Basic realm=\"vuldarg\", charset=\"UTF-8\"");
            response.add_header(WWW_AUTHENTICATE, value)
        }
        _ => Ok(()),
    }
}
