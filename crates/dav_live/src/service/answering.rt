//! A request is answered: it is let in, and run.
ghost use Rattle.std.specs.Prelude.{◌≡◌, ◌≤◌, ◌==◌, ◌++◌, ◌∷◌, [], IfOk, OnOk, codes, if◌then◌else◌, option_map, string_bytes};
ghost use Rattle.std.specs.Option.{option_copied};
ghost use Rattle.dav_core.specs.World.{last_moment};
ghost use Rattle.dav_kept.specs.Records.{IsRecord};
ghost use Rattle.dav_live.specs.Admission.{AdmissionView, request_in};
ghost use Rattle.dav_live.specs.Serving.{IsDated};
ghost use Rattle.http_server.specs.Response.{fields_of};

use crate::admission::{Admitted, Decision, refuse, refuse_with};
use crate::ends::{ByRules, Ends};
use crate::full::fill_full;
use crate::rejection::is_plain_read;
use crate::service::{Service, stop_of};
use crate::told::Replied;
use crate::words::{explain, len_told};
use bytes::Bytes;
use dav_http::{Head, TimeRequest, time_request};
use dav_kept::{Keeps, Request};
use dav_wire::{Answerer, Asked, Rejection, Stop};
use http::StatusCode;
use http_header::{DATE, HeaderName, HeaderValue};
use http_server::Response;
use httpdate::HttpDate;
use std::alloc::{AllocError, Global};

impl<H: Ends + Drop, J: Keeps + Drop> Service<H, J> {
    ghost use Rattle.std.specs.Prelude.{◌≡◌, ◌⊎◌, ℕ, List, [], None, Some, OnOk, option_map, string_bytes};
    ghost use Rattle.std.specs.Option.{option_copied};
    ghost use Rattle.http_server.specs.declared.response.Response.{Response as Sent};
    ghost use Rattle.http_server.specs.Response.{IsBlank, IsResponse};
    ghost use Rattle.dav_server.specs.Head.{IsHead};
    ghost use Rattle.dav_live.specs.Numbered.{HasNumber};
    ghost use Rattle.dav_live.specs.Answers.{IsKeptFrom};
    ghost use Rattle.dav_access.specs.Rules.{Rules as RulesValue};
    ghost use Rattle.dav_live.specs.Admission.{LooksIn, request_in};
    ghost use Rattle.dav_live.specs.Full.{IsUnrun};
    ghost use Rattle.dav_live.specs.Runs.{GoesOn};
    ghost use Rattle.dav_live.specs.Serving.{IsAccepted, IsReplyTo, IsResponseTo, IsRun, IsRunWhole, IsTimed, StaysAll, admission_of, belonging_to, held_of, kept_of, logins_of};

    // Answers a request. 400 where the bytes of its head are none (RFC 9110, section 15.5.1).
    fn respond(&mut self, asked: &Asked, response: &mut Response) -> Result<(), Stop>
        requires { IsBlank response.old }
        ensures replies { OnOk result (IsReplyTo H.answers H.refuses H.looks (admission_of self.old)
            (logins_of self.old) (held_of self.old) asked.now response.new (held_of self.new)
            (logins_of self.new)) }
        ensures same { OnOk result (admission_of self.new ≡ admission_of self.old) }
        ensures goes_on { OnOk result
            (GoesOn H.answers J.is_clean J.kept (kept_of self.old) (kept_of self.new)) }
    {
        match Head::read(asked.head.as_slice()) {
            Some(head) => self.respond_in_time(&head, asked, response),
            None => {
                response.status = StatusCode::BAD_REQUEST;
                Ok(())
            }
        }
    }

    // Answers a request with this head, and notes that it was answered.
    pub(super) fn respond_to(
        &mut self,
        head: &Head<'_>,
        asked: &Asked,
        response: &mut Response,
    ) -> Result<(), Stop>
        requires head { IsHead asked.now.head head.now }
        requires blank { IsBlank response.old }
        ensures responds { OnOk result (IsResponseTo H.answers H.refuses H.looks
            (admission_of self.old) (held_of self.old) asked.now response.new (held_of self.new)) }
        ensures same { OnOk result (admission_of self.new ≡ admission_of self.old) }
        ensures logins { OnOk result (logins_of self.new ≡ logins_of self.old) }
        ensures goes_on { OnOk result
            (GoesOn H.answers J.is_clean J.kept (kept_of self.old) (kept_of self.new)) }
    {
        let tokens = self.kept.tokens();
        match self.admission.decide(head, &asked.body, tokens)? {
            Decision::Refused(refused) => {
                refuse(refused.reason, response)?;
                self.note(refused.user.as_str(), head, response)
            }
            Decision::Look(admitted) => {
                self.look_by_rules(&admitted, &asked.body, response)?;
                self.note(admitted.user(), head, response)
            }
            Decision::Run(admitted) => {
                self.run_if_allowed(&admitted, head, &asked.body, response)?;
                self.note(admitted.user(), head, response)
            }
        }
    }

    // Runs a request that was admitted, where the server doesn't refuse it.
    fn run_if_allowed(
        &mut self,
        admitted: &Admitted,
        head: &Head<'_>,
        body: &Bytes,
        response: &mut Response,
    ) -> Result<(), Stop>
        requires blank { IsBlank response.old }
        requires number { HasNumber (held_of self.old).tokens
            (option_map string_bytes admitted.now.token) }
        requires kept { IsKeptFrom head.now admitted.now.head.items }
        ensures ran { OnOk result
            (((status : ℕ) × H.refuses (admission_of self.old).rules (admission_of self.old).limits
            (held_of self.old).state head.now
            (request_in (admission_of self.old) admitted.now body.now) status
            × IsUnrun status response.new
            × (held_of self.new ≡ held_of self.old))
            ⊎ (((status : ℕ) → ¬ H.refuses (admission_of self.old).rules
            (admission_of self.old).limits (held_of self.old).state head.now
            (request_in (admission_of self.old) admitted.now body.now) status)
            × IsRunWhole H.answers (admission_of self.old) (held_of self.old)
            (request_in (admission_of self.old) admitted.now body.now) response.new
            (held_of self.new))) }
        ensures same { OnOk result (admission_of self.new ≡ admission_of self.old) }
        ensures logins { OnOk result (logins_of self.new ≡ logins_of self.old) }
        ensures goes_on { OnOk result
            (GoesOn H.answers J.is_clean J.kept (kept_of self.old) (kept_of self.new)) }
    {
        let request = request_in(self.admission.moment(), admitted, body);
        match self.kept.handler().refusal(
            self.admission.rules(),
            self.admission.limits(),
            head,
            &request,
        )? {
            Some(status) => {
                refuse_with(status, response)?;
                Ok(())
            }
            None => self.run_whole(admitted.only_reads, &request, response),
        }
    }

    // Answers a request that looks at a folder on the way.
    fn look_by_rules(
        &mut self,
        admitted: &Admitted,
        body: &Bytes,
        response: &mut Response,
    ) -> Result<(), Stop>
        requires blank { IsBlank response.old }
        requires looks { LooksIn (admission_of self.old)
            (option_map string_bytes admitted.now.principal) admitted.now.head.items }
        ensures looked { OnOk result ((rules : RulesValue)
            × ((admission_of self.old).rules ≡ Some rules)
            × H.looks rules (held_of self.old).state
            (request_in (admission_of self.old) admitted.now body.now) response.new) }
        ensures held { OnOk result (held_of self.new ≡ held_of self.old) }
        ensures same { OnOk result (admission_of self.new ≡ admission_of self.old) }
        ensures logins { OnOk result (logins_of self.new ≡ logins_of self.old) }
        ensures goes_on { OnOk result
            (GoesOn H.answers J.is_clean J.kept (kept_of self.old) (kept_of self.new)) }
    {
        let request = request_in(self.admission.moment(), admitted, body);
        let Some(rules) = self.admission.rules() else {
            unreachable!();
        };
        match self.kept.ask(&ByRules { rules }, &request, response) {
            Ok(()) => Ok(()),
            Err(error) => Err(stop_of(error)),
        }
    }

    // Notes that a request of this user was answered.
    pub(super) fn note(
        &mut self,
        user: &str,
        head: &Head<'_>,
        response: &Response,
    ) -> Result<(), Stop>
        ensures same { StaysAll self.old self.new }
        ensures logins { logins_of self.new ≡ logins_of self.old }
    {
        let reply = Replied {
            status: response.status.as_u16(),
            bytes: len_told(response),
        };
        Ok(self.told.note(self.admission.moment(), user, head, reply)?)
    }

    // Runs a request that the server doesn't refuse, and sets the time of the file that it brought.
    fn run_whole(
        &mut self,
        only_reads: bool,
        request: &Request<'_>,
        response: &mut Response,
    ) -> Result<(), Stop>
        requires blank { IsBlank response.old }
        requires number { HasNumber (held_of self.old).tokens request.now.token }
        ensures run { OnOk result (IsRunWhole H.answers (admission_of self.old)
            (held_of self.old) request.now response.new (held_of self.new)) }
        ensures same { OnOk result (admission_of self.new ≡ admission_of self.old) }
        ensures logins { OnOk result (logins_of self.new ≡ logins_of self.old) }
        ensures goes_on { OnOk result
            (GoesOn H.answers J.is_clean J.kept (kept_of self.old) (kept_of self.new)) }
    {
        self.run(only_reads, request, response)?;
        self.set_time(request, response)
    }

    // Sets the time of the file that a request brought which was run, where it told one, and that has leave.
    fn set_time(&mut self, request: &Request<'_>, response: &mut Response) -> Result<(), Stop>
        ensures timed { OnOk result (IsTimed H.answers (admission_of self.old) (held_of self.old)
            request.now response.old response.new (held_of self.new)) }
        ensures same { OnOk result (admission_of self.new ≡ admission_of self.old) }
        ensures logins { OnOk result (logins_of self.new ≡ logins_of self.old) }
        ensures goes_on { OnOk result
            (GoesOn H.answers J.is_clean J.kept (kept_of self.old) (kept_of self.new)) }
    {
        let Some(set) = time_request(self.alloc, request.head, response.status.as_u16())? else {
            return Ok(());
        };
        if !self.admission.has_leave(request.principal, &set.head)? {
            return Ok(());
        }
        let principal = text_of(self.alloc, request.principal)?;
        self.set_time_by(request.moment, principal.as_deref(), &set, response)
    }

    // Runs the request by which the time of a file is set that another one of this principal brought, and says so where it was.
    fn set_time_by<'r>(
        &mut self,
        moment: u64,
        principal: Option<&'r str>,
        set: &'r TimeRequest,
        response: &mut Response,
    ) -> Result<(), Stop>
        ensures set { OnOk result ((sent : Sent) × IsRun H.answers (held_of self.old) (record {
          moment = moment;
          principal = option_copied principal.entry;
          token = None;
          head = set.now.head.items;
          body = set.now.body;
        }) sent (held_of self.new) × IsAccepted sent.status response.old response.new) }
        ensures same { OnOk result (admission_of self.new ≡ admission_of self.old) }
        ensures logins { OnOk result (logins_of self.new ≡ logins_of self.old) }
        ensures goes_on { OnOk result
            (GoesOn H.answers J.is_clean J.kept (kept_of self.old) (kept_of self.new)) }
    {
        let own = request_of(moment, principal, None, &set.head, &set.body);
        let mut sent = Response::new(self.alloc);
        self.change(&own, &mut sent)?;
        add_accepted(sent.status, response)?;
        Ok(())
    }

    // Runs a request that the server doesn't refuse.
    fn run(
        &mut self,
        only_reads: bool,
        request: &Request<'_>,
        response: &mut Response,
    ) -> Result<(), Stop>
        requires blank { IsBlank response.old }
        requires number { HasNumber (held_of self.old).tokens request.now.token }
        ensures run { OnOk result (IsRun H.answers (held_of self.old) request.now response.new
            (held_of self.new)) }
        ensures same { OnOk result (admission_of self.new ≡ admission_of self.old) }
        ensures logins { OnOk result (logins_of self.new ≡ logins_of self.old) }
        ensures goes_on { OnOk result
            (GoesOn H.answers J.is_clean J.kept (kept_of self.old) (kept_of self.new)) }
    {
        if only_reads {
            self.look(request, response)
        } else {
            self.change(request, response)
        }
    }

    // Runs a request that only reads: it is never recorded, and needs no room.
    fn look(&mut self, request: &Request<'_>, response: &mut Response) -> Result<(), Stop>
        requires { IsBlank response.old }
        ensures run { OnOk result (IsRun H.answers (held_of self.old) request.now response.new
            (held_of self.new)) }
        ensures same { OnOk result (admission_of self.new ≡ admission_of self.old) }
        ensures logins { OnOk result (logins_of self.new ≡ logins_of self.old) }
        ensures goes_on { OnOk result
            (GoesOn H.answers J.is_clean J.kept (kept_of self.old) (kept_of self.new)) }
    {
        match self.kept.answer_safe(request, response) {
            Ok(()) => Ok(()),
            Err(error) => Err(stop_of(error)),
        }
    }

    // Runs a request that may change something; 507 where there is no room for what it may store, or for its record (RFC 4918, section
    // 11.5).
    pub(super) fn change(
        &mut self,
        request: &Request<'_>,
        response: &mut Response,
    ) -> Result<(), Stop>
        requires blank { IsBlank response.old }
        requires number { HasNumber (held_of self.old).tokens request.now.token }
        ensures run { OnOk result (IsRun H.answers (held_of self.old) request.now response.new
            (held_of self.new)) }
        ensures same { OnOk result (admission_of self.new ≡ admission_of self.old) }
        ensures logins { OnOk result (logins_of self.new ≡ logins_of self.old) }
        ensures goes_on { OnOk result
            (GoesOn H.answers J.is_clean J.kept (kept_of self.old) (kept_of self.new)) }
    {
        if !self.kept.handler().takes_room(request)? {
            fill_full(response)?;
            return Ok(());
        }
        match self.kept.answer(request, response) {
            Ok(Some(_)) => {
                see_record(request, response.status);
                Ok(())
            }
            Ok(None) => {
                fill_full(response)?;
                Ok(())
            }
            Err(error) => Err(stop_of(error)),
        }
    }
}

// The request that is run of one that was admitted.
fn request_in<'r>(moment: u64, admitted: &'r Admitted, body: &'r Bytes) -> Request<'r>
    ensures { (a : AdmissionView) → a.moment ≡ moment
        → result ≡ request_in a admitted.now body.now }
{
    request_of(
        moment,
        admitted.principal.as_deref(),
        admitted.token.as_deref(),
        &admitted.head,
        body,
    )
}

// An owned copy of a text, if there is one.
fn text_of(alloc: Global, text: Option<&str>) -> Result<Option<String>, AllocError>
    ensures { IfOk result (λ copy. option_map string_bytes copy ≡ option_copied text.entry) }
{
    match text {
        Some(text) => Ok(Some(String::from_str(alloc, text)?)),
        None => Ok(None),
    }
}

// A text, if there is one. A text that a function gives is known to be UTF-8, as a request wants it.
fn text_if_any(text: Option<&str>) -> Option<&str>
    ensures { option_copied result ≡ option_copied text.entry }
{
    text
}

/// A request of somebody, if it is known of whom. Its lengths are asked for as a request wants them known.
pub(crate) fn request_of<'r>(
    moment: u64,
    principal: Option<&'r str>,
    token: Option<&'r str>,
    head: &'r [u8],
    body: &'r Bytes,
) -> Request<'r>
    ensures { result ≡ record {
      moment = moment;
      principal = option_copied principal.entry;
      token = option_copied token.entry;
      head = head.now;
      body = body.now;
    } }
{
    let _ = (head.len(), body.len());
    let principal = text_if_any(principal);
    let token = text_if_any(token);
    Request {
        moment,
        principal,
        token,
        head,
        body,
    }
}

// Adds that a time is kept, where the request that set it was answered with this status.
fn add_accepted(status: StatusCode, response: &mut Response) -> Result<(), AllocError>
    ensures fields { OnOk result (fields_of response.new ≡ fields_of response.old
        ++ (if status == 207 then (codes "x-oc-mtime", codes "accepted") ∷ [] else [])) }
    ensures status { OnOk result (response.new.status ≡ response.old.status) }
    ensures body { OnOk result (response.new.body ≡ response.old.body) }
{
    if status != StatusCode::MULTI_STATUS {
        return Ok(());
    }
    let name = HeaderName::from_static("x-oc-mtime");
    response.add_header(name, HeaderValue::from_static("accepted"))
}

// Shows what a record of a request can be that was answered with this status.
fn see_record(request: &Request<'_>, status: StatusCode)
    ensures { IsRecord (record { request = request.now; status = status }) }
{
    let _ = (request.moment, status.as_u16());
}

/// Adds the date of a moment to a response (RFC 9110, section 6.6.1).
fn add_date(alloc: Global, moment: u64, response: &mut Response) -> Result<(), Stop>
    requires { moment ≤ last_moment }
    ensures { OnOk result (IsDated moment response.old response.new) }
{
    let Ok(date) = HttpDate::from_unix_secs(moment) else {
        unreachable!();
    };
    match HeaderValue::from_bytes(alloc, &date.to_bytes()) {
        Ok(value) => Ok(response.add_header(DATE, value)?),
        Err(_) => Err(Stop::Memory),
    }
}

impl<H: Ends + Drop, J: Keeps + Drop> Answerer for Service<H, J> {
    ghost use Rattle.std.specs.Prelude.{◌≡◌};
    ghost use Rattle.dav_live.specs.Serving.{IsJudged, Serves};

    ghost judges = { λ old head verdict new. IsJudged old head verdict new };

    ghost answers = { λ old asked response new.
        Serves H.answers H.refuses H.looks J.is_clean J.kept old asked response new };

    fn judge(&mut self, head: &[u8]) -> Result<Option<Rejection>, Stop> {
        if is_plain_read(head) {
            return Ok(None);
        }
        match Head::read(head) {
            Some(head) => self.judge_head(&head),
            None => Ok(None),
        }
    }

    fn hear_refused(&mut self, head: &[u8], status: u16) {
        self.note_refused(head, status);
    }

    fn answer(&mut self, asked: &Asked, response: &mut Response) -> Result<(), Stop> {
        let moment = self.admission.moment();
        self.is_asked = true;
        self.respond(asked, response)?;
        explain(response)?;
        add_date(self.alloc, moment, response)
    }
}
