//! What ends locks whose time has passed, how much room there is, and which requests aren't run.
ghost use Rattle.std.specs.Prelude.{◌≡◌, ℕ, List, Option, IfOk, OnOk, option_map, string_bytes};
ghost use Rattle.std.specs.Option.{option_copied};
ghost use Rattle.dav_access.specs.Rules.{Rules as RulesValue};
ghost use Rattle.dav_access.specs.declared.limit.Limit.{Limit as LimitValue};
ghost use Rattle.dav_http.specs.Refused.{Tells};
ghost use Rattle.http_server.specs.declared.response.Response.{Response as Sent};
ghost use Rattle.http_server.specs.Response.{IsBlank};
ghost use Rattle.dav_kept.specs.Records.{RequestView};
ghost use Rattle.dav_server.specs.Head.{Request};
ghost use Rattle.dav_live.specs.Answers.{IsKeptFrom};

use dav_access::{Limit, Rules};
use dav_core::errors::NoMemory;
use dav_http::Head;
use dav_kept::{Asks, HandleError, Handles, Request as AskedRequest};
use http::StatusCode;
use http_server::Response;

/// A handler of locks that end in time, of room, and of requests that aren't run.
pub trait Ends: Handles {
    // The request with this head ends the first lock whose time has passed at a moment; none where there is no such lock.
    ghost ends: { Self → ℕ → Option (List ℕ) → Type 0 };

    /// The head of the request that ends the first lock whose time has passed, if there is one.
    fn next_end(&self, now: u64) -> Result<Option<String>, NoMemory>
        ensures { IfOk result (λ head. ends self.now now (option_map string_bytes head)) };

    /// Sees that so many bytes can still be stored, for who asks for the room. The state stays the same.
    fn see_room(&self, available: u64);

    /// Takes the room for what a request may store. False where less is left than that: then none is taken. The state stays the same.
    fn takes_room(&self, request: &AskedRequest<'_>) -> Result<bool, NoMemory>;

    /// Sees that these limits hold from now on, for who asks for the room: how much is at their paths and below them is counted once,
    /// with the next request. The state stays the same.
    fn see_limits(&self, limits: Vec<Limit>);

    // By these rules, if there are any, and by these limits this request that came, and would be run as that one, isn't run in this
    // state, and is answered with this status.
    ghost refuses: { Option RulesValue → List LimitValue → Self → Request → RequestView → ℕ
        → Type 0 };

    /// With which status a request is answered, where it isn't to be run, by rules, where there are any, and by limits; `None` where it
    /// is. It came with this head, of which it has what is kept.
    fn refusal(
        &self,
        rules: Option<&Rules>,
        limits: &[Limit],
        head: &Head<'_>,
        request: &AskedRequest<'_>,
    ) -> Result<Option<StatusCode>, NoMemory>
        requires { IsKeptFrom head.now request.now.head }
        ensures { IfOk result (λ status.
            Tells (refuses (option_copied rules.entry) limits.now self.now head.now request.now)
            status) };

    // By these rules, this is the response to a request that looks at a folder on the way to what its principal may read.
    ghost looks: { RulesValue → Self → RequestView → Sent → Type 0 };

    /// Fills the response, which comes blank, to a request that looks at a folder on the way to what its principal may read. The
    /// state stays the same.
    fn look(
        &mut self,
        rules: &Rules,
        request: &AskedRequest<'_>,
        response: &mut Response,
    ) -> Result<(), HandleError>
        requires { IsBlank response.old }
        ensures looks { OnOk result (looks rules.now self.old request.now response.new) }
        ensures same { OnOk result (self.new ≡ self.old) };
}

/// Who looks at a folder on the way, by these rules.
#[derive(Clone, Copy)]
pub struct ByRules<'r> {
    pub rules: &'r Rules,
}

impl<'r, H: Ends> Asks<H> for ByRules<'r> {
    ghost tells = { λ by server q sent. H.looks by.rules.now server q sent };

    fn ask(
        &self,
        handler: &mut H,
        request: &AskedRequest<'_>,
        response: &mut Response,
    ) -> Result<(), HandleError> {
        handler.look(self.rules, request, response)
    }
}
