//! What is said of a request by its head, whoever waits.
ghost use Rattle.std.specs.Prelude.{◌≡◌, [], option_map, string_bytes, unwrap_or};
ghost use Rattle.dav_live.specs.Verdicts.{rejection_without_leave};

use crate::admission::Admission;
use crate::rejection::{may_be_long, rejection_of};
use dav_access::Refusal;
use dav_http::Head;
use dav_wire::{Rejection, Stop};
use std::alloc::Global;

/// Why a request isn't taken, and the user that it says to be of.
#[derive(Drop)]
pub struct Rejected {
    pub why: Rejection,
    pub user: String,
}

impl Admission {
    ghost use Rattle.std.specs.Prelude.{◌≡◌, IfOk, MatchOption, option_map, string_bytes};
    ghost use Rattle.dav_live.specs.Admission.{IsMadeBy};
    ghost use Rattle.dav_live.specs.Verdicts.{IsRejected, IsSenderAsked, MayGoOn};

    /// Why a request isn't taken, by its head, whoever waits; none where it may go on. Nothing changes.
    pub fn judge(&mut self, head: &Head<'_>) -> Result<Option<Rejected>, Stop>
        ensures same { self.new ≡ self.old }
        ensures rejected { IfOk result (λ rejected. MatchOption rejected
            (MayGoOn self.old head.now)
            (λ r. IsRejected self.old head.now r.why (string_bytes r.user))) }
    {
        match rejection_of(head, &self.settings.hosts) {
            Some(why) => Ok(Some(rejected_for(why, String::new(self.alloc)))),
            None if may_be_long(head) => self.judge_sender(head),
            None => Ok(None),
        }
    }

    // Judges who makes a request, and whether that has leave (RFC 9110, sections 15.5.2 and 15.5.4).
    fn judge_sender(&mut self, head: &Head<'_>) -> Result<Option<Rejected>, Stop>
        requires { IsSenderAsked self.old head.now }
        ensures same { self.new ≡ self.old }
        ensures rejected { IfOk result (λ rejected. MatchOption rejected
            (MayGoOn self.old head.now)
            (λ r. IsRejected self.old head.now r.why (string_bytes r.user))) }
    {
        match self.principal_of(head) {
            Ok(principal) => self.judge_leave(principal, head),
            Err(Refusal::Unknown(shown)) => Ok(Some(rejected_for(Rejection::Unauthorized, shown))),
            Err(Refusal::Memory) => Err(Stop::Memory),
        }
    }

    // Judges whether a request has leave, of this user.
    fn judge_leave(
        &self,
        principal: Option<String>,
        head: &Head<'_>,
    ) -> Result<Option<Rejected>, Stop>
        requires asked { IsSenderAsked self.now head.now }
        requires made { IsMadeBy self.now head.now (option_map string_bytes principal) }
        ensures { IfOk result (λ rejected. MatchOption rejected (MayGoOn self.now head.now)
            (λ r. IsRejected self.now head.now r.why (string_bytes r.user))) }
    {
        let kept = self.kept_of(head)?;
        if self.may_ask(principal.as_deref(), &kept)? {
            return Ok(None);
        }
        Ok(Some(without_leave(self.alloc, principal)))
    }
}

// A request that isn't taken, for this reason, of this user.
fn rejected_for(why: Rejection, user: String) -> Rejected
    ensures { result ≡ record { why = why; user = user } }
{
    Rejected { why, user }
}

// A request of this user that has no leave.
fn without_leave(alloc: Global, user: Option<String>) -> Rejected
    ensures why { result.why ≡ rejection_without_leave (option_map string_bytes user) }
    ensures user { string_bytes result.user ≡ unwrap_or (option_map string_bytes user) [] }
{
    match user {
        Some(user) => rejected_for(Rejection::Forbidden, user),
        None => rejected_for(Rejection::Unauthorized, String::new(alloc)),
    }
}
