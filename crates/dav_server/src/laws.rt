//! Laws of heads, their headers, targets and runs. Each function does nothing: its contract is a theorem on the definitions.
ghost use Rattle.dav_server.specs.Head.{OneHead};
ghost use Rattle.dav_server.specs.Headers.{KeepsValues};
ghost use Rattle.dav_server.specs.Headline.{HeadlineHolds};
ghost use Rattle.dav_server.specs.StoredLaws.{PatchesAreMade, StoredComesBack};
ghost use Rattle.dav_server.specs.HrefLaws.{TargetsAreServed, TextsLeadBack, StatusesLeadBack, PropertiesLeadBack, RepliesLeadBack, ListingsAreWhole, UnrefusedStepsList};
ghost use Rattle.dav_server.specs.Leaving.{CreateOnlyFails, EarlyErrorsLeave, ErrorsLeave, RefusedLeaves};
ghost use Rattle.dav_server.specs.PathLaws.{OneTextOnePath};
ghost use Rattle.dav_server.specs.Promises.{RunsPromise};
ghost use Rattle.dav_server.specs.Run.{RunsAreDetermined, RunsSplit, RunsJoin, RunsEnd, ShortnessIsKept, CutsAreLikeSteps, RequestsHavePlans, RequestsHaveRuns};
ghost use Rattle.dav_server.specs.TagLaws.{TagsTellBytes, NotModifiedIsTrue, ReadingLeaves, ReadingLeavesCut, RunsKeepWorlds, RunsKeepWorldsCut};
ghost use Rattle.dav_server.specs.Target.{OneOutcome};
ghost use Rattle.dav_server.specs.UpdateLaws.{NoLostUpdate};
ghost use Rattle.dav_server.specs.WriteLaws.{CreateOnlyKeeps};

use dav_engine::laws::cuts_are_like_refusals;

pub mod isolation;

/// Bytes are a head in one way at most.
pub fn heads_say_one_thing()
    ensures { OneHead }
{}

/// In the map of a head's headers a name has the values of the fields with this name, in order, ASCII case ignored
/// (RFC 9110, sections 5.1 and 5.3).
#[tactic(auto, using(crate::proofs::HeaderLemmas::keeps_values))]
pub fn headers_keep_values()
    ensures { KeepsValues }
{}

/// The target of a request results in one path, or in one error.
pub fn targets_name_one_thing()
    ensures { OneOutcome }
{}

/// One text names one path: a text that begins with a slash results in one path, or in one error, as the target of a request and as
/// the Destination of a request whose own target was cut after the same prefix (RFC 4918, section 10.3).
#[tactic(auto, using(crate::proofs::PathLemmas::one_text_one_path))]
pub fn one_text_names_one_path()
    ensures { OneTextOnePath }
{}

/// Hrefs lead back: the text in a URL of each path of a server, as the target of a request, names this path, whatever the method is and
/// whatever the bytes of its names are. So the href of each response of a multistatus leads to the path that it was written for, with a
/// status or with properties; and each response that a request is answered with tells of a path at its target or below it, or for COPY and MOVE at its
/// destination or below it, whatever the store refuses (RFC 4918, sections 8.3 and 14.7).
pub fn hrefs_lead_back()
    ensures served { TargetsAreServed }
    ensures texts { TextsLeadBack }
    ensures statuses { StatusesLeadBack }
    ensures properties { PropertiesLeadBack }
    ensures replies { RepliesLeadBack }
{}

/// Where the store never ran out of memory, a run is determined: from one store and one list of locks the same requests
/// have one run at most, with one list of replies, and it leaves one store and one list.
#[tactic(auto, using(crate::proofs::MeansLemmas::runs_are_determined))]
pub fn runs_are_determined()
    ensures { RunsAreDetermined }
{}

/// A run splits at any place, so the state before each request has a name; and a run followed by one from what it leaves
/// is a run.
#[tactic(auto, using(crate::proofs::RunLaws::runs_split, crate::proofs::RunLaws::runs_join))]
pub fn runs_split()
    ensures split { RunsSplit }
    ensures join { RunsJoin }
{}

/// Where the store hasn't run out of memory after a run, it hadn't before it: so it hadn't at any place where the run splits.
#[tactic(auto, using(crate::proofs::RunLaws::shortness_is_kept))]
pub fn shortness_is_kept()
    ensures { ShortnessIsKept }
{}

/// A step in which memory runs out has changed nothing; or it leaves the store as a step with memory enough does where some calls of the
/// store are refused, and the list of locks as that step does, or as it was before the request. So what holds of what a step leaves,
/// whatever the store refuses, holds of the files where memory runs out.
#[tactic(auto, using(crate::proofs::CutSteps::cuts_are_like_steps))]
pub fn cuts_are_like_steps()
    ensures { CutsAreLikeSteps }
{
    cuts_are_like_refusals();
}

/// No request is without a plan, whatever its bytes are. Whether bytes are a head, or a text names a path, is a relation that
/// the law doesn't decide: so it says that it can't be that there is none, and not which one it is.
#[tactic(auto, using(crate::proofs::SomePlan::requests_have_plans))]
pub fn requests_have_plans()
    ensures { RequestsHavePlans }
{}

/// Requests that each result in a plan have a run from every state, in which the store doesn't run out of memory; from a
/// state where it never did, that run is the only one (`runs_are_determined`). And since no request is without a plan, no
/// requests at all are without such a run.
#[tactic(auto, using(crate::proofs::RunLaws::runs_end, crate::proofs::RunLaws::requests_have_runs))]
pub fn runs_end()
    ensures planned { RunsEnd }
    ensures all { RequestsHaveRuns }
{}

/// Equal entity tags show equal bytes: from a world, in any run and under any refusals, where two GETs are answered with
/// one tag, at any paths and moments, they are answered with the same bytes (RFC 9110, section 8.8.1).
pub fn tags_tell_bytes()
    ensures { TagsTellBytes }
{}

/// A 304 is true: where If-None-Match named one tag, the file has the bytes that any GET of the run shows with that tag,
/// before or after it (RFC 9110, section 15.4.5).
pub fn not_modified_is_true()
    ensures { NotModifiedIsTrue }
{}

/// A PROPFIND that is answered 207 tells, each once and in order, of its target at Depth 0, also of each member at Depth 1, of the members
/// alone without a depth, and at Depth infinity of the target and of all that is below it, a folder before what is in it; each by an href
/// that leads to it. So it is where the store refuses neither to list what is there nor to tell of it, and what is listed has fewer than
/// 2^64 names. A store to which no refusal is left to come, and that doesn't run out of memory, refuses neither (RFC 4918, sections 9.1
/// and 10.2).
#[tactic(auto, using(crate::proofs::ListingLemmas::listings_are_whole, crate::proofs::ListingLemmas::unrefused_steps_list))]
pub fn listings_are_whole()
    ensures whole { ListingsAreWhole }
    ensures unrefused { UnrefusedStepsList }
{}

/// A property that a client stores comes back as the same element: a PROPPATCH that is answered 207 made all changes of its body that
/// were to be stored, or none; and each element that it stored of what is at a path, a PROPFIND of the path with a depth tells next, in its
/// first response, whatever it asks for, where it is answered 207, no refusal is left to come and memory suffices (RFC 4918, sections 4,
/// 9.1 and 9.2).
pub fn stored_properties_come_back()
    ensures patched { PatchesAreMade }
    ensures told { StoredComesBack }
{}

/// GET, HEAD, OPTIONS and PROPFIND leave the world and the list of locks, whatever the store refuses, and where memory runs out (RFC
/// 9110, section 9.2.1).
#[tactic(auto, using(crate::proofs::MeansWorld::reads_leave_all, crate::proofs::CutSteps::reads_leave_cut))]
pub fn reading_leaves_all()
    ensures step { ReadingLeaves }
    ensures cut { ReadingLeavesCut }
{}

/// A run that begins with a world ends with one, whatever the store refuses, and where memory runs out in it (RFC 4918, section 5.1).
#[tactic(auto, using(crate::proofs::MeansWorld::runs_keep_worlds))]
pub fn runs_keep_worlds()
    ensures whole { RunsKeepWorlds }
    ensures cut { RunsKeepWorldsCut }
{
    cuts_are_like_refusals();
}

/// A PUT or PATCH whose If-None-Match is `*`, at a path where something is, leaves the world and the list of locks: what is
/// there is never overwritten, whatever the store refuses, and the request isn't answered with success (RFC 9110, section 13.1.2).
#[tactic(auto, using(crate::proofs::WriteLemmas::create_only_keeps, crate::proofs::WriteLemmas::create_only_fails))]
pub fn creating_only_keeps_what_is_there()
    ensures keeps { CreateOnlyKeeps }
    ensures fails { CreateOnlyFails }
{}

/// No update is lost: where a GET, or a PUT of a whole file, was answered with an entity tag, and a later PUT, PATCH, DELETE,
/// COPY, MOVE or PROPPATCH asks for that tag (its If-Match says the tag alone, or its If has one list, for its own path, in which the
/// tag stands, and not under Not), and is answered with success, the file at its path has right before it the bytes that the client
/// was told, whatever came in between and whatever the store refused
/// (RFC 9110, section 13.1.1; RFC 4918, section 10.4).
pub fn no_update_is_lost()
    ensures { NoLostUpdate }
{}

/// A request that is answered 412, 416 or 423 leaves the world and the list of locks: a condition that fails, a range that can't be
/// satisfied, or a lock that conflicts, changes nothing, whatever the store refuses. Apart is a PUT or PATCH that is answered 416 as the
/// store refuses to seek; and of the list a LOCK with If-None-Match `*` that is answered 412 as the store refuses its empty file, and
/// hands in a token that a lock has already (RFC 9110, sections 13.2.1 and 15.5.17; RFC 4918, section 7).
pub fn refused_requests_leave_all()
    ensures { RefusedLeaves }
{}

/// A request that ends in an error leaves the world and the list of locks, whatever its method is and whatever the store refuses. (A DELETE,
/// COPY or MOVE that was carried out in part doesn't end in an error: it reports what wasn't done, maybe by a status alone.)
/// Apart is a PUT or PATCH whose error says that the store refused a call on the file that it opened (a 416 that comes before, as the
/// range can't be satisfied, is none); and of the list a LOCK with a token that a lock has already, whose error says that the store
/// refused its empty file: it takes back the lock of that token. That error is the store's, 409, or 412 with If-None-Match `*` (RFC
/// 9110, section 15; RFC 4918, section 9.10).
pub fn errors_leave_all()
    ensures { ErrorsLeave }
{}

/// A request whose reply is that to an error leaves the world and the list of locks, in a world of which no call is refused but by its own
/// rules, unless its method with this status may come after a change (`may_come_late`): of a PUT or PATCH 404, 413 and 500; of a LOCK all but
/// 400, 415 and 423. What a DELETE, COPY or MOVE did in part is told by another reply (RFC 9110, section 15; RFC 4918, section 13).
#[tactic(auto, using(crate::proofs::EarlyErrors::early_errors_leave))]
pub fn early_errors_leave_all()
    ensures { EarlyErrorsLeave }
{}

/// Each run of requests that are made at moments that HTTP can write keeps the promises of the record `Promises`, whatever the store refuses
/// (RFC 9110, sections 8.8.1, 9.2.1, 13.1, 13.2.1 and 15.4.5; RFC 4918, sections 6.1, 6.2, 7, 7.4, 8.3, 9.11 and 10.4).
#[tactic(auto, using(crate::proofs::PromiseLemmas::runs_promise))]
pub fn runs_keep_promises()
    ensures { RunsPromise }
{}

/// The headline: from an empty server whose store may refuse any call, while an exclusive lock of infinite depth stands on a
/// folder and every request that names its token as its principal is a holder's, the folder and the answers to the holder are those of
/// the holder's requests run alone from the grant; every reply is the machine's, equal tags show equal bytes, and without its token
/// no exclusive lock is passed and no lock ends. No two requests hand in one token (RFC 4918, sections 6.5 and 7).
#[tactic(auto, using(crate::proofs::HeadlineLemmas::headline_holds))]
pub fn from_an_empty_server()
    ensures { HeadlineHolds }
{}
