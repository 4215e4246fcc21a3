//! Laws of replies. Each function does nothing: its contract is a theorem on the definitions.
ghost use Rattle.dav_http.specs.Presented.{ShownIsReadAgain};
ghost use Rattle.dav_http.specs.Refused.{NoLaterSecondIsLost};
ghost use Rattle.dav_http.specs.Saved.{LoadsOneServer, SavedIsLoaded};
ghost use Rattle.dav_http.specs.Steps.{StepsAreOne};
ghost use Rattle.dav_http.specs.SentLaws.{CutsStaySendable, NewIsSendable, RunsAreReadAgain, StepsAreReadAgain, PrefixedOwnersMayBeSent, UsualOwnersMayBeSent};

/// The element tree that a request is answered with is read again by its client as the tree that it means, whatever the store refuses,
/// where it has at most 64 levels, each element that is written has at most 256 attributes and is within at most 256 declarations, and
/// the whole has at most 1 MiB. What the request brought and what was kept before may be sent; so what is kept then may be, also where
/// memory ran out (RFC 4918, section 8.2).
#[tactic(auto, using(crate::proofs::SentSteps::steps_are_read_again, crate::proofs::SentSteps::cuts_stay_sendable))]
pub fn replies_are_read_again()
    ensures answered { StepsAreReadAgain }
    ensures cut { CutsStaySendable }
{}

/// So is the tree of each reply of a run of such requests, from a new server on.
#[tactic(auto, using(crate::proofs::SentSteps::runs_are_read_again, crate::proofs::SentSteps::new_is_sendable))]
pub fn runs_are_read_again()
    ensures run { RunsAreReadAgain }
    ensures new { NewIsSendable }
{}

/// The server keeps the owner that a LOCK tells, with the prefix `D`. So kept it may be sent where it is as the standard has it: of the
/// namespace `DAV:`, without attributes (RFC 4918, section 14.17).
#[tactic(auto, using(crate::proofs::SentOwners::usual_owners_may_be_sent))]
pub fn usual_owners_may_be_sent()
    ensures { UsualOwnersMayBeSent }
{}

/// An owner with attributes, or of another namespace, gets the prefix before: so each tree that may be sent may be sent as a
/// body (RFC 4918, section 14.17).
#[tactic(auto, using(crate::proofs::SentOwners::prefixed_owners_may_be_sent))]
pub fn prefixed_owners_may_be_sent()
    ensures { PrefixedOwnersMayBeSent }
{}

/// A request has one answer: any two steps for it from one server have the same reply, and leave the same server.
pub fn steps_are_one()
    ensures { StepsAreOne }
{}

/// What was saved of a server is loaded as the same server, and bytes are loaded as one server.
pub fn saved_is_loaded()
    ensures saved { SavedIsLoaded }
    ensures one { LoadsOneServer }
{}

/// An update that is run loses no change of a later second: where it has If-Unmodified-Since with a date, and no If-Match, what is at its
/// target was changed at that moment or before (RFC 9110, section 13.1.4). Two changes of one second have one moment: of these it says
/// nothing, and an entity tag tells them apart.
#[tactic(auto, using(crate::proofs::RefusedLemmas::no_later_second_is_lost))]
pub fn no_later_second_is_lost()
    ensures { NoLaterSecondIsLost }
{}

/// What a client is told in XML it can read, as it is and as it is shown to a PROPFIND, within the same limits (RFC 4918, section 8.2).
#[tactic(auto, using(crate::proofs::ShownLemmas::shown_is_read_again))]
pub fn shown_is_read_again()
    ensures { ShownIsReadAgain }
{}
