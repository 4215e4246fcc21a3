//! Laws of methods. Each function does nothing: its contract is a theorem on the definitions.
ghost use Rattle.dav_engine.specs.CopyLaws.{CopiesLeaveCopies, CopyLeavesCopies, CopyLeavesOneCopy, MoveLeavesMoved, RefusedCopyMoveLeavesAll, UnrefusedCopiesCopyAll};
ghost use Rattle.dav_engine.specs.Date.{DatesOfMoments};
ghost use Rattle.dav_engine.specs.InternetDate.{WritesInternetDates};
ghost use Rattle.dav_engine.specs.LanguageLaws.{AcceptedLanguagesAreRead};
ghost use Rattle.dav_engine.specs.LockLaws.{LockGrants, LockRefreshes, RefusedLockLeavesAll, UnrefusedLockLeavesAll};
ghost use Rattle.dav_engine.specs.OnePlan.{OneReadingOfConditions, OnePutPlan, OneMkcolPlan, OneDeletePlan, OneUnlockPlan, OneLockPlan, OneCopyMovePlan, OnePropfindPlan, OneProppatchPlan};
ghost use Rattle.dav_engine.specs.PlanLaws.{PlansAreDetermined, PlansEnd, OutOfMemoryIsARefusal, CutsAreLikeRefusals, CallsAreAnsweredOrRefused, RefusedIsNotAnswered};
ghost use Rattle.dav_engine.specs.StoredLaws.{SetIsKept, PatchedIsKept, KeptIsTold};
ghost use Rattle.dav_engine.specs.PropfindLaws.{PropertiesLeadBack, ResponsesLeadBack, ListingsAreWhole, UnrefusedRunsList};
ghost use Rattle.dav_engine.specs.ProppatchLaws.{RefusedProppatchLeavesAll, ProppatchMakesAllOrNone};
ghost use Rattle.dav_engine.specs.RemovalLaws.{RemovalsLeaveSurvivors, ReportedAreThere, DeletesLeaveSurvivors, NoContentMeansGone, RefusedDeleteLeavesAll};
ghost use Rattle.dav_engine.specs.UnlockLaws.{UnlockEndsLock, RefusedUnlockLeavesAll};
ghost use Rattle.dav_engine.specs.WorldLaws.{ReadingLeavesAll, OptionsOnlyReads, PropfindOnlyReads, ProperPlansKeepWorlds, PutIsProper, MkcolIsProper, DeleteIsProper, UnlockIsProper, LockIsProper, RefusedPutLeavesAll, RefusedMkcolLeavesAll, CreatesOnly, CreateOnlyLeavesAll, PlansRemember, CopyMoveIsProper, PropfindIsProper, ProppatchIsProper};

pub mod isolation;

/// Where the store never ran out of memory, the outcome of a plan is determined, and so are the store and the list of locks
/// that it leaves.
#[tactic(auto, using(crate::proofs::PlanAnswers::plans_are_determined))]
pub fn plans_are_determined()
    ensures { PlansAreDetermined }
{}

/// Every plan ends with some outcome, from any store and any list of locks.
#[tactic(auto, using(crate::proofs::PlanAnswers::plans_end))]
pub fn plans_end()
    ensures { PlansEnd }
{}

/// A store that runs out of memory is like one that refuses some of its calls.
#[tactic(auto, using(crate::proofs::PlanAnswers::want_is_like_refusals))]
pub fn want_is_like_refusals()
    ensures { OutOfMemoryIsARefusal }
{}

/// A plan in which memory runs out leaves the store as it does where some of its calls are refused.
#[tactic(auto, using(crate::proofs::PlanAnswers::cuts_are_like_refusals))]
pub fn cuts_are_like_refusals()
    ensures { CutsAreLikeRefusals }
{}

/// Of the calls of a kind that a plan makes none is refused, or one is; and not both, where the store never ran out of memory.
#[tactic(auto, using(crate::proofs::RefusalLemmas::calls_are_answered_or_refused, crate::proofs::RefusalLemmas::refused_is_not_answered))]
pub fn calls_are_answered_or_refused()
    ensures either { CallsAreAnsweredOrRefused }
    ensures both { RefusedIsNotAnswered }
{}

/// Headers say one thing as conditions, and a PUT, PATCH, MKCOL, DELETE, COPY, MOVE, LOCK, UNLOCK, PROPFIND or PROPPATCH has one
/// plan at most: its headers, its path, its body and its client determine what it does (RFC 9110, section 9.3.4; RFC 4918, sections
/// 9.1 to 9.3, 9.6, 9.8 to 9.11 and 10.4).
pub fn requests_have_one_plan()
    ensures conditions { OneReadingOfConditions }
    ensures put { OnePutPlan }
    ensures mkcol { OneMkcolPlan }
    ensures delete { OneDeletePlan }
    ensures unlock { OneUnlockPlan }
    ensures lock { OneLockPlan }
    ensures copy_move { OneCopyMovePlan }
    ensures propfind { OnePropfindPlan }
    ensures proppatch { OneProppatchPlan }
{}

/// The date that is written for a moment is the one of the calendar with so many seconds since 1970 (RFC 9110, section
/// 5.6.7).
#[tactic(auto, using(crate::proofs::DateLemmas::dates_of_moments))]
pub fn dates_are_those_of_moments()
    ensures { DatesOfMoments }
{}

/// What is written for a moment as the internet writes it is its date and time of day in jiff's calendar, as jiff writes
/// them, and a `Z` (RFC 3339, section 5.6).
#[tactic(auto, using(crate::proofs::InternetDates::writes_internet_dates))]
pub fn dates_are_as_jiff_writes_them()
    ensures { WritesInternetDates }
{}

/// The languages that a PROPPATCH may set are those that the header Content-Language may have (RFC 9110, section 8.5; RFC 4918,
/// section 15.3).
#[tactic(auto, using(crate::proofs::LanguageLemmas::accepted_languages_are_read))]
pub fn accepted_languages_are_read()
    ensures { AcceptedLanguagesAreRead }
{}

/// A plan that only reads leaves the world and the list of locks, whatever the store refuses: safe methods are
/// read-only (RFC 9110, section 9.2.1). The plans of OPTIONS and PROPFIND are such.
pub fn reading_leaves_all()
    ensures leaves { ReadingLeavesAll }
    ensures options { OptionsOnlyReads }
    ensures propfind { PropfindOnlyReads }
{}

/// A plan of calls that a caller may make keeps what makes a world a world (RFC 4918, section 5.1), and change numbers
/// never fall. The plans of PUT, PATCH, MKCOL and LOCK are such plans, for a path of names and a moment until the end of the year
/// 9999, and so are those of DELETE, COPY, MOVE, UNLOCK, PROPFIND and PROPPATCH, for any path.
#[tactic(auto, using(crate::proofs::WorldAnswers::proper_plans_keep_worlds, crate::proofs::PutWorld::put_is_proper, crate::proofs::PutWorld::mkcol_is_proper, crate::proofs::DeleteWorld::delete_is_proper, crate::proofs::UnlockPlans::unlock_is_proper, crate::proofs::LockPlans::lock_is_proper, crate::proofs::CopyWorld::copymove_is_proper, crate::proofs::PropertyPlans::propfind_is_proper, crate::proofs::PropertyPlans::proppatch_is_proper))]
pub fn proper_plans_keep_worlds()
    ensures kept { ProperPlansKeepWorlds }
    ensures put { PutIsProper }
    ensures mkcol { MkcolIsProper }
    ensures delete { DeleteIsProper }
    ensures unlock { UnlockIsProper }
    ensures lock { LockIsProper }
    ensures copy_move { CopyMoveIsProper }
    ensures propfind { PropfindIsProper }
    ensures proppatch { ProppatchIsProper }
{}

/// An error of the checks before PUT, PATCH or MKCOL changes anything is the outcome, and leaves the world and the list of
/// locks as they are: a condition that fails, or a lock that conflicts (RFC 9110, section 13.2.1; RFC 4918, section 7).
pub fn refused_writes_leave_all()
    ensures put { RefusedPutLeavesAll }
    ensures mkcol { RefusedMkcolLeavesAll }
{}

/// A PUT or PATCH with If-None-Match `*` that succeeds found nothing at its path, whatever the store refused; and where
/// something is at its path, it leaves the world and the list of locks (RFC 9110, section 13.1.2).
pub fn creates_only()
    ensures nothing { CreatesOnly }
    ensures kept { CreateOnlyLeavesAll }
{}

/// What once holds of an entity tag holds from then on: whatever carries its number is a file of the same bytes, so a
/// strong tag is never used for other bytes (RFC 9110, section 8.8.1).
pub fn numbers_tell_bytes()
    ensures { PlansRemember }
{}

/// A removal leaves exactly what survives its faults, whatever the store refuses: each path that a fault names, all above it, and
/// all that the fault withholds. Each path that it reports is there (RFC 4918, section 9.6.1).
#[tactic(auto, using(crate::proofs::SurvivorLemmas::survivors, crate::proofs::NamedLemmas::reported_are_there))]
pub fn removals_leave_survivors()
    ensures survivors { RemovalsLeaveSurvivors }
    ensures there { ReportedAreThere }
{}

/// A DELETE leaves exactly what survives the faults that its reply reports, something is at each path that it reports, and the
/// locks at its path and below it end exactly where there is none; so after a 204 nothing is at the path or below it. An error
/// leaves the world and the list of locks as they are (RFC 4918, section 9.6).
#[tactic(auto, using(crate::proofs::DeletedWorlds::deletes_leave_survivors, crate::proofs::DeletedWorlds::no_content_means_gone, crate::proofs::DeletedWorlds::refused_delete_leaves_all))]
pub fn deletes_leave_survivors()
    ensures survivors { DeletesLeaveSurvivors }
    ensures gone { NoContentMeansGone }
    ensures refused { RefusedDeleteLeavesAll }
{}

/// A copy to a path that isn't the source or above it leaves a copy of each file and folder below the source, unless a fault names it
/// or what is above it: a file with its bytes and dead properties. Where nothing was, nothing else is there. All else is as it was but
/// for times, and so are the source and the list of locks, whatever the store refuses (RFC 4918, sections 9.8.2 and 9.8.3).
#[tactic(auto, using(crate::proofs::CopiedLemmas::copies_leave_copies))]
pub fn copies_leave_copies()
    ensures { CopiesLeaveCopies }
{}

/// A COPY with everything below its path removes what is found at its destination, and leaves copies there. Where something isn't
/// removed, its reply reports that, and the source and the list of locks stay as they are. Else its reply reports what wasn't copied,
/// and the locks at a destination that was replaced, and below it, end (RFC 4918, sections 9.8.3 to 9.8.5).
pub fn copy_leaves_copies()
    ensures { CopyLeavesCopies }
{}

/// A COPY at Depth 0 removes a file that is found at its destination, and leaves there a copy of the file at its path, or a folder; where
/// the store answers that something is at the place of the folder, that stays. Nothing else changes. Where the file isn't removed, or the
/// store refuses the copy, its reply reports that (RFC 4918, sections 9.8.3 to 9.8.5).
pub fn copy_at_depth_0_leaves_one_copy()
    ensures { CopyLeavesOneCopy }
{}

/// A copy of which no call is refused, neither by the store nor by the call's own rules, copies all: it reports no path that memory
/// can hold (RFC 4918, section 9.8.3).
pub fn unrefused_copies_copy_all()
    ensures { UnrefusedCopiesCopyAll }
{}

/// A MOVE removes what is found at its destination, and brings all that is at its path or below it there, with its change numbers;
/// nothing is left at its path or below it, and the locks at both paths and below them end. Where something isn't removed, or the store
/// refuses to move, its reply reports that, and all but what was removed is as it was (RFC 4918, sections 7.6 and 9.9).
pub fn move_leaves_moved()
    ensures { MoveLeavesMoved }
{}

/// An error of a COPY or MOVE leaves the world and the list of locks as they are (RFC 4918, sections 9.8 and 9.9).
#[tactic(auto, using(crate::proofs::CopyEnds::refused_copymove_leaves_all))]
pub fn refused_copies_leave_all()
    ensures { RefusedCopyMoveLeavesAll }
{}

/// An UNLOCK that succeeds ends the lock that the token in its Lock-Token and its path mean, and no other; an error leaves the list
/// of locks as it is. The world stays, whatever the store refuses (RFC 4918, section 9.11).
#[tactic(auto, using(crate::proofs::UnlockPlans::unlock_ends_lock, crate::proofs::UnlockPlans::refused_unlock_leaves_all))]
pub fn unlocks_end_one_lock()
    ensures ends { UnlockEndsLock }
    ensures refused { RefusedUnlockLeavesAll }
{}

/// A LOCK with a body that succeeds grants one lock: it has the client's token, is on the path, that of a folder with a slash at
/// its end, has the client's principal, and the scope, the depth, the owner and the timeout that are asked for. All other locks
/// stay as they are; so does the world, but where nothing was at the path an empty file is made there. One without a body
/// gives the lock that the only token submitted and the path, which isn't `*`, mean a new timeout, and leaves all else. An error
/// leaves the world; it leaves the list of locks too where no lock has the client's token, where it is no error of the empty file,
/// as 400, 405 and 423 never are, nor 412 unless If-None-Match is `*`, and where the store refused no file.
/// All of this whatever the store refuses (RFC 4918, sections 7 and 9.10).
#[tactic(auto, using(crate::proofs::LockWorlds::lock_grants, crate::proofs::LockWorlds::lock_refreshes, crate::proofs::LockWorlds::refused_lock_leaves_all, crate::proofs::LockWorlds::unrefused_lock_leaves_all))]
pub fn locks_are_granted_or_refreshed()
    ensures grants { LockGrants }
    ensures refreshes { LockRefreshes }
    ensures refused { RefusedLockLeavesAll }
    ensures unrefused { UnrefusedLockLeavesAll }
{}

/// Hrefs lead back: the one href of what is told of a path, as the target of a request, is to this path; and each response to a
/// PROPFIND is of a path at its target or below it, whatever the store refuses. Where it refuses neither to list what is there nor to
/// tell of it, the responses are, each once, of the target at Depth 0, of it and its members at Depth 1, of these alone without a
/// depth, and at Depth infinity of the target and all that is below it, a folder before what is in it; a path has fewer names than
/// 2^64. A store to which no refusal is left to come, and that doesn't run out of memory, is such (RFC 4918, sections 8.3, 9.1, 10.2
/// and 14.7).
pub fn hrefs_lead_back()
    ensures properties { PropertiesLeadBack }
    ensures responses { ResponsesLeadBack }
    ensures listings { ListingsAreWhole }
    ensures unrefused { UnrefusedRunsList }
{}

/// A property that a client stores is told again, as the same element: after changes that were made at a path, as by a PROPPATCH that
/// answers 200 for each property, what is there keeps each element that they set last; and each PROPFIND with a depth, whatever it asks for, tells of its target each element that is kept,
/// whole, where it is answered 207, no refusal is left to come and memory suffices (RFC 4918, sections 4, 9.1 and 9.2).
pub fn stored_properties_are_told()
    ensures set { SetIsKept }
    ensures patched { PatchedIsKept }
    ensures told { KeptIsTold }
{}

/// A PROPPATCH that is answered made all changes that are to be stored, and answers each with 200; or it made none, and answers one
/// otherwise. An error leaves the world, and either way the list of locks stays as it is, whatever the store refuses (RFC 4918,
/// section 9.2).
pub fn patches_make_all_or_none()
    ensures made { ProppatchMakesAllOrNone }
    ensures refused { RefusedProppatchLeavesAll }
{}
