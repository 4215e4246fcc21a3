//! Laws of locked folders. Each function does nothing: its contract is a theorem on the definitions.
ghost use Rattle.dav_server.specs.Ending.{NoLockEnds, NoLockEndsCut};
ghost use Rattle.dav_server.specs.Isolation.{GetIsIsolated, StrangersLeaveAlike, HoldersAnswerAlike, HoldersAreAlone, KnownHaveAlone, TurnsHaveAlone, OneAlone, RunsFindNumbers, SpareNumbersSufficeInRuns};
ghost use Rattle.dav_server.specs.LockLists.{StepsChangeLists, StepsChangeListsCut, TokensAreHandedIn};
ghost use Rattle.dav_server.specs.Membership.{MembersAreKept, MembersAreKeptCut};
ghost use Rattle.dav_server.specs.Passing.{NoLockIsPassed, NoLockIsPassedCut};

/// What an exclusive lock covers when a request begins keeps its content, unless the request names the lock's token as the
/// lock's principal, whatever else is in the list of locks, whatever the store refuses, and where memory runs out in the
/// step (RFC 4918, section 7).
pub fn no_lock_is_passed()
    ensures step { NoLockIsPassed }
    ensures cut { NoLockIsPassedCut }
{}

/// While an exclusive lock stands on a folder, of either depth, the folder stays, and so does the list of its members, which names are
/// directly below it and which of them are folders, unless the request names the lock's token as the lock's principal; whatever else
/// is in the list of locks, whatever the store refuses, and where memory runs out in the step (RFC 4918, section 7.4).
pub fn members_are_kept()
    ensures step { MembersAreKept }
    ensures cut { MembersAreKeptCut }
{}

/// A lock that is in the list when a request begins is in the list after it, perhaps refreshed, unless the request names the
/// lock's token or hands it in for a lock of its own; whatever the store refuses, and where memory runs out in the step (RFC 4918, sections 7 and 9.11).
pub fn no_lock_ends()
    ensures step { NoLockEnds }
    ensures cut { NoLockEndsCut }
{}

/// Two states are alike where a folder has the same content in both, folders are above it, and a lock guards it; numbers and times may differ.
/// A request that neither names the lock as its principal nor hands in its token leaves what is inside, and a state alike another as it
/// was. A holder's request has the same answers in both states, and leaves them alike; the plan of its GET or HEAD is isolated,
/// as those of the other methods do (RFC 4918, section 7).
pub fn steps_agree_in_alike_states()
    ensures stranger { StrangersLeaveAlike }
    ensures holder { HoldersAnswerAlike }
    ensures get { GetIsIsolated }
{}

/// While a folder is guarded by a lock and no request hands in the lock's token for a lock of its own, the folder and the answers to its holder are those of the holder's requests alone
/// (RFC 4918, section 7).
pub fn holders_are_alone()
    ensures { HoldersAreAlone }
{}

/// Where it is known of each request whether it names a lock as its principal, requests have the holder's requests among
/// them, in order. [`Exchange::names`](crate::exchange::Exchange::names) decides it of a request. Whether bytes are a head
/// is a relation that the law doesn't decide: so of any requests at all it says that it can't be that there is no such list.
/// There is one at most.
pub fn holders_turns_are_known()
    ensures known { KnownHaveAlone }
    ensures all { TurnsHaveAlone }
    ensures one { OneAlone }
{}

/// A run that ends with a change number to spare found each number that it took, so no call of it met used-up numbers; the
/// same of a run while a lock stands.
pub fn spare_numbers_suffice_in_runs()
    ensures runs { RunsFindNumbers }
    ensures under { SpareNumbersSufficeInRuns }
{}

/// A request's step changes the list of locks only by grants of a lock with the request's token where it may be granted, by
/// refreshes, by unlocks and by ends of the locks at a path and below it; also where memory runs out in the step. So in a run
/// that begins with no locks each lock has a token that was handed in with a request (RFC 4918, sections 6.1 and 6.5).
pub fn steps_change_lists()
    ensures step { StepsChangeLists }
    ensures cut { StepsChangeListsCut }
    ensures tokens { TokensAreHandedIn }
{}
