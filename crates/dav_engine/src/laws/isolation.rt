//! Laws of locked folders. Each function does nothing: its contract is a theorem on the definitions.
ghost use Rattle.dav_engine.specs.Alongside.{AlongsideAgree, SpareNumbersSuffice};
ghost use Rattle.dav_engine.specs.IsolatedPlans.{PutIsIsolated, MkcolIsIsolated, DeleteIsIsolated, OptionsIsIsolated, UnlockIsIsolated, LockIsIsolated, CopyMoveIsIsolated, PropfindIsIsolated, ProppatchIsIsolated};
ghost use Rattle.dav_engine.specs.Ending.{KeptLocksStand, KeptLocksStandCut, ReadingKeepsLocks, PutKeepsLocks, MkcolKeepsLocks, DeleteKeepsLocks, UnlockKeepsLocks, LockKeepsLocks, CopyMoveKeepsLocks, ProppatchKeepsLocks};
ghost use Rattle.dav_engine.specs.Guard.{FreeIsHeld, ParentFreeIsHeld, FreeIsApart, FreeIsUncovered, GrantedGuards, SharedGuards};
ghost use Rattle.dav_engine.specs.Inside.{FoldersAreAbove};
ghost use Rattle.dav_engine.specs.ListChanges.{ListsAreChanged, ListsAreChangedCut, ChangesKeepShared, ChangesBringTokens, ReadingChangesList, PutChangesList, MkcolChangesList, DeleteChangesList, CopyMoveChangesList, UnlockChangesList, LockChangesList, ProppatchChangesList};
ghost use Rattle.dav_engine.specs.Members.{PlansLeaveMembers, PlansLeaveMembersCut, ParentFreeIsNoMember, ReadingLeavesMembers, PutLeavesMembers, MkcolLeavesMembers, DeleteLeavesMembers, CopyMoveLeavesMembers, LockLeavesMembers, UnlockLeavesMembers, ProppatchLeavesMembers};
ghost use Rattle.dav_engine.specs.Sparing.{SparingLeavesCovered, SparingLeavesCoveredCut, SparingLeavesInside};
ghost use Rattle.dav_engine.specs.SparingPlans.{ReadingSpares, PutSpares, MkcolSpares, DeleteSpares, CopyMoveSpares, UnlockSpares, LockSpares, ProppatchSpares};

/// At a folder that a lock guards (exclusive, of infinite depth) and below it, a path is free exactly for the requester that
/// holds the lock, and strictly below it the folder above a path is. What is free with everything below, for any other requester, is apart from the folder. And what is free
/// for a requester that doesn't hold an exclusive lock isn't covered by it (RFC 4918, sections 6.2 and 7).
#[tactic(auto, using(crate::proofs::GuardedFolders::free_is_held, crate::proofs::GuardedFolders::free_is_apart, crate::proofs::GuardedFolders::free_is_uncovered))]
pub fn guarded_folders_are_free_for_holders()
    ensures held { FreeIsHeld }
    ensures parent { ParentFreeIsHeld }
    ensures apart { FreeIsApart }
    ensures uncovered { FreeIsUncovered }
{}

/// A plan that spares what an exclusive lock covers leaves the content there, whatever else is in the list of locks, whatever
/// the store refuses and where it runs out of memory. A plan that spares a guarded folder leaves what is inside, and the
/// folder stays guarded as long as the lock is in the list (RFC 4918, section 7).
pub fn sparing_plans_leave_locked_content()
    ensures covered { SparingLeavesCovered }
    ensures cut { SparingLeavesCoveredCut }
    ensures inside { SparingLeavesInside }
{}

/// PUT, PATCH, MKCOL, DELETE, COPY, MOVE and PROPPATCH of a client that doesn't hold an exclusive lock spare what it covers. Plans that only read spare
/// all, and so does an UNLOCK, whoever asks for it. A LOCK spares what an exclusive lock covers, whoever asks for it and whatever token
/// it brings; one whose own token isn't that lock's leaves a lock that guards its folder guarding it (RFC 4918, sections 7, 9.10 and
/// 9.11).
pub fn strangers_spare_what_is_locked()
    ensures reading { ReadingSpares }
    ensures put { PutSpares }
    ensures mkcol { MkcolSpares }
    ensures delete { DeleteSpares }
    ensures copy_move { CopyMoveSpares }
    ensures unlock { UnlockSpares }
    ensures lock { LockSpares }
    ensures proppatch { ProppatchSpares }
{}

/// A plan that leaves the list of a folder's members leaves the folder, and which names are directly below it and which of these
/// are folders, whatever the store refuses and where it runs out of memory. While an exclusive lock stands on the folder, of
/// either depth, each request that doesn't hold it has such a plan; so have, whoever asks for them, those that only read, an
/// UNLOCK and a PROPPATCH. Where the folder above a path is free for such a requester, the path isn't directly below the
/// lock's folder (RFC 4918, section 7.4).
pub fn strangers_leave_members()
    ensures stay { PlansLeaveMembers }
    ensures cut { PlansLeaveMembersCut }
    ensures parent { ParentFreeIsNoMember }
    ensures reading { ReadingLeavesMembers }
    ensures put { PutLeavesMembers }
    ensures mkcol { MkcolLeavesMembers }
    ensures delete { DeleteLeavesMembers }
    ensures copy_move { CopyMoveLeavesMembers }
    ensures unlock { UnlockLeavesMembers }
    ensures lock { LockLeavesMembers }
    ensures proppatch { ProppatchLeavesMembers }
{}

/// An isolated plan has the same outcome in two worlds that have the same content in a guarded folder, but
/// for change numbers and times, and leaves the same content there. PUT, PATCH, MKCOL, DELETE and PROPPATCH at the folder or below
/// it, and COPY and MOVE from there to there, with the guard's token as their only condition, have such plans; so have a LOCK,
/// which refreshes the guard or is refused, an UNLOCK with the guard's token, and any OPTIONS or PROPFIND there.
pub fn plans_agree_in_alike_worlds()
    ensures agree { AlongsideAgree }
    ensures put { PutIsIsolated }
    ensures mkcol { MkcolIsIsolated }
    ensures delete { DeleteIsIsolated }
    ensures copy_move { CopyMoveIsIsolated }
    ensures options { OptionsIsIsolated }
    ensures unlock { UnlockIsIsolated }
    ensures lock { LockIsIsolated }
    ensures propfind { PropfindIsIsolated }
    ensures proppatch { ProppatchIsIsolated }
{}

/// A plan that ends with a change number to spare found each number that it took.
#[tactic(auto, using(crate::proofs::NumberLemmas::spare_numbers_suffice))]
pub fn spare_numbers_suffice()
    ensures { SpareNumbersSuffice }
{}

/// A lock that is exclusive and of infinite depth, and that may be granted after locks of other tokens, guards its folder; so
/// does one that stands after them where locks that cover one path are shared. In a world there are folders above whatever is there (RFC 4918, sections 5.1 and 6.2).
pub fn granted_locks_guard_their_folders()
    ensures guards { GrantedGuards }
    ensures shared { SharedGuards }
    ensures above { FoldersAreAbove }
{}

/// A lock that a plan leaves in the list stands after it, whatever the store refuses, and also where memory runs out in the
/// plan. Plans that only read leave every lock, and so do PUT, PATCH, MKCOL and PROPPATCH, whoever
/// asks for them, a DELETE, COPY or MOVE of a client that doesn't hold the lock, an UNLOCK of another token, and a LOCK with another token for its
/// own lock (RFC 4918, sections 7, 9.6, 9.10 and 9.11).
pub fn kept_locks_stand()
    ensures stands { KeptLocksStand }
    ensures cut { KeptLocksStandCut }
    ensures reading { ReadingKeepsLocks }
    ensures put { PutKeepsLocks }
    ensures mkcol { MkcolKeepsLocks }
    ensures delete { DeleteKeepsLocks }
    ensures copy_move { CopyMoveKeepsLocks }
    ensures unlock { UnlockKeepsLocks }
    ensures lock { LockKeepsLocks }
    ensures proppatch { ProppatchKeepsLocks }
{}

/// Each change that a plan makes to the list of locks is a grant of a lock with the client's token where it may be granted, a
/// refresh, an unlock, or the end of the locks at a path and below it; also where memory runs out in the plan, and whatever the
/// store refuses. Plans that only read change no list, nor do PUT, PATCH, MKCOL and PROPPATCH (RFC 4918, sections 6.1, 7 and 9.11).
pub fn lists_are_changed()
    ensures changed { ListsAreChanged }
    ensures cut { ListsAreChangedCut }
    ensures reading { ReadingChangesList }
    ensures put { PutChangesList }
    ensures mkcol { MkcolChangesList }
    ensures delete { DeleteChangesList }
    ensures copy_move { CopyMoveChangesList }
    ensures unlock { UnlockChangesList }
    ensures lock { LockChangesList }
    ensures proppatch { ProppatchChangesList }
{}

/// Through such changes locks that cover one path stay shared, and no lock has a token but those that locks had before, and the
/// one that the client handed in (RFC 4918, sections 6.2 and 6.5).
pub fn changed_lists_stay_shared()
    ensures shared { ChangesKeepShared }
    ensures tokens { ChangesBringTokens }
{}
