//! Laws of what a request may change.
ghost use Rattle.dav_confined.specs.Confined.{SparedPathsStay, SparedPathsStayCut, ReadingSparesPaths, PutSparesOthers, MkcolSparesOthers, ProppatchSparesOthers, LockSparesOthers, UnlockSparesPaths, DeleteSparesOthers, CopyMoveSparesOthers, DeleteKeepsOtherLocks, CopyMoveKeepsOtherLocks, UnlockKeepsOtherLocks};
ghost use Rattle.dav_confined.specs.ConfinedSteps.{StepsLeaveOthers, StepsLeaveOthersCut, StepsKeepOtherLocks, RunsLeaveOthers};
ghost use Rattle.dav_confined.specs.Reached.{KeepsOffUnreached, UnreadKeepsOff};

/// A plan that spares paths leaves their content, whatever the store refuses, whatever is locked, and also where memory runs out in it.
pub fn spared_paths_stay()
    ensures stay { SparedPathsStay }
    ensures cut { SparedPathsStayCut }
{}

/// The plan of a request changes what is at the path that it names, whoever makes it and whatever is locked: that of a PUT, PATCH, MKCOL,
/// PROPPATCH or LOCK what is at its target alone, that of a DELETE what is at its target or below it, that of a COPY what is at its
/// destination or below it, that of a MOVE what is at both or below them; others change nothing (RFC 4918, sections 9.1 to 9.11).
pub fn plans_change_what_is_named()
    ensures reading { ReadingSparesPaths }
    ensures put { PutSparesOthers }
    ensures mkcol { MkcolSparesOthers }
    ensures proppatch { ProppatchSparesOthers }
    ensures lock { LockSparesOthers }
    ensures unlock { UnlockSparesPaths }
    ensures delete { DeleteSparesOthers }
    ensures copy_move { CopyMoveSparesOthers }
{}

/// A DELETE, COPY or MOVE keeps the locks on paths that aren't at the paths that it changes, nor below them, whoever makes it; an UNLOCK
/// each lock but the one that its token and its target name.
pub fn plans_keep_other_locks()
    ensures delete { DeleteKeepsOtherLocks }
    ensures copy_move { CopyMoveKeepsOtherLocks }
    ensures unlock { UnlockKeepsOtherLocks }
{}

/// A request, from the bytes of its head on, changes what is at its target or below it, or, for COPY and MOVE, at the path that Destination
/// names or below it, as its method says, and nothing else: all other paths keep their content, whoever makes it, whatever is locked,
/// whatever the store refuses, and where memory runs out in the step; and so through a run. A lock on another path stands, unless the
/// request is an UNLOCK that names the lock, or hands in its token for a lock of its own (RFC 4918, sections 9.1 to 9.11).
pub fn requests_change_what_they_name()
    ensures step { StepsLeaveOthers }
    ensures cut { StepsLeaveOthersCut }
    ensures locks { StepsKeepOtherLocks }
    ensures run { RunsLeaveOthers }
{}

/// What is asked of a head tells which paths a request reaches (`reaches`): it keeps off all others, and one that isn't read off all.
pub fn requests_keep_off_what_they_do_not_reach()
    ensures asked { KeepsOffUnreached }
    ensures unread { UnreadKeepsOff }
{}
