//! Laws of a live server.
ghost use Rattle.dav_live.specs.Clock.{ClocksDontJump};
ghost use Rattle.dav_live.specs.Granted.{LivesAreSound, RepliesStayInGrants, TurnsStayInGrants, TurnsStaySound};
ghost use Rattle.dav_live.specs.Life.{FirstDaysBegin, RestartsChangeNothing, RestartsGoOn, RunsAreTheMachines};
ghost use Rattle.dav_live.specs.LifePromises.{LivesKeepPromises};
ghost use Rattle.dav_live.specs.Tokens.{TokensDiffer};
ghost use Rattle.dav_live.specs.Verdicts.{PlainReadsMayGoOn};

use dav_kept::Keeps;
use sqlite_disk::Disk;

/// Tokens of two numbers differ, whatever random bytes they are made of (RFC 4918, section 6.5).
pub fn tokens_differ()
    ensures { TokensDiffer }
{}

/// A clock never goes back, and doesn't jump where the date does: a lock ends when its time has passed, but for a second a minute (RFC
/// 4918, section 6.6).
pub fn clocks_dont_jump()
    ensures { ClocksDontJump }
{}

/// What is left to the answer, of the heads that are judged, may go on but where it has to wait (RFC 9110, section 15.5).
pub fn plain_reads_may_go_on()
    ensures { PlainReadsMayGoOn }
{}

/// A start goes on with what was: two servers over the same snapshot and blocks, with the same batch, hold the same.
pub fn restarts_change_nothing()
    ensures { RestartsChangeNothing }
{}

/// A run of records is a run of the machine, of the requests of these records in their order. So what `dav_server` proves of the
/// machine's runs holds of the server, over each restart.
pub fn runs_are_the_machines()
    ensures { RunsAreTheMachines }
{}

/// A live server keeps the promises of the machine and the headline over its whole life: each run of records whose tokens are those of
/// the numbers from 0 on has them, with no premise left (RFC 4918, sections 6 and 7).
pub fn lives_keep_promises()
    ensures { LivesKeepPromises }
{}

/// A first day begins a run, that of no records: so it is with each start before anything is kept.
pub fn first_days_begin<J: Keeps>()
    ensures { FirstDaysBegin J.has_read }
{}

/// A start goes on with the run that was, whatever a crash left of its journal, and whenever: it ran all records but perhaps those
/// of the batch, of which no reply was released; their tokens are those of the numbers from 0 on; and where it ran all, it holds
/// what was held.
pub fn restarts_go_on<J: Keeps>()
    ensures { RestartsGoOn J.kept J.has_read }
{}

/// Through each turn the content at paths stays where nobody who makes a request may write, by the rules of that moment, whatever is
/// asked, read anew or ended in between; and a server that is sound stays so through any turn.
pub fn turns_stay_in_grants<D: Disk>()
    ensures elsewhere { TurnsStayInGrants D.Disk }
    ensures sound { TurnsStaySound D.Disk }
{}

/// Each run of records from a new server leaves a sound one: so a server is sound from its first day on, over each restart.
pub fn lives_are_sound()
    ensures { LivesAreSound }
{}

/// The reply to a request with leave that only reads, of a path that its user may read, tells of what he may read, and of the locks that
/// cover it, and of nothing else.
pub fn replies_stay_in_grants()
    ensures { RepliesStayInGrants }
{}
