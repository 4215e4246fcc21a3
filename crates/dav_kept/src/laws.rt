//! What is true of records and their runs.
ghost use Rattle.dav_kept.specs.Life.{FollowersGoOn, LeftCanBeLeftOut, LivesAreRuns, ReadersChangeNothing, RunsAreOne};
ghost use Rattle.dav_kept.specs.Records.{OneReading};

use crate::handler::Handles;

/// Bytes are those of one list of records at most: so what a journal has is one run, and no other.
pub fn bytes_have_one_reading()
    ensures { OneReading }
{}

/// From its first day on, after each answer, each commit, each snapshot and each restart, the state
/// of a server is that of the run of all its records: of those that the snapshot stands for, of
/// those in its journal and of those in its batch.
pub fn lives_are_runs<H: Handles>()
    ensures { LivesAreRuns H.answers H.saved H.is_saveable H.loads }
{}

/// A restart over the same snapshot and blocks runs the same records; where each answer and each
/// load is determined, it gives the same state.
pub fn runs_are_one<H: Handles>()
    ensures { RunsAreOne H.answers H.loads }
{}

/// A request that left the state needs no record: the run without it gives the same state.
pub fn left_can_be_left_out<H: Handles>()
    ensures { LeftCanBeLeftOut H.answers }
{}

/// A server that goes on with what another one keeps holds what that one does: the state of the run of
/// all records in the blocks.
pub fn followers_go_on<H: Handles>()
    ensures { FollowersGoOn H.answers H.loads }
{}

/// Answers that leave nothing to be kept change nothing.
pub fn readers_change_nothing<H: Handles>()
    ensures { ReadersChangeNothing H.answers }
{}
