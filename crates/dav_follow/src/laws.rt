//! What holds of each turn of a server that follows another one. The function does nothing: its
//! contract is a theorem on the definitions.
ghost use Rattle.dav_follow.specs.Laws.{TurnsKeepNothing};

use crate::replays::Replays;

/// Whatever its turns hear and answer, nothing is left to be kept.
pub fn turns_keep_nothing<K: Replays>()
    ensures { TurnsKeepNothing K.judges K.answers K.greeted K.listed K.placed K.passed
        K.is_at_rest }
{}
