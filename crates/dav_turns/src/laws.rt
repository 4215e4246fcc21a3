//! Laws of turns. Each function does nothing: its contract is a theorem on the definitions.
ghost use Rattle.dav_turns.specs.Laws.{BodiesFit, OrdersAnswerWhatCame, ReadsOnlyAtRest, ReportsHaveOneReading, TurnsHappen};
ghost use Rattle.dav_turns.specs.Streams.{StreamsAreTurns};
ghost use Rattle.dav_turns.specs.Turns.{keeping};

use crate::keeper::Keeper;

/// All that is ordered for a slot, from the report that a connection came to it on, are answers to
/// what came on it.
pub fn orders_answer_what_came<K: Keeper>()
    ensures turns { TurnsHappen
        (keeping K.judges K.answers K.greeted K.listed K.placed K.passed K.marked K.kept) }
    ensures answers { OrdersAnswerWhatCame
        (keeping K.judges K.answers K.greeted K.listed K.placed K.passed K.marked K.kept) }
{}

/// The front is to read on a connection only where each request that came is answered, and all was
/// sent.
pub fn reads_are_at_rest<K: Keeper>()
    ensures { ReadsOnlyAtRest
        (keeping K.judges K.answers K.greeted K.listed K.placed K.passed K.marked K.kept) }
{}

/// The bodies that are being read never have, all together, more bytes than they may.
pub fn bodies_fit<K: Keeper>()
    ensures { BodiesFit
        (keeping K.judges K.answers K.greeted K.listed K.placed K.passed K.marked K.kept) }
{}

/// In whatever pieces the reports come: turns hear each whole one once and in order, where each is
/// given what the one before left and what came since.
pub fn streams_are_turns<K: Keeper>()
    ensures { StreamsAreTurns
        (keeping K.judges K.answers K.greeted K.listed K.placed K.passed K.marked K.kept) }
{}

/// Bytes are read as reports in one way.
pub fn reports_have_one_reading()
    ensures { ReportsHaveOneReading }
{}
