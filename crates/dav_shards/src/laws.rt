//! Laws of servers that have some folders alone. Each function does nothing: its contract is a theorem on the definitions.
ghost use Rattle.dav_shards.specs.ShardLaws.{AnswersTellOfHere, ChangesStayHere, ChangesStayHereCut};

use dav_confined::laws::seen::requests_tell_what_they_read;

/// The answer to a GET, HEAD, OPTIONS or PROPFIND that names nothing elsewhere tells of what is in the folders that a server has, and of
/// the locks that cover it, and of nothing else: a server that has these folders alone gives the same reply, byte for byte, as one that
/// has all.
pub fn answers_tell_of_here()
    ensures { AnswersTellOfHere }
{
    requests_tell_what_they_read();
}

/// A request that names nothing elsewhere changes nothing elsewhere, whoever makes it, whatever is locked, whatever the store refuses,
/// and where memory runs out in its step.
pub fn changes_stay_here()
    ensures step { ChangesStayHere }
    ensures cut { ChangesStayHereCut }
{}
