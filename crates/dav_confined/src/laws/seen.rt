//! Laws of what the answer to a request tells of.
ghost use Rattle.dav_confined.specs.Seen.{IfReadsSeen, OptionsReadsSeen, PropfindReadsSeen, ReadersAgree};
ghost use Rattle.dav_confined.specs.SeenSteps.{GetReadsSeen, StepsAnswerAlike};

/// A plan that reads at some paths alone has the same outcome from two servers that agree there, in what is there and in the locks that
/// cover it, whatever else they hold. An OPTIONS reads what is at its target, the conditions of an If the paths that its lists speak of,
/// and a PROPFIND what is at its target and below it.
pub fn readers_agree()
    ensures agree { ReadersAgree }
    ensures options { OptionsReadsSeen }
    ensures conditions { IfReadsSeen }
    ensures propfind { PropfindReadsSeen }
{}

/// A GET, HEAD, OPTIONS or PROPFIND is answered alike, byte for byte, by two servers that agree at its target and below it, and at the
/// paths that the lists of its If speak of, whatever else they hold.
pub fn requests_tell_what_they_read()
    ensures get { GetReadsSeen }
    ensures alike { StepsAnswerAlike }
{}
