//! Laws of the If header. Each function does nothing: its contract is a theorem on the definitions.
ghost use Rattle.dav_headers.specs.IfLaws.{SaysOneIf, HasConditions, TokensAreText, TokenIsAskedFor};

/// A text has at most one meaning as an If header: one list or more, each of one condition or more, whose tokens are
/// UTF-8.
pub fn if_has_one_reading()
    ensures one { SaysOneIf }
    ensures some { HasConditions }
    ensures tokens { TokensAreText }
{}

/// A token between `(<` and `>)` is asked for, and no other. It holds for each token in UTF-8 without white space
/// whose quotes are closed, with `>` only between quotes.
pub fn if_asks_for_a_token()
    ensures { TokenIsAskedFor }
{}
