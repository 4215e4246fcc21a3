//! How much of something, as a word.
ghost use Rattle.std.specs.Prelude.{◌≡◌, ◌<◌, ◌^◌, ℕ, List, MatchOption};
ghost use Rattle.std.specs.Str.Parse.{IsNumeral, digits_value};
ghost use Rattle.dav_access.specs.Amounts.{EndsIn, IsAmount, IsTimes};

use crate::text::before_back;

// What stands before one of two letters at the end of a word.
fn before<'w>(word: &'w str, letter: &str, capital: &str) -> Option<&'w str>
    ensures { MatchOption result
        ((front : List ℕ) → ¬ EndsIn letter.now capital.now word.now front)
        (λ front. EndsIn letter.now capital.now word.now front.now) }
{
    match before_back(word, letter) {
        Some(front) => Some(front),
        None => before_back(word, capital),
    }
}

// The number of decimal digits.
fn value_of(digits: &str) -> Option<u64>
    ensures { MatchOption result ((number : ℕ) → ¬ IsTimes digits.now 1 number)
        (IsTimes digits.now 1) }
{
    if digits.starts_with('+') {
        return None;
    }
    digits.parse::<u64>().ok()
}

// So many times the number of decimal digits.
fn times(digits: &str, times: u64) -> Option<u64>
    requires { 0 < times }
    ensures { MatchOption result ((number : ℕ) → ¬ IsTimes digits.now times number)
        (IsTimes digits.now times) }
{
    value_of(digits)?.checked_mul(times)
}

/// The number that a word is: decimal digits, which may end in `k`, `m` or `g` of 1,024. `None`
/// where it is none, or none below 2 ^ 64.
pub fn amount_of(word: &str) -> Option<u64>
    ensures { MatchOption result ((number : ℕ) → ¬ IsAmount word.now number) (IsAmount word.now) }
{
    if let Some(digits) = before(word, "k", "K") {
        return times(digits, 1 << 10);
    }
    if let Some(digits) = before(word, "m", "M") {
        return times(digits, 1 << 20);
    }
    if let Some(digits) = before(word, "g", "G") {
        return times(digits, 1 << 30);
    }
    times(word, 1)
}
