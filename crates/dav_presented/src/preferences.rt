//! What a request says of how much it wants to be told (RFC 7240; RFC 8144, section 2).
ghost use Rattle.std.specs.Prelude.{◌≡◌, ◌<◌, ◌==◌, option_map};
ghost use Rattle.std.specs.List.{find, flat_map, list_any};
ghost use Rattle.std.specs.Option.{option_copied};
ghost use Rattle.dav_headers.specs.Elements.{elements_of, trimmed};
ghost use Rattle.dav_presented.specs.Preferences as spec;

use crate::fields::only_text;
use http_header::HeaderValue;

// Whether two texts are the same in letters of either case.
#[tactic(auto, using(crate::proofs::TypeLemmas::same_letters))]
fn is_same_word(text: &str, other: &str) -> bool
    ensures { result ≡ spec.is_same_word text.now other.now }
{
    text.eq_ignore_ascii_case(other)
}

// What comes in a text before the first such character.
fn before(sign: char, text: &str) -> &str
    requires { sign < 128 }
    ensures { result.now ≡ spec.before sign text.now }
{
    match text.split_once(sign) {
        Some((front, _)) => front,
        None => text,
    }
}

// What comes in a text after the first such character.
fn after(sign: char, text: &str) -> &str
    requires { sign < 128 }
    ensures { result.now ≡ spec.after sign text.now }
{
    match text.split_once(sign) {
        Some((_, back)) => back,
        None => "",
    }
}

// The text without the ASCII white space at its ends.
fn trimmed(text: &str) -> &str
    ensures { result.now ≡ trimmed text.now }
{
    text.trim_ascii()
}

// The name of a preference.
fn name_in(preference: &str) -> &str
    ensures { result.now ≡ spec.name_in preference.now }
{
    trimmed(before('=', before(';', preference)))
}

// The value of a preference.
fn value_in(preference: &str) -> &str
    ensures { result.now ≡ spec.value_in preference.now }
{
    trimmed(after('=', before(';', preference)))
}

// Whether a preference is `return`.
fn is_return(preference: &str) -> bool
    ensures { result ≡ spec.is_return preference.now }
{
    is_same_word(name_in(preference), "return")
}

// The first preference `return` among the list elements of a text.
fn return_among(text: &str) -> Option<&str>
    ensures { option_map (λ t. t.now) result ≡ find spec.is_return (elements_of text.now) }
{
    for element in text.split(',') {
        let preference = trimmed(element);
        if is_return(preference) {
            return Some(preference);
        }
    }
    None
}

// Whether a text has a quotation mark.
fn has_quote(text: &str) -> bool
    ensures { result ≡ list_any (λ b. b == 34) text.now }
{
    text.as_bytes().contains(&b'"')
}

// The first preference `return` in a value.
fn return_in(value: &HeaderValue) -> Option<&str>
    ensures { option_map (λ t. t.now) result ≡ find spec.is_return (spec.preferences_in value.now) }
{
    match value.to_str() {
        Ok(text) => if has_quote(text) {
            None
        } else {
            return_among(text)
        },
        Err(_) => None,
    }
}

// The first preference `return` in some values.
fn first_return(values: &[HeaderValue]) -> Option<&str>
    ensures { option_map (λ t. t.now) result
        ≡ find spec.is_return (flat_map spec.preferences_in values.now) }
{
    for value in values {
        if let Some(preference) = return_in(value) {
            return Some(preference);
        }
    }
    None
}

/// Whether the values of Prefer ask for a minimal reply, by `return=minimal` (RFC 7240, section 4.2),
/// in letters of either case. Of several preferences `return` the first counts; a value that isn't
/// text, or that has a quoted string, asks for nothing.
pub fn prefers_minimal(values: &[HeaderValue]) -> bool
    ensures { result ≡ spec.prefers_minimal values.now }
{
    match first_return(values) {
        Some(preference) => is_same_word(value_in(preference), "minimal"),
        None => false,
    }
}

// Whether the only value of Brief is `t`.
fn is_brief(values: &[HeaderValue]) -> bool
    ensures { result ≡ spec.is_brief values.now }
{
    match only_text(values) {
        Some(text) => is_same_word(text, "t"),
        None => false,
    }
}

/// Whether a request with these values of Prefer and of Brief isn't told of what isn't there: it has
/// `Prefer: return=minimal` (RFC 8144, section 2.1), or `Brief: t`, by which clients of Microsoft say
/// the same.
pub fn leaves_out_missing(prefer: &[HeaderValue], brief: &[HeaderValue]) -> bool
    ensures { result ≡ spec.leaves_out_missing prefer.now brief.now }
{
    prefers_minimal(prefer) || is_brief(brief)
}
