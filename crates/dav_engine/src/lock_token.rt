//! Lock-Token (RFC 4918, section 10.5).
ghost use Rattle.std.specs.Prelude.{codes, option_map, string_bytes, IfOk, IfSome, IfNone};
ghost use Rattle.http_header.specs.HeaderMap.{get_all};
ghost use Rattle.dav_headers.specs.Value.{IsOnlyText};
ghost use Rattle.dav_engine.specs.Headers.{Decodes};
ghost use Rattle.dav_engine.specs.LockToken.{BeginsBare, EndsBare, IsBetweenAngles};
ghost use Rattle.dav_engine.specs.LockTokenCode.{IsAfterAngle, IsBeforeAngle, IsAfterAngles, IsBeforeAngles, IsTokenIn};

use crate::headers::{absent_if_invalid, values_of};
use dav_core::errors::NoMemory;
use dav_headers::{LockToken, names};
use http_header::HeaderMap;
use std::alloc::Global;

/// The header Lock-Token (RFC 4918, section 10.5); nothing where it doesn't decode: where there isn't exactly one value, or the
/// value isn't text. `NoMemory` where memory runs out.
pub fn lock_token(alloc: Global, headers: &HeaderMap) -> Result<Option<LockToken>, NoMemory>
    ensures { IfOk result (λ said. Decodes IsOnlyText
        (get_all headers.now (codes "lock-token"))
        (option_map (λ t. string_bytes t.0) said)) }
{
    let values = values_of(alloc, headers, names::LOCK_TOKEN())?;
    absent_if_invalid(LockToken::decode(alloc, &values))
}

/// The token that a Lock-Token says, if there is one: its text without all `<` and `>` at its ends.
pub fn token_in(said: Option<&LockToken>) -> Option<&str>
    ensures { IsTokenIn (option_map (λ t. string_bytes t.now.0) said.entry)
        (option_map (λ t. t.now) result) }
{
    match said {
        Some(LockToken(text)) => Some(between_angles(text)),
        None => None,
    }
}

// A text without all `<` and `>` at its ends.
#[tactic(auto, using(crate::proofs::LockTokenLemmas::between))]
fn between_angles(text: &str) -> &str
    ensures { IsBetweenAngles text.now result.now }
{
    before_angles(after_angles(text))
}

// The rest of a text, after all `<` and `>` at its start.
#[tactic(auto, using(crate::proofs::LockTokenLemmas::after_all))]
fn after_angles(text: &str) -> &str
    ensures { IsAfterAngles text.now result.now }
{
    let mut rest = text;
    while let Some(more) = after_angle(rest) {
        rest = more;
    }
    rest
}

// The rest of a text, before all `<` and `>` at its end.
#[tactic(auto, using(crate::proofs::LockTokenLemmas::passed_closing, crate::proofs::LockTokenLemmas::before_all))]
fn before_angles(text: &str) -> &str
    ensures { IsBeforeAngles text.now result.now }
{
    let mut rest = text;
    while let Some(more) = before_angle(rest) {
        rest = more;
    }
    rest
}

// The rest of a text, after the `<` or `>` that it begins with.
fn after_angle(text: &str) -> Option<&str>
    ensures found { IfSome result (λ rest. IsAfterAngle text.now rest.now) }
    ensures none { IfNone result (BeginsBare text.now) }
{
    match text.strip_prefix('<') {
        Some(rest) => Some(rest),
        None => text.strip_prefix('>'),
    }
}

// The rest of a text, before the `<` or `>` that it ends with.
fn before_angle(text: &str) -> Option<&str>
    ensures found { IfSome result (λ rest. IsBeforeAngle text.now rest.now) }
    ensures none { IfNone result (EndsBare text.now) }
{
    match text.strip_suffix('<') {
        Some(rest) => Some(rest),
        None => text.strip_suffix('>'),
    }
}
