//! The names by which this server may be asked for (RFC 9110, section 7.2).
ghost use Rattle.std.specs.Prelude.{◌≡◌, ◌↔◌, ◌∷◌, ◌++◌, ℕ, IsTrue, Contains, List, MatchOption, codes, map, option_map, string_bytes};
ghost use Rattle.std.specs.Bool.{Decides};
ghost use Rattle.std.specs.List.{list_any};
ghost use Rattle.dav_headers.specs.Cut.{IsCut};
ghost use Rattle.dav_server.specs.Head.{is_same_name};
ghost use Rattle.dav_live.specs.Hosts.{AreDigits, AsksBadPort, HasBadPort, IsHostOf, IsPort, TellsFor, TellsNamed, asked_host, authority_after, authority_in, own_names, place_of, up_to_slash};
ghost use Rattle.dav_live.specs.Rejections.{HasAuthority, IsOfHost, IsOwnOrigin};

use crate::numbers::is_at_most;
use dav_http::Head;

/// The most that a port can be (RFC 6335, section 6).
const MOST_PORT: u64 = 65_535;

// Whether these are digits.
fn are_digits(text: &[u8]) -> bool
    ensures { IsTrue result ↔ AreDigits text.now }
{
    text.iter().all(|b| b.is_ascii_digit())
}

// What comes before the last colon of a text, and what after it.
fn split_at_colon(text: &[u8]) -> Option<(&[u8], &[u8])>
    ensures { MatchOption result (¬ Contains text.now 58)
        (λ parts. (text.now ≡ parts.0.now ++ 58 ∷ parts.1.now) × ¬ Contains parts.1.now 58) }
{
    let place = text.iter().rposition(|b| *b == b':')?;
    Some((&text[..place], &text[place + 1..]))
}

// The host of an authority, without its port (RFC 3986, section 3.2).
fn host_of(authority: &[u8]) -> &[u8]
    ensures { IsHostOf authority.now result.now }
{
    let Some((host, port)) = split_at_colon(authority) else {
        return authority;
    };
    if are_digits(port) { host } else { authority }
}

// Whether digits are a port: none, or a number that isn't too large (RFC 3986, section 3.2.3).
fn is_port(digits: &[u8]) -> bool
    ensures { Decides result (IsPort digits.now) }
{
    digits.is_empty() || is_at_most(digits, MOST_PORT)
}

// Whether these are digits, and no port.
fn is_bad_port(text: &[u8]) -> bool
    ensures { Decides result (AreDigits text.now × ¬ IsPort text.now) }
{
    are_digits(text) && !is_port(text)
}

// Whether an authority has digits as its port that are none.
fn has_bad_port(authority: &[u8]) -> bool
    ensures { Decides result (HasBadPort authority.now) }
{
    match split_at_colon(authority) {
        Some((_, port)) => is_bad_port(port),
        None => false,
    }
}

// Whether two names are one.
fn are_one(a: &[u8], b: &[u8]) -> bool
    ensures { result ≡ is_same_name a.now b.now }
{
    a.eq_ignore_ascii_case(b)
}

// Whether a host is this machine's own.
fn is_own(host: &[u8]) -> bool
    ensures { result ≡ list_any (is_same_name host.now) own_names }
{
    are_one(host, b"localhost") || are_one(host, b"127.0.0.1") || are_one(host, b"[::1]")
}

// Whether a host is one of these.
fn is_among(host: &[u8], hosts: &[String]) -> bool
    ensures { result ≡ list_any (λ name. is_same_name host.now (string_bytes name)) hosts.now }
{
    hosts.iter().any(|name| are_one(host, name.as_bytes()))
}

// Whether a host is this machine's own, or one of these.
fn is_known(host: &[u8], hosts: &[String]) -> bool
    ensures { result ≡ list_any (is_same_name host.now) (own_names ++ map string_bytes hosts.now) }
{
    is_own(host) || is_among(host, hosts)
}

// Whether an authority names this machine, or one of these hosts.
fn names_host(authority: &[u8], hosts: &[String]) -> bool
    ensures { TellsNamed (map string_bytes hosts.now) authority.now result }
{
    is_known(host_of(authority), hosts)
}

// Where a byte stands first in a text.
fn place_of(byte: u8, text: &[u8]) -> Option<usize>
    ensures { result ≡ place_of byte text.now }
{
    text.iter().position(|b| *b == byte)
}

// What comes before the first slash of a text.
fn up_to_slash(text: &[u8]) -> &[u8]
    ensures { result.now ≡ up_to_slash text.now }
{
    match place_of(b'/', text) {
        Some(place) => &text[..place],
        None => text,
    }
}

// The authority that follows two slashes.
fn authority_after(text: &[u8]) -> Option<&[u8]>
    ensures { option_map (λ a. a.now) result ≡ authority_after text.now }
{
    if text.starts_with(b"//") {
        Some(up_to_slash(&text[2..]))
    } else {
        None
    }
}

// The authority of a target in absolute form (RFC 9112, section 3.2.2).
fn authority_in(target: &[u8]) -> Option<&[u8]>
    ensures { option_map (λ a. a.now) result ≡ authority_in target.now }
{
    if target.starts_with(b"/") {
        return None;
    }
    match place_of(b':', target) {
        Some(place) => authority_after(&target[place + 1..]),
        None => None,
    }
}

// For which host a request is.
fn asked_host<'h>(head: &'h Head<'_>) -> Option<&'h [u8]>
    ensures { option_map (λ v. v.now) result ≡ asked_host head.now }
{
    match authority_in(head.target().as_bytes()) {
        Some(authority) => Some(authority),
        None => head.value("host"),
    }
}

/// Whether a request is for a host with a port that can't be: one of more than 65,535 (RFC 9112, section 3.2).
pub fn asks_bad_port(head: &Head<'_>) -> bool
    ensures { Decides result (AsksBadPort (asked_host head.now)) }
{
    match asked_host(head) {
        Some(authority) => has_bad_port(authority),
        None => false,
    }
}

/// Whether a request is for one of these hosts, or for this machine by its own names: by the authority of a target in absolute form,
/// and else by its Host; one without a Host is (RFC 9112, sections 3.2 and 3.2.2).
pub fn is_for(head: &Head<'_>, hosts: &[String]) -> bool
    ensures { TellsFor (map string_bytes hosts.now) (asked_host head.now) result }
{
    match asked_host(head) {
        Some(value) => names_host(value, hosts),
        None => true,
    }
}

// What comes before the first colon of a text, and what after it.
fn cut_at_colon(text: &[u8]) -> Option<(&[u8], &[u8])>
    ensures { MatchOption result (¬ Contains text.now 58)
        (λ parts. IsCut 58 text.now parts.0.now parts.1.now) }
{
    let place = text.iter().position(|b| *b == b':')?;
    Some((&text[..place], &text[place + 1..]))
}

// The authority of an origin, which has a scheme before it (RFC 6454, section 6.2).
fn authority_of(origin: &[u8]) -> Option<&[u8]>
    ensures { MatchOption result ((a : List ℕ) → ¬ HasAuthority origin.now a)
        (λ a. HasAuthority origin.now a.now) }
{
    match cut_at_colon(origin) {
        Some((_, rest)) => rest.strip_prefix(b"//".as_slice()),
        None => None,
    }
}

// Whether an origin has the authority of a Host, if there is one.
fn is_of_host(origin: &[u8], host: Option<&[u8]>) -> bool
    ensures { Decides result (IsOfHost origin.now (option_map (λ v. v.now) host.entry)) }
{
    let Some(host) = host else {
        return false;
    };
    match authority_of(origin) {
        Some(authority) => are_one(authority, host),
        None => false,
    }
}

/// Whether a request comes of this server's own pages, or of no page: it has no Origin, or one with the authority of its Host; `null`
/// has none (RFC 6454, section 7.3). The scheme isn't looked at: a proxy may have taken TLS away.
pub fn is_own_origin(head: &Head<'_>) -> bool
    ensures { Decides result (IsOwnOrigin head.now) }
{
    match head.value("origin") {
        Some(origin) => is_of_host(origin, head.value("host")),
        None => true,
    }
}
