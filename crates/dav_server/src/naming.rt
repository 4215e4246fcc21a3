//! Whether headers name a token (RFC 4918, sections 10.4 and 10.5).
ghost use Rattle.std.specs.Prelude.{◌≡◌, ◌↔◌, codes, map, Contains, IsTrue, IfOk};
ghost use Rattle.std.specs.List.{list_any};
ghost use Rattle.std.specs.Prelude.{bytes_eq};
ghost use Rattle.dav_headers.specs.If.{tokens_in, tokens_among, tokens_of};
ghost use Rattle.dav_headers.specs.IfView.{item_value, condition_value, list_value};
ghost use Rattle.dav_engine.specs.LockToken.{SaysLockToken};
ghost use Rattle.dav_server.specs.Naming.{SaysIfToken};

use dav_core::errors::NoMemory;
use dav_engine::headers::{absent_if_invalid, values_of};
use dav_engine::lock_token::{lock_token, token_in};
use dav_headers::{If, IfCondition, IfItem, IfList, names};
use http_header::HeaderMap;
use std::alloc::Global;

/// Whether a token is one of the state tokens of the If header, under `Not` too (RFC 4918, section 10.4).
pub fn is_if_token(alloc: Global, headers: &HeaderMap, token: &str) -> Result<bool, NoMemory>
    ensures { IfOk result (λ said. IsTrue said ↔ SaysIfToken headers.now token.now) }
{
    let values = values_of(alloc, headers, names::IF())?;
    match absent_if_invalid(If::decode(alloc, &values))? {
        Some(header) => Ok(is_in_lists(&header.0, token)),
        None => Ok(false),
    }
}

// Whether a token is one of the state tokens of these lists.
fn is_in_lists(lists: &[IfList], token: &str) -> bool
    ensures { result ≡ list_any (bytes_eq token.now) (tokens_of (map list_value lists.now)) }
{
    for list in lists {
        if is_in_conditions(&list.conditions, token) {
            return true;
        }
    }
    false
}

// Whether a token is one of the state tokens of these conditions.
fn is_in_conditions(conditions: &[IfCondition], token: &str) -> bool
    ensures { result ≡ list_any (bytes_eq token.now)
        (tokens_among (map condition_value conditions.now)) }
{
    for condition in conditions {
        if is_item(&condition.item, token) {
            return true;
        }
    }
    false
}

// Whether an item is this state token.
fn is_item(item: &IfItem, token: &str) -> bool
    ensures { result ≡ list_any (bytes_eq token.now) (tokens_in (item_value item.now)) }
{
    match item {
        IfItem::StateToken(text) => is_same(token.as_bytes(), text.as_bytes()),
        IfItem::ETag(_) => false,
    }
}

// Whether the bytes are the same.
fn is_same(a: &[u8], b: &[u8]) -> bool
    ensures { result ≡ bytes_eq a.now b.now }
{
    a == b
}

/// Whether a token is that of the Lock-Token header (RFC 4918, section 10.5).
pub fn is_lock_token(alloc: Global, headers: &HeaderMap, token: &str) -> Result<bool, NoMemory>
    ensures { IfOk result (λ said. IsTrue said ↔ SaysLockToken headers.now token.now) }
{
    let header = lock_token(alloc, headers)?;
    match token_in(header.as_ref()) {
        Some(said) => Ok(is_same(said.as_bytes(), token.as_bytes())),
        None => Ok(false),
    }
}
