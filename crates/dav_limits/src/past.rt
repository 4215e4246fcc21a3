//! Which requests would add more than limits leave.
ghost use Rattle.std.specs.Prelude.{◌≡◌, ◌-◌, nat_lt, IfOk};
ghost use Rattle.std.specs.Bool.{Decides};
ghost use Rattle.dav_limits.specs.Added.{place_by};
ghost use Rattle.dav_core.specs.Path.{names};
ghost use Rattle.dav_limits.specs.Limits as spec;
ghost use Rattle.dav_limits.specs.Watches.{AreExact};

use crate::added::added;
use crate::watches::Watches;
use dav_access::{Limit, Measure};
use dav_confined::leave::Asked;
use dav_core::davpath::DavPath;
use dav_core::errors::NoMemory;
use dav_core::method::DavMethod;
use dav_http::{Handler, Head, firsts_in};
use dav_store::memfs::Amount;
use std::alloc::Global;

// Of an amount what is measured.
fn measured(measure: Measure, amount: Amount) -> u64
    ensures { result ≡ spec.measured measure amount }
{
    match measure {
        Measure::Files => amount.files,
        Measure::Space => amount.bytes,
    }
}

// Whether a request adds something at a path or below it.
fn adds_under(asked: &Asked, path: &DavPath) -> bool
    ensures { result ≡ spec.is_any_at_or_under
        (place_by asked.now.method asked.now.path asked.now.destination) (names path.now) }
{
    match asked.method {
        DavMethod::Put
        | DavMethod::Patch
        | DavMethod::MkCol
        | DavMethod::PropPatch
        | DavMethod::Lock => asked.path.is_at_or_under(path),
        DavMethod::Copy | DavMethod::Move => match &asked.destination {
            Some(destination) => destination.is_at_or_under(path),
            None => false,
        },
        _ => false,
    }
}

// Whether a request moves what is at a path or below it.
fn moves_within(asked: &Asked, path: &DavPath) -> bool
    ensures { result ≡ spec.moves_within asked.now.method asked.now.path (names path.now) }
{
    match asked.method {
        DavMethod::Move => asked.path.is_at_or_under(path),
        _ => false,
    }
}

// Whether a limit counts what a request adds.
fn is_counted(asked: &Asked, limit: &Limit) -> bool
    ensures { result ≡ spec.is_counted asked.now limit.now }
{
    adds_under(asked, &limit.path) && !moves_within(asked, &limit.path)
}

// Whether this is more than a limit leaves, where this much is there.
fn is_more(limit: &Limit, there: Amount, added: Amount) -> bool
    ensures { result ≡ nat_lt (limit.now.most - spec.measured limit.now.measure there)
        (spec.measured limit.now.measure added) }
{
    let left = limit.most.saturating_sub(measured(limit.measure, there));
    left < measured(limit.measure, added)
}

// Whether this is more than a limit leaves.
fn is_too_much(
    alloc: Global,
    watches: &Watches,
    handler: &Handler,
    limit: &Limit,
    added: Amount,
) -> Result<bool, NoMemory>
    requires { AreExact handler.now.server watches.now }
    ensures { IfOk result (λ is. is
        ≡ spec.is_too_much handler.now.server.state.store.world.nodes added limit.now) }
{
    let there = watches.amount_at(alloc, handler, &limit.path)?;
    Ok(is_more(limit, there, added))
}

// Whether a request adds this much past one of these limits.
fn is_past_any(
    alloc: Global,
    limits: &[Limit],
    watches: &Watches,
    handler: &Handler,
    asked: &Asked,
    added: Amount,
) -> Result<bool, NoMemory>
    requires { AreExact handler.now.server watches.now }
    ensures { IfOk result (λ is. is
        ≡ spec.is_past handler.now.server.state.store.world.nodes asked.now added limits.now) }
{
    for limit in limits {
        if is_counted(asked, limit) && is_too_much(alloc, watches, handler, limit, added)? {
            return Ok(true);
        }
    }
    Ok(false)
}

/// Whether a request with this head and body would add more than these limits leave (RFC 4918, section 11.5). A PUT, PATCH, MKCOL or
/// LOCK adds a file or folder where none is, a PUT or PATCH the bytes by which its file gets longer, at most; a PROPPATCH the
/// properties that it sets, at most; a COPY or MOVE all that is at its target and below it, a MOVE not where that is already. One that
/// the machine doesn't read adds nothing. It takes time for each node that is copied or moved, and for each at a limit's path and
/// below it that isn't watched.
pub fn is_past(
    alloc: Global,
    limits: &[Limit],
    watches: &Watches,
    handler: &Handler,
    head: &[u8],
    body: &[u8],
) -> Result<bool, NoMemory>
    requires { AreExact handler.now.server watches.now }
    ensures { IfOk result (λ is. Decides is
        (spec.IsPast limits.now handler.now.server head.now body.now)) }
{
    if limits.is_empty() {
        return Ok(false);
    }
    let Some(read) = Head::read(head) else {
        return Ok(false);
    };
    let Some(asked) = Asked::read(alloc, head, handler.prefix())? else {
        return Ok(false);
    };
    let firsts = firsts_in(alloc, &read)?;
    let added = added(alloc, handler, &asked, body, firsts)?;
    Ok(is_past_any(alloc, limits, watches, handler, &asked, added)?)
}
