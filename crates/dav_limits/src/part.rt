//! How much of what is at a path and below it a request may change.
ghost use Rattle.std.specs.Prelude.{◌≡◌, ◌+◌, min, ◌||◌, ⊤, IfOk, MatchOption, Some};
ghost use Rattle.dav_core.specs.Numbers.{max_u64};
ghost use Rattle.dav_core.specs.Path.{is_at_or_under, is_same_path, names};
ghost use Rattle.dav_store.specs.Used.{amount_of};
ghost use Rattle.dav_confined.specs.Reached.{is_at_or_under_any};
ghost use Rattle.dav_limits.specs.Added.{nothing};
ghost use Rattle.dav_limits.specs.Parts.{part_of, under_where};

use dav_confined::leave::Asked;
use dav_core::davpath::DavPath;
use dav_core::errors::NoMemory;
use dav_core::method::DavMethod;
use dav_http::Handler;
use dav_store::memfs::Amount;
use std::alloc::Global;

/// Nothing.
pub(crate) fn nothing() -> Amount
    ensures { result ≡ nothing }
{
    Amount { files: 0, bytes: 0 }
}

// How much is at a path and below it, of what is at another and below that.
fn common(
    alloc: Global,
    handler: &Handler,
    top: &DavPath,
    path: &DavPath,
) -> Result<Amount, NoMemory>
    ensures { IfOk result (λ amount. amount ≡ amount_of (under_where (names top.now)
        (λ q. is_at_or_under q (names path.now)) handler.now.server.state.store.world.nodes)) }
{
    if top.is_at_or_under(path) {
        return Ok(handler.amount_at(alloc, top)?);
    }
    if path.is_at_or_under(top) {
        return Ok(handler.amount_at(alloc, path)?);
    }
    Ok(nothing())
}

// How much is at a path alone, of what is at another and below that.
fn alone(handler: &Handler, top: &DavPath, path: &DavPath) -> Amount
    ensures { result ≡ amount_of (under_where (names top.now)
        (λ q. is_same_path q (names path.now)) handler.now.server.state.store.world.nodes) }
{
    handler.see_world();
    if path.is_at_or_under(top) {
        handler.amount_alone(path)
    } else {
        nothing()
    }
}

// How much is at a destination and below it, if there is one, of what is at a path and below that.
fn arrived(
    alloc: Global,
    handler: &Handler,
    top: &DavPath,
    destination: &Option<DavPath>,
) -> Result<Amount, NoMemory>
    ensures { IfOk result (λ amount. amount ≡ amount_of (under_where (names top.now)
        (λ q. is_at_or_under_any q destination.now) handler.now.server.state.store.world.nodes)) }
{
    match destination {
        Some(path) => Ok(common(alloc, handler, top, path)?),
        None => Ok(nothing()),
    }
}

// Two amounts together; none where that is too much to count.
fn sum(one: Amount, other: Amount) -> Option<Amount>
    ensures { MatchOption result ⊤ (λ amount. (amount.files ≡ one.files + other.files)
        × (amount.bytes ≡ min (one.bytes + other.bytes) max_u64)) }
{
    Some(Amount {
        files: one.files.checked_add(other.files)?,
        bytes: one.bytes.saturating_add(other.bytes),
    })
}

// How much is at a path and below it, or at another and below that, of what is at a third and below that.
fn either(
    alloc: Global,
    handler: &Handler,
    top: &DavPath,
    path: &DavPath,
    other: &DavPath,
) -> Result<Option<Amount>, NoMemory>
    ensures { IfOk result (λ amount. MatchOption amount ⊤ (λ amount. amount
        ≡ amount_of (under_where (names top.now)
        (λ q. is_at_or_under q (names path.now) || is_at_or_under q (names other.now))
        handler.now.server.state.store.world.nodes))) }
{
    if other.is_at_or_under(path) {
        return Ok(Some(common(alloc, handler, top, path)?));
    }
    if path.is_at_or_under(other) {
        return Ok(Some(common(alloc, handler, top, other)?));
    }
    let here = common(alloc, handler, top, path)?;
    let there = common(alloc, handler, top, other)?;
    Ok(sum(here, there))
}

// How much of what is at a path and below it a MOVE from another may change.
fn moved(
    alloc: Global,
    handler: &Handler,
    top: &DavPath,
    path: &DavPath,
    destination: &Option<DavPath>,
) -> Result<Option<Amount>, NoMemory>
    ensures { IfOk result (λ amount. MatchOption amount ⊤ (λ amount. amount
        ≡ amount_of (under_where (names top.now) (λ q. is_at_or_under q (names path.now)
        || is_at_or_under_any q destination.now) handler.now.server.state.store.world.nodes))) }
{
    match destination {
        Some(destination) => Ok(either(alloc, handler, top, path, destination)?),
        None => Ok(Some(common(alloc, handler, top, path)?)),
    }
}

// How much of what is at a path and below it a request may change that asks for this.
fn part_asked(
    alloc: Global,
    handler: &Handler,
    top: &DavPath,
    asked: &Asked,
) -> Result<Option<Amount>, NoMemory>
    ensures { IfOk result (λ amount. MatchOption amount ⊤ (λ amount. amount
        ≡ amount_of (part_of (names top.now) (Some asked.now)
        handler.now.server.state.store.world.nodes))) }
{
    match asked.method {
        DavMethod::Put
        | DavMethod::Patch
        | DavMethod::MkCol
        | DavMethod::PropPatch
        | DavMethod::Lock => Ok(Some(alone(handler, top, &asked.path))),
        DavMethod::Delete => Ok(Some(common(alloc, handler, top, &asked.path)?)),
        DavMethod::Copy => Ok(Some(arrived(alloc, handler, top, &asked.destination)?)),
        DavMethod::Move => Ok(moved(alloc, handler, top, &asked.path, &asked.destination)?),
        DavMethod::Get
        | DavMethod::Head
        | DavMethod::Options
        | DavMethod::PropFind
        | DavMethod::Unlock
        | DavMethod::Report
        | DavMethod::MkCalendar
        | DavMethod::MkAddressbook => Ok(Some(nothing())),
    }
}

/// How much of what is at a path and below it a request may change that asks for this, or isn't read; none where that is too much
/// to count.
pub(crate) fn part_of(
    alloc: Global,
    handler: &Handler,
    top: &DavPath,
    asked: &Option<Asked>,
) -> Result<Option<Amount>, NoMemory>
    ensures { IfOk result (λ amount. MatchOption amount ⊤ (λ amount. amount
        ≡ amount_of (part_of (names top.now) asked.now
        handler.now.server.state.store.world.nodes))) }
{
    match asked {
        Some(asked) => Ok(part_asked(alloc, handler, top, asked)?),
        None => Ok(Some(nothing())),
    }
}
