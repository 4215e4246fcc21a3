//! How much a request adds to what a server holds, at most.
ghost use Rattle.std.specs.Prelude.{◌≡◌, ◌+◌, ℕ, min, IfOk, Option, length};
ghost use Rattle.std.specs.Option.{option_map_or};
ghost use Rattle.dav_core.specs.Numbers.{max_u64};
ghost use Rattle.dav_core.specs.Path.{names};
ghost use Rattle.dav_core.specs.World.{Node, node_at};
ghost use Rattle.dav_store.specs.Used.{amount_alone, file_len};
ghost use Rattle.dav_limits.specs.Added as spec;

use crate::part::nothing;
use dav_confined::leave::Asked;
use dav_core::davpath::DavPath;
use dav_core::errors::NoMemory;
use dav_core::method::DavMethod;
use dav_http::{Handler, set_in};
use dav_store::memfs::Amount;
use std::alloc::Global;

// The first bytes of a file that Content-Range and X-Update-Range name, where they name some.
type Firsts = (Option<u64>, Option<u64>);

// The end of a body of so many bytes that begins at a byte, if it names one; else at most this end.
fn end_from(first: Option<u64>, len: u64, end: u64) -> u64
    ensures { result ≡ min (option_map_or (λ first. first + len) first end) max_u64 }
{
    match first {
        Some(first) => first.saturating_add(len),
        None => end,
    }
}

// Where a PUT or PATCH of so many bytes to a file of so many ends.
fn end_of(method: DavMethod, old: u64, len: u64, firsts: Firsts) -> u64
    ensures { result ≡ min (spec.end_of method old len firsts) max_u64 }
{
    match method {
        DavMethod::Patch => end_from(firsts.0.or(firsts.1), len, old.saturating_add(len)),
        _ => end_from(firsts.0, len, len),
    }
}

// How much a file adds that is written up to this byte, where so many files and bytes of a file are there.
fn added_file(files: u64, len: u64, end: u64) -> Amount
    ensures { (there : Option Node) (e : ℕ) → files ≡ (amount_alone there).files
        → len ≡ file_len there → end ≡ min e max_u64 → result ≡ spec.added_file there e }
{
    Amount {
        files: 1u64.saturating_sub(files),
        bytes: end.saturating_sub(len),
    }
}

// How much a PUT or PATCH of so many bytes adds.
fn added_content(handler: &Handler, asked: &Asked, len: u64, firsts: Firsts) -> Amount
    ensures { result ≡ spec.added_content asked.now.method
        (node_at handler.now.server.state.store.world (names asked.now.path)) len firsts }
{
    let files = handler.amount_alone(&asked.path).files;
    let old = handler.file_len(&asked.path);
    added_file(files, old, end_of(asked.method, old, len, firsts))
}

// How much a new file or folder adds.
fn added_empty(handler: &Handler, path: &DavPath) -> Amount
    ensures { result ≡ spec.added_file
        (node_at handler.now.server.state.store.world (names path.now)) 0 }
{
    let files = handler.amount_alone(path).files;
    added_file(files, handler.file_len(path), 0)
}

// How much the properties add, at most, that the body of a PROPPATCH sets.
fn added_properties(alloc: Global, body: &[u8]) -> Result<Amount, NoMemory>
    ensures { IfOk result (λ amount. amount ≡ spec.added_properties body.now) }
{
    let set = set_in(alloc, body)?;
    Ok(Amount {
        files: 0,
        bytes: set.bytes,
    })
}

/// How much a request adds, at most, that asks for this, with this body, where its head names these first bytes. Of a COPY and a MOVE it
/// takes time for each node that is copied or moved; the body of a PROPPATCH is read.
pub(crate) fn added(
    alloc: Global,
    handler: &Handler,
    asked: &Asked,
    body: &[u8],
    firsts: Firsts,
) -> Result<Amount, NoMemory>
    ensures { IfOk result (λ amount. amount
        ≡ spec.added_by handler.now.server.state.store.world.nodes asked.now.method
        asked.now.path body.now firsts) }
{
    match asked.method {
        DavMethod::Put | DavMethod::Patch => {
            Ok(added_content(handler, asked, body.len() as u64, firsts))
        }
        DavMethod::MkCol | DavMethod::Lock => Ok(added_empty(handler, &asked.path)),
        DavMethod::PropPatch => added_properties(alloc, body),
        DavMethod::Copy | DavMethod::Move => Ok(handler.amount_at(alloc, &asked.path)?),
        _ => Ok(nothing()),
    }
}
