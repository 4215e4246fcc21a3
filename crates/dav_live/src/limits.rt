//! The limits of a server: its own, and those of the rules.
ghost use Rattle.std.specs.Prelude.{◌≡◌, ◌++◌, true, IfOk, OnOk};
ghost use Rattle.dav_core.specs.Path.{is_root, names};

use dav_access::{Limit, Measure};
use dav_core::davpath::DavPath;
use std::alloc::{AllocError, Global};

/// A limit of all that a server holds.
pub fn limit_of_all(alloc: Global, measure: Measure, most: u64) -> Result<Limit, AllocError>
    ensures path { IfOk result (λ l. is_root (names l.path) ≡ true) }
    ensures limit { IfOk result (λ l. (l.measure ≡ measure) × (l.most ≡ most)) }
{
    match DavPath::new(alloc, "/") {
        Ok(path) if path.is_root() => Ok(Limit {
            path,
            measure,
            most,
        }),
        _ => Err(AllocError),
    }
}

// The same limit.
fn same(limit: &Limit) -> Result<Limit, AllocError>
    ensures { IfOk result (λ l. l ≡ limit.now) }
{
    Ok(Limit {
        path: limit.path.clone()?,
        measure: limit.measure,
        most: limit.most,
    })
}

// Adds the same limits.
fn add(all: &mut Vec<Limit>, limits: &[Limit]) -> Result<(), AllocError>
    ensures { OnOk result (all.new.items ≡ all.old.items ++ limits.now) }
{
    for limit in limits {
        all.push(same(limit)?)?;
    }
    Ok(())
}

/// The limits of the one list, and then those of the other.
pub fn joined(alloc: Global, own: &[Limit], more: &[Limit]) -> Result<Vec<Limit>, AllocError>
    ensures { IfOk result (λ all. all.items ≡ own.now ++ more.now) }
{
    let mut all = Vec::new(alloc);
    add(&mut all, own)?;
    add(&mut all, more)?;
    Ok(all)
}
