//! Lists of locks as they are saved, and as they are read.
ghost use Rattle.std.specs.Prelude.{◌≡◌, ◌++◌, ℕ, List, IfOk, OnOk, Some};
ghost use Rattle.std.specs.List.{AllByRecursion};
ghost use Rattle.dav_core.specs.Locks.{Lock};
ghost use Rattle.dav_saved.specs.Reading.{Gives, many_at};
ghost use Rattle.dav_saved.specs.Parts.{IsWithin};
ghost use Rattle.dav_saved.specs.Locks.{locks, lock_at, locks_at, AreSaveableLocks};

use super::MemLs;
use super::index::{self, Counts};
use super::kept::Kept;
use dav_core::errors::NoMemory;
use dav_core::ls::DavLock;
use dav_saved::{LoadError, lock_of, number_of, put_lock, put_number};
use std::alloc::Global;

// Adds locks.
fn put_locks(out: &mut Vec<u8>, list: &[Kept]) -> Result<(), NoMemory>
    ensures added { OnOk result (out.new.items ≡ out.old.items ++ locks list.now) }
    ensures saveable { OnOk result ((levels : ℕ)
        → AllByRecursion (λ l. IsWithin levels l.owner) list.now
        → AreSaveableLocks levels list.now) }
{
    put_number(out, list.len() as u64)?;
    for kept in list {
        put_lock(out, kept.lock())?;
    }
    Ok(())
}

// So many locks in front of bytes, and what is behind them.
fn locks_of(
    alloc: Global,
    levels: usize,
    count: u64,
    bytes: &[u8],
) -> Result<(MemLs, &[u8]), LoadError>
    ensures { Gives (λ x. (x.0, x.1.now)) result (many_at (lock_at levels) count bytes.now) }
{
    let mut locks = Vec::new(alloc);
    let mut index = Counts::new(alloc).ok();
    let mut rest = bytes;
    for grant in 0..count {
        let (lock, after) = lock_of(alloc, levels, rest)?;
        index::raise(alloc, &mut index, &lock.path, lock.deep, grant);
        let kept = Kept::new(alloc, lock, grant)?;
        locks.push(kept)?;
        rest = after;
    }
    let list = MemLs {
        locks,
        index,
        next: count,
    };
    Ok((list, rest))
}

// What `MemLs::load` reads.
#[tactic(auto, unfolding(dav_saved::specs::Locks::locks_at, dav_saved::specs::Reading::list_at))]
fn read_list(alloc: Global, levels: usize, bytes: &[u8]) -> Result<(MemLs, &[u8]), LoadError>
    ensures { Gives (λ x. (x.0, x.1.now)) result (locks_at levels bytes.now) }
{
    let (count, rest) = number_of(bytes)?;
    locks_of(alloc, levels, count, rest)
}

impl MemLs {
    ghost use Rattle.std.specs.Prelude.{◌≡◌, ◌++◌, ℕ, List, IfOk, OnOk, Some, length, option_copied, slice_get};
    ghost use Rattle.std.specs.List.{AllByRecursion};
    ghost use Rattle.dav_core.specs.Locks.{Lock};
    ghost use Rattle.dav_saved.specs.Reading.{Gives};
    ghost use Rattle.dav_saved.specs.Parts.{IsWithin};
    ghost use Rattle.dav_saved.specs.Locks.{locks, locks_at, AreSaveableLocks};

    /// How many locks there are.
    pub fn len(&self) -> usize
        ensures { result ≡ length self.now }
    {
        self.locks.len()
    }

    /// The lock at a place in the list; `None` past its end.
    pub fn get(&self, place: usize) -> Option<&DavLock>
        ensures { option_copied result ≡ slice_get self.now place }
    {
        match self.locks.get(place) {
            Some(kept) => Some(kept.lock()),
            None => None,
        }
    }

    /// Adds the locks in their order to what is saved. After an error a part of them may have been
    /// added.
    pub fn save(&self, out: &mut Vec<u8>) -> Result<(), NoMemory>
        ensures added { OnOk result (out.new.items ≡ out.old.items ++ locks self.now) }
        // They can be read again, by as many levels as their owners have.
        ensures saveable { OnOk result ((levels : ℕ)
            → AllByRecursion (λ l. IsWithin levels l.owner) self.now
            → AreSaveableLocks levels self.now) }
    {
        put_locks(out, &self.locks)
    }

    /// The list of locks in front of bytes, and what is behind it. `NotSaved` where no list of locks
    /// whose owners have at most so many levels is there.
    pub fn load(alloc: Global, levels: usize, bytes: &[u8]) -> Result<(MemLs, &[u8]), LoadError>
        // What is read is saved so.
        ensures whole { IfOk result (λ x. bytes.now ≡ locks x.0 ++ x.1.now) }
        // What is saved so is read again, whatever follows, unless memory runs out.
        ensures back { (ls : List Lock) (rest : List ℕ) → AreSaveableLocks levels ls
            → bytes.now ≡ locks ls ++ rest
            → Gives {Y = List Lock × List ℕ} (λ x. (x.0, x.1.now)) result (Some (ls, rest)) }
        // What is refused is none.
        ensures exact { Gives (λ x. (x.0, x.1.now)) result (locks_at levels bytes.now) }
    {
        read_list(alloc, levels, bytes)
    }
}
