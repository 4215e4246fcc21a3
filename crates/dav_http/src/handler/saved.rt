//! A server as it is saved, and as it is loaded.
ghost use Rattle.std.specs.Prelude.{◌≡◌, ◌++◌, [], List, ℕ, Some, Ok, false, IfOk, IfErr, IfSome};
ghost use Rattle.std.specs.Bool.{Decides};
ghost use Rattle.std.specs.List.{AllByRecursion};
ghost use Rattle.dav_core.specs.World.{IsWorld, World};
ghost use Rattle.dav_core.specs.Locks.{Lock};
ghost use Rattle.dav_saved.specs.Locks.{locks, locks_at, AreSaveableLocks};
ghost use Rattle.dav_saved.specs.Worlds.{world, world_at, IsSaveableWorld};
ghost use Rattle.dav_xml.specs.Namespaces.{document};
ghost use Rattle.dav_xml.specs.Written.{document_of};
ghost use Rattle.dav_http.specs.Saved.{AreKeepable, IsKeepable, IsKeepableLock, most_levels};

use super::Handler;
use crate::sendable::is_sendable;
use dav_core::element::Element;
use dav_core::errors::NoMemory;
use dav_core::fs::DavFileSystem;
use dav_core::ls::DavLock;
use dav_saved::LoadError;
use dav_store::memfs::MemFs;
use dav_store::memls::MemLs;
use dav_store::passing::ElementTest;
use dav_xml::XmlError;
use std::alloc::{AllocError, Global};

// The most levels of elements that are saved and loaded.
const LEVELS: usize = 256;

// Whether an element is the one that is read of it.
fn is_read_again(alloc: Global, element: &Element) -> Result<bool, NoMemory>
    ensures { IfOk result (λ is. Decides is (document (document_of element.now) ≡ Ok element.now)) }
{
    let bytes = dav_xml::write(alloc, element)?;
    match dav_xml::read(alloc, &bytes) {
        Ok(read) => Ok(read == *element),
        Err(XmlError::Fault(_)) => Ok(false),
        Err(XmlError::Memory) => Err(AllocError),
    }
}

// Whether an element can be saved and loaded.
fn is_keepable(alloc: Global, element: &Element) -> Result<bool, NoMemory>
    ensures { IfOk result (λ is. Decides is (IsKeepable element.now)) }
{
    if element.depth() > LEVELS {
        return Ok(false);
    }
    is_read_again(alloc, element)
}

// The test of elements that can be saved and loaded.
struct Keepable;

impl ElementTest for Keepable {
    ghost use Rattle.dav_http.specs.Saved.{IsKeepable};

    ghost passes = { λ _ t. IsKeepable t };

    fn test(&self, alloc: Global, element: &Element) -> Result<bool, NoMemory> {
        is_keepable(alloc, element)
    }
}

// Whether the owner of a lock, if it has one, can be saved and loaded.
fn has_keepable_owner(alloc: Global, lock: &DavLock) -> Result<bool, NoMemory>
    ensures { IfOk result (λ has. Decides has (IfSome lock.now.owner IsKeepable)) }
{
    match &lock.owner {
        Some(owner) => is_keepable(alloc, owner),
        None => Ok(true),
    }
}

// Whether a lock can be saved and loaded.
fn is_keepable_lock(alloc: Global, lock: &DavLock) -> Result<bool, NoMemory>
    ensures { IfOk result (λ is. Decides is (IsKeepableLock lock.now)) }
{
    if !is_sendable(&lock.token) {
        return Ok(false);
    }
    if lock.path.as_bytes().is_empty() {
        return Ok(false);
    }
    has_keepable_owner(alloc, lock)
}

// Whether each lock can be saved and loaded.
fn are_keepable_locks(alloc: Global, ls: &MemLs) -> Result<bool, NoMemory>
    ensures { IfOk result (λ are. Decides are (AllByRecursion IsKeepableLock ls.now)) }
{
    for i in 0..ls.len() {
        let Some(lock) = ls.get(i) else {
            unreachable!();
        };
        if !is_keepable_lock(alloc, lock)? {
            return Ok(false);
        }
    }
    Ok(true)
}

// Whether each element that is kept, and each lock, can be saved and loaded.
fn are_keepable(alloc: Global, fs: &MemFs, ls: &MemLs) -> Result<bool, NoMemory>
    ensures { IfOk result (λ are. Decides are (AreKeepable fs.now.world ls.now)) }
{
    if !fs.all_pass(alloc, &Keepable)? {
        return Ok(false);
    }
    are_keepable_locks(alloc, ls)
}

// The store and the locks that were saved so.
fn parts_of(alloc: Global, bytes: &[u8]) -> Result<(MemFs, MemLs), LoadError>
    ensures read { IfOk result (λ p. (rest : List ℕ)
        × (world_at most_levels bytes.now ≡ Some (p.0.world, rest))
        × (locks_at most_levels rest ≡ Some (p.1, []))) }
    ensures fresh { IfOk result (λ p. p.0.short ≡ false) }
    ensures is_world { IfOk result (λ p. IsWorld p.0.world) }
    ensures back { (w : World) (ls : List Lock) → IsWorld w → IsSaveableWorld most_levels w
        → AreSaveableLocks most_levels ls → bytes.now ≡ world w ++ locks ls
        → IfErr result (λ e. e ≡ LoadError.Memory) }
{
    let (fs, rest) = MemFs::load(alloc, LEVELS, bytes)?;
    let (ls, rest) = MemLs::load(alloc, LEVELS, rest)?;
    if !rest.is_empty() {
        return Err(LoadError::NotSaved);
    }
    Ok((fs, ls))
}

// The same, where all that they keep can be saved and loaded.
fn keepable_parts_of(alloc: Global, bytes: &[u8]) -> Result<(MemFs, MemLs), LoadError>
    ensures read { IfOk result (λ p. (rest : List ℕ)
        × (world_at most_levels bytes.now ≡ Some (p.0.world, rest))
        × (locks_at most_levels rest ≡ Some (p.1, []))) }
    ensures fresh { IfOk result (λ p. p.0.short ≡ false) }
    ensures is_world { IfOk result (λ p. IsWorld p.0.world) }
    ensures keepable { IfOk result (λ p. AreKeepable p.0.world p.1) }
    ensures back { (w : World) (ls : List Lock) → IsWorld w → IsSaveableWorld most_levels w
        → AreSaveableLocks most_levels ls → AreKeepable w ls → bytes.now ≡ world w ++ locks ls
        → IfErr result (λ e. e ≡ LoadError.Memory) }
{
    let (fs, ls) = parts_of(alloc, bytes)?;
    if !are_keepable(alloc, &fs, &ls)? {
        return Err(LoadError::NotSaved);
    }
    Ok((fs, ls))
}

impl Handler {
    ghost use Rattle.std.specs.Prelude.{◌≡◌, ◌++◌, List, ℕ, true, false, IfOk, IfErr, OnOk, OnErr};
    ghost use Rattle.std.specs.Bool.{Decides};
    ghost use Rattle.dav_server.specs.Server.{Server};
    ghost use Rattle.dav_http.specs.Saved.{saved_bytes, IsSaveable, Loads};

    /// Adds the server to what is saved: the world of its store, and its list of locks. False where something can't be saved, as
    /// an element of more than 256 levels, or one that is written so long that it can't be read again, and where memory ran out in
    /// the store; nothing may be assumed of `out` then, or after an error.
    pub fn save(&self, alloc: Global, out: &mut Vec<u8>) -> Result<bool, NoMemory>
        ensures saved { IfOk result (λ is. is ≡ true → out.new.items
            ≡ out.old.items ++ saved_bytes self.now.server) }
        ensures exact { IfOk result (λ is. Decides is (IsSaveable self.now.server)) }
    {
        let Some(ls) = self.handler.locks() else {
            return Ok(false);
        };
        let fs = self.handler.fs();
        if fs.was_short() {
            return Ok(false);
        }
        if !are_keepable(alloc, fs, ls)? {
            return Ok(false);
        }
        fs.save(out)?;
        ls.save(out)?;
        Ok(true)
    }

    /// Loads the server that was saved as these bytes, in the place of this one, whose settings it gets. `NotSaved` where they
    /// are those of none; `Memory` where memory runs out. After an error the server is as it was.
    pub fn load(&mut self, alloc: Global, bytes: &[u8]) -> Result<(), LoadError>
        ensures loads { OnOk result (Loads self.old.server bytes.now self.new.server) }
        ensures unchanged { OnErr result (self.new ≡ self.old) }
        // What is saved of a server is loaded, unless memory runs out.
        ensures back { (s : Server) → IsSaveable s → bytes.now ≡ saved_bytes s
            → IfErr result (λ e. e ≡ LoadError.Memory) }
    {
        let (fs, ls) = keepable_parts_of(alloc, bytes)?;
        self.handler.restore(fs, Some(ls));
        Ok(())
    }
}
