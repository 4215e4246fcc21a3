//! That a state was begun is noted beside it: one of which no block is left isn't taken for a new one.
use crate::claim::Owned;
use crate::refusal::Refusal;
use dav_live::Live;
use std::alloc::Global;
use std::os::unix::fs::FileExt;
use std::{fs, io};

/// Where the gate of a file's first block is.
const GATE: usize = 72;

// The file that is there once a state was begun.
fn path_in(alloc: Global, folder: &str) -> io::Result<String> {
    Ok(format!(in alloc; "{folder}/state.begun")?)
}

/// Sees that a state of which no block is there is a new one: `Gone` where it was begun before.
pub fn see_begun(
    rt: &HostRuntime,
    alloc: Global,
    folder: &str,
    live: &Live<Owned>,
) -> Result<(), Refusal> {
    if !live.is_new() {
        return Ok(());
    }
    match is_begun(rt, alloc, folder) {
        Ok(false) => Ok(()),
        Ok(true) => Err(Refusal::Gone(String::from_str(alloc, folder)?)),
        Err(_) => Err(Refusal::State(String::from_str(alloc, folder)?)),
    }
}

/// Sees, before anything of a state is written, that one that was begun has a first block, or may have one: `Gone` where neither of its files
/// has.
pub fn see_blocks(rt: &HostRuntime, alloc: Global, folder: &str) -> Result<(), Refusal> {
    match may_have_blocks(rt, alloc, folder) {
        Ok(true) => Ok(()),
        Ok(false) => Err(Refusal::Gone(String::from_str(alloc, folder)?)),
        Err(_) => Err(Refusal::State(String::from_str(alloc, folder)?)),
    }
}

// Whether a state wasn't begun, or one of its files may have a first block.
fn may_have_blocks(rt: &HostRuntime, alloc: Global, folder: &str) -> io::Result<bool> {
    if !is_begun(rt, alloc, folder)? {
        return Ok(true);
    }
    let (one, other) = (
        format!(in alloc; "{folder}/state")?,
        format!(in alloc; "{folder}/state-wal")?,
    );
    Ok(may_have_block(rt, one.as_str())? || may_have_block(rt, other.as_str())?)
}

// Whether a file may have a first block: its gate is open, or the file is of another version than this one.
fn may_have_block(rt: &HostRuntime, path: &str) -> io::Result<bool> {
    let mut found = [0u8; GATE + 1];
    let count = fs::File::open(rt, path)?.read_at(&mut found, 0)?;
    let Some(found) = found.get(..count) else {
        return Ok(true);
    };
    match found.get(GATE) {
        Some(gate) => Ok(*gate == 1 || !found.starts_with(b"vuldarg2")),
        None => Ok(found.starts_with(b"vuldarg1")),
    }
}

/// Notes that a state was begun, so that it is kept: `Disk` where that can't be written.
pub fn note_begun(rt: &HostRuntime, alloc: Global, folder: &str) -> Result<(), Refusal> {
    match note(rt, alloc, folder) {
        Ok(()) => Ok(()),
        Err(_) => Err(Refusal::Disk(String::from_str(alloc, folder)?)),
    }
}

// Whether a state was begun.
fn is_begun(rt: &HostRuntime, alloc: Global, folder: &str) -> io::Result<bool> {
    fs::exists(rt, path_in(alloc, folder)?.as_str())
}

// Notes it, where it isn't yet.
fn note(rt: &HostRuntime, alloc: Global, folder: &str) -> io::Result<()> {
    if is_begun(rt, alloc, folder)? {
        return Ok(());
    }
    fs::File::create_new(rt, path_in(alloc, folder)?.as_str())?.sync_all()
}
