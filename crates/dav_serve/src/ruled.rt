//! That a folder had rules of access is noted beside its state: without them each user may do everything, so that they are gone isn't
//! taken for that.
use crate::refusal::Refusal;
use std::alloc::Global;
use std::{fs, io};

// The file that is there once there were rules.
fn path_in(alloc: Global, folder: &str) -> io::Result<String> {
    Ok(format!(in alloc; "{folder}/state.ruled")?)
}

/// Sees that a folder without rules never had any: `Unruled` where it had.
pub fn see_ruled(rt: &HostRuntime, alloc: Global, folder: &str) -> Result<(), Refusal> {
    match is_ruled(rt, alloc, folder) {
        Ok(false) => Ok(()),
        Ok(true) => Err(Refusal::Unruled(String::from_str(alloc, folder)?)),
        Err(_) => Err(Refusal::State(String::from_str(alloc, folder)?)),
    }
}

/// Notes that a folder has rules: `Disk` where that can't be written.
pub fn note_ruled(rt: &HostRuntime, alloc: Global, folder: &str) -> Result<(), Refusal> {
    match note(rt, alloc, folder) {
        Ok(()) => Ok(()),
        Err(_) => Err(Refusal::Disk(String::from_str(alloc, folder)?)),
    }
}

// Whether there were rules.
fn is_ruled(rt: &HostRuntime, alloc: Global, folder: &str) -> io::Result<bool> {
    fs::exists(rt, path_in(alloc, folder)?.as_str())
}

// Notes it, where it isn't yet.
fn note(rt: &HostRuntime, alloc: Global, folder: &str) -> io::Result<()> {
    if is_ruled(rt, alloc, folder)? {
        return Ok(());
    }
    fs::File::create_new(rt, path_in(alloc, folder)?.as_str())?.sync_all()
}
