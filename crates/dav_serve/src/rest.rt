//! What a crash left of a block that was never answered, which a start drops: kept beside.
use crate::claim::Owned;
use crate::refusal::{Refusal, refused};
use dav_live::Live;
use std::alloc::Global;
use std::io::Write;
use std::{fs, io};

/// So many bytes are copied at once.
const PIECE: usize = 65_536;

/// At most so many files are beside a state.
const MOST_FILES: u32 = 1_000_000;

/// Keeps what `Live::begin` drops in a new file FOLDER/state.cut-N, where it isn't zeros alone, and says so on standard error.
pub fn keep_rest(
    rt: &HostRuntime,
    alloc: Global,
    folder: &str,
    live: &mut Live<Owned>,
) -> Result<(), Refusal> {
    let (place, count) = match live.rest() {
        Ok(rest) => rest,
        Err(error) => return Err(refused(
            String::from_str(alloc, folder)?,
            String::new(alloc),
            error,
        )),
    };
    if count == 0 {
        return Ok(());
    }
    let Ok(path) = free_path(rt, alloc, folder) else {
        return Err(Refusal::Cut(String::from_str(alloc, folder)?));
    };
    let Ok(()) = copy(rt, path.as_str(), live, place, count) else {
        return Err(Refusal::Cut(String::from_str(alloc, folder)?));
    };
    // A failed write to standard error can't be reported anywhere.
    let _ = eprintln!(rt;
        "serve: {count} bytes from {place} on were no whole block; they are in {path}"
    );
    Ok(())
}

// The first FOLDER/state.cut-N that isn't there.
fn free_path(rt: &HostRuntime, alloc: Global, folder: &str) -> io::Result<String> {
    for number in 1..MOST_FILES {
        let path = format!(in alloc; "{folder}/state.cut-{number}")?;
        if !fs::exists(rt, path.as_str())? {
            return Ok(path);
        }
    }
    Err(io::ErrorKind::AlreadyExists.into())
}

// Copies so many bytes of the state's file from this place on to a new file, and makes sure that they are kept.
fn copy(
    rt: &HostRuntime,
    path: &str,
    live: &mut Live<Owned>,
    place: usize,
    count: usize,
) -> io::Result<()> {
    let mut file = fs::File::create_new(rt, path)?;
    let mut piece = [0u8; PIECE];
    let mut done = 0usize;
    for _ in 0..u64::MAX {
        let room = PIECE.min(count.saturating_sub(done));
        let Some(window) = piece.get_mut(..room) else {
            break;
        };
        if room == 0 {
            break;
        }
        if live.read(place.saturating_add(done), window).is_err() {
            return Err(io::ErrorKind::Other.into());
        }
        file.write_all(window)?;
        done = done.saturating_add(room);
    }
    file.sync_all()
}
