//! What is known of logins over a restart: FOLDER/state.logins, a salt that was drawn at random and digests of those that were right.
use crate::refusal::Refusal;
use dav_live::Logins;
use std::alloc::Global;
use std::random::RandomSource;
use std::{fs, io};

/// The salt of new logins has so many bytes.
const SALT: usize = 16;

// The file of a folder that has them.
fn path_in(alloc: Global, folder: &str) -> io::Result<String> {
    Ok(format!(in alloc; "{folder}/state.logins")?)
}

/// What is known of the logins of a folder. Where there is no file of it, or it can't be read, or is none, that is nothing: who was let
/// in before is checked as anybody is.
pub fn known_in(rt: &HostRuntime, alloc: Global, folder: &str) -> Result<Logins, Refusal> {
    if let Ok(bytes) = read(rt, alloc, folder)
        && let Some(logins) = Logins::recalled(alloc, &bytes)?
    {
        return Ok(logins);
    }
    let mut salt = [0u8; SALT];
    // Without random bytes digests have a salt that others have too.
    let _ = rt.fill_bytes(&mut salt);
    Ok(Logins::recalled(alloc, &salt)?.unwrap_or(Logins::new(alloc)))
}

// What is there of them.
fn read(rt: &HostRuntime, alloc: Global, folder: &str) -> io::Result<Vec<u8>> {
    fs::read(rt, path_in(alloc, folder)?.as_str())
}

/// Keeps what is known of logins, in the place of what was there: where that fails in the middle, the file has what it had before.
pub fn keep(rt: &HostRuntime, folder: &str, bytes: &[u8]) -> io::Result<()> {
    let path = path_in(rt.alloc(), folder)?;
    let new = format!(in rt.alloc(); "{path}.new")?;
    fs::write(rt, new.as_str(), bytes)?;
    fs::rename(rt, new.as_str(), path.as_str())
}
