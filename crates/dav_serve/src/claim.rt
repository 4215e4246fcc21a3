//! The claim of a state: who opened it last, as FOLDER/state.claim says.
ghost use Rattle.std.specs.Prelude.{⊤};

use crate::refusal::Refusal;
use dav_claim::{Claimed, Claims};
use sqlite_std_file::File;
use std::alloc::Global;
use std::fs::OpenOptions;
use std::os::unix::fs::FileExt;
use std::random::RandomSource;
use std::time::Duration;
use std::{fs, io, thread};

/// A claim has so many bytes: a number that was drawn at random, and then each bit of it turned.
const SIZE: usize = 32;

/// What is there where nobody has the state.
const NOBODY: [u8; SIZE] = [0; SIZE];

/// So many seconds it is waited for the last call of a server whose claim was there, and whose lock was lost.
const LAST_CALL: u64 = 1;

/// A file of the state, which is written as long as the claim is there.
pub type Owned = Claimed<File, Claim>;

/// A claim of a state, and the file that it was written to. That stays open: a read of it is asked of the file system as one of the state
/// is, and takes one call of it, where a file that is opened anew takes some.
#[derive(Drop)]
pub struct Claim {
    file: fs::File,
    bytes: [u8; SIZE],
}

impl Claim {
    /// Claims the state of a folder, whose lock this server has: from then on no other one tells a write as kept. Where it stood by
    /// for a server that may still be there, it waits for the last call of that one. `Claim` where the claim can't be written.
    pub fn take(
        rt: &HostRuntime,
        alloc: Global,
        folder: &str,
        stood_by: bool,
    ) -> Result<Claim, Refusal> {
        let path = format!(in alloc; "{folder}/state.claim")?;
        let Ok((claim, had_another)) = Claim::write(rt, path.as_str()) else {
            return Err(Refusal::Claim(String::from_str(alloc, folder)?));
        };
        if stood_by && had_another {
            thread::sleep(rt, Duration::from_secs(LAST_CALL));
        }
        Ok(claim)
    }

    // Draws a claim and writes it in place, so that it needs no room on a full disk. Half of one, as a crash may leave it, is nobody's. Whether
    // somebody's was there before.
    fn write(rt: &HostRuntime, path: &str) -> io::Result<(Claim, bool)> {
        let bytes = drawn(rt)?;
        let file = OpenOptions::new()
            .read(true)
            .write(true)
            .create(true)
            .open(rt, path)?;
        let mut found = NOBODY;
        let _shorter = file.read_at(&mut found, 0)?;
        file.write_all_at(&bytes, 0)?;
        file.sync_all()?;
        Ok((Claim { file, bytes }, found != NOBODY))
    }

    /// The same claim once more.
    pub fn again(&self) -> io::Result<Claim> {
        Ok(Claim {
            file: self.file.try_clone()?,
            bytes: self.bytes,
        })
    }

    // Whether it is the one that is there.
    fn is_there(&self) -> io::Result<bool> {
        let mut found = NOBODY;
        self.file.read_exact_at(&mut found, 0)?;
        Ok(found == self.bytes)
    }

    /// Lets go of the state, so that nobody waits for this server: it has ended, and told all that it will. Where that fails, the next
    /// one waits a second.
    pub fn end(self) -> io::Result<()> {
        if self.is_there()? {
            self.file.write_all_at(&NOBODY, 0)?;
            self.file.sync_all()?;
        }
        Ok(())
    }
}

impl<D> Claims<D> for Claim {
    ghost found_own = { λ claim disk. ⊤ };

    fn is_own(&mut self, _disk: &D) -> bool {
        matches!(self.is_there(), Ok(true))
    }
}

// The bytes of a claim that nobody else has.
fn drawn(rt: &HostRuntime) -> io::Result<[u8; SIZE]> {
    let mut bytes = NOBODY;
    let (number, turned) = bytes.split_at_mut(SIZE / 2);
    rt.fill_bytes(number)?;
    for (bit, other) in number.iter().zip(turned.iter_mut()) {
        *other = !*bit;
    }
    Ok(bytes)
}
