//! A file that another process writes, read alone.
ghost use Rattle.std.specs.Prelude.{◌≡◌, [], false, refl, IfOk, IsErr, IsTrue};
ghost use Rattle.sqlite_disk.specs.Disk.{CountsFault};
ghost use Rattle.sqlite_disk.specs.Refusal.{finds_no_room};
ghost use Rattle.dav_follow.specs.Shown.{can_be_read};

use sqlite_disk::{Disk, Tally};
use std::fs::File;
use std::io;
use std::os::unix::fs::FileExt;

/// A file that another process writes: a disk that is read alone. What it showed once may be other
/// later, so nothing that rests on a clean disk is promised over it.
#[derive(Drop)]
pub struct Shown {
    file: File,
    is_usable: bool,
    /// How many calls failed.
    failed: u64,
}

impl Shown {
    /// The file of this name, which has to be there.
    pub fn open(rt: &HostRuntime, path: &str) -> io::Result<Shown>
        ensures { IfOk result (λ s. IsTrue (can_be_read s)) }
    {
        Ok(Shown {
            file: File::open(rt, path)?,
            is_usable: true,
            failed: 0,
        })
    }

    // Counts a call that failed.
    fn counted<T>(&mut self, answer: io::Result<T>) -> io::Result<T>
        ensures same { result ≡ answer }
        ensures faults { CountsFault answer self.old.failed self.new.failed }
        ensures usable { self.new.is_usable ≡ self.old.is_usable }
    {
        if answer.is_err() {
            self.failed = self.failed.saturating_add(1);
        }
        answer
    }

    // A call that isn't made.
    fn refused(&mut self) -> io::Result<()>
        ensures err { IsErr result }
        ensures faults { CountsFault result self.old.failed self.new.failed }
        ensures kind { finds_no_room result ≡ false }
        ensures usable { self.new.is_usable ≡ self.old.is_usable }
    {
        self.failed = self.failed.saturating_add(1);
        Err(io::ErrorKind::PermissionDenied.into())
    }
}

impl Disk for Shown {
    ghost seen = { λ _. [] };

    ghost may_leave = { λ _ left. left ≡ [] };

    ghost is_usable = { λ s. s.is_usable };

    ghost faults = { λ s. s.failed };

    ghost tally_of = { λ _. record { caught = 0; refused = 0 } };

    ghost is_clean = { λ _. false };

    ghost key_of = { λ _. 0 };

    ghost is_fair = { λ _ _. false };

    ghost seen_may_stay = { λ _. refl };

    ghost fair_if_clean = { λ _ _ clean. clean };

    fn mixes(&self) -> bool {
        false
    }

    fn key(&self) -> u64 {
        0
    }

    fn tally(&self) -> Tally {
        Tally {
            caught: 0,
            refused: 0,
        }
    }

    fn may_be_used(&self) -> bool {
        self.is_usable
    }

    fn len(&mut self) -> io::Result<usize> {
        let found = self.file.metadata();
        Ok(self.counted(found)?.len() as usize)
    }

    fn read_at(&mut self, at: usize, buf: &mut [u8]) -> io::Result<()> {
        let read = self.file.read_exact_at(buf, at as u64);
        self.counted(read)
    }

    fn read_checked(
        &mut self,
        _key: u64,
        _want: u64,
        _at: usize,
        _buf: &mut [u8],
    ) -> io::Result<()> {
        self.refused()
    }

    fn write_at(&mut self, _at: usize, _bytes: &[u8]) -> io::Result<()> {
        self.refused()
    }

    fn set_len(&mut self, _len: usize) -> io::Result<()> {
        self.refused()
    }

    // What the other process wrote may be synced from here too.
    fn sync(&mut self) -> io::Result<()> {
        if self.file.sync_data().is_err() {
            self.is_usable = false;
            return self.refused();
        }
        Ok(())
    }
}
