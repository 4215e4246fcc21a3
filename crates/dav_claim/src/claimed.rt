//! A disk that is written only as long as the claim is there.
ghost use Rattle.std.specs.Prelude.{◌≡◌, ◌⊎◌, ◌+◌, ◌^◌, ◌<◌, ◌≤◌, ◌&&◌, ℕ, List, length, not, false, is_ok, IsErr, IsTrue, OnOk};
ghost use Rattle.sqlite_disk.specs.Disk.{CountsFault, CountsFaultIf, Cut, Follows, Holds, Mixed, Only, StaysFrozen, Torn};
ghost use Rattle.sqlite_disk.specs.Refusal.{finds_no_room};
ghost use Rattle.sqlite_disk.specs.Tally.{CountsRefusal};

#[cfg(test)]
mod tests;

use crate::claims::Claims;
use sqlite_disk::{Disk, Tally};
use std::io;

/// A write of so many bytes has a look of its own.
const LARGE: usize = 65_536;

/// A disk with a claim: the claim is looked for before the first write since the last read, before
/// each write of 65,536 bytes or more and each new length, and after each sync. Where it isn't there,
/// nothing is written, and no sync is told as done.
#[derive(Drop)]
pub struct Claimed<D: Disk, C> {
    disk: D,
    look: Look<C>,
    /// Whether the claim wasn't there after a sync: nothing more may be asked.
    is_lost: bool,
}

// A claim, and what the looks for it found.
#[derive(Drop)]
struct Look<C> {
    claim: C,
    /// Whether it was found since the last read.
    is_found: bool,
    /// How many calls failed for want of it.
    refused: u64,
}

impl<C> Look<C> {
    ghost use Rattle.dav_claim.specs.Claim.{found_by, found_since, refused_by};

    // Sees that the claim is there, while the disk is as it is.
    fn see<D>(&mut self, disk: &D) -> io::Result<()>
    where
        C: Claims<D>,
        ensures found { OnOk result (C.found_own (found_by self.new) disk.now) }
        ensures noted { found_since self.new ≡ is_ok result }
        ensures faults { CountsFault result (refused_by self.old) (refused_by self.new) }
        ensures kind { finds_no_room result ≡ false }
    {
        self.is_found = self.claim.is_own(disk);
        if self.is_found {
            return Ok(());
        }
        self.refused = self.refused.saturating_add(1);
        Err(io::Error::other("the claim isn't there"))
    }

    // The same, unless it was seen since the last read.
    fn see_once<D>(&mut self, disk: &D) -> io::Result<()>
    where
        C: Claims<D>,
        ensures found { OnOk result (found_since self.old ≡ false
            → C.found_own (found_by self.new) disk.now) }
        ensures noted { found_since self.new ≡ is_ok result }
        ensures faults { CountsFault result (refused_by self.old) (refused_by self.new) }
        ensures kind { finds_no_room result ≡ false }
    {
        if self.is_found {
            return Ok(());
        }
        self.see(disk)
    }

    // The same, before a write of so many bytes: a large one has a look of its own.
    fn see_before<D>(&mut self, disk: &D, count: usize) -> io::Result<()>
    where
        C: Claims<D>,
        ensures found { OnOk result (found_since self.old ≡ false
            → C.found_own (found_by self.new) disk.now) }
        ensures large { OnOk result (65536 ≤ count → C.found_own (found_by self.new) disk.now) }
        ensures noted { found_since self.new ≡ is_ok result }
        ensures faults { CountsFault result (refused_by self.old) (refused_by self.new) }
        ensures kind { finds_no_room result ≡ false }
    {
        if count >= LARGE {
            return self.see(disk);
        }
        self.see_once(disk)
    }
}

impl<D: Disk, C> Claimed<D, C> {
    ghost use Rattle.dav_claim.specs.Claim.{IsFresh, claim_of, disk_of};

    /// A disk that is written under this claim.
    pub fn new(disk: D, claim: C) -> Claimed<D, C>
        ensures disk { disk_of result ≡ disk }
        ensures claim { claim_of result ≡ claim }
        ensures fresh { IsFresh result }
    {
        Claimed {
            disk,
            look: Look {
                claim,
                is_found: false,
                refused: 0,
            },
            is_lost: false,
        }
    }
}

impl<D: Disk, C: Claims<D>> Disk for Claimed<D, C> {
    ghost use Rattle.dav_claim.specs.Claim.{can_be_used, claim_of, disk_of, faults_of, is_found};

    ghost seen = { λ w. D.Disk.seen w.disk };

    ghost may_leave = { λ w. D.Disk.may_leave w.disk };

    ghost is_usable = { λ w. D.Disk.is_usable w.disk && not w.is_lost };

    ghost faults = { λ w. D.Disk.faults w.disk + w.look.refused };

    ghost tally_of = { λ w. D.Disk.tally_of w.disk };

    ghost is_rotten = { λ w. D.Disk.is_rotten w.disk };

    ghost key_of = { λ w. D.Disk.key_of w.disk };

    ghost is_frozen = { λ w. D.Disk.is_frozen w.disk };

    ghost is_clean = { λ w. D.Disk.is_clean w.disk };

    ghost is_fair = { λ w. D.Disk.is_fair w.disk };

    ghost fair_if_clean = { λ w. D.Disk.fair_if_clean w.disk };

    ghost seen_may_stay = { λ w. D.Disk.seen_may_stay w.disk };

    ghost is_mixing = { λ w. D.Disk.is_mixing w.disk };

    fn mixes(&self) -> bool {
        self.disk.mixes()
    }

    fn key(&self) -> u64 {
        self.disk.key()
    }

    fn tally(&self) -> Tally {
        self.disk.tally()
    }

    fn may_be_used(&self) -> bool {
        self.disk.may_be_used() && !self.is_lost
    }

    fn len(&mut self) -> io::Result<usize> {
        self.look.is_found = false;
        self.disk.len()
    }

    fn read_at(&mut self, at: usize, buf: &mut [u8]) -> io::Result<()> {
        self.look.is_found = false;
        self.disk.read_at(at, buf)
    }

    fn read_checked(&mut self, key: u64, want: u64, at: usize, buf: &mut [u8]) -> io::Result<()> {
        self.look.is_found = false;
        self.disk.read_checked(key, want, at, buf)
    }

    fn write_at(&mut self, at: usize, bytes: &[u8]) -> io::Result<()>
        requires { IsTrue (can_be_used D.is_usable self.old) }
        ensures own { OnOk result (is_found self.old ≡ false
            → C.found_own (claim_of self.new) (disk_of self.old)) }
        ensures large { OnOk result (65536 ≤ length bytes.now
            → C.found_own (claim_of self.new) (disk_of self.old)) }
        ensures unfound { is_found self.new ≡ false
            → IsErr result × (disk_of self.new ≡ disk_of self.old) }
        ensures written { OnOk result (0 < length bytes.now
            → Holds (D.seen (disk_of self.new)) at bytes.now) }
        ensures faults { CountsFault result (faults_of D.faults self.old)
            (faults_of D.faults self.new) }
        ensures clean { IsTrue (D.is_clean (disk_of self.new))
            → IsTrue (D.is_clean (disk_of self.old)) }
        ensures calm { D.is_clean (disk_of self.new) ≡ D.is_clean (disk_of self.old) }
        ensures fair { D.is_fair (disk_of self.new) ≡ D.is_fair (disk_of self.old) }
        ensures frozen { IsTrue (D.is_frozen (disk_of self.old)) → IsErr result
            × StaysFrozen (λ w. D.seen (disk_of w)) (λ w. D.may_leave (disk_of w))
            (λ w. D.is_clean (disk_of w)) (λ w. D.is_frozen (disk_of w)) self.old self.new }
        ensures tally { CountsRefusal result (D.tally_of (disk_of self.old))
            (D.tally_of (disk_of self.new)) }
        ensures key { D.key_of (disk_of self.new) ≡ D.key_of (disk_of self.old) }
        ensures others { Torn at (length bytes.now) (D.seen (disk_of self.old))
            (D.seen (disk_of self.new)) }
        ensures usable { IsTrue (can_be_used D.is_usable self.new) }
        ensures mixing { D.is_mixing (disk_of self.new) ≡ D.is_mixing (disk_of self.old) }
        ensures mixed { IsTrue (D.is_mixing (disk_of self.old)) → at + length bytes.now < 2 ^ 64
            → Follows (Mixed at bytes.now) (D.may_leave (disk_of self.old))
            (D.may_leave (disk_of self.new)) }
        ensures crash { Follows (Torn at (length bytes.now)) (D.may_leave (disk_of self.old))
            (D.may_leave (disk_of self.new)) }
    {
        self.look.see_before(&self.disk, bytes.len())?;
        self.disk.write_at(at, bytes)
    }

    fn set_len(&mut self, len: usize) -> io::Result<()>
        requires { IsTrue (can_be_used D.is_usable self.old) }
        ensures own { OnOk result (C.found_own (claim_of self.new) (disk_of self.old)) }
        ensures unfound { is_found self.new ≡ false
            → IsErr result × (disk_of self.new ≡ disk_of self.old) }
        ensures len { OnOk result (length (D.seen (disk_of self.new)) ≡ len) }
        ensures faults { CountsFault result (faults_of D.faults self.old)
            (faults_of D.faults self.new) }
        ensures clean { IsTrue (D.is_clean (disk_of self.new))
            → IsTrue (D.is_clean (disk_of self.old)) }
        ensures calm { D.is_clean (disk_of self.new) ≡ D.is_clean (disk_of self.old) }
        ensures fair { D.is_fair (disk_of self.new) ≡ D.is_fair (disk_of self.old) }
        ensures frozen { IsTrue (D.is_frozen (disk_of self.old)) → IsErr result
            × StaysFrozen (λ w. D.seen (disk_of w)) (λ w. D.may_leave (disk_of w))
            (λ w. D.is_clean (disk_of w)) (λ w. D.is_frozen (disk_of w)) self.old self.new }
        ensures tally { CountsRefusal result (D.tally_of (disk_of self.old))
            (D.tally_of (disk_of self.new)) }
        ensures key { D.key_of (disk_of self.new) ≡ D.key_of (disk_of self.old) }
        ensures others { Cut len (D.seen (disk_of self.old)) (D.seen (disk_of self.new)) }
        ensures usable { IsTrue (can_be_used D.is_usable self.new) }
        ensures crash { Follows (Cut len) (D.may_leave (disk_of self.old))
            (D.may_leave (disk_of self.new)) }
    {
        self.look.see(&self.disk)?;
        self.disk.set_len(len)
    }

    fn sync(&mut self) -> io::Result<()>
        requires { IsTrue (can_be_used D.is_usable self.old) }
        ensures own { OnOk result (C.found_own (claim_of self.new) (disk_of self.new)) }
        ensures durable { OnOk result (Only (D.seen (disk_of self.old))
            (D.may_leave (disk_of self.new))) }
        ensures faults { CountsFault result (faults_of D.faults self.old)
            (faults_of D.faults self.new) }
        ensures clean { IsTrue (D.is_clean (disk_of self.new))
            → IsTrue (D.is_clean (disk_of self.old)) }
        ensures calm { D.is_clean (disk_of self.new) ≡ D.is_clean (disk_of self.old) }
        ensures fair { D.is_fair (disk_of self.new) ≡ D.is_fair (disk_of self.old) }
        ensures frozen { IsTrue (D.is_frozen (disk_of self.old)) → IsErr result
            × StaysFrozen (λ w. D.seen (disk_of w)) (λ w. D.may_leave (disk_of w))
            (λ w. D.is_clean (disk_of w)) (λ w. D.is_frozen (disk_of w)) self.old self.new }
        ensures tally { CountsRefusal result (D.tally_of (disk_of self.old))
            (D.tally_of (disk_of self.new)) }
        ensures key { D.key_of (disk_of self.new) ≡ D.key_of (disk_of self.old) }
        ensures seen { D.seen (disk_of self.new) ≡ D.seen (disk_of self.old) }
        ensures rot { D.is_rotten (disk_of self.new) ≡ D.is_rotten (disk_of self.old) }
        ensures usable { can_be_used D.is_usable self.new ≡ is_ok result }
        ensures crash { (c : List ℕ) → D.may_leave (disk_of self.new) c
            → D.may_leave (disk_of self.old) c }
    {
        self.disk.sync()?;
        if let Err(error) = self.look.see(&self.disk) {
            self.is_lost = true;
            return Err(error);
        }
        Ok(())
    }
}
