//! A write of a block that a crash leaves whole or without effect.
ghost use Rattle.std.specs.Prelude.{◌≡◌, ◌≢◌, ◌+◌, ◌<◌, ◌≤◌, ◌^◌, ℕ, List, length, slice_index, [], ◌∷◌, ◌++◌, OnOk, IsTrue};
ghost use Rattle.sqlite_disk.specs.Disk.{Follows, Holds, Mixed, Only, Torn};
ghost use Rattle.dav_journal.specs.Block.{block_bytes};
ghost use Rattle.dav_journal.specs.Journal.{LeavesAtMost, Rests};
ghost use Rattle.dav_journal.specs.Parts.{IsGated, bytes_in};
ghost use Rattle.dav_journal.specs.Write.{AllOrShut, KeepsFront};

use crate::parts::Parts;
use sqlite_disk::Disk;
use std::io;

// Writes bytes, of which there may be none.
fn write_part<D: Disk>(disk: &mut D, at: usize, bytes: &[u8]) -> io::Result<()>
    requires usable { IsTrue (D.Disk.is_usable disk.old) }
    ensures clean { IsTrue (D.Disk.is_clean disk.new) → IsTrue (D.Disk.is_clean disk.old) }
    ensures usable { IsTrue (D.Disk.is_usable disk.new) }
    ensures mixing { D.Disk.is_mixing disk.new ≡ D.Disk.is_mixing disk.old }
    ensures written { OnOk result (0 < length bytes.now
        → Holds (D.Disk.seen disk.new) at bytes.now) }
    ensures others { Torn at (length bytes.now) (D.Disk.seen disk.old) (D.Disk.seen disk.new) }
    ensures mixed { IsTrue (D.Disk.is_mixing disk.old) → at + length bytes.now < 2 ^ 64
        → Follows (Mixed at bytes.now) (D.Disk.may_leave disk.old) (D.Disk.may_leave disk.new) }
    ensures crash { Follows (Torn at (length bytes.now))
        (D.Disk.may_leave disk.old) (D.Disk.may_leave disk.new) }
{
    if bytes.is_empty() {
        return Ok(());
    }
    disk.write_at(at, bytes)
}

// Writes parts one behind another, as `write_at` does all of them at once.
fn write_parts<D: Disk>(disk: &mut D, at: usize, bytes: &Parts<'_>) -> io::Result<()>
    requires usable { IsTrue (D.Disk.is_usable disk.old) }
    requires some { 0 < length bytes.now.first }
    requires fits { at + length (bytes_in bytes.now) < 2 ^ 64 }
    ensures clean { IsTrue (D.Disk.is_clean disk.new) → IsTrue (D.Disk.is_clean disk.old) }
    ensures usable { IsTrue (D.Disk.is_usable disk.new) }
    ensures written { OnOk result (Holds (D.Disk.seen disk.new) at (bytes_in bytes.now)) }
    ensures others { Torn at (length (bytes_in bytes.now))
        (D.Disk.seen disk.old) (D.Disk.seen disk.new) }
    ensures mixed { IsTrue (D.Disk.is_mixing disk.old) → Follows (Mixed at (bytes_in bytes.now))
        (D.Disk.may_leave disk.old) (D.Disk.may_leave disk.new) }
    ensures crash { Follows (Torn at (length (bytes_in bytes.now)))
        (D.Disk.may_leave disk.old) (D.Disk.may_leave disk.new) }
{
    let body_at = at + bytes.first.len();
    write_part(disk, at, bytes.first)?;
    write_part(disk, body_at, bytes.body)?;
    write_part(disk, body_at + bytes.body.len(), bytes.last)
}

// Writes bytes behind their gate, which is the first of them, syncs, opens the gate, and syncs. Of the disk nothing is supposed
// but its model.
pub fn write_twice<D: Disk>(disk: &mut D, at: usize, bytes: &Parts<'_>) -> io::Result<()>
    requires usable { IsTrue (D.Disk.is_usable disk.old) }
    requires gated { IsGated bytes.now }
    requires fits { at + length (bytes_in bytes.now) < 2 ^ 64 }
    ensures clean { IsTrue (D.Disk.is_clean disk.new) → IsTrue (D.Disk.is_clean disk.old) }
    ensures written { OnOk result (Holds (D.Disk.seen disk.new) at (bytes_in bytes.now)) }
    ensures synced { OnOk result (Only (D.Disk.seen disk.new) (D.Disk.may_leave disk.new)) }
    ensures usable { OnOk result (IsTrue (D.Disk.is_usable disk.new)) }
    ensures front { at ≤ length (D.Disk.seen disk.old)
        → KeepsFront at (D.Disk.seen disk.old) (D.Disk.seen disk.new) }
    ensures crash { Follows (AllOrShut at (bytes_in bytes.now))
        (D.Disk.may_leave disk.old) (D.Disk.may_leave disk.new) }
{
    write_parts(disk, at + 1, &bytes.behind_gate())?;
    disk.sync()?;
    disk.write_at(at, bytes.gate())?;
    disk.sync()
}

// Writes a block at once, over zeros that are kept, and syncs: one sync. It is supposed of the disk that a crash leaves each byte
// as it was or as it was written (`is_mixing`).
pub fn write_once<D: Disk>(disk: &mut D, at: usize, bytes: &Parts<'_>) -> io::Result<()>
    requires usable { IsTrue (D.Disk.is_usable disk.old) }
    requires gated { IsGated bytes.now }
    requires fits { at + length (bytes_in bytes.now) < 2 ^ 64 }
    ensures clean { IsTrue (D.Disk.is_clean disk.new) → IsTrue (D.Disk.is_clean disk.old) }
    ensures written { OnOk result (Holds (D.Disk.seen disk.new) at (bytes_in bytes.now)) }
    ensures synced { OnOk result (Only (D.Disk.seen disk.new) (D.Disk.may_leave disk.new)) }
    ensures others { Torn at (length (bytes_in bytes.now)) (D.Disk.seen disk.old)
        (D.Disk.seen disk.new) }
    ensures crash { IsTrue (D.Disk.is_mixing disk.old)
        → (key upto : ℕ) (contents : List (List ℕ)) (content : List ℕ) → key < 2 ^ 64
        → bytes_in bytes.now ≡ block_bytes key at content ++ 0 ∷ []
        → at + length (bytes_in bytes.now) ≤ upto
        → ((c : List ℕ) → D.Disk.may_leave disk.old c → Rests key contents at upto c)
        → LeavesAtMost D.Disk disk.new contents content }
{
    write_parts(disk, at, bytes)?;
    disk.sync()
}
