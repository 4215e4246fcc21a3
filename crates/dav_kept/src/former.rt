//! The journal of a server from before it made snapshots, in either of the formats that were before.
ghost use Rattle.std.specs.Prelude.{◌∷◌, ℕ, List, None, true, IsTrue, IsFalse, IfOk};
ghost use Rattle.dav_journal.specs.Elder.{LeavesGoing, LeavesGone, Mixes};
ghost use Rattle.dav_journal.specs.Journal.{LeavesOnly};
ghost use Rattle.dav_journal.specs.Pair.{IsCleanPair, LeavesFormer, PairLeavesOnly, counting};
ghost use Rattle.dav_kept.specs.Kept.{first_block};

use crate::error::KeptError;
use crate::kept::plain_block;
use dav_journal::Pair;
use sqlite_disk::Disk;
use std::alloc::Global;

/// Takes over the journal of a server of before, which had the first of these two files: there the
/// first block is the preface alone, and the others have the same records as now. It can be of the
/// elder format (`vuldarg1`), or of the one of today (`vuldarg2`) without generations. False where
/// the first file is no such journal; of the elder format with another preface `Foreign`. A crash
/// at any moment of it leaves that journal, or the new one, or of the elder format what a further
/// call goes on with, or what `Pair::open` does. `Pair::open` comes next; after an error nothing
/// more may be asked.
pub fn adopt<D: Disk + Drop>(
    alloc: Global,
    pair: &mut Pair<D>,
    preface: &[u8],
) -> Result<bool, KeptError>
    ensures clean { IsCleanPair D.Disk pair.new → IsCleanPair D.Disk pair.old }
    ensures adopted { IfOk result (λ is. IsCleanPair D.Disk pair.new → (blocks : List (List ℕ))
        → LeavesOnly D.Disk (counting pair.old) (preface.now ∷ blocks)
        → IsTrue is × PairLeavesOnly D.Disk pair.new
        (first_block (preface.now, true) None ∷ blocks)) }
    ensures any_moment { IsCleanPair D.Disk pair.new → (blocks : List (List ℕ))
        → LeavesOnly D.Disk (counting pair.old) (preface.now ∷ blocks)
        → LeavesFormer D.Disk pair.new (preface.now ∷ blocks)
        (first_block (preface.now, true) None ∷ blocks) }
    ensures elder { IfOk result (λ is. IsCleanPair D.Disk pair.new → (blocks : List (List ℕ))
        → LeavesGoing D.Disk pair.old preface.now (first_block (preface.now, true) None) blocks
        → IsTrue is × PairLeavesOnly D.Disk pair.new
        (first_block (preface.now, true) None ∷ blocks)) }
    ensures elder_any_moment { Mixes D.Disk → IsCleanPair D.Disk pair.new
        → (blocks : List (List ℕ))
        → LeavesGoing D.Disk pair.old preface.now (first_block (preface.now, true) None) blocks
        → LeavesGone D.Disk pair.new preface.now (first_block (preface.now, true) None) blocks }
    ensures another { IfOk result (λ is. IsFalse is → IsCleanPair D.Disk pair.new
        → (contents : List (List ℕ)) → PairLeavesOnly D.Disk pair.old contents
        → PairLeavesOnly D.Disk pair.new contents) }
{
    let first = plain_block(alloc, preface, true)?;
    if pair.adopt_elder(alloc, preface, &first)? {
        return Ok(true);
    }
    Ok(pair.adopt(alloc, preface, &first)?)
}
