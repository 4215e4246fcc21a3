//! Worlds as they are saved.
ghost use Rattle.std.specs.Prelude.{◌≡◌, ◌++◌, ℕ, OnOk, IsSome, Some};
ghost use Rattle.std.specs.List.{AllByRecursion};
ghost use Rattle.std.specs.FinMap.{find};
ghost use Rattle.dav_core.specs.Path.{path_cmp};
ghost use Rattle.dav_core.specs.World.{Node as Seen};
ghost use Rattle.dav_saved.specs.Spelling.{many};
ghost use Rattle.dav_saved.specs.Parts.{AreAll, AreBoth, HasLength64};
ghost use Rattle.dav_saved.specs.Worlds.{path as saved_path, entry, AreWithin, IsSaveableNode};
ghost use Rattle.dav_store.specs.Subtrees.{paths_of};

use super::MemFs;
use crate::entries::{Entries, walk};
use crate::names::Names;
use dav_core::errors::NoMemory;
use dav_saved::{put_bytes, put_number};

// Adds a path: how many names it has, and each.
fn put_path(out: &mut Vec<u8>, path: &Names) -> Result<(), NoMemory>
    ensures added { OnOk result (out.new.items ≡ out.old.items ++ saved_path path.now) }
    ensures saveable { OnOk result (AreAll HasLength64 path.now) }
{
    let names = path.as_slice();
    put_number(out, names.len() as u64)?;
    for name in names {
        put_bytes(out, name.as_slice())?;
    }
    Ok(())
}

// Adds the node at a path, behind the path.
fn put_entry(out: &mut Vec<u8>, entries: &Entries, path: &Names) -> Result<(), NoMemory>
    requires { IsSome (find path_cmp path.now entries.now.nodes) }
    ensures added { (n : Seen) → find path_cmp path.now entries.now.nodes ≡ Some n
        → OnOk result (out.new.items ≡ out.old.items ++ entry (path.now, n)) }
    ensures saveable { (n : Seen) → find path_cmp path.now entries.now.nodes ≡ Some n
        → OnOk result ((levels : ℕ) → AreWithin levels n.properties
        → AreBoth (AreAll HasLength64) (IsSaveableNode levels) (path.now, n)) }
{
    let Some(node) = walk::node_at(entries, path) else {
        unreachable!();
    };
    put_path(out, path)?;
    node.save(out)?;
    Ok(())
}

// Adds the nodes at these paths, which are those of all.
fn put_entries(out: &mut Vec<u8>, entries: &Entries, paths: &[Names]) -> Result<(), NoMemory>
    requires { paths.now ≡ paths_of entries.now.nodes }
    ensures added { OnOk result (out.new.items ≡ out.old.items ++ many entry entries.now.nodes) }
    ensures saveable { OnOk result ((levels : ℕ)
        → AllByRecursion (λ e. AreWithin levels e.1.properties) entries.now.nodes
        → AreAll (AreBoth (AreAll HasLength64) (IsSaveableNode levels)) entries.now.nodes) }
{
    walk::see_sorted(entries);
    put_number(out, paths.len() as u64)?;
    for path in paths {
        put_entry(out, entries, path)?;
    }
    Ok(())
}

impl MemFs {
    ghost use Rattle.std.specs.Prelude.{◌≡◌, ◌++◌, ℕ, OnOk};
    ghost use Rattle.std.specs.List.{AllByRecursion};
    ghost use Rattle.dav_saved.specs.Worlds.{world, AreWithin, IsSaveableWorld};

    /// Adds the world to what is saved: the number that its next change takes, and its nodes in the
    /// order of their paths. After an error a part of it may have been added. Takes time for each node,
    /// and room for the paths of all.
    pub fn save(&self, out: &mut Vec<u8>) -> Result<(), NoMemory>
        ensures added { OnOk result (out.new.items ≡ out.old.items ++ world self.now.world) }
        // It can be read again, by as many levels as the elements of its properties have.
        ensures saveable { OnOk result ((levels : ℕ)
            → AllByRecursion (λ e. AreWithin levels e.1.properties) self.now.world.nodes
            → IsSaveableWorld levels self.now.world) }
    {
        let paths = walk::paths(*out.allocator(), &self.entries)?;
        put_number(out, self.next)?;
        put_entries(out, &self.entries, &paths)?;
        Ok(())
    }
}
