//! Worlds as they are read.
ghost use Rattle.std.specs.Prelude.{◌≡◌, ◌≢◌, ◌<◌, ◌≤◌, ◌+◌, ◌==◌, ◌||◌, ◌++◌, ◌∷◌, [], not, true, false, nat_eq, ℕ, T, All, IfOk, IfErr, OnOk, MatchResult, length};
ghost use Rattle.std.specs.Bool.{Decides};
ghost use Rattle.std.specs.HashSet.{contains};
ghost use Rattle.std.specs.List.{AllByRecursion};
ghost use Rattle.std.specs.FinMap.{find, put, is_sorted};
ghost use Rattle.dav_core.specs.Numbers.{max_u64};
ghost use Rattle.dav_core.specs.Path.{path_cmp, parent_of, names, IsName};
ghost use Rattle.dav_core.specs.World.{is_folder_node, last_number, IsWorld};
ghost use Rattle.dav_saved.specs.Reading.{many_at};
ghost use Rattle.dav_saved.specs.Worlds.{entry_at, world_at};
ghost use Rattle.dav_saved.specs.declared.errors.LoadError.TheVariants.{NotSaved as NoWorld};
ghost use Rattle.dav_store.specs.Makings.{IsUnmade};
ghost use Rattle.dav_store.specs.Loaded.{GivesOnly, IsFit, AreApart, IsListing, HaveFolders, begins_with_root};

use super::MemFs;
use crate::entries::{self, Entries, changes};
use crate::names::Names;
use crate::node::Node;
use dav_core::davpath::DavPath;
use dav_core::errors::NoMemory;
use dav_saved::{LoadError, number_of};
use std::alloc::Global;
use std::collections::HashSet;

// The node in front of bytes with its path, and what is behind it.
fn entry_of(
    alloc: Global,
    levels: usize,
    next: u64,
    bytes: &[u8],
) -> Result<((Names, Node), &[u8]), LoadError>
    ensures { GivesOnly (IsFit next) (λ x. (x.0, x.1.now)) result (entry_at levels bytes.now) }
{
    let (path, rest) = Names::load(alloc, bytes)?;
    let (node, rest) = Node::load(alloc, levels, next, rest)?;
    Ok(((path, node), rest))
}

// So many nodes in front of bytes, and what is behind them.
fn entries_of(
    alloc: Global,
    levels: usize,
    next: u64,
    count: u64,
    bytes: &[u8],
) -> Result<(Vec<(Names, Node)>, &[u8]), LoadError>
    ensures { GivesOnly (AllByRecursion (IsFit next)) (λ x. (x.0.items, x.1.now)) result
        (many_at (entry_at levels) count bytes.now) }
{
    let mut list = Vec::new(alloc);
    let mut rest = bytes;
    for _ in 0..count {
        let (entry, after) = entry_of(alloc, levels, next, rest)?;
        list.push(entry)?;
        rest = after;
    }
    Ok((list, rest))
}

// The next change number in front of bytes, the nodes behind it, and what is behind them.
fn list_of(
    alloc: Global,
    levels: usize,
    bytes: &[u8],
) -> Result<((u64, Vec<(Names, Node)>), &[u8]), LoadError>
    ensures read { GivesOnly (λ w. AllByRecursion (IsFit w.next) w.nodes)
        (λ x. (record { nodes = x.0.1.items; next = x.0.0 }, x.1.now)) result
        (world_at levels bytes.now) }
    ensures next { IfOk result (λ x. x.0.0 ≤ last_number) }
{
    let (next, rest) = number_of(bytes)?;
    let (count, rest) = number_of(rest)?;
    let (list, rest) = entries_of(alloc, levels, next, count, rest)?;
    Ok(((next, list), rest))
}

// Whether nodes are in the order of their paths, each path once.
fn is_rising(list: &[(Names, Node)]) -> bool
    ensures { Decides result (T (is_sorted path_cmp list.now)) }
{
    for i in 1..list.len() {
        if !list[i - 1].0.compare(&list[i].0).is_lt() {
            return false;
        }
    }
    true
}

// Whether the first node is at the root, a folder, and was created under number 0.
fn begins_with_root(list: &[(Names, Node)]) -> bool
    ensures { result ≡ begins_with_root list.now }
{
    match list {
        [] => false,
        [root, ..] => {
            root.0.as_slice().is_empty() && root.1.is_folder() && root.1.creation_number() == 0
        }
    }
}

// Whether neither change number of a node is taken; then both are from now on.
fn take_numbers(taken: &mut HashSet<u64>, node: &Node) -> Result<bool, NoMemory>
    ensures free { IfOk result (λ free. free ≡ not
        (contains nat_eq taken.old node.now.number || contains nat_eq taken.old node.now.made)) }
    ensures taken { IfOk result (λ free. free ≡ true → (k : ℕ) → contains nat_eq taken.new k
        ≡ (((k == node.now.number) || (k == node.now.made)) || contains nat_eq taken.old k)) }
{
    let number = node.number();
    let made = node.creation_number();
    if taken.contains(&number) || taken.contains(&made) {
        return Ok(false);
    }
    let _ = taken.insert(number)?;
    let _ = taken.insert(made)?;
    Ok(true)
}

// Whether no two nodes have a change number in common. Takes time and room for each node.
fn are_apart(alloc: Global, list: &[(Names, Node)]) -> Result<bool, NoMemory>
    ensures { IfOk result (λ are. Decides are (AreApart list.now)) }
{
    let mut taken = HashSet::new(alloc);
    for entry in list {
        if !take_numbers(&mut taken, &entry.1)? {
            return Ok(false);
        }
    }
    Ok(true)
}

// Whether nodes are listed as those of a world.
fn is_listing(alloc: Global, list: &[(Names, Node)]) -> Result<bool, NoMemory>
    ensures { IfOk result (λ is. Decides is (IsListing list.now)) }
{
    if !is_rising(list) {
        return Ok(false);
    }
    if !begins_with_root(list) {
        return Ok(false);
    }
    are_apart(alloc, list)
}

// The path of these names.
fn path_of(alloc: Global, path: &Names) -> Result<DavPath, NoMemory>
    requires { All IsName path.now }
    ensures { IfOk result (λ p. names p ≡ path.now) }
{
    let mut bytes = Vec::new(alloc);
    for name in path.as_slice() {
        bytes.push(b'/')?;
        bytes.extend_from_slice(name.as_slice())?;
    }
    DavPath::from_parts(alloc, "", &bytes)
}

// Puts a node at a path where nothing is. `NotSaved` where no folder is above it.
fn put_entry(
    alloc: Global,
    entries: &mut Entries,
    path: &Names,
    node: Node,
) -> Result<(), LoadError>
    requires names { All IsName path.now }
    requires free { find path_cmp path.now entries.old.nodes ≡ None }
    requires new { IsUnmade node.made entries.old.nodes }
    requires numbers { entries.old.last < max_u64 }
    ensures ok { OnOk result (entries.new ≡ record {
      nodes = put path_cmp path.now node entries.old.nodes;
      last = entries.old.last + 1;
    }) }
    ensures folder { OnOk result (is_folder_node
        (find path_cmp (parent_of path.now) entries.old.nodes) ≡ true) }
    ensures err { IfErr result (λ e. e ≡ NoWorld → is_folder_node
        (find path_cmp (parent_of path.now) entries.old.nodes) ≡ false) }
{
    let path = path_of(alloc, path)?;
    if !entries::has_folder(entries, &path) {
        return Err(LoadError::NotSaved);
    }
    changes::put_new(alloc, entries, &path, node)?;
    Ok(())
}

// The tree of these nodes. `NotSaved` where one isn't in a folder.
fn tree_of(alloc: Global, mut list: Vec<(Names, Node)>) -> Result<Entries, LoadError>
    requires listing { IsListing list.items }
    requires names { AllByRecursion (λ e. All IsName e.0) list.items }
    requires few { length list.items < max_u64 }
    ensures { MatchResult result
        (λ es. (es ≡ record { nodes = list.items; last = length list.items })
        × HaveFolders list.items list.items)
        (λ e. e ≡ NoWorld → ¬ HaveFolders list.items list.items) }
{
    let (_, root) = list.remove(0);
    let mut entries = entries::of_root(alloc, root)?;
    for (path, node) in list {
        put_entry(alloc, &mut entries, &path, node)?;
    }
    Ok(entries)
}

// What `MemFs::load` reads.
fn read_world(alloc: Global, levels: usize, bytes: &[u8]) -> Result<(MemFs, &[u8]), LoadError>
    ensures exact { GivesOnly IsWorld (λ x. (x.0.world, x.1.now)) result
        (world_at levels bytes.now) }
    ensures whole_store { IfOk result (λ x. x.0.short ≡ false) }
{
    let ((next, list), rest) = list_of(alloc, levels, bytes)?;
    if !is_listing(alloc, &list)? {
        return Err(LoadError::NotSaved);
    }
    let entries = tree_of(alloc, list)?;
    let fs = MemFs {
        entries,
        next,
        short: false,
    };
    Ok((fs, rest))
}

impl MemFs {
    ghost use Rattle.std.specs.Prelude.{◌≡◌, ◌++◌, ℕ, List, IfOk, Some, false};
    ghost use Rattle.dav_core.specs.World.{World, IsWorld};
    ghost use Rattle.dav_saved.specs.Reading.{Gives};
    ghost use Rattle.dav_saved.specs.Worlds.{world, world_at, IsSaveableWorld};
    ghost use Rattle.dav_store.specs.Loaded.{GivesOnly};

    /// The store of the world in front of bytes, and what is behind it. `NotSaved` where no world is there whose elements have
    /// at most so many levels. Takes time for each node, and room for all of them once more.
    pub fn load(alloc: Global, levels: usize, bytes: &[u8]) -> Result<(MemFs, &[u8]), LoadError>
        // What is read is saved so.
        ensures whole { IfOk result (λ x. bytes.now ≡ world x.0.world ++ x.1.now) }
        // A world that is saved so is read again, whatever follows, unless memory runs out.
        ensures back { (w : World) (rest : List ℕ) → IsWorld w → IsSaveableWorld levels w
            → bytes.now ≡ world w ++ rest
            → Gives {Y = World × List ℕ} (λ x. (x.0.world, x.1.now)) result (Some (w, rest)) }
        // What is read is a world, and what is refused is none.
        ensures exact { GivesOnly IsWorld (λ x. (x.0.world, x.1.now)) result
            (world_at levels bytes.now) }
        // No allocation in the store has failed.
        ensures fresh { IfOk result (λ x. x.0.short ≡ false) }
    {
        read_world(alloc, levels, bytes)
    }
}
