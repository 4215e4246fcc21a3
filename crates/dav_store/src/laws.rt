//! Laws of the stores in memory. The contract of each function is a theorem; its body changes nothing.
ghost use Rattle.dav_store.specs.Laws.{RefusesNothing, MemoryComesLast, NeverRunsShort};
ghost use Rattle.dav_store.specs.TreeLaws.{BeginsAtTheRoot, AddsTheNextNumber, KeepsNumbers, KeepsNumbersBelow, ClimbsFarEnough, HasOnePlaceEach, FindsChildren, IsFound, IsFoundOnce, ClimbsToTheRoot};

use crate::memfs::MemFs;
use crate::tree::Tree;
use dav_core::fs::DavFileSystem;
use std::hash::Hash;

/// A store in memory refuses no call but by the call's own rules, and memory comes last: a call is answered by what it
/// means, and only where no rule refuses it, and it allocates, may it report that memory ran out, which changes nothing
/// else.
pub fn memory_comes_last()
    ensures refusals { RefusesNothing ⟦<MemFs as DavFileSystem>⟧.state }
    ensures memory { MemoryComesLast ⟦<MemFs as DavFileSystem>⟧.state }
    ensures exact { NeverRunsShort ⟦<MemFs as DavFileSystem>⟧.state }
{}

/// In a tree no number is used twice: a node that is added takes the number after the last that was handed out, which no
/// node had, and no call makes a node of a number that was handed out before.
pub fn numbers_are_used_once<K: Eq + Hash, D>()
    ensures begins { BeginsAtTheRoot K D }
    ensures added { AddsTheNextNumber K.eq D }
    ensures kept { KeepsNumbers K.eq D }
{}

/// Nor does deleting a node with all that is below it make a node of a number that was handed out before.
pub fn numbers_below_are_used_once<K: Eq + Hash, D>()
    ensures { KeepsNumbersBelow K D }
{}

/// In every tree each node but the root stands once among the children of its parent, so under one key, and never among
/// those of another node; what is found under a key is such a child; and climbing leads from each node to the root.
pub fn each_node_has_one_place<K: Eq + Hash, D>(tree: &Tree<K, D>)
    ensures place { HasOnePlaceEach tree.now }
    ensures found { FindsChildren K.eq tree.now }
    ensures reached { ClimbsToTheRoot tree.now }
{
    tree.see_rooted();
}

/// In every tree each node but the root is the child of exactly one node under exactly one key.
pub fn each_node_has_one_key<K: Eq + Hash + Drop, D: Drop>(tree: &Tree<K, D>, id: u64)
    ensures found { IsFound K.eq tree.now id }
    ensures once { IsFoundOnce K.eq tree.now id }
{
    tree.see_rooted();
    tree.see_key(id);
}

/// What is found by climbing as many steps as a tree has nodes is all that is at or below a node: where any number of
/// steps to the parent leads to the node, these do.
pub fn climbs_are_far_enough<K: Eq + Hash, D>()
    ensures { ClimbsFarEnough K D }
{}
