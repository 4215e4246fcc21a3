//! Walks by names down a tree.
ghost use Rattle.std.specs.Prelude.{◌≡◌, ◌∷◌, ◌++◌, [], option_copied};
ghost use Rattle.std.specs.Option.{option_and_then};
ghost use Rattle.dav_core.specs.Path.{names, parent_of};
ghost use Rattle.dav_store.specs.Tree.{value_of};
ghost use Rattle.dav_store.specs.Placed.{found, named, bare};

use crate::names::{Name, Names};
use crate::node::Node;
use crate::tree::{ROOT_ID, Tree};
use dav_core::davpath::DavPath;

/// The numbers of the nodes at a path and above it.
#[derive(Clone, Copy)]
pub struct Found {
    pub at: Option<u64>,
    pub above: Option<u64>,
}

// The number of the child under a name; none of no node.
#[tactic(auto, using(crate::proofs::BareTrees::named_bare))]
pub(super) fn child(tree: &Tree<Vec<u8>, Node>, parent: Option<u64>, name: &[u8]) -> Option<u64>
    ensures { result ≡ option_and_then (λ n. named (bare tree.now) n name.now) parent }
{
    tree.get_child_bytes(parent?, name).ok()
}

/// The value of a node; none of no node.
pub fn value<'a>(tree: &'a Tree<Vec<u8>, Node>, id: Option<u64>) -> Option<&'a Node>
    ensures { option_copied result ≡ option_and_then (value_of tree.now) id }
{
    match id {
        Some(id) => match tree.get_node(id) {
            Ok(node) => Some(node),
            Err(_) => None,
        },
        None => None,
    }
}

/// The nodes at a path and above it, found by its names, which are not copied. What is above the root is the root.
pub fn find(tree: &Tree<Vec<u8>, Node>, path: &DavPath) -> Found
    ensures at { result.at ≡ found (bare tree.now) (names path.now) }
    ensures above { result.above ≡ found (bare tree.now) (parent_of (names path.now)) }
{
    let mut at = Some(ROOT_ID);
    let mut above = at;
    for name in path.segments() {
        above = at;
        at = child(tree, at, name);
    }
    Found { at, above }
}

/// The node at a name in a folder.
pub fn find_member(tree: &Tree<Vec<u8>, Node>, folder: &Names, name: &Name) -> Option<u64>
    ensures { result ≡ found (bare tree.now) (folder.now ++ name.now ∷ []) }
{
    let mut at = Some(ROOT_ID);
    for above in folder.as_slice() {
        at = child(tree, at, above.as_slice());
    }
    child(tree, at, name.as_slice())
}
