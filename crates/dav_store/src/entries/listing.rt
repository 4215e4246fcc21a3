//! The members of a folder, in the order of their names' bytes.
ghost use Rattle.std.specs.Prelude.{◌≡◌, IfOk, IsSome, All, map, IsPermutation, IsSorted};
ghost use Rattle.dav_core.specs.Path.{names, IsSegment};
ghost use Rattle.dav_core.specs.World.{members, is_folder_node};
ghost use Rattle.dav_store.specs.Tree.{node, value_of, children_of};
ghost use Rattle.dav_store.specs.Placed.{bare, bare_children};
ghost use Rattle.dav_store.specs.ChildOrder.{child_cmp};

use super::{Entries, finding, want_of_memory};
use crate::names::Name;
use crate::node::Node;
use crate::tree::Tree;
use dav_core::davpath::DavPath;
use dav_core::errors::NoMemory;
use std::alloc::Global;

// Whether a node is a folder.
fn is_folder(tree: &Tree<Vec<u8>, Node>, id: u64) -> bool
    ensures { result ≡ is_folder_node (value_of tree.now id) }
{
    match tree.get_node(id) {
        Ok(node) => node.is_folder(),
        Err(_) => false,
    }
}

// The children of a node in order: clones of their keys, and their numbers.
pub(super) fn sorted_children(
    alloc: Global,
    tree: &Tree<Vec<u8>, Node>,
    id: u64,
) -> Result<Vec<(Vec<u8>, u64)>, NoMemory>
    requires { IsSome (node tree.now id) }
    ensures children { IfOk result
        (λ list. IsPermutation (children_of (bare tree.now) id) (bare_children list.items)) }
    ensures sorted { IfOk result (λ list. IsSorted child_cmp list.items) }
{
    let children = match tree.get_children(alloc, id) {
        Ok(children) => children,
        Err(e) => return Err(want_of_memory(e)),
    };
    let mut children: Vec<(Vec<u8>, u64)> = children.collect(alloc)?;
    children.sort_unstable();
    Ok(children)
}

// The names of these children, and whether each is a folder.
pub(super) fn members_among(
    alloc: Global,
    tree: &Tree<Vec<u8>, Node>,
    children: Vec<(Vec<u8>, u64)>,
) -> Result<Vec<(Name, bool)>, NoMemory>
    requires { All (λ e. IsSegment e.0.items) children.items }
    ensures { IfOk result (λ list. list.items
        ≡ map (λ e. (e.0.items, is_folder_node (value_of tree.now e.1))) children.items) }
{
    let mut list = Vec::new(alloc);
    for (key, child) in children {
        list.push((Name::from_bytes(key), is_folder(tree, child)))?;
    }
    Ok(list)
}

/// The names of what is directly below a path, and whether each is a folder.
pub fn list(alloc: Global, entries: &Entries, path: &DavPath) -> Result<Vec<(Name, bool)>, NoMemory>
    ensures { IfOk result (λ list. list.items ≡ members (names path.now) entries.now.nodes) }
{
    let Some(id) = finding::find(&entries.tree, path).at else {
        return Ok(Vec::new(alloc));
    };
    let children = sorted_children(alloc, &entries.tree, id)?;
    members_among(alloc, &entries.tree, children)
}
