//! The paths of all nodes, in order, by a walk down the tree.
ghost use Rattle.std.specs.Prelude.{◌≡◌, ◌++◌, T, IfOk, OnOk, option_copied};
ghost use Rattle.std.specs.Option.{is_some};
ghost use Rattle.std.specs.FinMap.{find, is_sorted};
ghost use Rattle.dav_core.specs.Path.{path_cmp};
ghost use Rattle.dav_core.specs.World.{members};
ghost use Rattle.dav_store.specs.Placed.{bare, found};
ghost use Rattle.dav_store.specs.Subtrees.{paths_of, under};

use super::{Entries, finding, listing};
use crate::names::{Name, Names};
use crate::node::Node;
use crate::tree::{ROOT_ID, Tree};
use dav_core::errors::NoMemory;
use std::alloc::Global;

// The number of the node at these names.
fn find_names(tree: &Tree<Vec<u8>, Node>, path: &Names) -> Option<u64>
    ensures { result ≡ found (bare tree.now) path.now }
{
    let mut at = Some(ROOT_ID);
    for name in path.as_slice() {
        at = finding::child(tree, at, name.as_slice());
    }
    at
}

/// The node at these names.
pub fn node_at<'a>(entries: &'a Entries, path: &Names) -> Option<&'a Node>
    ensures { option_copied result ≡ find path_cmp path.now entries.now.nodes }
{
    finding::value(&entries.tree, find_names(&entries.tree, path))
}

// Whether there is a node at these names.
fn is_there(entries: &Entries, path: &Names) -> bool
    ensures { result ≡ is_some (find path_cmp path.now entries.now.nodes) }
{
    node_at(entries, path).is_some()
}

// The names of what is directly below a path, and whether each is a folder.
fn members_of(alloc: Global, entries: &Entries, path: &Names) -> Result<Vec<(Name, bool)>, NoMemory>
    ensures { IfOk result (λ list. list.items ≡ members path.now entries.now.nodes) }
{
    let Some(id) = find_names(&entries.tree, path) else {
        return Ok(Vec::new(alloc));
    };
    let children = listing::sorted_children(alloc, &entries.tree, id)?;
    listing::members_among(alloc, &entries.tree, children)
}

// Adds the paths of what is at a path and below it, in order.
fn add_paths(
    alloc: Global,
    entries: &Entries,
    path: &Names,
    list: &mut Vec<Names>,
) -> Result<(), NoMemory>
    ensures { OnOk result (list.new.items
        ≡ list.old.items ++ paths_of (under path.now entries.now.nodes)) }
{
    // Reading a field lets the checker know what holds of the nodes.
    let _ = &entries.tree;
    if !is_there(entries, path) {
        return Ok(());
    }
    list.push(path.copy(alloc)?)?;
    for (name, _) in members_of(alloc, entries, path)? {
        let member = path.with(alloc, &name)?;
        add_paths(alloc, entries, &member, list)?;
    }
    Ok(())
}

// Sees that the nodes are in order of their paths.
pub fn see_sorted(entries: &Entries)
    ensures { T (is_sorted path_cmp entries.now.nodes) }
{
    let _ = &entries.tree;
}

/// The paths of what is at a path and below it, in order.
pub fn paths_under(alloc: Global, entries: &Entries, path: &Names) -> Result<Vec<Names>, NoMemory>
    ensures { IfOk result (λ list. list.items ≡ paths_of (under path.now entries.now.nodes)) }
{
    let mut list = Vec::new(alloc);
    add_paths(alloc, entries, path, &mut list)?;
    Ok(list)
}

/// The paths of all nodes, in order.
pub fn paths(alloc: Global, entries: &Entries) -> Result<Vec<Names>, NoMemory>
    ensures { IfOk result (λ list. list.items ≡ paths_of entries.now.nodes) }
{
    let mut list = Vec::new(alloc);
    add_paths(alloc, entries, &Names::root(alloc), &mut list)?;
    Ok(list)
}
