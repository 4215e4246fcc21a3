//! Changes of the nodes that a store in memory keeps.
ghost use Rattle.std.specs.Prelude.{◌≡◌, ◌≢◌, ◌+◌, ◌≤◌, ◌<◌, [], List, ℕ, Some, None, false, true, ◌&&◌, IfOk, OnOk, OnErr, IsSome, length, nat_eq};
ghost use Rattle.std.specs.HashMap.{get, spare};
ghost use Rattle.std.specs.FinMap.{find, put};
ghost use Rattle.std.specs.Option.{option_map};
ghost use Rattle.dav_core.specs.Numbers.{max_u64};
ghost use Rattle.dav_core.specs.Path.{names, path_cmp, parent_of, last_name, is_at_or_under, is_nonempty, is_root};
ghost use Rattle.dav_core.specs.World.{adjust, touched, prune, moved, members, is_folder_node, is_folder_kind, last_moment, max_file_len, change_node, is_file_made_with, Node as Seen, fresh};
ghost use Rattle.dav_core.specs.Calls.{emptied, written, copied_over, repatched};
ghost use Rattle.dav_core.specs.Property.{Patch, patched};
ghost use Rattle.dav_store.specs.Makings.{AreMadeBefore, IsUnmade};
ghost use Rattle.dav_store.specs.Placed.{bare, found};

use super::{Entries, finding, want_of_memory};
use crate::node::Node;
use crate::properties::Properties;
use crate::tree::Tree;
use dav_core::davpath::DavPath;
use dav_core::errors::NoMemory;
use std::alloc::Global;
use std::collections::HashMap;

/// Sets the moment at which the folder of a path was last changed.
pub fn touch_folder(entries: &mut Entries, path: &DavPath, now: u64)
    requires { now ≤ last_moment }
    ensures { entries.new
        ≡ record entries.old { nodes = touched (names path.now) now entries.old.nodes } }
{
    if let Some(id) = finding::find(&entries.tree, path).above {
        if let Ok(node) = entries.tree.get_node_mut(id) {
            node.touch(now);
        }
    }
}

/// Empties the file at a path, which takes this number.
pub fn empty_at(entries: &mut Entries, path: &DavPath, number: u64, now: u64)
    requires now { now ≤ last_moment }
    requires file { is_folder_node (find path_cmp (names path.now) entries.old.nodes) ≡ false }
    ensures { entries.new ≡ record entries.old {
      nodes = adjust (names path.now) (emptied number now) entries.old.nodes;
    } }
{
    if let Some(id) = finding::find(&entries.tree, path).at {
        if let Ok(node) = entries.tree.get_node_mut(id) {
            node.empty(number, now);
        }
    }
}

/// Gives the file at a path all that a copy has; it stays the node that it was.
pub fn copy_over(entries: &mut Entries, path: &DavPath, copy: Node)
    requires file { is_folder_node (find path_cmp (names path.now) entries.old.nodes) ≡ false }
    requires copied { is_folder_kind copy.kind ≡ false }
    ensures { entries.new ≡ record entries.old {
      nodes = adjust (names path.now) (λ n. record copy { made = n.made }) entries.old.nodes;
    } }
{
    if let Some(id) = finding::find(&entries.tree, path).at {
        if let Ok(node) = entries.tree.get_node_mut(id) {
            node.become_like(copy);
        }
    }
}

/// Replaces the properties of the node at a path, by its own after some changes.
pub fn set_properties_at(entries: &mut Entries, path: &DavPath, properties: Properties)
    ensures { (n : Seen) (patches : List Patch) → find path_cmp (names path.now) entries.old.nodes
        ≡ Some n → properties ≡ patched patches n.properties → entries.new
        ≡ record entries.old {
          nodes = adjust (names path.now) (repatched patches) entries.old.nodes;
        } }
{
    if let Some(id) = finding::find(&entries.tree, path).at {
        if let Ok(node) = entries.tree.get_node_mut(id) {
            node.set_properties(properties);
        }
    }
}

/// Writes bytes to the file that was created under this change number. Where memory runs out, nothing changes.
pub fn write_file_made_with(
    alloc: Global,
    entries: &mut Entries,
    made: u64,
    place: usize,
    chunk: &[u8],
    number: u64,
    now: u64,
) -> Result<(), NoMemory>
    requires some { chunk.now ≢ [] }
    requires fits { place + length chunk.now ≤ max_file_len }
    requires now { now ≤ last_moment }
    ensures ok { OnOk result (entries.new ≡ record entries.old {
      nodes = change_node (is_file_made_with made) (written place chunk.now number now)
          entries.old.nodes;
    }) }
    ensures err { OnErr result (entries.new ≡ entries.old) }
{
    let Some(id) = entries.made.get(&made).copied() else {
        return Ok(());
    };
    let Ok(node) = entries.tree.get_node_mut(id) else {
        return Ok(());
    };
    if node.is_folder() {
        return Ok(());
    }
    node.write(alloc, place, chunk, number, now)
}

/// Adds a new node at a path where nothing is, below a folder, and changes that folder at this moment. The number of its
/// creation is above those of all others. Where memory runs out, nothing changes.
#[tactic(auto, using(crate::proofs::MadeBefore::before_unmade))]
pub fn add_node(
    alloc: Global,
    entries: &mut Entries,
    path: &DavPath,
    node: Node,
    now: u64,
) -> Result<(), NoMemory>
    requires folder { is_folder_node
        (find path_cmp (parent_of (names path.now)) entries.old.nodes) ≡ true }
    requires free { find path_cmp (names path.now) entries.old.nodes ≡ None }
    requires new { AreMadeBefore node.made entries.old.nodes }
    requires numbers { entries.old.last < max_u64 }
    requires now { now ≤ last_moment }
    ensures ok { OnOk result (entries.new ≡ record {
      nodes = touched (names path.now) now
          (put path_cmp (names path.now) node entries.old.nodes);
      last = entries.old.last + 1;
    }) }
    ensures err { OnErr result (entries.new ≡ entries.old) }
{
    put_new(alloc, entries, path, node)?;
    touch_folder(entries, path, now);
    Ok(())
}

// The number of the folder above a path and the path's last name, with room among the numbers for one node more.
fn room_for(
    alloc: Global,
    tree: &Tree<Vec<u8>, Node>,
    made: &mut HashMap<u64, u64>,
    path: &DavPath,
) -> Result<(u64, Vec<u8>), NoMemory>
    requires { IsSome (found (bare tree.now) (parent_of (names path.now))) }
    ensures folder { IfOk result
        (λ r. found (bare tree.now) (parent_of (names path.now)) ≡ Some r.0) }
    ensures name { IfOk result (λ r. r.1.items ≡ last_name path.now.bytes) }
    ensures made { (n : ℕ) → get nat_eq made.new n ≡ get nat_eq made.old n }
    ensures room { OnOk result (0 < spare made.new) }
{
    let Some(folder) = finding::find(tree, path).above else {
        unreachable!();
    };
    let name = Vec::from_slice(alloc, path.file_name_bytes())?;
    made.reserve(1)?;
    Ok((folder, name))
}

/// Puts a node at a path where nothing is, below a folder, which isn't changed. All room is made before anything changes.
pub fn put_new(
    alloc: Global,
    entries: &mut Entries,
    path: &DavPath,
    node: Node,
) -> Result<(), NoMemory>
    requires folder { is_folder_node
        (find path_cmp (parent_of (names path.now)) entries.old.nodes) ≡ true }
    requires free { find path_cmp (names path.now) entries.old.nodes ≡ None }
    requires new { IsUnmade node.made entries.old.nodes }
    requires numbers { entries.old.last < max_u64 }
    ensures ok { OnOk result (entries.new ≡ record {
      nodes = put path_cmp (names path.now) node entries.old.nodes;
      last = entries.old.last + 1;
    }) }
    ensures err { OnErr result (entries.new ≡ entries.old) }
{
    let made = node.creation_number();
    let (folder, name) = room_for(alloc, &entries.tree, &mut entries.made, path)?;
    let id = match entries.tree.add_child(alloc, folder, name, node, false) {
        Ok(id) => id,
        Err(e) => return Err(want_of_memory(e)),
    };
    let _ = entries.made.insert(made, id);
    Ok(())
}

/// Removes a file, or a folder without members that isn't the root.
pub fn prune(entries: &mut Entries, path: &DavPath)
    requires there { IsSome (find path_cmp (names path.now) entries.old.nodes) }
    requires bare { (is_folder_node (find path_cmp (names path.now) entries.old.nodes)
        && is_nonempty (members (names path.now) entries.old.nodes)) ≡ false }
    requires below { (is_root (names path.now)
        && is_folder_node (find path_cmp (names path.now) entries.old.nodes)) ≡ false }
    ensures { entries.new
        ≡ record entries.old { nodes = prune (names path.now) entries.old.nodes } }
{
    let Some(id) = finding::find(&entries.tree, path).at else {
        return;
    };
    let Ok(node) = entries.tree.get_node(id) else {
        return;
    };
    let made = node.creation_number();
    let _ = entries.made.remove(&made);
    let _ = entries.tree.delete_node(id);
}

// The change number under which what is at a path was created.
fn made_at(entries: &Entries, path: &DavPath) -> Option<u64>
    ensures { result ≡ option_map (λ n. n.made) (find path_cmp (names path.now) entries.now.nodes) }
{
    Some(super::node_at(entries, path)?.creation_number())
}

/// Moves what is at `from` and below it to `to`, which isn't there or below it, in place of what is there, which has no
/// members. Where memory runs out, nothing changes.
pub fn move_nodes(
    alloc: Global,
    entries: &mut Entries,
    from: &DavPath,
    to: &DavPath,
) -> Result<(), NoMemory>
    requires folder { is_folder_node
        (find path_cmp (parent_of (names to.now)) entries.old.nodes) ≡ true }
    requires apart { is_at_or_under (names to.now) (names from.now) ≡ false }
    requires below { is_root (names to.now) ≡ false }
    requires there { IsSome (find path_cmp (names from.now) entries.old.nodes) }
    requires bare { (is_folder_node (find path_cmp (names to.now) entries.old.nodes)
        && is_nonempty (members (names to.now) entries.old.nodes)) ≡ false }
    ensures ok { OnOk result (entries.new
        ≡ record entries.old { nodes = moved (names from.now) (names to.now) entries.old.nodes }) }
    ensures err { OnErr result (entries.new ≡ entries.old) }
{
    let Some(id) = finding::find(&entries.tree, from).at else {
        unreachable!();
    };
    let Some(folder) = finding::find(&entries.tree, to).above else {
        unreachable!();
    };
    let name = Vec::from_slice(alloc, to.file_name_bytes())?;
    let old = made_at(entries, to);
    entries.tree.see_rooted();
    match entries.tree.move_node(id, folder, name, true) {
        Ok(()) => (),
        Err(e) => return Err(want_of_memory(e)),
    }
    if let Some(made) = old {
        let _ = entries.made.remove(&made);
    }
    Ok(())
}
