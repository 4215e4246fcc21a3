//! Paths and their nodes, as a store in memory keeps them: a tree whose keys are names.
ghost use Rattle.std.specs.Prelude.{◌≡◌, ◌∷◌, ◌++◌, [], true, IfOk, option_copied};
ghost use Rattle.std.specs.FinMap.{find};
ghost use Rattle.dav_core.specs.declared.errors.FsError.TheVariants.{InsufficientStorage as Lacking};
ghost use Rattle.dav_core.specs.Path.{names, path_cmp, parent_of, is_nonempty};
ghost use Rattle.dav_core.specs.World.{is_folder_kind, is_folder_node, is_file_node, file_made_with, members};

pub mod changes;
mod finding;
pub mod listing;
pub mod walk;

use crate::names::{Name, Names};
use crate::node::Node;
use crate::tree::{ROOT_ID, Tree};
use dav_core::davpath::DavPath;
use dav_core::errors::{FsError, NoMemory};
use std::alloc::{AllocError, Global};
use std::collections::HashMap;
use std::marker::Model;

/// Paths and their nodes: a tree of the nodes, whose keys are the names of the paths, and the number of each node in the
/// tree by the change number under which it was created.
#[derive(Drop)]
pub struct Entries {
    tree: Tree<Vec<u8>, Node>,
    made: HashMap<u64, u64>,
}

impl Model for Entries {
    ghost use Rattle.dav_store.specs.Entries.{Held, coded_held, held_in, IsKept};

    ghost Value = { Held };

    ghost coded = { coded_held };

    ghost view = { λ s. held_in s.tree };

    ghost invariant = { λ s. IsKept s.tree s.made };
}

impl Clone for Entries {
    ghost use Rattle.std.specs.Prelude.{◌≡◌};

    ghost is_clone = { λ a b. a ≡ b };

    fn clone(&self) -> Result<Entries, NoMemory> {
        Ok(Entries {
            tree: self.tree.clone()?,
            made: self.made.clone()?,
        })
    }
}

// What a tree answers where memory runs out, which is the only error that counts as that.
fn want_of_memory(error: FsError) -> NoMemory
    requires { error ≡ Lacking }
{
    match error {
        FsError::InsufficientStorage => AllocError,
        _ => unreachable!(),
    }
}

/// The root alone, a folder.
pub fn of_root(alloc: Global, root: Node) -> Result<Entries, NoMemory>
    requires { is_folder_kind root.kind ≡ true }
    ensures { IfOk result (λ es. es ≡ record { nodes = ([], root) ∷ []; last = 1 }) }
{
    let mut made = HashMap::new(alloc);
    let _ = made.insert(root.creation_number(), ROOT_ID)?;
    Ok(Entries {
        tree: Tree::new(alloc, root)?,
        made,
    })
}

/// The node at a path.
pub fn node_at<'a>(entries: &'a Entries, path: &DavPath) -> Option<&'a Node>
    ensures { option_copied result ≡ find path_cmp (names path.now) entries.now.nodes }
{
    finding::value(&entries.tree, finding::find(&entries.tree, path).at)
}

/// Whether there is a folder at a path.
pub fn is_folder(entries: &Entries, path: &DavPath) -> bool
    ensures { result ≡ is_folder_node (find path_cmp (names path.now) entries.now.nodes) }
{
    match node_at(entries, path) {
        Some(node) => node.is_folder(),
        None => false,
    }
}

/// Whether there is a file at a path.
pub fn is_file(entries: &Entries, path: &DavPath) -> bool
    ensures { result ≡ is_file_node (find path_cmp (names path.now) entries.now.nodes) }
{
    match node_at(entries, path) {
        Some(node) => !node.is_folder(),
        None => false,
    }
}

/// Whether there is a folder above a path.
pub fn has_folder(entries: &Entries, path: &DavPath) -> bool
    ensures { result
        ≡ is_folder_node (find path_cmp (parent_of (names path.now)) entries.now.nodes) }
{
    match finding::value(&entries.tree, finding::find(&entries.tree, path).above) {
        Some(node) => node.is_folder(),
        None => false,
    }
}

/// The node at a name in a folder.
pub fn member_at<'a>(entries: &'a Entries, folder: &Names, name: &Name) -> Option<&'a Node>
    ensures { option_copied result ≡ find path_cmp (folder.now ++ name.now ∷ []) entries.now.nodes }
{
    finding::value(
        &entries.tree,
        finding::find_member(&entries.tree, folder, name),
    )
}

/// Whether a folder has members.
pub fn has_members(entries: &Entries, path: &DavPath) -> bool
    ensures { result ≡ is_nonempty (members (names path.now) entries.now.nodes) }
{
    match finding::find(&entries.tree, path).at {
        Some(id) => entries.tree.has_children(id),
        None => false,
    }
}

/// The file that was created under this change number.
pub fn file_made_with(entries: &Entries, made: u64) -> Option<&Node>
    ensures { option_copied result ≡ file_made_with made entries.now.nodes }
{
    match finding::value(&entries.tree, entries.made.get(&made).copied()) {
        Some(node) => if node.is_folder() { None } else { Some(node) },
        None => None,
    }
}
