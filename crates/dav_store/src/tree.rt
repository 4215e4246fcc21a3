//! Trees of numbered nodes, whose children have keys.
//!
//! The root has the number 1, and each new node takes the next number; no number is used twice. A call that is refused
//! changes nothing.
ghost use Rattle.dav_core.specs.Numbers.{max_u64};
ghost use Rattle.std.specs.Prelude.{◌≡◌, ◌+◌, ◌<◌, true, is_none, option_copied, IfOk, IfErr, IfNone, IfSome, OnSome};
ghost use Rattle.std.specs.Result.{result_ok};
ghost use Rattle.std.specs.Borrow.{sem};
ghost use Rattle.std.specs.Option.{ok_or, option_copied_mut};
ghost use Rattle.std.specs.List.{AllZip};
ghost use Rattle.dav_store.specs.Tree.{IsRooted, IsFoundUnderKey, place_of, parent_of, single, node, child, child_of_bytes, value_of, children_of, has_children, IsListedAs, delete_refusal, deleted, subtree_refusal, subtree_deleted, add_refusal, added, move_refusal, moved, Does, DoesOrLacks};
ghost use Rattle.dav_core.specs.declared.errors.FsError.TheVariants.{NotFound as Missing, InsufficientStorage as Lacking};

pub mod children;
pub mod node;
mod nodes;
mod numbered;
#[cfg(test)]
mod tests;

use children::Children;
use dav_core::errors::{FsError, FsResult, NoMemory};
use nodes::Nodes;
use std::alloc::Global;
use std::hash::Hash;
use std::marker::Model;

/// The root's number.
pub const ROOT_ID: u64 = 1;

/// A tree of numbered nodes with values, whose children have keys.
#[derive(Drop)]
pub struct Tree<K: Eq + Hash, D> {
    nodes: Nodes<K, D>,
}

impl<K: Eq + Hash, D> Model for Tree<K, D> {
    ghost use Rattle.dav_store.specs.Tree.{Tree as Seen, coded_tree, IsRooted};

    ghost Value = { Seen K D };

    ghost coded = { coded_tree K.code D.code };

    ghost view = { λ t. t.nodes };

    ghost invariant = { λ t. IsRooted {K = K} {D = D} t.nodes };
}

impl<K: Eq + Hash + Clone + Drop, D: Clone + Drop> Clone for Tree<K, D> {
    ghost use Rattle.dav_store.specs.Tree.{IsCloneOfTree};

    ghost is_clone = { IsCloneOfTree K.is_clone D.is_clone };

    fn clone(&self) -> Result<Tree<K, D>, NoMemory> {
        Ok(Tree {
            nodes: self.nodes.clone()?,
        })
    }
}

impl<K: Eq + Hash + Drop, D: Drop> Tree<K, D> {
    ghost use Rattle.dav_store.specs.TreeLends.{lends_value};

    /// The tree of a root alone, with this value.
    pub fn new(alloc: Global, value: D) -> Result<Tree<K, D>, NoMemory>
        ensures { IfOk result (λ t. t ≡ single value) }
    {
        Ok(Tree {
            nodes: Nodes::new(alloc, value)?,
        })
    }

    /// The number of the child under a key; `NotFound` where there is none. Takes no memory.
    pub fn get_child(&self, parent: u64, key: &K) -> FsResult<u64>
        ensures { result ≡ ok_or (child K.eq self.now parent key.now) Missing }
    {
        self.nodes.child(parent, key).ok_or(FsError::NotFound)
    }

    /// The value of a node; `NotFound` where there is none. Takes no memory.
    pub fn get_node(&self, id: u64) -> FsResult<&D>
        ensures value { option_copied (result_ok result) ≡ value_of self.now id }
        ensures err { IfErr result (λ e. e ≡ Missing) }
    {
        match self.nodes.node(id) {
            Some(n) => Ok(n.value()),
            None => Err(FsError::NotFound),
        }
    }

    /// The value of a node, to be written; `NotFound` where there is none. Takes no memory.
    pub fn get_node_mut(&mut self, id: u64) -> FsResult<&mut D>
        ensures* writes_back { sem 𝓛 (lends_value K.row D.row K.Hash self.entry id result) }
        ensures value { option_copied_mut (result_ok result) ≡ value_of self.old id }
        ensures err { IfErr result (λ e. e ≡ Missing) }
    {
        self.nodes.value_mut(id)
    }

    /// Clones of the keys of a node's children, each with the child's number, in no promised order. `NotFound` where
    /// there is no node, `InsufficientStorage` where memory runs out.
    pub fn get_children(&self, alloc: Global, id: u64) -> FsResult<Children<K>>
    where
        K: Clone,
        ensures listed { IfOk result (λ list.
            AllZip (IsListedAs K.is_clone) (children_of self.now id) list) }
        ensures missing { IfNone (node self.now id) (result ≡ Err Missing) }
        ensures lacking { IfSome (node self.now id) (λ _. IfErr result (λ e. e ≡ Lacking)) }
    {
        let Some(n) = self.nodes.node(id) else {
            return Err(FsError::NotFound);
        };
        match n.list(alloc) {
            Ok(list) => Ok(Children::new(list)),
            Err(_) => Err(FsError::InsufficientStorage),
        }
    }

    // Whether a node has children.
    pub(crate) fn has_children(&self, id: u64) -> bool
        ensures { result ≡ has_children self.now id }
    {
        self.nodes.has_children(id)
    }

    // The number of the parent of a node; 0 where it has none.
    pub(crate) fn parent(&self, id: u64) -> u64
        ensures { result ≡ parent_of self.now id }
    {
        self.nodes.parent(id)
    }

    // Why a child isn't added.
    fn add_refusal(&self, parent: u64, key: &K, overwrite: bool) -> Option<FsError>
        ensures refusal { result ≡ add_refusal K.eq self.now parent key.now overwrite }
        ensures numbers { IfNone result (self.now.last < max_u64) }
    {
        if self.nodes.node(parent).is_none() {
            return Some(FsError::NotFound);
        }
        if let Some(e) = self.nodes.key_refusal(parent, key, overwrite) {
            return Some(e);
        }
        if self.nodes.last() == u64::MAX {
            return Some(FsError::GeneralFailure);
        }
        None
    }

    /// Adds a node under a key of its parent, and gives its number. With `overwrite` it takes the place of a child that
    /// is there and has no children. `NotFound` where there is no parent, `Exists` where a child is there that stays,
    /// `GeneralFailure` where the numbers are used up, `InsufficientStorage` where memory runs out.
    pub fn add_child(
        &mut self,
        alloc: Global,
        parent: u64,
        key: K,
        value: D,
        overwrite: bool,
    ) -> FsResult<u64>
        ensures { DoesOrLacks true (add_refusal K.eq self.old parent key overwrite)
            (self.old.last + 1) (added K.eq self.old parent key value) result self.old self.new }
    {
        if let Some(e) = self.add_refusal(parent, &key, overwrite) {
            return Err(e);
        }
        match self.nodes.add(alloc, parent, key, value) {
            Ok(id) => Ok(id),
            Err(_) => Err(FsError::InsufficientStorage),
        }
    }

    /// Deletes a node without children. `NotFound` where there is none, `Forbidden` for the root, `Exists` where it has
    /// children. Takes no memory.
    pub fn delete_node(&mut self, id: u64) -> FsResult<()>
        ensures { Does (delete_refusal self.old id) tt (deleted self.old id)
            result self.old self.new }
    {
        let Some(n) = self.nodes.node(id) else {
            return Err(FsError::NotFound);
        };
        if id == ROOT_ID {
            return Err(FsError::Forbidden);
        }
        if n.has_children() {
            return Err(FsError::Exists);
        }
        self.nodes.delete(id);
        Ok(())
    }

    /// Deletes a node with all that is below it. `NotFound` where there is none, `Forbidden` for the root. Takes no
    /// memory, and time for each node that goes.
    pub fn delete_subtree(&mut self, id: u64) -> FsResult<()>
        ensures { Does (subtree_refusal self.old id) tt (subtree_deleted self.old id)
            result self.old self.new }
    {
        if self.nodes.node(id).is_none() {
            Err(FsError::NotFound)
        } else if id == ROOT_ID {
            Err(FsError::Forbidden)
        } else {
            self.nodes.delete_below(id);
            Ok(())
        }
    }

    // Why a node isn't moved.
    fn move_refusal(&self, id: u64, parent: u64, key: &K, overwrite: bool) -> Option<FsError>
        ensures { result ≡ move_refusal K.eq self.now id parent key.now overwrite }
    {
        if self.nodes.node(id).is_none() || self.nodes.node(parent).is_none() {
            return Some(FsError::NotFound);
        }
        if id == ROOT_ID || self.nodes.is_at_or_below(id, parent) {
            return Some(FsError::Forbidden);
        }
        if self.nodes.is_child(parent, key, id) {
            return None;
        }
        self.nodes.key_refusal(parent, key, overwrite)
    }

    /// Moves a node, with what is below it, under a key of a parent; under its own key it stays. With `overwrite` it
    /// takes the place of another child that is there and has no children. `NotFound` where there is no node or no
    /// parent, `Forbidden` for the root and where the parent is the node or below it, `Exists` where another child is
    /// there that stays, `InsufficientStorage` where the key is new and memory runs out.
    #[tactic(auto, using(crate::proofs::TreeSteps::is_done, crate::proofs::TreeSteps::is_lacking))]
    pub fn move_node(&mut self, id: u64, parent: u64, key: K, overwrite: bool) -> FsResult<()>
        ensures { DoesOrLacks (is_none (child K.eq self.old parent key))
            (move_refusal K.eq self.old id parent key overwrite)
            tt (moved K.eq self.old id parent key) result self.old self.new }
    {
        if let Some(e) = self.move_refusal(id, parent, &key, overwrite) {
            return Err(e);
        }
        match self.nodes.move_to(id, parent, key) {
            Ok(()) => Ok(()),
            Err(_) => Err(FsError::InsufficientStorage),
        }
    }
}

impl<K: Eq + Hash, D> Tree<K, D> {
    // Sees what holds of every tree.
    pub(crate) fn see_rooted(&self)
        ensures { IsRooted self.now }
    {
        let _nodes = &self.nodes;
    }
}

impl<K: Eq + Hash + Drop, D: Drop> Tree<K, D> {
    // Sees that a node that stands among the children of its parent is found there under a key.
    pub(crate) fn see_key(&self, id: u64)
        ensures { OnSome (place_of self.now (parent_of self.now id) id)
            (IsFoundUnderKey K.eq (children_of self.now (parent_of self.now id)) id) }
    {
        if let Some(n) = self.nodes.node(id) {
            if let Some(p) = self.nodes.node(n.parent()) {
                p.see_key(id);
            }
        }
    }
}

impl<D: Drop> Tree<Vec<u8>, D> {
    /// The number of the child under a key of these bytes; `NotFound` where there is none. Takes no memory.
    pub fn get_child_bytes(&self, parent: u64, key: &[u8]) -> FsResult<u64>
        ensures { result ≡ ok_or (child_of_bytes self.now parent key.now) Missing }
    {
        match self.nodes.node(parent) {
            Some(n) => n.child_of_bytes(key).ok_or(FsError::NotFound),
            None => Err(FsError::NotFound),
        }
    }
}
