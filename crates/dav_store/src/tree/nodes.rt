//! The nodes of a tree, and the steps that its calls are made of.
ghost use Rattle.std.specs.Prelude.{◌≡◌, ◌≢◌, ◌+◌, ◌<◌, option_copied, None, is_none, true, false, IfOk, IfErr, OnOk, OnErr};
ghost use Rattle.std.specs.Borrow.{sem};
ghost use Rattle.std.specs.Option.{option_copied_mut, IsSome};
ghost use Rattle.std.specs.Result.{result_ok};
ghost use Rattle.dav_core.specs.Numbers.{max_u64};
ghost use Rattle.dav_core.specs.declared.errors.FsError.TheVariants.{NotFound as Missing};
ghost use Rattle.dav_store.specs.Tree.{IsRooted, root_id, single, node, value_of, first_child, child, is_child, has_children, linked, without, without_old, grown, shrunk, parent_of, place_of, unlinked_at, unlinked, deleted, subtree_deleted, seated, added, is_at_or_below, key_refusal, moved_over, moved};

use super::ROOT_ID;
use super::node::Node;
use super::numbered::Numbered;
use dav_core::errors::{FsError, FsResult};
use std::alloc::{AllocError, Global};
use std::hash::Hash;
use std::marker::Model;

/// Nodes by their numbers, and the last number that was handed out.
#[derive(Drop)]
pub struct Nodes<K: Eq + Hash, D> {
    by_number: Numbered<Node<K, D>>,
    last: u64,
}

impl<K: Eq + Hash, D> Model for Nodes<K, D> {
    ghost use Rattle.dav_store.specs.Tree.{Tree as Seen, coded_tree, NoneAbove};

    ghost Value = { Seen K D };

    ghost coded = { coded_tree K.code D.code };

    ghost view = { λ t. record { nodes = t.by_number; last = t.last } };

    ghost invariant = { λ t. NoneAbove {K = K} {D = D} (record { nodes = t.by_number; last = t.last }) };
}

impl<K: Eq + Hash + Clone + Drop, D: Clone + Drop> Clone for Nodes<K, D> {
    ghost use Rattle.dav_store.specs.Tree.{IsCloneOfTree};

    ghost is_clone = { IsCloneOfTree K.is_clone D.is_clone };

    fn clone(&self) -> Result<Nodes<K, D>, AllocError> {
        Ok(Nodes {
            by_number: self.by_number.clone()?,
            last: self.last,
        })
    }
}

impl<K: Eq + Hash + Drop, D: Drop> Nodes<K, D> {
    ghost use Rattle.dav_store.specs.TreeLends.{lends_value_in};

    // A root alone.
    pub fn new(alloc: Global, value: D) -> Result<Nodes<K, D>, AllocError>
        ensures { IfOk result (λ t. t ≡ single value) }
    {
        let mut by_number = Numbered::new(alloc);
        by_number.insert(ROOT_ID, Node::new(alloc, 0, value))?;
        Ok(Nodes {
            by_number,
            last: ROOT_ID,
        })
    }

    // The last number that was handed out.
    pub fn last(&self) -> u64
        ensures { result ≡ self.now.last }
    {
        self.last
    }

    // The node of a number.
    pub fn node(&self, id: u64) -> Option<&Node<K, D>>
        ensures { option_copied result ≡ node self.now id }
    {
        self.by_number.get(id)
    }

    // The value of a node, to be written.
    #[tactic(auto, using(crate::proofs::TreeSteps::miss_set_value))]
    pub fn value_mut(&mut self, id: u64) -> FsResult<&mut D>
        ensures* writes_back { sem 𝓛 (lends_value_in K.row D.row K.Hash self.entry id result) }
        ensures value { option_copied_mut (result_ok result) ≡ value_of self.old id }
        ensures err { IfErr result (λ e. e ≡ Missing) }
    {
        match self.by_number.get_mut(id) {
            Some(n) => Ok(n.value_mut()),
            None => Err(FsError::NotFound),
        }
    }

    // Whether a node has children.
    pub fn has_children(&self, id: u64) -> bool
        ensures { result ≡ has_children self.now id }
    {
        match self.node(id) {
            Some(n) => n.has_children(),
            None => false,
        }
    }

    // The number of a node's first child.
    fn first_child(&self, id: u64) -> Option<u64>
        ensures { result ≡ first_child self.now id }
    {
        match self.node(id) {
            Some(n) => n.first(),
            None => None,
        }
    }

    // The number of the child under a key.
    pub fn child(&self, parent: u64, key: &K) -> Option<u64>
        ensures { result ≡ child K.eq self.now parent key.now }
    {
        match self.node(parent) {
            Some(n) => n.child(key),
            None => None,
        }
    }

    // Whether a node is the child under a key.
    pub fn is_child(&self, parent: u64, key: &K, id: u64) -> bool
        ensures { result ≡ is_child K.eq self.now parent key.now id }
    {
        match self.child(parent, key) {
            Some(old) => old == id,
            None => false,
        }
    }

    // The number of a node's parent; 0 where it has none.
    pub fn parent(&self, id: u64) -> u64
        ensures { result ≡ parent_of self.now id }
    {
        match self.node(id) {
            Some(n) => n.parent(),
            None => 0,
        }
    }

    // The place of a node among the children of another.
    fn place(&self, parent: u64, id: u64) -> Option<usize>
        ensures { result ≡ place_of self.now parent id }
    {
        match self.node(parent) {
            Some(n) => n.place(id),
            None => None,
        }
    }

    // Whether a node is another or below it.
    #[tactic(auto, using(crate::proofs::TreeSteps::step_up, crate::proofs::TreeSteps::out_of_steps, crate::proofs::TreeSteps::at_top, crate::proofs::TreeSteps::no_node))]
    pub fn is_at_or_below(&self, top: u64, id: u64) -> bool
        ensures { result ≡ is_at_or_below self.now top id }
    {
        let mut at = id;
        for _ in 0..self.by_number.len() {
            if at == top {
                return true;
            }
            match self.node(at) {
                Some(n) => at = n.parent(),
                None => return false,
            }
        }
        false
    }

    // A node without children at or below another: the first child of its first child, and so on.
    fn lowest(&self, top: u64) -> u64
        requires rooted { IsRooted self.now }
        requires there { IsSome (node self.now top) }
        ensures below { is_at_or_below self.now top result ≡ true }
        ensures bare { has_children self.now result ≡ false }
    {
        let mut at = top;
        for _ in 0..self.by_number.len() {
            match self.first_child(at) {
                Some(child) => at = child,
                None => return at,
            }
        }
        at
    }

    // Why a key isn't free for a node.
    pub fn key_refusal(&self, parent: u64, key: &K, overwrite: bool) -> Option<FsError>
        ensures { result ≡ key_refusal K.eq self.now parent key.now overwrite }
    {
        let old = self.child(parent, key)?;
        if !overwrite || self.has_children(old) {
            Some(FsError::Exists)
        } else {
            None
        }
    }

    // Makes room for one child more of a node, which nobody sees.
    #[tactic(auto, using(crate::proofs::TreeSteps::miss_set_value))]
    pub fn reserve(&mut self, parent: u64) -> Result<(), AllocError>
        ensures { self.new ≡ self.old }
    {
        if let Some(n) = self.by_number.get_mut(parent) {
            n.reserve()?;
        }
        Ok(())
    }

    // A node gets this child under a key.
    #[tactic(auto, using(crate::proofs::TreeSteps::miss_set_value))]
    pub fn link(&mut self, parent: u64, key: K, id: u64) -> Result<(), AllocError>
        ensures ok { OnOk result (self.new ≡ linked K.eq self.old parent key id) }
        ensures err { OnErr result (self.new ≡ self.old) }
        ensures new { OnErr result (child K.eq self.old parent key ≡ None) }
    {
        if let Some(n) = self.by_number.get_mut(parent) {
            n.link(key, id)?;
        }
        Ok(())
    }

    // The child at a place goes.
    #[tactic(auto, using(crate::proofs::TreeSteps::miss_set_value))]
    fn unlink_at(&mut self, parent: u64, place: Option<usize>)
        ensures { self.new ≡ unlinked_at self.old parent place }
    {
        if let Some(i) = place {
            if let Some(n) = self.by_number.get_mut(parent) {
                n.unlink_at(i);
            }
        }
    }

    // A node is no child of its parent any more.
    pub fn unlink(&mut self, id: u64)
        ensures { self.new ≡ unlinked self.old id }
    {
        let parent = self.parent(id);
        let place = self.place(parent, id);
        self.unlink_at(parent, place);
    }

    // A node gets this parent.
    #[tactic(auto, using(crate::proofs::TreeSteps::miss_set_value))]
    fn seat(&mut self, id: u64, parent: u64)
        ensures { self.new ≡ seated self.old id parent }
    {
        if let Some(n) = self.by_number.get_mut(id) {
            n.set_parent(parent);
        }
    }

    // The node of a number goes.
    #[tactic(auto, using(crate::proofs::TreeNumbers::miss_remove_entry))]
    pub fn remove(&mut self, id: u64)
        ensures { self.new ≡ without self.old id }
    {
        self.by_number.remove(id);
    }

    // A node that has no children goes.
    pub fn delete(&mut self, id: u64)
        ensures { self.new ≡ deleted self.old id }
    {
        self.unlink(id);
        self.remove(id);
    }

    // A node goes with all that is below it, from below.
    pub fn delete_below(&mut self, id: u64)
        requires rooted { IsRooted self.old }
        requires there { IsSome (node self.old id) }
        requires other { id ≢ root_id }
        ensures left { self.new ≡ subtree_deleted self.old id }
        ensures rooted { IsRooted self.new }
    {
        let mut leaf = self.lowest(id);
        while leaf != id {
            let parent = self.parent(leaf);
            self.delete(leaf);
            leaf = self.lowest(parent);
        }
        self.delete(id);
    }

    // The node that was in a place goes.
    pub fn remove_old(&mut self, old: Option<u64>)
        ensures { self.new ≡ without_old old self.old }
    {
        if let Some(id) = old {
            self.remove(id);
        }
    }

    // One node more, which is nobody's child yet. Where memory runs out, nothing changes.
    #[tactic(auto, using(crate::proofs::TreeNumbers::miss_insert_entry, crate::proofs::TreeNodes::same_no))]
    pub fn grow(&mut self, alloc: Global, parent: u64, value: D) -> Result<(), AllocError>
        requires { self.old.last < max_u64 }
        ensures ok { OnOk result (self.new ≡ grown self.old parent value) }
        ensures err { OnErr result (self.new ≡ self.old) }
    {
        let id = self.last + 1;
        self.by_number.insert(id, Node::new(alloc, parent, value))?;
        self.last = id;
        Ok(())
    }

    // The last node goes again.
    pub fn shrink(&mut self)
        requires { 0 < self.old.last }
        ensures { self.new ≡ shrunk self.old }
    {
        self.by_number.remove(self.last);
        self.last -= 1;
    }

    // A new node under a key of its parent, in the place of a child that is there. All room is made before anything
    // changes; where memory runs out, nothing does.
    pub fn add(&mut self, alloc: Global, parent: u64, key: K, value: D) -> Result<u64, AllocError>
        requires { self.old.last < max_u64 }
        ensures ok { IfOk result (λ id. id ≡ self.old.last + 1) }
        ensures added { OnOk result (self.new ≡ added K.eq self.old parent key value) }
        ensures err { OnErr result (self.new ≡ self.old) }
        ensures fresh { node self.old (self.old.last + 1) ≡ None }
    {
        let old = self.child(parent, &key);
        let id = self.last + 1;
        self.reserve(parent)?;
        self.grow(alloc, parent, value)?;
        if let Err(e) = self.link(parent, key, id) {
            self.shrink();
            return Err(e);
        }
        self.remove_old(old);
        Ok(id)
    }

    // A node goes under a key that isn't its own. Where memory runs out, nothing changes; it does
    // only where the key is new.
    fn move_over(&mut self, id: u64, parent: u64, key: K) -> Result<(), AllocError>
        ensures ok { OnOk result (self.new ≡ moved_over K.eq self.old id parent key) }
        ensures err { OnErr result (self.new ≡ self.old) }
        ensures new { OnErr result (is_none (child K.eq self.old parent key) ≡ true) }
    {
        let old = self.child(parent, &key);
        let from = self.parent(id);
        let place = self.place(from, id);
        self.link(parent, key, id)?;
        self.unlink_at(from, place);
        self.seat(id, parent);
        self.remove_old(old);
        Ok(())
    }
    // A node goes under a key; under its own it stays.
    pub fn move_to(&mut self, id: u64, parent: u64, key: K) -> Result<(), AllocError>
        ensures ok { OnOk result (self.new ≡ moved K.eq self.old id parent key) }
        ensures err { OnErr result (self.new ≡ self.old) }
        ensures new { OnErr result (is_none (child K.eq self.old parent key) ≡ true) }
    {
        if self.is_child(parent, &key, id) {
            return Ok(());
        }
        self.move_over(id, parent, key)
    }
}
