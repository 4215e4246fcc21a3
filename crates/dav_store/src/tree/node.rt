//! One node of a tree.
ghost use Rattle.std.specs.Prelude.{◌≡◌, ◌==◌, position, IfOk, IfErr, OnOk, OnErr, OnSome, nat_eq};
ghost use Rattle.std.specs.Borrow.{sem};
ghost use Rattle.std.specs.Map.{lookup};
ghost use Rattle.std.specs.Map.Iter.{deref_pair};
ghost use Rattle.std.specs.Option.{option_map};
ghost use Rattle.std.specs.List.{AllZip};
ghost use Rattle.std.specs.Cmp.Lexicographic.{pointwise};
ghost use Rattle.indexmap.specs.IndexMap.{insert_entry};
ghost use Rattle.dav_store.specs.Tree.{leaf, has_some, IsFoundUnderKey, first_number, only_child, without_place, IsListedAs};

use indexmap::IndexMap;
use std::alloc::{AllocError, Global};
use std::hash::Hash;
use std::marker::Model;

/// A node of a tree: the number of its parent, its value, and the numbers of its children by their keys.
#[derive(Drop)]
pub struct Node<K: Eq + Hash, D> {
    parent: u64,
    value: D,
    children: IndexMap<K, u64>,
}

impl<K: Eq + Hash, D> Model for Node<K, D> {
    ghost use Rattle.dav_store.specs.Tree.{Node as Seen, coded_node};

    ghost Value = { Seen K D };

    ghost coded = { coded_node K.code D.code };

    ghost view = { λ n. record { parent = n.parent; value = n.value; children = n.children.entries } };
}

impl<K: Eq + Hash + Clone + Drop, D: Clone + Drop> Clone for Node<K, D> {
    ghost use Rattle.dav_store.specs.Tree.{IsCloneOfNode};

    ghost is_clone = { IsCloneOfNode K.is_clone D.is_clone };

    fn clone(&self) -> Result<Node<K, D>, AllocError> {
        Ok(Node {
            parent: self.parent,
            value: self.value.clone()?,
            children: self.children.clone()?,
        })
    }
}

impl<K: Eq + Hash, D> Node<K, D> {
    ghost use Rattle.dav_store.specs.TreeLends.{lends_own_value};

    // A node without children.
    pub(crate) fn new(alloc: Global, parent: u64, value: D) -> Node<K, D>
        ensures { result ≡ leaf parent value }
    {
        Node {
            parent,
            value,
            children: IndexMap::new(alloc),
        }
    }

    // The number of its parent.
    pub(crate) fn parent(&self) -> u64
        ensures { result ≡ self.now.parent }
    {
        self.parent
    }

    // Its value.
    pub(crate) fn value(&self) -> &D
        ensures { result.now ≡ self.now.value }
    {
        &self.value
    }

    // Its value, to be written.
    pub(crate) fn value_mut(&mut self) -> &mut D
        ensures* writes_back { sem 𝓛 (lends_own_value K.row D.row K.Hash self.entry result) }
        ensures value { result.now ≡ self.old.value }
    {
        &mut self.value
    }

    // The number of the child under a key.
    pub(crate) fn child(&self, key: &K) -> Option<u64>
        ensures { result ≡ lookup (K.eq key.now) self.now.children }
    {
        self.children.get(key).copied()
    }

    // Whether it has children.
    pub(crate) fn has_children(&self) -> bool
        ensures { result ≡ has_some self.now.children }
    {
        !self.children.is_empty()
    }

    // The number of its first child.
    pub(crate) fn first(&self) -> Option<u64>
        ensures { result ≡ first_number self.now.children }
    {
        match self.children.get_index(0) {
            Some((_, number)) => Some(*number),
            None => None,
        }
    }

    // The key and the number of its child, where it has one alone.
    fn only(&self) -> Option<(&K, &u64)>
        ensures { option_map deref_pair result ≡ only_child self.now.children }
    {
        if self.children.len() == 1 {
            self.children.get_index(0)
        } else {
            None
        }
    }

    // The place of the child of a number.
    pub(crate) fn place(&self, number: u64) -> Option<usize>
        ensures { result ≡ position (λ e. e.1 == number) self.now.children }
    {
        self.children.iter().position(|e| *e.1 == number)
    }

    // The keys and numbers of its children.
    pub(crate) fn list(&self, alloc: Global) -> Result<Vec<(K, u64)>, AllocError>
    where
        K: Clone,
        ensures { IfOk result (λ list.
            AllZip (IsListedAs K.is_clone) self.now.children list.items) }
    {
        let mut list = Vec::new(alloc);
        for i in 0..self.children.len() {
            if let Some((key, number)) = self.children.get_index(i) {
                list.push((key.clone()?, *number))?;
            }
        }
        Ok(list)
    }
}

impl<K: Eq + Hash + Drop, D> Node<K, D> {
    // Sees that a child of a number is found under a key.
    pub(crate) fn see_key(&self, number: u64)
        ensures { OnSome (position (λ e. e.1 == number) self.now.children)
            (IsFoundUnderKey K.eq self.now.children number) }
    {
        if let Some(i) = self.place(number) {
            let _entry = self.children.get_index(i);
        }
    }

    // Makes room for one child more, which nobody sees.
    pub(crate) fn reserve(&mut self) -> Result<(), AllocError>
        ensures { self.new ≡ self.old }
    {
        self.children.reserve(1)
    }

    // A child gets this number under this key.
    pub(crate) fn link(&mut self, key: K, number: u64) -> Result<(), AllocError>
        ensures ok { OnOk result (self.new ≡ record self.old {
          children = insert_entry K.eq self.old.children key number;
        }) }
        ensures err { OnErr result (self.new ≡ self.old) }
        ensures new { OnErr result (lookup (K.eq key) self.old.children ≡ None) }
    {
        self.children.insert(key, number)?;
        Ok(())
    }

    // The child at a place goes, and the last takes its place.
    pub(crate) fn unlink_at(&mut self, place: usize)
        ensures { self.new ≡ record self.old {
          children = without_place place self.old.children;
        } }
    {
        let _ = self.children.swap_remove_index(place);
    }

    // It gets this parent.
    pub(crate) fn set_parent(&mut self, parent: u64)
        ensures { self.new ≡ record self.old { parent = parent } }
    {
        self.parent = parent;
    }
}

impl<D> Node<Vec<u8>, D> {
    // The number of the child under a key of these bytes.
    pub(crate) fn child_of_bytes(&self, key: &[u8]) -> Option<u64>
        ensures { result ≡ lookup (λ k. pointwise nat_eq key.now k.items) self.now.children }
    {
        match self.only() {
            Some((only, number)) => if key == only.as_slice() {
                Some(*number)
            } else {
                None
            },
            None => self.children.get(key).copied(),
        }
    }
}
