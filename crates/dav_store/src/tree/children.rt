//! The children of a node, listed.
ghost use Rattle.std.specs.Prelude.{◌≡◌};

use std::alloc::Global;
use std::marker::Model;
use std::vec::IntoIter;

/// The keys and numbers of the children of a node, one after another. Stepping takes no memory.
#[derive(Drop)]
pub struct Children<K> {
    rest: IntoIter<(K, u64), Global>,
}

impl<K> Model for Children<K> {
    ghost use Rattle.std.specs.Prelude.{ℕ, List};
    ghost use Rattle.std.specs.Vec.Iter.{into_iter_items};
    ghost use Rattle.std.specs.Coded.{coded_list, coded×, coded_ℕ};

    ghost Value = { List (K × ℕ) };

    ghost coded = { coded_list (coded× K.code coded_ℕ) };

    ghost view = { λ c. into_iter_items c.rest };
}

impl<K> Children<K> {
    // These pairs, one after another.
    pub(crate) fn new(pairs: Vec<(K, u64)>) -> Children<K>
        ensures { result ≡ pairs.items }
    {
        Children {
            rest: pairs.into_iter(),
        }
    }
}

impl<K: Drop> Iterator for Children<K> {
    type Item = (K, u64);

    ghost use Rattle.std.specs.Iterator.{YieldsFirst, item_count};

    ghost next_gives = { YieldsFirst (λ rest. rest) };

    ghost remaining = { item_count (λ rest. rest) };

    fn next(&mut self) -> Option<(K, u64)> {
        self.rest.next()
    }
}
