//! Values by numbers.
ghost use Rattle.std.specs.Prelude.{◌≡◌, [], length, None, option_copied, IfOk, OnOk, OnErr};
ghost use Rattle.std.specs.Borrow.{sem};
ghost use Rattle.std.specs.Option.{option_copied_mut};
ghost use Rattle.std.specs.Ordering.{nat_cmp};
ghost use Rattle.std.specs.BTreeMap.{is_at, insert_entry};
ghost use Rattle.std.specs.Map.{lookup, remove_entry};

use std::alloc::{AllocError, Global};
use std::collections::HashMap;
use std::marker::Model;

/// Values by numbers. Each is found in the same time, however many there are.
#[derive(Drop)]
pub struct Numbered<V> {
    values: HashMap<u64, V>,
}

impl<V> Model for Numbered<V> {
    ghost use Rattle.std.specs.Prelude.{ℕ, List};
    ghost use Rattle.std.specs.Coded.{coded_list, coded×, coded_ℕ};
    ghost use Rattle.dav_store.specs.Numbered.{in_order};

    ghost Value = { List (ℕ × V) };

    ghost coded = { coded_list (coded× coded_ℕ V.code) };

    ghost view = { λ n. in_order n.values.entries };
}

impl<V: Clone + Drop> Clone for Numbered<V> {
    ghost use Rattle.dav_store.specs.Numbered.{AreClones};

    ghost is_clone = { AreClones V.is_clone };

    fn clone(&self) -> Result<Numbered<V>, AllocError> {
        Ok(Numbered {
            values: self.values.clone()?,
        })
    }
}

impl<V> Numbered<V> {
    ghost use Rattle.dav_store.specs.NumberedLends.{lends_at};

    /// No values.
    pub fn new(alloc: Global) -> Numbered<V>
        ensures { result ≡ [] }
    {
        Numbered {
            values: HashMap::new(alloc),
        }
    }

    /// How many values there are.
    pub fn len(&self) -> usize
        ensures { result ≡ length self.now }
    {
        self.values.len()
    }

    /// The value of a number.
    pub fn get(&self, number: u64) -> Option<&V>
        ensures { option_copied result ≡ lookup (is_at (nat_cmp number)) self.now }
    {
        self.values.get(&number)
    }

    /// The value of a number, to be written.
    pub fn get_mut(&mut self, number: u64) -> Option<&mut V>
        ensures* writes_back { sem 𝓛 (lends_at V.row self.entry number result) }
        ensures value { option_copied_mut result ≡ lookup (is_at (nat_cmp number)) self.old }
    {
        self.values.get_mut(&number)
    }
}

impl<V: Drop> Numbered<V> {
    /// Gives a number this value. Where memory runs out, nothing changes.
    pub fn insert(&mut self, number: u64, value: V) -> Result<(), AllocError>
        ensures ok { OnOk result (self.new ≡ insert_entry nat_cmp self.old number value) }
        ensures err { OnErr result (self.new ≡ self.old) }
    {
        let _ = self.values.insert(number, value)?;
        Ok(())
    }

    /// The value of a number goes.
    pub fn remove(&mut self, number: u64)
        ensures left { self.new ≡ remove_entry (is_at (nat_cmp number)) self.old }
        ensures gone { lookup (is_at (nat_cmp number)) self.new ≡ None }
    {
        let _ = self.values.remove(&number);
    }
}
