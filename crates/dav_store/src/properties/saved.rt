//! Properties as they are saved, and as they are read.
ghost use Rattle.std.specs.Prelude.{◌≡◌, ◌++◌, ℕ, T, OnOk, IfOk};
ghost use Rattle.std.specs.Bool.{Decides};
ghost use Rattle.std.specs.FinMap.{is_sorted};
ghost use Rattle.dav_core.specs.Property.{key_cmp};
ghost use Rattle.dav_saved.specs.Spelling.{pair, many};
ghost use Rattle.dav_saved.specs.Reading.{Gives, pair_at, many_at, list_at};
ghost use Rattle.dav_saved.specs.Trees.{IsPair};
ghost use Rattle.dav_saved.specs.Parts.{AreBoth, IsValue, IsWithin};
ghost use Rattle.dav_saved.specs.Worlds.{property, property_at, AreSaveableProperties, AreWithin};

use super::{Key, Properties};
use dav_core::element::Element;
use dav_core::errors::NoMemory;
use dav_saved::{LoadError, number_of, put_number, put_text, put_value, string_of, value_of};
use std::alloc::Global;

// Adds a key: its namespace and its name.
fn put_key(out: &mut Vec<u8>, key: &Key) -> Result<(), NoMemory>
    ensures added { OnOk result (out.new.items ≡ out.old.items ++ pair key.now) }
    ensures saveable { OnOk result (IsPair key.now) }
{
    put_text(out, &key.namespace)?;
    put_text(out, &key.name)?;
    Ok(())
}

// Adds a property: its key, and its element where it has one.
fn put_entry(out: &mut Vec<u8>, entry: &(Key, Option<Element>)) -> Result<(), NoMemory>
    ensures added { OnOk result (out.new.items ≡ out.old.items ++ property entry.now) }
    ensures saveable { OnOk result ((levels : ℕ) → IsWithin levels entry.now.1
        → AreBoth IsPair (IsValue levels) entry.now) }
{
    put_key(out, &entry.0)?;
    put_value(out, &entry.1)?;
    Ok(())
}

// Adds properties.
fn put_entries(out: &mut Vec<u8>, entries: &[(Key, Option<Element>)]) -> Result<(), NoMemory>
    ensures added { OnOk result (out.new.items ≡ out.old.items ++ many property entries.now) }
    ensures saveable { OnOk result ((levels : ℕ) → AreWithin levels entries.now
        → AreSaveableProperties levels entries.now) }
{
    put_number(out, entries.len() as u64)?;
    for entry in entries {
        put_entry(out, entry)?;
    }
    Ok(())
}

// The key in front of bytes, and what is behind it.
#[tactic(auto, unfolding(dav_saved::specs::Reading::pair_at))]
fn key_of(alloc: Global, bytes: &[u8]) -> Result<(Key, &[u8]), LoadError>
    ensures { Gives (λ x. (x.0, x.1.now)) result (pair_at bytes.now) }
{
    let (namespace, rest) = string_of(alloc, bytes)?;
    let (name, rest) = string_of(alloc, rest)?;
    Ok((Key { namespace, name }, rest))
}

// The property in front of bytes, and what is behind it.
#[tactic(auto, unfolding(dav_saved::specs::Worlds::property_at, dav_saved::specs::Parts::both_at))]
fn entry_of(
    alloc: Global,
    levels: usize,
    bytes: &[u8],
) -> Result<((Key, Option<Element>), &[u8]), LoadError>
    ensures { Gives (λ x. (x.0, x.1.now)) result (property_at levels bytes.now) }
{
    let (key, rest) = key_of(alloc, bytes)?;
    let (value, rest) = value_of(alloc, levels, rest)?;
    Ok(((key, value), rest))
}

// So many properties in front of bytes, and what is behind them.
fn entries_of(
    alloc: Global,
    levels: usize,
    count: u64,
    bytes: &[u8],
) -> Result<(Vec<(Key, Option<Element>)>, &[u8]), LoadError>
    ensures { Gives (λ x. (x.0.items, x.1.now)) result (many_at (property_at levels) count bytes.now) }
{
    let mut entries = Vec::new(alloc);
    let mut rest = bytes;
    for _ in 0..count {
        let (entry, after) = entry_of(alloc, levels, rest)?;
        entries.push(entry)?;
        rest = after;
    }
    Ok((entries, rest))
}

// Whether properties are in order of their keys, each key once.
pub fn are_rising(entries: &[(Key, Option<Element>)]) -> bool
    ensures { Decides result (T (is_sorted key_cmp entries.now)) }
{
    for i in 1..entries.len() {
        if !entries[i - 1].0.compare(&entries[i].0).is_lt() {
            return false;
        }
    }
    true
}

impl Properties {
    ghost use Rattle.std.specs.Prelude.{◌≡◌, ◌++◌, ℕ, T, OnOk};
    ghost use Rattle.std.specs.Bool.{Decides};
    ghost use Rattle.std.specs.FinMap.{is_sorted};
    ghost use Rattle.dav_core.specs.Property.{key_cmp};
    ghost use Rattle.dav_saved.specs.Spelling.{many};
    ghost use Rattle.dav_saved.specs.Reading.{Gives, list_at};
    ghost use Rattle.dav_saved.specs.Worlds.{property, property_at, AreSaveableProperties, AreWithin};

    /// Adds the properties in their order to what is saved. After an error a part of them may have
    /// been added.
    pub fn save(&self, out: &mut Vec<u8>) -> Result<(), NoMemory>
        ensures added { OnOk result (out.new.items ≡ out.old.items ++ many property self.now) }
        // They can be read again, by as many levels as their elements have.
        ensures saveable { OnOk result ((levels : ℕ) → AreWithin levels self.now
            → AreSaveableProperties levels self.now) }
    {
        put_entries(out, &self.entries)
    }

    /// The properties in front of bytes, in any order, and what is behind them. `NotSaved` where no
    /// properties whose elements have at most so many levels are there.
    #[tactic(auto, unfolding(dav_saved::specs::Reading::list_at))]
    pub fn load(
        alloc: Global,
        levels: usize,
        bytes: &[u8],
    ) -> Result<(Properties, &[u8]), LoadError>
        ensures { Gives (λ x. (x.0, x.1.now)) result (list_at (property_at levels) bytes.now) }
    {
        let (count, rest) = number_of(bytes)?;
        let (entries, rest) = entries_of(alloc, levels, count, rest)?;
        let are_rising = are_rising(&entries);
        Ok((
            Properties {
                entries,
                are_rising,
            },
            rest,
        ))
    }

    /// Whether the properties are in order of their keys, each key once.
    pub fn are_rising(&self) -> bool
        ensures { Decides result (T (is_sorted key_cmp self.now)) }
    {
        self.are_rising
    }
}
