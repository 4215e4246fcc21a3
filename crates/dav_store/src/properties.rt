//! Dead properties in memory (RFC 4918, section 4).
ghost use Rattle.std.specs.Prelude.{◌≡◌, ◌∷◌, ◌++◌, [], IfOk, OnOk, OnErr, not, Option, option_map, option_copied, position, map, string_bytes, T};
ghost use Rattle.std.specs.FinMap.{find, put, is_sorted};
ghost use Rattle.std.specs.List.{filter};
ghost use Rattle.std.specs.Ordering.{is_le};
ghost use Rattle.std.specs.Option.{option_and_then};
ghost use Rattle.dav_core.specs.Element.{prefix_of};
ghost use Rattle.dav_core.specs.Property.{key_cmp, is_same_key, property_key, patched, patched_by, patch_of, without_xml, shown_property};
ghost use Rattle.dav_store.specs.Answered.{answer_to};

mod order;
mod passing;
mod saved;
mod size;
mod tree;

use dav_core::davprop::DavProp;
use dav_core::element::Element;
use dav_core::errors::NoMemory;
use http::StatusCode;
pub use size::tree_len;
use std::alloc::Global;
use std::cmp::Ordering;
use std::marker::Model;

/// The key of a property: its namespace, empty where it has none, and its name.
#[derive(Drop)]
pub struct Key {
    namespace: String,
    name: String,
}

impl Model for Key {
    ghost use Rattle.std.specs.Prelude.{string_bytes};
    ghost use Rattle.dav_core.specs.Property.{PropertyKey};

    ghost Value = { PropertyKey };

    ghost view = { λ k. (string_bytes k.namespace, string_bytes k.name) };
}

impl Clone for Key {
    ghost use Rattle.std.specs.Prelude.{◌≡◌};

    ghost is_clone = { λ a b. a ≡ b };

    fn clone(&self) -> Result<Key, NoMemory> {
        Ok(Key {
            namespace: self.namespace.clone()?,
            name: self.name.clone()?,
        })
    }
}

// The namespace of a property; empty where it has none.
fn namespace_of(property: &DavProp) -> &str
    ensures { result.now ≡ (property_key property.now).0 }
{
    match &property.namespace {
        Some(namespace) => namespace,
        None => "",
    }
}

impl Key {
    /// The key of this property.
    pub fn of(alloc: Global, property: &DavProp) -> Result<Key, NoMemory>
        ensures { IfOk result (λ k. k ≡ property_key property.now) }
    {
        Ok(Key {
            namespace: String::from_str(alloc, namespace_of(property))?,
            name: property.name.clone()?,
        })
    }

    /// Compares namespaces first, then names.
    pub fn compare(&self, other: &Key) -> Ordering
        ensures { result ≡ key_cmp self.now other.now }
    {
        let first = self.namespace.as_bytes().cmp(&other.namespace.as_bytes());
        first.then(self.name.as_bytes().cmp(&other.name.as_bytes()))
    }

    /// Compares this with the key of a property.
    pub fn compare_to(&self, property: &DavProp) -> Ordering
        ensures { result ≡ key_cmp self.now (property_key property.now) }
    {
        let namespace = namespace_of(property).as_bytes();
        let first = self.namespace.as_bytes().cmp(&namespace);
        first.then(self.name.as_bytes().cmp(&property.name.as_bytes()))
    }

    /// Whether this is the key of the property.
    pub fn is_of(&self, property: &DavProp) -> bool
        ensures { result ≡ is_same_key (property_key property.now) self.now }
    {
        let first = namespace_of(property)
            .as_bytes()
            .cmp(&self.namespace.as_bytes());
        let whole = first.then(property.name.as_bytes().cmp(&self.name.as_bytes()));
        whole.is_eq()
    }
}

/// Properties in order of their keys, each with its element where it has one. Where they were read
/// they may be in any order.
#[derive(Drop)]
pub struct Properties {
    entries: Vec<(Key, Option<Element>)>,
    /// Whether they are in order of their keys, each key once.
    are_rising: bool,
}

impl Model for Properties {
    ghost use Rattle.dav_core.specs.Property.{Properties as Seen};
    ghost use Rattle.dav_core.specs.PropertyCode.{coded_properties};

    ghost Value = { Seen };

    ghost coded = { coded_properties };

    ghost view = { λ p. p.entries.items };

    ghost use Rattle.std.specs.Prelude.{T};
    ghost use Rattle.std.specs.Bool.{Decides};
    ghost use Rattle.std.specs.FinMap.{is_sorted};
    ghost use Rattle.dav_core.specs.Property.{key_cmp};

    ghost invariant = { λ p. Decides p.are_rising (T (is_sorted key_cmp p.entries.items)) };
}

impl Clone for Properties {
    ghost use Rattle.std.specs.Prelude.{◌≡◌};

    ghost is_clone = { λ a b. a ≡ b };

    fn clone(&self) -> Result<Properties, NoMemory> {
        Ok(Properties {
            entries: self.entries.clone()?,
            are_rising: self.are_rising,
        })
    }
}

// The place of a property in the list.
fn place(entries: &[(Key, Option<Element>)], property: &DavProp) -> Option<usize>
    ensures { result ≡ position (λ e. is_same_key (property_key property.now) e.0) entries.now }
{
    entries.iter().position(|e| e.0.is_of(property))
}

// The place of the first property that doesn't come before this key.
fn place_from(entries: &[(Key, Option<Element>)], key: &Key) -> Option<usize>
    ensures { result ≡ position (λ e. is_le (key_cmp key.now e.0)) entries.now }
{
    entries.iter().position(|e| key.compare(&e.0).is_le())
}

// What is stored for a property.
fn stored_in<'a>(
    entries: &'a [(Key, Option<Element>)],
    property: &DavProp,
) -> Option<&'a Option<Element>>
    ensures { option_copied result ≡ find key_cmp (property_key property.now) entries.now }
{
    match place(entries, property) {
        None => None,
        Some(i) => Some(&entries[i].1),
    }
}

// What is stored for a property, where the keys rise: in the time of a search in order.
fn stored_in_order<'a>(
    entries: &'a [(Key, Option<Element>)],
    property: &DavProp,
) -> Option<&'a Option<Element>>
    requires { T (is_sorted key_cmp entries.now) }
    ensures { option_copied result ≡ find key_cmp (property_key property.now) entries.now }
{
    match entries.binary_search_by(|e| e.0.compare_to(property)) {
        Ok(i) => Some(&entries[i].1),
        Err(_) => None,
    }
}

// Stores this element under the key, in place of what is there.
fn put_property(
    entries: &mut Vec<(Key, Option<Element>)>,
    key: Key,
    xml: Option<Element>,
) -> Result<(), NoMemory>
    ensures { OnOk result (entries.new.items ≡ put key_cmp key xml entries.old.items) }
{
    match place_from(entries, &key) {
        Some(i) => {
            if key.compare(&entries[i].0).is_eq() {
                entries[i].1 = xml;
            } else {
                entries.insert(i, (key, xml))?;
            }
        }
        None => entries.push((key, xml))?,
    }
    Ok(())
}

// Removes the property.
fn remove_property(entries: &mut Vec<(Key, Option<Element>)>, property: &DavProp)
    ensures { entries.new.items
        ≡ filter (λ e. not (is_same_key (property_key property.now) e.0)) entries.old.items }
{
    entries.retain(|e| !e.0.is_of(property));
}

// Makes one change, and takes the element out of its property.
fn apply(
    alloc: Global,
    entries: &mut Vec<(Key, Option<Element>)>,
    set: bool,
    property: &mut DavProp,
) -> Result<(), NoMemory>
    ensures property { OnOk result (property.new ≡ without_xml property.old) }
    ensures entries { OnOk result (entries.new.items
        ≡ patched_by (patch_of (set, property.old)) entries.old.items) }
{
    if set {
        let key = Key::of(alloc, property)?;
        return put_property(entries, key, property.xml.take());
    }
    remove_property(entries, property);
    property.xml = None;
    Ok(())
}

// Properties in any order after changes that are made in their order, and the answer to each.
fn patched_in_any_order(
    alloc: Global,
    entries: &Vec<(Key, Option<Element>)>,
    patches: Vec<(bool, DavProp)>,
) -> Result<(Vec<(Key, Option<Element>)>, Vec<(StatusCode, DavProp)>), NoMemory>
    ensures { IfOk result (λ r. (r.0.items ≡ patched (map patch_of patches.items) entries.now.items)
        × (r.1.items ≡ map answer_to patches.items)) }
{
    let mut entries = entries.clone()?;
    let mut answers = Vec::new(alloc);
    for (set, mut property) in patches {
        apply(alloc, &mut entries, set, &mut property)?;
        answers.push((StatusCode::OK, property))?;
    }
    Ok((entries, answers))
}

// The prefix of a property's element.
fn prefix_in(xml: &Option<Element>) -> Result<Option<String>, NoMemory>
    ensures { IfOk result (λ p. option_map string_bytes p ≡ option_and_then prefix_of xml.now) }
{
    match xml {
        Some(xml) => xml.prefix.clone(),
        None => Ok(None),
    }
}

// A stored property as it is returned to the caller, with its element or without.
fn listed_property(
    alloc: Global,
    key: &Key,
    xml: &Option<Element>,
    content: bool,
) -> Result<DavProp, NoMemory>
    ensures { IfOk result (λ p. p ≡ shown_property content (key.now, xml.now)) }
{
    let namespace = if key.namespace.is_empty() {
        None
    } else {
        Some(key.namespace.clone()?)
    };
    Ok(DavProp {
        name: key.name.clone()?,
        prefix: prefix_in(xml)?,
        namespace,
        xml: if content { xml.clone()? } else { None },
    })
}

// These properties as they are returned to the caller, with their elements or without.
fn list(
    alloc: Global,
    entries: &[(Key, Option<Element>)],
    content: bool,
) -> Result<Vec<DavProp>, NoMemory>
    ensures { IfOk result (λ list. list.items ≡ map (shown_property content) entries.now) }
{
    let mut list = Vec::new(alloc);
    for entry in entries {
        list.push(listed_property(alloc, &entry.0, &entry.1, content)?)?;
    }
    Ok(list)
}

impl Properties {
    ghost use Rattle.std.specs.Prelude.{◌≡◌, [], map, option_copied, IfOk, OnOk, OnErr};
    ghost use Rattle.std.specs.FinMap.{find};
    ghost use Rattle.dav_core.specs.Property.{key_cmp, property_key, patched, patch_of, shown_property};
    ghost use Rattle.dav_store.specs.Answered.{answer_to};

    /// No properties.
    pub fn new(alloc: Global) -> Properties
        ensures { result ≡ [] }
    {
        Properties {
            entries: Vec::new(alloc),
            are_rising: true,
        }
    }

    /// What is stored for a property.
    pub fn get(&self, property: &DavProp) -> Option<&Option<Element>>
        ensures { option_copied result ≡ find key_cmp (property_key property.now) self.now }
    {
        if self.are_rising {
            stored_in_order(&self.entries, property)
        } else {
            stored_in(&self.entries, property)
        }
    }

    /// The properties after changes that are made in their order, and the answer to each change: its
    /// property, without its element.
    pub fn patched(
        &self,
        alloc: Global,
        patches: Vec<(bool, DavProp)>,
    ) -> Result<(Properties, Vec<(StatusCode, DavProp)>), NoMemory>
        ensures { IfOk result (λ r. (r.0 ≡ patched (map patch_of patches.items) self.now)
            × (r.1.items ≡ map answer_to patches.items)) }
    {
        let (entries, answers) = if self.are_rising {
            tree::patched(alloc, &self.entries, patches)?
        } else {
            patched_in_any_order(alloc, &self.entries, patches)?
        };
        let are_rising = saved::are_rising(&entries);
        Ok((
            Properties {
                entries,
                are_rising,
            },
            answers,
        ))
    }

    /// All properties, in order, with their elements or without.
    pub fn list(&self, alloc: Global, content: bool) -> Result<Vec<DavProp>, NoMemory>
        ensures { IfOk result (λ list. list.items ≡ map (shown_property content) self.now) }
    {
        list(alloc, &self.entries, content)
    }
}
