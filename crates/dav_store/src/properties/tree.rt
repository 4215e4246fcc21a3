//! Properties in a tree by their keys, in which many of them are changed at once.
ghost use Rattle.std.specs.Prelude.{◌≡◌, IfOk, OnOk, T, map, not};
ghost use Rattle.std.specs.FinMap.{is_sorted, put};
ghost use Rattle.std.specs.List.{filter};
ghost use Rattle.dav_core.specs.Property.{key_cmp, is_same_key, patched, patched_by, patch_of, without_xml};
ghost use Rattle.dav_store.specs.Answered.{answer_to};

use super::Key;
use dav_core::davprop::DavProp;
use dav_core::element::Element;
use dav_core::errors::NoMemory;
use http::StatusCode;
use std::alloc::Global;
use std::collections::BTreeMap;

// Properties that are in order of their keys, in a tree.
fn tree_of(
    alloc: Global,
    entries: &[(Key, Option<Element>)],
) -> Result<BTreeMap<Key, Option<Element>>, NoMemory>
    requires { T (is_sorted key_cmp entries.now) }
    ensures { IfOk result (λ tree. tree.entries ≡ entries.now) }
{
    let mut tree = BTreeMap::new(alloc);
    for (key, xml) in entries {
        tree.insert(key.clone()?, xml.clone()?)?;
    }
    Ok(tree)
}

// Stores this element under the key, in place of what is there.
fn put_in(
    tree: &mut BTreeMap<Key, Option<Element>>,
    key: Key,
    xml: Option<Element>,
) -> Result<(), NoMemory>
    ensures { OnOk result (tree.new.entries ≡ put key_cmp key xml tree.old.entries) }
{
    tree.insert(key, xml)?;
    Ok(())
}

// Removes what is stored under the key.
fn remove_from(tree: &mut BTreeMap<Key, Option<Element>>, key: &Key)
    ensures { tree.new.entries
        ≡ filter (λ e. not (is_same_key key.now e.0)) tree.old.entries }
{
    tree.remove(key);
}

// Makes one change, and takes the element out of its property.
fn apply(
    alloc: Global,
    tree: &mut BTreeMap<Key, Option<Element>>,
    set: bool,
    property: &mut DavProp,
) -> Result<(), NoMemory>
    ensures property { OnOk result (property.new ≡ without_xml property.old) }
    ensures tree { OnOk result (tree.new.entries
        ≡ patched_by (patch_of (set, property.old)) tree.old.entries) }
{
    let key = Key::of(alloc, property)?;
    if set {
        return put_in(tree, key, property.xml.take());
    }
    remove_from(tree, &key);
    property.xml = None;
    Ok(())
}

// Makes changes in their order, and answers each with its property, without its element.
fn apply_all(
    alloc: Global,
    tree: &mut BTreeMap<Key, Option<Element>>,
    patches: Vec<(bool, DavProp)>,
) -> Result<Vec<(StatusCode, DavProp)>, NoMemory>
    ensures answers { IfOk result (λ answers. answers.items ≡ map answer_to patches.items) }
    ensures tree { OnOk result (tree.new.entries
        ≡ patched (map patch_of patches.items) tree.old.entries) }
{
    let mut answers = Vec::new(alloc);
    for (set, mut property) in patches {
        apply(alloc, tree, set, &mut property)?;
        answers.push((StatusCode::OK, property))?;
    }
    Ok(answers)
}

// The properties of a tree, in order.
fn listed(
    alloc: Global,
    tree: BTreeMap<Key, Option<Element>>,
) -> Result<Vec<(Key, Option<Element>)>, NoMemory>
    ensures { IfOk result (λ list. list.items ≡ tree.entries) }
{
    let mut list = Vec::new(alloc);
    for entry in tree {
        list.push(entry)?;
    }
    Ok(list)
}

/// Properties that are in order of their keys, after changes that are made in their order, and the answer to each change: its
/// property, without its element. It takes the time of a search in them for each change.
pub fn patched(
    alloc: Global,
    entries: &[(Key, Option<Element>)],
    patches: Vec<(bool, DavProp)>,
) -> Result<(Vec<(Key, Option<Element>)>, Vec<(StatusCode, DavProp)>), NoMemory>
    requires { T (is_sorted key_cmp entries.now) }
    ensures patched { IfOk result (λ r.
        r.0.items ≡ patched (map patch_of patches.items) entries.now) }
    ensures answers { IfOk result (λ r. r.1.items ≡ map answer_to patches.items) }
{
    let mut tree = tree_of(alloc, entries)?;
    let answers = apply_all(alloc, &mut tree, patches)?;
    Ok((listed(alloc, tree)?, answers))
}
