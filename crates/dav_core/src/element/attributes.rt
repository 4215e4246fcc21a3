//! Attributes that declare namespaces.
ghost use Rattle.std.specs.Prelude.{◌≡◌, map, string_bytes, IfOk, OnOk, OnErr};
ghost use Rattle.dav_core.specs.Element.{set_attribute, xmlns_name};
ghost use Rattle.std.specs.Cmp.Lexicographic.{pointwise};
ghost use Rattle.dav_core.specs.ElementEq.{attribute_eq};
ghost use Rattle.dav_core.specs.ElementView.{attribute_bytes, has_name, IsFirst};

use crate::errors::NoMemory;
use std::alloc::Global;

/// The name of the attribute that declares a prefix.
pub(super) fn xmlns_name(alloc: Global, prefix: &str) -> Result<String, NoMemory>
    ensures { IfOk result (λ name. string_bytes name ≡ xmlns_name prefix.now) }
{
    let mut name = String::from_str(alloc, "xmlns")?;
    if !prefix.is_empty() {
        name.push_str(":")?;
        name.push_str(prefix)?;
    }
    Ok(name)
}

/// Sets the first attribute of a name, or adds one.
pub(super) fn set_attribute(
    attributes: &mut Vec<(String, String)>,
    name: String,
    value: String,
) -> Result<(), NoMemory>
    ensures ok { OnOk result (map attribute_bytes attributes.new.items
        ≡ set_attribute (string_bytes name) (string_bytes value)
        (map attribute_bytes attributes.old.items)) }
    ensures err { OnErr result (attributes.new.items ≡ attributes.old.items) }
{
    match index_of(attributes, &name) {
        Some(index) => attributes[index].1 = value,
        None => attributes.push((name, value))?,
    }
    Ok(())
}

// The place of the first attribute of a name.
fn index_of(attributes: &[(String, String)], name: &str) -> Option<usize>
    ensures { IsFirst (has_name name.now) attributes.now result }
{
    for index in 0..attributes.len() {
        if attributes[index].0.as_str() == name {
            return Some(index);
        }
    }
    None
}

/// Copies of attributes, in order.
pub(super) fn copied_attributes(
    attributes: &Vec<(String, String)>,
) -> Result<Vec<(String, String)>, NoMemory>
    ensures { IfOk result (λ v. map attribute_bytes v.items
        ≡ map attribute_bytes attributes.now.items) }
{
    let mut copies = Vec::with_capacity(*attributes.allocator(), attributes.len())?;
    for (name, value) in attributes {
        copies.push((name.clone()?, value.clone()?))?;
    }
    Ok(copies)
}

/// Whether attributes are equal, one by one.
#[tactic(auto, using(crate::proofs::NodeLemmas::attributes_seen))]
pub(super) fn are_attributes_equal(
    left: &Vec<(String, String)>,
    right: &Vec<(String, String)>,
) -> bool
    ensures { result ≡ pointwise attribute_eq (map attribute_bytes left.now.items)
        (map attribute_bytes right.now.items) }
{
    left == right
}
