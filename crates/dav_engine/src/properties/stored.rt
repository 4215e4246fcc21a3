//! What a store tells of properties and of its quota.
ghost use Rattle.std.specs.Prelude.{◌≡◌, IfOk, Ok};
ghost use Rattle.std.specs.List.{filter_map};
ghost use Rattle.dav_core.specs.Property.{property_key};
ghost use Rattle.dav_engine.specs.Follows.{as_is, or_memory, FollowsOnStore};
ghost use Rattle.dav_engine.specs.Properties.{Requested, all_kept, has_properties, kept_property, key_of, cached_quota};

use crate::properties::live::Quota;
use dav_core::davpath::DavPath;
use dav_core::element::Element;
use dav_core::errors::NoMemory;
use dav_core::fs::{DavFileSystem, DavProp};
use std::alloc::Global;

/// What the store tells of its quota: it is asked once (RFC 4331).
pub fn cached_quota<F: DavFileSystem>(fs: &mut F, known: Option<Quota>) -> Quota
    ensures { FollowsOnStore as_is (cached_quota known)
        (F.state fs.old) (Ok result) (F.state fs.new) }
{
    match known {
        Some(quota) => quota,
        None => fs.get_quota().ok(),
    }
}

/// Whether the store keeps properties of what is at a path; a refusal says that it doesn't.
pub fn has_properties<F: DavFileSystem>(fs: &mut F, path: &DavPath) -> bool
    ensures { FollowsOnStore as_is (has_properties path.now)
        (F.state fs.old) (Ok result) (F.state fs.new) }
{
    fs.have_props(path)
}

// The elements of properties; those without one are left out.
fn elements(alloc: Global, properties: Vec<DavProp>) -> Result<Vec<Element>, NoMemory>
    ensures { IfOk result (λ es. es.items ≡ filter_map (λ p. p.xml) properties.items) }
{
    let mut elements = Vec::new(alloc);
    for property in properties {
        let DavProp { xml, .. } = property;
        if let Some(element) = xml {
            elements.push(element)?;
        }
    }
    Ok(elements)
}

/// All properties that the store keeps of what is at a path (RFC 4918, section 9.1).
pub fn all_kept<F: DavFileSystem>(
    fs: &mut F,
    alloc: Global,
    path: &DavPath,
) -> Result<Vec<Element>, NoMemory>
    ensures { FollowsOnStore (λ es. es.items) (all_kept path.now)
        (F.state fs.old) (or_memory result) (F.state fs.new) }
{
    if !has_properties(fs, path) {
        return Ok(Vec::new(alloc));
    }
    match fs.get_props(alloc, path, true) {
        Ok(properties) => elements(alloc, properties),
        Err(_) => Ok(Vec::new(alloc)),
    }
}

// What a property is asked by.
fn asked_by(property: &Element) -> Result<DavProp, NoMemory>
    ensures { IfOk result (λ p. property_key p ≡ key_of property.now) }
{
    Ok(DavProp {
        name: property.name.clone()?,
        prefix: None,
        namespace: property.namespace.clone()?,
        xml: None,
    })
}

/// A property that is requested, if the store keeps it; a refusal says that it doesn't.
pub fn kept_property<F: DavFileSystem>(
    fs: &mut F,
    alloc: Global,
    path: &DavPath,
    property: &Element,
) -> Result<Option<Element>, NoMemory>
    ensures { FollowsOnStore as_is (kept_property Requested path.now property.now)
        (F.state fs.old) (or_memory result) (F.state fs.new) }
{
    if !has_properties(fs, path) {
        return Ok(None);
    }
    let asked = asked_by(property)?;
    let kept = fs.get_prop(alloc, path, &asked).ok();
    Ok(kept)
}
