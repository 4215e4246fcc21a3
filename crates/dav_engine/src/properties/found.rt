//! The properties of a resource that are found (RFC 4918, section 9.1).
ghost use Rattle.std.specs.Prelude.{◌≡◌, ◌≤◌, IfOk};
ghost use Rattle.dav_core.specs.World.{last_moment};
ghost use Rattle.dav_engine.specs.ConditionView.{locks_in};
ghost use Rattle.dav_engine.specs.Follows.{as_is, or_memory, FollowsWithLocks, FollowsOnStore};
ghost use Rattle.dav_engine.specs.Properties.{found_groups, kept_property, properties_of};
ghost use Rattle.dav_engine.specs.Properties as spec;
ghost use Rattle.dav_engine.specs.PropertyView.{groups_in};

use crate::properties::kind::{Telling, joined};
use crate::properties::live::{Quota, Resource, Source, available_told, find_property, used_told};
use crate::properties::response::property_response;
use crate::properties::stored::{all_kept, cached_quota, kept_property};
use crate::properties::writer::Writer;
use dav_core::davpath::DavPath;
use dav_core::element::Element;
use dav_core::errors::NoMemory;
use dav_core::fs::DavFileSystem;
use dav_core::ls::DavLockSystem;
use std::alloc::Global;
use std::collections::BTreeMap;

// A property that the store keeps, where properties are requested.
fn kept_for<F: DavFileSystem>(
    fs: &mut F,
    alloc: Global,
    telling: Telling,
    path: &DavPath,
    property: &Element,
) -> Result<Option<Element>, NoMemory>
    ensures { FollowsOnStore as_is (kept_property telling path.now property.now)
        (F.state fs.old) (or_memory result) (F.state fs.new) }
{
    match telling {
        Telling::Requested => kept_property(fs, alloc, path, property),
        Telling::AllProperties => Ok(None),
        Telling::NamesAlone => Ok(None),
        Telling::Outcomes => Ok(None),
        Telling::Others => Ok(None),
    }
}

// A property by where it is found; none where it isn't.
fn found_in<F: DavFileSystem>(
    fs: &mut F,
    alloc: Global,
    writer: &Writer,
    property: &Element,
    resource: Resource<'_>,
    known: &mut Option<Quota>,
    source: Source,
) -> Result<Option<Element>, NoMemory>
    ensures { FollowsOnStore (λ e. (e, known.new)) (spec.found_in writer.now property.now
        resource.entry.path.now resource.entry.meta.now known.old source)
        (F.state fs.old) (or_memory result) (F.state fs.new) }
{
    match source {
        Source::Here(told) => Ok(Some(told)),
        Source::Nowhere => Ok(None),
        Source::AvailableQuota => {
            let quota = cached_quota(fs, *known);
            *known = Some(quota);
            available_told(alloc, writer, property, resource, quota)
        }
        Source::UsedQuota => {
            let quota = cached_quota(fs, *known);
            *known = Some(quota);
            used_told(alloc, writer, property, resource, quota)
        }
        Source::InStore => kept_for(fs, alloc, writer.telling, resource.path, property),
    }
}

// A property; none where it isn't found.
fn found_property<F: DavFileSystem, L: DavLockSystem>(
    fs: &mut F,
    ls: Option<&L>,
    alloc: Global,
    writer: &Writer,
    property: &Element,
    resource: Resource<'_>,
    known: &mut Option<Quota>,
) -> Result<Option<Element>, NoMemory>
    requires created { resource.meta.now.created ≤ last_moment }
    requires modified { resource.meta.now.modified ≤ last_moment }
    ensures { FollowsWithLocks (locks_in L.locks ls.entry) (λ e. (e, known.new))
        (spec.found_property
        writer.now resource.entry.path.now resource.entry.meta.now known.old property.now)
        (F.state fs.old) (or_memory result) (F.state fs.new) }
{
    let source = find_property(alloc, ls, writer, property, resource)?;
    found_in(fs, alloc, writer, property, resource, known, source)
}

// The properties of a list that are found, in order.
fn found_properties<F: DavFileSystem, L: DavLockSystem>(
    fs: &mut F,
    ls: Option<&L>,
    alloc: Global,
    writer: &Writer,
    properties: &[Element],
    resource: Resource<'_>,
    known: &mut Option<Quota>,
) -> Result<Vec<Element>, NoMemory>
    requires created { resource.meta.now.created ≤ last_moment }
    requires modified { resource.meta.now.modified ≤ last_moment }
    ensures { FollowsWithLocks (locks_in L.locks ls.entry) (λ es. (es.items, known.new))
        (spec.found_properties writer.now resource.entry.path.now resource.entry.meta.now
        known.old properties.now) (F.state fs.old) (or_memory result) (F.state fs.new) }
{
    let mut found = Vec::new(alloc);
    for property in properties {
        let one = found_property(fs, ls, alloc, writer, property, resource, known)?;
        if let Some(element) = one {
            found.push(element)?;
        }
    }
    Ok(found)
}

// What was found under 200; where nothing was, there is no status.
fn found_groups(alloc: Global, found: Vec<Element>) -> Result<BTreeMap<u16, Vec<Element>>, NoMemory>
    ensures { IfOk result (λ groups. groups_in groups ≡ found_groups found.items) }
{
    let mut groups = BTreeMap::new(alloc);
    if found.is_empty() {
        return Ok(groups);
    }
    groups.insert(200, found)?;
    Ok(groups)
}

/// The response for one resource: the properties that are found, and those that the store keeps.
pub fn response_of<F: DavFileSystem, L: DavLockSystem>(
    fs: &mut F,
    ls: Option<&L>,
    alloc: Global,
    writer: &Writer,
    resource: Resource<'_>,
    known: &mut Option<Quota>,
) -> Result<Element, NoMemory>
    requires created { resource.meta.now.created ≤ last_moment }
    requires modified { resource.meta.now.modified ≤ last_moment }
    ensures { FollowsWithLocks (locks_in L.locks ls.entry) (λ e. (e, known.new))
        (properties_of writer.now resource.entry.path.now resource.entry.meta.now known.old)
        (F.state fs.old) (or_memory result) (F.state fs.new) }
{
    let properties = &writer.properties;
    let found = found_properties(fs, ls, alloc, writer, properties, resource, known)?;
    let kept = all_kept(fs, alloc, resource.path)?;
    let groups = found_groups(alloc, joined(found, kept)?)?;
    property_response(alloc, resource.path, groups)
}
