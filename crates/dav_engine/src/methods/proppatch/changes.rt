//! What a PROPPATCH is to change, and what becomes of each change (RFC 4918, section 9.2).
ghost use Rattle.std.specs.Prelude.{◌≡◌, ◌++◌, if◌then◌else◌, None, Some, IfOk, OnOk, map, string_bytes};
ghost use Rattle.std.specs.List.{flat_map};
ghost use Rattle.std.specs.Option.{option_copied, option_map};
ghost use Rattle.dav_core.specs.Element.{child_elements};
ghost use Rattle.dav_core.specs.Property.{patch_of};
ghost use Rattle.dav_engine.specs.PropertyView.{groups_in};
ghost use Rattle.dav_engine.specs.Proppatch as spec;

use crate::headers::absent_if_invalid;
use crate::reply::tree::bare;
use crate::request::Body;
use dav_core::element::Element;
use dav_core::errors::NoMemory;
use dav_core::fs::DavProp;
use dav_headers::ContentLanguage;
use http::StatusCode;
use http_header::{HeaderValue, HeaderValueError};
use std::alloc::Global;
use std::collections::BTreeMap;
use std::marker::Model;

/// A change: a property by its element, and whether it is set or removed.
#[derive(Drop)]
pub struct Change<'a> {
    /// Whether it is set.
    pub is_set: bool,
    /// The property.
    pub property: &'a Element,
}

impl<'a> Model for Change<'a> {
    ghost use Rattle.dav_engine.specs.Proppatch as asked;

    ghost Value = { asked.Change };

    ghost use Rattle.dav_engine.specs.ChangeCode.{coded_change};

    ghost coded = { coded_change };

    ghost use Rattle.dav_engine.specs.ChangeView.{change_of};

    ghost view = { change_of };
}

/// Changes, by who decides what becomes of them.
#[derive(Drop)]
pub struct Judged<'a> {
    /// Those that are answered at once, each with its status.
    pub answered: Vec<(StatusCode, Change<'a>)>,
    /// Those that are to be stored.
    pub stored: Vec<Change<'a>>,
}

// Adds the changes of the elements in a `prop`.
fn add_properties<'a>(
    changes: &mut Vec<Change<'a>>,
    is_set: bool,
    prop: &'a Element,
) -> Result<(), NoMemory>
    ensures { OnOk result (changes.new.items ≡ changes.old.items
        ++ spec.each_changed is_set (child_elements prop.now)) }
{
    for property in prop.child_elems() {
        changes.push(Change { is_set, property })?;
    }
    Ok(())
}

// Adds the changes of a `set` or `remove`.
fn add_changes<'a>(
    changes: &mut Vec<Change<'a>>,
    is_set: bool,
    part: &'a Element,
) -> Result<(), NoMemory>
    ensures { OnOk result (changes.new.items ≡ changes.old.items
        ++ spec.changes_to is_set part.now) }
{
    for prop in part.child_elems() {
        if prop.name.as_str() == "prop" {
            add_properties(changes, is_set, prop)?;
        }
    }
    Ok(())
}

// Adds the changes of a part of a body.
fn add_part<'a>(changes: &mut Vec<Change<'a>>, part: &'a Element) -> Result<(), NoMemory>
    ensures { OnOk result (changes.new.items ≡ changes.old.items ++ spec.changes_by part.now) }
{
    match part.name.as_str() {
        "set" => add_changes(changes, true, part),
        "remove" => add_changes(changes, false, part),
        _ => Ok(()),
    }
}

// The changes of all parts of an element.
fn changes_of<'a>(alloc: Global, tree: &'a Element) -> Result<Vec<Change<'a>>, NoMemory>
    ensures { IfOk result (λ changes. changes.items
        ≡ flat_map spec.changes_by (child_elements tree.now)) }
{
    let mut changes = Vec::new(alloc);
    for part in tree.child_elems() {
        add_part(&mut changes, part)?;
    }
    Ok(changes)
}

/// All changes of a body, in order (RFC 4918, section 14.19); none where it isn't that of a PROPPATCH.
pub fn changes_in<'a>(alloc: Global, body: &'a Body) -> Result<Option<Vec<Change<'a>>>, NoMemory>
    ensures { IfOk result (λ changes. option_map (λ cs. cs.items) changes
        ≡ spec.changes_in body.now) }
{
    let Body::Tree(tree) = body else {
        return Ok(None);
    };
    if tree.name.as_str() == "propertyupdate" {
        Ok(Some(changes_of(alloc, tree)?))
    } else {
        Ok(None)
    }
}

// Whether a text can be the value of the header Content-Language (RFC 9110, section 8.5).
fn are_languages(alloc: Global, text: String) -> Result<bool, NoMemory>
    ensures { IfOk result (λ are. are ≡ spec.are_languages (string_bytes text)) }
{
    let value = match HeaderValue::from_string(text) {
        Ok(value) => value,
        Err(HeaderValueError::Invalid) => return Ok(false),
        Err(HeaderValueError::OutOfMemory) => return Err(NoMemory),
    };
    let languages = ContentLanguage::decode(alloc, std::slice::from_ref(&value));
    Ok(absent_if_invalid(languages)?.is_some())
}

// 409 for a value that isn't a text.
fn with_text(
    alloc: Global,
    element: &Element,
    verdict: Option<StatusCode>,
) -> Result<Option<StatusCode>, NoMemory>
    ensures { IfOk result (λ status. status ≡ spec.with_text element.now verdict) }
{
    if element.get_text(alloc)?.is_some() && !element.has_child_elems() {
        Ok(verdict)
    } else {
        Ok(Some(StatusCode::CONFLICT))
    }
}

// 409 for a value that isn't a list of languages.
fn with_languages(
    alloc: Global,
    element: &Element,
    verdict: Option<StatusCode>,
) -> Result<Option<StatusCode>, NoMemory>
    ensures { IfOk result (λ status. status ≡ spec.with_languages element.now verdict) }
{
    let Some(text) = element.get_text(alloc)? else {
        return Ok(Some(StatusCode::CONFLICT));
    };
    if !element.has_child_elems() && are_languages(alloc, text)? {
        Ok(verdict)
    } else {
        Ok(Some(StatusCode::CONFLICT))
    }
}

// Nothing, for a property that is to be stored, where the store keeps properties; else 403.
fn storable_if(has: bool) -> Option<StatusCode>
    ensures { result ≡ spec.storable_if has }
{
    if has {
        None
    } else {
        Some(StatusCode::FORBIDDEN)
    }
}

/// The status that answers at once to a property that is to be set, by whether the store keeps properties; none where it is to
/// be stored. A client can't set what the server computes (RFC 4918, section 15).
pub fn liveprop_set(
    alloc: Global,
    has: bool,
    element: &Element,
) -> Result<Option<StatusCode>, NoMemory>
    ensures { IfOk result (λ status. status ≡ spec.set_status has element.now) }
{
    match element.namespace.as_deref() {
        Some("DAV:") => match element.name.as_str() {
            "displayname" => with_text(alloc, element, storable_if(has)),
            "getcontentlanguage" => with_languages(alloc, element, storable_if(has)),
            "getlastmodified" => with_text(alloc, element, Some(StatusCode::FORBIDDEN)),
            _ => Ok(Some(StatusCode::FORBIDDEN)),
        },
        Some("http://apache.org/dav/props/") => match element.name.as_str() {
            "executable" => with_text(alloc, element, Some(StatusCode::FORBIDDEN)),
            _ => Ok(Some(StatusCode::FORBIDDEN)),
        },
        Some("urn:schemas-microsoft-com:") => match element.name.as_str() {
            "Win32CreationTime"
            | "Win32FileAttributes"
            | "Win32LastAccessTime"
            | "Win32LastModifiedTime" => with_text(alloc, element, Some(StatusCode::OK)),
            _ => Ok(Some(StatusCode::FORBIDDEN)),
        },
        _ => Ok(None),
    }
}

/// The same for a property that is to be removed.
pub fn liveprop_remove(has: bool, element: &Element) -> Option<StatusCode>
    ensures { result ≡ spec.remove_status has element.now }
{
    match element.namespace.as_deref() {
        Some("DAV:") => match element.name.as_str() {
            "displayname" | "getcontentlanguage" if has => Some(StatusCode::OK),
            _ => Some(StatusCode::FORBIDDEN),
        },
        Some("http://apache.org/dav/props/") => Some(StatusCode::FORBIDDEN),
        Some("urn:schemas-microsoft-com:") => Some(StatusCode::FORBIDDEN),
        _ => None,
    }
}

// The status that answers at once to a change.
fn change_status(
    alloc: Global,
    has: bool,
    change: &Change<'_>,
) -> Result<Option<StatusCode>, NoMemory>
    ensures { IfOk result (λ status. status ≡ spec.change_status has change.now) }
{
    if change.is_set {
        liveprop_set(alloc, has, change.property)
    } else {
        Ok(liveprop_remove(has, change.property))
    }
}

/// Parts the changes that are answered at once from those that are to be stored, each in their order.
pub fn judge<'a>(alloc: Global, has: bool, changes: Vec<Change<'a>>) -> Result<Judged<'a>, NoMemory>
    ensures answered { IfOk result (λ judged. judged.answered.items
        ≡ spec.answered_at_once has changes.entry.items) }
    ensures stored { IfOk result (λ judged. judged.stored.items
        ≡ spec.to_store has changes.entry.items) }
{
    let mut answered = Vec::new(alloc);
    let mut stored = Vec::new(alloc);
    for change in changes {
        match change_status(alloc, has, &change)? {
            Some(status) => answered.push((status, change))?,
            None => stored.push(change)?,
        }
    }
    Ok(Judged { answered, stored })
}

/// Whether one of the changes that are answered at once is refused.
pub fn has_refused(answered: &[(StatusCode, Change<'_>)]) -> bool
    ensures { result ≡ spec.has_refused answered.now }
{
    for (status, _) in answered {
        if *status != StatusCode::OK {
            return true;
        }
    }
    false
}

// A property by its name, with its namespace declared, and without its value.
fn by_name(
    alloc: Global,
    name: &str,
    prefix: Option<&str>,
    namespace: Option<&str>,
) -> Result<Element, NoMemory>
    ensures { IfOk result (λ e. e ≡ spec.by_name name.now
        (option_copied prefix.entry) (option_copied namespace.entry)) }
{
    let mut element = bare(alloc, name, prefix, namespace)?;
    if let Some(space) = namespace {
        element.ns(prefix.unwrap_or(""), space)?;
    }
    Ok(element)
}

// The same of an element.
fn element_by_name(alloc: Global, element: &Element) -> Result<Element, NoMemory>
    ensures { IfOk result (λ e. e ≡ spec.element_by_name element.now) }
{
    by_name(
        alloc,
        &element.name,
        element.prefix.as_deref(),
        element.namespace.as_deref(),
    )
}

// The same of a property as the store answers it.
fn property_by_name(alloc: Global, property: &DavProp) -> Result<Element, NoMemory>
    ensures { IfOk result (λ e. e ≡ spec.property_by_name property.now) }
{
    by_name(
        alloc,
        &property.name,
        property.prefix.as_deref(),
        property.namespace.as_deref(),
    )
}

// A change that would have been stored: what was to be set is shown whole.
fn failed_element(alloc: Global, change: &Change<'_>) -> Result<Element, NoMemory>
    ensures { IfOk result (λ e. e ≡ spec.failed_element change.now) }
{
    if change.is_set {
        change.property.clone()
    } else {
        element_by_name(alloc, change.property)
    }
}

// A status where one change is refused: what would have been done fails with it.
fn failed_status(status: StatusCode) -> StatusCode
    ensures { result ≡ spec.failed_status status }
{
    if status == StatusCode::OK {
        StatusCode::FAILED_DEPENDENCY
    } else {
        status
    }
}

/// What is told of all changes where one is refused (RFC 4918, section 11.4).
pub fn all_failed(
    alloc: Global,
    judged: &Judged<'_>,
) -> Result<Vec<(StatusCode, Element)>, NoMemory>
    ensures { IfOk result (λ told. told.items
        ≡ spec.all_failed judged.now.answered.items judged.now.stored.items) }
{
    let mut told = Vec::new(alloc);
    for (status, change) in &judged.answered {
        let element = element_by_name(alloc, change.property)?;
        told.push((failed_status(*status), element))?;
    }
    for change in &judged.stored {
        let element = failed_element(alloc, change)?;
        told.push((StatusCode::FAILED_DEPENDENCY, element))?;
    }
    Ok(told)
}

/// What is told of all changes where none is refused, of those of the store by its answers.
pub fn all_done(
    alloc: Global,
    answered: &[(StatusCode, Change<'_>)],
    done: &[(StatusCode, DavProp)],
) -> Result<Vec<(StatusCode, Element)>, NoMemory>
    ensures { IfOk result (λ told. told.items ≡ spec.all_done answered.now done.now) }
{
    let mut told = Vec::new(alloc);
    for (status, change) in answered {
        told.push((*status, element_by_name(alloc, change.property)?))?;
    }
    for (status, property) in done {
        told.push((*status, property_by_name(alloc, property)?))?;
    }
    Ok(told)
}

// The element to store, where a property is set.
fn value_of(change: &Change<'_>) -> Result<Option<Element>, NoMemory>
    ensures { IfOk result (λ xml. xml
        ≡ (if change.now.is_set then Some change.now.property else None)) }
{
    if change.is_set {
        Ok(Some(change.property.clone()?))
    } else {
        Ok(None)
    }
}

// A change as the store takes it.
fn as_patch(change: &Change<'_>) -> Result<(bool, DavProp), NoMemory>
    ensures { IfOk result (λ patch. patch_of patch ≡ spec.as_patch change.now) }
{
    let element = change.property;
    let property = DavProp {
        name: element.name.clone()?,
        prefix: element.prefix.clone()?,
        namespace: element.namespace.clone()?,
        xml: value_of(change)?,
    };
    Ok((change.is_set, property))
}

/// Changes as the store takes them.
pub fn as_patches(alloc: Global, changes: &[Change<'_>]) -> Result<Vec<(bool, DavProp)>, NoMemory>
    ensures { IfOk result (λ patches. map patch_of patches.items
        ≡ map spec.as_patch changes.now) }
{
    let mut patches = Vec::new(alloc);
    for change in changes {
        patches.push(as_patch(change)?)?;
    }
    Ok(patches)
}

// Adds a property under its status.
fn tell_under(
    groups: &mut BTreeMap<u16, Vec<Element>>,
    alloc: Global,
    status: StatusCode,
    element: Element,
) -> Result<(), NoMemory>
    ensures { OnOk result (groups_in groups.new
        ≡ spec.told_under status element (groups_in groups.old)) }
{
    let status = status.as_u16();
    if let Some(elements) = groups.get_mut(&status) {
        elements.push(element)?;
    } else {
        groups.insert(status, vec![in alloc; element]?)?;
    }
    Ok(())
}

/// Properties under their statuses, each in their order.
pub fn grouped(
    alloc: Global,
    told: Vec<(StatusCode, Element)>,
) -> Result<BTreeMap<u16, Vec<Element>>, NoMemory>
    ensures { IfOk result (λ groups. groups_in groups ≡ spec.grouped told.items) }
{
    let mut groups = BTreeMap::new(alloc);
    for (status, element) in told {
        tell_under(&mut groups, alloc, status, element)?;
    }
    Ok(groups)
}
