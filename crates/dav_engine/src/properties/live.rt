//! Live properties: those that the server computes (RFC 4918, section 15).
ghost use Rattle.std.specs.Prelude.{◌≡◌, ◌≤◌, codes, decimal, false, string_bytes, IfOk, IsOkAnd};
ghost use Rattle.std.specs.Fmt.{digits};
ghost use Rattle.dav_core.specs.Element.{name_of};
ghost use Rattle.dav_core.specs.World.{last_moment};
ghost use Rattle.dav_engine.specs.ConditionView.{locks_in};
ghost use Rattle.dav_engine.specs.Date.{date_of, date_text_of};
ghost use Rattle.dav_engine.specs.Properties as spec;

use crate::date::{date_text, internet_date};
use crate::folder::is_root;
use crate::properties::kind::{holds, is_in};
use crate::properties::locks::{list_lockdiscovery, list_supportedlock};
use crate::properties::writer::Writer;
use crate::reply::tree::{bare, saying, with_child, with_text};
use dav_core::davpath::DavPath;
use dav_core::element::Element;
use dav_core::errors::NoMemory;
use dav_core::fs::DavMetaData;
use dav_core::ls::DavLockSystem;
use std::alloc::Global;

/// The bytes that a store tells are used, and how many there are in all, where that is known (RFC 4331); none where it doesn't
/// tell.
pub type Quota = Option<(u64, Option<u64>)>;

/// A resource (RFC 9110, section 3.1), as it was found: its path, and what the store tells of it.
#[derive(Clone, Copy)]
pub struct Resource<'a> {
    /// Where it is.
    pub path: &'a DavPath,
    /// What the store tells of it.
    pub meta: &'a DavMetaData,
}

/// Where a property is found.
#[derive(Drop)]
pub enum Source {
    /// Here, as this element.
    Here(Element),
    /// Nowhere.
    Nowhere,
    /// In what the store tells of its quota: the bytes that are available.
    AvailableQuota,
    /// In what the store tells of its quota: the bytes that are used.
    UsedQuota,
    /// Among the properties that the store keeps.
    InStore,
}

// A property with its value, written with this prefix.
fn live(
    alloc: Global,
    prefix: &str,
    writer: &Writer,
    property: &Element,
    value: &str,
) -> Result<Element, NoMemory>
    ensures { IfOk result (λ e. e ≡ spec.live prefix.now writer.now property.now value.now) }
{
    let element = bare(alloc, &property.name, Some(prefix), None);
    if !writer.telling.has_values() || value.is_empty() {
        return element;
    }
    with_text(element, value)
}

// The same of the namespace `DAV:`, found here.
fn live_dav(
    alloc: Global,
    writer: &Writer,
    property: &Element,
    value: &str,
) -> Result<Source, NoMemory>
    ensures { IfOk result (λ s. s
        ≡ spec.Here (spec.live (codes "D") writer.now property.now value.now)) }
{
    here(live(alloc, "D", writer, property, value))
}

// The same of the namespace of Windows.
fn live_windows(
    alloc: Global,
    writer: &Writer,
    property: &Element,
    value: &str,
) -> Result<Source, NoMemory>
    ensures { IfOk result (λ s. s
        ≡ spec.Here (spec.live (codes "Z") writer.now property.now value.now)) }
{
    here(live(alloc, "Z", writer, property, value))
}

// The entity tag, where the resource has a change number (RFC 4918, section 15.6).
fn tag_source(
    alloc: Global,
    writer: &Writer,
    property: &Element,
    number: Option<u64>,
) -> Result<Source, NoMemory>
    ensures { IfOk result (λ s. s ≡ spec.tag_source writer.now property.now number) }
{
    match number {
        Some(number) => {
            let tag = format!(in alloc; "\"{number:x}\"")?;
            live_dav(alloc, writer, property, &tag)
        }
        None => Ok(Source::Nowhere),
    }
}

// The length of a file; a folder has none (RFC 4918, section 15.4).
fn length_source(
    alloc: Global,
    writer: &Writer,
    property: &Element,
    meta: &DavMetaData,
) -> Result<Source, NoMemory>
    ensures { IfOk result (λ s. s ≡ spec.length_source writer.now property.now meta.now) }
{
    if meta.dir {
        return Ok(Source::Nowhere);
    }
    let len = format!(in alloc; "{}", meta.len)?;
    live_dav(alloc, writer, property, &len)
}

// The type of a file's content; a folder has that of folders (RFC 4918, section 15.5).
fn content_type_of(dir: bool) -> &'static str
    ensures { result.now ≡ spec.content_type_of dir }
{
    if dir {
        "httpd/unix-directory"
    } else {
        "application/octet-stream"
    }
}

// An element is found here, where there was memory for it.
fn here(element: Result<Element, NoMemory>) -> Result<Source, NoMemory>
    ensures { IfOk result (λ s. IsOkAnd element (λ e. s ≡ spec.Here e)) }
{
    Ok(Source::Here(element?))
}

// Who asks, where that is known (RFC 5397, section 3).
fn principal_source(alloc: Global, writer: &Writer, property: &Element) -> Result<Source, NoMemory>
    ensures { IfOk result (λ s. s
        ≡ spec.principal_source writer.now property.now writer.now.principal) }
{
    let Some(principal) = &writer.principal else {
        return Ok(Source::Nowhere);
    };
    let element: Result<Element, NoMemory> = property.clone();
    if !writer.telling.has_values() {
        return here(element);
    }
    here(with_child(element, saying(alloc, "D:href", principal)))
}

// The kind of a resource: a folder is a collection (RFC 4918, section 15.9).
fn resource_type(alloc: Global, dir: bool, property: &Element) -> Result<Source, NoMemory>
    ensures { IfOk result (λ s. s ≡ spec.Here (spec.resource_type dir property.now)) }
{
    let mut element = property.clone()?;
    if !dir {
        return Ok(Source::Here(element));
    }
    element.push_element(Element::new2(alloc, "D:collection")?)?;
    Ok(Source::Here(element))
}

// The lock system that is told of: none where names alone are told.
fn locks_told<'a, L: DavLockSystem>(writer: &Writer, ls: Option<&'a L>) -> Option<&'a L>
    ensures { locks_in L.locks result
        ≡ spec.locks_told writer.now (locks_in L.locks ls.entry) }
{
    if writer.telling.has_values() {
        ls
    } else {
        None
    }
}

// A name that begins with a dot.
fn is_hidden(name: &[u8]) -> bool
    ensures { result ≡ spec.is_hidden name.now }
{
    matches!(name, [b'.', ..])
}

// The attributes that Windows knows: hidden, folder, file.
fn windows_attributes(resource: Resource<'_>) -> u8
    ensures { result
        ≡ spec.windows_attributes resource.entry.path.now resource.entry.meta.now }
{
    let hidden = if is_hidden(resource.path.file_name_bytes()) {
        2
    } else {
        0
    };
    let kind = if resource.meta.dir { 16 } else { 32 };
    hidden + kind
}

// A number in eight hexadecimal digits.
fn eight_digits(alloc: Global, number: u8) -> Result<String, NoMemory>
    ensures { IfOk result (λ t. string_bytes t ≡ spec.padded 8 (digits 16 false number)) }
{
    let text = format!(in alloc; "{number:08x}")?;
    Ok(text)
}

// Where the properties that Windows asks for are found.
fn windows_source(
    alloc: Global,
    writer: &Writer,
    property: &Element,
    resource: Resource<'_>,
) -> Result<Source, NoMemory>
    requires created { resource.meta.now.created ≤ last_moment }
    requires modified { resource.meta.now.modified ≤ last_moment }
    ensures { IfOk result (λ s. s ≡ spec.windows_source writer.now property.now
        resource.entry.path.now resource.entry.meta.now (name_of property.now)) }
{
    let meta = resource.meta;
    match property.name.as_str() {
        "Win32CreationTime" => {
            live_windows(alloc, writer, property, &date_text(alloc, meta.created)?)
        }
        "Win32LastModifiedTime" => {
            live_windows(alloc, writer, property, &date_text(alloc, meta.modified)?)
        }
        "Win32FileAttributes" => {
            let text = eight_digits(alloc, windows_attributes(resource))?;
            live_windows(alloc, writer, property, &text)
        }
        _ => Ok(Source::Nowhere),
    }
}

// When a resource was created (RFC 4918, section 15.1).
fn created_source(
    alloc: Global,
    writer: &Writer,
    property: &Element,
    created: u64,
) -> Result<Source, NoMemory>
    requires { created ≤ last_moment }
    ensures { IfOk result (λ s. s ≡ spec.Here (spec.live (codes "D") writer.now property.now
        (spec.internet_date (date_of created)))) }
{
    let date = internet_date(alloc, created)?;
    live_dav(alloc, writer, property, &date)
}

// When its content was changed (RFC 4918, section 15.7).
fn modified_source(
    alloc: Global,
    writer: &Writer,
    property: &Element,
    modified: u64,
) -> Result<Source, NoMemory>
    requires { modified ≤ last_moment }
    ensures { IfOk result (λ s. s ≡ spec.Here (spec.live (codes "D") writer.now property.now
        (date_text_of modified))) }
{
    let date = date_text(alloc, modified)?;
    live_dav(alloc, writer, property, &date)
}

// Where the properties of the namespace `DAV:` are found (RFC 4918, section 15; RFC 4331, sections 3 and 4; RFC 5397).
fn dav_source<L: DavLockSystem>(
    alloc: Global,
    ls: Option<&L>,
    writer: &Writer,
    property: &Element,
    resource: Resource<'_>,
) -> Result<Source, NoMemory>
    requires created { resource.meta.now.created ≤ last_moment }
    requires modified { resource.meta.now.modified ≤ last_moment }
    ensures { IfOk result (λ s. s ≡ spec.dav_source writer.now property.now
        resource.entry.path.now resource.entry.meta.now
        (locks_in L.locks ls.entry) (name_of property.now)) }
{
    let ls = locks_told(writer, ls);
    let meta = resource.meta;
    match property.name.as_str() {
        "creationdate" => created_source(alloc, writer, property, meta.created),
        "displayname" | "getcontentlanguage" => Ok(Source::InStore),
        "getetag" => tag_source(alloc, writer, property, meta.number),
        "getcontentlength" => length_source(alloc, writer, property, meta),
        "getcontenttype" => live_dav(alloc, writer, property, content_type_of(meta.dir)),
        "getlastmodified" => modified_source(alloc, writer, property, meta.modified),
        "resourcetype" => {
            resource_type(alloc, meta.dir && writer.telling.has_values(), property)
        }
        "current-user-principal" => principal_source(alloc, writer, property),
        "supportedlock" => here(list_supportedlock(alloc, ls)),
        "lockdiscovery" => here(list_lockdiscovery(alloc, ls, resource.path)),
        "quota-available-bytes" => Ok(Source::AvailableQuota),
        "quota-used-bytes" => Ok(Source::UsedQuota),
        _ => Ok(Source::Nowhere),
    }
}

/// Where a property is found.
pub fn find_property<L: DavLockSystem>(
    alloc: Global,
    ls: Option<&L>,
    writer: &Writer,
    property: &Element,
    resource: Resource<'_>,
) -> Result<Source, NoMemory>
    requires created { resource.meta.now.created ≤ last_moment }
    requires modified { resource.meta.now.modified ≤ last_moment }
    ensures { IfOk result (λ s. s ≡ spec.source writer.now property.now
        resource.entry.path.now resource.entry.meta.now (locks_in L.locks ls.entry)) }
{
    if is_in("DAV:", property) {
        dav_source(alloc, ls, writer, property, resource)
    } else if is_in("urn:schemas-microsoft-com:", property) {
        windows_source(alloc, writer, property, resource)
    } else if is_in("http://apache.org/dav/props/", property) {
        Ok(Source::Nowhere)
    } else {
        Ok(Source::InStore)
    }
}

// The bytes that are used: of the root what the store says, of all else its length.
fn used_bytes(resource: Resource<'_>, used: u64) -> u64
    ensures { result ≡ spec.used_bytes resource.entry.path.now resource.entry.meta.now used }
{
    if is_root(resource.path) {
        used
    } else {
        resource.meta.len
    }
}

// A number in 14 digits at least.
fn fourteen_digits(alloc: Global, number: u64) -> Result<String, NoMemory>
    ensures { IfOk result (λ t. string_bytes t ≡ spec.padded 14 (decimal number)) }
{
    let text = format!(in alloc; "{number:014}")?;
    Ok(text)
}

// A number for the program of a Mac, which reads 14 digits.
fn used_text(alloc: Global, agent: &str, used: u64) -> Result<String, NoMemory>
    ensures { IfOk result (λ t. string_bytes t ≡ spec.used_text agent.now used) }
{
    if holds(agent.as_bytes(), b"WebDAVFS") {
        fourteen_digits(alloc, used)
    } else {
        format!(in alloc; "{used}")
    }
}

/// The bytes that are used (RFC 4331, section 4), by what the store told of its quota.
pub fn used_told(
    alloc: Global,
    writer: &Writer,
    property: &Element,
    resource: Resource<'_>,
    quota: Quota,
) -> Result<Option<Element>, NoMemory>
    ensures { IfOk result (λ e. e ≡ spec.used_told writer.now property.now
        resource.entry.path.now resource.entry.meta.now quota) }
{
    let Some((used, _)) = quota else {
        return Ok(None);
    };
    let text = used_text(alloc, &writer.agent, used_bytes(resource, used))?;
    Ok(Some(live(alloc, "D", writer, property, &text)?))
}

/// The bytes that are available, at least 0 (RFC 4331, section 3), by what the store told of its quota.
pub fn available_told(
    alloc: Global,
    writer: &Writer,
    property: &Element,
    resource: Resource<'_>,
    quota: Quota,
) -> Result<Option<Element>, NoMemory>
    ensures { IfOk result (λ e. e ≡ spec.available_told writer.now property.now
        resource.entry.path.now resource.entry.meta.now quota) }
{
    let Some((used, Some(total))) = quota else {
        return Ok(None);
    };
    let available = total.saturating_sub(used_bytes(resource, used));
    let text = format!(in alloc; "{available}")?;
    Ok(Some(live(alloc, "D", writer, property, &text)?))
}
