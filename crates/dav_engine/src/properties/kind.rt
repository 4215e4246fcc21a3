//! What properties are told for (RFC 4918, sections 9.1 and 9.2), and which.
ghost use Rattle.std.specs.Prelude.{◌≡◌, ◌++◌, map, not, IfOk, OnOk};
ghost use Rattle.std.specs.List.{filter, list_any};
ghost use Rattle.dav_engine.specs.Properties.{asked_property, holds, is_same_property};
ghost use Rattle.dav_engine.specs.Properties as spec;

use crate::reply::tree::bare;
use dav_core::element::Element;
use dav_core::errors::NoMemory;
use std::alloc::Global;

/// What properties are told for.
#[derive(Clone, Copy, Debug)]
pub enum Telling {
    /// Those that are requested.
    Requested,
    /// All of them.
    AllProperties,
    /// The names alone.
    NamesAlone,
    /// What became of changes.
    Outcomes,
    /// Something else: the properties whose names are told follow the given ones, with their values.
    Others,
}

impl Telling {
    /// By the name of the element that asks for them (RFC 4918, section 14).
    pub fn by_name(name: &str) -> Telling
        ensures { result ≡ spec.telling_of name.now }
    {
        match name {
            "prop" => Telling::Requested,
            "allprop" => Telling::AllProperties,
            "propname" => Telling::NamesAlone,
            "propertyupdate" => Telling::Outcomes,
            _ => Telling::Others,
        }
    }

    /// Whether names are told with values.
    pub fn has_values(self) -> bool
        ensures { result ≡ spec.has_values self }
    {
        !matches!(self, Telling::NamesAlone)
    }
}

// Whether a text holds another.
pub(crate) fn holds(text: &[u8], needle: &[u8]) -> bool
    ensures { result ≡ holds text.now needle.now }
{
    let mut rest = text;
    while !rest.starts_with(needle) {
        let Some((_, more)) = rest.split_first() else {
            return false;
        };
        rest = more;
    }
    true
}

// A property as it is asked for.
fn asked_property(alloc: Global, prefix: &str, space: &str, name: &str) -> Result<Element, NoMemory>
    ensures { IfOk result (λ e. e ≡ asked_property prefix.now space.now name.now) }
{
    bare(alloc, name, Some(prefix), Some(space))
}

// Adds properties of one namespace.
fn add_asked(
    alloc: Global,
    list: &mut Vec<Element>,
    prefix: &str,
    space: &str,
    names: &[&str],
) -> Result<(), NoMemory>
    ensures { OnOk result (list.new.items ≡ list.old.items
        ++ map (λ name. asked_property prefix.now space.now name.now) names.now) }
{
    for name in names {
        list.push(asked_property(alloc, prefix, space, name)?)?;
    }
    Ok(())
}

// Adds the properties of every resource (RFC 4918, section 15).
fn add_common(alloc: Global, list: &mut Vec<Element>) -> Result<(), NoMemory>
    ensures { OnOk result (list.new.items ≡ list.old.items ++ spec.common_properties) }
{
    let names = [
        "creationdate",
        "displayname",
        "getcontentlanguage",
        "getcontentlength",
        "getcontenttype",
        "getetag",
        "getlastmodified",
        "lockdiscovery",
        "resourcetype",
        "supportedlock",
    ];
    add_asked(alloc, list, "D", "DAV:", &names)
}

// Adds the properties that are told to Windows beside all others.
fn add_windows(alloc: Global, list: &mut Vec<Element>, agent: &[u8]) -> Result<(), NoMemory>
    ensures { OnOk result (list.new.items
        ≡ list.old.items ++ spec.windows_properties agent.now) }
{
    if !holds(agent, b"Microsoft") {
        return Ok(());
    }
    let names = [
        "Win32CreationTime",
        "Win32FileAttributes",
        "Win32LastAccessTime",
        "Win32LastModifiedTime",
    ];
    add_asked(alloc, list, "Z", "urn:schemas-microsoft-com:", &names)?;
    Ok(())
}

// Adds the properties whose names are told.
fn add_named(alloc: Global, list: &mut Vec<Element>) -> Result<(), NoMemory>
    ensures { OnOk result (list.new.items ≡ list.old.items ++ spec.named_properties) }
{
    add_common(alloc, list)?;
    let quotas = ["quota-available-bytes", "quota-used-bytes"];
    add_asked(alloc, list, "D", "DAV:", &quotas)?;
    let apache = ["executable"];
    add_asked(alloc, list, "A", "http://apache.org/dav/props/", &apache)?;
    let windows = ["Win32LastAccessTime"];
    add_asked(alloc, list, "Z", "urn:schemas-microsoft-com:", &windows)?;
    Ok(())
}

// The properties that follow those that are given, unless they are among them.
fn listed_properties(
    alloc: Global,
    telling: Telling,
    agent: &[u8],
) -> Result<Vec<Element>, NoMemory>
    ensures { IfOk result (λ list. list.items ≡ spec.listed_properties telling agent.now) }
{
    let mut list = Vec::new(alloc);
    match telling {
        Telling::Requested | Telling::Outcomes => {}
        Telling::AllProperties => {
            add_common(alloc, &mut list)?;
            add_windows(alloc, &mut list, agent)?;
        }
        Telling::NamesAlone | Telling::Others => add_named(alloc, &mut list)?,
    }
    Ok(list)
}

// Whether two properties have the same namespace and name.
fn is_same_property(one: &Element, other: &Element) -> bool
    ensures { result ≡ is_same_property one.now other.now }
{
    one.namespace == other.namespace && one.name == other.name
}

// Whether a property is among others.
fn is_among(property: &Element, others: &[Element]) -> bool
    ensures { result ≡ list_any (λ f. is_same_property f property.now) others.now }
{
    others.iter().any(|other| is_same_property(other, property))
}

// The properties of a list that aren't among others.
fn others(alloc: Global, listed: Vec<Element>, given: &[Element]) -> Result<Vec<Element>, NoMemory>
    ensures { IfOk result (λ more. more.items
        ≡ filter (λ e. not (list_any (λ f. is_same_property f e) given.now)) listed.items) }
{
    let mut more = Vec::new(alloc);
    for property in listed {
        if is_among(&property, given) {
            continue;
        }
        more.push(property)?;
    }
    Ok(more)
}

// Properties, and then more of them.
pub(crate) fn joined(properties: Vec<Element>, more: Vec<Element>) -> Result<Vec<Element>, NoMemory>
    ensures { IfOk result (λ all. all.items ≡ properties.items ++ more.items) }
{
    let mut all = properties;
    for property in more {
        all.push(property)?;
    }
    Ok(all)
}

/// All properties that are to be told, in order: those that are given, and then those of the list that aren't among them.
pub fn wanted_properties(
    alloc: Global,
    telling: Telling,
    agent: &[u8],
    given: Vec<Element>,
) -> Result<Vec<Element>, NoMemory>
    ensures { IfOk result (λ all. all.items
        ≡ spec.wanted_properties telling agent.now given.items) }
{
    let listed = listed_properties(alloc, telling, agent)?;
    let more = others(alloc, listed, &given)?;
    let all = joined(given, more)?;
    Ok(all)
}

// Whether an element is of this namespace.
pub(crate) fn is_in(space: &str, element: &Element) -> bool
    ensures { result ≡ spec.is_in space.now element.now }
{
    match &element.namespace {
        Some(namespace) => namespace.as_str() == space,
        None => false,
    }
}
