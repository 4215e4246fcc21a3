//! Times that clients set, in the bodies of requests and in a multistatus.
use super::{holding, named, saying};
use dav_core::element::Element;
use dav_presented::times::{find_as, patch_as};
use dav_presented::typed::{outcomes, with_types};
use std::alloc::{AllocError, Global};
use std::process::Abort;
use std::test::Fail;

// A property that is set at `Sun, 06 Nov 1994 08:49:40 GMT`, its text, and what it is set as: the name and the
// text; the dates are the three of RFC 9110, section 5.6.7, which are one moment.
const SET: &str = "\
{DAV:}D:getlastmodified Sun, 06 Nov 1994 08:49:37 GMT -> {vuldarg:times}getlastmodified:modified Sun, 06 Nov 1994 08:49:37 GMTSun, 06 Nov 1994 08:49:40 GMT
{DAV:}x:getlastmodified Sunday, 06-Nov-94 08:49:37 GMT -> {vuldarg:times}getlastmodified:modified Sun, 06 Nov 1994 08:49:37 GMTSun, 06 Nov 1994 08:49:40 GMT
{DAV:}getlastmodified Sun Nov  6 08:49:37 1994 -> {vuldarg:times}getlastmodified:modified Sun, 06 Nov 1994 08:49:37 GMTSun, 06 Nov 1994 08:49:40 GMT
{urn:schemas-microsoft-com:}Z:Win32LastModifiedTime Sun, 06 Nov 1994 08:49:37 GMT -> {vuldarg:times}Win32LastModifiedTime:modified Sun, 06 Nov 1994 08:49:37 GMTSun, 06 Nov 1994 08:49:40 GMT
# what is no date, and what is no time of a last change
{DAV:}D:getlastmodified yesterday -> {DAV:}D:getlastmodified yesterday
{DAV:}D:getlastmodified Sun, 06 Nov 1994 08:49:37 CET -> {DAV:}D:getlastmodified Sun, 06 Nov 1994 08:49:37 CET
{urn:schemas-microsoft-com:}Z:Win32CreationTime Sun, 06 Nov 1994 08:49:37 GMT -> {urn:schemas-microsoft-com:}Z:Win32CreationTime Sun, 06 Nov 1994 08:49:37 GMT
{urn:x}x:getlastmodified Sun, 06 Nov 1994 08:49:37 GMT -> {urn:x}x:getlastmodified Sun, 06 Nov 1994 08:49:37 GMT
";

// A time that is kept with the moment at which it was set, a property with the time of the last change, and
// what is told of that.
const TOLD: &str = "\
Sun, 06 Nov 1994 08:49:37 GMT Sun, 06 Nov 1994 08:49:40 GMT D:getlastmodified Sun, 06 Nov 1994 08:49:40 GMT -> Sun, 06 Nov 1994 08:49:37 GMT
Sun, 06 Nov 1994 08:49:37 GMT Sun, 06 Nov 1994 08:49:40 GMT D:getlastmodified Sun, 06 Nov 1994 08:49:39 GMT -> Sun, 06 Nov 1994 08:49:37 GMT
Sun, 06 Nov 1994 08:49:37 GMT Sun, 06 Nov 1994 08:49:40 GMT Z:Win32LastModifiedTime Sun, 06 Nov 1994 08:49:39 GMT -> Sun, 06 Nov 1994 08:49:37 GMT
# it was changed afterwards
Sun, 06 Nov 1994 08:49:37 GMT Sun, 06 Nov 1994 08:49:40 GMT D:getlastmodified Sun, 06 Nov 1994 08:49:41 GMT -> Sun, 06 Nov 1994 08:49:41 GMT
# no time of a last change, and what is no date
Sun, 06 Nov 1994 08:49:37 GMT Sun, 06 Nov 1994 08:49:40 GMT D:displayname Sun, 06 Nov 1994 08:49:39 GMT -> Sun, 06 Nov 1994 08:49:39 GMT
Sun, 06 Nov 1994 08:49:37 CET Sun, 06 Nov 1994 08:49:40 GMT D:getlastmodified Sun, 06 Nov 1994 08:49:39 GMT -> Sun, 06 Nov 1994 08:49:39 GMT
";

/// `Sun, 06 Nov 1994 08:49:40 GMT`, in seconds since 1970.
const MOMENT: u64 = 784_111_780;

/// The bytes of such a date.
const DATE: usize = 29;

// An element of that name in a namespace with a text, as `{NAMESPACE}PREFIX:NAME TEXT`.
fn told(alloc: Global, words: &str) -> Result<Element, AllocError> {
    let (name, text) = words.split_once(" ").unwrap_or((words, ""));
    let mut element = named(alloc, name)?;
    element.text(text)?;
    Ok(element)
}

fn update(alloc: Global, part: &str, property: Element) -> Result<Element, AllocError> {
    let prop = holding(alloc, "D:prop", property)?;
    holding(alloc, "D:propertyupdate", holding(alloc, part, prop)?)
}

#[test]
fn keeps_times(rt: HostRuntime) -> Result<(), Fail> {
    let alloc = rt.alloc();
    for row in SET.lines() {
        let Some((input, wanted)) = row.split_once(" -> ") else {
            continue;
        };
        let asked = update(alloc, "D:set", told(alloc, input)?)?;
        let expected = update(alloc, "D:set", told(alloc, wanted)?)?;
        assert!(&rt; patch_as(alloc, MOMENT, asked)? == expected, "{row}");
        // what is removed stays
        let removed = update(alloc, "D:remove", told(alloc, input)?)?;
        let same = update(alloc, "D:remove", told(alloc, input)?)?;
        assert!(&rt; patch_as(alloc, MOMENT, removed)? == same, "removed: {row}");
    }
    Ok(())
}

#[test]
fn refuses_own_properties(rt: HostRuntime) -> Result<(), Fail> {
    let alloc = rt.alloc();
    for part in ["D:set", "set"] {
        let asked = update(alloc, part, told(alloc, "{vuldarg:times}T:modified x")?)?;
        let expected = update(alloc, part, named(alloc, "{DAV:}D:modified")?)?;
        assert!(&rt; patch_as(alloc, MOMENT, asked)? == expected, "{part}");
    }
    Ok(())
}

#[test]
fn asks_for_kept_times(rt: HostRuntime) -> Result<(), Fail> {
    let alloc = rt.alloc();
    for name in [
        "{DAV:}D:getlastmodified",
        "{urn:schemas-microsoft-com:}Z:Win32LastModifiedTime",
    ] {
        let asked = holding(alloc, "D:prop", named(alloc, name)?)?;
        let mut expected = holding(alloc, "D:prop", named(alloc, name)?)?;
        expected.push_element(named(alloc, "{vuldarg:times}T:modified")?)?;
        let sent = find_as(alloc, holding(alloc, "D:propfind", asked)?)?;
        assert!(&rt; sent == holding(alloc, "D:propfind", expected)?, "{name}");
    }
    for name in ["{DAV:}D:getetag", "{urn:x}x:getlastmodified"] {
        let asked = holding(alloc, "D:prop", named(alloc, name)?)?;
        let expected = holding(alloc, "D:prop", named(alloc, name)?)?;
        let sent = find_as(alloc, holding(alloc, "D:propfind", asked)?)?;
        assert!(&rt; sent == holding(alloc, "D:propfind", expected)?, "{name}");
    }
    Ok(())
}

// A multistatus of a folder, whose types aren't told, with these properties.
fn listing(alloc: Global, own: Option<Element>, property: Element) -> Result<Element, AllocError> {
    let mut prop = Element::new2(alloc, "D:prop")?;
    if let Some(own) = own {
        prop.push_element(own)?;
    }
    prop.push_element(property)?;
    let mut response = holding(alloc, "D:response", saying(alloc, "D:href", "/a")?)?;
    response.push_element(holding(alloc, "D:propstat", prop)?)?;
    holding(alloc, "D:multistatus", response)
}

#[test]
fn tells_kept_times(rt: HostRuntime) -> Result<(), Fail> {
    let alloc = rt.alloc();
    for row in TOLD.lines() {
        let Some((input, wanted)) = row.split_once(" -> ") else {
            continue;
        };
        let time = input.get(..DATE).unwrap_or("");
        let rest = input.get(DATE + 1..).unwrap_or("");
        let moment = rest.get(..DATE).unwrap_or("");
        let property = rest.get(DATE + 1..).unwrap_or("");
        let (name, _) = property.split_once(" ").unwrap_or((property, ""));
        let mut own = named(alloc, "{vuldarg:times}getlastmodified:modified")?;
        own.text(time)?;
        own.text(moment)?;
        let sent = with_types(alloc, listing(alloc, Some(own), told(alloc, property)?)?)?;
        let expected = listing(alloc, None, saying(alloc, name, wanted)?)?;
        assert!(&rt; sent == expected, "{row}");
    }
    Ok(())
}

#[test]
fn tells_what_was_set(rt: HostRuntime) -> Result<(), Fail> {
    let alloc = rt.alloc();
    for (own, wanted) in [
        (
            "{vuldarg:times}getlastmodified:modified",
            "D:getlastmodified",
        ),
        (
            "{vuldarg:times}Win32LastModifiedTime:modified",
            "Z:Win32LastModifiedTime",
        ),
        ("{vuldarg:times}T:modified", "{vuldarg:times}T:modified"),
        (
            "{urn:x}getlastmodified:modified",
            "{urn:x}getlastmodified:modified",
        ),
        ("D:displayname", "D:displayname"),
    ] {
        let sent = outcomes(alloc, listing(alloc, None, named(alloc, own)?)?)?;
        assert!(&rt;
            sent == listing(alloc, None, named(alloc, wanted)?)?,
            "{own}"
        );
    }
    Ok(())
}
