//! Names of elements.
use super::{halves, named};
use dav_presented::names::{is_dav, is_same, space_of};
use std::alloc::{AllocError, Global};
use std::process::Abort;
use std::test::Fail;

// Two names, and whether they are one (Namespaces in XML 1.0, section 2.1; RFC 4918, section 4.4).
const SAME: &str = "\
D:a D:a -> true
D:a {DAV:}a -> true
D:a {DAV:}x:a -> true
{urn:x}x:a {urn:x}y:a -> true
{urn:schemas-microsoft-com:}a Z:a -> true
a a -> true
D:a D:b -> false
D:a Z:a -> false
{urn:x}a {urn:y}a -> false
{urn:x}D:a D:a -> false
a {DAV:}a -> false
";

// A name, its namespace, and whether it is `a` of `DAV:` (Namespaces in XML 1.0, section 6).
const SPACES: &str = "\
D:a -> DAV: true
{DAV:}x:a -> DAV: true
D:b -> DAV: false
oc:a -> http://owncloud.org/ns false
{urn:x}D:a -> urn:x false
a ->  false
";

fn are_same(alloc: Global, input: &str) -> Result<bool, AllocError> {
    let (one, other) = input.split_once(" ").unwrap_or((input, ""));
    Ok(is_same(&named(alloc, one)?, &named(alloc, other)?))
}

fn space_text(alloc: Global, input: &str) -> Result<String, AllocError> {
    let element = named(alloc, input)?;
    format!(in alloc; "{} {}", space_of(&element), is_dav(&element, "a"))
}

#[test]
fn compares_names(rt: HostRuntime) -> Result<(), Fail> {
    let alloc = rt.alloc();
    for row in SAME.lines() {
        if let Some((input, wanted)) = halves(row) {
            let found = are_same(alloc, input)?;
            assert!(&rt; found == (wanted == "true"), "{row}");
        }
    }
    Ok(())
}

#[test]
fn finds_namespaces(rt: HostRuntime) -> Result<(), Fail> {
    let alloc = rt.alloc();
    for row in SPACES.lines() {
        if let Some((input, wanted)) = halves(row) {
            let found = space_text(alloc, input)?;
            assert!(&rt; found.as_str() == wanted, "{row}\ngives: {found}");
        }
    }
    Ok(())
}
