//! The properties that tell of locks, over a list of locks in memory.
use crate::asserting::same;
use dav_core::davpath::DavPath;
use dav_core::element::Element;
use dav_core::errors::NoMemory;
use dav_core::ls::DavLockSystem;
use dav_engine::properties::locks::{list_lockdiscovery, list_supportedlock};
use dav_store::memls::MemLs;
use std::alloc::Global;
use std::process::Abort;
use std::test::Fail;

// What an element prints that has the prefix `D` alone.
const ALONE: &str = ", prefix: Some(\"D\"), namespace: None, attributes: []";

// The path of a request, and the locks that are discovered there, where /d has a deep lock and /d/a one that isn't, both shared.
const DISCOVERED: &str = r##"
/e -> Element { name: "lockdiscovery", children: [] }
/d/b -> Element { name: "lockdiscovery", children: [Element(Element { name: "activelock", children: [Element(Element { name: "lockscope", children: [Element(Element { name: "shared", children: [] })] }), Element(Element { name: "locktype", children: [Element(Element { name: "write", children: [] })] }), Element(Element { name: "depth", children: [Text("Infinity")] }), Element(Element { name: "timeout", children: [Text("Second-600")] }), Element(Element { name: "locktoken", children: [Element(Element { name: "href", children: [Text("urn:t:1")] })] }), Element(Element { name: "lockroot", children: [Element(Element { name: "href", children: [Text("/d/")] })] }), Element(Element { name: "owner", children: [Text("anna")] })] })] }
/d/a -> Element { name: "lockdiscovery", children: [Element(Element { name: "activelock", children: [Element(Element { name: "lockscope", children: [Element(Element { name: "shared", children: [] })] }), Element(Element { name: "locktype", children: [Element(Element { name: "write", children: [] })] }), Element(Element { name: "depth", children: [Text("Infinity")] }), Element(Element { name: "timeout", children: [Text("Second-600")] }), Element(Element { name: "locktoken", children: [Element(Element { name: "href", children: [Text("urn:t:1")] })] }), Element(Element { name: "lockroot", children: [Element(Element { name: "href", children: [Text("/d/")] })] }), Element(Element { name: "owner", children: [Text("anna")] })] }), Element(Element { name: "activelock", children: [Element(Element { name: "lockscope", children: [Element(Element { name: "shared", children: [] })] }), Element(Element { name: "locktype", children: [Element(Element { name: "write", children: [] })] }), Element(Element { name: "depth", children: [Text("0")] }), Element(Element { name: "timeout", children: [Text("Infinite")] }), Element(Element { name: "locktoken", children: [Element(Element { name: "href", children: [Text("urn:t:2")] })] }), Element(Element { name: "lockroot", children: [Element(Element { name: "href", children: [Text("/d/a")] })] })] })] }
"##;

// The kinds of locks of a lock system.
const SUPPORTED: &str =
    r##"Element { name: "supportedlock", children: [Element(Element { name: "lockentry", children: [Element(Element { name: "lockscope", children: [Element(Element { name: "exclusive", children: [] })] }), Element(Element { name: "locktype", children: [Element(Element { name: "write", children: [] })] })] }), Element(Element { name: "lockentry", children: [Element(Element { name: "lockscope", children: [Element(Element { name: "shared", children: [] })] }), Element(Element { name: "locktype", children: [Element(Element { name: "write", children: [] })] })] })] }"##;

// A tree without the prefixes `D` that stand alone.
fn shown(alloc: Global, tree: &Element) -> Result<String, NoMemory> {
    let printed = format!(in alloc; "{tree:?}")?;
    let mut text = String::new(alloc);
    for piece in printed.split(ALONE) {
        text.push_str(piece)?;
    }
    Ok(text)
}

// Whether anna's lock on the folder is granted.
fn lock_folder<L: DavLockSystem>(alloc: Global, ls: &mut L) -> Result<bool, Fail> {
    let mut owner = Element::new2(alloc, "D:owner")?;
    owner.text("anna")?;
    let path = DavPath::new(alloc, "/d/")?;
    let (who, owner, timeout) = (Some("anna"), Some(&owner), Some(600));
    let lock = ls.lock(alloc, &path, who, owner, timeout, true, true, "urn:t:1", 1);
    Ok(lock.is_ok())
}

// Whether nobody's lock on the file is granted.
fn lock_file<L: DavLockSystem>(alloc: Global, ls: &mut L) -> Result<bool, Fail> {
    let path = DavPath::new(alloc, "/d/a")?;
    let lock = ls.lock(alloc, &path, None, None, None, true, false, "urn:t:2", 2);
    Ok(lock.is_ok())
}

// The locks.
fn locks(alloc: Global) -> Result<MemLs, Fail> {
    let mut ls = MemLs::new(alloc)?;
    if lock_folder(alloc, &mut ls)? && lock_file(alloc, &mut ls)? {
        Ok(ls)
    } else {
        Err("a lock isn't granted")?
    }
}

#[test]
fn discovers_the_locks_of_a_path(rt: HostRuntime) -> Result<(), Fail> {
    let alloc = rt.alloc();
    let ls = locks(alloc)?;
    for row in DISCOVERED.lines().filter(|row| !row.is_empty()) {
        let (path, wanted) = row.split_once(" -> ").ok_or("a line is no row")?;
        let path = DavPath::new(alloc, path)?;
        let tree = list_lockdiscovery(alloc, Some(&ls), &path)?;
        same(&rt, &shown(alloc, &tree)?.as_str(), &wanted);
    }
    Ok(())
}

#[test]
fn supports_exclusive_and_shared_locks(rt: HostRuntime) -> Result<(), Fail> {
    let alloc = rt.alloc();
    let tree = list_supportedlock(alloc, Some(&locks(alloc)?))?;
    same(&rt, &shown(alloc, &tree)?.as_str(), &SUPPORTED);
    Ok(())
}

#[test]
fn tells_of_no_locks_without_a_lock_system(rt: HostRuntime) -> Result<(), Fail> {
    let alloc = rt.alloc();
    let none: Option<&MemLs> = None;
    let path = DavPath::new(alloc, "/d")?;
    let found = shown(alloc, &list_lockdiscovery(alloc, none, &path)?)?;
    let supported = shown(alloc, &list_supportedlock(alloc, none)?)?;
    same(
        &rt,
        &found.as_str(),
        &"Element { name: \"lockdiscovery\", children: [] }",
    );
    same(
        &rt,
        &supported.as_str(),
        &"Element { name: \"supportedlock\", children: [] }",
    );
    Ok(())
}
