//! Elements under another prefix.
use super::{MOST, parts, show};
use dav_core::element::Element;
use dav_xml::{read, with_prefix, write};
use std::alloc::{AllocError, Global};
use std::process::Abort;
use std::test::Fail;

// Bodies, and what they are under the prefix `D`.
const ROWS: &str = "\
# the namespace (3)
<a xmlns='u'/> -> (D|{u}a)
<p:a xmlns:p='u'/> -> (D|{u}a)
<p:a xmlns:p='DAV:'/> -> (D|{DAV:}a)
<a/> -> (D|{DAV:}a)
<xml:a/> -> (D|{DAV:}a)
<d:a xmlns:d='u'/> -> (D|{u}a)
# an element that has the prefix
<D:a xmlns:D='u'/> -> (D|{u}a)
<D:a xmlns:D='u' D:b='1' c='2'/> -> (D|{u}a D:b=1 c=2)
# children and texts stay
<p:a xmlns:p='u'>t<p:b p:c='1'/><D:d xmlns:D='v'/></p:a> -> (D|{u}a[t](p|{u}b p:c=1)(D|{v}d))
# attributes stay, with the declarations that they need (6.2)
<a b='1'/> -> (D|{DAV:}a b=1)
<a xmlns='u' b='1' c='2'/> -> (D|{u}a b=1 c=2)
<p:a xmlns:p='u' p:b='1'/> -> (D|{u}a p:b=1 xmlns:p=u)
<p:a xmlns:p='u' p:b='1' c='2' p:d='3'/> -> (D|{u}a p:b=1 xmlns:p=u c=2 p:d=3)
<p:a xmlns:p='u' xmlns:q='v' q:b='1'/> -> (D|{u}a q:b=1 xmlns:q=v)
<p:a xmlns:p='u' xmlns:q='u' q:b='1' p:c='2'/> -> (D|{u}a q:b=1 xmlns:q=u p:c=2 xmlns:p=u)
<a xml:lang='en'/> -> (D|{DAV:}a xml:lang=en)
<xml:a xml:lang='en'/> -> (D|{DAV:}a xml:lang=en)
<a D='1'/> -> (D|{DAV:}a D=1)
<a xmlns:Dx='u' Dx:b='1'/> -> (D|{DAV:}a Dx:b=1 xmlns:Dx=u)
# but for those under the prefix
<a xmlns:D='u' D:b='1' c='2'/> -> (D|{DAV:}a c=2)
<p:a xmlns:p='u' xmlns:D='u' D:b='1'/> -> (D|{u}a)
<p:a xmlns:p='u' xmlns:D='v' D:b='1' p:c='2'/> -> (D|{u}a p:c=2 xmlns:p=u)
";

fn shown(alloc: Global, element: &Element) -> Result<String, AllocError> {
    let mut out = String::new(alloc);
    show(&mut out, element, MOST)?;
    Ok(out)
}

// Each is so under the prefix, and what is written of it is read as the same.
fn see(rt: &impl Abort, alloc: Global, rows: &str) -> Result<(), Fail> {
    for row in rows.lines() {
        if let Some((body, wanted)) = parts(row) {
            let element = with_prefix(alloc, read(alloc, body.as_bytes())?, "D")?;
            let found = shown(alloc, &element)?;
            assert!(rt; found.as_str() == wanted, "{row}\ngives: {found}");
            let written = write(alloc, &element)?;
            let found = shown(alloc, &read(alloc, &written)?)?;
            assert!(rt; found.as_str() == wanted, "{row}\nis read again: {found}");
        }
    }
    Ok(())
}

#[test]
fn elements_get_a_prefix(rt: HostRuntime) -> Result<(), Fail> {
    see(&rt, rt.alloc(), ROWS)
}
