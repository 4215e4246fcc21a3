//! Documents that are written child by child.
use super::{DECLARATION, marked, parts};
use dav_xml::{push_child, push_closing, push_opening, read};
use std::alloc::Global;
use std::process::Abort;
use std::test::Fail;

// Documents, and what is written of them: the start tag of the root, each child after a bar, and the end tag after one more.
const ROWS: &str = "\
# tags (XML 1.0, 3.1)
<a><b/></a> -> <a>|<b/>|</a>
<a><b>x</b><c><d/></c></a> -> <a>|<b>x</b>|<c><d/></c>|</a>
<a/> -> <a>|</a>
# a multistatus (RFC 4918, 9.1.3)
<D:multistatus xmlns:D='DAV:'><D:response><D:href>/a</D:href></D:response><D:response/></D:multistatus> -> <D:multistatus xmlns:D=\"DAV:\">|<D:response><D:href>/a</D:href></D:response>|<D:response/>|</D:multistatus>
# what the root declares is known in each child (Namespaces in XML 1.0, 6.1)
<p:a xmlns:p='u'><p:b/><p:c p:d='1'/></p:a> -> <p:a xmlns:p=\"u\">|<p:b/>|<p:c p:d=\"1\"/>|</p:a>
<p:a xmlns:p='u' p:d='1'><p:b/></p:a> -> <p:a p:d=\"1\" xmlns:p=\"u\">|<p:b/>|</p:a>
<a xmlns='u'><b/><c xmlns=''/><d xmlns='v'><e/></d></a> -> <a xmlns=\"u\">|<b/>|<c xmlns=\"\"/>|<d xmlns=\"v\"><e/></d>|</a>
# a child declares what the root doesn't, for itself alone (6.1)
<a><p:b xmlns:p='u'><p:c/></p:b><p:d xmlns:p='u'/></a> -> <a>|<p:b xmlns:p=\"u\"><p:c/></p:b>|<p:d xmlns:p=\"u\"/>|</a>
<p:a xmlns:p='u'><p:b xmlns:p='v'><p:c/></p:b><p:d/></p:a> -> <p:a xmlns:p=\"u\">|<p:b xmlns:p=\"v\"><p:c/></p:b>|<p:d/>|</p:a>
# references at the ends of texts and values, and one after another (XML 1.0, 2.4)
<a><b>&amp;</b><b>&amp;x</b><b>x&amp;</b><b>x&lt;&gt;y</b><b>&lt;x&gt;</b></a> -> <a>|<b>&amp;</b>|<b>&amp;x</b>|<b>x&amp;</b>|<b>x&lt;&gt;y</b>|<b>&lt;x&gt;</b>|</a>
<a><b c='&#9;'/><b c='&#10;x'/><b c='x&#13;'/><b c='x&quot;&#10;y'/><b>x&#13;</b></a> -> <a>|<b c=\"&#9;\"/>|<b c=\"&#10;x\"/>|<b c=\"x&#13;\"/>|<b c=\"x&quot;&#10;y\"/>|<b>x&#13;</b>|</a>
<a><b>ü&amp;€</b><b>⇥↵</b></a> -> <a>|<b>ü&amp;€</b>|<b>⇥↵</b>|</a>
";

// The document of what is read of a body, child by child, without its declaration and the line end behind it.
fn written(alloc: Global, body: &str) -> Result<String, Fail> {
    let root = read(alloc, body.as_bytes())?;
    let mut out = Vec::new(alloc);
    push_opening(alloc, &mut out, &root)?;
    for child in root.child_elems() {
        out.push(b'|')?;
        push_child(alloc, &mut out, &root, child)?;
    }
    out.push(b'|')?;
    push_closing(&mut out, &root)?;
    let text = str::from_utf8(&out)?;
    let after = text
        .strip_prefix(DECLARATION)
        .ok_or("a document without its declaration")?;
    Ok(String::from_str(alloc, after)?)
}

fn see(rt: &impl Abort, alloc: Global, rows: &str) -> Result<(), Fail> {
    for row in rows.lines() {
        if let Some((body, wanted)) = parts(row) {
            let found = written(alloc, &marked(alloc, body)?)?;
            let wanted = marked(alloc, wanted)?;
            assert!(rt; found == wanted, "{row}\ngives: {found}");
        }
    }
    Ok(())
}

#[test]
fn documents_are_written_by_child(rt: HostRuntime) -> Result<(), Fail> {
    see(&rt, rt.alloc(), ROWS)
}
