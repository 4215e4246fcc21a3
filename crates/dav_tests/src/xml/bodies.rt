//! Bodies as clients send them.
use super::see_read;
use std::test::Fail;

const ROWS: &str = "\
# litmus
<?xml version=\"1.0\" encoding=\"utf-8\"?>↵<propfind xmlns=\"DAV:\"><prop>↵<getcontentlength xmlns=\"DAV:\"/>↵</prop></propfind>↵ -> ({DAV:}propfind({DAV:}prop[↵]({DAV:}getcontentlength)[↵]))
<?xml version=\"1.0\" encoding=\"utf-8\" ?><D:propertyupdate xmlns:D=\"DAV:\"><D:set><D:prop><high-unicode xmlns='http://example.com/neon/litmus/'>&#65536;</high-unicode></D:prop></D:set></D:propertyupdate> -> (D|{DAV:}propertyupdate(D|{DAV:}set(D|{DAV:}prop({http://example.com/neon/litmus/}high-unicode[\u{10000}]))))
<foo> -> !
<D:propfind xmlns:D=\"DAV:\"><D:prop><bar:foo xmlns:bar=\"\"/></D:prop></D:propfind> -> !
# cadaver
<?xml version=\"1.0\" encoding=\"utf-8\"?>␍↵<lockinfo xmlns='DAV:'>␍↵ <lockscope><exclusive/></lockscope>␍↵<locktype><write/></locktype><owner>a &lt;b&gt;</owner>␍↵</lockinfo>␍↵ -> ({DAV:}lockinfo[↵ ]({DAV:}lockscope({DAV:}exclusive))[↵]({DAV:}locktype({DAV:}write))({DAV:}owner[a <b>])[↵])
# Windows
<?xml version=\"1.0\" encoding=\"utf-8\" ?><D:propertyupdate xmlns:D=\"DAV:\" xmlns:Z=\"urn:schemas-microsoft-com:\"><D:set><D:prop><Z:Win32FileAttributes>00000020</Z:Win32FileAttributes></D:prop></D:set></D:propertyupdate> -> (D|{DAV:}propertyupdate(D|{DAV:}set(D|{DAV:}prop(Z|{urn:schemas-microsoft-com:}Win32FileAttributes[00000020]))))
\u{feff}<?xml version=\"1.0\"?><D:lockinfo xmlns:D=\"DAV:\"><D:locktype><D:write /></D:locktype></D:lockinfo> -> (D|{DAV:}lockinfo(D|{DAV:}locktype(D|{DAV:}write)))
# macOS
<?xml version=\"1.0\" encoding=\"utf-8\"?>↵<D:propfind xmlns:D=\"DAV:\">↵<D:prop>↵<D:getlastmodified/>↵<D:resourcetype/>↵</D:prop>↵</D:propfind>↵ -> (D|{DAV:}propfind[↵](D|{DAV:}prop[↵](D|{DAV:}getlastmodified)[↵](D|{DAV:}resourcetype)[↵])[↵])
# white space within a property's value and between the protocol's elements
<D:propertyupdate xmlns:D=\"DAV:\">↵ <D:set>↵<D:prop><x:a xmlns:x='u'> <x:b>↵</x:b>⇥</x:a></D:prop>↵</D:set></D:propertyupdate> -> (D|{DAV:}propertyupdate[↵ ](D|{DAV:}set[↵](D|{DAV:}prop(x|{u}a[ ](x|{u}b[↵])[⇥]))[↵]))
<D:owner xmlns:D=\"DAV:\"> &#32;↵</D:owner> -> (D|{DAV:}owner[  ↵])
# a property with attributes (RFC 4918, 4.3)
<x:author xmlns:x='http://example.com/ns'><x:name>Jane Doe</x:name> <x:uri type='email' added='2005-11-26'>mailto:jane.doe@example.com</x:uri></x:author> -> (x|{http://example.com/ns}author(x|{http://example.com/ns}name[Jane Doe])[ ](x|{http://example.com/ns}uri type=email added=2005-11-26[mailto:jane.doe@example.com]))
";

#[test]
fn bodies_are_read(rt: HostRuntime) -> Result<(), Fail> {
    see_read(&rt, rt.alloc(), ROWS)
}
