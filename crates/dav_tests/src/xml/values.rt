//! White space in texts and in the values of attributes.
use super::{see_read, see_written};
use std::test::Fail;

// Sections 2.11 and 3.3.3: line ends are line feeds, and white space in a value is of blanks, unless it is of references.
const READ: &str = "\
# line ends in a text
<a>x␍↵y</a> -> (a[x↵y])
<a>x␍y</a> -> (a[x↵y])
<a>x␍␍↵↵y</a> -> (a[x↵↵↵y])
<a>x⇥y</a> -> (a[x⇥y])
<a><![CDATA[x␍↵y␍z]]></a> -> (a[x↵y↵z])
# references in a text
<a>x&#13;y</a> -> (a[x␍y])
<a>x&#xD;↵y</a> -> (a[x␍↵y])
<a>x&#13;&#10;y</a> -> (a[x␍↵y])
<a>x&#9;&#10;y</a> -> (a[x⇥↵y])
# white space in a value
<a b='x⇥y'/> -> (a b=x y)
<a b='x↵y'/> -> (a b=x y)
<a b='x␍y'/> -> (a b=x y)
<a b='x␍↵y'/> -> (a b=x y)
<a b='x↵␍y'/> -> (a b=x  y)
<a b='⇥ ↵'/> -> (a b=   )
<a b='x⇥&#9;y'/> -> (a b=x ⇥y)
# references in a value
<a b='x&#9;y'/> -> (a b=x⇥y)
<a b='x&#10;y'/> -> (a b=x↵y)
<a b='x&#13;y'/> -> (a b=x␍y)
<a b='x&#xD;&#xA;y'/> -> (a b=x␍↵y)
<a b='x&#x20;y'/> -> (a b=x y)
";

// What a reader takes for what was read: `&#9;`, `&#10;` and `&#13;` in a value, `&#13;` in a text.
const AGAIN: &str = "\
# values
<a b='x&#9;y'/> -> <a b=\"x&#9;y\"/>
<a b='x&#10;y'/> -> <a b=\"x&#10;y\"/>
<a b='x&#13;y'/> -> <a b=\"x&#13;y\"/>
<a b='&#x9;&#xA;&#xD;'/> -> <a b=\"&#9;&#10;&#13;\"/>
<a b='&#13;&#10;'/> -> <a b=\"&#13;&#10;\"/>
<a b='x⇥y'/> -> <a b=\"x y\"/>
<a b='x␍↵y'/> -> <a b=\"x y\"/>
<a b='&amp;&lt;&gt;&quot;&apos;'/> -> <a b=\"&amp;&lt;&gt;&quot;'\"/>
# texts
<a>x&#13;y</a> -> <a>x&#13;y</a>
<a>x␍↵y</a> -> <a>x↵y</a>
<a>x&#9;&#10;y</a> -> <a>x⇥↵y</a>
<a>&lt;&amp;&gt;</a> -> <a>&lt;&amp;&gt;</a>
# a namespace's name
<p:a xmlns:p='x&#9;&#10;&#13;y'/> -> <p:a xmlns:p=\"x&#9;&#10;&#13;y\"/>
<a xmlns='x&#10;y'><b c='&#9;'/></a> -> <a xmlns=\"x&#10;y\"><b c=\"&#9;\"/></a>
";

#[test]
fn white_space_is_read(rt: HostRuntime) -> Result<(), Fail> {
    see_read(&rt, rt.alloc(), READ)
}

#[test]
fn white_space_is_written(rt: HostRuntime) -> Result<(), Fail> {
    see_written(&rt, rt.alloc(), AGAIN)
}
