//! Namespaces in XML 1.0, by its sections; and what is written again.
use super::{see_read, see_written};
use std::test::Fail;

const ROWS: &str = "\
# declared namespaces (3, 6)
<a xmlns='u'/> -> ({u}a)
<p:a xmlns:p='u'/> -> (p|{u}a)
<a xmlns='u'><b/></a> -> ({u}a({u}b))
<a xmlns='u'><b xmlns=''/></a> -> ({u}a(b))
<a xmlns='u'><b xmlns='v'/><c/></a> -> ({u}a({v}b)({u}c))
<p:a xmlns:p='u'><p:b xmlns:p='v'/><p:c/></p:a> -> (p|{u}a(p|{v}b)(p|{u}c))
<p:a xmlns:p='u'><p:b xmlns:p='v'><p:c/></p:b></p:a> -> (p|{u}a(p|{v}b(p|{v}c)))
<a xmlns:p='u'><b/></a> -> (a(b))
<a xmlns='u' xmlns:p='v'><p:b/><c/></a> -> ({u}a(p|{v}b)({u}c))
<p:a xmlns:p='&#117;'/> -> (p|{u}a)
<p:a xmlns:p=' u '/> -> (p|{ u }a)
<a xmlns=''/> -> (a)
<p:a xmlns:q='v' xmlns:p='u'><q:b/></p:a> -> (p|{u}a(q|{v}b))
<P:a xmlns:P='u'/> -> (P|{u}a)
<xmlp:a xmlns:xmlp='u'/> -> (xmlp|{u}a)
<é:a xmlns:é='ü'/> -> (é|{ü}a)
<p:a xmlns:p='u'></p:a > -> (p|{u}a)
<p:a/> -> !
<a p:b='1'/> -> !
<a xmlns:p=''/> -> !
<p:a xmlns:p=''/> -> !
<a xmlns:p='u'><b xmlns:p=''/></a> -> !
<a xmlns:P='u'><p:b/></a> -> !
<a><p:b xmlns:p='u'/><p:c/></a> -> !
<a xmlns:p='u' xmlns:p='v'/> -> !
<a xmlns='u' xmlns='v'/> -> !
<p:a xmlns:p='u'></q:a> -> !
<p:a xmlns:p='u' xmlns:q='u'></q:a> -> !
<p:a xmlns:p='u'></a> -> !
# reserved prefixes and namespaces (3)
<a xml:lang='en'/> -> (a xml:lang=en)
<xml:a/> -> (xml|{http://www.w3.org/XML/1998/namespace}a)
<a xmlns:xml='http://www.w3.org/XML/1998/namespace'/> -> (a)
<a xmlns:xmlp='u' xmlp:b='1'/> -> (a xmlp:b=1 xmlns:xmlp=u)
<a xmlns:xml='u'/> -> !
<a xmlns:xml=''/> -> !
<a xmlns:p='http://www.w3.org/XML/1998/namespace'/> -> !
<a xmlns='http://www.w3.org/XML/1998/namespace'/> -> !
<a xmlns:xmlns='u'/> -> !
<a xmlns:xmlns='http://www.w3.org/2000/xmlns/'/> -> !
<a xmlns:p='http://www.w3.org/2000/xmlns/'/> -> !
<a xmlns='http://www.w3.org/2000/xmlns/'/> -> !
<xmlns:a/> -> !
# qualified names (4)
<a:b:c xmlns:a='u'/> -> !
<a:/> -> !
<:a/> -> !
<:/> -> !
<a :b='1'/> -> !
<a b:='1'/> -> !
<p:1 xmlns:p='u'/> -> !
<p:-a xmlns:p='u'/> -> !
<a xmlns:='u'/> -> !
<a xmlns:1='u'/> -> !
<a xmlns:p:q='u'/> -> !
<p::a xmlns:p='u'/> -> !
<a xmlns:p='u' p:1='x'/> -> !
<a xmlns:p='u' p:b:c='x'/> -> !
# names of attributes (6.2, 6.3), each with the declaration that its prefix needs
<a xmlns='u' b='1'/> -> ({u}a b=1)
<p:a xmlns:p='u' p:b='1'/> -> (p|{u}a p:b=1)
<a xmlns:p='u' p:b='1'/> -> (a p:b=1 xmlns:p=u)
<a xmlns:p='u' p:b='1' b='2'/> -> (a p:b=1 xmlns:p=u b=2)
<a xmlns='u' xmlns:p='u' p:b='1' b='2'/> -> ({u}a p:b=1 xmlns:p=u b=2)
<a xmlns:p='u' xmlns:q='u' p:b='1' q:c='2'/> -> (a p:b=1 xmlns:p=u q:c=2 xmlns:q=u)
<a xmlns:p='u' p:b='1' p:c='2'/> -> (a p:b=1 xmlns:p=u p:c=2)
<p:a xmlns:p='u' xmlns:q='v' q:b='1' p:c='2' q:d='3'/> -> (p|{u}a q:b=1 xmlns:q=v p:c=2 q:d=3)
<a xmlns:p='u'><b p:c='1'/></a> -> (a(b p:c=1 xmlns:p=u))
<a xmlns:p='u'><p:b p:c='1' d='2'/></a> -> (a(p|{u}b p:c=1 d=2))
<a xmlns:p='u'><b xmlns:p='v' p:c='1'/></a> -> (a(b p:c=1 xmlns:p=v))
<a xmlns:p='u' xmlns:q='u' p:b='1' q:b='2'/> -> !
<p:a xmlns:p='u' xmlns:q='u' p:b='1' q:b='1'/> -> !
<a xmlns:p='u' p:b='1' p:b='2'/> -> !
<a xmlns:p='u'><b xmlns:q='u' p:c='1' q:c='2'/></a> -> !
<a xml:b='1' xml:b='2'/> -> !
";

// Attributes in order, each behind a blank and in quotation marks; the declaration that an element needs behind them.
const AGAIN: &str = "\
# elements
<a/> -> <a/>
<a></a> -> <a/>
<a> </a > -> <a> </a>
<a b='1' c=\"2\"/> -> <a b=\"1\" c=\"2\"/>
<a>x<!-- -->y<b/>z</a> -> <a>xy<b/>z</a>
<a><![CDATA[<&>]]></a> -> <a>&lt;&amp;&gt;</a>
<a>↵<b/>↵</a> -> <a>↵<b/>↵</a>
<a>é&#233;</a> -> <a>éé</a>
# namespaces
<p:a xmlns:p='u'/> -> <p:a xmlns:p=\"u\"/>
<a xmlns='u'/> -> <a xmlns=\"u\"/>
<a xmlns='u'><b/></a> -> <a xmlns=\"u\"><b/></a>
<a xmlns='u'><b xmlns=''/></a> -> <a xmlns=\"u\"><b xmlns=\"\"/></a>
<p:a xmlns:p='u'><p:b/><q:c xmlns:q='v'/></p:a> -> <p:a xmlns:p=\"u\"><p:b/><q:c xmlns:q=\"v\"/></p:a>
<a xmlns:p='u'><p:b/><p:c/></a> -> <a><p:b xmlns:p=\"u\"/><p:c xmlns:p=\"u\"/></a>
<p:a xmlns:p='u'><p:b xmlns:p='v'/><p:c/></p:a> -> <p:a xmlns:p=\"u\"><p:b xmlns:p=\"v\"/><p:c/></p:a>
<a xmlns:p='u' p:b='1'/> -> <a p:b=\"1\" xmlns:p=\"u\"/>
<p:a xmlns:p='u' p:b='1'/> -> <p:a p:b=\"1\" xmlns:p=\"u\"/>
<a xmlns:p='u'><b p:c='1'><p:d/></b></a> -> <a><b p:c=\"1\" xmlns:p=\"u\"><p:d/></b></a>
<a xml:lang='en'/> -> <a xml:lang=\"en\"/>
<p:a xmlns:p='&lt;&amp;'/> -> <p:a xmlns:p=\"&lt;&amp;\"/>
";

#[test]
fn names_are_expanded(rt: HostRuntime) -> Result<(), Fail> {
    see_read(&rt, rt.alloc(), ROWS)
}

#[test]
fn trees_are_written(rt: HostRuntime) -> Result<(), Fail> {
    see_written(&rt, rt.alloc(), AGAIN)
}
