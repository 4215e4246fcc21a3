//! The grammar of XML 1.0, by its sections.
use super::see_read;
use std::test::Fail;

const ROWS: &str = "\
# documents (2.1)
<a/> -> (a)
<a></a> -> (a)
<a> </a> -> (a[ ])
 <a/> -> (a)
↵<a/>␍↵⇥ -> (a)
<a></a > -> (a)
<a></a↵> -> (a)
<a↵/> -> (a)
<a><b/><c><d/></c></a> -> (a(b)(c(d)))
<a><a/></a> -> (a(a))
 -> !
   -> !
x -> !
x<a/> -> !
<a/>x -> !
<a/><b/> -> !
<a/>&#32; -> !
&#32;<a/> -> !
<a/><![CDATA[]]> -> !
<![CDATA[ ]]><a/> -> !
<a -> !
<a> -> !
<a></b> -> !
<a></A> -> !
<a><b></a></b> -> !
</a> -> !
<a></a></a> -> !
<a></ a> -> !
< a/> -> !
<a / > -> !
<a/ > -> !
<> -> !
</> -> !
<a><></a> -> !
<a></a -> !
<a></ -> !
<a><b></a> -> !
<a></a b='1'> -> !
<!-- -->  -> !
<?p?> -> !
<a//> -> !
<a>>/a> -> !
<<a/> -> !
# characters (2.2)
<a>x\u{9}</a> -> (a[x\u{9}])
<a>x\u{7f}</a> -> (a[x\u{7f}])
<a>x\u{85}</a> -> (a[x\u{85}])
<a>x\u{a0}</a> -> (a[x\u{a0}])
<a>x\u{2028}</a> -> (a[x\u{2028}])
<a>x\u{d7ff}</a> -> (a[x\u{d7ff}])
<a>x\u{e000}</a> -> (a[x\u{e000}])
<a>x\u{fffd}</a> -> (a[x\u{fffd}])
<a>x\u{10000}</a> -> (a[x\u{10000}])
<a>x\u{1ffff}</a> -> (a[x\u{1ffff}])
<a>x\u{10ffff}</a> -> (a[x\u{10ffff}])
<a>\u{0}</a> -> !
<a>\u{1}</a> -> !
<a>\u{8}</a> -> !
<a>\u{b}</a> -> !
<a>\u{c}</a> -> !
<a>\u{1f}</a> -> !
<a>\u{fffe}</a> -> !
<a>\u{ffff}</a> -> !
<!--\u{1}--><a/> -> !
<?p \u{1}?><a/> -> !
<a b='\u{1}'/> -> !
<a><![CDATA[\u{ffff}]]></a> -> !
# names (2.3)
<_/> -> (_)
<A/> -> (A)
<z/> -> (z)
<a1/> -> (a1)
<a-b/> -> (a-b)
<a.b/> -> (a.b)
<a_b/> -> (a_b)
<é/> -> (é)
<\u{c0}/> -> (\u{c0})
<\u{f8}/> -> (\u{f8})
<a\u{b7}/> -> (a\u{b7})
<a\u{300}/> -> (a\u{300})
<a\u{36f}/> -> (a\u{36f})
<\u{370}/> -> (\u{370})
<\u{37f}/> -> (\u{37f})
<\u{1fff}/> -> (\u{1fff})
<\u{200c}/> -> (\u{200c})
<a\u{203f}/> -> (a\u{203f})
<\u{2070}/> -> (\u{2070})
<\u{218f}/> -> (\u{218f})
<\u{2c00}/> -> (\u{2c00})
<\u{2fef}/> -> (\u{2fef})
<\u{3001}/> -> (\u{3001})
<\u{d7ff}/> -> (\u{d7ff})
<\u{f900}/> -> (\u{f900})
<\u{fdcf}/> -> (\u{fdcf})
<\u{fdf0}/> -> (\u{fdf0})
<\u{fffd}/> -> (\u{fffd})
<\u{10000}/> -> (\u{10000})
<\u{effff}/> -> (\u{effff})
<1a/> -> !
<-a/> -> !
<.a/> -> !
<\u{b7}a/> -> !
<\u{300}a/> -> !
<\u{d7}/> -> !
<a\u{d7}/> -> !
<\u{f7}/> -> !
<\u{37e}/> -> !
<\u{2000}/> -> !
<\u{200b}/> -> !
<\u{203f}/> -> !
<\u{2190}/> -> !
<\u{2ff0}/> -> !
<\u{3000}/> -> !
<\u{fdd0}/> -> !
<\u{f0000}/> -> !
<a!/> -> !
<a?/> -> !
<a@/> -> !
<a\u{a0}/> -> !
<a 1b='1'/> -> !
<a \u{d7}='1'/> -> !
<a b\u{2190}='1'/> -> !
# comments (2.5)
<a><!-- x --></a> -> (a)
<!----><a/> -> (a)
<!-- - --><a/> -> (a)
<a/><!-- x --> -> (a)
<a><!-- <b> & ]]> --></a> -> (a)
<!-- x --><!-- y --><a/> -> (a)
<!-- > --><a/> -> (a)
<a>x<!-- -->y</a> -> (a[xy])
<a> <!-- --> </a> -> (a[  ])
<a>x <!-- --> </a> -> (a[x  ])
<!-- -- --><a/> -> !
<!-- a---><a/> -> !
<!--><a/> -> !
<!---><a/> -> !
<!- a --><a/> -> !
<! --><a/> -> !
<a><!-- </a> -> !
<a/><!-- -> !
<a b='<!-- -->'/> -> !
# processing instructions (2.6)
<?p?><a/> -> (a)
<?p q?><a/> -> (a)
<?p <>&?><a/> -> (a)
<?p q??><a/> -> (a)
<?xmlp q?><a/> -> (a)
<?xml-stylesheet href='x'?><a/> -> (a)
<a/><?p?> -> (a)
<a><?p q?></a> -> (a)
<a>x<?p ?>y</a> -> (a[xy])
<?p? ><a/> -> !
<?xml?><a/> -> !
<?XML q?><a/> -> !
<?xMl?><a/> -> !
<a/><?xml?> -> !
<?p:q?><a/> -> !
<? p?><a/> -> !
<?1?><a/> -> !
<?p<?><a/> -> !
<?p -> !
<?p q -> !
<?><a/> -> !
<a><?XML version='1.0'?></a> -> !
# CDATA sections (2.7)
<a><![CDATA[<b>&amp;]]></a> -> (a[<b>&amp;])
<a><![CDATA[]]></a> -> (a)
<a><![CDATA[ ]]></a> -> (a[ ])
<a><![CDATA[]]]]></a> -> (a[]]])
<a><![CDATA[]]]]><![CDATA[>]]></a> -> (a[]]>])
<a>x<![CDATA[y]]>z</a> -> (a[xyz])
<a> <![CDATA[x]]></a> -> (a[ x])
<a><![CDATA[x]]</a> -> !
<a><![cdata[x]]></a> -> !
<![CDATA[x]]><a/> -> !
<a><![CDATA [x]]></a> -> !
<a><![CDATA[x]] ></a> -> !
# declarations (2.8)
<?xml version=\"1.0\"?><a/> -> (a)
<?xml version='1.0'?><a/> -> (a)
<?xml version='1.1'?><a/> -> (a)
<?xml version='1.23'?><a/> -> (a)
<?xml version=\"1.0\" encoding=\"UTF-8\"?><a/> -> (a)
<?xml version='1.0' encoding='utf-8'?><a/> -> (a)
<?xml version='1.0' encoding='US-ASCII'?><a/> -> (a)
<?xml version='1.0' standalone='yes'?><a/> -> (a)
<?xml version='1.0' standalone='no'?><a/> -> (a)
<?xml version='1.0' encoding='utf-8' standalone='yes' ?><a/> -> (a)
<?xml  version = '1.0' ?><a/> -> (a)
\u{feff}<?xml version='1.0'?><a/> -> (a)
\u{feff}<a/> -> (a)
<?xml version='1.0'?>↵<!-- --><a/> -> (a)
<?xml version='2.0'?><a/> -> !
<?xml version='1.'?><a/> -> !
<?xml version='1'?><a/> -> !
<?xml version='1.x'?><a/> -> !
<?xml version=''?><a/> -> !
<?xml encoding='utf-8'?><a/> -> !
<?xml standalone='yes'?><a/> -> !
<?xml version='1.0' encoding='iso-8859-1'?><a/> -> !
<?xml version='1.0' encoding='utf-16'?><a/> -> !
<?xml version='1.0' encoding=''?><a/> -> !
<?xml version='1.0' standalone='maybe'?><a/> -> !
<?xml version='1.0' standalone='yes' encoding='utf-8'?><a/> -> !
<?xml version='1.0'encoding='utf-8'?><a/> -> !
<?xml version='1.0' version='1.0'?><a/> -> !
<?xml Version='1.0'?><a/> -> !
<?xml version=1.0?><a/> -> !
<?xml version='1.0' x='y'?><a/> -> !
<?xml version='&#49;.0'?><a/> -> !
<?xml version='1.0' encoding='utf-8' standalone='yes' x='y'?><a/> -> !
 <?xml version='1.0'?><a/> -> !
<a/><?xml version='1.0'?> -> !
<a><?xml version='1.0'?></a> -> !
<?xml version='1.0'><a/> -> !
<?xml version='1.0' ? ><a/> -> !
<?xmlversion='1.0'?><a/> -> !
<?xml version='1.0'?><?xml version='1.0'?><a/> -> !
\u{feff}\u{feff}<a/> -> !
<?xml version='1.0'?> -> !
# document types (2.8)
<!DOCTYPE a><a/> -> !
<!DOCTYPE a [<!ENTITY b 'c'>]><a>&b;</a> -> !
<a><!ELEMENT b EMPTY></a> -> !
<!doctype a><a/> -> !
<?xml version='1.0'?><!DOCTYPE a SYSTEM 'x'><a/> -> !
# texts (2.4)
<a>]]</a> -> (a[]]])
<a>]] ></a> -> (a[]] >])
<a>></a> -> (a[>])
<a>\"'</a> -> (a[\"'])
<a>x<b/>y</a> -> (a[x](b)[y])
<a> x </a> -> (a[ x ])
<a> <b/> </a> -> (a[ ](b)[ ])
<a>↵⇥<b/>x↵</a> -> (a[↵⇥](b)[x↵])
<a>/=</a> -> (a[/=])
<a>]]></a> -> !
<a>x]]>y</a> -> !
<a>&</a> -> !
<a>& </a> -> !
<a>&amp</a> -> !
<a><</a> -> !
# references (4.1, 4.6)
<a>&lt;</a> -> (a[<])
<a>&gt;</a> -> (a[>])
<a>&amp;</a> -> (a[&])
<a>&quot;</a> -> (a[\"])
<a>&apos;</a> -> (a['])
<a>&#65;</a> -> (a[A])
<a>&#x41;</a> -> (a[A])
<a>&#0065;</a> -> (a[A])
<a>&#x0041;</a> -> (a[A])
<a>&#xe9;</a> -> (a[é])
<a>&#xE9;</a> -> (a[é])
<a>&#233;</a> -> (a[é])
<a>&#65536;</a> -> (a[\u{10000}])
<a>&#x10FFFF;</a> -> (a[\u{10ffff}])
<a>&#xFFFD;</a> -> (a[\u{fffd}])
<a>&#127;</a> -> (a[\u{7f}])
<a>&amp;lt;</a> -> (a[&lt;])
<a>&#38;lt;</a> -> (a[&lt;])
<a>&#60;b&#62;</a> -> (a[<b>])
<a>&lt;&gt;</a> -> (a[<>])
<a>x&#65;y&#66;z</a> -> (a[xAyBz])
<a>&#32;</a> -> (a[ ])
<a>&#9;&#10;</a> -> (a[⇥↵])
<a>&LT;</a> -> !
<a>&nbsp;</a> -> !
<a>&;</a> -> !
<a>&#;</a> -> !
<a>&#x;</a> -> !
<a>&#X41;</a> -> !
<a>&x41;</a> -> !
<a>&#41</a> -> !
<a>&#0;</a> -> !
<a>&#1;</a> -> !
<a>&#8;</a> -> !
<a>&#11;</a> -> !
<a>&#31;</a> -> !
<a>&#xD800;</a> -> !
<a>&#xDFFF;</a> -> !
<a>&#xFFFE;</a> -> !
<a>&#xFFFF;</a> -> !
<a>&#x110000;</a> -> !
<a>&#-1;</a> -> !
<a>&#+65;</a> -> !
<a>&# 65;</a> -> !
<a>&#65 ;</a> -> !
<a>&#6 5;</a> -> !
<a>&#xG;</a> -> !
<a>&#1a;</a> -> !
<a>&#99999999999;</a> -> !
<a>&#x100000041;</a> -> !
<a>&am&amp;</a> -> !
<a>&amp ;</a> -> !
<a>& amp;</a> -> !
<a>&am<b/>p;</a> -> !
# attributes (3.1)
<a b='1'/> -> (a b=1)
<a b=\"1\"/> -> (a b=1)
<a b = '1'/> -> (a b=1)
<a b↵=⇥'1'/> -> (a b=1)
<a  b='1' /> -> (a b=1)
<a b='1'></a> -> (a b=1)
<a b='&#49;'/> -> (a b=1)
<a b='1' c='2'/> -> (a b=1 c=2)
<a c='1' b='2'/> -> (a c=1 b=2)
<a b=''/> -> (a b=)
<a b='\"'/> -> (a b=\")
<a b=\"'\"/> -> (a b=')
<a b='&lt;&amp;'/> -> (a b=<&)
<a b='>'/> -> (a b=>)
<a b='1' B='2'/> -> (a b=1 B=2)
<a b=']]>'/> -> (a b=]]>)
<a b='é'/> -> (a b=é)
<a b=' x  y '/> -> (a b= x  y )
<a b='1'c='2'/> -> !
<a b=1/> -> !
<a b/> -> !
<a b=/> -> !
<a b='1/> -> !
<a b='1\"/> -> !
<a b='<'/> -> !
<a b='&'/> -> !
<a b='&b;'/> -> !
<a ='1'/> -> !
<a b='1' b='2'/> -> !
<a b='1' c='3' b='1'/> -> !
<ab='1'/> -> !
<a/b='1'/> -> !
<a b=='1'/> -> !
<a b='1'='2'/> -> !
<a b '1'/> -> !
<a 'b'='1'/> -> !
<a b='1',c='2'/> -> !
";

#[test]
fn grammar_is_read(rt: HostRuntime) -> Result<(), Fail> {
    see_read(&rt, rt.alloc(), ROWS)
}
