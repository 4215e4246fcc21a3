//! Values of headers, as they are read and written again.
use super::*;
use http_header::HeaderValue;
use std::fmt::Debug;
use std::process::Abort;

// A row: the names of headers with `+` between them, their values with a bar before, between and after them (a single
// bar where there are none), ` -> `, and the outcome: what is written again between bars, or `!` where the values are
// refused. The header's fields follow where they differ from the text. An If is never written: its lists are printed
// instead.
const ROWS: &str = r##"
# Depth
depth |0| -> |0| Zero
depth |1| -> |1| One
depth |infinity| -> |Infinity|
depth |Infinity| -> |Infinity|
depth || -> !
depth |2| -> !
depth |00| -> !
depth | 0| -> !
depth |0 | -> !
depth |INFINITY| -> !
depth |infinitY| -> !
depth |0,1| -> !
depth |0|0| -> !
depth | -> !

# Overwrite
overwrite |T| -> |T| Overwrite(true)
overwrite |F| -> |F| Overwrite(false)
overwrite || -> !
overwrite |t| -> !
overwrite |f| -> !
overwrite |TF| -> !
overwrite | T| -> !
overwrite |T | -> !
overwrite |T|T| -> !
overwrite | -> !

# Timeout
timeout |Infinite,Second-4100000000| -> |Infinite, Second-4100000000| Timeout([Infinite, Seconds(4100000000)])
timeout | Second-0\t,\tInfinite | -> |Second-0, Infinite| Timeout([Seconds(0), Infinite])
timeout |Second-4294967295| -> |Second-4294967295| Timeout([Seconds(4294967295)])
timeout |Second-007| -> |Second-7| Timeout([Seconds(7)])
timeout |Infinite,Infinite,Infinite| -> |Infinite, Infinite, Infinite| Timeout([Infinite, Infinite, Infinite])
timeout || -> !
timeout |,| -> !
timeout |Infinite,| -> !
timeout |,Infinite| -> !
timeout |infinite| -> !
timeout |second-5| -> !
timeout |Second-| -> !
timeout |Second-4294967296| -> !
timeout |Second--1| -> !
timeout |Second- 5| -> !
timeout |Second-+5| -> !
timeout |Infinite;Second-5| -> !
timeout |Infinite Second-5| -> !
timeout |5| -> !
timeout |Infinite|Infinite| -> !
timeout | -> !

# Destination
destination |/a| -> |/a|
destination |/| -> |/|
destination |//a| -> |//a|
destination |/a b?c#d| -> |/a b?c#d|
destination |http://h/a/b| -> |/a/b|
destination |https://h/| -> |/|
destination |http://h| -> |/|
destination |http://| -> |/|
destination |HTTPS://u@h:80//x| -> |//x|
destination |hTtP:///x| -> |/x|
destination |http://h?q/a| -> |/a|
destination |http://h?q| -> |/|
destination || -> !
destination |a| -> !
destination |*| -> !
destination | /a| -> !
destination |http:/a| -> !
destination |http:| -> !
destination |http| -> !
destination |ftp://h/a| -> !
destination |httpx://h/a| -> !
destination |xhttp://h/a| -> !
destination |http ://h| -> !
destination |://h/a| -> !
destination |http//h| -> !
destination |/a|/a| -> !
destination |/\xE9| -> !
destination | -> !

# Content-Type, Content-Location, Lock-Token and X-Litmus, which are kept as they are
content-type |text/plain| -> |text/plain|
content-type |text/plain|text/plain| -> !
content-location |/a| -> |/a|
content-location |/a|/a| -> !
lock-token |<urn:t:1>| -> |<urn:t:1>|
lock-token |<urn:t:1>|<urn:t:1>| -> !
x-litmus |a 1| -> |a 1|
x-litmus |a 1|a 1| -> !
content-type+content-location+lock-token+x-litmus || -> ||
content-type+content-location+lock-token+x-litmus | a\tb | -> | a\tb |
content-type+content-location+lock-token+x-litmus |~| -> |~|
content-type+content-location+lock-token+x-litmus |\xE9| -> !
content-type+content-location+lock-token+x-litmus | -> !

# Content-Language
content-language |en , de-AT| -> |en, de-AT| en;de-AT;
content-language |en\t| de-AT| -> |en, de-AT| en;de-AT;
content-language |de|| -> !
content-language |de|,| -> !
content-language |de|en,| -> !
content-language |de|en,,de| -> !
content-language |de|en de| -> !
content-language |de|en_AT| -> !
content-language |de|*| -> !
content-language |de|en;q=1| -> !
content-language |d\xE9| -> !
content-language | -> !

# X-Update-Range
x-update-range |append| -> |append| Append
x-update-range |bytes=-5| -> |bytes=-5| Last(5)
x-update-range |bytes=0-0| -> |bytes=0-0| FromTo(0, 0)
x-update-range |bytes=07-3| -> |bytes=7-3| FromTo(7, 3)
x-update-range |bytes=2-| -> |bytes=2-| AllFrom(2)
x-update-range |bytes=18446744073709551615-18446744073709551615| -> |bytes=18446744073709551615-18446744073709551615| FromTo(18446744073709551615, 18446744073709551615)
x-update-range || -> !
x-update-range |Append| -> !
x-update-range |append | -> !
x-update-range |bytes=| -> !
x-update-range |bytes=-| -> !
x-update-range |bytes=1| -> !
x-update-range |bytes=1--2| -> !
x-update-range |bytes=-1-2| -> !
x-update-range |bytes= 1-2| -> !
x-update-range |bytes=1-2 | -> !
x-update-range |bytes 1-2| -> !
x-update-range |Bytes=1-2| -> !
x-update-range |bytes=+1-2| -> !
x-update-range |bytes=1-+2| -> !
x-update-range |bytes=18446744073709551616-| -> !
x-update-range |bytes=-18446744073709551616| -> !
x-update-range |bytes=0-18446744073709551616| -> !
x-update-range |bytes=0-1,2-3| -> !
x-update-range |append|append| -> !
x-update-range | -> !

# Content-Range
content-range |bytes 0-4/*| -> |bytes 0-4/*| ContentRange { bounds: Some((0, 4)), length: None }
content-range |bytes 00-4/10| -> |bytes 0-4/10| ContentRange { bounds: Some((0, 4)), length: Some(10) }
content-range |bytes */7| -> |bytes */7| ContentRange { bounds: None, length: Some(7) }
content-range |bytes */*| -> |bytes */*| ContentRange { bounds: None, length: None }
content-range |bytes 4-3/1| -> |bytes 4-3/1| ContentRange { bounds: Some((4, 3)), length: Some(1) }
content-range |bytes 0-18446744073709551615/18446744073709551615| -> |bytes 0-18446744073709551615/18446744073709551615| ContentRange { bounds: Some((0, 18446744073709551615)), length: Some(18446744073709551615) }
content-range || -> !
content-range |bytes| -> !
content-range |bytes 0-4| -> !
content-range |bytes 0-4/| -> !
content-range |bytes 0-/4| -> !
content-range |bytes -4/4| -> !
content-range |bytes 0/4| -> !
content-range |bytes=0-4/4| -> !
content-range |bytes  0-4/4| -> !
content-range |Bytes 0-4/4| -> !
content-range |bytes 0-4/4 | -> !
content-range |bytes 0-4/**| -> !
content-range |bytes **/4| -> !
content-range |bytes *-*/4| -> !
content-range |bytes 0-4/4/4| -> !
content-range |items 0-4/4| -> !
content-range |bytes 18446744073709551616-0/*| -> !
content-range |bytes 0-18446744073709551616/*| -> !
content-range |bytes */18446744073709551616| -> !
content-range |bytes +0-4/4| -> !
content-range |bytes */*|bytes */*| -> !
content-range | -> !

# Content-Length
content-length |3| -> |3| ContentLength(3)
content-length |03|3|0003| -> |3| ContentLength(3)
content-length |0| -> |0| ContentLength(0)
content-length |18446744073709551615| -> |18446744073709551615| ContentLength(18446744073709551615)
content-length |00018446744073709551615| -> |18446744073709551615| ContentLength(18446744073709551615)
content-length || -> !
content-length |+3| -> !
content-length |-3| -> !
content-length | 3| -> !
content-length |3 | -> !
content-length |3,3| -> !
content-length |3.0| -> !
content-length |0x3| -> !
content-length |18446744073709551616| -> !
content-length |3|4| -> !
content-length |3|3|| -> !
content-length |é| -> !
content-length | -> !

# ETag
etag |W/"a"| -> |W/"a"|
etag |"a"|"a"| -> !
etag |"\xE9"| -> !
etag | -> !

# If-Match and If-None-Match: what is no tag is skipped, and nothing after a star is read
if-match+if-none-match |"a" ,x,"b"| -> |"a", "b"|
if-match+if-none-match |*| -> |*|
if-match+if-none-match | \t* | -> |*|
if-match+if-none-match |"a"|W/"b"| -> |"a", W/"b"|
if-match+if-none-match |"a"|*|é| -> |*|
if-match+if-none-match |"a,b"| -> ||
if-match+if-none-match |*, "a"| -> |"a"|
if-match+if-none-match || -> ||
if-match+if-none-match |x|,| -> ||
if-match+if-none-match |é| -> !
if-match+if-none-match |"a"|"é"| -> !
if-match+if-none-match |é|*| -> !
if-match+if-none-match | -> !

# If-Range
if-range |"a"| -> |"a"|
if-range || -> !
if-range |*| -> !
if-range |"a","b"| -> !
if-range | "a"| -> !
if-range |Thu, 01 Jan 1970 00:00:01 GMT| -> !
if-range |"a"|"a"| -> !
if-range | -> !

# If: a comma after each condition, a semicolon after each list
if |  <http://x.yz/> ([W/"etag"] Not <DAV:nope> ) (Not<urn:x>[W/"bla"] plain:word:123) | -> of http://x.yz/: [W/"etag"], not DAV:nope, ; not urn:x, [W/"bla"], plain:word:123, ;
if |(Nothing:x)| -> not hing:x, ;
if |(<a:b>)| -> a:b, ;
if |(<>)| -> , ;
if |(<a:b> Not)| -> a:b, ;
if |(Not<a:b>Not)| -> not a:b, ;
if |(a:b<c:d>["e"])| -> a:b, c:d, ["e"], ;
if |(xNot:y)| -> xNot:y, ;
if |(No:t)| -> No:t, ;
if |(["a,b"])| -> ["a,b"], ;
if |(["a]b"])| -> ["a]b"], ;
if |(<a">"b>)| -> a">"b, ;
if |(<"a">)| -> "a", ;
if |<urn:x> (<a:b>)| -> of urn:x: a:b, ;
if |<urn:x>(<a:b>)(<c:d>)<urn:y>(Not<e:f>)| -> of urn:x: a:b, ; c:d, ; of urn:y: not e:f, ;
if |\t(\t<a:b>\t)\t| -> a:b, ;
if |(<é> é:x)| -> é, é:x, ;
if |(<a:b> <a:b>) (<a:b>)| -> a:b, a:b, ; a:b, ;
if |<http://x.yz/a/../b> (a:b)| -> of http://x.yz/b: a:b, ;
if |<http://x.yz/> ([W/"etag"] Not <DAV:nope>) (Not <urn:x> a:b)| -> of http://x.yz/: [W/"etag"], not DAV:nope, ; not urn:x, a:b, ;
if || -> !
if | | -> !
if |()| -> !
if |(Not)| -> !
if |( Not )| -> !
if |(Not Not <a:b>)| -> !
if |(NotNot:x)| -> !
if |Not (<a:b>)| -> !
if |(<a:b>) Not| -> !
if |(<a:b> Not Not)| -> !
if |(Not (<a:b>))| -> !
if |((<a:b>))| -> !
if |(<a:b>))| -> !
if |(<a:b>| -> !
if |(<a:b| -> !
if |(<| -> !
if |(| -> !
if |)| -> !
if |a:b| -> !
if |<a:b>| -> !
if |(a:b| -> !
if |["a"]| -> !
if |(]| -> !
if |(>)| -> !
if |(["x)| -> !
if |(["| -> !
if |([| -> !
if |([W/"a])| -> !
if |([a])| -> !
if |([])| -> !
if |(["a"b"])| -> !
if |(["a"x])| -> !
if |(<a">)| -> !
if |(<">)| -> !
if |(<a b>)| -> !
if |(<a:b >)| -> !
if |(< a:b>)| -> !
if |(["a b"])| -> !
if |(<"a b">)| -> !
if |([ "a"])| -> !
if |(<a\tb>)| -> !
if |<>| -> !
if |<> (<a:b>)| -> !
if |</a> (<a:b>)| -> !
if |<a> (<a:b>)| -> !
if |<http://> (<a:b>)| -> !
if |<http://[x> (<a:b>)| -> !
if |<urn:x> <urn:y> (<a:b>)| -> !
if |<urn:x>| -> !
if |<urn:x> Not (<a:b>)| -> !
if |urn:x (<a:b>)| -> !
if |["a"] (<a:b>)| -> !
if |(<a:b>) c:d| -> !
if |(<a:b>) ()| -> !
if |(<\xFF>)| -> !
if |(\xFF)| -> !
if |(["\xFF"])| -> !
if |<urn:\xFF> (<a:b>)| -> !
if |(<a:b>)|(<c:d>)| -> !
if | -> !
"##;

// The values between the bars.
fn values_of(alloc: Global, texts: &str) -> Result<Vec<HeaderValue>, Fail> {
    let mut values = Vec::new(alloc);
    if let Some(texts) = texts.strip_suffix('|') {
        for text in texts.split('|') {
            values.push(HeaderValue::from_bytes(alloc, &unescaped(alloc, text)?)?)?;
        }
    }
    Ok(values)
}

// A copy of a header, which is equal to it.
fn copy_of<T: Clone + PartialEq + Drop>(header: T) -> Result<T, HeaderError> {
    let copy = header.clone()?;
    if copy == header {
        Ok(copy)
    } else {
        Err(HeaderError::Memory)
    }
}

// What is written for a copy of the header in these values.
fn written_again(
    alloc: Global,
    name: &str,
    values: &[HeaderValue],
) -> Result<HeaderValue, HeaderError> {
    match name {
        "depth" => copy_of(Depth::decode(alloc, values)?)?.encode(alloc),
        "overwrite" => copy_of(Overwrite::decode(alloc, values)?)?.encode(alloc),
        "timeout" => copy_of(Timeout::decode(alloc, values)?)?.encode(alloc),
        "destination" => copy_of(Destination::decode(alloc, values)?)?.encode(alloc),
        "content-type" => copy_of(ContentType::decode(alloc, values)?)?.encode(alloc),
        "content-location" => copy_of(ContentLocation::decode(alloc, values)?)?.encode(alloc),
        "lock-token" => copy_of(LockToken::decode(alloc, values)?)?.encode(alloc),
        "x-litmus" => copy_of(XLitmus::decode(alloc, values)?)?.encode(alloc),
        "x-update-range" => copy_of(XUpdateRange::decode(alloc, values)?)?.encode(alloc),
        "content-range" => copy_of(ContentRange::decode(alloc, values)?)?.encode(alloc),
        "content-length" => copy_of(ContentLength::decode(alloc, values)?)?.encode(alloc),
        _ => list_written_again(alloc, name, values),
    }
}

// The same for a header that is a list, or a tag.
fn list_written_again(
    alloc: Global,
    name: &str,
    values: &[HeaderValue],
) -> Result<HeaderValue, HeaderError> {
    match name {
        "content-language" => copy_of(ContentLanguage::decode(alloc, values)?)?.encode(alloc),
        "etag" => ETag::decode(alloc, values)?.clone()?.encode(alloc),
        "if-match" => IfMatch::decode(alloc, values)?.clone()?.encode(alloc),
        "if-none-match" => IfNoneMatch::decode(alloc, values)?.clone()?.encode(alloc),
        "if-range" => IfRange::decode(alloc, values)?.clone()?.encode(alloc),
        // No header has this name; no row expects this error.
        _ => Err(HeaderError::Memory),
    }
}

// The fields of a header, as text.
fn fields_of<T: Debug + Drop>(alloc: Global, header: T) -> Result<String, HeaderError> {
    Ok(format!(in alloc; "{header:?}")?)
}

// The fields of the header in these values: the text alone of one that is a text, and nothing for a list of tags.
fn fields(alloc: Global, name: &str, values: &[HeaderValue]) -> Result<String, HeaderError> {
    match name {
        "depth" => fields_of(alloc, Depth::decode(alloc, values)?),
        "overwrite" => fields_of(alloc, Overwrite::decode(alloc, values)?),
        "timeout" => fields_of(alloc, Timeout::decode(alloc, values)?),
        "x-update-range" => fields_of(alloc, XUpdateRange::decode(alloc, values)?),
        "content-range" => fields_of(alloc, ContentRange::decode(alloc, values)?),
        "content-length" => fields_of(alloc, ContentLength::decode(alloc, values)?),
        "content-language" => languages(alloc, ContentLanguage::decode(alloc, values)?),
        "destination" => Ok(Destination::decode(alloc, values)?.0),
        "content-type" => Ok(ContentType::decode(alloc, values)?.0),
        "content-location" => Ok(ContentLocation::decode(alloc, values)?.0),
        "lock-token" => Ok(LockToken::decode(alloc, values)?.0),
        "x-litmus" => Ok(XLitmus::decode(alloc, values)?.0),
        _ => Ok(String::new(alloc)),
    }
}

// The languages of a header, each with a semicolon after it.
fn languages(alloc: Global, header: ContentLanguage) -> Result<String, HeaderError> {
    let mut languages = String::new(alloc);
    for language in header.iter_langs() {
        languages.push_str(language)?;
        languages.push(';')?;
    }
    Ok(languages)
}

// A text between bars, and the fields after it where they differ from the text.
fn shown(alloc: Global, text: &str, fields: &str) -> Result<String, AllocError> {
    let mut shown = String::from_str(alloc, "|")?;
    shown.push_str(text)?;
    shown.push('|')?;
    if !fields.is_empty() && fields != text {
        shown.push(' ')?;
        shown.push_str(fields)?;
    }
    Ok(shown)
}

// What the values are read as, and written again.
fn outcome(alloc: Global, name: &str, values: &[HeaderValue]) -> Result<String, HeaderError> {
    if name == "if" {
        return lists(alloc, &If::decode(alloc, values)?.clone()?);
    }
    let value = written_again(alloc, name, values)?;
    let fields = fields(alloc, name, values)?;
    Ok(shown(alloc, value.to_str().unwrap_or("?"), &fields)?)
}

// The lists of an If.
fn lists(alloc: Global, header: &If) -> Result<String, HeaderError> {
    let mut text = String::new(alloc);
    for list in &header.0 {
        push_list(&mut text, list)?;
    }
    Ok(text)
}

// Adds a list: its resource tag, its conditions with a comma after each, and a semicolon.
fn push_list(text: &mut String, list: &IfList) -> Result<(), AllocError> {
    if !text.is_empty() {
        text.push(' ')?;
    }
    if let Some(url) = &list.resource_tag {
        write!(text, "of {}: ", url.as_str())?;
    }
    for condition in &list.conditions {
        let not = if condition.not { "not " } else { "" };
        match &condition.item {
            IfItem::StateToken(token) => write!(text, "{not}{token}, ")?,
            IfItem::ETag(tag) => write!(text, "{not}[{tag}], ")?,
        }
    }
    text.push(';')
}

// Plays a row with each of its names; the test fails where an outcome isn't the expected one.
fn play(rt: &impl Abort, alloc: Global, row: &str) -> Result<(), Fail> {
    let (names, texts, wanted) = parts(row).ok_or("a line is no row")?;
    let values = values_of(alloc, texts)?;
    let wanted = unescaped(alloc, wanted)?;
    for name in names.split('+') {
        let outcome = outcome_text(alloc, outcome(alloc, name, &values))?;
        assert!(rt;
            outcome.as_bytes() == wanted.as_slice(),
            "{row}\n{name} gives: {outcome}"
        );
    }
    Ok(())
}

#[test]
fn reads_and_writes_headers(rt: HostRuntime) -> Result<(), Fail> {
    let mut count = 0u32;
    for line in ROWS.lines() {
        if is_row(line) {
            play(&rt, rt.alloc(), line)?;
            count = count.wrapping_add(1);
        }
    }
    same(&rt, &count, &275);
    Ok(())
}
