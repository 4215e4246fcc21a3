use super::*;
use crate::asserting::{is_row, parts, same};
use std::process::Abort;
use std::str;
use std::test::Fail;

// A row: what is done, texts between bars, ` -> `, and the outcome: results between bars, or an error's name.
const ROWS: &str = "
# The bytes of a path
new |/a/./b//c/../d%20e/?q=1| -> |/a/b/d e/|
new |*| -> |*|
new |/| -> |/|
new |/a/| -> |/a/|
new |/a| -> |/a|
new |/a/..| -> |/|
new |/a/.| -> |/a|
new |/%4| -> |/%4|
new |/%zz| -> |/%zz|
new |/a?/..| -> |/a|
new |//| -> |/|
new |/%c3%A9| -> |/é|
new || -> InvalidPath
new |a| -> InvalidPath
new |**| -> InvalidPath
new |/a#b| -> InvalidPath
new |/a\tb| -> InvalidPath
new |/a%2Fb| -> InvalidPath
new |/a%00/..| -> InvalidPath
new |/%2F/..| -> InvalidPath
new |/..| -> ForbiddenPath
new |/../%2F| -> ForbiddenPath
new |/%2e%2e/x| -> ForbiddenPath
new |/a/../..| -> ForbiddenPath

# Its names
names |/a/./b//c/../d%20e/| -> |a|b|d e|
names |*| -> |

# Its text in a URL
url |/a/b/d%20e/| -> |/a/b/d%20e/|
url |/%7e-_.%41| -> |/~-_.A|
url |/%c3%a9!| -> |/%C3%A9%21|
url |*| -> |*|
url |/%2A| -> |/%2A|

# The prefix, the path after it, and the whole path, after a prefix was set
prefix |/dav|/dav| -> |/dav|/|/dav/|
prefix |/dav|/dav/| -> |/dav|/|/dav/|
prefix |/dav/|/dav/| -> |/dav|/|/dav/|
prefix |/dav/a|/dav/| -> |/dav|/a|/dav/a|
prefix |/dav/a|| -> ||/dav/a|/dav/a|
prefix |/dav/a|/| -> ||/dav/a|/dav/a|
prefix |/%c3%a9/a|/é/| -> |/é|/a|/é/a|
prefix |/dav/x/y/|/dav| -> |/dav|/x/y/|/dav/x/y/|
prefix |/dav/a|/d| -> PrefixMismatch ||/dav/a|/dav/a|
prefix |/dav/a|dav| -> PrefixMismatch ||/dav/a|/dav/a|
prefix |/dav/a|/dav//| -> PrefixMismatch ||/dav/a|/dav/a|
prefix |/dav/a|/dav/a/b| -> PrefixMismatch ||/dav/a|/dav/a|
prefix |/dav/a|/x| -> PrefixMismatch ||/dav/a|/dav/a|
prefix |/dav/x/y/|/da| -> PrefixMismatch ||/dav/x/y/|/dav/x/y/|

# The same after two prefixes, each of all of the path: the second takes the place of the first, or leaves it
prefix |/dav/a/b|/dav|/dav/a| -> |/dav/a|/b|/dav/a/b|
prefix |/dav/a/b|/dav/a|/dav/| -> |/dav|/a/b|/dav/a/b|
prefix |/dav/a|/dav|/dav/a| -> |/dav/a|/|/dav/a/|
prefix |/dav|/dav|/dav| -> |/dav|/|/dav/|
prefix |/dav|/dav|/| -> ||/dav/|/dav/|
prefix |/dav/a|/dav|/a| -> PrefixMismatch |/dav|/a|/dav/a|
prefix |/dav/a|/dav|/x| -> PrefixMismatch |/dav|/a|/dav/a|

# The same of the parent of a path with a prefix
parent |/dav/x/y/|/dav| -> |/dav|/x/|/dav/x/|

# The same of a URI's path
uri |/%64/./a| -> ||/%64/./a|/%64/./a|
uri |http://host:80/x/../%2F?q| -> ||/x/../%2F|/x/../%2F|

# A path without and with a slash added where none ends it, which are equal
slash |/d| -> |/d|/d/|
slash |/d/| -> |/d/|/d/|
slash |/| -> |/|/|

# With a slash added twice, and the path it is a copy of
slashes |/d| -> |/d/|/d|

# With a name added: its bytes, its text in a URL, how many names it has
push |/d|a b| -> |/d/a b|/d/a%20b| 2
push |/d/|a b| -> |/d/a b|/d/a%20b| 2

# Whether two paths are equal, and whether a path ends in a slash
equal |/d|/d/a| -> false
collection |/d| -> false

# Whether a path is another one or under it, whether it is under it, and whether it has no names
under |/d/a|/d| -> true true false
under |/d/a/b/|/d/| -> true true false
under |/d/|/d| -> true false false
under |/d|/d/a| -> false false false
under |/da|/d| -> false false false
under |/d/b|/d/a| -> false false false
under |/a|/| -> true true false
under |/|/| -> true false true
under |/|/a| -> false false true
under |*|/| -> true false true

# The last name and the parent; whether the path is that of the server, and whether its parent ends in a slash
last |/a/b%20c/| -> |b c|/a/| false true
last |/a| -> |a|/| false true
last |/| -> ||/| false true
last |*| -> ||*| true false

# The parent of a path with a slash added: of the one name that no slash is before it is empty
above |/d/e| -> |/d/|
above |/d| -> |/|
above |/| -> |/|
above |*| -> ||

# The last name as text
name |/| -> None
name |*| -> None

# The last name, the path, and the path without its first slash as texts
texts |/a/b%20c/| -> Some(\"b c\") Some(\"/a/b c/\") Some(\"a/b c/\")
texts |/a/b| -> Some(\"b\") Some(\"/a/b\") Some(\"a/b\")
texts |/a/%ff| -> None None None

# A path with a prefix, as it is displayed and debugged
display |/dav/a%20b/|/dav| -> /dav/a%20b/ /dav/a%20b/
display |*|| -> * *
";

// Texts, with a bar before, between and after them.
fn between_bars(alloc: Global, texts: &[&[u8]]) -> Result<String, NoMemory> {
    let mut shown = String::from_str(alloc, "|")?;
    for text in texts {
        shown.push_str(str::from_utf8(text).unwrap_or("?"))?;
        shown.push('|')?;
    }
    Ok(shown)
}

// The names of a path between bars.
fn names_between_bars(alloc: Global, path: &DavPath) -> Result<String, NoMemory> {
    let mut shown = String::from_str(alloc, "|")?;
    for name in path.as_ref().segments() {
        shown.push_str(str::from_utf8(name).unwrap_or("?"))?;
        shown.push('|')?;
    }
    Ok(shown)
}

// The prefix of a path, the path after it, and the whole path.
fn placed(alloc: Global, path: &DavPath) -> Result<String, NoMemory> {
    let whole = path.with_prefix();
    between_bars(
        alloc,
        &[path.prefix().as_bytes(), path.as_bytes(), whole.as_bytes()],
    )
}

// A path and what it is after prefixes, with bars between them, are set in turn.
fn with_prefixes(alloc: Global, text: &str, prefixes: &str) -> Result<String, ParseError> {
    let mut path = DavPath::new(alloc, text)?;
    if !path.prefix().is_empty() {
        return Ok(String::from_str(alloc, "a new path has a prefix")?);
    }
    let mut refused = None;
    for prefix in prefixes.split('|') {
        refused = path.set_prefix(prefix).err();
    }
    let placed = placed(alloc, &path)?;
    match refused {
        Some(error) => Ok(format!(in alloc; "{error} {placed}")?),
        None => Ok(placed),
    }
}

// The path of a text below a prefix.
fn below(alloc: Global, text: &str, prefix: &str) -> Result<DavPath, ParseError> {
    let mut path = DavPath::new(alloc, text)?;
    path.set_prefix(prefix)?;
    Ok(path)
}

// The path of a URI.
fn uri_path(alloc: Global, text: &str) -> Result<String, ParseError> {
    let Ok(uri) = Uri::from_bytes(alloc, text.as_bytes()) else {
        return Ok(String::from_str(alloc, "no URI")?);
    };
    Ok(placed(alloc, &DavPath::from_uri(alloc, &uri)?)?)
}

// Copies of a path to which a slash isn't added, and is.
fn with_slash(alloc: Global, path: &DavPath) -> Result<String, NoMemory> {
    let mut copy = path.clone()?;
    copy.add_slash_if(false)?;
    let before = between_bars(alloc, &[copy.as_bytes()])?;
    copy.add_slash_if(true)?;
    if copy.is_collection() && copy == *path {
        format!(in alloc; "{before}{}|", copy.as_pathbuf().unwrap_or("?"))
    } else {
        String::from_str(alloc, "another path")
    }
}

// A copy of a path to which a slash is added twice, and the path.
fn with_slashes(alloc: Global, path: &DavPath) -> Result<String, NoMemory> {
    let mut copy = path.clone()?;
    copy.add_slash()?;
    copy.add_slash()?;
    between_bars(alloc, &[copy.as_bytes(), path.as_bytes()])
}

// How many names a path has.
fn count_names(path: &DavPath) -> u32 {
    let mut count = 0u32;
    for _ in path.segments() {
        count = count.wrapping_add(1);
    }
    count
}

// A path with a name added.
fn with_name(alloc: Global, mut path: DavPath, name: &str) -> Result<String, NoMemory> {
    path.push_segment(name.as_bytes())?;
    let url = path.as_url_string()?;
    let shown = between_bars(alloc, &[path.as_bytes(), url.as_bytes()])?;
    format!(in alloc; "{shown} {}", count_names(&path))
}

// The last name and the parent of a path.
fn last(alloc: Global, path: &DavPath) -> Result<String, NoMemory> {
    let parent = path.as_ref().parent();
    let shown = between_bars(alloc, &[path.file_name_bytes(), parent.as_bytes()])?;
    format!(in alloc; "{shown} {} {}", path.is_star(), parent.is_collection())
}

// The parent of a path with a slash added.
fn above(alloc: Global, path: &DavPath) -> Result<String, NoMemory> {
    let mut path = path.clone()?;
    path.add_slash()?;
    between_bars(alloc, &[path.parent()?.as_bytes()])
}

// The last name, the path, and the path without its first slash, as text.
fn texts(alloc: Global, path: &DavPath) -> Result<String, NoMemory> {
    let (name, whole, inside) = (path.file_name(), path.as_pathbuf(), path.as_rel_ospath());
    format!(in alloc; "{name:?} {whole:?} {inside:?}")
}

// The outcome of a row with one text.
fn outcome_of_path(alloc: Global, name: &str, path: &DavPath) -> Result<String, NoMemory> {
    match name {
        "new" => between_bars(alloc, &[path.as_ref().as_bytes()]),
        "names" => names_between_bars(alloc, path),
        "url" => between_bars(alloc, &[path.as_ref().as_url_string(alloc)?.as_bytes()]),
        "slash" => with_slash(alloc, path),
        "slashes" => with_slashes(alloc, path),
        "collection" => format!(in alloc; "{}", path.is_collection()),
        "last" => last(alloc, path),
        "above" => above(alloc, path),
        "name" => format!(in alloc; "{:?}", path.file_name()),
        "texts" => texts(alloc, path),
        _ => String::from_str(alloc, "nothing has this name"),
    }
}

// Whether a path is another one or under it, whether it is under it, and whether it has no names.
fn under(alloc: Global, text: &str, other: &str) -> Result<String, ParseError> {
    let path = DavPath::new(alloc, text)?;
    let other = DavPath::new(alloc, other)?;
    let (is_at_or_under, is_under) = (path.is_at_or_under(&other), path.is_under(&other));
    Ok(format!(in alloc; "{is_at_or_under} {is_under} {}", path.is_root())?)
}

// The outcome of any row.
fn outcome(alloc: Global, name: &str, text: &str, second: &str) -> Result<String, ParseError> {
    match name {
        "uri" => uri_path(alloc, text),
        "prefix" => with_prefixes(alloc, text, second),
        "parent" => Ok(placed(alloc, &below(alloc, text, second)?.parent()?)?),
        "display" => {
            let path = below(alloc, text, second)?;
            Ok(format!(in alloc; "{path} {path:?}")?)
        }
        "under" => under(alloc, text, second),
        "push" => Ok(with_name(alloc, DavPath::new(alloc, text)?, second)?),
        "equal" => {
            let is_equal = DavPath::new(alloc, text)? == DavPath::new(alloc, second)?;
            Ok(format!(in alloc; "{is_equal}")?)
        }
        _ if second.is_empty() => { Ok(outcome_of_path(alloc, name, &DavPath::new(alloc, text)?)?) }
        _ => Ok(String::from_str(alloc, "one text is wanted")?),
    }
}

// Plays a row; the test fails where the outcome isn't the wanted one.
fn play(rt: &impl Abort, alloc: Global, row: &str) -> Result<(), Fail> {
    let (name, texts, wanted) = parts(row).ok_or("a line is no row")?;
    let (text, second) = texts.split_once('|').unwrap_or((texts, ""));
    let outcome = match outcome(alloc, name, text, second) {
        Ok(outcome) => outcome,
        Err(error) => format!(in alloc; "{error}")?,
    };
    assert!(rt; outcome.as_str() == wanted, "{row}\ngives: {outcome}");
    Ok(())
}

#[test]
fn gives_paths(rt: HostRuntime) -> Result<(), Fail> {
    let mut count = 0u32;
    for line in ROWS.lines() {
        if is_row(line) {
            play(&rt, rt.alloc(), line)?;
            count = count.wrapping_add(1);
        }
    }
    same(&rt, &count, &88);
    Ok(())
}

#[test]
fn gives_a_name_that_is_no_text(rt: HostRuntime) -> Result<(), Fail> {
    let path = DavPath::new(rt.alloc(), "/a/%ff")?;
    same(&rt, &path.file_name_bytes(), &b"\xff".as_slice());
    Ok(())
}
