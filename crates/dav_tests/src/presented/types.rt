//! Types by names, and which of them act.
use super::halves;
use dav_presented::types::{acts, type_of};
use std::process::Abort;
use std::test::Fail;

// A name, and its type; `-` where the table has none (the registry of media types).
const TYPES: &str = "\
photo.jpeg -> image/jpeg
notes.txt -> text/plain; charset=utf-8
index.html -> text/html; charset=utf-8
book.epub -> application/epub+zip
letter.odt -> application/vnd.oasis.opendocument.text
song.mp3 -> audio/mpeg
archive.zip -> application/zip
# whatever the case of its letters is
photo.JPG -> image/jpeg
Index.hTmL -> text/html; charset=utf-8
# after the last dot
archive.tar.gz -> application/gzip
page.html.png -> image/png
/docs.v2/readme -> -
/docs.v2/readme.md -> text/markdown; charset=utf-8
.html -> text/html; charset=utf-8
# no extension, and none of the table
html -> -
film.mp4. -> -
page.html~ -> -
page.html/ -> -
core.dump -> -
";

// A type, and whether a browser runs what a document of it holds (MIME Sniffing, section 4.6).
const ACTS: &str = "\
text/html -> true
application/xhtml+xml -> true
image/svg+xml -> true
text/xml -> true
application/xml -> true
application/rss+xml -> true
# parameters, and the case of letters
text/html; charset=utf-8 -> true
text/html;charset=utf-8 -> true
text/html ; charset=utf-8 -> true
Text/HTML -> true
IMAGE/SVG+XML; q=1 -> true
# those that don't
text/plain; charset=utf-8 -> false
text/plain; x=text/html -> false
text/htmlx -> false
text/javascript; charset=utf-8 -> false
application/octet-stream -> false
application/vnd.openxmlformats-officedocument.wordprocessingml.document -> false
image/png -> false
application/pdf -> false
xml -> false
";

#[test]
fn finds_types(rt: HostRuntime) -> Result<(), Fail> {
    for row in TYPES.lines() {
        if let Some((name, wanted)) = halves(row) {
            let found = type_of(rt.alloc(), name)?.unwrap_or("-");
            assert!(&rt; found == wanted, "{row}\ngives: {found}");
        }
    }
    Ok(())
}

#[test]
fn a_long_extension_is_no_type(rt: HostRuntime) -> Result<(), Fail> {
    let mut name = String::from_str(rt.alloc(), "page.")?;
    for _ in 0..250 {
        name.push_str("html")?;
    }
    assert_eq!(rt; type_of(rt.alloc(), &name)?, None);
    Ok(())
}

#[test]
fn tells_what_acts(rt: HostRuntime) -> Result<(), Fail> {
    for row in ACTS.lines() {
        if let Some((kind, wanted)) = halves(row) {
            assert!(&rt; acts(kind) == (wanted == "true"), "{row}");
        }
    }
    Ok(())
}
