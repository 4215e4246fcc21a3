//! Texts of characters that a document may have.
use super::parts;
use dav_xml::is_legal;
use std::alloc::Global;
use std::process::Abort;
use std::test::Fail;

// XML 1.0, section 2.2: #x9, #xA, #xD, #x20 to #xD7FF, #xE000 to #xFFFD, #x10000 to #x10FFFF. The code points of a text in
// hexadecimal, and whether a document may have it.
const ROWS: &str = "\
# white space
9 -> yes
A -> yes
D -> yes
20 -> yes
# control characters
0 -> no
1 -> no
8 -> no
B -> no
C -> no
E -> no
1B -> no
1F -> no
7F -> yes
80 -> yes
85 -> yes
9F -> yes
# around the surrogates
D7FF -> yes
E000 -> yes
# at the ends of the planes
FFFC -> yes
FFFD -> yes
FFFE -> no
FFFF -> no
FEFF -> yes
10000 -> yes
1FFFE -> yes
1FFFF -> yes
10FFFF -> yes
# texts
61 6E 6E 61 -> yes
61 20 9 62 -> yes
61 1 62 -> no
61 62 1 -> no
1 61 62 -> no
E9 20AC 1F600 -> yes
E9 FFFE 1F600 -> no
20AC FFFF -> no
FFFF FFFD -> no
FFFD FFFE -> no
";

// The text of these code points.
fn text_of(alloc: Global, codes: &str) -> Result<String, Fail> {
    let mut text = String::new(alloc);
    for code in codes.split(' ') {
        let code = u32::from_str_radix(code, 16)?;
        text.push(char::from_u32(code).ok_or("no character")?)?;
    }
    Ok(text)
}

#[test]
fn characters_are_legal(rt: HostRuntime) -> Result<(), Fail> {
    assert!(&rt; is_legal(""));
    for row in ROWS.lines() {
        if let Some((codes, wanted)) = parts(row) {
            let text = text_of(rt.alloc(), codes)?;
            let found = if is_legal(&text) { "yes" } else { "no" };
            assert!(&rt; found == wanted, "{row}\ngives: {found}");
        }
    }
    Ok(())
}
