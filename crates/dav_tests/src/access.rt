//! Published vectors, what other programs make, and lists of users, as rows of text.
mod basic;
mod crypt;
mod limits;
mod logins;
mod principals;
mod rules;

use std::alloc::{AllocError, Global};

// A text with the characters that its marks stand for: `⇥` is a tab, `↵` a line feed, `␍` a
// carriage return, `①` U+0001, `②` U+FFFE and `③` U+FFFF.
fn marked(alloc: Global, text: &str) -> Result<String, AllocError> {
    let mut out = String::new(alloc);
    for c in text.chars() {
        out.push(match c {
            '⇥' => '\t',
            '↵' => '\n',
            '␍' => '\r',
            '①' => '\u{1}',
            '②' => '\u{FFFE}',
            '③' => '\u{FFFF}',
            other => other,
        })?;
    }
    Ok(out)
}

// A row's input and what is expected of it; `None` for a title.
fn parts(row: &str) -> Option<(&str, &str)> {
    if row.starts_with("# ") {
        return None;
    }
    row.rsplit_once(" -> ")
}
