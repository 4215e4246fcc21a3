//! Assertions of tests. An assertion that is written out adds seconds to the proof of its test, a call of `same` a small part
//! of that, and a row of text nothing.
use std::fmt::Debug;
use std::process::Abort;

// Asserts that two values are equal; the test fails where they are not, and prints both.
pub(crate) fn same<T: PartialEq + Debug>(rt: &impl Abort, left: &T, right: &T) {
    assert_eq!(rt; left, right);
}

// Whether a line is a row: neither empty nor a title.
pub(crate) fn is_row(line: &str) -> bool {
    !line.is_empty() && !line.starts_with("# ")
}

// The name that a row begins with, the text between its outer bars, and the wanted outcome.
pub(crate) fn parts(row: &str) -> Option<(&str, &str, &str)> {
    let (input, wanted) = row.split_once(" -> ")?;
    let (name, texts) = input.split_once(" |")?;
    Some((name, texts.strip_suffix('|')?, wanted))
}
