//! What tests assert. An assertion that is written out costs the proof of its test seconds, a call of this a small part of that.
use std::fmt::Debug;
use std::process::Abort;

// That two values are equal; the test fails where they are not, and prints both.
pub(crate) fn same<T: PartialEq + Debug>(rt: &impl Abort, left: &T, right: &T) {
    assert_eq!(rt; left, right);
}
