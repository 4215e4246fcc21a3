//! What tests assert. An assertion that is written out adds seconds to the proof of its test, a call of this only a
//! little.
use std::fmt::Debug;
use std::process::Abort;

// Asserts that two values are equal; the test fails where they aren't, and prints both.
pub(crate) fn same<T: PartialEq + Debug>(rt: &impl Abort, left: &T, right: &T) {
    assert_eq!(rt; left, right);
}
