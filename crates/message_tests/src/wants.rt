//! What is wanted of a value. A test that asks by a call is proved in a tenth of the time of one that expands `assert_eq!` itself.

use std::fmt::{Debug, Display};
use std::process::Abort;

/// Asserts that what is found in the row is what is wanted.
pub(crate) fn is<T: PartialEq + Debug + Drop>(
    rt: &impl Abort,
    found: T,
    want: T,
    row: &impl Display,
) {
    assert_eq!(rt; found, want, "{row}");
}

/// Asserts that something holds; the words say what.
pub(crate) fn holds(rt: &impl Abort, is_so: bool, words: &str) {
    assert!(rt; is_so, "{words}");
}
