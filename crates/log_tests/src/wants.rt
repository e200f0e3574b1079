//! Assertions as functions. A test that calls them is proved in a tenth of the time of one that expands `assert_eq!` itself.

use std::fmt::{Debug, Display};
use std::process::Abort;

/// Asserts that what was found is what is wanted.
pub(crate) fn is<T: PartialEq + Debug + Drop>(rt: &impl Abort, found: T, want: T) {
    assert_eq!(rt; found, want);
}

/// Asserts that what was found in the row is what is wanted.
pub(crate) fn is_in<T: PartialEq + Debug + Drop>(
    rt: &impl Abort,
    found: T,
    want: T,
    row: &impl Display,
) {
    assert_eq!(rt; found, want, "{row}");
}
