//! Assertions that tell their row. They are functions, so that each is written out once.

use std::fmt::Debug;
use std::process::Abort;

/// Asserts that what was read is what the row wants.
pub(crate) fn is<T: PartialEq + Debug + Drop>(rt: &impl Abort, read: T, want: T, row: &str) {
    assert_eq!(rt; read, want, "{row}");
}

/// Asserts that what was read in the row with this number, at this moment, is what the row wants.
pub(crate) fn is_at<T: PartialEq + Debug + Drop>(
    rt: &impl Abort,
    read: T,
    want: T,
    row: usize,
    moment: u64,
) {
    assert_eq!(rt; read, want, "row {row} at {moment}");
}

/// Asserts that something holds, as the row wants it.
pub(crate) fn holds(rt: &impl Abort, is_so: bool, row: &str) {
    assert!(rt; is_so, "{row}");
}
