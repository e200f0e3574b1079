//! What is wanted of a value. A test that asks by a call is proved in a tenth of the time of one that expands `assert_eq!` itself.

use std::fmt::Debug;
use std::process::Abort;

/// Asserts that what is found is what is wanted.
pub(crate) fn is<T: PartialEq + Debug + Drop>(rt: &impl Abort, found: T, want: T) {
    assert_eq!(rt; found, want);
}
