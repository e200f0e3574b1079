//! What is wanted of a text. A test that asks by a call is proved in a tenth of the time of one that expands `assert_eq!` itself.

use std::fmt::Debug;
use std::process::Abort;

/// Asserts that what is read of the text is what is wanted.
pub(crate) fn is<T: PartialEq + Debug + Drop>(rt: &impl Abort, read: T, want: T, text: &[u8]) {
    assert_eq!(rt; read, want, "{text:?}");
}
