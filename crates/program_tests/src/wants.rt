//! Checks a value by a call. A test that does so is proved in a tenth of the time of one that expands `assert_eq!` itself.

use std::fmt::Debug;
use std::process::Abort;

/// Checks that what is found is what is wanted.
pub(crate) fn is<T: PartialEq + Debug + Drop>(rt: &impl Abort, found: T, want: T) {
    assert_eq!(rt; found, want);
}

/// Checks that something holds; the words say what.
pub(crate) fn holds(rt: &impl Abort, is_so: bool, words: &str) {
    assert!(rt; is_so, "{words}");
}

/// Checks that these bytes are the wanted text.
pub(crate) fn reads(rt: &impl Abort, bytes: &[u8], want: &str) {
    assert!(rt; bytes == want.as_bytes(), "{want}");
}
