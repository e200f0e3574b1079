//! Checks a text, or that something holds, by a call: an assertion is proved anew wherever it is written out.
use std::process::Abort;

/// Checks that a text is the wanted one. The row says which test asks.
pub(crate) fn reads(rt: &impl Abort, text: &str, want: &str, row: &str) {
    assert_eq!(rt; text, want, "{row}");
}

/// Checks that a text is the wanted one. The row and its number say which test asks.
pub(crate) fn reads_at(rt: &impl Abort, text: &str, want: &str, (row, number): (&str, usize)) {
    assert_eq!(rt; text, want, "{row} {number}");
}

/// Checks that something holds. The row says which test asks.
pub(crate) fn holds(rt: &impl Abort, is_so: bool, row: &str) {
    assert!(rt; is_so, "{row}");
}

/// Checks that something holds. The row and its number say which test asks.
pub(crate) fn holds_at(rt: &impl Abort, is_so: bool, (row, number): (&str, usize)) {
    assert!(rt; is_so, "{row} {number}");
}
