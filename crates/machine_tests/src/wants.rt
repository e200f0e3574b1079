//! Assertions that tell their row. They are functions, since an assertion is proved anew wherever it is written out.
ghost use Rattle.std.specs.Prelude.{IsTrue};

use std::fmt::Debug;
use std::process::Abort;

/// Asserts that what was read is what the row wants.
pub(crate) fn is<T: PartialEq + Debug + Drop>(rt: &impl Abort, read: T, want: T, row: &str) {
    assert_eq!(rt; read, want, "{row}");
}

/// Asserts that something holds, as the row wants it.
pub(crate) fn holds(rt: &impl Abort, is_so: bool, row: &str)
    ensures { IsTrue is_so }
{
    assert!(rt; is_so, "{row}");
}
