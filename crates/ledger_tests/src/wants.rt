//! What is wanted of a value. A test that asks by a call is proved in a tenth of the time of one that expands `assert!` itself.
ghost use Rattle.std.specs.Prelude.{IsTrue};

use std::process::Abort;
use std::test::Fail;

/// What a step of a test comes to: nothing, or why it failed.
pub(crate) type Done = Result<(), Fail>;

/// Asserts that something is so, which the words tell.
pub(crate) fn holds(rt: &impl Abort, is_so: bool, words: &str)
    ensures { IsTrue is_so }
{
    assert!(rt; is_so, "{words}");
}
