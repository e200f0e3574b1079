//! What the errors of `sip_states` say.

use crate::wants::is;
use sip_states::TakeError;
use std::process::Abort;
use std::test::Fail;

/// Asserts what the error says.
fn says(rt: &(impl Abort + AllocGlobal), error: TakeError, told: &str) -> Result<(), Fail> {
    let text = error.to_string(rt.alloc())?;
    is(rt, text.as_str(), told, "what it says");
    Ok(())
}

/// A set can refuse an entry for two reasons.
#[test]
fn errors_say_what_is_wrong(rt: HostRuntime) -> Result<(), Fail> {
    says(&rt, TakeError::Memory, "out of memory")?;
    says(&rt, TakeError::TooMany, "more than 1,024 possible states")
}
