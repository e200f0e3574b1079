//! What the failures of the program say: the line that the standard error has, without the program's name.

use crate::wants::{is, reads};
use sip_program::Failure;
use std::process::Abort;
use std::test::Fail;

/// The failures, and what each says.
static ROWS: [(Failure, &str); 4] = [
    (Failure::Read, "cannot read"),
    (Failure::Write, "cannot write"),
    (Failure::Memory, "out of memory"),
    (
        Failure::Usage,
        "usage: siptrace [check FILE | show FILE | states FILE ENTRY]",
    ),
];

/// Checks what the failure says as a text.
fn says(rt: &(impl Abort + AllocGlobal), failure: &Failure, told: &str) -> Result<(), Fail> {
    let text = failure.to_string(rt.alloc())?;
    is(rt, text.as_str(), told);
    Ok(())
}

/// Checks that the line of the failure is what it says as a text, after the name of the program.
fn is_on_its_line(rt: &(impl Abort + AllocGlobal), failure: &Failure) -> Result<(), Fail> {
    let line = format!(in rt.alloc(); "siptrace: {failure}\n")?;
    reads(rt, failure.line(), &line);
    Ok(())
}

/// Each failure says as a text what its line says.
#[test]
fn failures_say_what_the_program_tells(rt: HostRuntime) -> Result<(), Fail> {
    for (failure, told) in &ROWS {
        says(&rt, failure, *told)?;
        is_on_its_line(&rt, failure)?;
    }
    Ok(())
}
