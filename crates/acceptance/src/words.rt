//! The text of each error.
use crate::wants::reads;
use sip_verdict::{JudgeError, ShowError};
use std::alloc::AllocError;
use std::process::Abort;
use std::test::Fail;

/// Checks the text of an error that a judge answers.
fn judge_says(rt: &(impl Abort + AllocGlobal), error: JudgeError, want: &str) -> Result<(), Fail> {
    let text = error.to_string(rt.alloc())?;
    reads(rt, text.as_str(), want, want);
    Ok(())
}

/// Checks the text of an error that `show` answers.
fn show_says(rt: &(impl Abort + AllocGlobal), error: ShowError, want: &str) -> Result<(), Fail> {
    let text = error.to_string(rt.alloc())?;
    reads(rt, text.as_str(), want, want);
    Ok(())
}

/// Each error has one text.
#[test]
fn errors_say_what_is_wrong(rt: HostRuntime) -> Result<(), Fail> {
    judge_says(&rt, JudgeError::Io, "cannot read")?;
    judge_says(&rt, JudgeError::Memory, "out of memory")?;
    judge_says(&rt, JudgeError::from(AllocError), "out of memory")?;
    show_says(&rt, ShowError::Read, "cannot read")?;
    show_says(&rt, ShowError::Write, "cannot write")?;
    show_says(&rt, ShowError::Memory, "out of memory")
}
