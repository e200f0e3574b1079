//! What the errors of `sip_log` say, and what `Debug` shows of its readers and writers.

use crate::wants::is;
use sip_log::{Broken, FromRead, LogError, LogReader, Source, ToWrite, WriteError};
use std::fmt::Debug;
use std::process::Abort;
use std::test::Fail;

/// Each error says what is wrong.
#[test]
fn errors_say_what_is_wrong(rt: HostRuntime) -> Result<(), Fail> {
    let rows = [
        (LogError::Header, "no header"),
        (LogError::EntryLine, "no entry line"),
        (LogError::Truncated, "truncated"),
        (LogError::Order, "out of order"),
        (LogError::Limit, "outside the limits"),
        (LogError::Io, "cannot read"),
        (LogError::Memory, "out of memory"),
        (LogError::Failed, "failed before"),
    ];
    for (error, told) in rows {
        is(&rt, error.to_string(rt.alloc())?.as_str(), told);
    }
    let rows = [
        (WriteError::Limit, "outside the limits"),
        (WriteError::Io, "cannot write"),
    ];
    for (error, told) in rows {
        is(&rt, error.to_string(rt.alloc())?.as_str(), told);
    }
    is(&rt, Broken.to_string(rt.alloc())?.as_str(), "failed");
    Ok(())
}

/// Asserts that `{:?}` writes the value in this way.
fn looks<T: Debug>(rt: &(impl Abort + AllocGlobal), value: &T, look: &str) -> Result<(), Fail> {
    let told = format!(in rt.alloc(); "{value:?}")?;
    is(rt, told.as_str(), look);
    Ok(())
}

/// Asserts what a reader that has read nothing, and a writer, look like.
fn new_ones_look(rt: &(impl Abort + AllocGlobal), bytes: &[u8]) -> Result<(), Fail> {
    let reader = LogReader::new(rt.alloc(), FromRead::new(bytes));
    looks(
        rt,
        &reader,
        "LogReader { source: FromRead { reader: [115, 105], failure: None, ended: false }, \
         progress: Progress { alloc: Global, stage: Fresh, format: One, params: None, count: 0, last: 0 } }",
    )?;
    let writer = ToWrite::new(Vec::<u8>::new(rt.alloc()));
    looks(rt, &writer, "ToWrite { writer: [], failed: false }")
}

/// Asserts what an entry looks like.
fn an_entry_looks<R: Source>(
    rt: &(impl Abort + AllocGlobal),
    reader: &mut LogReader<R>,
) -> Result<(), Fail> {
    let entry = reader.next().ok().flatten().ok_or("no entry")?;
    looks(
        rt,
        &entry,
        "Entry { number: 1, moment: 5, action: Mark, bytes: [] }",
    )
}

/// What a reader looks like tells where it stands in its buffer, and leaves out the 128 KiB of the buffer.
#[test]
fn readers_and_writers_look(rt: HostRuntime) -> Result<(), Fail> {
    let bytes: &[u8] = b"sip-trace 1\nt1 1 t2 2 t4 3 tolerance 4\nM 5\nS";
    new_ones_look(&rt, &bytes[..2])?;
    let mut reader = LogReader::new(rt.alloc(), bytes);
    an_entry_looks(&rt, &mut reader)?;
    looks(
        &rt,
        &reader,
        "LogReader { source: [], progress: Progress { alloc: Global, \
         stage: Entries(Window { start: 43, end: 44, .. }), format: One, \
         params: Some(Params { t1: 1, t2: 2, t4: 3, early: 4, lateness: 4 }), count: 1, last: 5 } }",
    )
}
