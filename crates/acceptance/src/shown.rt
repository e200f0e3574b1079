//! What is shown of a log: the text that is written, and the answer.
use crate::pieces::Pieces;
use crate::room::Room;
use sip_log::{FromRead, ToWrite};
use sip_verdict::{ShowError, Shown, show};
use std::alloc::Global;

/// The answer of `show` where it writes after what stands in the text.
pub(crate) fn written(alloc: Global, log: &[u8], text: &mut Vec<u8>) -> Result<Shown, ShowError> {
    show(alloc, &mut FromRead::new(log), &mut ToWrite::new(text))
}

/// What `show` writes of the log, and its answer.
pub(crate) fn shown(alloc: Global, log: &[u8]) -> Result<(Vec<u8>, Shown), ShowError> {
    let mut text = Vec::new(alloc);
    let shown = written(alloc, log, &mut text)?;
    Ok((text, shown))
}

/// The answer of `show` where it writes into a room.
pub(crate) fn shown_in(alloc: Global, log: &[u8], room: &mut Room) -> Result<Shown, ShowError> {
    show(alloc, &mut FromRead::new(log), room)
}

/// The answer of `show` where the bytes come one by one, and the source fails after this many calls.
pub(crate) fn shown_failing(alloc: Global, log: &[u8], calls: usize) -> Result<Shown, ShowError> {
    shown_failing_in(alloc, log, 1, calls)
}

/// The answer of `show` where the bytes come in pieces of this size, and the source fails after this many calls.
pub(crate) fn shown_failing_in(
    alloc: Global,
    log: &[u8],
    size: usize,
    calls: usize,
) -> Result<Shown, ShowError> {
    let source = &mut Pieces::failing_in(log, size, calls);
    // The room is larger than any of these logs needs, so that no write fails.
    show(alloc, source, &mut Room::of(1_000))
}
