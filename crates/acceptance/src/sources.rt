//! Sources that hand out a log in pieces, or fail: what is judged and listed then. Logs are spelled in the words of `notation.rt`: `S` sent, `R`
//! received, `M` a mark, each with its moments; then a method, a branch without the cookie, and the code where it is a response.
use crate::listed::{Listed, listing_failing};
use crate::logs::{RESTARTED, STORED, long_log};
use crate::notation::{header, log_of};
use crate::shown::shown_failing_in;
use crate::verdicts::{Row, verdict_cut_at, verdict_failing, verdict_of_single_bytes};
use crate::wants::{holds_at, reads, reads_at};
use sip_verdict::{JudgeError, ShowError};
use std::process::Abort;
use std::test::Fail;

/// Checks the verdict where the bytes come one by one.
fn judges_single_bytes(
    rt: &(impl Abort + AllocGlobal),
    bytes: &[u8],
    want: &str,
) -> Result<(), Fail> {
    let text = verdict_of_single_bytes(rt.alloc(), bytes)?;
    reads(rt, text.as_str(), want, "in single bytes");
    Ok(())
}

/// Checks the verdict where the bytes come in two pieces.
fn judges_cut_at(
    rt: &(impl Abort + AllocGlobal),
    bytes: &[u8],
    place: usize,
    want: &str,
) -> Result<(), Fail> {
    let text = verdict_cut_at(rt.alloc(), bytes, place)?;
    reads_at(rt, text.as_str(), want, ("cut at", place));
    Ok(())
}

/// Checks the verdict where the bytes come one by one, and in two pieces, wherever they are cut.
fn judges_pieces(rt: &(impl Abort + AllocGlobal), words: &str, want: &str) -> Result<(), Fail> {
    let log = log_of(rt.alloc(), words)?;
    let bytes = log.as_str().as_bytes();
    judges_single_bytes(rt, bytes, want)?;
    for place in 1..bytes.len() {
        judges_cut_at(rt, bytes, place, want)?;
    }
    Ok(())
}

/// A log, and one with restarts, come byte by byte and in two pieces.
#[test]
fn judges_any_pieces(rt: HostRuntime) -> Result<(), Fail> {
    judges_pieces(&rt, STORED, "legal entries 4 transactions 1")?;
    judges_pieces(&rt, RESTARTED, "legal entries 2 transactions 1")
}

/// Logs that are read whole.
const READ: &[Row] = &[
    (STORED, "legal entries 4 transactions 1"),
    (
        "R 0 INVITE 1; S 0 INVITE 1 486; R 480 INVITE 1; S 490,540 INVITE 1 486",
        "legal entries 5 transactions 1",
    ),
    (
        "S 0 INVITE 1; R 50 INVITE 1 180; S 100 CANCEL 1",
        "legal entries 3 transactions 2",
    ),
    (RESTARTED, "legal entries 2 transactions 1"),
];

/// Checks the verdict where the bytes come one by one, and the source would fail at a call after the last one that the judge makes.
fn judges_before_a_read_fails(
    rt: &(impl Abort + AllocGlobal),
    bytes: &[u8],
    calls: usize,
    want: &str,
) -> Result<(), Fail> {
    let text = verdict_failing(rt.alloc(), bytes, 1, calls)?;
    reads(rt, text.as_str(), want, "before a read fails");
    Ok(())
}

/// Checks that the answer says that a read failed, where the source fails after this many calls.
fn fails_to_read(rt: &impl Abort, answer: &Result<String, JudgeError>, calls: usize) {
    let has_failed = matches!(answer, Err(JudgeError::Io));
    holds_at(rt, has_failed, ("calls:", calls));
}

/// Checks that the answer says that a read failed wherever the source fails, and is the verdict where no call fails.
fn judges_until_a_read_fails(
    rt: &(impl Abort + AllocGlobal),
    bytes: &[u8],
    want: &str,
) -> Result<(), Fail> {
    // The call after those for the single bytes finds the end of the log.
    for calls in 0..=bytes.len() {
        let answer = verdict_failing(rt.alloc(), bytes, 1, calls);
        fails_to_read(rt, &answer, calls);
    }
    // A source that told its end is not asked again.
    judges_before_a_read_fails(rt, bytes, bytes.len().saturating_add(1), want)
}

/// The source fails at each of its calls in turn.
#[test]
fn answers_io_where_a_read_fails(rt: HostRuntime) -> Result<(), Fail> {
    for &(words, want) in READ {
        let log = log_of(rt.alloc(), words)?;
        judges_until_a_read_fails(&rt, log.as_str().as_bytes(), want)?;
    }
    Ok(())
}

/// The verdict comes at the first entry in trouble, and nothing after it is read: the source does not fail.
#[test]
fn reads_nothing_after_a_breach(rt: HostRuntime) -> Result<(), Fail> {
    let log = log_of(rt.alloc(), "S 0,449 INVITE 1")?;
    let bytes = log.as_str().as_bytes();
    judges_before_a_read_fails(&rt, bytes, bytes.len(), "breach 2 transaction 1")?;
    let faulty = header(rt.alloc(), "tolerance 10001")?;
    judges_single_bytes(&rt, faulty.as_str().as_bytes(), "log fault 0 20 Header")
}

/// Checks that a listing answers a failed read, where the bytes come one by one and the source fails after this many calls.
fn answers_io(rt: &(impl Abort + AllocGlobal), bytes: &[u8], calls: usize, entry: u64) {
    let answer = listing_failing(rt.alloc(), bytes, (1, calls), entry);
    fails_to_read(rt, &answer, calls);
}

/// Checks a listing where the bytes come one by one, and the source would fail at a call after the last one that the listing makes.
fn lists_before_a_read_fails(
    rt: &(impl Abort + AllocGlobal),
    bytes: &[u8],
    calls: usize,
    entry: u64,
    want: &str,
) -> Result<(), Fail> {
    let text = listing_failing(rt.alloc(), bytes, (1, calls), entry)?;
    reads(rt, text.as_str(), want, "before a read fails");
    Ok(())
}

/// Checks what is listed of the last entry and of the one after it, wherever the source fails.
fn lists_until_a_read_fails(
    rt: &(impl Abort + AllocGlobal),
    bytes: &[u8],
    entry: u64,
    want: &str,
) -> Result<(), Fail> {
    for calls in 0..bytes.len() {
        answers_io(rt, bytes, calls, entry);
    }
    // Nothing after the listed entry is read, not even the end of the log.
    lists_before_a_read_fails(rt, bytes, bytes.len(), entry, want)?;
    let next = entry.saturating_add(1);
    // Only the end of the log tells that there is no further entry.
    answers_io(rt, bytes, bytes.len(), next);
    let calls = bytes.len().saturating_add(1);
    lists_before_a_read_fails(rt, bytes, calls, next, "no entry")
}

/// Logs, the number of the last entry of each, and what is listed of it.
const LISTED: &[Listed] = &[
    (STORED, 4, "no transaction\n"),
    (
        "R 0 INVITE 1; S 0 INVITE 1 486; R 480 INVITE 1; S 490,540 INVITE 1 486",
        5,
        "transaction 1 server INVITE states 1\n  completed reliable=no final=2 set=0 repeat=540 interval=1000\n",
    ),
    (
        "S 0 INVITE 1; R 50 INVITE 1 180; S 100 CANCEL 1",
        3,
        "transaction 2 client CANCEL states 1\n  trying reliable=no request=3 start=100 set=100 interval=500\n\
        transaction 1 client INVITE states 1\n  proceeding reliable=no request=1 cancel=100\n",
    ),
];

/// The source fails at each of its calls in turn. The listing stands once the entry was read.
#[test]
fn lists_until_any_read_fails(rt: HostRuntime) -> Result<(), Fail> {
    for &(words, entry, want) in LISTED {
        let log = log_of(rt.alloc(), words)?;
        lists_until_a_read_fails(&rt, log.as_str().as_bytes(), entry, want)?;
    }
    Ok(())
}

/// A listing of an entry after the last one reads the end of the log, and answers a failed read where that call fails.
#[test]
fn answers_io_after_the_last_entry(rt: HostRuntime) -> Result<(), Fail> {
    let log = log_of(rt.alloc(), STORED)?;
    let bytes = log.as_str().as_bytes();
    for calls in 0..=bytes.len() {
        answers_io(&rt, bytes, calls, 5);
    }
    Ok(())
}

/// The source of a long log, which hands out 4,096 bytes at a call, fails after each number of calls, up to the last call that the judge makes: each time
/// the answer is that it failed.
#[test]
fn answers_io_in_a_long_log(rt: HostRuntime) -> Result<(), Fail> {
    let log = long_log(rt.alloc())?;
    let bytes = log.as_str().as_bytes();
    // The log has this many full pieces: a source that fails after so many calls or fewer is not read to its end.
    let fewest = bytes.len() / 4_096;
    // The log needs far fewer calls than a thousand.
    for calls in 0..1_000 {
        let answer = verdict_failing(rt.alloc(), bytes, 4_096, calls);
        if answer.is_ok() {
            holds_at(&rt, calls > fewest, ("calls:", calls));
            return Ok(());
        }
        fails_to_read(&rt, &answer, calls);
    }
    Err("never read".into())
}

/// The source, which hands out 4,096 bytes at a call, fails after each number of calls, up to the last one, while a long log is listed up to entry 5 and
/// while it is shown.
#[test]
fn lists_and_shows_until_a_read_fails(rt: HostRuntime) -> Result<(), Fail> {
    let log = long_log(rt.alloc())?;
    let bytes = log.as_str().as_bytes();
    let fewest = bytes.len() / 4_096;
    for calls in 0..1_000 {
        let answer = listing_failing(rt.alloc(), bytes, (4_096, calls), 5);
        if answer.is_ok() {
            holds_at(&rt, calls > fewest, ("calls:", calls));
            return Ok(());
        }
        fails_to_read(&rt, &answer, calls);
        let shown = shown_failing_in(rt.alloc(), bytes, 4_096, calls);
        holds_at(&rt, shown == Err(ShowError::Read), ("shown, calls:", calls));
    }
    Err("never read".into())
}
