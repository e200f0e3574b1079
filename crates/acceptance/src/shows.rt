//! What `show` answers, sources and sinks that fail while it writes, and memory that it is refused. Logs are spelled in the words of `notation.rt`: `S`
//! sent, `R` received, `M` a mark, each with its moments; then a method, a branch without the cookie, and the code where it is a response.
use crate::logs::{STORED, UNFOLDED, folded_log};
use crate::notation::log_of;
use crate::room::Room;
use crate::shown::{shown, shown_failing, shown_in, written};
use crate::wants::{holds, holds_at};
use sip_verdict::{ShowError, Shown};
use std::alloc::Global;
use std::process::Abort;
use std::test::Fail;

/// Checks what `show` writes of a log, and its answer.
fn shows(
    rt: &(impl Abort + AllocGlobal),
    log: &[u8],
    want: &[u8],
    told: Shown,
) -> Result<(), Fail> {
    let (text, answer) = shown(rt.alloc(), log)?;
    holds(rt, text.as_slice() == want, "the text");
    holds(rt, answer == told, "the answer");
    Ok(())
}

/// Checks that `show` answers a failed read, wherever the source fails as it hands out single bytes.
fn fails_to_read(rt: &(impl Abort + AllocGlobal), bytes: &[u8]) {
    for calls in 0..=bytes.len() {
        let answer = shown_failing(rt.alloc(), bytes, calls);
        holds_at(rt, answer == Err(ShowError::Read), ("reads:", calls));
    }
}

/// Checks that `show` answers a failed write, wherever the sink fails among this many calls.
fn fails_to_write(rt: &(impl Abort + AllocGlobal), bytes: &[u8], calls: usize) {
    for calls in 0..calls {
        let answer = shown_in(rt.alloc(), bytes, &mut Room::of(calls));
        holds_at(rt, answer == Err(ShowError::Write), ("writes:", calls));
    }
}

/// `show` tells whether the source or the sink failed, whichever call fails.
#[test]
fn tells_the_side_that_failed(rt: HostRuntime) -> Result<(), Fail> {
    let log = log_of(rt.alloc(), STORED)?;
    let bytes = log.as_str().as_bytes();
    fails_to_read(&rt, bytes);
    let mut room = Room::of(1_000);
    let answer = shown_in(rt.alloc(), bytes, &mut room)?;
    holds(&rt, answer == Shown::End { entries: 4 }, STORED);
    fails_to_write(&rt, bytes, room.taken());
    Ok(())
}

/// Checks that `show` writes the whole text of a log with this many entries; or wants memory after a front of it, and writes the whole text when asked again.
fn shows_or_wants_memory(
    rt: &(impl Abort + AllocGlobal),
    bytes: &[u8],
    want: &[u8],
    entries: u64,
) -> Result<(), Fail> {
    let whole = Shown::End { entries };
    // The text has room for all that is written, so that writing takes no memory.
    let mut text = Vec::with_capacity(rt.alloc(), 2_000)?;
    let answer = written(rt.alloc(), bytes, &mut text);
    holds(rt, want.starts_with(&text), "a front");
    match answer {
        Ok(told) => {
            holds(rt, text.len() == want.len() && told == whole, "at once");
            Ok(())
        }
        Err(error) => {
            holds(rt, error == ShowError::Memory, "want of memory");
            shows(rt, bytes, want, whole)?;
            Err(error.into())
        }
    }
}

/// Appends an entry of a log, which stands from one place to another, after the digit of its number.
fn push_numbered(
    text: &mut Vec<u8>,
    log: &[u8],
    digit: u8,
    (first, end): (usize, usize),
) -> Result<(), Fail> {
    let Some(entry) = log.get(first..end) else {
        return Err("a short log".into());
    };
    text.push(digit)?;
    text.push(b' ')?;
    text.extend_from_slice(entry)?;
    Ok(())
}

/// The entries of a log, each after its number, which end at these places. So they are shown where each message has the canonical form already.
fn numbered(alloc: Global, log: &[u8], ends: &[usize]) -> Result<Vec<u8>, Fail> {
    let mut text = Vec::new(alloc);
    // The header of the log has 48 bytes, and each entry begins where the one before it ends.
    let mut first = 48;
    for (digit, end) in b"123456789".iter().zip(ends) {
        push_numbered(&mut text, log, *digit, (first, *end))?;
        first = *end;
    }
    Ok(text)
}

/// `tests/growths` refuses each growth within `show` in turn: the answer is then want of memory, and what was written until then
/// is a front of what is written with memory.
#[test]
fn shows_again_after_a_refused_growth(rt: HostRuntime) -> Result<(), Fail> {
    let log = folded_log(rt.alloc())?;
    let want = ["1 S 0 202\n", UNFOLDED, "\n2 M 5\nend 2\n"].concat(rt.alloc())?;
    shows_or_wants_memory(&rt, log.as_str().as_bytes(), want.as_str().as_bytes(), 2)
}

/// `tests/growths` refuses each growth while the log of a REGISTER that is sent again and answered is shown.
#[test]
fn shows_the_stored_run_after_a_refused_growth(rt: HostRuntime) -> Result<(), Fail> {
    let log = log_of(rt.alloc(), STORED)?;
    let bytes = log.as_str().as_bytes();
    let mut want = numbered(rt.alloc(), bytes, &[256, 466, 667, 674])?;
    want.extend_from_slice(b"end 4\n")?;
    shows_or_wants_memory(&rt, bytes, want.as_slice(), 4)
}

/// `tests/growths` refuses each growth while the log of a server that repeats its 486 is shown.
#[test]
fn shows_a_repeat_after_a_refused_growth(rt: HostRuntime) -> Result<(), Fail> {
    let log = log_of(
        rt.alloc(),
        "R 0 INVITE i1; S 0 INVITE i1 486; R 480 INVITE i1; S 490,540 INVITE i1 486",
    )?;
    let bytes = log.as_str().as_bytes();
    let mut want = numbered(rt.alloc(), bytes, &[252, 449, 655, 854, 1_053])?;
    want.extend_from_slice(b"end 5\n")?;
    shows_or_wants_memory(&rt, bytes, want.as_slice(), 5)
}

/// `tests/growths` refuses each growth while the log of a call that is cancelled is shown.
#[test]
fn shows_a_cancel_after_a_refused_growth(rt: HostRuntime) -> Result<(), Fail> {
    let log = log_of(
        rt.alloc(),
        "S 0 INVITE i1; R 50 INVITE i1 180; S 100 CANCEL i1",
    )?;
    let bytes = log.as_str().as_bytes();
    let mut want = numbered(rt.alloc(), bytes, &[252, 450, 656])?;
    want.extend_from_slice(b"end 3\n")?;
    shows_or_wants_memory(&rt, bytes, want.as_slice(), 3)
}
