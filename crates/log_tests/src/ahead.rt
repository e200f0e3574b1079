//! The entry that stands whole at the front of what was read, and the place after it.
use crate::tests::HEADER;
use crate::wants::{is, is_in};
use sip_log::{LogError, Progress};
use sip_times::Action;
use std::process::Abort;
use std::test::Fail;

/// What is lent of an entry: its number, its moment, its action, its message, and the bytes that it takes.
type Lent<'a> = (u64, u64, Action, &'a [u8], usize);

/// What is lent of the entry that comes next.
fn lent(progress: &Progress) -> Option<Lent<'_>> {
    match progress.ahead() {
        Some(it) => Some((it.number, it.moment, it.action, it.message, it.size)),
        None => None,
    }
}

/// Bytes after a header, and the entry that stands whole at their front, where one with a message does.
static ROWS: &[(&[u8], Option<Lent<'static>>)] = &[
    // Nothing stands there, and then an entry of each action that has a message, with one byte, with another entry after it, or at the last moment.
    (b"", None),
    (
        b"S 7 5\nhello\nM 9\n",
        Some((1, 7, Action::Sent, b"hello", 12)),
    ),
    (b"R 0 1\n\n\n", Some((1, 0, Action::Received, b"\n", 8))),
    (b"F 10 2\nhi\n", Some((1, 10, Action::Failed, b"hi", 10))),
    (
        b"S 9999999999999 1\na\n",
        Some((1, 9_999_999_999_999, Action::Sent, b"a", 20)),
    ),
    // A mark comes first. Then the entry is not whole: its last LF, a byte of its message, or the end of its line is lacking.
    (b"M 0\nS 7 5\nhello\n", None),
    (b"S 7 5\nhello", None),
    (b"S 7 5\nhell", None),
    (b"S 7 5", None),
    // No LF stands after the message, the length is 0, the moment is above the last one, and a restart has no message.
    (b"S 7 5\nhelloX", None),
    (b"S 7 0\n\n", None),
    (b"S 10000000000000 1\na\n", None),
    (b"Z 7\n", None),
];

/// An entry is lent where it has a message and stands whole.
#[test]
fn lends_what_stands_whole(rt: HostRuntime) -> Result<(), Fail> {
    is(&rt, lent(&Progress::new(rt.alloc())), None);
    for (index, (row, want)) in ROWS.iter().enumerate() {
        let mut log = Vec::from_slice(rt.alloc(), HEADER)?;
        log.extend_from_slice(row)?;
        let mut bytes: &[u8] = &log;
        let (_, progress) = Progress::open(rt.alloc(), &mut bytes)?;
        is_in(&rt, lent(&progress), *want, &index);
    }
    Ok(())
}

/// Goes past the entry that comes next, if it is lent. The answer is its number.
fn pass(progress: &mut Progress) -> Option<u64> {
    let (number, moment, size) = match progress.ahead() {
        Some(it) => (it.number, it.moment, it.size),
        None => return None,
    };
    progress.pass(moment, size);
    Some(number)
}

/// After an entry that was passed over, the log is read on as after one that was read.
#[test]
fn reads_on_after_what_was_passed(rt: HostRuntime) -> Result<(), Fail> {
    let mut bytes: &[u8] =
        b"sip-trace 1\nt1 500 t2 4000 t4 5000 tolerance 50\nS 7 5\nhello\nM 9\nR 9 2\nhi\nS 8 1\nx\n";
    let (_, mut progress) = Progress::open(rt.alloc(), &mut bytes)?;
    is(&rt, pass(&mut progress), Some(1));
    // The mark has no message, so that it is read and not lent. The fourth entry has an earlier moment than the third, which is a fault of order.
    is(&rt, pass(&mut progress), None);
    let mark = progress.next(&mut bytes).ok().flatten().ok_or("no mark")?;
    is(
        &rt,
        (mark.number, mark.moment, mark.action),
        (2, 9, Action::Mark),
    );
    is(&rt, pass(&mut progress), Some(3));
    is(&rt, pass(&mut progress), None);
    assert!(rt; matches!(progress.next(&mut bytes), Err(LogError::Order)));
    is(&rt, lent(&progress), None);
    Ok(())
}
