//! Rows of format 2: its restarts and its two tolerances, and the rules in both formats.
use crate::devices::{Pieces, Room};
use crate::tests::{HEADER, Row, first_other, read, read_cut};
use crate::wants::{is, is_in};
use sip_log::{
    FromRead, LogError, LogReader, Sink, ToWrite, WriteError, read_entries, write_entry,
    write_header, write_header_2,
};
use sip_times::{Action, Params, Rules};
use std::alloc::{AllocError, Global};
use std::process::Abort;
use std::test::Fail;

/// A header of format 2, whose two tolerances differ.
const HEADER_2: &[u8] = b"sip-trace 2\nt1 500 t2 4000 t4 5000 early 50 late 60\n";

/// The times and the rules that a header tells: T1, T2, T4, early, late and the rules.
type Told = (u64, u64, u64, u64, u64, Rules);

/// What the header of the log tells, or `None` where the log has no header or a fault after it.
fn told(alloc: Global, bytes: &[u8]) -> Option<Told> {
    let mut reader = LogReader::new(alloc, Pieces::single(bytes));
    let _entry = reader.next().ok()?;
    let params = reader.params()?;
    Some((
        params.t1(),
        params.t2(),
        params.t4(),
        params.early(),
        params.late(),
        params.rules(),
    ))
}

/// Entries of a log of format 2, with restarts among them.
static RESTARTS: &[Row] = &[
    (b"", 0, None),
    // Restarts alone, and among other entries, up to the last moment.
    (b"Z 100\n", 1, None),
    (b"S 0 5\nhello\nZ 100\nM 5000\n", 3, None),
    (b"Z 9999999999999\nZ 9999999999999\n", 2, None),
    // A restart has the faults that a mark has.
    (b"Z 10000000000000\n", 0, Some(LogError::Limit)),
    (b"M 5\nZ 4\n", 1, Some(LogError::Order)),
    (b"Z 0", 0, Some(LogError::Truncated)),
    (b"z 0\n", 0, Some(LogError::EntryLine)),
];

/// Restarts after a header of format 2.
#[test]
fn restarts_in_any_pieces(rt: HostRuntime) -> Result<(), Fail> {
    is(&rt, first_other(rt.alloc(), HEADER_2, RESTARTS)?, None);
    Ok(())
}

/// Entries that begin like a restart and are none.
static NO_RESTARTS: &[Row] = &[
    // A restart has no message, and its moment is a number behind one blank.
    (b"Z 0 5\nhello\n", 0, Some(LogError::EntryLine)),
    (b"Z 00\n", 0, Some(LogError::EntryLine)),
    (b"Z  0\n", 0, Some(LogError::EntryLine)),
    (b"Z\n", 0, Some(LogError::EntryLine)),
];

/// Lines that are almost a restart, after a header of format 2.
#[test]
fn lines_that_are_no_restart_in_any_pieces(rt: HostRuntime) -> Result<(), Fail> {
    is(&rt, first_other(rt.alloc(), HEADER_2, NO_RESTARTS)?, None);
    Ok(())
}

/// What is a restart or a line of rules in format 2 is none in format 1.
static RESTARTS_IN_FORMAT_1: &[Row] = &[
    (b"Z 100\n", 0, Some(LogError::EntryLine)),
    (b"M 1\nZ 100\n", 1, Some(LogError::EntryLine)),
    (b"rules 3261\nZ 100\n", 0, Some(LogError::EntryLine)),
];

/// In format 1 the line of a restart is no line of an entry.
#[test]
fn format_1_has_no_restarts(rt: HostRuntime) -> Result<(), Fail> {
    is(
        &rt,
        first_other(rt.alloc(), HEADER, RESTARTS_IN_FORMAT_1)?,
        None,
    );
    Ok(())
}

/// Rows of the line of rules, which say the same after a header of either format.
static RULES: &[Row] = &[
    // Either rules may be told, with entries after them or none.
    (b"rules 3261\n", 0, None),
    (b"rules 6026\n", 0, None),
    (b"rules 3261\nM 0\n", 1, None),
    (b"rules 6026\nM 0\n", 1, None),
    // Other rules, a line that is cut, another end of a line, a blank at the end, and rules that are told twice or after an entry.
    (b"rules 9999\n", 0, Some(LogError::EntryLine)),
    (b"rules 3261", 0, Some(LogError::Truncated)),
    (b"rules 3261\r\n", 0, Some(LogError::EntryLine)),
    (b"rules 3261 \n", 0, Some(LogError::EntryLine)),
    (b"rules 3261\nrules 3261\n", 0, Some(LogError::EntryLine)),
    (b"M 0\nrules 6026\n", 1, Some(LogError::EntryLine)),
    (b"r", 0, Some(LogError::Truncated)),
];

/// Lines of rules, after a header of each format.
#[test]
fn rules_in_any_pieces(rt: HostRuntime) -> Result<(), Fail> {
    is(&rt, first_other(rt.alloc(), HEADER, RULES)?, None);
    is(&rt, first_other(rt.alloc(), HEADER_2, RULES)?, None);
    Ok(())
}

/// Headers of format 2, and what is wrong in them.
static HEADERS_OF_FORMAT_2: &[Row] = &[
    // The greatest and the least numbers are within the limits.
    (
        b"sip-trace 2\nt1 10000 t2 60000 t4 60000 early 10000 late 10000\n",
        0,
        None,
    ),
    (b"sip-trace 2\nt1 1 t2 1 t4 1 early 0 late 0\n", 0, None),
    // The tolerances of the other format, one that is missing, or both in the other order.
    (
        b"sip-trace 2\nt1 500 t2 4000 t4 5000 tolerance 50\n",
        0,
        Some(LogError::Header),
    ),
    (
        b"sip-trace 1\nt1 500 t2 4000 t4 5000 early 50 late 50\n",
        0,
        Some(LogError::Header),
    ),
    (
        b"sip-trace 2\nt1 500 t2 4000 t4 5000 early 50\n",
        0,
        Some(LogError::Header),
    ),
    (
        b"sip-trace 2\nt1 500 t2 4000 t4 5000 late 50 early 50\n",
        0,
        Some(LogError::Header),
    ),
    // A tolerance outside its limits, a format that there is not, and a line that does not end.
    (
        b"sip-trace 2\nt1 500 t2 4000 t4 5000 early 10001 late 0\n",
        0,
        Some(LogError::Header),
    ),
    (
        b"sip-trace 2\nt1 500 t2 4000 t4 5000 early 0 late 10001\n",
        0,
        Some(LogError::Header),
    ),
    (
        b"sip-trace 3\nt1 500 t2 4000 t4 5000 early 50 late 50\n",
        0,
        Some(LogError::Header),
    ),
    (
        b"sip-trace 2\nt1 500 t2 4000 t4 5000 early 50 late 60",
        0,
        Some(LogError::Header),
    ),
];

/// Headers of format 2, right ones and wrong ones.
#[test]
fn headers_of_format_2_in_any_pieces(rt: HostRuntime) -> Result<(), Fail> {
    is(
        &rt,
        first_other(rt.alloc(), b"", HEADERS_OF_FORMAT_2)?,
        None,
    );
    Ok(())
}

/// A header tells the times and the rules of its element.
#[test]
fn what_a_header_tells(rt: HostRuntime) -> Result<(), Fail> {
    let rows: [(&[u8], Told); 6] = [
        (HEADER, (500, 4_000, 5_000, 50, 50, Rules::R6026)),
        (HEADER_2, (500, 4_000, 5_000, 50, 60, Rules::R6026)),
        (
            b"sip-trace 1\nt1 1 t2 2 t4 3 tolerance 4\nrules 3261\n",
            (1, 2, 3, 4, 4, Rules::R3261),
        ),
        (
            b"sip-trace 1\nt1 1 t2 2 t4 3 tolerance 4\nrules 6026\nM 0\n",
            (1, 2, 3, 4, 4, Rules::R6026),
        ),
        (
            b"sip-trace 2\nt1 1 t2 2 t4 3 early 0 late 100\nrules 3261\nZ 0\n",
            (1, 2, 3, 0, 100, Rules::R3261),
        ),
        (
            b"sip-trace 2\nt1 1 t2 2 t4 3 early 100 late 0\nrules 6026\n",
            (1, 2, 3, 100, 0, Rules::R6026),
        ),
    ];
    for (bytes, want) in rows {
        is(&rt, told(rt.alloc(), bytes), Some(want));
    }
    Ok(())
}

/// A restart that is read has its moment, and no message.
#[test]
fn what_a_restart_tells(rt: HostRuntime) -> Result<(), Fail> {
    let mut bytes = Vec::from_slice(rt.alloc(), HEADER_2)?;
    bytes.extend_from_slice(b"M 7\nZ 100\n")?;
    let entries = read_entries(rt.alloc(), &mut FromRead::new(bytes.as_slice()));
    let entries = entries.ok().ok_or("not read")?;
    let entry = entries.get(1).ok_or("no entry")?;
    is(&rt, (entry.number, entry.moment), (2, 100));
    is(&rt, entry.action, Action::Restart);
    assert!(rt; entry.bytes.is_empty());
    Ok(())
}

/// Writes a header of format 2 and three entries after it.
fn write<W: Sink>(writer: &mut W, params: &Params) -> Result<(), WriteError> {
    write_header_2(writer, params)?;
    write_entry(writer, Action::Sent, 0, b"hello")?;
    write_entry(writer, Action::Restart, 7, b"plays no part")?;
    write_entry(writer, Action::Mark, 9, b"")
}

/// The log that is written.
const WRITTEN: &[u8] =
    b"sip-trace 2\nt1 500 t2 4000 t4 5000 early 0 late 100\nrules 3261\nS 0 5\nhello\nZ 7\nM 9\n";

/// The times of the tests with these tolerances and rules.
fn times(early: u64, late: u64, rules: Rules) -> Option<Params> {
    Some(Params::with_tolerances(500, 4_000, 5_000, early, late)?.with_rules(rules))
}

/// The bytes that `write` writes in format 2.
fn written(rt: &(impl Abort + AllocGlobal), params: &Params) -> Vec<u8> {
    let mut text = Vec::new(rt.alloc());
    let mut sink = ToWrite::new(&mut text);
    is(rt, write(&mut sink, params), Ok(()));
    text
}

/// A written log of format 2 has these bytes, and is read again.
#[test]
fn what_is_written_in_format_2(rt: HostRuntime) -> Result<(), Fail> {
    let params = times(0, 100, Rules::R3261).ok_or("refused")?;
    let text = written(&rt, &params);
    assert!(rt; text.as_slice() == WRITTEN);
    is(&rt, read_cut(rt.alloc(), WRITTEN), Some((3, None)));
    Ok(())
}

/// The bytes of a header alone, in format 1 or 2, or `None` where it is not written.
fn header_of(alloc: Global, format: u8, params: &Params) -> Result<Option<Vec<u8>>, AllocError> {
    let mut text = Vec::new(alloc);
    let mut sink = ToWrite::new(&mut text);
    let written = if format == 1 {
        write_header(&mut sink, params)
    } else {
        write_header_2(&mut sink, params)
    };
    match written {
        Ok(()) => Ok(Some(text)),
        Err(WriteError::Io) => Err(AllocError),
        Err(WriteError::Limit) => Ok(None),
    }
}

/// The line of rules is written for RFC 3261 alone. In format 1 a header with two tolerances is not written.
#[test]
fn headers_that_are_written(rt: HostRuntime) -> Result<(), Fail> {
    let rows: [(u8, u64, u64, Rules, Option<&[u8]>); 6] = [
        // Each row has a format, how early and how late the element may be, its rules, and the header, if one is written.
        (1, 50, 50, Rules::R6026, Some(HEADER)),
        (
            1,
            50,
            50,
            Rules::R3261,
            Some(b"sip-trace 1\nt1 500 t2 4000 t4 5000 tolerance 50\nrules 3261\n"),
        ),
        (1, 50, 60, Rules::R6026, None),
        (1, 60, 50, Rules::R3261, None),
        (2, 50, 60, Rules::R6026, Some(HEADER_2)),
        (
            2,
            50,
            50,
            Rules::R3261,
            Some(b"sip-trace 2\nt1 500 t2 4000 t4 5000 early 50 late 50\nrules 3261\n"),
        ),
    ];
    for (format, early, late, rules, want) in rows {
        let params = times(early, late, rules).ok_or("refused")?;
        let text = header_of(rt.alloc(), format, &params)?;
        let text = text.as_ref().map(|text| text.as_slice());
        assert!(rt; text == want, "{format} {early} {late} {rules:?}");
    }
    Ok(())
}

/// Nothing is written of a header of format 1 with two tolerances, nor of a restart with a moment above the last one.
#[test]
fn what_is_not_written(rt: HostRuntime) -> Result<(), Fail> {
    let params = times(50, 51, Rules::R6026).ok_or("refused")?;
    let mut room = Room::of(1_000);
    is(
        &rt,
        write_header(&mut room, &params),
        Err(WriteError::Limit),
    );
    is(
        &rt,
        write_entry(&mut room, Action::Restart, 10_000_000_000_000, b""),
        Err(WriteError::Limit),
    );
    // The sink got nothing. A restart at the last moment is written, whatever bytes come with it.
    is(&rt, room.taken(), 0);
    is(
        &rt,
        write_entry(&mut room, Action::Restart, 9_999_999_999_999, b"x"),
        Ok(()),
    );
    Ok(())
}

/// A source fails at each of its calls in turn. The entries before are told, then `Io`, and then `Failed`.
#[test]
fn a_source_that_fails(rt: HostRuntime) -> Result<(), Fail> {
    // Each call hands out one byte, and the last call finds the end. The entries end with the bytes 75, 79 and 83.
    for calls in 0..=WRITTEN.len() {
        let whole = match calls {
            0..=74 => 0,
            75..=78 => 1,
            79..=82 => 2,
            _ => 3,
        };
        is_in(
            &rt,
            read(rt.alloc(), Pieces::failing(WRITTEN, calls)),
            Some((whole, Some(LogError::Io))),
            &calls,
        );
    }
    is(
        &rt,
        read(rt.alloc(), Pieces::failing(WRITTEN, WRITTEN.len() + 1)),
        Some((3, None)),
    );
    Ok(())
}

/// A sink fails at each of its calls in turn, which a write tells.
#[test]
fn a_sink_that_fails(rt: HostRuntime) -> Result<(), Fail> {
    let params = times(0, 100, Rules::R3261).ok_or("refused")?;
    let mut room = Room::of(1_000);
    is(&rt, write(&mut room, &params), Ok(()));
    for calls in 0..room.taken() {
        let mut room = Room::of(calls);
        is_in(&rt, write(&mut room, &params), Err(WriteError::Io), &calls);
        assert!(rt; room.has_failed());
    }
    Ok(())
}

/// Whichever growth is refused, the log is read to its end, or want of memory is told.
#[test]
fn reads_or_tells_want_of_memory(rt: HostRuntime) {
    let answer = read(rt.alloc(), FromRead::new(WRITTEN));
    assert!(rt; matches!(answer, Some((3, None)) | Some((_, Some(LogError::Memory)))));
}
