//! Rows of the format, read in pieces of any size and written again.
use crate::devices::{Pieces, Room};
use crate::wants::{is, is_in};
use sip_log::{
    Broken, Entry, FromRead, LogError, LogReader, Progress, Sink, Source, ToWrite, WriteError,
    read_entries, write_entry, write_header,
};
use sip_times::{Action, Params, Rules};
use std::alloc::{AllocError, Global};
use std::process::Abort;
use std::test::Fail;

/// The header of most logs of these tests.
pub(crate) const HEADER: &[u8] = b"sip-trace 1\nt1 500 t2 4000 t4 5000 tolerance 50\n";

/// More calls than any log of these tests needs to be read to its end.
const CALLS: usize = 64;

/// Reads the log to its end. The answer is how many entries it has and why there are no more, or `None` where a further call differs.
pub(crate) fn read<R: Source + Drop>(alloc: Global, source: R) -> Option<(u64, Option<LogError>)> {
    let mut reader = LogReader::new(alloc, source);
    let mut count = 0;
    for _ in 0..CALLS {
        match reader.next() {
            Ok(Some(entry)) => count = entry.number,
            Ok(None) => {
                return match reader.next() {
                    Ok(None) => Some((count, None)),
                    _ => None,
                };
            }
            Err(error) => {
                return match reader.next() {
                    Err(LogError::Failed) => Some((count, Some(error))),
                    _ => None,
                };
            }
        }
    }
    None
}

/// Reads the bytes whole, one by one, and in two pieces cut at each place. The answer is `None` where the readings differ.
pub(crate) fn read_cut(alloc: Global, bytes: &[u8]) -> Option<(u64, Option<LogError>)> {
    let whole = read(alloc, FromRead::new(bytes))?;
    if read(alloc, Pieces::single(bytes)) != Some(whole) {
        return None;
    }
    for place in 0..=bytes.len() {
        if read(alloc, Pieces::cut_at(bytes, place)) != Some(whole) {
            return None;
        }
    }
    Some(whole)
}

/// A row: the bytes of a log, how many entries they have, and why there are no more.
pub(crate) type Row = (&'static [u8], u64, Option<LogError>);

/// The index of the first row that, after these bytes, is read otherwise than it says.
pub(crate) fn first_other(
    alloc: Global,
    front: &[u8],
    rows: &[Row],
) -> Result<Option<usize>, AllocError> {
    for (index, (row, count, error)) in rows.iter().enumerate() {
        let mut bytes = Vec::from_slice(alloc, front)?;
        bytes.extend_from_slice(row)?;
        if read_cut(alloc, &bytes) != Some((*count, *error)) {
            return Ok(Some(index));
        }
    }
    Ok(None)
}

/// Entries that are read to the end of the log.
static ENTRIES: &[Row] = &[
    // No entry, entries with and without a message, messages of line feeds alone, and the last moment.
    (b"", 0, None),
    (b"S 0 5\nhello\nM 0\n", 2, None),
    (b"R 7 1\n\n\nF 7 2\n\n\n\n", 2, None),
    (b"M 9999999999999\nM 9999999999999\n", 2, None),
];

/// Entries of each action.
#[test]
fn entries_in_any_pieces(rt: HostRuntime) -> Result<(), Fail> {
    is(&rt, first_other(rt.alloc(), HEADER, ENTRIES)?, None);
    Ok(())
}

/// Lines of entries with a fault, and the error of each.
static FAULTS_OF_A_LINE: &[Row] = &[
    // A line that has no end yet is cut off. With 32 bytes it is too long to be a line.
    (
        b"1111111111111111111111111111111",
        0,
        Some(LogError::Truncated),
    ),
    (
        b"11111111111111111111111111111111",
        0,
        Some(LogError::EntryLine),
    ),
    (
        b"M 000000000000000000000000000001\n",
        0,
        Some(LogError::EntryLine),
    ),
    // A message ends in a line feed.
    (b"S 0 5\nhelloX", 0, Some(LogError::EntryLine)),
    (b"S 0 5\nhell", 0, Some(LogError::Truncated)),
];

/// Lines that begin no entry.
#[test]
fn faults_of_a_line_in_any_pieces(rt: HostRuntime) -> Result<(), Fail> {
    is(
        &rt,
        first_other(rt.alloc(), HEADER, FAULTS_OF_A_LINE)?,
        None,
    );
    Ok(())
}

/// Entries with a fault in their message or its length, and the error of each.
static FAULTS_OF_A_MESSAGE: &[Row] = &[
    // The message is cut off before its line feed.
    (b"S 0 5\nhello", 0, Some(LogError::Truncated)),
    // A message has 1 to 65535 bytes.
    (b"S 0 0\n", 0, Some(LogError::Limit)),
    (b"S 0 65536\n", 0, Some(LogError::Limit)),
    // A mark has no message.
    (b"M 0 \n", 0, Some(LogError::EntryLine)),
    (b"M 0 1\n", 0, Some(LogError::EntryLine)),
];

/// Messages that are cut off, or do not end with LF.
#[test]
fn faults_of_a_message_in_any_pieces(rt: HostRuntime) -> Result<(), Fail> {
    is(
        &rt,
        first_other(rt.alloc(), HEADER, FAULTS_OF_A_MESSAGE)?,
        None,
    );
    Ok(())
}

/// Entries with a fault in a number, in the letter or in the order, and the error of each.
static FAULTS_OF_NUMBERS: &[Row] = &[
    // A moment has at most thirteen digits.
    (b"M 10000000000000\n", 0, Some(LogError::Limit)),
    // Letters are capitals, and one blank stands between two words.
    (b"s 0 5\n", 0, Some(LogError::EntryLine)),
    (b"S 0  5\nhello\n", 0, Some(LogError::EntryLine)),
    // A number above its limit is told as that, and one with a zero in front is none.
    (b"S 10000000000000 199\n", 0, Some(LogError::Limit)),
    (b"S 99999999999999999999999 99\n", 0, Some(LogError::Limit)),
    (b"S 00 199\n", 0, Some(LogError::EntryLine)),
    // Moments never fall.
    (b"M 5\nM 4\n", 1, Some(LogError::Order)),
    (b"M 5\nS 4 9\n", 1, Some(LogError::Order)),
];

/// Numbers of an entry that are above the limits, or out of order.
#[test]
fn faults_of_numbers_in_any_pieces(rt: HostRuntime) -> Result<(), Fail> {
    is(
        &rt,
        first_other(rt.alloc(), HEADER, FAULTS_OF_NUMBERS)?,
        None,
    );
    Ok(())
}

/// Headers of format 1, and what is wrong in them.
static HEADERS: &[Row] = &[
    (HEADER, 0, None),
    (
        b"sip-trace 1\nt1 10000 t2 60000 t4 60000 tolerance 10000\n",
        0,
        None,
    ),
    // The numbers above are the greatest that are within the limits, and these are the least.
    (b"sip-trace 1\nt1 1 t2 1 t4 1 tolerance 0\n", 0, None),
    // A header without its second line, of the other format, or whose line ends otherwise.
    (b"", 0, Some(LogError::Header)),
    (b"sip-trace 1", 0, Some(LogError::Header)),
    (
        b"sip-trace 2\nt1 500 t2 4000 t4 5000 tolerance 50\n",
        0,
        Some(LogError::Header),
    ),
    (
        b"sip-trace 1\nt1 500 t2 4000 t4 5000 tolerance 50",
        0,
        Some(LogError::Header),
    ),
    (
        b"sip-trace 1\nt1 500 t2 4000 t4 5000 tolerance 50\r\n",
        0,
        Some(LogError::Header),
    ),
    // A time that is missing, has a zero in front, is outside its limits, or stands after two blanks.
    (
        b"sip-trace 1\nt1 500 t2 4000 t4 5000\n",
        0,
        Some(LogError::Header),
    ),
    (
        b"sip-trace 1\nt1 0500 t2 4000 t4 5000 tolerance 50\n",
        0,
        Some(LogError::Header),
    ),
    (
        b"sip-trace 1\nt1 0 t2 4000 t4 5000 tolerance 50\n",
        0,
        Some(LogError::Header),
    ),
    (
        b"sip-trace 1\nt1 500 t2 4000 t4 5000 tolerance 10001\n",
        0,
        Some(LogError::Header),
    ),
    (
        b"sip-trace 1\nt1 500  t2 4000 t4 5000 tolerance 50\n",
        0,
        Some(LogError::Header),
    ),
];

/// Headers of format 1, right ones and wrong ones.
#[test]
fn headers_in_any_pieces(rt: HostRuntime) -> Result<(), Fail> {
    is(&rt, first_other(rt.alloc(), b"", HEADERS)?, None);
    Ok(())
}

/// A source fails at each of its calls in turn. `Io` is told and then `Failed`, and no fault of the log, whatever was read before.
#[test]
fn a_source_that_fails(rt: HostRuntime) -> Result<(), Fail> {
    let mut bytes = Vec::from_slice(rt.alloc(), HEADER)?;
    bytes.extend_from_slice(b"S 0 5\nhello\nM 6000\n")?;
    // The last call finds the end.
    for calls in 0..=bytes.len() {
        let answer = read(rt.alloc(), Pieces::failing(&bytes, calls)).ok_or("told otherwise")?;
        is_in(&rt, answer.1, Some(LogError::Io), &calls);
    }
    is(
        &rt,
        read(rt.alloc(), Pieces::failing(&bytes, bytes.len() + 1)),
        Some((2, None)),
    );
    Ok(())
}

/// A REGISTER request. The response to it follows.
const REGISTER: &[u8] =
    b"REGISTER sip:example.com SIP/2.0\r\nVia: SIP/2.0/UDP a.example.com;branch=z9hG4bKr1\r\n\
    From: <sip:bob@example.com>;tag=1\r\nTo: <sip:bob@example.com>\r\nCall-ID: c1@a\r\nCSeq: 1 REGISTER\r\n\
    Content-Length: 0\r\n\r\n";

/// The 200 to the REGISTER.
const RESPONSE: &[u8] = b"SIP/2.0 200 Reply\r\nVia: SIP/2.0/UDP a.example.com;branch=z9hG4bKr1\r\n\
    From: <sip:bob@example.com>;tag=1\r\nTo: <sip:bob@example.com>;tag=2\r\nCall-ID: c1@a\r\nCSeq: 1 REGISTER\r\n\
    Content-Length: 0\r\n\r\n";

/// The log of a REGISTER that is sent, sent again and answered.
fn registration(alloc: Global) -> Result<Vec<u8>, AllocError> {
    let mut log = Vec::from_slice(alloc, HEADER)?;
    for part in [
        b"S 0 199\n".as_slice(),
        REGISTER,
        b"\nS 500 199\n",
        REGISTER,
        b"\nR 700 190\n",
        RESPONSE,
        b"\nM 6000\n",
    ] {
        log.extend_from_slice(part)?;
    }
    Ok(log)
}

/// The number of entries that are whole in the first `len` bytes of the log of a registration. Its header has 48 bytes, and its entries end at 256, 466,
/// 667 and 674: each has a line, and a message with an LF after it, but for the mark.
fn whole_entries(len: usize) -> u64 {
    match len {
        0..=255 => 0,
        256..=465 => 1,
        466..=666 => 2,
        667..=673 => 3,
        _ => 4,
    }
}

/// A source fails at each of its calls in turn. The entries before are told, then `Io`, and then `Failed`.
#[test]
fn a_registration_whose_source_fails(rt: HostRuntime) -> Result<(), Fail> {
    let bytes = registration(rt.alloc())?;
    is(&rt, bytes.len(), 674);
    // The last call finds the end.
    for calls in 0..=bytes.len() {
        is_in(
            &rt,
            read(rt.alloc(), Pieces::failing(&bytes, calls)),
            Some((whole_entries(calls), Some(LogError::Io))),
            &calls,
        );
    }
    is(
        &rt,
        read(rt.alloc(), Pieces::failing(&bytes, bytes.len() + 1)),
        Some((4, None)),
    );
    Ok(())
}

/// This many bytes, which are all the same.
fn all_of(alloc: Global, byte: u8, count: usize) -> Result<Vec<u8>, AllocError> {
    let mut bytes = Vec::new(alloc);
    bytes.resize(count, byte)?;
    Ok(bytes)
}

/// The log of the largest message at the last moment, and the first bytes of an entry after it.
fn largest(alloc: Global, message: &[u8]) -> Result<Vec<u8>, AllocError> {
    let mut bytes = Vec::from_slice(alloc, HEADER)?;
    bytes.extend_from_slice(b"R 9999999999999 65535\n")?;
    bytes.extend_from_slice(message)?;
    bytes.extend_from_slice(b"\nx")?;
    Ok(bytes)
}

/// Asserts that the entry has the last moment and the largest message.
fn is_largest(rt: &impl Abort, entry: &Entry, message: &[u8]) {
    is(
        rt,
        (entry.number, entry.moment, entry.action),
        (1, 9_999_999_999_999, Action::Received),
    );
    assert!(rt; entry.bytes.as_slice() == message);
}

/// Asserts that the first entry that the reader tells is the largest one.
fn tells_the_largest<R: Source>(
    rt: &impl Abort,
    reader: &mut LogReader<R>,
    message: &[u8],
) -> Result<(), Fail> {
    let entry = reader.next().ok().flatten().ok_or("no entry")?;
    is_largest(rt, &entry, message);
    Ok(())
}

/// Asserts that the reader tells the times of the header.
fn knows_the_times<R: Source>(rt: &impl Abort, reader: &LogReader<R>) -> Result<(), Fail> {
    let params = reader.params().ok_or("no times")?;
    is(rt, (params.early(), params.late()), (50, 50));
    is(rt, params.rules(), Rules::R6026);
    Ok(())
}

/// Asserts what a reader tells of the log of the largest entry, call after call.
fn reads_the_largest(
    rt: &(impl Abort + AllocGlobal),
    bytes: &[u8],
    message: &[u8],
) -> Result<(), Fail> {
    let mut reader = LogReader::new(rt.alloc(), FromRead::new(bytes));
    assert!(rt; reader.params().is_none());
    tells_the_largest(rt, &mut reader, message)?;
    assert!(rt; matches!(reader.next(), Err(LogError::Truncated)));
    knows_the_times(rt, &reader)
}

/// The largest message and the last moment can be read, and the times stay known after an error.
#[test]
fn what_an_entry_tells(rt: HostRuntime) -> Result<(), Fail> {
    let message = all_of(rt.alloc(), b'\n', 65_535)?;
    let bytes = largest(rt.alloc(), &message)?;
    reads_the_largest(&rt, &bytes, &message)
}

/// A buffer that is handed back takes the next entry: what stood in it is gone, and its room is kept.
#[test]
fn a_buffer_is_used_again(rt: HostRuntime) -> Result<(), Fail> {
    let mut left: &[u8] = WRITTEN;
    let mut progress = Progress::new(rt.alloc());
    let mut buffer = Vec::from_slice(rt.alloc(), b"longer than each of the messages")?;
    let room = buffer.capacity();
    for message in MESSAGES {
        let entry = progress
            .next_into(buffer, &mut left)
            .ok()
            .flatten()
            .ok_or("no entry")?;
        assert!(rt; entry.bytes.as_slice() == *message);
        buffer = entry.bytes;
    }
    is(&rt, buffer.capacity(), room);
    assert!(rt; matches!(progress.next_into(buffer, &mut left), Ok(None)));
    Ok(())
}

/// Writes a header and three entries after it.
fn write<W: Sink>(writer: &mut W, params: &Params) -> Result<(), WriteError> {
    write_header(writer, params)?;
    write_entry(writer, Action::Sent, 0, b"hello")?;
    write_entry(writer, Action::Failed, 7, b"\n")?;
    write_entry(writer, Action::Received, 9_999_999_999_999, b"hi")?;
    write_entry(writer, Action::Mark, 9_999_999_999_999, b"plays no part")
}

/// The bytes that `write` writes.
fn written(rt: &(impl Abort + AllocGlobal), params: &Params) -> Vec<u8> {
    let mut text = Vec::new(rt.alloc());
    let mut sink = ToWrite::new(&mut text);
    is(rt, write(&mut sink, params), Ok(()));
    text
}

/// The messages of the entries that are written.
const MESSAGES: &[&[u8]] = &[b"hello", b"\n", b"hi", b""];

/// The log that is written.
const WRITTEN: &[u8] =
    b"sip-trace 1\nt1 500 t2 4000 t4 5000 tolerance 50\nS 0 5\nhello\nF 7 1\n\n\nR 9999999999999 2\nhi\nM 9999999999999\n";

/// A written log of format 1 has these bytes, and is read again.
#[test]
fn what_is_written(rt: HostRuntime) -> Result<(), Fail> {
    let params = Params::new(500, 4_000, 5_000, 50).ok_or("refused")?;
    let text = written(&rt, &params);
    assert!(rt; text.as_slice() == WRITTEN);
    is(&rt, read_cut(rt.alloc(), WRITTEN), Some((4, None)));
    // `read_entries` gives the four entries at once.
    let entries = read_entries(rt.alloc(), &mut FromRead::new(WRITTEN));
    is(&rt, entries.ok().map(|entries| entries.len()), Some(4));
    Ok(())
}

/// Whichever growth is refused, the log is read to its end, or want of memory is told.
#[test]
fn reads_or_tells_want_of_memory(rt: HostRuntime) {
    let answer = read(rt.alloc(), FromRead::new(WRITTEN));
    assert!(rt; matches!(answer, Some((4, None)) | Some((_, Some(LogError::Memory)))));
}

/// A row: the action of an entry, its moment, how many bytes its message has, each an x, and what writing it answers.
type Written = (Action, u64, usize, Result<(), WriteError>);

/// Entries that cannot be written, and two that can.
static NOT_WRITTEN: &[Written] = &[
    // A message has 1 to 65535 bytes, and a moment at most thirteen digits.
    (Action::Sent, 0, 0, Err(WriteError::Limit)),
    (Action::Received, 0, 65_536, Err(WriteError::Limit)),
    (
        Action::Failed,
        10_000_000_000_000,
        1,
        Err(WriteError::Limit),
    ),
    (Action::Mark, 10_000_000_000_000, 0, Err(WriteError::Limit)),
    // These can be written: the message of a mark is left out, however long it is, and 65535 bytes are the most of any other.
    (Action::Mark, 0, 65_536, Ok(())),
    (Action::Sent, 0, 65_535, Ok(())),
];

/// What writing the entry of the row answers, and whether the sink took nothing of it.
fn answered(alloc: Global, row: &Written) -> Result<(Result<(), WriteError>, bool), AllocError> {
    let bytes = all_of(alloc, b'x', row.2)?;
    let mut room = Room::of(1_000);
    let answer = write_entry(&mut room, row.0, row.1, &bytes);
    Ok((answer, room.taken() == 0))
}

/// An entry above the limits is refused, and nothing is written of it.
#[test]
fn what_is_not_written(rt: HostRuntime) -> Result<(), Fail> {
    for (number, row) in NOT_WRITTEN.iter().enumerate() {
        let (answer, takes_nothing) = answered(rt.alloc(), row)?;
        assert!(rt; answer == row.3, "row {number}");
        assert!(rt; takes_nothing == row.3.is_err(), "row {number}");
    }
    Ok(())
}

/// A sink fails at each of its calls in turn, which a write tells.
#[test]
fn a_sink_that_fails(rt: HostRuntime) -> Result<(), Fail> {
    let params = Params::new(500, 4_000, 5_000, 50).ok_or("refused")?;
    let mut room = Room::of(1_000);
    is(&rt, write(&mut room, &params), Ok(()));
    for calls in 0..room.taken() {
        let mut room = Room::of(calls);
        is_in(&rt, write(&mut room, &params), Err(WriteError::Io), &calls);
        assert!(rt; room.has_failed());
    }
    Ok(())
}

/// The times that a progress tells, if it tells any.
fn times_of(progress: &Progress) -> Option<[u64; 5]> {
    let params = progress.params()?;
    Some([
        params.t1(),
        params.t2(),
        params.t4(),
        params.early(),
        params.late(),
    ])
}

/// A progress tells no times before a header was read, and its times after it and at the end of the log.
#[test]
fn tells_the_times_of_the_header(rt: HostRuntime) -> Result<(), Fail> {
    is(&rt, times_of(&Progress::new(rt.alloc())), None);
    let mut bytes = HEADER;
    let (_, mut progress) = Progress::open(rt.alloc(), &mut bytes)?;
    is(&rt, times_of(&progress), Some([500, 4_000, 5_000, 50, 50]));
    assert!(rt; progress.next(&mut bytes)?.is_none());
    is(&rt, times_of(&progress), Some([500, 4_000, 5_000, 50, 50]));
    Ok(())
}

/// The number of the entry that comes next, if one does.
fn next_number(progress: &mut Progress, bytes: &mut &[u8]) -> Result<Option<u64>, LogError> {
    match progress.next(bytes)? {
        Some(entry) => Ok(Some(entry.number)),
        None => Ok(None),
    }
}

/// Counted anew, the next entry has the number 1. Its moment is held against that of the entry before it, and the times of the header stay.
#[test]
fn counts_its_entries_anew(rt: HostRuntime) -> Result<(), Fail> {
    let mut bytes: &[u8] =
        b"sip-trace 1\nt1 500 t2 4000 t4 5000 tolerance 50\nM 5\nM 6\nM 6\nM 5\n";
    let (_, mut progress) = Progress::open(rt.alloc(), &mut bytes)?;
    is(&rt, next_number(&mut progress, &mut bytes)?, Some(1));
    is(&rt, next_number(&mut progress, &mut bytes)?, Some(2));
    progress.count_anew();
    is(&rt, next_number(&mut progress, &mut bytes)?, Some(1));
    progress.count_anew();
    is(&rt, times_of(&progress), Some([500, 4_000, 5_000, 50, 50]));
    assert!(rt; matches!(next_number(&mut progress, &mut bytes), Err(LogError::Order)));
    Ok(())
}
