//! Messages, and changes of one message, read and written again: rows with what each comes to.
use crate::answer::{Answer, Row, answer_to};
use crate::changed::changed;
use crate::folded::{FOLDED, UNFOLDED};
use crate::ipv6::IPV6;
use crate::rows::{ADDRESSES, BODIES, Change, LINES, NAMES, NUMBERS, STARTS, VIAS};
use crate::torture::TORTURE;
use crate::wants::{holds, is};
use sip_message::{Message, ReadError, Reason, write};
use std::alloc::{AllocError, Global};
use std::process::Abort;
use std::test::Fail;

/// The canonical form of the bytes, or their first fault.
fn canonical(alloc: Global, bytes: &[u8]) -> Result<Vec<u8>, ReadError> {
    let message = Message::read(alloc, bytes)?;
    let mut out = Vec::new(alloc);
    write(&message, &mut out)?;
    Ok(out)
}

/// Asserts that each message comes to what its row says.
fn read_rows(rt: &(impl Abort + AllocGlobal), rows: &[Row]) -> Result<(), Fail> {
    for row in rows {
        is(rt, answer_to(rt.alloc(), row.text)?, row.answer, &row.name);
    }
    Ok(())
}

/// The torture messages. A function that names a table has all of it in its proof, so that this one alone names it.
fn torture() -> &'static [Row] {
    TORTURE
}

/// Each torture message, and each message with IPv6 addresses, comes to what its row says.
#[test]
fn reads_torture_messages(rt: HostRuntime) -> Result<(), Fail> {
    read_rows(&rt, torture())?;
    read_rows(&rt, IPV6)
}

/// Asserts that each changed request comes to what its row says.
fn read_changes(rt: &(impl Abort + AllocGlobal), rows: &[Change]) -> Result<(), Fail> {
    for (n, row) in rows.iter().enumerate() {
        let text = changed(rt.alloc(), row.0, row.1)?;
        is(rt, answer_to(rt.alloc(), &text)?, row.2, &n);
    }
    Ok(())
}

/// Changes of the start line.
#[test]
fn reads_start_lines(rt: HostRuntime) -> Result<(), Fail> {
    read_changes(&rt, STARTS)
}

/// Changes of lines, whatever field they are of.
#[test]
fn reads_lines(rt: HostRuntime) -> Result<(), Fail> {
    read_changes(&rt, LINES)
}

/// Changes of Via.
#[test]
fn reads_vias(rt: HostRuntime) -> Result<(), Fail> {
    read_changes(&rt, VIAS)
}

/// Changes of From and To.
#[test]
fn reads_addresses(rt: HostRuntime) -> Result<(), Fail> {
    read_changes(&rt, ADDRESSES)
}

/// Changes of Call-ID and CSeq.
#[test]
fn reads_call_ids_and_cseqs(rt: HostRuntime) -> Result<(), Fail> {
    read_changes(&rt, NUMBERS)
}

/// Fields that are missing, or stand twice.
#[test]
fn reads_fields_that_stand_once(rt: HostRuntime) -> Result<(), Fail> {
    read_changes(&rt, NAMES)
}

/// Changes of the body, and of Content-Length.
#[test]
fn reads_bodies(rt: HostRuntime) -> Result<(), Fail> {
    read_changes(&rt, BODIES)
}

/// A text without the end of a head, or without a start line, is no message.
#[test]
fn tells_a_head_from_none(rt: HostRuntime) -> Result<(), Fail> {
    let mut text = changed(rt.alloc(), &[], b"")?;
    let no_end = Answer::Head(Reason::NoHeadEnd);
    // The last four bytes are the end of the last line and the empty line. Without the last two the head does not end.
    is(&rt, text.len(), 196, &"its length");
    text.truncate(194);
    is(&rt, answer_to(rt.alloc(), &text)?, no_end, &"a front");
    is(&rt, answer_to(rt.alloc(), b"")?, no_end, &"no bytes");
    let no_line = Answer::Line(0, Reason::StartLine);
    is(&rt, answer_to(rt.alloc(), b"\r\n\r\n")?, no_line, &"an end");
    Ok(())
}

/// The folded request, and its canonical form itself, have the one canonical form.
#[test]
fn writes_the_canonical_form(rt: HostRuntime) -> Result<(), Fail> {
    // The lengths show that both texts have the bytes that are meant, however their escapes and folds are spelled here.
    holds(&rt, FOLDED.len() == 181 && UNFOLDED.len() == 202, "lengths");
    comes_to(&rt, FOLDED, UNFOLDED)?;
    comes_to(&rt, UNFOLDED, UNFOLDED)
}

/// Asserts that the bytes have this canonical form.
fn comes_to(rt: &(impl Abort + AllocGlobal), bytes: &[u8], want: &[u8]) -> Result<(), Fail> {
    let text = canonical(rt.alloc(), bytes)?;
    holds(rt, text.as_slice() == want, "the canonical form");
    Ok(())
}

/// Whether the messages have the same canonical form.
fn are_written_alike(
    alloc: Global,
    one: &Message<'_>,
    other: &Message<'_>,
) -> Result<bool, AllocError> {
    let mut text = Vec::new(alloc);
    write(one, &mut text)?;
    is_written_as(alloc, other, &text)
}

/// Whether the message has this canonical form.
fn is_written_as(alloc: Global, message: &Message<'_>, want: &[u8]) -> Result<bool, AllocError> {
    let mut text = Vec::new(alloc);
    write(message, &mut text)?;
    Ok(text.as_slice() == want)
}

/// Whether the topmost Vias of the messages have the same parts.
fn have_same_via(one: &Message<'_>, other: &Message<'_>) -> bool {
    let (via, other) = (one.top_via(), other.top_via());
    via.transport == other.transport
        && via.host == other.host
        && via.port == other.port
        && via.branch == other.branch
}

/// Whether the messages have the same parts, but for those that may be folded.
fn have_same_parts(one: &Message<'_>, other: &Message<'_>) -> bool {
    one.start() == other.start()
        && one.body() == other.body()
        && one.call_id() == other.call_id()
        && one.cseq() == other.cseq()
        && have_same_via(one, other)
        && one.is_reliable() == other.is_reliable()
}

/// Whether the messages have the same parts. Those that may be folded are compared by their canonical form.
fn are_same(alloc: Global, one: &Message<'_>, other: &Message<'_>) -> Result<bool, AllocError> {
    Ok(are_written_alike(alloc, one, other)? && have_same_parts(one, other))
}

/// Whether the bytes are a message whose canonical form reads back as the same message, or have one of the faults 1 to 11.
fn is_read_back(alloc: Global, bytes: &[u8]) -> Result<bool, AllocError> {
    let message = match Message::read(alloc, bytes) {
        Ok(message) => message,
        // The reason 12 is that of a request without the cookie, which reading a message does not ask for.
        Err(ReadError::Fault(fault)) => return Ok((1..=11).contains(&fault.reason.number())),
        Err(ReadError::Memory) => return Err(AllocError),
    };
    let mut out = Vec::new(alloc);
    write(&message, &mut out)?;
    match Message::read(alloc, &out) {
        Ok(again) => are_same(alloc, &message, &again),
        Err(ReadError::Fault(_)) => Ok(false),
        Err(ReadError::Memory) => Err(AllocError),
    }
}

/// What is written of each message that comes of changing one byte is read back as the same message.
#[test]
fn reads_back_what_it_writes(rt: HostRuntime) -> Result<(), Fail> {
    let mut text = FOLDED.to_vec(rt.alloc())?;
    for at in 0..FOLDED.len() {
        for byte in 0..=255 {
            text[at] = byte;
            is(&rt, is_read_back(rt.alloc(), &text)?, true, &at);
        }
        text[at] = FOLDED[at];
    }
    Ok(())
}

/// The branches of the Vias of the first torture message, from the top one on.
static BRANCHES: [&[u8]; 3] = [b"390skdjuw", b"z9hG4bK9ikj8", b"z9hG4bK30239"];

/// Asserts that the first torture message has its Vias.
fn shows_vias(rt: &impl Abort, message: &Message<'_>) {
    let top = message.top_via();
    is(rt, top.transport, b"UDP".as_slice(), &"the transport");
    is(rt, top.branch, Some(b"390skdjuw".as_slice()), &"the branch");
    let whole = b"SIP  /   2.0\r\n /UDP\r\n    192.0.2.2;branch=390skdjuw".as_slice();
    is(rt, top.whole, whole, &"the whole Via");
    holds(rt, !message.is_reliable(), "the transport is not reliable");
    shows_branches(rt, message);
}

/// Asserts that the first torture message has the Vias of `BRANCHES`.
fn shows_branches(rt: &impl Abort, message: &Message<'_>) {
    let mut branches = message.vias();
    for want in &BRANCHES {
        let is_next = branches.next().is_some_and(|via| via.branch == Some(*want));
        holds(rt, is_next, "a branch");
    }
    holds(rt, branches.next().is_none(), "no more branches");
}

/// Asserts that the first torture message has its From and its To.
fn shows_addresses(rt: &impl Abort, message: &Message<'_>) {
    let from =
        b"\"J Rosenberg \\\\\\\"\"       <sip:jdrosen@example.com>\r\n  ;\r\n  tag = 98asjd8".as_slice();
    is(rt, message.from(), from, &"the From");
    let to = b"sip:vivekg@chair-dnrc.example.com ;   tag    = 1918181833n".as_slice();
    is(rt, message.to(), to, &"the To");
}

/// Asserts that the first torture message has its other parts: Call-ID, CSeq, Route and body.
fn shows_the_rest(rt: &impl Abort, message: &Message<'_>) {
    let call = b"wsinv.ndaksdj@192.0.2.1".as_slice();
    is(rt, message.call_id(), call, &"the Call-ID");
    let cseq = message.cseq();
    is(rt, cseq.number, 9, &"the number in CSeq");
    is(rt, cseq.method, b"INVITE".as_slice(), &"the method in CSeq");
    is(rt, message.body().len(), 150, &"the length of the body");
    is(rt, message.body().first(), Some(&b'v'), &"the body");
    shows_routes(rt, message);
}

/// Asserts that the first torture message has its Route.
fn shows_routes(rt: &impl Abort, message: &Message<'_>) {
    let mut routes = message.routes();
    let route = b"<sip:services.example.com;lr;unknownwith=value;unknown-no-value>".as_slice();
    is(rt, routes.next(), Some(route), &"the route");
    holds(rt, routes.next().is_none(), "no more routes");
}

/// The parts that the first torture message shows are those that it has.
#[test]
fn shows_the_parts(rt: HostRuntime) -> Result<(), Fail> {
    let first = torture().first().ok_or("no message")?;
    let message = Message::read(rt.alloc(), first.text)?;
    shows_vias(&rt, &message);
    shows_addresses(&rt, &message);
    shows_the_rest(&rt, &message);
    Ok(())
}

/// A request with one more line: its front, a part of it many times, and its end.
fn long_line(
    alloc: Global,
    front: &[u8],
    part: &[u8],
    times: usize,
    end: &[u8],
) -> Result<Vec<u8>, AllocError> {
    let mut line = Vec::new(alloc);
    line.extend_from_slice(b"Content-Length: 0\r\n")?;
    line.extend_from_slice(front)?;
    for _ in 0..times {
        line.extend_from_slice(part)?;
    }
    line.extend_from_slice(end)?;
    changed(alloc, &[(6, &line)], b"")
}

/// The message with the line is read, and has no body.
const LINE_READ: Answer = Answer::Read { body: 0 };

/// The line, the seventh of the message, has a faulty value.
const LINE_FAULTY: Answer = Answer::Line(7, Reason::Value);

/// A line, by its front, a part that is repeated, how often it is, and the end of the line; and what the line comes to.
type LongLine = (&'static [u8], &'static [u8], usize, &'static [u8], Answer);

/// Lines with many equal parts, and what each comes to.
static LONG_LINES: &[LongLine] = &[
    // Parameters, elements, empty elements, pairs in a quoted string with an end and without one, fields of one name, and parts of other values.
    (b"Via: SIP/2.0/UDP a", b";a", 30_000, b"", LINE_READ),
    (
        b"Via: SIP/2.0/UDP a",
        b", SIP/2.0/UDP a",
        4_000,
        b"",
        LINE_READ,
    ),
    (b"Via: SIP/2.0/UDP a", b",", 60_000, b"", LINE_FAULTY),
    (
        b"Via: SIP/2.0/UDP a;x=\"",
        b"\\\"",
        30_000,
        b"\"",
        LINE_READ,
    ),
    (
        b"Via: SIP/2.0/UDP a;x=\"",
        b"\\\"",
        30_000,
        b"",
        LINE_FAULTY,
    ),
    (b"s: x", b"\r\ns: x", 10_000, b"", LINE_READ),
    (b"Route: ", b"a,", 30_000, b"", LINE_READ),
    (b"x: ", b"\xff", 60_000, b"", LINE_READ),
];

/// Asserts that a long line that is read has the canonical form of a short one.
fn reads_a_long_fold(rt: &(impl Abort + AllocGlobal)) -> Result<(), Fail> {
    let text = long_line(rt.alloc(), b"s: a", b"\r\n ", 20_000, b"b")?;
    // The request has 196 bytes, and `Subject: a b` with its line end 14: all the folds are one SP.
    is(rt, canonical(rt.alloc(), &text)?.len(), 210, &"its length");
    Ok(())
}

/// What the request with this line comes to.
fn answer_to_line(alloc: Global, line: &LongLine) -> Result<Answer, AllocError> {
    let text = long_line(alloc, line.0, line.1, line.2, line.3)?;
    answer_to(alloc, &text)
}

/// Requests with a long line come to what their rows say.
#[test]
fn reads_long_lines(rt: HostRuntime) -> Result<(), Fail> {
    reads_a_long_fold(&rt)?;
    for (n, line) in LONG_LINES.iter().enumerate() {
        is(&rt, answer_to_line(rt.alloc(), line)?, line.4, &n);
    }
    Ok(())
}
