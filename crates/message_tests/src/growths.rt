//! Calls in which a growth is refused. `tests/growths` refuses each growth in turn: the test then fails with want of memory, once it
//! has seen that the call left all as it was, and that the same call succeeds with memory.

use crate::folded::{FOLDED, UNFOLDED};
use crate::wants::is;
use sip_message::{Message, ReadError, write};
use std::alloc::AllocError;
use std::process::Abort;
use std::test::Fail;

/// A request with seventeen fields, for which reading takes memory twice.
const SEVENTEEN: &[u8] = b"OPTIONS sip:example.com SIP/2.0\r\n\
    v: SIP/2.0/UDP a.example.com\r\n\
    f: <sip:bob@example.com>;tag=1\r\n\
    t: sip:bob@example.com\r\n\
    i: c2@a\r\n\
    CSeq: 1 OPTIONS\r\n\
    l: 0\r\n\
    a:\r\na:\r\na:\r\na:\r\na:\r\na:\r\na:\r\na:\r\na:\r\na:\r\na:\r\n\
    \r\n";

/// Reads the message of seventeen fields, and a second time where memory was refused.
fn read_again(rt: &(impl Abort + AllocGlobal)) -> Result<(), Fail> {
    let Err(error) = Message::read(rt.alloc(), SEVENTEEN) else {
        return Ok(());
    };
    is(rt, error, ReadError::Memory, &"a growth");
    assert!(rt; Message::read(rt.alloc(), SEVENTEEN).is_ok());
    Err(error.into())
}

/// The bytes that stand in the vector, after which the message is written.
const FRONT: &[u8] = b"front";

/// Writes the message after `FRONT`, by a second call where memory was refused, and gives what the first call answered.
fn write_behind(
    rt: &impl Abort,
    message: &Message<'_>,
    out: &mut Vec<u8>,
) -> Result<Result<(), AllocError>, AllocError> {
    let written = write(message, out);
    if written.is_err() {
        assert!(rt; out.as_slice() == FRONT);
        write(message, out)?;
    }
    assert!(rt; out.strip_prefix(FRONT) == Some(UNFOLDED));
    Ok(written)
}

/// Writes the message after `FRONT`, and a second time where memory was refused.
fn write_again(rt: &(impl Abort + AllocGlobal)) -> Result<(), Fail> {
    let message = Message::read(rt.alloc(), FOLDED)?;
    let mut out = FRONT.to_vec(rt.alloc())?;
    Ok(write_behind(rt, &message, &mut out)??)
}

/// A message is read, and another one written, by a second call where the first was refused a growth.
#[test]
fn goes_on_after_a_refused_growth(rt: HostRuntime) -> Result<(), Fail> {
    read_again(&rt)?;
    write_again(&rt)
}
