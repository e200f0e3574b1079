//! The OPTIONS request over UDP with branch 1, with some of its lines changed.

use std::alloc::{AllocError, Global};

/// The lines of the request: the start line, Via, From, To, Call-ID, CSeq and Content-Length.
const LINES: [&[u8]; 7] = [
    b"OPTIONS sip:example.com SIP/2.0",
    b"Via: SIP/2.0/UDP a.example.com;branch=z9hG4bK1",
    b"From: <sip:bob@example.com>;tag=1",
    b"To: <sip:bob@example.com>",
    b"Call-ID: c1@a",
    b"CSeq: 1 OPTIONS",
    b"Content-Length: 0",
];

/// The change that makes the request one over TCP: another Via line.
pub(crate) const OVER_TCP: (usize, &[u8]) = (1, b"Via: SIP/2.0/TCP a.example.com;branch=z9hG4bK1");

/// The change of a line to this leaves it out.
pub(crate) const NO_LINE: &[u8] = b"";

/// The request with other lines in place of those with these numbers, and with this body.
pub(crate) fn changed(
    alloc: Global,
    changes: &[(usize, &[u8])],
    body: &[u8],
) -> Result<Vec<u8>, AllocError> {
    let mut text = Vec::new(alloc);
    for (number, line) in LINES.iter().enumerate() {
        let mut line: &[u8] = line;
        for &(changed, other) in changes {
            if changed == number {
                line = other;
            }
        }
        if !line.is_empty() {
            text.extend_from_slice(line)?;
            text.extend_from_slice(b"\r\n")?;
        }
    }
    text.extend_from_slice(b"\r\n")?;
    text.extend_from_slice(body)?;
    Ok(text)
}
