//! Whether a message of the `Book` is a response 100, for which it is read anew.
ghost use Rattle.std.specs.Prelude.{◌≡◌, ◌↔◌, IfOk, IsTrue, codes, drop, take};
ghost use Rattle.sip_machine.specs.Texts.{Keeps, text_of};
ghost use Rattle.sip_standard.specs.Provisional.{Is100};
ghost use Rattle.sip_machine.specs.inner.Start.{IsStatus100};
ghost use Rattle.sip_message.specs.ValueParts.{start_parts};

use crate::book::Book;
use sip_message::StartLine;
use std::alloc::{AllocError, Global};

/// Whether the kept message is a 100 (Trying), which need not be sent again (RFC 3261, section 17.2.1).
pub(crate) fn is_100(alloc: Global, book: &Book, number: u64) -> Result<bool, AllocError>
    requires { Keeps book.now number }
    ensures { IfOk result (λ is. IsTrue is ↔ Is100 (text_of book.now number)) }
{
    if !has_code_100(book.bytes_of(number)) {
        return Ok(false);
    }
    match book.message(alloc, number)? {
        Some(message) => Ok(is_status_100(message.start())),
        None => Ok(false),
    }
}

/// Whether "100" stands where a response has its code. For most messages that tells at once that they are no 100.
fn has_code_100(bytes: &[u8]) -> bool
    ensures { IsTrue result ↔ (take 3 (drop 8 bytes.now) ≡ codes "100") }
{
    // A response begins with `SIP/2.0`, one SP and three digits: 11 bytes.
    if bytes.len() < 11 {
        return false;
    }
    &bytes[8..11] == b"100".as_slice()
}

/// Whether the start line is that of a response 100.
fn is_status_100(start: StartLine<'_>) -> bool
    ensures { IsTrue result ↔ IsStatus100 (start_parts start.entry) }
{
    match start {
        StartLine::Request { .. } => false,
        StartLine::Status { code, .. } => code == 100,
    }
}
