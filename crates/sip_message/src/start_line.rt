//! Start lines.
ghost use Rattle.std.specs.Prelude.{◌≡◌};
ghost use Rattle.std.specs.List.{list_all};
ghost use Rattle.sip_standard.specs.StartLine.{StartSays};
ghost use Rattle.sip_message.specs.inner.Only.{IsOnlyValue};
ghost use Rattle.sip_message.specs.inner.StartLine.{is_reason_byte, RequestLine, StatusLine, CodeFront, status_parts};
ghost use Rattle.sip_message.specs.inner.Fronts.{pair_parts};
ghost use Rattle.sip_message.specs.ValueParts.{start_parts};

use crate::cursor::{cut_token, past};
use crate::values::{is_length, number_at_most};
use sip_text::{is_uri, same_text};

/// The start line of a message (RFC 3261, sections 7.1 and 7.2).
#[derive(Clone, Copy, Debug, PartialEq, Eq)]
pub enum StartLine<'a> {
    /// A request.
    Request {
        /// The method.
        method: &'a [u8],
        /// The Request-URI.
        uri: &'a [u8],
    },
    /// A response.
    Status {
        /// The status code, 100 to 699.
        code: u16,
        /// The reason phrase.
        reason: &'a [u8],
    },
}

/// The start line that the whole line is.
pub(crate) fn read_start(line: &[u8]) -> Option<StartLine<'_>>
    ensures { IsOnlyValue StartSays start_parts line.now result }
{
    if let Some((method, uri)) = read_request(line) {
        return Some(StartLine::Request { method, uri });
    }
    let (code, reason) = read_status(line)?;
    Some(StartLine::Status { code, reason })
}

// The method and the Request-URI of the Request-Line that the line is. The version at its end has seven bytes.
fn read_request(line: &[u8]) -> Option<(&[u8], &[u8])>
    ensures { IsOnlyValue RequestLine pair_parts line.now result }
{
    let (method, rest) = cut_token(line)?;
    let rest = past(rest, b' ')?;
    // A SP and the version at the end have eight bytes.
    let at = rest.len().checked_sub(8)?;
    let (uri, version) = rest.split_at(at);
    if !same_text(version, b" SIP/2.0") {
        return None;
    }
    if is_uri(uri) {
        Some((method, uri))
    } else {
        None
    }
}

// The Status-Code and the Reason-Phrase of the Status-Line that the line is.
fn read_status(line: &[u8]) -> Option<(u16, &[u8])>
    ensures { IsOnlyValue StatusLine status_parts line.now result }
{
    // The version and a SP at the front have eight bytes.
    if line.len() < 8 {
        return None;
    }
    let (version, rest) = line.split_at(8);
    if !same_text(version, b"SIP/2.0 ") {
        return None;
    }
    let (code, reason) = cut_code(rest)?;
    if !are_reason_bytes(reason) {
        return None;
    }
    Some((code, reason))
}

/// The Status-Code at the front, and what follows the SP after it.
pub(crate) fn cut_code(text: &[u8]) -> Option<(u16, &[u8])>
    ensures { IsOnlyValue CodeFront status_parts text.now result }
{
    if text.len() < 3 {
        return None;
    }
    let (digits, rest) = text.split_at(3);
    let rest = past(rest, b' ')?;
    if !is_length(digits) {
        return None;
    }
    // A code is 100 to 699.
    let code = number_at_most(digits, 699)?;
    if code < 100 {
        return None;
    }
    Some((code as u16, rest))
}

// Whether each byte may stand in a Reason-Phrase.
fn are_reason_bytes(text: &[u8]) -> bool
    ensures { result ≡ list_all is_reason_byte text.now }
{
    text.iter()
        .all(|byte| matches!(*byte, b'\t' | b' '..=b'~' | 0x80..))
}
