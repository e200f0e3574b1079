//! Start lines of ordinary heads.
ghost use Rattle.std.specs.Prelude.{◌≡◌, IfSome, IsTrue, codes};
ghost use Rattle.sip_standard.specs.StartLine.{StartSays};
ghost use Rattle.sip_message.specs.ValueParts.{start_parts};
ghost use Rattle.sip_message.specs.inner.Plain.{segment, EndsAt};
ghost use Rattle.sip_message.specs.inner.Quick.{IsOpen};

use crate::plain::{past_byte, past_run, past_uri};
use crate::start_line::{StartLine, cut_code, read_start};
use sip_masks::Masks;
use sip_text::same_text;

/// The start line that the text up to `end` is, in which no control stands.
pub(crate) fn start_up_to<'a>(masks: &Masks<'a, '_>, end: usize) -> Option<StartLine<'a>>
    requires within { EndsAt masks.now end }
    requires clear { IsOpen (segment 0 end masks.now) }
    ensures { IfSome result (λ start. StartSays (segment 0 end masks.now) (start_parts start)) }
{
    let line = &masks.text()[0..end];
    if let Some(start) = open_status(line) {
        return Some(start);
    }
    if let Some(start) = plain_request(masks, end) {
        return Some(start);
    }
    read_start(line)
}

// The Status-Line that a line without controls is. The bytes of its reason need not be looked at.
fn open_status(line: &[u8]) -> Option<StartLine<'_>>
    requires { IsOpen line.now }
    ensures { IfSome result (λ start. StartSays line.now (start_parts start)) }
{
    // The version and a SP at the front have eight bytes.
    if line.len() < 8 {
        return None;
    }
    let (version, rest) = line.split_at(8);
    if !same_text(version, b"SIP/2.0 ") {
        return None;
    }
    let (code, reason) = cut_code(rest)?;
    Some(StartLine::Status { code, reason })
}

// The Request-Line that the text up to `end` is, if its method is plain and its URI is a SIP URI of plain parts.
fn plain_request<'a>(masks: &Masks<'a, '_>, end: usize) -> Option<StartLine<'a>>
    requires { EndsAt masks.now end }
    ensures { IfSome result (λ start. StartSays (segment 0 end masks.now) (start_parts start)) }
{
    let text = masks.text();
    let method = past_run(masks, 0, end)?;
    let uri = past_byte(masks, method, end, b' ')?;
    let to = past_uri(masks, uri, end)?;
    if !is_version(&text[to..end]) {
        return None;
    }
    Some(StartLine::Request {
        method: &text[0..method],
        uri: &text[uri..to],
    })
}

// Whether the text is a SP and the version, as most messages spell it.
fn is_version(text: &[u8]) -> bool
    ensures { IsTrue result → text.now ≡ codes " SIP/2.0" }
{
    text == b" SIP/2.0".as_slice()
}
