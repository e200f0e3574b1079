//! Call-IDs and CSeqs whose parts are plain.
ghost use Rattle.std.specs.Prelude.{◌≡◌, ◌≤◌, ◌<◌, ◌^◌, IfSome, IsTrue};
ghost use Rattle.std.specs.Str.Parse.{digits_value};
ghost use Rattle.sip_message.specs.inner.Only.{IsOnlyValue};
ghost use Rattle.sip_standard.specs.Values.{CallId};
ghost use Rattle.sip_message.specs.inner.Values.{Digits, CSeqValue};
ghost use Rattle.sip_message.specs.ValueParts.{cseq_parts};
ghost use Rattle.sip_message.specs.inner.Plain.{segment, EndsAt};

use crate::plain::{past_any_run, past_byte, past_run};
use crate::values::{CSeq, is_call_id, read_cseq};
use sip_masks::Masks;

/// Whether a Call-ID stands from one place up to another.
#[inline(never)]
pub(crate) fn is_call_id_at(masks: &Masks<'_, '_>, at: usize, end: usize) -> bool
    requires { (at ≤ end) × EndsAt masks.now end }
    ensures { IsTrue result → CallId (segment at end masks.now) }
{
    is_plain_call_id(masks, at, end) || is_call_id(&masks.text()[at..end])
}

// Whether one plain run stands from one place up to another, or two with an `@` between them.
fn is_plain_call_id(masks: &Masks<'_, '_>, at: usize, end: usize) -> bool
    requires { (at ≤ end) × EndsAt masks.now end }
    ensures { IsTrue result → CallId (segment at end masks.now) }
{
    let Some(word) = past_any_run(masks, at, end) else {
        return false;
    };
    if word == end {
        return true;
    }
    let Some(other) = past_byte(masks, word, end, b'@') else {
        return false;
    };
    match past_any_run(masks, other, end) {
        Some(to) => to == end,
        None => false,
    }
}

/// The CSeq from one place up to another, if one stands there.
pub(crate) fn cseq_at<'a>(masks: &Masks<'a, '_>, at: usize, end: usize) -> Option<CSeq<'a>>
    requires { (at ≤ end) × EndsAt masks.now end }
    ensures { IsOnlyValue CSeqValue cseq_parts (segment at end masks.now) result }
{
    match plain_cseq(masks, at, end) {
        Some(cseq) => Some(cseq),
        None => read_cseq(&masks.text()[at..end]),
    }
}

// The CSeq from one place up to another, if a short number, a SP and a plain method stand there.
fn plain_cseq<'a>(masks: &Masks<'a, '_>, at: usize, end: usize) -> Option<CSeq<'a>>
    requires { (at ≤ end) × EndsAt masks.now end }
    ensures { IfSome result (λ cseq. CSeqValue (segment at end masks.now) (cseq_parts cseq)) }
{
    let digits = past_run(masks, at, end)?;
    let method = past_byte(masks, digits, end, b' ')?;
    let to = past_run(masks, method, end)?;
    if to != end {
        return None;
    }
    let text = masks.text();
    let number = short_number(&text[at..digits])?;
    Some(CSeq {
        number,
        method: &text[method..end],
    })
}

// A number up to this one has, with one digit more, at most nine digits.
const LAST_SHORT: u32 = 99_999_999;

// The number that the whole text writes, if the text is digits and the number has at most nine of them.
fn short_number(text: &[u8]) -> Option<u32>
    ensures { IfSome result (λ number. Digits text.now × (number ≡ digits_value 10 text.now) × (number < 2 ^ 31)) }
{
    if text.is_empty() {
        return None;
    }
    let mut number: u32 = 0;
    for byte in text {
        if !byte.is_ascii_digit() || number > LAST_SHORT {
            return None;
        }
        number = number * 10 + u32::from(*byte - b'0');
    }
    Some(number)
}
