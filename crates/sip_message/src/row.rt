//! Values of field lines: cut off their blanks, and judged by the row of their field's name.
ghost use Rattle.std.specs.Prelude.{◌≡◌, ◌≤◌, ◌<◌, ◌-◌, ◌↔◌, ℕ, IsTrue, length, slice_index, true, false};
ghost use Rattle.std.specs.List.{prefix_len};
ghost use Rattle.sip_standard.specs.Profile.{Sws};
ghost use Rattle.sip_message.specs.inner.Only.{IsOnlyValue};
ghost use Rattle.sip_standard.specs.Field.{is_lws_byte};
ghost use Rattle.sip_message.specs.inner.FieldText.{ValueText, Row};
ghost use Rattle.sip_message.specs.inner.Fronts.{text_parts};
ghost use Rattle.sip_message.specs.inner.Values.{is_solid};
ghost use Rattle.sip_message.specs.inner.Kept.{KeepsMore};
ghost use Rattle.sip_message.specs.inner.Views.{name_parts};

use crate::address::is_address;
use crate::cursor::past;
use crate::kept::{Kept, keep};
use crate::name::{Known, Name};
use crate::other::is_other;
use crate::values::{is_call_id, is_length, read_cseq};
use crate::via::first_via;
use sip_text::skip_lws;

/// The value in what follows the colon of a field line: the text without the longest blank runs at
/// its two ends. It is None where what stands there is no blank run.
pub(crate) fn trim(text: &[u8]) -> Option<&[u8]>
    ensures { IsOnlyValue ValueText text_parts text.now result }
{
    match past(text, b' ') {
        Some(value) if is_solid(value) => Some(value),
        _ => trim_blanks(text),
    }
}

/// Whether the text is not empty, and neither begins nor ends with a byte of a blank run.
#[inline]
pub(crate) fn is_solid(text: &[u8]) -> bool
    ensures { result ≡ is_solid text.now }
{
    !text.is_empty() && !is_blank(text[0]) && !is_blank(text[text.len() - 1])
}

// The value in what follows the colon, whatever blanks stand at its ends.
fn trim_blanks(text: &[u8]) -> Option<&[u8]>
    ensures { IsOnlyValue ValueText text_parts text.now result }
{
    let front = blank_len(text);
    let rest = &text[front..];
    let end = solid_len(rest);
    if is_sws(&text[..front]) && is_sws(&rest[end..]) {
        Some(&rest[..end])
    } else {
        None
    }
}

// The length of the longest front of bytes of blank runs.
fn blank_len(text: &[u8]) -> usize
    ensures run { result ≡ prefix_len is_lws_byte text.now }
    ensures within { result ≤ length text.now }
{
    for (at, byte) in text.iter().enumerate() {
        if !is_blank(*byte) {
            return at;
        }
    }
    text.len()
}

// The length of the text without the bytes of blank runs at its end.
fn solid_len(text: &[u8]) -> usize
    ensures blank { (k : ℕ) → result ≤ k → k < length text.now → is_lws_byte (slice_index text.now k) ≡ true }
    ensures solid { 0 < result → is_lws_byte (slice_index text.now (result - 1)) ≡ false }
    ensures within { result ≤ length text.now }
{
    let mut len = text.len();
    while len > 0 && is_blank(text[len - 1]) {
        len -= 1;
    }
    len
}

// Whether the byte is one of a blank run. Most bytes are above all of these.
#[inline]
fn is_blank(byte: u8) -> bool
    ensures { result ≡ is_lws_byte byte }
{
    byte <= b' ' && matches!(byte, b' ' | b'\t' | b'\r' | b'\n')
}

// Whether the text is a blank run, or empty.
fn is_sws(text: &[u8]) -> bool
    ensures { IsTrue result ↔ Sws text.now }
{
    skip_lws(text) == text.len()
}

/// Whether a field of this name may have the value. What the first Via and the first CSeq say is kept.
pub(crate) fn is_of_row<'a>(name: Name<'a>, value: &'a [u8], kept: &mut Kept<'a>) -> bool
    ensures row { IsTrue result ↔ Row (name_parts name.entry) value.entry.now }
    ensures kept { IsTrue result → KeepsMore (record { name = name_parts name.entry; value = value.entry.now }) kept.old kept.new }
{
    match name {
        Name::Known(Known::Via) => keep(first_via(value), &mut kept.via),
        Name::Known(Known::From) => is_address(value),
        Name::Known(Known::To) => is_address(value),
        Name::Known(Known::CallId) => is_call_id(value),
        Name::Known(Known::CSeq) => keep(read_cseq(value), &mut kept.cseq),
        Name::Known(Known::ContentLength) => is_length(value),
        _ => is_other(value),
    }
}
