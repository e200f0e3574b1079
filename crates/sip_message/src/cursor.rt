//! What stands at the front of a text, and what is left after it.
ghost use Rattle.std.specs.Prelude.{◌≡◌, false, option_copied};
ghost use Rattle.sip_message.specs.inner.Only.{IsOnlyValue};
ghost use Rattle.sip_text.specs.inner.Cut.{before, behind, past};
ghost use Rattle.sip_standard.specs.Field.{is_lws_byte};
ghost use Rattle.sip_message.specs.inner.Fronts.{IsOnlyBehind, StopsBlank, LineFront, is_line, TokenFront, MarkFront, ProtocolFront, pair_parts, text_parts};

use memchr::memchr;
use sip_text::{skip_lws, token_len};

/// The token at the front, and what is left after it.
pub fn cut_token(text: &[u8]) -> Option<(&[u8], &[u8])>
    ensures { IsOnlyValue TokenFront pair_parts text.now result }
{
    let len = token_len(text);
    if len == 0 {
        return None;
    }
    Some((&text[..len], &text[len..]))
}

/// What is left after a mark at the front: the byte, with the blanks before and after it.
#[inline(always)]
pub fn past_mark(text: &[u8], mark: u8) -> Option<&[u8]>
    requires { is_lws_byte mark ≡ false }
    ensures { IsOnlyValue (MarkFront mark) text_parts text.now result }
{
    let inner = past(skip_blanks(text), mark)?;
    Some(skip_blanks(inner))
}

/// The transport of a `sent-protocol LWS` at the front, and what is left after it.
pub fn read_protocol(text: &[u8]) -> Option<(&[u8], &[u8])>
    ensures { IsOnlyValue ProtocolFront pair_parts text.now result }
{
    let (_, rest) = cut_token(text)?;
    let (_, rest) = cut_token(past_mark(rest, b'/')?)?;
    let (transport, rest) = cut_token(past_mark(rest, b'/')?)?;
    let blanks = skip_lws(rest);
    if blanks == 0 {
        return None;
    }
    Some((transport, &rest[blanks..]))
}

/// What is left after the blanks at the front. Before most texts stands none, or one SP.
#[inline]
pub(crate) fn skip_blanks(text: &[u8]) -> &[u8]
    ensures { IsOnlyBehind text.now result.now }
{
    if !may_begin_blank(text) {
        return text;
    }
    match past(text, b' ') {
        Some(rest) if !may_begin_blank(rest) => rest,
        _ => past_blanks(text),
    }
}

// Whether a blank run may stand at the front. Where the answer is no, none does.
#[inline]
fn may_begin_blank(text: &[u8]) -> bool
    ensures { result ≡ false → StopsBlank text.now }
{
    matches!(text, [b' ' | b'\t' | b'\r', ..])
}

// What is left after the blanks at the front, however many there are.
#[inline(never)]
fn past_blanks(text: &[u8]) -> &[u8]
    ensures { IsOnlyBehind text.now result.now }
{
    &text[skip_lws(text)..]
}

/// The text past the byte at its front, if it begins with it.
#[inline]
pub(crate) fn past(text: &[u8], byte: u8) -> Option<&[u8]>
    ensures { option_copied result ≡ past byte text.now }
{
    match text {
        [first, rest @ ..] if *first == byte => Some(rest),
        _ => None,
    }
}

/// The text before the first mark, and the text after it if there is one.
#[inline]
pub(crate) fn cut(text: &[u8], mark: u8) -> (&[u8], Option<&[u8]>)
    ensures front { result.0.now ≡ before mark text.now }
    ensures rest { option_copied result.1 ≡ behind mark text.now }
{
    match memchr(mark, text) {
        Some(at) => (&text[..at], Some(&text[at + 1..])),
        None => (text, None),
    }
}

/// The first logical line without its end, and what is left after it. A line ends at a CRLF that no
/// blank follows.
pub fn cut_line(text: &[u8]) -> Option<(&[u8], &[u8])>
    ensures { IsOnlyValue LineFront pair_parts text.now result }
{
    let mut at = 0;
    'ends: loop {
        let (front, behind) = cut(&text[at..], b'\n');
        let rest = behind?;
        let end = at + front.len();
        if is_line(front, rest) {
            return Some((&text[..end - 1], rest));
        }
        at = end + 1;
    }
}

// Whether a line ends at the LF between the two texts: CR stands before it, and no blank after it.
fn is_line(front: &[u8], rest: &[u8]) -> bool
    ensures { result ≡ is_line front.now rest.now }
{
    match (front, rest) {
        ([.., b'\r'], [b' ' | b'\t', ..]) => false,
        ([.., b'\r'], _) => true,
        _ => false,
    }
}
