//! Quoted strings.
ghost use Rattle.std.specs.Prelude.{◌≡◌, ◌≤◌, length, drop, IfSome};
ghost use Rattle.sip_standard.specs.Text.{Many, ◌then◌};
ghost use Rattle.sip_standard.specs.Profile.{Sws, Quoted};
ghost use Rattle.sip_text.specs.Front.{HasFront, IsOnlyFront};
ghost use Rattle.sip_text.specs.inner.Quoted.{QuotedItem, item_len};

use crate::blanks::{blank_len, skip_lws};
use crate::class::{Class, has};
use crate::cut::past;

/// The length in bytes of the `quoted-string` at the front of the text (RFC 3261, section 25.1),
/// the blank run before its first quote included. There is at most one such front.
pub fn read_quoted(text: &[u8]) -> Option<usize>
    ensures reads { IsOnlyFront (Sws then Quoted) text.now result }
    ensures within { IfSome result (λ n. n ≤ length text.now) }
{
    let open = skip_lws(text);
    let inner = past(&text[open..], b'"')?;
    let close = contents_len(inner);
    past(&inner[close..], b'"')?;
    // The two quotes have a byte each.
    Some(open + close + 2)
}

// The length of the longest front that may stand between two quotes: it ends before the first byte that may not.
fn contents_len(text: &[u8]) -> usize
    ensures front { HasFront (Many QuotedItem) text.now result }
    ensures stops { item_len (drop result text.now) ≡ 0 }
    ensures within { result ≤ length text.now }
{
    let mut at = 0;
    'items: loop {
        let step = item_len(&text[at..]);
        if step == 0 {
            return at;
        }
        at += step;
    }
}

// The length of the byte of qdtext, the quoted pair or the blank at the front of the text, and 0 if there is none.
#[inline]
fn item_len(text: &[u8]) -> usize
    ensures len { result ≡ item_len text.now }
    ensures within { result ≤ length text.now }
{
    match text {
        [byte, ..] if has(Class::Quoted, *byte) => 1,
        [b'\\', byte, ..] if has(Class::Escaped, *byte) => 2,
        _ => blank_len(text),
    }
}
