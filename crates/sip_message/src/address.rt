//! Addresses: the values of From and To.
ghost use Rattle.std.specs.Prelude.{◌≡◌, ◌≤◌, ◌↔◌, IsTrue, length};
ghost use Rattle.std.specs.List.{prefix_len};
ghost use Rattle.sip_standard.specs.Values.{Address};
ghost use Rattle.sip_message.specs.inner.Only.{IsOnlyValue};
ghost use Rattle.sip_message.specs.inner.Fronts.{pair_parts, text_parts};
ghost use Rattle.sip_message.specs.inner.AddressFronts.{WordsFront, NameFront, DisplayFront, HasScheme, is_unmarked_byte, AddressCut};

use crate::cursor::{cut, past, skip_blanks};
use crate::params::{are_params, cut_quoted};
use sip_text::{is_uri, skip_lws, token_len};

/// Whether the whole text is an address, the value of From or To (RFC 3261, sections 20.20 and 20.39).
pub(crate) fn is_address(text: &[u8]) -> bool
    ensures { IsTrue result ↔ Address text.now }
{
    match cut_address(text) {
        Some((uri, params)) => is_uri(uri) && are_params(params),
        None => false,
    }
}

// Cuts an address into the text of its URI and what follows that, or the `>` after it. Where the text begins with a scheme, its URI
// stands without `<`.
fn cut_address(text: &[u8]) -> Option<(&[u8], &[u8])>
    ensures { IsOnlyValue AddressCut pair_parts text.now result }
{
    if has_scheme(text) {
        let len = plain_len(text);
        return Some((&text[..len], &text[len..]));
    }
    let inner = past_display(text)?;
    let (uri, behind) = cut(inner, b'>');
    let rest = behind?;
    Some((uri, rest))
}

// Whether the text begins with a token and a colon.
fn has_scheme(text: &[u8]) -> bool
    ensures { IsTrue result ↔ HasScheme text.now }
{
    let len = token_len(text);
    len < text.len() && text[len] == b':'
}

// The length of the longest front that a URI without `<` may hold.
fn plain_len(text: &[u8]) -> usize
    ensures run { result ≡ prefix_len is_unmarked_byte text.now }
    ensures within { result ≤ length text.now }
{
    for (at, byte) in text.iter().enumerate() {
        if !is_plain(*byte) {
            return at;
        }
    }
    text.len()
}

// Whether the byte may stand in a URI that stands without `<`.
#[inline]
fn is_plain(byte: u8) -> bool
    ensures { result ≡ is_unmarked_byte byte }
{
    !matches!(byte, b' ' | b'\t' | b'\r' | b'\n' | b',' | b'?' | b';')
}

// What follows the `<` at the front, or the `<` after a display name there.
fn past_display(text: &[u8]) -> Option<&[u8]>
    ensures { IsOnlyValue DisplayFront text_parts text.now result }
{
    if let Some(inner) = past(text, b'<') {
        return Some(inner);
    }
    let (_, rest) = cut_name(text)?;
    past(skip_blanks(rest), b'<')
}

// The display name at the front, and what is left after it.
fn cut_name(text: &[u8]) -> Option<(&[u8], &[u8])>
    ensures { IsOnlyValue NameFront pair_parts text.now result }
{
    match cut_quoted(text) {
        Some(name) => Some(name),
        None => cut_words(text),
    }
}

// The tokens at the front with blanks between them, and what is left after them.
fn cut_words(text: &[u8]) -> Option<(&[u8], &[u8])>
    ensures { IsOnlyValue WordsFront pair_parts text.now result }
{
    let mut at = token_len(text);
    if at == 0 {
        return None;
    }
    'words: loop {
        let rest = &text[at..];
        let blanks = skip_lws(rest);
        let word = token_len(&rest[blanks..]);
        if blanks == 0 || word == 0 {
            return Some((&text[..at], rest));
        }
        at += blanks + word;
    }
}
