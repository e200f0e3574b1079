//! Values that the reader doesn't look into: it asks only that their bytes may stand there.
ghost use Rattle.std.specs.Prelude.{◌≡◌, ◌+◌, ◌≤◌, ◌↔◌, IsTrue, length};
ghost use Rattle.std.specs.List.{prefix_len};
ghost use Rattle.sip_text.specs.inner.Blanks.{begins_with_fold};
ghost use Rattle.sip_message.specs.inner.Values.{OtherText, is_plain_byte, ArePlain};

use std::simd::prelude::*;

// How many bytes are looked at in one step.
const BLOCK: usize = 16;

// How many bytes of a short text are looked at in one step.
const HALF: usize = 8;

/// Whether the text is a value that the reader doesn't look into.
pub(crate) fn is_other(text: &[u8]) -> bool
    ensures { IsTrue result ↔ OtherText text.now }
{
    let mut at = 0;
    'folds: loop {
        at += plain_len(&text[at..]);
        if !begins_with_fold(&text[at..]) {
            return at == text.len();
        }
        // A fold is CR, LF and one blank: three bytes.
        at += 3;
    }
}

// The length of the longest front that has no fold: bytes of a value, and blanks.
fn plain_len(text: &[u8]) -> usize
    ensures run { result ≡ prefix_len is_plain_byte text.now }
    ensures within { result ≤ length text.now }
{
    let mut at = blocks_len(text);
    while at < text.len() && is_plain(text[at]) {
        at += 1;
    }
    at
}

// The length of a front of bytes of a value and blanks, found block by block. The last block may begin within the one
// before it.
fn blocks_len(text: &[u8]) -> usize
    ensures plain { ArePlain text.now 0 result }
    ensures within { result ≤ length text.now }
{
    let mut at = 0;
    while text.len() - at >= BLOCK && is_plain_block(text, at) {
        at += BLOCK;
    }
    let len = text.len();
    if len - at < BLOCK && len >= BLOCK && is_plain_block(text, len - BLOCK) {
        return len;
    }
    if at == 0 { halves_len(text) } else { at }
}

// The length of a front of bytes of a value and blanks, of a text whose first 16 bytes are not all such, found by its first 8 bytes and
// its last 8.
#[inline]
fn halves_len(text: &[u8]) -> usize
    ensures plain { ArePlain text.now 0 result }
    ensures within { result ≤ length text.now }
{
    let len = text.len();
    if len < HALF || !is_plain_half(text, 0) {
        return 0;
    }
    if len <= BLOCK && is_plain_half(text, len - HALF) {
        return len;
    }
    HALF
}

// Whether the 8 bytes at this place are bytes of a value or blanks.
#[inline]
fn is_plain_half(text: &[u8], at: usize) -> bool
    requires { at + HALF ≤ length text.now }
    ensures { IsTrue result → ArePlain text.now at (at + HALF) }
{
    let half = u8x8::from_slice(&text[at..]);
    // The bytes that may not stand there are the controls other than HTAB, and DEL, which is 0x7f.
    let is_control = half.simd_lt(u8x8::splat(b' ')) & half.simd_ne(u8x8::splat(b'\t'));
    (is_control | half.simd_eq(u8x8::splat(0x7f))).to_bitmask() == 0
}

// Whether the bytes of the block at this place are bytes of a value or blanks.
#[inline]
fn is_plain_block(text: &[u8], at: usize) -> bool
    requires { at + BLOCK ≤ length text.now }
    ensures { IsTrue result → ArePlain text.now at (at + BLOCK) }
{
    let block = u8x16::from_slice(&text[at..]);
    // The bytes that may not stand there are the controls other than HTAB, and DEL, which is 0x7f.
    let is_control = block.simd_lt(u8x16::splat(b' ')) & block.simd_ne(u8x16::splat(b'\t'));
    (is_control | block.simd_eq(u8x16::splat(0x7f))).to_bitmask() == 0
}

// Whether the byte is one of a value, or a blank.
#[inline]
fn is_plain(byte: u8) -> bool
    ensures { result ≡ is_plain_byte byte }
{
    matches!(byte, b'!'..=b'~' | 0x80..=0xff | b' ' | b'\t')
}

// Whether the text begins with CRLF and a blank, which is a fold.
#[inline]
fn begins_with_fold(text: &[u8]) -> bool
    ensures { result ≡ begins_with_fold text.now }
{
    matches!(text, [b'\r', b'\n', b' ' | b'\t', ..])
}
