//! The line ends of a head: whether each CR has its LF, and each LF its CR.
ghost use Rattle.std.specs.Prelude.{◌+◌, ◌≤◌, ◌<◌, ◌↔◌, IsTrue, length};
ghost use Rattle.sip_message.specs.inner.Lines.{HasNoBareEnd, ArePaired, BeginsWithFeed, IsPaired};

use std::simd::prelude::*;

// How many bytes are looked at in one step.
const BLOCK: usize = 32;

/// Whether the head has no CR without LF after it, and no LF without CR before it.
pub(crate) fn is_clean(head: &[u8]) -> bool
    ensures { IsTrue result ↔ HasNoBareEnd head.now }
{
    for at in blocks_len(head)..head.len() {
        if !is_paired(head, at) {
            return false;
        }
    }
    !begins_with_feed(head)
}

// The length of a front after each of whose bytes a LF stands exactly if the byte is a CR, found block by block.
// The last block may begin within the one before it.
fn blocks_len(text: &[u8]) -> usize
    ensures paired { ArePaired text.now 0 result }
    ensures within { result ≤ length text.now }
{
    let mut at = 0;
    while text.len() - at > BLOCK && is_paired_block(text, at) {
        at += BLOCK;
    }
    let len = text.len();
    if len - at <= BLOCK && len > BLOCK && is_paired_block(text, len - BLOCK - 1) {
        return len - 1;
    }
    at
}

// Whether after each byte of the block at this place a LF stands exactly if the byte is a CR.
#[inline]
fn is_paired_block(text: &[u8], at: usize) -> bool
    requires { at + BLOCK < length text.now }
    ensures { IsTrue result → ArePaired text.now at (at + BLOCK) }
{
    let ends = u8x32::from_slice(&text[at..]).simd_eq(u8x32::splat(b'\r'));
    let feeds = u8x32::from_slice(&text[at + 1..]).simd_eq(u8x32::splat(b'\n'));
    (ends ^ feeds).to_bitmask() == 0
}

// Whether after the byte at this place a LF stands exactly if the byte is a CR.
#[inline]
fn is_paired(text: &[u8], at: usize) -> bool
    requires { at < length text.now }
    ensures { IsTrue result ↔ IsPaired text.now at }
{
    let is_fed = at + 1 < text.len() && text[at + 1] == b'\n';
    (text[at] == b'\r') == is_fed
}

// Whether the text begins with a LF.
fn begins_with_feed(text: &[u8]) -> bool
    ensures { IsTrue result ↔ BeginsWithFeed text.now }
{
    !text.is_empty() && text[0] == b'\n'
}
