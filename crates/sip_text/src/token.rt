//! Tokens.
ghost use Rattle.std.specs.Prelude.{◌≡◌, ◌+◌, ◌/◌, ◌≤◌, length, map, slice_index, bit_and};
ghost use Rattle.std.specs.List.{list_all, prefix_len};
ghost use Rattle.std.specs.Simd.Lanes.{chunk};
ghost use Rattle.sip_standard.specs.Profile.{Token};
ghost use Rattle.sip_text.specs.Bytes.{is_token_byte};
ghost use Rattle.sip_text.specs.Front.{IsLongestFront};
ghost use Rattle.sip_text.specs.declared.token.TheConstants.{LOW, HIGH};

use crate::class::{Class, run_len};
use std::simd::prelude::*;

/// The length in bytes of the longest front of the text that is a `token` (RFC 3261, section 25.1),
/// and 0 if there is none. The last block that is looked at may begin within the one before it.
pub fn token_len(text: &[u8]) -> usize
    ensures reads { IsLongestFront Token text.now result }
    ensures within { result ≤ length text.now }
{
    if text.len() < BLOCK {
        return run_len(Class::Token, text);
    }
    let last = text.len() - BLOCK;
    let mut at = 0;
    while at < last {
        let step = block_len(text, at);
        if step < BLOCK {
            return at + step;
        }
        at += BLOCK;
    }
    // The last 16 bytes are looked at as a block of their own, of which some may have been looked at before.
    last + block_len(text, last)
}

/// Whether each byte is a byte of a token.
#[inline]
pub fn are_token_bytes(text: &[u8]) -> bool
    ensures { result ≡ list_all is_token_byte text.now }
{
    token_len(text) == text.len()
}

// How many bytes are looked at in one step.
const BLOCK: usize = 16;

// For each low half of a byte, LOW has a bit for each high half, 2 to 7, with which it makes a byte of a token. For each high half
// HIGH has its bit. A byte is one of a token exactly if its two entries share a bit.
const LOW: [u8; 16] = [
    0x3a, 0x3f, 0x3e, 0x3e, 0x3e, 0x3f, 0x3e, 0x3f, 0x3e, 0x3e, 0x3d, 0x15, 0x14, 0x15, 0x35, 0x1c,
];

// For each high half of a byte, its bit in the entries of LOW.
const HIGH: [u8; 16] = [
    0x00, 0x00, 0x01, 0x02, 0x04, 0x08, 0x10, 0x20, 0x00, 0x00, 0x00, 0x00, 0x00, 0x00, 0x00, 0x00,
];

// How many bytes of tokens stand at the front of the block at this place.
#[inline]
fn block_len(text: &[u8], at: usize) -> usize
    requires { at + BLOCK ≤ length text.now }
    ensures run { result ≡ prefix_len is_token_byte (chunk at BLOCK text.now) }
    ensures within { result ≤ BLOCK }
{
    let block = u8x16::from_slice(&text[at..]);
    // A byte whose two entries share no bit is none of a token; the lowest bit that is set is that of the first such byte.
    let others = (by_low(block) & by_high(block))
        .simd_eq(u8x16::splat(0))
        .to_bitmask();
    if others == 0 {
        BLOCK
    } else {
        others.trailing_zeros() as usize
    }
}

// The entry of LOW for the low half of each byte.
#[inline]
fn by_low(block: u8x16) -> u8x16
    ensures { result ≡ map (λ x. slice_index LOW (bit_and x 15)) block }
{
    u8x16::from_array(LOW).swizzle_dyn(block & u8x16::splat(15))
}

// The entry of HIGH for the high half of each byte.
#[inline]
fn by_high(block: u8x16) -> u8x16
    ensures { result ≡ map (λ x. slice_index HIGH (x / 16)) block }
{
    u8x16::from_array(HIGH).swizzle_dyn(block >> u8x16::splat(4))
}
