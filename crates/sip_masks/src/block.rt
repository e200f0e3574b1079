//! One block of 64 bytes: which of them are plain, and which are controls.
ghost use Rattle.std.specs.Prelude.{◌≡◌, ℕ, ◌+◌, ◌<◌, ◌≤◌, ◌==◌, get_or, length};
ghost use Rattle.sip_masks.specs.Bits.{test};
ghost use Rattle.sip_masks.specs.Marks.{is_other, is_control};
ghost use Rattle.sip_masks.specs.inner.Strange.{is_beyond};

use std::simd::prelude::*;

// A byte has kinds: for each low half LOW has a bit for each kind of high half with which the two halves make a plain byte or a
// control, and for each high half HIGH has the bits of its kinds. The low five bits are the kinds of plain bytes, by the high halves
// 2, 3, 4 and 6, 5, and 7. The others are those of controls, by the high halves 0, 1, and 7. No byte is of both. Each table
// stands four times.
const LOW: [u8; 64] = [
    0x7a, 0x7f, 0x7e, 0x7e, 0x7e, 0x7e, 0x7e, 0x7f, 0x7e, 0x5e, 0x7d, 0x65, 0x64, 0x65, 0x75, 0xec,
    0x7a, 0x7f, 0x7e, 0x7e, 0x7e, 0x7e, 0x7e, 0x7f, 0x7e, 0x5e, 0x7d, 0x65, 0x64, 0x65, 0x75, 0xec,
    0x7a, 0x7f, 0x7e, 0x7e, 0x7e, 0x7e, 0x7e, 0x7f, 0x7e, 0x5e, 0x7d, 0x65, 0x64, 0x65, 0x75, 0xec,
    0x7a, 0x7f, 0x7e, 0x7e, 0x7e, 0x7e, 0x7e, 0x7f, 0x7e, 0x5e, 0x7d, 0x65, 0x64, 0x65, 0x75, 0xec,
];

// For each high half the bits of its kinds, four times over.
const HIGH: [u8; 64] = [
    0x20, 0x40, 0x01, 0x02, 0x04, 0x08, 0x04, 0x90, 0x00, 0x00, 0x00, 0x00, 0x00, 0x00, 0x00, 0x00,
    0x20, 0x40, 0x01, 0x02, 0x04, 0x08, 0x04, 0x90, 0x00, 0x00, 0x00, 0x00, 0x00, 0x00, 0x00, 0x00,
    0x20, 0x40, 0x01, 0x02, 0x04, 0x08, 0x04, 0x90, 0x00, 0x00, 0x00, 0x00, 0x00, 0x00, 0x00, 0x00,
    0x20, 0x40, 0x01, 0x02, 0x04, 0x08, 0x04, 0x90, 0x00, 0x00, 0x00, 0x00, 0x00, 0x00, 0x00, 0x00,
];

// The kinds of a control are 32 or above; those of a plain byte are below. With this number added the kinds of controls have the top bit,
// and no others have it.
const RAISE: u8 = 96;

// The top bit of a byte.
const TOP: u8 = 128;

// A bit for each byte of the block that is not plain.
#[inline(always)]
pub(crate) fn others(v: u8x64) -> u64
    ensures { (i : ℕ) → i < 64 → test result i ≡ is_other (get_or v i 0) }
{
    let low = u8x64::from_array(LOW).swizzle_dyn_within::<16>(v & u8x64::splat(15));
    let high = u8x64::from_array(HIGH).swizzle_dyn_within::<16>(v >> u8x64::splat(4));
    // A byte is plain if its two entries share a kind of plain bytes, and a control if they share one of controls; else they share none.
    let kinds = low & high;
    let raised = kinds + u8x64::splat(RAISE);
    kinds.simd_eq(u8x64::splat(0)).to_bitmask() | raised.simd_ge(u8x64::splat(TOP)).to_bitmask()
}

// A bit for each control of the block other than HTAB. They are found by the same look-ups as the bytes that are not plain.
#[inline(always)]
pub(crate) fn controls(v: u8x64) -> u64
    ensures { (i : ℕ) → i < 64 → test result i ≡ is_control (get_or v i 0) }
{
    let low = u8x64::from_array(LOW).swizzle_dyn_within::<16>(v & u8x64::splat(15));
    let high = u8x64::from_array(HIGH).swizzle_dyn_within::<16>(v >> u8x64::splat(4));
    let raised = (low & high) + u8x64::splat(RAISE);
    raised.simd_ge(u8x64::splat(TOP)).to_bitmask()
}

// The last bytes of the text, filled up with NUL: nothing is read past the end.
pub(crate) fn tail(text: &[u8], at: usize) -> u8x64
    requires { (at ≤ length text.now) × (length text.now < at + 64) }
    ensures { (i : ℕ) → i < 64 → get_or result i 0 ≡ get_or text.now (at + i) 0 }
{
    let mut last = [0; 64];
    let mut i = 0;
    while i < text.len() - at {
        last[i] = text[at + i];
        i += 1;
    }
    u8x64::from_array(last)
}

// The first byte of the range from `-` up to `z`, in which the bytes of a hostname lie with the bit of small letters set.
const FIRST: u8 = b'-';

// How many bytes there are from `FIRST` up to `z`.
const COUNT: u8 = 78;

// A bit for each byte that is not from `-` up to `z` with the bit of small letters set. Of plain bytes these are the ones that stand in no
// name of a host.
#[inline(always)]
pub(crate) fn beyond(v: u8x32) -> u64
    ensures { (i : ℕ) → i < 32 → test result i ≡ is_beyond (get_or v i 0) }
{
    let small = v | u8x32::splat(0x20);
    // From `FIRST` on the bytes are counted from 0, and those below it come out as great numbers.
    (small - u8x32::splat(FIRST))
        .simd_ge(u8x32::splat(COUNT))
        .to_bitmask()
}

// A bit for each byte that is equal to this one.
#[inline(always)]
pub(crate) fn equal_to(v: u8x32, byte: u8) -> u64
    ensures { (i : ℕ) → i < 32 → test result i ≡ (get_or v i 0 == byte) }
{
    v.simd_eq(u8x32::splat(byte)).to_bitmask()
}
