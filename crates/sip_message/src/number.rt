//! Names of fields as numbers of 8 bytes.
ghost use Rattle.std.specs.Prelude.{◌≡◌, ◌≤◌, length, take};
ghost use Rattle.sip_message.specs.inner.Numbers.{number_of};

use std::simd::prelude::*;

/// The number that the first `len` bytes of the window write, whatever the case of their letters.
#[inline(always)]
pub(crate) fn number_of(window: &[u8], len: usize) -> u64
    requires { (8 ≤ length window.now) × (1 ≤ len) × (len ≤ 8) }
    ensures { result ≡ number_of (take len window.now) }
{
    // The bit 0x20 makes a small letter of a great one. What stands after the `len` bytes is moved out.
    let small = u8x8::from_slice(window) | u8x8::splat(0x20);
    u64::from_le_bytes(small.to_array()) << (64 - 8 * len)
}
