//! Names of hosts, by bit sets.
ghost use Rattle.std.specs.Prelude.{◌≡◌, ◌↔◌, ◌<◌, ◌≤◌, ℕ, true, false, IsTrue, MatchOption, take, drop, length};
ghost use Rattle.std.specs.List.{prefix_len};
ghost use Rattle.sip_masks.specs.Bits.{test};
ghost use Rattle.sip_masks.specs.Marks.{is_plain};
ghost use Rattle.sip_masks.specs.Names.{OrdinaryName, BeginsWithName};

use crate::block::{beyond, equal_to};
use crate::masks::Masks;
use std::simd::prelude::*;

// The longest name that the quick test looks at, in bytes.
const LONGEST: usize = 32;

impl<'t, 'm> Masks<'t, 'm> {
    /// The length of the run of plain bytes at p, if the run is a hostname of an ordinary kind: one of at most 32 bytes that no dot ends.
    /// Where there is no answer, a hostname of another kind may stand there, or one after whose first byte fewer than 31 are left.
    #[inline]
    pub fn name_at(&self, p: usize) -> Option<usize>
        requires { p ≤ length self.now }
        ensures { MatchOption result ((len : ℕ) → ¬ (BeginsWithName (drop p self.now) len)) (BeginsWithName (drop p self.now)) }
    {
        let rest = &self.text()[p..];
        let len = self.short_run_at(p)?;
        if is_ordinary_name(rest, len) {
            Some(len)
        } else {
            None
        }
    }
}

// Whether the first `len` bytes of the window, which are plain, are a hostname of an ordinary kind. Where the answer is no, they may
// still be a hostname, of another kind or in a window of fewer than 32 bytes.
#[inline(always)]
fn is_ordinary_name(window: &[u8], len: usize) -> bool
    requires { len ≤ prefix_len is_plain window.now }
    ensures { IsTrue result ↔ (OrdinaryName (take len window.now) × (32 ≤ length window.now)) }
{
    if len == 0 || len > LONGEST || window.len() < LONGEST {
        return false;
    }
    let v = u8x32::from_slice(window);
    // Bit i of each set is of byte i: `all` has the bytes of the name, and `begins` the places at which a label begins, the first among them.
    let all = !0u64 >> (64 - len);
    // After the name a dot is taken to stand, as before it.
    let dots = (equal_to(v, b'.') & all) | (1 << len);
    let hyphens = equal_to(v, b'-') & all;
    let begins = (dots << 1) | 1;
    // Bad are a byte of no hostname, a dot or a hyphen where a label begins, and a dot right after a hyphen.
    let bad = (beyond(v) & all) | (begins & (dots | hyphens)) | (dots & (hyphens << 1));
    // The highest place at which a label begins in the name is that of its last label, whose first byte has to be a letter.
    bad == 0 && window[highest(begins & all)].is_ascii_alphabetic()
}

// The place of the highest bit that is set.
#[inline(always)]
fn highest(word: u64) -> usize
    requires { 0 < word }
    ensures set { test word result ≡ true }
    ensures above { (j : ℕ) → result < j → test word j ≡ false }
{
    63 - word.leading_zeros() as usize
}
