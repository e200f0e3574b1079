//! The masks of a text.
ghost use Rattle.std.specs.Prelude.{◌≡◌, ℕ, false, not, ◌+◌, ◌-◌, ◌*◌, ◌/◌, ◌%◌, ◌<◌, ◌≤◌, MatchOption, get_or, length, take, drop};
ghost use Rattle.std.specs.List.{prefix_len};
ghost use Rattle.sip_masks.specs.Bits.{test};
ghost use Rattle.sip_masks.specs.Marks.{is_plain, is_control, is_other, BitsTell, words_for};

use crate::block::{controls, others, tail};
use std::marker::Model;
use std::simd::prelude::*;

/// A text with its masks: it is seen as the text.
#[derive(Debug, Drop)]
pub struct Masks<'t, 'm> {
    /// The text.
    text: &'t [u8],
    /// A bit for each byte that is not plain.
    others: &'m [u64],
    /// A bit for each control.
    controls: &'m [u64],
}

impl<'t, 'm> Model for Masks<'t, 'm> {
    ghost use Rattle.std.specs.Prelude.{ℕ, List};
    ghost use Rattle.sip_masks.specs.Marks.{IsMasks};

    // Contracts see this as the bytes of the text.
    ghost Value = { List ℕ };

    ghost view = { λ m. m.text.now };

    // At all times the words are the masks of the text.
    ghost invariant = { λ m. IsMasks m.text.now m.others.now m.controls.now };
}

// Marks the bytes of a front of the text in the words, and after them the places of two words as NUL. The front ends after
// the block in which an empty line ends, or else with the text.
#[inline(never)]
fn mark(text: &[u8], other: &mut [u64], control: &mut [u64]) -> usize
    requires { (words_for (length text.now) ≤ length other.old) × (words_for (length text.now) ≤ length control.old) }
    ensures within { result ≤ length text.now }
    ensures other { BitsTell is_other (take result text.now) other.new (64 * words_for result) }
    ensures control { BitsTell is_control (take result text.now) control.new (64 * words_for result) }
    ensures lengths { (length other.new ≡ length other.old) × (length control.new ≡ length control.old) }
{
    let mut word = 0;
    // Each turn marks 64 bytes. It stops where the head of a message may end, since the rest is a body.
    while text.len() - 64 * word >= 64 {
        let v = u8x64::from_slice(&text[64 * word..]);
        let ends = controls(v);
        other[word] = others(v);
        control[word] = ends;
        word += 1;
        if holds_empty_line(ends) {
            // One word more is marked at all places, so that a search ends there.
            other[word] = !0;
            control[word] = !0;
            other[word + 1] = !0;
            control[word + 1] = !0;
            return 64 * word;
        }
    }
    // The last bytes are fewer than 64, and the places past the text are marked.
    let v = tail(text, 64 * word);
    other[word] = others(v);
    control[word] = controls(v);
    other[word + 1] = !0;
    control[word + 1] = !0;
    text.len()
}

// Whether a control stands three bytes after another, as at the end of a head, where the first of four controls in a row is a CR and the
// last one a LF. Nothing rests on the answer but how many bytes are marked.
#[inline(always)]
fn holds_empty_line(ends: u64) -> bool {
    ends & (ends >> 3) != 0
}

// The 64 bits of the words from place p on.
#[inline(always)]
fn word_at(words: &[u64], p: usize) -> u64
    requires { p / 64 + 1 < length words.now }
    ensures { (j : ℕ) → j < 64 → test result j ≡ test (get_or words.now ((p + j) / 64) 0) ((p + j) % 64) }
{
    let r = p % 64;
    // The next word is moved up by 64 - r in two steps: r may be 0, and one step of 64 is not allowed.
    (words[p / 64] >> r) | ((words[p / 64 + 1] << 1) << (63 - r))
}

// The bits from place p on of the one word that holds it.
#[inline(always)]
fn rest_at(words: &[u64], p: usize) -> u64
    requires { p / 64 < length words.now }
    ensures bits { (j : ℕ) → j < 64 - p % 64 → test result j ≡ test (get_or words.now ((p + j) / 64) 0) ((p + j) % 64) }
    ensures none { (j : ℕ) → 64 - p % 64 ≤ j → test result j ≡ false }
{
    words[p / 64] >> (p % 64)
}

impl<'t, 'm> Masks<'t, 'm> {
    /// A front of the text with its masks, which are written into the words. Mostly it ends with the block in
    /// which the first empty line ends.
    pub fn of(text: &'t [u8], other: &'m mut [u64], control: &'m mut [u64]) -> Masks<'t, 'm>
        requires { (words_for (length text.now) ≤ length other.old) × (words_for (length text.now) ≤ length control.old) }
        ensures { result ≡ take (length result) text.now }
    {
        let len = mark(text, other, control);
        Masks {
            text: &text[..len],
            others: other,
            controls: control,
        }
    }

    /// The text.
    #[inline(always)]
    pub fn text(&self) -> &'t [u8]
        ensures { result.now ≡ self.now }
    {
        self.text
    }

    /// The length of the run of plain bytes at p.
    #[inline(always)]
    pub fn run_at(&self, p: usize) -> usize
        requires { p ≤ length self.now }
        ensures { result ≡ prefix_len is_plain (drop p self.now) }
    {
        match self.short_run_at(p) {
            Some(len) => len,
            None => self.long_run(p),
        }
    }

    /// The length of the run of plain bytes at p, if it is less than 64.
    #[inline(always)]
    pub fn short_run_at(&self, p: usize) -> Option<usize>
        requires { p ≤ length self.now }
        ensures { MatchOption result (64 ≤ prefix_len is_plain (drop p self.now)) (λ len. (len ≡ prefix_len is_plain (drop p self.now)) × (len < 64)) }
    {
        let word = word_at(self.others, p);
        if word == 0 {
            return None;
        }
        // The lowest bit that is set is of the first byte that is not plain.
        Some(word.trailing_zeros() as usize)
    }

    // The length of the run of plain bytes at p, however long it is.
    #[inline(never)]
    fn long_run(&self, p: usize) -> usize
        requires { p ≤ length self.now }
        ensures { result ≡ prefix_len is_plain (drop p self.now) }
    {
        let mut q = p;
        loop {
            let word = word_at(self.others, q);
            if word != 0 {
                return q - p + word.trailing_zeros() as usize;
            }
            // None of these 64 bytes ends the run.
            q += 64;
        }
    }

    /// The place of the next control from p on, or the end.
    #[inline(always)]
    pub fn next_control(&self, p: usize) -> usize
        requires { p ≤ length self.now }
        ensures { result ≡ p + prefix_len (λ b. not (is_control b)) (drop p self.now) }
    {
        let mut q = p;
        loop {
            let word = rest_at(self.controls, q);
            if word != 0 {
                return q + word.trailing_zeros() as usize;
            }
            // The search goes on with the next word.
            q += 64 - q % 64;
        }
    }
}
