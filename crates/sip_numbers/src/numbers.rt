//! Sets of numbers.
ghost use Rattle.std.specs.Prelude.{◌≡◌, ◌==◌, ◌&&◌, ◌<◌, ◌≤◌, ◌+◌, ◌/◌, ◌%◌, ◌^◌, ℕ, cond, not, true, false, length, IfSome, IfNone, OnOk, OnErr, MatchResult};
ghost use Rattle.std.specs.Bool.{OnTrue};
ghost use Rattle.std.specs.List.{AllWithin};
ghost use Rattle.sip_masks.specs.Bits.{test};
ghost use Rattle.sip_numbers.specs.Numbers.{IsFirstInBoth, NoneInBoth, has_bit, numbers_of};
ghost use Rattle.sip_numbers.specs.inner.Numbers.{AreWords, IsFirstOf, IsPlaceFor};

use std::alloc::{AllocError, Global};
use std::marker::Model;

/// Some of 64 numbers in a row, from 64 * `block` on: those whose bits are set.
#[derive(Clone, Copy, Debug)]
struct Word {
    block: u64,
    bits: u64,
}

/// A set of numbers, in which 64 numbers in a row stand in one word. Contracts see the words, and ask only whether one of them has a number.
#[derive(Debug, Drop)]
pub struct Numbers {
    words: Vec<Word>,
}

impl Model for Numbers {
    ghost use Rattle.std.specs.Prelude.{List};
    ghost use Rattle.sip_numbers.specs.declared.numbers.Word.{Word};

    // What a set means is its words, of which `numbers_of` tells which numbers are there.
    ghost Value = { List Word };

    ghost use Rattle.sip_numbers.specs.inner.Numbers.{AreWords};

    ghost view = { λ n. n.words.items };

    // The words are in order, one for each block of 64 numbers.
    ghost invariant = { λ n. AreWords n.words.items };
}

impl Numbers {
    /// A set without numbers.
    #[tactic(auto, unfolding(crate::specs::Numbers::numbers_of))]
    pub fn new(alloc: Global) -> Self
        ensures { (n : ℕ) → numbers_of result n ≡ false }
    {
        Numbers {
            words: Vec::new(alloc),
        }
    }

    /// Puts the number in. On an error the set is as before.
    #[tactic(auto, using(crate::proofs::PlaceLemmas::changes))]
    pub fn put(&mut self, number: u64) -> Result<(), AllocError>
        ensures ok { OnOk result ((n : ℕ) → numbers_of self.new n ≡ cond (n == number) true (numbers_of self.old n)) }
        ensures err { OnErr result (self.new ≡ self.old) }
    {
        let block = number / 64;
        let bit = 1 << (number % 64);
        match place_for(&self.words, block, near(&self.words, block)) {
            Ok(at) => {
                self.words[at].bits |= bit;
                Ok(())
            }
            Err(at) => Ok(self.words.insert(at, Word { block, bits: bit })?),
        }
    }

    /// Takes the number out, if it is there.
    #[tactic(auto, using(crate::proofs::PlaceLemmas::changes))]
    pub fn take(&mut self, number: u64)
        ensures { (n : ℕ) → numbers_of self.new n ≡ cond (n == number) false (numbers_of self.old n) }
    {
        let block = number / 64;
        let Ok(at) = place_for(&self.words, block, near(&self.words, block)) else {
            return;
        };
        let bits = self.words[at].bits & !(1 << (number % 64));
        if bits == 0 {
            let _word = self.words.remove(at);
        } else {
            self.words[at].bits = bits;
        }
    }

    /// The first number from `from` on that is in both sets.
    pub fn next_in_both(&self, other: &Numbers, from: u64) -> Option<u64>
        ensures found { IfSome result (IsFirstInBoth (numbers_of self.now) (numbers_of other.now) from) }
        ensures none { IfNone result (NoneInBoth (numbers_of self.now) (numbers_of other.now) from) }
    {
        next_but(&self.words, &other.words, &[], from)
    }

    /// The first number from `from` on that is in both sets, and not in a third one.
    pub fn next_in_both_but(&self, other: &Numbers, but: &Numbers, from: u64) -> Option<u64>
        ensures found { IfSome result (IsFirstInBoth (numbers_of self.now) (λ n. numbers_of other.now n && not (numbers_of but.now n)) from) }
        ensures none { IfNone result (NoneInBoth (numbers_of self.now) (λ n. numbers_of other.now n && not (numbers_of but.now n)) from) }
    {
        next_but(&self.words, &other.words, &but.words, from)
    }
}

/// The first number from `from` on that the first two sets have, and the third has not.
#[tactic(auto, using(std::proofs::lemmas::List::take_all))]
fn next_but(words: &[Word], other: &[Word], but: &[Word], from: u64) -> Option<u64>
    requires words { AreWords words.now }
    requires other { AreWords other.now }
    requires but { AreWords but.now }
    ensures found { IfSome result (IsFirstInBoth (numbers_of words.now) (λ n. numbers_of other.now n && not (numbers_of but.now n)) from) }
    ensures none { IfNone result (NoneInBoth (numbers_of words.now) (λ n. numbers_of other.now n && not (numbers_of but.now n)) from) }
{
    let block = from / 64;
    let (Ok(start) | Err(start)) = place_for(words, block, near(words, block));
    let (mut beside, mut out) = (near(other, block), near(but, block));
    for at in start..words.len() {
        let word = words[at];
        let left = Word {
            block: word.block,
            bits: word.bits
                & bits_of(other, word.block, &mut beside)
                & !bits_of(but, word.block, &mut out),
        };
        if let Some(number) = first_from(left, from) {
            return Some(number);
        }
    }
    None
}

/// The bits of the word of this block. None of them is set where there is no such word. It is looked for at `near` first, and `near` is left after it.
#[inline(always)]
#[tactic(auto, using(crate::proofs::PlaceLemmas::told))]
fn bits_of(words: &[Word], block: u64, near: &mut usize) -> u64
    requires { AreWords words.now }
    ensures { (n : ℕ) → n / 64 ≡ block → test result (n % 64) ≡ numbers_of words.now n }
{
    match place_for(words, block, *near) {
        Ok(at) => {
            *near = at + 1;
            words[at].bits
        }
        Err(at) => {
            *near = at;
            0
        }
    }
}

/// The place of the word of this block, or the one where it would stand: at `near`, or where a search finds it.
#[inline(always)]
fn place_for(words: &[Word], block: u64, near: usize) -> Result<usize, usize>
    requires { AreWords words.now }
    ensures { MatchResult result (λ at. IsPlaceFor words.now block at (at + 1)) (λ at. IsPlaceFor words.now block at at) }
{
    match words.get(near) {
        Some(word) if word.block == block => Ok(near),
        Some(word) if block < word.block && is_after(words, block, near) => Err(near),
        None if near == words.len() && is_after(words, block, near) => Err(near),
        _ => words.binary_search_by_key(&block, |word| word.block),
    }
}

/// Whether the words before the place are of lesser blocks than this one.
#[tactic(auto, using(crate::proofs::PlaceLemmas::lesser))]
fn is_after(words: &[Word], block: u64, place: usize) -> bool
    requires words { AreWords words.now }
    requires place { place ≤ length words.now }
    ensures { OnTrue result (AllWithin (λ word. word.block < block) words.now 0 place) }
{
    place == 0 || words[place - 1].block < block
}

/// The place where the word of this block stands if no block is left out before it.
fn near(words: &[Word], block: u64) -> usize {
    let first = words.first().map_or(0, |word| word.block);
    block.saturating_sub(first) as usize
}

/// The first number from `from` on that the word has.
#[tactic(auto, using(crate::proofs::WordLemmas::none))]
fn first_from(word: Word, from: u64) -> Option<u64>
    requires { word.block < 2 ^ 58 }
    ensures found { IfSome result (IsFirstOf word from) }
    ensures none { IfNone result ((n : ℕ) → from ≤ n → has_bit n word ≡ false) }
{
    // Mostly no bit is set.
    if word.bits == 0 {
        return None;
    }
    // The bits of lesser numbers than `from` are left out.
    let low = from.saturating_sub(64 * word.block);
    if low >= 64 {
        return None;
    }
    let bits = (word.bits >> low) << low;
    if bits == 0 {
        return None;
    }
    Some(64 * word.block + u64::from(bits.trailing_zeros()))
}
