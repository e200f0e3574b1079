//! The parts of a log that is cut by branch.
ghost use Rattle.std.specs.Prelude.{◌≡◌, ◌≤◌, ◌<◌, ◌*◌, ◌%◌, ◌^◌, MatchOption, IfOk, List, ℕ, None, bit_xor, fold, option_copied};
ghost use Rattle.sip_standard.specs.Case.{folded};
ghost use Rattle.sip_part.specs.Led.{led_branch};
ghost use Rattle.sip_part.specs.Part.{PartOf, TellsBranch, compared, falls_into, fnv1a};

use crate::led::led_branch;
use crate::lower::lower;
use sip_message::{Message, ReadError};
use std::alloc::{AllocError, Global};
use std::marker::Model;

/// One of the parts of a log that is cut by branch: part `number` of `count`, counted from 1.
#[derive(Debug, Drop)]
pub struct Part {
    /// Which part this is, from 1.
    number: u32,
    /// How many parts there are.
    count: u32,
}

// Contracts see a part as its number and how many parts there are. At all times the number is at least 1, and not more than that.
impl Model for Part {
    ghost use Rattle.std.specs.Prelude.{◌<◌, ◌≤◌};
    ghost use Rattle.sip_part.specs.Part.{PartOf};

    ghost Value = { PartOf };

    ghost view = { λ p. record { number = p.number; count = p.count } };

    ghost invariant = { λ p. (0 < p.number) × (p.number ≤ p.count) };
}

impl Part {
    /// Part `number` of `count`, if there is such a part.
    pub fn new(number: u32, count: u32) -> Option<Part>
        ensures { MatchOption result (¬ ((0 < number) × (number ≤ count))) (λ part. (part ≡ record { number = number; count = count }) × (0 < number) × (number ≤ count)) }
    {
        if number == 0 || number > count {
            return None;
        }
        Some(Part { number, count })
    }

    /// Whether a branch falls into the part: it does where FNV-1a of 32 bits of its bytes in lower case, modulo the count of parts, is one less
    /// than the number of the part.
    pub fn has_branch(&self, branch: &[u8]) -> bool
        ensures { result ≡ falls_into self.now (folded branch.now) }
    {
        fnv1a(branch) % self.count + 1 == self.number
    }

    /// Whether a message falls into the part, by the branch of its top Via. A message with a fault falls by the branch that stands plainly in
    /// its first line that begins as a Via does, or as a message without a branch.
    #[inline(always)]
    pub fn has_message(&self, alloc: Global, bytes: &[u8]) -> Result<bool, AllocError>
        ensures { IfOk result (λ falls. (branch : List ℕ) × TellsBranch bytes.now branch × (falls ≡ falls_into self.now branch)) }
    {
        match led_branch(bytes) {
            Some(branch) => Ok(self.has_branch(branch)),
            None => self.has_read(alloc, bytes),
        }
    }

    /// Whether a message in which no branch stands plainly falls into the part. It is read whole.
    fn has_read(&self, alloc: Global, bytes: &[u8]) -> Result<bool, AllocError>
        requires { led_branch bytes.now ≡ None }
        ensures { IfOk result (λ falls. (branch : List ℕ) × TellsBranch bytes.now branch × (falls ≡ falls_into self.now branch)) }
    {
        match Message::read(alloc, bytes) {
            Ok(message) => Ok(self.has_compared(message.top_via().branch)),
            Err(ReadError::Fault(_)) => Ok(self.has_compared(None)),
            Err(ReadError::Memory) => Err(AllocError),
        }
    }

    /// Whether a message with this branch, or with none, falls into the part.
    fn has_compared(&self, branch: Option<&[u8]>) -> bool
        ensures { result ≡ falls_into self.now (compared (option_copied branch.entry)) }
    {
        match branch {
            Some(branch) => self.has_branch(branch),
            None => self.has_branch(b""),
        }
    }
}

/// The sum with which FNV-1a goes on after the cookie `z9hG4bK` in lower case, with which nearly every branch begins.
const COOKIE_SUM: u32 = 838_142_484;

/// FNV-1a of 32 bits of the bytes of the text in lower case.
fn fnv1a(text: &[u8]) -> u32
    ensures { result ≡ fnv1a (folded text.now) }
{
    // The sum up to the cookie is known, and the cookie has 7 bytes.
    if text.starts_with(b"z9hG4bK") {
        return joined(COOKIE_SUM, &text[7..]);
    }
    // FNV-1a of 32 bits begins with this number.
    joined(2_166_136_261, text)
}

/// The sum with which FNV-1a goes on from this one after the bytes of the text in lower case.
#[inline(always)]
fn joined(start: u32, text: &[u8]) -> u32
    ensures { result ≡ fold (λ sum byte. (bit_xor sum byte * 16777619) % 2 ^ 32) start (folded text.now) }
{
    let mut sum = start;
    for byte in text {
        // FNV-1a of 32 bits multiplies by this number; what goes beyond 32 bits is dropped.
        sum = (sum ^ u32::from(lower(*byte))).wrapping_mul(16_777_619);
    }
    sum
}
