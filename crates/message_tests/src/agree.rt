//! Messages with bytes changed, read twice: as they are, and with a folded line of an unknown name after their fields. An ordinary head is
//! read by its masks and a folded one is not, and both readings must come to the same.

use crate::answer::answer_to;
use crate::changed::{NO_LINE, OVER_TCP, changed};
use crate::folded::FOLDED;
use crate::wants::is;
use std::alloc::{AllocError, Global};
use std::process::Abort;
use std::test::Fail;

/// The bytes that mean something to the reader, which are put in.
const MARKS: [u8; 16] = *b"\r\n\t :;,<>\"@=/a0\x7f";

/// How many messages each test makes of its text: 1,000,000 in all of the three texts whose heads are ordinary.
const COUNT: usize = 333_334;

/// The text with a folded line put before its first empty line.
fn with_fold(alloc: Global, text: &[u8]) -> Result<Vec<u8>, AllocError> {
    let mut out = Vec::new(alloc);
    let mut is_head = true;
    for at in 0..text.len() {
        if is_head && text[at..].starts_with(b"\r\n\r\n") {
            out.extend_from_slice(b"\r\nX: a\r\n b")?;
            is_head = false;
        }
        out.extend_from_slice(&text[at..=at])?;
    }
    Ok(out)
}

/// The text with one byte left out, put in or replaced, as the seed says. Its two lowest bits tell what is done: 0 puts a mark before the byte, 1 a mark
/// in its place, 2 any byte in its place, and 3 leaves it out. The bits from 8 on tell which byte comes, and those from 16 on at
/// which place.
fn mutated(alloc: Global, text: &[u8], seed: u64) -> Result<Vec<u8>, AllocError> {
    let place = (seed >> 16).checked_rem(text.len() as u64).unwrap_or(0);
    let mark = MARKS[(seed >> 8) as usize % 16];
    let mut out = Vec::new(alloc);
    for (at, byte) in text.iter().enumerate() {
        if at as u64 != place {
            out.extend_from_slice(&[*byte])?;
        } else if seed & 3 == 0 {
            out.extend_from_slice(&[mark, *byte])?;
        } else if seed & 3 == 1 {
            out.extend_from_slice(&[mark])?;
        } else if seed & 3 == 2 {
            out.extend_from_slice(&[((seed >> 8) & 0xff) as u8])?;
        }
    }
    Ok(out)
}

/// The next number of a sequence that comes to every number but 0.
fn next(seed: u64) -> u64 {
    let seed = seed ^ (seed << 13);
    let seed = seed ^ (seed >> 7);
    seed ^ (seed << 17)
}

/// Asserts that the text is answered as it is with a folded line.
fn agrees(rt: &(impl Abort + AllocGlobal), text: &[u8]) -> Result<(), Fail> {
    let folded = with_fold(rt.alloc(), text)?;
    let answer = answer_to(rt.alloc(), text)?;
    is(rt, answer_to(rt.alloc(), &folded)?, answer, &"folded");
    Ok(())
}

/// Asserts that each of the messages made of the text is answered as it is with a folded line. The sequence of seeds goes on from `start`, which may be
/// any number but 0.
fn mutated_agree(rt: &(impl Abort + AllocGlobal), text: &[u8], start: u64) -> Result<(), Fail> {
    let mut seed = start;
    for _ in 0..COUNT {
        seed = next(seed);
        let one = mutated(rt.alloc(), text, seed)?;
        agrees(rt, &one)?;
    }
    Ok(())
}

/// The ordinary request over UDP, with one byte left out, put in or replaced.
#[test]
fn mutated_requests_agree_with_folded_ones(rt: HostRuntime) -> Result<(), Fail> {
    let ordinary = changed(rt.alloc(), &[], b"")?;
    mutated_agree(&rt, &ordinary, 88_172_645_463_325_252)
}

/// The ordinary request over TCP, with one byte left out, put in or replaced.
#[test]
fn mutated_requests_over_tcp_agree_with_folded_ones(rt: HostRuntime) -> Result<(), Fail> {
    let over_tcp = changed(rt.alloc(), &[OVER_TCP], b"")?;
    mutated_agree(&rt, &over_tcp, 2_463_534_242)
}

/// The ordinary request without Content-Length, with one byte left out, put in or replaced.
#[test]
fn mutated_requests_without_a_length_agree_with_folded_ones(rt: HostRuntime) -> Result<(), Fail> {
    let no_length = changed(rt.alloc(), &[(6, NO_LINE)], b"body")?;
    mutated_agree(&rt, &no_length, 1_234_567_891_011)
}

/// A request that is folded already, with one byte left out, put in or replaced.
#[test]
fn mutated_folded_requests_agree_with_folded_ones(rt: HostRuntime) -> Result<(), Fail> {
    mutated_agree(&rt, FOLDED, 362_436_069_521_288_629)
}

/// Asserts that the text, with each byte in place of the one at this place, is answered as it is with a folded line.
fn replaced_agree(rt: &(impl Abort + AllocGlobal), text: &[u8], place: usize) -> Result<(), Fail> {
    for byte in u8::MIN..=u8::MAX {
        let mut one = Vec::from_slice(rt.alloc(), text)?;
        if let Some(it) = one.get_mut(place) {
            *it = byte;
        }
        agrees(rt, &one)?;
    }
    Ok(())
}

/// The folded request with each byte in place of each of its bytes.
#[test]
fn folded_requests_with_one_byte_replaced_agree(rt: HostRuntime) -> Result<(), Fail> {
    for place in 0..FOLDED.len() {
        replaced_agree(&rt, FOLDED, place)?;
    }
    Ok(())
}

/// The ordinary request with each byte in place of each of its bytes.
#[test]
fn requests_with_one_byte_replaced_agree(rt: HostRuntime) -> Result<(), Fail> {
    let ordinary = changed(rt.alloc(), &[], b"")?;
    for place in 0..ordinary.len() {
        replaced_agree(&rt, &ordinary, place)?;
    }
    Ok(())
}
