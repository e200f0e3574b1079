//! Texts compared but for their blanks.
ghost use Rattle.std.specs.Prelude.{◌≡◌, ◌∷◌, ◌↔◌, [], IfOk, IsTrue, MatchOption};
ghost use Rattle.sip_standard.specs.Solid.{solid};
ghost use Rattle.sip_standard.specs.Field.{is_lws_byte};

use std::alloc::{AllocError, Global};
use std::marker::Model;

/// Whether the texts are equal without their blanks. Where they differ as they stand, it walks both byte by byte. It takes no memory.
pub(crate) fn same_solid(a: &[u8], b: &[u8]) -> bool
    ensures { IsTrue result ↔ (solid a.now ≡ solid b.now) }
{
    a == b || Solid { rest: a }.eq(Solid { rest: b })
}

/// The text without its blanks.
pub fn solid_of(alloc: Global, text: &[u8]) -> Result<Vec<u8>, AllocError>
    ensures { IfOk result (λ solid_text. solid_text.items ≡ solid text.now) }
{
    let mut out = Vec::with_capacity(alloc, text.len())?;
    for byte in text {
        if !is_blank(*byte) {
            out.push(*byte)?;
        }
    }
    Ok(out)
}

// The bytes of a text that are no blanks, in order.
#[derive(Drop)]
struct Solid<'a> {
    // The text from the first byte on that was not looked at yet.
    rest: &'a [u8],
}

impl<'a> Model for Solid<'a> {
    ghost use Rattle.std.specs.Prelude.{ℕ, List};
    ghost use Rattle.sip_standard.specs.Solid.{solid};

    // Contracts see this as the bytes that are still handed out: those of the rest that are no blanks.
    ghost Value = { List ℕ };

    ghost view = { λ it. solid it.rest.now };
}

impl<'a> Iterator for Solid<'a> {
    ghost use Rattle.std.specs.Iterator.{YieldsFirst, item_count};

    type Item = u8;

    // A call gives the first of these bytes, and leaves the others.
    ghost next_gives = { YieldsFirst (λ it. it) };

    // No more bytes come than are left.
    ghost remaining = { item_count (λ it. it) };

    fn next(&mut self) -> Option<u8> {
        let (byte, rest) = next_solid(self.rest)?;
        self.rest = rest;
        Some(byte)
    }
}

/// The first byte of the text that is no blank, and what follows it; None where there is no such byte.
pub(crate) fn next_solid(text: &[u8]) -> Option<(u8, &[u8])>
    ensures { MatchOption result (solid text.now ≡ []) (λ r. solid text.now ≡ r.0 ∷ solid r.1.now) }
{
    let mut rest = text;
    'blanks: while let [byte, behind @ ..] = rest {
        if !is_blank(*byte) {
            return Some((*byte, behind));
        }
        rest = behind;
    }
    None
}

// Whether the byte is a blank: SP, HTAB, CR or LF.
fn is_blank(byte: u8) -> bool
    ensures { result ≡ is_lws_byte byte }
{
    matches!(byte, b' ' | b'\t' | b'\r' | b'\n')
}
