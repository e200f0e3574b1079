//! A source that hands out its bytes in pieces, and may fail.
ghost use Rattle.std.specs.Prelude.{◌≡◌, false, Some};

use sip_log::{Broken, Source};

/// A source that hands out its bytes in pieces: the first piece has one size, and all others have a second one.
#[derive(Drop)]
pub(crate) struct Pieces<'a> {
    /// The bytes that were not handed out yet.
    bytes: &'a [u8],
    /// The size of the next piece.
    first: usize,
    /// The size of each piece after it.
    others: usize,
    /// How many calls are answered before one fails; None where no call fails.
    calls: Option<usize>,
    /// Whether a call has failed.
    failed: bool,
}

impl<'a> Pieces<'a> {
    /// A source that hands out the bytes before a place in one piece, and those after it in another.
    pub(crate) fn cut_at(bytes: &'a [u8], place: usize) -> Pieces<'a>
        ensures { ⟦<Pieces<'a> as Source>⟧.has_failed result ≡ false }
    {
        Pieces {
            bytes,
            first: place,
            others: bytes.len(),
            calls: None,
            failed: false,
        }
    }

    /// A source that hands out its bytes one by one.
    pub(crate) fn single(bytes: &'a [u8]) -> Pieces<'a>
        ensures { ⟦<Pieces<'a> as Source>⟧.has_failed result ≡ false }
    {
        Pieces {
            bytes,
            first: 1,
            others: 1,
            calls: None,
            failed: false,
        }
    }

    /// A source that hands out pieces of one size, and fails after this many calls.
    pub(crate) fn failing_in(bytes: &'a [u8], size: usize, calls: usize) -> Pieces<'a>
        ensures { ⟦<Pieces<'a> as Source>⟧.has_failed result ≡ false }
    {
        Pieces {
            bytes,
            first: size,
            others: size,
            calls: Some(calls),
            failed: false,
        }
    }
}

impl<'a> Source for Pieces<'a> {
    // The bytes that are left, and whether the source has failed.
    ghost left = { λ s. Some s.bytes.now };

    ghost has_failed = { λ s. s.failed };

    // Hands out the next piece, as far as the buffer has room and bytes are left; or fails, once as many calls were answered as are to be.
    fn fill(&mut self, buf: &mut [u8]) -> Result<usize, Broken> {
        match self.calls {
            Some(0) => {
                self.failed = true;
                return Err(Broken);
            }
            Some(calls) => self.calls = Some(calls - 1),
            None => {}
        }
        // A piece of no bytes would mean the end, so that each has at least one.
        let size = self.first.max(1);
        let count = size.min(self.bytes.len()).min(buf.len());
        self.first = self.others;
        let (piece, rest) = self.bytes.split_at(count);
        buf[..count].copy_from_slice(piece);
        self.bytes = rest;
        Ok(count)
    }

    fn has_failed(&self) -> bool {
        self.failed
    }
}
