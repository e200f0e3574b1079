//! Devices of the tests.
ghost use Rattle.std.specs.Prelude.{None, Some};

use sip_log::{Broken, Sink, Source};

/// Hands out bytes in pieces: the first piece of one size, and each later one of another size.
#[derive(Drop)]
pub(crate) struct Pieces<'a> {
    /// The bytes that were not handed out yet.
    bytes: &'a [u8],
    /// The size of the next piece.
    first: usize,
    /// The size of each piece after it.
    others: usize,
    /// How many calls are answered before one fails. Without a number none fails.
    calls: Option<usize>,
    /// Whether a call has failed.
    failed: bool,
}

impl<'a> Pieces<'a> {
    /// Hands out the bytes before a place in one piece, and those after it in another.
    pub(crate) fn cut_at(bytes: &'a [u8], place: usize) -> Pieces<'a> {
        Pieces {
            bytes,
            first: place,
            others: bytes.len(),
            calls: None,
            failed: false,
        }
    }

    /// Hands out the bytes one by one.
    pub(crate) fn single(bytes: &'a [u8]) -> Pieces<'a> {
        Pieces {
            bytes,
            first: 1,
            others: 1,
            calls: None,
            failed: false,
        }
    }

    /// Hands out the bytes one by one, and fails at the call after this many.
    pub(crate) fn failing(bytes: &'a [u8], calls: usize) -> Pieces<'a> {
        Pieces {
            bytes,
            first: 1,
            others: 1,
            calls: Some(calls),
            failed: false,
        }
    }
}

impl<'a> Source for Pieces<'a> {
    // What is left to read is known: the bytes that were not handed out.
    ghost left = { λ s. Some s.bytes.now };

    ghost has_failed = { λ s. s.failed };

    // Hands out the next piece, as far as the buffer has room and bytes are left; or fails, once as many calls were answered as are to be.
    fn fill(&mut self, buf: &mut [u8]) -> Result<usize, Broken> {
        match self.calls {
            Some(0) => {
                self.failed = true;
                return Err(Broken);
            }
            Some(calls) => self.calls = Some(calls - 1),
            None => {}
        }
        // A piece of no bytes would mean the end.
        let size = self.first.max(1);
        let count = size.min(self.bytes.len()).min(buf.len());
        self.first = self.others;
        let (piece, rest) = self.bytes.split_at(count);
        buf[..count].copy_from_slice(piece);
        self.bytes = rest;
        Ok(count)
    }

    fn has_failed(&self) -> bool {
        self.failed
    }
}

/// Takes this many pieces, keeps none of them, and then fails.
#[derive(Drop)]
pub(crate) struct Room {
    /// How many pieces are taken before a call fails.
    calls: usize,
    /// How many pieces were taken.
    taken: usize,
    /// Whether a call has failed.
    failed: bool,
}

impl Room {
    /// A sink that takes this many pieces, and fails at the next one.
    pub(crate) fn of(calls: usize) -> Room {
        Room {
            calls,
            taken: 0,
            failed: false,
        }
    }

    /// How many pieces were taken.
    pub(crate) fn taken(&self) -> usize {
        self.taken
    }
}

impl Sink for Room {
    // What was written is not known, since no piece is kept.
    ghost written = { λ _. None };

    ghost has_failed = { λ s. s.failed };

    // Takes a piece and counts it, or fails once as many were taken as there is room for.
    fn put(&mut self, _bytes: &[u8]) -> Result<(), Broken> {
        if self.taken >= self.calls {
            self.failed = true;
            return Err(Broken);
        }
        self.taken += 1;
        Ok(())
    }

    fn has_failed(&self) -> bool {
        self.failed
    }
}
