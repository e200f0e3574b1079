//! The one buffer through which a log is read: the bytes from `start` to `end`, and room after them.
ghost use Rattle.std.specs.Prelude.{◌≡◌, ◌+◌, ◌<◌, ◌≤◌, ◌⊎◌, ℕ, true, false, None, [], length, take, drop, IfOk, IfSome, OnOk, OnErr, vec_len};
ghost use Rattle.std.specs.Io.KnownBytes.{IsAtEnd};
ghost use Rattle.memchr.specs.Find.{IsFirstByte, is_byte};
ghost use Rattle.sip_standard.specs.LogSays.{line_feed};
ghost use Rattle.sip_log.specs.inner.Reads.{Reads};

use memchr::memchr;
use sip_standard::{Broken, Source};
use std::alloc::{AllocError, Global};

/// The number of bytes for which a window has room, in which the longest message of an entry fits.
const SIZE: usize = 128 * 1024;

/// Bytes that were read and not taken yet. `Debug` tells where they stand, and leaves them out.
#[derive(Drop)]
#[derive_where(Debug)]
pub(crate) struct Window {
    /// The buffer.
    #[derive_where(skip)]
    bytes: Vec<u8>,
    /// The place of the first byte that was not taken yet.
    start: usize,
    /// The place after the last byte that was read.
    end: usize,
    // The bytes that are held lie in order within the buffer, which has always the same size.
    ghost ordered: { start ≤ end },
    ghost within: { end ≤ vec_len bytes },
    ghost sized: { vec_len bytes ≡ 131072 },
}

impl Window {
    ghost use Rattle.sip_log.specs.inner.Window.{items, window_size};

    /// An empty window.
    pub(crate) fn new(alloc: Global) -> Result<Window, AllocError>
        ensures { IfOk result (λ w. items w ≡ []) }
    {
        let mut bytes = Vec::new(alloc);
        bytes.resize(SIZE, 0)?;
        Ok(Window {
            bytes,
            start: 0,
            end: 0,
        })
    }

    /// The bytes that are held.
    pub(crate) fn as_slice(&self) -> &[u8]
        ensures value { result.now ≡ items self.now }
        ensures fits { length result.now ≤ window_size }
    {
        &self.bytes[self.start..self.end]
    }

    /// Takes the first `count` bytes away.
    pub(crate) fn consume(&mut self, count: usize)
        requires { count ≤ length (items self.old) }
        ensures { items self.new ≡ drop count (items self.old) }
    {
        self.start += count;
    }

    /// Moves the bytes that are held to the front, so that all of the room is after them.
    fn move_to_front(&mut self)
        ensures items { items self.new ≡ items self.old }
        ensures front { self.new.end ≡ length (items self.new) }
    {
        let (start, end) = (self.start, self.end);
        self.bytes.copy_within(start..end, 0);
        self.start = 0;
        self.end = end - start;
    }

    /// Reads once into the room after the bytes that are held, and returns how many bytes came.
    fn read_from<R: Source>(&mut self, source: &mut R) -> Result<usize, Broken>
        ensures reads { OnOk result (Reads (items self.old) (items self.new) (R.left source.old) (R.left source.new)
            (R.has_failed source.old) (R.has_failed source.new)) }
        ensures count { IfOk result (λ n. length (items self.new) ≡ length (items self.old) + n) }
        ensures end { IfOk result (λ n. n ≡ 0 → self.old.end < window_size → (items self.new ≡ items self.old) × IsAtEnd (R.left source.new)) }
        ensures broken { OnErr result (R.has_failed source.new ≡ true) }
    {
        let end = self.end;
        let count = source.fill(&mut self.bytes[end..])?;
        self.end = end + count;
        Ok(count)
    }

    /// Reads once, and returns false at the end of the source.
    fn more<R: Source>(&mut self, source: &mut R) -> Result<bool, Broken>
        requires { length (items self.old) < window_size }
        ensures reads { OnOk result (Reads (items self.old) (items self.new) (R.left source.old) (R.left source.new)
            (R.has_failed source.old) (R.has_failed source.new)) }
        ensures some { IfOk result (λ some. some ≡ true → length (items self.old) < length (items self.new)) }
        ensures none { IfOk result (λ some. some ≡ false → (items self.new ≡ items self.old) × IsAtEnd (R.left source.new)) }
        ensures broken { OnErr result (R.has_failed source.new ≡ true) }
    {
        if self.end == SIZE {
            self.move_to_front();
        }
        let count = self.read_from(source)?;
        Ok(count > 0)
    }

    /// Reads until `count` bytes are held, and returns false where the source ends before.
    pub(crate) fn hold<R: Source>(&mut self, source: &mut R, count: usize) -> Result<bool, Broken>
        requires { count ≤ window_size }
        ensures reads { OnOk result (Reads (items self.old) (items self.new) (R.left source.old) (R.left source.new)
            (R.has_failed source.old) (R.has_failed source.new)) }
        ensures some { IfOk result (λ some. some ≡ true → count ≤ length (items self.new)) }
        ensures none { IfOk result (λ some. some ≡ false → (length (items self.new) < count) × IsAtEnd (R.left source.new)) }
        ensures broken { OnErr result (R.has_failed source.new ≡ true) }
    {
        while self.as_slice().len() < count {
            if !self.more(source)? {
                return Ok(false);
            }
        }
        Ok(true)
    }

    /// The place of the first line feed among the first `most` bytes that are held.
    #[inline(always)]
    pub(crate) fn first_end(&self, most: usize) -> Option<usize>
        ensures within { IfSome result (λ n. (n < length (items self.now)) × (n < most)) }
        ensures first { IsFirstByte (is_byte line_feed) (take most (items self.now)) result }
    {
        let held = self.as_slice();
        memchr(b'\n', &held[..held.len().min(most)])
    }

    /// The length of the line at the front, where its line feed is among the first `most` bytes. It reads only as far as it must to tell.
    pub(crate) fn line_len<R: Source>(
        &mut self,
        source: &mut R,
        most: usize,
    ) -> Result<Option<usize>, Broken>
        requires { most ≤ window_size }
        ensures reads { OnOk result (Reads (items self.old) (items self.new) (R.left source.old) (R.left source.new)
            (R.has_failed source.old) (R.has_failed source.new)) }
        ensures within { IfOk result (λ at. IfSome at (λ n. (n < length (items self.new)) × (n < most))) }
        ensures first { IfOk result (λ at. IsFirstByte (is_byte line_feed) (take most (items self.new)) at) }
        ensures none { IfOk result (λ at. at ≡ None → (most ≤ length (items self.new)) ⊎ IsAtEnd (R.left source.new)) }
        ensures broken { OnErr result (R.has_failed source.new ≡ true) }
    {
        loop {
            let at = self.first_end(most);
            if at.is_some() || self.as_slice().len() >= most || !self.more(source)? {
                return Ok(at);
            }
        }
    }
}
