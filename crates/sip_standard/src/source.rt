//! Where a log's bytes come from.
ghost use Rattle.std.specs.Prelude.{◌≡◌, ℕ, Bool, true, false, List, Option, Some, OnOk, OnErr};
ghost use Rattle.sip_standard.specs.Source.{Fills};

use crate::broken::Broken;

/// What hands out the bytes of a log, in pieces of any size.
pub trait Source {
    // The bytes that it will hand out from here on, where they are known. Each implementation says so itself.
    ghost left: { Self → Option (List ℕ) };

    // Whether a call has failed.
    ghost has_failed: { Self → Bool };

    /// Puts the next bytes into the front of `buf`, and answers how many; 0 only at the end, or where `buf` is empty.
    fn fill(&mut self, buf: &mut [u8]) -> Result<usize, Broken>
        ensures bytes { Fills (left self.old) (left self.new) result buf.new }
        ensures ok { OnOk result (has_failed self.new ≡ has_failed self.old) }
        ensures err { OnErr result (has_failed self.new ≡ true) };

    /// Whether a call has failed.
    fn has_failed(&self) -> bool
        ensures { result ≡ has_failed self.now };
}

/// A source through a reference to it.
impl<S: Source> Source for &mut S {
    // Through the reference a source has left what it has left itself, and has failed where it has failed itself.
    ghost left = { λ s. S.left s.now };

    ghost has_failed = { λ s. S.has_failed s.now };

    fn fill(&mut self, buf: &mut [u8]) -> Result<usize, Broken> {
        (**self).fill(buf)
    }

    fn has_failed(&self) -> bool {
        (**self).has_failed()
    }
}

/// A source of the bytes of a slice, of which no call fails.
impl<'a> Source for &'a [u8] {
    // It hands out the bytes of the slice that are left, which are known, and it never fails.
    ghost left = { λ s. Some s.now };

    ghost has_failed = { λ _. false };

    fn fill(&mut self, buf: &mut [u8]) -> Result<usize, Broken> {
        let bytes = *self;
        let count = bytes.len().min(buf.len());
        let (front, behind) = bytes.split_at(count);
        buf[..count].copy_from_slice(front);
        *self = behind;
        Ok(count)
    }

    fn has_failed(&self) -> bool {
        false
    }
}
