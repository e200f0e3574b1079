//! Where a log's bytes go.
ghost use Rattle.std.specs.Prelude.{◌≡◌, ℕ, Bool, true, List, Option, OnOk, OnErr};
ghost use Rattle.std.specs.Io.KnownBytes.{Appends};

use crate::broken::Broken;

/// What takes the bytes of a log.
pub trait Sink {
    // The bytes that it has taken, where they are known. Each implementation says so itself.
    ghost written: { Self → Option (List ℕ) };

    // Whether a call has failed.
    ghost has_failed: { Self → Bool };

    /// Takes all of the bytes. On an error it is not said how many it has taken.
    fn put(&mut self, bytes: &[u8]) -> Result<(), Broken>
        ensures appends { OnOk result (Appends (written self.old) (written self.new) bytes.now) }
        ensures ok { OnOk result (has_failed self.new ≡ has_failed self.old) }
        ensures err { OnErr result (has_failed self.new ≡ true) };

    /// Whether a call has failed.
    fn has_failed(&self) -> bool
        ensures { result ≡ has_failed self.now };
}

/// A sink through a reference to it.
impl<S: Sink> Sink for &mut S {
    // Through the reference a sink has taken what it has taken itself, and has failed where it has failed itself.
    ghost written = { λ s. S.written s.now };

    ghost has_failed = { λ s. S.has_failed s.now };

    fn put(&mut self, bytes: &[u8]) -> Result<(), Broken> {
        (**self).put(bytes)
    }

    fn has_failed(&self) -> bool {
        (**self).has_failed()
    }
}
