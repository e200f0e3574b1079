//! A sink that takes some pieces and then fails.
ghost use Rattle.std.specs.Prelude.{None};

use sip_log::{Broken, Sink};

/// A sink that takes this many pieces, keeps none of them, and then fails.
#[derive(Drop)]
pub(crate) struct Room {
    /// How many pieces are taken before a call fails.
    calls: usize,
    /// How many pieces were taken.
    taken: usize,
    /// Whether a call has failed.
    failed: bool,
}

impl Room {
    /// A sink that takes `calls` pieces, and fails at the next one.
    pub(crate) fn of(calls: usize) -> Room {
        Room {
            calls,
            taken: 0,
            failed: false,
        }
    }

    /// How many pieces the sink has taken.
    pub(crate) fn taken(&self) -> usize {
        self.taken
    }
}

impl Sink for Room {
    // What was written to it is not known; whether it has failed is.
    ghost written = { λ _. None };

    ghost has_failed = { λ s. s.failed };

    // Takes a piece and counts it, or fails once as many were taken as there is room for.
    fn put(&mut self, _bytes: &[u8]) -> Result<(), Broken> {
        if self.taken >= self.calls {
            self.failed = true;
            return Err(Broken);
        }
        self.taken += 1;
        Ok(())
    }

    fn has_failed(&self) -> bool {
        self.failed
    }
}
