//! A sink over a writer of std.
ghost use Rattle.std.specs.Prelude.{◌≡◌, false};

use sip_standard::{Broken, Sink};
use std::io::Write;

/// A sink that writes through a writer of std. A write that was interrupted is tried again, and any other error is a failure.
#[derive(Debug, Drop)]
pub struct ToWrite<W> {
    /// The writer that takes the bytes.
    writer: W,
    /// Whether a write has failed.
    failed: bool,
}

impl<W: Write> ToWrite<W> {
    /// A sink that writes after what the writer holds.
    pub fn new(writer: W) -> ToWrite<W>
        ensures written { ⟦<ToWrite<W> as Sink>⟧.written result ≡ W.contents writer }
        ensures fine { ⟦<ToWrite<W> as Sink>⟧.has_failed result ≡ false }
    {
        ToWrite {
            writer,
            failed: false,
        }
    }
}

impl<W: Write> Sink for ToWrite<W> {
    // What was written is what the writer holds.
    ghost written = { λ s. W.contents s.writer };

    // The sink has failed where a write has.
    ghost has_failed = { λ s. s.failed };

    fn put(&mut self, bytes: &[u8]) -> Result<(), Broken> {
        match self.writer.write_all(bytes) {
            Ok(()) => Ok(()),
            Err(_) => {
                self.failed = true;
                Err(Broken)
            }
        }
    }

    fn has_failed(&self) -> bool {
        self.failed
    }
}
