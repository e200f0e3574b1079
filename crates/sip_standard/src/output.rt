//! Where the answer goes. In contracts `⟦<Output<W> as Sink>⟧` is what an output has as a sink.
ghost use Rattle.std.specs.Prelude.{◌≡◌, true, false, IfOk, IfErr, OnOk, OnErr};
ghost use Rattle.std.specs.IoError.{error_kind};
ghost use Rattle.std.specs.Io.Buffered.{writer_contents};
ghost use Rattle.std.specs.Io.KnownBytes.{Keeps};
ghost use Rattle.std.specs.declared.io.ErrorKind.TheVariants.{OutOfMemory};
ghost use Rattle.sip_standard.specs.Sent.{sent};

use crate::broken::Broken;
use crate::sink::Sink;
use std::alloc::Global;
use std::io;
use std::io::{BufWriter, Write};

/// How many bytes are written at once, but for the last.
const BUFFER: usize = 65_536;

/// A sink that keeps up to 64 KiB for its writer. A write that was interrupted is tried again; any other error is a failure.
#[derive(Debug, Drop)]
pub struct Output<W: Write + Drop> {
    writer: BufWriter<W>,
    failed: bool,
}

impl<W: Write + Drop> Output<W> {
    /// A sink that writes after what the writer holds.
    pub fn new(alloc: Global, writer: W) -> io::Result<Output<W>>
        ensures written { IfOk result (λ output. ⟦<Output<W> as Sink>⟧.written output ≡ W.contents writer) }
        ensures fine { IfOk result (λ output. ⟦<Output<W> as Sink>⟧.has_failed output ≡ false) }
        ensures err { IfErr result (λ error. error_kind error ≡ OutOfMemory) }
    {
        let writer = BufWriter::with_capacity(alloc, BUFFER, writer)?;
        Ok(Output {
            writer,
            failed: false,
        })
    }

    /// Hands its writer all that was put. On an error it is not said how much of it the writer has.
    pub fn flush(&mut self) -> Result<(), Broken>
        ensures sent { OnOk result (Keeps (⟦<Output<W> as Sink>⟧.written self.old) (sent W.contents self.new)) }
        ensures kept { Keeps (⟦<Output<W> as Sink>⟧.written self.old) (⟦<Output<W> as Sink>⟧.written self.new) }
        ensures ok { OnOk result (⟦<Output<W> as Sink>⟧.has_failed self.new ≡ ⟦<Output<W> as Sink>⟧.has_failed self.old) }
        ensures err { OnErr result (⟦<Output<W> as Sink>⟧.has_failed self.new ≡ true) }
    {
        let flushed = self.writer.flush();
        self.failed |= flushed.is_err();
        flushed.map_err(|_| Broken)
    }
}

impl<W: Write + Drop> Sink for Output<W> {
    // The bytes that were put: those that the writer has, and those that are kept for it.
    ghost written = { λ output. writer_contents W.contents output.writer };

    // It has failed where some `put` or `flush` has.
    ghost has_failed = { λ output. output.failed };

    fn put(&mut self, bytes: &[u8]) -> Result<(), Broken> {
        let put = self.writer.write_all(bytes);
        self.failed |= put.is_err();
        put.map_err(|_| Broken)
    }

    fn has_failed(&self) -> bool {
        self.failed
    }
}
