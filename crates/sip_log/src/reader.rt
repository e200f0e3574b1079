//! Reads a log, entry by entry.
ghost use Rattle.std.specs.Prelude.{◌≡◌, None};
ghost use Rattle.sip_standard.specs.declared.format.Format.TheVariants.{One};
ghost use Rattle.sip_log.specs.Reading.{fresh, ReaderState, beside_source, Nexts};

use crate::entry::Entry;
use crate::log_error::LogError;
use crate::progress::Progress;
use sip_standard::Source;
use sip_times::Params;
use std::alloc::Global;
use std::marker::Model;

/// Reads a log, entry by entry, from a source that hands out its bytes in pieces of any size.
#[derive(Debug, Drop)]
pub struct LogReader<R: Source> {
    /// Where the bytes of the log come from.
    source: R,
    /// How far the log was read.
    progress: Progress,
}

impl<R: Source> Model for LogReader<R> {
    ghost use Rattle.sip_log.specs.Reading.{ReaderState, beside_source};

    // Contracts see how far the log was read, what is left to read, and whether the source has failed.
    ghost Value = { ReaderState };

    ghost view = { λ r. beside_source r.progress (R.left r.source) (R.has_failed r.source) };
}

impl<R: Source> LogReader<R> {
    /// A reader that has read nothing, and takes no memory.
    pub fn new(alloc: Global, source: R) -> LogReader<R>
        ensures { result ≡ record { stage = fresh; left = R.left source; format = One; times = None; count = 0; last = 0; has_failed = R.has_failed source } }
    {
        LogReader {
            source,
            progress: Progress::new(alloc),
        }
    }

    /// The times of the log's header, once it was read. They stay known after an error.
    pub fn params(&self) -> Option<Params>
        ensures { result ≡ self.now.times }
    {
        self.progress.params()
    }

    /// Reads the next entry, and before the first one the header. The answer is `None` at the end of the log, and at every later call.
    ///
    /// `LogError::Io` is answered only if the source has failed: in this call, if it had not before. After an
    /// error every later call answers `LogError::Failed`; nothing is read again.
    pub fn next(&mut self) -> Result<Option<Entry>, LogError>
        ensures { Nexts self.old self.new result }
    {
        self.progress.next(&mut self.source)
    }
}
