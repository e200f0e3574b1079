//! A source over a reader of std.
ghost use Rattle.std.specs.Prelude.{◌≡◌, ◌≢◌, true, false, if◌then◌else◌, [], Some, OnOk, OnErr, is_some};
ghost use Rattle.std.specs.Option.{ForSome};
ghost use Rattle.std.specs.declared.io.ErrorKind.TheVariants.{Interrupted};
ghost use Rattle.sip_standard.specs.Source.{Fills};

use sip_standard::{Broken, Source};
use std::io::{ErrorKind, Read};

/// A source that reads through a reader of std. A read that was interrupted is tried again. Any other error is a failure, and its kind
/// is kept. A reader that told its end is not asked again.
#[derive(Debug, Drop)]
pub struct FromRead<R> {
    /// The reader that gives the bytes.
    reader: R,
    /// The kind of the error with which a read failed, if one has.
    failure: Option<ErrorKind>,
    /// Whether the reader told its end.
    ended: bool,
}

impl<R: Read> FromRead<R> {
    /// A source of the bytes that the reader has left.
    pub fn new(reader: R) -> FromRead<R>
        ensures left { ⟦<FromRead<R> as Source>⟧.left result ≡ R.remaining reader }
        ensures fine { ⟦<FromRead<R> as Source>⟧.has_failed result ≡ false }
    {
        FromRead {
            reader,
            failure: None,
            ended: false,
        }
    }

    /// Reads once, and again as long as the read is interrupted.
    fn read_on(&mut self, buf: &mut [u8]) -> Result<usize, Broken>
        ensures bytes { Fills (R.remaining self.old.reader) (R.remaining self.new.reader) result buf.new }
        ensures ok { OnOk result (self.new.failure ≡ self.old.failure) }
        ensures same { self.new.ended ≡ self.old.ended }
        ensures err { OnErr result (is_some self.new.failure ≡ true) }
        ensures retried { OnErr result (ForSome self.new.failure (λ kind. kind ≢ Interrupted)) }
    {
        // An interrupted read is made again. Any other fault is kept, and no read follows it.
        for _ in 0..u64::MAX {
            match self.reader.read(buf) {
                Ok(count) => return Ok(count),
                Err(e) if e.kind() == ErrorKind::Interrupted => {}
                Err(e) => {
                    self.failure = Some(e.kind());
                    return Err(Broken);
                }
            }
        }
        // So many interruptions never come; the loop has an end, so that this call has one.
        self.failure = Some(ErrorKind::TimedOut);
        Err(Broken)
    }
}

impl<R: Read> Source for FromRead<R> {
    // Once the reader told its end nothing is left, and before that what the reader has left is.
    ghost left = { λ s. if s.ended then Some [] else R.remaining s.reader };

    // The source has failed where the kind of a failure is kept.
    ghost has_failed = { λ s. is_some s.failure };

    fn fill(&mut self, buf: &mut [u8]) -> Result<usize, Broken> {
        if self.ended {
            return Ok(0);
        }
        let count = self.read_on(buf)?;
        // A read into some room that brings nothing tells the end.
        self.ended = count == 0 && !buf.is_empty();
        Ok(count)
    }

    fn has_failed(&self) -> bool {
        self.failure.is_some()
    }
}
