//! How the program ends.
ghost use Rattle.std.specs.Prelude.{◌≡◌, false};
ghost use Rattle.std.specs.Io.KnownBytes.{Appends};
ghost use Rattle.sip_program.specs.Ending.{status_at_end, told_at_end};
ghost use Rattle.sip_program.specs.Failures.{status_without};
ghost use Rattle.sip_survey_program.specs.Failures.{as_siptrace, line_of};

use crate::failure::{Failure, status_without};
use sip_log::Sink;

/// Tells why the survey was not written to its end, if it was not. It answers the status that the program ends with, also where nothing can be told.
pub fn end<E: Sink>(ended: Result<u8, Failure>, errors: &mut E) -> u8
    ensures status { result ≡ status_at_end (λ failure. status_without (as_siptrace failure)) ended }
    ensures told { E.has_failed errors.new ≡ false → Appends (E.written errors.old) (E.written errors.new) (told_at_end line_of ended) }
{
    match ended {
        Ok(status) => status,
        Err(failure) => {
            let _ = errors.put(failure.line());
            status_without(&failure)
        }
    }
}
