//! Why the program ends before its last line. This is not the `Failure` of `sip_standard`, since each says how its own program is used.
ghost use Rattle.std.specs.Prelude.{◌≡◌, ◌≢◌};
ghost use Rattle.std.specs.IoError.{error_kind};
ghost use Rattle.std.specs.declared.io.ErrorKind.TheVariants.{OutOfMemory};
ghost use Rattle.sip_survey_program.specs.declared.failure.Failure.TheVariants.{Memory, Read, Write};
ghost use Rattle.sip_program.specs.Failures.{status_without};
ghost use Rattle.sip_survey_program.specs.Failures.{as_siptrace, failure_of, line_of};

use sip_verdict::SurveyError;
use std::alloc::AllocError;
use std::io;
use thiserror::Error;

/// Why the program ends before its last line.
#[derive(Debug, Drop, Error)]
pub enum Failure {
    /// The file, or the log, cannot be read.
    #[error("cannot read")]
    Read,
    /// A line cannot be written.
    #[error("cannot write")]
    Write,
    /// A growth was refused.
    #[error("out of memory")]
    Memory,
    /// The words ask for nothing that the program can do.
    #[error("usage: sipsurvey [--forget MILLISECONDS] [--part K/N] [FILE]")]
    Usage,
}

impl Failure {
    /// The line on the standard error that tells the failure.
    pub fn line(&self) -> &'static [u8]
        ensures { result.now ≡ line_of self.now }
    {
        match self {
            Self::Read => b"sipsurvey: cannot read\n",
            Self::Write => b"sipsurvey: cannot write\n",
            Self::Memory => b"sipsurvey: out of memory\n",
            Self::Usage =>
                b"sipsurvey: usage: sipsurvey [--forget MILLISECONDS] [--part K/N] [FILE]\n",
        }
    }
}

impl From<AllocError> for Failure {
    // A refused growth becomes `Memory`.
    ghost from_gives = { λ _ failure. failure ≡ Memory };

    fn from(_: AllocError) -> Failure {
        Failure::Memory
    }
}

impl From<SurveyError> for Failure {
    // Each error of a survey becomes the failure that tells it.
    ghost from_gives = { λ error failure. failure ≡ failure_of error };

    fn from(error: SurveyError) -> Failure {
        match error {
            SurveyError::Read => Failure::Read,
            SurveyError::Write => Failure::Write,
            SurveyError::Memory => Failure::Memory,
        }
    }
}

/// The status that the program ends with where it does not reach its last line.
pub fn status_without(failure: &Failure) -> u8
    ensures { result ≡ status_without (as_siptrace failure.now) }
{
    match failure {
        Failure::Read | Failure::Write | Failure::Memory => 4,
        Failure::Usage => 5,
    }
}

/// The failure that stands for an error of the system: want of memory where that is the error, and else that something cannot be read.
pub fn read_failure(error: io::Error) -> Failure
    ensures memory { error_kind error ≡ OutOfMemory → result ≡ Memory }
    ensures read { error_kind error ≢ OutOfMemory → result ≡ Read }
{
    if error.kind() == io::ErrorKind::OutOfMemory {
        Failure::Memory
    } else {
        Failure::Read
    }
}
