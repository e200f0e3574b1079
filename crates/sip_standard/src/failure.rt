//! Why the program ends without its answer.
ghost use Rattle.std.specs.Prelude.{◌≡◌};
ghost use Rattle.sip_standard.specs.declared.failure.Failure.TheVariants.{Memory, Write};
ghost use Rattle.sip_standard.specs.Failures.{failure_of, failure_to_show, line_of};

use crate::broken::Broken;
use crate::judge_error::JudgeError;
use crate::show_error::ShowError;
use std::alloc::AllocError;
use thiserror::Error;

/// Why the program ends without its answer.
#[derive(Debug, Drop, Error)]
pub enum Failure {
    /// What was asked for, or the log, cannot be read.
    #[error("cannot read")]
    Read,
    /// The answer cannot be written.
    #[error("cannot write")]
    Write,
    /// A growth was refused.
    #[error("out of memory")]
    Memory,
    /// The words ask for nothing that it can do.
    #[error("usage: siptrace [check FILE | show FILE | states FILE ENTRY]")]
    Usage,
}

impl Failure {
    /// The line that is told of it on the standard error.
    pub fn line(&self) -> &'static [u8]
        ensures { result.now ≡ line_of self.now }
    {
        match self {
            Self::Read => b"siptrace: cannot read\n",
            Self::Write => b"siptrace: cannot write\n",
            Self::Memory => b"siptrace: out of memory\n",
            Self::Usage => {
                b"siptrace: usage: siptrace [check FILE | show FILE | states FILE ENTRY]\n"
            }
        }
    }
}

impl From<AllocError> for Failure {
    // Where memory was refused, the failure is `Memory`.
    ghost from_gives = { λ _ failure. failure ≡ Memory };

    fn from(_: AllocError) -> Failure {
        Failure::Memory
    }
}

impl From<Broken> for Failure {
    // What is broken is the output: the answer cannot be written.
    ghost from_gives = { λ _ failure. failure ≡ Write };

    fn from(_: Broken) -> Failure {
        Failure::Write
    }
}

impl From<JudgeError> for Failure {
    // A log that could not be judged is told as `failure_of` says.
    ghost from_gives = { λ error failure. failure ≡ failure_of error };

    fn from(error: JudgeError) -> Failure {
        match error {
            JudgeError::Io => Failure::Read,
            JudgeError::Memory => Failure::Memory,
        }
    }
}

impl From<ShowError> for Failure {
    // A log that could not be shown is told as `failure_to_show` says.
    ghost from_gives = { λ error failure. failure ≡ failure_to_show error };

    fn from(error: ShowError) -> Failure {
        match error {
            ShowError::Read => Failure::Read,
            ShowError::Write => Failure::Write,
            ShowError::Memory => Failure::Memory,
        }
    }
}
