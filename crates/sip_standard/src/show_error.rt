//! Why a log could not be shown.
ghost use Rattle.std.specs.Prelude.{◌≡◌};
ghost use Rattle.sip_standard.specs.declared.show_error.ShowError.TheVariants.{Write, Memory};
ghost use Rattle.sip_standard.specs.Showing.{unshown};

use crate::broken::Broken;
use crate::judge_error::JudgeError;
use std::alloc::AllocError;
use thiserror::Error;

/// Why a log could not be shown.
#[derive(Debug, Drop, PartialEq, Eq, Error)]
pub enum ShowError {
    /// The reader failed.
    #[error("cannot read")]
    Read,
    /// The writer failed; how much was written is not said.
    #[error("cannot write")]
    Write,
    /// A growth was refused.
    #[error("out of memory")]
    Memory,
}

impl From<JudgeError> for ShowError {
    // What kept a log from being judged keeps it from being shown: `unshown` says which error it is.
    ghost from_gives = { λ error e. e ≡ unshown error };

    fn from(error: JudgeError) -> ShowError {
        match error {
            JudgeError::Io => ShowError::Read,
            JudgeError::Memory => ShowError::Memory,
        }
    }
}

impl From<Broken> for ShowError {
    // What is broken here is the sink.
    ghost from_gives = { λ _ e. e ≡ Write };

    fn from(_: Broken) -> ShowError {
        ShowError::Write
    }
}

impl From<AllocError> for ShowError {
    // Where memory was refused, the error is `Memory`.
    ghost from_gives = { λ _ e. e ≡ Memory };

    fn from(_: AllocError) -> ShowError {
        ShowError::Memory
    }
}
