//! Why a log has no verdict.
ghost use Rattle.std.specs.Prelude.{◌≡◌};
ghost use Rattle.sip_standard.specs.declared.judge_error.JudgeError.TheVariants.{Memory};

use std::alloc::AllocError;
use thiserror::Error;

/// Why a log could not be judged.
#[derive(Debug, Drop, PartialEq, Eq, Error)]
pub enum JudgeError {
    /// The reader failed.
    #[error("cannot read")]
    Io,
    /// A growth was refused.
    #[error("out of memory")]
    Memory,
}

impl From<AllocError> for JudgeError {
    // Where memory was refused, the error is `Memory`.
    ghost from_gives = { λ _ e. e ≡ Memory };

    fn from(_: AllocError) -> Self {
        JudgeError::Memory
    }
}
