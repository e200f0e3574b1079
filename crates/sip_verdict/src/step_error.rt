//! Why a judge has no answer.
ghost use Rattle.std.specs.Prelude.{◌≡◌};
ghost use Rattle.sip_standard.specs.declared.judge_error.JudgeError.TheVariants as judging;

use sip_standard::JudgeError;
use thiserror::Error;

/// Why a judge did not judge an entry.
#[derive(Clone, Copy, Debug, PartialEq, Eq, Error)]
pub enum StepError {
    /// A growth was refused.
    #[error("out of memory")]
    Memory,
    /// The judge failed before.
    #[error("the judge has failed before")]
    Failed,
}

impl From<StepError> for JudgeError {
    // Each error of a step becomes `Memory`.
    ghost from_gives = { λ _ e. e ≡ judging.Memory };

    fn from(_: StepError) -> Self {
        JudgeError::Memory
    }
}
