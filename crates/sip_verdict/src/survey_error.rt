//! Why a log could not be surveyed.
ghost use Rattle.std.specs.Prelude.{◌≡◌};
ghost use Rattle.sip_verdict.specs.declared.survey_error.SurveyError.TheVariants.{Write, Memory};
ghost use Rattle.sip_verdict.specs.inner.SurveyingLogs.{unsurveyed};

use crate::step_error::StepError;
use sip_log::Broken;
use sip_standard::JudgeError;
use std::alloc::AllocError;
use thiserror::Error;

/// Why a log could not be surveyed to its end.
#[derive(Debug, Drop, PartialEq, Eq, Error)]
pub enum SurveyError {
    /// The reader failed.
    #[error("cannot read")]
    Read,
    /// The writer failed; how much was written is not said.
    #[error("cannot write")]
    Write,
    /// A growth was refused.
    #[error("out of memory")]
    Memory,
}

impl From<JudgeError> for SurveyError {
    // Each error of a judge becomes that of a survey for the same reason.
    ghost from_gives = { λ error e. e ≡ unsurveyed error };

    fn from(error: JudgeError) -> SurveyError {
        match error {
            JudgeError::Io => SurveyError::Read,
            JudgeError::Memory => SurveyError::Memory,
        }
    }
}

impl From<StepError> for SurveyError {
    // Each error of a step becomes `Memory`.
    ghost from_gives = { λ _ e. e ≡ Memory };

    fn from(_: StepError) -> SurveyError {
        SurveyError::Memory
    }
}

impl From<Broken> for SurveyError {
    // A sink that is broken becomes `Write`.
    ghost from_gives = { λ _ e. e ≡ Write };

    fn from(_: Broken) -> SurveyError {
        SurveyError::Write
    }
}

impl From<AllocError> for SurveyError {
    // A refused growth becomes `Memory`.
    ghost from_gives = { λ _ e. e ≡ Memory };

    fn from(_: AllocError) -> SurveyError {
        SurveyError::Memory
    }
}
