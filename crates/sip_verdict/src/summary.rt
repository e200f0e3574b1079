//! The sums of a survey.
use crate::survey_end::SurveyEnd;

/// The sums of the survey of a whole log: how the log ends, how many findings there are, and how many of them are of a transaction that is
/// followed no further.
#[derive(Clone, Copy, Debug, PartialEq, Eq)]
pub struct Summary {
    pub end: SurveyEnd,
    pub findings: u64,
    pub undecided: u64,
}
