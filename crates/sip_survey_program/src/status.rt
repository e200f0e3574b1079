//! The status that the program ends with after its last line.
ghost use Rattle.std.specs.Prelude.{◌≡◌, List};
ghost use Rattle.sip_verdict.specs.declared.finding.Finding.{Finding};
ghost use Rattle.sip_verdict.specs.SurveyText.{SumsUp};
ghost use Rattle.sip_survey_program.specs.Status.{status_of};

use sip_verdict::{Summary, SurveyEnd};

/// The status that a survey ends the program with: 2 where the log cannot be read to its end, and else 0 where nothing is found, 3 where
/// all that is found are transactions that are followed no further, and 1 where a message has a fault or a transaction breaks.
pub fn status_of(summary: &Summary) -> u8
    ensures { (found : List Finding) → SumsUp found summary.now → result ≡ status_of found summary.now.end }
{
    match summary.end {
        SurveyEnd::LogFault { .. } => 2,
        SurveyEnd::Clean { .. } => {
            if summary.findings == 0 {
                0
            } else if summary.undecided == summary.findings {
                3
            } else {
                1
            }
        }
    }
}
