//! Gathers all that is wrong in a log that lies in memory.
ghost use Rattle.std.specs.Prelude.{◌≡◌, [], true, ℕ, List, None, Option, IfOk, IfSome, IsErrOf, OnOk};
ghost use Rattle.sip_log.specs.Reading.{beside_source};
ghost use Rattle.sip_verdict.specs.SurveyOf.{IsSurveyOf};
ghost use Rattle.sip_verdict.specs.inner.SurveyingLogs.{IsSurveyAt, SurveysRead};

use crate::finding::Finding;
use crate::following::Survey;
use crate::reading::{Next, read_header, read_next};
use crate::survey_end::SurveyEnd;
use sip_log::{Progress, Source};
use sip_standard::{JudgeError, LogReason};
use std::alloc::Global;
use std::hash::BuildHasher;

/// All that is wrong in the log of these bytes, in the order in which `survey` writes it, and how the log ends; or `JudgeError::Memory`. The
/// hasher is for the keys of the transactions; any hasher gives the same survey.
pub fn survey_bytes<H: BuildHasher + Drop>(
    alloc: Global,
    bytes: &[u8],
    hasher: H,
) -> Result<(Vec<Finding>, SurveyEnd), JudgeError>
    ensures survey { IfOk result (λ done. IsSurveyOf bytes.now done.0.items done.1) }
    ensures io { IsErrOf result JudgeError.Io → ⊥ }
{
    let mut left = bytes;
    match read_header(alloc, &mut left)? {
        Ok((params, mut progress)) => {
            let mut survey = Survey::new(alloc, params, hasher);
            gather_entries(alloc, &mut survey, &mut progress, &mut left)
        }
        // Without a header nothing is found, and the fault is one of entry 0.
        Err(_) => {
            let reason = LogReason::Header;
            Ok((Vec::new(alloc), SurveyEnd::LogFault { entry: 0, reason }))
        }
    }
}

/// Reads on after the header to the end of the log, and answers what is found at its entries and how it ends. Every entry is read into the
/// same buffer.
fn gather_entries<R: Source, H: BuildHasher + Drop>(
    alloc: Global,
    survey: &mut Survey<H>,
    progress: &mut Progress,
    reader: &mut R,
) -> Result<(Vec<Finding>, SurveyEnd), JudgeError>
    requires at { IsSurveyAt survey.old progress.old }
    requires first { survey.old.number ≡ 0 }
    ensures survey { IfOk result (λ done. (start : Option (List ℕ))
        → SurveysRead None survey.old [] start (beside_source progress.old (R.left reader.old) (R.has_failed reader.old))
        → IfSome start (λ input. IsSurveyOf input done.0.items done.1)) }
    ensures io { IsErrOf result JudgeError.Io → R.has_failed reader.new ≡ true }
{
    // The buffer goes from entry to entry, and `count` is the number of the newest one.
    let mut buffer = Vec::new(alloc);
    let mut found = Vec::new(alloc);
    let mut count = 0;
    loop {
        match read_next(progress, buffer, reader)? {
            Next::Entry(entry) => {
                count = entry.number;
                survey.entry(&entry, &mut found)?;
                buffer = entry.bytes;
            }
            // The survey has not failed, so that it has an end.
            Next::End => return Ok((found, survey.end().unwrap())),
            // The fault comes at the entry after the last one that was read.
            Next::Fault(reason) => {
                let entry = count + 1;
                return Ok((found, SurveyEnd::LogFault { entry, reason }));
            }
        }
    }
}
