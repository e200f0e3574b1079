//! Surveys a log from its first byte to its last, and forgets transactions that are over.
//! In the clauses `found` are the findings and `text` their lines, and es are the entries that are remembered, whichever they are.
ghost use Rattle.std.specs.Prelude.{◌≡◌, ◌≢◌, ◌≤◌, ◌+◌, ◌++◌, [], ℕ, Bool, false, true, List, Option, IfOk, IfSome, OnOk, IsErrOf, length, option_copied};
ghost use Rattle.std.specs.Result.{is_err};
ghost use Rattle.std.specs.Io.KnownBytes.{Appends};
ghost use Rattle.sip_log.specs.Reading.{beside_source};
ghost use Rattle.sip_standard.specs.Key.{KeyParts};
ghost use Rattle.sip_standard.specs.Observation.{Observation};
ghost use Rattle.sip_verdict.specs.declared.finding.Finding.{Finding};
ghost use Rattle.sip_verdict.specs.declared.survey_error.SurveyError.TheVariants.{Read, Write};
ghost use Rattle.sip_verdict.specs.Forgetting.{ForgetsUpTo, remembered};
ghost use Rattle.sip_verdict.specs.ForgettingText.{IsLeftOf, IsToldForgetting};
ghost use Rattle.sip_verdict.specs.SurveyText.{SumsUp};
ghost use Rattle.sip_verdict.specs.Surveys.{SurveysFor};
ghost use Rattle.sip_verdict.specs.inner.ForgettingLogs.{IsHorizonOf, IsStreamAt, IsWrittenForgetting, RemembersRead};

use crate::following::Survey;
use crate::horizon::Horizon;
use crate::reading::{Next, read_header};
use crate::step_error::StepError;
use crate::summary::Summary;
use crate::survey_end::SurveyEnd;
use crate::survey_error::SurveyError;
use crate::surveying::{Counts, finish, put_findings};
use crate::taking::read_on_taken;
use sip_log::{Progress, Sink, Source};
use sip_part::Part;
use sip_standard::LogReason;
use std::alloc::Global;
use std::hash::BuildHasher;

/// Writes what is wrong in the log of the reader's bytes, or in a part of it, in the words of `survey` and `survey_part`, and forgets
/// transactions as it goes, so that a long log takes little memory. From time to time it forgets those that are over (in trouble, idle again or
/// ended), and whose last entry came at least `age` milliseconds before the newest one. A message that comes later begins a new transaction: for
/// a client that ended, or was in trouble, the findings can be others then. A finding has the number of its transaction among those that are not
/// forgotten, and the last line counts those that are left.
pub fn survey_forgetting<R: Source, W: Sink, H: BuildHasher + Drop>(
    alloc: Global,
    reader: &mut R,
    writer: &mut W,
    hasher: H,
    part: Option<&Part>,
    age: u64,
) -> Result<Summary, SurveyError>
    requires { R.has_failed reader.old ≡ false }
    ensures surveyed { IfOk result (λ summary. IfSome (R.left reader.old) (λ input. (found : List Finding) × (text : List ℕ) × IsToldForgetting age (option_copied part.entry) input found summary.end text
        × SumsUp found summary × Appends (W.written writer.old) (W.written writer.new) text)) }
    ensures fine { OnOk result ((R.has_failed reader.new ≡ false) × (W.has_failed writer.new ≡ W.has_failed writer.old)) }
    ensures read { IsErrOf result Read → R.has_failed reader.new ≡ true }
    ensures write { IsErrOf result Write → W.has_failed writer.new ≡ true }
{
    match read_header(alloc, reader)? {
        Ok((params, mut progress)) => {
            let mut survey = Survey::new(alloc, params, hasher);
            write_on(alloc, &mut survey, &mut progress, reader, writer, part, age)
        }
        // Without a header nothing is found, and the fault is one of entry 0.
        Err(_) => {
            let reason = LogReason::Header;
            let end = SurveyEnd::LogFault { entry: 0, reason };
            finish(alloc, writer, end, Counts::none())
        }
    }
}

/// Reads on after the header to the end of the log, writes what is found, and forgets transactions that are over.
fn write_on<R: Source, W: Sink, H: BuildHasher + Drop>(
    alloc: Global,
    survey: &mut Survey<H>,
    progress: &mut Progress,
    reader: &mut R,
    writer: &mut W,
    part: Option<&Part>,
    age: u64,
) -> Result<Summary, SurveyError>
    requires at { IsStreamAt survey.old progress.old }
    requires first { survey.old.number ≡ 0 }
    ensures surveyed { IfOk result (λ summary. (start : Option (List ℕ))
        → RemembersRead age (option_copied part.entry) survey.old.tables.times survey.old [] [] start (beside_source progress.old (R.left reader.old) (R.has_failed reader.old))
        → IfSome start (λ input. IsWrittenForgetting age (option_copied part.entry) input summary (W.written writer.old) (W.written writer.new))) }
    ensures fine { OnOk result ((R.has_failed reader.new ≡ R.has_failed reader.old) × (W.has_failed writer.new ≡ W.has_failed writer.old)) }
    ensures read { IsErrOf result Read → R.has_failed reader.new ≡ true }
    ensures write { IsErrOf result Write → W.has_failed writer.new ≡ true }
{
    // `buffer` is where each entry is read into, `found` what is found at it, and `count` the number of the last one.
    let mut buffer = Vec::new(alloc);
    let mut found = Vec::new(alloc);
    let mut counts = Counts::none();
    let mut horizon = Horizon::new(age);
    let mut count = 0;
    loop {
        match read_on_taken(alloc, part, progress, buffer, reader, count)? {
            Next::Entry(entry) => {
                found.clear();
                // What is due is forgotten before the entry is taken.
                forget_due(survey, &mut horizon)?;
                // A survey without room for the entry ends there.
                if !survey.has_room() {
                    let end = SurveyEnd::LogFault {
                        entry: entry.number,
                        reason: LogReason::Limit,
                    };
                    return finish(alloc, writer, end, counts);
                }
                count = entry.number;
                // The entry is taken, its findings are written, and the horizon notes when it came.
                survey.entry(&entry, &mut found)?;
                counts = put_findings(alloc, writer, survey, found.as_slice(), counts)?;
                horizon.note(entry.number, entry.moment);
                buffer = entry.bytes;
            }
            // The survey has not failed, so that it has an end.
            Next::End => return finish(alloc, writer, survey.end().unwrap(), counts),
            // The fault comes at the entry after the last one that was read.
            Next::Fault(reason) => {
                let entry = count + 1;
                let end = SurveyEnd::LogFault { entry, reason };
                return finish(alloc, writer, end, counts);
            }
        }
    }
}

/// Forgets the transactions that are over and whose last entry is old enough, where the horizon says that it is time to.
fn forget_due<H: BuildHasher + Drop>(
    survey: &mut Survey<H>,
    horizon: &mut Horizon,
) -> Result<(), StepError>
    ensures left { OnOk result ((es : List (Observation KeyParts)) → SurveysFor survey.old es → IsHorizonOf horizon.old es
        → (left : List (Observation KeyParts)) × IsLeftOf horizon.old.age survey.old.tables.times es left × SurveysFor survey.new left × IsHorizonOf horizon.new left) }
    ensures due { OnOk result ((es : List (Observation KeyParts)) → SurveysFor survey.old es
        → horizon.old.until ≢ 0 → 64 ≤ length survey.old.tables.keys → horizon.old.left + horizon.old.left ≤ length survey.old.tables.keys
        → (kept : KeyParts → Bool) × ForgetsUpTo horizon.old.until survey.old.tables.times es kept × SurveysFor survey.new (remembered kept es)
        × (horizon.new.left ≡ length survey.new.tables.keys)) }
    ensures newest { OnOk result ((survey.new.number ≡ survey.old.number) × (survey.new.moment ≡ survey.old.moment)) }
    ensures times { OnOk result (survey.new.tables.times ≡ survey.old.tables.times) }
    ensures age { horizon.new.age ≡ horizon.old.age }
    ensures failed { survey.old.failed ≡ false → survey.new.failed ≡ is_err result }
{
    if !horizon.are_due(survey.transactions()) {
        return Ok(());
    }
    // The horizon notes how many transactions are left: by this it tells when it is time again.
    survey.forget(horizon.until)?;
    horizon.left = survey.transactions();
    Ok(())
}
