//! What the program does.
ghost use Rattle.std.specs.Prelude.{◌≡◌, ℕ, false, true, List, IfSome, OnOk, IfOk, IfErr, IsErrOf};
ghost use Rattle.std.specs.Io.KnownBytes.{Appends};
ghost use Rattle.sip_verdict.specs.declared.finding.Finding.{Finding};
ghost use Rattle.sip_verdict.specs.declared.survey_error.SurveyError.TheVariants.{Read as ReadError, Write as WriteError};
ghost use Rattle.sip_verdict.specs.SurveyText.{SumsUp};
ghost use Rattle.sip_survey_program.specs.Answers.{IsSurveyFor, IsSurveyed, IsAnswerTo, log_for};
ghost use Rattle.sip_survey_program.specs.Asked.{IsAskedBy};
ghost use Rattle.sip_program.specs.Ending.{IsEnd};
ghost use Rattle.sip_program.specs.Failures.{Blames, IsCause, status_without};
ghost use Rattle.sip_survey_program.specs.Failures.{as_siptrace, line_of};
ghost use Rattle.sip_survey_program.specs.declared.failure.Failure.TheVariants.{Read, Usage, Write};

use crate::asking::asked;
use crate::ending::end;
use crate::failure::{Failure, read_failure};
use crate::status::status_of;
use crate::words::{Asked, Log};
use sip_log::{Sink, Source};
use sip_program::System;
use sip_verdict::{Summary, SurveyError, survey, survey_forgetting, survey_part};
use std::alloc::Global;
use std::hash::BuildHasher;

/// Writes the survey that is asked for of the log that the system has to be read.
fn write_survey<S: System, W: Sink, H: BuildHasher + Drop>(
    alloc: Global,
    system: &mut S,
    asked: &Asked<'_>,
    writer: &mut W,
    seed: H,
) -> Result<Summary, SurveyError>
    requires { S.has_failed system.old ≡ false }
    ensures surveyed { IfOk result (λ summary. IfSome (S.left system.old) (λ input. (found : List Finding) × (text : List ℕ) × IsSurveyFor asked.now.forget asked.now.part input found summary.end text
        × SumsUp found summary × Appends (W.written writer.old) (W.written writer.new) text)) }
    ensures fine { OnOk result ((S.has_failed system.new ≡ false) × (W.has_failed writer.new ≡ W.has_failed writer.old)) }
    ensures read { IsErrOf result ReadError → S.has_failed system.new ≡ true }
    ensures write { IsErrOf result WriteError → W.has_failed writer.new ≡ true }
{
    if let Some(age) = asked.forget {
        let age = u64::from(age);
        // A survey that forgets is given the part too, if there is one.
        return survey_forgetting(alloc, system, writer, seed, asked.part.as_ref(), age);
    }
    match &asked.part {
        Some(part) => survey_part(alloc, system, writer, seed, part),
        None => survey(alloc, system, writer, seed),
    }
}

/// Writes the survey of the log that is asked for, and answers its status.
fn answer<S: System, W: Sink>(
    alloc: Global,
    system: &mut S,
    asked: Asked<'_>,
    writer: &mut W,
) -> Result<u8, Failure>
    requires { S.has_failed system.old ≡ false }
    ensures answer { IfOk result (IsSurveyed asked.entry.forget asked.entry.part (log_for asked.entry.log (S.left system.old) (S.file system.old)) (W.written writer.old) (W.written writer.new)) }
    ensures fine { OnOk result ((S.has_failed system.new ≡ false) × (W.has_failed writer.new ≡ W.has_failed writer.old)) }
    ensures err { IfErr result (λ failure. Blames (S.has_failed system.new) (W.has_failed writer.new) (as_siptrace failure)) }
{
    // The log is the standard input, unless the words name a file, which is opened in its place.
    let seed = system.seed().map_err(read_failure)?;
    if let Log::File(path) = asked.log {
        system.open(path).map_err(read_failure)?;
    }
    let summary = write_survey(alloc, system, &asked, writer, seed)?;
    Ok(status_of(&summary))
}

/// Writes what the words of the system ask for, each line as soon as its finding is found, and answers the status.
pub fn run<S: System, W: Sink>(alloc: Global, system: &mut S, output: &mut W) -> Result<u8, Failure>
    requires { S.has_failed system.old ≡ false }
    ensures answer { IfOk result (λ status. IfSome (S.words system.old) (λ words. IsAnswerTo words (S.left system.old) (S.file system.old) (W.written output.old) (W.written output.new) status)) }
    ensures fine { OnOk result ((S.has_failed system.new ≡ false) × (W.has_failed output.new ≡ W.has_failed output.old)) }
    ensures words { IsErrOf result Usage → IfSome (S.words system.old) (λ words. IsAskedBy words None) }
    ensures read { IsErrOf result Read → S.has_failed system.new ≡ true }
    ensures write { IsErrOf result Write → W.has_failed output.new ≡ true }
{
    let words = system.words().map_err(read_failure)?;
    let Some(asked) = asked(words.as_slice()) else {
        return Err(Failure::Usage);
    };
    answer(alloc, system, asked, output)
}

/// The whole program: it runs, and tells on the standard error why it did not reach its last line. It answers the status that it ends with.
pub fn program<S: System, W: Sink, E: Sink>(
    alloc: Global,
    system: &mut S,
    output: &mut W,
    errors: &mut E,
) -> u8
    requires { S.has_failed system.old ≡ false }
    ensures { IsEnd (λ status. IfSome (S.words system.old) (λ words. IsAnswerTo words (S.left system.old) (S.file system.old) (W.written output.old) (W.written output.new) status))
        (λ failure. IsCause (IfSome (S.words system.old) (λ words. IsAskedBy words None)) (S.has_failed system.new) (W.has_failed output.new) (as_siptrace failure))
        (λ failure. status_without (as_siptrace failure)) line_of (E.written errors.old) (E.written errors.new) (E.has_failed errors.new) result }
{
    end(run(alloc, system, output), errors)
}
