//! Surveys a log from its first byte to its last.
//! In the clauses `found` are the findings, and `text` is what was written of them.
ghost use Rattle.std.specs.Prelude.{◌≡◌, ◌++◌, ◌∷◌, [], ℕ, false, true, List, Option, IfOk, IfSome, OnOk, IsErrOf, option_copied};
ghost use Rattle.std.specs.Io.KnownBytes.{Appends};
ghost use Rattle.sip_log.specs.Reading.{beside_source};
ghost use Rattle.sip_verdict.specs.declared.finding.Finding.{Finding};
ghost use Rattle.sip_verdict.specs.declared.survey_error.SurveyError.TheVariants.{Read, Write};
ghost use Rattle.sip_log.specs.Told.{item};
ghost use Rattle.sip_verdict.specs.SurveyParts.{IsPartToldOf, IsTaken};
ghost use Rattle.sip_verdict.specs.SurveyText.{IsToldOf, SumsUp, end_text};
ghost use Rattle.sip_verdict.specs.inner.SurveyingLogs.{AreCounted, AreLinesBy, IsLineBy, IsSurveyAt, IsToldIn, IsWritten, SurveysRead, TellsOf};

use crate::finding::Finding;
use crate::following::Survey;
use crate::observing::direction_of;
use crate::reading::{Next, read_header};
use crate::rendering::{end_line, finding_line};
use crate::summary::Summary;
use crate::survey_end::SurveyEnd;
use crate::survey_error::SurveyError;
use crate::taking::read_taken;
use crate::transaction::Transaction;
use sip_log::{Entry, Progress, Sink, Source};
use sip_machine::Action;
use sip_part::Part;
use sip_standard::LogReason;
use std::alloc::{AllocError, Global};
use std::hash::BuildHasher;

/// Writes all that is wrong in the log of the reader's bytes. The findings of an entry are written when the entry was read, a line for each:
/// the words of a verdict, and after them, where the finding is of a transaction, `ROLE METHOD BRANCH FIRST LAST`: its role (`client` or
/// `server`), the method of its request, its branch as its first message spells it, and the numbers of its first entry and of its last one
/// so far. The last line is `end entries E transactions T findings F`, or the fault of the log.
///
/// `SurveyError::Read` is answered only if the reader has failed, and `SurveyError::Write` only if the writer has. After an error the lines of
/// the findings so far may have been written, the last of them in part. The hasher is for the keys of the transactions; any hasher gives
/// the same survey.
pub fn survey<R: Source, W: Sink, H: BuildHasher + Drop>(
    alloc: Global,
    reader: &mut R,
    writer: &mut W,
    hasher: H,
) -> Result<Summary, SurveyError>
    requires { R.has_failed reader.old ≡ false }
    ensures surveyed { IfOk result (λ summary. IfSome (R.left reader.old) (λ input. (found : List Finding) × (text : List ℕ) × IsToldOf input found summary.end text × SumsUp found summary
        × Appends (W.written writer.old) (W.written writer.new) text)) }
    ensures fine { OnOk result ((R.has_failed reader.new ≡ false) × (W.has_failed writer.new ≡ W.has_failed writer.old)) }
    ensures read { IsErrOf result Read → R.has_failed reader.new ≡ true }
    ensures write { IsErrOf result Write → W.has_failed writer.new ≡ true }
{
    survey_in(alloc, reader, writer, hasher, None)
}

/// Writes all that is wrong in a part of the log of the reader's bytes, in the same words: what `survey` writes of the log in which each
/// message that does not fall into the part is a mark of its moment. Entries have the numbers of the whole log. Transactions are those of
/// the part, counted among themselves.
pub fn survey_part<R: Source, W: Sink, H: BuildHasher + Drop>(
    alloc: Global,
    reader: &mut R,
    writer: &mut W,
    hasher: H,
    part: &Part,
) -> Result<Summary, SurveyError>
    requires { R.has_failed reader.old ≡ false }
    ensures surveyed { IfOk result (λ summary. IfSome (R.left reader.old) (λ input. (found : List Finding) × (text : List ℕ) × IsPartToldOf part.now input found summary.end text × SumsUp found summary
        × Appends (W.written writer.old) (W.written writer.new) text)) }
    ensures fine { OnOk result ((R.has_failed reader.new ≡ false) × (W.has_failed writer.new ≡ W.has_failed writer.old)) }
    ensures read { IsErrOf result Read → R.has_failed reader.new ≡ true }
    ensures write { IsErrOf result Write → W.has_failed writer.new ≡ true }
{
    survey_in(alloc, reader, writer, hasher, Some(part))
}

/// Surveys the whole log, or a part of it.
fn survey_in<R: Source, W: Sink, H: BuildHasher + Drop>(
    alloc: Global,
    reader: &mut R,
    writer: &mut W,
    hasher: H,
    part: Option<&Part>,
) -> Result<Summary, SurveyError>
    requires { R.has_failed reader.old ≡ false }
    ensures surveyed { IfOk result (λ summary. IfSome (R.left reader.old) (λ input. (found : List Finding) × (text : List ℕ) × IsToldIn (option_copied part.entry) input found summary.end text × SumsUp found summary
        × Appends (W.written writer.old) (W.written writer.new) text)) }
    ensures fine { OnOk result ((R.has_failed reader.new ≡ false) × (W.has_failed writer.new ≡ W.has_failed writer.old)) }
    ensures read { IsErrOf result Read → R.has_failed reader.new ≡ true }
    ensures write { IsErrOf result Write → W.has_failed writer.new ≡ true }
{
    match read_header(alloc, reader)? {
        Ok((params, mut progress)) => {
            let mut survey = Survey::new(alloc, params, hasher);
            write_entries(alloc, &mut survey, &mut progress, reader, writer, part)
        }
        // Without a header nothing is found, and the fault is one of entry 0.
        Err(_) => {
            let reason = LogReason::Header;
            let end = SurveyEnd::LogFault { entry: 0, reason };
            finish(alloc, writer, end, Counts::none())
        }
    }
}

/// Makes the entry a mark of its moment, where it has a message that does not fall into the part.
#[inline(always)]
pub(crate) fn cut_to(
    alloc: Global,
    part: Option<&Part>,
    entry: &mut Entry,
) -> Result<(), AllocError>
    ensures cut { OnOk result (IsTaken (option_copied part.entry) (item entry.old) (item entry.new)) }
    ensures number { OnOk result (entry.new.number ≡ entry.old.number) }
    ensures moment { OnOk result (entry.new.moment ≡ entry.old.moment) }
{
    // Of the whole log each entry stays as it is, and of a part each entry without a message.
    let Some(part) = part else {
        return Ok(());
    };
    if direction_of(entry.action).is_none() {
        return Ok(());
    }
    if !part.has_message(alloc, entry.bytes.as_slice())? {
        entry.action = Action::Mark;
        entry.bytes.clear();
    }
    Ok(())
}

/// Reads on after the header to the end of the log, and writes what is found. Every entry is read into the same buffer, and made anew of its
/// parts, as in `walk`.
fn write_entries<R: Source, W: Sink, H: BuildHasher + Drop>(
    alloc: Global,
    survey: &mut Survey<H>,
    progress: &mut Progress,
    reader: &mut R,
    writer: &mut W,
    part: Option<&Part>,
) -> Result<Summary, SurveyError>
    requires at { IsSurveyAt survey.old progress.old }
    requires first { survey.old.number ≡ 0 }
    ensures surveyed { IfOk result (λ summary. (start : Option (List ℕ))
        → SurveysRead (option_copied part.entry) survey.old [] start (beside_source progress.old (R.left reader.old) (R.has_failed reader.old))
        → IfSome start (λ input. IsWritten (option_copied part.entry) input summary (W.written writer.old) (W.written writer.new))) }
    ensures fine { OnOk result ((R.has_failed reader.new ≡ R.has_failed reader.old) × (W.has_failed writer.new ≡ W.has_failed writer.old)) }
    ensures read { IsErrOf result Read → R.has_failed reader.new ≡ true }
    ensures write { IsErrOf result Write → W.has_failed writer.new ≡ true }
{
    let mut buffer = Vec::new(alloc);
    let mut found = Vec::new(alloc);
    let mut counts = Counts::none();
    // `count` is the number of the last entry that was read.
    let mut count = 0;
    loop {
        match read_taken(alloc, part, progress, buffer, reader)? {
            Next::Entry(entry) => {
                let entry = Entry {
                    number: entry.number,
                    moment: entry.moment,
                    action: entry.action,
                    bytes: entry.bytes,
                };
                count = entry.number;
                found.clear();
                survey.entry(&entry, &mut found)?;
                counts = put_findings(alloc, writer, survey, found.as_slice(), counts)?;
                buffer = entry.bytes;
            }
            // The survey has not failed, so that it has an end.
            Next::End => return finish(alloc, writer, survey.end().unwrap(), counts),
            // The fault comes at the entry after the last one that was read.
            Next::Fault(reason) => {
                let entry = count + 1;
                let end = SurveyEnd::LogFault { entry, reason };
                return finish(alloc, writer, end, counts);
            }
        }
    }
}

/// Writes a line for each of the findings of the newest entry, and counts them.
#[inline(always)]
pub(crate) fn put_findings<W: Sink, H: BuildHasher + Drop>(
    alloc: Global,
    writer: &mut W,
    survey: &Survey<H>,
    found: &[Finding],
    counts: Counts,
) -> Result<Counts, SurveyError>
    ensures text { OnOk result ((text : List ℕ) × Appends (W.written writer.old) (W.written writer.new) text × AreLinesBy survey.now found.now text) }
    ensures counted { IfOk result (AreCounted found.now counts) }
    ensures fine { OnOk result (W.has_failed writer.new ≡ W.has_failed writer.old) }
    ensures read { IsErrOf result Read → ⊥ }
    ensures write { IsErrOf result Write → W.has_failed writer.new ≡ true }
{
    let mut counts = counts;
    for finding in found {
        put_finding(alloc, writer, survey, finding)?;
        counts = counts.with(finding).ok_or(SurveyError::Memory)?;
    }
    Ok(counts)
}

/// The transaction of a finding, and None for the fault of a message.
fn transaction_of<'a, H: BuildHasher + Drop>(
    survey: &'a Survey<H>,
    finding: &Finding,
) -> Option<Transaction<'a>>
    ensures { TellsOf survey.now finding.now result }
{
    match *finding {
        Finding::Malformed { .. } => None,
        Finding::Breach { transaction, .. } => survey.transaction(transaction),
        Finding::Undecided { transaction, .. } => survey.transaction(transaction),
    }
}

/// Writes the line of one finding of the newest entry.
fn put_finding<W: Sink, H: BuildHasher + Drop>(
    alloc: Global,
    writer: &mut W,
    survey: &Survey<H>,
    finding: &Finding,
) -> Result<(), SurveyError>
    ensures text { OnOk result ((line : List ℕ) × Appends (W.written writer.old) (W.written writer.new) line × IsLineBy survey.now finding.now line) }
    ensures fine { OnOk result (W.has_failed writer.new ≡ W.has_failed writer.old) }
    ensures read { IsErrOf result Read → ⊥ }
    ensures write { IsErrOf result Write → W.has_failed writer.new ≡ true }
{
    let transaction = transaction_of(survey, finding);
    let line = finding_line(alloc, finding, transaction.as_ref())?;
    writer.put(line.as_slice())?;
    Ok(())
}

/// Writes the last line of a survey, and answers its sums.
pub(crate) fn finish<W: Sink>(
    alloc: Global,
    writer: &mut W,
    end: SurveyEnd,
    counts: Counts,
) -> Result<Summary, SurveyError>
    ensures sums { IfOk result (λ summary. (summary.end ≡ end) × (summary.findings ≡ counts.findings) × (summary.undecided ≡ counts.undecided)) }
    ensures text { OnOk result (Appends (W.written writer.old) (W.written writer.new) (end_text end counts.findings)) }
    ensures fine { OnOk result (W.has_failed writer.new ≡ W.has_failed writer.old) }
    ensures read { IsErrOf result Read → ⊥ }
    ensures write { IsErrOf result Write → W.has_failed writer.new ≡ true }
{
    let line = end_line(alloc, &end, counts.findings)?;
    writer.put(line.as_str().as_bytes())?;
    Ok(Summary {
        end,
        findings: counts.findings,
        undecided: counts.undecided,
    })
}

/// How many findings there are so far, and how many of them are of a transaction that is followed no further.
#[derive(Clone, Copy)]
pub(crate) struct Counts {
    findings: u64,
    undecided: u64,
}

impl Counts {
    /// The counts before the first finding.
    pub(crate) fn none() -> Counts
        ensures { (result.findings ≡ 0) × (result.undecided ≡ 0) }
    {
        Counts {
            findings: 0,
            undecided: 0,
        }
    }

    /// The counts with this finding, and None where a number would be too large, which no log reaches.
    fn with(&self, finding: &Finding) -> Option<Counts>
        ensures { IfSome result (AreCounted (finding.now ∷ []) self.now) }
    {
        let undecided = matches!(finding, Finding::Undecided { .. });
        Some(Counts {
            findings: self.findings.checked_add(1)?,
            undecided: self.undecided.checked_add(u64::from(undecided))?,
        })
    }
}
