//! The text of a verdict, of a finding, and of the last line of a survey or of a log that is shown.
ghost use Rattle.std.specs.Prelude.{◌≡◌, ◌++◌, IfOk, OnOk, codes, decimal, string_bytes};
ghost use Rattle.sip_standard.specs.Rendering.{rendered, rendered_unit};
ghost use Rattle.sip_standard.specs.Showing.{last_text};
ghost use Rattle.sip_verdict.specs.SurveyText.{end_text, line_with, told_words};
ghost use Rattle.sip_standard.specs.declared.verdict.Verdict.TheVariants.{Malformed, LogFault};
ghost use Rattle.std.specs.Option.{option_copied};
ghost use Rattle.sip_standard.specs.TransactionText.{role_text};

use crate::finding::Finding;
use crate::survey_end::SurveyEnd;
use crate::transaction::Transaction;
use itoa::Buffer;
use sip_key::Role;
use sip_standard::{Fault, LogReason, Shown, Unit, Verdict};
use std::alloc::{AllocError, Global};

/// The text of a verdict, one line without its end: `legal entries E transactions T`, `malformed E UNIT NO REASON`,
/// `breach E transaction T`, `undecided E transaction T` or `log fault E NO REASON`, where UNIT is `head`, `line N` or `body`.
pub fn render(alloc: Global, verdict: &Verdict) -> Result<String, AllocError>
    ensures { IfOk result (λ text. string_bytes text ≡ rendered verdict.now) }
{
    match *verdict {
        Verdict::Legal {
            entries,
            transactions,
        } => two_numbers(
            alloc,
            "legal entries ",
            entries,
            " transactions ",
            transactions,
        ),
        Verdict::Malformed { entry, fault } => malformed(alloc, entry, fault),
        Verdict::Breach { entry, transaction } => {
            two_numbers(alloc, "breach ", entry, " transaction ", transaction)
        }
        Verdict::Undecided { entry, transaction } => {
            two_numbers(alloc, "undecided ", entry, " transaction ", transaction)
        }
        Verdict::LogFault { entry, reason } => log_fault(alloc, entry, reason),
    }
}

/// The last line of a log that is shown, without its end: `end N`, or the verdict on the entry that cannot be shown.
pub(crate) fn last_line(alloc: Global, shown: &Shown) -> Result<String, AllocError>
    ensures { IfOk result (λ text. string_bytes text ≡ last_text shown.now) }
{
    match *shown {
        Shown::End { entries } => {
            let mut text = String::new(alloc);
            push_with_number(&mut text, "end ", entries)?;
            Ok(text)
        }
        Shown::Malformed { entry, fault } => malformed(alloc, entry, fault),
        Shown::LogFault { entry, reason } => log_fault(alloc, entry, reason),
    }
}

/// The line of a finding, with its end: the text of the verdict with the same words, and after it the words ROLE METHOD BRANCH FIRST LAST of
/// the transaction, where it is known.
pub fn finding_line(
    alloc: Global,
    finding: &Finding,
    transaction: Option<&Transaction<'_>>,
) -> Result<Vec<u8>, AllocError>
    ensures { IfOk result (λ line. line.items ≡ line_with finding.now (option_copied transaction.entry)) }
{
    let words = render(alloc, &Verdict::from(*finding))?;
    let mut line = Vec::new(alloc);
    line.extend_from_slice(words.as_str().as_bytes())?;
    if let Some(transaction) = transaction {
        push_transaction(&mut line, transaction)?;
    }
    line.push(b'\n')?;
    Ok(line)
}

/// Appends the words of a transaction, each after a blank.
fn push_transaction(line: &mut Vec<u8>, transaction: &Transaction<'_>) -> Result<(), AllocError>
    ensures { OnOk result (line.new.items ≡ line.old.items ++ told_words transaction.now) }
{
    push_word(line, role_text(transaction.key.role()).as_bytes())?;
    push_word(line, transaction.key.method())?;
    push_word(line, transaction.branch)?;
    push_word(line, Buffer::new().format(transaction.first).as_bytes())?;
    push_word(line, Buffer::new().format(transaction.last).as_bytes())
}

/// The role of a transaction as a word.
fn role_text(role: Role) -> &'static str
    ensures { result.now ≡ role_text role }
{
    match role {
        Role::Client => "client",
        Role::Server => "server",
    }
}

/// Appends a word after a blank.
fn push_word(line: &mut Vec<u8>, word: &[u8]) -> Result<(), AllocError>
    ensures { OnOk result (line.new.items ≡ line.old.items ++ codes " " ++ word.now) }
{
    line.push(b' ')?;
    line.extend_from_slice(word)
}

/// The last line of a survey with this many findings, with its end: `end entries E transactions T findings F`, or the text of the verdict on a
/// log that cannot be read.
pub fn end_line(alloc: Global, end: &SurveyEnd, findings: u64) -> Result<String, AllocError>
    ensures { IfOk result (λ text. string_bytes text ≡ end_text end.now findings) }
{
    let mut text = match *end {
        SurveyEnd::Clean {
            entries,
            transactions,
        } => clean_end(alloc, entries, transactions, findings)?,
        SurveyEnd::LogFault { entry, reason } => log_fault(alloc, entry, reason)?,
    };
    text.push_str("\n")?;
    Ok(text)
}

/// The line that says that the log of a survey was read to its end, with the numbers of entries, transactions and findings.
fn clean_end(
    alloc: Global,
    entries: u64,
    transactions: u64,
    findings: u64,
) -> Result<String, AllocError>
    ensures { IfOk result (λ text. string_bytes text
        ≡ codes "end entries " ++ decimal entries ++ codes " transactions " ++ decimal transactions ++ codes " findings " ++ decimal findings) }
{
    let mut text = two_numbers(
        alloc,
        "end entries ",
        entries,
        " transactions ",
        transactions,
    )?;
    push_with_number(&mut text, " findings ", findings)?;
    Ok(text)
}

/// The text of two words, each with a number after it.
fn two_numbers(
    alloc: Global,
    first_word: &str,
    first: u64,
    second_word: &str,
    second: u64,
) -> Result<String, AllocError>
    ensures { IfOk result (λ text.
        string_bytes text ≡ first_word.now ++ decimal first ++ second_word.now ++ decimal second) }
{
    let mut text = String::new(alloc);
    push_with_number(&mut text, first_word, first)?;
    push_with_number(&mut text, second_word, second)?;
    Ok(text)
}

/// The line of a malformed entry.
fn malformed(alloc: Global, entry: u64, fault: Fault) -> Result<String, AllocError>
    ensures { IfOk result (λ text. string_bytes text ≡ rendered (Malformed entry fault)) }
{
    let mut text = String::new(alloc);
    push_with_number(&mut text, "malformed ", entry)?;
    text.push_str(" ")?;
    push_unit(&mut text, fault.unit)?;
    push_reason(&mut text, fault.reason.number(), fault.reason.name())?;
    Ok(text)
}

/// The line of a log that cannot be read on.
fn log_fault(alloc: Global, entry: u64, reason: LogReason) -> Result<String, AllocError>
    ensures { IfOk result (λ text. string_bytes text ≡ rendered (LogFault entry reason)) }
{
    let mut text = String::new(alloc);
    push_with_number(&mut text, "log fault ", entry)?;
    push_reason(&mut text, reason.number(), reason.name())?;
    Ok(text)
}

/// Appends the place of a message's fault: `head`, `line N` or `body`.
fn push_unit(text: &mut String, unit: Unit) -> Result<(), AllocError>
    ensures { OnOk result (string_bytes text.new ≡ string_bytes text.old ++ rendered_unit unit) }
{
    match unit {
        Unit::Head => text.push_str("head"),
        Unit::Line(number) => push_with_number(text, "line ", number as u64),
        Unit::Body => text.push_str("body"),
    }
}

/// Appends a reason's number and name, each after a blank.
fn push_reason(text: &mut String, number: u8, name: &str) -> Result<(), AllocError>
    ensures { OnOk result (string_bytes text.new
        ≡ string_bytes text.old ++ codes " " ++ decimal number ++ codes " " ++ name.now) }
{
    push_with_number(text, " ", number.into())?;
    text.push_str(" ")?;
    text.push_str(name)
}

/// Appends a word and a number.
fn push_with_number(text: &mut String, word: &str, number: u64) -> Result<(), AllocError>
    ensures { OnOk result (string_bytes text.new ≡ string_bytes text.old ++ word.now ++ decimal number) }
{
    text.push_str(word)?;
    text.push_str(Buffer::new().format(number))
}
