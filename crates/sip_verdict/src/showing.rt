//! Shows a log: its entries, one after another, each with its message in the canonical form.
ghost use Rattle.std.specs.Prelude.{◌≡◌, ◌++◌, ◌∷◌, [], ℕ, List, true, OnOk, IfOk, IfErr, IfSome, IsErrOf};
ghost use Rattle.std.specs.Io.KnownBytes.{Appends};
ghost use Rattle.sip_standard.specs.LogSays.{line_feed};
ghost use Rattle.sip_log.specs.Told.{item};
ghost use Rattle.sip_standard.specs.Canonical.{IsCanonical};
ghost use Rattle.sip_standard.specs.declared.show_error.ShowError.TheVariants.{Read, Write};
ghost use Rattle.sip_standard.specs.Showing.{IsCanonOf, last_text, IsShownOf};
ghost use Rattle.sip_verdict.specs.inner.Showing.{IsFaulty, HasNoForm, ShowsEntry};

use crate::log_reason::reason_of;
use crate::rendering::last_line;
use itoa::Buffer;
use sip_log::{Broken, Entry, Progress, Sink, Source, put_entry};
use sip_machine::Action;
use sip_message::{Message, ReadError, write};
use sip_standard::{Fault, ShowError, Shown};
use std::alloc::Global;

/// Writes each entry of the reader's log with its number, and with its message in the canonical form, and then a last line:
/// `end N`, or the verdict on the first entry that cannot be read or whose message has a fault. It judges no transaction.
///
/// `ShowError::Read` is answered only if the reader has failed, and `ShowError::Write` only if the writer has. After an
/// error it is not said what was written, nor how far the log was read. It writes as it reads, and holds no more than one entry
/// at a time: no contract says so.
pub fn show<R: Source, W: Sink>(
    alloc: Global,
    reader: &mut R,
    writer: &mut W,
) -> Result<Shown, ShowError>
    ensures shown { IfOk result (λ shown. IfSome (R.left reader.old) (λ input. (text : List ℕ) × IsShownOf input text shown × Appends (W.written writer.old) (W.written writer.new) text)) }
    ensures fine { OnOk result ((R.has_failed reader.new ≡ R.has_failed reader.old) × (W.has_failed writer.new ≡ W.has_failed writer.old)) }
    ensures read { IsErrOf result Read → R.has_failed reader.new ≡ true }
    ensures write { IsErrOf result Write → W.has_failed writer.new ≡ true }
{
    let mut progress = match Progress::open(alloc, reader) {
        Ok((_, progress)) => progress,
        // A header that cannot be read is the fault of entry 0.
        Err(error) => {
            let reason = reason_of(error)?;
            return finish(alloc, writer, Shown::LogFault { entry: 0, reason });
        }
    };
    // `count` is the number of the last entry that was shown, and `form` holds the canonical form of the message in hand.
    let mut count = 0;
    let mut buffer = Vec::new(alloc);
    let mut form = Vec::new(alloc);
    loop {
        let entry = match progress.next_into(buffer, reader) {
            Ok(Some(entry)) => entry,
            // The log ends, or what comes after the last entry that was shown cannot be read.
            Ok(None) => return finish(alloc, writer, Shown::End { entries: count }),
            Err(error) => {
                let reason = reason_of(error)?;
                let entry = count + 1;
                return finish(alloc, writer, Shown::LogFault { entry, reason });
            }
        };
        let number = entry.number;
        if let Some(fault) = show_entry(alloc, writer, &entry, &mut form)? {
            let entry = number;
            return finish(alloc, writer, Shown::Malformed { entry, fault });
        }
        count = number;
        buffer = entry.bytes;
    }
}

/// Writes an entry with its number, or answers the fault of its message and writes nothing. The form of its message comes into `form` in place of
/// what stood there.
fn show_entry<W: Sink>(
    alloc: Global,
    writer: &mut W,
    entry: &Entry,
    form: &mut Vec<u8>,
) -> Result<Option<Fault>, ShowError>
    ensures { ShowsEntry entry.now.number (item entry.now) (W.written writer.old) (W.written writer.new) (W.has_failed writer.old) (W.has_failed writer.new) result }
{
    form.clear();
    // A message with a fault has no form, and nothing is written.
    match append_form(alloc, entry.action, entry.bytes.as_slice(), form) {
        Ok(()) => (),
        Err(ReadError::Fault(fault)) => return Ok(Some(fault)),
        Err(ReadError::Memory) => return Err(ShowError::Memory),
    }
    writer.put(Buffer::new().format(entry.number).as_bytes())?;
    writer.put(b" ")?;
    put_entry(writer, entry.action, entry.moment, form.as_slice())?;
    Ok(None)
}

/// Appends the canonical form of an entry's message to no bytes, and appends nothing where the entry has no message.
fn append_form(
    alloc: Global,
    action: Action,
    bytes: &[u8],
    form: &mut Vec<u8>,
) -> Result<(), ReadError>
    requires { form.old.items ≡ [] }
    ensures form { OnOk result (IsCanonOf action bytes.now form.new.items) }
    ensures fault { IfErr result (HasNoForm action bytes.now) }
{
    // An entry with one of the first three actions has a message, and the others have none.
    match action {
        Action::Sent | Action::Received | Action::Failed => append_canonical(alloc, bytes, form),
        Action::Mark | Action::Restart => Ok(()),
    }
}

/// Appends the canonical form of a message to no bytes.
fn append_canonical(alloc: Global, bytes: &[u8], form: &mut Vec<u8>) -> Result<(), ReadError>
    requires { form.old.items ≡ [] }
    ensures form { OnOk result (IsCanonical bytes.now form.new.items) }
    ensures fault { IfErr result (IsFaulty bytes.now) }
{
    let message = match Message::read(alloc, bytes) {
        Ok(message) => message,
        Err(error) => return Err(error),
    };
    write(&message, form)?;
    Ok(())
}

/// Writes the last line of a log that is shown.
fn finish<W: Sink>(alloc: Global, writer: &mut W, shown: Shown) -> Result<Shown, ShowError>
    ensures same { IfOk result (λ answer. answer ≡ shown) }
    ensures text { OnOk result (Appends (W.written writer.old) (W.written writer.new) (last_text shown ++ line_feed ∷ [])) }
    ensures fine { OnOk result (W.has_failed writer.new ≡ W.has_failed writer.old) }
    ensures read { IsErrOf result Read → ⊥ }
    ensures write { IsErrOf result Write → W.has_failed writer.new ≡ true }
{
    let text = last_line(alloc, &shown)?;
    writer.put(text.as_str().as_bytes())?;
    writer.put(b"\n")?;
    Ok(shown)
}
