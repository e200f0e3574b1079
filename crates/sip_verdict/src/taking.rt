//! The entries of a log as a survey takes them: those of the whole log, or those of the log of a part.
ghost use Rattle.std.specs.Prelude.{◌≡◌, ◌≤◌, true, ℕ, List, Option, IfOk, OnOk, IsErrOf, option_copied};
ghost use Rattle.sip_standard.specs.LogEntry.{Item};
ghost use Rattle.sip_standard.specs.Times.{Times};
ghost use Rattle.sip_log.specs.Ahead.{item_ahead};
ghost use Rattle.sip_log.specs.Reading.{beside_source, entries};
ghost use Rattle.sip_log.specs.Told.{item};
ghost use Rattle.sip_log.proofs.answers.StreamLemmas.{HasStreamed};
ghost use Rattle.sip_verdict.specs.Room.{most_surveyed};
ghost use Rattle.sip_verdict.specs.SurveyParts.{IsPartItem};
ghost use Rattle.sip_verdict.specs.inner.Taking.{StreamTaken, TakenGives, TakesAfter, TakesOn};
ghost use Rattle.sip_verdict.specs.inner.Walking.{HasRead};

use crate::observing::direction_of;
use crate::reading::{Next, read_next, read_on};
use crate::surveying::cut_to;
use sip_log::{Ahead, Entry, Progress, Source};
use sip_machine::Action;
use sip_part::Part;
use sip_standard::JudgeError;
use std::alloc::{AllocError, Global};

/// Reads what comes next in the log, after its header or an entry, into the buffer. Where a part is surveyed, an entry with a message of another
/// part comes as a mark of its moment. Such a message is not copied where it stands whole among the bytes that were read.
#[inline(always)]
pub(crate) fn read_taken<R: Source>(
    alloc: Global,
    part: Option<&Part>,
    progress: &mut Progress,
    buffer: Vec<u8>,
    reader: &mut R,
) -> Result<Next, JudgeError>
    requires { progress.old.stage ≡ entries }
    ensures moves { IfOk result (λ next. TakesOn progress.old progress.new next) }
    ensures gives { IfOk result (λ next. (start : Option (List ℕ)) (times : Times) (items : List Item)
        → HasRead start times items (beside_source progress.old (R.left reader.old) (R.has_failed reader.old))
        → TakenGives (option_copied part.entry) start times items (beside_source progress.new (R.left reader.new) (R.has_failed reader.new)) next) }
    ensures ok { OnOk result (R.has_failed reader.new ≡ R.has_failed reader.old) }
    ensures io { IsErrOf result JudgeError.Io → R.has_failed reader.new ≡ true }
{
    // Of a part, an entry with a message that stands whole among the bytes that were read is taken there; any other one is read, and then cut.
    if let Some(part) = part {
        if let Some(ahead) = progress.ahead() {
            let entry = take_ahead(alloc, part, &ahead, buffer)?;
            let size = ahead.size;
            progress.pass(entry.moment, size);
            return Ok(Next::Entry(entry));
        }
    }
    read_cut(alloc, part, progress, buffer, reader)
}

/// Reads what comes next as `read_next` does, and then makes an entry with a message of another part a mark.
#[inline(always)]
fn read_cut<R: Source>(
    alloc: Global,
    part: Option<&Part>,
    progress: &mut Progress,
    buffer: Vec<u8>,
    reader: &mut R,
) -> Result<Next, JudgeError>
    requires { progress.old.stage ≡ entries }
    ensures moves { IfOk result (λ next. TakesOn progress.old progress.new next) }
    ensures gives { IfOk result (λ next. (start : Option (List ℕ)) (times : Times) (items : List Item)
        → HasRead start times items (beside_source progress.old (R.left reader.old) (R.has_failed reader.old))
        → TakenGives (option_copied part.entry) start times items (beside_source progress.new (R.left reader.new) (R.has_failed reader.new)) next) }
    ensures ok { OnOk result (R.has_failed reader.new ≡ R.has_failed reader.old) }
    ensures io { IsErrOf result JudgeError.Io → R.has_failed reader.new ≡ true }
{
    match read_next(progress, buffer, reader)? {
        Next::Entry(entry) => {
            // The entry is made anew of its parts, as in `walk`.
            let mut entry = Entry {
                number: entry.number,
                moment: entry.moment,
                action: entry.action,
                bytes: entry.bytes,
            };
            cut_to(alloc, part, &mut entry)?;
            Ok(Next::Entry(entry))
        }
        Next::End => Ok(Next::End),
        Next::Fault(reason) => Ok(Next::Fault(reason)),
    }
}

/// Reads what stands after the header and the first `count` entries as `read_taken` does, where there may be any number of entries. The next one has
/// the number after `count`.
#[inline(always)]
pub(crate) fn read_on_taken<R: Source>(
    alloc: Global,
    part: Option<&Part>,
    progress: &mut Progress,
    buffer: Vec<u8>,
    reader: &mut R,
    count: u64,
) -> Result<Next, JudgeError>
    requires on { progress.old.stage ≡ entries }
    requires count { count ≤ most_surveyed }
    ensures moves { IfOk result (λ next. TakesAfter count progress.old progress.new next) }
    ensures gives { IfOk result (λ next. (start : Option (List ℕ)) (times : Times) (items : List Item)
        → HasStreamed start times items (beside_source progress.old (R.left reader.old) (R.has_failed reader.old))
        → StreamTaken (option_copied part.entry) start times items (beside_source progress.new (R.left reader.new) (R.has_failed reader.new)) next) }
    ensures ok { OnOk result (R.has_failed reader.new ≡ R.has_failed reader.old) }
    ensures io { IsErrOf result JudgeError.Io → R.has_failed reader.new ≡ true }
{
    // The place counts anew, since there may be more entries than a log has.
    progress.count_anew();
    if let Some(part) = part {
        if let Some(ahead) = progress.ahead() {
            let entry = take_ahead(alloc, part, &ahead, buffer)?;
            let size = ahead.size;
            progress.pass(entry.moment, size);
            return Ok(Next::Entry(Entry {
                number: count + 1,
                moment: entry.moment,
                action: entry.action,
                bytes: entry.bytes,
            }));
        }
    }
    read_on_cut(alloc, part, progress, buffer, reader, count)
}

/// Reads what comes next as `read_on` does, and then makes an entry with a message of another part a mark.
#[inline(always)]
fn read_on_cut<R: Source>(
    alloc: Global,
    part: Option<&Part>,
    progress: &mut Progress,
    buffer: Vec<u8>,
    reader: &mut R,
    count: u64,
) -> Result<Next, JudgeError>
    requires on { progress.old.stage ≡ entries }
    requires count { count ≤ most_surveyed }
    ensures moves { IfOk result (λ next. TakesAfter count progress.old progress.new next) }
    ensures gives { IfOk result (λ next. (start : Option (List ℕ)) (times : Times) (items : List Item)
        → HasStreamed start times items (beside_source progress.old (R.left reader.old) (R.has_failed reader.old))
        → StreamTaken (option_copied part.entry) start times items (beside_source progress.new (R.left reader.new) (R.has_failed reader.new)) next) }
    ensures ok { OnOk result (R.has_failed reader.new ≡ R.has_failed reader.old) }
    ensures io { IsErrOf result JudgeError.Io → R.has_failed reader.new ≡ true }
{
    match read_on(progress, buffer, reader, count)? {
        Next::Entry(entry) => {
            // The entry is made anew of its parts, as in `walk`.
            let mut entry = Entry {
                number: entry.number,
                moment: entry.moment,
                action: entry.action,
                bytes: entry.bytes,
            };
            cut_to(alloc, part, &mut entry)?;
            Ok(Next::Entry(entry))
        }
        Next::End => Ok(Next::End),
        Next::Fault(reason) => Ok(Next::Fault(reason)),
    }
}

/// The entry that comes next as the log of the part has it: with its message in the buffer, or as a mark of its moment.
#[inline(always)]
fn take_ahead(
    alloc: Global,
    part: &Part,
    ahead: &Ahead<'_>,
    mut buffer: Vec<u8>,
) -> Result<Entry, AllocError>
    ensures number { IfOk result (λ e. e.number ≡ ahead.now.number) }
    ensures moment { IfOk result (λ e. e.moment ≡ ahead.now.moment) }
    ensures taken { IfOk result (λ e. IsPartItem part.now (item_ahead ahead.now.action ahead.now.moment ahead.now.message.now) (item e)) }
{
    // An entry without a message stays as it is, and so does one whose message falls into the part.
    if direction_of(ahead.action).is_none() {
        return copy_ahead(ahead, buffer);
    }
    if part.has_message(alloc, ahead.message)? {
        return copy_ahead(ahead, buffer);
    }
    // A message of another part is not copied.
    buffer.clear();
    Ok(Entry {
        number: ahead.number,
        moment: ahead.moment,
        action: Action::Mark,
        bytes: buffer,
    })
}

/// The entry that comes next, with its message in the buffer.
#[inline(always)]
fn copy_ahead(ahead: &Ahead<'_>, mut buffer: Vec<u8>) -> Result<Entry, AllocError>
    ensures number { IfOk result (λ e. e.number ≡ ahead.now.number) }
    ensures moment { IfOk result (λ e. e.moment ≡ ahead.now.moment) }
    ensures same { IfOk result (λ e. item e ≡ item_ahead ahead.now.action ahead.now.moment ahead.now.message.now) }
{
    buffer.clear();
    buffer.extend_from_slice(ahead.message)?;
    Ok(Entry {
        number: ahead.number,
        moment: ahead.moment,
        action: ahead.action,
        bytes: buffer,
    })
}
