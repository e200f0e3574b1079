//! Reads a log entry by entry, for a judge or a survey, each of which answers a fault of the log in its own words.
//! In the clauses `start` are the bytes of the whole input, `times` those of its header, and `items` the entries that were read of it.
ghost use Rattle.std.specs.Prelude.{◌≡◌, ◌≤◌, true, Some, [], Option, List, ℕ, IfOk, IfErr, IfSome, OnOk, IsErrOf};
ghost use Rattle.sip_standard.specs.Times.{Times};
ghost use Rattle.sip_log.specs.Reading.{entries, beside_source};
ghost use Rattle.sip_standard.specs.LogEntry.{Item};
ghost use Rattle.sip_standard.specs.VerdictOf.{IsVerdictOf};
ghost use Rattle.sip_standard.specs.ListingOf.{trouble_of};
ghost use Rattle.sip_log.proofs.answers.StreamLemmas.{HasStreamed};
ghost use Rattle.sip_verdict.specs.Room.{most_surveyed};
ghost use Rattle.sip_verdict.specs.inner.ForgettingLogs.{StreamGives, StreamsOn};
ghost use Rattle.sip_verdict.specs.inner.Walking.{HasRead, WalkGives, MovesOn};

use crate::log_reason::reason_of;
use sip_log::{Entry, Progress, Source};
use sip_machine::Params;
use sip_standard::{JudgeError, LogReason, Verdict};
use std::alloc::Global;

/// What a log has after the entries that were read so far.
#[derive(Drop)]
pub(crate) enum Next {
    /// One more entry.
    Entry(Entry),
    /// No more entries: the log ends.
    End,
    /// Bytes that are no entry, with the reason why not.
    Fault(LogReason),
}

/// Reads the header, and no entry yet. Where the header has a fault it answers the verdict instead.
pub(crate) fn read_header<R: Source>(
    alloc: Global,
    reader: &mut R,
) -> Result<Result<(Params, Progress), Verdict>, JudgeError>
    ensures first { IfOk result (λ opened. IfOk opened (λ read. (read.1.count ≡ 0) × (read.1.last ≡ 0))) }
    ensures reads { IfOk result (λ opened. IfOk opened (λ read. HasRead (R.left reader.old) read.0 []
        (beside_source read.1 (R.left reader.new) (R.has_failed reader.new)))) }
    ensures fault { IfOk result (λ opened. IfErr opened (λ verdict. IfSome (R.left reader.old) (λ input. IsVerdictOf input verdict)
        × (trouble_of verdict ≡ Some 0))) }
    ensures ok { OnOk result (R.has_failed reader.new ≡ R.has_failed reader.old) }
    ensures io { IsErrOf result JudgeError.Io → R.has_failed reader.new ≡ true }
{
    match Progress::open(alloc, reader) {
        Ok(opened) => Ok(Ok(opened)),
        Err(error) => {
            let reason = reason_of(error)?;
            Ok(Err(Verdict::LogFault { entry: 0, reason }))
        }
    }
}

/// Reads what stands after the header and the first `count` entries, into the buffer. There may be any number of entries. The next one has the
/// number after `count`.
pub(crate) fn read_on<R: Source>(
    progress: &mut Progress,
    buffer: Vec<u8>,
    reader: &mut R,
    count: u64,
) -> Result<Next, JudgeError>
    requires on { progress.old.stage ≡ entries }
    requires count { count ≤ most_surveyed }
    ensures moves { IfOk result (λ next. StreamsOn count progress.old progress.new next) }
    ensures gives { IfOk result (λ next. (start : Option (List ℕ)) (times : Times) (items : List Item)
        → HasStreamed start times items (beside_source progress.old (R.left reader.old) (R.has_failed reader.old))
        → StreamGives start times items (beside_source progress.new (R.left reader.new) (R.has_failed reader.new)) next) }
    ensures ok { OnOk result (R.has_failed reader.new ≡ R.has_failed reader.old) }
    ensures io { IsErrOf result JudgeError.Io → R.has_failed reader.new ≡ true }
{
    // The place counts anew, since there may be more entries than a log has.
    progress.count_anew();
    match progress.next_into(buffer, reader) {
        Ok(Some(mut entry)) => {
            entry.number = count + 1;
            Ok(Next::Entry(entry))
        }
        Ok(None) => Ok(Next::End),
        Err(error) => Ok(Next::Fault(reason_of(error)?)),
    }
}

/// Reads what comes next in the log, after its header or an entry, into the buffer.
#[inline(always)]
pub(crate) fn read_next<R: Source>(
    progress: &mut Progress,
    buffer: Vec<u8>,
    reader: &mut R,
) -> Result<Next, JudgeError>
    requires { progress.old.stage ≡ entries }
    ensures moves { IfOk result (λ next. MovesOn progress.old progress.new next) }
    ensures gives { IfOk result (λ next. (start : Option (List ℕ)) (times : Times) (items : List Item)
        → HasRead start times items (beside_source progress.old (R.left reader.old) (R.has_failed reader.old))
        → WalkGives start times items (beside_source progress.new (R.left reader.new) (R.has_failed reader.new)) next) }
    ensures ok { OnOk result (R.has_failed reader.new ≡ R.has_failed reader.old) }
    ensures io { IsErrOf result JudgeError.Io → R.has_failed reader.new ≡ true }
{
    match progress.next_into(buffer, reader) {
        Ok(Some(entry)) => Ok(Next::Entry(entry)),
        Ok(None) => Ok(Next::End),
        Err(error) => Ok(Next::Fault(reason_of(error)?)),
    }
}
