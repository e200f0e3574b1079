//! A walk over the entries of a log: to its end, or to the entry whose transactions are listed.
ghost use Rattle.std.specs.Prelude.{◌≡◌, ◌≢◌, ◌≤◌, ◌+◌, true, false, IfOk, IfNone, OnOk, IsErrOf};
ghost use Rattle.sip_standard.specs.Times.{last_moment};
ghost use Rattle.sip_standard.specs.LogSays.{most_entries};
ghost use Rattle.sip_verdict.specs.inner.TablesTracking.{MayTake};
ghost use Rattle.sip_verdict.specs.inner.Walking.{JudgesOn, WalksTo};

use crate::reading::{Next, read_header, read_next};
use crate::standing::Standing;
use crate::sweeping::judge_next;
use sip_log::{Entry, Source};
use sip_standard::{JudgeError, Listing, Verdict};
use std::alloc::{AllocError, Global};
use std::hash::BuildHasher;

/// Where a walk ends. It also says which messages the walk keeps.
#[derive(Clone, Copy)]
pub(crate) enum Aim {
    /// The walk ends at the end of the log. It keeps no message that no state names.
    End,
    /// The walk ends at the entry with this number. It keeps every message, since a message is told by the number of its first entry.
    Entry(u64),
}

impl Aim {
    /// Whether the aim is the entry with this number.
    fn is_entry(self, number: u64) -> bool
        ensures is { result ≡ true → self ≡ Aim.Entry number }
        ensures is_not { result ≡ false → self ≢ Aim.Entry number }
    {
        match self {
            Aim::End => false,
            Aim::Entry(entry) => entry == number,
        }
    }
}

/// Judges the entry that comes next, and answers the verdict if it is in trouble. `left` is how many messages the last sweep left.
fn judge_on<H: BuildHasher>(
    alloc: Global,
    standing: &mut Standing<H>,
    left: &mut usize,
    aim: Aim,
    entry: &Entry,
) -> Result<Option<Verdict>, AllocError>
    requires limit { entry.now.moment ≤ last_moment }
    requires count { entry.now.number ≤ most_entries }
    requires may { MayTake standing.old.book standing.old.tables entry.now.number entry.now.moment }
    requires left { left.old ≤ most_entries + 1 }
    ensures times { OnOk result (standing.new.tables.times ≡ standing.old.tables.times) }
    ensures may { IfOk result (λ verdict. IfNone verdict (MayTake standing.new.book standing.new.tables (entry.now.number + 1) entry.now.moment)) }
    ensures left { left.new ≤ most_entries + 1 }
    ensures judged { IfOk result (JudgesOn aim standing.old.book standing.old.tables left.old standing.new.book standing.new.tables left.new entry.now) }
{
    match aim {
        Aim::End => judge_next(alloc, standing, left, entry),
        Aim::Entry(_) => standing.entry(alloc, entry),
    }
}

/// Reads a log and judges it, entry by entry. It answers what is listed of the entry that is the aim, or the verdict if the walk ends before
/// it. Every entry is read into the same buffer. It is made anew of its parts, since a move of the whole would also copy the unused bytes
/// beside its action, once for each answer that it passes through.
pub(crate) fn walk<R: Source, H: BuildHasher + Drop>(
    alloc: Global,
    reader: &mut R,
    hasher: H,
    aim: Aim,
) -> Result<Result<Listing, Verdict>, JudgeError>
    ensures answer { IfOk result (WalksTo aim (R.left reader.old)) }
    ensures ok { OnOk result (R.has_failed reader.new ≡ R.has_failed reader.old) }
    ensures io { IsErrOf result JudgeError.Io → R.has_failed reader.new ≡ true }
{
    let (params, mut progress) = match read_header(alloc, reader)? {
        Ok(opened) => opened,
        Err(verdict) => return Ok(Err(verdict)),
    };
    // There is no entry 0, so that nothing is listed of it.
    if aim.is_entry(0) {
        return Ok(Ok(Listing::NoEntry));
    }
    // `left` is how many messages the last sweep left, and `count` the number of the last entry.
    let mut standing = Standing::new(alloc, params, hasher);
    let mut left = 0;
    let mut buffer = Vec::new(alloc);
    let mut count = 0;
    loop {
        match read_next(&mut progress, buffer, reader)? {
            Next::Entry(entry) => {
                let entry = Entry {
                    number: entry.number,
                    moment: entry.moment,
                    action: entry.action,
                    bytes: entry.bytes,
                };
                // The entry that is the aim is listed; any other one is judged, and ends the walk where it is in trouble.
                if aim.is_entry(entry.number) {
                    return Ok(Ok(standing.list(alloc, &entry)?));
                }
                if let Some(verdict) = judge_on(alloc, &mut standing, &mut left, aim, &entry)? {
                    return Ok(Err(verdict));
                }
                count = entry.number;
                buffer = entry.bytes;
            }
            // The log ends in no trouble.
            Next::End => {
                let entries = count;
                let transactions = standing.transactions();
                return Ok(Err(Verdict::Legal {
                    entries,
                    transactions,
                }));
            }
            // What cannot be read is told of the entry that comes next.
            Next::Fault(reason) => {
                let entry = count + 1;
                return Ok(Err(Verdict::LogFault { entry, reason }));
            }
        }
    }
}
