//! Judges entries, and drops messages that no transaction needs any more.
//! In the clauses es are the entries so far, whichever they are, and e is what is observed of the next one.
ghost use Rattle.std.specs.Prelude.{◌≡◌, ◌≤◌, ◌+◌, List, All, Contains, IfOk, IfNone, OnOk, length};
ghost use Rattle.sip_standard.specs.Key.{KeyParts};
ghost use Rattle.sip_standard.specs.Times.{last_moment};
ghost use Rattle.sip_standard.specs.LogSays.{most_entries};
ghost use Rattle.sip_log.specs.Told.{item};
ghost use Rattle.sip_standard.specs.Observation.{Observation};
ghost use Rattle.sip_standard.specs.VerdictOf.{Sees};
ghost use Rattle.sip_verdict.specs.Entries.{newest_moment, ConcernsNone};
ghost use Rattle.sip_verdict.specs.Judging.{AreFollowed};
ghost use Rattle.sip_verdict.specs.inner.Sweeping.{AreFollowedOn};
ghost use Rattle.sip_verdict.specs.inner.TablesTracking.{MayTake};

use crate::standing::Standing;
use sip_log::Entry;
use sip_standard::Verdict;
use std::alloc::{AllocError, Global};
use std::hash::BuildHasher;

/// How many messages may be kept without a sweep above twice those that the last sweep left.
pub(crate) const SPARE: usize = 64;

/// Judges the entry that comes next, and answers the verdict if it is in trouble. Where many more messages are kept than the last sweep left,
/// it drops those that no transaction needs.
pub(crate) fn judge_next<H: BuildHasher>(
    alloc: Global,
    standing: &mut Standing<H>,
    left: &mut usize,
    entry: &Entry,
) -> Result<Option<Verdict>, AllocError>
    requires limit { entry.now.moment ≤ last_moment }
    requires count { entry.now.number ≤ most_entries }
    requires may { MayTake standing.old.book standing.old.tables entry.now.number entry.now.moment }
    requires left { left.old ≤ most_entries + 1 }
    ensures times { OnOk result (standing.new.tables.times ≡ standing.old.tables.times) }
    ensures may { IfOk result (λ verdict. IfNone verdict (MayTake standing.new.book standing.new.tables (entry.now.number + 1) entry.now.moment)) }
    ensures left { left.new ≤ most_entries + 1 }
    ensures keyless { OnOk result (ConcernsNone (item entry.now) → All (Contains standing.old.book) standing.new.book) }
    ensures judged { IfOk result (λ verdict. (es : List (Observation KeyParts)) → AreFollowed standing.old.book standing.old.tables left.old es
        → entry.now.number ≡ length es + 1 → newest_moment es ≤ entry.now.moment
        → (e : Observation KeyParts) × Sees es (item entry.now) e
        × AreFollowedOn standing.new.book standing.new.tables left.new es e verdict) }
{
    if let Some(verdict) = standing.judge(alloc, entry)? {
        return Ok(Some(verdict));
    }
    // A sweep costs as much as what is kept, so it waits until as much more is kept as the last sweep left.
    if standing.kept() <= 2 * *left + SPARE {
        return Ok(None);
    }
    standing.sweep(alloc, entry.moment)?;
    *left = standing.kept();
    Ok(None)
}
