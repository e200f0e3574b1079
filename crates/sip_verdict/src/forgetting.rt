//! Forgets transactions that are over.
//! In the clauses es are the entries so far, whichever they are, and `kept` says which keys are kept.
ghost use Rattle.std.specs.Prelude.{◌≡◌, ◌↔◌, ◌≤◌, ◌+◌, ◌-◌, [], Bool, List, Some, All, Contains, IfOk, IsTrue, OnOk, length, slice_get};
ghost use Rattle.sip_standard.specs.Key.{KeyParts};
ghost use Rattle.sip_standard.specs.Observation.{Observation};
ghost use Rattle.sip_states.specs.Tables.{IsGiven};
ghost use Rattle.sip_states.specs.declared.any_set.AnySet.{AnySet as AnySetValue};
ghost use Rattle.sip_verdict.specs.declared.histories.History.{History as HistoryValue};
ghost use Rattle.sip_verdict.specs.Forgetting.{ForgetsUpTo, remembered};
ghost use Rattle.sip_verdict.specs.Entries.{newest_moment};
ghost use Rattle.sip_verdict.specs.Named.{AreMany};
ghost use Rattle.sip_verdict.specs.Room.{most_surveyed};
ghost use Rattle.sip_verdict.specs.Surveys.{AreHistories, AreSurveyed, IsStillNamed};
ghost use Rattle.sip_verdict.specs.inner.Forgetting.{AreFlags, IsPast};
ghost use Rattle.sip_verdict.specs.inner.Surveying.{AreWatched, IsFresh};
ghost use Rattle.sip_verdict.specs.inner.TablesTracking.{MayTake};

use crate::histories::Histories;
use crate::standing::Standing;
use crate::troubled::Troubled;
use sip_states::{Tables, keep_each};
use std::alloc::{AllocError, Global};
use std::hash::BuildHasher;

/// Whether the set of the transaction with this number is quiet, and no entry that concerns it has a number above `until`.
fn is_past<H: BuildHasher>(
    tables: &Tables<H>,
    histories: &Histories,
    number: u64,
    until: u64,
) -> bool
    requires { IsGiven tables.now number }
    ensures { (set : AnySetValue) (h : HistoryValue) → slice_get tables.now.sets (number - 1) ≡ Some set → slice_get histories.now.each.items (number - 1) ≡ Some h
        → IsTrue result ↔ IsPast until histories.now.restart set h }
{
    // A restart may be the last entry that concerns the transaction. A transaction without a history is kept.
    match histories.each.get(number as usize - 1) {
        Some(history) => {
            tables.set(number).is_quiet() && history.last.max(histories.restart) <= until
        }
        None => false,
    }
}

/// A flag for each transaction: false where the transaction is quiet and no entry with a number above `until` concerns it, and else true.
fn kept_flags<H: BuildHasher>(
    alloc: Global,
    tables: &Tables<H>,
    histories: &Histories,
    until: u64,
) -> Result<Vec<bool>, AllocError>
    ensures { IfOk result (λ flags. AreFlags until tables.now histories.now flags.items) }
{
    let mut flags = Vec::new(alloc);
    for index in 0..tables.len() {
        let number = index + 1;
        flags.push(!is_past(tables, histories, number, until))?;
    }
    Ok(flags)
}

/// The number and the moment of the newest entry.
#[derive(Clone, Copy)]
pub(crate) struct Newest {
    pub(crate) number: u64,
    pub(crate) moment: u64,
}

/// Forgets the transactions that are over and that no entry with a number above `until` concerns. The others are numbered anew, in their
/// order. Messages that none of the others needs at the moment of the newest entry are dropped.
pub(crate) fn forget<H: BuildHasher>(
    alloc: Global,
    standing: &mut Standing<H>,
    troubled: &mut Troubled,
    histories: &mut Histories,
    left: &mut usize,
    newest: Newest,
    until: u64,
) -> Result<(), AllocError>
    requires count { newest.number ≤ most_surveyed }
    requires may { MayTake standing.old.book standing.old.tables (newest.number + 1) newest.moment }
    requires watched { AreWatched [] standing.old.tables troubled.old }
    requires fresh { IsFresh troubled.old }
    ensures times { OnOk result (standing.new.tables.times ≡ standing.old.tables.times) }
    ensures may { OnOk result (MayTake standing.new.book standing.new.tables (newest.number + 1) newest.moment) }
    ensures watched { OnOk result (AreWatched [] standing.new.tables troubled.new) }
    ensures fresh { OnOk result (IsFresh troubled.new) }
    ensures left { OnOk result (left.new ≤ most_surveyed + 1) }
    ensures fewer { OnOk result (All (Contains standing.old.book) standing.new.book) }
    ensures forgets { OnOk result ((es : List (Observation KeyParts)) → AreSurveyed standing.old.book standing.old.tables troubled.old.deaf.items left.old es
        → AreHistories es histories.old → newest_moment es ≡ newest.moment
        → (kept : KeyParts → Bool) × ForgetsUpTo until standing.old.tables.times es kept
        × AreSurveyed standing.new.book standing.new.tables troubled.new.deaf.items left.new (remembered kept es) × AreHistories (remembered kept es) histories.new
        × AreMany (IsStillNamed standing.old.tables.times (remembered kept es)) (length standing.new.book)) }
{
    // All sets wait until the newest entry, so that it is known which of them are over.
    standing.wait(newest.moment)?;
    standing.tables.known();
    // A flag for each transaction says whether it is kept, and drops it from the sets, the troubles and the histories alike.
    let flags = kept_flags(alloc, &standing.tables, histories, until)?;
    let flags = flags.as_slice();
    standing.tables.keep(flags)?;
    troubled.keep(flags);
    keep_each(&mut histories.each, flags);
    // The messages that nothing names any more are dropped.
    standing.sweep(alloc, newest.moment)?;
    *left = standing.kept();
    Ok(())
}
