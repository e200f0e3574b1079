//! What is found at an entry.
//! In the clauses es are the entries before this one, whichever they are, e is what is observed of this one, and `here` is what is found at it.
ghost use Rattle.std.specs.Prelude.{◌≡◌, ◌≤◌, ◌+◌, ◌++◌, ◌∷◌, [], List, All, Contains, IfOk, OnOk, length};
ghost use Rattle.sip_standard.specs.Key.{KeyParts};
ghost use Rattle.sip_standard.specs.Times.{last_moment};
ghost use Rattle.sip_states.specs.Tables.{most_keys};
ghost use Rattle.sip_log.specs.Told.{item};
ghost use Rattle.sip_verdict.specs.declared.finding.Finding.{Finding};
ghost use Rattle.sip_standard.specs.Observation.{Observation};
ghost use Rattle.sip_verdict.specs.Entries.{newest_moment, ConcernsNone};
ghost use Rattle.sip_standard.specs.VerdictOf.{keys_in, Sees};
ghost use Rattle.sip_verdict.specs.Room.{most_surveyed};
ghost use Rattle.sip_verdict.specs.SurveyOf.{AreFoundAt};
ghost use Rattle.sip_verdict.specs.Surveys.{AreHistories, AreSurveyed};
ghost use Rattle.sip_verdict.specs.inner.TablesTracking.{is_among, MayTake};
ghost use Rattle.sip_verdict.specs.inner.Surveying.{ArePassing, AreWatched, IsFresh, TablesSurvey, fault_listing};

use crate::concerned::Concerned;
use crate::finding::Finding;
use crate::histories::Histories;
use crate::observing::{Observed, observe};
use crate::passing::Hearing;
use crate::releasing::pass_each;
use crate::standing::{Standing, touch_each};
use crate::sweeping::SPARE;
use crate::troubled::Troubled;
use sip_log::Entry;
use sip_machine::Event;
use sip_standard::Fault;
use std::alloc::{AllocError, Global};
use std::hash::BuildHasher;

/// Takes the entry that comes next, and answers the fault of its message, if it has one. Transactions that come into trouble are added to
/// those in trouble, and the entry is written into the history of each transaction that it concerns. Its message is not kept if no transaction
/// names it.
fn take<H: BuildHasher>(
    alloc: Global,
    standing: &mut Standing<H>,
    troubled: &mut Troubled,
    histories: &mut Histories,
    entry: &Entry,
) -> Result<Option<Fault>, AllocError>
    requires limit { entry.now.moment ≤ last_moment }
    requires room { length standing.old.tables.keys + 2 ≤ most_keys }
    requires may { MayTake standing.old.book standing.old.tables entry.now.number entry.now.moment }
    requires watched { AreWatched [] standing.old.tables troubled.old }
    ensures times { OnOk result (standing.new.tables.times ≡ standing.old.tables.times) }
    ensures keys { OnOk result (length standing.new.tables.keys ≤ length standing.old.tables.keys + 2) }
    ensures may { OnOk result (MayTake standing.new.book standing.new.tables (entry.now.number + 1) entry.now.moment) }
    ensures watched { OnOk result (AreWatched [] standing.new.tables troubled.new) }
    ensures keyless { OnOk result (ConcernsNone (item entry.now) → standing.new.book ≡ standing.old.book) }
    ensures histories { OnOk result ((es : List (Observation KeyParts)) (e : Observation KeyParts) → AreHistories es histories.old → standing.old.tables.keys ≡ keys_in es
        → entry.now.number ≡ length es + 1 → Sees es (item entry.now) e → AreHistories (es ++ e ∷ []) histories.new) }
    ensures taken { IfOk result (λ fault. (es : List (Observation KeyParts)) → IsFresh troubled.old → TablesSurvey standing.old.book es standing.old.tables troubled.old.deaf.items
        → newest_moment es ≤ entry.now.moment
        → (e : Observation KeyParts) × Sees es (item entry.now) e × (e.fault ≡ fault) × (e.event.moment ≡ entry.now.moment)
        × (standing.new.tables.keys ≡ keys_in (es ++ e ∷ []))
        × ArePassing standing.new.book standing.old.tables.times es e (is_among []) standing.new.tables troubled.new) }
{
    let told = observe(alloc, &mut standing.book, entry)?;
    standing.book.known();
    // An entry that concerns nothing, or whose message has a fault, lets time go by for all transactions.
    match told {
        Observed::Unheard => {
            pass_each(
                &mut standing.tables,
                troubled,
                &standing.book,
                entry.moment,
                None,
            )?;
            Ok(None)
        }
        Observed::Fault(fault) => {
            pass_each(
                &mut standing.tables,
                troubled,
                &standing.book,
                entry.moment,
                None,
            )?;
            Ok(Some(fault))
        }
        // A restart is heard by all transactions.
        Observed::Restart => {
            standing.tables.known();
            histories.restart = entry.number;
            let event = Event::restart(entry.moment);
            let concerned = Concerned::All;
            let hearing = Hearing { event, concerned };
            pass_each(
                &mut standing.tables,
                troubled,
                &standing.book,
                entry.moment,
                Some(&hearing),
            )?;
            Ok(None)
        }
        // A message is heard by the transactions of its keys; a key that is new begins one.
        Observed::Heard { event, concerned } => {
            let concerned = touch_each(&mut standing.tables, concerned)?;
            troubled.grow(standing.tables.len())?;
            histories.note_each(alloc, concerned, entry)?;
            standing.tables.known();
            let hearing = Hearing { event, concerned };
            pass_each(
                &mut standing.tables,
                troubled,
                &standing.book,
                entry.moment,
                Some(&hearing),
            )?;
            // The entry's message is dropped where no transaction owes it or will be asked for it.
            standing.drop_unnamed(entry.number, concerned);
            Ok(None)
        }
    }
}

/// Appends the fault of the entry's message to the findings, if there is one.
fn push_fault(entry: u64, fault: Option<Fault>, found: &mut Vec<Finding>) -> Result<(), AllocError>
    ensures pushed { OnOk result (found.new.items ≡ found.old.items ++ fault_listing entry fault) }
    ensures front { (more : List Finding) × (found.new.items ≡ found.old.items ++ more) }
{
    if let Some(fault) = fault {
        found.push(Finding::Malformed { entry, fault })?;
    }
    Ok(())
}

/// Appends what is found at the entry that comes next: the fault of its message, the transactions that break by number, and then those
/// that are followed no further by number.
fn find<H: BuildHasher>(
    alloc: Global,
    standing: &mut Standing<H>,
    troubled: &mut Troubled,
    histories: &mut Histories,
    entry: &Entry,
    found: &mut Vec<Finding>,
) -> Result<(), AllocError>
    requires limit { entry.now.moment ≤ last_moment }
    requires room { length standing.old.tables.keys + 2 ≤ most_keys }
    requires may { MayTake standing.old.book standing.old.tables entry.now.number entry.now.moment }
    requires watched { AreWatched [] standing.old.tables troubled.old }
    requires fresh { IsFresh troubled.old }
    ensures times { OnOk result (standing.new.tables.times ≡ standing.old.tables.times) }
    ensures keys { OnOk result (length standing.new.tables.keys ≤ length standing.old.tables.keys + 2) }
    ensures may { OnOk result (MayTake standing.new.book standing.new.tables (entry.now.number + 1) entry.now.moment) }
    ensures watched { OnOk result (AreWatched [] standing.new.tables troubled.new) }
    ensures fresh { OnOk result (IsFresh troubled.new) }
    ensures keyless { OnOk result (ConcernsNone (item entry.now) → standing.new.book ≡ standing.old.book) }
    ensures histories { OnOk result ((es : List (Observation KeyParts)) (e : Observation KeyParts) → AreHistories es histories.old → standing.old.tables.keys ≡ keys_in es
        → entry.now.number ≡ length es + 1 → Sees es (item entry.now) e → AreHistories (es ++ e ∷ []) histories.new) }
    ensures front { (more : List Finding) × (found.new.items ≡ found.old.items ++ more) }
    ensures found { OnOk result ((es : List (Observation KeyParts)) → TablesSurvey standing.old.book es standing.old.tables troubled.old.deaf.items
        → entry.now.number ≡ length es + 1 → newest_moment es ≤ entry.now.moment
        → (e : Observation KeyParts) × (here : List Finding) × Sees es (item entry.now) e × (e.event.moment ≡ entry.now.moment)
        × AreFoundAt standing.old.tables.times es e here × (found.new.items ≡ found.old.items ++ here)
        × TablesSurvey standing.new.book (es ++ e ∷ []) standing.new.tables troubled.new.deaf.items) }
{
    let fault = take(alloc, standing, troubled, histories, entry)?;
    push_fault(entry.number, fault, found)?;
    troubled.tell(entry.number, found)
}

/// Appends what is found at the entry that comes next. Where many more messages are kept than the last sweep left, it drops those that no
/// transaction needs.
pub(crate) fn find_next<H: BuildHasher>(
    alloc: Global,
    standing: &mut Standing<H>,
    troubled: &mut Troubled,
    histories: &mut Histories,
    left: &mut usize,
    entry: &Entry,
    found: &mut Vec<Finding>,
) -> Result<(), AllocError>
    requires limit { entry.now.moment ≤ last_moment }
    requires count { entry.now.number ≤ most_surveyed }
    requires room { length standing.old.tables.keys + 2 ≤ most_keys }
    requires may { MayTake standing.old.book standing.old.tables entry.now.number entry.now.moment }
    requires watched { AreWatched [] standing.old.tables troubled.old }
    requires fresh { IsFresh troubled.old }
    requires left { left.old ≤ most_surveyed + 1 }
    ensures times { OnOk result (standing.new.tables.times ≡ standing.old.tables.times) }
    ensures keys { OnOk result (length standing.new.tables.keys ≤ length standing.old.tables.keys + 2) }
    ensures may { OnOk result (MayTake standing.new.book standing.new.tables (entry.now.number + 1) entry.now.moment) }
    ensures watched { OnOk result (AreWatched [] standing.new.tables troubled.new) }
    ensures fresh { OnOk result (IsFresh troubled.new) }
    ensures left { left.new ≤ most_surveyed + 1 }
    ensures keyless { OnOk result (ConcernsNone (item entry.now) → All (Contains standing.old.book) standing.new.book) }
    ensures histories { OnOk result ((es : List (Observation KeyParts)) (e : Observation KeyParts) → AreHistories es histories.old → standing.old.tables.keys ≡ keys_in es
        → entry.now.number ≡ length es + 1 → Sees es (item entry.now) e → AreHistories (es ++ e ∷ []) histories.new) }
    ensures front { (more : List Finding) × (found.new.items ≡ found.old.items ++ more) }
    ensures found { OnOk result ((es : List (Observation KeyParts)) → AreSurveyed standing.old.book standing.old.tables troubled.old.deaf.items left.old es
        → entry.now.number ≡ length es + 1 → newest_moment es ≤ entry.now.moment
        → (e : Observation KeyParts) × (here : List Finding) × Sees es (item entry.now) e
        × AreFoundAt standing.old.tables.times es e here × (found.new.items ≡ found.old.items ++ here)
        × AreSurveyed standing.new.book standing.new.tables troubled.new.deaf.items left.new (es ++ e ∷ [])) }
{
    find(alloc, standing, troubled, histories, entry, found)?;
    // `left` is how many messages the last sweep left.
    if standing.kept() <= 2 * *left + SPARE {
        return Ok(());
    }
    standing.sweep(alloc, entry.moment)?;
    *left = standing.kept();
    Ok(())
}
