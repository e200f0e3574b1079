//! Lets an entry pass in a survey: a transaction that comes into trouble starts anew and hears nothing more, and the others go on.
//! In the clauses p are the times, es are the entries before this one, whichever they are, e is what is observed of this one, and `waits` are the numbers of
//! those that are still to hear it.
ghost use Rattle.std.specs.Prelude.{◌≡◌, ◌≢◌, ◌≤◌, ◌+◌, ◌∷◌, [], ℕ, false, Some, None, List, All, OnOk, length, slice_get};
ghost use Rattle.std.specs.Option.{ForSome, option_copied};
ghost use Rattle.sip_standard.specs.Key.{KeyParts};
ghost use Rattle.sip_standard.specs.Times.{Times};
ghost use Rattle.sip_machine.specs.Texts.{Texts};
ghost use Rattle.sip_machine.specs.NumberedEvent.{FitsBook};
ghost use Rattle.sip_states.specs.AnySet.{IsKnownSet};
ghost use Rattle.sip_states.specs.Tables.{IsGiven, due_of};
ghost use Rattle.sip_states.specs.declared.any_set.AnySet.{AnySet};
ghost use Rattle.sip_standard.specs.Observation.{Observation};
ghost use Rattle.sip_verdict.specs.Entries.{newest_moment};
ghost use Rattle.sip_verdict.specs.inner.Concerned.{each};
ghost use Rattle.sip_verdict.specs.inner.TablesTracking.{concerns_number, hearers, is_among, AreHearers, AreTold, LeavesOthers, MayHear, MayPass};
ghost use Rattle.sip_verdict.specs.inner.Surveying.{AreConcerned, ArePassing, AreWatched, HearsNumbers, any};

use crate::concerned::Concerned;
use crate::passing::{Hearing, Outcome, hear};
use crate::troubled::Troubled;
use sip_machine::{Book, Event};
use sip_states::Tables;
use std::alloc::AllocError;
use std::hash::BuildHasher;

/// Lets the transaction with this number hear the event, unless it is in trouble. If the event brings it into trouble, its set starts anew.
fn hear_or_release<H: BuildHasher>(
    tables: &mut Tables<H>,
    troubled: &mut Troubled,
    book: &Book,
    number: u64,
    event: &Event,
) -> Result<(), AllocError>
    requires given { IsGiven tables.old number }
    requires long { length troubled.old.deaf.items ≡ length tables.old.keys }
    requires fits { FitsBook book.now event.now }
    requires may { MayPass book.now tables.old event.now.moment }
    ensures times { OnOk result (tables.new.times ≡ tables.old.times) }
    ensures keys { OnOk result (tables.new.keys ≡ tables.old.keys) }
    ensures may { OnOk result (MayPass book.now tables.new event.now.moment) }
    ensures others { OnOk result ((n : ℕ) → n + 1 ≢ number → slice_get tables.new.sets n ≡ slice_get tables.old.sets n) }
    ensures long { OnOk result (length troubled.new.deaf.items ≡ length tables.new.keys) }
    ensures watched { OnOk result ((waits : List ℕ) → AreWatched (number ∷ waits) tables.old troubled.old → AreWatched waits tables.new troubled.new) }
    ensures heard { OnOk result ((p : Times) (es : List (Observation KeyParts)) (e : Observation KeyParts) (waits : List ℕ) → tables.old.times ≡ p → newest_moment es ≤ event.now.moment
        → is_among waits number ≡ false → AreConcerned book.now p es e event.now (number ∷ waits) tables.old.keys
        → ArePassing book.now p es e (is_among (number ∷ waits)) tables.old troubled.old → ArePassing book.now p es e (is_among waits) tables.new troubled.new) }
{
    // A transaction in trouble hears no more.
    if troubled.has(number) {
        return Ok(());
    }
    match hear(tables.set_mut(number), number, book, event)? {
        Outcome::Fine => tables.settle(number),
        // No state takes the event: the transaction breaks, and its set starts anew.
        Outcome::NoRun(_) => {
            tables.restart_key(number)?;
            troubled.add_broken(number)
        }
        // There are too many states: the transaction is followed no further, and its set starts anew.
        Outcome::TooWide(_) => {
            tables.restart_key(number)?;
            troubled.add_wide(number)
        }
    }
}

/// Lets the transactions with these numbers hear the event, except those in trouble.
fn hear_numbers<H: BuildHasher>(
    tables: &mut Tables<H>,
    troubled: &mut Troubled,
    book: &Book,
    numbers: &[u64],
    event: &Event,
) -> Result<(), AllocError>
    requires given { All (IsGiven tables.old) numbers.now }
    requires long { length troubled.old.deaf.items ≡ length tables.old.keys }
    requires fits { FitsBook book.now event.now }
    requires may { MayPass book.now tables.old event.now.moment }
    ensures times { OnOk result (tables.new.times ≡ tables.old.times) }
    ensures keys { OnOk result (tables.new.keys ≡ tables.old.keys) }
    ensures may { OnOk result (MayPass book.now tables.new event.now.moment) }
    ensures watched { OnOk result (AreWatched numbers.now tables.old troubled.old → AreWatched [] tables.new troubled.new) }
    ensures heard { OnOk result (HearsNumbers book.now event.now numbers.now tables.old troubled.old tables.new troubled.new) }
{
    for number in numbers {
        hear_or_release(tables, troubled, book, *number, event)?;
    }
    Ok(())
}

/// Lets every transaction that is not in trouble pass a restart of the element. Quiet transactions do not change, and are not visited.
fn restart<H: BuildHasher>(
    tables: &mut Tables<H>,
    troubled: &mut Troubled,
    book: &Book,
    event: &Event,
) -> Result<(), AllocError>
    requires long { length troubled.old.deaf.items ≡ length tables.old.keys }
    requires fits { FitsBook book.now event.now }
    requires may { MayPass book.now tables.old event.now.moment }
    ensures times { OnOk result (tables.new.times ≡ tables.old.times) }
    ensures keys { OnOk result (tables.new.keys ≡ tables.old.keys) }
    ensures may { OnOk result (MayPass book.now tables.new event.now.moment) }
    ensures watched { OnOk result (AreWatched [] tables.old troubled.old → AreWatched [] tables.new troubled.new) }
    ensures heard { OnOk result ((numbers : List ℕ) × AreHearers tables.old Concerned.All numbers
        × HearsNumbers book.now event.now numbers tables.old troubled.old tables.new troubled.new) }
{
    // The transactions that a restart may change hear it; those that it leaves quiet need not hear the next one.
    let numbers = tables.to_restart()?;
    hear_numbers(tables, troubled, book, numbers.as_slice(), event)?;
    tables.restarted();
    Ok(())
}

/// Lets each transaction that the event concerns hear it, except those in trouble.
fn hear_each<H: BuildHasher>(
    tables: &mut Tables<H>,
    troubled: &mut Troubled,
    book: &Book,
    hearing: &Hearing,
) -> Result<(), AllocError>
    requires hear { MayHear book.now tables.old hearing.now.event.moment hearing.now }
    requires long { length troubled.old.deaf.items ≡ length tables.old.keys }
    requires may { MayPass book.now tables.old hearing.now.event.moment }
    ensures times { OnOk result (tables.new.times ≡ tables.old.times) }
    ensures keys { OnOk result (tables.new.keys ≡ tables.old.keys) }
    ensures may { OnOk result (MayPass book.now tables.new hearing.now.event.moment) }
    ensures others { OnOk result (LeavesOthers (Some hearing.now) tables.old tables.new) }
    ensures watched { OnOk result (AreWatched (each hearing.now.concerned) tables.old troubled.old → AreWatched [] tables.new troubled.new) }
    ensures heard { OnOk result ((numbers : List ℕ) × AreHearers tables.old hearing.now.concerned numbers
        × HearsNumbers book.now hearing.now.event numbers tables.old troubled.old tables.new troubled.new) }
{
    let event = &hearing.event;
    match hearing.concerned {
        Concerned::None => Ok(()),
        Concerned::Own(own) => hear_or_release(tables, troubled, book, own, event),
        Concerned::OwnAndCancelled(own, cancelled) => {
            hear_or_release(tables, troubled, book, own, event)?;
            hear_or_release(tables, troubled, book, cancelled, event)
        }
        Concerned::All => restart(tables, troubled, book, event),
    }
}

/// Each transaction that has waited longer than it can breaks, and its set starts anew.
fn release_overdue<H: BuildHasher>(
    tables: &mut Tables<H>,
    troubled: &mut Troubled,
    moment: u64,
) -> Result<(), AllocError>
    requires long { length troubled.old.deaf.items ≡ length tables.old.keys }
    ensures times { OnOk result (tables.new.times ≡ tables.old.times) }
    ensures keys { OnOk result (tables.new.keys ≡ tables.old.keys) }
    ensures may { OnOk result ((texts : Texts) → MayPass texts tables.old moment → MayPass texts tables.new moment) }
    ensures watched { OnOk result ((waits : List ℕ) → AreWatched waits tables.old troubled.old → AreWatched waits tables.new troubled.new) }
    ensures none { OnOk result (due_of tables.new moment ≡ None) }
    ensures released { OnOk result ((texts : Texts) (p : Times) (es : List (Observation KeyParts)) (e : Observation KeyParts) (waits : List ℕ)
        → tables.old.times ≡ p → newest_moment es ≤ moment → e.event.moment ≡ moment → MayPass texts tables.old moment → AreWatched waits tables.old troubled.old
        → ArePassing texts p es e any tables.old troubled.old → ArePassing texts p es e any tables.new troubled.new) }
{
    while let Some(number) = tables.overdue(moment) {
        tables.restart_key(number)?;
        troubled.add_broken(number)?;
    }
    Ok(())
}

/// Lets every transaction that is not in trouble pass the entry: the transactions that it concerns hear the event, and the others wait.
pub(crate) fn pass_each<H: BuildHasher>(
    tables: &mut Tables<H>,
    troubled: &mut Troubled,
    book: &Book,
    moment: u64,
    hearing: Option<&Hearing>,
) -> Result<(), AllocError>
    requires may { MayPass book.now tables.old moment }
    requires hear { ForSome hearing (λ h. MayHear book.now tables.old moment h.now) }
    requires watched { AreWatched (hearers (option_copied hearing)) tables.old troubled.old }
    ensures times { OnOk result (tables.new.times ≡ tables.old.times) }
    ensures keys { OnOk result (tables.new.keys ≡ tables.old.keys) }
    ensures may { OnOk result (MayPass book.now tables.new moment) }
    ensures others { OnOk result ((texts : Texts) (n : ℕ) (set : AnySet) → MayPass texts tables.old moment → concerns_number (option_copied hearing.entry) (n + 1) ≡ false
        → slice_get tables.new.sets n ≡ Some set → IsKnownSet texts set) }
    ensures watched { OnOk result (AreWatched [] tables.new troubled.new) }
    ensures passed { OnOk result ((p : Times) (es : List (Observation KeyParts)) (e : Observation KeyParts)
        → tables.old.times ≡ p → newest_moment es ≤ moment → e.event.moment ≡ moment → AreTold book.now tables.old.keys moment (option_copied hearing.entry) e
        → ArePassing book.now p es e any tables.old troubled.old → ArePassing book.now p es e (is_among []) tables.new troubled.new) }
{
    release_overdue(tables, troubled, moment)?;
    let Some(hearing) = hearing else {
        return Ok(());
    };
    hear_each(tables, troubled, book, hearing)
}
