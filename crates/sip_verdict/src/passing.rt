//! Lets an entry pass, and says what it leaves of the runs of the transactions, up to the first trouble.
//! In the clauses p are the times, es are the entries before this one, whichever they are, e is what is observed of this one, and `numbers` are those of the
//! transactions that hear it.
ghost use Rattle.std.specs.Prelude.{◌≡◌, ◌≤◌, ℕ, List, All, IfOk, OnOk};
ghost use Rattle.std.specs.Option.{ForSome, option_copied};
ghost use Rattle.sip_standard.specs.Key.{KeyParts};
ghost use Rattle.sip_standard.specs.Times.{Times};
ghost use Rattle.sip_standard.specs.MachineEvent.{MachineEvent};
ghost use Rattle.sip_machine.specs.NumberedEvent.{event_in, FitsBook};
ghost use Rattle.sip_standard.specs.KeyMachine.{MachineKind};
ghost use Rattle.sip_states.specs.AnySet.{moment_of, IsEmpty, IsKnownSet};
ghost use Rattle.sip_states.specs.Tables.{IsGiven, due_of};
ghost use Rattle.sip_standard.specs.Observation.{Observation};
ghost use Rattle.sip_verdict.specs.Entries.{newest_moment};
ghost use Rattle.sip_verdict.specs.inner.Stepping.{IsStepped};
ghost use Rattle.sip_verdict.specs.inner.Tracking.{IsReady, IsOutcome, IsOwnOutcome, overdue_outcome, first_of};
ghost use Rattle.sip_verdict.specs.inner.TablesTracking.{LeadsOf, StandsOf, key_keeping, transactions_of, hearers, AreTold, LeavesOthers, MayPass, MayHear, AreHearers, AreOnRecord, AreOnRecordIf, Hears, HearsEach};

use crate::concerned::Concerned;
use sip_machine::{Book, Event};
use sip_states::{AnySet, Tables, TakeError};
use std::alloc::AllocError;
use std::hash::BuildHasher;

/// An event, with the numbers of the transactions that it concerns.
#[derive(Clone, Copy)]
pub(crate) struct Hearing {
    pub(crate) event: Event,
    pub(crate) concerned: Concerned<u64>,
}

/// What an entry leaves of the runs of one transaction or of several, with the number of the first in trouble: it has no run, or more
/// last states than are followed.
#[derive(Clone, Copy)]
pub(crate) enum Outcome {
    Fine,
    NoRun(u64),
    TooWide(u64),
}

impl Outcome {
    /// The outcome of two groups of transactions: the first one without a run, and if there is none the first one with too many last states.
    fn first(self, other: Outcome) -> Outcome
        ensures { result ≡ first_of self other }
    {
        match (self, other) {
            // Where one group is fine, the outcome is the other's. To have no run comes before too many states; of two alike the smaller number comes first.
            (Outcome::Fine, one) | (one, Outcome::Fine) => one,
            (Outcome::NoRun(one), Outcome::NoRun(two)) => Outcome::NoRun(one.min(two)),
            (Outcome::NoRun(one), _) | (_, Outcome::NoRun(one)) => Outcome::NoRun(one),
            (Outcome::TooWide(one), Outcome::TooWide(two)) => Outcome::TooWide(one.min(two)),
        }
    }
}

/// Lets the set take the event of its key, and answers what the event leaves of its runs.
pub(crate) fn hear(
    set: &mut AnySet,
    number: u64,
    book: &Book,
    event: &Event,
) -> Result<Outcome, AllocError>
    requires order { moment_of set.old ≤ event.now.moment }
    requires fits { FitsBook book.now event.now }
    requires known { IsKnownSet book.now set.old }
    ensures order { OnOk result (moment_of set.new ≤ event.now.moment) }
    ensures known { OnOk result (IsKnownSet book.now set.new) }
    ensures numbered { IfOk result (IsOwnOutcome number) }
    ensures some { IfOk result (λ outcome. outcome ≡ Outcome.Fine → ¬ IsEmpty set.new) }
    ensures stepped { IfOk result (λ outcome. (p : Times) (machine : MachineKind) (events : List MachineEvent) (from : ℕ) → from ≤ event.now.moment → LeadsOf book.now p machine events from set.old
        → IsStepped p machine events (event_in book.now event.now) (λ es. LeadsOf book.now p machine es event.now.moment set.new) (λ e. StandsOf book.now p machine events e set.new) outcome) }
{
    match set.take(book, event) {
        // No state of the set takes the event, so that no run is left.
        Ok(()) if set.is_empty() => Ok(Outcome::NoRun(number)),
        Ok(()) => Ok(Outcome::Fine),
        Err(TakeError::TooMany) => Ok(Outcome::TooWide(number)),
        Err(TakeError::Memory) => Err(AllocError),
    }
}

/// Lets the transaction with this number hear the event, and puts on record until when it can wait after it.
fn hear_one<H: BuildHasher>(
    tables: &mut Tables<H>,
    book: &Book,
    number: u64,
    event: &Event,
) -> Result<Outcome, AllocError>
    requires given { IsGiven tables.old number }
    requires fits { FitsBook book.now event.now }
    requires may { MayPass book.now tables.old event.now.moment }
    ensures times { OnOk result (tables.new.times ≡ tables.old.times) }
    ensures keys { OnOk result (tables.new.keys ≡ tables.old.keys) }
    ensures may { OnOk result (MayPass book.now tables.new event.now.moment) }
    ensures heard { IfOk result (Hears book.now event.now number tables.old tables.new) }
{
    let outcome = hear(tables.set_mut(number), number, book, event)?;
    if let Outcome::Fine = outcome {
        tables.settle(number)?;
    }
    Ok(outcome)
}

/// Lets the transactions with these numbers hear the event, and joins what is left of them with the outcome of others.
fn hear_all<H: BuildHasher>(
    tables: &mut Tables<H>,
    book: &Book,
    numbers: &[u64],
    event: &Event,
    others: Outcome,
) -> Result<Outcome, AllocError>
    requires given { All (IsGiven tables.old) numbers.now }
    requires fits { FitsBook book.now event.now }
    requires may { MayPass book.now tables.old event.now.moment }
    ensures times { OnOk result (tables.new.times ≡ tables.old.times) }
    ensures keys { OnOk result (tables.new.keys ≡ tables.old.keys) }
    ensures may { OnOk result (MayPass book.now tables.new event.now.moment) }
    ensures heard { IfOk result (HearsEach book.now event.now numbers.now tables.old others tables.new) }
{
    let mut outcome = others;
    for number in numbers {
        outcome = outcome.first(hear_one(tables, book, *number, event)?);
    }
    Ok(outcome)
}

/// Lets every transaction pass a restart of the element. Quiet transactions do not change, and are not visited.
fn restart<H: BuildHasher>(
    tables: &mut Tables<H>,
    book: &Book,
    event: &Event,
    others: Outcome,
) -> Result<Outcome, AllocError>
    requires fits { FitsBook book.now event.now }
    requires may { MayPass book.now tables.old event.now.moment }
    ensures times { OnOk result (tables.new.times ≡ tables.old.times) }
    ensures keys { OnOk result (tables.new.keys ≡ tables.old.keys) }
    ensures heard { IfOk result (λ outcome. MayPass book.now tables.new event.now.moment
        × ((numbers : List ℕ) × AreHearers tables.old Concerned.All numbers × HearsEach book.now event.now numbers tables.old others tables.new outcome)) }
{
    // The transactions that a restart may change hear it; those that it leaves quiet need not hear the next one.
    let numbers = tables.to_restart()?;
    let outcome = hear_all(tables, book, numbers.as_slice(), event, others)?;
    tables.restarted();
    Ok(outcome)
}

/// Lets each transaction that the event concerns hear it, and joins what is left of them with the outcome of others.
fn hear_each<H: BuildHasher>(
    tables: &mut Tables<H>,
    book: &Book,
    hearing: &Hearing,
    others: Outcome,
) -> Result<Outcome, AllocError>
    requires hear { MayHear book.now tables.old hearing.now.event.moment hearing.now }
    requires may { MayPass book.now tables.old hearing.now.event.moment }
    ensures times { OnOk result (tables.new.times ≡ tables.old.times) }
    ensures keys { OnOk result (tables.new.keys ≡ tables.old.keys) }
    ensures heard { IfOk result (λ outcome. MayPass book.now tables.new hearing.now.event.moment
        × ((numbers : List ℕ) × AreHearers tables.old hearing.now.concerned numbers × HearsEach book.now hearing.now.event numbers tables.old others tables.new outcome)) }
{
    let event = &hearing.event;
    match hearing.concerned {
        Concerned::None => Ok(others),
        Concerned::Own(own) => Ok(others.first(hear_one(tables, book, own, event)?)),
        Concerned::OwnAndCancelled(own, cancelled) => {
            let others = others.first(hear_one(tables, book, own, event)?);
            Ok(others.first(hear_one(tables, book, cancelled, event)?))
        }
        Concerned::All => restart(tables, book, event, others),
    }
}

/// Finds a transaction that has waited longer than it can.
fn overdue<H: BuildHasher>(tables: &Tables<H>, moment: u64) -> Outcome
    ensures { result ≡ overdue_outcome (due_of tables.now moment) }
{
    match tables.due(moment) {
        Some(number) => Outcome::NoRun(number),
        None => Outcome::Fine,
    }
}

/// Lets every transaction pass the entry: the transactions that it concerns hear the event, and the others wait.
pub(crate) fn pass_all<H: BuildHasher>(
    tables: &mut Tables<H>,
    book: &Book,
    moment: u64,
    hearing: Option<&Hearing>,
) -> Result<Outcome, AllocError>
    requires may { MayPass book.now tables.old moment }
    requires hear { ForSome hearing (λ h. MayHear book.now tables.old moment h.now) }
    requires recorded { AreOnRecord (hearers (option_copied hearing)) tables.old }
    ensures times { OnOk result (tables.new.times ≡ tables.old.times) }
    ensures keys { OnOk result (tables.new.keys ≡ tables.old.keys) }
    ensures may { OnOk result (MayPass book.now tables.new moment) }
    ensures recorded { IfOk result (λ outcome. AreOnRecordIf outcome tables.new) }
    ensures outcome { IfOk result (λ outcome. (p : Times) (es : List (Observation KeyParts)) (e : Observation KeyParts)
        → newest_moment es ≤ moment → AreTold book.now tables.old.keys moment (option_copied hearing.entry) e
        → All (IsReady (key_keeping book.now p) es) (transactions_of tables.old)
        → IsOutcome p (key_keeping book.now p) es e (transactions_of tables.new) outcome) }
    ensures others { IfOk result (λ outcome. LeavesOthers (option_copied hearing.entry) tables.old tables.new) }
{
    // A transaction that has waited longer than it can has no run, whatever the others hear.
    let overdue = overdue(tables, moment);
    let Some(hearing) = hearing else {
        return Ok(overdue);
    };
    hear_each(tables, book, hearing, overdue)
}
