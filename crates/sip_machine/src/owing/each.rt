//! The step of the machine of a transaction from many states. States of one phase that stand side by side take it together.
//! In the clauses `added` are the states that stand after the old ones in the pool.
ghost use Rattle.std.specs.Prelude.{◌≡◌, ◌≢◌, ◌<◌, ◌≤◌, ◌^◌, ◌++◌, ℕ, List, All, IfOk, OnOk, length, take};
ghost use Rattle.std.specs.Option.{option_map};
ghost use Rattle.std.specs.List.{HoldsAt};
ghost use Rattle.sip_standard.specs.declared.action.Action.TheVariants.{Received, Sent};
ghost use Rattle.sip_ledger.specs.declared.debt.Debt.{Debt};
ghost use Rattle.sip_ledger.specs.Lists.{from_to};
ghost use Rattle.sip_standard.specs.Window.{close_at};
ghost use Rattle.sip_machine.specs.NumberedEvent.{FitsBook, event_in};
ghost use Rattle.sip_machine.specs.inner.Turns.{KeepsMessage};
ghost use Rattle.sip_machine.specs.Rules.{Covers, FromSome, Knows};
ghost use Rattle.sip_machine.specs.FigureRules.{TakeOf};
ghost use Rattle.sip_machine.specs.Owing.{CodeOwing, owing_seen, owing_names, OwingInRange};
ghost use Rattle.sip_machine.specs.inner.Single.{AnswersOne};
ghost use Rattle.sip_machine.specs.inner.Effects.{Leads, LeadsFrom, RestsFrom, led_by, unexpired_at};

use crate::book::Book;
use crate::event::Event;
use crate::limit::is_past;
use crate::machine::Machine;
use crate::owing::{due_within_limits, rests, until};
use crate::phases::{Change, Phases, Turn};
use crate::pool::Pool;
use sip_times::Action;
use std::alloc::{AllocError, Global};

/// Puts the states that a received message gives from the first `count` states after the others. On an error some may have been
/// put there already.
pub(crate) fn receives_each<M: Phases>(
    machine: &M,
    book: &Book,
    pool: &mut Pool<M::Phase>,
    count: usize,
    event: &Event,
) -> Result<(), AllocError>
    requires action { event.now.action ≡ Received }
    requires count { count ≤ length pool.old }
    requires fits { KeepsMessage book.now event.now }
    requires known { All (Knows (owing_names M.names) book.now) (take count pool.old) }
    requires in_range { All (OwingInRange M.in_range) (take count pool.old) }
    ensures gives { OnOk result ((added : List (CodeOwing M.Phase)) × (pool.new ≡ pool.old ++ added)
        × Covers (owing_names M.names) (OwingInRange M.in_range) (owing_seen M.seen) book.now
        (FromSome (λ x. TakeOf M.figure (M.times machine.now) (owing_seen M.seen book.now x) (event_in book.now event.now)) (take count pool.old)) added) }
    ensures before { take (length pool.old) pool.new ≡ pool.old }
{
    leads_each(machine, book, pool, count, event)
}

/// Puts the states that a sent message gives from the first `count` states after the others.
pub(crate) fn sends_each<M: Phases>(
    machine: &M,
    book: &Book,
    pool: &mut Pool<M::Phase>,
    count: usize,
    event: &Event,
) -> Result<(), AllocError>
    requires action { event.now.action ≡ Sent }
    requires count { count ≤ length pool.old }
    requires fits { KeepsMessage book.now event.now }
    requires known { All (Knows (owing_names M.names) book.now) (take count pool.old) }
    requires in_range { All (OwingInRange M.in_range) (take count pool.old) }
    ensures gives { OnOk result ((added : List (CodeOwing M.Phase)) × (pool.new ≡ pool.old ++ added)
        × Covers (owing_names M.names) (OwingInRange M.in_range) (owing_seen M.seen) book.now
        (FromSome (λ x. TakeOf M.figure (M.times machine.now) (owing_seen M.seen book.now x) (event_in book.now event.now)) (take count pool.old)) added) }
    ensures before { take (length pool.old) pool.new ≡ pool.old }
{
    let mut at = 0;
    // The states from `at` up to `end` are of one phase, so the machine is asked once for them.
    while at < count {
        let end = pool.run_end(at, count);
        sends_run(machine, book, pool, at, end, event)?;
        at = end;
    }
    Ok(())
}

/// Puts the states that a sent message gives from those from `from` up to `to`, which are of one phase, after the others.
fn sends_run<M: Phases>(
    machine: &M,
    book: &Book,
    pool: &mut Pool<M::Phase>,
    from: usize,
    to: usize,
    event: &Event,
) -> Result<(), AllocError>
    requires action { event.now.action ≡ Sent }
    requires from { from < to }
    requires to { to ≤ length pool.old }
    requires fits { KeepsMessage book.now event.now }
    requires known { All (Knows (owing_names M.names) book.now) (from_to from to pool.old) }
    requires in_range { All (OwingInRange M.in_range) (from_to from to pool.old) }
    requires same { HoldsAt (λ first. All (λ x. x.phase ≡ first.phase) (from_to from to pool.old)) pool.old from }
    ensures gives { OnOk result ((added : List (CodeOwing M.Phase)) × (pool.new ≡ pool.old ++ added)
        × Covers (owing_names M.names) (OwingInRange M.in_range) (owing_seen M.seen) book.now
        (FromSome (λ x. TakeOf M.figure (M.times machine.now) (owing_seen M.seen book.now x) (event_in book.now event.now)) (from_to from to pool.old)) added) }
    ensures before { take (length pool.old) pool.new ≡ pool.old }
{
    leads_run(machine, book, pool, from, to, event)?;
    rests_run(machine, book, pool, from, to, event)
}

/// Puts the states that any event gives from the first `count` states after the others, asking one state after the other.
pub(crate) fn steps_each<M: Phases>(
    machine: &M,
    book: &Book,
    pool: &mut Pool<M::Phase>,
    count: usize,
    event: &Event,
) -> Result<(), AllocError>
    requires count { count ≤ length pool.old }
    requires fits { FitsBook book.now event.now }
    requires known { All (Knows (owing_names M.names) book.now) (take count pool.old) }
    requires in_range { All (OwingInRange M.in_range) (take count pool.old) }
    ensures gives { OnOk result ((added : List (CodeOwing M.Phase)) × (pool.new ≡ pool.old ++ added)
        × Covers (owing_names M.names) (OwingInRange M.in_range) (owing_seen M.seen) book.now
        (FromSome (λ x. TakeOf M.figure (M.times machine.now) (owing_seen M.seen book.now x) (event_in book.now event.now)) (take count pool.old)) added) }
    ensures before { take (length pool.old) pool.new ≡ pool.old }
{
    for at in 0..count {
        machine.successors(book, pool, at, event)?;
    }
    Ok(())
}

/// Puts the states to which the rows of the event lead from the first `count` states after the others.
fn leads_each<M: Phases>(
    machine: &M,
    book: &Book,
    pool: &mut Pool<M::Phase>,
    count: usize,
    event: &Event,
) -> Result<(), AllocError>
    requires count { count ≤ length pool.old }
    requires fits { KeepsMessage book.now event.now }
    requires known { All (Knows (owing_names M.names) book.now) (take count pool.old) }
    requires in_range { All (OwingInRange M.in_range) (take count pool.old) }
    ensures gives { OnOk result ((added : List (CodeOwing M.Phase)) × (pool.new ≡ pool.old ++ added)
        × Covers (owing_names M.names) (OwingInRange M.in_range) (owing_seen M.seen) book.now
        (FromSome (LeadsFrom M.figure (M.times machine.now) M.seen book.now (event_in book.now event.now)) (take count pool.old)) added) }
    ensures before { take (length pool.old) pool.new ≡ pool.old }
{
    let mut at = 0;
    // The states from `at` up to `end` are of one phase, so the machine is asked once for them.
    while at < count {
        let end = pool.run_end(at, count);
        leads_run(machine, book, pool, at, end, event)?;
        at = end;
    }
    Ok(())
}

/// Puts the states to which the row of the event leads from those from `from` up to `to`, which are of one phase, after the others.
fn leads_run<M: Phases>(
    machine: &M,
    book: &Book,
    pool: &mut Pool<M::Phase>,
    from: usize,
    to: usize,
    event: &Event,
) -> Result<(), AllocError>
    requires from { from < to }
    requires to { to ≤ length pool.old }
    requires fits { KeepsMessage book.now event.now }
    requires known { All (Knows (owing_names M.names) book.now) (from_to from to pool.old) }
    requires in_range { All (OwingInRange M.in_range) (from_to from to pool.old) }
    requires same { HoldsAt (λ first. All (λ x. x.phase ≡ first.phase) (from_to from to pool.old)) pool.old from }
    ensures gives { OnOk result ((added : List (CodeOwing M.Phase)) × (pool.new ≡ pool.old ++ added)
        × Covers (owing_names M.names) (OwingInRange M.in_range) (owing_seen M.seen) book.now
        (FromSome (LeadsFrom M.figure (M.times machine.now) M.seen book.now (event_in book.now event.now)) (from_to from to pool.old)) added) }
    ensures before { take (length pool.old) pool.new ≡ pool.old }
{
    // `turn` is where the event leads from the phase, whichever debts the state has.
    let alloc = *pool.phases.allocator();
    let phase = pool.phases[from];
    if is_past(event.moment(), machine.closes(&phase)) {
        return Ok(());
    }
    match turn_of(alloc, machine, book, &phase, event)? {
        Some(turn) => pool.push_led_each(machine.params(), event.moment(), from, to, turn),
        None => Ok(()),
    }
}

/// Where the event leads from the phase. A received message leads to the phase itself where it has no row.
fn turn_of<M: Phases>(
    alloc: Global,
    machine: &M,
    book: &Book,
    phase: &M::Phase,
    event: &Event,
) -> Result<Option<Turn<M::Phase>>, AllocError>
    requires fits { KeepsMessage book.now event.now }
    requires known { Knows M.names book.now phase.now }
    requires in_range { M.in_range phase.now }
    ensures { IfOk result (λ turn. (owes : List Debt) → Knows (owing_names M.names) book.now (record { phase = phase.now; owes = owes }) →
        OwingInRange M.in_range (record { phase = phase.now; owes = owes }) →
        AnswersOne (owing_names M.names) (OwingInRange M.in_range) (owing_seen M.seen) book.now
        (Leads M.figure (M.times machine.now) event.now.action (event_in book.now event.now)
        (owing_seen M.seen book.now (unexpired_at event.now.moment (record { phase = phase.now; owes = owes }))))
        (option_map (λ turn. led_by (M.times machine.now) event.now.moment turn (record { phase = phase.now; owes = owes })) turn)) }
{
    due_within_limits(machine.params(), event.moment());
    match event.action() {
        Action::Received => {
            let stays = Turn {
                phase: *phase,
                change: Change::Keeps,
            };
            // `turn` is where the row of the message leads, if it has one.
            let turn = machine.receives(alloc, book, phase, event)?;
            Ok(Some(turn.unwrap_or(stays)))
        }
        Action::Sent => machine.sends(alloc, book, phase, event),
        Action::Failed | Action::Mark | Action::Restart => Ok(None),
    }
}

/// Puts the states that a sent message leaves in their phase, of those from `from` up to `to`, which are of one phase, after the others.
fn rests_run<M: Phases>(
    machine: &M,
    book: &Book,
    pool: &mut Pool<M::Phase>,
    from: usize,
    to: usize,
    event: &Event,
) -> Result<(), AllocError>
    requires from { from < to }
    requires to { to ≤ length pool.old }
    requires fits { KeepsMessage book.now event.now }
    requires known { All (Knows (owing_names M.names) book.now) (from_to from to pool.old) }
    requires in_range { All (OwingInRange M.in_range) (from_to from to pool.old) }
    requires same { HoldsAt (λ first. All (λ x. x.phase ≡ first.phase) (from_to from to pool.old)) pool.old from }
    ensures gives { OnOk result ((added : List (CodeOwing M.Phase)) × (pool.new ≡ pool.old ++ added)
        × Covers (owing_names M.names) (OwingInRange M.in_range) (owing_seen M.seen) book.now
        (FromSome (RestsFrom M.figure (M.times machine.now) M.seen book.now (event_in book.now event.now)) (from_to from to pool.old)) added) }
    ensures before { take (length pool.old) pool.new ≡ pool.old }
{
    let phase = pool.phases[from];
    if is_past(event.moment(), machine.closes(&phase)) {
        return Ok(());
    }
    // Where the phase stays by itself, or names no one message that is paid, each state is asked alone. Else all states pay the same message.
    if machine.stays(&phase, event.kind()) {
        return rests_rows(machine, book, pool, from, to, event);
    }
    match machine.pays(book, &phase, event) {
        Some(message) => pool.push_paid_each(event.moment(), from, to, message),
        None => rests_rows(machine, book, pool, from, to, event),
    }
}

/// Puts the states that a sent message leaves in their phase after the others, asking one state after the other.
fn rests_rows<M: Phases>(
    machine: &M,
    book: &Book,
    pool: &mut Pool<M::Phase>,
    from: usize,
    to: usize,
    event: &Event,
) -> Result<(), AllocError>
    requires from { from < to }
    requires to { to ≤ length pool.old }
    requires fits { KeepsMessage book.now event.now }
    requires known { All (Knows (owing_names M.names) book.now) (from_to from to pool.old) }
    requires in_range { All (OwingInRange M.in_range) (from_to from to pool.old) }
    ensures gives { OnOk result ((added : List (CodeOwing M.Phase)) × (pool.new ≡ pool.old ++ added)
        × Covers (owing_names M.names) (OwingInRange M.in_range) (owing_seen M.seen) book.now
        (FromSome (RestsFrom M.figure (M.times machine.now) M.seen book.now (event_in book.now event.now)) (from_to from to pool.old)) added) }
    ensures before { take (length pool.old) pool.new ≡ pool.old }
{
    for at in from..to {
        rests_row(machine, book, pool, at, event)?;
    }
    Ok(())
}

/// Puts the state that a sent message leaves in its phase after the others, if it leaves the one at the index.
fn rests_row<M: Phases>(
    machine: &M,
    book: &Book,
    pool: &mut Pool<M::Phase>,
    at: usize,
    event: &Event,
) -> Result<(), AllocError>
    requires at { at < length pool.old }
    requires fits { KeepsMessage book.now event.now }
    requires known { HoldsAt (Knows (owing_names M.names) book.now) pool.old at }
    requires in_range { HoldsAt (OwingInRange M.in_range) pool.old at }
    ensures gives { HoldsAt (λ x. OnOk result ((added : List (CodeOwing M.Phase)) × (pool.new ≡ pool.old ++ added)
        × Covers (owing_names M.names) (OwingInRange M.in_range) (owing_seen M.seen) book.now
        (RestsFrom M.figure (M.times machine.now) M.seen book.now (event_in book.now event.now) x) added)) pool.old at }
    ensures before { take (length pool.old) pool.new ≡ pool.old }
{
    let alloc = *pool.phases.allocator();
    let phase = pool.phases[at];
    // A state that had to change before the event gives nothing.
    if is_past(event.moment(), until(machine, &phase, &pool.dues, at)) {
        return Ok(());
    }
    let rest = rests(alloc, machine, book, &phase, event, &mut pool.dues, at)?;
    pool.push_rested(event.moment(), at, rest)
}
