//! Runs of a machine over entries: with all states, and with one state that steps where it stands.
ghost use Rattle.std.specs.Prelude.{◌≡◌, ◌<◌, ◌≤◌, ℕ, List, All, AllPairs, IfOk, OnOk, length};
ghost use Rattle.sip_machine.specs.NumberedEvent.{FitsBook};
ghost use Rattle.sip_machine.specs.Owing.{CodeOwing};
ghost use Rattle.sip_machine.specs.inner.Pools.{AreFirstOnes, picked};
ghost use Rattle.sip_machine.specs.Rules.{Knows};
ghost use Rattle.sip_machine.specs.Texts.{Texts};

use crate::messages::event_of;
use sip_machine::{Action, Book, Event, Machine, Phase, Pool, Run};
use std::alloc::Global;
use std::test::Fail;

/// An entry: its moment, what was done, and the number of its message.
pub(crate) type Entry = (u64, Action, u64);

/// A state of a pool: its phase, and what it owes.
#[derive(Drop)]
pub(crate) struct State<P> {
    pub phase: P,
    pub owes: Vec<Run>,
}

/// The states of a pool, with what each owes.
pub(crate) fn states_of<P: Phase>(alloc: Global, pool: &Pool<P>) -> Result<Vec<State<P>>, Fail> {
    let mut states = Vec::new(alloc);
    for at in 0..pool.len() {
        let state = State {
            phase: pool.phase(at),
            owes: pool.runs(alloc, at)?,
        };
        states.push(state)?;
    }
    Ok(states)
}

/// A pool with the first state of the machine alone.
fn first_pool<M: Machine>(alloc: Global, machine: &M) -> Result<Pool<M::Phase>, Fail>
    ensures alone { IfOk result (λ pool. length pool ≡ 1) }
    ensures known { (texts : Texts) → IfOk result (All (Knows M.names texts)) }
    ensures in_range { IfOk result (All M.in_range) }
{
    let mut pool = Pool::new(alloc);
    pool.push(machine.first())?;
    Ok(pool)
}

/// The states of the machine after the entries. It fails where they differ from those that all states at once, or one state that steps
/// where it stands, lead to.
pub(crate) fn run<M: Machine>(
    alloc: Global,
    machine: &M,
    book: &Book,
    entries: &[Entry],
) -> Result<Pool<M::Phase>, Fail>
    ensures { IfOk result (All M.in_range) }
{
    let mut pool = first_pool(alloc, machine)?;
    let is_alone = step_each(alloc, machine, book, &mut pool, entries)?;
    agree_with_others(alloc, machine, book, entries, &pool, is_alone)?;
    Ok(pool)
}

/// Asserts that all states at once, and one state that steps where it stands, lead to the states of the pool.
fn agree_with_others<M: Machine>(
    alloc: Global,
    machine: &M,
    book: &Book,
    entries: &[Entry],
    pool: &Pool<M::Phase>,
    is_alone: bool,
) -> Result<(), Fail> {
    agree_with_run_together(alloc, machine, book, entries, pool)?;
    agree_with_run_alone(alloc, machine, book, entries, pool, is_alone)
}

/// Asserts that all states at once lead to the states of the pool.
fn agree_with_run_together<M: Machine>(
    alloc: Global,
    machine: &M,
    book: &Book,
    entries: &[Entry],
    pool: &Pool<M::Phase>,
) -> Result<(), Fail> {
    let together = run_together(alloc, machine, book, entries)?;
    are_alike(alloc, pool, &together)
}

/// Asserts that one state that steps where it stands leads to the states of the pool.
fn agree_with_run_alone<M: Machine>(
    alloc: Global,
    machine: &M,
    book: &Book,
    entries: &[Entry],
    pool: &Pool<M::Phase>,
    is_alone: bool,
) -> Result<(), Fail> {
    let alone = run_alone(alloc, machine, book, entries)?;
    agree(alloc, pool, is_alone, &alone)
}

/// Lets the states take each entry, one state after another. Returns whether there was exactly one state after each entry.
fn step_each<M: Machine>(
    alloc: Global,
    machine: &M,
    book: &Book,
    pool: &mut Pool<M::Phase>,
    entries: &[Entry],
) -> Result<bool, Fail>
    requires known { All (Knows M.names book.now) pool.old }
    requires in_range { All M.in_range pool.old }
    ensures { OnOk result (All M.in_range pool.new) }
{
    let mut is_alone = true;
    for &(moment, action, number) in entries {
        let event = event_of(alloc, book, moment, action, number)?;
        step(alloc, machine, book, pool, &event)?;
        is_alone = is_alone && pool.len() == 1;
    }
    Ok(is_alone)
}

/// Asserts that the state that stepped where it stands is the only one, and that there was one exactly where each entry led to one state.
fn agree<P: Phase>(
    alloc: Global,
    pool: &Pool<P>,
    is_alone: bool,
    alone: &Option<Pool<P>>,
) -> Result<(), Fail> {
    let is_so = match alone {
        Some(alone) => {
            let same = are_same(&states_of(alloc, pool)?, &states_of(alloc, alone)?);
            is_alone && pool.len() == 1 && same
        }
        None => !is_alone,
    };
    if is_so {
        Ok(())
    } else {
        Err("in its own place it steps otherwise".into())
    }
}

/// Whether both lists have the same states, one by one.
pub(crate) fn are_same<P: Phase>(states: &[State<P>], others: &[State<P>]) -> bool {
    states.len() == others.len()
        && states.iter().zip(others).all(|(state, other)| state.phase == other.phase
            && state.owes.as_slice() == other.owes.as_slice())
}

/// Asserts that each state of either pool is in the other one.
fn are_alike<P: Phase>(alloc: Global, pool: &Pool<P>, together: &Pool<P>) -> Result<(), Fail> {
    let states = states_of(alloc, pool)?;
    let others = states_of(alloc, together)?;
    if are_among(&states, &others) && are_among(&others, &states) {
        Ok(())
    } else {
        Err("all at once they step otherwise".into())
    }
}

/// Whether each of the states is one of the others.
fn are_among<P: Phase>(states: &[State<P>], others: &[State<P>]) -> bool {
    states.iter().all(|state| {
        others.iter().any(|other| state.phase == other.phase
            && state.owes.as_slice() == other.owes.as_slice())
    })
}

/// The states of the machine after the entries, when all states take each entry at once.
pub(crate) fn run_together<M: Machine>(
    alloc: Global,
    machine: &M,
    book: &Book,
    entries: &[Entry],
) -> Result<Pool<M::Phase>, Fail> {
    let mut pool = first_pool(alloc, machine)?;
    step_each_together(alloc, machine, book, &mut pool, entries)?;
    Ok(pool)
}

/// Lets all states take each entry at once.
fn step_each_together<M: Machine>(
    alloc: Global,
    machine: &M,
    book: &Book,
    pool: &mut Pool<M::Phase>,
    entries: &[Entry],
) -> Result<(), Fail>
    requires known { All (Knows M.names book.now) pool.old }
    requires in_range { All M.in_range pool.old }
{
    for &(moment, action, number) in entries {
        let event = event_of(alloc, book, moment, action, number)?;
        step_together(alloc, machine, book, pool, &event)?;
    }
    Ok(())
}

/// Puts the states that the event gives in the place of those that take it, each once. It asserts that the latter are not changed.
fn step_together<M: Machine>(
    alloc: Global,
    machine: &M,
    book: &Book,
    pool: &mut Pool<M::Phase>,
    event: &Event,
) -> Result<(), Fail>
    requires fits { FitsBook book.now event.now }
    requires known { All (Knows M.names book.now) pool.old }
    requires in_range { All M.in_range pool.old }
    ensures known { OnOk result (All (Knows M.names book.now) pool.new) }
    ensures in_range { OnOk result (All M.in_range pool.new) }
{
    let before = states_of(alloc, pool)?;
    step_beside(alloc, machine, book, pool, event, before.as_slice())
}

/// Puts the states that the event gives in the place of those that take it, each once. It asserts that the latter stay what they were before.
fn step_beside<M: Machine>(
    alloc: Global,
    machine: &M,
    book: &Book,
    pool: &mut Pool<M::Phase>,
    event: &Event,
    before: &[State<M::Phase>],
) -> Result<(), Fail>
    requires fits { FitsBook book.now event.now }
    requires known { All (Knows M.names book.now) pool.old }
    requires in_range { All M.in_range pool.old }
    ensures known { OnOk result (All (Knows M.names book.now) pool.new) }
    ensures in_range { OnOk result (All M.in_range pool.new) }
{
    let count = pool.len();
    machine.successors_each(book, pool, count, event)?;
    stay(alloc, pool, before)?;
    keep_first_ones(pool, count)
}

/// Keeps the states from `from` on, each once, and drops those before them.
pub(crate) fn keep_first_ones<P: Phase>(pool: &mut Pool<P>, from: usize) -> Result<(), Fail>
    requires { from ≤ length pool.old }
    ensures { (x : CodeOwing P) → OnOk result ((rows : List ℕ) × AreFirstOnes pool.old from (length pool.old) rows
        × (pool.new ≡ picked pool.old x rows)) }
{
    let given = pool.first_ones(from)?;
    pool.keep(&given);
    Ok(())
}

/// Asserts that the first states of the pool are those that were there before.
fn stay<P: Phase>(alloc: Global, pool: &Pool<P>, before: &[State<P>]) -> Result<(), Fail> {
    let states = states_of(alloc, pool)?;
    if states.len() >= before.len() && are_same(&states[..before.len()], before) {
        Ok(())
    } else {
        Err("what takes an event does not stay as it is".into())
    }
}

/// Puts the states that the event gives in the place of those that take it. They come after these, which are `count`, and are the only ones that are kept.
pub(crate) fn step<M: Machine>(
    alloc: Global,
    machine: &M,
    book: &Book,
    pool: &mut Pool<M::Phase>,
    event: &Event,
) -> Result<(), Fail>
    requires fits { FitsBook book.now event.now }
    requires known { All (Knows M.names book.now) pool.old }
    requires in_range { All M.in_range pool.old }
    ensures known { OnOk result (All (Knows M.names book.now) pool.new) }
    ensures in_range { OnOk result (All M.in_range pool.new) }
{
    let count = pool.len();
    for at in 0..count {
        machine.successors(book, pool, at, event)?;
    }
    let given = indices(alloc, count, pool.len())?;
    pool.keep(&given);
    Ok(())
}

/// The numbers from `from` up to, but without, `to`.
pub(crate) fn indices(alloc: Global, from: usize, to: usize) -> Result<Vec<usize>, Fail>
    ensures within { IfOk result (λ rows. All (λ row. row < to) rows.items) }
    ensures rising { IfOk result (λ rows. AllPairs (λ a b. a < b) rows.items) }
{
    let mut rows = Vec::new(alloc);
    for row in from..to {
        rows.push(row)?;
    }
    Ok(rows)
}

/// The state that takes each entry where it stands, or `None` where an entry leads to none or to several states.
fn run_alone<M: Machine>(
    alloc: Global,
    machine: &M,
    book: &Book,
    entries: &[Entry],
) -> Result<Option<Pool<M::Phase>>, Fail> {
    let mut pool = first_pool(alloc, machine)?;
    if !step_each_alone(alloc, machine, book, &mut pool, entries)? {
        return Ok(None);
    }
    Ok(Some(pool))
}

/// Lets the only state take each entry where it stands. Returns whether it could.
fn step_each_alone<M: Machine>(
    alloc: Global,
    machine: &M,
    book: &Book,
    pool: &mut Pool<M::Phase>,
    entries: &[Entry],
) -> Result<bool, Fail>
    requires alone { length pool.old ≡ 1 }
    requires known { All (Knows M.names book.now) pool.old }
    requires in_range { All M.in_range pool.old }
{
    for &(moment, action, number) in entries {
        let event = event_of(alloc, book, moment, action, number)?;
        // `step` says no where the event gives no state or several.
        if !machine.step(book, pool, &event)? {
            return Ok(false);
        }
    }
    Ok(true)
}
