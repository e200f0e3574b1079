//! Rows of tests: entries with the states to which they lead, or with the ends of their only state.
ghost use Rattle.std.specs.Prelude.{All};
ghost use Rattle.sip_machine.specs.Owing.{at_rest};

use crate::runs::{Entry, State, run, states_of};
use crate::wants::holds;
use sip_machine::{Book, Machine, Phase, Pool, Run};
use std::alloc::Global;
use std::process::Abort;
use std::test::Fail;

/// A debt that a row wants: the number of its message, its deadline, and whether it must be sent.
pub(crate) type Owed = (u64, u64, bool);

/// A debt that must be paid.
pub(crate) const MUST: bool = true;

/// What is owed may be sent.
pub(crate) const MAY: bool = false;

/// A state that a row wants: its phase, and what it owes.
pub(crate) type Want<P> = (P, &'static [Owed]);

/// A row: its entries, and the states to which they lead. There are none where the entries have no run.
pub(crate) type Row<P> = (&'static [Entry], &'static [Want<P>]);

/// Whether the runs are exactly the debts that are wanted, each once.
fn are_owed(runs: &[Run], wants: &[Owed]) -> bool {
    runs.len() == wants.len()
        && runs.iter().zip(wants).all(|(run, want)| {
            run.count == 1
                && run.debt.message == want.0
                && run.debt.deadline == want.1
                && run.debt.must == want.2
        })
}

/// Whether the states are exactly those that are wanted.
fn are_wanted<P: Phase>(states: &[State<P>], wants: &[Want<P>]) -> bool {
    states.len() == wants.len()
        && states.iter().zip(wants).all(|(state, want)| state.phase == want.0
            && are_owed(&state.owes, want.1))
}

/// Asserts that something is so after these entries, which the message of a failure tells.
fn holds_after(rt: &impl Abort, is_so: bool, entries: &[Entry]) {
    assert!(rt; is_so, "{entries:?}");
}

/// Whether the entries lead to exactly the states that are wanted, in this order.
fn lead<M: Machine>(
    alloc: Global,
    machine: &M,
    book: &Book,
    entries: &[Entry],
    wants: &[Want<M::Phase>],
) -> Result<bool, Fail> {
    let pool = run(alloc, machine, book, entries)?;
    let states = states_of(alloc, &pool)?;
    Ok(are_wanted(&states, wants))
}

/// Asserts that the entries of each row lead to the states of the row.
pub(crate) fn all_lead<M: Machine>(
    rt: &(impl Abort + AllocGlobal),
    machine: &M,
    book: &Book,
    rows: &[Row<M::Phase>],
) -> Result<(), Fail> {
    for &(entries, wants) in rows {
        let is_so = lead(rt.alloc(), machine, book, entries, wants)?;
        holds_after(rt, is_so, entries);
    }
    Ok(())
}

/// The window in which a state may end, from its first moment to its last, if it has one; and the last moment until which the state can wait.
pub(crate) type Ends = (Option<(u64, Option<u64>)>, Option<u64>);

/// A row: its entries, and the window and the last moment of the only state after them.
pub(crate) type EndsRow = (&'static [Entry], Option<(u64, Option<u64>)>, Option<u64>);

/// Whether the window and the last moment are the wanted ones.
fn are_ends(ends: Ends, want: Ends) -> bool {
    ends == want
}

/// The window and the last moment of the only state of the pool.
fn ends_of<M: Machine>(machine: &M, pool: &Pool<M::Phase>) -> Result<Ends, Fail>
    requires { All M.in_range pool.now }
{
    if pool.len() != 1 {
        return Err("not one state".into());
    }
    Ok((machine.end_window(pool, 0), machine.until(pool, 0)))
}

/// Asserts that the only state after the entries of each row has the ends of the row.
pub(crate) fn all_end<M: Machine>(
    rt: &(impl Abort + AllocGlobal),
    machine: &M,
    book: &Book,
    rows: &[EndsRow],
) -> Result<(), Fail> {
    for &(entries, window, until) in rows {
        let pool = run(rt.alloc(), machine, book, entries)?;
        let ends = ends_of(machine, &pool)?;
        holds_after(rt, are_ends(ends, (window, until)), entries);
    }
    Ok(())
}

/// Asserts that a state of this phase that owes nothing has the ends that are wanted.
pub(crate) fn phase_ends<M: Machine>(
    rt: &(impl Abort + AllocGlobal),
    machine: &M,
    phase: M::Phase,
    want: Ends,
    row: &str,
) -> Result<(), Fail>
    requires { M.in_range (at_rest phase) }
{
    let ends = ends_of_phase(rt.alloc(), machine, phase)?;
    holds(rt, are_ends(ends, want), row);
    Ok(())
}

/// The window and the last moment of a state of this phase that owes nothing.
fn ends_of_phase<M: Machine>(alloc: Global, machine: &M, phase: M::Phase) -> Result<Ends, Fail>
    requires { M.in_range (at_rest phase) }
{
    let mut pool = Pool::new(alloc);
    pool.push(phase)?;
    ends_of(machine, &pool)
}
