//! How states take an event: what it leads to is put after them.
ghost use Rattle.std.specs.Prelude.{◌≡◌, ◌≤◌, ◌++◌, List, All, IfOk, OnOk, OnErr, drop, length, take};
ghost use Rattle.std.specs.Bool.{OnTrue, OnFalse};
ghost use Rattle.sip_machine.specs.NumberedEvent.{FitsBook, event_in};
ghost use Rattle.sip_machine.specs.Owing.{CodeOwing};
ghost use Rattle.sip_machine.specs.Rules.{Covers, Knows, StandFor};
ghost use Rattle.sip_states.specs.inner.Ways.{GivesAfter, GivesFrom};

use crate::ends::some_can_end;
use sip_machine::{Book, Event, Machine, Pool};
use std::alloc::AllocError;

/// Lets the only state take the event where it stands, after standing in it at `from`, and tells whether it did. It does not where
/// there are other states, where the state may end before the event, or where the event leads to none or to several states. If
/// it did not, and on an error, the states are as before.
#[inline(always)]
pub(crate) fn step_alone<M: Machine>(
    machine: &M,
    book: &Book,
    pool: &mut Pool<M::Phase>,
    from: u64,
    event: &Event,
) -> Result<bool, AllocError>
    requires order { from ≤ event.now.moment }
    requires fits { FitsBook book.now event.now }
    requires known { All (Knows M.names book.now) pool.old }
    requires in_range { All M.in_range pool.old }
    ensures gives { IfOk result (λ stepped. OnTrue stepped (StandFor M.names M.in_range M.seen book.now
        (GivesAfter M.seen book.now (M.rules machine.now) pool.old from (event_in book.now event.now)) pool.new)) }
    ensures alone { IfOk result (λ stepped. OnTrue stepped (length pool.new ≡ 1)) }
    ensures other { IfOk result (λ stepped. OnFalse stepped (pool.new ≡ pool.old)) }
    ensures err { OnErr result (pool.new ≡ pool.old) }
{
    if pool.len() != 1 || some_can_end(machine, pool, from, event.moment()) {
        return Ok(false);
    }
    machine.step(book, pool, event)
}

/// Puts the states that the event leads to after the others, from those in which one can stand at its moment after standing in one
/// at `from`, and tells where they begin. Some may be found more than once, and the ended state may stand before them. On an
/// error some may have been put after the others.
pub(crate) fn find_given<M: Machine>(
    machine: &M,
    book: &Book,
    pool: &mut Pool<M::Phase>,
    from: u64,
    event: &Event,
) -> Result<usize, AllocError>
    requires order { from ≤ event.now.moment }
    requires fits { FitsBook book.now event.now }
    requires known { All (Knows M.names book.now) pool.old }
    requires in_range { All M.in_range pool.old }
    ensures within { IfOk result (λ first. first ≤ length pool.new) }
    ensures gives { IfOk result (λ first. Covers M.names M.in_range M.seen book.now
        (GivesAfter M.seen book.now (M.rules machine.now) pool.old from (event_in book.now event.now)) (drop first pool.new)) }
    ensures before { take (length pool.old) pool.new ≡ pool.old }
{
    let count = pool.len();
    // Where no state can end by the event, the event leads on from the old states alone.
    if !some_can_end(machine, pool, from, event.moment()) {
        step_each(machine, book, pool, count, event)?;
        return Ok(count);
    }
    // Else one can stand in the ended state too: it is put after the old ones, and the event leads on from them and from it.
    pool.push(machine.ended())?;
    let first = pool.len();
    step_each(machine, book, pool, count, event)?;
    machine.successors(book, pool, count, event)?;
    Ok(first)
}

/// Puts the states to which the event leads from the first `count` states after the others; the contract calls them `found`. A state
/// that cannot wait until the moment of the event leads to none. On an error some may have been put after the others.
fn step_each<M: Machine>(
    machine: &M,
    book: &Book,
    pool: &mut Pool<M::Phase>,
    count: usize,
    event: &Event,
) -> Result<(), AllocError>
    requires count { count ≤ length pool.old }
    requires fits { FitsBook book.now event.now }
    requires known { All (Knows M.names book.now) (take count pool.old) }
    requires in_range { All M.in_range (take count pool.old) }
    ensures gives { OnOk result ((found : List (CodeOwing M.Phase)) × (pool.new ≡ pool.old ++ found)
        × Covers M.names M.in_range M.seen book.now (GivesFrom M.seen book.now (M.rules machine.now) (take count pool.old) (event_in book.now event.now)) found) }
    ensures before { take (length pool.old) pool.new ≡ pool.old }
{
    machine.successors_each(book, pool, count, event)
}
