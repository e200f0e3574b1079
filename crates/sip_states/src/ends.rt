//! Which states can end, and which can wait.
ghost use Rattle.std.specs.Prelude.{◌≡◌, ◌≢◌, ◌<◌, ◌≤◌, ◌↔◌, [], All, AllPairs, Contains, IsTrue, OnOk, OnErr, filter, length};
ghost use Rattle.std.specs.List.{HoldsAt};
ghost use Rattle.sip_machine.specs.Limits.{IsWithin};
ghost use Rattle.sip_machine.specs.Owing.{at_rest};
ghost use Rattle.sip_states.specs.inner.Ways.{is_within, IsFirstEnd, CanEnd, SomeCanEnd, CanReach, SomeCanReach, IsLastOf, Advances};

use sip_machine::{Machine, Phase, Pool};
use std::alloc::AllocError;

/// Whether the moment is not past the limit; where there is no limit, no moment is.
pub(crate) fn is_within(moment: u64, limit: Option<u64>) -> bool
    ensures { result ≡ is_within moment limit }
{
    match limit {
        None => true,
        Some(last) => moment <= last,
    }
}

/// The first moment from `from` on at which the state at the index can end, or `None` where it cannot.
#[inline(always)]
fn first_end<M: Machine>(machine: &M, pool: &Pool<M::Phase>, at: usize, from: u64) -> Option<u64>
    requires at { at < length pool.now }
    requires in_range { HoldsAt M.in_range pool.now at }
    ensures { HoldsAt (λ x. IsFirstEnd (M.end_window machine.now x) (M.until machine.now x) from result) pool.now at }
{
    let (opens, closes) = machine.end_window(pool, at)?;
    let first = from.max(opens);
    if is_within(first, closes) && is_within(first, machine.until(pool, at)) {
        Some(first)
    } else {
        None
    }
}

/// Whether the state at the index can end at a moment from `from` to `to`.
#[inline(always)]
fn can_end<M: Machine>(machine: &M, pool: &Pool<M::Phase>, at: usize, from: u64, to: u64) -> bool
    requires at { at < length pool.now }
    requires in_range { HoldsAt M.in_range pool.now at }
    ensures { HoldsAt (λ x. IsTrue result ↔ CanEnd (M.end_window machine.now x) (M.until machine.now x) from to) pool.now at }
{
    match first_end(machine, pool, at, from) {
        None => false,
        Some(first) => first <= to,
    }
}

/// Whether one of the states can end at a moment from `from` to `to`.
#[inline(always)]
pub(crate) fn some_can_end<M: Machine>(
    machine: &M,
    pool: &Pool<M::Phase>,
    from: u64,
    to: u64,
) -> bool
    requires { All M.in_range pool.now }
    ensures { IsTrue result ↔ SomeCanEnd (M.end_window machine.now) (M.until machine.now) from to pool.now }
{
    for at in 0..pool.len() {
        if can_end(machine, pool, at, from, to) {
            return true;
        }
    }
    false
}

/// Keeps the states that can wait until the moment.
fn keep_waiting<M: Machine>(machine: &M, pool: &mut Pool<M::Phase>, moment: u64)
    requires { All M.in_range pool.old }
    ensures { pool.new ≡ filter (λ x. is_within moment (M.until machine.now x)) pool.old }
{
    // The states that can wait are moved to the front, in their order, and the rest is cut off.
    let mut kept = 0;
    for at in 0..pool.len() {
        if is_within(moment, machine.until(pool, at)) {
            pool.copy(at, kept);
            kept += 1;
        }
    }
    pool.truncate(kept);
}

/// Whether one of the states is in this phase and owes nothing.
fn has_at_rest<P: Phase>(pool: &Pool<P>, phase: P) -> bool
    ensures { IsTrue result ↔ Contains pool.now (at_rest phase) }
{
    for at in 0..pool.len() {
        if pool.is_at_rest(at, phase) {
            return true;
        }
    }
    false
}

/// Lets the states wait until the moment: it keeps those that can stay, and adds the ended one where one of them can end.
pub(crate) fn advance_states<M: Machine>(
    machine: &M,
    pool: &mut Pool<M::Phase>,
    from: u64,
    to: u64,
) -> Result<(), AllocError>
    requires in_range { All M.in_range pool.old }
    requires distinct { AllPairs (λ x y. x ≢ y) pool.old }
    ensures advances { OnOk result (Advances M.in_range (M.end_window machine.now) (M.until machine.now) (M.ended machine.now) from to pool.old pool.new) }
    ensures err { OnErr result (pool.new ≡ pool.old) }
{
    if some_can_end(machine, pool, from, to) && !has_at_rest(pool, machine.ended()) {
        pool.push(machine.ended())?;
    }
    keep_waiting(machine, pool, to);
    Ok(())
}

/// The last moment to which one can wait from the state at the index, or `None` where one can wait for ever, as after an end.
fn last_of<M: Machine>(machine: &M, pool: &Pool<M::Phase>, at: usize, from: u64) -> Option<u64>
    requires at { at < length pool.now }
    requires in_range { HoldsAt M.in_range pool.now at }
    ensures { HoldsAt (λ x. IsLastOf (CanReach (M.end_window machine.now x) (M.until machine.now x) from) from result) pool.now at }
{
    match first_end(machine, pool, at, from) {
        Some(_) => None,
        None => machine.until(pool, at),
    }
}

/// The last moment to which one can wait from one of the states, or `None` where one can wait for ever.
pub(crate) fn last_of_all<M: Machine>(machine: &M, pool: &Pool<M::Phase>, from: u64) -> Option<u64>
    requires some { pool.now ≢ [] }
    requires in_range { All M.in_range pool.now }
    requires waiting { All (λ x. IsWithin from (M.until machine.now x)) pool.now }
    ensures { IsLastOf (λ m. SomeCanReach (M.end_window machine.now) (M.until machine.now) from m pool.now) from result }
{
    let mut last = from;
    for at in 0..pool.len() {
        last = last.max(last_of(machine, pool, at, from)?);
    }
    Some(last)
}
