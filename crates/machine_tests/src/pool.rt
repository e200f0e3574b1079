//! Pools of states: the runs of their debts, and which states are the same, worked out by hand.
ghost use Rattle.std.specs.Prelude.{◌<◌, All, OnErr, OnOk, length};
ghost use Rattle.sip_machine.specs.NumberedEvent.{FitsBook};
ghost use Rattle.sip_machine.specs.Rules.{Knows};

use crate::messages::{Numbered, Start, book_of, event_of};
use crate::runs::{Entry, State, are_same, indices, keep_first_ones, states_of};
use crate::times::params;
use crate::wants::holds;
use sip_machine::{
    Action, Book, Debt, Event, Machine, Phase, PlainServer, PlainServerPhase, Pool, Run,
};
use std::alloc::{AllocError, Global};
use std::process::Abort;
use std::test::Fail;

/// A debt of this message, which must be sent until 60.
fn debt(message: u64) -> Debt {
    Debt {
        message,
        deadline: 60,
        must: true,
    }
}

/// The number of the request, an OPTIONS.
const REQUEST: u64 = 4;

/// The number of a 180, the response that is sent last.
const LAST: u64 = 5;

/// The messages by number: three that are owed, their request, and one that is sent after them.
const MESSAGES: [Numbered; 5] = [
    (1, Start::Response(181), None),
    (2, Start::Response(182), None),
    (3, Start::Response(183), None),
    (REQUEST, Start::Request("OPTIONS"), None),
    (LAST, Start::Response(180), None),
];

/// A server with the times of the tests.
fn server() -> Result<PlainServer, Fail> {
    Ok(PlainServer::new(params(500)?))
}

/// A book with the messages.
fn book(alloc: Global) -> Result<Book, Fail> {
    book_of(alloc, &MESSAGES, "OPTIONS", "UDP")
}

/// Lets the last state take the event, and puts the first state to which that leads in its place.
fn take<M: Machine>(
    machine: &M,
    book: &Book,
    pool: &mut Pool<M::Phase>,
    event: &Event,
) -> Result<(), Fail>
    requires fits { FitsBook book.now event.now }
    requires known { All (Knows M.names book.now) pool.old }
    requires in_range { All M.in_range pool.old }
    ensures known { OnOk result (All (Knows M.names book.now) pool.new) }
    ensures in_range { OnOk result (All M.in_range pool.new) }
{
    let count = pool.len();
    if count == 0 {
        return Err("no state".into());
    }
    machine.successors(book, pool, count - 1, event)?;
    if pool.len() > count {
        pool.copy(count, count - 1);
        pool.truncate(count);
    }
    Ok(())
}

/// Lets the last state take the entry, and puts the first state to which that leads in its place.
fn take_entry<M: Machine>(
    alloc: Global,
    machine: &M,
    book: &Book,
    pool: &mut Pool<M::Phase>,
    entry: Entry,
) -> Result<(), Fail>
    requires known { All (Knows M.names book.now) pool.old }
    requires in_range { All M.in_range pool.old }
    ensures known { OnOk result (All (Knows M.names book.now) pool.new) }
    ensures in_range { OnOk result (All M.in_range pool.new) }
{
    let (moment, action, number) = entry;
    let event = event_of(alloc, book, moment, action, number)?;
    take(machine, book, pool, &event)
}

/// Puts a state that has taken the request after the others.
fn push_asked<M: Machine>(
    alloc: Global,
    machine: &M,
    book: &Book,
    pool: &mut Pool<M::Phase>,
) -> Result<(), Fail>
    requires known { All (Knows M.names book.now) pool.old }
    requires in_range { All M.in_range pool.old }
    ensures known { OnOk result (All (Knows M.names book.now) pool.new) }
    ensures in_range { OnOk result (All M.in_range pool.new) }
{
    pool.push(machine.first())?;
    take_entry(alloc, machine, book, pool, (0, Action::Received, REQUEST))
}

/// Puts a state that owes these messages after the others: it has sent each of them, and then its request came again. The 180 is sent last, so that
/// all such states are in one phase.
fn push_owing<M: Machine>(
    alloc: Global,
    machine: &M,
    book: &Book,
    pool: &mut Pool<M::Phase>,
    messages: &[u64],
) -> Result<(), Fail>
    requires known { All (Knows M.names book.now) pool.old }
    requires in_range { All M.in_range pool.old }
    ensures known { OnOk result (All (Knows M.names book.now) pool.new) }
    ensures in_range { OnOk result (All M.in_range pool.new) }
{
    push_asked(alloc, machine, book, pool)?;
    for message in messages {
        take_entry(alloc, machine, book, pool, (10, Action::Sent, *message))?;
        take_entry(alloc, machine, book, pool, (10, Action::Received, REQUEST))?;
    }
    take_entry(alloc, machine, book, pool, (10, Action::Sent, LAST))
}

/// Puts a state after the others for each of the lists, which owes the messages of the list.
fn push_each<M: Machine>(
    alloc: Global,
    machine: &M,
    book: &Book,
    pool: &mut Pool<M::Phase>,
    lists: &[&[u64]],
) -> Result<(), Fail>
    requires known { All (Knows M.names book.now) pool.old }
    requires in_range { All M.in_range pool.old }
    ensures known { OnOk result (All (Knows M.names book.now) pool.new) }
    ensures in_range { OnOk result (All M.in_range pool.new) }
{
    for messages in lists {
        push_owing(alloc, machine, book, pool, messages)?;
    }
    Ok(())
}

/// A pool with a state for each of the lists, which owes the messages of the list.
fn pool_of(alloc: Global, lists: &[&[u64]]) -> Result<Pool<PlainServerPhase>, Fail> {
    let server = server()?;
    let book = book(alloc)?;
    let mut pool = Pool::new(alloc);
    push_each(alloc, &server, &book, &mut pool, lists)?;
    Ok(pool)
}

/// A run of `count` debts of the message.
fn run(message: u64, count: usize) -> Run {
    Run {
        debt: debt(message),
        count,
    }
}

/// Whether the state owes exactly these runs of debts.
fn owes(state: &State<PlainServerPhase>, runs: &[Run]) -> bool {
    state.owes.as_slice() == runs
}

/// Asserts that there are two states in one phase, of which the first owes these runs and the second nothing.
fn first_owes(
    rt: &impl Abort,
    states: &[State<PlainServerPhase>],
    runs: &[Run],
) -> Result<(), Fail> {
    let [state, other] = states else {
        return Err("not two states".into());
    };
    holds(rt, owes(state, runs), "the first state");
    holds(rt, other.owes.is_empty(), "the second state");
    holds(rt, state.phase == other.phase, "the phases");
    Ok(())
}

/// The first state owes the message 1 three times, then 2, 1 and 2 again: four runs, since only neighbours make one. The second owes nothing.
#[test]
fn equal_neighbours_are_one_run(rt: HostRuntime) -> Result<(), Fail> {
    let pool = pool_of(rt.alloc(), &[&[1, 1, 1, 2, 1, 2], &[]])?;
    let states = states_of(rt.alloc(), &pool)?;
    let wants = [run(1, 3), run(2, 1), run(1, 1), run(2, 1)];
    first_owes(&rt, &states, &wants)
}

/// Whether the rows are the numbers from `from` up to, but without, `to`.
fn are_from(rows: &[usize], from: usize, to: usize) -> bool {
    to >= from
        && rows.len() == to - from
        && rows
            .iter()
            .enumerate()
            .all(|(place, row)| *row >= from && *row - from == place)
}

/// Whether states that owe these messages and those others are the same state.
fn make_one(alloc: Global, these: &[u64], others: &[u64]) -> Result<bool, Fail> {
    let pool = pool_of(alloc, &[these, others])?;
    Ok(pool.first_ones(0)?.len() == 1)
}

/// Asserts that it is told of the lists at these places whether they are one.
fn is_same_at(rt: &impl Abort, told: bool, want: bool, place: usize, other: usize) {
    assert!(rt; told == want, "{place} {other}");
}

/// Asserts that states with two of the lists are the same state exactly where the two are one list.
fn pairs_are_told_apart(rt: &(impl Abort + AllocGlobal), lists: &[&[u64]]) -> Result<(), Fail> {
    for (place, these) in lists.iter().enumerate() {
        for (other, others) in lists.iter().enumerate() {
            let is_one = make_one(rt.alloc(), these, others)?;
            is_same_at(rt, is_one, place == other, place, other);
        }
    }
    Ok(())
}

/// A pool with two states for each of the lists.
fn twice(alloc: Global, lists: &[&[u64]]) -> Result<Pool<PlainServerPhase>, Fail> {
    let mut all = Vec::new(alloc);
    all.extend_from_slice(lists)?;
    all.extend_from_slice(lists)?;
    pool_of(alloc, &all)
}

/// Asserts that `first_ones` finds exactly the `count` rows that start at `from`.
fn first_ones_follow(
    rt: &(impl Abort + AllocGlobal),
    pool: &Pool<PlainServerPhase>,
    from: usize,
    count: usize,
) -> Result<(), Fail> {
    holds(rt, from <= pool.len(), "the first row");
    let ones = pool.first_ones(from)?;
    let are_these = are_from(&ones, from, from.saturating_add(count));
    holds(rt, are_these, "the first ones");
    Ok(())
}

/// Asserts that each of `count` states stands in the pool twice, and once where the first ones are kept.
fn are_twice(
    rt: &(impl Abort + AllocGlobal),
    pool: &mut Pool<PlainServerPhase>,
    count: usize,
) -> Result<(), Fail> {
    // All states stand in the pool in a row, and then in the same order once more: from any place up to the middle the next `count` of them differ.
    holds(rt, pool.len() == count.saturating_mul(2), "twice");
    first_ones_follow(rt, pool, count, count)?;
    first_ones_follow(rt, pool, 2, count)?;
    first_ones_follow(rt, pool, 0, count)?;
    keep_first_ones(pool, 0)?;
    holds(rt, pool.len() == count, "once");
    first_ones_follow(rt, pool, 0, count)
}

/// Asserts that equal lists make one state, and different lists two.
fn are_told_apart(rt: &(impl Abort + AllocGlobal), lists: &[&[u64]]) -> Result<(), Fail> {
    pairs_are_told_apart(rt, lists)?;
    let mut pool = twice(rt.alloc(), lists)?;
    are_twice(rt, &mut pool, lists.len())
}

/// Each list has the messages that a state owes, in their order. No two of these are the same state.
#[test]
fn what_is_owed_tells_states_apart(rt: HostRuntime) -> Result<(), Fail> {
    let lists: [&[u64]; 9] = [
        &[],
        &[1],
        &[1, 1],
        &[1, 1, 1, 2],
        &[1, 1, 2],
        &[1, 1, 2, 1],
        &[1, 2],
        &[1, 2, 1],
        &[2],
    ];
    are_told_apart(&rt, &lists)
}

/// Lists with the same debts in another order have the same sum, so that only a comparison of the lists tells their states apart.
#[test]
fn the_same_debts_compare_as_lists(rt: HostRuntime) -> Result<(), Fail> {
    let lists: [&[u64]; 6] = [
        &[1, 1, 2, 3],
        &[1, 1, 3, 2],
        &[1, 2, 1, 3],
        &[1, 3, 1, 2],
        &[2, 1, 1, 3],
        &[3, 2, 1, 1],
    ];
    are_told_apart(&rt, &lists)
}

/// The messages that the states owe, one state after another: one for each run of equal debts.
fn owed_in_turn<P: Phase>(alloc: Global, pool: &Pool<P>) -> Result<Vec<u64>, Fail> {
    let mut messages = Vec::new(alloc);
    for state in &states_of(alloc, pool)? {
        for run in &state.owes {
            messages.push(run.debt.message)?;
        }
    }
    Ok(messages)
}

/// Asserts that the messages are those that are wanted.
fn are_equal(rt: &impl Abort, messages: &[u64], wants: &[u64]) {
    assert_eq!(rt; messages, wants);
}

/// Asserts that the states, one after another, owe these messages.
fn owe<P: Phase>(
    rt: &(impl Abort + AllocGlobal),
    pool: &Pool<P>,
    messages: &[u64],
) -> Result<(), Fail> {
    let owed = owed_in_turn(rt.alloc(), pool)?;
    are_equal(rt, &owed, messages);
    Ok(())
}

/// A state that owes the message 1, and one of the same phase that owes nothing.
#[test]
fn a_state_is_at_rest_in_its_phase_where_it_owes_nothing(rt: HostRuntime) -> Result<(), Fail> {
    let mut pool = pool_of(rt.alloc(), &[&[1], &[]])?;
    second_rests(&rt, &mut pool);
    Ok(())
}

/// Asserts that of two states the second alone is at rest, until it is made a copy of the first.
fn second_rests(rt: &impl Abort, pool: &mut Pool<PlainServerPhase>) {
    holds(rt, pool.len() == 2, "two states");
    let phase = pool.phase(1);
    holds(rt, !pool.is_at_rest(0, phase), "the first");
    holds(rt, pool.is_at_rest(1, phase), "the second");
    let is_idle = pool.is_at_rest(1, PlainServerPhase::Idle);
    holds(rt, !is_idle, "the second in another phase");
    pool.copy(0, 1);
    holds(rt, pool.len() == 2, "two states still");
    holds(rt, !pool.is_at_rest(1, phase), "the copy");
}

/// Leaves the last two of four states, after the fourth was made a copy of the first.
fn keep_two(
    rt: &(impl Abort + AllocGlobal),
    pool: &mut Pool<PlainServerPhase>,
) -> Result<(), Fail> {
    holds(rt, pool.len() == 4, "four states");
    pool.copy(0, 3);
    owe(rt, pool, &[1, 2, 3, 1])?;
    let rows = indices(rt.alloc(), 2, pool.len())?;
    pool.keep(&rows);
    // Neither `fit` nor `tidy`, which give memory back, changes what a state owes.
    pool.fit();
    pool.tidy();
    owe(rt, pool, &[3, 1])
}

/// Adds a state to two, and takes the states away again.
fn come_and_go(
    rt: &(impl Abort + AllocGlobal),
    pool: &mut Pool<PlainServerPhase>,
) -> Result<(), Fail> {
    pool.push(PlainServerPhase::Idle)?;
    holds(rt, pool.len() == 3, "three states");
    let is_idle = pool.is_at_rest(2, PlainServerPhase::Idle);
    holds(rt, is_idle, "the third");
    pool.truncate(1);
    pool.tidy();
    owe(rt, pool, &[3])?;
    pool.truncate(0);
    holds(rt, pool.is_empty(), "no state");
    Ok(())
}

/// Four states of one phase, of which the first three owe one message each.
#[test]
fn states_come_and_go(rt: HostRuntime) -> Result<(), Fail> {
    let mut pool = pool_of(rt.alloc(), &[&[1], &[2], &[3], &[]])?;
    keep_two(&rt, &mut pool)?;
    come_and_go(&rt, &mut pool)
}

/// Lets the first state take the event. Where memory is refused, the states may take the event again.
fn first_takes<M: Machine>(
    machine: &M,
    book: &Book,
    pool: &mut Pool<M::Phase>,
    event: &Event,
) -> Result<(), AllocError>
    requires some { 0 < length pool.old }
    requires fits { FitsBook book.now event.now }
    requires known { All (Knows M.names book.now) pool.old }
    requires in_range { All M.in_range pool.old }
    ensures known { OnErr result (All (Knows M.names book.now) pool.new) }
    ensures in_range { OnErr result (All M.in_range pool.new) }
{
    machine.successors(book, pool, 0, event)?;
    Ok(())
}

/// What the five states owe after the first of three states took its event.
/// The three states owe 1, 2 and 1; 3; and nothing. The message 1 is sent: it is a new response, after which 1, 2 and 1 are owed as before, or it
/// pays the first debt, after which 2 and 1 are.
static OWED_THEN: [u64; 9] = [1, 2, 1, 3, 1, 2, 1, 2, 1];

/// Asserts that there are five states, which owe `OWED_THEN`.
fn are_five<P: Phase>(rt: &(impl Abort + AllocGlobal), pool: &Pool<P>) -> Result<(), Fail> {
    holds(rt, pool.len() == 5, "five states");
    owe(rt, pool, &OWED_THEN)
}

/// Asserts that the states of the pool are those that were there before.
fn are_as_before<P: Phase>(
    rt: &(impl Abort + AllocGlobal),
    pool: &Pool<P>,
    before: &[State<P>],
) -> Result<(), Fail> {
    let states = states_of(rt.alloc(), pool)?;
    holds(rt, are_same(&states, before), "as before");
    Ok(())
}

/// Lets the first state take the event. Where memory is refused, it asserts that the states are as before, and that the event is taken
/// with memory. Returns the refusal, if there was one.
fn first_takes_again<M: Machine>(
    rt: &(impl Abort + AllocGlobal),
    machine: &M,
    book: &Book,
    pool: &mut Pool<M::Phase>,
    event: &Event,
) -> Result<Option<AllocError>, Fail>
    requires some { 0 < length pool.old }
    requires fits { FitsBook book.now event.now }
    requires known { All (Knows M.names book.now) pool.old }
    requires in_range { All M.in_range pool.old }
{
    let before = states_of(rt.alloc(), pool)?;
    let Err(error) = first_takes(machine, book, pool, event) else {
        return Ok(None);
    };
    are_as_before(rt, pool, &before)?;
    holds(rt, pool.len() > 0, "states still");
    first_takes(machine, book, pool, event)?;
    Ok(Some(error))
}

/// Asserts that the first of three states takes an event that leads to two more. Where memory is refused, it asserts that the states
/// are as before, and that the event is taken with memory.
fn goes_on<M: Machine>(
    rt: &(impl Abort + AllocGlobal),
    machine: &M,
    book: &Book,
    pool: &mut Pool<M::Phase>,
    event: &Event,
) -> Result<(), Fail>
    requires fits { FitsBook book.now event.now }
    requires known { All (Knows M.names book.now) pool.old }
    requires in_range { All M.in_range pool.old }
{
    holds(rt, pool.len() == 3, "three states");
    let refused = first_takes_again(rt, machine, book, pool, event)?;
    are_five(rt, pool)?;
    match refused {
        Some(error) => Err(error.into()),
        None => Ok(()),
    }
}

/// Puts three states into the pool, of which the first takes an event that leads to two more.
fn three_go_on<M: Machine>(
    rt: &(impl Abort + AllocGlobal),
    machine: &M,
    book: &Book,
    pool: &mut Pool<M::Phase>,
) -> Result<(), Fail>
    requires known { All (Knows M.names book.now) pool.old }
    requires in_range { All M.in_range pool.old }
{
    push_each(rt.alloc(), machine, book, pool, &[&[1, 2, 1], &[3], &[]])?;
    let event = event_of(rt.alloc(), book, 20, Action::Sent, 1)?;
    goes_on(rt, machine, book, pool, &event)
}

/// The first of three states takes an event that leads to two more. `tests/growths` refuses each growth in turn. The test then fails
/// for want of memory, once it has seen that the states are as before, and that the same call succeeds with memory.
#[test]
fn a_pool_goes_on_after_a_refused_growth(rt: HostRuntime) -> Result<(), Fail> {
    let server = server()?;
    let book = book(rt.alloc())?;
    let mut pool = Pool::new(rt.alloc());
    three_go_on(&rt, &server, &book, &mut pool)
}

/// Asserts that the request of the first of two states comes again, which leads to a third state with one debt more. Where memory is
/// refused, it asserts that the states are as before, and that the request is taken with memory.
fn gains_again<M: Machine>(
    rt: &(impl Abort + AllocGlobal),
    machine: &M,
    book: &Book,
    pool: &mut Pool<M::Phase>,
    event: &Event,
) -> Result<(), Fail>
    requires fits { FitsBook book.now event.now }
    requires known { All (Knows M.names book.now) pool.old }
    requires in_range { All M.in_range pool.old }
{
    holds(rt, pool.len() == 2, "two states");
    let refused = first_takes_again(rt, machine, book, pool, event)?;
    // The first state owes four messages and the second none, as before; the third owes the same four and the last response once more.
    owe(rt, pool, &[1, 2, 3, 1, 1, 2, 3, 1, LAST])?;
    match refused {
        Some(error) => Err(error.into()),
        None => Ok(()),
    }
}

/// Puts two states into the pool, of which the first owes four messages, and gains a fifth.
fn two_gain<M: Machine>(
    rt: &(impl Abort + AllocGlobal),
    machine: &M,
    book: &Book,
    pool: &mut Pool<M::Phase>,
) -> Result<(), Fail>
    requires known { All (Knows M.names book.now) pool.old }
    requires in_range { All M.in_range pool.old }
{
    push_each(rt.alloc(), machine, book, pool, &[&[1, 2, 3, 1], &[]])?;
    let event = event_of(rt.alloc(), book, 20, Action::Received, REQUEST)?;
    gains_again(rt, machine, book, pool, &event)
}

/// The first of two states owes four messages, and comes to owe a fifth, for which there is no room yet.
#[test]
fn a_debt_comes_after_a_refused_growth(rt: HostRuntime) -> Result<(), Fail> {
    let server = server()?;
    let book = book(rt.alloc())?;
    let mut pool = Pool::new(rt.alloc());
    two_gain(&rt, &server, &book, &mut pool)
}
