//! Which key is due, worked out by hand for T1 500, T2 4000, T4 5000 and a tolerance of 50. An INVITE at m waits for its first
//! response until m + 250, and a 486 at m is sent again by m + 550. After a 180 or a 200 there is no last moment.
ghost use Rattle.std.specs.Prelude.{◌≡◌, ◌≤◌, [], IfOk};
ghost use Rattle.sip_states.specs.AnySet.{moment_of};

use crate::keys::touch;
use crate::played::{BUSY, Entry, INVITE, OK, RINGING, book, served};
use crate::rows::LATE;
use crate::wants::{is, is_at};
use sip_machine::{Action, Book, InviteServer, Params};
use sip_states::{AnySet, StateSet, Tables};
use std::alloc::{AllocError, Global};
use std::hash::{BuildHasherDefault, FoldHasher};
use std::process::Abort;
use std::test::Fail;

/// Tables that use the hasher of std.
pub(crate) type Folded = Tables<BuildHasherDefault<FoldHasher>>;

/// Empty tables.
pub(crate) fn empty(alloc: Global) -> Result<Folded, Fail>
    ensures { IfOk result (λ tables. (tables.keys ≡ []) × (tables.sets ≡ [])) }
{
    let params = Params::new(500, 4_000, 5_000, 50).ok_or("refused")?;
    Ok(Tables::new(alloc, params, BuildHasherDefault::<FoldHasher>::new()))
}

/// Puts the set into the place.
fn lay(place: &mut AnySet, set: StateSet<InviteServer>)
    ensures { moment_of place.new ≡ set.moment }
{
    *place = AnySet::InviteServer(set);
}

/// Gives the place a set that has taken the entries, and returns the moment of the last one.
pub(crate) fn give(
    alloc: Global,
    place: &mut AnySet,
    book: &Book,
    entries: &[Entry],
) -> Result<u64, Fail>
    ensures { IfOk result (λ last. moment_of place.new ≤ last) }
{
    let (set, last) = served(alloc, book, entries)?;
    lay(place, set);
    Ok(last)
}

/// Gives the key with this number a set that has taken the entries.
pub(crate) fn put(
    alloc: Global,
    tables: &mut Folded,
    book: &Book,
    number: u64,
    entries: &[Entry],
) -> Result<(), Fail> {
    if number == 0 || number > tables.len() {
        return Err("not given".into());
    }
    give(alloc, tables.set_mut(number), book, entries)?;
    Ok(())
}

/// Settles the key with this number, and returns what the tables answer. It fails where the set of the key has no state.
pub(crate) fn settle(tables: &mut Folded, number: u64) -> Result<Result<(), AllocError>, Fail> {
    if number == 0 || number > tables.len() {
        return Err("not given".into());
    }
    if tables.set(number).is_empty() {
        return Err("no state".into());
    }
    Ok(tables.settle(number))
}

/// The transactions of `keys.rt`, by their numbers there, whose machine is the INVITE server.
const SERVERS: [u64; 4] = [2, 6, 10, 14];

/// Touches the keys of the servers, which get the numbers from 1 on.
fn touch_servers(rt: &(impl Abort + AllocGlobal), tables: &mut Folded) -> Result<(), Fail> {
    for server in SERVERS {
        let number = touch(rt.alloc(), tables, server)??;
        is(rt, number, tables.len(), "a server's number");
    }
    Ok(())
}

/// A row: the number of a key, the entries of its set, which is settled, and for some moments which key is due then: one whose last moment is below.
type Row = (u64, &'static [Entry], &'static [(u64, Option<u64>)]);

/// The rows are taken one after another by the same tables: a key keeps its last moment until a later row gives it another set.
static ROWS: &[Row] = &[
    // The key 3 has an INVITE at 0 to answer by 250, so it is due from 251 on.
    (
        3,
        &[(0, Action::Received, INVITE)],
        &[(250, None), (251, Some(3)), (u64::MAX, Some(3))],
    ),
    // The key with the least number is due, even where another key has the earliest last moment.
    (
        2,
        &[(100, Action::Received, INVITE)],
        &[(250, None), (251, Some(3)), (350, Some(3)), (351, Some(2))],
    ),
    (
        1,
        &[(0, Action::Received, INVITE), (100, Action::Sent, BUSY)],
        &[(351, Some(2)), (650, Some(2)), (651, Some(1))],
    ),
    // A later last moment replaces the older one.
    (
        3,
        &[(0, Action::Received, INVITE), (100, Action::Sent, BUSY)],
        &[(251, None), (350, None), (351, Some(2)), (651, Some(1))],
    ),
    (
        1,
        &[(0, Action::Received, INVITE), (100, Action::Sent, RINGING)],
        &[(350, None), (351, Some(2)), (u64::MAX, Some(2))],
    ),
    (
        2,
        &[(0, Action::Received, INVITE), (100, Action::Sent, OK)],
        &[(650, None), (651, Some(3)), (u64::MAX, Some(3))],
    ),
    // A key that is settled with the same last moment stays as it is.
    (
        3,
        &[(0, Action::Received, INVITE), (100, Action::Sent, BUSY)],
        &[(650, None), (651, Some(3))],
    ),
    (
        3,
        &[
            (0, Action::Received, INVITE),
            (0, Action::Sent, BUSY),
            // Of the two states of this set, which last until 550 and until 1,540, the later last moment counts.
            (480, Action::Received, INVITE),
            (490, Action::Sent, BUSY),
        ],
        &[(1_540, None), (1_541, Some(3))],
    ),
    (
        3,
        // After its 200 no key has a last moment: the key 1 has a 180, and the key 2 a 200 as well.
        &[(0, Action::Received, INVITE), (0, Action::Sent, OK)],
        &[(u64::MAX, None)],
    ),
    (
        1,
        // A key without a last moment may have one again, also a moment that is later than 32 bits can count.
        &[(1_000, Action::Received, INVITE)],
        &[(1_250, None), (1_251, Some(1))],
    ),
    (
        1,
        &[(LATE, Action::Received, INVITE)],
        &[(LATE + 250, None), (LATE + 251, Some(1))],
    ),
];

/// Asserts which key is due at each moment of the row with this number.
fn are_due(rt: &impl Abort, tables: &Folded, number: usize, row: &Row) {
    for &(moment, due) in row.2 {
        is_at(rt, tables.due(moment), due, number, moment);
    }
}

/// Gives a key the set of the row with this number, settles it, and asserts which key is due at each moment of the row.
fn answers_as_settled(
    rt: &(impl Abort + AllocGlobal),
    tables: &mut Folded,
    book: &Book,
    number: usize,
    row: &Row,
) -> Result<(), Fail> {
    put(rt.alloc(), tables, book, row.0, row.1)?;
    settle(tables, row.0)??;
    are_due(rt, tables, number, row);
    Ok(())
}

/// Settles the keys of the servers as the rows say, one row after another.
fn answers_each(
    rt: &(impl Abort + AllocGlobal),
    tables: &mut Folded,
    book: &Book,
) -> Result<(), Fail> {
    for (number, row) in ROWS.iter().enumerate() {
        answers_as_settled(rt, tables, book, number, row)?;
    }
    Ok(())
}

/// Touches the keys of the servers, and settles them as the rows say.
fn answers_in_turn(rt: &(impl Abort + AllocGlobal), tables: &mut Folded) -> Result<(), Fail> {
    touch_servers(rt, tables)?;
    is(rt, tables.due(u64::MAX), None, "before any is settled");
    let book = book(rt.alloc())?;
    answers_each(rt, tables, &book)
}

/// The rows settle three keys of four, so that the fourth is never due.
#[test]
fn the_least_number_is_due(rt: HostRuntime) -> Result<(), Fail> {
    let mut tables = empty(rt.alloc())?;
    answers_in_turn(&rt, &mut tables)
}
