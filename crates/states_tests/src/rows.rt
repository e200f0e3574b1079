//! The states of INVITE servers after waits, worked out by hand for T1 500, T2 4000, T4 5000 and a tolerance of 50.
ghost use Rattle.std.specs.Prelude.{◌≤◌};

use crate::played::{BUSY, Entry, INVITE, OK, book, served};
use crate::wants::is_at;
use sip_machine::{Action, Book, InviteServer, InviteServerPhase, PlainClientPhase, Waiting};
use sip_states::StateSet;
use std::mem::size_of;
use std::process::Abort;
use std::test::Fail;

/// Lets the set of the row with this number, whose last entry is at `from`, wait until each of the moments, and asserts how many states it has then.
/// Returns the last moment.
fn are_left(
    rt: &impl Abort,
    set: &mut StateSet<InviteServer>,
    from: u64,
    number: usize,
    waits: &[(u64, usize)],
) -> Result<u64, Fail>
    requires { set.old.moment ≤ from }
{
    let mut last = from;
    for &(moment, count) in waits {
        if moment < last {
            return Err("not in order".into());
        }
        set.advance(moment)?;
        is_at(rt, set.states().len(), count, number, moment);
        last = moment;
    }
    Ok(last)
}

/// The moment at which a transaction begins, which is later than 32 bits can count.
pub(crate) const LATE: u64 = 9_000_000_000_000;

/// A row: its entries, the last moment to which one can wait after them, and how many states there are after each wait.
type Row = (&'static [Entry], Option<u64>, &'static [(u64, usize)]);

/// Logs of one transaction, each with what a set that took it does as time goes by.
static ROWS: &[Row] = &[
    // The 486 at 490 is that of timer G, or the answer to the INVITE that came again. The latter way ends after 550, since timer G fires by
    // then, and the former after 1,540.
    (
        &[
            (0, Action::Received, INVITE),
            (0, Action::Sent, BUSY),
            (480, Action::Received, INVITE),
            (490, Action::Sent, BUSY),
        ],
        Some(1_540),
        &[(490, 2), (550, 2), (551, 1), (1_541, 0)],
    ),
    // The same near the last moment that a log may have.
    (
        &[
            (LATE, Action::Received, INVITE),
            (LATE, Action::Sent, BUSY),
            (LATE + 480, Action::Received, INVITE),
            (LATE + 490, Action::Sent, BUSY),
        ],
        Some(LATE + 1_540),
        &[
            (LATE + 490, 2),
            (LATE + 550, 2),
            (LATE + 551, 1),
            (LATE + 1_541, 0),
        ],
    ),
    // The transaction of a 200 may end from 31,950 on, and has ended by 32,050. An ended one waits for ever.
    (
        &[(0, Action::Received, INVITE), (0, Action::Sent, OK)],
        None,
        &[(0, 1), (31_949, 1), (31_950, 2), (32_051, 1)],
    ),
];

/// Whether the set has no state, or the idle one alone.
fn has_idle_alone(set: &StateSet<InviteServer>) -> bool {
    let states = set.states();
    states.is_empty() || (states.len() == 1 && states.phase(0) == InviteServerPhase::Idle)
}

/// Asserts that the set, after the entries of the row with this number, waits as the row says, and ends with no state or the idle one.
fn waits_from(
    rt: &impl Abort,
    set: &mut StateSet<InviteServer>,
    from: u64,
    number: usize,
    row: &Row,
) -> Result<(), Fail>
    requires { set.old.moment ≤ from }
{
    if set.is_empty() {
        return Err("no state".into());
    }
    is_at(rt, set.last_moment(), row.1, number, from);
    let last = are_left(rt, set, from, number, row.2)?;
    is_at(rt, has_idle_alone(set), true, number, last);
    Ok(())
}

/// Asserts that a new set takes the entries of the row and waits as the row says.
fn waits_so(
    rt: &(impl Abort + AllocGlobal),
    book: &Book,
    number: usize,
    row: &Row,
) -> Result<(), Fail> {
    let (mut set, last) = served(rt.alloc(), book, row.0)?;
    waits_from(rt, &mut set, last, number, row)
}

/// Each row is taken by a new set.
#[test]
fn waits_as_timers_fire(rt: HostRuntime) -> Result<(), Fail> {
    let book = book(rt.alloc())?;
    for (number, row) in ROWS.iter().enumerate() {
        waits_so(&rt, &book, number, row)?;
    }
    Ok(())
}

/// A phase of the non-INVITE client, and a request that waits for its response, take at most 48 bytes each.
#[test]
fn states_are_small(rt: HostRuntime) {
    assert!(rt; size_of::<PlainClientPhase>() <= 48);
    assert!(rt; size_of::<Waiting>() <= 48);
}
