//! Which messages the sets of tables name, and how long they wait. An INVITE server names the response that it sent last.
ghost use Rattle.std.specs.Prelude.{◌≡◌, ◌≤◌, [], All, IfOk};
ghost use Rattle.sip_states.specs.AnySet.{moment_of};

use crate::agenda::{Folded, empty, give, put};
use crate::keys::{key, touch};
use crate::played::{BUSY, Entry, INVITE, OK, PROGRESS, RINGING, book};
use crate::wants::{is, is_at};
use sip_machine::{Action, Book};
use std::alloc::{AllocError, Global};
use std::process::Abort;
use std::test::Fail;

/// INVITE servers, each by the number that its transaction has in `keys.rt`, and the entries that it takes.
static SERVED: &[(u64, &[Entry])] = &[
    (
        2,
        &[(0, Action::Received, INVITE), (100, Action::Sent, BUSY)],
    ),
    (
        6,
        &[
            (0, Action::Received, INVITE),
            (50, Action::Sent, PROGRESS),
            (100, Action::Sent, RINGING),
        ],
    ),
    (10, &[(100, Action::Received, INVITE)]),
    (
        14,
        &[(0, Action::Received, INVITE), (50, Action::Sent, RINGING)],
    ),
];

/// Touches the key of an INVITE server, and gives it a set that has taken the entries.
fn serve(
    alloc: Global,
    tables: &mut Folded,
    book: &Book,
    server: u64,
    entries: &[Entry],
) -> Result<(), Fail> {
    let number = touch(alloc, tables, server)??;
    put(alloc, tables, book, number, entries)
}

/// Touches the keys of four INVITE servers. Two of them have sent a 180 last, one a 486, and one has sent nothing.
fn serve_all(alloc: Global, tables: &mut Folded) -> Result<(), Fail> {
    let book = book(alloc)?;
    for &(server, entries) in SERVED {
        serve(alloc, tables, &book, server, entries)?;
    }
    Ok(())
}

/// Appends the numbers that the tables name to a list that has a 9, again where memory was refused. It asserts that a refused call appends none, and
/// returns its answer.
fn append_again(
    rt: &impl Abort,
    tables: &Folded,
    numbers: &mut Vec<u64>,
) -> Result<(), AllocError> {
    numbers.push(9)?;
    let named = tables.named(numbers);
    if named.is_err() {
        is(rt, numbers.as_slice(), [9].as_slice(), "none is appended");
        tables.named(numbers)?;
    }
    is(
        rt,
        numbers.as_slice(),
        [9, 2, 4].as_slice(),
        "all are appended",
    );
    named
}

/// Asserts that the tables of the four servers name the messages 2 and 4.
fn name_again(rt: &(impl Abort + AllocGlobal), tables: &mut Folded) -> Result<(), Fail> {
    serve_all(rt.alloc(), tables)?;
    let mut numbers = Vec::new(rt.alloc());
    Ok(append_again(rt, tables, &mut numbers)?)
}

/// The servers name the 180, which has the number 2, and the 486, which has 4. Their numbers are appended, ascending and each once, and
/// at a second call where memory was refused.
#[test]
fn names_go_on_after_a_refused_growth(rt: HostRuntime) -> Result<(), Fail> {
    let mut tables = empty(rt.alloc())?;
    name_again(&rt, &mut tables)
}

/// Adds an INVITE server that has taken the entries to empty tables, and returns the moment of the last one.
fn serve_alone(
    alloc: Global,
    tables: &mut Folded,
    book: &Book,
    entries: &[Entry],
) -> Result<u64, Fail>
    requires keys { tables.old.keys ≡ [] }
    requires sets { tables.old.sets ≡ [] }
    ensures { IfOk result (λ last. All (λ set. moment_of set ≤ last) tables.new.sets) }
{
    let key = key(alloc, 2)?;
    let number = tables.touch(key)?;
    give(alloc, tables.set_mut(number), book, entries)
}

/// Lets the sets wait until the moment, and again where memory was refused. Returns the first answer.
fn wait_again(tables: &mut Folded, moment: u64) -> Result<Result<(), AllocError>, AllocError>
    requires { All (λ set. moment_of set ≤ moment) tables.old.sets }
{
    match tables.advance_all(moment) {
        Ok(()) => Ok(Ok(())),
        Err(refused) => {
            tables.advance_all(moment)?;
            Ok(Err(refused))
        }
    }
}

/// A row: the entries of the set, the moment until which it waits then, and the numbers of the messages that it names there.
type Row = (&'static [Entry], u64, &'static [u64]);

/// The message 4 is the 486, and 2 the 180.
static ROWS: &[Row] = &[
    // Up to 650 the 486 may be sent again, and so is named. From 651 on the set has no run.
    (
        &[(0, Action::Received, INVITE), (100, Action::Sent, BUSY)],
        650,
        &[4],
    ),
    (
        &[(0, Action::Received, INVITE), (100, Action::Sent, BUSY)],
        651,
        &[],
    ),
    // A 180 is named for ever, since the INVITE may come again.
    (
        &[(0, Action::Received, INVITE), (100, Action::Sent, RINGING)],
        1_000_000,
        &[2],
    ),
    // Neither a 2xx nor an INVITE without a response is named.
    (
        &[(0, Action::Received, INVITE), (100, Action::Sent, OK)],
        100,
        &[],
    ),
    (&[(0, Action::Received, INVITE)], 250, &[]),
];

/// Asserts that the tables name the messages of the row with this number, and no other.
fn are_named(
    rt: &(impl Abort + AllocGlobal),
    tables: &Folded,
    number: usize,
    row: &Row,
) -> Result<(), AllocError> {
    let mut numbers = Vec::new(rt.alloc());
    tables.named(&mut numbers)?;
    is_at(rt, numbers.as_slice(), row.2, number, row.1);
    Ok(())
}

/// Lets the set of the row with this number wait, asserts which messages it names then, and returns the first answer.
fn waits_again(
    rt: &(impl Abort + AllocGlobal),
    tables: &mut Folded,
    book: &Book,
    number: usize,
    row: &Row,
) -> Result<(), Fail>
    requires keys { tables.old.keys ≡ [] }
    requires sets { tables.old.sets ≡ [] }
{
    let last = serve_alone(rt.alloc(), tables, book, row.0)?;
    if row.1 < last {
        return Err("not in order".into());
    }
    let waited = wait_again(tables, row.1)?;
    are_named(rt, tables, number, row)?;
    Ok(waited?)
}

/// Does the same as `waits_again`, with new tables.
fn waits_in_new(
    rt: &(impl Abort + AllocGlobal),
    book: &Book,
    number: usize,
    row: &Row,
) -> Result<(), Fail> {
    let mut tables = empty(rt.alloc())?;
    waits_again(rt, &mut tables, book, number, row)
}

/// After a 486 at 100 that was not sent again by 650 no run is left. A 180 has no last moment, and a 200 is not named.
#[test]
fn sets_wait_after_a_refused_growth(rt: HostRuntime) -> Result<(), Fail> {
    let book = book(rt.alloc())?;
    for (number, row) in ROWS.iter().enumerate() {
        waits_in_new(&rt, &book, number, row)?;
    }
    Ok(())
}

/// Asserts that all four servers take the next restart too, and that the messages that they name are still named.
fn stay_marked(rt: &(impl Abort + AllocGlobal), tables: &Folded) -> Result<(), Fail> {
    let mut numbers = Vec::new(rt.alloc());
    tables.named(&mut numbers)?;
    is(rt, numbers.as_slice(), [2, 4].as_slice(), "the names");
    is(
        rt,
        tables.to_restart()?.len(),
        4,
        "those that take the next",
    );
    Ok(())
}

/// Servers that have begun and not ended are not quiet, even where they can stay as they are for ever.
#[test]
fn busy_sets_take_the_next_restart(rt: HostRuntime) -> Result<(), Fail> {
    let mut tables = empty(rt.alloc())?;
    serve_all(rt.alloc(), &mut tables)?;
    tables.restarted();
    stay_marked(&rt, &tables)
}
