//! Sets and tables go on after a refused growth. `tests/growths` refuses each growth in turn. The test then fails for want of memory, once
//! it has seen that the call left everything as it was, and that the same call succeeds with memory.
ghost use Rattle.std.specs.Prelude.{◌≡◌, ◌<◌, ◌≤◌, All, IfOk, OnOk, length};
ghost use Rattle.sip_machine.specs.Rules.{Knows};
ghost use Rattle.sip_machine.specs.Owing.{owing_names};
ghost use Rattle.sip_phases.specs.inner.InviteServer.{invite_server_names};

use crate::agenda::{Folded, empty, put, settle};
use crate::keys::touch;
use crate::played::{BUSY, Entry, INVITE, OK, RINGING, book, invite, take};
use crate::wants::{holds, is};
use sip_machine::{Action, Book, InviteServer, InviteServerPhase, Params, Pool};
use sip_states::{StateSet, TakeError};
use std::alloc::{AllocError, Global};
use std::process::Abort;
use std::test::Fail;

/// Whether the two pools have the same state at the index.
fn is_same(
    alloc: Global,
    states: &Pool<InviteServerPhase>,
    others: &Pool<InviteServerPhase>,
    at: usize,
) -> Result<bool, AllocError>
    requires of_states { at < length states.now }
    requires of_others { at < length others.now }
{
    let owed = states.runs(alloc, at)?;
    let owes = others.runs(alloc, at)?;
    Ok(states.phase(at) == others.phase(at) && owed.as_slice() == owes.as_slice())
}

/// Whether both sets have the same states, one by one.
fn are_same(
    alloc: Global,
    set: &StateSet<InviteServer>,
    twin: &StateSet<InviteServer>,
) -> Result<bool, AllocError> {
    let states = set.states();
    let others = twin.states();
    if states.len() != others.len() {
        return Ok(false);
    }
    for at in 0..states.len() {
        if !is_same(alloc, states, others, at)? {
            return Ok(false);
        }
    }
    Ok(true)
}

/// Asserts that both sets have the same states, one by one, as these words say.
fn are_alike(
    rt: &(impl Abort + AllocGlobal),
    set: &StateSet<InviteServer>,
    twin: &StateSet<InviteServer>,
    words: &str,
) -> Result<(), Fail> {
    let are_so = are_same(rt.alloc(), set, twin)?;
    holds(rt, are_so, words);
    Ok(())
}

/// Lets the set and its twin take the entry. Where memory was refused, it asserts that the set is as before, takes the entry again, and
/// asserts that both have the same states.
fn take_again(
    rt: &(impl Abort + AllocGlobal),
    set: &mut StateSet<InviteServer>,
    twin: &mut StateSet<InviteServer>,
    book: &Book,
    entry: Entry,
) -> Result<(), Fail>
    requires order { set.old.moment ≤ entry.0 }
    requires order_of_twin { twin.old.moment ≤ entry.0 }
    requires known { All (Knows (owing_names invite_server_names) book.now) set.old.states }
    requires known_of_twin { All (Knows (owing_names invite_server_names) book.now) twin.old.states }
    ensures order { OnOk result (set.new.moment ≤ entry.0) }
    ensures order_of_twin { OnOk result (twin.new.moment ≤ entry.0) }
    ensures known { OnOk result (All (Knows (owing_names invite_server_names) book.now) set.new.states) }
    ensures known_of_twin { OnOk result (All (Knows (owing_names invite_server_names) book.now) twin.new.states) }
{
    let alloc = rt.alloc();
    if let Err(error) = take(alloc, set, book, entry)? {
        is(rt, error, TakeError::Memory, "a refused growth");
        take_both(rt, set, twin, book, entry)?;
        return Err(error.into());
    }
    take(alloc, twin, book, entry)??;
    Ok(())
}

/// Lets the set, which a refused growth has left as its twin is, take the entry, and then the twin. It asserts that both have the same states
/// before and after it.
fn take_both(
    rt: &(impl Abort + AllocGlobal),
    set: &mut StateSet<InviteServer>,
    twin: &mut StateSet<InviteServer>,
    book: &Book,
    entry: Entry,
) -> Result<(), Fail>
    requires order { set.old.moment ≤ entry.0 }
    requires order_of_twin { twin.old.moment ≤ entry.0 }
    requires known { All (Knows (owing_names invite_server_names) book.now) set.old.states }
    requires known_of_twin { All (Knows (owing_names invite_server_names) book.now) twin.old.states }
{
    let alloc = rt.alloc();
    are_alike(rt, set, twin, "the set is as it was")?;
    take(alloc, set, book, entry)??;
    take(alloc, twin, book, entry)??;
    are_alike(rt, set, twin, "both took it")
}

/// Lets the set and its twin take each of the entries, with `take_again`. Returns the moment of the last one.
fn take_each_again(
    rt: &(impl Abort + AllocGlobal),
    set: &mut StateSet<InviteServer>,
    twin: &mut StateSet<InviteServer>,
    book: &Book,
    entries: &[Entry],
) -> Result<u64, Fail>
    requires start { set.old.moment ≡ 0 }
    requires start_of_twin { twin.old.moment ≡ 0 }
    requires known { All (Knows (owing_names invite_server_names) book.now) set.old.states }
    requires known_of_twin { All (Knows (owing_names invite_server_names) book.now) twin.old.states }
    ensures order { IfOk result (λ last. set.new.moment ≤ last) }
    ensures order_of_twin { IfOk result (λ last. twin.new.moment ≤ last) }
{
    let mut last = 0;
    for entry in entries {
        if entry.0 < last {
            return Err("not in order".into());
        }
        take_again(rt, set, twin, book, *entry)?;
        last = entry.0;
    }
    Ok(last)
}

/// Lets the set and its twin wait until the moment, the set a second time where memory was refused. It asserts that both have the same
/// states, and how many they are.
fn advance_again(
    rt: &(impl Abort + AllocGlobal),
    set: &mut StateSet<InviteServer>,
    twin: &mut StateSet<InviteServer>,
    moment: u64,
    count: usize,
) -> Result<(), Fail>
    requires order { set.old.moment ≤ moment }
    requires order_of_twin { twin.old.moment ≤ moment }
    ensures order { OnOk result (set.new.moment ≤ moment) }
    ensures order_of_twin { OnOk result (twin.new.moment ≤ moment) }
{
    let waited = set.advance(moment);
    if waited.is_err() {
        are_alike(rt, set, twin, "the set is as it was")?;
        set.advance(moment)?;
    }
    is(
        rt,
        (moment, set.states().len()),
        (moment, count),
        "how many states are left",
    );
    twin.advance(moment)?;
    are_alike(rt, set, twin, "both waited")?;
    Ok(waited?)
}

/// Lets the set and its twin wait until each of the moments, with `advance_again`, after each of which they have `count` states.
fn advance_each_again(
    rt: &(impl Abort + AllocGlobal),
    set: &mut StateSet<InviteServer>,
    twin: &mut StateSet<InviteServer>,
    from: u64,
    waits: &[(u64, usize)],
) -> Result<(), Fail>
    requires order { set.old.moment ≤ from }
    requires order_of_twin { twin.old.moment ≤ from }
{
    let mut last = from;
    for &(moment, count) in waits {
        if moment < last {
            return Err("not in order".into());
        }
        advance_again(rt, set, twin, moment, count)?;
        last = moment;
    }
    Ok(())
}

/// Lets a set and its twin take the entries and wait until each of the moments, again where memory is refused.
fn play_both_again(
    rt: &(impl Abort + AllocGlobal),
    set: &mut StateSet<InviteServer>,
    twin: &mut StateSet<InviteServer>,
    book: &Book,
    entries: &[Entry],
    waits: &[(u64, usize)],
) -> Result<(), Fail>
    requires start { set.old.moment ≡ 0 }
    requires start_of_twin { twin.old.moment ≡ 0 }
    requires known { All (Knows (owing_names invite_server_names) book.now) set.old.states }
    requires known_of_twin { All (Knows (owing_names invite_server_names) book.now) twin.old.states }
{
    let last = take_each_again(rt, set, twin, book, entries)?;
    advance_each_again(rt, set, twin, last, waits)
}

/// Lets two new sets take the entries and wait until each of the moments, again where memory is refused.
fn play_again(
    rt: &(impl Abort + AllocGlobal),
    book: &Book,
    entries: &[Entry],
    waits: &[(u64, usize)],
) -> Result<(), Fail> {
    let params = Params::new(500, 4_000, 5_000, 50).ok_or("refused")?;
    let mut set = StateSet::start(rt.alloc(), InviteServer::new(params))?;
    let mut twin = StateSet::start(rt.alloc(), InviteServer::new(params))?;
    play_both_again(rt, &mut set, &mut twin, book, entries, waits)
}

/// The server receives an INVITE, sends a 180, receives the INVITE twice more, sends the 180 four times, of which each may pay for a repeat or be a new
/// one, sends a 486, and the 180 once more.
static SENDS: &[Entry] = &[
    (0, Action::Received, INVITE),
    (1, Action::Sent, RINGING),
    (2, Action::Received, INVITE),
    (3, Action::Received, INVITE),
    (4, Action::Sent, RINGING),
    (5, Action::Sent, RINGING),
    (6, Action::Sent, RINGING),
    (7, Action::Sent, RINGING),
    (8, Action::Sent, BUSY),
    (9, Action::Sent, RINGING),
];

/// A set that takes `SENDS`, each again where memory was refused.
#[test]
fn a_set_goes_on_after_a_refused_growth(rt: HostRuntime) -> Result<(), Fail> {
    play_again(&rt, &book(rt.alloc())?, SENDS, &[])
}

/// The INVITE comes again just before the 486 is sent once more.
static REPEAT: &[Entry] = &[
    (0, Action::Received, INVITE),
    (0, Action::Sent, BUSY),
    (480, Action::Received, INVITE),
    (490, Action::Sent, BUSY),
];

/// The 486 at 490 answers the repeat of the INVITE, and then timer G still fires by 550; or it is that of timer G, which then fires by 1,540: the set has a
/// state for each.
#[test]
fn a_repeat_goes_on_after_a_refused_growth(rt: HostRuntime) -> Result<(), Fail> {
    play_again(
        &rt,
        &book(rt.alloc())?,
        REPEAT,
        &[(550, 2), (551, 1), (1_541, 0)],
    )
}

/// An INVITE and its 200.
static ACCEPTED: &[Entry] = &[(0, Action::Received, INVITE), (0, Action::Sent, OK)];

/// After the 200 timer L ends the transaction between 31950 and 32050.
#[test]
fn a_wait_goes_on_after_a_refused_growth(rt: HostRuntime) -> Result<(), Fail> {
    play_again(
        &rt,
        &book(rt.alloc())?,
        ACCEPTED,
        &[(31_949, 1), (31_950, 2), (32_051, 1)],
    )
}

/// Touches the key, and again where memory was refused. It asserts that a refused call leaves the tables as they were.
fn touch_again(
    rt: &(impl Abort + AllocGlobal),
    tables: &mut Folded,
    number: u64,
) -> Result<(), Fail> {
    let before = tables.len();
    let due = tables.due(u64::MAX);
    let touched = touch(rt.alloc(), tables, number)?;
    if touched.is_err() {
        is(rt, tables.len(), before, "the keys are as they were");
        // At the last of all moments the least number with a last moment on record is due.
        is(rt, tables.due(u64::MAX), due, "no other key is due");
        is(
            rt,
            touch(rt.alloc(), tables, number)??,
            number,
            "the key as it is touched again",
        );
    }
    is(rt, touched?, number, "the key as it is touched");
    Ok(())
}

/// Touches five keys, each again where memory was refused.
fn touch_five_again(rt: &(impl Abort + AllocGlobal), tables: &mut Folded) -> Result<(), Fail> {
    for number in 1..6 {
        touch_again(rt, tables, number)?;
    }
    Ok(())
}

/// Five new keys, each touched again where memory was refused.
#[test]
fn tables_go_on_after_a_refused_growth(rt: HostRuntime) -> Result<(), Fail> {
    let mut tables = empty(rt.alloc())?;
    touch_five_again(&rt, &mut tables)
}

/// Settles the key, and again where memory was refused. It asserts that no key is due at the moment before the key is settled, and that
/// this one is due then.
fn settle_again(
    rt: &impl Abort,
    tables: &mut Folded,
    number: u64,
    moment: u64,
) -> Result<(), Fail> {
    is(rt, tables.due(moment), None, "before it is settled");
    let settled = settle(tables, number)?;
    if settled.is_err() {
        is(rt, tables.due(moment), None, "as a growth was refused");
        settle(tables, number)??;
    }
    is(rt, tables.due(moment), Some(number), "once it is settled");
    Ok(settled?)
}

/// The numbers of the keys, and the moments of their INVITEs, each of which comes 100 ms before that of the key before it.
static INVITES: &[(u64, u64)] = &[(1, 300), (2, 200), (3, 100), (1, 0)];

/// Gives each key its INVITE, which waits 250 ms for its first response, and settles the key.
fn settle_each_again(rt: &(impl Abort + AllocGlobal), tables: &mut Folded) -> Result<(), Fail> {
    let book = book(rt.alloc())?;
    for &(number, moment) in INVITES {
        settle_invite_again(rt, tables, &book, number, moment)?;
    }
    Ok(())
}

/// Gives the key its INVITE of this moment, and settles the key.
fn settle_invite_again(
    rt: &(impl Abort + AllocGlobal),
    tables: &mut Folded,
    book: &Book,
    number: u64,
    moment: u64,
) -> Result<(), Fail> {
    touch_again(rt, tables, number)?;
    put(rt.alloc(), tables, book, number, &[invite(moment)])?;
    settle_again(rt, tables, number, moment.saturating_add(251))
}

/// Keys are settled one after another, the first one twice, each again where memory was refused.
#[test]
fn an_agenda_goes_on_after_a_refused_growth(rt: HostRuntime) -> Result<(), Fail> {
    let mut tables = empty(rt.alloc())?;
    settle_each_again(&rt, &mut tables)
}
