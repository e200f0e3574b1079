//! How many states of an INVITE server are followed.
ghost use Rattle.std.specs.Prelude.{◌≡◌, ◌≤◌, ◌+◌, ◌*◌, All, OnOk};
ghost use Rattle.sip_machine.specs.Rules.{Knows};
ghost use Rattle.sip_machine.specs.Owing.{owing_names};
ghost use Rattle.sip_phases.specs.inner.InviteServer.{invite_server_names};

use crate::played::{Entry, book, invite, progress, ringing, take};
use crate::wants::is;
use sip_machine::{Book, InviteServer, Params};
use sip_states::{StateSet, TakeError};
use std::alloc::Global;
use std::process::Abort;
use std::test::Fail;

/// The entry at this moment, one at each from 0 on: an INVITE, a 180, `repeats` repeats, a 183, 40 repeats, the 180 as often as it is
/// owed, and then the 183 at every moment.
fn entry_at(repeats: u64, moment: u64) -> Entry
    requires { repeats ≤ 40 }
    ensures { result.0 ≡ moment }
{
    // The sends begin after the INVITE, the 180, its repeats, the 183 and 40 repeats.
    let sends = 43 + repeats;
    if moment == 1 || (sends <= moment && moment < sends + repeats) {
        ringing(moment)
    } else if moment == 2 + repeats || sends <= moment {
        progress(moment)
    } else {
        invite(moment)
    }
}

/// Lets the set take the entries that come before the 183 is sent again.
fn take_before_sends(
    alloc: Global,
    set: &mut StateSet<InviteServer>,
    book: &Book,
    repeats: u64,
) -> Result<(), Fail>
    requires few { repeats ≤ 40 }
    requires start { set.old.moment ≡ 0 }
    requires known { All (Knows (owing_names invite_server_names) book.now) set.old.states }
    ensures order { OnOk result (set.new.moment ≤ 43 + 2 * repeats) }
    ensures known { OnOk result (All (Knows (owing_names invite_server_names) book.now) set.new.states) }
{
    for moment in 0..43 + 2 * repeats {
        take(alloc, set, book, entry_at(repeats, moment))??;
    }
    Ok(())
}

/// Lets the set take the 183 `count` times, and returns whether each adds as many states as there were before the first one.
fn widens(
    alloc: Global,
    set: &mut StateSet<InviteServer>,
    book: &Book,
    repeats: u64,
    count: u64,
) -> Result<bool, Fail>
    requires few { repeats ≤ 40 }
    requires short { count ≤ 40 }
    requires order { set.old.moment ≤ 43 + 2 * repeats }
    requires known { All (Knows (owing_names invite_server_names) book.now) set.old.states }
    ensures order { OnOk result (set.new.moment ≤ 43 + 2 * repeats + count) }
    ensures known { OnOk result (All (Knows (owing_names invite_server_names) book.now) set.new.states) }
{
    let first = 43 + 2 * repeats;
    for sends in 0..count {
        take(alloc, set, book, entry_at(repeats, first + sends))??;
        // The 183 has been sent `sends` + 1 times by now, and each time it may have paid for a repeat or not.
        if set.states().len() as u64 != (repeats + 1) * (sends + 2) {
            return Ok(false);
        }
    }
    Ok(true)
}

/// Asserts that the set has `most` states after this many repeats and sends of the 183, and refuses one send more.
fn is_widest(
    rt: &(impl Abort + AllocGlobal),
    set: &mut StateSet<InviteServer>,
    book: &Book,
    repeats: u64,
    sends: u64,
    most: usize,
) -> Result<(), Fail>
    requires few { repeats ≤ 40 }
    requires short { sends ≤ 40 }
    requires start { set.old.moment ≡ 0 }
    requires known { All (Knows (owing_names invite_server_names) book.now) set.old.states }
{
    // Before the sends the set has a state for each number of repeats that may have been paid.
    let alloc = rt.alloc();
    take_before_sends(alloc, set, book, repeats)?;
    is(
        rt,
        set.states().len() as u64,
        repeats + 1,
        "before the sends",
    );
    is(
        rt,
        (repeats, widens(alloc, set, book, repeats, sends)?),
        (repeats, true),
        "the sends",
    );
    is(rt, set.states().len(), most, "after the sends");
    // One send of the 183 more would lead to too many states, and leaves the set as it is.
    let next = entry_at(repeats, 43 + 2 * repeats + sends);
    is(
        rt,
        (most, take(alloc, set, book, next)?),
        (most, Err(TakeError::TooMany)),
        "a send more",
    );
    is(rt, set.states().len(), most, "after a send more");
    Ok(())
}

/// Asserts that a new set with a tolerance of ten seconds has `most` states after these repeats and sends, and refuses one more.
fn follows(
    rt: &(impl Abort + AllocGlobal),
    book: &Book,
    repeats: u64,
    sends: u64,
    most: usize,
) -> Result<(), Fail>
    requires few { repeats ≤ 40 }
    requires short { sends ≤ 40 }
{
    let params = Params::new(500, 4_000, 5_000, 10_000).ok_or("refused")?;
    let mut set = StateSet::start(rt.alloc(), InviteServer::new(params))?;
    is_widest(rt, &mut set, book, repeats, sends, most)
}

/// With a tolerance of ten seconds each repeat stays owed. A 180 may pay for one of the first repeats or
/// not, and so may a 183 for one of the other 40. So there is one state more than repeats for each number
/// of paid 183s: with 40 repeats 984 states after 23 sends of the 183, and not 1,025 after 24; with 31
/// repeats 1,024 after 31, and not 1,056 after 32.
#[test]
fn follows_1_024_states_and_no_more(rt: HostRuntime) -> Result<(), Fail> {
    let book = book(rt.alloc())?;
    follows(&rt, &book, 40, 23, 984)?;
    follows(&rt, &book, 31, 31, 1_024)
}
