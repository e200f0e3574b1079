//! Sets of a non-INVITE client, with moments worked out by hand.
ghost use Rattle.std.specs.Prelude.{◌≡◌, ◌≤◌, All, IfOk, OnOk};
ghost use Rattle.sip_machine.specs.NumberedEvent.{FitsBook};
ghost use Rattle.sip_machine.specs.Owing.{owing_names};
ghost use Rattle.sip_phases.specs.inner.PlainClient.{plain_client_names};
ghost use Rattle.sip_machine.specs.Rules.{Knows};
ghost use Rattle.sip_machine.specs.Texts.{Keeps};
ghost use Rattle.sip_standard.specs.Times.{last_moment};

use crate::wants::{holds, is};
use sip_machine::{Action, Book, Event, Params, PlainClient};
use sip_message::Message;
use sip_states::{StateSet, TakeError};
use std::alloc::Global;
use std::process::Abort;
use std::test::Fail;

/// An OPTIONS.
const OPTIONS: &[u8] = b"OPTIONS sip:bob@example.com SIP/2.0\r\n\
    Via: SIP/2.0/UDP a.example.com;branch=z9hG4bK1\r\n\
    From: <sip:bob@example.com>;tag=1\r\n\
    To: <sip:bob@example.com>\r\n\
    Call-ID: c1@a\r\n\
    CSeq: 1 OPTIONS\r\n\
    Content-Length: 0\r\n\
    \r\n";

/// The event of the request with this number in a book, sent at this moment.
fn sent(alloc: Global, number: u64, moment: u64) -> Result<Event, Fail>
    requires { moment ≤ last_moment }
    ensures { IfOk result (λ event. (event.moment ≡ moment) × (event.number ≡ number)) }
{
    let message = Message::read(alloc, OPTIONS)?;
    Ok(Event::of(moment, Action::Sent, number, &message))
}

/// Lets the set take the event, and returns what the set answers.
fn take(set: &mut StateSet<PlainClient>, book: &Book, event: &Event) -> Result<(), TakeError>
    requires order { set.old.moment ≤ event.now.moment }
    requires fits { FitsBook book.now event.now }
    requires known { All (Knows (owing_names plain_client_names) book.now) set.old.states }
    ensures order { set.new.moment ≤ event.now.moment }
    ensures known { All (Knows (owing_names plain_client_names) book.now) set.new.states }
{
    set.take(book, event)
}

/// Asserts that the set takes the request with this number, sent at this moment.
fn takes(
    rt: &(impl Abort + AllocGlobal),
    set: &mut StateSet<PlainClient>,
    book: &Book,
    number: u64,
    moment: u64,
) -> Result<(), Fail>
    requires limit { moment ≤ last_moment }
    requires order { set.old.moment ≤ moment }
    requires kept { Keeps book.now number }
    requires known { All (Knows (owing_names plain_client_names) book.now) set.old.states }
    ensures order { OnOk result (set.new.moment ≤ moment) }
    ensures known { OnOk result (All (Knows (owing_names plain_client_names) book.now) set.new.states) }
{
    let event = sent(rt.alloc(), number, moment)?;
    is(
        rt,
        (moment, take(set, book, &event)),
        (moment, Ok(())),
        "the request is taken",
    );
    Ok(())
}

/// Asserts that the set takes the request with this number at 0 and at 500, and then can wait until 1,550 and no longer.
fn waits(
    rt: &(impl Abort + AllocGlobal),
    set: &mut StateSet<PlainClient>,
    book: &Book,
    number: u64,
) -> Result<(), Fail>
    requires start { set.old.moment ≡ 0 }
    requires kept { Keeps book.now number }
    requires known { All (Knows (owing_names plain_client_names) book.now) set.old.states }
{
    takes(rt, set, book, number, 0)?;
    takes(rt, set, book, number, 500)?;
    set.advance(1_550)?;
    holds(rt, !set.is_empty(), "at 1,550");
    set.advance(1_551)?;
    holds(rt, set.is_empty(), "at 1,551");
    Ok(())
}

/// Asserts that a new set takes the request at 0 and at 500, and then can wait until 1,550, for T1 500, T2 4000, T4 5000 and a
/// tolerance of 50.
fn starts_and_waits(rt: &(impl Abort + AllocGlobal), book: &Book, number: u64) -> Result<(), Fail>
    requires { Keeps book.now number }
{
    let params = Params::new(500, 4_000, 5_000, 50).ok_or("refused")?;
    let mut set = StateSet::start(rt.alloc(), PlainClient::new(params))?;
    waits(rt, &mut set, book, number)
}

/// A request that is sent at 0, and again at 500, must be sent again by 1,550.
#[test]
fn waits_for_the_repeat(rt: HostRuntime) -> Result<(), Fail> {
    let mut book = Book::new(rt.alloc());
    let request = book.add(1, OPTIONS)?;
    starts_and_waits(&rt, &book, request)
}
