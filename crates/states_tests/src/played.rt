//! Entries of tests, which a set of the INVITE server takes.
ghost use Rattle.std.specs.Prelude.{◌≡◌, ◌≤◌, [], ℕ, All, IfOk, OnOk};
ghost use Rattle.sip_machine.specs.NumberedEvent.{FitsBook};
ghost use Rattle.sip_machine.specs.Rules.{Knows};
ghost use Rattle.sip_machine.specs.Texts.{Keeps};
ghost use Rattle.sip_machine.specs.Owing.{owing_names};
ghost use Rattle.sip_phases.specs.inner.InviteServer.{invite_server_names};

use sip_machine::{Action, Book, Event, InviteServer, Params};
use sip_message::Message;
use sip_states::{StateSet, TakeError};
use std::alloc::{AllocError, Global};
use std::test::Fail;

/// An entry: its moment in milliseconds, what was done, and the number of its message.
pub(crate) type Entry = (u64, Action, u64);

/// The number of the INVITE.
pub(crate) const INVITE: u64 = 1;

/// The number of a 180.
pub(crate) const RINGING: u64 = 2;

/// The number of a 183.
pub(crate) const PROGRESS: u64 = 3;

/// The number of a 486.
pub(crate) const BUSY: u64 = 4;

/// The number of a 200.
pub(crate) const OK: u64 = 5;

/// The messages of the INVITE transaction, in the order of their numbers.
static TEXTS: [&str; 5] = [
    "INVITE sip:bob@example.com SIP/2.0\r\nVia: SIP/2.0/UDP a.example.com;branch=z9hG4bKb1\r\n\
    From: <sip:bob@example.com>;tag=1\r\nTo: <sip:bob@example.com>;tag=2\r\nCall-ID: c1@a\r\n\
    CSeq: 1 INVITE\r\nContent-Length: 0\r\n\r\n",
    "SIP/2.0 180 Ringing\r\nVia: SIP/2.0/UDP a.example.com;branch=z9hG4bKb1\r\n\
    From: <sip:bob@example.com>;tag=1\r\nTo: <sip:bob@example.com>;tag=2\r\nCall-ID: c1@a\r\n\
    CSeq: 1 INVITE\r\nContent-Length: 0\r\n\r\n",
    "SIP/2.0 183 Progress\r\nVia: SIP/2.0/UDP a.example.com;branch=z9hG4bKb1\r\n\
    From: <sip:bob@example.com>;tag=1\r\nTo: <sip:bob@example.com>;tag=2\r\nCall-ID: c1@a\r\n\
    CSeq: 1 INVITE\r\nContent-Length: 0\r\n\r\n",
    "SIP/2.0 486 Busy\r\nVia: SIP/2.0/UDP a.example.com;branch=z9hG4bKb1\r\n\
    From: <sip:bob@example.com>;tag=1\r\nTo: <sip:bob@example.com>;tag=2\r\nCall-ID: c1@a\r\n\
    CSeq: 1 INVITE\r\nContent-Length: 0\r\n\r\n",
    "SIP/2.0 200 OK\r\nVia: SIP/2.0/UDP a.example.com;branch=z9hG4bKb1\r\n\
    From: <sip:bob@example.com>;tag=1\r\nTo: <sip:bob@example.com>;tag=2\r\nCall-ID: c1@a\r\n\
    CSeq: 1 INVITE\r\nContent-Length: 0\r\n\r\n",
];

/// Adds the messages of the entries to an empty book.
fn add_all(book: &mut Book) -> Result<(), AllocError>
    requires { book.old ≡ [] }
{
    book.add(INVITE, TEXTS[0].as_bytes())?;
    book.add(RINGING, TEXTS[1].as_bytes())?;
    book.add(PROGRESS, TEXTS[2].as_bytes())?;
    book.add(BUSY, TEXTS[3].as_bytes())?;
    book.add(OK, TEXTS[4].as_bytes())?;
    Ok(())
}

/// A book with the messages of the entries.
pub(crate) fn book(alloc: Global) -> Result<Book, AllocError> {
    let mut book = Book::new(alloc);
    add_all(&mut book)?;
    Ok(book)
}

/// The INVITE comes at this moment.
pub(crate) fn invite(moment: u64) -> Entry
    ensures { result.0 ≡ moment }
{
    (moment, Action::Received, INVITE)
}

/// The message with this number is sent at this moment.
fn sent(moment: u64, number: u64) -> Entry
    ensures { result.0 ≡ moment }
{
    (moment, Action::Sent, number)
}

/// The 180 is sent at this moment.
pub(crate) fn ringing(moment: u64) -> Entry
    ensures { result.0 ≡ moment }
{
    sent(moment, RINGING)
}

/// The 183 is sent at this moment.
pub(crate) fn progress(moment: u64) -> Entry
    ensures { result.0 ≡ moment }
{
    sent(moment, PROGRESS)
}

/// The 486 is sent at this moment.
pub(crate) fn busy(moment: u64) -> Entry
    ensures { result.0 ≡ moment }
{
    sent(moment, BUSY)
}

/// The 200 is sent at this moment.
pub(crate) fn ok(moment: u64) -> Entry
    ensures { result.0 ≡ moment }
{
    sent(moment, OK)
}

/// The event of an entry. It fails where the entry has no message in the book.
fn event_of(alloc: Global, book: &Book, entry: Entry) -> Result<Event, Fail>
    ensures { IfOk result (λ event. (event.moment ≡ entry.0) × FitsBook book.now event) }
{
    let (moment, action, number) = entry;
    // The number is the last moment that a log can name. A mark is no event, and a restart has no message.
    if moment > 9_999_999_999_999 || matches!(action, Action::Mark | Action::Restart) {
        return Err("not an entry".into());
    }
    let Some(bytes) = book.bytes(number) else {
        return Err("not kept".into());
    };
    let message = Message::read(alloc, bytes)?;
    Ok(Event::of(moment, action, number, &message))
}

/// Lets the set take the entry, and returns what the set answers. It fails where the entry has no message in the book.
pub(crate) fn take(
    alloc: Global,
    set: &mut StateSet<InviteServer>,
    book: &Book,
    entry: Entry,
) -> Result<Result<(), TakeError>, Fail>
    requires order { set.old.moment ≤ entry.0 }
    requires known { All (Knows (owing_names invite_server_names) book.now) set.old.states }
    ensures order { OnOk result (set.new.moment ≤ entry.0) }
    ensures known { OnOk result (All (Knows (owing_names invite_server_names) book.now) set.new.states) }
{
    let event = event_of(alloc, book, entry)?;
    Ok(set.take(book, &event))
}

/// Lets the set take the entries, and returns the moment of the last one.
pub(crate) fn play(
    alloc: Global,
    set: &mut StateSet<InviteServer>,
    book: &Book,
    entries: &[Entry],
) -> Result<u64, Fail>
    requires start { set.old.moment ≡ 0 }
    requires known { All (Knows (owing_names invite_server_names) book.now) set.old.states }
    ensures order { IfOk result (λ last. set.new.moment ≤ last) }
    ensures known { OnOk result (All (Knows (owing_names invite_server_names) book.now) set.new.states) }
{
    let mut last = 0;
    for entry in entries {
        if entry.0 < last {
            return Err("not in order".into());
        }
        take(alloc, set, book, *entry)??;
        last = entry.0;
    }
    Ok(last)
}

/// A set of the INVITE server that has taken the entries, and the moment of the last one.
pub(crate) fn served(
    alloc: Global,
    book: &Book,
    entries: &[Entry],
) -> Result<(StateSet<InviteServer>, u64), Fail>
    ensures { IfOk result (λ served. served.0.moment ≤ served.1) }
{
    let params = Params::new(500, 4_000, 5_000, 50).ok_or("refused")?;
    let mut set = StateSet::start(alloc, InviteServer::new(params))?;
    let last = play(alloc, &mut set, book, entries)?;
    Ok((set, last))
}
