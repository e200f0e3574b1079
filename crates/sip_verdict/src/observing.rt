//! What an entry of a log says to the judge.
//! In the clauses es are the entries before this one, whichever they are, and e is what is observed of this one.
ghost use Rattle.std.specs.Prelude.{◌≤◌, ◌<◌, ◌≡◌, ℕ, List, Some, IfOk, OnErr};
ghost use Rattle.sip_standard.specs.Times.{last_moment};
ghost use Rattle.sip_machine.specs.Texts.{Keeps};
ghost use Rattle.sip_standard.specs.Key.{KeyParts};
ghost use Rattle.sip_message.specs.SaidOf.{said_of};
ghost use Rattle.sip_log.specs.Told.{item};
ghost use Rattle.sip_standard.specs.Observation.{Observation, direction_of};
ghost use Rattle.sip_standard.specs.VerdictOf.{Sees};
ghost use Rattle.sip_verdict.specs.inner.Observing.{AreKeysOf, IsObserved, KeepsHeard, IsHeard, silent_told};

use crate::concerned::Concerned;
use sip_key::{Direction, Key, KeyError, cancelled_key, key_of};
use sip_log::Entry;
use sip_machine::{Action, Book, Event};
use sip_message::{Message, ReadError};
use sip_standard::{Fault, Reason, Unit};
use std::alloc::{AllocError, Global};

/// What an entry says to the judge.
#[derive(Drop)]
pub(crate) enum Observed {
    /// Nothing that a transaction hears: the entry is a mark, or its message concerns no transaction and is not kept. Its moment was reached.
    Unheard,
    /// The message has this fault.
    Fault(Fault),
    /// A restart of the element, which concerns every transaction so far.
    Restart,
    /// The event of a message that is kept in the book, and the keys of the transactions that it concerns, one at least.
    Heard {
        event: Event,
        concerned: Concerned<Key>,
    },
}

/// The fault of a request that is sent without the cookie in its top branch (RFC 3261 section 8.1.1.7).
const NO_COOKIE: Fault = Fault {
    unit: Unit::Head,
    reason: Reason::NoCookie,
};

/// Which way the message of an entry went; None for a mark and for a restart, which have no message.
pub(crate) fn direction_of(action: Action) -> Option<Direction>
    ensures { result ≡ direction_of action }
{
    match action {
        Action::Sent | Action::Failed => Some(Direction::Sent),
        Action::Received => Some(Direction::Received),
        Action::Mark | Action::Restart => None,
    }
}

/// The keys of the transactions that a message concerns: its own, and for a CANCEL that is sent also the key of the request that it cancels.
fn keys_of(
    alloc: Global,
    message: &Message<'_>,
    direction: Direction,
) -> Result<Concerned<Key>, KeyError>
    ensures { AreKeysOf (said_of message.now) direction result }
{
    let Some(own) = key_of(alloc, message, direction)? else {
        return Ok(Concerned::None);
    };
    Ok(match cancelled_key(alloc, message, direction)? {
        Some(cancelled) => Concerned::OwnAndCancelled(own, cancelled),
        None => Concerned::Own(own),
    })
}

/// What an entry without a message says, by its action.
fn told_without_message(action: Action) -> Observed
    ensures { result ≡ silent_told action }
{
    match action {
        Action::Restart => Observed::Restart,
        Action::Sent | Action::Received | Action::Failed | Action::Mark => Observed::Unheard,
    }
}

/// Reads the message of an entry, and keeps it in the book if it concerns a transaction. On an error the book is as before.
pub(crate) fn observe(alloc: Global, book: &mut Book, entry: &Entry) -> Result<Observed, AllocError>
    requires limit { entry.now.moment ≤ last_moment }
    requires numbered { (n : ℕ) → Keeps book.old n → n < entry.now.number }
    ensures observed { IfOk result (λ told. (es : List (Observation KeyParts)) → (e : Observation KeyParts) × Sees es (item entry.now) e
        × IsObserved book.new es (item entry.now) told e) }
    ensures heard { IfOk result (IsHeard book.new entry.now.moment) }
    ensures kept { IfOk result (KeepsHeard book.old book.new entry.now) }
    ensures err { OnErr result (book.new ≡ book.old) }
{
    let Some(direction) = direction_of(entry.action) else {
        return Ok(told_without_message(entry.action));
    };
    observe_message(alloc, book, entry, direction)
}

/// Reads the message of an entry, which went this way, and keeps it in the book if it concerns a transaction. So an entry without a message needs
/// no place for one. On an error the book is as before.
#[inline]
fn observe_message(
    alloc: Global,
    book: &mut Book,
    entry: &Entry,
    direction: Direction,
) -> Result<Observed, AllocError>
    requires limit { entry.now.moment ≤ last_moment }
    requires numbered { (n : ℕ) → Keeps book.old n → n < entry.now.number }
    requires direction { direction_of entry.now.action ≡ Some direction }
    ensures observed { IfOk result (λ told. (es : List (Observation KeyParts)) → (e : Observation KeyParts) × Sees es (item entry.now) e
        × IsObserved book.new es (item entry.now) told e) }
    ensures heard { IfOk result (IsHeard book.new entry.now.moment) }
    ensures kept { IfOk result (KeepsHeard book.old book.new entry.now) }
    ensures err { OnErr result (book.new ≡ book.old) }
{
    let message = match Message::read(alloc, entry.bytes.as_slice()) {
        Ok(message) => message,
        Err(ReadError::Fault(fault)) => return Ok(Observed::Fault(fault)),
        Err(ReadError::Memory) => return Err(AllocError),
    };
    // A message that is sent without the cookie has a fault; one that is received without it concerns no transaction.
    let concerned = match keys_of(alloc, &message, direction) {
        Ok(concerned) => concerned,
        Err(KeyError::NoCookie) => return Ok(Observed::Fault(NO_COOKIE)),
        Err(KeyError::Memory) => return Err(AllocError),
    };
    if let Concerned::None = concerned {
        return Ok(Observed::Unheard);
    }
    // A message that concerns a transaction is kept, under the entry's number or under that of equal bytes.
    let number = book.add(entry.number, entry.bytes.as_slice())?;
    book.keep_to(number, &message);
    let event = Event::of(entry.moment, entry.action, number, &message);
    Ok(Observed::Heard { event, concerned })
}
