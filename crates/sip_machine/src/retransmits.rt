//! Messages that are sent again as a timer fires (RFC 3261 sections 17.1.1.2, 17.1.2.2 and 17.2.1).
ghost use Rattle.std.specs.Prelude.{◌≤◌, ◌<◌, ◌^◌, ◌↔◌, IsTrue};
ghost use Rattle.sip_standard.specs.Times.{last_moment};
ghost use Rattle.sip_machine.specs.Texts.{Keeps, text_of};
ghost use Rattle.sip_machine.specs.NumberedEvent.{event_in};
ghost use Rattle.sip_machine.specs.inner.Turns.{KeepsMessage};
ghost use Rattle.sip_standard.specs.Retransmits.{Retransmits};

use crate::book::Book;
use crate::event::Event;
use sip_times::Params;

/// Whether the event is the message again, as its timer fires, which was set at the moment `set` for this interval in milliseconds.
pub(crate) fn retransmits(
    params: &Params,
    book: &Book,
    reliable: bool,
    message: u64,
    set: u64,
    interval: u64,
    event: &Event,
) -> bool
    requires fits { KeepsMessage book.now event.now }
    requires known { Keeps book.now message }
    requires set { set ≤ last_moment }
    requires interval { interval < 2 ^ 50 }
    ensures { IsTrue result ↔
        Retransmits params.now reliable (text_of book.now message) set interval (event_in book.now event.now) }
{
    book.known();
    // It is the same message by its number, its transport is unreliable, and the timer may fire by then. That it has not fired too late, `closes` of the
    // phase tells.
    event.number() == message && !reliable && params.opens(set, interval) <= event.moment()
}
