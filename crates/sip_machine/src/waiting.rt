//! A request that a client sent, and that waits for its response (RFC 3261 sections 17.1.1.2 and 17.1.2.2).
ghost use Rattle.std.specs.Prelude.{◌≡◌, ◌*◌, ◌↔◌, IsTrue, Some, [], map};
ghost use Rattle.sip_machine.specs.Texts.{Keeps, text_of};
ghost use Rattle.sip_machine.specs.NumberedEvent.{event_in};
ghost use Rattle.sip_machine.specs.inner.Turns.{KeepsMessage};
ghost use Rattle.sip_standard.specs.Retransmits.{Retransmits};
ghost use Rattle.sip_ledger.specs.Debts.{earliest};
ghost use Rattle.sip_phases.specs.inner.Waiting.{waiting_closes, waiting_seen, WaitingInRange};
ghost use Rattle.sip_standard.specs.PhaseWords.{waiting_fields};
ghost use Rattle.sip_machine.specs.Told.{field_of_code};

use crate::book::Book;
use crate::event::Event;
use crate::limit::earlier;
use crate::retransmits::retransmits;
use crate::timers::timeout;
use crate::told::ToldField;
use sip_phases::Waiting;
use sip_times::Params;

/// Whether the event is the request again, as timer A or E fires.
pub(crate) fn waiting_repeats(
    waiting: &Waiting,
    params: &Params,
    book: &Book,
    event: &Event,
) -> bool
    requires fits { KeepsMessage book.now event.now }
    requires known { Keeps book.now waiting.now.request }
    requires in_range { WaitingInRange waiting.now }
    ensures { IsTrue result ↔
        Retransmits params.now waiting.now.reliable (text_of book.now waiting.now.request) waiting.now.set waiting.now.interval
        (event_in book.now event.now) }
{
    retransmits(
        params,
        book,
        waiting.reliable,
        waiting.request,
        waiting.set,
        waiting.interval,
        event,
    )
}

/// The last moment of its timers: B or F, and A or E over an unreliable transport.
pub(crate) fn waiting_closes(waiting: &Waiting, params: &Params) -> u64
    requires { WaitingInRange waiting.now }
    ensures { Some result ≡ earliest (waiting_closes params.now (waiting_seen [] waiting.now) (64 * params.now.t1)) }
{
    let given_up = params.closes(waiting.start, timeout(params));
    if waiting.reliable {
        given_up
    } else {
        earlier(given_up, Some(params.closes(waiting.set, waiting.interval)))
    }
}

/// What the words of its phase tell of the request.
pub(crate) fn waiting_fields(waiting: &Waiting) -> [ToldField; 5]
    ensures { map field_of_code result ≡ waiting_fields waiting.now.reliable waiting.now.request waiting.now.start waiting.now.set waiting.now.interval }
{
    [
        ToldField::Flag("reliable", waiting.reliable),
        ToldField::Message("request", Some(waiting.request)),
        ToldField::Number("start", Some(waiting.start)),
        ToldField::Number("set", Some(waiting.set)),
        ToldField::Number("interval", Some(waiting.interval)),
    ]
}
