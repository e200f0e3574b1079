//! Events: messages that were sent, received or refused by the transport at a moment, and restarts.
ghost use Rattle.std.specs.Prelude.{◌≡◌, ◌≢◌, ◌≤◌, ◌↔◌, IsTrue, false};
ghost use Rattle.sip_standard.specs.Transport.{is_reliable};
ghost use Rattle.sip_message.specs.ValueParts.{start_parts};
ghost use Rattle.sip_standard.specs.declared.action.Action.TheVariants.{Mark, Restart};
ghost use Rattle.sip_standard.specs.declared.kind.Kind.TheVariants.{Request};
ghost use Rattle.sip_standard.specs.declared.kind.Method.TheVariants.{Other};
ghost use Rattle.sip_standard.specs.Times.{last_moment};
ghost use Rattle.sip_standard.specs.Kind.{method_named, kind_of, IsProvisional, IsFinal, IsSuccess, IsUnsuccessful};

use sip_message::{Message, StartLine};
use sip_standard::{Kind, Method};
use sip_times::Action;
use std::marker::Model;

/// The method of this name, which is compared with case (RFC 3261, section 7.1).
fn method_named(name: &[u8]) -> Method
    ensures { result ≡ method_named name.now }
{
    if name == b"INVITE".as_slice() {
        Method::Invite
    } else if name == b"ACK".as_slice() {
        Method::Ack
    } else if name == b"CANCEL".as_slice() {
        Method::Cancel
    } else {
        Method::Other
    }
}

/// The kind of a message with this start line.
fn kind_of(start: StartLine<'_>) -> Kind
    ensures { result ≡ kind_of (start_parts start.entry) }
{
    match start {
        StartLine::Request { method, .. } => Kind::Request(method_named(method)),
        StartLine::Status { code, .. } => Kind::Response(code),
    }
}

/// Whether the code is that of a provisional response (RFC 3261, section 7.2).
pub(crate) fn is_provisional(code: u16) -> bool
    ensures { IsTrue result ↔ IsProvisional code }
{
    (100..=199).contains(&code)
}

/// Whether the code is that of a final response (RFC 3261, section 7.2).
pub(crate) fn is_final(code: u16) -> bool
    ensures { IsTrue result ↔ IsFinal code }
{
    (200..=699).contains(&code)
}

/// Whether the code is that of a 2xx (RFC 3261, section 7.2).
pub(crate) fn is_success(code: u16) -> bool
    ensures { IsTrue result ↔ IsSuccess code }
{
    (200..=299).contains(&code)
}

/// Whether the code is that of a final response that is no 2xx (RFC 3261, section 7.2).
pub(crate) fn is_unsuccessful(code: u16) -> bool
    ensures { IsTrue result ↔ IsUnsuccessful code }
{
    (300..=699).contains(&code)
}

/// A message that was sent, received or refused at a moment, by its number in a `Book`; or a restart.
#[derive(Clone, Copy, Debug)]
pub struct Event {
    moment: u64,
    action: Action,
    number: u64,
    kind: Kind,
    /// Whether the transport of the message is reliable.
    reliable: bool,
}

impl Model for Event {
    ghost use Rattle.std.specs.Prelude.{◌≢◌, ◌≤◌};
    ghost use Rattle.sip_standard.specs.declared.action.Action.TheVariants.{Mark};
    ghost use Rattle.sip_standard.specs.Times.{last_moment};
    ghost use Rattle.sip_machine.specs.NumberedEvent.{NumberedEvent};

    // An event means its moment, its action, and of its message the number, the kind and whether the transport is reliable.
    ghost Value = { NumberedEvent };

    ghost view = { λ e. record { moment = e.moment; action = e.action; number = e.number; kind = e.kind; reliable = e.reliable } };

    // It is no mark, and its moment is within the limit of a log.
    ghost invariant = { λ e. (e.action ≢ Mark) × (e.moment ≤ last_moment) };

    // The event with these parts.
    ghost inverse = { λ e. record { moment = e.moment; action = e.action; number = e.number; kind = e.kind; reliable = e.reliable } };
}

impl Event {
    /// The event of a message, at a moment in milliseconds. Its transport is that of the top Via.
    pub fn of(moment: u64, action: Action, number: u64, message: &Message<'_>) -> Event
        requires action { action ≢ Mark }
        requires message { action ≢ Restart }
        requires limit { moment ≤ last_moment }
        ensures { result ≡ record {
          moment = moment;
          action = action;
          number = number;
          kind = kind_of message.now.message.start;
          reliable = is_reliable message.now.parts.via.transport;
        } }
    {
        Event {
            moment,
            action,
            number,
            kind: kind_of(message.start()),
            reliable: message.is_reliable(),
        }
    }

    /// A restart of the element, at a moment in milliseconds. It has no message.
    pub fn restart(moment: u64) -> Event
        requires { moment ≤ last_moment }
        ensures { result ≡ record { moment = moment; action = Restart; number = 0; kind = Request Other; reliable = false } }
    {
        Event {
            moment,
            action: Action::Restart,
            // A restart has no message, and nothing asks for its number, its kind or its transport: any would do.
            number: 0,
            kind: Kind::Request(Method::Other),
            reliable: false,
        }
    }

    /// The moment, in milliseconds.
    pub fn moment(&self) -> u64
        ensures { result ≡ self.now.moment }
    {
        self.moment
    }

    /// What was done with the message.
    pub fn action(&self) -> Action
        ensures { result ≡ self.now.action }
    {
        self.action
    }

    /// The number of the message in a `Book`.
    pub fn number(&self) -> u64
        ensures { result ≡ self.now.number }
    {
        self.number
    }

    /// What the machine asks of the message.
    pub fn kind(&self) -> Kind
        ensures { result ≡ self.now.kind }
    {
        self.kind
    }

    /// Whether the transport of the message is reliable.
    pub fn reliable(&self) -> bool
        ensures { result ≡ self.now.reliable }
    {
        self.reliable
    }
}
