//! Which ACK belongs to which INVITE.
ghost use Rattle.std.specs.Prelude.{◌≡◌, ◌↔◌, [], IsTrue};
ghost use Rattle.sip_standard.specs.Solid.{solid};
ghost use Rattle.sip_message.specs.ValueParts.{start_parts};
ghost use Rattle.sip_standard.specs.Says.{Said};
ghost use Rattle.sip_message.specs.SaidOf.{said_of};
ghost use Rattle.sip_standard.specs.AckOf.{IsAckLine, IsAckOf, SameSolid};

use crate::solid::{next_solid, same_solid};
use sip_message::{Message, Routes, StartLine};
use std::marker::Model;

/// Whether the first message is the ACK for the third, where that is a response to the second, an INVITE
/// (RFC 3261, section 17.1.1.3); whether they are such is not asked. From, To, Via and Route are compared
/// but for blanks, the rest byte for byte. It takes no memory.
pub fn is_ack_of(ack: &Message<'_>, invite: &Message<'_>, response: &Message<'_>) -> bool
    ensures { IsTrue result ↔ IsAckOf (said_of ack.now) (said_of invite.now) (said_of response.now) }
{
    same_solid(ack.to(), response.to()) && is_ack_for(ack, invite)
}

/// Whether the ACK is the one for each response to the INVITE whose To is the ACK's own but for blanks. It takes no memory.
pub fn is_ack_for(ack: &Message<'_>, invite: &Message<'_>) -> bool
    ensures { (response : Said) → SameSolid (said_of ack.now).to response.to → IsTrue result ↔ IsAckOf (said_of ack.now) (said_of invite.now) response }
{
    is_ack_line(ack.start(), invite.start())
        && ack.call_id() == invite.call_id()
        && same_solid(ack.from(), invite.from())
        && has_one_via(ack)
        && same_solid(ack.top_via().whole, invite.top_via().whole)
        && ack.cseq().number == invite.cseq().number
        && same_route(ack, invite)
}

// Whether the first start line is of an ACK and has the Request-URI of the second, which is a request's.
fn is_ack_line(ack: StartLine<'_>, invite: StartLine<'_>) -> bool
    ensures { IsTrue result ↔ IsAckLine (start_parts ack.entry) (start_parts invite.entry) }
{
    match (ack, invite) {
        (StartLine::Request { method, uri }, StartLine::Request { uri: target, .. }) => {
            method == b"ACK".as_slice() && uri == target
        }
        _ => false,
    }
}

// Whether the message has one Via element in all.
fn has_one_via(message: &Message<'_>) -> bool
    ensures { IsTrue result ↔ ((said_of message.now).others ≡ []) }
{
    // The first element of Via is always there.
    let mut vias = message.vias();
    vias.next();
    vias.next().is_none()
}

// Whether two messages have the same Route values, joined by commas and compared but for blanks.
fn same_route(a: &Message<'_>, b: &Message<'_>) -> bool
    ensures { IsTrue result ↔ SameSolid (said_of a.now).route (said_of b.now).route }
{
    SolidRoute::new(a.routes()).eq(SolidRoute::new(b.routes()))
}

// The bytes of values joined by commas, in order and without their blanks.
#[derive(Drop)]
struct SolidRoute<'s, 'a> {
    // What is left of the value that is handed out now.
    rest: &'a [u8],
    // The values after that one, before each of which a comma is handed out.
    values: Routes<'s, 'a>,
}

impl<'s, 'a> Model for SolidRoute<'s, 'a> {
    ghost use Rattle.std.specs.Prelude.{ℕ, List, ◌++◌, ◌∷◌};
    ghost use Rattle.std.specs.List.{flat_map};
    ghost use Rattle.sip_message.specs.inner.Marks.{comma};
    ghost use Rattle.sip_standard.specs.Solid.{solid};

    // Contracts see this as the bytes that are still handed out.
    ghost Value = { List ℕ };

    // They are those of the rest, and then a comma and the bytes of each value that is left, all without blanks.
    ghost view = { λ it. solid it.rest.now ++ flat_map (λ value. comma ∷ solid value) it.values };
}

impl<'s, 'a> SolidRoute<'s, 'a> {
    ghost use Rattle.std.specs.List.{join_with_byte};
    ghost use Rattle.sip_message.specs.inner.Marks.{comma};

    // The bytes of these values joined by commas, without their blanks.
    fn new(mut values: Routes<'s, 'a>) -> Self
        ensures { result ≡ solid (join_with_byte comma values.entry) }
    {
        let rest = values.next().unwrap_or(b"");
        SolidRoute { rest, values }
    }
}

impl<'s, 'a> Iterator for SolidRoute<'s, 'a> {
    ghost use Rattle.std.specs.Iterator.{YieldsFirst, item_count};

    type Item = u8;

    // A call gives the first of these bytes, and leaves the others.
    ghost next_gives = { YieldsFirst (λ it. it) };

    // No more bytes come than are left.
    ghost remaining = { item_count (λ it. it) };

    fn next(&mut self) -> Option<u8> {
        if let Some((byte, rest)) = next_solid(self.rest) {
            self.rest = rest;
            return Some(byte);
        }
        self.rest = self.values.next()?;
        Some(b',')
    }
}
