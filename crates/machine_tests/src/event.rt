//! What events of whole messages tell of them.

use crate::wants::holds;
use sip_machine::{Action, Event, Kind, Method};
use sip_message::Message;
use std::alloc::Global;
use std::test::Fail;

/// The kind of a message with this start line, method and transport, and whether its transport is reliable.
fn kind_of(
    alloc: Global,
    start: &str,
    transport: &str,
    method: &str,
) -> Result<(Kind, bool), Fail> {
    let text = [
        start,
        "\r\nv: SIP/2.0/",
        transport,
        " a;branch=z9hG4bK1\r\nf: <sip:a>;tag=1\r\nt: <sip:b>\r\ni: c\r\nCSeq: 1 ",
        method,
        "\r\nl: 0\r\n\r\n",
    ]
    .concat(alloc)?;
    told_kind(alloc, text.as_bytes())
}

/// The kind of a message, and whether its transport is reliable.
fn told_kind(alloc: Global, text: &[u8]) -> Result<(Kind, bool), Fail> {
    let Ok(message) = Message::read(alloc, text) else {
        return Err("not a message".into());
    };
    // The moment 700, the action and the number 3 are any: the event tells them as they were given.
    let event = Event::of(700, Action::Sent, 3, &message);
    if event.moment() != 700 || event.action() != Action::Sent || event.number() != 3 {
        return Err("another event".into());
    }
    Ok((event.kind(), event.reliable()))
}

/// A start line, a transport and a method, and the kind and the reliability that are wanted of the message.
type Told = (&'static str, &'static str, &'static str, Kind, bool);

/// Messages of each kind, over transports that are reliable and others.
static MESSAGES: [Told; 6] = [
    (
        "INVITE sip:b SIP/2.0",
        "UDP",
        "INVITE",
        Kind::Request(Method::Invite),
        false,
    ),
    (
        "ACK sip:b SIP/2.0",
        "TCP",
        "ACK",
        Kind::Request(Method::Ack),
        true,
    ),
    (
        "CANCEL sip:b SIP/2.0",
        "tls",
        "CANCEL",
        Kind::Request(Method::Cancel),
        true,
    ),
    // A method is spelled in capitals: in other letters it is another one.
    (
        "invite sip:b SIP/2.0",
        "SCTP",
        "invite",
        Kind::Request(Method::Other),
        true,
    ),
    (
        "OPTIONS sip:b SIP/2.0",
        "udp",
        "OPTIONS",
        Kind::Request(Method::Other),
        false,
    ),
    (
        "SIP/2.0 486 Busy Here",
        "TLS",
        "INVITE",
        Kind::Response(486),
        true,
    ),
];

/// An event tells the kind of its message, and whether its transport is reliable.
#[test]
fn tells_messages(rt: HostRuntime) -> Result<(), Fail> {
    for &(start, transport, method, kind, reliable) in &MESSAGES {
        let told = kind_of(rt.alloc(), start, transport, method)?;
        holds(&rt, told == (kind, reliable), start);
    }
    Ok(())
}

/// A restart has no message: its number is 0, and its kind is a request of no method that the machines know.
#[test]
fn tells_a_restart(rt: HostRuntime) -> Result<(), Fail> {
    let restart = Event::restart(700);
    let told = (restart.moment(), restart.action(), restart.number());
    holds(&rt, told == (700, Action::Restart, 0), "the restart");
    let kind = (restart.kind(), restart.reliable());
    holds(
        &rt,
        kind == (Kind::Request(Method::Other), false),
        "its kind",
    );
    Ok(())
}
