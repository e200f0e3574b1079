//! Keys and ACKs worked out by hand from RFC 3261.

use crate::wants::is;
use sip_key::{Direction, Key, KeyError, Role, cancelled_key, is_ack_of, key_of};
use sip_message::{Message, ReadError};
use std::alloc::{AllocError, Global};
use std::process::Abort;
use std::test::Fail;

/// The parts in which the messages of the tests differ: a start line, and some fields.
#[derive(Clone, Copy)]
struct Text {
    /// The start line.
    start: &'static str,
    /// The values of Via, From, To, Call-ID and CSeq.
    via: &'static str,
    // The value of From begins with the blank after the colon, so that a row may have another one there.
    from: &'static str,
    to: &'static str,
    call_id: &'static str,
    cseq: &'static str,
    /// Further fields, each with its line end.
    more: &'static str,
}

impl Text {
    /// The bytes of the message.
    fn bytes(&self, alloc: Global) -> Result<String, AllocError> {
        let Text {
            start,
            via,
            from,
            to,
            call_id,
            cseq,
            more,
        } = *self;
        [
            start,
            "\r\nVia: ",
            via,
            "\r\nFrom:",
            from,
            "\r\nTo: ",
            to,
            "\r\nCall-ID: ",
            call_id,
            "\r\nCSeq: ",
            cseq,
            "\r\n",
            more,
            "Content-Length: 0\r\n\r\n",
        ]
        .concat(alloc)
    }
}

/// An INVITE.
const INVITE: Text = Text {
    start: "INVITE sip:example.com SIP/2.0",
    via: "SIP/2.0/UDP a.example.com;branch=z9hG4bK1",
    from: " <sip:bob@example.com>;tag=1",
    to: "<sip:bob@example.com>",
    call_id: "c1@a",
    cseq: "1 INVITE",
    more: "",
};

/// The 486 to the INVITE.
const BUSY: Text = Text {
    start: "SIP/2.0 486 Reply",
    to: "<sip:bob@example.com>;tag=2",
    ..INVITE
};

/// The ACK for the 486.
const ACK: Text = Text {
    start: "ACK sip:example.com SIP/2.0",
    to: "<sip:bob@example.com>;tag=2",
    cseq: "1 ACK",
    ..INVITE
};

/// The parts of a key: its role, branch, sent-by and method.
type Parts = (Role, &'static str, &'static str, &'static str);

/// Which way a message goes, its start line, Via and CSeq, and its key; or that it has none, or that the cookie is lacking where there must be one.
type KeyRow = (
    Direction,
    &'static str,
    &'static str,
    &'static str,
    Result<Option<Parts>, KeyError>,
);

/// Messages with their keys.
static KEYS: &[KeyRow] = &[
    // These rows show how the role, the sent-by and the method follow from the direction and the kind of a message.
    (
        Direction::Sent,
        "OPTIONS sip:b SIP/2.0",
        "SIP/2.0/UDP a;branch=z9hG4bK1",
        "1 OPTIONS",
        Ok(Some((Role::Client, "z9hg4bk1", "", "OPTIONS"))),
    ),
    (
        Direction::Received,
        "OPTIONS sip:b SIP/2.0",
        "SIP/2.0/UDP a;branch=z9hG4bK1",
        "1 OPTIONS",
        Ok(Some((Role::Server, "z9hg4bk1", "a:5060", "OPTIONS"))),
    ),
    (
        Direction::Received,
        "SIP/2.0 200 OK",
        "SIP/2.0/UDP a;branch=z9hG4bK1",
        "1 OPTIONS",
        Ok(Some((Role::Client, "z9hg4bk1", "", "OPTIONS"))),
    ),
    (
        Direction::Sent,
        "SIP/2.0 200 OK",
        "SIP/2.0/UDP a;branch=z9hG4bK1",
        "1 OPTIONS",
        Ok(Some((Role::Server, "z9hg4bk1", "a:5060", "OPTIONS"))),
    ),
    // An ACK has the key of an INVITE where it is a request.
    (
        Direction::Sent,
        "ACK sip:b SIP/2.0",
        "SIP/2.0/UDP a;branch=z9hG4bK1",
        "1 ACK",
        Ok(Some((Role::Client, "z9hg4bk1", "", "INVITE"))),
    ),
    (
        Direction::Received,
        "ACK sip:b SIP/2.0",
        "SIP/2.0/UDP a;branch=z9hG4bK1",
        "1 ACK",
        Ok(Some((Role::Server, "z9hg4bk1", "a:5060", "INVITE"))),
    ),
    // A response with the CSeq of an ACK has a key of its own, and so has a method in small letters.
    (
        Direction::Received,
        "SIP/2.0 200 OK",
        "SIP/2.0/UDP a;branch=z9hG4bK1",
        "1 ACK",
        Ok(Some((Role::Client, "z9hg4bk1", "", "ACK"))),
    ),
    (
        Direction::Received,
        "invite sip:b SIP/2.0",
        "SIP/2.0/UDP a;branch=z9hG4bK1",
        "1 invite",
        Ok(Some((Role::Server, "z9hg4bk1", "a:5060", "invite"))),
    ),
    // These rows show how a sent-by is spelled in a key.
    (
        Direction::Received,
        "OPTIONS sip:b SIP/2.0",
        "SIP/2.0/UDP A.Example.com;branch=z9hG4bK1",
        "1 OPTIONS",
        Ok(Some((Role::Server, "z9hg4bk1", "a.example.com:5060", "OPTIONS"))),
    ),
    // Zeros in front of a port are left out, blanks around it too, and 5060 stands where there is none.
    (
        Direction::Received,
        "OPTIONS sip:b SIP/2.0",
        "SIP/2.0/TLS a.example.com:05060;branch=z9hG4bK1",
        "1 OPTIONS",
        Ok(Some((Role::Server, "z9hg4bk1", "a.example.com:5060", "OPTIONS"))),
    ),
    (
        Direction::Received,
        "OPTIONS sip:b SIP/2.0",
        "SIP/2.0/UDP [::1] : 65535 ;branch=z9hG4bK1",
        "1 OPTIONS",
        Ok(Some((Role::Server, "z9hg4bk1", "[::1]:65535", "OPTIONS"))),
    ),
    (
        Direction::Received,
        "OPTIONS sip:b SIP/2.0",
        "SIP/2.0/TLS [0:0::1];branch=z9hG4bK1",
        "1 OPTIONS",
        Ok(Some((Role::Server, "z9hg4bk1", "[0:0::1]:5060", "OPTIONS"))),
    ),
    (
        Direction::Received,
        "OPTIONS sip:b SIP/2.0",
        "SIP/2.0/UDP a.b.:00;branch=z9hG4bK1",
        "1 OPTIONS",
        Ok(Some((Role::Server, "z9hg4bk1", "a.b.:0", "OPTIONS"))),
    ),
    // These rows show branches and the cookie: the first branch parameter of the top Via counts, without case.
    (
        Direction::Sent,
        "OPTIONS sip:b SIP/2.0",
        "SIP/2.0/UDP a;x;Branch=Z9HG4BKaB;branch=z9hG4bK2, SIP/2.0/UDP c;branch=z9hG4bK3",
        "1 OPTIONS",
        Ok(Some((Role::Client, "z9hg4bkab", "", "OPTIONS"))),
    ),
    // The cookie alone is a branch; a branch without it, or none, is no key for what is sent.
    (
        Direction::Sent,
        "OPTIONS sip:b SIP/2.0",
        "SIP/2.0/UDP a;branch=z9hG4bK",
        "1 OPTIONS",
        Ok(Some((Role::Client, "z9hg4bk", "", "OPTIONS"))),
    ),
    (
        Direction::Sent,
        "OPTIONS sip:b SIP/2.0",
        "SIP/2.0/UDP a;branch=abc",
        "1 OPTIONS",
        Err(KeyError::NoCookie),
    ),
    (
        Direction::Sent,
        "OPTIONS sip:b SIP/2.0",
        "SIP/2.0/UDP a",
        "1 OPTIONS",
        Err(KeyError::NoCookie),
    ),
    // What is received, and a response, belongs to no transaction where the cookie is lacking.
    (
        Direction::Received,
        "OPTIONS sip:b SIP/2.0",
        "SIP/2.0/UDP a;branch=z9hG4b",
        "1 OPTIONS",
        Ok(None),
    ),
    (
        Direction::Received,
        "SIP/2.0 200 OK",
        "SIP/2.0/UDP a;branch=abc",
        "1 OPTIONS",
        Ok(None),
    ),
    (
        Direction::Sent,
        "SIP/2.0 200 OK",
        "SIP/2.0/UDP a",
        "1 OPTIONS",
        Ok(None),
    ),
];

/// Reads the message of this text.
fn read(alloc: Global, text: &str) -> Result<Message<'_>, Fail> {
    match Message::read(alloc, text.as_bytes()) {
        Ok(message) => Ok(message),
        Err(ReadError::Memory) => Err("Memory".into()),
        Err(ReadError::Fault(_)) => Err("no message".into()),
    }
}

/// Whether the key has these parts, or there is neither a key nor parts.
fn has_parts(key: &Option<Key>, parts: Option<Parts>) -> bool {
    match (key, parts) {
        (Some(key), Some((role, branch, sent_by, method))) => {
            key.role() == role
                && key.branch() == branch.as_bytes()
                && key.sent_by() == sent_by.as_bytes()
                && key.method() == method.as_bytes()
        }
        (None, None) => true,
        _ => false,
    }
}

/// Whether the message of the row has the key that the row tells, or none where it tells none.
fn has_its_key(alloc: Global, row: &KeyRow) -> Result<bool, Fail> {
    let text = Text {
        start: row.1,
        via: row.2,
        cseq: row.3,
        ..INVITE
    };
    let text = text.bytes(alloc)?;
    let message = read(alloc, &text)?;
    Ok(match (key_of(alloc, &message, row.0), row.4) {
        (Ok(key), Ok(parts)) => has_parts(&key, parts),
        (Err(error), Err(fault)) => error == fault,
        _ => false,
    })
}

/// Each message has the key of its row, or its fault.
#[test]
fn a_message_has_its_key(rt: HostRuntime) -> Result<(), Fail> {
    for row in KEYS {
        assert!(rt; has_its_key(rt.alloc(), row)?, "{}, {}", row.1, row.2);
    }
    Ok(())
}

/// Two sent-by, and whether requests that are received with them have the same key.
static SENDERS: &[(&str, &str, bool)] = &[
    ("A.Example.com", "a.example.com:05060", true),
    ("[::1]", "[0:0::1]", false),
    ("a.b", "a.b.", false),
    ("a.example.com", "b.example.com", false),
    ("a.example.com", "A.EXAMPLE.com:5060", true),
    ("a:5061", "a:5060", false),
];

/// Two server keys are equal exactly if their sent-by are the same but for case and the default port.
#[test]
fn keys_are_equal_if_their_parts_are(rt: HostRuntime) -> Result<(), Fail> {
    for &(one, other, same) in SENDERS {
        let one = server_key(rt.alloc(), one)?;
        let other = server_key(rt.alloc(), other)?;
        is(&rt, one == other, same);
    }
    Ok(())
}

/// The server key of an OPTIONS request with this sent-by.
fn server_key(alloc: Global, sent_by: &str) -> Result<Option<Key>, Fail> {
    let text = [
        "OPTIONS sip:b SIP/2.0\r\nv: SIP/2.0/UDP ",
        sent_by,
        ";branch=z9hG4bK1\r\nf: sip:a\r\nt: sip:b\r\ni: c\r\nCSeq: 1 OPTIONS\r\n\r\n",
    ]
    .concat(alloc)?;
    let message = read(alloc, &text)?;
    match key_of(alloc, &message, Direction::Received) {
        Ok(key) => Ok(key),
        Err(_) => Err("no key".into()),
    }
}

/// The key of the INVITE that a sent CANCEL cancels.
const CANCELLED: Option<Parts> = Some((Role::Client, "z9hg4bk1", "", "INVITE"));

/// Which way a message goes, its method and branch, and the key of the transaction that it cancels, if it cancels one.
type Second = (Direction, &'static str, &'static str, Option<Parts>);

/// A CANCEL that is sent with a cookie has a second key. No other message has one.
static SECOND_KEYS: &[Second] = &[
    (Direction::Sent, "CANCEL", "z9hG4bK1", CANCELLED),
    (Direction::Received, "CANCEL", "z9hG4bK1", None),
    (Direction::Sent, "CANCEL", "1", None),
    (Direction::Sent, "INVITE", "z9hG4bK1", None),
    (Direction::Sent, "cancel", "z9hG4bK1", None),
];

/// Whether the message of the row cancels the transaction whose key the row tells.
fn has_its_second_key(
    alloc: Global,
    (direction, method, branch, parts): Second,
) -> Result<bool, Fail> {
    let text = [
        method,
        " sip:b SIP/2.0\r\nv: SIP/2.0/UDP a;branch=",
        branch,
        "\r\nf: sip:a\r\nt: sip:b\r\ni: c\r\nCSeq: 1 ",
        method,
        "\r\n\r\n",
    ]
    .concat(alloc)?;
    let message = read(alloc, &text)?;
    let key = cancelled_key(alloc, &message, direction)?;
    Ok(has_parts(&key, parts))
}

/// Only a CANCEL that is sent with a cookie cancels another transaction.
#[test]
fn a_sent_cancel_has_a_second_key(rt: HostRuntime) -> Result<(), Fail> {
    for &row in SECOND_KEYS {
        assert!(rt;
            has_its_second_key(rt.alloc(), row)?,
            "{}, {}",
            row.1,
            row.2
        );
    }
    Ok(())
}

/// A CANCEL, which way it goes, its key, and the key that it cancels.
static CANCELS: &[(Direction, Parts, Option<Parts>)] = &[
    (
        Direction::Received,
        (Role::Server, "z9hg4bk1", "a.example.com:5060", "CANCEL"),
        None,
    ),
    (
        Direction::Sent,
        (Role::Client, "z9hg4bk1", "", "CANCEL"),
        Some((Role::Client, "z9hg4bk1", "", "INVITE")),
    ),
];

/// Asserts that the message has this key; where memory is refused, that a second call gives it. Answers whether memory was refused.
fn asks_again_for_its_key(
    rt: &(impl Abort + AllocGlobal),
    message: &Message<'_>,
    direction: Direction,
    parts: Parts,
) -> bool {
    let mut lacked = false;
    let mut key = key_of(rt.alloc(), message, direction);
    if matches!(key, Err(KeyError::Memory)) {
        lacked = true;
        key = key_of(rt.alloc(), message, direction);
    }
    assert!(rt; matches!(&key, Ok(key) if has_parts(key, Some(parts))));
    lacked
}

/// Asserts that the message cancels the transaction of this key; where memory is refused, that a second call tells it. Answers whether
/// memory was refused.
fn asks_again_for_the_second(
    rt: &(impl Abort + AllocGlobal),
    message: &Message<'_>,
    direction: Direction,
    parts: Option<Parts>,
) -> bool {
    let mut lacked = false;
    let mut key = cancelled_key(rt.alloc(), message, direction);
    if key.is_err() {
        lacked = true;
        key = cancelled_key(rt.alloc(), message, direction);
    }
    assert!(rt; matches!(&key, Ok(key) if has_parts(key, parts)));
    lacked
}

/// Where a growth is refused in a call, the call answers want of memory and nothing else, and the same call with
/// memory is then right; the test ends with `Memory` (`tests/growths key_tests asks_again_for_memory`).
#[test]
fn asks_again_for_memory(rt: HostRuntime) -> Result<(), Fail> {
    let alloc = rt.alloc();
    let text = Text {
        start: "CANCEL sip:b SIP/2.0",
        cseq: "1 CANCEL",
        ..INVITE
    };
    let text = text.bytes(alloc)?;
    let message = read(alloc, &text)?;
    let mut lacked = false;
    for &(direction, own, cancelled) in CANCELS {
        lacked |= asks_again_for_its_key(&rt, &message, direction, own);
        lacked |= asks_again_for_the_second(&rt, &message, direction, cancelled);
    }
    if lacked {
        return Err("Memory".into());
    }
    Ok(())
}

/// Texts of an ACK and of an INVITE, and whether the ACK is the INVITE's for a 486.
static ACKS: [(Text, Text, bool); 17] = [
    // The number of CSeq and From are the same, however they are spelled.
    (ACK, INVITE, true),
    (
        Text {
            cseq: "01 ACK",
            ..ACK
        },
        INVITE,
        true,
    ),
    (
        Text {
            from: "  <sip:bob@example.com>;tag=1",
            ..ACK
        },
        INVITE,
        true,
    ),
    (
        Text {
            from: " <sip:bob@example.com>\r\n\t; tag = 1",
            ..ACK
        },
        INVITE,
        true,
    ),
    // From, To, Call-ID, the Request-URI or the number of CSeq is another one.
    (
        Text {
            from: " <sip:Bob@example.com>;tag=1",
            ..ACK
        },
        INVITE,
        false,
    ),
    (
        Text {
            to: "<sip:bob@example.com>",
            ..ACK
        },
        INVITE,
        false,
    ),
    (
        Text {
            call_id: "C1@a",
            ..ACK
        },
        INVITE,
        false,
    ),
    (
        Text {
            start: "ACK sip:example.org SIP/2.0",
            ..ACK
        },
        INVITE,
        false,
    ),
    (
        Text {
            cseq: "2 ACK",
            ..ACK
        },
        INVITE,
        false,
    ),
    // An INVITE is no ACK, and an ACK has one Via.
    (INVITE, INVITE, false),
    (
        Text {
            via: "SIP/2.0/UDP a.example.com;branch=z9hG4bK1, SIP/2.0/UDP b;branch=z9hG4bK2",
            ..ACK
        },
        INVITE,
        false,
    ),
    (
        Text {
            more: "Via: SIP/2.0/UDP b;branch=z9hG4bK2\r\n",
            ..ACK
        },
        INVITE,
        false,
    ),
    // The top Via alone is compared, and not its spelling.
    (
        Text {
            via: "SIP / 2.0 / UDP a.example.com ; branch=z9hG4bK1",
            ..ACK
        },
        Text {
            more: "Via: SIP/2.0/UDP b;branch=z9hG4bK2\r\n",
            ..INVITE
        },
        true,
    ),
    // The ACK has the Route of the INVITE: none, or the same values in the same order, over however many fields.
    (
        Text {
            more: "Route: <sip:r>\r\n",
            ..ACK
        },
        INVITE,
        false,
    ),
    (
        Text {
            // An empty Route has no value.
            more: "Route:\r\n",
            ..ACK
        },
        INVITE,
        true,
    ),
    (
        Text {
            more: "Route: <sip:r>\r\nX: y\r\nRoute: <sip:s>,<sip:t>\r\n",
            ..ACK
        },
        Text {
            more: "Route: <sip:r> , <sip:s>\r\nRoute: <sip:t>\r\n",
            ..INVITE
        },
        true,
    ),
    (
        Text {
            more: "Route: <sip:s>\r\nRoute: <sip:r>\r\n",
            ..ACK
        },
        Text {
            more: "Route: <sip:r>\r\nRoute: <sip:s>\r\n",
            ..INVITE
        },
        false,
    ),
];

/// Whether the first of these texts is the ACK of the second for the third.
fn is_ack(alloc: Global, ack: &str, invite: &str, response: &str) -> Result<bool, Fail> {
    let ack = read(alloc, ack)?;
    let invite = read(alloc, invite)?;
    let response = read(alloc, response)?;
    Ok(is_ack_of(&ack, &invite, &response))
}

/// Whether the ACK is that of the INVITE for the response 486.
fn belongs(alloc: Global, ack: &Text, invite: &Text) -> Result<bool, Fail> {
    let ack = ack.bytes(alloc)?;
    let invite = invite.bytes(alloc)?;
    let response = BUSY.bytes(alloc)?;
    is_ack(alloc, &ack, &invite, &response)
}

/// Each ACK belongs to the INVITE of its row exactly where the row says so.
#[test]
fn an_ack_belongs_to_its_invite(rt: HostRuntime) -> Result<(), Fail> {
    for (ack, invite, is_its) in &ACKS {
        assert_eq!(rt;
            belongs(rt.alloc(), ack, invite)?,
            *is_its,
            "{} {}",
            ack.start,
            ack.more
        );
    }
    Ok(())
}
