//! The INVITE machines of RFC 3261 without its correction, and restarts. Moments are worked out by hand for T1 500, T2 4000, T4 5000 and
//! a tolerance of 50.

use crate::messages::{Numbered, Start, book_of};
use crate::rows::{MAY, MUST, Row, all_lead};
use crate::runs::Entry;
use crate::times::params;
use sip_machine::{
    Action, Book, InviteClient, InviteClient3261, InviteClientPhase, InviteServer,
    InviteServer3261, InviteServer3261Phase, InviteServerPhase, Waiting,
};
use std::alloc::Global;
use std::process::Abort;
use std::test::Fail;

/// The number of the INVITE.
const INVITE: u64 = 1;

/// The number of a 180.
const RINGING: u64 = 2;

/// The number of a 486.
const BUSY: u64 = 3;

/// The number of a 200.
const OK: u64 = 4;

/// The number of the ACK.
const ACK: u64 = 5;

/// The number that stands for no message, as a restart has none.
const NONE: u64 = 0;

/// The messages by number: the start line of each, and its tag in To.
const MESSAGES: [Numbered; 5] = [
    (INVITE, Start::Request("INVITE"), None),
    (RINGING, Start::Response(180), Some(2)),
    (BUSY, Start::Response(486), Some(2)),
    (OK, Start::Response(200), Some(2)),
    (ACK, Start::Request("ACK"), Some(2)),
];

/// A row of the INVITE server of RFC 3261.
type Server = Row<InviteServer3261Phase>;

/// A row of the INVITE client of RFC 3261.
type Client = Row<InviteClientPhase>;

/// No INVITE came yet.
const IDLE: InviteServer3261Phase = InviteServer3261Phase::In {
    phase: InviteServerPhase::Idle,
    again: false,
};

/// A 2xx was sent, so that the transaction is over by RFC 3261.
const PASSED: InviteServer3261Phase = InviteServer3261Phase::Passed;

/// The INVITE came at 0, and no response was sent.
const INVITED: InviteServer3261Phase = InviteServer3261Phase::In {
    phase: InviteServerPhase::Proceeding {
        reliable: false,
        set: 0,
        last: None,
    },
    again: false,
};

/// The INVITE came anew at 500, after a 2xx, and no response was sent.
const INVITED_AGAIN: InviteServer3261Phase = InviteServer3261Phase::In {
    phase: InviteServerPhase::Proceeding {
        reliable: false,
        set: 500,
        last: None,
    },
    again: true,
};

/// The INVITE came anew at 500, after a 2xx, and the last response was a 180.
const RINGS_AGAIN: InviteServer3261Phase = InviteServer3261Phase::In {
    phase: InviteServerPhase::Proceeding {
        reliable: false,
        set: 500,
        last: Some(RINGING),
    },
    again: true,
};

/// The INVITE came anew after a 2xx, and a 486 was sent at 510.
const BUSY_AGAIN: InviteServer3261Phase = InviteServer3261Phase::In {
    phase: InviteServerPhase::Completed {
        reliable: false,
        final_message: BUSY,
        set: 510,
        repeat: 510,
        interval: 500,
    },
    again: true,
};

/// The INVITE came anew after a 2xx, and the ACK for the 486 came at 600.
const CONFIRMED_AGAIN: InviteServer3261Phase = InviteServer3261Phase::In {
    phase: InviteServerPhase::Confirmed {
        reliable: false,
        set: 600,
    },
    again: true,
};

/// The INVITE came once, and a 486 was sent at 10.
const BUSY_ONCE: InviteServer3261Phase = InviteServer3261Phase::In {
    phase: InviteServerPhase::Completed {
        reliable: false,
        final_message: BUSY,
        set: 10,
        repeat: 10,
        interval: 500,
    },
    again: false,
};

/// The INVITE comes for the first time.
const INVITE_CAME: Entry = (0, Action::Received, INVITE);

/// The INVITE comes again.
const INVITE_CAME_AGAIN: Entry = (500, Action::Received, INVITE);

/// A 200 is sent.
const OK_WENT: Entry = (0, Action::Sent, OK);

/// A server that has sent a 2xx sends only 2xx from then on, however late, until an INVITE comes.
static A_2XX_IS_THE_LAST_OF_A_SERVER: &[Server] = &[
    (&[], &[(IDLE, &[])]),
    (&[INVITE_CAME], &[(INVITED, &[])]),
    (&[INVITE_CAME, OK_WENT], &[(PASSED, &[])]),
    (&[INVITE_CAME, (0, Action::Failed, OK)], &[(PASSED, &[])]),
    (
        &[INVITE_CAME, OK_WENT, (900_000, Action::Sent, OK)],
        &[(PASSED, &[])],
    ),
    (&[INVITE_CAME, OK_WENT, (600, Action::Sent, BUSY)], &[]),
    (&[INVITE_CAME, OK_WENT, (600, Action::Sent, RINGING)], &[]),
    (
        &[INVITE_CAME, OK_WENT, (600, Action::Received, ACK)],
        &[(PASSED, &[])],
    ),
    // After the 2xx nothing is owed any more.
    (
        &[
            INVITE_CAME,
            (5, Action::Sent, RINGING),
            (10, Action::Received, INVITE),
            (20, Action::Sent, OK),
        ],
        &[(PASSED, &[])],
    ),
    (
        &[
            INVITE_CAME,
            (5, Action::Sent, RINGING),
            (10, Action::Received, INVITE),
            (20, Action::Sent, OK),
            (60, Action::Sent, RINGING),
        ],
        &[],
    ),
];

/// An INVITE that comes at 500, after the 2xx, begins the machine anew: its first response is due by 750.
/// After another final response of the new transaction a 2xx is the one of the old transaction, which the user sends again.
static AN_INVITE_COMES_AGAIN_AFTER_A_2XX: &[Server] = &[
    (
        &[INVITE_CAME, OK_WENT, INVITE_CAME_AGAIN],
        &[(INVITED_AGAIN, &[])],
    ),
    (
        &[
            INVITE_CAME,
            OK_WENT,
            INVITE_CAME_AGAIN,
            (510, Action::Sent, RINGING),
        ],
        &[(RINGS_AGAIN, &[])],
    ),
    (
        &[
            INVITE_CAME,
            OK_WENT,
            INVITE_CAME_AGAIN,
            (750, Action::Sent, RINGING),
        ],
        &[(RINGS_AGAIN, &[])],
    ),
    (
        &[
            INVITE_CAME,
            OK_WENT,
            INVITE_CAME_AGAIN,
            (751, Action::Sent, RINGING),
        ],
        &[],
    ),
    // The 2xx is the one of the new transaction, or the one of the old transaction, which the user sends again.
    (
        &[
            INVITE_CAME,
            OK_WENT,
            INVITE_CAME_AGAIN,
            (510, Action::Sent, OK),
        ],
        &[(PASSED, &[]), (INVITED_AGAIN, &[])],
    ),
    (
        &[
            INVITE_CAME,
            OK_WENT,
            INVITE_CAME_AGAIN,
            (510, Action::Sent, BUSY),
        ],
        &[(BUSY_AGAIN, &[])],
    ),
    (
        &[
            INVITE_CAME,
            OK_WENT,
            INVITE_CAME_AGAIN,
            (510, Action::Sent, BUSY),
            (520, Action::Sent, OK),
        ],
        &[(BUSY_AGAIN, &[])],
    ),
    (
        &[
            INVITE_CAME,
            OK_WENT,
            INVITE_CAME_AGAIN,
            (510, Action::Sent, BUSY),
            (520, Action::Received, INVITE),
        ],
        &[(BUSY_AGAIN, &[(BUSY, 570, MAY)])],
    ),
    (
        &[
            INVITE_CAME,
            OK_WENT,
            INVITE_CAME_AGAIN,
            (510, Action::Sent, BUSY),
            (600, Action::Received, ACK),
            (700, Action::Sent, OK),
        ],
        &[(CONFIRMED_AGAIN, &[])],
    ),
    // Where no 2xx was sent before, the machine has no row for a 2xx after another final response.
    (
        &[INVITE_CAME, (10, Action::Sent, BUSY)],
        &[(BUSY_ONCE, &[])],
    ),
    (
        &[
            INVITE_CAME,
            (10, Action::Sent, BUSY),
            (20, Action::Sent, OK),
        ],
        &[],
    ),
];

/// A restart leaves a server idle, unless a message that it had to send is overdue. The first response to the INVITE that came at 0 is due by 250:
/// 200 ms and the tolerance later. The 180 is due again by 60, since the INVITE came again at 10.
static A_SERVER_STARTS_ANEW: &[Server] = &[
    (&[(100, Action::Restart, NONE)], &[(IDLE, &[])]),
    (&[INVITE_CAME, (100, Action::Restart, NONE)], &[(IDLE, &[])]),
    (&[INVITE_CAME, (251, Action::Restart, NONE)], &[]),
    (
        &[INVITE_CAME, OK_WENT, (100, Action::Restart, NONE)],
        &[(IDLE, &[])],
    ),
    (
        &[
            INVITE_CAME,
            (5, Action::Sent, RINGING),
            (10, Action::Received, INVITE),
            (60, Action::Restart, NONE),
        ],
        &[(IDLE, &[])],
    ),
    (
        &[
            INVITE_CAME,
            (5, Action::Sent, RINGING),
            (10, Action::Received, INVITE),
            (61, Action::Restart, NONE),
        ],
        &[],
    ),
];

/// The INVITE was sent at 0.
const CALLS: InviteClientPhase = InviteClientPhase::Calling(Waiting {
    reliable: false,
    request: INVITE,
    start: 0,
    set: 0,
    interval: 500,
});

/// A provisional response came, and no CANCEL was sent.
const PROCEEDS: InviteClientPhase = InviteClientPhase::Proceeding {
    reliable: false,
    request: INVITE,
    cancel: None,
};

/// A final response other than a 2xx came at 100.
const IS_BUSY: InviteClientPhase = InviteClientPhase::Completed {
    reliable: false,
    request: INVITE,
    set: 100,
};

/// The transaction has ended.
const ENDED: InviteClientPhase = InviteClientPhase::Ended;

/// The INVITE is sent.
const INVITE_WENT: Entry = (0, Action::Sent, INVITE);

/// A 2xx ends the client at once. Any other response does what it does by RFC 6026.
static A_2XX_ENDS_A_CLIENT: &[Client] = &[
    (&[INVITE_WENT], &[(CALLS, &[])]),
    (&[INVITE_WENT, (100, Action::Received, OK)], &[(ENDED, &[])]),
    (
        &[INVITE_WENT, (100, Action::Received, RINGING)],
        &[(PROCEEDS, &[])],
    ),
    (
        &[
            INVITE_WENT,
            (50, Action::Received, RINGING),
            (100, Action::Received, OK),
        ],
        &[(ENDED, &[])],
    ),
    (
        &[INVITE_WENT, (100, Action::Received, BUSY)],
        &[(IS_BUSY, &[(BUSY, 150, MUST)])],
    ),
    (
        &[
            INVITE_WENT,
            (100, Action::Received, BUSY),
            (120, Action::Received, OK),
        ],
        &[(IS_BUSY, &[(BUSY, 150, MUST)])],
    ),
    (
        &[
            INVITE_WENT,
            (100, Action::Received, OK),
            (900_000, Action::Received, OK),
        ],
        &[(ENDED, &[])],
    ),
];

/// A restart leaves an idle client idle, and ends any other one, unless a message is overdue. The INVITE has to be sent again by 550, as timer A fires,
/// and the ACK for a 486 that came at 100 is due by 150.
static A_CLIENT_STARTS_ANEW: &[Client] = &[
    (
        &[(100, Action::Restart, NONE)],
        &[(InviteClientPhase::Idle, &[])],
    ),
    (
        &[INVITE_WENT, (100, Action::Restart, NONE)],
        &[(ENDED, &[])],
    ),
    (
        &[INVITE_WENT, (550, Action::Restart, NONE)],
        &[(ENDED, &[])],
    ),
    (&[INVITE_WENT, (551, Action::Restart, NONE)], &[]),
    // After the restart the ACK is not owed any more.
    (
        &[
            INVITE_WENT,
            (100, Action::Received, BUSY),
            (150, Action::Restart, NONE),
        ],
        &[(ENDED, &[])],
    ),
    (
        &[
            INVITE_WENT,
            (100, Action::Received, BUSY),
            (151, Action::Restart, NONE),
        ],
        &[],
    ),
    (
        &[
            INVITE_WENT,
            (100, Action::Restart, NONE),
            (200, Action::Sent, INVITE),
        ],
        &[],
    ),
];

/// A book with the messages.
fn book(alloc: Global) -> Result<Book, Fail> {
    book_of(alloc, &MESSAGES, "INVITE", "UDP")
}

/// Asserts that the entries of each row lead a server to the states of the row.
fn all_serve(rt: &(impl Abort + AllocGlobal), rows: &[Server]) -> Result<(), Fail> {
    let server = InviteServer3261::new(params(500)?);
    all_lead(rt, &server, &book(rt.alloc())?, rows)
}

/// Asserts that the entries of each row lead a client to the states of the row.
fn all_call(rt: &(impl Abort + AllocGlobal), rows: &[Client]) -> Result<(), Fail> {
    let client = InviteClient3261::new(params(500)?);
    all_lead(rt, &client, &book(rt.alloc())?, rows)
}

/// By RFC 3261 alone a 2xx ends a server. The 2xx may be sent again all the same.
#[test]
fn a_2xx_is_the_last_of_a_server(rt: HostRuntime) -> Result<(), Fail> {
    all_serve(&rt, A_2XX_IS_THE_LAST_OF_A_SERVER)
}

/// By RFC 3261 alone an INVITE that comes after a 2xx is of a new transaction.
#[test]
fn an_invite_comes_again_after_a_2xx(rt: HostRuntime) -> Result<(), Fail> {
    all_serve(&rt, AN_INVITE_COMES_AGAIN_AFTER_A_2XX)
}

#[test]
fn a_server_starts_anew(rt: HostRuntime) -> Result<(), Fail> {
    all_serve(&rt, A_SERVER_STARTS_ANEW)
}

/// By RFC 3261 alone a 2xx ends a client at once, and RFC 6026 lets it hear further ones.
#[test]
fn a_2xx_ends_a_client(rt: HostRuntime) -> Result<(), Fail> {
    all_call(&rt, A_2XX_ENDS_A_CLIENT)
}

#[test]
fn a_client_starts_anew(rt: HostRuntime) -> Result<(), Fail> {
    all_call(&rt, A_CLIENT_STARTS_ANEW)
}

/// The states to which the rules of RFC 6026 lead after entries of which rows above have what the rules of RFC 3261 alone lead to.
static BY_RFC_6026: (&[Row<InviteServerPhase>], &[Client]) = (
    &[(
        &[INVITE_CAME, OK_WENT, INVITE_CAME_AGAIN],
        &[(InviteServerPhase::Accepted { set: 0 }, &[])],
    )],
    &[(
        &[INVITE_WENT, (100, Action::Received, OK)],
        &[(InviteClientPhase::Accepted { set: 100 }, &[])],
    )],
);

/// By the other rules an INVITE after a 2xx leaves a server accepted, and a 2xx leaves a client accepted.
#[test]
fn by_rfc_6026_an_invite_after_a_2xx_changes_nothing(rt: HostRuntime) -> Result<(), Fail> {
    let book = book(rt.alloc())?;
    lead_by_rfc_6026(&rt, &book)
}

/// Asserts where the rules of RFC 6026 lead a server and a client.
fn lead_by_rfc_6026(rt: &(impl Abort + AllocGlobal), book: &Book) -> Result<(), Fail> {
    all_lead(rt, &InviteServer::new(params(500)?), book, BY_RFC_6026.0)?;
    all_lead(rt, &InviteClient::new(params(500)?), book, BY_RFC_6026.1)
}
