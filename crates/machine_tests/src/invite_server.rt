//! The INVITE server, with moments worked out by hand for T1 500, T2 4000, T4 5000 and a tolerance of 50.
use crate::messages::{Numbered, Start, book_of};
use crate::rows::{self, EndsRow, MAY, MUST, all_end, phase_ends};
use crate::runs::{Entry, run_together};
use crate::times::params;
use crate::wants::holds;
use sip_machine::{Action, Book, InviteServer, InviteServerPhase, Machine};
use std::alloc::{AllocError, Global};
use std::process::Abort;
use std::test::Fail;

/// The number of the INVITE.
const INVITE: u64 = 1;

/// The number of a 180.
const RINGING: u64 = 2;

/// The number of a 100.
const TRYING: u64 = 3;

/// The number of a 183.
const PROGRESS: u64 = 4;

/// The number of a 486.
const BUSY: u64 = 5;

/// The number of a 200.
const OK: u64 = 6;

/// The number of the ACK.
const ACK: u64 = 7;

/// The number of a CANCEL.
const CANCEL: u64 = 8;

/// The number of an INFO.
const OTHER: u64 = 9;

/// The messages by number: the start line of each, and its tag in To.
const MESSAGES: [Numbered; 9] = [
    (INVITE, Start::Request("INVITE"), None),
    (RINGING, Start::Response(180), Some(2)),
    (TRYING, Start::Response(100), None),
    (PROGRESS, Start::Response(183), Some(2)),
    (BUSY, Start::Response(486), Some(2)),
    (OK, Start::Response(200), Some(2)),
    (ACK, Start::Request("ACK"), Some(2)),
    (CANCEL, Start::Request("CANCEL"), None),
    (OTHER, Start::Request("INFO"), None),
];

/// A server with the times of the tests.
fn server() -> Result<InviteServer, Fail> {
    Ok(InviteServer::new(params(500)?))
}

/// A book with the messages.
fn book(alloc: Global) -> Result<Book, Fail> {
    book_of(alloc, &MESSAGES, "INVITE", "UDP")
}

/// Entries, and the states to which they lead an INVITE server.
/// Each state has its phase and its debts: a message, the deadline, and whether it must be sent. No state: the entries have no run.
type Row = rows::Row<InviteServerPhase>;

/// Asserts that the entries of each row lead to the states of the row.
fn all_lead(rt: &(impl Abort + AllocGlobal), rows: &[Row]) -> Result<(), Fail> {
    rows::all_lead(rt, &server()?, &book(rt.alloc())?, rows)
}

/// No INVITE came yet.
const IDLE: InviteServerPhase = InviteServerPhase::Idle;

/// The INVITE came at 0, and no response was sent.
const QUIET: InviteServerPhase = InviteServerPhase::Proceeding {
    reliable: false,
    set: 0,
    last: None,
};

/// The INVITE came at 0, and the last response was a 180.
const RANG: InviteServerPhase = InviteServerPhase::Proceeding {
    reliable: false,
    set: 0,
    last: Some(RINGING),
};

/// The INVITE came at 0, and the last response was a 100.
const TRIED: InviteServerPhase = InviteServerPhase::Proceeding {
    reliable: false,
    set: 0,
    last: Some(TRYING),
};

/// The INVITE came at 0, and the last response was a 183.
const PROGRESSED: InviteServerPhase = InviteServerPhase::Proceeding {
    reliable: false,
    set: 0,
    last: Some(PROGRESS),
};

/// A 2xx was sent at 10.
const ACCEPTED_AT_10: InviteServerPhase = InviteServerPhase::Accepted { set: 10 };

/// A 2xx was sent at 20.
const ACCEPTED_AT_20: InviteServerPhase = InviteServerPhase::Accepted { set: 20 };

// The phases after a 486: `set` is when it was first sent, `repeat` when timer G was last set, and `interval` for how long.
const BUSY_AT_0: InviteServerPhase = InviteServerPhase::Completed {
    reliable: false,
    final_message: BUSY,
    set: 0,
    repeat: 0,
    interval: 500,
};

/// The 486 was sent again at 490, and first at 0.
const BUSY_AGAIN_AT_490: InviteServerPhase = InviteServerPhase::Completed {
    reliable: false,
    final_message: BUSY,
    set: 0,
    repeat: 490,
    interval: 1_000,
};

/// The 486 was sent again at 3,500, and first at 0.
const BUSY_AGAIN_AT_3_500: InviteServerPhase = InviteServerPhase::Completed {
    reliable: false,
    final_message: BUSY,
    set: 0,
    repeat: 3_500,
    interval: 4_000,
};

/// The 486 was sent again at 7,500, and first at 0.
const BUSY_AGAIN_AT_7_500: InviteServerPhase = InviteServerPhase::Completed {
    reliable: false,
    final_message: BUSY,
    set: 0,
    repeat: 7_500,
    interval: 4_000,
};

/// The 486 was sent at 10.
const BUSY_AT_10: InviteServerPhase = InviteServerPhase::Completed {
    reliable: false,
    final_message: BUSY,
    set: 10,
    repeat: 10,
    interval: 500,
};

/// The 486 was sent again at 460, and first at 10.
const BUSY_AGAIN_AT_460: InviteServerPhase = InviteServerPhase::Completed {
    reliable: false,
    final_message: BUSY,
    set: 10,
    repeat: 460,
    interval: 1_000,
};

/// The 486 was sent again at 560, and first at 10.
const BUSY_AGAIN_AT_560: InviteServerPhase = InviteServerPhase::Completed {
    reliable: false,
    final_message: BUSY,
    set: 10,
    repeat: 560,
    interval: 1_000,
};

/// The ACK for the 486 came at 100.
const CONFIRMED_AT_100: InviteServerPhase = InviteServerPhase::Confirmed {
    reliable: false,
    set: 100,
};

/// The ACK for the 486 came at 500.
const CONFIRMED_AT_500: InviteServerPhase = InviteServerPhase::Confirmed {
    reliable: false,
    set: 500,
};

/// The INVITE comes for the first time.
const FIRST: Entry = (0, Action::Received, INVITE);

/// A 100 is sent.
const TRYING_ONCE: Entry = (5, Action::Sent, TRYING);

/// Rows that end before the final response. The first one is due by 250, which is 200 ms and the tolerance later. An INVITE that comes again at 10
/// has the last response sent again by 60. Where a response is sent that is owed, it pays for the debt or is a new one: a state for each.
static BEFORE_THE_FINAL_RESPONSE: &[Row] = &[
    (&[], &[(IDLE, &[])]),
    // Before the INVITE nothing is sent, and an ACK changes nothing. An INVITE that comes again before any response changes nothing either.
    (&[(0, Action::Sent, BUSY)], &[]),
    (&[(0, Action::Received, ACK)], &[(IDLE, &[])]),
    (&[FIRST], &[(QUIET, &[])]),
    (&[FIRST, (10, Action::Received, INVITE)], &[(QUIET, &[])]),
    (&[FIRST, (250, Action::Received, INVITE)], &[(QUIET, &[])]),
    (&[FIRST, (251, Action::Received, INVITE)], &[]),
    (&[FIRST, (250, Action::Sent, RINGING)], &[(RANG, &[])]),
    (&[FIRST, (251, Action::Sent, RINGING)], &[]),
    (
        &[
            FIRST,
            (5, Action::Sent, RINGING),
            (10, Action::Received, INVITE),
        ],
        &[(RANG, &[(RINGING, 60, MUST)])],
    ),
    (
        &[
            FIRST,
            (5, Action::Sent, RINGING),
            (10, Action::Received, INVITE),
            (50, Action::Sent, RINGING),
        ],
        &[(RANG, &[(RINGING, 60, MUST)]), (RANG, &[])],
    ),
    (
        &[
            FIRST,
            (5, Action::Sent, RINGING),
            (10, Action::Received, INVITE),
            (60, Action::Failed, RINGING),
        ],
        &[(RANG, &[(RINGING, 60, MUST)]), (RANG, &[])],
    ),
    (
        &[
            FIRST,
            (5, Action::Sent, RINGING),
            (10, Action::Received, INVITE),
            (61, Action::Sent, RINGING),
        ],
        &[],
    ),
    (
        &[
            FIRST,
            (5, Action::Sent, RINGING),
            (10, Action::Received, INVITE),
            (20, Action::Sent, PROGRESS),
        ],
        &[(PROGRESSED, &[(RINGING, 60, MUST)])],
    ),
    (
        &[
            FIRST,
            (5, Action::Sent, RINGING),
            (10, Action::Received, INVITE),
            (20, Action::Sent, PROGRESS),
            (30, Action::Sent, RINGING),
        ],
        &[(RANG, &[(RINGING, 60, MUST)]), (PROGRESSED, &[])],
    ),
];

/// The server is idle, or it proceeds.
#[test]
fn before_the_final_response(rt: HostRuntime) -> Result<(), Fail> {
    all_lead(&rt, BEFORE_THE_FINAL_RESPONSE)
}

/// An INVITE that comes again must be answered by what was sent last, but need not be by a 100.
/// What may be sent until 60 is dropped at 61. A 100 that is sent then is a new one.
static A_100_NEED_NOT_BE_REPEATED: &[Row] = &[
    (
        &[FIRST, TRYING_ONCE, (10, Action::Received, INVITE)],
        &[(TRIED, &[(TRYING, 60, MAY)])],
    ),
    (
        &[
            FIRST,
            TRYING_ONCE,
            (10, Action::Received, INVITE),
            (61, Action::Received, INVITE),
        ],
        &[(TRIED, &[(TRYING, 111, MAY)])],
    ),
    (
        &[
            FIRST,
            TRYING_ONCE,
            (10, Action::Received, INVITE),
            (61, Action::Received, CANCEL),
        ],
        &[(TRIED, &[])],
    ),
    (
        &[
            FIRST,
            TRYING_ONCE,
            (10, Action::Received, INVITE),
            (61, Action::Sent, TRYING),
        ],
        &[(TRIED, &[])],
    ),
];

/// A 100 may be sent again when the INVITE comes again, and need not be.
#[test]
fn a_100_need_not_be_repeated(rt: HostRuntime) -> Result<(), Fail> {
    all_lead(&rt, A_100_NEED_NOT_BE_REPEATED)
}

/// Rows that end after a 2xx. Then a server sends only 2xx, until timer L fires 64 times T1 later, 32,060 at the latest; and a 180 that it owed before,
/// which need not be sent any more.
static AFTER_A_2XX: &[Row] = &[
    (&[FIRST, (10, Action::Sent, OK)], &[(ACCEPTED_AT_10, &[])]),
    (
        &[
            FIRST,
            (10, Action::Sent, OK),
            (500, Action::Received, INVITE),
        ],
        &[(ACCEPTED_AT_10, &[])],
    ),
    (
        &[FIRST, (10, Action::Sent, OK), (500, Action::Received, ACK)],
        &[(ACCEPTED_AT_10, &[])],
    ),
    (
        &[FIRST, (10, Action::Sent, OK), (600, Action::Sent, OK)],
        &[(ACCEPTED_AT_10, &[])],
    ),
    (
        &[FIRST, (10, Action::Sent, OK), (600, Action::Sent, BUSY)],
        &[],
    ),
    (
        &[FIRST, (10, Action::Sent, OK), (600, Action::Sent, RINGING)],
        &[],
    ),
    (
        &[FIRST, (10, Action::Sent, OK), (32_060, Action::Sent, OK)],
        &[(ACCEPTED_AT_10, &[])],
    ),
    (
        &[FIRST, (10, Action::Sent, OK), (32_061, Action::Sent, OK)],
        &[],
    ),
    (
        &[
            FIRST,
            (5, Action::Sent, RINGING),
            (10, Action::Received, INVITE),
            (20, Action::Sent, OK),
        ],
        &[(ACCEPTED_AT_20, &[(RINGING, 60, MAY)])],
    ),
    (
        &[
            FIRST,
            (5, Action::Sent, RINGING),
            (10, Action::Received, INVITE),
            (20, Action::Sent, OK),
            (60, Action::Sent, RINGING),
        ],
        &[(ACCEPTED_AT_20, &[])],
    ),
    (
        &[
            FIRST,
            (5, Action::Sent, RINGING),
            (10, Action::Received, INVITE),
            (20, Action::Sent, OK),
            (61, Action::Sent, RINGING),
        ],
        &[],
    ),
];

/// A 2xx was sent.
#[test]
fn after_a_2xx(rt: HostRuntime) -> Result<(), Fail> {
    all_lead(&rt, AFTER_A_2XX)
}

/// Rows in which timer G has the 486 sent again: T1 after the first send, give or take the tolerance, and each time twice as late, up to T2.
/// A 486 that answers an INVITE which came again leaves timer G as it is; where either may be, there is a state for each.
static TIMER_G: &[Row] = &[
    (&[FIRST, (10, Action::Sent, BUSY)], &[(BUSY_AT_10, &[])]),
    (
        &[FIRST, (10, Action::Sent, BUSY), (459, Action::Sent, BUSY)],
        &[],
    ),
    (
        &[FIRST, (10, Action::Sent, BUSY), (460, Action::Sent, BUSY)],
        &[(BUSY_AGAIN_AT_460, &[])],
    ),
    (
        &[FIRST, (10, Action::Sent, BUSY), (560, Action::Sent, BUSY)],
        &[(BUSY_AGAIN_AT_560, &[])],
    ),
    (
        &[FIRST, (10, Action::Sent, BUSY), (561, Action::Sent, BUSY)],
        &[],
    ),
    (
        &[FIRST, (10, Action::Sent, BUSY), (460, Action::Sent, OK)],
        &[],
    ),
    (
        &[
            FIRST,
            (0, Action::Sent, BUSY),
            (500, Action::Sent, BUSY),
            (1_500, Action::Sent, BUSY),
            (3_500, Action::Sent, BUSY),
        ],
        &[(BUSY_AGAIN_AT_3_500, &[])],
    ),
    (
        &[
            FIRST,
            (0, Action::Sent, BUSY),
            (500, Action::Sent, BUSY),
            (1_500, Action::Sent, BUSY),
            (3_500, Action::Sent, BUSY),
            (7_500, Action::Sent, BUSY),
        ],
        &[(BUSY_AGAIN_AT_7_500, &[])],
    ),
    (
        &[
            FIRST,
            (0, Action::Sent, BUSY),
            (480, Action::Received, INVITE),
            (490, Action::Sent, BUSY),
        ],
        &[(BUSY_AGAIN_AT_490, &[(BUSY, 530, MAY)]), (BUSY_AT_0, &[])],
    ),
    (
        &[
            FIRST,
            (0, Action::Sent, BUSY),
            (100, Action::Received, INVITE),
            (120, Action::Sent, BUSY),
        ],
        &[(BUSY_AT_0, &[])],
    ),
];

/// A 486 was sent, and timer G sends it again.
#[test]
fn timer_g(rt: HostRuntime) -> Result<(), Fail> {
    all_lead(&rt, TIMER_G)
}

/// Rows that end after the ACK. It stops timer G, which has to fire by 550 before, and sets timer I, which fires T4 later, 5,150 at the latest. Then
/// a 486 may go out only if it was owed before. An INFO is no ACK.
static AFTER_THE_ACK: &[Row] = &[
    (
        &[
            FIRST,
            (0, Action::Sent, BUSY),
            (100, Action::Received, OTHER),
        ],
        &[(BUSY_AT_0, &[])],
    ),
    (
        &[FIRST, (0, Action::Sent, BUSY), (100, Action::Received, ACK)],
        &[(CONFIRMED_AT_100, &[])],
    ),
    (
        &[FIRST, (0, Action::Sent, BUSY), (551, Action::Received, ACK)],
        &[],
    ),
    (
        &[
            FIRST,
            (0, Action::Sent, BUSY),
            (100, Action::Received, ACK),
            (5_150, Action::Received, ACK),
        ],
        &[(CONFIRMED_AT_100, &[])],
    ),
    (
        &[
            FIRST,
            (0, Action::Sent, BUSY),
            (100, Action::Received, ACK),
            (5_151, Action::Received, ACK),
        ],
        &[],
    ),
    (
        &[
            FIRST,
            (0, Action::Sent, BUSY),
            (100, Action::Received, ACK),
            (500, Action::Sent, BUSY),
        ],
        &[],
    ),
    (
        &[
            FIRST,
            (0, Action::Sent, BUSY),
            (480, Action::Received, INVITE),
            (500, Action::Received, ACK),
        ],
        &[(CONFIRMED_AT_500, &[(BUSY, 530, MAY)])],
    ),
    (
        &[
            FIRST,
            (0, Action::Sent, BUSY),
            (480, Action::Received, INVITE),
            (500, Action::Received, ACK),
            (530, Action::Sent, BUSY),
        ],
        &[(CONFIRMED_AT_500, &[])],
    ),
    (
        &[
            FIRST,
            (0, Action::Sent, BUSY),
            (480, Action::Received, INVITE),
            (500, Action::Received, ACK),
            (531, Action::Sent, BUSY),
        ],
        &[],
    ),
];

/// An ACK has come for the 486.
#[test]
fn after_the_ack(rt: HostRuntime) -> Result<(), Fail> {
    all_lead(&rt, AFTER_THE_ACK)
}

/// When the states after the entries may end: the window, if there is one, and the last moment until which the state can wait, if any.
/// The first response is due by 250, and the 180 again by 60. Timers L and H end a server 64*T1 after its final response, at 10 or 20, and timer I T4
/// after the ACK, each give or take the tolerance; but timer G has the 486 sent again by 550 after it.
static ENDS: &[EndsRow] = &[
    (&[], None, None),
    (&[FIRST], None, Some(250)),
    (&[FIRST, (5, Action::Sent, RINGING)], None, None),
    (
        &[
            FIRST,
            (5, Action::Sent, RINGING),
            (10, Action::Received, INVITE),
        ],
        None,
        Some(60),
    ),
    (
        &[FIRST, (10, Action::Sent, OK)],
        Some((31_960, Some(32_060))),
        Some(32_060),
    ),
    (
        &[FIRST, (10, Action::Sent, BUSY)],
        Some((31_960, Some(32_060))),
        Some(560),
    ),
    (
        &[
            FIRST,
            (5, Action::Sent, RINGING),
            (10, Action::Received, INVITE),
            (20, Action::Sent, BUSY),
        ],
        Some((31_970, Some(32_070))),
        Some(570),
    ),
    (
        &[
            FIRST,
            (10, Action::Sent, BUSY),
            (100, Action::Received, ACK),
        ],
        Some((5_050, Some(5_150))),
        Some(5_150),
    ),
];

/// When each state may end, and its last moment, over UDP.
#[test]
fn ends(rt: HostRuntime) -> Result<(), Fail> {
    let server = server()?;
    holds(&rt, server.ended() == IDLE, "the end");
    all_end(&rt, &server, &book(rt.alloc())?, ENDS)
}

/// The 486 was sent at 700, over TCP.
const COMPLETED_OVER_TCP: InviteServerPhase = InviteServerPhase::Completed {
    reliable: true,
    final_message: BUSY,
    set: 700,
    repeat: 700,
    interval: 500,
};

/// The ACK for the 486 came at 700, over TCP.
const CONFIRMED_OVER_TCP: InviteServerPhase = InviteServerPhase::Confirmed {
    reliable: true,
    set: 700,
};

/// When each state may end, and its last moment, over TCP, where timer G does not run: by timer H 64*T1 after the 486, and by timer I, which is 0 there.
#[test]
fn ends_over_tcp(rt: HostRuntime) -> Result<(), Fail> {
    let server = server()?;
    phase_ends(
        &rt,
        &server,
        COMPLETED_OVER_TCP,
        (Some((32_650, Some(32_750))), Some(32_750)),
        "completed",
    )?;
    phase_ends(
        &rt,
        &server,
        CONFIRMED_OVER_TCP,
        (Some((700, Some(750))), Some(750)),
        "confirmed",
    )
}

/// How often a 180, a 183 and the INVITE come in turn in the next test.
const TURNS: usize = 10;

/// The INVITE is received, and then a 180 and a 183 are sent and the INVITE is received again, in turn, all at one moment.
fn turns(alloc: Global) -> Result<Vec<Entry>, AllocError> {
    let mut entries = Vec::new(alloc);
    push_turns(&mut entries)?;
    Ok(entries)
}

/// Appends the entries of `turns`.
fn push_turns(entries: &mut Vec<Entry>) -> Result<(), AllocError> {
    entries.push((0, Action::Received, INVITE))?;
    for _turn in 0..TURNS {
        entries.push((0, Action::Sent, RINGING))?;
        entries.push((0, Action::Sent, PROGRESS))?;
        entries.push((0, Action::Received, INVITE))?;
    }
    Ok(())
}

/// Many of the states owe the same in other orders. A count of lists by hand gives 176 states: each send pays the first debt of its response, or is one of
/// its own, and each INVITE is owed the response that was sent last.
#[test]
fn states_that_owe_the_same_in_other_orders_stay(rt: HostRuntime) -> Result<(), Fail> {
    let pool = run_together(
        rt.alloc(),
        &server()?,
        &book(rt.alloc())?,
        &turns(rt.alloc())?,
    )?;
    holds(&rt, pool.len() == 176, "176 states");
    Ok(())
}
