//! The INVITE client, with moments worked out by hand for T1 500 and a tolerance of 50.
use crate::messages::{Numbered, Start, book_of};
use crate::rows::{self, EndsRow, MUST, all_end};
use crate::runs::Entry;
use crate::times::params;
use sip_machine::{Action, Book, InviteClient, InviteClientPhase, Waiting};
use std::alloc::Global;
use std::process::Abort;
use std::test::Fail;

/// The number of the INVITE.
const INVITE: u64 = 1;

/// The number of an INVITE with a tag in To, which is no repeat of the first.
const OTHER_INVITE: u64 = 2;

/// The number of a 100.
const TRYING: u64 = 3;

/// The number of a 180.
const RINGING: u64 = 4;

/// The number of a 200.
const OK: u64 = 5;

/// The number of a 486.
const BUSY: u64 = 6;

/// The number of a 480 with another tag in To.
const GONE: u64 = 7;

/// The ACK for `BUSY`.
const ACK: u64 = 8;

/// The ACK for `GONE`.
const OTHER_ACK: u64 = 9;

/// The number of a CANCEL.
const CANCEL: u64 = 10;

/// The number of a request that an INVITE client never sends.
const OPTIONS: u64 = 11;

/// A client with this T1.
fn client(t1: u64) -> Result<InviteClient, Fail> {
    Ok(InviteClient::new(params(t1)?))
}

/// The messages by number: the start line of each, and its tag in To.
const MESSAGES: [Numbered; 11] = [
    (INVITE, Start::Request("INVITE"), None),
    (OTHER_INVITE, Start::Request("INVITE"), Some(9)),
    (TRYING, Start::Response(100), None),
    (RINGING, Start::Response(180), Some(2)),
    (OK, Start::Response(200), Some(2)),
    (BUSY, Start::Response(486), Some(2)),
    (GONE, Start::Response(480), Some(3)),
    (ACK, Start::Request("ACK"), Some(2)),
    (OTHER_ACK, Start::Request("ACK"), Some(3)),
    (CANCEL, Start::Request("CANCEL"), None),
    (OPTIONS, Start::Request("OPTIONS"), None),
];

/// A book with the messages, whose Via names this transport.
fn book(alloc: Global, transport: &str) -> Result<Book, Fail> {
    book_of(alloc, &MESSAGES, "INVITE", transport)
}

/// Entries, and the states to which they lead an INVITE client.
/// Each state has its phase and its debts: a message, the deadline, and whether it must be sent. No state: the entries have no run.
type Row = rows::Row<InviteClientPhase>;

/// Asserts that the entries of each row lead to the states of the row.
fn all_lead(rt: &(impl Abort + AllocGlobal), transport: &str, rows: &[Row]) -> Result<(), Fail> {
    rows::all_lead(rt, &client(500)?, &book(rt.alloc(), transport)?, rows)
}

/// Nothing was sent yet.
const IDLE: InviteClientPhase = InviteClientPhase::Idle;

/// The INVITE was sent at 0, and timer A was set then for T1.
const CALLING_SINCE_0: InviteClientPhase = InviteClientPhase::Calling(Waiting {
    reliable: false,
    request: INVITE,
    start: 0,
    set: 0,
    interval: 500,
});

/// The INVITE was repeated at 450, and timer A was set then for twice T1.
const CALLING_SINCE_450: InviteClientPhase = InviteClientPhase::Calling(Waiting {
    reliable: false,
    request: INVITE,
    start: 0,
    set: 450,
    interval: 1_000,
});

/// The INVITE was repeated at 550, and timer A was set then for twice T1.
const CALLING_SINCE_550: InviteClientPhase = InviteClientPhase::Calling(Waiting {
    reliable: false,
    request: INVITE,
    start: 0,
    set: 550,
    interval: 1_000,
});

/// The INVITE was repeated for the sixth time at 31,500, and timer A was set then for 64 times T1.
const CALLING_SINCE_31_500: InviteClientPhase = InviteClientPhase::Calling(Waiting {
    reliable: false,
    request: INVITE,
    start: 0,
    set: 31_500,
    interval: 32_000,
});

/// A provisional response came, and no CANCEL was sent.
const WAITS_ON: InviteClientPhase = InviteClientPhase::Proceeding {
    reliable: false,
    request: INVITE,
    cancel: None,
};

/// A provisional response came, and a CANCEL was sent at 150.
const CANCELLED_AT_150: InviteClientPhase = InviteClientPhase::Proceeding {
    reliable: false,
    request: INVITE,
    cancel: Some(150),
};

/// A 2xx came at 100.
const ACCEPTED_AT_100: InviteClientPhase = InviteClientPhase::Accepted { set: 100 };

/// A 2xx came at 300.
const ACCEPTED_AT_300: InviteClientPhase = InviteClientPhase::Accepted { set: 300 };

/// A final response other than a 2xx came at 550.
const COMPLETED_AT_550: InviteClientPhase = InviteClientPhase::Completed {
    reliable: false,
    request: INVITE,
    set: 550,
};

/// A final response other than a 2xx came at 1,000.
const COMPLETED_AT_1_000: InviteClientPhase = InviteClientPhase::Completed {
    reliable: false,
    request: INVITE,
    set: 1_000,
};

/// A final response other than a 2xx came at 0, over TCP.
const COMPLETED_OVER_TCP: InviteClientPhase = InviteClientPhase::Completed {
    reliable: true,
    request: INVITE,
    set: 0,
};

/// The transaction has ended.
const ENDED: InviteClientPhase = InviteClientPhase::Ended;

/// The INVITE is sent for the first time.
const FIRST: Entry = (0, Action::Sent, INVITE);

/// The INVITE with each repeat that timer A causes before timer B fires.
const REPEATS: [Entry; 7] = [
    FIRST,
    (500, Action::Sent, INVITE),
    (1_500, Action::Sent, INVITE),
    (3_500, Action::Sent, INVITE),
    (7_500, Action::Sent, INVITE),
    (15_500, Action::Sent, INVITE),
    (31_500, Action::Sent, INVITE),
];

/// What may happen in calling, and what may not. Timer A has the same INVITE sent again T1 after the first, give or take the tolerance: from 450 to 550.
/// Before a response no CANCEL is sent. An INVITE whose send fails ends the client, but only where it may be sent.
static CALLING: &[Row] = &[
    (&[], &[(IDLE, &[])]),
    (&[FIRST], &[(CALLING_SINCE_0, &[])]),
    (&[FIRST, (449, Action::Sent, INVITE)], &[]),
    (
        &[FIRST, (450, Action::Sent, INVITE)],
        &[(CALLING_SINCE_450, &[])],
    ),
    (
        &[FIRST, (550, Action::Sent, INVITE)],
        &[(CALLING_SINCE_550, &[])],
    ),
    (&[FIRST, (551, Action::Sent, INVITE)], &[]),
    (&[FIRST, (500, Action::Sent, OTHER_INVITE)], &[]),
    (&REPEATS, &[(CALLING_SINCE_31_500, &[])]),
    (&[FIRST, (10, Action::Sent, CANCEL)], &[]),
    (&[FIRST, (10, Action::Failed, CANCEL)], &[]),
    (&[(0, Action::Failed, INVITE)], &[(ENDED, &[])]),
    (&[FIRST, (500, Action::Failed, INVITE)], &[(ENDED, &[])]),
    (&[FIRST, (449, Action::Failed, INVITE)], &[]),
];

/// The INVITE was sent, and no response has come.
#[test]
fn calling(rt: HostRuntime) -> Result<(), Fail> {
    all_lead(&rt, "UDP", CALLING)
}

/// A 100 comes.
const WAITS: Entry = (100, Action::Received, TRYING);

/// A CANCEL that is sent after `WAITS`.
const CANCELLED: Entry = (150, Action::Sent, CANCEL);

/// What may happen in proceeding, and what may not: no INVITE is sent again. After a 2xx a CANCEL and a late 486 change nothing.
/// A CANCEL counts from its first send on, whether or not the transport took it.
static PROCEEDING: &[Row] = &[
    (&[FIRST, WAITS], &[(WAITS_ON, &[])]),
    (
        &[FIRST, WAITS, (200, Action::Received, TRYING)],
        &[(WAITS_ON, &[])],
    ),
    (&[FIRST, WAITS, (500, Action::Sent, INVITE)], &[]),
    (&[FIRST, WAITS, CANCELLED], &[(CANCELLED_AT_150, &[])]),
    (
        &[FIRST, WAITS, (150, Action::Failed, CANCEL)],
        &[(CANCELLED_AT_150, &[])],
    ),
    (
        &[FIRST, WAITS, CANCELLED, (200, Action::Sent, CANCEL)],
        &[(CANCELLED_AT_150, &[])],
    ),
    (
        &[FIRST, (100, Action::Received, RINGING), CANCELLED],
        &[(CANCELLED_AT_150, &[])],
    ),
    (
        &[FIRST, WAITS, CANCELLED, (300, Action::Received, OK)],
        &[(ACCEPTED_AT_300, &[])],
    ),
    (
        &[FIRST, (100, Action::Received, OK), CANCELLED],
        &[(ACCEPTED_AT_100, &[])],
    ),
    (
        &[
            FIRST,
            (100, Action::Received, OK),
            (200, Action::Received, BUSY),
        ],
        &[(ACCEPTED_AT_100, &[])],
    ),
];

/// A provisional response has come.
#[test]
fn proceeding(rt: HostRuntime) -> Result<(), Fail> {
    all_lead(&rt, "UDP", PROCEEDING)
}

/// A 486 comes.
const BUSY_NOW: Entry = (1_000, Action::Received, BUSY);

/// The states after `BUSY_NOW`: its response must be acknowledged by 1,050.
const OWED: &[rows::Want<InviteClientPhase>] = &[(COMPLETED_AT_1_000, &[(BUSY, 1_050, MUST)])];

/// The states where the ACK was sent after `BUSY_NOW`: nothing is owed.
const PAID: &[rows::Want<InviteClientPhase>] = &[(COMPLETED_AT_1_000, &[])];

/// What may happen in completed, and what may not. Without a 100 before it the 486 has to come by 550, since timer A fires by then. The ACK is due 50
/// after the response, with the response's tag in To; one whose send fails ends the client.
static COMPLETED: &[Row] = &[
    (
        &[FIRST, (550, Action::Received, BUSY)],
        &[(COMPLETED_AT_550, &[(BUSY, 600, MUST)])],
    ),
    (&[FIRST, (551, Action::Received, BUSY)], &[]),
    (&[FIRST, WAITS, BUSY_NOW], OWED),
    (&[FIRST, WAITS, BUSY_NOW, (1_010, Action::Sent, ACK)], PAID),
    (&[FIRST, WAITS, BUSY_NOW, (1_050, Action::Sent, ACK)], PAID),
    (&[FIRST, WAITS, BUSY_NOW, (1_051, Action::Sent, ACK)], &[]),
    (
        &[FIRST, WAITS, BUSY_NOW, (1_010, Action::Sent, OTHER_ACK)],
        &[],
    ),
    (
        &[FIRST, WAITS, BUSY_NOW, (1_010, Action::Failed, ACK)],
        &[(ENDED, &[])],
    ),
    (
        &[FIRST, WAITS, BUSY_NOW, (1_010, Action::Failed, OTHER_ACK)],
        &[],
    ),
];

/// A response of 300 to 699 has come.
#[test]
fn completed(rt: HostRuntime) -> Result<(), Fail> {
    all_lead(&rt, "UDP", COMPLETED)
}

/// After a 486 each response of 300 to 699 that comes is owed an ACK, and nothing else is.
/// The 480 (`GONE`) has another tag than the 486, so that each has an ACK of its own. An ACK pays the first debt that it is for.
static OWES_EACH_RESPONSE: &[Row] = &[
    (
        &[FIRST, WAITS, BUSY_NOW, (1_010, Action::Received, OK)],
        OWED,
    ),
    (
        &[FIRST, WAITS, BUSY_NOW, (1_010, Action::Sent, CANCEL)],
        OWED,
    ),
    (
        &[
            FIRST,
            WAITS,
            BUSY_NOW,
            (1_020, Action::Received, GONE),
            (1_030, Action::Sent, OTHER_ACK),
        ],
        OWED,
    ),
    (
        &[
            FIRST,
            WAITS,
            BUSY_NOW,
            (1_020, Action::Received, GONE),
            (1_030, Action::Sent, ACK),
        ],
        &[(COMPLETED_AT_1_000, &[(GONE, 1_070, MUST)])],
    ),
    (
        &[
            FIRST,
            WAITS,
            BUSY_NOW,
            (1_020, Action::Received, BUSY),
            (1_030, Action::Sent, ACK),
        ],
        &[(COMPLETED_AT_1_000, &[(BUSY, 1_070, MUST)])],
    ),
];

/// Each response of 300 to 699 is owed an ACK of its own.
#[test]
fn owes_each_response(rt: HostRuntime) -> Result<(), Fail> {
    all_lead(&rt, "UDP", OWES_EACH_RESPONSE)
}

/// An INVITE whose send failed.
const NOT_SENT: Entry = (0, Action::Failed, INVITE);

/// Rows of a client that sent nothing, and of one that has ended.
/// An ACK, a CANCEL and a response leave an idle client idle, and it sends no OPTIONS. One that has ended may send a CANCEL, and neither an INVITE
/// nor an ACK.
static IDLE_AND_ENDED: &[Row] = &[
    (&[(0, Action::Sent, ACK)], &[(IDLE, &[])]),
    (&[(0, Action::Failed, ACK)], &[(IDLE, &[])]),
    (&[(0, Action::Sent, CANCEL)], &[(IDLE, &[])]),
    (&[(0, Action::Failed, CANCEL)], &[(IDLE, &[])]),
    (&[(0, Action::Received, BUSY)], &[(IDLE, &[])]),
    (&[(0, Action::Sent, OPTIONS)], &[]),
    (&[NOT_SENT, (10, Action::Sent, CANCEL)], &[(ENDED, &[])]),
    (&[NOT_SENT, (10, Action::Received, BUSY)], &[(ENDED, &[])]),
    (&[NOT_SENT, (10, Action::Sent, INVITE)], &[]),
    (&[NOT_SENT, (10, Action::Sent, ACK)], &[]),
];

/// Nothing was sent yet, or the client has ended.
#[test]
fn idle_and_ended(rt: HostRuntime) -> Result<(), Fail> {
    all_lead(&rt, "UDP", IDLE_AND_ENDED)
}

/// Two equal responses that are received over a reliable transport, and the ACK for one of them.
const OWING: [Entry; 4] = [FIRST, BUSY_AT_ONCE, BUSY_AGAIN, ACK_OF_ONE];

/// A 486 comes at the moment of the INVITE.
const BUSY_AT_ONCE: Entry = (0, Action::Received, BUSY);

/// The 486 comes again.
const BUSY_AGAIN: Entry = (40, Action::Received, BUSY);

/// One ACK is sent, which pays for one of the two.
const ACK_OF_ONE: Entry = (50, Action::Sent, ACK);

/// What may happen over TCP, where no timer repeats a request.
/// Timer D is 0 there, so that the client lasts until 50 after the 486 at 0: its second ACK, though due by 90, is sent at 50 and not at 51.
static OVER_A_RELIABLE_TRANSPORT: &[Row] = &[
    (&[FIRST, (500, Action::Sent, INVITE)], &[]),
    (&[FIRST, (500, Action::Failed, INVITE)], &[]),
    (&OWING, &[(COMPLETED_OVER_TCP, &[(BUSY, 90, MUST)])]),
    (
        &[
            FIRST,
            BUSY_AT_ONCE,
            BUSY_AGAIN,
            ACK_OF_ONE,
            (50, Action::Sent, ACK),
        ],
        &[(COMPLETED_OVER_TCP, &[])],
    ),
    (
        &[
            FIRST,
            BUSY_AT_ONCE,
            BUSY_AGAIN,
            ACK_OF_ONE,
            (51, Action::Sent, ACK),
        ],
        &[],
    ),
];

/// Over TCP nothing is sent again.
#[test]
fn over_a_reliable_transport(rt: HostRuntime) -> Result<(), Fail> {
    all_lead(&rt, "TCP", OVER_A_RELIABLE_TRANSPORT)
}

/// The times at which timer B may fire: 64 times T1 after the first INVITE, give or take the tolerance.
const TIMER_B: Option<(u64, Option<u64>)> = Some((31_950, Some(32_050)));

/// When the states after the entries may end, over UDP: the window, if there is one, and the last moment until which the state can wait, if any.
/// A client that was cancelled at 150 may end from 64*T1 later on, give or take the tolerance, and one whose 486 came at 1,000 by timer D, which is
/// at least 32 s: neither has to. While an ACK is owed a client does not end. Timer M ends one whose 200 came at 100, 64*T1 later.
static ENDS: &[EndsRow] = &[
    (&[], None, None),
    (&[FIRST], TIMER_B, Some(550)),
    (&REPEATS, TIMER_B, Some(32_050)),
    (&[FIRST, WAITS], None, None),
    (&[FIRST, WAITS, CANCELLED], Some((32_100, None)), None),
    (&[FIRST, WAITS, BUSY_NOW], None, Some(1_050)),
    (
        &[FIRST, WAITS, BUSY_NOW, (1_010, Action::Sent, ACK)],
        Some((32_950, None)),
        None,
    ),
    (&[NOT_SENT], None, None),
    (&[FIRST, OK_NOW], Some((32_050, Some(32_150))), Some(32_150)),
];

/// When each state may end, and its last moment, over UDP.
#[test]
fn ends(rt: HostRuntime) -> Result<(), Fail> {
    all_end(&rt, &client(500)?, &book(rt.alloc(), "UDP")?, ENDS)
}

/// A 200 comes.
const OK_NOW: Entry = (100, Action::Received, OK);

/// When the states after the entries may end, over TCP.
/// Over TCP timer A does not run, and timer D is 0: after the 486 at 0 the client ends by 50. While it owes an ACK it may not end, and lasts no longer.
static ENDS_OVER_TCP: &[EndsRow] = &[
    (&[FIRST], TIMER_B, Some(32_050)),
    (&OWING, None, Some(50)),
    (
        &[
            FIRST,
            BUSY_AT_ONCE,
            BUSY_AGAIN,
            ACK_OF_ONE,
            (50, Action::Sent, ACK),
        ],
        Some((0, Some(50))),
        Some(50),
    ),
    (&[FIRST, OK_NOW], Some((32_050, Some(32_150))), Some(32_150)),
];

/// When each state may end, and its last moment, over TCP.
#[test]
fn ends_over_tcp(rt: HostRuntime) -> Result<(), Fail> {
    all_end(&rt, &client(500)?, &book(rt.alloc(), "TCP")?, ENDS_OVER_TCP)
}

/// When the states after the entries may end, with a T1 of 1,000.
/// Timer M is 64 times T1, here 64,000 from the 200 at 100 on.
static ENDS_OF_SLOW_TIMERS: &[EndsRow] = &[(
    &[FIRST, OK_NOW],
    Some((64_050, Some(64_150))),
    Some(64_150),
)];

/// When each state may end where T1 is 1,000.
#[test]
fn ends_of_slow_timers(rt: HostRuntime) -> Result<(), Fail> {
    all_end(
        &rt,
        &client(1_000)?,
        &book(rt.alloc(), "UDP")?,
        ENDS_OF_SLOW_TIMERS,
    )
}
