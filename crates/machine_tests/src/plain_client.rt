//! The non-INVITE client, with moments worked out by hand for T1 500, T2 4000, T4 5000 and a tolerance of 50.
use crate::messages::{Numbered, Start, book_of};
use crate::rows::{self, phase_ends};
use crate::runs::Entry;
use crate::times::params;
use sip_machine::{Action, Book, Machine, PlainClient, PlainClientPhase, Waiting};
use std::alloc::Global;
use std::process::Abort;
use std::test::Fail;

/// The number of the request, an OPTIONS.
const REQUEST: u64 = 1;

/// The number of another request, an INFO.
const OTHER: u64 = 2;

/// The messages by number, which is the code where it is a response.
const MESSAGES: [Numbered; 6] = [
    (REQUEST, Start::Request("OPTIONS"), None),
    (OTHER, Start::Request("INFO"), None),
    (100, Start::Response(100), Some(2)),
    (199, Start::Response(199), Some(2)),
    (200, Start::Response(200), Some(2)),
    (699, Start::Response(699), Some(2)),
];

/// A client with the times of the tests.
fn client() -> Result<PlainClient, Fail> {
    Ok(PlainClient::new(params(500)?))
}

/// A book with the messages.
fn book(alloc: Global) -> Result<Book, Fail> {
    book_of(alloc, &MESSAGES, "OPTIONS", "UDP")
}

/// Entries, and the states to which they lead a non-INVITE client.
type Row = rows::Row<PlainClientPhase>;

/// Asserts that the entries of each row lead to the states of the row.
fn all_lead(rt: &(impl Abort + AllocGlobal), rows: &[Row]) -> Result<(), Fail> {
    rows::all_lead(rt, &client()?, &book(rt.alloc())?, rows)
}

/// The request was sent at moment 0, over an unreliable transport, and timer E was set then.
const WAITING: Waiting = Waiting {
    reliable: false,
    request: REQUEST,
    start: 0,
    set: 0,
    interval: 500,
};

/// Nothing was sent yet.
const IDLE: PlainClientPhase = PlainClientPhase::Idle;

/// The request was sent at 0, and nothing came.
const TRYING: PlainClientPhase = PlainClientPhase::Trying(WAITING);

/// The request was repeated at 450, and timer E was set then for twice T1.
const TRYING_FROM_450: PlainClientPhase = PlainClientPhase::Trying(Waiting {
    set: 450,
    interval: 1_000,
    ..WAITING
});

/// The request was repeated at 550, and timer E was set then for twice T1.
const TRYING_FROM_550: PlainClientPhase = PlainClientPhase::Trying(Waiting {
    set: 550,
    interval: 1_000,
    ..WAITING
});

/// The request was repeated at 3,500, and timer E was set then for T2.
const TRYING_FROM_3_500: PlainClientPhase = PlainClientPhase::Trying(Waiting {
    set: 3_500,
    interval: 4_000,
    ..WAITING
});

/// The request was repeated at 7,500, and timer E was set then for T2 again.
const TRYING_FROM_7_500: PlainClientPhase = PlainClientPhase::Trying(Waiting {
    set: 7_500,
    interval: 4_000,
    ..WAITING
});

/// A provisional response came, and timer E still runs since 0.
const PROCEEDING: PlainClientPhase = PlainClientPhase::Proceeding(WAITING);

/// The request was repeated at 450, after a provisional response, and timer E was set then for T2.
const PROCEEDING_FROM_450: PlainClientPhase = PlainClientPhase::Proceeding(Waiting {
    set: 450,
    interval: 4_000,
    ..WAITING
});

/// A final response came at 100.
const COMPLETED_AT_100: PlainClientPhase = PlainClientPhase::Completed {
    reliable: false,
    set: 100,
};

/// A final response came at 550.
const COMPLETED_AT_550: PlainClientPhase = PlainClientPhase::Completed {
    reliable: false,
    set: 550,
};

/// The transaction has ended.
const ENDED: PlainClientPhase = PlainClientPhase::Ended;

/// Rows that end before the final response. Timer E has the same request sent again T1 after the first, give or take the tolerance, from 450 to 550,
/// and each time twice as late, up to T2; a provisional response leaves it as it is, and it is set for T2 from then on. Other bytes are no repeat.
static BEFORE_THE_FINAL_RESPONSE: &[Row] = &[
    (&[], &[(IDLE, &[])]),
    (&[(0, Action::Sent, REQUEST)], &[(TRYING, &[])]),
    (
        &[(0, Action::Sent, REQUEST), (449, Action::Sent, REQUEST)],
        &[],
    ),
    (
        &[(0, Action::Sent, REQUEST), (450, Action::Sent, REQUEST)],
        &[(TRYING_FROM_450, &[])],
    ),
    (
        &[(0, Action::Sent, REQUEST), (550, Action::Sent, REQUEST)],
        &[(TRYING_FROM_550, &[])],
    ),
    (
        &[(0, Action::Sent, REQUEST), (551, Action::Sent, REQUEST)],
        &[],
    ),
    (
        &[(0, Action::Sent, REQUEST), (500, Action::Sent, OTHER)],
        &[],
    ),
    (
        &[
            (0, Action::Sent, REQUEST),
            (500, Action::Sent, REQUEST),
            (1_500, Action::Sent, REQUEST),
            (3_500, Action::Sent, REQUEST),
        ],
        &[(TRYING_FROM_3_500, &[])],
    ),
    (
        &[
            (0, Action::Sent, REQUEST),
            (500, Action::Sent, REQUEST),
            (1_500, Action::Sent, REQUEST),
            (3_500, Action::Sent, REQUEST),
            (7_500, Action::Sent, REQUEST),
        ],
        &[(TRYING_FROM_7_500, &[])],
    ),
    (
        &[(0, Action::Sent, REQUEST), (100, Action::Received, 100)],
        &[(PROCEEDING, &[])],
    ),
    (
        &[
            (0, Action::Sent, REQUEST),
            (100, Action::Received, 100),
            (200, Action::Received, 199),
        ],
        &[(PROCEEDING, &[])],
    ),
    (
        &[
            (0, Action::Sent, REQUEST),
            (100, Action::Received, 100),
            (449, Action::Sent, REQUEST),
        ],
        &[],
    ),
    (
        &[
            (0, Action::Sent, REQUEST),
            (100, Action::Received, 100),
            (450, Action::Sent, REQUEST),
        ],
        &[(PROCEEDING_FROM_450, &[])],
    ),
];

/// The request was sent, and no final response has come.
#[test]
fn before_the_final_response(rt: HostRuntime) -> Result<(), Fail> {
    all_lead(&rt, BEFORE_THE_FINAL_RESPONSE)
}

/// Rows that end after a final response, or after a refused send. The response has to come by 550, since timer E fires by then. After it nothing is sent,
/// and timer K ends the client T4 later, 5,150 at the latest. A refused send ends it too, but only where the request may be sent.
static FINAL_RESPONSES_AND_FAILURES: &[Row] = &[
    (
        &[(0, Action::Sent, REQUEST), (550, Action::Received, 200)],
        &[(COMPLETED_AT_550, &[])],
    ),
    (
        &[(0, Action::Sent, REQUEST), (551, Action::Received, 200)],
        &[],
    ),
    (
        &[
            (0, Action::Sent, REQUEST),
            (100, Action::Received, 200),
            (5_150, Action::Received, 699),
        ],
        &[(COMPLETED_AT_100, &[])],
    ),
    (
        &[
            (0, Action::Sent, REQUEST),
            (100, Action::Received, 200),
            (500, Action::Sent, REQUEST),
        ],
        &[],
    ),
    // A send that is refused ends the client, where the request may be sent: at first, and from 450 on. A response to nothing leaves it idle.
    (&[(0, Action::Failed, REQUEST)], &[(ENDED, &[])]),
    (
        &[(0, Action::Sent, REQUEST), (500, Action::Failed, REQUEST)],
        &[(ENDED, &[])],
    ),
    (
        &[(0, Action::Sent, REQUEST), (449, Action::Failed, REQUEST)],
        &[],
    ),
    (&[(100, Action::Received, 200)], &[(IDLE, &[])]),
];

/// A final response came, or a message was refused.
#[test]
fn final_responses_and_failures(rt: HostRuntime) -> Result<(), Fail> {
    all_lead(&rt, FINAL_RESPONSES_AND_FAILURES)
}

/// Timer F fires between 31,950 and 32,050.
const TIMER_F: Option<(u64, Option<u64>)> = Some((31_950, Some(32_050)));

/// A provisional response has come, and timer E was last set at 31,500.
const PROCEEDING_FROM_31_500: PlainClientPhase = PlainClientPhase::Proceeding(Waiting {
    set: 31_500,
    interval: 4_000,
    ..WAITING
});

/// A final response came at 700.
const COMPLETED_AT_700: PlainClientPhase = PlainClientPhase::Completed {
    reliable: false,
    set: 700,
};

/// A final response came at 700, over TCP.
const COMPLETED_OVER_TCP: PlainClientPhase = PlainClientPhase::Completed {
    reliable: true,
    set: 700,
};

/// When each state may end, and its last moment.
#[test]
fn ends(rt: HostRuntime) -> Result<(), Fail> {
    let client = client()?;
    phase_ends(&rt, &client, IDLE, (None, None), "idle")?;
    // Timer E fires by 550, or by 35,550 where it was set at 31,500, and timer F from 31,950 to 32,050. Timer K fires T4 after the final response, and
    // over TCP at once: there it ends the client by the tolerance later.
    phase_ends(&rt, &client, TRYING, (TIMER_F, Some(550)), "trying")?;
    phase_ends(
        &rt,
        &client,
        PROCEEDING_FROM_31_500,
        (TIMER_F, Some(32_050)),
        "proceeding",
    )?;
    phase_ends(
        &rt,
        &client,
        COMPLETED_AT_700,
        (Some((5_650, Some(5_750))), Some(5_750)),
        "completed",
    )?;
    phase_ends(
        &rt,
        &client,
        COMPLETED_OVER_TCP,
        (Some((700, Some(750))), Some(750)),
        "completed over TCP",
    )?;
    phase_ends(&rt, &client, client.ended(), (None, None), "ended")
}
