//! The non-INVITE server, with moments worked out by hand for T1 500 and a tolerance of 50.
use crate::messages::{Numbered, Start, book_of};
use crate::rows::{self, EndsRow, MAY, MUST, all_end, phase_ends};
use crate::runs::{Entry, State, run, states_of};
use crate::times::params;
use sip_machine::{Action, Book, Debt, PlainServer, PlainServerPhase, Run};
use std::alloc::Global;
use std::process::Abort;
use std::test::Fail;

/// The number of the request, an OPTIONS.
const REQUEST: u64 = 1;

/// The number of a 180.
const RINGING: u64 = 2;

/// The number of a 100.
const TRYING: u64 = 3;

/// The number of a 200.
const FINAL: u64 = 4;

/// The number of a 101.
const PROGRESS: u64 = 5;

/// The number of a 699, the greatest code there is.
const LAST: u64 = 6;

/// The messages by number: the start line of each, and its tag in To.
const MESSAGES: [Numbered; 6] = [
    (REQUEST, Start::Request("OPTIONS"), None),
    (RINGING, Start::Response(180), None),
    (TRYING, Start::Response(100), None),
    (FINAL, Start::Response(200), None),
    (PROGRESS, Start::Response(101), None),
    (LAST, Start::Response(699), None),
];

/// A server with the times of the tests.
fn server() -> Result<PlainServer, Fail> {
    Ok(PlainServer::new(params(500)?))
}

/// A book with the messages.
fn book(alloc: Global) -> Result<Book, Fail> {
    book_of(alloc, &MESSAGES, "OPTIONS", "UDP")
}

/// Entries, and the states to which they lead a non-INVITE server.
/// Each state has its phase and its debts: a message, the deadline, and whether it must be sent. No state: the entries have no run.
type Row = rows::Row<PlainServerPhase>;

/// Asserts that the entries of each row lead to the states of the row.
fn all_lead(rt: &(impl Abort + AllocGlobal), rows: &[Row]) -> Result<(), Fail> {
    rows::all_lead(rt, &server()?, &book(rt.alloc())?, rows)
}

/// No request came yet.
const IDLE: PlainServerPhase = PlainServerPhase::Idle;

/// The request came, and no response was sent.
const QUIET: PlainServerPhase = PlainServerPhase::Trying { reliable: false };

/// The last response was a 180.
const RANG: PlainServerPhase = PlainServerPhase::Proceeding {
    reliable: false,
    last: RINGING,
};

/// The last response was a 100.
const TRIED: PlainServerPhase = PlainServerPhase::Proceeding {
    reliable: false,
    last: TRYING,
};

/// The last response was a 101.
const PROGRESSED: PlainServerPhase = PlainServerPhase::Proceeding {
    reliable: false,
    last: PROGRESS,
};

/// The 200 was sent at 10.
const FINAL_AT_10: PlainServerPhase = PlainServerPhase::Completed {
    reliable: false,
    final_message: FINAL,
    set: 10,
};

/// The 200 was sent at 20.
const FINAL_AT_20: PlainServerPhase = PlainServerPhase::Completed {
    reliable: false,
    final_message: FINAL,
    set: 20,
};

/// The 699 was sent at 10.
const LAST_AT_10: PlainServerPhase = PlainServerPhase::Completed {
    reliable: false,
    final_message: LAST,
    set: 10,
};

/// The request comes for the first time.
const FIRST: Entry = (0, Action::Received, REQUEST);

/// A 180 is sent.
const RINGING_ONCE: Entry = (5, Action::Sent, RINGING);

/// A 100 is sent.
const TRYING_ONCE: Entry = (5, Action::Sent, TRYING);

/// The 200 is sent.
const FINAL_ONCE: Entry = (10, Action::Sent, FINAL);

/// Rows that end before the final response. A request that comes again at 10 has the last response sent again by 60. Where a response is sent that
/// is owed, it pays for the debt or is a new one: a state for each.
static BEFORE_THE_FINAL_RESPONSE: &[Row] = &[
    (&[], &[(IDLE, &[])]),
    // Before the request nothing is sent. A request that comes again before any response changes nothing.
    (&[(0, Action::Sent, FINAL)], &[]),
    (&[FIRST], &[(QUIET, &[])]),
    (&[FIRST, (10, Action::Received, REQUEST)], &[(QUIET, &[])]),
    (&[FIRST, RINGING_ONCE], &[(RANG, &[])]),
    (
        &[FIRST, RINGING_ONCE, (10, Action::Received, REQUEST)],
        &[(RANG, &[(RINGING, 60, MUST)])],
    ),
    (
        &[
            FIRST,
            RINGING_ONCE,
            (10, Action::Received, REQUEST),
            (50, Action::Sent, RINGING),
        ],
        &[(RANG, &[(RINGING, 60, MUST)]), (RANG, &[])],
    ),
    (
        &[
            FIRST,
            RINGING_ONCE,
            (10, Action::Received, REQUEST),
            (60, Action::Failed, RINGING),
        ],
        &[(RANG, &[(RINGING, 60, MUST)]), (RANG, &[])],
    ),
    (
        &[
            FIRST,
            RINGING_ONCE,
            (10, Action::Received, REQUEST),
            (61, Action::Sent, RINGING),
        ],
        &[],
    ),
    (
        &[
            FIRST,
            RINGING_ONCE,
            (10, Action::Received, REQUEST),
            (20, Action::Sent, PROGRESS),
        ],
        &[(PROGRESSED, &[(RINGING, 60, MUST)])],
    ),
    (
        &[
            FIRST,
            RINGING_ONCE,
            (10, Action::Received, REQUEST),
            (20, Action::Received, REQUEST),
            (30, Action::Sent, RINGING),
        ],
        &[
            (RANG, &[(RINGING, 60, MUST), (RINGING, 70, MUST)]),
            (RANG, &[(RINGING, 70, MUST)]),
        ],
    ),
    (
        &[
            FIRST,
            (5, Action::Sent, PROGRESS),
            (10, Action::Received, REQUEST),
        ],
        &[(PROGRESSED, &[(PROGRESS, 60, MUST)])],
    ),
    (
        // A response that a server receives changes nothing.
        &[FIRST, RINGING_ONCE, (20, Action::Received, FINAL)],
        &[(RANG, &[])],
    ),
];

/// The server is idle, trying or proceeding.
#[test]
fn before_the_final_response(rt: HostRuntime) -> Result<(), Fail> {
    all_lead(&rt, BEFORE_THE_FINAL_RESPONSE)
}

/// A request that comes again must be answered by what was sent last, but need not be by a 100.
/// What may be sent until 60 is dropped at 61. A 100 that is sent then is a new one.
static A_100_NEED_NOT_BE_REPEATED: &[Row] = &[
    (
        &[FIRST, TRYING_ONCE, (10, Action::Received, REQUEST)],
        &[(TRIED, &[(TRYING, 60, MAY)])],
    ),
    (
        &[
            FIRST,
            TRYING_ONCE,
            (10, Action::Received, REQUEST),
            (60, Action::Received, REQUEST),
        ],
        &[(TRIED, &[(TRYING, 60, MAY), (TRYING, 110, MAY)])],
    ),
    (
        &[
            FIRST,
            TRYING_ONCE,
            (10, Action::Received, REQUEST),
            (61, Action::Received, REQUEST),
        ],
        &[(TRIED, &[(TRYING, 111, MAY)])],
    ),
    (
        &[
            FIRST,
            TRYING_ONCE,
            (10, Action::Received, REQUEST),
            (61, Action::Sent, TRYING),
        ],
        &[(TRIED, &[])],
    ),
];

/// A 100 may be sent again when the request comes again, and need not be.
#[test]
fn a_100_need_not_be_repeated(rt: HostRuntime) -> Result<(), Fail> {
    all_lead(&rt, A_100_NEED_NOT_BE_REPEATED)
}

/// Rows that end after the final response. It is sent again only when the request comes again, and within the tolerance of 50, until timer J fires
/// 64 times T1 later, 32,060 at the latest. A 180 that was owed before may still be sent, and need not be.
static AFTER_THE_FINAL_RESPONSE: &[Row] = &[
    (&[FIRST, FINAL_ONCE], &[(FINAL_AT_10, &[])]),
    (&[FIRST, (10, Action::Failed, LAST)], &[(LAST_AT_10, &[])]),
    (&[FIRST, FINAL_ONCE, (20, Action::Sent, FINAL)], &[]),
    (
        &[FIRST, FINAL_ONCE, (500, Action::Received, REQUEST)],
        &[(FINAL_AT_10, &[(FINAL, 550, MUST)])],
    ),
    (
        &[
            FIRST,
            FINAL_ONCE,
            (500, Action::Received, REQUEST),
            (550, Action::Sent, FINAL),
        ],
        &[(FINAL_AT_10, &[])],
    ),
    (
        &[
            FIRST,
            FINAL_ONCE,
            (500, Action::Received, REQUEST),
            (551, Action::Sent, FINAL),
        ],
        &[],
    ),
    (
        &[
            FIRST,
            FINAL_ONCE,
            (500, Action::Received, REQUEST),
            (550, Action::Sent, RINGING),
        ],
        &[],
    ),
    (
        &[FIRST, FINAL_ONCE, (32_060, Action::Received, REQUEST)],
        &[(FINAL_AT_10, &[(FINAL, 32_110, MUST)])],
    ),
    (
        &[FIRST, FINAL_ONCE, (32_061, Action::Received, REQUEST)],
        &[],
    ),
    (
        &[
            FIRST,
            RINGING_ONCE,
            (10, Action::Received, REQUEST),
            (20, Action::Sent, FINAL),
        ],
        &[(FINAL_AT_20, &[(RINGING, 60, MAY)])],
    ),
    (
        &[
            FIRST,
            RINGING_ONCE,
            (10, Action::Received, REQUEST),
            (20, Action::Sent, FINAL),
            (60, Action::Sent, RINGING),
        ],
        &[(FINAL_AT_20, &[])],
    ),
    (
        &[
            FIRST,
            RINGING_ONCE,
            (10, Action::Received, REQUEST),
            (20, Action::Sent, FINAL),
            (61, Action::Sent, RINGING),
        ],
        &[],
    ),
];

/// A final response was sent.
#[test]
fn after_the_final_response(rt: HostRuntime) -> Result<(), Fail> {
    all_lead(&rt, AFTER_THE_FINAL_RESPONSE)
}

/// How often the 180 is owed, then the 101, then the 180 again and then the 101 again, each until 60.
type Turns = [usize; 4];

/// The 180 must be sent once more, by 60.
const RINGING_BY_60: Debt = Debt {
    message: RINGING,
    deadline: 60,
    must: true,
};

/// The 101 must be sent once more, by 60.
const PROGRESS_BY_60: Debt = Debt {
    message: PROGRESS,
    deadline: 60,
    must: true,
};

/// Whether the runs of debts are the 180 and the 101 in turn, this often each.
fn are_turns(runs: &[Run], want: Turns) -> bool {
    let debts = [RINGING_BY_60, PROGRESS_BY_60];
    let mut turns = [0; 4];
    for (place, run) in runs.iter().enumerate() {
        if place >= 4 || run.debt != debts[place % 2] {
            return false;
        }
        turns[place] = run.count;
    }
    turns == want
}

/// Whether the state is proceeding with this last response, and owes the responses in these turns.
fn proceeds(state: &State<PlainServerPhase>, (number, turns): (u64, Turns)) -> bool {
    match &state.phase {
        PlainServerPhase::Proceeding { last, .. } => {
            *last == number && are_turns(&state.owes, turns)
        }
        _ => false,
    }
}

/// The request comes again.
const AGAIN: Entry = (10, Action::Received, REQUEST);

/// A 180 is sent at the moment of `AGAIN`.
const RINGS: Entry = (10, Action::Sent, RINGING);

/// A 101 is sent at the moment of `AGAIN`.
const PROGRESSES: Entry = (10, Action::Sent, PROGRESS);

/// The request comes again several times, and the server sends a 101, a 180 and a 101 in between.
static REPEATS: [Entry; 11] = [
    FIRST,
    RINGING_ONCE,
    AGAIN,
    AGAIN,
    AGAIN,
    PROGRESSES,
    AGAIN,
    RINGS,
    AGAIN,
    PROGRESSES,
    AGAIN,
];

/// Whether there are as many states as are wanted, each with its last response and its debts.
fn each_proceeds(states: &[State<PlainServerPhase>], wants: &[(u64, Turns)]) -> bool {
    states.len() == wants.len()
        && states
            .iter()
            .zip(wants)
            .all(|(state, want)| proceeds(state, *want))
}

/// Whether the entries lead to as many states as are wanted, each with its last response and its debts.
fn all_proceed(alloc: Global, entries: &[Entry], wants: &[(u64, Turns)]) -> Result<bool, Fail> {
    let states = states_after(alloc, entries)?;
    Ok(each_proceeds(&states, wants))
}

/// The states of the server after the entries.
fn states_after(alloc: Global, entries: &[Entry]) -> Result<Vec<State<PlainServerPhase>>, Fail> {
    let server = server()?;
    let pool = run(alloc, &server, &book(alloc)?, entries)?;
    states_of(alloc, &pool)
}

/// Asserts that something is so after the first of the entries, of which there are so many.
fn holds_of_first(rt: &impl Abort, is_so: bool, len: usize) {
    assert!(rt; is_so, "{len}");
}

/// How many of the entries of `REPEATS` are taken, and the last response and the debts of each state then.
static RUNS: &[(usize, &[(u64, Turns)])] = &[
    // The 180 is owed three times. Then a 101 is sent, and owed once as the request comes again.
    (5, &[(RINGING, [3, 0, 0, 0])]),
    (7, &[(PROGRESS, [3, 1, 0, 0])]),
    // A 180 is sent: it is a new one, or pays one of the three. Then what was sent last is owed once more.
    (8, &[(RINGING, [3, 1, 0, 0]), (PROGRESS, [2, 1, 0, 0])]),
    (9, &[(RINGING, [3, 1, 1, 0]), (PROGRESS, [2, 2, 0, 0])]),
    // A 101 is sent: from each of the two states it is a new one, or pays one. Where it paid the only one, the 180s around it are one run.
    // Then the request comes again, and the last response of each state is owed once more.
    (
        10,
        &[
            (PROGRESS, [3, 1, 1, 0]),
            (RINGING, [4, 0, 0, 0]),
            (PROGRESS, [2, 2, 0, 0]),
            (PROGRESS, [2, 1, 0, 0]),
        ],
    ),
    (
        11,
        &[
            (PROGRESS, [3, 1, 1, 1]),
            (RINGING, [5, 0, 0, 0]),
            (PROGRESS, [2, 3, 0, 0]),
            (PROGRESS, [2, 2, 0, 0]),
        ],
    ),
];

/// A request comes again and again at one moment, and each time the last response is owed once more. Where a response is sent that is
/// owed, it may be a new one or pay for a debt, so that there is a state for each.
#[test]
fn equal_debts_stand_in_runs(rt: HostRuntime) -> Result<(), Fail> {
    for &(len, wants) in RUNS {
        let entries = REPEATS.get(..len).ok_or("too many")?;
        let is_so = all_proceed(rt.alloc(), entries, wants)?;
        holds_of_first(&rt, is_so, len);
    }
    Ok(())
}

/// When the states after the entries may end: the window, if there is one, and the last moment until which the state can wait, if any.
/// The 180 is due again by 60, and a 200 that is owed by 550. Timer J ends a server 64*T1 after its final response at 10 or 20, give or take the
/// tolerance, but not while it must send.
static ENDS: &[EndsRow] = &[
    (&[], None, None),
    (&[FIRST], None, None),
    (&[FIRST, RINGING_ONCE], None, None),
    (
        &[FIRST, RINGING_ONCE, (10, Action::Received, REQUEST)],
        None,
        Some(60),
    ),
    (
        &[FIRST, (10, Action::Sent, FINAL)],
        Some((31_960, Some(32_060))),
        Some(32_060),
    ),
    (
        &[
            FIRST,
            (10, Action::Sent, FINAL),
            (500, Action::Received, REQUEST),
        ],
        None,
        Some(550),
    ),
    (
        &[
            FIRST,
            RINGING_ONCE,
            (10, Action::Received, REQUEST),
            (20, Action::Sent, FINAL),
        ],
        Some((31_970, Some(32_070))),
        Some(32_070),
    ),
];

/// When each state may end, and its last moment, over UDP.
#[test]
fn ends(rt: HostRuntime) -> Result<(), Fail> {
    all_end(&rt, &server()?, &book(rt.alloc())?, ENDS)
}

/// The 200 was sent at 700, over TCP.
const COMPLETED_OVER_TCP: PlainServerPhase = PlainServerPhase::Completed {
    reliable: true,
    final_message: FINAL,
    set: 700,
};

/// When the completed state may end over TCP, and its last moment: timer J is 0 there, so that it ends from the 200 on and by the tolerance later.
#[test]
fn ends_over_tcp(rt: HostRuntime) -> Result<(), Fail> {
    phase_ends(
        &rt,
        &server()?,
        COMPLETED_OVER_TCP,
        (Some((700, Some(750))), Some(750)),
        "completed",
    )
}
