//! ACKs of an INVITE client for responses of which all have their To beside them, one alone has, or none has.

ghost use Rattle.std.specs.Prelude.{[], ◌≡◌, ◌<◌, ◌≤◌, ℕ, IfOk, OnOk};
ghost use Rattle.sip_machine.specs.Texts.{Keeps};

use crate::messages::{Numbered, Start, book_of, keep, text_of};
use crate::rows::{MUST, Row, all_lead};
use crate::runs::{Entry, State, run, states_of};
use crate::times::params;
use crate::wants::holds;
use sip_machine::{Action, Book, InviteClient, InviteClientPhase, Run};
use sip_message::{Message, ReadError};
use std::alloc::{AllocError, Global};
use std::process::Abort;
use std::test::Fail;

/// The INVITE, two 486s with a To each, with numbers so far apart that a search does not look at each of them, and the ACK for the second.
const MESSAGES: [Numbered; 4] = [
    (1, Start::Request("INVITE"), None),
    (2, Start::Response(486), Some(2)),
    (20, Start::Response(486), Some(3)),
    (21, Start::Request("ACK"), Some(3)),
];

/// Keeps the To of the message with this number beside it.
fn keep_to(alloc: Global, book: &mut Book, number: u64) -> Result<(), Fail>
    ensures { book.new ≡ book.old }
{
    let Some(bytes) = book.bytes(number) else {
        return Err("not kept".into());
    };
    let bytes = bytes.to_vec(alloc)?;
    match Message::read(alloc, &bytes) {
        Ok(message) => book.keep_to(number, &message),
        Err(ReadError::Memory) => return Err(AllocError.into()),
        Err(_) => return Err("not a message".into()),
    }
    Ok(())
}

/// Each of the two 486s is owed an ACK, and the ACK that is sent pays the second one, so that the first is still owed.
static ROWS: [Row<InviteClientPhase>; 1] = [(
    &[
        (0, Action::Sent, 1),
        (100, Action::Received, 2),
        (100, Action::Received, 20),
        (110, Action::Sent, 21),
    ],
    &[(
        InviteClientPhase::Completed {
            reliable: false,
            request: 1,
            set: 100,
        },
        &[(2, 150, MUST)],
    )],
)];

/// The book keeps the To of the first 486 alone, as it does where memory for the second was refused.
#[test]
fn an_ack_finds_a_response_without_its_to(rt: HostRuntime) -> Result<(), Fail> {
    let mut book = book_of(rt.alloc(), &MESSAGES, "INVITE", "UDP")?;
    finds_without_to(&rt, &mut book)
}

/// Keeps the To of the first 486 of the book, and asserts where `ROWS` lead.
fn finds_without_to(rt: &(impl Abort + AllocGlobal), book: &mut Book) -> Result<(), Fail> {
    keep_to(rt.alloc(), book, 2)?;
    lead(rt, book, &ROWS)
}

/// Asserts that the entries of each row lead to the states of the row.
fn lead(
    rt: &(impl Abort + AllocGlobal),
    book: &Book,
    rows: &[Row<InviteClientPhase>],
) -> Result<(), Fail> {
    let client = InviteClient::new(params(500)?);
    all_lead(rt, &client, book, rows)
}

/// The INVITE, nine 486s with a To each, and the ACK for the last. The Tos have one hash.
const NINE: [Numbered; 11] = [
    (1, Start::Request("INVITE"), None),
    (2, Start::Response(486), Some(202)),
    (3, Start::Response(486), Some(203)),
    (4, Start::Response(486), Some(204)),
    (5, Start::Response(486), Some(205)),
    (6, Start::Response(486), Some(206)),
    (7, Start::Response(486), Some(207)),
    (8, Start::Response(486), Some(208)),
    (9, Start::Response(486), Some(209)),
    (10, Start::Response(486), Some(210)),
    (11, Start::Request("ACK"), Some(210)),
];

/// Each of the nine 486s is owed an ACK by 150, which is the tolerance later. The ACK pays the last of the nine debts, and eight are left.
static NINE_ROWS: [Row<InviteClientPhase>; 1] = [(
    &[
        (0, Action::Sent, 1),
        (100, Action::Received, 2),
        (100, Action::Received, 3),
        (100, Action::Received, 4),
        (100, Action::Received, 5),
        (100, Action::Received, 6),
        (100, Action::Received, 7),
        (100, Action::Received, 8),
        (100, Action::Received, 9),
        (100, Action::Received, 10),
        (110, Action::Sent, 11),
    ],
    &[(
        InviteClientPhase::Completed {
            reliable: false,
            request: 1,
            set: 100,
        },
        &[
            (2, 150, MUST),
            (3, 150, MUST),
            (4, 150, MUST),
            (5, 150, MUST),
            (6, 150, MUST),
            (7, 150, MUST),
            (8, 150, MUST),
            (9, 150, MUST),
        ],
    )],
)];

/// The book keeps no To beside a message, so that each message that is owed is looked at.
#[test]
fn an_ack_finds_the_ninth_debt(rt: HostRuntime) -> Result<(), Fail> {
    lead(&rt, &nine(rt.alloc())?, &NINE_ROWS)
}

/// So it does where the book keeps the To of each beside it, though all of these have one hash.
#[test]
fn an_ack_finds_the_ninth_debt_among_tos_of_one_hash(rt: HostRuntime) -> Result<(), Fail> {
    let book = book_with_tos(rt.alloc(), &NINE, 11)?;
    lead(&rt, &book, &NINE_ROWS)
}

/// A book that keeps the messages of `NINE`.
fn nine(alloc: Global) -> Result<Book, Fail> {
    book_of(alloc, &NINE, "INVITE", "UDP")
}

/// The INVITE, nine 486s with a To each, two refusals with one To more, and the ACK for that.
const PAST_OTHERS: [Numbered; 13] = [
    (1, Start::Request("INVITE"), None),
    (2, Start::Response(486), Some(2)),
    (3, Start::Response(486), Some(3)),
    (4, Start::Response(486), Some(4)),
    (5, Start::Response(486), Some(5)),
    (6, Start::Response(486), Some(6)),
    (7, Start::Response(486), Some(7)),
    (8, Start::Response(486), Some(8)),
    (9, Start::Response(486), Some(9)),
    (10, Start::Response(486), Some(10)),
    (11, Start::Response(486), Some(11)),
    (12, Start::Response(487), Some(11)),
    (13, Start::Request("ACK"), Some(11)),
];

/// The nine come first, and the 487 before the 486 with its To. The ACK is sent in the last millisecond in which it may be, and pays the older of the two.
static PAST_OTHERS_ROWS: [Row<InviteClientPhase>; 1] = [(
    &[
        (0, Action::Sent, 1),
        (100, Action::Received, 2),
        (100, Action::Received, 3),
        (100, Action::Received, 4),
        (100, Action::Received, 5),
        (100, Action::Received, 6),
        (100, Action::Received, 7),
        (100, Action::Received, 8),
        (100, Action::Received, 9),
        (100, Action::Received, 10),
        (100, Action::Received, 12),
        (100, Action::Received, 11),
        (150, Action::Sent, 13),
    ],
    &[(
        InviteClientPhase::Completed {
            reliable: false,
            request: 1,
            set: 100,
        },
        &[
            (2, 150, MUST),
            (3, 150, MUST),
            (4, 150, MUST),
            (5, 150, MUST),
            (6, 150, MUST),
            (7, 150, MUST),
            (8, 150, MUST),
            (9, 150, MUST),
            (10, 150, MUST),
            (11, 150, MUST),
        ],
    )],
)];

/// Of two debts with one To, which come after nine with others, the ACK pays the older one.
#[test]
fn an_ack_pays_the_older_of_two_past_others(rt: HostRuntime) -> Result<(), Fail> {
    let book = book_of(rt.alloc(), &PAST_OTHERS, "INVITE", "UDP")?;
    lead(&rt, &book, &PAST_OTHERS_ROWS)
}

/// How many refusals there are in the next tests: where a search looks at that many, the book puts the To of each message beside it.
const MANY: u64 = 256;

/// The number of the 486 with this tag: 10, 12 and so on, so that 11 is left for another request.
fn refusal(tag: u64) -> u64 {
    tag.wrapping_mul(2).wrapping_add(10)
}

/// The INVITE, many 486s with a To each, another request between the first two of them, and an ACK for each: that for the tag N has the number
/// 1000 + N. The Tos of the second half have one hash.
fn many(alloc: Global) -> Result<Vec<Numbered>, AllocError> {
    let mut messages = Vec::new(alloc);
    push_many(&mut messages)?;
    Ok(messages)
}

/// Appends the messages of `many`.
fn push_many(messages: &mut Vec<Numbered>) -> Result<(), AllocError> {
    messages.push((1, Start::Request("INVITE"), None))?;
    messages.push((refusal(0), Start::Response(486), Some(0)))?;
    messages.push((11, Start::Request("OPTIONS"), None))?;
    for tag in 1..MANY {
        messages.push((refusal(tag), Start::Response(486), Some(tag as u8)))?;
    }
    for tag in 0..MANY {
        messages.push((1000 + tag, Start::Request("ACK"), Some(tag as u8)))?;
    }
    Ok(())
}

/// The INVITE is sent, all 486s are received, and an ACK is sent for each of the second half of them, the newest first.
fn entries(alloc: Global) -> Result<Vec<Entry>, AllocError> {
    let mut entries = Vec::new(alloc);
    push_entries(&mut entries)?;
    Ok(entries)
}

/// The INVITE is sent, and all refusals are received.
fn push_all(entries: &mut Vec<Entry>) -> Result<(), AllocError> {
    entries.push((0, Action::Sent, 1))?;
    for number in 0..MANY {
        entries.push((100, Action::Received, refusal(number)))?;
    }
    Ok(())
}

/// Appends the entries of `entries`.
fn push_entries(entries: &mut Vec<Entry>) -> Result<(), AllocError> {
    push_all(entries)?;
    for tag in 0..MANY / 2 {
        entries.push((110, Action::Sent, 1000 + MANY - 1 - tag))?;
    }
    Ok(())
}

/// Whether the debts are those of the first half of the 486s, which are 128, once each: due by 150, the tolerance after they came.
fn are_first_half(runs: &[Run]) -> bool {
    runs.len() == 128
        && runs.iter().zip(0..128).all(|(run, tag)| {
            run.count == 1
                && run.debt.message == refusal(tag)
                && run.debt.deadline == 150
                && run.debt.must
        })
}

/// An OPTIONS is kept between the first two 486s. Each ACK pays the debt of its own 486, though the Tos of all that ACKs are sent for have one hash.
#[test]
fn acks_find_their_debts_among_many(rt: HostRuntime) -> Result<(), Fail> {
    let states = states_of_many(rt.alloc(), &entries(rt.alloc())?)?;
    holds(&rt, are_first_half(owed(&states)), "the first half");
    Ok(())
}

/// The states of the client after the entries, over a book that keeps the messages of `many`, and the To of each 486 beside it.
fn states_of_many(alloc: Global, entries: &[Entry]) -> Result<Vec<State<InviteClientPhase>>, Fail> {
    let mut book = book_of(alloc, &many(alloc)?, "INVITE", "UDP")?;
    keep_tos(alloc, &mut book)?;
    states_beside(alloc, &mut book, entries)
}

/// The states of the client after the entries, where the To of each message stands beside it, since a search looked at many before.
fn states_beside(
    alloc: Global,
    book: &mut Book,
    entries: &[Entry],
) -> Result<Vec<State<InviteClientPhase>>, Fail> {
    states_after(alloc, book, entries)?;
    keep_to(alloc, book, 1)?;
    states_after(alloc, book, entries)
}

/// Keeps the To of each of the 486s beside it.
fn keep_tos(alloc: Global, book: &mut Book) -> Result<(), Fail> {
    for tag in 0..MANY {
        keep_to(alloc, book, refusal(tag))?;
    }
    Ok(())
}

/// The states of the client after the entries.
fn states_after(
    alloc: Global,
    book: &Book,
    entries: &[Entry],
) -> Result<Vec<State<InviteClientPhase>>, Fail> {
    let client = InviteClient::new(params(500)?);
    let pool = run(alloc, &client, book, entries)?;
    states_of(alloc, &pool)
}

/// What the only state owes, or nothing where there is not one state.
fn owed(states: &[State<InviteClientPhase>]) -> &[Run] {
    match states {
        [state] => state.owes.as_slice(),
        _ => &[],
    }
}

/// Keeps a message that begins in this way, with this tag in To, under the number, which is above all others.
fn keep_text(
    alloc: Global,
    book: &mut Book,
    number: u64,
    start: Start,
    tag: Option<u8>,
) -> Result<(), AllocError>
    requires { (n : ℕ) → Keeps book.old n → n < number }
    ensures { OnOk result ((n : ℕ) → Keeps book.new n → n ≤ number) }
{
    let text = text_of(alloc, start, tag, "INVITE", "UDP")?;
    keep(book, number, text.as_bytes())
}

/// A book that keeps the messages, and beside each whose number is below this one its To.
fn book_with_tos(alloc: Global, messages: &[Numbered], below: u64) -> Result<Book, Fail> {
    let mut book = Book::new(alloc);
    keep_with_tos(alloc, &mut book, messages, below)?;
    Ok(book)
}

/// Keeps the messages in an empty book, and beside each whose number is below this one its To. It tells the greatest number.
fn keep_with_tos(
    alloc: Global,
    book: &mut Book,
    messages: &[Numbered],
    below: u64,
) -> Result<u64, Fail>
    requires { book.old ≡ [] }
    ensures { IfOk result (λ last. (n : ℕ) → Keeps book.new n → n ≤ last) }
{
    let mut last = 0;
    for &(number, start, tag) in messages {
        if number <= last {
            return Err("out of order".into());
        }
        keep_text(alloc, book, number, start, tag)?;
        last = number;
        if number < below {
            keep_to(alloc, book, number)?;
        }
    }
    Ok(last)
}

/// The INVITE, many refusals of which each two have one To, and an ACK for each To, from the number 1000 on.
fn pairs(alloc: Global) -> Result<Vec<Numbered>, AllocError> {
    let mut messages = Vec::new(alloc);
    push_pairs(&mut messages)?;
    Ok(messages)
}

/// Appends the messages of `pairs`.
fn push_pairs(messages: &mut Vec<Numbered>) -> Result<(), AllocError> {
    messages.push((1, Start::Request("INVITE"), None))?;
    for number in 0..MANY {
        let start = Start::Response(if number % 2 == 0 { 486 } else { 487 });
        messages.push((refusal(number), start, Some((number / 2) as u8)))?;
    }
    for tag in 0..MANY / 2 {
        messages.push((1000 + tag, Start::Request("ACK"), Some(tag as u8)))?;
    }
    Ok(())
}

/// The INVITE is sent, all refusals are received, and the newest half of them is acknowledged, the newest To first, and one of the To before.
fn paired(alloc: Global) -> Result<Vec<Entry>, AllocError> {
    let mut entries = Vec::new(alloc);
    push_paired(&mut entries)?;
    Ok(entries)
}

/// Appends the entries of `paired`.
fn push_paired(entries: &mut Vec<Entry>) -> Result<(), AllocError> {
    push_all(entries)?;
    for tag in 0..=MANY / 2 {
        entries.push((110, Action::Sent, 1000 + (MANY - 1 - tag) / 2))?;
    }
    Ok(())
}

/// Whether the debts are those of the first 126 refusals and of the one after the next, once each.
fn are_oldest(runs: &[Run]) -> bool {
    let owed = runs.iter().map(|run| (run.debt.message, run.count));
    owed.eq((0..126).chain(127..128).map(|number| (refusal(number), 1)))
}

/// Where two refusals have one To, an ACK pays the older one first, however many are owed before it.
#[test]
fn acks_of_equal_tos_pay_the_oldest_first(rt: HostRuntime) -> Result<(), Fail> {
    let states = states_of_pairs(rt.alloc(), &paired(rt.alloc())?)?;
    holds(&rt, are_oldest(owed(&states)), "the oldest");
    Ok(())
}

/// The states of the client after the entries, over a book that keeps the messages of `pairs`, and the To of each refusal beside it.
fn states_of_pairs(
    alloc: Global,
    entries: &[Entry],
) -> Result<Vec<State<InviteClientPhase>>, Fail> {
    let mut book = book_with_tos(alloc, &pairs(alloc)?, 1000)?;
    states_beside(alloc, &mut book, entries)
}

/// A refusal that was acknowledged and came again is owed after those that came since. So the next ACK for its To pays the other refusal with
/// this To.
#[test]
fn a_refusal_that_came_again_is_paid_after_the_others(rt: HostRuntime) -> Result<(), Fail> {
    let mut entries = Vec::new(rt.alloc());
    push_one_again(&mut entries)?;
    let states = states_of_pairs(rt.alloc(), &entries)?;
    holds(&rt, are_first(owed(&states), MANY - 1), "all but the last");
    Ok(())
}

/// The INVITE is sent and all refusals are received. The one before the last is acknowledged, comes again, and its ACK is sent again.
fn push_one_again(entries: &mut Vec<Entry>) -> Result<(), AllocError> {
    push_all(entries)?;
    entries.push((110, Action::Sent, 1000 + MANY / 2 - 1))?;
    entries.push((110, Action::Received, refusal(MANY - 2)))?;
    entries.push((110, Action::Sent, 1000 + MANY / 2 - 1))?;
    Ok(())
}

/// The number of the last of the refusals. Those of the others are at most 518.
const LAST: u64 = 521;

/// The INVITE, the ACKs for the last of many refusals and for the one before it, and the refusals before the last.
fn many_before_last(alloc: Global) -> Result<Vec<Numbered>, AllocError> {
    let mut messages = Vec::new(alloc);
    push_many_before_last(&mut messages)?;
    Ok(messages)
}

/// Appends the messages of `many_before_last`.
fn push_many_before_last(messages: &mut Vec<Numbered>) -> Result<(), AllocError> {
    messages.push((1, Start::Request("INVITE"), None))?;
    messages.push((2, Start::Request("ACK"), Some(255)))?;
    messages.push((3, Start::Request("ACK"), Some(254)))?;
    for tag in 0..MANY - 1 {
        messages.push((refusal(tag), Start::Response(486), Some(tag as u8)))?;
    }
    Ok(())
}

/// The INVITE is sent, and all refusals are received but the last.
fn push_before_last(entries: &mut Vec<Entry>) -> Result<(), AllocError> {
    entries.push((0, Action::Sent, 1))?;
    for tag in 0..MANY - 1 {
        entries.push((100, Action::Received, refusal(tag)))?;
    }
    Ok(())
}

/// Whether the debts are those of the first refusals, this many, once each.
fn are_first(runs: &[Run], count: u64) -> bool {
    let owed = runs.iter().map(|run| (run.debt.message, run.count));
    owed.eq((0..count).map(|tag| (refusal(tag), 1)))
}

/// No To stands beside a message, until an ACK was looked for among many refusals: then those of all do. The ACK for the newest refusal finds it.
#[test]
fn an_ack_finds_the_newest_of_many(rt: HostRuntime) -> Result<(), Fail> {
    let mut book = book_with_tos(rt.alloc(), &many_before_last(rt.alloc())?, 0)?;
    let mut entries = Vec::new(rt.alloc());
    push_before_last(&mut entries)?;
    entries.push((110, Action::Sent, 3))?;
    let states = states_beside(rt.alloc(), &mut book, &entries)?;
    holds(
        &rt,
        are_first(owed(&states), MANY - 2),
        "all but the newest",
    );
    Ok(())
}

/// A refusal comes when the Tos of all messages stand beside them. Its own stands there too, and its ACK finds it.
#[test]
fn an_ack_finds_a_response_that_came_after_many(rt: HostRuntime) -> Result<(), Fail> {
    let states = states_with_last(rt.alloc(), true)?;
    holds(&rt, are_first(owed(&states), MANY - 1), "all but the last");
    Ok(())
}

/// The Tos of all messages stand in the book but that of the last refusal, as where memory for it was refused. Its ACK finds it.
#[test]
fn an_ack_finds_a_response_without_its_to_among_many(rt: HostRuntime) -> Result<(), Fail> {
    let states = states_with_last(rt.alloc(), false)?;
    holds(&rt, are_first(owed(&states), MANY - 1), "all but the last");
    Ok(())
}

/// The states of the client after all refusals and the ACK for the last, over a book that keeps these, and beside each but the last its To: these stand there
/// since an ACK was looked for among the others. That of the last stands there too if it is to.
fn states_with_last(alloc: Global, beside: bool) -> Result<Vec<State<InviteClientPhase>>, Fail> {
    let mut book = Book::new(alloc);
    let last = keep_with_tos(alloc, &mut book, &many_before_last(alloc)?, LAST)?;
    let mut entries = Vec::new(alloc);
    push_before_last(&mut entries)?;
    entries.push((110, Action::Sent, 2))?;
    states_after(alloc, &book, &entries)?;
    keep_to(alloc, &mut book, 1)?;
    if LAST <= last {
        return Err("out of order".into());
    }
    keep_text(alloc, &mut book, LAST, Start::Response(486), Some(255))?;
    if beside {
        keep_to(alloc, &mut book, LAST)?;
    }
    entries.clear();
    push_before_last(&mut entries)?;
    entries.push((100, Action::Received, LAST))?;
    entries.push((110, Action::Sent, 2))?;
    states_after(alloc, &book, &entries)
}

/// The number of an ACK for none of the refusals of `pairs`. Those of the other messages are at most 1126.
const STRAY: u64 = 2000;

/// The Tos of the other messages stand beside them, and none is that of the ACK. So it pays nothing, and no state can send it.
#[test]
fn an_ack_with_a_to_of_its_own_pays_none_of_many(rt: HostRuntime) -> Result<(), Fail> {
    let states = states_after_stray(rt.alloc())?;
    holds(&rt, states.is_empty(), "no state");
    Ok(())
}

/// The states of the client after all refusals of `pairs` and an ACK with another To. The To of each message but the ACK stands beside it, since an ACK was
/// looked for among these before.
fn states_after_stray(alloc: Global) -> Result<Vec<State<InviteClientPhase>>, Fail> {
    let mut book = Book::new(alloc);
    let last = keep_with_tos(alloc, &mut book, &pairs(alloc)?, 1000)?;
    states_after(alloc, &book, &paired(alloc)?)?;
    keep_to(alloc, &mut book, 1)?;
    if STRAY <= last {
        return Err("out of order".into());
    }
    keep_text(alloc, &mut book, STRAY, Start::Request("ACK"), Some(200))?;
    let mut entries = Vec::new(alloc);
    push_all(&mut entries)?;
    entries.push((110, Action::Sent, STRAY))?;
    states_after(alloc, &book, &entries)
}
