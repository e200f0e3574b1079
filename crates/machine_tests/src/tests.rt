//! The limits of the times, and the book of messages.
ghost use Rattle.std.specs.Prelude.{◌≡◌, [], ◌+◌, ◌<◌, ◌≤◌, ℕ, OnOk};
ghost use Rattle.sip_machine.specs.Texts.{Keeps};

use crate::messages::{forget, keep};
use crate::wants::{holds, is};
use sip_machine::{Book, Params};
use std::alloc::{AllocError, Global};
use std::process::Abort;
use std::test::Fail;

/// T1, T2, T4 and the tolerance that are refused, since one of them is out of its limits.
static REFUSED: [(u64, u64, u64, u64); 7] = [
    (0, 4_000, 5_000, 50),
    (10_001, 4_000, 5_000, 50),
    (500, 0, 5_000, 50),
    (500, 60_001, 5_000, 50),
    (500, 4_000, 0, 50),
    (500, 4_000, 60_001, 50),
    (500, 4_000, 5_000, 10_001),
];

/// The index of the first row of times that is taken, if any.
fn first_taken(times: &[(u64, u64, u64, u64)]) -> Option<usize> {
    times.iter().position(|&(t1, t2, t4, tolerance)| Params::new(t1, t2, t4, tolerance).is_some())
}

/// Times at the limits are taken, and times above them are refused.
#[test]
fn limits(rt: HostRuntime) -> Result<(), Fail> {
    is(&rt, first_taken(&REFUSED), None, "refused times");
    let params = Params::new(10_000, 60_000, 60_000, 10_000).ok_or("refused")?;
    is(&rt, params.t1(), 10_000, "T1");
    is(&rt, params.t2(), 60_000, "T2");
    is(&rt, params.t4(), 60_000, "T4");
    is(&rt, params.early(), 10_000, "early");
    is(&rt, params.late(), 10_000, "late");
    holds(&rt, Params::new(1, 1, 1, 0).is_some(), "the least");
    Ok(())
}

/// Asserts that an empty book keeps bytes once that are added twice.
fn keeps_once(rt: &impl Abort, book: &mut Book) -> Result<(), Fail>
    requires { book.old ≡ [] }
{
    // `add` answers the number under which the bytes are kept: the given one, or that of equal bytes.
    is(rt, book.add(3, b"OPTIONS")?, 3, "the first");
    is(rt, book.add(5, b"OPTIONS")?, 3, "the same again");
    is(rt, book.add(8, b"")?, 8, "an empty one");
    keeps(rt, book, 3, Some(b"OPTIONS"));
    keeps(rt, book, 5, None);
    keeps(rt, book, 8, Some(b""));
    Ok(())
}

/// Equal bytes have one number, that of their first entry.
#[test]
fn keeps_equal_bytes_once(rt: HostRuntime) -> Result<(), Fail> {
    let mut book = Book::new(rt.alloc());
    keeps_once(&rt, &mut book)
}

/// Asserts that an empty book forgets the newest of two messages alone.
fn forgets_newest(rt: &impl Abort, book: &mut Book) -> Result<(), Fail>
    requires { book.old ≡ [] }
{
    keep(book, 3, b"OPTIONS")?;
    keep(book, 5, b"ACK")?;
    forget(book, 3, 5);
    keeps(rt, book, 3, Some(b"OPTIONS"));
    forget(book, 5, 5);
    keeps(rt, book, 5, None);
    forget(book, 3, 5);
    keeps(rt, book, 3, Some(b"OPTIONS"));
    is(rt, book.add(8, b"ACK")?, 8, "it comes again");
    is(rt, book.add(9, b"OPTIONS")?, 3, "the first is still kept");
    Ok(())
}

/// A message is forgotten only while it is the newest one.
#[test]
fn forgets_the_newest_message_alone(rt: HostRuntime) -> Result<(), Fail> {
    let mut book = Book::new(rt.alloc());
    forgets_newest(&rt, &mut book)
}

/// Asserts that an empty book keeps 100,000 messages, and that each has its first number when it is added once more under a later one.
fn keeps_many(rt: &(impl Abort + AllocGlobal), book: &mut Book) -> Result<(), Fail>
    requires { book.old ≡ [] }
{
    let end = b" SIP/2.0 200 OK".as_slice();
    let first = are_numbered(rt.alloc(), book, 0, 100_000, end)?;
    holds(rt, first, "the first half");
    let second = are_numbered(rt.alloc(), book, 100_000, 100_000, end)?;
    holds(rt, second, "the second half");
    Ok(())
}

/// The messages differ in their first eight bytes.
#[test]
fn keeps_many_messages(rt: HostRuntime) -> Result<(), Fail> {
    let mut book = Book::new(rt.alloc());
    keeps_many(&rt, &mut book)
}

/// Asserts that an empty book keeps 20,000 messages of one hash, and that each has its first number when it is added once more under a later one.
fn keeps_of_one_hash(rt: &(impl Abort + AllocGlobal), book: &mut Book) -> Result<(), Fail>
    requires { book.old ≡ [] }
{
    // The last eight bytes are the factor of `FoldHasher`, the lowest byte first.
    let end = b"    \x15\x7c\x4a\x7f\xb9\x79\x37\x9e".as_slice();
    let first = are_numbered(rt.alloc(), book, 0, 20_000, end)?;
    holds(rt, first, "the first half");
    let second = are_numbered(rt.alloc(), book, 20_000, 20_000, end)?;
    holds(rt, second, "the second half");
    Ok(())
}

/// The last eight bytes of each message are the factor of `FoldHasher`, which takes them by XOR with it and multiplies: all messages have the hash 0.
#[test]
fn keeps_messages_of_one_hash(rt: HostRuntime) -> Result<(), Fail> {
    let mut book = Book::new(rt.alloc());
    keeps_of_one_hash(&rt, &mut book)
}

/// A new book is refused memory. `tests/growths` refuses each growth in turn. The test then fails for want of memory, once it has seen
/// that a refused add leaves the messages as they were, and that the same call succeeds with memory.
#[test]
fn a_new_book_goes_on_after_a_refused_growth(rt: HostRuntime) -> Result<(), Fail> {
    let mut book = Book::new(rt.alloc());
    let Err(error) = keep(&mut book, 1, b"ACK") else {
        return takes_the_next(&rt, &mut book);
    };
    goes_on(&rt, &mut book, 1)?;
    Err(error.into())
}

/// A book with 64 messages, whose lists are full, is refused memory for one more.
#[test]
fn a_book_goes_on_after_a_refused_growth(rt: HostRuntime) -> Result<(), Fail> {
    let mut book = Book::new(rt.alloc());
    full_goes_on(&rt, &mut book)
}

/// Fills an empty book, and asserts that it keeps one message more, at once or after it was refused memory.
fn full_goes_on(rt: &(impl Abort + AllocGlobal), book: &mut Book) -> Result<(), Fail>
    requires { book.old ≡ [] }
{
    let are_kept = are_numbered(rt.alloc(), book, 0, 64, b" SIP/2.0 200 OK")?;
    holds(rt, are_kept, "64 messages");
    let Err(error) = keep(book, 64, b"ACK") else {
        keeps(rt, book, 64, Some(b"ACK"));
        return Ok(());
    };
    goes_on(rt, book, 64)?;
    // The last of the 64 messages, which has the number 63 in eight bytes at its front, is still kept.
    keeps(rt, book, 63, Some(b"\0\0\0\0\0\0\0\x3f SIP/2.0 200 OK"));
    Err(error.into())
}

/// Asserts that a book that keeps the ACK alone, under 1, takes another message.
fn takes_the_next(rt: &impl Abort, book: &mut Book) -> Result<(), Fail>
    requires { (n : ℕ) → Keeps book.old n → n ≤ 1 }
{
    is(rt, book.add(2, b"BYE")?, 2, "the next");
    keeps(rt, book, 1, Some(b"ACK"));
    keeps(rt, book, 2, Some(b"BYE"));
    Ok(())
}

/// Asserts that a book that was refused memory for the ACK under this number does not keep it, and keeps it once it is added again.
fn goes_on(rt: &impl Abort, book: &mut Book, number: u64) -> Result<(), AllocError>
    requires { (n : ℕ) → Keeps book.old n → n < number }
{
    keeps(rt, book, number, None);
    is(rt, book.add(number, b"ACK")?, number, "the ACK");
    keeps(rt, book, number, Some(b"ACK"));
    Ok(())
}

/// Asserts that the book keeps these bytes under the number, or that it keeps none there.
fn keeps(rt: &impl Abort, book: &Book, number: u64, bytes: Option<&[u8]>) {
    assert_eq!(rt; book.bytes(number), bytes, "{number}");
}

/// Adds messages that differ in their first eight bytes alone, under the numbers from `first` on. Returns whether each has the number
/// of its place, and is found by it: where `first` is not 0, the book has these messages from an earlier call, under the numbers of their places.
fn are_numbered(
    alloc: Global,
    book: &mut Book,
    first: u64,
    count: u64,
    end: &[u8],
) -> Result<bool, AllocError>
    requires limit { first + count < 18446744073709551616 }
    requires above { (n : ℕ) → Keeps book.old n → n < first }
    ensures { OnOk result ((n : ℕ) → Keeps book.new n → n < first + count) }
{
    let mut right = true;
    for place in 0..count {
        let mut message = place.to_be_bytes().to_vec(alloc)?;
        message.extend_from_slice(end)?;
        right &= book.add(first + place, &message)? == place;
        right &= book.bytes(place) == Some(message.as_slice());
    }
    Ok(right)
}
