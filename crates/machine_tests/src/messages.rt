//! Messages of one transaction, which a book keeps, and their events.
ghost use Rattle.std.specs.Prelude.{[], ℕ, IfOk, OnErr, OnOk, ◌≡◌, ◌≤◌, ◌<◌};
ghost use Rattle.sip_machine.specs.NumberedEvent.{FitsBook};
ghost use Rattle.sip_machine.specs.Texts.{Keeps};

use sip_machine::{Action, Book, Event};
use sip_message::{Message, ReadError};
use std::alloc::{AllocError, Global};
use std::test::Fail;

/// How a message begins: a request with its method, or a response with its code.
#[derive(Clone, Copy)]
pub(crate) enum Start {
    Request(&'static str),
    Response(u16),
}

/// A message: its number, how it begins, and its tag in To. The Tos with tags from `ONE_HASH` on have one hash.
pub(crate) type Numbered = (u64, Start, Option<u8>);

/// The tags from this one on stand after `BEFORE_TAG`.
const ONE_HASH: u8 = 128;

/// The Tos in which this and eight digits are the tag have one hash, by which the digits are multiplied by zero. Anyone can compute such a text.
const BEFORE_TAG: &str = "aaclnp3cuG3DmG";

/// The eight digits of a tag are this number and the tag.
const EIGHT_DIGITS: u32 = 10_000_000;

/// The first line of a message that begins in this way.
fn line_of(alloc: Global, start: Start) -> Result<String, AllocError> {
    match start {
        Start::Request(method) => [method, " sip:example.com SIP/2.0"].concat(alloc),
        Start::Response(code) => format!(in alloc; "SIP/2.0 {code} Reply"),
    }
}

/// The tag parameter of To, which is empty where there is no tag.
fn tag_of(alloc: Global, tag: Option<u8>) -> Result<String, AllocError> {
    match tag {
        Some(tag) if tag < ONE_HASH => format!(in alloc; ";tag={tag}"),
        Some(tag) => format!(in alloc; ";tag={BEFORE_TAG}{}", EIGHT_DIGITS + tag as u32),
        None => Ok(String::new(alloc)),
    }
}

/// The bytes of a message that begins in this way, with this tag in To. A response answers the method `answered`.
pub(crate) fn text_of(
    alloc: Global,
    start: Start,
    tag: Option<u8>,
    answered: &str,
    transport: &str,
) -> Result<String, AllocError> {
    let line = line_of(alloc, start)?;
    let tag = tag_of(alloc, tag)?;
    let method = match start {
        Start::Request(method) => method,
        Start::Response(_) => answered,
    };
    [
        line.as_str(),
        "\r\nVia: SIP/2.0/",
        transport,
        " a.example.com;branch=z9hG4bKb1\r\nFrom: <sip:bob@example.com>;tag=1\r\nTo: <sip:bob@example.com>",
        tag.as_str(),
        "\r\nCall-ID: c1@a\r\nCSeq: 1 ",
        method,
        "\r\nContent-Length: 0\r\n\r\n",
    ]
    .concat(alloc)
}

/// Keeps a message under this number, which is above all others. Where memory is refused, the book is as before.
pub(crate) fn keep(book: &mut Book, number: u64, bytes: &[u8]) -> Result<(), AllocError>
    requires { (n : ℕ) → Keeps book.old n → n < number }
    ensures ok { OnOk result ((n : ℕ) → Keeps book.new n → n ≤ number) }
    ensures err { OnErr result ((n : ℕ) → Keeps book.new n → n < number) }
{
    book.add(number, bytes)?;
    Ok(())
}

/// Forgets the newest message where it has this number. No number of the book is above `highest`, before and after.
pub(crate) fn forget(book: &mut Book, number: u64, highest: u64)
    requires { (n : ℕ) → Keeps book.old n → n ≤ highest }
    ensures { (n : ℕ) → Keeps book.new n → n ≤ highest }
{
    book.forget_newest(number);
    // The contract alone needs `highest`.
    let _ = highest;
}

/// A book that keeps the messages, sent over this transport. Its responses answer the method `answered`.
pub(crate) fn book_of(
    alloc: Global,
    messages: &[Numbered],
    answered: &str,
    transport: &str,
) -> Result<Book, Fail> {
    let mut book = Book::new(alloc);
    keep_all(alloc, &mut book, messages, answered, transport)?;
    Ok(book)
}

/// Keeps the messages in an empty book.
fn keep_all(
    alloc: Global,
    book: &mut Book,
    messages: &[Numbered],
    answered: &str,
    transport: &str,
) -> Result<(), Fail>
    requires { book.old ≡ [] }
{
    let mut last = 0;
    for &(number, start, tag) in messages {
        if number <= last {
            return Err("out of order".into());
        }
        let text = text_of(alloc, start, tag, answered, transport)?;
        keep(book, number, text.as_bytes())?;
        last = number;
    }
    Ok(())
}

/// The event of the kept message with this number, or of a restart, which has no message.
pub(crate) fn event_of(
    alloc: Global,
    book: &Book,
    moment: u64,
    action: Action,
    number: u64,
) -> Result<Event, Fail>
    ensures { IfOk result (λ event. FitsBook book.now event) }
{
    // The number is the last moment that a log can name. A mark is no event of a transaction.
    if moment > 9_999_999_999_999 || action == Action::Mark {
        return Err("not an entry".into());
    }
    if action == Action::Restart {
        return Ok(Event::restart(moment));
    }
    let Some(bytes) = book.bytes(number) else {
        return Err("not kept".into());
    };
    let message = match Message::read(alloc, bytes) {
        Ok(message) => message,
        Err(ReadError::Memory) => return Err(AllocError.into()),
        Err(_) => return Err("not a message".into()),
    };
    Ok(Event::of(moment, action, number, &message))
}
