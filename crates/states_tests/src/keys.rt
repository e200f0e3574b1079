//! Keys of transactions of each machine.
ghost use Rattle.std.specs.Prelude.{IfOk};
ghost use Rattle.sip_states.specs.Tables.{IsGiven};

use sip_key::{Direction, Key, key_of};
use sip_message::Message;
use sip_states::Tables;
use std::alloc::{AllocError, Global};
use std::hash::BuildHasher;
use std::test::Fail;

/// The request that begins the transaction with this number.
fn request(alloc: Global, method: &str, number: u64) -> Result<String, AllocError> {
    let number = format!(in alloc; "{number}")?;
    [
        method,
        " sip:example.com SIP/2.0\r\nVia: SIP/2.0/UDP a.example.com;branch=z9hG4bK",
        number.as_str(),
        "\r\nFrom: <sip:bob@example.com>;tag=1\r\nTo: <sip:bob@example.com>\r\nCall-ID: c1@a\r\nCSeq: 1 ",
        method,
        "\r\nContent-Length: 0\r\n\r\n",
    ]
    .concat(alloc)
}

/// The key of the message with this text and direction.
fn key_in(alloc: Global, text: &str, direction: Direction) -> Result<Key, Fail> {
    let message = Message::read(alloc, text.as_bytes())?;
    Ok(key_of(alloc, &message, direction)?.ok_or("no key")?)
}

/// The key of the transaction with this number. The four machines take turns: numbers that differ by four have one machine.
pub(crate) fn key(alloc: Global, number: u64) -> Result<Key, Fail> {
    let (direction, method) = match number % 4 {
        0 => (Direction::Sent, "INVITE"),
        1 => (Direction::Sent, "OPTIONS"),
        2 => (Direction::Received, "INVITE"),
        _ => (Direction::Received, "OPTIONS"),
    };
    let text = request(alloc, method, number)?;
    key_in(alloc, text.as_str(), direction)
}

/// Touches the key of the transaction with this number, and returns what the tables answer. It fails where the tables are full.
pub(crate) fn touch<H: BuildHasher + Drop>(
    alloc: Global,
    tables: &mut Tables<H>,
    number: u64,
) -> Result<Result<u64, AllocError>, Fail>
    ensures { IfOk result (λ touched. IfOk touched (IsGiven tables.new)) }
{
    let key = key(alloc, number)?;
    // A log has at most 1,000,000 entries, each of which brings at most two transactions.
    if tables.len() >= 2_000_000 {
        return Err("full".into());
    }
    Ok(tables.touch(key))
}
