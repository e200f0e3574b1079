//! An example of a caller: it reads one message from its standard input, and tells the key of the transaction that it concerns where it is
//! sent, and where it is received.
#![tactic(auto)]

use anyhow::Result;
use sip_key::{Direction, Key, Role, cancelled_key, key_of};
use sip_message::Message;
use std::io;
use std::io::{Read, Write};

/// Writes the parts of a key: its role, its branch, the sent-by where it is a server's, and its method.
fn put_key<W: Write>(out: &mut W, key: &Key) -> io::Result<()> {
    out.write_all(match key.role() {
        Role::Client => b" client",
        Role::Server => b" server",
    })?;
    for text in [key.branch(), key.sent_by(), key.method()] {
        // The key of a client has no sent-by.
        if !text.is_empty() {
            out.write_all(b" ")?;
            out.write_all(text)?;
        }
    }
    Ok(())
}

// Writes a line for each direction: the key of the message, or that it has none, and the key of the transaction that it cancels, if it cancels one.
fn main(rt: HostRuntime) -> Result<()> {
    let mut bytes = Vec::new(rt.alloc());
    rt.stdin().read_to_end(&mut bytes)?;
    // Bytes that are no message end the program with the fault, as each `?` here does with an error.
    let message = Message::read(rt.alloc(), bytes.as_slice())?;
    let mut out = rt.stdout();
    for (word, direction) in [("sent", Direction::Sent), ("received", Direction::Received)] {
        out.write_all(word.as_bytes())?;
        match key_of(rt.alloc(), &message, direction)? {
            Some(key) => put_key(&mut out, &key)?,
            None => out.write_all(b" no key")?,
        }
        if let Some(key) = cancelled_key(rt.alloc(), &message, direction)? {
            out.write_all(b", cancels")?;
            put_key(&mut out, &key)?;
        }
        out.write_all(b"\n")?;
    }
    Ok(())
}
