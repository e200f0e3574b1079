//! A transaction in a listing: its number, its key in words, and its states.
ghost use Rattle.std.specs.Prelude.{◌≡◌, ◌++◌, List, ℕ, OnOk, IsAscii, decimal, string_bytes};
ghost use Rattle.sip_standard.specs.TransactionText.{key_text, role_text, transaction_line, transaction_text};
ghost use Rattle.sip_listing.specs.Lists.{Lists};

use crate::lines::{lines_of, push_indented};
use itoa::Buffer;
use sip_key::{Key, Role};
use sip_states::AnySet;
use std::alloc::{AllocError, Global};

/// Appends the line `transaction T ROLE METHOD states COUNT` and a line for each state of the set, in ascending order of
/// their bytes. A message is told by its number in the book. On an error it is not said how much was appended.
pub fn push_transaction(
    alloc: Global,
    text: &mut String,
    number: u64,
    key: &Key,
    set: &AnySet,
) -> Result<(), AllocError>
    ensures { OnOk result ((lines : List (List ℕ)) × Lists set.now lines
        × (IsAscii key.now.method → string_bytes text.new ≡ string_bytes text.old ++ transaction_text number key.now lines)) }
{
    let told = set.told(alloc)?;
    let lines = lines_of(alloc, &told)?;
    push_line(text, number, key, lines.len())?;
    push_indented(text, &lines)?;
    Ok(())
}

/// Appends the first line of a transaction: its number, its key in words, and how many states it has.
fn push_line(text: &mut String, number: u64, key: &Key, count: usize) -> Result<(), AllocError>
    ensures { OnOk result (IsAscii key.now.method → string_bytes text.new ≡ string_bytes text.old ++ transaction_line number key.now count) }
{
    push_with_number(text, "transaction ", number.into())?;
    text.push_str(" ")?;
    push_key(text, key)?;
    push_with_number(text, " states ", count as u64)?;
    text.push_str("\n")?;
    Ok(())
}

/// Appends a word and a number.
fn push_with_number(text: &mut String, word: &str, number: u64) -> Result<(), AllocError>
    ensures { OnOk result (string_bytes text.new ≡ string_bytes text.old ++ (word.now ++ decimal number)) }
{
    text.push_str(word)?;
    text.push_str(Buffer::new().format(number))
}

/// Appends a key in words: its role and its method.
fn push_key(text: &mut String, key: &Key) -> Result<(), AllocError>
    ensures { OnOk result (IsAscii key.now.method → string_bytes text.new ≡ string_bytes text.old ++ key_text key.now) }
{
    text.push_str(role_text(key.role()))?;
    text.push_str(" ")?;
    push_ascii(text, key.method())?;
    Ok(())
}

/// The role in a transaction as a word.
fn role_text(role: Role) -> &'static str
    ensures { result.now ≡ role_text role }
{
    match role {
        Role::Client => "client",
        Role::Server => "server",
    }
}

/// Appends bytes as text. They are ASCII, which is why the text stays valid.
fn push_ascii(text: &mut String, bytes: &[u8]) -> Result<(), AllocError>
    ensures { OnOk result (IsAscii bytes.now → string_bytes text.new ≡ string_bytes text.old ++ bytes.now) }
{
    for byte in bytes {
        text.push(char::from(*byte))?;
    }
    Ok(())
}
