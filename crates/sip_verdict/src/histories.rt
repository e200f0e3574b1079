//! The first and the last entry of each transaction, and its branch as it was spelled first.
ghost use Rattle.std.specs.Prelude.{◌≡◌, ◌<◌, [], All, IfOk, OnOk};
ghost use Rattle.sip_verdict.specs.inner.Concerned.{each};
ghost use Rattle.sip_verdict.specs.inner.Histories.{Notes, NotesEach, SpellsBranch};

use crate::concerned::Concerned;
use sip_log::Entry;
use sip_message::{Message, ReadError};
use sip_part::led_branch;
use std::alloc::{AllocError, Global};

/// What is kept of the entries of a transaction.
#[derive(Drop)]
pub(crate) struct History {
    /// The branch of its first message, as it is spelled there.
    pub(crate) branch: Vec<u8>,
    /// The number of its first entry.
    pub(crate) first: u64,
    /// The number of its last entry that is no restart of the element.
    pub(crate) last: u64,
}

/// The history of each transaction, by its number from 1.
#[derive(Drop)]
pub(crate) struct Histories {
    pub(crate) each: Vec<History>,
    /// The number of the newest restart of the element, which concerns all transactions that there were; 0 before the first restart.
    pub(crate) restart: u64,
}

/// The branch of the top Via as the message spells it, and nothing where the bytes are no message or the message has no branch.
fn spelled_branch(alloc: Global, bytes: &[u8]) -> Result<Vec<u8>, AllocError>
    ensures { IfOk result (λ branch. SpellsBranch bytes.now branch.items) }
{
    if let Some(branch) = led_branch(bytes) {
        return Ok(branch.to_vec(alloc)?);
    }
    match Message::read(alloc, bytes) {
        Ok(message) => match message.top_via().branch {
            Some(branch) => Ok(branch.to_vec(alloc)?),
            None => Ok(Vec::new(alloc)),
        },
        Err(ReadError::Fault(_)) => Ok(Vec::new(alloc)),
        Err(ReadError::Memory) => Err(AllocError),
    }
}

impl Histories {
    /// The histories before the first transaction. They take no memory.
    pub(crate) fn new(alloc: Global) -> Histories
        ensures each { result.each.items ≡ [] }
        ensures restart { result.restart ≡ 0 }
    {
        Histories {
            each: Vec::new(alloc),
            restart: 0,
        }
    }

    /// Writes into the history of the transaction with this number that the entry concerns it. The number may be one above those that there are.
    fn note(&mut self, alloc: Global, number: u64, entry: &Entry) -> Result<(), AllocError>
        requires { 0 < number }
        ensures noted { OnOk result (Notes entry.now.number entry.now.bytes.items number self.old.each.items self.new.each.items) }
        ensures restart { self.new.restart ≡ self.old.restart }
    {
        // Of a transaction with a history the entry becomes the last one. A new one gets a history, in which it is the first entry too.
        let index = number as usize - 1;
        if index < self.each.len() {
            self.each[index].last = entry.number;
            return Ok(());
        }
        let branch = spelled_branch(alloc, entry.bytes.as_slice())?;
        self.each.push(History {
            branch,
            first: entry.number,
            last: entry.number,
        })?;
        Ok(())
    }

    /// Writes into the histories of the transactions with these numbers that the message of the entry concerns them.
    pub(crate) fn note_each(
        &mut self,
        alloc: Global,
        numbers: Concerned<u64>,
        entry: &Entry,
    ) -> Result<(), AllocError>
        requires { All (λ number. 0 < number) (each numbers) }
        ensures noted { OnOk result (NotesEach entry.now.number entry.now.bytes.items (each numbers) self.old.each.items self.new.each.items) }
        ensures restart { self.new.restart ≡ self.old.restart }
    {
        // A restart, which concerns all, is not written into each history: `restart` has its number.
        match numbers {
            Concerned::None | Concerned::All => Ok(()),
            Concerned::Own(own) => self.note(alloc, own, entry),
            Concerned::OwnAndCancelled(own, cancelled) => {
                self.note(alloc, own, entry)?;
                self.note(alloc, cancelled, entry)
            }
        }
    }
}
