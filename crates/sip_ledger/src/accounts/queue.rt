//! Messages that are asked for together, in the order of the places at which they are left.
ghost use Rattle.std.specs.Prelude.{◌≡◌, ◌==◌, ◌&&◌, ◌<◌, ◌≤◌, ℕ, cond, true, false, [], IfSome, IfNone, OnOk};
ghost use Rattle.sip_numbers.specs.Numbers.{numbers_of};
ghost use Rattle.sip_ledger.specs.inner.Places.{Stands, holds};

use crate::accounts::places::remove;
use sip_numbers::Numbers;
use std::alloc::{AllocError, Global};
use std::collections::BTreeSet;
use std::marker::Model;

/// Messages, each at a place before which it is not left; and the set of these messages. Contracts see the pairs of a place and a message, in order.
#[derive(Debug, Drop)]
pub(crate) struct Queue {
    pairs: BTreeSet<(u64, u64)>,
    messages: Numbers,
}

impl Model for Queue {
    ghost use Rattle.std.specs.Prelude.{◌≡◌, ℕ, List, true};
    ghost use Rattle.sip_numbers.specs.Numbers.{numbers_of};
    ghost use Rattle.sip_ledger.specs.inner.Places.{Stands};

    ghost Value = { List (ℕ × ℕ) };

    ghost view = { λ q. q.pairs.keys };

    // Each message of the set stands in a pair.
    ghost invariant = { λ q. (m : ℕ) → numbers_of q.messages m ≡ true → Stands q.pairs.keys m };
}

impl Queue {
    /// No messages.
    pub(crate) fn new(alloc: Global) -> Self
        ensures { result ≡ [] }
    {
        Queue {
            pairs: BTreeSet::new(alloc),
            messages: Numbers::new(alloc),
        }
    }

    /// The first pair, if there is one.
    #[tactic(auto, unfolding(crate::specs::inner::Places::holds))]
    pub(crate) fn first(&self) -> Option<(u64, u64)>
        ensures is { IfSome result (λ pair. holds self.now pair.0 pair.1 ≡ true) }
        ensures least { IfSome result (λ pair. (b m : ℕ) → holds self.now b m ≡ true → pair.0 ≤ b) }
    {
        match self.pairs.first() {
            Some(pair) => Some(*pair),
            None => None,
        }
    }

    /// The first of the messages from this one on that is in both sets, and does not stand here.
    pub(crate) fn next_out(&self, messages: &Numbers, left: &Numbers, from: u64) -> Option<u64>
        ensures low { IfSome result (λ n. from ≤ n) }
        ensures some { IfSome result (λ n. (m : ℕ) → from ≤ m → m < n → numbers_of messages.now m ≡ true → numbers_of left.now m ≡ true → Stands self.now m) }
        ensures none { IfNone result ((m : ℕ) → from ≤ m → numbers_of messages.now m ≡ true → numbers_of left.now m ≡ true → Stands self.now m) }
    {
        messages.next_in_both_but(left, &self.messages, from)
    }

    /// Puts the message in at the place.
    #[tactic(auto, using(crate::proofs::gains::LeftLemmas::held_updated))]
    pub(crate) fn put(&mut self, place: u64, message: u64) -> Result<(), AllocError>
        ensures { OnOk result ((b m : ℕ) → holds self.new b m ≡ cond (b == place && m == message) true (holds self.old b m)) }
    {
        let _added = self.pairs.insert((place, message))?;
        self.messages.put(message)?;
        Ok(())
    }

    /// Takes the message out, where it stands at the place.
    pub(crate) fn take(&mut self, place: u64, message: u64)
        ensures { (b m : ℕ) → holds self.new b m ≡ cond (b == place && m == message) false (holds self.old b m) }
    {
        let _stood = remove(&mut self.pairs, place, message);
        self.messages.take(message);
    }
}
