//! The places of what is left of each message.
ghost use Rattle.std.specs.Prelude.{◌≡◌, ◌==◌, ◌&&◌, ◌<◌, ◌≤◌, ℕ, cond, true, false, [], IfOk, IfSome, IfNone, OnOk, OnErr};
ghost use Rattle.sip_numbers.specs.Numbers.{numbers_of};
ghost use Rattle.sip_ledger.specs.inner.Places.{HasLeft, IsFirstHeld, IsFrom, IsNext, IsNextLeft, IsQueue, holds};

use crate::accounts::queue::Queue;
use sip_numbers::Numbers;
use std::alloc::{AllocError, Global};
use std::collections::{BTreeMap, BTreeSet};
use std::marker::Model;

/// The places at which gains are left, each under its message; and the set of these messages, and that of these places. Contracts see the pairs of a
/// message and a place, in order.
#[derive(Debug, Drop)]
pub(crate) struct Places {
    pairs: BTreeSet<(u64, u64)>,
    messages: Numbers,
    places: Numbers,
    /// Messages that were asked for together, under the least of them.
    queues: BTreeMap<u64, Queue>,
    /// No place is this one or a later one.
    end: u64,
}

impl Model for Places {
    ghost use Rattle.std.specs.Prelude.{ℕ, List};
    ghost use Rattle.sip_ledger.specs.inner.Places.{ArePlaces, AreQueues};

    ghost Value = { List (ℕ × ℕ) };

    ghost view = { λ p. p.pairs.keys };

    // Each message and each place of a pair is in its set, and a place stands under one message. The queues are right, and no place is the end or a later one.
    ghost invariant = { λ p. ArePlaces p.pairs.keys p.messages p.places × AreQueues p.pairs.keys p.end p.queues };
}

impl Places {
    /// No places.
    #[tactic(auto, using(crate::proofs::gains::LeftLemmas::none_held))]
    pub(crate) fn new(alloc: Global) -> Self
        ensures { result ≡ [] }
    {
        Places {
            pairs: BTreeSet::new(alloc),
            messages: Numbers::new(alloc),
            places: Numbers::new(alloc),
            queues: BTreeMap::new(alloc),
            end: 0,
        }
    }

    /// Puts the place under the message, where it stands under none. On an error all is as before.
    pub(crate) fn put(&mut self, message: u64, place: u64) -> Result<(), AllocError>
        requires { (m : ℕ) → holds self.old m place ≡ false }
        ensures ok { OnOk result ((m k : ℕ) → holds self.new m k ≡ cond (m == message && k == place) true (holds self.old m k)) }
        ensures err { OnErr result (self.new ≡ self.old) }
    {
        let end = place.checked_add(1).ok_or(AllocError)?;
        self.messages.put(message)?;
        self.places.put(place)?;
        let _added = self.pairs.insert((message, place))?;
        // A message of a queue is not left before its place there. A new place that is not after all others may be before that one.
        if place < self.end {
            self.queues.clear();
        }
        self.end = self.end.max(end);
        Ok(())
    }

    /// Takes the place from the message, if it stands there.
    pub(crate) fn take(&mut self, message: u64, place: u64)
        ensures { (m k : ℕ) → holds self.new m k ≡ cond (m == message && k == place) false (holds self.old m k) }
    {
        if !remove(&mut self.pairs, message, place) {
            return;
        }
        self.places.take(place);
        if self.next(message, 0).is_none() {
            self.messages.take(message);
        }
        // Where nothing is left, no queue is kept.
        if self.pairs.is_empty() {
            self.queues.clear();
        }
    }

    /// The first pair from this message and place on, in the order of messages and then of places.
    #[tactic(auto, unfolding(crate::specs::inner::Places::holds))]
    pub(crate) fn first_from(&self, message: u64, place: u64) -> Option<(u64, u64)>
        ensures is { IfSome result (λ found. holds self.now found.0 found.1 ≡ true) }
        ensures after { IfSome result (λ found. IsFrom message place found.0 found.1) }
        ensures first { IfSome result (λ found. (m k : ℕ) → holds self.now m k ≡ true → IsFrom message place m k → IsFrom found.0 found.1 m k) }
        ensures none { IfNone result ((m k : ℕ) → IsFrom message place m k → holds self.now m k ≡ false) }
    {
        match self.pairs.range((message, place)..).next() {
            Some(pair) => Some(*pair),
            None => None,
        }
    }

    /// The first place of the message, from this one on.
    pub(crate) fn next(&self, message: u64, from: u64) -> Option<u64>
        ensures { IsNext self.now message from result }
    {
        match self.first_from(message, from) {
            Some((found, place)) if found == message => Some(place),
            _ => None,
        }
    }

    /// The first of these messages from this one on of which a place is here. It may tell one of which none is any more, but passes over none of which one is.
    pub(crate) fn next_among(&self, messages: &Numbers, from: u64) -> Option<u64>
        ensures found { IfSome result (IsNextLeft self.now (numbers_of messages.now) from) }
        ensures none { IfNone result ((m k : ℕ) → from ≤ m → numbers_of messages.now m ≡ true → holds self.now m k ≡ false) }
    {
        messages.next_in_both(&self.messages, from)
    }

    /// The first place of all at which one of these messages is left, with the message that is left there, if that is known. Where they were asked for before,
    /// or others with the same least message, those that were left then stand in a queue, and are not looked at again.
    pub(crate) fn first_among(
        &mut self,
        alloc: Global,
        messages: &Numbers,
    ) -> Result<Option<(u64, u64)>, AllocError>
        ensures same { self.new ≡ self.old }
        ensures first { IfOk result (λ found. IfSome found (IsFirstHeld self.old (numbers_of messages.now))) }
    {
        let key = messages.next_in_both(messages, 0).unwrap_or(0);
        let mut queue = self.queues.remove(&key).unwrap_or(Queue::new(alloc));
        let first = self.head(messages, &mut queue)?;
        // Queues that are asked for no more go, where there are more of them than places.
        if self.queues.len() > self.pairs.len() {
            self.queues.clear();
        }
        if first.is_some() {
            let _old = self.queues.insert(key, queue)?;
        }
        Ok(first)
    }

    /// Puts those of the messages that are left into the queue, each at its first place.
    fn gather(&self, messages: &Numbers, queue: &mut Queue) -> Result<(), AllocError>
        ensures queue { (end : ℕ) → IsQueue self.now end queue.old → OnOk result (IsQueue self.now end queue.new) }
        ensures all { OnOk result (HasLeft self.now queue.new (numbers_of messages.now)) }
    {
        let mut from = 0;
        for _turn in 0..usize::MAX {
            let Some(message) = queue.next_out(messages, &self.messages, from) else {
                return Ok(());
            };
            if let Some(place) = self.next(message, 0) {
                queue.put(place, message)?;
            }
            from = message.saturating_add(1);
        }
        // No memory has room for as many messages as a number can count.
        Err(AllocError)
    }

    /// The first pair of the queue whose message is left at its place, after those of the messages that are left are there. A pair before it goes, and comes
    /// again at the first place at which its message is left.
    fn head(&self, messages: &Numbers, queue: &mut Queue) -> Result<Option<(u64, u64)>, AllocError>
        ensures queue { (end : ℕ) → IsQueue self.now end queue.old → OnOk result (IsQueue self.now end queue.new) }
        ensures first { (end : ℕ) → IsQueue self.now end queue.old → IfOk result (λ found. IfSome found
            (IsFirstHeld self.now (numbers_of messages.now))) }
    {
        self.gather(messages, queue)?;
        for _turn in 0..usize::MAX {
            let Some((place, message)) = queue.first() else {
                return Ok(None);
            };
            let next = self.next(message, place);
            if next == Some(place) {
                return Ok(Some((place, message)));
            }
            queue.take(place, message);
            if let Some(later) = next {
                queue.put(later, message)?;
            }
        }
        Ok(None)
    }

    /// The first place from this one on that stands under some message. It may tell one that stands under none any more, but passes over none that stands
    /// under one.
    pub(crate) fn next_place(&self, from: u64) -> Option<u64>
        ensures low { IfSome result (λ place. from ≤ place) }
        ensures before { IfSome result (λ place. (m k : ℕ) → from ≤ k → k < place → holds self.now m k ≡ false) }
        ensures none { IfNone result ((m k : ℕ) → from ≤ k → holds self.now m k ≡ false) }
    {
        self.places.next_in_both(&self.places, from)
    }

    /// Two messages: the least and the greatest under which places stand, or 0 and 0 where there are no places.
    #[tactic(auto, using(crate::proofs::gains::LeftLemmas::none_held))]
    pub(crate) fn span(&self) -> (u64, u64)
        ensures { (m k : ℕ) → holds self.now m k ≡ true → (result.0 ≤ m) × (m ≤ result.1) }
    {
        match (self.pairs.first(), self.pairs.last()) {
            (Some(first), Some(last)) => (first.0, last.0),
            _ => (0, 0),
        }
    }
}

/// Takes the pair of the message and the place out, if it is there, and tells whether it was.
#[tactic(auto, using(crate::proofs::gains::LeftLemmas::held_updated), unfolding(crate::specs::inner::Places::holds))]
pub(crate) fn remove(pairs: &mut BTreeSet<(u64, u64)>, message: u64, place: u64) -> bool
    ensures stood { result ≡ holds pairs.old.keys message place }
    ensures taken { (m k : ℕ) → holds pairs.new.keys m k ≡ cond (m == message && k == place) false (holds pairs.old.keys m k) }
{
    pairs.remove(&(message, place))
}
