//! The Tos of messages for which an ACK may come. They are found by the numbers of the messages, and by themselves.
ghost use Rattle.std.specs.Prelude.{◌≡◌, ◌<◌, ◌↔◌, ◌++◌, ◌∷◌, [], ℕ, true, IfSome, OnOk, OnErr, IsTrue, All, AllPairs, Contains, length, map};
ghost use Rattle.std.specs.List.{HoldsAt};
ghost use Rattle.sip_numbers.specs.Numbers.{numbers_of};
ghost use Rattle.sip_machine.specs.declared.tos.To.{To};
ghost use Rattle.sip_machine.specs.inner.Tos.{AreUnder, IsChanged, count_between};

use crate::hashed::Hashed;
use sip_numbers::Numbers;
use std::alloc::{AllocError, Global};
use std::collections::BTreeMap;
use std::marker::Model;

/// The To of the message with this number, without its blanks.
#[derive(Debug, Drop)]
pub(crate) struct To {
    number: u64,
    text: Hashed,
}

/// The Tos of messages, in the order of the messages' numbers. Contracts see the list.
#[derive(Debug, Drop)]
pub(crate) struct Tos {
    list: Vec<To>,
    /// Where the Tos of all messages are to stand here: the numbers of the messages, under their Tos.
    sets: Option<BTreeMap<Hashed, Numbers>>,
    /// No number, which is what stands under any other To.
    none: Numbers,
}

/// Where a search for a To looks at this many messages, one by one, the Tos of all messages are to stand here: then no message without one lies
/// between these, and the response of an ACK is found without a look at each message that is owed. Where fewer are left, no sets are kept.
pub(crate) const MANY: usize = 255;

impl Model for Tos {
    ghost use Rattle.std.specs.Prelude.{◌≡◌, ◌<◌, ℕ, false, IfSome, List, AllPairs};
    ghost use Rattle.sip_numbers.specs.Numbers.{numbers_of};
    ghost use Rattle.sip_machine.specs.declared.tos.To.{To};
    ghost use Rattle.sip_machine.specs.inner.Tos.{AreUnder};

    ghost Value = { List To };

    ghost view = { λ t. t.list.items };

    // The numbers of the messages rise, and where sets are kept, each stands under its To, and no other number does.
    ghost invariant = { λ t. AllPairs (λ a b. a.number < b.number) t.list.items × IfSome t.sets (AreUnder t.list.items) × ((n : ℕ) → numbers_of t.none n ≡ false) };
}

impl Tos {
    /// A list without Tos.
    pub(crate) fn new(alloc: Global) -> Tos
        ensures { result ≡ [] }
    {
        Tos {
            list: Vec::new(alloc),
            sets: None,
            none: Numbers::new(alloc),
        }
    }

    /// Whether the Tos of all messages are to stand here.
    pub(crate) fn takes_all(&self) -> bool {
        self.sets.is_some()
    }

    /// Puts these Tos, which are those of all messages, in the place of those that are here.
    pub(crate) fn replace(&mut self, tos: Tos)
        ensures { self.new ≡ tos }
    {
        self.sets = sets_of(*tos.list.allocator(), &tos.list, true);
        self.list = tos.list;
    }

    /// The To of the message with this number: at `near`, or where a search finds it. `near` is left after it, so that messages
    /// that are asked for in the order of their numbers cost one step each.
    pub(crate) fn get(&self, number: u64, near: &mut usize) -> Option<&Hashed>
        ensures { IfSome result (λ text. Contains self.now (record { number = number; text = text.now })) }
    {
        let at = place_of(&self.list, number, *near)?;
        *near = at + 1;
        Some(&self.list[at].text)
    }

    /// Whether the number is above those of all messages that have their Tos here.
    pub(crate) fn are_below(&self, number: u64) -> bool
        ensures { IsTrue result → All (λ to. to.number < number) self.now }
    {
        match self.list.last() {
            Some(last) => last.number < number,
            None => true,
        }
    }

    /// Puts the To of a message after the others. On an error the others are as before.
    pub(crate) fn push(&mut self, number: u64, text: Hashed) -> Result<(), AllocError>
        requires { All (λ to. to.number < number) self.old }
        ensures ok { OnOk result (self.new ≡ self.old ++ (record { number = number; text = text }) ∷ []) }
        ensures err { OnErr result (self.new ≡ self.old) }
    {
        self.list.reserve(1)?;
        if let Some(sets) = &mut self.sets {
            put(*self.list.allocator(), sets, &text, number)?;
        }
        self.list.push_reserved(To { number, text });
        Ok(())
    }

    /// Takes the newest To out, if it is of the message with this number and the Tos of all messages are to stand here.
    pub(crate) fn drop_newest(&mut self, number: u64)
        ensures { All (Contains self.old) self.new }
    {
        if let Some(sets) = &mut self.sets
            && let Some(last) = self.list.last()
            && last.number == number
            && let Some(set) = sets.get_mut(&last.text)
        {
            set.take(number);
            let _ = self.list.pop();
        }
    }

    /// Keeps the Tos of the messages with these numbers, which rise. Where those that are left are few, or where there is no memory for
    /// these sets, the Tos of all messages are not to stand here any more.
    pub(crate) fn retain(&mut self, numbers: &[u64])
        ensures { All (λ to. Contains self.old to × Contains numbers.now to.number) self.new }
    {
        self.list
            .retain(|to| numbers.binary_search(&to.number).is_ok());
        self.sets = sets_of(*self.list.allocator(), &self.list, self.sets.is_some());
    }

    /// The numbers of the messages of the list that have this To; None where no sets are kept.
    pub(crate) fn under(&self, to: &Hashed) -> Option<&Numbers>
        ensures { IfSome result (λ set. (number : ℕ) → (numbers_of set.now number ≡ true) ↔ Contains self.now (record { number = number; text = to.now })) }
    {
        let sets = self.sets.as_ref()?;
        Some(sets.get(to).unwrap_or(&self.none))
    }

    /// How many Tos of the list are of messages with numbers from `low` up to `high`.
    pub(crate) fn between(&self, low: u64, high: u64) -> usize
        ensures count { result ≡ count_between low high (map (λ to. to.number) self.now) }
        ensures rising { AllPairs (λ a b. a.number < b.number) self.now }
    {
        let from = self.list.partition_point(|to| to.number < low);
        let to = self.list.partition_point(|to| to.number <= high);
        to.saturating_sub(from)
    }
}

/// The place of the To of the message with this number: `here`, or where a search finds it.
fn place_of(list: &[To], number: u64, here: usize) -> Option<usize>
    ensures within { IfSome result (λ at. at < length list.now) }
    ensures number { IfSome result (λ at. HoldsAt (λ to. to.number ≡ number) list.now at) }
{
    if here < list.len() && list[here].number == number {
        return Some(here);
    }
    match list.binary_search_by_key(&number, |to| to.number) {
        Ok(at) => Some(at),
        Err(_) => None,
    }
}

/// Puts the number under the To. On an error all sets are as before.
fn put(
    alloc: Global,
    sets: &mut BTreeMap<Hashed, Numbers>,
    to: &Hashed,
    number: u64,
) -> Result<(), AllocError>
    ensures ok { OnOk result (IsChanged to.now number true sets.old sets.new) }
    ensures err { OnErr result (sets.new.entries ≡ sets.old.entries) }
{
    if let Some(set) = sets.get_mut(to) {
        return set.put(number);
    }
    let mut set = Numbers::new(alloc);
    set.put(number)?;
    let _old = sets.insert(to.copy(alloc)?, set)?;
    Ok(())
}

/// The numbers of the messages with these Tos, under the Tos; None where none are to be kept, where they are few, or where there is no
/// memory for it.
fn sets_of(alloc: Global, list: &[To], are_kept: bool) -> Option<BTreeMap<Hashed, Numbers>>
    ensures { IfSome result (AreUnder list.now) }
{
    if !are_kept || list.len() < MANY {
        return None;
    }
    let mut sets = BTreeMap::new(alloc);
    for at in 0..list.len() {
        let to = &list[at];
        put(alloc, &mut sets, &to.text, to.number).ok()?;
    }
    Some(sets)
}
