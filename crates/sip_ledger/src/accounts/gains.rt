//! What the rows gained: one list for all.
ghost use Rattle.std.specs.Prelude.{◌≡◌, ◌<◌, ◌≤◌, ◌+◌, ◌==◌, ◌&&◌, ◌++◌, ◌∷◌};
ghost use Rattle.sip_ledger.specs.inner.Words.{ℕ, [], IfSome, IfNone, MatchOption, OnOk, OnErr, cond, drop, length, true, false, OnTrue, AreGains, AreRising, AreSameGains, IsDropped, IsGain, IsUndropped, IsLetGo, IsNext, IsNoted, IsSeek, entries_of, entry_at, flags_at, holds, is_left, least_after, numbers_of};

use crate::accounts::places::Places;
use crate::debt::{Debt, Entry};
use sip_numbers::Numbers;
use std::alloc::{AllocError, Global};

/// What is asked of a gain most often.
#[derive(Clone, Copy, Debug)]
pub(crate) struct Flags {
    /// Whether it must be sent.
    pub must: bool,
    /// Whether it is left.
    pub left: bool,
    /// Whether no gain that is kept before it has a greater message.
    pub newest: bool,
}

/// What was gained, in order. A place is the number of a gain: it stays when gains before it are dropped.
#[derive(Debug, Drop)]
pub(crate) struct Gains {
    /// The message and the deadline of each gain that is kept: these are the last ones.
    pub entries: Vec<Entry>,
    /// The flags of each gain that is kept.
    pub flags: Vec<Flags>,
    /// How many gains there were.
    pub end: usize,
    /// The places of the gains that are left, under the messages.
    pub messages: Places,
    /// The places of what must be sent.
    pub musts: Numbers,
    /// Whether no deadline is below the one before it, as far as gains are kept.
    pub rises: bool,
    /// No gain that is kept has a greater message.
    pub highest: u64,
}

impl Gains {
    /// Nothing was gained.
    #[tactic(auto, using(crate::proofs::gains::LeftLemmas::none_gained_yet), unfolding(crate::specs::inner::Places::holds, crate::specs::inner::Accounts::entries_of))]
    pub(crate) fn new(alloc: Global) -> Self
        ensures gained { AreGains result }
        ensures none { entries_of result ≡ [] }
    {
        Gains {
            entries: Vec::new(alloc),
            flags: Vec::new(alloc),
            end: 0,
            messages: Places::new(alloc),
            musts: Numbers::new(alloc),
            rises: true,
            highest: 0,
        }
    }

    /// The first place whose gain is kept.
    pub(crate) fn first(&self) -> usize
        requires { AreGains self.now }
        ensures { result + length self.now.entries.items ≡ self.now.end }
    {
        self.end - self.entries.len()
    }

    /// The gain at the place.
    #[tactic(auto, using(crate::proofs::gains::LeftLemmas::entry_by_place))]
    pub(crate) fn entry(&self, place: usize) -> Entry
        requires gained { AreGains self.now }
        requires kept { IsUndropped self.now place }
        ensures { result ≡ entry_at (entries_of self.now) place }
    {
        self.entries[place - (self.end - self.entries.len())]
    }

    /// The flags of the gain at the place.
    pub(crate) fn flags(&self, place: usize) -> Flags
        requires gained { AreGains self.now }
        requires kept { IsUndropped self.now place }
        ensures { result ≡ flags_at self.now place }
    {
        self.flags[place - (self.end - self.entries.len())]
    }

    /// Whether a gain of the message is left at the place.
    #[tactic(auto, using(crate::proofs::gains::LeftLemmas::held_left))]
    pub(crate) fn has(&self, message: u64, place: usize) -> bool
        requires { AreGains self.now }
        ensures { result ≡ holds self.now.messages message place }
    {
        if place < self.first() || self.end <= place {
            return false;
        }
        self.entry(place).message == message && self.flags(place).left
    }

    /// Whether it is known that no deadline of what is kept is below the moment.
    #[tactic(auto, using(crate::proofs::gains::LeftLemmas::rising_kept))]
    pub(crate) fn all_count(&self, moment: u64) -> bool
        requires { AreGains self.now }
        ensures { OnTrue result ((k : ℕ) → IsUndropped self.now k → moment ≤ (entry_at (entries_of self.now) k).deadline) }
    {
        if self.entries.is_empty() {
            return true;
        }
        // Where deadlines never fall, the first of those that are kept is the least.
        if self.entry(self.first()).deadline < moment {
            return false;
        }
        self.rises
    }

    /// Puts a gain after the others. On an error they are as before.
    pub(crate) fn push(&mut self, debt: Debt) -> Result<(), AllocError>
        requires { AreGains self.old }
        ensures ok { OnOk result (IsGain debt self.old self.new) }
        ensures err { OnErr result (AreSameGains self.old self.new) }
    {
        if self.end == usize::MAX {
            return Err(AllocError);
        }
        let entry = Entry {
            message: debt.message,
            deadline: debt.deadline,
        };
        let place = self.end as u64;
        let rises = rise(&self.entries, self.rises, entry);
        let newest = self.highest <= debt.message;
        // What can be refused comes before any change: room in both lists, and the place in the indexes.
        self.entries.reserve(1)?;
        self.flags.reserve(1)?;
        note(&mut self.messages, &mut self.musts, place, debt)?;
        self.rises = rises;
        self.entries.push_reserved(entry);
        self.flags.push_reserved(Flags {
            must: debt.must,
            left: true,
            newest,
        });
        self.highest = self.highest.max(debt.message);
        self.end += 1;
        Ok(())
    }

    /// The first place of the message from this one on that is left. The place itself is looked at before the index is asked.
    pub(crate) fn next(&self, message: u64, from: usize) -> Option<usize>
        requires { AreGains self.now }
        ensures { IsNext self.now.messages message from result }
    {
        if self.has(message, from) {
            return Some(from);
        }
        Some(self.messages.next(message, from as u64)? as usize)
    }

    /// A place from this one on before which no gain from this one on is left: that of the next gain that is left, mostly.
    #[tactic(auto, unfolding(crate::specs::inner::Accounts::is_left))]
    pub(crate) fn next_left(&self, from: usize) -> usize
        requires { AreGains self.now }
        ensures low { from ≤ result }
        ensures before { (k : ℕ) → from ≤ k → k < result → is_left self.now k ≡ false }
    {
        if self.end <= from {
            return from;
        }
        // The place itself is looked at before the set is asked.
        if self.first() <= from && self.flags(from).left {
            return from;
        }
        match self.messages.next_place(from as u64) {
            Some(place) => place as usize,
            None => self.end,
        }
    }

    /// The first message after this one, or of all, of which something is left, and the first place where it is.
    pub(crate) fn next_message(&self, last: Option<u64>) -> Option<(u64, Seek)>
        requires { AreGains self.now }
        ensures low { IfSome result (λ found. least_after last ≤ found.0) }
        ensures before { IfSome result (λ found. (m k : ℕ) → least_after last ≤ m → m < found.0 → holds self.now.messages m k ≡ false) }
        ensures seek { IfSome result (λ found. IsSeek self.now found.0 found.1) }
        ensures none { IfNone result ((m k : ℕ) → least_after last ≤ m → holds self.now.messages m k ≡ false) }
    {
        let (message, place) = match last {
            // No place is `u64::MAX`, so from there on the next message is a greater one.
            Some(last) => self.messages.first_from(last, u64::MAX)?,
            None => self.messages.first_from(0, 0)?,
        };
        let place = Some(place as usize);
        Some((message, Seek { low: 0, place }))
    }

    /// Whether there is a place, and no gain that is kept up to it has a greater message than the one there.
    #[tactic(auto, using(std::proofs::lemmas::Bool::OnTrue_from))]
    pub(crate) fn is_newest(&self, place: Option<usize>) -> bool
        requires gained { AreGains self.now }
        requires kept { IfSome place (IsUndropped self.now) }
        ensures { OnTrue result (MatchOption place ⊥ (λ at. (k : ℕ) → k ≤ at → IsUndropped self.now k → (entry_at (entries_of self.now) k).message ≤ (entry_at (entries_of self.now) at).message)) }
    {
        match place {
            Some(place) => self.flags(place).newest,
            None => false,
        }
    }

    /// The first place from this one on of what must be sent. The place itself is looked at before the set is asked.
    pub(crate) fn next_must(&self, from: usize) -> Option<usize>
        requires { AreGains self.now }
        ensures within { IfSome result (λ at. (from ≤ at) × (at < self.now.end)) }
        ensures is { IfSome result (λ at. numbers_of self.now.musts at ≡ true) }
        ensures before { IfSome result (λ at. (k : ℕ) → from ≤ k → k < at → numbers_of self.now.musts k ≡ false) }
        ensures none { IfNone result ((k : ℕ) → from ≤ k → numbers_of self.now.musts k ≡ false) }
    {
        if self.end <= from {
            return None;
        }
        if self.first() <= from && self.flags(from).must {
            return Some(from);
        }
        Some(self.musts.next_in_both(&self.musts, from as u64)? as usize)
    }

    /// Lets the gain at the place go: it is not left any more.
    pub(crate) fn let_go(&mut self, place: usize)
        requires gained { AreGains self.old }
        requires kept { IsUndropped self.old place }
        ensures { IsLetGo place self.old self.new }
    {
        let message = self.entry(place).message;
        self.messages.take(message, place as u64);
        self.musts.take(place as u64);
        // The gain stays in the list, so that the places stay; its flags say that it is not left.
        let at = place - (self.end - self.entries.len());
        self.flags[at] = Flags {
            must: false,
            left: false,
            newest: false,
        };
    }

    /// Drops the gains before the place, of which none is left.
    pub(crate) fn drop_to(&mut self, place: usize)
        requires gained { AreGains self.old }
        requires from { self.old.end ≤ place + length self.old.entries.items }
        requires within { place ≤ self.old.end }
        requires none { (m k : ℕ) → k < place → holds self.old.messages m k ≡ false }
        ensures gained { AreGains self.new }
        ensures dropped { IsDropped place self.old self.new }
    {
        let count = place - (self.end - self.entries.len());
        drop_first(&mut self.entries, count);
        drop_first(&mut self.flags, count);
    }
}

/// What the index said last of a message: from `low` on it is left at `place` first, or nowhere.
#[derive(Clone, Copy, Debug)]
pub(crate) struct Seek {
    pub low: usize,
    pub place: Option<usize>,
}

impl Seek {
    /// From this place on.
    pub(crate) fn new(gains: &Gains, message: u64, low: usize) -> Self
        requires { AreGains gains.now }
        ensures { IsSeek gains.now message result }
    {
        Seek {
            low,
            place: gains.next(message, low),
        }
    }

    /// The first place from this one on at which the message is left. The index is asked where neither what it said last nor the place itself tells.
    #[inline(always)]
    pub(crate) fn next(&mut self, gains: &Gains, message: u64, from: usize) -> Option<usize>
        requires gained { AreGains gains.now }
        requires seek { IsSeek gains.now message self.old }
        ensures seek { IsSeek gains.now message self.new }
        ensures next { IsNext gains.now.messages message from result }
    {
        if self.low <= from {
            match self.place {
                Some(at) if at < from => {}
                place => return place,
            }
        }
        if gains.has(message, from) {
            return Some(from);
        }
        self.low = from;
        self.place = gains.next(message, from);
        self.place
    }
}

/// Puts the place of a gain under its message, and among those of what must be sent if it must. On an error it stands nowhere.
fn note(messages: &mut Places, musts: &mut Numbers, at: u64, debt: Debt) -> Result<(), AllocError>
    requires message { (m : ℕ) → holds messages.old m at ≡ false }
    requires must { numbers_of musts.old at ≡ false }
    ensures ok { OnOk result (IsNoted at debt messages.old messages.new musts.old musts.new) }
    ensures err { OnErr result (((m k : ℕ) → holds messages.new m k ≡ holds messages.old m k) × (musts.new ≡ musts.old)) }
{
    messages.put(debt.message, at)?;
    if debt.must && musts.put(at).is_err() {
        messages.take(debt.message, at);
        return Err(AllocError);
    }
    Ok(())
}

/// Whether deadlines never fall, with one gain more.
#[tactic(auto, using(crate::proofs::gains::LeftLemmas::rising_by_one))]
fn rise(entries: &[Entry], rises: bool, entry: Entry) -> bool
    requires { rises ≡ true → AreRising entries.now }
    ensures { result ≡ true → AreRising (entries.now ++ entry ∷ []) }
{
    let count = entries.len();
    count == 0 || (rises && entries[count - 1].deadline <= entry.deadline)
}

/// Drops the first `count` items.
pub(crate) fn drop_first<T: Copy + Drop>(items: &mut Vec<T>, count: usize)
    requires { count ≤ length items.old.items }
    ensures { items.new.items ≡ drop count items.old.items }
{
    let kept = items.len() - count;
    items.copy_within(count.., 0);
    items.truncate(kept);
}
