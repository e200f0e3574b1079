//! The states in which a transaction may stand: their phases, and what they owe.
ghost use Rattle.std.specs.Prelude.{◌≡◌, ◌↔◌, ◌<◌, ◌≤◌, ◌&&◌, ◌++◌, ◌∷◌, [], ℕ, IsTrue, IfOk, IfSome, OnOk, OnErr, All, AllPairs, None, length, set, take, drop, option_to_list, get_or, filter, map, replicate};
ghost use Rattle.std.specs.List.{Any, HoldsAt, list_any};
ghost use Rattle.std.specs.Option.{option_map};
ghost use Rattle.sip_ledger.specs.Debts.{is_payable, is_timely};
ghost use Rattle.sip_ledger.specs.Lists.{from_to};
ghost use Rattle.sip_ledger.specs.Runs.{AreRuns};
ghost use Rattle.sip_standard.specs.Times.{last_moment};
ghost use Rattle.sip_machine.specs.Owing.{CodeOwing, at_rest};
ghost use Rattle.sip_machine.specs.inner.Pools.{AreFirstOnes, picked, AreMixedWith, IsRun, hash_by};
ghost use Rattle.sip_machine.specs.inner.Prints.{ArePrints};
ghost use Rattle.sip_machine.specs.inner.Effects.{led_by, repaid_at, rests_at, given_by};

use crate::dues::{Done, Dues};
use crate::effects::{Effect, Rest, come_to_rest, lead, lead_each};
use crate::phases::{Phase, Turn};
use crate::slots::Slots;
use sip_ledger::Run;
use sip_times::Params;
use std::alloc::{AllocError, Global};
use std::hash::{FoldHasher, Hasher};
use std::marker::Model;

/// After so many looks in vain, prints are asked for in which the order of debts counts too.
const FEW_LOOKS: usize = 64;

/// The order of so many debts of each state counts then.
const FIRST_DEBTS: usize = 8;

/// Up to this many states are told apart by a look at each other, which costs less than to keep their prints.
const FEW: usize = 8;

/// States of a transaction: each has its phase, and a row of what it owes. Contracts see the list of the states.
#[derive(Debug, Drop)]
pub struct Pool<P: Phase> {
    pub(crate) phases: Vec<P>,
    pub(crate) dues: Dues,
}

impl<P: Phase> Model for Pool<P> {
    ghost use Rattle.std.specs.Prelude.{◌≡◌, List, length};
    ghost use Rattle.sip_machine.specs.Owing.{CodeOwing};
    ghost use Rattle.sip_machine.specs.inner.Pools.{beside};

    ghost Value = { List (CodeOwing P) };

    // Each phase with what its row owes is a state.
    ghost view = { λ p. beside p.phases.items p.dues };

    // There are as many rows as phases.
    ghost invariant = { λ p. length p.dues ≡ length p.phases.items };
}

#[tactic(auto, using(crate::proofs::pools::PoolLemmas::of_pool))]
impl<P: Phase> Pool<P> {
    /// A pool without states.
    pub fn new(alloc: Global) -> Self
        ensures { result ≡ [] }
    {
        Pool {
            phases: Vec::new(alloc),
            dues: Dues::none(),
        }
    }

    /// A pool without states, with room for the phases of `states` states.
    pub fn with_capacity(alloc: Global, states: usize) -> Result<Self, AllocError>
        ensures { IfOk result (λ pool. pool ≡ []) }
    {
        Ok(Pool {
            phases: Vec::with_capacity(alloc, states)?,
            dues: Dues::none(),
        })
    }

    /// How many states there are.
    pub fn len(&self) -> usize
        ensures { result ≡ length self.now }
    {
        self.phases.len()
    }

    /// Whether there are no states.
    pub fn is_empty(&self) -> bool
        ensures { IsTrue result ↔ (self.now ≡ []) }
    {
        self.phases.is_empty()
    }

    /// The phase of the state at the index.
    pub fn phase(&self, at: usize) -> P
        requires { at < length self.now }
        ensures { HoldsAt (λ x. result ≡ x.phase) self.now at }
    {
        self.phases[at]
    }

    /// What the state at the index owes, in runs: equal debts side by side stand in one.
    pub fn runs(&self, alloc: Global, at: usize) -> Result<Vec<Run>, AllocError>
        requires { at < length self.now }
        ensures { HoldsAt (λ x. IfOk result (λ runs. AreRuns x.owes runs.items)) self.now at }
    {
        self.dues.runs(alloc, at)
    }

    /// Whether the state at the index is in this phase, and owes nothing.
    pub fn is_at_rest(&self, at: usize, phase: P) -> bool
        requires { at < length self.now }
        ensures { HoldsAt (λ x. IsTrue result ↔ (x ≡ at_rest phase)) self.now at }
    {
        self.phases[at] == phase && self.dues.owes_nothing(at)
    }

    /// Whether the states at the indices are the same.
    #[inline(always)]
    fn is_same(&self, at: usize, other: usize) -> bool
        requires at { at < length self.now }
        requires other { other < length self.now }
        ensures { (x : CodeOwing P) → IsTrue result ↔ (get_or self.now at x ≡ get_or self.now other x) }
    {
        // Both phases are copied out first: comparing them where they stand would call a function.
        let phase = self.phases[at];
        let other_phase = self.phases[other];
        phase == other_phase && self.dues.same(at, other)
    }

    /// Puts a state of this phase that owes nothing after the others. On an error all is as before.
    pub fn push(&mut self, phase: P) -> Result<(), AllocError>
        ensures ok { OnOk result (self.new ≡ self.old ++ at_rest phase ∷ []) }
        ensures err { OnErr result (self.new ≡ self.old) }
    {
        self.phases.reserve(1)?;
        self.dues.push()?;
        self.phases.push_reserved(phase);
        Ok(())
    }

    /// Puts a copy of the state at the index after the others, which stay as they are.
    fn push_copy(&mut self, at: usize) -> Done
        requires { at < length self.old }
        ensures ok { HoldsAt (λ x. OnOk result (self.new ≡ self.old ++ x ∷ [])) self.old at }
        ensures longer { OnOk result (length self.old < length self.new) }
        ensures before { take (length self.old) self.new ≡ self.old }
    {
        self.phases.reserve(1)?;
        self.dues.push_copy(at)?;
        self.phases.push_reserved(self.phases[at]);
        Ok(())
    }

    /// Keeps the first `len` states, and drops those after them.
    pub fn truncate(&mut self, len: usize)
        ensures { self.new ≡ take len self.old }
    {
        self.phases.truncate(len);
        self.dues.truncate(len);
    }

    /// Puts a copy of the state `from` in the place of the state `to`.
    pub fn copy(&mut self, from: usize, to: usize)
        requires from { from < length self.old }
        requires to { to < length self.old }
        ensures { HoldsAt (λ x. self.new ≡ set self.old to x) self.old from }
    {
        self.phases[to] = self.phases[from];
        self.dues.copy(from, to);
    }

    /// Drops the first `count` states.
    #[tactic(auto, using(crate::proofs::pools::PoolLemmas::of_drop))]
    fn drop_first(&mut self, count: usize)
        requires { count ≤ length self.old }
        ensures { self.new ≡ drop count self.old }
    {
        let kept = self.len() - count;
        self.phases.copy_within(count.., 0);
        self.phases.truncate(kept);
        self.dues.drop_first(count);
    }

    /// Keeps the states at the indices, which rise, and drops the others.
    #[tactic(auto, using(crate::proofs::pools::FirstLemmas::of_kept))]
    pub fn keep(&mut self, rows: &[usize])
        requires within { All (λ row. row < length self.old) rows.now }
        requires rising { AllPairs (λ a b. a < b) rows.now }
        ensures { (x : CodeOwing P) → self.new ≡ picked self.old x rows.now }
    {
        match run_of(rows) {
            Some(first) => {
                self.drop_first(first);
                self.truncate(rows.len());
            }
            None => {
                keep_phases(&mut self.phases, rows);
                self.dues.keep(rows);
            }
        }
    }

    /// The indices, rising, of the states from `from` on; of equal states that of the first alone.
    pub fn first_ones(&self, from: usize) -> Result<Vec<usize>, AllocError>
        requires { from ≤ length self.now }
        ensures { IfOk result (λ rows. AreFirstOnes self.now from (length self.now) rows.items) }
    {
        if self.len().saturating_sub(from) <= FEW {
            self.first_of_few(from)
        } else {
            self.first_of_many(from)
        }
    }

    /// The indices of the states from `from` on, of equal ones that of the first alone. Each state is held against those found before it.
    fn first_of_few(&self, from: usize) -> Result<Vec<usize>, AllocError>
        requires { from ≤ length self.now }
        ensures { IfOk result (λ rows. AreFirstOnes self.now from (length self.now) rows.items) }
    {
        let mut rows = Vec::new(*self.phases.allocator());
        for at in from..self.len() {
            if !self.is_among(&rows, at) {
                rows.push(at)?;
            }
        }
        Ok(rows)
    }

    /// The indices of the states from `from` on, of equal ones that of the first alone, found by a look at those of the same print. Where many states owe the
    /// same in other orders, these are looked at in vain. Then the order of what is owed first counts in the prints too.
    #[inline(never)]
    fn first_of_many(&self, from: usize) -> Result<Vec<usize>, AllocError>
        requires { from ≤ length self.now }
        ensures { IfOk result (λ rows. AreFirstOnes self.now from (length self.now) rows.items) }
    {
        let prints = self.prints(from, 0)?;
        if let Some(rows) = self.first_by(from, &prints, FEW_LOOKS)? {
            return Ok(rows);
        }
        let prints = self.prints(from, FIRST_DEBTS)?;
        // No set has as many pairs of states as a number can count.
        self.first_by(from, &prints, usize::MAX)?.ok_or(AllocError)
    }

    /// The indices of the states from `from` on, of equal ones that of the first alone, found by a look at those of the same print, which stands in the list for
    /// each; None where more than `most` looks are in vain.
    fn first_by(
        &self,
        from: usize,
        prints: &[u64],
        most: usize,
    ) -> Result<Option<Vec<usize>>, AllocError>
        requires from { from ≤ length self.now }
        requires prints { ArePrints self.now from prints.now }
        ensures { IfOk result (λ found. IfSome found (λ rows. AreFirstOnes self.now from (length self.now) rows.items)) }
    {
        let alloc = *self.phases.allocator();
        let mut slots = Slots::with_room(alloc, prints.len())?;
        let mut rows = Vec::with_capacity(alloc, prints.len())?;
        let mut left = most;
        for at in from..self.len() {
            if left == 0 {
                return Ok(None);
            }
            let print = prints[at - from];
            if !self.is_repeat(&slots, print, &rows, at, &mut left) {
                slots.push(print)?;
                rows.push(at)?;
            }
        }
        Ok(Some(rows))
    }

    /// Whether one of the states at the indices, whose prints the slots have, is the same as the one at `at`, which has this print. Each look in vain
    /// leaves one less of those that are left.
    fn is_repeat(
        &self,
        slots: &Slots,
        print: u64,
        rows: &[usize],
        at: usize,
        left: &mut usize,
    ) -> bool
        requires at { at < length self.now }
        requires within { All (λ row. row < length self.now) rows.now }
        requires long { length slots.now.prints ≡ length rows.now }
        requires prints { (k : ℕ) (x : CodeOwing P) → k < length rows.now → get_or self.now (get_or rows.now k 0) x ≡ get_or self.now at x →
            get_or slots.now.prints k 0 ≡ print }
        ensures { (x : CodeOwing P) → IsTrue result ↔ Any (λ row. get_or self.now row x ≡ get_or self.now at x) rows.now }
    {
        let mut next = slots.last(print);
        while let Some(found) = next {
            if self.is_same(rows[found], at) {
                return true;
            }
            *left = left.saturating_sub(1);
            next = slots.before(found);
        }
        false
    }

    /// Whether one of the states at the indices is the same as the one at `at`.
    fn is_among(&self, rows: &[usize], at: usize) -> bool
        requires at { at < length self.now }
        requires within { All (λ row. row < length self.now) rows.now }
        ensures { (x : CodeOwing P) → IsTrue result ↔ Any (λ row. get_or self.now row x ≡ get_or self.now at x) rows.now }
    {
        for row in rows {
            if self.is_same(*row, at) {
                return true;
            }
        }
        false
    }

    /// A number for each state from `from` on, in which the order of what it owes first counts too, of so many debts at most. Equal states have the same
    /// number, and others hardly ever, but where they owe the same in another order after these.
    #[inline(never)]
    fn prints(&self, from: usize, most: usize) -> Result<Vec<u64>, AllocError>
        requires { from ≤ length self.now }
        ensures { IfOk result (λ prints. ArePrints self.now from prints.items) }
    {
        let mut prints = self.dues.prints(*self.phases.allocator(), from, most)?;
        let mut at = from;
        while at < self.len() {
            let end = self.run_end(at, self.len());
            let hash = hash_of(&self.phases[at]);
            mix(&mut prints, at - from, end - from, hash);
            at = end;
        }
        Ok(prints)
    }

    /// The end of the states from `at` on that are in the phase of the one at `at`: one past the last of them, `limit` at most.
    pub(crate) fn run_end(&self, at: usize, limit: usize) -> usize
        requires at { at < limit }
        requires limit { limit ≤ length self.now }
        ensures order { (at < result) × (result ≤ limit) }
        ensures same { HoldsAt (λ first. All (λ x. x.phase ≡ first.phase) (from_to at result self.now)) self.now at }
    {
        let phase = self.phases[at];
        let mut end = at + 1;
        while end < limit && self.phases[end] == phase {
            end += 1;
        }
        end
    }

    /// Gives memory back that nothing that is owed needs, and that of the phases where it has room for more than eight times as many. What made
    /// so many states pays for the move.
    pub fn tidy(&mut self)
        ensures { self.new ≡ self.old }
    {
        self.dues.tidy();
        if self.phases.len() < self.phases.capacity() / 8 {
            self.phases.shrink_to_fit();
        }
    }

    /// Gives memory back that nothing that is owed needs, and moves the phases to memory of their own size, where there is such.
    pub fn fit(&mut self)
        ensures { self.new ≡ self.old }
    {
        self.dues.tidy();
        self.phases.shrink_to_fit();
    }

    /// Leads the state at the index where the row does. On an error all is as before.
    #[inline(always)]
    pub(crate) fn lead(&mut self, params: &Params, moment: u64, at: usize, turn: Turn<P>) -> Done
        requires moment { moment ≤ last_moment }
        requires at { at < length self.old }
        ensures ok { HoldsAt (λ x. OnOk result (self.new ≡ set self.old at (led_by params.now moment turn x))) self.old at }
        ensures err { OnErr result (self.new ≡ self.old) }
    {
        let alloc = *self.phases.allocator();
        lead(alloc, params, moment, turn.change, &mut self.dues, at)?;
        self.phases[at] = turn.phase;
        Ok(())
    }

    /// Leaves the state at the index in its phase, as a sent message does. On an error all is as before.
    pub(crate) fn come_to_rest(&mut self, moment: u64, at: usize, rest: Rest) -> Done
        requires { at < length self.old }
        ensures ok { HoldsAt (λ x. OnOk result (self.new ≡ set self.old at (rests_at moment rest x))) self.old at }
        ensures err { OnErr result (self.new ≡ self.old) }
    {
        come_to_rest(moment, rest, &mut self.dues, at)?;
        Ok(())
    }

    /// Puts the states that the effect of an event gives from the one at the index after the others. On an error all is as before.
    pub(crate) fn push_given(
        &mut self,
        params: &Params,
        moment: u64,
        at: usize,
        effect: Effect<P>,
    ) -> Done
        requires moment { moment ≤ last_moment }
        requires at { at < length self.old }
        ensures ok { HoldsAt (λ x. OnOk result (self.new ≡ self.old ++ (option_to_list (given_by params.now moment x effect).0 ++ option_to_list (given_by params.now moment x effect).1))) self.old at }
        ensures err { OnErr result (self.new ≡ self.old) }
    {
        let before = self.len();
        // Where memory is refused, what was put after the old states goes again.
        let led = self.push_led(params, moment, at, effect.turn);
        if led.is_err() || self.push_rested(moment, at, effect.rest).is_err() {
            self.truncate(before);
            return Err(AllocError);
        }
        Ok(())
    }

    /// Puts a copy of the state at the index after the others that goes where the row leads, if the event has a row. On an error the copy may
    /// be there, and the others are as before.
    fn push_led(&mut self, params: &Params, moment: u64, at: usize, turn: Option<Turn<P>>) -> Done
        requires moment { moment ≤ last_moment }
        requires at { at < length self.old }
        ensures ok { HoldsAt (λ x. OnOk result (self.new ≡ self.old ++ option_to_list (option_map (λ turn. led_by params.now moment turn x) turn))) self.old at }
        ensures before { take (length self.old) self.new ≡ self.old }
    {
        let Some(turn) = turn else {
            return Ok(());
        };
        let last = self.len();
        self.push_copy(at)?;
        self.lead(params, moment, last, turn)?;
        Ok(())
    }

    /// Puts a copy of the state at the index after the others as a sent message leaves it in its phase, if it does. On an error the copy may
    /// be there, and the others are as before.
    pub(crate) fn push_rested(&mut self, moment: u64, at: usize, rest: Option<Rest>) -> Done
        requires { at < length self.old }
        ensures ok { HoldsAt (λ x. OnOk result (self.new ≡ self.old ++ option_to_list (option_map (λ rest. rests_at moment rest x) rest))) self.old at }
        ensures before { take (length self.old) self.new ≡ self.old }
    {
        let Some(rest) = rest else {
            return Ok(());
        };
        let last = self.len();
        self.push_copy(at)?;
        self.come_to_rest(moment, last, rest)?;
        Ok(())
    }

    /// Puts a copy of each state from `from` up to `to` after the others that goes where the row leads, except for states that must
    /// send something that is past at the moment. On an error all is as before.
    pub(crate) fn push_led_each(
        &mut self,
        params: &Params,
        moment: u64,
        from: usize,
        to: usize,
        turn: Turn<P>,
    ) -> Done
        requires moment { moment ≤ last_moment }
        requires to { to ≤ length self.old }
        ensures ok { OnOk result (self.new ≡ self.old ++ map (led_by params.now moment turn) (filter (λ x. is_timely moment x.owes) (from_to from to self.old))) }
        ensures err { OnErr result (self.new ≡ self.old) }
    {
        let alloc = *self.phases.allocator();
        // The rows are put after the others first, and then as many phases. Where memory is refused, the rows go again.
        let before = self.dues.len();
        self.dues.push_timely(from, to, moment)?;
        let led = lead_each(alloc, params, moment, turn.change, &mut self.dues, before);
        if led.is_err()
            || push_phases(&mut self.phases, self.dues.len() - before, turn.phase).is_err()
        {
            self.dues.truncate(before);
            return Err(AllocError);
        }
        Ok(())
    }

    /// Puts a copy of each state from `from` up to `to`, which are in one phase, after the others that has paid the first debt that a send of the message at
    /// the moment pays. States that can pay none, or must send something that is past then, are left out. On an error all is as before.
    pub(crate) fn push_paid_each(
        &mut self,
        moment: u64,
        from: usize,
        to: usize,
        message: u64,
    ) -> Done
        requires from { from < length self.old }
        requires to { to ≤ length self.old }
        requires same { HoldsAt (λ first. All (λ x. x.phase ≡ first.phase) (from_to from to self.old)) self.old from }
        ensures ok { OnOk result (self.new ≡ self.old ++ map (repaid_at moment message)
            (filter (λ x. list_any (is_payable message moment) x.owes && is_timely moment x.owes) (from_to from to self.old))) }
        ensures err { OnErr result (self.new ≡ self.old) }
    {
        let phase = self.phases[from];
        // The rows are put after the others first, and then as many phases. Where memory is refused, the rows go again.
        let before = self.dues.len();
        self.dues.push_paid(from, to, message, moment)?;
        if push_phases(&mut self.phases, self.dues.len() - before, phase).is_err() {
            self.dues.truncate(before);
            return Err(AllocError);
        }
        Ok(())
    }
}

/// Keeps the phases at the indices, which rise, and drops the others.
#[tactic(auto, using(crate::proofs::pools::FirstLemmas::of_picking))]
fn keep_phases<P: Phase>(phases: &mut Vec<P>, rows: &[usize])
    requires within { All (λ row. row < length phases.old.items) rows.now }
    requires rising { AllPairs (λ a b. a < b) rows.now }
    ensures are { (p : P) → phases.new.items ≡ picked phases.old.items p rows.now }
    ensures long { length phases.new.items ≡ length rows.now }
{
    for to in 0..rows.len() {
        phases[to] = phases[rows[to]];
    }
    phases.truncate(rows.len());
}

/// Puts the phase after the others `count` times. On an error the phases are as before.
#[tactic(auto, using(std::proofs::lemmas::List::take_all))]
fn push_phases<P: Phase>(phases: &mut Vec<P>, count: usize, phase: P) -> Done
    ensures ok { OnOk result (phases.new.items ≡ phases.old.items ++ replicate count phase) }
    ensures err { OnErr result (phases.new.items ≡ phases.old.items) }
{
    let len = phases.len().checked_add(count).ok_or(AllocError)?;
    phases.resize(len, phase)?;
    Ok(())
}

/// The first index, if each index is the one after the index before it.
#[tactic(auto, using(crate::proofs::pools::FirstLemmas::run_of))]
fn run_of(rows: &[usize]) -> Option<usize>
    requires { AllPairs (λ a b. a < b) rows.now }
    ensures { IfSome result (λ first. IsRun first rows.now) }
{
    if rows.is_empty() {
        return None;
    }
    // The indices rise, so that each is the one after the index before it where the last is near enough to the first.
    let first = rows[0];
    if rows[rows.len() - 1] - first < rows.len() {
        Some(first)
    } else {
        None
    }
}

/// Mixes a hash into the prints from `from` up to `to`: an exclusive or of each with it.
fn mix(prints: &mut [u64], from: usize, to: usize, hash: u64)
    requires order { from ≤ to }
    requires within { to ≤ length prints.old }
    ensures { AreMixedWith hash from to prints.old prints.new }
{
    for at in from..to {
        prints[at] ^= hash;
    }
}

/// The hash of a phase: that of what the phase feeds to a hasher, which `hash_input` tells.
#[inline(never)]
fn hash_of<P: Phase>(phase: &P) -> u64
    ensures { result ≡ hash_by (P.hash_input phase.now) }
{
    let mut hasher = FoldHasher::default();
    phase.hash(&mut hasher);
    hasher.finish()
}
