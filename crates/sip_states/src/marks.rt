//! Marks of indices: the marked ones are found without a look at the others.
ghost use Rattle.std.specs.Prelude.{◌≡◌, ◌≢◌, ◌↔◌, ◌<◌, ◌≤◌, ◌++◌, ◌∷◌, [], ℕ, List, Bool, Some, false, true, All, AllPairs, Contains, IfOk, OnErr, OnOk, length, set, get_or, slice_get};
ghost use Rattle.sip_states.specs.Tables.{most_keys};
ghost use Rattle.sip_states.specs.inner.Marks.{IsMarked, exchanged_order, exchanged_places};

use std::alloc::{AllocError, Global};
use std::marker::Model;

/// Two marks for the indices of a list: the sets that may name a message are marked as named, and those that a restart may change as
/// moved. The named ones are moved too. They stand first in `order`, and then the other moved ones; it has every index once, and
/// `places` tells where each stands. So a mark is put on or taken off in few steps and without memory.
#[derive(Debug, Drop)]
pub(crate) struct Marks {
    order: Vec<u32>,
    places: Vec<u32>,
    named: usize,
    moved: usize,
}

impl Model for Marks {
    ghost use Rattle.std.specs.Prelude.{◌≤◌};
    ghost use Rattle.sip_states.specs.inner.Marks.{marks, IsPlaced, Marked};

    // What marks mean is, for each index, whether it is named and whether it is moved. Each index stands in the order once, the named ones first.
    ghost Value = { Marked };

    ghost view = { λ m. record { named = marks m.places.items m.named; moved = marks m.places.items m.moved } };

    ghost invariant = { λ m. IsPlaced m.order.items m.places.items m.moved × (m.named ≤ m.moved) };
}

impl Marks {
    /// Marks of no index.
    pub(crate) fn new(alloc: Global) -> Self
        ensures { result ≡ record { named = []; moved = [] } }
    {
        Marks {
            order: Vec::new(alloc),
            places: Vec::new(alloc),
            named: 0,
            moved: 0,
        }
    }

    /// Marks for `count` indices, which have both.
    pub(crate) fn all(alloc: Global, count: usize) -> Result<Self, AllocError>
        requires { count ≤ most_keys }
        ensures long { IfOk result (λ marks. (length marks.named ≡ count) × (length marks.moved ≡ count)) }
        ensures named { IfOk result (λ marks. All (λ is_marked. is_marked ≡ true) marks.named) }
        ensures moved { IfOk result (λ marks. All (λ is_marked. is_marked ≡ true) marks.moved) }
    {
        let mut marks = Marks::new(alloc);
        for index in 0..count {
            marks.push()?;
            marks.mark(index);
        }
        Ok(marks)
    }

    /// Adds an index without marks.
    pub(crate) fn push(&mut self) -> Result<(), AllocError>
        requires { length self.old.named < most_keys }
        ensures named { OnOk result (self.new.named ≡ self.old.named ++ false ∷ []) }
        ensures moved { OnOk result (self.new.moved ≡ self.old.moved ++ false ∷ []) }
        ensures err { OnErr result (self.new ≡ self.old) }
    {
        let index = self.order.len() as u32;
        self.order.push(index)?;
        if self.places.push(index).is_err() {
            // Without room for its place the new index leaves the order again.
            self.order.pop();
            return Err(AllocError);
        }
        Ok(())
    }

    /// Puts both marks on the index.
    pub(crate) fn mark(&mut self, index: usize)
        requires named { index < length self.old.named }
        requires moved { index < length self.old.moved }
        ensures named { self.new.named ≡ set self.old.named index true }
        ensures moved { self.new.moved ≡ set self.old.moved index true }
    {
        self.mark_moved(index);
        self.mark_named(index);
    }

    /// Marks the index as moved.
    fn mark_moved(&mut self, index: usize)
        requires { index < length self.old.named }
        ensures named { self.new.named ≡ self.old.named }
        ensures moved { self.new.moved ≡ set self.old.moved index true }
    {
        let place = self.places[index] as usize;
        if place >= self.moved {
            exchange(&mut self.order, &mut self.places, place, self.moved);
            self.moved += 1;
        }
    }

    /// Marks the index, which is marked as moved, as named.
    fn mark_named(&mut self, index: usize)
        requires { IsMarked self.old.moved index }
        ensures named { self.new.named ≡ set self.old.named index true }
        ensures moved { self.new.moved ≡ self.old.moved }
    {
        let place = self.places[index] as usize;
        if place >= self.named {
            exchange(&mut self.order, &mut self.places, place, self.named);
            self.named += 1;
        }
    }

    /// Takes both marks off the index.
    pub(crate) fn unmark(&mut self, index: usize)
        requires { index < length self.old.named }
        ensures named { self.new.named ≡ set self.old.named index false }
        ensures moved { self.new.moved ≡ set self.old.moved index false }
    {
        self.unmark_named(index);
        self.unmark_moved(index);
    }

    /// Takes the mark that it is named off the index.
    pub(crate) fn unmark_named(&mut self, index: usize)
        requires { index < length self.old.named }
        ensures named { self.new.named ≡ set self.old.named index false }
        ensures moved { self.new.moved ≡ self.old.moved }
    {
        let place = self.places[index] as usize;
        if place < self.named {
            exchange(&mut self.order, &mut self.places, place, self.named - 1);
            self.named -= 1;
        }
    }

    /// Takes the mark that it is moved off the index, which is not marked as named.
    fn unmark_moved(&mut self, index: usize)
        requires { slice_get self.old.named index ≡ Some false }
        ensures named { self.new.named ≡ self.old.named }
        ensures moved { self.new.moved ≡ set self.old.moved index false }
    {
        let place = self.places[index] as usize;
        if place < self.moved {
            // The marked indices stand first: this one changes places with the last of them, which is then no longer among the first.
            exchange(&mut self.order, &mut self.places, place, self.moved - 1);
            self.moved -= 1;
        }
    }

    /// The indices that are marked as named, in no order.
    pub(crate) fn named(&self) -> &[u32]
        ensures members { (index : ℕ) → Contains result.now index ↔ IsMarked self.now.named index }
        ensures once { AllPairs (λ a b. a ≢ b) result.now }
    {
        &self.order[..self.named]
    }

    /// The indices that are marked as moved, in no order.
    pub(crate) fn moved(&self) -> &[u32]
        ensures members { (index : ℕ) → Contains result.now index ↔ IsMarked self.now.moved index }
        ensures once { AllPairs (λ a b. a ≢ b) result.now }
    {
        &self.order[..self.moved]
    }
}

/// Exchanges the indices at two places of the order.
fn exchange(order: &mut Vec<u32>, places: &mut Vec<u32>, p: usize, q: usize)
    requires first { p < length order.old.items }
    requires second { q < length order.old.items }
    requires inside { (k : ℕ) → k < length order.old.items → get_or order.old.items k 0 < length places.old.items }
    requires placed { (k : ℕ) → k < length order.old.items → get_or places.old.items (get_or order.old.items k 0) 0 ≡ k }
    ensures order { order.new.items ≡ exchanged_order order.old.items p q }
    ensures places { places.new.items ≡ exchanged_places order.old.items places.old.items p q }
{
    places.swap(order[p] as usize, order[q] as usize);
    order.swap(p, q);
}
