//! Prints by slots: an equal print is found by a look at those alone that fall into the same slot.
ghost use Rattle.std.specs.Prelude.{◌≡◌, ◌<◌, ◌≤◌, ◌++◌, ◌∷◌, [], IfOk, OnOk, OnErr, length, get_or, ℕ};
ghost use Rattle.sip_machine.specs.inner.Slots.{IsLastBefore, IsNewest, slot_of};

use std::alloc::{AllocError, Global};
use std::marker::Model;

/// A print that was put in, with the one before it in its slot.
#[derive(Clone, Copy, Debug)]
pub(crate) struct SlotPrint {
    print: u64,
    /// One past the index of the last print before it that is of its slot, and 0 if there is none.
    older: usize,
}

/// Prints in the order in which they came, by slots.
#[derive(Debug, Drop)]
pub(crate) struct Slots {
    /// For each slot, one past the index of its last print, and 0 if there is none.
    newest: Vec<usize>,
    kept: Vec<SlotPrint>,
}

impl Model for Slots {
    ghost use Rattle.sip_machine.specs.inner.Slots.{Slotted, AreSlots, slotted};

    // What slots mean is their prints, each with a way to the one before it in its slot.
    ghost Value = { Slotted };

    ghost view = { λ s. slotted s.newest.items s.kept.items };

    // For each slot its newest print is known, and for each print the one before it in its slot.
    ghost invariant = { λ s. AreSlots (slotted s.newest.items s.kept.items) };
}

impl Slots {
    /// Slots without prints, with room for `count`, of which about half are to be new.
    pub(crate) fn with_room(alloc: Global, count: usize) -> Result<Slots, AllocError>
        ensures { IfOk result (λ slots. slots.prints ≡ []) }
    {
        let slots = count / 2 + 1;
        let mut newest = Vec::with_capacity(alloc, slots)?;
        newest.resize(slots, 0)?;
        Ok(Slots {
            newest,
            kept: Vec::with_capacity(alloc, count)?,
        })
    }

    /// Puts the print after the others. On an error all is as before.
    pub(crate) fn push(&mut self, print: u64) -> Result<(), AllocError>
        ensures ok { OnOk result (self.new.prints ≡ self.old.prints ++ print ∷ []) }
        ensures err { OnErr result (self.new ≡ self.old) }
    {
        let slot = slot_of(self.newest.len(), print);
        let older = self.newest[slot];
        self.kept.push(SlotPrint { print, older })?;
        self.newest[slot] = self.kept.len();
        Ok(())
    }

    /// The index of the last print that is equal to this one, if there is one.
    pub(crate) fn last(&self, print: u64) -> Option<usize>
        ensures { IsLastBefore self.now.prints print (length self.now.prints) result }
    {
        let slot = slot_of(self.newest.len(), print);
        self.last_from(print, self.newest[slot])
    }

    /// The index of the last print before the one at `at` that is equal to it, if there is one.
    pub(crate) fn before(&self, at: usize) -> Option<usize>
        requires { at < length self.now.prints }
        ensures { IsLastBefore self.now.prints (get_or self.now.prints at 0) at result }
    {
        let kept = self.kept[at];
        self.last_from(kept.print, kept.older)
    }

    /// The index of the last print equal to this one before a limit, where `newest` is one past the last print of its slot before the limit.
    fn last_from(&self, print: u64, newest: usize) -> Option<usize>
        requires { newest ≤ length self.now.prints }
        ensures { (limit : ℕ) → limit ≤ length self.now.prints → IsNewest (length self.now.newest) self.now.prints (slot_of (length self.now.newest) print) limit newest →
            IsLastBefore self.now.prints print limit result }
    {
        let mut next = newest;
        while next > 0 {
            let at = next - 1;
            let kept = self.kept[at];
            if kept.print == print {
                return Some(at);
            }
            next = kept.older;
        }
        None
    }
}

/// The slot of the print, which its highest bits tell: they rest on all that was mixed into it.
fn slot_of(slots: usize, print: u64) -> usize
    requires { 0 < slots }
    ensures is { result ≡ slot_of slots print }
    ensures within { result < slots }
{
    (u128::from(print) * slots as u128 >> 64) as usize
}
