//! The last moments on record, found by index or in the order of the moments.
ghost use Rattle.std.specs.Prelude.{◌≡◌, ◌<◌, ◌++◌, ◌∷◌, [], IfNone, IfOk, IfSome, None, OnErr, OnOk, Some, length, position, slice_index_or, slice_set, true, ◌≤◌, ◌↔◌, ℕ};
ghost use Rattle.std.specs.BTreeSet.{IsUnchanged};
ghost use Rattle.sip_states.specs.Agenda.{Records, is_overdue};
ghost use Rattle.sip_states.specs.Kept.{kept_of};
ghost use Rattle.sip_states.specs.inner.Lines.{Enters, Leaves};

use crate::recorded::Recorded;
use std::alloc::{AllocError, Global};
use std::collections::BTreeSet;
use std::marker::Model;

/// For each index its last moment on record, once it was settled, and the last moments in their order.
#[derive(Debug, Drop)]
pub(crate) struct Agenda {
    records: Vec<Recorded>,
    order: BTreeSet<(u64, usize)>,
}

impl Model for Agenda {
    ghost use Rattle.sip_states.specs.Agenda.{Records};
    ghost use Rattle.sip_states.specs.inner.Lines.{IsInOrder};

    // An agenda means the record of each index, and its order has the line of each last moment on record.
    ghost Value = { Records };

    ghost view = { λ a. a.records.items };

    ghost invariant = { λ a. IsInOrder a.records.items a.order };
}

/// Whether a last moment is on record that is below the moment.
fn is_overdue(kept: Option<Option<u64>>, moment: u64) -> bool
    ensures { result ≡ is_overdue moment kept }
{
    match kept {
        Some(Some(last)) => last < moment,
        _ => false,
    }
}

/// Puts the last moment of the index into the order, if it has one.
fn enter(
    order: &mut BTreeSet<(u64, usize)>,
    index: usize,
    limit: Option<u64>,
) -> Result<(), AllocError>
    ensures ok { OnOk result (Enters index limit order.old order.new) }
    ensures err { OnErr result (IsUnchanged order.old order.new) }
{
    if let Some(last) = limit {
        order.insert((last, index))?;
    }
    Ok(())
}

/// Takes the last moment of the index out of the order.
fn leave(order: &mut BTreeSet<(u64, usize)>, index: usize, limit: Option<u64>)
    ensures { Leaves index limit order.old order.new }
{
    if let Some(last) = limit {
        order.remove(&(last, index));
    }
}

impl Agenda {
    /// An agenda of no index.
    pub(crate) fn new(alloc: Global) -> Self
        ensures { result ≡ [] }
    {
        Agenda {
            records: Vec::new(alloc),
            order: BTreeSet::new(alloc),
        }
    }

    /// Adds an index, which is not settled yet.
    pub(crate) fn push(&mut self) -> Result<(), AllocError>
        ensures ok { OnOk result (self.new ≡ self.old ++ None ∷ []) }
        ensures err { OnErr result (self.new ≡ self.old) }
    {
        self.records.push(Recorded::unsettled())?;
        Ok(())
    }

    /// Takes the last index away, which must not be settled.
    pub(crate) fn pop(&mut self)
        requires { (rest : Records) × (self.old ≡ rest ++ None ∷ []) }
        ensures { self.old ≡ self.new ++ None ∷ [] }
    {
        self.records.pop();
    }

    /// Adds an index with what is on record of it. On an error some of it may stay.
    #[tactic(auto, using(crate::proofs::lists::Kept::slice_set_last))]
    fn push_record(&mut self, recorded: Option<Option<u64>>) -> Result<(), AllocError>
        ensures { OnOk result (self.new ≡ self.old ++ recorded ∷ []) }
    {
        let index = self.records.len();
        self.push()?;
        if let Some(limit) = recorded {
            self.set(index, limit)?;
        }
        Ok(())
    }

    /// Copies what is on record of the indices whose flag is true, in their order.
    pub(crate) fn kept(&self, alloc: Global, flags: &[bool]) -> Result<Agenda, AllocError>
        requires { length flags.now ≡ length self.now }
        ensures { IfOk result (λ agenda. agenda ≡ kept_of flags.now self.now) }
    {
        let mut agenda = Agenda::new(alloc);
        for at in 0..flags.len() {
            if flags[at] {
                agenda.push_record(self.records[at].limit())?;
            }
        }
        Ok(agenda)
    }

    /// The number of indices.
    pub(crate) fn len(&self) -> usize
        ensures { result ≡ length self.now }
    {
        self.records.len()
    }

    /// Puts the last moment of the index on record, in place of an older one.
    pub(crate) fn set(&mut self, index: usize, limit: Option<u64>) -> Result<(), AllocError>
        requires { index < length self.old }
        ensures ok { OnOk result (self.new ≡ slice_set self.old index (Some limit)) }
        ensures err { OnErr result (self.new ≡ self.old) }
    {
        let older = self.records[index].limit();
        if older == Some(limit) {
            return Ok(());
        }
        // What can be refused is done first: so an error leaves all as it was.
        let record = Recorded::settled(limit)?;
        enter(&mut self.order, index, limit)?;
        leave(&mut self.order, index, older.flatten());
        self.records[index] = record;
        Ok(())
    }

    /// The first index whose last moment on record is below the moment.
    pub(crate) fn due(&self, moment: u64) -> Option<usize>
        ensures value { result ≡ position (is_overdue moment) self.now }
        ensures within { IfSome result (λ index. index < length self.now) }
    {
        let (last, _) = *self.order.first()?;
        if last >= moment {
            return None;
        }
        self.records
            .iter()
            .position(|record| is_overdue(record.limit(), moment))
    }

    /// An index with the earliest last moment, if that is below the moment. It looks no further than that one.
    pub(crate) fn overdue(&self, moment: u64) -> Option<usize>
        ensures some { IfSome result (λ index. (index < length self.now) × (is_overdue moment (slice_index_or self.now index None) ≡ true)) }
        ensures none { IfNone result (position (is_overdue moment) self.now ≡ None) }
    {
        let (last, index) = *self.order.first()?;
        if last >= moment {
            return None;
        }
        Some(index)
    }

    /// The earliest last moment on record, and None where none is.
    pub(crate) fn earliest(&self) -> Option<u64>
        ensures { (moment : ℕ) → (position (is_overdue moment) self.now ≡ None) ↔ IfSome result (λ last. moment ≤ last) }
    {
        let (last, _) = *self.order.first()?;
        Some(last)
    }
}
