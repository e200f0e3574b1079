//! Which transactions are in trouble.
//! In the clauses `more` is what was added to a list.
ghost use Rattle.std.specs.Prelude.{◌≡◌, ◌↔◌, ◌<◌, ◌≤◌, ◌-◌, ◌++◌, ◌∷◌, [], Bool, List, Some, true, false, All, IsTrue, OnOk, length, map, slice_get, slice_set};
ghost use Rattle.sip_states.specs.Kept.{kept_of};
ghost use Rattle.sip_verdict.specs.declared.finding.Finding.{Finding};
ghost use Rattle.sip_verdict.specs.declared.finding.Finding.TheVariants.{Breach, Undecided};
ghost use Rattle.sip_verdict.specs.inner.Surveying.{AddsBroken, AddsWide, AppendsTroubled, IsFresh};

use crate::finding::Finding;
use sip_states::{keep_ascending, keep_each};
use std::alloc::{AllocError, Global};

/// The transactions in trouble, and which of them came into it at the entry in hand.
#[derive(Drop)]
pub(crate) struct Troubled {
    /// Whether each transaction is in trouble, by its number from 1. A transaction in trouble hears nothing more.
    deaf: Vec<bool>,
    /// The numbers of the transactions that broke at the entry in hand.
    broken: Vec<u64>,
    /// The numbers of the transactions that are followed no further from the entry in hand on.
    wide: Vec<u64>,
}

impl Troubled {
    /// The record before the first transaction. It takes no memory.
    pub(crate) fn new(alloc: Global) -> Troubled
        ensures deaf { result.deaf.items ≡ [] }
        ensures fresh { IsFresh result }
    {
        Troubled {
            deaf: Vec::new(alloc),
            broken: Vec::new(alloc),
            wide: Vec::new(alloc),
        }
    }

    /// Makes room for this many transactions. The new ones are in no trouble.
    pub(crate) fn grow(&mut self, count: u64) -> Result<(), AllocError>
        requires { length self.old.deaf.items ≤ count }
        ensures long { OnOk result (length self.new.deaf.items ≡ count) }
        ensures deaf { OnOk result ((more : List Bool) × (self.new.deaf.items ≡ self.old.deaf.items ++ more) × All (λ is_deaf. is_deaf ≡ false) more) }
        ensures broken { OnOk result (self.new.broken.items ≡ self.old.broken.items) }
        ensures wide { OnOk result (self.new.wide.items ≡ self.old.wide.items) }
    {
        for _ in self.deaf.len()..count as usize {
            self.deaf.push(false)?;
        }
        Ok(())
    }

    /// Keeps those transactions alone whose flag is true, and numbers them anew.
    pub(crate) fn keep(&mut self, flags: &[bool])
        requires { length flags.now ≡ length self.old.deaf.items }
        ensures deaf { self.new.deaf.items ≡ kept_of flags.now self.old.deaf.items }
        ensures broken { self.new.broken.items ≡ self.old.broken.items }
        ensures wide { self.new.wide.items ≡ self.old.wide.items }
    {
        keep_each(&mut self.deaf, flags);
    }

    /// Whether the transaction with this number is in trouble.
    pub(crate) fn has(&self, number: u64) -> bool
        requires low { 0 < number }
        requires high { number ≤ length self.now.deaf.items }
        ensures { slice_get self.now.deaf.items (number - 1) ≡ Some result }
    {
        self.deaf[number as usize - 1]
    }

    /// Adds that the transaction with this number breaks at the entry in hand.
    pub(crate) fn add_broken(&mut self, number: u64) -> Result<(), AllocError>
        requires low { 0 < number }
        requires high { number ≤ length self.old.deaf.items }
        ensures { OnOk result (AddsBroken number self.old self.new) }
    {
        self.broken.push(number)?;
        self.deaf[number as usize - 1] = true;
        Ok(())
    }

    /// Adds that the transaction with this number is followed no further from the entry in hand on.
    pub(crate) fn add_wide(&mut self, number: u64) -> Result<(), AllocError>
        requires low { 0 < number }
        requires high { number ≤ length self.old.deaf.items }
        ensures { OnOk result (AddsWide number self.old self.new) }
    {
        self.wide.push(number)?;
        self.deaf[number as usize - 1] = true;
        Ok(())
    }

    /// Whether nothing came into trouble yet at the entry in hand.
    fn is_fresh(&self) -> bool
        ensures { IsTrue result ↔ IsFresh self.now }
    {
        self.broken.is_empty() && self.wide.is_empty()
    }

    /// Appends what came into trouble at the entry to the findings: the transactions that break by number, and then those that are followed no
    /// further by number. After it nothing has come into trouble at the next entry.
    pub(crate) fn tell(&mut self, entry: u64, found: &mut Vec<Finding>) -> Result<(), AllocError>
        ensures told { OnOk result (AppendsTroubled entry self.old found.old.items found.new.items) }
        ensures deaf { self.new.deaf.items ≡ self.old.deaf.items }
        ensures fresh { OnOk result (IsFresh self.new) }
        ensures front { (more : List Finding) × (found.new.items ≡ found.old.items ++ more) }
    {
        if self.is_fresh() {
            return Ok(());
        }
        keep_ascending(&mut self.broken);
        keep_ascending(&mut self.wide);
        push_breaches(entry, self.broken.as_slice(), found)?;
        push_undecided(entry, self.wide.as_slice(), found)?;
        self.broken.clear();
        self.wide.clear();
        Ok(())
    }
}

/// Appends a finding for each of these transactions: it breaks at the entry.
fn push_breaches(entry: u64, numbers: &[u64], found: &mut Vec<Finding>) -> Result<(), AllocError>
    ensures pushed { OnOk result (found.new.items ≡ found.old.items ++ map (λ transaction. Breach entry transaction) numbers.now) }
    ensures front { (more : List Finding) × (found.new.items ≡ found.old.items ++ more) }
{
    for number in numbers {
        let transaction = *number;
        found.push(Finding::Breach { entry, transaction })?;
    }
    Ok(())
}

/// Appends a finding for each of these transactions: it is followed no further from the entry on.
fn push_undecided(entry: u64, numbers: &[u64], found: &mut Vec<Finding>) -> Result<(), AllocError>
    ensures pushed { OnOk result (found.new.items ≡ found.old.items ++ map (λ transaction. Undecided entry transaction) numbers.now) }
    ensures front { (more : List Finding) × (found.new.items ≡ found.old.items ++ more) }
{
    for number in numbers {
        let transaction = *number;
        found.push(Finding::Undecided { entry, transaction })?;
    }
    Ok(())
}
