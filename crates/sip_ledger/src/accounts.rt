//! What many rows owe: one list of what they gained, and for each row an account of what it owes of that list.
ghost use Rattle.std.specs.Prelude.{◌≡◌, ◌↔◌, ◌<◌, ◌≤◌, ◌++◌, ◌∷◌, [], List, IsTrue, OnOk, OnErr, IfOk, All, length, set, map, filter, take, drop, slice_get};
ghost use Rattle.std.specs.List.{list_any};
ghost use Rattle.sip_ledger.specs.Accounts.{owed_in, AppendsOwed};
ghost use Rattle.sip_ledger.specs.Debts.{IsFirstPaid, PaysSome, counts_at, softened_debt, is_payable, debt_deadlines, earliest, paid_by};
ghost use Rattle.sip_numbers.specs.Numbers.{numbers_of};
ghost use Rattle.sip_ledger.specs.Lists.{Rise};
ghost use Rattle.sip_ledger.specs.Runs.{AreRuns};

mod account;
mod each;
mod gains;
mod left;
mod moved;
mod named;
mod places;
mod queue;
mod strikes;

use crate::accounts::account::{
    Account, EMPTY, debt_for, debts, earliest_must, expired, find, find_some, gained,
    paid_and_expired, place_for, same,
};
use crate::accounts::gains::{Gains, Seek, drop_first};
use crate::accounts::left::{drop_front, let_go};
use crate::accounts::moved::{held, move_all};
use crate::accounts::named::name_all;
use crate::accounts::strikes::Strike;
use crate::debt::Debt;
use crate::run::{Run, runs_of};
use sip_numbers::Numbers;
use std::alloc::{AllocError, Global};
use std::marker::Model;

/// What each of many rows owes, oldest first. Contracts see the rows' debts.
#[derive(Debug, Drop)]
pub struct Accounts {
    gains: Gains,
    strikes: Vec<Strike>,
    rows: Vec<Account>,
    /// The message that was paid last since the last call of `tidy`, if there is one: its first gains may be owed by no row any more.
    paid: Option<u64>,
}

impl Model for Accounts {
    ghost use Rattle.sip_ledger.specs.inner.Words.{List, Debt, AreAccounts, accounts_debts};

    // What accounts mean is the debts of each row. Gains, strikes and rows fit together at all times (`AreAccounts`).
    ghost Value = { List (List Debt) };

    ghost view = { λ a. accounts_debts a.gains a.strikes.items a.rows.items };

    ghost invariant = { λ a. AreAccounts a.gains a.strikes.items a.rows.items };
}

#[tactic(auto, using(crate::proofs::rows::SeenLemmas::of_rows))]
impl Accounts {
    /// There are no rows.
    pub fn new(alloc: Global) -> Self
        ensures { result ≡ [] }
    {
        Accounts {
            gains: Gains::new(alloc),
            strikes: Vec::new(alloc),
            rows: Vec::new(alloc),
            paid: None,
        }
    }

    /// How many rows there are.
    pub fn len(&self) -> usize
        ensures { result ≡ length self.now }
    {
        self.rows.len()
    }

    /// Puts a row that owes nothing after the others. On an error all is as before.
    #[tactic(auto, using(crate::proofs::rows::SeenLemmas::of_changed_row))]
    pub fn push(&mut self) -> Result<(), AllocError>
        ensures ok { OnOk result (self.new ≡ self.old ++ [] ∷ []) }
        ensures err { OnErr result (self.new ≡ self.old) }
    {
        self.rows.push(EMPTY)?;
        Ok(())
    }

    /// Puts a row that owes what this one does after the others. On an error all is as before.
    #[tactic(auto, using(crate::proofs::rows::SeenLemmas::of_changed_row))]
    pub fn push_copy(&mut self, row: usize) -> Result<(), AllocError>
        requires { row < length self.old }
        ensures ok { OnOk result (self.new ≡ self.old ++ owed_in self.old row ∷ []) }
        ensures err { OnErr result (self.new ≡ self.old) }
    {
        self.rows.push(self.rows[row])?;
        Ok(())
    }

    /// Keeps the first rows.
    pub fn truncate(&mut self, rows: usize)
        ensures { self.new ≡ take rows self.old }
    {
        self.rows.truncate(rows);
    }

    /// Drops the first rows.
    pub fn drop_first(&mut self, rows: usize)
        ensures { self.new ≡ drop rows self.old }
    {
        let count = rows.min(self.rows.len());
        drop_first(&mut self.rows, count);
    }

    /// Keeps the rows of these numbers, which rise.
    pub fn keep(&mut self, rows: &[usize])
        requires rising { Rise rows.now }
        requires within { All (λ row. row < length self.old) rows.now }
        ensures { self.new ≡ map (owed_in self.old) rows.now }
    {
        for to in 0..rows.len() {
            self.copy(rows[to], to);
        }
        self.truncate(rows.len());
    }

    /// Lets the row owe what another one does, and nothing else.
    #[tactic(auto, using(crate::proofs::rows::SeenLemmas::of_changed_row))]
    pub fn copy(&mut self, from: usize, to: usize)
        requires from { from < length self.old }
        requires to { to < length self.old }
        ensures { self.new ≡ set self.old to (owed_in self.old from) }
    {
        self.rows[to] = self.rows[from];
    }

    /// Whether the row has a debt that a send of the message at the moment pays.
    pub fn can_pay(&self, row: usize, message: u64, moment: u64) -> bool
        requires { row < length self.now }
        ensures { result ≡ list_any (is_payable message moment) (owed_in self.now row) }
    {
        let account = self.rows[row];
        let (gains, strikes) = (&self.gains, &self.strikes);
        let mut seek = Seek::new(gains, message, account.start);
        find(gains, strikes, account, &mut seek, message, moment).is_some()
    }

    /// The message of the row's first debt that a send of one of these messages pays at the moment, if there is one. Where it is asked again, less is looked
    /// at. What rows owe stays, also on an error.
    pub fn first_payable(
        &mut self,
        row: usize,
        messages: &Numbers,
        moment: u64,
    ) -> Result<Option<u64>, AllocError>
        requires { row < length self.old }
        ensures same { self.new ≡ self.old }
        ensures first { IfOk result (IsFirstPaid (PaysSome (numbers_of messages.now) moment) moment (owed_in self.old row)) }
    {
        let account = self.rows[row];
        let (gains, strikes) = (&mut self.gains, &self.strikes);
        let found = find_some(gains, strikes, account, messages, moment)?;
        match found {
            Some(place) => Ok(Some(self.gains.entry(place).message)),
            None => Ok(None),
        }
    }

    /// Drops what the row may send and whose deadline is below the moment. On an error all is as before.
    #[tactic(auto, using(crate::proofs::rows::SeenLemmas::of_other_row))]
    pub fn expire(&mut self, row: usize, moment: u64) -> Result<(), AllocError>
        requires { row < length self.old }
        ensures ok { OnOk result (self.new ≡ set self.old row (filter (counts_at moment) (owed_in self.old row))) }
        ensures err { OnErr result (self.new ≡ self.old) }
    {
        self.rows[row] = expired(&self.gains, &mut self.strikes, self.rows[row], moment)?;
        Ok(())
    }

    /// Lets the row owe one more debt, after its others, and drops what it may send and whose deadline is below the moment. On an error all is as before.
    #[tactic(auto, using(crate::proofs::rows::SeenLemmas::of_other_row))]
    pub fn gain_and_expire(&mut self, row: usize, debt: Debt, moment: u64) -> Result<(), AllocError>
        requires { row < length self.old }
        ensures ok { OnOk result (self.new ≡ set self.old row (filter (counts_at moment) (owed_in self.old row ++ debt ∷ []))) }
        ensures err { OnErr result (self.new ≡ self.old) }
    {
        let account = self.rows[row];
        let place = place_for(&mut self.gains, &self.strikes, account, debt, None)?;
        let grown = gained(&self.gains, &mut self.strikes, account, debt, place)?;
        self.rows[row] = expired(&self.gains, &mut self.strikes, grown, moment)?;
        Ok(())
    }

    /// Takes out of the row the first debt that a send of the message at the moment pays, if there is one, and drops what it may send and
    /// whose deadline is below the moment. On an error all is as before.
    #[tactic(auto, using(crate::proofs::rows::SeenLemmas::of_other_row))]
    pub fn pay_and_expire(
        &mut self,
        row: usize,
        message: u64,
        moment: u64,
    ) -> Result<(), AllocError>
        requires { row < length self.old }
        ensures ok { OnOk result (self.new ≡ set self.old row (filter (counts_at moment) (paid_by message moment (owed_in self.old row)))) }
        ensures err { OnErr result (self.new ≡ self.old) }
    {
        let gains = &self.gains;
        let strikes = &mut self.strikes;
        self.rows[row] = paid_and_expired(gains, strikes, self.rows[row], message, moment)?;
        self.paid = Some(message);
        Ok(())
    }

    /// Makes all that the row owes something that it may send, and need not.
    pub fn soften(&mut self, row: usize)
        requires { row < length self.old }
        ensures { self.new ≡ set self.old row (map softened_debt (owed_in self.old row)) }
    {
        let soft = self.gains.end;
        self.rows[row] = Account {
            soft,
            ..self.rows[row]
        };
    }

    /// Lets the row owe nothing.
    #[tactic(auto, using(crate::proofs::rows::SeenLemmas::of_changed_row))]
    pub fn clear(&mut self, row: usize)
        requires { row < length self.old }
        ensures { self.new ≡ set self.old row [] }
    {
        self.rows[row] = EMPTY;
    }

    /// The least deadline of what the row must send.
    #[tactic(auto, using(crate::proofs::rows::SeenLemmas::first_of_rows))]
    pub fn earliest_must(&self, row: usize) -> Option<u64>
        requires { row < length self.now }
        ensures { result ≡ earliest (debt_deadlines (owed_in self.now row)) }
    {
        earliest_must(&self.gains, &self.strikes, self.rows[row])
    }

    /// Whether the row owes nothing.
    pub fn owes_nothing(&self, row: usize) -> bool
        requires { row < length self.now }
        ensures { IsTrue result ↔ (owed_in self.now row ≡ []) }
    {
        let account = self.rows[row];
        account.start == account.end
    }

    /// Whether two rows owe the same.
    #[tactic(auto, using(crate::proofs::rows::SeenLemmas::first_of_rows))]
    pub fn same(&self, row: usize, other: usize) -> bool
        requires row { row < length self.now }
        requires other { other < length self.now }
        ensures { IsTrue result ↔ (owed_in self.now row ≡ owed_in self.now other) }
    {
        same(&self.gains, &self.strikes, self.rows[row], self.rows[other])
    }

    /// Puts the number of each message that the row owes after the others, once for each debt.
    pub fn names(&self, alloc: Global, row: usize, numbers: &mut Vec<u64>) -> Result<(), AllocError>
        requires { row < length self.now }
        ensures { OnOk result (numbers.new.items ≡ numbers.old.items ++ map (λ debt. debt.message) (owed_in self.now row)) }
    {
        let debts = self.debts(alloc, row)?;
        for debt in &debts {
            numbers.push(debt.message)?;
        }
        Ok(())
    }

    /// Puts the number of each message that the row owes after the others, from the least on, each once. On an error some of them are there.
    pub fn names_once(&self, row: usize, numbers: &mut Vec<u64>) -> Result<(), AllocError>
        requires { row < length self.now }
        ensures ok { OnOk result (AppendsOwed (owed_in self.now row ∷ []) numbers.old.items numbers.new.items) }
        ensures err { OnErr result (take (length numbers.old.items) numbers.new.items ≡ numbers.old.items) }
    {
        name_all(&self.gains, &self.strikes, &[self.rows[row]], numbers)
    }

    /// Puts the numbers of the messages that rows owe after the others, from the least on, each once. On an error the vector is as before.
    pub fn all_names(&self, numbers: &mut Vec<u64>) -> Result<(), AllocError>
        ensures ok { OnOk result (AppendsOwed self.now numbers.old.items numbers.new.items) }
        ensures err { OnErr result (numbers.new.items ≡ numbers.old.items) }
    {
        let before = numbers.len();
        if name_all(&self.gains, &self.strikes, &self.rows, numbers).is_err() {
            numbers.truncate(before);
            return Err(AllocError);
        }
        Ok(())
    }

    /// Two numbers. The numbers of all messages that rows owe lie between them.
    pub fn span(&self) -> (u64, u64)
        ensures { All (All (λ debt. (result.0 ≤ debt.message) × (debt.message ≤ result.1))) self.now }
    {
        self.gains.messages.span()
    }

    /// What the row owes, with equal neighbours in one.
    pub fn runs(&self, alloc: Global, row: usize) -> Result<Vec<Run>, AllocError>
        requires { row < length self.now }
        ensures { IfOk result (λ runs. AreRuns (owed_in self.now row) runs.items) }
    {
        let debts = self.debts(alloc, row)?;
        runs_of(alloc, &debts)
    }

    /// What the row owes.
    #[tactic(auto, using(crate::proofs::rows::SeenLemmas::first_of_rows))]
    fn debts(&self, alloc: Global, row: usize) -> Result<Vec<Debt>, AllocError>
        requires { row < length self.now }
        ensures { IfOk result (λ debts. debts.items ≡ owed_in self.now row) }
    {
        debts(alloc, &self.gains, &self.strikes, self.rows[row])
    }

    /// What the row owes first, if it owes something.
    #[tactic(auto, using(crate::proofs::rows::SeenLemmas::first_of_rows))]
    pub fn first_debt(&self, row: usize) -> Option<Debt>
        requires { row < length self.now }
        ensures { result ≡ slice_get (owed_in self.now row) 0 }
    {
        let account = self.rows[row];
        if account.start == account.end {
            return None;
        }
        Some(debt_for(&self.gains, account, account.start))
    }

    /// Gives back what no row needs. It is to be called after each step: where many rows pay, what they paid is then looked at once.
    pub fn tidy(&mut self)
        ensures { self.new ≡ self.old }
    {
        if let Some(message) = self.paid {
            let_go(&mut self.gains, &self.strikes, &self.rows, message);
            self.paid = None;
        }
        drop_front(&mut self.gains, &self.strikes, &self.rows);
        self.thin();
        if self.rows.len() < self.rows.capacity() / 8 {
            self.rows.shrink_to_fit();
        }
    }

    /// Lets strikes go that no row has, or that strike nothing that is left, where there are four times as many as rows have. Where there
    /// is no memory for it all stays as it is.
    fn thin(&mut self)
        ensures { self.new ≡ self.old }
    {
        if self.strikes.len() / 4 <= held(&self.rows) {
            return;
        }
        let alloc = *self.strikes.allocator();
        if let Ok((strikes, rows)) = move_all(alloc, &self.gains, &self.strikes, &self.rows) {
            self.strikes = strikes;
            self.rows = rows;
        }
    }
}
