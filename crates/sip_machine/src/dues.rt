//! What each of many states owes: accounts of all of them, if any owes something.
ghost use Rattle.std.specs.Prelude.{◌≡◌, ◌↔◌, ◌<◌, ◌≤◌, ◌++◌, ◌∷◌, [], List, IsTrue, IfNone, IfOk, IfSome, OnOk, OnErr, All, flat_map, length, set, map, filter, take, drop};
ghost use Rattle.sip_ledger.specs.Accounts.{paid_rows};
ghost use Rattle.sip_ledger.specs.Debts.{IsFirstPaid, PaysSome, counts_at, is_timely, debt_deadlines, earliest};
ghost use Rattle.sip_ledger.specs.Lists.{Rise, from_to};
ghost use Rattle.sip_ledger.specs.Runs.{AreRuns};
ghost use Rattle.sip_numbers.specs.Numbers.{numbers_of};
ghost use Rattle.sip_machine.specs.Naming.{AppendsAll};
ghost use Rattle.sip_machine.specs.Owes.{owed_in, owes_names};
ghost use Rattle.sip_machine.specs.inner.Prints.{ArePrints};
ghost use Rattle.sip_machine.specs.inner.Dues.{blank_rows};

/// What `$with` gives of the accounts of the rows, and `$blank` of how many there are where none owes anything.
macro_rules! rows {
    ($rows:expr, $accounts:ident => $with:expr, $count:pat => $blank:expr) => {
        match $rows {
            Rows::WithAccounts($accounts) => $with,
            Rows::Blank($count) => $blank,
        }
    };
}

use sip_ledger::{Accounts, Debt, Run};
use sip_numbers::Numbers;
use std::alloc::{AllocError, Global};
use std::marker::Model;

/// What a change of rows comes to: nothing, or that memory was refused.
pub(crate) type Done = Result<(), AllocError>;

/// Rows of what states owe.
#[derive(Debug, Drop)]
pub(crate) enum Rows {
    /// This many rows, none of which owes anything.
    Blank(usize),
    /// The accounts of the rows.
    WithAccounts(Box<Accounts>),
}

/// What each of many states owes, oldest cause first, in a row of its own. Where none owes anything, nothing is allocated. Contracts see the rows.
#[derive(Debug, Drop)]
pub struct Dues {
    pub(crate) rows: Rows,
}

impl Model for Dues {
    ghost use Rattle.std.specs.Prelude.{List};
    ghost use Rattle.sip_ledger.specs.declared.debt.Debt.{Debt};
    ghost use Rattle.sip_machine.specs.inner.Dues.{rows_of};

    // Dues mean what each row owes, with accounts or without.
    ghost Value = { List (List Debt) };

    // Each row owes what its account has, or nothing.
    ghost view = { λ d. rows_of d.rows };
}

#[tactic(auto, using(crate::proofs::debts::DuesEachLemmas::of_blank))]
impl Dues {
    /// No rows.
    pub(crate) fn none() -> Dues
        ensures { result ≡ [] }
    {
        Dues {
            rows: Rows::Blank(0),
        }
    }

    /// The accounts of the rows, if there are some: where there are none, no row owes anything.
    pub(crate) fn accounts(&self) -> Option<&Accounts>
        ensures some { IfSome result (λ accounts. accounts.now ≡ self.now) }
        ensures none { IfNone result (self.now ≡ blank_rows (length self.now)) }
    {
        rows!(&self.rows, accounts => Some(&**accounts), _ => None)
    }

    /// The message of the row's first debt that a send of one of these messages pays at the moment, if there is one.
    pub(crate) fn first_payable(
        &mut self,
        row: usize,
        messages: &Numbers,
        moment: u64,
    ) -> Result<Option<u64>, AllocError>
        requires { row < length self.old }
        ensures same { self.new ≡ self.old }
        ensures first { IfOk result (IsFirstPaid (PaysSome (numbers_of messages.now) moment) moment (owed_in self.old row)) }
    {
        rows!(&mut self.rows, accounts => accounts.first_payable(row, messages, moment), _ => Ok(None))
    }

    /// How many rows there are.
    pub(crate) fn len(&self) -> usize
        ensures { result ≡ length self.now }
    {
        rows!(&self.rows, accounts => accounts.len(), count => *count)
    }

    /// Puts a row that owes nothing after the others. On an error all is as before.
    pub(crate) fn push(&mut self) -> Done
        ensures ok { OnOk result (self.new ≡ self.old ++ [] ∷ []) }
        ensures err { OnErr result (self.new ≡ self.old) }
    {
        rows!(&mut self.rows, accounts => accounts.push()?, count => *count = count.checked_add(1).ok_or(AllocError)?);
        Ok(())
    }

    /// Puts a row that owes what this one does after the others. On an error all is as before.
    pub(crate) fn push_copy(&mut self, row: usize) -> Done
        requires { row < length self.old }
        ensures ok { OnOk result (self.new ≡ self.old ++ owed_in self.old row ∷ []) }
        ensures err { OnErr result (self.new ≡ self.old) }
    {
        rows!(&mut self.rows, accounts => accounts.push_copy(row)?, count => *count = count.checked_add(1).ok_or(AllocError)?);
        Ok(())
    }

    /// Keeps the first `rows` rows, and drops those after them.
    pub(crate) fn truncate(&mut self, rows: usize)
        ensures { self.new ≡ take rows self.old }
    {
        rows!(&mut self.rows, accounts => accounts.truncate(rows), count => *count = (*count).min(rows))
    }

    /// Drops the first `rows` rows.
    pub(crate) fn drop_first(&mut self, rows: usize)
        requires { rows ≤ length self.old }
        ensures { self.new ≡ drop rows self.old }
    {
        rows!(&mut self.rows, accounts => accounts.drop_first(rows), count => *count -= rows)
    }

    /// Lets the row `to` owe what the row `from` does, and nothing else.
    pub(crate) fn copy(&mut self, from: usize, to: usize)
        requires from { from < length self.old }
        requires to { to < length self.old }
        ensures { self.new ≡ set self.old to (owed_in self.old from) }
    {
        rows!(&mut self.rows, accounts => accounts.copy(from, to), _ => ())
    }

    /// Keeps the rows at the indices, which rise, and drops the others.
    pub(crate) fn keep(&mut self, rows: &[usize])
        requires within { All (λ row. row < length self.old) rows.now }
        requires rising { Rise rows.now }
        ensures { self.new ≡ map (owed_in self.old) rows.now }
    {
        rows!(&mut self.rows, accounts => accounts.keep(rows), count => *count = rows.len())
    }

    /// Puts a copy of each row from `from` up to `to` after the others, except for rows that must send something that is past at
    /// the moment. On an error all is as before.
    pub(crate) fn push_timely(&mut self, from: usize, to: usize, moment: u64) -> Done
        requires { to ≤ length self.old }
        ensures ok { OnOk result (self.new ≡ self.old ++ filter (is_timely moment) (from_to from to self.old)) }
        ensures err { OnErr result (self.new ≡ self.old) }
    {
        rows!(&mut self.rows, accounts => accounts.push_timely(from, to, moment)?, count => {
            *count = count.checked_add(to.saturating_sub(from)).ok_or(AllocError)?
        });
        Ok(())
    }

    /// Puts rows after the others: of each row from `from` up to `to` that is timely and has a debt that a send of the message at the moment
    /// pays, one that owes the rest, without what is past. On an error all is as before.
    pub(crate) fn push_paid(&mut self, from: usize, to: usize, message: u64, moment: u64) -> Done
        requires { to ≤ length self.old }
        ensures ok { OnOk result (self.new ≡ self.old ++ paid_rows message moment (from_to from to self.old)) }
        ensures err { OnErr result (self.new ≡ self.old) }
    {
        rows!(&mut self.rows, accounts => accounts.push_paid(from, to, message, moment), _ => Ok(()))
    }

    /// Lets the row owe one more debt, after its others, and drops those of its debts that may be sent and whose deadline is below the
    /// moment. On an error all is as before.
    pub(crate) fn gain_and_expire(
        &mut self,
        alloc: Global,
        row: usize,
        debt: Debt,
        moment: u64,
    ) -> Done
        requires { row < length self.old }
        ensures ok { OnOk result (self.new ≡ set self.old row (filter (counts_at moment) (owed_in self.old row ++ debt ∷ []))) }
        ensures err { OnErr result (self.new ≡ self.old) }
    {
        rows!(&mut self.rows, accounts => accounts.gain_and_expire(row, debt, moment)?, count => {
            let mut accounts = blank(alloc, *count)?;
            accounts.gain_and_expire(row, debt, moment)?;
            self.rows = Rows::WithAccounts(Box::new(alloc, accounts)?);
        });
        Ok(())
    }

    /// Lets each row from `from` on owe one more debt, after its others. On an error the rows before them are as they were.
    pub(crate) fn gain_each(&mut self, alloc: Global, from: usize, debt: Debt) -> Done
        ensures ok { OnOk result (self.new ≡ take from self.old ++ map (λ owes. owes ++ debt ∷ []) (drop from self.old)) }
        ensures err { OnErr result (take from self.new ≡ take from self.old) }
    {
        rows!(&mut self.rows, accounts => accounts.gain_each(from, debt)?, count => {
            let mut accounts = blank(alloc, *count)?;
            accounts.gain_each(from, debt)?;
            self.rows = Rows::WithAccounts(Box::new(alloc, accounts)?);
        });
        Ok(())
    }

    /// Drops those debts of each row from `from` on that may be sent, and whose deadline is below the moment. On an error the rows before
    /// them are as they were.
    pub(crate) fn expire_each(&mut self, from: usize, moment: u64) -> Done
        ensures ok { OnOk result (self.new ≡ take from self.old ++ map (filter (counts_at moment)) (drop from self.old)) }
        ensures err { OnErr result (take from self.new ≡ take from self.old) }
    {
        rows!(&mut self.rows, accounts => accounts.expire_each(from, moment), _ => Ok(()))
    }

    /// Drops those debts of the row that may be sent, and whose deadline is below the moment. On an error all is as before.
    #[inline(always)]
    pub(crate) fn expire(&mut self, row: usize, moment: u64) -> Done
        requires { row < length self.old }
        ensures ok { OnOk result (self.new ≡ set self.old row (filter (counts_at moment) (owed_in self.old row))) }
        ensures err { OnErr result (self.new ≡ self.old) }
    {
        rows!(&mut self.rows, accounts => accounts.expire(row, moment), _ => Ok(()))
    }

    /// The least deadline of what the row must send, and None if it must send nothing.
    #[inline(always)]
    pub(crate) fn earliest_must(&self, row: usize) -> Option<u64>
        requires { row < length self.now }
        ensures { result ≡ earliest (debt_deadlines (owed_in self.now row)) }
    {
        rows!(&self.rows, accounts => accounts.earliest_must(row), _ => None)
    }

    /// Whether the row owes nothing.
    pub(crate) fn owes_nothing(&self, row: usize) -> bool
        requires { row < length self.now }
        ensures { IsTrue result ↔ (owed_in self.now row ≡ []) }
    {
        rows!(&self.rows, accounts => accounts.owes_nothing(row), _ => true)
    }

    /// Whether two rows owe the same.
    #[inline(always)]
    pub(crate) fn same(&self, row: usize, other: usize) -> bool
        requires row { row < length self.now }
        requires other { other < length self.now }
        ensures { IsTrue result ↔ (owed_in self.now row ≡ owed_in self.now other) }
    {
        rows!(&self.rows, accounts => accounts.same(row, other), _ => true)
    }

    /// A number for what each row from `from` on owes, in which the order of its first debts counts too, of so many at most. Rows that owe the same have the
    /// same number, and others hardly ever, but where they owe the same in another order after these.
    pub(crate) fn prints(
        &self,
        alloc: Global,
        from: usize,
        most: usize,
    ) -> Result<Vec<u64>, AllocError>
        requires { from ≤ length self.now }
        ensures { IfOk result (λ prints. ArePrints self.now from prints.items) }
    {
        rows!(&self.rows, accounts => Ok(accounts.prints(alloc, from, most)?), count => {
            // Rows that owe nothing have the same print.
            let mut prints = Vec::new(alloc);
            prints.resize(*count - from, 0)?;
            Ok(prints)
        })
    }

    /// Puts the number of the message of each debt of the row after those in the vector. On an error the vector is as before.
    pub(crate) fn names(&self, alloc: Global, row: usize, numbers: &mut Vec<u64>) -> Done
        requires { row < length self.now }
        ensures ok { OnOk result (numbers.new.items ≡ numbers.old.items ++ owes_names (owed_in self.now row)) }
        ensures err { OnErr result (numbers.new.items ≡ numbers.old.items) }
    {
        let Rows::WithAccounts(accounts) = &self.rows else {
            return Ok(());
        };
        // The numbers are put into a vector of their own first, so that on an error the other one is as before.
        let mut owed = Vec::new(alloc);
        accounts.names(alloc, row, &mut owed)?;
        numbers.append(&mut owed)
    }

    /// Appends the numbers of the messages that rows owe, each once. On an error the vector is as before.
    pub(crate) fn names_all(&self, numbers: &mut Vec<u64>) -> Done
        ensures ok { OnOk result (AppendsAll (flat_map owes_names self.now) numbers.old.items numbers.new.items) }
        ensures err { OnErr result (numbers.new.items ≡ numbers.old.items) }
    {
        rows!(&self.rows, accounts => accounts.all_names(numbers), _ => Ok(()))
    }

    /// What the row owes, in runs: equal debts side by side stand in one.
    pub(crate) fn runs(&self, alloc: Global, row: usize) -> Result<Vec<Run>, AllocError>
        requires { row < length self.now }
        ensures { IfOk result (λ runs. AreRuns (owed_in self.now row) runs.items) }
    {
        rows!(&self.rows, accounts => accounts.runs(alloc, row), _ => Ok(Vec::new(alloc)))
    }

    /// Gives memory back that no row needs.
    pub(crate) fn tidy(&mut self)
        ensures { self.new ≡ self.old }
    {
        let Rows::WithAccounts(accounts) = &mut self.rows else {
            return;
        };
        if is_blank(accounts) {
            self.rows = Rows::Blank(accounts.len());
        } else {
            accounts.tidy();
        }
    }
}

/// Accounts of `rows` rows that owe nothing.
fn blank(alloc: Global, rows: usize) -> Result<Accounts, AllocError>
    ensures { IfOk result (λ accounts. accounts ≡ blank_rows rows) }
{
    let mut accounts = Accounts::new(alloc);
    for row in 0..rows {
        accounts.push()?;
    }
    Ok(accounts)
}

/// Whether no row of the accounts owes anything.
#[tactic(auto, using(crate::proofs::debts::DueLemmas::all_blank))]
fn is_blank(accounts: &Accounts) -> bool
    ensures { IsTrue result → (accounts.now ≡ blank_rows (length accounts.now)) }
{
    for row in 0..accounts.len() {
        if !accounts.owes_nothing(row) {
            return false;
        }
    }
    true
}
