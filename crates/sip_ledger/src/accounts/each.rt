//! What is done to many rows at once.
ghost use Rattle.std.specs.Prelude.{◌≡◌, ◌<◌, ◌≤◌, ◌++◌, ◌∷◌, ◌+◌, ◌-◌};
ghost use Rattle.sip_ledger.specs.inner.Words.{[], ℕ, IfOk, IfSome, OnOk, OnErr, drop, filter, get_or, length, map, option_to_list, take, front_print, owed_in, paid_rows, counts_at, is_timely, from_to, AreAccounts, AreGains, IsAccount, IsSeek, account_debts, accounts_debts};

use crate::accounts::Accounts;
use crate::accounts::account::{
    Account, expired, find, front_print, gained, is_timely, place_for, without,
};
use crate::accounts::gains::{Gains, Seek};
use crate::accounts::strikes::Strike;
use crate::debt::Debt;
use std::alloc::{AllocError, Global};

#[tactic(auto, using(crate::proofs::rows::SeenLemmas::of_rows))]
impl Accounts {
    /// Whether nothing that the row must send is past at the moment.
    #[tactic(auto, using(crate::proofs::rows::SeenLemmas::first_of_rows))]
    pub fn is_timely(&self, row: usize, moment: u64) -> bool
        requires { row < length self.now }
        ensures { result ≡ is_timely moment (owed_in self.now row) }
    {
        is_timely(&self.gains, &self.strikes, self.rows[row], moment)
    }

    /// Puts copies of the rows from one up to another after the others. A row that must send something that is past at the moment gets
    /// no copy. On an error all is as before.
    pub fn push_timely(&mut self, from: usize, to: usize, moment: u64) -> Result<(), AllocError>
        requires { to ≤ length self.old }
        ensures ok { OnOk result (self.new ≡ self.old ++ filter (is_timely moment) (from_to from to self.old)) }
        ensures err { OnErr result (self.new ≡ self.old) }
    {
        let before = self.len();
        for row in from..to {
            if self.is_timely(row, moment) && self.push_copy(row).is_err() {
                self.truncate(before);
                return Err(AllocError);
            }
        }
        Ok(())
    }

    /// Lets each row from one on owe one more debt, after its others. On an error these rows are gone, and those before them are left.
    pub fn gain_each(&mut self, from: usize, debt: Debt) -> Result<(), AllocError>
        ensures ok { OnOk result (self.new ≡ take from self.old ++ map (λ owes. owes ++ debt ∷ []) (drop from self.old)) }
        ensures err { OnErr result (self.new ≡ take from self.old) }
    {
        let gains = &mut self.gains;
        if gain_some(gains, &mut self.strikes, &mut self.rows, from, debt).is_err() {
            self.truncate(from);
            return Err(AllocError);
        }
        Ok(())
    }

    /// Drops what each row from one on may send and whose deadline is below the moment. On an error these rows are gone, and those before them are left.
    pub fn expire_each(&mut self, from: usize, moment: u64) -> Result<(), AllocError>
        ensures ok { OnOk result (self.new ≡ take from self.old ++ map (filter (counts_at moment)) (drop from self.old)) }
        ensures err { OnErr result (self.new ≡ take from self.old) }
    {
        if self.gains.all_count(moment) {
            return Ok(());
        }
        for row in from..self.len() {
            if self.expire(row, moment).is_err() {
                self.truncate(from);
                return Err(AllocError);
            }
        }
        Ok(())
    }

    /// A number for what each row from one on owes, in their order. The order of its first debts counts too, of so many at most. Rows that owe the same have
    /// the same, and others hardly ever, but where they owe the same in another order after these.
    pub fn prints(&self, alloc: Global, from: usize, most: usize) -> Result<Vec<u64>, AllocError>
        ensures long { IfOk result (λ prints. length prints.items ≡ length self.now - from) }
        ensures each { IfOk result (λ prints. (k : ℕ) → from + k < length self.now → get_or prints.items k 0 ≡ front_print most (owed_in self.now (from + k))) }
    {
        let mut prints = Vec::with_capacity(alloc, self.len().saturating_sub(from))?;
        for row in from..self.len() {
            let account = self.rows[row];
            prints.push_reserved(front_print(&self.gains, &self.strikes, account, most));
        }
        Ok(prints)
    }

    /// Puts after the others what a send of the message at the moment leaves of the rows from one up to another, without what is past.
    /// A row gives one only if the send pays a debt of it, and if it must send nothing that is past. On an error all is as before.
    pub fn push_paid(
        &mut self,
        from: usize,
        to: usize,
        message: u64,
        moment: u64,
    ) -> Result<(), AllocError>
        requires { to ≤ length self.old }
        ensures ok { OnOk result (self.new ≡ self.old ++ paid_rows message moment (from_to from to self.old)) }
        ensures err { OnErr result (self.new ≡ self.old) }
    {
        let before = self.rows.len();
        self.paid = Some(message);
        let gains = &self.gains;
        let strikes = &mut self.strikes;
        if push_some(gains, strikes, &mut self.rows, from, to, message, moment).is_err() {
            self.rows.truncate(before);
            return Err(AllocError);
        }
        Ok(())
    }
}

/// Lets each account from one on owe one more debt, after its others. On an error some of them may owe it.
#[tactic(auto, using(crate::proofs::rows::PaidLemmas::gained_by_rows))]
fn gain_some(
    gains: &mut Gains,
    strikes: &mut Vec<Strike>,
    rows: &mut Vec<Account>,
    from: usize,
    debt: Debt,
) -> Result<(), AllocError>
    requires { AreAccounts gains.old strikes.old.items rows.old.items }
    ensures accounts { AreAccounts gains.new strikes.new.items rows.new.items }
    ensures ok { OnOk result (accounts_debts gains.new strikes.new.items rows.new.items
        ≡ take from (accounts_debts gains.old strikes.old.items rows.old.items)
        ++ map (λ owes. owes ++ debt ∷ []) (drop from (accounts_debts gains.old strikes.old.items rows.old.items))) }
    ensures err { OnErr result (take from (accounts_debts gains.new strikes.new.items rows.new.items)
        ≡ take from (accounts_debts gains.old strikes.old.items rows.old.items)) }
{
    let mut near = None;
    for row in from..rows.len() {
        let account = rows[row];
        let place = place_for(gains, strikes, account, debt, near)?;
        let grown = gained(gains, strikes, account, debt, place)?;
        rows[row] = grown;
        // The next account looks here first, so that equal gains of the rows share a place.
        near = Some(place);
    }
    Ok(())
}

/// Puts after the others what a send of the message at the moment leaves of each account from one up to another that it pays. On an error
/// some of these may be there.
#[tactic(auto, using(crate::proofs::rows::PaidLemmas::paid_of_rows))]
fn push_some(
    gains: &Gains,
    strikes: &mut Vec<Strike>,
    rows: &mut Vec<Account>,
    from: usize,
    to: usize,
    message: u64,
    moment: u64,
) -> Result<(), AllocError>
    requires accounts { AreAccounts gains.now strikes.old.items rows.old.items }
    requires to { to ≤ length rows.old.items }
    ensures accounts { AreAccounts gains.now strikes.new.items rows.new.items }
    ensures ok { OnOk result (accounts_debts gains.now strikes.new.items rows.new.items ≡ accounts_debts gains.now strikes.old.items rows.old.items
        ++ paid_rows message moment (from_to from to (accounts_debts gains.now strikes.old.items rows.old.items))) }
    ensures err { OnErr result (take (length rows.old.items) (accounts_debts gains.now strikes.new.items rows.new.items) ≡ accounts_debts gains.now strikes.old.items rows.old.items) }
{
    let mut seek = Seek::new(gains, message, 0);
    for row in from..to {
        let left = paid(gains, strikes, rows[row], &mut seek, message, moment)?;
        push_left(rows, left)?;
    }
    Ok(())
}

/// Puts the account after the others, if there is one.
fn push_left(rows: &mut Vec<Account>, left: Option<Account>) -> Result<(), AllocError>
    ensures ok { OnOk result (rows.new.items ≡ rows.old.items ++ option_to_list left) }
    ensures err { OnErr result (rows.new.items ≡ rows.old.items) }
{
    if let Some(account) = left {
        rows.push(account)?;
    }
    Ok(())
}

/// The account without the first debt that a send of the message at the moment pays and without what is past then, if it has such a debt and
/// must send nothing that is past. The strikes that were there stay.
#[tactic(auto, using(crate::proofs::rows::PaidLemmas::paid_of_row))]
fn paid(
    gains: &Gains,
    strikes: &mut Vec<Strike>,
    account: Account,
    seek: &mut Seek,
    message: u64,
    moment: u64,
) -> Result<Option<Account>, AllocError>
    requires gained { AreGains gains.now }
    requires account { IsAccount gains.now strikes.old.items account }
    requires seek { IsSeek gains.now message seek.old }
    ensures kept { take (length strikes.old.items) strikes.new.items ≡ strikes.old.items }
    ensures seek { IsSeek gains.now message seek.new }
    ensures account { IfOk result (λ left. IfSome left (IsAccount gains.now strikes.new.items)) }
    ensures debts { IfOk result (λ left. map (account_debts gains.now strikes.new.items) (option_to_list left)
        ≡ paid_rows message moment (account_debts gains.now strikes.old.items account ∷ [])) }
{
    if !is_timely(gains, strikes, account, moment) {
        return Ok(None);
    }
    let Some(place) = find(gains, strikes, account, seek, message, moment) else {
        return Ok(None);
    };
    let rest = without(gains, strikes, account, place)?;
    let left = expired(gains, strikes, rest, moment)?;
    Ok(Some(left))
}
