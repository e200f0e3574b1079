//! Accounts whose strikes are written anew, so that those that strike nothing any more go.
ghost use Rattle.std.specs.Prelude.{◌≡◌, ◌≤◌};
ghost use Rattle.sip_ledger.specs.inner.Words.{IfOk, OnOk, All, length, OnFalse, AreAppended, AreGains, AreMoved, IsAccount, IsMoved, StrikesNoneFrom};

use crate::accounts::account::{Account, Made, own};
use crate::accounts::gains::Gains;
use crate::accounts::strikes::{Strike, Strikes, Written};
use std::alloc::{AllocError, Global};

/// Strikes of the accounts alone, and the accounts over these.
pub(crate) fn move_all(
    alloc: Global,
    gains: &Gains,
    strikes: &[Strike],
    rows: &[Account],
) -> Result<(Vec<Strike>, Vec<Account>), AllocError>
    requires gained { AreGains gains.now }
    requires each { All (IsAccount gains.now strikes.now) rows.now }
    ensures { IfOk result (λ moved. AreMoved gains.now strikes.now rows.now moved.0.items moved.1.items) }
{
    let mut kept = Vec::new(alloc);
    let mut moved = Vec::new(alloc);
    for at in 0..rows.len() {
        let account = move_one(gains, strikes, &mut kept, rows[at])?;
        moved.push(account)?;
    }
    Ok((kept, moved))
}

/// The account with its strikes written after the others.
fn move_one(gains: &Gains, strikes: &[Strike], kept: &mut Strikes, account: Account) -> Made
    requires gained { AreGains gains.now }
    requires first { account.first ≤ account.last }
    requires last { account.last ≤ length strikes.now }
    ensures { IfOk result (IsMoved gains.now strikes.now kept.old.items kept.new.items account) }
{
    let first = kept.len();
    append_some(gains, kept, own(strikes, account), account.start)?;
    Ok(Account {
        first,
        last: kept.len(),
        ..account
    })
}

/// Writes strikes after the kept ones: those that strike a gain that is left, at `place` or after it. On an error some of them are there.
fn append_some(gains: &Gains, kept: &mut Strikes, strikes: &[Strike], place: usize) -> Written
    requires { AreGains gains.now }
    ensures { OnOk result (AreAppended gains.now place strikes.now kept.old.items kept.new.items) }
{
    for at in 0..strikes.len() {
        let strike = strikes[at];
        if strikes_some(gains, strike, place) {
            kept.push(strike)?;
        }
    }
    Ok(())
}

/// Whether the strike strikes something that is left from the place on. Its last place is looked at before the index is asked.
fn strikes_some(gains: &Gains, strike: Strike, place: usize) -> bool
    requires { AreGains gains.now }
    ensures { OnFalse result (StrikesNoneFrom gains.now place strike) }
{
    let from = strike.from.max(place);
    if from < strike.to && gains.has(strike.message, strike.to - 1) {
        return true;
    }
    match gains.next(strike.message, from) {
        Some(at) => at < strike.to,
        None => false,
    }
}

/// How many strikes the accounts have, each by itself.
pub(crate) fn held(rows: &[Account]) -> usize {
    let mut held: usize = 0;
    for row in rows {
        held = held.saturating_add(row.last.saturating_sub(row.first));
    }
    held
}
