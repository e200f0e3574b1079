//! Which messages the accounts owe.
ghost use Rattle.std.specs.Prelude.{◌≡◌};
ghost use Rattle.sip_ledger.specs.inner.Words.{OnOk, OnErr, length, take, AppendsOwed, some_owes, AreAccounts, IsSeek, accounts_debts};

use crate::accounts::account::{Account, find};
use crate::accounts::gains::{Gains, Seek};
use crate::accounts::strikes::Strike;
use std::alloc::AllocError;

/// Puts the numbers of the messages that accounts owe after the others, from the least on, each once. On an error some of them are there.
#[tactic(auto, using(crate::proofs::rows::SeenLemmas::named_by_message))]
pub(crate) fn name_all(
    gains: &Gains,
    strikes: &[Strike],
    rows: &[Account],
    numbers: &mut Vec<u64>,
) -> Result<(), AllocError>
    requires { AreAccounts gains.now strikes.now rows.now }
    ensures ok { OnOk result (AppendsOwed (accounts_debts gains.now strikes.now rows.now) numbers.old.items numbers.new.items) }
    ensures err { OnErr result (take (length numbers.old.items) numbers.new.items ≡ numbers.old.items) }
{
    let mut last = None;
    while let Some(left) = gains.next_message(last) {
        if is_named(gains, strikes, rows, left) {
            numbers.push(left.0)?;
        }
        last = Some(left.0);
    }
    Ok(())
}

/// Whether one of the accounts owes the message that is left.
#[tactic(auto, using(crate::proofs::rows::SeenLemmas::named_by_message))]
fn is_named(gains: &Gains, strikes: &[Strike], rows: &[Account], left: (u64, Seek)) -> bool
    requires accounts { AreAccounts gains.now strikes.now rows.now }
    requires seek { IsSeek gains.now left.0 left.1 }
    ensures { result ≡ some_owes left.0 (accounts_debts gains.now strikes.now rows.now) }
{
    let (message, mut seek) = left;
    for at in 0..rows.len() {
        // No deadline is below the moment 0, so at that moment a send pays whatever is owed of the message.
        if find(gains, strikes, rows[at], &mut seek, message, 0).is_some() {
            return true;
        }
    }
    false
}
