//! Gains that no account owes any more are let go.
ghost use Rattle.std.specs.Prelude.{◌≡◌, ◌<◌, ◌≤◌, ◌+◌};
ghost use Rattle.sip_ledger.specs.inner.Words.{ℕ, All, false, length, OnFalse, AreAccounts, AreKept, IsClearedTo, StartFrom, owes_at};

use crate::accounts::account::{Account, owes};
use crate::accounts::gains::Gains;
use crate::accounts::strikes::Strike;

/// Lets the first gains of the message go that no account owes.
pub(crate) fn let_go(gains: &mut Gains, strikes: &[Strike], rows: &[Account], message: u64)
    requires { AreAccounts gains.old strikes.now rows.now }
    ensures { AreKept strikes.now rows.now gains.old gains.new }
{
    let mut from = 0;
    // It stops at the first gain that is owed: what is not owed after that one goes another time.
    while let Some(place) = gains.next(message, from) {
        if is_owed(gains, strikes, rows, place) {
            return;
        }
        gains.let_go(place);
        from = place + 1;
    }
}

/// Whether one of the accounts owes what was gained at the place.
fn is_owed(gains: &Gains, strikes: &[Strike], rows: &[Account], place: usize) -> bool
    requires { AreAccounts gains.now strikes.now rows.now }
    ensures { OnFalse result (All (λ a. owes_at gains.now strikes.now a place ≡ false) rows.now) }
{
    for at in 0..rows.len() {
        if owes(gains, strikes, rows[at], place) {
            return true;
        }
    }
    false
}

/// Drops the gains before all that the accounts owe, where they are more than half of those that are kept. They are let go first.
pub(crate) fn drop_front(gains: &mut Gains, strikes: &[Strike], rows: &[Account])
    requires { AreAccounts gains.old strikes.now rows.now }
    ensures { AreKept strikes.now rows.now gains.old gains.new }
{
    let first = gains.first();
    let start = first_owed(rows, gains.end);
    if start <= first || start - first <= gains.entries.len() / 2 {
        return;
    }
    for place in first..start {
        gains.let_go(place);
    }
    gains.drop_to(start);
}

/// The first place at which one of the accounts owes something, or the end.
fn first_owed(rows: &[Account], end: usize) -> usize
    ensures within { result ≤ end }
    ensures start { StartFrom result rows.now }
{
    let mut first = end;
    for at in 0..rows.len() {
        let row = rows[at];
        if row.start < row.end {
            first = first.min(row.start);
        }
    }
    first
}
