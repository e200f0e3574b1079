//! What is not owed of what was gained.
ghost use Rattle.std.specs.Prelude.{◌≡◌, ◌<◌, ◌≤◌, ◌+◌, ◌++◌};
ghost use Rattle.sip_ledger.specs.inner.Words.{ℕ, true, false, IfOk, IfSome, IfNone, OnOk, OnErr, filter, length, take, nat_lt, OnTrue, from_to, AreGains, AreStruckToo, IsUndropped, IsStruck, Reaches, StrikeToo, is_out, is_struck};

use crate::accounts::account::{Account, Made};
use crate::accounts::gains::Gains;
use std::alloc::AllocError;

/// How many gains are looked at one by one before the index is asked.
const FEW: usize = 8;

/// Nothing of this message is owed at the places from one up to another.
#[derive(Clone, Copy, Debug, PartialEq, Eq)]
pub(crate) struct Strike {
    pub message: u64,
    pub from: usize,
    pub to: usize,
}

/// Strikes that grow.
pub(crate) type Strikes = Vec<Strike>;

/// Whether memory was there for what was written.
pub(crate) type Written = Result<(), AllocError>;

/// A place up to which the message is struck from this one on, if it is struck here.
#[tactic(auto, using(crate::proofs::strikes::MovedLemmas::struck_by_some))]
pub(crate) fn struck_to(strikes: &[Strike], message: u64, place: usize) -> Option<usize>
    ensures some { IfSome result (λ to. (place < to) × ((k : ℕ) → place ≤ k → k < to → is_struck strikes.now message k ≡ true)) }
    ensures none { IfNone result (is_struck strikes.now message place ≡ false) }
{
    for strike in strikes {
        if strikes_out(*strike, message, place) {
            return Some(strike.to);
        }
    }
    None
}

/// Whether the strike says that what was gained of the message at the place is not owed.
fn strikes_out(strike: Strike, message: u64, place: usize) -> bool
    ensures { result ≡ is_out message place strike }
{
    strike.message == message && strike.from <= place && place < strike.to
}

/// Whether the strikes are the same, in the same order.
pub(crate) fn are_same(one: &[Strike], other: &[Strike]) -> bool
    ensures { OnTrue result (one.now ≡ other.now) }
{
    if one.len() != other.len() {
        return false;
    }
    for at in 0..one.len() {
        if one[at] != other[at] {
            return false;
        }
    }
    true
}

/// The first place from one on, and below an end, at which a gain is left that the strike strikes and the others do not; or that end.
fn struck_alone(gains: &Gains, strike: Strike, others: &[Strike], from: usize, end: usize) -> usize
    requires gained { AreGains gains.now }
    requires order { from ≤ end }
    ensures within { (from ≤ result) × (result ≤ end) }
    ensures before { AreStruckToo gains.now (λ m k. is_out m k strike) others.now from result }
{
    let to = strike.to.min(end);
    let mut place = from.max(strike.from);
    while place < to {
        let Some(at) = gains.next(strike.message, place) else {
            return end;
        };
        if to <= at {
            return end;
        }
        // Where the others strike it too, the search goes on from the end of their strike.
        let Some(after) = struck_to(others, strike.message, at) else {
            return at;
        };
        place = after;
    }
    end
}

/// The first place from one on, and below an end, at which a gain is left that the strikes strike and the others do not; or that end.
pub(crate) fn first_alone(
    gains: &Gains,
    strikes: &[Strike],
    others: &[Strike],
    from: usize,
    end: usize,
) -> usize
    requires gained { AreGains gains.now }
    requires order { from ≤ end }
    ensures within { (from ≤ result) × (result ≤ end) }
    ensures before { AreStruckToo gains.now (is_struck strikes.now) others.now from result }
{
    let mut first = end;
    for at in 0..strikes.len() {
        // A strike that both have at one index is no difference.
        if others.len() <= at || strikes[at] != others[at] {
            first = struck_alone(gains, strikes[at], others, from, first);
        }
    }
    first
}

/// Writes the strikes from one up to another after all others, but for those that end at a place or before it. On an error some of them are there.
fn copy_some(strikes: &mut Strikes, first: usize, last: usize, start: usize) -> Written
    requires order { first ≤ last }
    requires within { last ≤ length strikes.old.items }
    ensures ok { OnOk result (strikes.new.items ≡ strikes.old.items ++ filter (λ strike. nat_lt start strike.to) (from_to first last strikes.old.items)) }
    ensures err { OnErr result (take (length strikes.old.items) strikes.new.items ≡ strikes.old.items) }
{
    for at in first..last {
        let strike = strikes[at];
        if start < strike.to {
            strikes.push(strike)?;
        }
    }
    Ok(())
}

/// Whether the strike is of the message that was gained at the place, and ends where nothing else of it is left before the place.
fn reaches(gains: &Gains, strike: Strike, place: usize) -> bool
    requires gained { AreGains gains.now }
    requires kept { IsUndropped gains.now place }
    ensures { OnTrue result (Reaches gains.now place strike) }
{
    if strike.message != gains.entry(place).message || place < strike.from || place < strike.to {
        return false;
    }
    // Few gains that are all kept are looked at one by one; otherwise the index tells the next one of the message that is left.
    if place - strike.to <= FEW && gains.first() <= strike.to {
        for at in strike.to..place {
            if gains.entry(at).message == strike.message {
                return false;
            }
        }
        return true;
    }
    match gains.next(strike.message, strike.to) {
        Some(at) => place <= at,
        None => true,
    }
}

/// The account with what was gained from one place up to another struck too: its strikes that end after its start are written after all others,
/// and strike this too. On an error the strikes that were there stay.
pub(crate) fn put(
    gains: &Gains,
    strikes: &mut Strikes,
    account: Account,
    from: usize,
    to: usize,
) -> Made
    requires gained { AreGains gains.now }
    requires order { from ≤ to }
    requires kept { (k : ℕ) → from ≤ k → k < to → IsUndropped gains.now k }
    requires first { account.first ≤ account.last }
    requires last { account.last ≤ length strikes.old.items }
    ensures kept { take (length strikes.old.items) strikes.new.items ≡ strikes.old.items }
    ensures struck { IfOk result (IsStruck gains.now from to strikes.old.items strikes.new.items account) }
{
    if from == to {
        return Ok(account);
    }
    let first = strikes.len();
    copy_some(strikes, account.first, account.last, account.start)?;
    for place in from..to {
        strike_too(gains, strikes, first, place)?;
    }
    Ok(Account {
        first,
        last: strikes.len(),
        ..account
    })
}

/// What was gained at the place is struck too, by the strikes from the index `first` on: one of them that reaches up to it is lengthened, or a
/// new one is put after them. On an error the strikes are as before.
fn strike_too(gains: &Gains, strikes: &mut Strikes, first: usize, place: usize) -> Written
    requires gained { AreGains gains.now }
    requires kept { IsUndropped gains.now place }
    requires first { first ≤ length strikes.old.items }
    ensures ok { OnOk result (StrikeToo gains.now place first strikes.old.items strikes.new.items) }
    ensures err { OnErr result (strikes.new.items ≡ strikes.old.items) }
{
    for at in first..strikes.len() {
        if reaches(gains, strikes[at], place) {
            strikes[at].to = place + 1;
            return Ok(());
        }
    }
    strikes.push(Strike {
        message: gains.entry(place).message,
        from: place,
        to: place + 1,
    })?;
    Ok(())
}
