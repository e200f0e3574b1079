//! What one row owes of what was gained.
ghost use Rattle.std.specs.Prelude.{◌≡◌, ◌↔◌, ◌<◌, ◌≤◌, ◌*◌, ◌%◌, ◌^◌, ◌++◌, ◌∷◌, ◌+◌};
ghost use Rattle.sip_ledger.specs.inner.Words.{[], ℕ, Bool, true, false, Some, IfOk, IfSome, IfNone, IsTrue, bit_xor, filter, length, option_to_list, take, OnTrue, counts_at, debt_deadlines, earliest, is_timely, front_print, paid_by, worth_of, debt_of, Account, AreGains, IsAccount, IsAfter, IsExpiredTo, IsFirstPaying, IsFirstPayable, IsGainAt, IsUndropped, IsNextGain, IsSeek, IsWithout, KeepsAccounts, SharesNext, account_debts, entries_of, entry_at, is_struck, must_at, owes_at, pays_at, softened_account, sooner, strikes_of, numbers_of};

use crate::accounts::gains::{Gains, Seek};
use crate::accounts::strikes::{Strike, Strikes, are_same, first_alone, put, struck_to};
use crate::debt::Debt;
use sip_numbers::Numbers;
use std::alloc::{AllocError, Global};

/// What a row owes: what was gained at the places from `start` up to `end`, but for what its strikes say. What was gained below
/// `soft` has not to be sent.
#[derive(Clone, Copy, Debug)]
pub(crate) struct Account {
    pub start: usize,
    pub end: usize,
    pub soft: usize,
    /// Its strikes stand from `first` up to `last` among those of all rows.
    pub first: usize,
    pub last: usize,
    /// A number made of its debts: accounts that owe the same have the same one, and others hardly ever do.
    pub print: u64,
}

/// An account that was made of another one, if there was memory for it.
pub(crate) type Made = Result<Account, AllocError>;

/// Nothing is owed.
pub(crate) const EMPTY: Account = Account {
    start: 0,
    end: 0,
    soft: 0,
    first: 0,
    last: 0,
    print: 0,
};

/// The account's strikes.
pub(crate) fn own(strikes: &[Strike], account: Account) -> &[Strike]
    requires first { account.first ≤ account.last }
    requires last { account.last ≤ length strikes.now }
    ensures { result.now ≡ strikes_of strikes.now account }
{
    &strikes[account.first..account.last]
}

/// Whether the account owes what was gained at the place: it is left, and not struck.
#[tactic(auto, using(crate::proofs::account::FindLemmas::owed_at_place))]
pub(crate) fn owes(gains: &Gains, strikes: &[Strike], account: Account, place: usize) -> bool
    requires gained { AreGains gains.now }
    requires account { IsAccount gains.now strikes.now account }
    ensures { result ≡ owes_at gains.now strikes.now account place }
{
    // An account owes nothing before its start, and nothing from its end on.
    if place < account.start {
        return false;
    }
    if account.end <= place {
        return false;
    }
    if !gains.flags(place).left {
        return false;
    }
    match struck_to(own(strikes, account), gains.entry(place).message, place) {
        Some(_) => false,
        None => true,
    }
}

/// The first place from this one on at which the account owes something, or its end.
#[tactic(auto, using(crate::proofs::account::FindLemmas::owed_at_place))]
fn next(gains: &Gains, strikes: &[Strike], account: Account, from: usize) -> usize
    requires gained { AreGains gains.now }
    requires account { IsAccount gains.now strikes.now account }
    requires from { from ≤ account.end }
    ensures { IsAfter gains.now strikes.now account from result }
{
    let mut place = from;
    while place < account.end {
        if owes(gains, strikes, account, place) {
            return place;
        }
        place = gains.next_left(place + 1);
    }
    account.end
}

/// A number for a message and a deadline, which tells most apart at once. Its upper half is mixed in at the end, since the multiplications carry upwards
/// alone.
#[tactic(auto, unfolding(crate::specs::Accounts::worth_of))]
fn worth(message: u64, deadline: u64) -> u64
    ensures { result ≡ worth_of message deadline }
{
    let number = mixed(mixed(1, message), deadline);
    mixed(number, number >> 32)
}

/// A number with another one mixed in. The factor is odd and near 2^64 divided by the golden ratio, so that it spreads the bits of near numbers.
fn mixed(number: u64, word: u64) -> u64
    ensures { result ≡ bit_xor number word * 11400714819323198485 % 2 ^ 64 }
{
    (number ^ word).wrapping_mul(11_400_714_819_323_198_485)
}

/// The account without what was gained at the place, which it owes. On an error the strikes that were there stay.
#[tactic(auto, using(crate::proofs::account::WithoutLemmas::lost_at_place))]
#[inline(always)]
pub(crate) fn without(gains: &Gains, strikes: &mut Strikes, account: Account, place: usize) -> Made
    requires gained { AreGains gains.now }
    requires account { IsAccount gains.now strikes.old.items account }
    requires owed { owes_at gains.now strikes.old.items account place ≡ true }
    ensures kept { take (length strikes.old.items) strikes.new.items ≡ strikes.old.items }
    ensures account { IfOk result (IsAccount gains.now strikes.new.items) }
    ensures owed { IfOk result (λ new. IsWithout place (owes_at gains.now strikes.old.items account) (owes_at gains.now strikes.new.items new)) }
    ensures soft { IfOk result (λ new. new.soft ≡ account.soft) }
{
    // The first gain that is owed, and the last, are left out by where the account begins and ends; any other needs a strike.
    let rest = account.end - place;
    let after = place + 1;
    let entry = gains.entry(place);
    let print = account
        .print
        .wrapping_sub(worth(entry.message, entry.deadline));
    if place == account.start {
        let start = next(gains, strikes, account, after);
        return Ok(Account {
            start,
            print,
            ..account
        });
    }
    if rest == 1 {
        return Ok(Account {
            end: place,
            print,
            ..account
        });
    }
    let struck = put(gains, strikes, account, place, after)?;
    Ok(Account { print, ..struck })
}

/// The first place whose debt a send of the message at the moment pays.
#[inline(always)]
pub(crate) fn find(
    gains: &Gains,
    strikes: &[Strike],
    account: Account,
    seek: &mut Seek,
    message: u64,
    moment: u64,
) -> Option<usize>
    requires gained { AreGains gains.now }
    requires account { IsAccount gains.now strikes.now account }
    requires seek { IsSeek gains.now message seek.old }
    ensures seek { IsSeek gains.now message seek.new }
    ensures found { IfSome result (IsFirstPayable (entries_of gains.now) (owes_at gains.now strikes.now account) message moment) }
    ensures none { IfNone result ((k : ℕ) → owes_at gains.now strikes.now account k ≡ true → pays_at (entries_of gains.now) message moment k ≡ false) }
{
    // From place to place at which the message is left: where it is struck, on to the end of the strike; where its deadline is past, on by one.
    let own = own(strikes, account);
    let mut from = account.start;
    while let Some(place) = seek.next(gains, message, from) {
        if account.end <= place {
            return None;
        }
        match struck_to(own, message, place) {
            Some(to) => from = to,
            None => {
                if moment <= gains.entry(place).deadline {
                    return Some(place);
                }
                from = place + 1;
            }
        }
    }
    None
}

/// The first place whose debt a send of one of the messages pays at the moment. Those of them of which a gain is left are gone through, from the least on.
/// The search ends where no greater one is left or was gained, or where what is found stands before all greater ones.
/// Where it goes through more than `most` messages, the answer is None.
#[tactic(auto, using(crate::proofs::account::FindLemmas::found_of_some))]
pub(crate) fn find_first(
    gains: &Gains,
    strikes: &[Strike],
    account: Account,
    messages: &Numbers,
    moment: u64,
    most: usize,
) -> Option<Option<usize>>
    requires gained { AreGains gains.now }
    requires account { IsAccount gains.now strikes.now account }
    ensures { IfSome result (IsFirstPaying (entries_of gains.now) (owes_at gains.now strikes.now account) (numbers_of messages.now) moment) }
{
    let mut first = None;
    let mut from = 0;
    for _step in 0..most {
        let Some(message) = gains.messages.next_among(messages, from) else {
            return Some(first);
        };
        let mut seek = Seek::new(gains, message, account.start);
        let place = find(gains, strikes, account, &mut seek, message, moment);
        first = sooner(first, place);
        // Up to this place no greater message was gained, so none is found sooner.
        if gains.is_newest(place) {
            return Some(first);
        }
        // No greater message was gained at all.
        if gains.highest <= message {
            return Some(first);
        }
        from = message + 1;
    }
    None
}

/// What `find_first` finds, however many the messages are. Where the first of them does not tell, it is asked at which place of all one of them is left
/// first: those that were left the last time are not gone through again.
pub(crate) fn find_some(
    gains: &mut Gains,
    strikes: &[Strike],
    account: Account,
    messages: &Numbers,
    moment: u64,
) -> Result<Option<usize>, AllocError>
    requires gained { AreGains gains.old }
    requires account { IsAccount gains.old strikes.now account }
    ensures same { gains.new ≡ gains.old }
    ensures first { IfOk result (IsFirstPaying (entries_of gains.old) (owes_at gains.old strikes.now account) (numbers_of messages.now) moment) }
{
    // Mostly the first of the messages that are left tells.
    if let Some(found) = find_first(gains, strikes, account, messages, moment, 1) {
        return Ok(found);
    }
    let alloc = *gains.entries.allocator();
    if let Some((place, message)) = gains.messages.first_among(alloc, messages)? {
        let place = place as usize;
        if owes(gains, strikes, account, place)
            && moment <= gains.entry(place).deadline
            && messages.next_in_both(messages, message) == Some(message)
        {
            return Ok(Some(place));
        }
    }
    // No memory has room for as many messages as a number can count.
    find_first(gains, strikes, account, messages, moment, usize::MAX).ok_or(AllocError)
}

/// The lesser of two places, where there are some.
fn sooner(one: Option<usize>, other: Option<usize>) -> Option<usize>
    ensures { result ≡ sooner one other }
{
    match (one, other) {
        (Some(place), Some(beside)) => Some(place.min(beside)),
        (Some(place), None) => Some(place),
        (None, _) => other,
    }
}

/// Whether what was gained at the place must be sent.
#[tactic(auto, using(crate::proofs::account::AccountLemmas::must_by_place))]
fn must(gains: &Gains, account: Account, place: usize) -> bool
    requires gained { AreGains gains.now }
    requires kept { IsUndropped gains.now place }
    ensures { result ≡ must_at gains.now account place }
{
    if place < account.soft {
        return false;
    }
    gains.flags(place).must
}

/// The account without what was gained at the place, if it owes and may send that and its deadline is below the moment. `gone` is a step of a walk:
/// what was right of the places before this one (`IsExpiredTo`) is right of this one too.
#[tactic(auto, using(crate::proofs::rows::PaidLemmas::expired_by_place))]
fn expire(gains: &Gains, strikes: &mut Strikes, account: Account, place: usize, moment: u64) -> Made
    requires gained { AreGains gains.now }
    requires account { IsAccount gains.now strikes.old.items account }
    requires kept { IsUndropped gains.now place }
    ensures kept { take (length strikes.old.items) strikes.new.items ≡ strikes.old.items }
    ensures account { IfOk result (IsAccount gains.now strikes.new.items) }
    ensures soft { IfOk result (λ new. new.soft ≡ account.soft) }
    ensures gone { IfOk result (λ new. (a : Account) (o : ℕ → Bool) → account.soft ≡ a.soft →
        IsExpiredTo moment (entries_of gains.now) (must_at gains.now a) o (owes_at gains.now strikes.old.items account) place →
        IsExpiredTo moment (entries_of gains.now) (must_at gains.now a) o (owes_at gains.now strikes.new.items new) (place + 1)) }
{
    if moment <= gains.entry(place).deadline {
        return Ok(account);
    }
    if must(gains, account, place) {
        return Ok(account);
    }
    if !owes(gains, strikes, account, place) {
        return Ok(account);
    }
    let left = without(gains, strikes, account, place)?;
    Ok(left)
}

/// The account without what it may send and whose deadline is below the moment. The strikes that were there stay, also on an error.
#[tactic(auto, using(crate::proofs::rows::PaidLemmas::expired_by_place))]
#[inline(always)]
pub(crate) fn expired(gains: &Gains, strikes: &mut Strikes, account: Account, moment: u64) -> Made
    requires gained { AreGains gains.now }
    requires account { IsAccount gains.now strikes.old.items account }
    ensures kept { take (length strikes.old.items) strikes.new.items ≡ strikes.old.items }
    ensures account { IfOk result (IsAccount gains.now strikes.new.items) }
    ensures debts { IfOk result (λ new. account_debts gains.now strikes.new.items new ≡ filter (counts_at moment) (account_debts gains.now strikes.old.items account)) }
{
    if account.start == account.end {
        return Ok(account);
    }
    if gains.all_count(moment) {
        return Ok(account);
    }
    let mut left = account;
    let mut place = account.start;
    while place < left.end {
        // Where deadlines rise, no later one is past either.
        if gains.rises && moment <= gains.entry(place).deadline {
            return Ok(left);
        }
        left = expire(gains, strikes, left, place, moment)?;
        place += 1;
    }
    Ok(left)
}

/// The account without the first debt that a send of the message at the moment pays, if there is one, and without what is past then.
/// The strikes that were there stay.
#[tactic(auto, using(crate::proofs::rows::PaidLemmas::paid_of_row))]
pub(crate) fn paid_and_expired(
    gains: &Gains,
    strikes: &mut Strikes,
    account: Account,
    message: u64,
    moment: u64,
) -> Made
    requires gained { AreGains gains.now }
    requires account { IsAccount gains.now strikes.old.items account }
    ensures kept { take (length strikes.old.items) strikes.new.items ≡ strikes.old.items }
    ensures account { IfOk result (IsAccount gains.now strikes.new.items) }
    ensures debts { IfOk result (λ new. account_debts gains.now strikes.new.items new ≡ filter (counts_at moment) (paid_by message moment (account_debts gains.now strikes.old.items account))) }
{
    let mut seek = Seek::new(gains, message, account.start);
    let Some(place) = find(gains, strikes, account, &mut seek, message, moment) else {
        let left = expired(gains, strikes, account, moment)?;
        return Ok(left);
    };
    // The debt at the place is paid, and then what is past goes.
    let rest = without(gains, strikes, account, place)?;
    let left = expired(gains, strikes, rest, moment)?;
    Ok(left)
}

/// A place at which the account can gain the debt: one of another account, or a new one. The place at which another account gained it, if
/// there is one, is looked at first. On an error the accounts owe what they owed.
#[tactic(auto, using(crate::proofs::account::WithoutLemmas::gains_keep))]
pub(crate) fn place_for(
    gains: &mut Gains,
    strikes: &[Strike],
    account: Account,
    debt: Debt,
    near: Option<usize>,
) -> Result<usize, AllocError>
    requires gained { AreGains gains.old }
    requires account { IsAccount gains.old strikes.now account }
    requires near { IfSome near (IsGainAt gains.old debt) }
    ensures gained { AreGains gains.new }
    ensures kept { KeepsAccounts gains.old gains.new }
    ensures next { IfOk result (IsNextGain gains.new strikes.now account debt) }
{
    if let Some(place) = near {
        if fits(strikes, account, debt.message, place) {
            return Ok(place);
        }
    }
    if let Some(place) = shared_place(gains, strikes, account, debt) {
        return Ok(place);
    }
    let place = gains.end;
    gains.push(debt)?;
    Ok(place)
}

/// Whether the account can gain the message at the place, as far as it is the account's own.
fn fits(strikes: &[Strike], account: Account, message: u64, place: usize) -> bool
    requires first { account.first ≤ account.last }
    requires last { account.last ≤ length strikes.now }
    ensures end { OnTrue result (account.end ≤ place) }
    ensures soft { OnTrue result (account.soft ≤ place) }
    ensures free { OnTrue result (is_struck (strikes_of strikes.now account) message place ≡ false) }
{
    // The debts stand in the order of places, and what is gained below `soft` would not have to be sent.
    let low = account.end.max(account.soft);
    if place < low {
        return false;
    }
    match struck_to(own(strikes, account), message, place) {
        Some(_) => false,
        None => true,
    }
}

/// The first place from the account's end on at which the debt was gained already, if the account can gain it there.
#[tactic(auto, using(crate::proofs::gains::LeftLemmas::entries_long))]
fn shared_place(gains: &Gains, strikes: &[Strike], account: Account, debt: Debt) -> Option<usize>
    requires gained { AreGains gains.now }
    requires account { IsAccount gains.now strikes.now account }
    ensures { IfSome result (IsNextGain gains.now strikes.now account debt) }
{
    let mut from = account.end.max(account.soft);
    while let Some(place) = gains.next(debt.message, from) {
        if gains.entry(place).deadline == debt.deadline
            && gains.flags(place).must == debt.must
            && fits(strikes, account, debt.message, place)
        {
            return Some(place);
        }
        from = place + 1;
    }
    None
}

/// The account before it gains at the place: where it owes nothing that must be sent, and gains nothing such, what must be sent is looked for from the place on.
fn eased(gains: &Gains, strikes: &[Strike], account: Account, debt: Debt, place: usize) -> Account
    requires gained { AreGains gains.now }
    requires account { IsAccount gains.now strikes.now account }
    requires next { IsNextGain gains.now strikes.now account debt place }
    ensures account { IsAccount gains.now strikes.now result }
    ensures next { IsNextGain gains.now strikes.now result debt place }
    ensures debts { account_debts gains.now strikes.now result ≡ account_debts gains.now strikes.now account }
    ensures rest { result ≡ softened_account result.soft account }
{
    if debt.must || earliest_must(gains, strikes, account).is_some() {
        return account;
    }
    Account {
        soft: place,
        ..account
    }
}

/// The account with what was gained at the place, after all that it owes. What others gained between its end and the place is struck.
#[tactic(auto, using(crate::proofs::account::AccountLemmas::kept_by_place))]
pub(crate) fn gained(
    gains: &Gains,
    strikes: &mut Strikes,
    account: Account,
    debt: Debt,
    place: usize,
) -> Made
    requires gained { AreGains gains.now }
    requires account { IsAccount gains.now strikes.old.items account }
    requires next { IsNextGain gains.now strikes.old.items account debt place }
    ensures kept { take (length strikes.old.items) strikes.new.items ≡ strikes.old.items }
    ensures account { IfOk result (IsAccount gains.now strikes.new.items) }
    ensures debts { IfOk result (λ new. account_debts gains.now strikes.new.items new ≡ account_debts gains.now strikes.old.items account ++ debt ∷ []) }
{
    let print = account
        .print
        .wrapping_add(worth(debt.message, debt.deadline));
    if account.start == account.end {
        return Ok(Account {
            // An account that owed nothing begins at the place, and needs no strikes.
            start: place,
            end: place + 1,
            soft: account.soft,
            first: 0,
            last: 0,
            print,
        });
    }
    let eased = eased(gains, strikes, account, debt, place);
    let passed = put(gains, strikes, eased, eased.end, place)?;
    Ok(Account {
        end: place + 1,
        print,
        ..passed
    })
}

/// The least deadline of what the account must send. The first debt is looked at before the index is asked.
#[tactic(auto, using(crate::proofs::account::ToldLemmas::led_by_start))]
#[inline(always)]
pub(crate) fn earliest_must(gains: &Gains, strikes: &[Strike], account: Account) -> Option<u64>
    requires gained { AreGains gains.now }
    requires account { IsAccount gains.now strikes.now account }
    ensures { result ≡ earliest (debt_deadlines (account_debts gains.now strikes.now account)) }
{
    // Where deadlines rise, and the first debt must be sent, its deadline is the least.
    if account.start < account.end && gains.rises && must(gains, account, account.start) {
        return Some(gains.entry(account.start).deadline);
    }
    least_must(gains, strikes, account)
}

/// The least deadline of what the account must send, by the index.
#[tactic(auto, using(crate::proofs::account::WithoutLemmas::lost_at_place))]
#[inline(never)]
fn least_must(gains: &Gains, strikes: &[Strike], account: Account) -> Option<u64>
    requires gained { AreGains gains.now }
    requires account { IsAccount gains.now strikes.now account }
    ensures { result ≡ earliest (debt_deadlines (account_debts gains.now strikes.now account)) }
{
    let mut least: Option<u64> = None;
    // What was gained below `soft` need not be sent any more.
    let mut from = account.start.max(account.soft);
    while let Some(place) = gains.next_must(from) {
        if account.end <= place {
            return least;
        }
        if owes(gains, strikes, account, place) {
            least = Some(earlier(gains.entry(place).deadline, least));
            if gains.rises {
                return least;
            }
        }
        from = place + 1;
    }
    least
}

/// Whether nothing that the account must send is past at the moment. It is asked first whether anything is past of what was gained.
#[tactic(auto, using(crate::proofs::rows::PaidLemmas::none_late))]
pub(crate) fn is_timely(gains: &Gains, strikes: &[Strike], account: Account, moment: u64) -> bool
    requires gained { AreGains gains.now }
    requires account { IsAccount gains.now strikes.now account }
    ensures { result ≡ is_timely moment (account_debts gains.now strikes.now account) }
{
    if gains.all_count(moment) {
        return true;
    }
    match earliest_must(gains, strikes, account) {
        Some(deadline) => moment <= deadline,
        None => true,
    }
}

/// The earlier of a moment and another one, if there is one.
fn earlier(moment: u64, other: Option<u64>) -> u64
    ensures { Some result ≡ earliest (moment ∷ option_to_list other) }
{
    match other {
        Some(other) => moment.min(other),
        None => moment,
    }
}

/// What the account owes at a place, as far as it owes something there.
pub(crate) fn debt_for(gains: &Gains, account: Account, place: usize) -> Debt
    requires gained { AreGains gains.now }
    requires kept { IsUndropped gains.now place }
    ensures { result ≡ debt_of (entry_at (entries_of gains.now) place) (must_at gains.now account place) }
{
    let entry = gains.entry(place);
    Debt {
        message: entry.message,
        deadline: entry.deadline,
        must: must(gains, account, place),
    }
}

/// At how many places from these on it is known that both accounts owe the same: none, where they are not one place.
#[tactic(auto, using(crate::proofs::account::ToldLemmas::shared_by_places))]
fn shared(
    gains: &Gains,
    strikes: &[Strike],
    one: Account,
    other: Account,
    at: usize,
    beside: usize,
) -> usize
    requires gained { AreGains gains.now }
    requires one { IsAccount gains.now strikes.now one }
    requires other { IsAccount gains.now strikes.now other }
    requires at { (one.start ≤ at) × (at ≤ one.end) }
    requires beside { (other.start ≤ beside) × (beside ≤ other.end) }
    ensures { SharesNext gains.now strikes.now one other at beside result }
{
    if at != beside {
        return 0;
    }
    // Where one of them alone is soft from here on, they may differ at once.
    let end = one.end.min(other.end);
    let soft = one.soft.max(at).min(end);
    let soft_beside = other.soft.max(at).min(end);
    if soft != soft_beside {
        return 0;
    }
    let own_one = own(strikes, one);
    let own_other = own(strikes, other);
    let first = first_alone(gains, own_one, own_other, at, end);
    first_alone(gains, own_other, own_one, at, first) - at
}

/// Whether two accounts owe the same.
#[tactic(auto, using(crate::proofs::account::ToldLemmas::shared_by_places))]
pub(crate) fn same(gains: &Gains, strikes: &[Strike], one: Account, other: Account) -> bool
    requires gained { AreGains gains.now }
    requires one { IsAccount gains.now strikes.now one }
    requires other { IsAccount gains.now strikes.now other }
    ensures { IsTrue result ↔ (account_debts gains.now strikes.now one ≡ account_debts gains.now strikes.now other) }
{
    if one.print != other.print {
        return false;
    }
    // Most accounts that owe the same have the same places and the same strikes.
    if one.start == other.start
        && one.end == other.end
        && one.soft == other.soft
        && are_same(own(strikes, one), own(strikes, other))
    {
        return true;
    }
    // Others are walked side by side, from debt to debt, but for what they share.
    let mut at = one.start;
    let mut beside = other.start;
    while at < one.end && beside < other.end {
        if debt_for(gains, one, at) != debt_for(gains, other, beside) {
            return false;
        }
        let count = shared(gains, strikes, one, other, at + 1, beside + 1);
        at = next(gains, strikes, one, at + 1 + count);
        beside = next(gains, strikes, other, beside + 1 + count);
    }
    at == one.end && beside == other.end
}

/// The number of what the account owes, in which the order of its first debts counts too, of so many at most.
#[tactic(auto, using(crate::proofs::account::ToldLemmas::told_by_place))]
pub(crate) fn front_print(gains: &Gains, strikes: &[Strike], account: Account, most: usize) -> u64
    requires gained { AreGains gains.now }
    requires account { IsAccount gains.now strikes.now account }
    ensures { result ≡ front_print most (account_debts gains.now strikes.now account) }
{
    let mut print = 1;
    let mut place = account.start;
    let mut count = 0;
    while place < account.end && count < most {
        let entry = gains.entry(place);
        print = mixed(mixed(print, entry.message), entry.deadline);
        place = next(gains, strikes, account, place + 1);
        count += 1;
    }
    mixed(account.print, print)
}

/// What the account owes.
#[tactic(auto, using(crate::proofs::account::ToldLemmas::told_by_place))]
pub(crate) fn debts(
    alloc: Global,
    gains: &Gains,
    strikes: &[Strike],
    account: Account,
) -> Result<Vec<Debt>, AllocError>
    requires gained { AreGains gains.now }
    requires account { IsAccount gains.now strikes.now account }
    ensures { IfOk result (λ debts. debts.items ≡ account_debts gains.now strikes.now account) }
{
    let mut debts = Vec::new(alloc);
    let mut place = account.start;
    while place < account.end {
        debts.push(debt_for(gains, account, place))?;
        place = next(gains, strikes, account, place + 1);
    }
    Ok(debts)
}
