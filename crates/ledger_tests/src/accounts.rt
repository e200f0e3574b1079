//! Steps by chance, on accounts and on plain lists of debts beside them. A method of `Played` that changes rows does so in both: in the accounts by a
//! call, and in the lists as the call's contract says. After each step both are compared by all that can be asked of accounts.
ghost use Rattle.std.specs.Prelude.{◌<◌, length};

use crate::chance::Chance;
use crate::numbers::set_of;
use crate::wants::{Done, holds};
use sip_ledger::{Accounts, Debt};
use std::alloc::Global;
use std::iter::repeat_n;
use std::process::Abort;
use std::test::Fail;

/// Accounts, and what each of them should owe.
#[derive(Drop)]
struct Played {
    alloc: Global,
    accounts: Accounts,
    /// For each row of the accounts the debts that it should owe.
    lists: Vec<Vec<Debt>>,
    /// The moment that steps have come to.
    clock: u64,
}

impl Played {
    /// So many rows that owe nothing.
    fn new(rt: &(impl Abort + AllocGlobal), rows: usize) -> Result<Self, Fail> {
        let mut played = Played {
            alloc: rt.alloc(),
            accounts: Accounts::new(rt.alloc()),
            lists: Vec::new(rt.alloc()),
            clock: 0,
        };
        for _ in 0..rows {
            played.push()?;
        }
        Ok(played)
    }

    /// The row is one of the accounts, and one of the lists.
    fn has(&self, rt: &impl Abort, row: usize)
        ensures accounts { row < length self.now.accounts }
        ensures lists { row < length self.now.lists.items }
    {
        holds(rt, row < self.accounts.len(), "a row of the accounts");
        holds(rt, row < self.lists.len(), "a row of the lists");
    }

    /// The number of a row.
    fn row(&self, chance: &mut Chance) -> usize {
        chance.below(self.lists.len() as u64) as usize
    }

    /// A row comes that owes nothing.
    fn push(&mut self) -> Done {
        self.accounts.push()?;
        Ok(self.lists.push(Vec::new(self.alloc))?)
    }

    /// A row comes that owes what this one owes.
    fn push_copy(&mut self, rt: &impl Abort, row: usize) -> Done {
        self.has(rt, row);
        self.accounts.push_copy(row)?;
        Ok(self.lists.push(self.lists[row].clone()?)?)
    }

    /// Of the rows from one up to another each timely one comes once more: as it is, or, where a message is told, if it pays that, without it and what is past.
    fn push_some(&mut self, from: usize, to: usize, message: Option<u64>, moment: u64) -> Done {
        let to = to.min(self.accounts.len());
        match message {
            Some(message) => self.accounts.push_paid(from, to, message, moment)?,
            None => self.accounts.push_timely(from, to, moment)?,
        }
        let mut come = Vec::new(self.alloc);
        for list in self.lists.iter().take(to).skip(from) {
            let mut left = list.clone()?;
            let comes = message.is_none_or(|message| pays(&mut left, message, moment));
            if comes && earliest_must(list).is_none_or(|deadline| moment <= deadline) {
                come.push(left)?;
            }
        }
        Ok(self.lists.append(&mut come)?)
    }

    /// The rows from `from` on gain the debt.
    fn gain_each(&mut self, from: usize, debt: Debt) -> Done {
        self.accounts.gain_each(from, debt)?;
        let mut lists = self.lists.iter_mut().skip(from);
        Ok(lists.try_for_each(|list| list.push(debt))?)
    }

    /// The row loses what it may send and whose deadline is past.
    fn expire(&mut self, rt: &impl Abort, row: usize, moment: u64) -> Done {
        self.has(rt, row);
        expire(&mut self.lists[row], moment);
        Ok(self.accounts.expire(row, moment)?)
    }

    /// The row gains the debt, and loses what it may send and whose deadline is past.
    fn gain_and_expire(&mut self, rt: &impl Abort, row: usize, debt: Debt, moment: u64) -> Done {
        self.has(rt, row);
        self.lists[row].push(debt)?;
        expire(&mut self.lists[row], moment);
        Ok(self.accounts.gain_and_expire(row, debt, moment)?)
    }

    /// The row pays the first debt that a send of the message pays, if there is one, and loses what it may send and whose deadline is past.
    fn pay_and_expire(&mut self, rt: &impl Abort, row: usize, message: u64, moment: u64) -> Done {
        self.has(rt, row);
        let can = self.accounts.can_pay(row, message, moment);
        let pays = pays(&mut self.lists[row], message, moment);
        holds(rt, can == pays, "whether it can pay");
        Ok(self.accounts.pay_and_expire(row, message, moment)?)
    }

    /// What the row owes need not be sent any more.
    fn soften(&mut self, rt: &impl Abort, row: usize) {
        self.has(rt, row);
        self.accounts.soften(row);
        let debts = self.lists[row].iter_mut();
        debts.for_each(|debt| debt.must = false);
    }

    /// The last row goes, where it is not the only one.
    fn truncate(&mut self) {
        let kept = self.lists.len().saturating_sub(1).max(1);
        self.accounts.truncate(kept);
        self.lists.truncate(kept);
    }

    /// Every second row is kept.
    fn keep_some(&mut self) -> Done {
        let mut rows = Vec::new(self.alloc);
        for row in 0..self.accounts.len() {
            if row % 2 == 0 {
                rows.push(row)?;
            }
        }
        self.accounts.keep(&rows);
        let kept = self.lists.iter().step_by(2).map(|list| list.clone());
        self.lists = kept.try_collect(self.alloc)?;
        Ok(())
    }

    /// The row owes the debts of this list, and tells the first one, the least deadline of what must be sent, and whether that is past, then and one later.
    fn owes_debts(&self, rt: &impl Abort, row: usize, list: &[Debt]) -> Done {
        self.has(rt, row);
        let accounts = &self.accounts;
        let runs = accounts.runs(self.alloc, row)?;
        let debts = runs.iter().flat_map(|run| repeat_n(run.debt, run.count));
        holds(rt, debts.eq(list.iter().copied()), "debts");
        let (first, least) = (list.first().copied(), earliest_must(list));
        holds(rt, accounts.first_debt(row) == first, "first debt");
        holds(rt, accounts.owes_nothing(row) == first.is_none(), "nothing");
        holds(rt, accounts.earliest_must(row) == least, "earliest must");
        let moment = least.unwrap_or(0);
        holds(rt, accounts.is_timely(row, moment), "timely");
        // One later the row is timely only where it must send nothing.
        let late = accounts.is_timely(row, moment.saturating_add(1));
        holds(rt, late == least.is_none(), "late");
        Ok(())
    }

    /// The row names the messages of this list, or each of them once, from the least on.
    fn owes_names(&self, rt: &impl Abort, row: usize, list: &[Debt]) -> Done {
        self.has(rt, row);
        let (mut names, mut once) = (Vec::new(self.alloc), Vec::new(self.alloc));
        self.accounts.names(self.alloc, row, &mut names)?;
        self.accounts.names_once(row, &mut once)?;
        let wants = list.iter().map(|debt| debt.message);
        holds(rt, names.iter().copied().eq(wants), "names");
        names.sort_unstable();
        names.dedup();
        holds(rt, once.as_slice() == names.as_slice(), "names once");
        Ok(())
    }

    /// The first debt of each row that a send of one of some messages pays is the first such debt of its list. Three of the four have one least message.
    fn pays_some_first(&mut self, rt: &impl Abort) -> Done {
        // Each two of the messages 0, 1 and 2, and all of them.
        for some in [[2, 1, 1], [0, 2, 2], [1, 0, 0], [0, 1, 2]] {
            let messages = set_of(self.alloc, &some)?;
            for (row, list) in self.lists.iter().enumerate() {
                let moment = earliest_must(list).unwrap_or(0);
                let mut debts = list.iter().filter(|debt| moment <= debt.deadline);
                let first = debts.find(|debt| some.contains(&debt.message));
                let want = first.map(|debt| debt.message);
                holds(rt, row < self.accounts.len(), "a row of the accounts");
                let found = self.accounts.first_payable(row, &messages, moment)?;
                holds(rt, found == want, "first payable");
            }
        }
        Ok(())
    }

    /// The messages that rows owe are told, from the least on, each once, and two numbers between which they lie.
    fn names_all(&self, rt: &impl Abort) -> Done {
        let debts = self.lists.iter().flatten();
        let mut wants: Vec<u64> = debts.map(|debt| debt.message).collect(self.alloc)?;
        wants.sort_unstable();
        wants.dedup();
        let mut names = Vec::new(self.alloc);
        self.accounts.all_names(&mut names)?;
        holds(rt, names.as_slice() == wants.as_slice(), "all names");
        let (low, high) = self.accounts.span();
        let is_span = wants.iter().all(|name| (low..=high).contains(name));
        holds(rt, is_span, "span");
        Ok(())
    }

    /// Asserts that each row owes the debts of its list, by all that can be asked, also after it was asked what some messages pay first.
    fn agree(&mut self, rt: &impl Abort) -> Done {
        self.pays_some_first(rt)?;
        self.owes_lists(rt)
    }

    /// Asserts that each row owes the debts of its list and has their print.
    fn owes_lists(&self, rt: &impl Abort) -> Done {
        holds(rt, self.accounts.len() == self.lists.len(), "count of rows");
        self.names_all(rt)?;
        let prints = self.accounts.prints(self.alloc, 0, 0)?;
        let fronts = self.accounts.prints(self.alloc, 0, FRONT)?;
        for (row, list) in self.lists.iter().enumerate() {
            self.owes_debts(rt, row, list)?;
            self.owes_names(rt, row, list)?;
            for (other, its) in self.lists.iter().enumerate() {
                self.has(rt, row);
                self.has(rt, other);
                let same = self.accounts.same(row, other);
                holds(rt, same == (list == its), "the same");
                let alike = prints.get(row) == prints.get(other);
                holds(rt, list != its || alike, "prints");
                let alike = fronts.get(row) == fronts.get(other);
                holds(rt, list != its || alike, "front prints");
                holds(rt, !alike || begin_alike(list, its), "fronts");
            }
        }
        Ok(())
    }
}

/// Of so many debts front prints tell the order.
const FRONT: usize = 2;

/// Whether the first debts of two lists, as many as front prints tell of, have the same messages and deadlines in the same order.
fn begin_alike(one: &[Debt], other: &[Debt]) -> bool {
    let front = one.iter().take(FRONT);
    let beside = other.iter().take(FRONT);
    front
        .map(|debt| (debt.message, debt.deadline))
        .eq(beside.map(|debt| (debt.message, debt.deadline)))
}

/// The list loses the first debt that a send of the message pays, if there is one, and what is past. Tells whether there was one.
fn pays(list: &mut Vec<Debt>, message: u64, moment: u64) -> bool {
    let mut debts = list.iter();
    let first = debts.position(|debt| debt.message == message && moment <= debt.deadline);
    if let Some(first) = first {
        list.remove(first);
    }
    expire(list, moment);
    first.is_some()
}

/// The list loses what may be sent and is past.
fn expire(list: &mut Vec<Debt>, moment: u64) {
    list.retain(|debt| debt.must || moment <= debt.deadline);
}

/// The least deadline of what must be sent.
fn earliest_must(list: &[Debt]) -> Option<u64> {
    let musts = list.iter().filter(|debt| debt.must);
    musts.map(|debt| debt.deadline).min()
}

/// A debt of the message.
pub(crate) fn owed(message: u64, deadline: u64, must: bool) -> Debt {
    Debt {
        message,
        deadline,
        must,
    }
}

/// Rows come and go.
fn change_rows(rt: &impl Abort, chance: &mut Chance, played: &mut Played) -> Done {
    let (row, other) = (played.row(chance), played.row(chance));
    played.has(rt, row);
    played.has(rt, other);
    match chance.below(8) {
        0 if played.lists.len() < 12 => played.push()?,
        1 | 2 if played.lists.len() < 12 => played.push_copy(rt, row)?,
        3 => {
            played.accounts.copy(row, other);
            played.lists[other] = played.lists[row].clone()?;
        }
        4 if played.lists.len() > 6 => played.truncate(),
        5 if played.lists.len() > 3 => played.keep_some()?,
        6 if chance.below(8) == 0 => {
            played.accounts.clear(row);
            played.lists[row].clear();
        }
        _ => played.accounts.tidy(),
    }
    Ok(())
}

/// Many rows change at once.
fn change_many(rt: &impl Abort, chance: &mut Chance, played: &mut Played, moment: u64) -> Done {
    let (from, to) = (played.row(chance), played.row(chance));
    let (message, later) = (chance.below(3), moment.saturating_add(5));
    match chance.below(6) {
        0 if played.lists.len() < 12 => played.push_some(from, to, None, moment)?,
        1 => {
            played.accounts.expire_each(from, moment)?;
            let lists = played.lists.iter_mut().skip(from);
            lists.for_each(|list| expire(list, moment));
        }
        2 => played.gain_each(from, owed(message, later, chance.below(2) == 0))?,
        3 if played.lists.len() > 6 => {
            played.accounts.drop_first(1);
            played.lists.remove(0);
        }
        _ if played.lists.len() < 12 => played.push_some(from, to, Some(message), moment)?,
        _ => played.truncate(),
    }
    Ok(())
}

/// A step by chance, each arm as often as it has numbers. Deadlines rise with the clock, or are one of 0, 10, 20 and 30.
fn step(rt: &impl Abort, chance: &mut Chance, played: &mut Played, rises: bool) -> Done {
    let row = played.row(chance);
    let now = played.clock;
    let moment = if rises { now } else { chance.below(40) };
    match chance.below(22) {
        0 => played.soften(rt, row),
        1 => played.clock = now.saturating_add(chance.below(3)),
        2 | 3 => played.expire(rt, row, moment)?,
        4..11 => played.pay_and_expire(rt, row, chance.below(4), moment)?,
        11..15 => change_rows(rt, chance, played)?,
        15..17 => change_many(rt, chance, played, moment)?,
        _ => {
            let later = now.saturating_add(5);
            let deadline = if rises { later } else { moment / 10 * 10 };
            let must = chance.below(2) == 0;
            for row in 0..played.lists.len() {
                if chance.below(3) != 0 {
                    played.gain_and_expire(rt, row, owed(chance.below(3), deadline, must), 0)?;
                }
            }
        }
    }
    played.agree(rt)
}

/// A step by chance, in which a row gains or pays, and loses what is past.
fn step_with_past(rt: &impl Abort, chance: &mut Chance, played: &mut Played) -> Done {
    let row = played.row(chance);
    let now = played.clock;
    let (message, later) = (chance.below(3), now.saturating_add(5));
    match chance.below(6) {
        0 => played.clock = now.saturating_add(chance.below(4)),
        1 if played.lists.len() < 6 => played.push_copy(rt, row)?,
        1 => played.soften(rt, row),
        2 | 3 => played.gain_and_expire(rt, row, owed(message, later, chance.below(2) == 0), now)?,
        _ => played.pay_and_expire(rt, row, message, now)?,
    }
    played.agree(rt)
}

/// Twelve seeds, of which every second one has deadlines that rise with the clock. Before them two rows gain a debt, the second after all that it owes,
/// while the first gains it at an earlier place. Once the second has paid the others, both owe the same by other places.
#[test]
fn accounts_owe_what_plain_lists_have(rt: HostRuntime) -> Done {
    let mut played = Played::new(&rt, 2)?;
    played.gain_and_expire(&rt, 1, owed(1, 10, true), 0)?;
    played.gain_and_expire(&rt, 1, owed(2, 10, true), 0)?;
    played.gain_each(0, owed(1, 10, true))?;
    played.agree(&rt)?;
    played.pay_and_expire(&rt, 1, 1, 10)?;
    played.pay_and_expire(&rt, 1, 2, 10)?;
    played.agree(&rt)?;
    for seed in 0..12 {
        let (mut chance, mut played) = (Chance(seed), Played::new(&rt, 1)?);
        for _ in 0..80 {
            step(&rt, &mut chance, &mut played, seed % 2 == 0)?;
        }
    }
    Ok(())
}

/// Four seeds of steps in which the clock goes on, and debts pass their deadlines.
#[test]
fn rows_gain_and_pay_and_lose_what_is_past(rt: HostRuntime) -> Done {
    for seed in 0..4 {
        let (mut chance, mut played) = (Chance(seed), Played::new(&rt, 1)?);
        for _ in 0..100 {
            step_with_past(&rt, &mut chance, &mut played)?;
        }
    }
    Ok(())
}

/// A row that comes once more as it pays loses what it may send and whose deadline is past.
#[test]
fn rows_that_pay_lose_what_is_past(rt: HostRuntime) -> Done {
    let mut played = Played::new(&rt, 1)?;
    played.gain_each(0, owed(1, 10, false))?;
    played.gain_each(0, owed(2, 20, true))?;
    played.push_some(0, 1, Some(2), 15)?;
    played.agree(&rt)
}

/// A row owes equal debts as often as it gained them, also about the counts at which a word of 64 bits would end.
#[test]
fn equal_debts_count_as_often_as_they_were_gained(rt: HostRuntime) -> Done {
    for count in [0, 1, 63, 64, 65] {
        let mut played = Played::new(&rt, 1)?;
        for _ in 0..count {
            played.gain_and_expire(&rt, 0, owed(7, 10, true), 0)?;
        }
        played.agree(&rt)?;
        // The row pays them, and once more.
        for _ in 0..=count {
            played.pay_and_expire(&rt, 0, 7, 10)?;
        }
        played.agree(&rt)?;
    }
    Ok(())
}

/// Two rows gain a debt at each moment, of one of five messages, pay another message, and lose what is past: what was gained long ago is dropped.
#[test]
fn what_is_owed_is_told_after_a_long_life(rt: HostRuntime) -> Done {
    let mut played = Played::new(&rt, 2)?;
    for moment in 0..150_u64 {
        let debt = owed(moment % 5, moment.saturating_add(3), moment % 7 == 0);
        for (row, ahead) in [(0, 3), (1, 4)] {
            played.gain_and_expire(&rt, row, debt, 0)?;
            played.pay_and_expire(&rt, row, moment.saturating_add(ahead) % 5, moment)?;
            played.expire(&rt, row, moment)?;
        }
        played.accounts.tidy();
        played.agree(&rt)?;
    }
    Ok(())
}

/// After a long common front two rows owe the same debts in another order, and then the same by other places.
#[test]
fn rows_meet_by_other_places(rt: HostRuntime) -> Done {
    let mut played = Played::new(&rt, 3)?;
    for _ in 0..10 {
        played.gain_each(0, owed(7, 10, true))?;
        played.gain_and_expire(&rt, 2, owed(3, 10, true), 0)?;
    }
    for (row, message) in [(0, 1), (1, 2), (0, 2), (1, 1)] {
        played.gain_and_expire(&rt, row, owed(message, 10, true), 0)?;
    }
    played.agree(&rt)?;
    played.pay_and_expire(&rt, 0, 2, 10)?;
    played.pay_and_expire(&rt, 1, 2, 10)?;
    played.agree(&rt)
}

/// The first row comes to owe a hundred messages, and pays them in a mixed order.
#[test]
fn one_row_pays_in_any_order(rt: HostRuntime) -> Done {
    let mut played = Played::new(&rt, 1)?;
    for message in 0..100 {
        played.gain_and_expire(&rt, 0, owed(message, 10, message % 2 == 0), 0)?;
    }
    for step in 0..100_u64 {
        // 37 and 100 have no common factor, so that each message is paid once.
        played.pay_and_expire(&rt, 0, step * 37 % 100, 5)?;
        played.accounts.tidy();
        played.agree(&rt)?;
    }
    Ok(())
}
