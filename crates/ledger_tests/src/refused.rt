//! Calls on accounts in which a growth is refused. `tests/growths` refuses each growth in turn: the test then fails with want of memory, once it has
//! seen that the call left all as it was, and that the same call succeeds with memory.
use crate::accounts::owed;
use crate::wants::{Done, holds};
use sip_ledger::Accounts;
use std::alloc::AllocError;
use std::process::Abort;

/// Asserts that two accounts have the same rows.
fn alike(rt: &(impl Abort + AllocGlobal), [accounts, twin]: &[Accounts; 2]) -> Done {
    holds(rt, accounts.len() == twin.len(), "count of rows");
    for row in 0..accounts.len() {
        let owed = accounts.runs(rt.alloc(), row)?;
        let owes = twin.runs(rt.alloc(), row)?;
        holds(rt, owed.as_slice() == owes.as_slice(), "debts");
    }
    Ok(())
}

/// Makes one of eight calls, by the number of the step, with one of three messages.
fn step(rt: &impl Abort, accounts: &mut Accounts, number: u32) -> Result<(), AllocError> {
    let moment = u64::from(number);
    let message = moment % 3;
    let debt = owed(message, moment + 9, number % 2 == 0);
    let rows = accounts.len();
    holds(rt, 1 < rows, "two rows");
    match number % 8 {
        0 => accounts.push(),
        1 => accounts.push_copy(0),
        2 | 3 => accounts.gain_and_expire(0, debt, moment),
        4 => accounts.gain_and_expire(1, debt, 0),
        5 => accounts.pay_and_expire(0, message, moment),
        6 => accounts.push_paid(0, rows, message, moment),
        _ => accounts.push_timely(0, rows, moment),
    }
}

/// Both accounts take the step, and the first tells which messages rows owe, each by a second call where memory is refused. Both have the same rows then.
fn step_again(rt: &(impl Abort + AllocGlobal), both: &mut [Accounts; 2], number: u32) -> Done {
    let done = step(rt, &mut both[0], number);
    if done.is_err() {
        alike(rt, both)?;
        step(rt, &mut both[0], number)?;
    }
    step(rt, &mut both[1], number)?;
    alike(rt, both)?;
    let mut names = Vec::new(rt.alloc());
    let asked = both[0].all_names(&mut names);
    if asked.is_err() {
        holds(rt, names.is_empty(), "no names");
        both[0].all_names(&mut names)?;
    }
    // All debts of `step` are of the messages 0, 1 and 2.
    holds(rt, names.iter().all(|number| *number < 3), "names");
    Ok(done.and(asked)?)
}

/// Two accounts of few rows take the same 48 steps: where memory is refused to the first, it has to be as the second, which has not taken the step yet.
#[test]
fn accounts_are_as_before_after_a_refused_growth(rt: HostRuntime) -> Done {
    let mut both = [Accounts::new(rt.alloc()), Accounts::new(rt.alloc())];
    for accounts in &mut both {
        accounts.push()?;
        accounts.push()?;
    }
    for number in 0..48_u32 {
        step_again(&rt, &mut both, number)?;
        if number % 8 == 7 {
            for accounts in &mut both {
                accounts.tidy();
                accounts.truncate(3);
            }
        }
    }
    Ok(())
}
