//! What an event does to a state, and how that is done to what the state owes.
ghost use Rattle.std.specs.Prelude.{◌≡◌, ◌<◌, ◌≤◌, ◌++◌, OnOk, OnErr, drop, length, map, set, filter, take};
ghost use Rattle.sip_ledger.specs.Debts.{counts_at};
ghost use Rattle.sip_standard.specs.Times.{last_moment};
ghost use Rattle.sip_machine.specs.Owes.{owed_in};
ghost use Rattle.sip_machine.specs.inner.Turns.{changed_debts};
ghost use Rattle.sip_machine.specs.inner.Effects.{rested_debts};

use crate::dues::{Done, Dues, Rows};
use crate::phases::{Change, Turn};
use sip_ledger::Debt;
use sip_times::Params;
use std::alloc::Global;

/// What an event does to a state: a row may lead on, and a sent message may leave the phase as it is. Where neither is so,
/// the event has no step.
#[derive(Clone, Copy)]
pub(crate) struct Effect<P> {
    /// Where a row leads.
    pub turn: Option<Turn<P>>,
    /// How the phase stays, if it does.
    pub rest: Option<Rest>,
}

/// How a sent message leaves the phase as it is.
#[derive(Clone, Copy)]
pub(crate) enum Rest {
    /// Nothing changes.
    Stays,
    /// It pays the first debt that a send of the message with this number pays.
    Pays(u64),
}

/// Drops what has expired of what the state owes, and does to the rest what the row does. On an error all is as before.
#[inline(always)]
#[tactic(auto, using(crate::proofs::debts::DueLemmas::set_again, crate::proofs::debts::DuesEachLemmas::of_blank))]
pub(crate) fn lead(
    alloc: Global,
    params: &Params,
    moment: u64,
    change: Change,
    dues: &mut Dues,
    row: usize,
) -> Done
    requires moment { moment ≤ last_moment }
    requires row { row < length dues.old }
    ensures ok { OnOk result (dues.new ≡ set dues.old row (changed_debts params.now moment change (filter (counts_at moment) (owed_in dues.old row)))) }
    ensures err { OnErr result (dues.new ≡ dues.old) }
{
    match change {
        Change::Keeps => dues.expire(row, moment)?,
        Change::Softens => {
            if let Rows::WithAccounts(accounts) = &mut dues.rows {
                accounts.expire(row, moment)?;
                accounts.soften(row);
            }
        }
        Change::Drops => {
            if let Rows::WithAccounts(accounts) = &mut dues.rows {
                accounts.clear(row);
            }
        }
        Change::Gains { must, message } => {
            // What is new counts at its own moment, so that it may come before what has expired goes.
            let debt = Debt {
                message,
                deadline: params.deadline(moment),
                must,
            };
            dues.gain_and_expire(alloc, row, debt, moment)?;
        }
    }
    Ok(())
}

/// Drops what has expired of what each row from `from` on owes, and does to the rest what the row does. On an error the rows before them are as before.
pub(crate) fn lead_each(
    alloc: Global,
    params: &Params,
    moment: u64,
    change: Change,
    dues: &mut Dues,
    from: usize,
) -> Done
    requires { moment ≤ last_moment }
    ensures ok { OnOk result (dues.new ≡ take from dues.old ++ map (λ owes. changed_debts params.now moment change (filter (counts_at moment) owes)) (drop from dues.old)) }
    ensures err { OnErr result (take from dues.new ≡ take from dues.old) }
{
    match change {
        Change::Keeps => dues.expire_each(from, moment)?,
        Change::Softens | Change::Drops => lead_rows(alloc, params, moment, change, dues, from)?,
        Change::Gains { must, message } => {
            // What is new counts at its own moment, so that it may come before what has expired goes.
            let debt = Debt {
                message,
                deadline: params.deadline(moment),
                must,
            };
            dues.gain_each(alloc, from, debt)?;
            dues.expire_each(from, moment)?;
        }
    }
    Ok(())
}

/// Does to what each row from `from` on owes what the row does, row by row.
fn lead_rows(
    alloc: Global,
    params: &Params,
    moment: u64,
    change: Change,
    dues: &mut Dues,
    from: usize,
) -> Done
    requires { moment ≤ last_moment }
    ensures ok { OnOk result (dues.new ≡ take from dues.old ++ map (λ owes. changed_debts params.now moment change (filter (counts_at moment) owes)) (drop from dues.old)) }
    ensures err { OnErr result (take from dues.new ≡ take from dues.old) }
{
    for row in from..dues.len() {
        lead(alloc, params, moment, change, dues, row)?;
    }
    Ok(())
}

/// Leaves the phase as it is: drops what has expired of what the state owes, and takes out the debt that is paid, if one is. On an error all is
/// as before.
#[inline(always)]
#[tactic(auto, using(crate::proofs::debts::DuesEachLemmas::of_blank))]
pub(crate) fn come_to_rest(moment: u64, rest: Rest, dues: &mut Dues, row: usize) -> Done
    requires { row < length dues.old }
    ensures ok { OnOk result (dues.new ≡ set dues.old row (rested_debts moment rest (owed_in dues.old row))) }
    ensures err { OnErr result (dues.new ≡ dues.old) }
{
    match rest {
        Rest::Stays => dues.expire(row, moment),
        Rest::Pays(message) => match &mut dues.rows {
            Rows::WithAccounts(accounts) => accounts.pay_and_expire(row, message, moment),
            Rows::Blank(_) => Ok(()),
        },
    }
}
