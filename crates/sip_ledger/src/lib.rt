//! What the states of one set owe: one list of what they gained for all of them, and for each state a row, which tells what of that list it owes.
#![tactic(auto)]

mod accounts;
mod debt;
mod run;

pub use crate::accounts::Accounts;
pub use crate::debt::Debt;
pub use crate::run::Run;
