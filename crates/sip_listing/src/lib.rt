//! The states of transactions as text (RFC 3261 section 17): a line for each state.
#![tactic(auto)]

mod fields;
mod lines;
mod state;
mod transaction;

pub use transaction::push_transaction;
