//! Sets of numbers, 64 to a word.
#![tactic(auto)]

mod numbers;

pub use crate::numbers::Numbers;
