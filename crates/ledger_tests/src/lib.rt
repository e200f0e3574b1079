//! Tests of `sip_ledger`: rows beside plain lists of debts.
#![tactic(auto)]

#[cfg(test)]
mod accounts;
#[cfg(test)]
mod chance;
#[cfg(test)]
mod numbers;
#[cfg(test)]
mod refused;
#[cfg(test)]
mod wants;
