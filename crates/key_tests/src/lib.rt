//! Tests of `sip_key` on whole messages: their keys, and the ACKs of an INVITE.
#![tactic(auto)]

#[cfg(test)]
mod tests;
#[cfg(test)]
mod told;
#[cfg(test)]
mod wants;
