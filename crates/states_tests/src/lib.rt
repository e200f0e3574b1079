//! Tests of `sip_states` with the machines of SIP: which states sets have, and which keys tables have.
#![tactic(auto)]

#[cfg(test)]
mod agenda;
#[cfg(test)]
mod growths;
#[cfg(test)]
mod keys;
#[cfg(test)]
mod played;
#[cfg(test)]
mod rows;
#[cfg(test)]
mod sets;
#[cfg(test)]
mod sweep;
#[cfg(test)]
mod tables;
#[cfg(test)]
mod told;
#[cfg(test)]
mod wants;
#[cfg(test)]
mod width;
