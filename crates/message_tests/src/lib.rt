//! Tests of `sip_message` on whole messages: what each comes to, row by row.
#![tactic(auto)]

#[cfg(test)]
mod agree;
#[cfg(test)]
mod answer;
#[cfg(test)]
mod changed;
#[cfg(test)]
mod folded;
#[cfg(test)]
mod growths;
#[cfg(test)]
mod ipv6;
#[cfg(test)]
mod rows;
#[cfg(test)]
mod tests;
#[cfg(test)]
mod told;
#[cfg(test)]
mod torture;
#[cfg(test)]
mod wants;
