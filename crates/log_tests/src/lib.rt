//! Tests of `sip_log`: rows of the format, read in pieces of any size and written again.
#![tactic(auto)]

#[cfg(test)]
mod ahead;
#[cfg(test)]
mod devices;
#[cfg(test)]
mod formats;
#[cfg(test)]
mod references;
#[cfg(test)]
mod retries;
#[cfg(test)]
mod tests;
#[cfg(test)]
mod told;
#[cfg(test)]
mod wants;
