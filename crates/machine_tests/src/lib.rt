//! Tests of `sip_machine`: where each machine leads and when it ends, row by row.
#![tactic(auto)]

#[cfg(test)]
mod acks;
#[cfg(test)]
mod event;
#[cfg(test)]
mod invite_client;
#[cfg(test)]
mod invite_server;
#[cfg(test)]
mod messages;
#[cfg(test)]
mod plain_client;
#[cfg(test)]
mod plain_server;
#[cfg(test)]
mod pool;
#[cfg(test)]
mod rows;
#[cfg(test)]
mod rules_3261;
#[cfg(test)]
mod runs;
#[cfg(test)]
mod tests;
#[cfg(test)]
mod times;
#[cfg(test)]
mod wants;
