//! What the theorem's definitions imply, in the words of RFC 3261. The functions do nothing: their contracts are the laws.
#![tactic(auto)]

pub mod invite_client;
pub mod invite_server;
pub mod plain_client;
pub mod plain_server;
pub mod restarts;
pub mod tolerance;
pub mod verdicts;
