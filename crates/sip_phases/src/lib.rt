//! The phases of SIP transactions (RFC 3261 section 17): where a transaction may stand, with the data that belongs to it.
#![tactic(auto)]

mod invite_client;
mod invite_server;
mod invite_server_3261;
mod plain_client;
mod plain_server;
mod waiting;

pub use invite_client::InviteClientPhase;
pub use invite_server::InviteServerPhase;
pub use invite_server_3261::InviteServer3261Phase;
pub use plain_client::PlainClientPhase;
pub use plain_server::PlainServerPhase;
pub use waiting::Waiting;
