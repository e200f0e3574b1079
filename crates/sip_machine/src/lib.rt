//! Machines of SIP transactions (RFC 3261 section 17): what they may send and receive, and when.
#![tactic(auto)]

mod book;
mod dues;
mod effects;
mod event;
mod hashed;
mod invite_client;
mod invite_client_3261;
mod invite_server;
mod invite_server_3261;
pub mod laws;
mod limit;
mod machine;
mod owing;
mod paying;
mod phases;
mod plain_client;
mod plain_server;
mod pool;
mod provisional;
mod retransmits;
mod slots;
mod timers;
mod told;
mod tos;
mod waiting;

pub use book::Book;
pub use dues::Dues;
pub use event::Event;
pub use invite_client::InviteClient;
pub use invite_client_3261::InviteClient3261;
pub use invite_server::InviteServer;
pub use invite_server_3261::InviteServer3261;
pub use machine::Machine;
pub use phases::{Change, Phase, Phases, Turn};
pub use plain_client::PlainClient;
pub use plain_server::PlainServer;
pub use pool::Pool;
pub use sip_ledger::{Debt, Run};
pub use sip_phases::{
    InviteClientPhase, InviteServer3261Phase, InviteServerPhase, PlainClientPhase,
    PlainServerPhase, Waiting,
};
pub use sip_standard::{Kind, Method};
pub use sip_times::{Action, Params, Rules};
pub use told::{Told, ToldField};
