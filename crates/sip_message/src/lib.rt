//! SIP messages (RFC 3261, section 7), read exactly, and written in their canonical form.
#![tactic(auto)]

mod address;
mod asked;
mod canon;
mod cursor;
mod ends;
mod fault;
mod field;
mod kept;
pub mod laws;
mod message;
mod name;
mod number;
mod other;
mod params;
mod plain;
mod plain_start;
mod plain_values;
mod plain_via;
mod quick;
mod row;
mod stages;
mod start_line;
mod values;
mod via;
mod vias;

pub use crate::canon::write;
pub use crate::fault::ReadError;
pub use crate::message::Message;
pub use crate::start_line::StartLine;
pub use crate::values::CSeq;
pub use crate::via::Via;
pub use crate::vias::{Routes, Vias};
pub use sip_standard::{Fault, Reason, Unit};
