//! The times of an element (RFC 3261 section 17), from when until when its timers may fire, the rules that it was built
//! by, and what an entry of a log says was done.
#![tactic(auto)]

mod params;

pub use params::Params;
pub use sip_standard::{Action, Rules};
