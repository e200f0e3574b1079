//! What one must believe of SIP (RFC 3261) to read what this repository proves: the definitions that its contracts cite, each once, in the
//! order in which one reads, and the types that entries and answers are made of. `specs/` has a file for each noun: sets of texts, case, characters,
//! the profile of the grammar, what a message says, or why bytes are no message, keys, times and windows, what an input says as a log, the six machines,
//! runs, the verdict, what is shown of a log, what is listed of an entry, and what the words of the program ask for and get. `Judges` and `Program`
//! are the theorem over them.
#![tactic(auto)]

mod action;
mod asked;
mod broken;
mod failure;
mod fault;
mod format;
mod judge_error;
mod judges;
mod kind;
pub mod laws;
mod listing;
mod log_reason;
mod output;
mod program;
mod role;
mod rules;
mod show_error;
mod shown;
mod sink;
mod source;
mod system;
mod verdict;

pub use crate::fault::{Fault, Reason, Unit};
pub use action::Action;
pub use asked::Asked;
pub use broken::Broken;
pub use failure::Failure;
pub use format::Format;
pub use judge_error::JudgeError;
pub use judges::Judges;
pub use kind::{Kind, Method};
pub use listing::Listing;
pub use log_reason::LogReason;
pub use output::Output;
pub use program::Program;
pub use role::{Direction, Role};
pub use rules::Rules;
pub use show_error::ShowError;
pub use shown::Shown;
pub use sink::Sink;
pub use source::Source;
pub use system::System;
pub use verdict::Verdict;
