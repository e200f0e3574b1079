//! The phases of the non-INVITE client transaction (RFC 3261 section 17.1.2).

use crate::waiting::Waiting;
use std::hash::Hash;

/// A phase of the non-INVITE client transaction. Moments are in milliseconds.
#[derive(Clone, Copy, Debug, PartialEq, Eq, Hash)]
pub enum PlainClientPhase {
    /// Nothing was sent yet.
    Idle,
    /// The request waits for a response: timer F gives it up, and timer E sends it again.
    Trying(Waiting),
    /// A provisional response came, and timers E and F run on.
    Proceeding(Waiting),
    /// A final response came at the moment `set`, which starts timer K.
    Completed { reliable: bool, set: u64 },
    /// The transaction is over.
    Ended,
}
