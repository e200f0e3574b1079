//! The phases of the non-INVITE server transaction (RFC 3261 section 17.2.2).

use std::hash::Hash;

/// A phase of the non-INVITE server transaction. Moments are in milliseconds, and messages are numbers of the `Book`.
#[derive(Clone, Copy, Debug, PartialEq, Eq, Hash)]
pub enum PlainServerPhase {
    /// No request was received yet, or the transaction is over and may start again.
    Idle,
    /// The request was received, and nothing was sent.
    Trying {
        /// Whether the transport of the request is reliable.
        reliable: bool,
    },
    /// Provisional responses were sent, of which `last` is the last one.
    Proceeding {
        reliable: bool,
        last: u64,
    },
    /// The final response was sent at the moment `set`, which starts timer J.
    Completed {
        reliable: bool,
        final_message: u64,
        set: u64,
    },
}
