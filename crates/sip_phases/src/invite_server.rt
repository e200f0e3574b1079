//! The phases of the INVITE server transaction (RFC 3261 section 17.2.1, RFC 6026).

use std::hash::Hash;

/// A phase of the INVITE server transaction. Moments and intervals are in milliseconds, and messages
/// are numbers of the `Book`.
#[derive(Clone, Copy, Debug, PartialEq, Eq, Hash)]
pub enum InviteServerPhase {
    /// No INVITE was received yet, or the transaction is over and may start again.
    Idle,
    /// The INVITE was received at the moment `set`, and no final response was sent.
    Proceeding {
        /// Whether the transport of the INVITE is reliable.
        reliable: bool,
        set: u64,
        /// The last provisional response.
        last: Option<u64>,
    },
    /// The first 2xx was sent at the moment `set`, which starts timer L.
    Accepted {
        set: u64,
    },
    /// A final response of 300 to 699 was sent at the moment `set`, which starts timer H.
    Completed {
        reliable: bool,
        final_message: u64,
        set: u64,
        /// The moment at which timer G was set last.
        repeat: u64,
        /// How long timer G was set for.
        interval: u64,
    },
    /// The ACK was received at the moment `set`, which starts timer I.
    Confirmed {
        reliable: bool,
        set: u64,
    },
}
