//! The phases of the INVITE client transaction (RFC 3261 section 17.1.1, with the accepted state of RFC 6026).

use crate::waiting::Waiting;
use std::hash::Hash;

/// A phase of the INVITE client transaction. Moments are in milliseconds, and messages are numbers of the `Book`.
#[derive(Clone, Copy, Debug, PartialEq, Eq, Hash)]
pub enum InviteClientPhase {
    /// No INVITE was sent yet.
    Idle,
    /// The INVITE waits for a response: timer B gives it up, and timer A sends it again.
    Calling(Waiting),
    /// A provisional response came, and `cancel` is when the INVITE was first cancelled.
    Proceeding {
        reliable: bool,
        request: u64,
        cancel: Option<u64>,
    },
    /// A success came at the moment `set`, which starts timer M.
    Accepted {
        set: u64,
    },
    /// Another final response came at the moment `set`, which starts timer D. For it, and for each one that came after
    /// it, an ACK is owed until it is sent.
    Completed {
        reliable: bool,
        request: u64,
        set: u64,
    },
    /// The transaction is over.
    Ended,
}
