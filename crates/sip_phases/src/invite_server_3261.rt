//! The phases of the INVITE server transaction of RFC 3261 section 17.2.1, without the accepted state of RFC 6026.

use crate::invite_server::InviteServerPhase;
use std::hash::Hash;

/// A phase of the INVITE server transaction of an element that was built before RFC 6026.
#[derive(Clone, Copy, Debug, PartialEq, Eq, Hash)]
pub enum InviteServer3261Phase {
    /// A 2xx was sent: from then on it is the user that sends it again, and the INVITE may come again.
    Passed,
    /// A phase of `InviteServer`: before any 2xx, or since the INVITE came again after one.
    In {
        /// The phase, as `InviteServer` has it; it is never accepted.
        phase: InviteServerPhase,
        /// Whether the INVITE came again after a 2xx.
        again: bool,
    },
}
