//! What an entry of a log says was done.

/// What an entry of a log says was done: of a message, or without one. A mark tells that a moment was reached, and a
/// restart that the element began anew.
#[derive(Clone, Copy, Debug, PartialEq, Eq)]
pub enum Action {
    Sent,
    Received,
    /// A send that the transport refused.
    Failed,
    Mark,
    Restart,
}
