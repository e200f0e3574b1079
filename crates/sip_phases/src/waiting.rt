//! A request that a client sent, and that waits for its response (RFC 3261 sections 17.1.1.2 and 17.1.2.2).

use std::hash::Hash;

/// A request that waits for its response. Moments and intervals are in milliseconds.
#[derive(Clone, Copy, Debug, PartialEq, Eq, Hash)]
pub struct Waiting {
    /// Whether its transport is reliable.
    pub reliable: bool,
    /// Its number in the `Book`.
    pub request: u64,
    /// When it was first sent: timer B of an INVITE, and F of any other, runs from here.
    pub start: u64,
    /// When timer A of an INVITE, and E of any other, was set last.
    pub set: u64,
    /// How long the timer was set for.
    pub interval: u64,
}
