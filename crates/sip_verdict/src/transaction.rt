//! A transaction as a survey tells it.
use sip_key::Key;

/// A transaction, as a survey tells it of the entries that it has taken.
#[derive(Clone, Copy)]
pub struct Transaction<'a> {
    pub key: &'a Key,
    /// The branch of the first message that concerns it, as it is spelled there.
    pub branch: &'a [u8],
    /// The number of the first entry that concerns it.
    pub first: u64,
    /// The number of the last entry that concerns it.
    pub last: u64,
}
