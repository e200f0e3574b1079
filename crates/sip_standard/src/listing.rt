//! What is listed of an entry of a log.
use crate::verdict::Verdict;

/// What is listed of an entry of a log.
#[derive(Debug, Drop)]
pub enum Listing {
    /// For each transaction that the entry concerns a line, and a line for each of its states; or `no transaction`.
    Text(String),
    /// The entry, or one before it, is in trouble: this is the verdict.
    Stopped(Verdict),
    /// The log has no such entry.
    NoEntry,
}
