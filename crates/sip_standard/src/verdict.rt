//! What is said of a log.
use crate::fault::Fault;
use crate::log_reason::LogReason;

/// The verdict on a log. Entries and transactions are numbered from 1; a fault of the header is at entry 0.
#[derive(Clone, Copy, Debug, PartialEq, Eq)]
pub enum Verdict {
    /// Each message is one by the profile of RFC 3261's grammar, and every transaction has a run that sends and receives
    /// exactly its messages at their moments.
    Legal { entries: u64, transactions: u64 },
    /// The message of the entry has a fault, or is a request that was sent, or refused, without the cookie in its top branch.
    Malformed { entry: u64, fault: Fault },
    /// After the entry the transaction has no run.
    Breach { entry: u64, transaction: u64 },
    /// The runs of the transaction can stand in more states after the entry than are followed.
    Undecided { entry: u64, transaction: u64 },
    /// The entry cannot be read.
    LogFault { entry: u64, reason: LogReason },
}
