//! What was shown of a log.
use crate::fault::Fault;
use crate::log_reason::LogReason;

/// How a log that is shown ends. Entries are numbered from 1; a fault of the header is at entry 0.
#[derive(Clone, Copy, Debug, PartialEq, Eq)]
pub enum Shown {
    /// The log was shown to its end.
    End { entries: u64 },
    /// The message of the entry has a fault.
    Malformed { entry: u64, fault: Fault },
    /// The entry cannot be read.
    LogFault { entry: u64, reason: LogReason },
}
