//! How the log of a survey ends.
use sip_standard::LogReason;

/// How the log of a survey ends. Entries are numbered from 1; a fault of the header is at entry 0.
#[derive(Clone, Copy, Debug, PartialEq, Eq)]
pub enum SurveyEnd {
    /// The log was read to its end, and has this many entries and transactions.
    Clean { entries: u64, transactions: u64 },
    /// This entry of the log cannot be read.
    LogFault { entry: u64, reason: LogReason },
}
