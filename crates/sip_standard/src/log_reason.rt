//! Why a log cannot be read on.
ghost use Rattle.std.specs.Prelude.{◌≡◌};
ghost use Rattle.sip_standard.specs.Reason.{log_reason_number, log_reason_name};

/// Why an entry of a log, or its header, cannot be read.
#[derive(Clone, Copy, Debug, PartialEq, Eq)]
pub enum LogReason {
    /// The first two lines are not the header.
    Header,
    /// The line is no entry's, or the byte after a message is no line feed.
    EntryLine,
    /// The input ends within an entry.
    Truncated,
    /// The moment is below that of the entry before.
    Order,
    /// A moment or a length is outside the limits, or there are more than 1,000,000 entries.
    Limit,
}

impl LogReason {
    /// The number by which a verdict names it.
    pub fn number(self) -> u8
        ensures { result ≡ log_reason_number self }
    {
        match self {
            LogReason::Header => 20,
            LogReason::EntryLine => 21,
            LogReason::Truncated => 22,
            LogReason::Order => 23,
            LogReason::Limit => 24,
        }
    }

    /// The name that stands after the number.
    pub fn name(self) -> &'static str
        ensures { result.now ≡ log_reason_name self }
    {
        match self {
            LogReason::Header => "Header",
            LogReason::EntryLine => "EntryLine",
            LogReason::Truncated => "Truncated",
            LogReason::Order => "Order",
            LogReason::Limit => "Limit",
        }
    }
}
