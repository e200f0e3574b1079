//! The sums of a survey, in plain numbers.
ghost use Rattle.std.specs.Prelude.{◌≡◌};
ghost use Rattle.c_siptrace.specs.Plain.{plain_summary};

use sip_verdict::SurveyEnd;

/// The sums of a survey, in plain numbers. A number that the end of the log does not have is 0.
#[repr(C)]
#[derive(Clone, Copy, Debug, PartialEq, Eq)]
pub struct PlainSummary {
    /// How many findings there are.
    pub findings: usize,
    /// 1 where the log was read to its end, 2 where it was read up to a fault.
    pub end: u32,
    /// For a log that was read to its end: how many entries it has.
    pub entries: u64,
    /// For a log that was read to its end: how many transactions its entries concern.
    pub transactions: u64,
    /// For a fault of the log: the number of its entry, from 1 on, and 0 for a fault of the header.
    pub entry: u64,
    /// For a fault of the log: the number of the reason, 20 to 24.
    pub reason: u32,
}

impl PlainSummary {
    /// The sums of this many findings and of how the log ends, in plain numbers.
    pub(crate) fn of(findings: usize, end: &SurveyEnd) -> PlainSummary
        ensures { result ≡ plain_summary findings end.now }
    {
        // An `end` of 1 is that of a log read to its end, and 2 that of a fault. What does not belong to it is 0.
        match *end {
            SurveyEnd::Clean {
                entries,
                transactions,
            } => PlainSummary {
                findings,
                end: 1,
                entries,
                transactions,
                entry: 0,
                reason: 0,
            },
            SurveyEnd::LogFault { entry, reason } => PlainSummary {
                findings,
                end: 2,
                entries: 0,
                transactions: 0,
                entry,
                reason: u32::from(reason.number()),
            },
        }
    }
}
