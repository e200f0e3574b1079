//! A verdict in plain numbers.
ghost use Rattle.std.specs.Prelude.{◌≡◌};
ghost use Rattle.c_siptrace.specs.Plain.{line_of, plain, unit_number};
ghost use Rattle.sip_standard.specs.declared.verdict.Verdict.TheVariants.{LogFault, Malformed};

use sip_verdict::{Fault, LogReason, Unit, Verdict};

/// A verdict in plain numbers. A number that its kind does not have is 0.
#[repr(C)]
#[derive(Clone, Copy, Debug, PartialEq, Eq)]
pub struct PlainVerdict {
    /// 1 for a legal log, 2 for a malformed message, 3 for a breach, 4 for an undecided log, 5 for a fault of the log.
    pub kind: u32,
    /// For a legal log: how many entries it has.
    pub entries: u64,
    /// For a legal log: how many transactions its entries concern.
    pub transactions: u64,
    /// For any verdict but legal: the number of its entry, from 1 on, and 0 for a fault of the header.
    pub entry: u64,
    /// For a breach and an undecided log: the number of the transaction, from 1 on.
    pub transaction: u64,
    /// The number of the reason: 1 to 12 for a malformed message, 20 to 24 for a fault of the log.
    pub reason: u32,
    /// For a malformed message: where its fault is, which is 1 for the head, 2 for a line and 3 for the body.
    pub unit: u32,
    /// For a fault in a line: the number of the logical line, from 0 for the start line.
    pub line: usize,
}

/// A verdict all of whose numbers are 0. Each kind sets those that it has.
const NOTHING: PlainVerdict = PlainVerdict {
    kind: 0,
    entries: 0,
    transactions: 0,
    entry: 0,
    transaction: 0,
    reason: 0,
    unit: 0,
    line: 0,
};

/// Where a fault is, as a number.
fn unit_number(unit: Unit) -> u32
    ensures { result ≡ unit_number unit }
{
    match unit {
        Unit::Head => 1,
        Unit::Line(_) => 2,
        Unit::Body => 3,
    }
}

/// The logical line of a fault, and 0 where the fault is in no line.
fn line_of(unit: Unit) -> usize
    ensures { result ≡ line_of unit }
{
    match unit {
        Unit::Line(number) => number,
        Unit::Head | Unit::Body => 0,
    }
}

impl PlainVerdict {
    /// The verdict in plain numbers.
    pub(crate) fn of(verdict: &Verdict) -> PlainVerdict
        ensures { result ≡ plain verdict.now }
    {
        match *verdict {
            Verdict::Legal {
                entries,
                transactions,
            } => PlainVerdict {
                kind: 1,
                entries,
                transactions,
                ..NOTHING
            },
            Verdict::Malformed { entry, fault } => PlainVerdict::malformed(entry, fault),
            Verdict::Breach { entry, transaction } => PlainVerdict {
                kind: 3,
                entry,
                transaction,
                ..NOTHING
            },
            Verdict::Undecided { entry, transaction } => PlainVerdict {
                kind: 4,
                entry,
                transaction,
                ..NOTHING
            },
            Verdict::LogFault { entry, reason } => PlainVerdict::log_fault(entry, reason),
        }
    }

    /// The plain verdict of a malformed entry.
    fn malformed(entry: u64, fault: Fault) -> PlainVerdict
        ensures { result ≡ plain (Malformed entry fault) }
    {
        PlainVerdict {
            kind: 2,
            entry,
            reason: u32::from(fault.reason.number()),
            unit: unit_number(fault.unit),
            line: line_of(fault.unit),
            ..NOTHING
        }
    }

    /// The plain verdict of a log that cannot be read on.
    fn log_fault(entry: u64, reason: LogReason) -> PlainVerdict
        ensures { result ≡ plain (LogFault entry reason) }
    {
        PlainVerdict {
            kind: 5,
            entry,
            reason: u32::from(reason.number()),
            ..NOTHING
        }
    }
}
