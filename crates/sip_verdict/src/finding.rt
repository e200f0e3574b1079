//! What is found at an entry of a log.
ghost use Rattle.std.specs.Prelude.{◌≡◌};
ghost use Rattle.sip_verdict.specs.SurveyOf.{verdict_of};

use sip_standard::{Fault, Verdict};

/// What a survey finds at an entry. Entries and transactions are numbered from 1, as in a verdict.
#[derive(Clone, Copy, Debug, PartialEq, Eq)]
pub enum Finding {
    /// The message of the entry has a fault, or is a request that was sent, or refused, without the cookie in its top branch.
    Malformed { entry: u64, fault: Fault },
    /// After the entry the transaction has no run, and it was in no trouble before.
    Breach { entry: u64, transaction: u64 },
    /// The runs of the transaction can stand after the entry in more states than a survey follows, and it was in no trouble before.
    Undecided { entry: u64, transaction: u64 },
}

impl From<Finding> for Verdict {
    // A finding becomes the verdict that tells the same.
    ghost from_gives = { λ finding verdict. verdict ≡ verdict_of finding };

    fn from(finding: Finding) -> Self {
        match finding {
            Finding::Malformed { entry, fault } => Verdict::Malformed { entry, fault },
            Finding::Breach { entry, transaction } => Verdict::Breach { entry, transaction },
            Finding::Undecided { entry, transaction } => Verdict::Undecided { entry, transaction },
        }
    }
}
