//! The status that the program ends with where it has its answer.
ghost use Rattle.std.specs.Prelude.{◌≡◌};
ghost use Rattle.sip_standard.specs.Status.{status_of, status_of_shown, status_of_listing};

use sip_verdict::{Listing, Shown, Verdict};

/// The status that a verdict ends the program with.
pub fn status_of(verdict: &Verdict) -> u8
    ensures { result ≡ status_of verdict.now }
{
    // 0 is that nothing is wrong, 1 that something in the log is, 2 that the log cannot be read, and 3 that the judge has given up a transaction.
    match verdict {
        Verdict::Legal { .. } => 0,
        Verdict::Malformed { .. } | Verdict::Breach { .. } => 1,
        Verdict::LogFault { .. } => 2,
        Verdict::Undecided { .. } => 3,
    }
}

/// The status that the program ends with after it has shown a log.
pub fn status_of_shown(shown: &Shown) -> u8
    ensures { result ≡ status_of_shown shown.now }
{
    // 0 is that the log was shown whole, 1 that a message stopped it, and 2 that the log cannot be read on.
    match shown {
        Shown::End { .. } => 0,
        Shown::Malformed { .. } => 1,
        Shown::LogFault { .. } => 2,
    }
}

/// The status that the program ends with after it has listed the states of an entry, or said why it cannot.
pub fn status_of_listing(listing: &Listing) -> u8
    ensures { result ≡ status_of_listing listing.now }
{
    // 0 is that the states are listed. Where the log stops before the entry the status is that of its verdict, and where it has no such entry 2.
    match listing {
        Listing::Text(_) => 0,
        Listing::Stopped(verdict) => status_of(verdict),
        Listing::NoEntry => 2,
    }
}
