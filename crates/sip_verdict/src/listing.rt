//! The states of the transactions that an entry of a log concerns.
ghost use Rattle.std.specs.Prelude.{◌≡◌, true, false, IfSome, IfOk, OnOk, IsErrOf};
ghost use Rattle.sip_standard.specs.ListingOf.{IsListingOf};
ghost use Rattle.sip_verdict.specs.inner.Walking.{listed_after};

use crate::walking::{Aim, walk};
use sip_log::Source;
use sip_standard::{JudgeError, Listing, Verdict};
use std::alloc::Global;
use std::hash::BuildHasher;

/// What is listed of an entry where the walk ended with this verdict before it.
pub(crate) fn listing_after(verdict: Verdict) -> Listing
    ensures { result ≡ listed_after verdict }
{
    match verdict {
        // A legal log ended before it had an entry with the number that was asked.
        Verdict::Legal { .. } => Listing::NoEntry,
        _ => Listing::Stopped(verdict),
    }
}

/// The states in which the transactions of an entry can stand after it: for each transaction that it concerns, its own
/// first, the line `transaction T ROLE METHOD states COUNT`, and for each state a line after two blanks, in ascending order
/// of their bytes; `no transaction` where it concerns none. A message is told by the number of the first entry with its bytes.
///
/// Entries are numbered from 1. That nothing after the listed entry is read is tested and not proved. `JudgeError::Io` is answered
/// only if the reader failed in this call, and after an error the reader is used up to a place that is not said.
pub fn states_at<R: Source, H: BuildHasher + Drop>(
    alloc: Global,
    reader: &mut R,
    hasher: H,
    entry: u64,
) -> Result<Listing, JudgeError>
    requires { R.has_failed reader.old ≡ false }
    ensures listing { IfOk result (λ listing. IfSome (R.left reader.old) (λ input. IsListingOf input entry listing)) }
    ensures ok { OnOk result (R.has_failed reader.new ≡ false) }
    ensures io { IsErrOf result JudgeError.Io → R.has_failed reader.new ≡ true }
{
    match walk(alloc, reader, hasher, Aim::Entry(entry))? {
        Ok(listing) => Ok(listing),
        Err(verdict) => Ok(listing_after(verdict)),
    }
}
