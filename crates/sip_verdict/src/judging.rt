//! Judges a log from its first byte to its verdict.
ghost use Rattle.std.specs.Prelude.{◌≡◌, true, false, IfSome, IfOk, OnOk, IsErrOf};
ghost use Rattle.sip_standard.specs.VerdictOf.{IsVerdictOf};

use crate::walking::{Aim, walk};
use sip_log::Source;
use sip_standard::{JudgeError, Verdict};
use std::alloc::Global;
use std::hash::BuildHasher;

/// The verdict on the log of the reader's bytes: whether transactions that keep RFC 3261 section 17 can have sent and
/// received its messages at their moments, and if not, after which entry the first transaction has no run.
///
/// `JudgeError::Io` is answered only if the reader failed in this call. That `JudgeError::Memory` is answered only where a
/// growth was refused is tested and not proved. After an error the reader is used up to a place that is not said. The hasher
/// is for the keys of the transactions; any hasher gives the same verdict.
pub fn judge<R: Source, H: BuildHasher + Drop>(
    alloc: Global,
    reader: &mut R,
    hasher: H,
) -> Result<Verdict, JudgeError>
    requires { R.has_failed reader.old ≡ false }
    ensures verdict { IfOk result (λ verdict. IfSome (R.left reader.old) (λ input. IsVerdictOf input verdict)) }
    ensures ok { OnOk result (R.has_failed reader.new ≡ false) }
    ensures io { IsErrOf result JudgeError.Io → R.has_failed reader.new ≡ true }
{
    match walk(alloc, reader, hasher, Aim::End)? {
        Err(verdict) => Ok(verdict),
        // Only a walk to an entry answers a listing.
        Ok(_) => unreachable!(),
    }
}

/// The verdict on the log of these bytes, or `JudgeError::Memory`.
pub fn judge_bytes<H: BuildHasher + Drop>(
    alloc: Global,
    bytes: &[u8],
    hasher: H,
) -> Result<Verdict, JudgeError>
    ensures verdict { IfOk result (IsVerdictOf bytes.now) }
    ensures io { IsErrOf result JudgeError.Io → ⊥ }
{
    let mut left = bytes;
    judge(alloc, &mut left, hasher)
}
