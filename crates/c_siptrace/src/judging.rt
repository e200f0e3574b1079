//! The verdict on a log that lies in memory.
ghost use Rattle.std.specs.Prelude.{◌≡◌, ◌≢◌, IfOk};
ghost use Rattle.sip_standard.specs.VerdictOf.{IsVerdictOf};
ghost use Rattle.sip_standard.specs.declared.verdict.Verdict.{Verdict};
ghost use Rattle.c_siptrace.specs.Plain.{plain};
ghost use Rattle.c_siptrace.specs.Status.{answered, no_memory};

use crate::plain_verdict::PlainVerdict;
use crate::seed::Seed;
use crate::status::{ANSWERED, NO_MEMORY};
use sip_verdict::{JudgeError, Verdict, judge_bytes};
use std::alloc::Global;

/// Gives the verdict on the log of these bytes, in plain numbers. Where memory is wanting it answers so, and leaves the verdict as it was.
///
/// The parameter `alloc` takes no bytes, so that C does not have it.
#[unsafe(no_mangle)]
pub extern "C" fn siptrace_judge(
    alloc: Global,
    log: &[u8],
    seed: &Seed,
    verdict: &mut PlainVerdict,
) -> u32
    ensures answer { result ≡ answered → (v : Verdict) × IsVerdictOf log.now v × (verdict.new ≡ plain v) }
    ensures refused { result ≢ answered → (result ≡ no_memory) × (verdict.new ≡ verdict.old) }
{
    match judged(alloc, log, seed) {
        Ok(found) => {
            *verdict = PlainVerdict::of(&found);
            ANSWERED
        }
        Err(_) => NO_MEMORY,
    }
}

/// The verdict on the log of these bytes, or `JudgeError::Memory`.
fn judged(alloc: Global, log: &[u8], seed: &Seed) -> Result<Verdict, JudgeError>
    ensures { IfOk result (IsVerdictOf log.now) }
{
    judge_bytes(alloc, log, seed.hasher()?)
}
