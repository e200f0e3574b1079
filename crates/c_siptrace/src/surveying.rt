//! The survey of a log that lies in memory.
ghost use Rattle.std.specs.Prelude.{◌≡◌, ◌≢◌, List, IfOk, length};
ghost use Rattle.sip_verdict.specs.SurveyOf.{IsSurveyOf};
ghost use Rattle.sip_verdict.specs.declared.finding.Finding.{Finding};
ghost use Rattle.sip_verdict.specs.declared.survey_end.SurveyEnd.{SurveyEnd};
ghost use Rattle.c_siptrace.specs.Handed.{handed, room_status};
ghost use Rattle.c_siptrace.specs.Plain.{plain_summary};
ghost use Rattle.c_siptrace.specs.Status.{no_memory};

use crate::plain_summary::PlainSummary;
use crate::plain_verdict::PlainVerdict;
use crate::seed::Seed;
use crate::status::{ANSWERED, NO_MEMORY, NO_ROOM};
use sip_verdict::{Finding, JudgeError, SurveyEnd, Verdict, survey_bytes};
use std::alloc::Global;

/// Gives all that is wrong in the log of these bytes, in plain numbers: its findings from the first on, as many as there is room for, each as
/// the verdict in the same words; and how many findings there are, and how the log ends. Where not all findings have room it answers so, and
/// tells of the others no more than how many all are. Room that no finding needs stays as it was. Where memory is wanting it answers so, and
/// leaves all as it was.
///
/// The parameter `alloc` takes no bytes, so that C does not have it.
#[unsafe(no_mangle)]
pub extern "C" fn siptrace_survey(
    alloc: Global,
    log: &[u8],
    seed: &Seed,
    room: &mut [PlainVerdict],
    summary: &mut PlainSummary,
) -> u32
    ensures surveyed { result ≢ no_memory → (found : List Finding) × (end : SurveyEnd) × IsSurveyOf log.now found end × (room.new ≡ handed found room.old)
        × (summary.new ≡ plain_summary (length found) end) × (result ≡ room_status (length found) (length room.old)) }
    ensures refused { result ≡ no_memory → (room.new ≡ room.old) × (summary.new ≡ summary.old) }
{
    match surveyed(alloc, log, seed) {
        Ok((found, end)) => {
            *summary = PlainSummary::of(found.len(), &end);
            hand_out(found.as_slice(), room)
        }
        Err(_) => NO_MEMORY,
    }
}

/// All that is wrong in the log of these bytes, and how the log ends; or `JudgeError::Memory`.
fn surveyed(alloc: Global, log: &[u8], seed: &Seed) -> Result<(Vec<Finding>, SurveyEnd), JudgeError>
    ensures { IfOk result (λ done. IsSurveyOf log.now done.0.items done.1) }
{
    survey_bytes(alloc, log, seed.hasher()?)
}

/// Writes as many of the findings as there is room for, from the first on, and answers whether all have room.
fn hand_out(found: &[Finding], room: &mut [PlainVerdict]) -> u32
    ensures handed { room.new ≡ handed found.now room.old }
    ensures status { result ≡ room_status (length found.now) (length room.old) }
{
    let count = found.len().min(room.len());
    // A finding has the plain numbers of the verdict in the same words.
    for (place, finding) in found[..count].iter().enumerate() {
        room[place] = PlainVerdict::of(&Verdict::from(*finding));
    }
    if found.len() <= room.len() {
        ANSWERED
    } else {
        NO_ROOM
    }
}
