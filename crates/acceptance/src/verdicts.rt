//! The verdicts on logs, as text.
ghost use Rattle.std.specs.Prelude.{◌≡◌, false};

use crate::notation::log_of;
use crate::pieces::Pieces;
use crate::wants::reads;
use sip_log::Source;
use sip_verdict::{JudgeError, judge, judge_bytes, render};
use std::alloc::Global;
use std::hash::{BuildHasher, BuildHasherDefault, FoldHasher};
use std::process::Abort;
use std::test::Fail;

/// The words of a log, and the text of the verdict on it.
pub(crate) type Row = (&'static str, &'static str);

/// The verdict on the bytes that a source hands out.
fn verdict_of<S: Source>(alloc: Global, source: &mut S) -> Result<String, JudgeError>
    requires { S.has_failed source.old ≡ false }
{
    let hasher = BuildHasherDefault::<FoldHasher>::new();
    let verdict = judge(alloc, source, hasher)?;
    Ok(render(alloc, &verdict)?)
}

/// The verdict on these bytes, with a hasher of keys.
pub(crate) fn verdict_by<H: BuildHasher + Drop>(
    alloc: Global,
    bytes: &[u8],
    hasher: H,
) -> Result<String, JudgeError> {
    let verdict = judge_bytes(alloc, bytes, hasher)?;
    Ok(render(alloc, &verdict)?)
}

/// The verdict on these bytes.
fn verdict_on(alloc: Global, bytes: &[u8]) -> Result<String, JudgeError> {
    verdict_by(alloc, bytes, BuildHasherDefault::<FoldHasher>::new())
}

/// The verdict where the bytes before a place come in one piece, and those after it in another.
pub(crate) fn verdict_cut_at(
    alloc: Global,
    bytes: &[u8],
    place: usize,
) -> Result<String, JudgeError> {
    verdict_of(alloc, &mut Pieces::cut_at(bytes, place))
}

/// The verdict where the bytes come one by one.
pub(crate) fn verdict_of_single_bytes(alloc: Global, bytes: &[u8]) -> Result<String, JudgeError> {
    verdict_of(alloc, &mut Pieces::single(bytes))
}

/// The verdict where the bytes come in pieces of this size, and the source fails after this many calls.
pub(crate) fn verdict_failing(
    alloc: Global,
    bytes: &[u8],
    size: usize,
    calls: usize,
) -> Result<String, JudgeError> {
    verdict_of(alloc, &mut Pieces::failing_in(bytes, size, calls))
}

/// Checks the verdict on the log of these words.
pub(crate) fn judges(
    rt: &(impl Abort + AllocGlobal),
    (words, want): (&str, &str),
) -> Result<(), Fail> {
    let log = log_of(rt.alloc(), words)?;
    let text = verdict_on(rt.alloc(), log.as_str().as_bytes())?;
    reads(rt, text.as_str(), want, words);
    Ok(())
}
