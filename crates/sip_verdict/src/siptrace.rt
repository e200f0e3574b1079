//! The functions of this crate as the standard asks for them.
use crate::judging::{judge, judge_bytes};
use crate::listing::states_at;
use crate::showing::show;
use sip_standard::{JudgeError, Judges, Listing, ShowError, Shown, Sink, Source, Verdict};
use std::alloc::Global;
use std::hash::BuildHasher;

/// Judges logs, shows them and lists states by the functions `judge`, `judge_bytes`, `show` and `states_at`, so that each has the contract of
/// `sip_standard`.
#[derive(Clone, Copy, Debug)]
pub struct Siptrace;

impl Judges for Siptrace {
    fn judge<R: Source, H: BuildHasher + Drop>(
        alloc: Global,
        reader: &mut R,
        hasher: H,
    ) -> Result<Verdict, JudgeError> {
        judge(alloc, reader, hasher)
    }

    fn judge_bytes<H: BuildHasher + Drop>(
        alloc: Global,
        bytes: &[u8],
        hasher: H,
    ) -> Result<Verdict, JudgeError> {
        judge_bytes(alloc, bytes, hasher)
    }

    fn show<R: Source, W: Sink>(
        alloc: Global,
        reader: &mut R,
        writer: &mut W,
    ) -> Result<Shown, ShowError> {
        show(alloc, reader, writer)
    }

    fn states_at<R: Source, H: BuildHasher + Drop>(
        alloc: Global,
        reader: &mut R,
        hasher: H,
        entry: u64,
    ) -> Result<Listing, JudgeError> {
        states_at(alloc, reader, hasher, entry)
    }
}
