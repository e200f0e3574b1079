//! The verdict does not depend on the hasher of the keys, nor on how a long message comes: here byte by byte.
use crate::hashers::{AllZero, Same};
use crate::logs::{long_message, push_own};
use crate::notation::{header, message_of, push_message};
use crate::verdicts::{verdict_by, verdict_of_single_bytes};
use crate::wants::reads;
use std::alloc::Global;
use std::hash::{BuildHasher, RandomState};
use std::process::Abort;
use std::test::Fail;

/// The log of a long OPTIONS, which is sent twice and answered, and a mark.
fn log_of_a_long_message(alloc: Global) -> Result<String, Fail> {
    let message = long_message(alloc)?;
    let mut log = header(alloc, "tolerance 50")?;
    push_message(&mut log, "S", 0, message.as_str())?;
    push_message(&mut log, "S", 500, message.as_str())?;
    let response = message_of(alloc, "OPTIONS", "1", Some("200"))?;
    push_message(&mut log, "R", 600, response.as_str())?;
    log.push_str("M 6000\n")?;
    Ok(log)
}

/// A source that hands out one byte a call has the verdict of the whole log.
#[test]
fn judges_a_long_message_in_single_bytes(rt: HostRuntime) -> Result<(), Fail> {
    let log = log_of_a_long_message(rt.alloc())?;
    let text = verdict_of_single_bytes(rt.alloc(), log.as_str().as_bytes())?;
    let want = "legal entries 4 transactions 1";
    reads(&rt, text.as_str(), want, "in single bytes");
    Ok(())
}

/// The log of this many OPTIONS at moment 0, each with a branch of its own.
fn requests(alloc: Global, count: u64) -> Result<String, Fail> {
    let mut log = header(alloc, "tolerance 50")?;
    for before in 0..count {
        push_own(alloc, &mut log, ("S", "OPTIONS", None), 0, before + 1)?;
    }
    Ok(log)
}

/// Checks the verdict on the log of this many OPTIONS, judged with this hasher of keys.
fn judges_by<H: BuildHasher + Drop>(
    rt: &(impl Abort + AllocGlobal),
    count: u64,
    hasher: H,
    want: &str,
) -> Result<(), Fail> {
    let log = requests(rt.alloc(), count)?;
    let text = verdict_by(rt.alloc(), log.as_str().as_bytes(), hasher)?;
    reads(rt, text.as_str(), want, "by a hasher");
    Ok(())
}

/// Checks the verdict on the log of 10,000 OPTIONS, judged with the hasher of this seed.
fn judges_by_seed(rt: &(impl Abort + AllocGlobal), seed: u8) -> Result<(), Fail> {
    let hasher = RandomState::new(&Same(seed))?;
    judges_by(rt, 10_000, hasher, "legal entries 10000 transactions 10000")
}

/// Two seeds, and a hash that is 0 for all keys, give one verdict.
#[test]
fn judges_many_transactions_by_any_hash(rt: HostRuntime) -> Result<(), Fail> {
    judges_by_seed(&rt, 1)?;
    judges_by_seed(&rt, 2)?;
    // Where all keys have one hash, each look-up goes past all of them. So these are but 200.
    judges_by(&rt, 200, AllZero, "legal entries 200 transactions 200")
}
