//! An example of a caller: it feeds a judge the entries of the log on its standard input, each as soon as it is there, and answers each with a
//! line, so that a process of another language can ask it over a pipe. The last line is the verdict.
#![tactic(auto)]

use anyhow::Result;
use sip_log::{FromRead, Progress};
use sip_verdict::{Judge, render};
use std::hash::RandomState;

/// The most entries of a log, and one more, so that the loop reaches the end of the log.
const MOST: u64 = 1_000_001;

// Reads the header and then the entries, and gives each to the judge, until one is in trouble or there are no more.
fn main(rt: HostRuntime) -> Result<()> {
    let mut source = FromRead::new(rt.stdin());
    let (params, mut progress) = Progress::open(rt.alloc(), &mut source)?;
    let mut judge = Judge::new(rt.alloc(), params, RandomState::new(&rt)?);
    for _ in 0..MOST {
        let Some(entry) = progress.next(&mut source)? else {
            break;
        };
        // The reader hands out the entries in their order, so that a judge may take each.
        if judge.may_take(&entry) && judge.entry(&entry)?.is_some() {
            break;
        }
        println!(rt; "{}: in no trouble", entry.number)?;
    }
    // The verdict on all entries that were taken, or the one at which the judge has stopped.
    if let Some(verdict) = judge.end() {
        println!(rt; "{}", render(rt.alloc(), &verdict)?)?;
    }
    Ok(())
}
