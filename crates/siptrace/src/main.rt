//! `siptrace`: judges the log on its standard input or in a file and prints the verdict, shows a log with each message in its
//! canonical form, or lists the states of the transactions of an entry.
//!
//! It ends with 0 for a legal log, one that was shown whole or states that are listed, 1 for a malformed message or a breach, 2
//! for a log that cannot be read or has no such entry, 3 where it is undecided, 4 where it cannot read, write or get memory, and 5
//! where it does not understand its words.
#![tactic(auto)]

use sip_log::ToWrite;
use sip_platform::StdPlatform;
use sip_program::{Host, Output, end, program, read_failure};
use std::process::ExitCode;

// Joins the program to what std gives: its words, files and seeds, the standard input, the standard output through a buffer, and the standard error.
fn main(rt: HostRuntime) -> ExitCode {
    let mut errors = ToWrite::new(rt.stderr());
    let status = match Output::new(rt.alloc(), rt.stdout()) {
        Ok(mut output) => {
            let mut system = Host::new(StdPlatform::new(rt), rt.stdin());
            program(rt.alloc(), &mut system, &mut output, &mut errors)
        }
        // Without memory for the output's buffer the program does not run, and ends as one that has no answer.
        Err(error) => end(Err(read_failure(error)), &mut errors),
    };
    ExitCode::from(status)
}
