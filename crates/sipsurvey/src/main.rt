//! `sipsurvey`: reads the log on its standard input or in a file. It writes a line for each malformed message and for the first trouble of each
//! transaction, as the entry passes, and a last line that counts them. With `--part K/N` before the file it judges only the transactions
//! whose branch falls into part K of N. With `--forget MILLISECONDS` before both it forgets a transaction that is over so many milliseconds
//! after its last entry.
//!
//! It ends with 0 where nothing is found, 1 where a message is malformed or a transaction breaks, 2 where the log cannot be read to its
//! end, 3 where all that is found are transactions that are followed no further, 4 where it cannot read, write or get memory, and 5
//! where it does not understand its words.
#![tactic(auto)]

use sip_log::ToWrite;
use sip_platform::StdPlatform;
use sip_program::Host;
use sip_survey_program::program;
use std::process::ExitCode;

// Joins the program to what std gives: its words, files and seeds, the standard input, and the standard output and error without a buffer.
fn main(rt: HostRuntime) -> ExitCode {
    let mut errors = ToWrite::new(rt.stderr());
    let mut output = ToWrite::new(rt.stdout());
    let alloc = rt.alloc();
    let input = rt.stdin();
    let mut system = Host::new(StdPlatform::new(rt), input);
    ExitCode::from(program(alloc, &mut system, &mut output, &mut errors))
}
