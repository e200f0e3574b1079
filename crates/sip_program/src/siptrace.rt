//! The function of this crate as the standard asks for it.
use crate::running::run;
use sip_standard::{Failure, Output, Program, System};
use std::alloc::Global;
use std::io::Write;

/// The program by the function `run`, so that it has the contract of `sip_standard`.
#[derive(Clone, Copy, Debug)]
pub struct SiptraceProgram;

impl Program for SiptraceProgram {
    // Its contract is that of the trait.
    fn run<S: System, W: Write + Drop>(
        alloc: Global,
        system: &mut S,
        output: &mut Output<W>,
    ) -> Result<u8, Failure> {
        run(alloc, system, output)
    }
}
