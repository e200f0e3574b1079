//! The program: what the words that it is given ask for, the log that it reads and the answer that it writes, on any platform.
#![tactic(auto)]

mod answering;
mod asking;
mod ending;
mod failure;
mod host;
mod platform;
mod running;
mod siptrace;
mod status;

pub use asking::asked;
pub use ending::end;
pub use failure::read_failure;
pub use host::Host;
pub use platform::Platform;
pub use running::{program, run};
pub use sip_standard::{Asked, Failure, Output, System};
pub use siptrace::SiptraceProgram;
