//! The program `sipsurvey`: what the words that it is given ask for, the log that it reads and the survey that it writes, on any platform.
#![tactic(auto)]

mod asking;
mod ending;
mod failure;
mod laws;
mod part_word;
mod running;
mod status;
mod words;

pub use asking::asked;
pub use ending::end;
pub use failure::{Failure, read_failure};
pub use laws::the_parts_find_together_what_the_whole_finds;
pub use running::{program, run};
pub use status::status_of;
pub use words::{Asked, Log};
