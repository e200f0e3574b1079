//! The parts of a log that is cut by branch: to which of them a message belongs, found without reading it whole where its branch stands plainly.
#![tactic(auto)]

mod laws;
mod led;
mod lower;
mod part;

pub use laws::{
    a_branch_falls_into_one_part, a_message_falls_by_its_branch, a_message_falls_by_one_branch,
    a_plain_branch_is_that_of_the_top_via,
};
pub use led::led_branch;
pub use part::Part;
