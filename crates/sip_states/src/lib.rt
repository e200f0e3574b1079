//! Sets of states: where the runs of a machine of a transaction can stand, and one set for each key.
#![tactic(auto)]

mod agenda;
mod any_set;
mod each_once;
mod ends;
mod keeping;
mod laws;
mod marks;
mod moment;
mod recorded;
mod state_set;
mod steps;
mod tables;
mod told;

pub use any_set::AnySet;
pub use each_once::keep_ascending;
pub use keeping::keep_each;
pub use laws::{
    a_run_holds_one_over_fewer_events, a_second_restart_changes_nothing,
    a_server_sends_when_it_was_asked, after_a_final_response_a_client_sends_no_request,
    an_invite_is_sent_again_after_t1, by_waiting_and_stepping, in_one_wait_or_two,
};
pub use state_set::{StateSet, TakeError};
pub use tables::Tables;
pub use told::ToldState;
