//! The verdict on a log of SIP messages: whether transactions of RFC 3261 can have produced it, and if not, after which entry
//! one of them has no run.
#![tactic(auto)]

mod concerned;
mod entries;
mod finding;
mod following;
mod forgetting;
mod forgetting_laws;
mod gathering;
mod histories;
mod horizon;
mod judging;
mod laws;
mod listing;
mod log_reason;
mod observing;
mod passing;
mod reading;
mod releasing;
mod remembering;
mod rendering;
mod showing;
mod siptrace;
mod stage;
mod standing;
mod step_error;
mod stream;
mod summary;
mod survey_end;
mod survey_error;
mod survey_laws;
mod surveying;
mod sweeping;
mod taking;
mod transaction;
mod troubled;
mod walking;

pub use finding::Finding;
pub use following::Survey;
pub use forgetting_laws::{
    a_survey_may_forget_nothing, nothing_is_lost_of_what_is_idle_again,
    what_is_forgotten_is_judged_as_new, what_is_idle_again_is_found_at_the_same_entries,
    what_is_kept_is_found_at_the_same_entries, what_is_kept_is_judged_on,
};
pub use gathering::survey_bytes;
pub use judging::{judge, judge_bytes};
pub use laws::{
    a_legal_log_has_runs, a_line_of_rules_6026_changes_no_verdict,
    a_log_of_format_1_has_its_verdict_in_format_2, an_input_has_a_verdict,
    an_input_has_one_verdict,
};
pub use listing::states_at;
pub use remembering::survey_forgetting;
pub use rendering::{end_line, finding_line, render};
pub use showing::show;
pub use sip_part::Part;
pub use sip_standard::{
    Fault, JudgeError, Listing, LogReason, Reason, ShowError, Shown, Unit, Verdict,
};
pub use siptrace::Siptrace;
pub use step_error::StepError;
pub use stream::Judge;
pub use summary::Summary;
pub use survey_end::SurveyEnd;
pub use survey_error::SurveyError;
pub use survey_laws::{
    a_breach_stays, a_fault_is_found_where_its_message_stays, a_log_can_be_cut_by_branch,
    a_log_may_be_cut, a_part_finds_what_the_whole_finds, a_survey_is_one,
    a_survey_names_a_transaction_once, a_transaction_has_one_finding,
    a_transaction_in_trouble_has_a_finding, a_transaction_that_is_idle_again_is_as_new,
    an_input_has_a_survey, each_trouble_is_named, the_log_of_a_part_is_cut_by_branch,
    the_verdict_is_in_the_survey, what_is_idle_again_can_be_forgotten, what_is_wide_does_not_break,
    what_stands_lasts,
};
pub use surveying::{survey, survey_part};
pub use transaction::Transaction;
