//! siptrace for other languages: a static library whose calls C can make, as `library/siptrace.h` declares them.
//!
//! No contract holds a caller of another language: it keeps what that header asks of it, above all a valid pointer and a right length.
#![tactic(auto)]

mod judging;
mod plain_summary;
mod plain_verdict;
mod seed;
mod status;
mod surveying;

pub use judging::siptrace_judge;
pub use plain_summary::PlainSummary;
pub use plain_verdict::PlainVerdict;
pub use seed::Seed;
pub use surveying::siptrace_survey;
