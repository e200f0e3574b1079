//! How far a judge is.
use sip_standard::Verdict;

/// How far a judge is: it goes on, it has told a verdict, or it failed.
#[derive(Clone, Copy, Debug, PartialEq, Eq)]
pub(crate) enum Stage {
    Open,
    Told(Verdict),
    Failed,
}
