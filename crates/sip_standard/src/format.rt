//! The formats of a log.

/// The format of a log: 1, or 2, which has restarts, and two tolerances in place of one.
#[derive(Clone, Copy, Debug, PartialEq, Eq)]
pub enum Format {
    One,
    Two,
}
