//! What the words of the program can ask for.
use sip_part::Part;

/// The log that is surveyed.
#[derive(Clone, Copy, Debug)]
pub enum Log<'a> {
    /// The log on the standard input.
    Input,
    /// The log in the file at this path.
    File(&'a str),
}

/// What the words ask for: the survey of a log, or of a part of it, by a survey that forgets or one that forgets nothing.
#[derive(Debug, Drop)]
pub struct Asked<'a> {
    pub log: Log<'a>,
    pub part: Option<Part>,
    /// How many milliseconds after its last entry a transaction that is over may be forgotten; None where nothing is forgotten.
    pub forget: Option<u32>,
}
