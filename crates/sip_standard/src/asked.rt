//! What the words of the program can ask for.

/// What the program is asked to do.
#[derive(Clone, Copy, Debug)]
pub enum Asked<'a> {
    /// To judge the standard input.
    Input,
    /// To judge the log in a file.
    Check(&'a str),
    /// To show the log in a file.
    Show(&'a str),
    /// To list the states of the transactions that an entry of the log in a file concerns.
    States(&'a str, u64),
}
