//! A log of SIP messages with their moments: its formats, read and written in pieces of any size.
#![tactic(auto)]

mod ahead;
mod entry;
mod header;
mod laws;
mod line;
mod log_error;
mod number;
mod progress;
mod reader;
mod sink;
mod source;
mod whole;
mod window;
mod write_error;
mod writing;

pub use ahead::Ahead;
pub use entry::Entry;
pub use laws::{
    a_log_is_a_stream, a_log_of_format_1_is_as_it_was, a_log_of_format_1_is_one_of_format_2,
    an_entry_is_read_as_it_was_written, an_entry_is_written_as_it_was_read, an_input_has_one_log,
    an_input_has_one_stream, each_input_has_a_log, each_input_has_a_stream,
    entries_read_in_turn_are_a_front_of_the_log, what_is_written_is_read,
};
pub use log_error::LogError;
pub use progress::Progress;
pub use reader::LogReader;
pub use sink::ToWrite;
pub use sip_standard::{Broken, Sink, Source};
pub use source::FromRead;
pub use whole::read_entries;
pub use write_error::WriteError;
pub use writing::{put_entry, write_entry, write_header, write_header_2};
