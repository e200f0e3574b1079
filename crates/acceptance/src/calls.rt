//! Listings of entries that the program refuses to name: entry 0, and one past the limit of a log. Logs are spelled as `notation.rt` says.
use crate::listed::lists;
use crate::logs::STORED;
use std::test::Fail;

/// An entry with a number above the limit is told as one past the end of the log.
#[test]
fn lists_no_entry_past_a_log(rt: HostRuntime) -> Result<(), Fail> {
    lists(&rt, (STORED, 4_294_967_295, "no entry"))
}

/// Entries are counted from 1.
#[test]
fn lists_no_entry_0(rt: HostRuntime) -> Result<(), Fail> {
    lists(&rt, (STORED, 0, "no entry"))?;
    lists(&rt, ("S 0,449 INVITE 1", 0, "no entry"))?;
    // A fault of the header comes before any entry, so that it is what is listed of entry 0 too.
    lists(&rt, ("tolerance 10001", 0, "stopped log fault 0 20 Header"))
}
