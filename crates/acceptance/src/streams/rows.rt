//! A judge that takes the entries of a log one by one has the log's verdict: logs of each kind from `tests/worked/verdicts`. They are spelled in the
//! words of `notation.rt`: `S` sent, `R` received, `M` a mark and `Z` a restart, each with its moments; then a method, a branch and a code.
use crate::notation::log_of;
use crate::streams::verdict_by_entries;
use crate::verdicts::Row;
use crate::wants::reads;
use std::process::Abort;
use std::test::Fail;

/// Checks the verdict of a judge that takes the entries of a log.
fn takes(rt: &(impl Abort + AllocGlobal), words: &str, want: &str) -> Result<(), Fail> {
    let log = log_of(rt.alloc(), words)?;
    let text = verdict_by_entries(rt, log.as_str())?;
    reads(rt, text.as_str(), want, words);
    Ok(())
}

/// Checks the verdict of a judge on each row.
fn takes_rows(rt: &(impl Abort + AllocGlobal), rows: &[Row]) -> Result<(), Fail> {
    for &(words, want) in rows {
        takes(rt, words, want)?;
    }
    Ok(())
}

/// Logs of clients.
#[test]
fn takes_clients(rt: HostRuntime) -> Result<(), Fail> {
    takes_rows(
        &rt,
        &[
            ("", "legal entries 0 transactions 0"),
            // The ACK is sent one millisecond too late.
            (
                "S 0 INVITE 1; R 200 INVITE 1 180; R 1000 INVITE 1 486; S 1051 ACK 1",
                "breach 4 transaction 1",
            ),
            // A CANCEL after a provisional response has a transaction of its own.
            (
                "S 0 INVITE 1; R 50 INVITE 1 180; S 100 CANCEL 1",
                "legal entries 3 transactions 2",
            ),
            // A request is sent again after its final response.
            (
                "S 0 REGISTER 1; R 100 REGISTER 1 200; S 6000 REGISTER 1",
                "breach 3 transaction 1",
            ),
            // The second request is not sent again in time.
            (
                "S 0 OPTIONS 1; S 0 OPTIONS 2; R 10 OPTIONS 1 200; M 551",
                "breach 4 transaction 2",
            ),
            // Nothing may be late here, and the ACK is.
            (
                "early 100 late 0; S 0 INVITE 1; R 100 INVITE 1 486; S 101 ACK 1",
                "breach 3 transaction 1",
            ),
        ],
    )
}

/// Logs of servers.
#[test]
fn takes_servers(rt: HostRuntime) -> Result<(), Fail> {
    takes_rows(
        &rt,
        &[
            // A 486 may come by timer G and as an answer to the INVITE that came again. At 600 it is too late for both.
            (
                "R 0 INVITE 1; S 0 INVITE 1 486; R 480 INVITE 1; S 490,600 INVITE 1 486",
                "breach 5 transaction 1",
            ),
            // The response is sent again one millisecond too late.
            (
                "R 0 OPTIONS 1; S 10 OPTIONS 1 200; R 500 OPTIONS 1; S 551 OPTIONS 1 200",
                "breach 4 transaction 1",
            ),
            // By RFC 3261 alone an INVITE after the 200 begins a transaction, which has to be answered. By RFC 6026 it is taken in.
            (
                "rules 3261; R 0 INVITE 1; S 0 INVITE 1 200; R 500 INVITE 1; M 751",
                "breach 4 transaction 1",
            ),
            (
                "R 0 INVITE 1; S 0 INVITE 1 200; R 500 INVITE 1; M 751",
                "legal entries 4 transactions 1",
            ),
            // So many ways are open that they are not followed any further.
            (
                "tolerance 10000; R 0 INVITE 1; S 1 INVITE 1 180; R 2..41 INVITE 1; S 42 INVITE 1 183; R 43..82 INVITE 1; \
                S 83..122 INVITE 1 180; S 123..162 INVITE 1 183",
                "undecided 147 transaction 1",
            ),
        ],
    )
}

/// Logs with messages that have no key, and logs with restarts.
#[test]
fn takes_messages_and_restarts(rt: HostRuntime) -> Result<(), Fail> {
    takes_rows(
        &rt,
        &[
            // A request without the cookie is malformed if it was sent, and of no transaction if it was received.
            (
                "S 0 OPTIONS abc s/z9hG4bK//",
                "malformed 1 head 12 NoCookie",
            ),
            (
                "R 0 OPTIONS abc s/z9hG4bK//",
                "legal entries 1 transactions 0",
            ),
            // A response to no request is of a transaction that stays idle.
            ("R 100 OPTIONS 9 200", "legal entries 1 transactions 1"),
            // At the first restart the INVITE is late already. After the second nothing is due.
            (
                "early 50 late 50; S 0 INVITE 1; Z 551",
                "breach 2 transaction 1",
            ),
            (
                "early 50 late 50; S 0 INVITE 1; Z 100; M 5000",
                "legal entries 3 transactions 1",
            ),
        ],
    )
}
