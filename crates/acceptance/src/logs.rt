//! Logs that several tests judge, list or show, and messages of theirs. Logs are spelled in the words of `notation.rt`: `S` sent, `R` received, `M` a
//! mark and `Z` a restart, each with its moments; then a method, a branch without the cookie, and the code where it is a response.
use crate::notation::{header, log_of, message_of, push_message};
use std::alloc::{AllocError, Global};
use std::test::Fail;

/// The log of a REGISTER that is sent, sent again and answered.
pub(crate) const STORED: &str = "S 0,500 REGISTER r1; R 700 REGISTER r1 200; M 6000";

/// A log of format 2 with a line of rules and a restart.
pub(crate) const RESTARTED: &str = "early 50 late 50; rules 3261; R 0 INVITE 1; Z 100";

/// A request with short names and a folded Via, in 181 bytes.
const FOLDED: &str =
    "OPTIONS sip:example.com SIP/2.0\r\nv: SIP / 2.0 / UDP\r\n a.example.com\r\n\t;branch = z9hG4bKr2\r\n\
f: <sip:bob@example.com>;tag=1\r\nt: sip:bob@example.com\r\ni: c2@a\r\nCSeq: 1 OPTIONS\r\nl: 0\r\n\r\n";

/// `FOLDED` in 202 bytes: long names, and one line for each field.
pub(crate) const UNFOLDED: &str =
    "OPTIONS sip:example.com SIP/2.0\r\nVia: SIP / 2.0 / UDP a.example.com ;branch = z9hG4bKr2\r\n\
From: <sip:bob@example.com>;tag=1\r\nTo: sip:bob@example.com\r\nCall-ID: c2@a\r\nCSeq: 1 OPTIONS\r\nContent-Length: 0\r\n\r\n";

/// The log of `FOLDED`, which was sent, and a mark.
pub(crate) fn folded_log(alloc: Global) -> Result<String, Fail> {
    let mut log = log_of(alloc, "")?;
    push_message(&mut log, "S", 0, FOLDED)?;
    log.push_str("M 5\n")?;
    Ok(log)
}

/// Appends the entry of a request with a branch of its own, or of the response to it with this code.
pub(crate) fn push_own(
    alloc: Global,
    log: &mut String,
    (letter, method, code): (&str, &str, Option<&str>),
    moment: u64,
    branch: u64,
) -> Result<(), Fail> {
    let branch = format!(in alloc; "{branch}")?;
    let message = message_of(alloc, method, branch.as_str(), code)?;
    Ok(push_message(log, letter, moment, message.as_str())?)
}

/// An OPTIONS of 60,004 bytes, most of which are in its Subject.
pub(crate) fn long_message(alloc: Global) -> Result<String, AllocError> {
    // All but this value has 207 bytes.
    let subject = "x".repeat(alloc, 59_797)?;
    let message = message_of(alloc, "OPTIONS", "1", None)?;
    let head = message.as_str().strip_suffix("\r\n").unwrap_or("");
    [head, "Subject: ", subject.as_str(), "\r\n\r\n"].concat(alloc)
}

/// The log of a message of 60,000 bytes that is sent three times: more than 175 KiB.
pub(crate) fn long_log(alloc: Global) -> Result<String, Fail> {
    let message = long_message(alloc)?;
    let mut log = header(alloc, "tolerance 50")?;
    for moment in [0, 500, 1_500] {
        push_message(&mut log, "S", moment, message.as_str())?;
    }
    // After the send at 1,500 timer E is set to 2,000: the request has to be sent again by 3,550, the tolerance later, and the log ends then.
    log.push_str("M 3550\n")?;
    Ok(log)
}
