//! The words of `tests/log`, as far as these tests need them: a log is one line of a table, in which a semicolon stands between two words.
//!
//! `S 0,500 REGISTER r1; R 700 REGISTER r1 200; M 2..4; Z 6000`: a moment may be a list or a range, and `s/z9hG4bK//` is the one change of a
//! message. `early 50 late 50`, `tolerance 10000` and `rules 3261` stand before the entries.
use std::alloc::{AllocError, Global};
use std::fmt::Write;
use std::test::Fail;

/// The change that takes the cookie out of the branch, so that a message has no key.
const WITHOUT_COOKIE: &str = "s/z9hG4bK//";

/// Appends the first two lines of a log with the times of RFC 3261 table 4. The log is of format 2 where the tolerances are two numbers.
fn push_header(log: &mut String, tolerances: &str) -> Result<(), AllocError> {
    let format = if tolerances.starts_with("early ") {
        "2"
    } else {
        "1"
    };
    write!(
        log,
        "sip-trace {format}\nt1 500 t2 4000 t4 5000 {tolerances}\n"
    )
}

/// A log with these tolerances and without an entry.
pub(crate) fn header(alloc: Global, tolerances: &str) -> Result<String, AllocError> {
    // With so much room a short log is put together by one growth.
    let mut log = String::with_capacity(alloc, 16_384)?;
    push_header(&mut log, tolerances)?;
    Ok(log)
}

/// The request with this method and branch, or the response to it with this code. A response and an ACK have the tag of the other side.
pub(crate) fn message_of(
    alloc: Global,
    method: &str,
    branch: &str,
    code: Option<&str>,
) -> Result<String, AllocError> {
    let mut text = String::with_capacity(alloc, 256)?;
    match code {
        Some(code) => write!(&mut text, "SIP/2.0 {code} Reply\r\n")?,
        None => write!(&mut text, "{method} sip:example.com SIP/2.0\r\n")?,
    }
    let tag = if code.is_some() || method == "ACK" {
        ";tag=2"
    } else {
        ""
    };
    write!(
        &mut text,
        "Via: SIP/2.0/UDP a.example.com;branch=z9hG4bK{branch}\r\nFrom: <sip:bob@example.com>;tag=1\r\n\
        To: <sip:bob@example.com>{tag}\r\nCall-ID: c1@a\r\nCSeq: 1 {method}\r\nContent-Length: 0\r\n\r\n"
    )?;
    Ok(text)
}

/// Appends the entry of this message.
pub(crate) fn push_message(
    log: &mut String,
    letter: &str,
    moment: u64,
    message: &str,
) -> Result<(), AllocError> {
    let len = message.len();
    write!(log, "{letter} {moment} {len}\n{message}\n")
}

/// Appends an entry with this message, or without one.
fn push_entry(
    log: &mut String,
    letter: &str,
    moment: u64,
    message: Option<&str>,
) -> Result<(), AllocError> {
    match message {
        Some(message) => push_message(log, letter, moment, message),
        None => write!(log, "{letter} {moment}\n"),
    }
}

/// Appends an entry at each of these moments.
fn push_entries(
    log: &mut String,
    letter: &str,
    moments: &str,
    message: Option<&str>,
) -> Result<(), Fail> {
    if let Some((first, last)) = moments.split_once("..") {
        for moment in first.parse::<u64>()?..=last.parse::<u64>()? {
            push_entry(log, letter, moment, message)?;
        }
        return Ok(());
    }
    for moment in moments.split(',') {
        push_entry(log, letter, moment.parse::<u64>()?, message)?;
    }
    Ok(())
}

/// The message of an entry's further words, which are its method, its branch, and then a code or a change.
fn message_in(alloc: Global, words: &str) -> Result<String, Fail> {
    let mut words = words.split_whitespace();
    let (Some(method), Some(branch)) = (words.next(), words.next()) else {
        return Err("no message".into());
    };
    // The third word is a code, unless it is the change; a change may also stand after a code.
    let last = words.next();
    let change = words.next().or(last);
    let code = last.filter(|word| *word != WITHOUT_COOKIE);
    let text = message_of(alloc, method, branch, code)?;
    if change == Some(WITHOUT_COOKIE) {
        return Ok(text.as_str().replacen(alloc, "z9hG4bK", "", 1)?);
    }
    Ok(text)
}

/// Appends the line or the entries of a word.
fn push_word(alloc: Global, log: &mut String, word: &str) -> Result<(), Fail> {
    let (letter, rest) = word.split_once(' ').unwrap_or((word, ""));
    match letter {
        "rules" => Ok(write!(log, "{word}\n")?),
        "M" | "Z" => push_entries(log, letter, rest, None),
        _ => {
            let (moments, words) = rest.split_once(' ').ok_or("no entry")?;
            let message = message_in(alloc, words)?;
            push_entries(log, letter, moments, Some(message.as_str()))
        }
    }
}

/// Whether a word says tolerances.
fn is_header(word: &str) -> bool {
    word.starts_with("early ") || word.starts_with("tolerance ")
}

/// The log of these words.
pub(crate) fn log_of(alloc: Global, words: &str) -> Result<String, Fail> {
    let (first, others) = words.split_once("; ").unwrap_or((words, ""));
    let (tolerances, entries) = if is_header(first) {
        (first, others)
    } else {
        ("tolerance 50", words)
    };
    let mut log = header(alloc, tolerances)?;
    for word in entries.split("; ") {
        if !word.is_empty() {
            push_word(alloc, &mut log, word)?;
        }
    }
    Ok(log)
}
