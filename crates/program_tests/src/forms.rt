//! Each form of the program on a platform of known words with a known file, and each way in which it fails.
use crate::desk::Desk;
use crate::wants::{is, reads};
use sip_log::ToWrite;
use sip_program::{Host, Output, program, run};
use std::alloc::{AllocError, Global};
use std::io::Write;
use std::process::Abort;
use std::test::Fail;

/// The path of the file, with a blank at its end.
pub(crate) const PATH: &str = "a log ";

/// A request, in 199 bytes.
const REQUEST: &str =
    "REGISTER sip:example.com SIP/2.0\r\nVia: SIP/2.0/UDP a.example.com;branch=z9hG4bKr1\r\n\
From: <sip:bob@example.com>;tag=1\r\nTo: <sip:bob@example.com>\r\nCall-ID: c1@a\r\nCSeq: 1 REGISTER\r\nContent-Length: 0\r\n\r\n";

/// The response to it, in 190 bytes.
const RESPONSE: &str = "SIP/2.0 200 Reply\r\nVia: SIP/2.0/UDP a.example.com;branch=z9hG4bKr1\r\n\
From: <sip:bob@example.com>;tag=1\r\nTo: <sip:bob@example.com>;tag=2\r\nCall-ID: c1@a\r\nCSeq: 1 REGISTER\r\nContent-Length: 0\r\n\r\n";

/// The first two lines of a log.
const HEADER: &str = "sip-trace 1\nt1 500 t2 4000 t4 5000 tolerance 50\n";

/// What `siptrace` says where it is asked for nothing that it knows.
const USAGE: &str = "siptrace: usage: siptrace [check FILE | show FILE | states FILE ENTRY]\n";

/// The log of a client that registers, repeats its request after T1 and has its response.
pub(crate) fn registered(alloc: Global) -> Result<String, AllocError> {
    [
        HEADER,
        "S 0 199\n",
        REQUEST,
        "\nS 500 199\n",
        REQUEST,
        "\nR 700 190\n",
        RESPONSE,
        "\nM 6000\n",
    ]
    .concat(alloc)
}

/// The log of a client that repeats its request too early.
pub(crate) fn hasty(alloc: Global) -> Result<String, AllocError> {
    [HEADER, "S 0 199\n", REQUEST, "\nS 449 199\n", REQUEST, "\n"].concat(alloc)
}

/// A platform that gives the program's name and these words, and has these bytes at the path.
pub(crate) fn desk<'a>(
    alloc: Global,
    words: &[&str],
    bytes: &'a str,
) -> Result<Desk<'a>, AllocError> {
    let mut given = vec![in alloc; String::from_str(alloc, "siptrace")?]?;
    for word in words {
        given.push(String::from_str(alloc, word)?)?;
    }
    Ok(Desk {
        words: given,
        path: PATH,
        bytes: bytes.as_bytes(),
    })
}

/// Runs the program with these words, this standard input and a file with the text `file` at `PATH`, so that it writes to this list. It answers the
/// status, if any.
fn answer(
    alloc: Global,
    words: &[&str],
    input: &str,
    file: &str,
    written: &mut Vec<u8>,
) -> Result<Option<u8>, Fail> {
    let mut host = Host::new(desk(alloc, words, file)?, input.as_bytes());
    let mut output = Output::new(alloc, written)?;
    Ok(run(alloc, &mut host, &mut output).ok())
}

/// Checks what the program writes, and its status, with these words, this standard input and a file with the text `file` at `PATH`.
fn answers(
    rt: &(impl Abort + AllocGlobal),
    words: &[&str],
    input: &str,
    file: &str,
    want: (&str, u8),
) -> Result<(), Fail> {
    let mut written = Vec::new(rt.alloc());
    let status = answer(rt.alloc(), words, input, file, &mut written)?;
    reads(rt, &written, want.0);
    is(rt, status, Some(want.1));
    Ok(())
}

/// Runs the whole program with these words, an empty standard input and a file with the text `file` at `PATH`, so that it writes to this writer and
/// tells to this list. It answers the status.
fn status_of<W: Write + Drop>(
    alloc: Global,
    words: &[&str],
    file: &str,
    writer: W,
    told: &mut Vec<u8>,
) -> Result<u8, Fail> {
    let mut host = Host::new(desk(alloc, words, file)?, b"".as_slice());
    let mut output = Output::new(alloc, writer)?;
    let mut errors = ToWrite::new(told);
    Ok(program(alloc, &mut host, &mut output, &mut errors))
}

/// Checks what the whole program writes and tells, and its status, with these words, an empty standard input and a file with the text `file` at `PATH`.
fn ends(
    rt: &(impl Abort + AllocGlobal),
    words: &[&str],
    file: &str,
    want: (&str, &str, u8),
) -> Result<(), Fail> {
    let mut written = Vec::new(rt.alloc());
    let mut told = Vec::new(rt.alloc());
    let status = status_of(rt.alloc(), words, file, &mut written, &mut told)?;
    reads(rt, &written, want.0);
    reads(rt, &told, want.1);
    is(rt, status, want.2);
    Ok(())
}

/// Of a legal log and one in breach one is the standard input and the other the file, either way round: without words the former is judged.
#[test]
fn judges_the_standard_input(rt: HostRuntime) -> Result<(), Fail> {
    let (right, wrong) = (registered(rt.alloc())?, hasty(rt.alloc())?);
    let (legal, breach) = (
        ("legal entries 4 transactions 1\n", 0),
        ("breach 2 transaction 1\n", 1),
    );
    answers(&rt, &[], right.as_str(), wrong.as_str(), legal)?;
    answers(&rt, &[], wrong.as_str(), right.as_str(), breach)
}

/// With the word `check` the file is judged, and not the standard input.
#[test]
fn checks_the_file(rt: HostRuntime) -> Result<(), Fail> {
    let (right, wrong) = (registered(rt.alloc())?, hasty(rt.alloc())?);
    let words = ["check", PATH];
    let (legal, breach) = (
        ("legal entries 4 transactions 1\n", 0),
        ("breach 2 transaction 1\n", 1),
    );
    answers(&rt, &words, wrong.as_str(), right.as_str(), legal)?;
    answers(&rt, &words, right.as_str(), wrong.as_str(), breach)
}

/// The messages of the log are spelled in their canonical form already, so that each is shown as it stands, after its entry's number.
#[test]
fn shows_the_file(rt: HostRuntime) -> Result<(), Fail> {
    let file = registered(rt.alloc())?;
    let text = [
        "1 S 0 199\n",
        REQUEST,
        "\n2 S 500 199\n",
        REQUEST,
        "\n3 R 700 190\n",
        RESPONSE,
        "\n4 M 6000\nend 4\n",
    ]
    .concat(rt.alloc())?;
    answers(&rt, &["show", PATH], "", file.as_str(), (text.as_str(), 0))
}

/// Entry 3 is the response, entry 4 a mark, which concerns no transaction, and there is no entry 5.
#[test]
fn lists_the_states_of_an_entry_of_the_file(rt: HostRuntime) -> Result<(), Fail> {
    let file = registered(rt.alloc())?;
    // Timer K begins with the response.
    let states = "transaction 1 client REGISTER states 1\n  completed reliable=no set=700\n";
    for (entry, want) in [
        ("3", (states, 0)),
        ("4", ("no transaction\n", 0)),
        ("5", ("no entry\n", 2)),
    ] {
        answers(&rt, &["states", PATH, entry], "", file.as_str(), want)?;
    }
    Ok(())
}

/// Where there is an answer, the standard error gets nothing.
#[test]
fn tells_nothing_of_an_answer(rt: HostRuntime) -> Result<(), Fail> {
    let file = hasty(rt.alloc())?;
    let want = ("breach 2 transaction 1\n", "", 1);
    ends(&rt, &["check", PATH], file.as_str(), want)
}

/// There is no file but the one at `PATH`, whose name ends with a blank; and other words are no form of words.
#[test]
fn tells_of_each_failure(rt: HostRuntime) -> Result<(), Fail> {
    let file = registered(rt.alloc())?;
    for words in [
        ["check", "a log"].as_slice(),
        ["show", ""].as_slice(),
        ["states", " a log ", "1"].as_slice(),
    ] {
        ends(
            &rt,
            words,
            file.as_str(),
            ("", "siptrace: cannot read\n", 4),
        )?;
    }
    for words in [
        ["check"].as_slice(),
        ["judge", PATH].as_slice(),
        ["states", PATH, "0"].as_slice(),
        ["states", PATH, "1", "1"].as_slice(),
    ] {
        ends(&rt, words, file.as_str(), ("", USAGE, 5))?;
    }
    Ok(())
}

/// The writer has room for one byte less than the answer has.
#[test]
fn tells_that_the_answer_cannot_be_written(rt: HostRuntime) -> Result<(), Fail> {
    let file = registered(rt.alloc())?;
    let mut told = Vec::new(rt.alloc());
    // The line of the verdict has 31 bytes.
    let mut room = [0; 30];
    let words = ["check", PATH];
    let status = status_of(rt.alloc(), &words, &file, room.as_mut_slice(), &mut told)?;
    reads(&rt, &told, "siptrace: cannot write\n");
    is(&rt, status, 4);
    Ok(())
}
