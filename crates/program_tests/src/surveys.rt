//! `sipsurvey` on a platform of known words with a known file, and each way in which it fails.
use crate::asking::texts;
use crate::forms::{PATH, desk, hasty, registered};
use crate::wants::{holds, is, reads};
use sip_log::ToWrite;
use sip_program::Host;
use sip_survey_program::{Asked, Failure, Log, asked, end, program, read_failure, run};
use std::alloc::Global;
use std::io;
use std::process::Abort;
use std::test::Fail;

/// What `sipsurvey` says where it is asked for nothing that it knows.
const USAGE: &str = "sipsurvey: usage: sipsurvey [--forget MILLISECONDS] [--part K/N] [FILE]\n";

/// Runs the whole program with these words, this standard input and this file, so that it writes and tells to these lists. It answers the status.
fn status_of(
    alloc: Global,
    words: &[&str],
    input: &str,
    file: &str,
    written: &mut Vec<u8>,
    told: &mut Vec<u8>,
) -> Result<u8, Fail> {
    let mut host = Host::new(desk(alloc, words, file)?, input.as_bytes());
    let mut output = ToWrite::new(written);
    let mut errors = ToWrite::new(told);
    Ok(program(alloc, &mut host, &mut output, &mut errors))
}

/// Checks what the whole program writes and tells, and its status, with these words, this standard input and this file.
fn ends(
    rt: &(impl Abort + AllocGlobal),
    words: &[&str],
    input: &str,
    file: &str,
    want: (&str, &str, u8),
) -> Result<(), Fail> {
    let mut written = Vec::new(rt.alloc());
    let mut told = Vec::new(rt.alloc());
    let status = status_of(rt.alloc(), words, input, file, &mut written, &mut told)?;
    reads(rt, &written, want.0);
    reads(rt, &told, want.1);
    is(rt, status, want.2);
    Ok(())
}

/// A log without a finding and one with a breach.
#[test]
fn surveys_the_standard_input_or_the_file(rt: HostRuntime) -> Result<(), Fail> {
    let right = registered(rt.alloc())?;
    let wrong = hasty(rt.alloc())?;
    surveys_either(&rt, right.as_str(), wrong.as_str())
}

/// Checks what is told where one of these logs is the standard input and the other the file: of the former without words, and of the latter
/// where they name it.
fn surveys_either(rt: &(impl Abort + AllocGlobal), right: &str, wrong: &str) -> Result<(), Fail> {
    let none = ("end entries 4 transactions 1 findings 0\n", "", 0);
    let found = (
        "breach 2 transaction 1 client REGISTER z9hG4bKr1 1 2\nend entries 2 transactions 1 findings 1\n",
        "",
        1,
    );
    ends(rt, &[], right, wrong, none)?;
    ends(rt, &[], wrong, right, found)?;
    ends(rt, &[PATH], wrong, right, none)?;
    ends(rt, &[PATH], right, wrong, found)
}

// FNV-1a of z9hg4bkr1 is 2386688665: the messages with this branch fall into part 2 of 2.
#[test]
fn surveys_a_part_alone(rt: HostRuntime) -> Result<(), Fail> {
    let log = hasty(rt.alloc())?;
    let none = ("end entries 2 transactions 0 findings 0\n", "", 0);
    ends(&rt, &["--part", "1/2"], log.as_str(), "", none)
}

/// The whole log has one breach, and its part 1 of 2 has no transaction. A standard input without a byte has no header.
#[test]
fn surveys_and_may_forget(rt: HostRuntime) -> Result<(), Fail> {
    let log = hasty(rt.alloc())?;
    let found = (
        "breach 2 transaction 1 client REGISTER z9hG4bKr1 1 2\nend entries 2 transactions 1 findings 1\n",
        "",
        1,
    );
    ends(&rt, &["--forget", "0", PATH], "", log.as_str(), found)?;
    let none = ("end entries 2 transactions 0 findings 0\n", "", 0);
    let words = ["--forget", "0", "--part", "1/2"];
    ends(&rt, &words, log.as_str(), "", none)?;
    let header = ("log fault 0 20 Header\n", "", 2);
    ends(&rt, &["--forget", "0"], "", "", header)
}

/// A log without a header has the fault 20 before its first entry; a header alone is a log without entries.
#[test]
fn ends_with_the_fault_of_the_log(rt: HostRuntime) -> Result<(), Fail> {
    let header = ("log fault 0 20 Header\n", "", 2);
    ends(&rt, &[], "", "", header)?;
    let empty = "sip-trace 1\nt1 500 t2 4000 t4 5000 tolerance 50\n";
    let none = ("end entries 0 transactions 0 findings 0\n", "", 0);
    ends(&rt, &[], empty, "", none)
}

/// A file that is not there cannot be read ("a log" lacks the blank at the end of `PATH`), and two names of files are no form of words.
#[test]
fn tells_of_each_failure_of_a_survey(rt: HostRuntime) -> Result<(), Fail> {
    let file = registered(rt.alloc())?;
    let file = file.as_str();
    ends(
        &rt,
        &["a log"],
        "",
        file,
        ("", "sipsurvey: cannot read\n", 4),
    )?;
    ends(&rt, &[PATH, PATH], file, file, ("", USAGE, 5))
}

/// The writer takes 30 bytes, which are fewer than the survey has: the run fails to write.
#[test]
fn fails_where_a_line_cannot_be_written(rt: HostRuntime) -> Result<(), Fail> {
    let file = hasty(rt.alloc())?;
    let mut room = [0; 30];
    let mut host = Host::new(desk(rt.alloc(), &[], "")?, file.as_bytes());
    let mut output = ToWrite::new(room.as_mut_slice());
    let ended = run(rt.alloc(), &mut host, &mut output);
    holds(&rt, matches!(ended, Err(Failure::Write)), "fails to write");
    Ok(())
}

/// Checks that a survey is asked for of this file, or of the standard input, and of no part of it; and after how many milliseconds it may forget.
fn is_whole(rt: &impl Abort, asked: &Asked<'_>, file: Option<&str>, forget: Option<u32>) {
    let is_so = match asked.log {
        Log::Input => file.is_none(),
        Log::File(path) => Some(path) == file,
    };
    holds(rt, is_so, "the log");
    holds(rt, asked.part.is_none(), "no part");
    holds(rt, asked.forget == forget, "what may be forgotten");
}

/// Checks that these words ask for a survey of this file, or of the standard input, and of no part of it; and after how many milliseconds it may
/// forget.
fn asks_for(
    rt: &(impl Abort + AllocGlobal),
    words: &[&str],
    file: Option<&str>,
    forget: Option<u32>,
) -> Result<(), Fail> {
    let words = texts(rt.alloc(), words)?;
    let asked = asked(words.as_slice()).ok_or("nothing is asked for")?;
    is_whole(rt, &asked, file, forget);
    Ok(())
}

/// One word is the name of a file, whatever it is.
#[test]
fn asks_by_at_most_one_word(rt: HostRuntime) -> Result<(), Fail> {
    asks_for(&rt, &[], None, None)?;
    asks_for(&rt, &["--part"], Some("--part"), None)
}

// FNV-1a of z9hg4bka is 431978031, which is odd, and FNV-1a of z9hg4bkb is 448755650: the branch a falls into part 2 of 2, and b into part 1, in
// capitals as well.
#[test]
fn asks_for_a_part_by_two_words(rt: HostRuntime) -> Result<(), Fail> {
    let words = texts(rt.alloc(), &["--part", "2/2"])?;
    let asked = asked(words.as_slice()).ok_or("a part")?;
    let part = asked.part.ok_or("a part")?;
    holds(&rt, part.has_branch(b"z9hG4bKa"), "a");
    holds(&rt, !part.has_branch(b"Z9HG4BKB"), "b");
    Ok(())
}

/// The first two words ask to forget, and the third is the name of a file. A fourth is one too many.
#[test]
fn asks_to_forget_by_two_words(rt: HostRuntime) -> Result<(), Fail> {
    let words = ["--forget", "60000", "--forget", "60000"];
    asks_for(&rt, &words[..2], None, Some(60000))?;
    asks_for(&rt, &words[..3], Some("--forget"), Some(60000))?;
    let words = texts(rt.alloc(), &words)?;
    holds(&rt, asked(words.as_slice()).is_none(), "no form of words");
    Ok(())
}

/// A refused growth ends the program with status 4 and a line; a survey that was told ends it with its own status, here 3, and no line.
#[test]
fn ends_a_survey_with_the_line_of_its_failure(rt: HostRuntime) -> Result<(), Fail> {
    let mut told = Vec::new(rt.alloc());
    let mut errors = ToWrite::new(&mut told);
    let refused = read_failure(io::Error::from(io::ErrorKind::OutOfMemory));
    is(&rt, end(Err(refused), &mut errors), 4);
    is(&rt, end(Ok(3), &mut errors), 3);
    drop(errors);
    reads(&rt, &told, "sipsurvey: out of memory\n");
    Ok(())
}
