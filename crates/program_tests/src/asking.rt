//! What words ask for.

use crate::wants::holds;
use sip_program::{Asked, asked};
use std::alloc::{AllocError, Global};
use std::process::Abort;
use std::test::Fail;

/// These words as texts that the test owns.
pub(crate) fn texts(alloc: Global, words: &[&str]) -> Result<Vec<String>, AllocError> {
    let mut texts = Vec::new(alloc);
    for word in words {
        texts.push(String::from_str(alloc, word)?)?;
    }
    Ok(texts)
}

/// Checks that these words ask for nothing.
fn asks_for_nothing(rt: &(impl Abort + AllocGlobal), words: &[&str]) -> Result<(), Fail> {
    let words = texts(rt.alloc(), words)?;
    holds(rt, asked(words.as_slice()).is_none(), "no form of words");
    Ok(())
}

/// Whether both ask for the same.
fn is_same(asked: Asked<'_>, want: Asked<'_>) -> bool {
    match (asked, want) {
        (Asked::Input, Asked::Input) => true,
        (Asked::Check(file), Asked::Check(other)) => file == other,
        (Asked::Show(file), Asked::Show(other)) => file == other,
        (Asked::States(file, entry), Asked::States(other, number)) => {
            file == other && entry == number
        }
        _ => false,
    }
}

/// Checks that these words ask for this.
fn asks_for(rt: &(impl Abort + AllocGlobal), words: &[&str], want: Asked<'_>) -> Result<(), Fail> {
    let words = texts(rt.alloc(), words)?;
    let asked = asked(words.as_slice()).ok_or("nothing is asked for")?;
    holds(rt, is_same(asked, want), "what is asked for");
    Ok(())
}

/// Each form of words. The path of a file may be any word: a hyphen, the name of a form, or no byte at all.
#[test]
fn words_ask_for_one_thing(rt: HostRuntime) -> Result<(), Fail> {
    asks_for(&rt, &[], Asked::Input)?;
    asks_for(&rt, &["check", "-"], Asked::Check("-"))?;
    asks_for(&rt, &["show", "check"], Asked::Show("check"))?;
    asks_for(
        &rt,
        &["states", "", "1000000"],
        Asked::States("", 1_000_000),
    )
}

/// Words that lack a file, that begin otherwise, or in which an entry has no number, a number that is out of the limits or spelled otherwise, or one
/// word more after it.
#[test]
fn other_words_ask_for_nothing(rt: HostRuntime) -> Result<(), Fail> {
    for words in [
        ["check"].as_slice(),
        ["", "log"].as_slice(),
        ["--", "check", "log"].as_slice(),
        ["states", "log"].as_slice(),
        ["states", "log", "0"].as_slice(),
        ["states", "log", "01"].as_slice(),
        ["states", "log", "+1"].as_slice(),
        ["states", "log", "1000001"].as_slice(),
        ["states", "log", "1", ""].as_slice(),
    ] {
        asks_for_nothing(&rt, words)?;
    }
    Ok(())
}
