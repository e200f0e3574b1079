//! What std gives: the words of the process, seeds, and files.
use crate::wants::holds;
use sip_platform::StdPlatform;
use sip_program::Platform;
use std::test::Fail;

/// The process that runs the test has a word at least, its own name.
#[test]
fn gives_words_seeds_and_files_of_std(rt: HostRuntime) -> Result<(), Fail> {
    let platform = StdPlatform::new(rt);
    holds(&rt, !platform.words()?.is_empty(), "words");
    holds(&rt, platform.open("no file is here").is_err(), "no file");
    holds(&rt, platform.seed().is_ok(), "a seed");
    Ok(())
}
