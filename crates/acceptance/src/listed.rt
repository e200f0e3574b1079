//! What is listed of an entry, as text.
ghost use Rattle.std.specs.Prelude.{◌≡◌, false};

use crate::notation::log_of;
use crate::pieces::Pieces;
use crate::wants::reads;
use sip_log::Source;
use sip_verdict::{JudgeError, Listing, render, states_at};
use std::alloc::Global;
use std::hash::{BuildHasherDefault, FoldHasher};
use std::process::Abort;
use std::test::Fail;

/// The words of a log, an entry, and what is listed of it.
pub(crate) type Listed = (&'static str, u64, &'static str);

/// The text of a listing, `stopped` and the verdict, or `no entry`.
fn text_of(alloc: Global, listing: Listing) -> Result<String, JudgeError> {
    match listing {
        Listing::Text(text) => Ok(text),
        Listing::Stopped(verdict) => {
            let verdict = render(alloc, &verdict)?;
            Ok(format!(in alloc; "stopped {verdict}")?)
        }
        Listing::NoEntry => Ok(String::from_str(alloc, "no entry")?),
    }
}

/// The text of what is listed of an entry of the log that a source hands out.
fn listing_of<S: Source>(alloc: Global, source: &mut S, entry: u64) -> Result<String, JudgeError>
    requires { S.has_failed source.old ≡ false }
{
    let hasher = BuildHasherDefault::<FoldHasher>::new();
    let listing = states_at(alloc, source, hasher, entry)?;
    text_of(alloc, listing)
}

/// The text of what is listed of an entry of the log of these bytes.
fn listing_on(alloc: Global, bytes: &[u8], entry: u64) -> Result<String, JudgeError> {
    listing_of(alloc, &mut Pieces::cut_at(bytes, bytes.len()), entry)
}

/// The text of what is listed where the bytes come in pieces of this size, and the source fails after this many calls.
pub(crate) fn listing_failing(
    alloc: Global,
    bytes: &[u8],
    (size, calls): (usize, usize),
    entry: u64,
) -> Result<String, JudgeError> {
    listing_of(alloc, &mut Pieces::failing_in(bytes, size, calls), entry)
}

/// Checks what is listed of an entry of the log of these words.
pub(crate) fn lists(
    rt: &(impl Abort + AllocGlobal),
    (words, entry, want): (&str, u64, &str),
) -> Result<(), Fail> {
    let log = log_of(rt.alloc(), words)?;
    let text = listing_on(rt.alloc(), log.as_str().as_bytes(), entry)?;
    reads(rt, text.as_str(), want, words);
    Ok(())
}
