//! What the program writes where it has a log, and the status that it ends with.
ghost use Rattle.std.specs.Prelude.{◌≡◌, ◌++◌, ◌∷◌, [], false, OnOk, IfOk, IfErr};
ghost use Rattle.std.specs.Io.KnownBytes.{Appends};
ghost use Rattle.sip_standard.specs.LogSays.{line_feed};
ghost use Rattle.sip_standard.specs.Rendering.{rendered};
ghost use Rattle.sip_standard.specs.Answers.{IsJudged, IsShown, IsListed, listing_text};
ghost use Rattle.sip_program.specs.Failures.{Blames};

use crate::status::{status_of, status_of_listing, status_of_shown};
use sip_log::{Sink, Source};
use sip_standard::Failure;
use sip_verdict::{Listing, Verdict, judge, render, show, states_at};
use std::alloc::Global;
use std::hash::BuildHasher;

/// Judges the log that the reader has left, and writes the verdict. It answers the status of the verdict.
pub fn check<R: Source, W: Sink, H: BuildHasher + Drop>(
    alloc: Global,
    seed: H,
    reader: &mut R,
    writer: &mut W,
) -> Result<u8, Failure>
    requires { R.has_failed reader.old ≡ false }
    ensures judged { IfOk result (IsJudged (R.left reader.old) (W.written writer.old) (W.written writer.new)) }
    ensures fine { OnOk result ((R.has_failed reader.new ≡ false) × (W.has_failed writer.new ≡ W.has_failed writer.old)) }
    ensures err { IfErr result (Blames (R.has_failed reader.new) (W.has_failed writer.new)) }
{
    let verdict = judge(alloc, reader, seed)?;
    put_verdict(alloc, &verdict, writer)?;
    Ok(status_of(&verdict))
}

/// Shows the log that the reader has left. It answers the status of how the log ends.
pub fn show_log<R: Source, W: Sink>(
    alloc: Global,
    reader: &mut R,
    writer: &mut W,
) -> Result<u8, Failure>
    ensures shown { IfOk result (IsShown (R.left reader.old) (W.written writer.old) (W.written writer.new)) }
    ensures fine { OnOk result ((R.has_failed reader.new ≡ R.has_failed reader.old) × (W.has_failed writer.new ≡ W.has_failed writer.old)) }
    ensures err { IfErr result (Blames (R.has_failed reader.new) (W.has_failed writer.new)) }
{
    let shown = show(alloc, reader, writer)?;
    Ok(status_of_shown(&shown))
}

/// Lists the states of the transactions that an entry of the reader's log concerns. It answers the status of the listing.
pub fn list_states<R: Source, W: Sink, H: BuildHasher + Drop>(
    alloc: Global,
    seed: H,
    reader: &mut R,
    entry: u64,
    writer: &mut W,
) -> Result<u8, Failure>
    requires { R.has_failed reader.old ≡ false }
    ensures listed { IfOk result (IsListed entry (R.left reader.old) (W.written writer.old) (W.written writer.new)) }
    ensures fine { OnOk result ((R.has_failed reader.new ≡ false) × (W.has_failed writer.new ≡ W.has_failed writer.old)) }
    ensures err { IfErr result (Blames (R.has_failed reader.new) (W.has_failed writer.new)) }
{
    let listing = states_at(alloc, reader, seed, entry)?;
    put_listing(alloc, &listing, writer)?;
    Ok(status_of_listing(&listing))
}

/// Writes a verdict on a line.
fn put_verdict<W: Sink>(alloc: Global, verdict: &Verdict, writer: &mut W) -> Result<(), Failure>
    ensures text { OnOk result (Appends (W.written writer.old) (W.written writer.new) (rendered verdict.now ++ line_feed ∷ [])) }
    ensures fine { OnOk result (W.has_failed writer.new ≡ W.has_failed writer.old) }
    ensures err { IfErr result (Blames false (W.has_failed writer.new)) }
{
    let mut line = render(alloc, verdict)?;
    line.push_str("\n")?;
    writer.put(line.as_str().as_bytes())?;
    Ok(())
}

/// Writes what is listed of an entry.
fn put_listing<W: Sink>(alloc: Global, listing: &Listing, writer: &mut W) -> Result<(), Failure>
    ensures text { OnOk result (Appends (W.written writer.old) (W.written writer.new) (listing_text listing.now)) }
    ensures fine { OnOk result (W.has_failed writer.new ≡ W.has_failed writer.old) }
    ensures err { IfErr result (Blames false (W.has_failed writer.new)) }
{
    match listing {
        Listing::Text(text) => Ok(writer.put(text.as_str().as_bytes())?),
        Listing::Stopped(verdict) => put_verdict(alloc, verdict, writer),
        Listing::NoEntry => Ok(writer.put(b"no entry\n")?),
    }
}
