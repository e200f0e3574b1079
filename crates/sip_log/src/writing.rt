//! Writes a log: its header, and then its entries.
ghost use Rattle.std.specs.Prelude.{◌≡◌, ◌++◌, ◌∷◌, [], ℕ, List, length, decimal, codes, true, OnOk, OnErr};
ghost use Rattle.std.specs.Io.KnownBytes.{Appends};
ghost use Rattle.sip_standard.specs.LogHeader.{timers_text};
ghost use Rattle.sip_log.specs.Writing.{header_text, written_rules, Puts, Writes, WritesWithin};
ghost use Rattle.sip_standard.specs.LogEntry.{entry_says, body_says, IsWithinLimits};
ghost use Rattle.sip_log.specs.inner.Spelling.{line_text, length_text, letter};
ghost use Rattle.sip_standard.specs.LogSays.{line_feed};
ghost use Rattle.sip_standard.specs.declared.format.Format.TheVariants.{One, Two};

use crate::line::{is_within_limits, letter_of};
use crate::write_error::WriteError;
use itoa::Buffer;
use sip_standard::{Broken, Sink};
use sip_times::{Action, Params, Rules};

/// Writes the header of a log of format 1: the format, the times of the element, and its rules where they are those of
/// RFC 3261. Takes no memory.
///
/// `WriteError::Limit` is answered where early and late differ, since this format has one tolerance. Nothing is written then.
pub fn write_header<W: Sink>(writer: &mut W, params: &Params) -> Result<(), WriteError>
    ensures { WritesWithin (params.now.early ≡ params.now.late) writer.old writer.new
        (Writes (W.written writer.old) (W.written writer.new) (W.has_failed writer.old) (W.has_failed writer.new)
        (header_text One params.now) result) result }
{
    if params.early() != params.late() {
        return Err(WriteError::Limit);
    }
    put_header(writer, params)?;
    Ok(())
}

/// Writes the header of a log of format 2: the format, the times of the element, and its rules where they are those of
/// RFC 3261. Takes no memory.
pub fn write_header_2<W: Sink>(writer: &mut W, params: &Params) -> Result<(), WriteError>
    ensures { Writes (W.written writer.old) (W.written writer.new) (W.has_failed writer.old) (W.has_failed writer.new)
        (header_text Two params.now) result }
{
    writer.put(b"sip-trace 2\n")?;
    put_timers(writer, params)?;
    put_named(writer, b" early ", params.early())?;
    put_named(writer, b" late ", params.late())?;
    writer.put(b"\n")?;
    put_rules(writer, params.rules())?;
    Ok(())
}

/// Writes the header of format 1, with the late tolerance as its only one.
fn put_header<W: Sink>(writer: &mut W, params: &Params) -> Result<(), Broken>
    ensures { Puts (W.written writer.old) (W.written writer.new) (W.has_failed writer.old) (W.has_failed writer.new)
        (header_text One params.now) result }
{
    writer.put(b"sip-trace 1\n")?;
    put_timers(writer, params)?;
    put_named(writer, b" tolerance ", params.late())?;
    writer.put(b"\n")?;
    put_rules(writer, params.rules())
}

/// Writes T1, T2 and T4 with their names.
fn put_timers<W: Sink>(writer: &mut W, params: &Params) -> Result<(), Broken>
    ensures { Puts (W.written writer.old) (W.written writer.new) (W.has_failed writer.old) (W.has_failed writer.new)
        (timers_text params.now) result }
{
    put_named(writer, b"t1 ", params.t1())?;
    put_named(writer, b" t2 ", params.t2())?;
    put_named(writer, b" t4 ", params.t4())
}

/// Writes the line of rules where they are those of RFC 3261, and nothing else.
fn put_rules<W: Sink>(writer: &mut W, rules: Rules) -> Result<(), Broken>
    ensures { Puts (W.written writer.old) (W.written writer.new) (W.has_failed writer.old) (W.has_failed writer.new)
        (written_rules rules) result }
{
    match rules {
        Rules::R3261 => writer.put(b"rules 3261\n"),
        Rules::R6026 => Ok(()),
    }
}

/// Writes an entry: its action, its moment in milliseconds, and its message. The bytes play no part in a mark or a restart.
/// Takes no memory.
///
/// `WriteError::Limit` is answered where the moment is above 9,999,999,999,999, or a message has no byte or more than
/// 65,535; nothing is written then.
pub fn write_entry<W: Sink>(
    writer: &mut W,
    action: Action,
    moment: u64,
    bytes: &[u8],
) -> Result<(), WriteError>
    ensures { WritesWithin (IsWithinLimits action moment (length bytes.now)) writer.old writer.new
        (Writes (W.written writer.old) (W.written writer.new) (W.has_failed writer.old) (W.has_failed writer.new)
        (entry_says (record { action = action; moment = moment; text = bytes.now })) result) result }
{
    if !is_within_limits(action, moment, bytes.len() as u64) {
        return Err(WriteError::Limit);
    }
    put_entry(writer, action, moment, bytes)?;
    Ok(())
}

/// Writes the spelling of an entry, whether or not it is within the limits. The bytes play no part in a mark or a restart.
/// Takes no memory.
pub fn put_entry<W: Sink>(
    writer: &mut W,
    action: Action,
    moment: u64,
    bytes: &[u8],
) -> Result<(), Broken>
    ensures { Puts (W.written writer.old) (W.written writer.new) (W.has_failed writer.old) (W.has_failed writer.new)
        (entry_says (record { action = action; moment = moment; text = bytes.now })) result }
{
    put_line(writer, action, moment, bytes.len() as u64)?;
    put_body(writer, action, bytes)
}

/// Writes the line of an entry with its line feed.
fn put_line<W: Sink>(writer: &mut W, action: Action, moment: u64, len: u64) -> Result<(), Broken>
    ensures { Puts (W.written writer.old) (W.written writer.new) (W.has_failed writer.old) (W.has_failed writer.new)
        (line_text action moment len ++ line_feed ∷ []) result }
{
    writer.put(&[letter_of(action)])?;
    put_named(writer, b" ", moment)?;
    put_length(writer, action, len)?;
    writer.put(b"\n")
}

/// Writes the length of a message, as it stands after the moment, or nothing where the entry has no message.
fn put_length<W: Sink>(writer: &mut W, action: Action, len: u64) -> Result<(), Broken>
    ensures { Puts (W.written writer.old) (W.written writer.new) (W.has_failed writer.old) (W.has_failed writer.new)
        (length_text action len) result }
{
    match action {
        Action::Sent | Action::Received | Action::Failed => put_named(writer, b" ", len),
        Action::Mark | Action::Restart => Ok(()),
    }
}

/// Writes a message with its line feed, or nothing where the entry has no message.
fn put_body<W: Sink>(writer: &mut W, action: Action, bytes: &[u8]) -> Result<(), Broken>
    ensures { Puts (W.written writer.old) (W.written writer.new) (W.has_failed writer.old) (W.has_failed writer.new)
        (body_says action bytes.now) result }
{
    match action {
        Action::Sent | Action::Received | Action::Failed => {
            writer.put(bytes)?;
            writer.put(b"\n")
        }
        Action::Mark | Action::Restart => Ok(()),
    }
}

/// Writes a name, with the blanks that it has, and the number after it.
fn put_named<W: Sink>(writer: &mut W, name: &[u8], number: u64) -> Result<(), Broken>
    ensures { Puts (W.written writer.old) (W.written writer.new) (W.has_failed writer.old) (W.has_failed writer.new)
        (name.now ++ decimal number) result }
{
    writer.put(name)?;
    writer.put(Buffer::new().format(number).as_bytes())
}
