//! The entries of a log, one after another.
ghost use Rattle.std.specs.Prelude.{◌≡◌, ◌+◌, ◌<◌, ◌≤◌, [], IfOk, IfSome, OnSome};
ghost use Rattle.sip_standard.specs.Times.{last_moment};
ghost use Rattle.sip_log.specs.inner.Line.{KeepsLimits, cut_head, head_of, moment_of};
ghost use Rattle.sip_log.specs.inner.Window.{unread};
ghost use Rattle.sip_log.specs.inner.Entry.{MessageComes, BodyComes, HeadComes, LineComes, EntryComes};
ghost use Rattle.sip_standard.specs.LogSays.{most_entries};
ghost use Rattle.sip_log.specs.Told.{TellsWhatComes, entry_next, next_of};
ghost use Rattle.sip_log.specs.Reading.{Continues};
ghost use Rattle.sip_log.specs.inner.Line as log;

use crate::line::{Head, read_head};
use crate::log_error::LogError;
use crate::window::Window;
use sip_standard::{Format, Source};
use sip_times::Action;

/// The most bytes of an entry's line with its line feed.
pub(crate) const LONGEST_LINE: usize = 32;

/// The most entries of a log.
pub(crate) const MOST_ENTRIES: u64 = 1_000_000;

/// An entry: what was done at a moment, in milliseconds, and with which message. A mark and a restart have no message.
#[derive(Debug, Drop)]
pub struct Entry {
    pub number: u64,
    pub moment: u64,
    pub action: Action,
    pub bytes: Vec<u8>,
}

/// Reads the entry after `count` others, the last of which is at the moment `last`, into the buffer. The answer is `None` at the end
/// of the log.
#[inline(always)]
pub(crate) fn next_entry<R: Source>(
    buffer: Vec<u8>,
    window: &mut Window,
    source: &mut R,
    format: Format,
    count: u64,
    last: u64,
) -> Result<Option<Entry>, LogError>
    requires { count ≤ most_entries }
    ensures few { IfOk result (λ e. OnSome e (count < most_entries)) }
    ensures entry { IfOk result (λ e. IfSome e (Continues (count + 1) last)) }
    ensures says { TellsWhatComes (unread window.old (R.left source.old)) (unread window.new (R.left source.new))
        (R.has_failed source.old) (R.has_failed source.new) (EntryComes format count last) next_of result }
{
    if !window.hold(source, 1)? {
        return Ok(None);
    }
    if count >= MOST_ENTRIES {
        return Err(LogError::Limit);
    }
    match read_entry(buffer, window, source, format, count + 1, last) {
        Ok(entry) => Ok(Some(entry)),
        Err(error) => Err(error),
    }
}

/// Reads an entry that must come, since bytes are left: its line, and what stands after it.
#[inline(always)]
fn read_entry<R: Source>(
    buffer: Vec<u8>,
    window: &mut Window,
    source: &mut R,
    format: Format,
    number: u64,
    last: u64,
) -> Result<Entry, LogError>
    ensures entry { IfOk result (Continues number last) }
    ensures says { TellsWhatComes (unread window.old (R.left source.old)) (unread window.new (R.left source.new))
        (R.has_failed source.old) (R.has_failed source.new) (LineComes format last) entry_next result }
{
    // Where no line feed is among the first 32 bytes, the log ends within the line if fewer are left; otherwise it is no line of an entry.
    let Some(len) = window.line_len(source, LONGEST_LINE)? else {
        if window.as_slice().len() < LONGEST_LINE {
            return Err(LogError::Truncated);
        }
        return Err(LogError::EntryLine);
    };
    let Some(head) = read_head(format, &window.as_slice()[..len]) else {
        return Err(LogError::EntryLine);
    };
    window.consume(len + 1);
    after_line(buffer, window, source, number, last, head)
}

/// Reads what stands after an entry's line, where the line keeps the limits and the order.
#[inline(always)]
fn after_line<R: Source>(
    buffer: Vec<u8>,
    window: &mut Window,
    source: &mut R,
    number: u64,
    last: u64,
    head: Head,
) -> Result<Entry, LogError>
    ensures entry { IfOk result (Continues number last) }
    ensures says { (h : log.Head) → head ≡ cut_head h → TellsWhatComes (unread window.old (R.left source.old)) (unread window.new (R.left source.new))
        (R.has_failed source.old) (R.has_failed source.new) (HeadComes last h) entry_next result }
{
    if !head.is_within_limits() {
        return Err(LogError::Limit);
    }
    if head.moment() < last {
        return Err(LogError::Order);
    }
    read_body(buffer, window, source, number, head)
}

/// Reads the message after an entry's line, or nothing where the entry has none.
#[inline(always)]
fn read_body<R: Source>(
    mut buffer: Vec<u8>,
    window: &mut Window,
    source: &mut R,
    number: u64,
    head: Head,
) -> Result<Entry, LogError>
    requires { KeepsLimits (head_of head) }
    ensures entry { IfOk result (Continues number (moment_of (head_of head))) }
    ensures says { TellsWhatComes (unread window.old (R.left source.old)) (unread window.new (R.left source.new))
        (R.has_failed source.old) (R.has_failed source.new) (BodyComes (head_of head)) entry_next result }
{
    buffer.clear();
    match head {
        Head::Message(action, moment, len) => {
            read_message(buffer, window, source, number, action, moment, len)
        }
        Head::Plain(action, moment) => Ok(Entry {
            number,
            moment,
            action,
            bytes: buffer,
        }),
    }
}

/// Reads a message of `len` bytes and the line feed after it. Its bytes are copied once, out of the window into the empty buffer.
#[inline(always)]
fn read_message<R: Source>(
    mut buffer: Vec<u8>,
    window: &mut Window,
    source: &mut R,
    number: u64,
    action: Action,
    moment: u64,
    len: u64,
) -> Result<Entry, LogError>
    requires moment { moment ≤ last_moment }
    requires len { len ≤ 65535 }
    requires empty { buffer.items ≡ [] }
    ensures entry { IfOk result (Continues number moment) }
    ensures says { TellsWhatComes (unread window.old (R.left source.old)) (unread window.new (R.left source.new))
        (R.has_failed source.old) (R.has_failed source.new) (MessageComes action moment len) entry_next result }
{
    let len = len as usize;
    // The message and its LF are read into the window, as far as the source has them.
    if !window.hold(source, len + 1)? {
        return Err(LogError::Truncated);
    }
    let held = window.as_slice();
    if held[len] != b'\n' {
        return Err(LogError::EntryLine);
    }
    buffer.extend_from_slice(&held[..len])?;
    window.consume(len + 1);
    Ok(Entry {
        number,
        moment,
        action,
        bytes: buffer,
    })
}
