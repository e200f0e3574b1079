//! The entry that comes next, where it stands whole among the bytes that are held.
ghost use Rattle.std.specs.Prelude.{◌≡◌, ◌<◌, ◌≤◌, ◌+◌, ◌++◌, ℕ, List, None, IfSome, MatchOption, drop, length};
ghost use Rattle.sip_standard.specs.declared.action.Action.{Action};
ghost use Rattle.sip_standard.specs.declared.log_reason.LogReason.{LogReason};
ghost use Rattle.sip_log.specs.Next.{gives, stops};
ghost use Rattle.sip_log.specs.Ahead.{item_ahead};
ghost use Rattle.sip_log.specs.inner.Ahead.{ComesAhead, ComesWithout};
ghost use Rattle.sip_log.specs.inner.Entry.{EntryComes, HeadComes, MessageComes};
ghost use Rattle.sip_log.specs.inner.Line.{cut_head};
ghost use Rattle.sip_log.specs.inner.Line as log;
ghost use Rattle.sip_log.specs.inner.Window.{items};

use crate::entry::{LONGEST_LINE, MOST_ENTRIES};
use crate::line::{Head, read_head};
use crate::window::Window;
use sip_standard::Format;
use sip_times::Action;

/// An entry with a message that comes next in a log: the bytes of its message where they were read, and how many bytes it takes with its line.
#[derive(Clone, Copy)]
pub struct Ahead<'a> {
    pub number: u64,
    pub moment: u64,
    pub action: Action,
    pub message: &'a [u8],
    pub size: usize,
}

/// The entry after `count` others, the last of which is at the moment `last`, where it has a message and stands whole in the window. Whatever is
/// wrong with it is left to `next_entry`.
#[inline(always)]
pub(crate) fn entry_ahead(
    window: &Window,
    format: Format,
    count: u64,
    last: u64,
) -> Option<Ahead<'_>>
    ensures { MatchOption result (ComesWithout (EntryComes format count last (items window.now)))
        (λ a. (a.number ≡ count + 1) × ComesAhead format count last (items window.now) a) }
{
    if count >= MOST_ENTRIES {
        return None;
    }
    let len = window.first_end(LONGEST_LINE)?;
    let held = window.as_slice();
    let head = read_head(format, &held[..len])?;
    let (moment, action, message) = head_ahead(&held[len + 1..], last, head)?;
    Some(Ahead {
        number: count + 1,
        moment,
        action,
        message,
        // The line and the message each have a line feed after them.
        size: len + message.len() + 2,
    })
}

/// The moment, the action and the message of an entry whose line was read, where the line keeps the limits and the order, and the message stands
/// whole at the front of the bytes after the line.
#[inline(always)]
fn head_ahead(rest: &[u8], last: u64, head: Head) -> Option<(u64, Action, &[u8])>
    ensures some { IfSome result (λ r. 1 ≤ length r.2.now) }
    ensures within { IfSome result (λ r. length r.2.now < length rest.now) }
    ensures comes { IfSome result (λ r. (h : log.Head) → head ≡ cut_head h → (more : List ℕ)
        → HeadComes last h (rest.now ++ more) (gives (item_ahead r.1 r.0 r.2.now) (drop (length r.2.now + 1) rest.now ++ more))) }
    ensures without { result ≡ None → (h : log.Head) → head ≡ cut_head h → ComesWithout (HeadComes last h rest.now) }
{
    if !head.is_within_limits() {
        return None;
    }
    if head.moment() < last {
        return None;
    }
    match head {
        Head::Message(action, moment, len) => {
            let message = message_ahead(rest, len as usize)?;
            Some((moment, action, message))
        }
        Head::Plain(_, _) => None,
    }
}

/// The message of `len` bytes at the front of the bytes, where it and the line feed after it are there.
#[inline(always)]
fn message_ahead(rest: &[u8], len: usize) -> Option<&[u8]>
    ensures long { IfSome result (λ text. length text.now ≡ len) }
    ensures within { IfSome result (λ text. length text.now < length rest.now) }
    ensures comes { IfSome result (λ text. (action : Action) (moment : ℕ) (more : List ℕ)
        → MessageComes action moment len (rest.now ++ more) (gives (item_ahead action moment text.now) (drop (len + 1) rest.now ++ more))) }
    ensures none { result ≡ None → (action : Action) (moment : ℕ) → (fault : LogReason) × MessageComes action moment len rest.now (stops fault) }
{
    if rest.len() <= len {
        return None;
    }
    if rest[len] != b'\n' {
        return None;
    }
    Some(&rest[..len])
}
