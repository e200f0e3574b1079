//! The line at which an entry begins.
ghost use Rattle.std.specs.Prelude.{◌≡◌, ◌↔◌, ◌∷◌, ℕ, List, MatchOption, IsTrue};
ghost use Rattle.sip_standard.specs.declared.action.Action.{Action};
ghost use Rattle.sip_log.specs.inner.Number.{cut};
ghost use Rattle.sip_standard.specs.LogEntry.{HasMessage, IsOf, IsWithinLimits};
ghost use Rattle.sip_log.specs.inner.Spelling.{letter, space};
ghost use Rattle.sip_log.specs.inner.Line.{Numbers, HeadLine, cut_head, head_of, moment_of, KeepsLimits};
ghost use Rattle.sip_log.specs.inner.Line as log;

use crate::number::{digits, is_plain, number};
use sip_standard::Format;
use sip_times::Action;

/// The last moment that a log can name, in milliseconds.
const LAST_MOMENT: u64 = 9_999_999_999_999;

/// The most bytes of a message.
const LONGEST_MESSAGE: u64 = 65_535;

/// What an entry's line tells: the action and the moment, and for a message its length too.
#[derive(Clone, Copy)]
pub(crate) enum Head {
    /// A message: its action, its moment and its length.
    Message(Action, u64, u64),
    /// An entry without a message: its action and its moment.
    Plain(Action, u64),
}

impl Head {
    /// The moment, in milliseconds.
    pub(crate) fn moment(self) -> u64
        ensures { result ≡ moment_of (head_of self) }
    {
        match self {
            Head::Message(_, moment, _) | Head::Plain(_, moment) => moment,
        }
    }

    /// Whether the moment and the length are within the limits.
    pub(crate) fn is_within_limits(self) -> bool
        ensures { IsTrue result ↔ KeepsLimits (head_of self) }
    {
        match self {
            Head::Message(_, moment, len) => moment <= LAST_MOMENT
                && (1..=LONGEST_MESSAGE).contains(&len),
            Head::Plain(_, moment) => moment <= LAST_MOMENT,
        }
    }
}

/// Whether an entry of this action has a message.
pub(crate) fn has_message(action: Action) -> bool
    ensures { IsTrue result ↔ HasMessage action }
{
    match action {
        Action::Sent | Action::Received | Action::Failed => true,
        Action::Mark | Action::Restart => false,
    }
}

/// Whether a moment and, where there is one, the length of a message are within the limits.
pub(crate) fn is_within_limits(action: Action, moment: u64, len: u64) -> bool
    ensures { IsTrue result ↔ IsWithinLimits action moment len }
{
    moment <= LAST_MOMENT && (!has_message(action) || (1..=LONGEST_MESSAGE).contains(&len))
}

/// The letter with which the line of an entry with this action begins.
pub(crate) fn letter_of(action: Action) -> u8
    ensures { result ≡ letter action }
{
    match action {
        Action::Sent => b'S',
        Action::Received => b'R',
        Action::Failed => b'F',
        Action::Mark => b'M',
        Action::Restart => b'Z',
    }
}

/// The action of the format whose letter this byte is, if there is one.
fn action_of(format: Format, byte: u8) -> Option<Action>
    ensures { MatchOption result ((a : Action) → IsOf format a → ¬ (byte ≡ letter a)) (λ a. IsOf format a × (byte ≡ letter a)) }
{
    match byte {
        b'S' => Some(Action::Sent),
        b'R' => Some(Action::Received),
        b'F' => Some(Action::Failed),
        b'M' => Some(Action::Mark),
        b'Z' if format == Format::Two => Some(Action::Restart),
        _ => None,
    }
}

/// What stands after the blank that the text begins with, if it begins with one.
fn past_blank(text: &[u8]) -> Option<&[u8]>
    ensures { MatchOption result ((rest : List ℕ) → ¬ (text.now ≡ space ∷ rest)) (λ r. text.now ≡ space ∷ r.now) }
{
    let [b' ', rest @ ..] = text else {
        return None;
    };
    Some(rest)
}

/// Reads a moment, a blank and the length of a message, which must be the whole text.
fn read_numbers(text: &[u8]) -> Option<(u64, u64)>
    ensures { MatchOption result
        ((moment len : ℕ) → ¬ (Numbers text.now moment len))
        (λ r. (moment : ℕ) × (len : ℕ) × Numbers text.now moment len × (r.0 ≡ cut moment) × (r.1 ≡ cut len)) }
{
    let (moment, at) = digits(text);
    if !is_plain(&text[..at]) {
        return None;
    }
    let rest = past_blank(&text[at..])?;
    let len = number(rest)?;
    Some((moment, len))
}

/// Reads an entry's line without its line feed, with each number as `number` keeps it.
pub(crate) fn read_head(format: Format, line: &[u8]) -> Option<Head>
    ensures { MatchOption result
        ((h : log.Head) → ¬ (HeadLine format line.now h))
        (λ r. (h : log.Head) × HeadLine format line.now h × (r ≡ cut_head h)) }
{
    let [byte, b' ', text @ ..] = line else {
        return None;
    };
    let action = action_of(format, *byte)?;
    if has_message(action) {
        let (moment, len) = read_numbers(text)?;
        return Some(Head::Message(action, moment, len));
    }
    let moment = number(text)?;
    Some(Head::Plain(action, moment))
}
