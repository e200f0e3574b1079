//! The lines of a log's header: the format, the times of the element, and the rules that it was built by.
ghost use Rattle.std.specs.Prelude.{◌≡◌, ℕ, List, [], MatchOption};
ghost use Rattle.sip_standard.specs.Times.{Times, AreTimes};
ghost use Rattle.sip_standard.specs.declared.rules.Rules.{Rules};
ghost use Rattle.sip_standard.specs.declared.rules.Rules.TheVariants.{R6026};
ghost use Rattle.sip_standard.specs.LogHeader.{rules_text};
ghost use Rattle.sip_log.specs.inner.Header.{NumberAfter, Tolerances, TimesLine, title_text, HeaderComes, ComesSecond, ComesThird};
ghost use Rattle.sip_log.specs.Next.{gives};
ghost use Rattle.sip_log.specs.inner.Number.{cut};
ghost use Rattle.sip_log.specs.Told.{TellsWhatComes};
ghost use Rattle.sip_log.specs.inner.Window.{unread};

use crate::log_error::LogError;
use crate::number::number;
use crate::window::Window;
use memchr::memchr;
use sip_standard::{Format, Source};
use sip_times::{Params, Rules};

/// The number of bytes of line 1 with its line feed.
const TITLE: usize = 12;

/// The most bytes of line 2 with its line feed, where its numbers are within their limits.
const LONGEST_TIMES: usize = 50;

/// The number of bytes of the line of rules with its line feed.
const RULES: usize = 11;

/// Reads the header. Whatever is wrong in its first two lines is the fault `Header`.
pub(crate) fn read_header<R: Source>(
    window: &mut Window,
    source: &mut R,
) -> Result<(Format, Params), LogError>
    ensures { TellsWhatComes (unread window.old (R.left source.old)) (unread window.new (R.left source.new))
        (R.has_failed source.old) (R.has_failed source.new) HeaderComes gives result }
{
    if !window.hold(source, TITLE)? {
        return Err(LogError::Header);
    }
    let Some(format) = format_of(&window.as_slice()[..TITLE]) else {
        return Err(LogError::Header);
    };
    window.consume(TITLE);
    read_second(window, source, format)
}

/// The format that this line 1 tells, or `None` where it is no line 1.
fn format_of(line: &[u8]) -> Option<Format>
    ensures { MatchOption result ((f : Format) → ¬ (line.now ≡ title_text f)) (λ f. line.now ≡ title_text f) }
{
    if line == b"sip-trace 1\n".as_slice() {
        return Some(Format::One);
    }
    if line == b"sip-trace 2\n".as_slice() {
        return Some(Format::Two);
    }
    None
}

/// Reads line 2, and the line of rules after it where there is one.
fn read_second<R: Source>(
    window: &mut Window,
    source: &mut R,
    format: Format,
) -> Result<(Format, Params), LogError>
    ensures { TellsWhatComes (unread window.old (R.left source.old)) (unread window.new (R.left source.new))
        (R.has_failed source.old) (R.has_failed source.new) (ComesSecond format) gives result }
{
    let Some(len) = window.line_len(source, LONGEST_TIMES)? else {
        return Err(LogError::Header);
    };
    let Some(times) = read_times(format, &window.as_slice()[..len]) else {
        return Err(LogError::Header);
    };
    window.consume(len + 1);
    read_third(window, source, format, times)
}

/// Reads the line of rules, where there is one. No entry begins with its first letter, so that it does not wait for an entry.
fn read_third<R: Source>(
    window: &mut Window,
    source: &mut R,
    format: Format,
    times: Params,
) -> Result<(Format, Params), LogError>
    requires { times.rules ≡ R6026 }
    ensures { TellsWhatComes (unread window.old (R.left source.old)) (unread window.new (R.left source.new))
        (R.has_failed source.old) (R.has_failed source.new) (ComesThird format times) gives result }
{
    if !window.hold(source, 1)? {
        return Ok((format, times));
    }
    if window.as_slice()[0] != b'r' {
        return Ok((format, times));
    }
    if !window.hold(source, RULES)? {
        return Ok((format, times));
    }
    let Some(rules) = rules_of(&window.as_slice()[..RULES]) else {
        return Ok((format, times));
    };
    window.consume(RULES);
    Ok((format, times.with_rules(rules)))
}

/// The rules that this line tells, or `None` where it is no line of rules.
fn rules_of(line: &[u8]) -> Option<Rules>
    ensures { MatchOption result ((r : Rules) → ¬ (line.now ≡ rules_text r)) (λ r. line.now ≡ rules_text r) }
{
    if line == b"rules 3261\n".as_slice() {
        return Some(Rules::R3261);
    }
    if line == b"rules 6026\n".as_slice() {
        return Some(Rules::R6026);
    }
    None
}

/// Reads line 2 without its line feed. The answer is `None` where it is no line 2, or a number is outside its limits.
fn read_times(format: Format, line: &[u8]) -> Option<Params>
    ensures { MatchOption result
        ((p : Times) → TimesLine format line.now p → ¬ (AreTimes p))
        (λ p. TimesLine format line.now p × AreTimes p) }
{
    let (t1, rest) = number_after(line, b"t1 ")?;
    let (t2, rest) = number_after(rest, b" t2 ")?;
    let (t4, rest) = number_after(rest, b" t4 ")?;
    let (early, late) = read_tolerances(format, rest)?;
    Params::with_tolerances(t1, t2, t4, early, late)
}

/// Reads the tolerances at the end of line 2: how early an element may be, and how late. In format 1 both are one number.
fn read_tolerances(format: Format, text: &[u8]) -> Option<(u64, u64)>
    ensures { MatchOption result
        ((early late : ℕ) → ¬ (Tolerances format text.now early late))
        (λ r. (early : ℕ) × (late : ℕ) × Tolerances format text.now early late × (r.0 ≡ cut early) × (r.1 ≡ cut late)) }
{
    match format {
        Format::One => {
            let tolerance = last_number(text, b" tolerance ")?;
            Some((tolerance, tolerance))
        }
        Format::Two => {
            let (early, rest) = number_after(text, b" early ")?;
            let late = last_number(rest, b" late ")?;
            Some((early, late))
        }
    }
}

/// Reads a word and the number after it, which must end the text.
fn last_number(text: &[u8], word: &[u8]) -> Option<u64>
    ensures { MatchOption result
        ((n : ℕ) → ¬ (NumberAfter word.now text.now n []))
        (λ r. (n : ℕ) × NumberAfter word.now text.now n [] × (r ≡ cut n)) }
{
    let (value, rest) = number_after(text, word)?;
    if !rest.is_empty() {
        return None;
    }
    Some(value)
}

/// Reads a word and the number after it, up to a blank or the end. The answer has the number and what stands after it.
fn number_after<'a>(text: &'a [u8], word: &[u8]) -> Option<(u64, &'a [u8])>
    ensures { MatchOption result
        ((n : ℕ) (behind : List ℕ) → ¬ (NumberAfter word.now text.now n behind))
        (λ r. (n : ℕ) × NumberAfter word.now text.now n r.1.now × (r.0 ≡ cut n)) }
{
    let text = text.strip_prefix(word)?;
    let len = memchr(b' ', text).unwrap_or(text.len());
    let value = number(&text[..len])?;
    Some((value, &text[len..]))
}
