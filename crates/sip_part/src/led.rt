//! The branch that stands plainly in the first Via of a message.
ghost use Rattle.std.specs.Prelude.{◌≡◌, option_copied};
ghost use Rattle.sip_part.specs.Led.{branch_in, from_stop, is_end, led_branch, opens_other, opens_via, token_at, via_line};

use memchr::{memchr, memchr3};
use sip_text::token_len;

/// The branch of the top Via, where the field is spelled `Via:` or `v:` and the branch stands plainly in it. A message whose branch is not so
/// plain may still have one.
#[inline(always)]
pub fn led_branch(text: &[u8]) -> Option<&[u8]>
    ensures { option_copied result ≡ led_branch text.now }
{
    let line = via_line(text)?;
    // How many bytes the name of the field and its colon have.
    let past = if line.starts_with(b"Via:") {
        4
    } else if line.starts_with(b"v:") {
        2
    } else {
        return None;
    };
    branch_from_stop(&line[past..])
}

/// The text from the first line that begins as a Via does, after the first line of all.
fn via_line(text: &[u8]) -> Option<&[u8]>
    ensures { option_copied result ≡ via_line text.now }
{
    let mut rest = text;
    'lines: loop {
        let end = memchr(b'\n', rest)?;
        rest = &rest[end + 1..];
        if opens_via(rest) {
            return Some(rest);
        }
    }
}

/// Whether a line begins as a Via does.
fn opens_via(line: &[u8]) -> bool
    ensures { result ≡ opens_via line.now }
{
    match line {
        [first, ..] => matches!(*first, b'v' | b'V'),
        [] => false,
    }
}

/// The branch among the parameters of the Via whose value the text begins with. A comma, a semicolon or a CR ends what stands before them.
fn branch_from_stop(text: &[u8]) -> Option<&[u8]>
    ensures { option_copied result ≡ branch_in (from_stop text.now) }
{
    let at = memchr3(b',', b';', b'\r', text)?;
    branch_in(&text[at..])
}

/// The branch among the parameters of a Via that stand in the text.
fn branch_in(text: &[u8]) -> Option<&[u8]>
    ensures { option_copied result ≡ branch_in text.now }
{
    for (at, byte) in text.iter().enumerate() {
        if is_end(*byte) {
            return None;
        }
        if *byte == b';' {
            let param = &text[at + 1..];
            if param.starts_with(b"branch=") {
                return token_at(&param[7..]);
            }
            if opens_other(param) {
                return None;
            }
        }
    }
    None
}

/// Whether the search for a plain branch ends at the byte.
fn is_end(byte: u8) -> bool
    ensures { result ≡ is_end byte }
{
    matches!(byte, b',' | b'"' | b'\r' | b'\n')
}

/// Whether a parameter begins so that it may be a branch that is not spelled plainly.
fn opens_other(param: &[u8]) -> bool
    ensures { result ≡ opens_other param.now }
{
    match param {
        [first, ..] => matches!(*first, b' ' | b'\t' | b'b' | b'B'),
        [] => false,
    }
}

/// The longest token that the text begins with, if it begins with one.
fn token_at(text: &[u8]) -> Option<&[u8]>
    ensures { option_copied result ≡ token_at text.now }
{
    let len = token_len(text);
    if len == 0 {
        return None;
    }
    Some(&text[..len])
}
