//! Cuts of a text at a mark.
ghost use Rattle.std.specs.Prelude.{◌≡◌, false, is_some, option_copied, IfSome};
ghost use Rattle.std.specs.List.{list_all};
ghost use Rattle.sip_text.specs.inner.Class.{is_in};
ghost use Rattle.sip_text.specs.inner.Cut.{before, before_last, behind, behind_last, past, up_to};

use crate::class::{Class, run_len};
use memchr::{memchr, memrchr};

/// The text before the first mark, and the text after it if there is one.
#[inline]
pub fn cut(text: &[u8], mark: u8) -> (&[u8], Option<&[u8]>)
    ensures front { result.0.now ≡ before mark text.now }
    ensures rest { option_copied result.1 ≡ behind mark text.now }
{
    match memchr(mark, text) {
        Some(at) => (&text[..at], Some(&text[at + 1..])),
        None => (text, None),
    }
}

/// The text before the first mark, and the text after it if there is one, where each byte before that mark is of the
/// class; None where one is not. The mark itself is not of the class, so that no byte is looked at twice.
#[inline]
pub fn cut_run(class: Class, text: &[u8], mark: u8) -> Option<(&[u8], Option<&[u8]>)>
    requires { is_in class mark ≡ false }
    ensures run { is_some result ≡ list_all (is_in class) (before mark text.now) }
    ensures front { IfSome result (λ r. r.0.now ≡ before mark text.now) }
    ensures rest { IfSome result (λ r. option_copied r.1 ≡ behind mark text.now) }
{
    let len = run_len(class, text);
    if len == text.len() {
        return Some((text, None));
    }
    match past(&text[len..], mark) {
        Some(rest) => Some((&text[..len], Some(rest))),
        None => None,
    }
}

/// The text before the last mark if there is one, and the text after it.
#[inline]
pub fn cut_last(text: &[u8], mark: u8) -> (Option<&[u8]>, &[u8])
    ensures front { option_copied result.0 ≡ before_last mark text.now }
    ensures rest { result.1.now ≡ behind_last mark text.now }
{
    match memrchr(mark, text) {
        Some(at) => (Some(&text[..at]), &text[at + 1..]),
        None => (None, text),
    }
}

/// The text past the mark at its front, if it begins with one.
#[inline]
pub fn past(text: &[u8], mark: u8) -> Option<&[u8]>
    ensures { option_copied result ≡ past mark text.now }
{
    match text {
        [first, rest @ ..] if *first == mark => Some(rest),
        _ => None,
    }
}

/// The text up to the mark at its end, if it ends with one.
#[inline]
pub fn up_to(text: &[u8], mark: u8) -> Option<&[u8]>
    ensures { option_copied result ≡ up_to mark text.now }
{
    match text {
        [rest @ .., last] if *last == mark => Some(rest),
        _ => None,
    }
}
