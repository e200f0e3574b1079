//! The values of fields that are a number, CSeq and Call-ID.
ghost use Rattle.std.specs.Prelude.{◌≡◌, ◌≤◌, ◌<◌, ◌↔◌, ℕ, List, IsTrue, MatchOption, length};
ghost use Rattle.std.specs.List.{list_all, prefix_len};
ghost use Rattle.std.specs.Char.{is_ascii_digit};
ghost use Rattle.std.specs.Str.Parse.{digits_value};
ghost use Rattle.sip_message.specs.inner.Only.{IsOnlyValue};
ghost use Rattle.sip_standard.specs.Values.{CallId};
ghost use Rattle.sip_message.specs.inner.Values.{is_word_byte, Word, Digits, CSeqValue};
ghost use Rattle.sip_message.specs.ValueParts.{cseq_parts};

use crate::cursor::cut;
use crate::params::is_token;
use sip_text::{skip_lws, token_len};

/// The value of CSeq (RFC 3261, section 20.16).
#[derive(Clone, Copy, Debug, PartialEq, Eq)]
pub struct CSeq<'a> {
    /// The sequence number, below 2^31.
    pub number: u32,
    /// The method.
    pub method: &'a [u8],
}

/// The CSeq that the whole text is.
pub(crate) fn read_cseq(text: &[u8]) -> Option<CSeq<'_>>
    ensures { IsOnlyValue CSeqValue cseq_parts text.now result }
{
    let len = digits_len(text);
    let number = number_at_most(&text[..len], LAST_NUMBER)?;
    let rest = &text[len..];
    let blanks = skip_lws(rest);
    let method = &rest[blanks..];
    if len == 0 || blanks == 0 || !is_token(method) {
        return None;
    }
    Some(CSeq {
        number: number as u32,
        method,
    })
}

// The highest number that a CSeq may have: 2^31 - 1.
const LAST_NUMBER: usize = 0x7fff_ffff;

/// The number that digits write, if it is at most `most`. There may be any number of digits. It is None for a
/// text that holds another byte.
pub(crate) fn number_at_most(text: &[u8], most: usize) -> Option<usize>
    ensures { MatchOption result (Digits text.now → most < digits_value 10 text.now)
        (λ n. (n ≡ digits_value 10 text.now) × (n ≤ most)) }
{
    let mut number: usize = 0;
    for byte in text {
        if !byte.is_ascii_digit() {
            return None;
        }
        let digit = usize::from(*byte - b'0');
        // With this digit the number would be above `most`.
        if digit > most || number > (most - digit) / 10 {
            return None;
        }
        number = number * 10 + digit;
    }
    Some(number)
}

// The length of the longest front of digits.
fn digits_len(text: &[u8]) -> usize
    ensures run { result ≡ prefix_len is_ascii_digit text.now }
    ensures within { result ≤ length text.now }
{
    for (at, byte) in text.iter().enumerate() {
        if !byte.is_ascii_digit() {
            return at;
        }
    }
    text.len()
}

/// Whether the text is one digit or more: the value of Content-Length.
pub(crate) fn is_length(text: &[u8]) -> bool
    ensures { IsTrue result ↔ Digits text.now }
{
    !text.is_empty() && are_digits(text)
}

// Whether each byte is a digit.
fn are_digits(text: &[u8]) -> bool
    ensures { result ≡ list_all is_ascii_digit text.now }
{
    text.iter().all(|byte| byte.is_ascii_digit())
}

/// Whether the text is the value of Call-ID (RFC 3261, section 25.1).
pub(crate) fn is_call_id(text: &[u8]) -> bool
    ensures { IsTrue result ↔ CallId text.now }
{
    let (word, more) = cut(text, b'@');
    match more {
        Some(other) => is_word(word) && is_word(other),
        None => is_word(word),
    }
}

// Whether the text is a word. The bytes of a token may stand in a word, so that the longest token at its front need not be looked
// at again; most words are that token.
fn is_word(text: &[u8]) -> bool
    ensures { IsTrue result ↔ Word text.now }
{
    !text.is_empty() && are_word_bytes(&text[token_len(text)..])
}

// Whether each byte may stand in a word.
fn are_word_bytes(text: &[u8]) -> bool
    ensures { result ≡ list_all is_word_byte text.now }
{
    text.iter().all(|byte| is_word_byte(*byte))
}

// Whether the byte may stand in a word.
#[inline]
fn is_word_byte(byte: u8) -> bool
    ensures { result ≡ is_word_byte byte }
{
    byte.is_ascii_alphanumeric()
        || matches!(
            byte,
            b'-' | b'.'
                | b'!'
                | b'%'
                | b'*'
                | b'_'
                | b'+'
                | b'`'
                | b'\''
                | b'~'
                | b'('
                | b')'
                | b'<'
                | b'>'
                | b':'
                | b'/'
                | b'['
                | b']'
                | b'?'
                | b'{'
                | b'}'
                | b'\\'
                | b'"'
        )
}
