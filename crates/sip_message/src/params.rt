//! Parameters of values: `*( SEMI generic-param )` (RFC 3261, section 25.1).
ghost use Rattle.std.specs.Prelude.{◌↔◌, List, IsTrue};
ghost use Rattle.sip_standard.specs.Text.{◌or◌};
ghost use Rattle.sip_standard.specs.Profile.{Ipv6, Token};
ghost use Rattle.sip_text.specs.Bytes.{equals, is_token_byte};
ghost use Rattle.sip_message.specs.inner.Only.{IsOnlyValue};
ghost use Rattle.sip_message.specs.inner.Fronts.{pair_parts};
ghost use Rattle.sip_message.specs.inner.ParamFronts.{Param, GenericParams, is_bare_byte, PastRun, BareFront, QuotedFront, BracketFront, ReferenceFront, ValueFront, LedFront, ParamFront, AllParamsFront, led_parts, param_parts};

use crate::cursor::{cut, cut_token, past, past_mark};
use sip_text::{is_host, is_ipv6_address, read_quoted, token_len};

/// Whether the whole text is parameters, each after a `;`. The empty text is parameters as well.
pub(crate) fn are_params(text: &[u8]) -> bool
    ensures { IsTrue result ↔ GenericParams text.now }
{
    past_params(text).is_empty()
}

// What is left after the parameters at the front.
fn past_params(text: &[u8]) -> &[u8]
    ensures { (params : List Param) × AllParamsFront text.now (params, result.now) }
{
    let mut rest = text;
    'params: while let Some((_, _, more)) = cut_param(rest) {
        rest = more;
    }
    rest
}

/// The name of the parameter at the front, its value if it has one, and what is left after it.
#[inline(always)]
pub(crate) fn cut_param(text: &[u8]) -> Option<(&[u8], Option<&[u8]>, &[u8])>
    ensures { IsOnlyValue ParamFront param_parts text.now result }
{
    let (name, rest) = cut_token(past_mark(text, b';')?)?;
    let (value, rest) = cut_led_value(rest)?;
    Some((name, value, rest))
}

// The value at the front after its `=`, and what is left. A text without a `=` at its front gives no value, and is left whole. The result is
// None where no value stands after the `=`.
#[inline(always)]
fn cut_led_value(text: &[u8]) -> Option<(Option<&[u8]>, &[u8])>
    ensures { IsOnlyValue (LedFront equals ValueFront) led_parts text.now result }
{
    let Some(inner) = past_mark(text, b'=') else {
        return Some((None, text));
    };
    let (value, rest) = cut_value(inner)?;
    Some((Some(value), rest))
}

// The parameter's value at the front, and what is left after it.
#[inline(always)]
fn cut_value(text: &[u8]) -> Option<(&[u8], &[u8])>
    ensures { IsOnlyValue ValueFront pair_parts text.now result }
{
    if let Some((value, rest)) = cut_quoted(text) {
        return Some((value, rest));
    }
    if let Some((value, rest)) = cut_reference(text) {
        return Some((value, rest));
    }
    cut_bare(text)
}

/// The quoted string at the front with its quotes, before which no blank stands, and what is left after it.
#[inline(always)]
pub(crate) fn cut_quoted(text: &[u8]) -> Option<(&[u8], &[u8])>
    ensures { IsOnlyValue QuotedFront pair_parts text.now result }
{
    past(text, b'"')?;
    let len = read_quoted(text)?;
    Some((&text[..len], &text[len..]))
}

// The IPv6 address in brackets at the front, and what is left after it.
#[inline(always)]
fn cut_reference(text: &[u8]) -> Option<(&[u8], &[u8])>
    ensures { IsOnlyValue ReferenceFront pair_parts text.now result }
{
    let (part, rest) = cut_brackets(text)?;
    if is_host(part) {
        Some((part, rest))
    } else {
        None
    }
}

/// What stands at the front from a `[` to the first `]`, and what is left after it.
#[inline(always)]
pub(crate) fn cut_brackets(text: &[u8]) -> Option<(&[u8], &[u8])>
    ensures { IsOnlyValue BracketFront pair_parts text.now result }
{
    let (_, behind) = cut(past(text, b'[')?, b']');
    let rest = behind?;
    Some((&text[..text.len() - rest.len()], rest))
}

// The token or the IPv6 address without brackets at the front, and what is left after it. A token that no colon follows is
// found in one look.
fn cut_bare(text: &[u8]) -> Option<(&[u8], &[u8])>
    ensures { IsOnlyValue BareFront pair_parts text.now result }
{
    if let Some((token, rest)) = cut_token(text) {
        if past(rest, b':').is_none() {
            return Some((token, rest));
        }
    }
    cut_bare_run(text)
}

// The token or the IPv6 address without brackets at the front, found by all bytes of tokens and colons there.
#[inline(never)]
fn cut_bare_run(text: &[u8]) -> Option<(&[u8], &[u8])>
    ensures { IsOnlyValue BareFront pair_parts text.now result }
{
    let rest = past_bare(text);
    let value = &text[..text.len() - rest.len()];
    if is_bare(value) {
        Some((value, rest))
    } else {
        None
    }
}

// Whether the whole text is a token or an IPv6 address without brackets.
fn is_bare(text: &[u8]) -> bool
    ensures { IsTrue result ↔ (Token or Ipv6) text.now }
{
    is_token(text) || is_ipv6_address(text)
}

// What is left after the bytes of tokens and the colons at the front.
fn past_bare(text: &[u8]) -> &[u8]
    ensures { PastRun is_bare_byte text.now result.now }
{
    let mut rest = past_token(text);
    'colons: while let Some(more) = past(rest, b':') {
        rest = past_token(more);
    }
    rest
}

// What is left after the bytes of tokens at the front.
fn past_token(text: &[u8]) -> &[u8]
    ensures { PastRun is_token_byte text.now result.now }
{
    &text[token_len(text)..]
}

/// Whether the whole text is a token.
pub(crate) fn is_token(text: &[u8]) -> bool
    ensures { IsTrue result ↔ Token text.now }
{
    !text.is_empty() && token_len(text) == text.len()
}
