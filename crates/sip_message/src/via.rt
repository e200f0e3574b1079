//! Via elements.
ghost use Rattle.std.specs.Prelude.{◌↔◌, ℕ, List, Option, IsTrue, MatchOption, option_copied};
ghost use Rattle.sip_text.specs.Bytes.{colon};
ghost use Rattle.sip_message.specs.inner.Only.{IsOnlyValue};
ghost use Rattle.sip_standard.specs.Via.{SaidVia};
ghost use Rattle.sip_message.specs.inner.ElementFronts.{MoreSay, EndsElement, ViaFront, FirstVia, front_parts};
ghost use Rattle.sip_message.specs.inner.Fronts.{pair_parts};
ghost use Rattle.sip_message.specs.ValueParts.{element};
ghost use Rattle.sip_message.specs.inner.ParamFronts.{LedFront, led_parts};
ghost use Rattle.sip_message.specs.inner.ViaFronts.{HostCut, HostFront, PortFront, BranchOf, BranchFront};

use crate::cursor::{cut_token, past_mark, read_protocol};
use crate::params::{cut_brackets, cut_param, is_token};
use sip_text::{is_host, is_port, same_text};

/// An element of Via (RFC 3261, section 20.42), in slices of the message.
#[derive(Clone, Copy, Debug, PartialEq, Eq)]
pub struct Via<'a> {
    /// The whole element.
    pub whole: &'a [u8],
    /// The transport.
    pub transport: &'a [u8],
    /// The host of sent-by.
    pub host: &'a [u8],
    /// The port of sent-by.
    pub port: Option<&'a [u8]>,
    /// The value of the first parameter named branch.
    pub branch: Option<&'a [u8]>,
}

/// The first of the elements of Via that the whole text is, with a comma between any two.
pub(crate) fn first_via(text: &[u8]) -> Option<Via<'_>>
    ensures { IsOnlyValue FirstVia element text.now result }
{
    let (first, rest) = read_via(text)?;
    if are_more_vias(rest) {
        Some(first)
    } else {
        None
    }
}

// Whether the whole text is elements of Via, each with a comma before it.
fn are_more_vias(text: &[u8]) -> bool
    ensures { IsTrue result ↔ ((vias : List SaidVia) × MoreSay vias text.now) }
{
    let mut rest = text;
    'elements: while let Some(next) = past_mark(rest, b',') {
        let Some((_, more)) = read_via(next) else {
            return false;
        };
        rest = more;
    }
    rest.is_empty()
}

/// The element at the front, and what is left after it: nothing, or a comma and further elements.
pub(crate) fn read_via(text: &[u8]) -> Option<(Via<'_>, &[u8])>
    ensures { IsOnlyValue ViaFront front_parts text.now result }
{
    let (transport, rest) = read_protocol(text)?;
    let (host, rest) = cut_host(rest)?;
    let (port, rest) = cut_led_port(rest)?;
    let (branch, rest) = cut_branch(rest)?;
    if !ends_element(rest) {
        return None;
    }
    Some((
        Via {
            whole: &text[..text.len() - rest.len()],
            transport,
            host,
            port,
            branch,
        },
        rest,
    ))
}

// Whether an element may end here: before a comma, or where the text does.
fn ends_element(text: &[u8]) -> bool
    ensures { IsTrue result ↔ EndsElement text.now }
{
    text.is_empty() || past_mark(text, b',').is_some()
}

// The host at the front, and what is left after it. It is None where what may be a host is none.
fn cut_host(text: &[u8]) -> Option<(&[u8], &[u8])>
    ensures { IsOnlyValue HostFront pair_parts text.now result }
{
    let (host, rest) = cut_host_text(text)?;
    if is_host(host) {
        Some((host, rest))
    } else {
        None
    }
}

// What may be a host at the front, from a `[` to the first `]` or else the longest token, and what is left after it.
fn cut_host_text(text: &[u8]) -> Option<(&[u8], &[u8])>
    ensures { IsOnlyValue HostCut pair_parts text.now result }
{
    if let Some((part, rest)) = cut_brackets(text) {
        return Some((part, rest));
    }
    cut_token(text)
}

// The port at the front after its colon, and what is left. A text without a colon at its front gives no port, and is left whole.
// The result is None where no port stands after the colon.
fn cut_led_port(text: &[u8]) -> Option<(Option<&[u8]>, &[u8])>
    ensures { IsOnlyValue (LedFront colon PortFront) led_parts text.now result }
{
    let Some(inner) = past_mark(text, b':') else {
        return Some((None, text));
    };
    let (port, rest) = cut_port(inner)?;
    Some((Some(port), rest))
}

// The longest token at the front, if it is a port, and what is left after it.
fn cut_port(text: &[u8]) -> Option<(&[u8], &[u8])>
    ensures { IsOnlyValue PortFront pair_parts text.now result }
{
    let (port, rest) = cut_token(text)?;
    if is_port(port) {
        Some((port, rest))
    } else {
        None
    }
}

// The branch of the parameters at the front, if one of them is named branch, and what is left after them. It is None where such a one has no token
// for value.
fn cut_branch(text: &[u8]) -> Option<(Option<&[u8]>, &[u8])>
    ensures { IsOnlyValue BranchFront led_parts text.now result }
{
    let mut branch = None;
    let mut rest = text;
    'params: while let Some((name, value, more)) = cut_param(rest) {
        branch = branch.or(branch_of(name, value)?);
        rest = more;
    }
    Some((branch, rest))
}

/// The branch that a parameter gives: Some(None) where the parameter has another name, and None where it is named branch
/// and has no token for value.
pub(crate) fn branch_of<'a>(name: &[u8], value: Option<&'a [u8]>) -> Option<Option<&'a [u8]>>
    ensures { MatchOption result
        ((branch : Option (List ℕ)) → ¬ (BranchOf (name.entry.now, option_copied value.entry) branch))
        (λ branch. BranchOf (name.entry.now, option_copied value.entry) (option_copied branch)) }
{
    if !same_text(name, b"branch") {
        return Some(None);
    }
    let branch = value?;
    if is_token(branch) {
        Some(Some(branch))
    } else {
        None
    }
}
