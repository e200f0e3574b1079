//! Elements of Via whose parts are plain, with no blanks but the one before the host.
ghost use Rattle.std.specs.Prelude.{◌≤◌, IfSome, option_copied};
ghost use Rattle.sip_standard.specs.Profile.{Token};
ghost use Rattle.sip_standard.specs.Via.{PortSays};
ghost use Rattle.sip_message.specs.ValueParts.{element};
ghost use Rattle.sip_message.specs.inner.ElementFronts.{FirstVia};
ghost use Rattle.sip_message.specs.inner.ViaFronts.{BranchOf, BranchText};
ghost use Rattle.sip_message.specs.inner.Plain.{segment, EndsAt, LiesWithin};

use crate::plain::{past_byte, past_host, past_param, past_port, past_run};
use crate::via::Via;
use sip_masks::Masks;
use sip_text::same_text;

/// The element of Via that stands from one place up to another, if it is the only one there and its parts are plain.
pub(crate) fn plain_via<'a>(masks: &Masks<'a, '_>, at: usize, end: usize) -> Option<Via<'a>>
    requires { (at ≤ end) × EndsAt masks.now end }
    ensures { IfSome result (λ v. FirstVia (segment at end masks.now) (element v)) }
{
    // Each step takes one part and its mark, and tells the place after them: `name/version/transport sent-by:port;params`.
    let text = masks.text();
    let name = past_run(masks, at, end)?;
    let first = past_byte(masks, name, end, b'/')?;
    let version = past_run(masks, first, end)?;
    let second = past_byte(masks, version, end, b'/')?;
    let transport = past_run(masks, second, end)?;
    let sent_by = past_byte(masks, transport, end, b' ')?;
    let behind = past_host(masks, sent_by, end)?;
    let (port, params) = past_led_port(masks, behind, end)?;
    let branch = plain_branch(masks, params, end)?;
    Some(Via {
        whole: &text[at..end],
        transport: &text[second..transport],
        host: &text[sent_by..behind],
        port,
        branch,
    })
}

// The port that stands at `at` after its `:`, if there is one, and the place after it.
#[inline(always)]
fn past_led_port<'a>(
    masks: &Masks<'a, '_>,
    at: usize,
    end: usize,
) -> Option<(Option<&'a [u8]>, usize)>
    requires { (at ≤ end) × EndsAt masks.now end }
    ensures { IfSome result (λ found. LiesWithin (PortSays (option_copied found.0)) masks.now at end found.1) }
{
    let Some(port) = past_byte(masks, at, end, b':') else {
        return Some((None, at));
    };
    let to = past_port(masks, port, end)?;
    Some((Some(&masks.text()[port..to]), to))
}

// The branch of the plain parameters that stand from one place up to another.
fn plain_branch<'a>(masks: &Masks<'a, '_>, at: usize, end: usize) -> Option<Option<&'a [u8]>>
    requires { (at ≤ end) × EndsAt masks.now end }
    ensures { IfSome result (λ branch. BranchText (segment at end masks.now) (option_copied branch)) }
{
    let mut branch = None;
    let mut from = at;
    'params: while from < end {
        let Some((name, value, to)) = past_param(masks, from, end) else {
            return None;
        };
        branch = branch.or(token_branch(name, value)?);
        from = to;
    }
    Some(branch)
}

// The branch that a parameter gives whose value is a token: Some(None) where the parameter has another name, and None
// where it is named branch and has no value.
fn token_branch<'a>(name: &[u8], value: Option<&'a [u8]>) -> Option<Option<&'a [u8]>>
    requires { IfSome (option_copied value) Token }
    ensures { IfSome result (λ branch. BranchOf (name.entry.now, option_copied value.entry) (option_copied branch)) }
{
    if !same_text(name, b"branch") {
        return Some(None);
    }
    Some(Some(value?))
}
