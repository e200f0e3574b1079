//! Plain parts of values, found by the masks of their text. A function answers with the place after the part, or None: what is not plain may
//! still be well spelled, and is left to the readers of all values. A CR stands at the end of the line, and no part goes past it, so that
//! no place is held against the end.
ghost use Rattle.std.specs.Prelude.{◌≡◌, ◌⊎◌, ◌≤◌, [], IfSome, IsTrue, codes, option_copied};
ghost use Rattle.sip_standard.specs.Text.{Exactly, ◌then◌};
ghost use Rattle.sip_standard.specs.Profile.{Sws, Token, Hostname, Host, Port, Quoted, Uri};
ghost use Rattle.sip_text.specs.Bytes.{at_sign, Byte};
ghost use Rattle.sip_standard.specs.Values.{Address};
ghost use Rattle.sip_message.specs.inner.AddressFronts.{DisplayName, Words, Opening};
ghost use Rattle.sip_message.specs.inner.ParamFronts.{GenericParams};
ghost use Rattle.sip_message.specs.inner.Plain.{segment, EndsAt, LiesWithin, PlainRun, PlainParam, HostPort};

use crate::params::cut_quoted;
use sip_masks::Masks;
use sip_text::{is_host, is_port};

/// Whether an address stands from one place up to another, with a URI in `<` and `>`.
pub(crate) fn is_plain_address(masks: &Masks<'_, '_>, at: usize, end: usize) -> bool
    requires { (at ≤ end) × EndsAt masks.now end }
    ensures { IsTrue result → Address (segment at end masks.now) }
{
    let Some(inner) = past_opening(masks, at, end) else {
        return false;
    };
    let Some(close) = past_uri(masks, inner, end) else {
        return false;
    };
    let Some(params) = past_byte(masks, close, end, b'>') else {
        return false;
    };
    are_plain_params(masks, params, end)
}

// The place after the `<` that stands at `at`, or after a display name there.
fn past_opening(masks: &Masks<'_, '_>, at: usize, end: usize) -> Option<usize>
    requires { (at ≤ end) × EndsAt masks.now end }
    ensures { IfSome result (LiesWithin Opening masks.now at end) }
{
    if let Some(inner) = past_byte(masks, at, end, b'<') {
        return Some(inner);
    }
    let name = past_name(masks, at, end)?;
    past_byte(masks, past_space(masks, name, end), end, b'<')
}

// The place after the SP that stands at `at`, and `at` itself if none does.
fn past_space(masks: &Masks<'_, '_>, at: usize, end: usize) -> usize
    requires { (at ≤ end) × EndsAt masks.now end }
    ensures { LiesWithin Sws masks.now at end result }
{
    match past_byte(masks, at, end, b' ') {
        Some(behind) => behind,
        None => at,
    }
}

// The place after the display name that stands at `at`.
fn past_name(masks: &Masks<'_, '_>, at: usize, end: usize) -> Option<usize>
    requires { (at ≤ end) × EndsAt masks.now end }
    ensures { IfSome result (LiesWithin DisplayName masks.now at end) }
{
    if let Some(name) = past_plain_quoted(masks, at, end) {
        return Some(name);
    }
    match cut_quoted(&masks.text()[at..end]) {
        Some((name, _)) => Some(at + name.len()),
        None => past_words(masks, at, end),
    }
}

// The place after the quoted string of plain words that stands at `at`.
fn past_plain_quoted(masks: &Masks<'_, '_>, at: usize, end: usize) -> Option<usize>
    requires { (at ≤ end) × EndsAt masks.now end }
    ensures { IfSome result (LiesWithin Quoted masks.now at end) }
{
    let first = past_byte(masks, at, end, b'"')?;
    let close = past_words(masks, first, end)?;
    past_byte(masks, close, end, b'"')
}

// The place after the plain runs, with a SP between any two, that stand at `at`.
#[inline(always)]
fn past_words(masks: &Masks<'_, '_>, at: usize, end: usize) -> Option<usize>
    requires { (at ≤ end) × EndsAt masks.now end }
    ensures { IfSome result (LiesWithin Words masks.now at end) }
{
    let mut to = past_run(masks, at, end)?;
    'words: loop {
        let Some(word) = past_byte(masks, to, end, b' ') else {
            return Some(to);
        };
        match past_run(masks, word, end) {
            Some(next) => to = next,
            None => return Some(to),
        }
    }
}

/// The place after the SIP URI without parameters and headers that stands at `at`.
pub(crate) fn past_uri(masks: &Masks<'_, '_>, at: usize, end: usize) -> Option<usize>
    requires { (at ≤ end) × EndsAt masks.now end }
    ensures { IfSome result (LiesWithin Uri masks.now at end) }
{
    let start = past_sip(masks, at, end)?;
    let host = past_user(masks, start, end)?;
    past_hostport(masks, host, end)
}

// The place after the user and its `@` that stand at `at`, and `at` itself if no `@` follows the plain run there.
#[inline]
fn past_user(masks: &Masks<'_, '_>, at: usize, end: usize) -> Option<usize>
    requires { (at ≤ end) × EndsAt masks.now end }
    ensures { IfSome result (LiesWithin (λ u. (u ≡ []) ⊎ (PlainRun then Byte at_sign) u) masks.now at end) }
{
    let user = past_run(masks, at, end)?;
    match past_byte(masks, user, end, b'@') {
        Some(host) => Some(host),
        None => Some(at),
    }
}

// The place after the `sip:` that stands at `at`.
fn past_sip(masks: &Masks<'_, '_>, at: usize, end: usize) -> Option<usize>
    requires { (at ≤ end) × EndsAt masks.now end }
    ensures { IfSome result (LiesWithin (Exactly (codes "sip:")) masks.now at end) }
{
    match &masks.text()[at..end] {
        [b's', b'i', b'p', b':', ..] => Some(at + 4),
        _ => None,
    }
}

// The place after the host that stands at `at`, and after its port if it has one.
#[inline]
fn past_hostport(masks: &Masks<'_, '_>, at: usize, end: usize) -> Option<usize>
    requires { (at ≤ end) × EndsAt masks.now end }
    ensures { IfSome result (LiesWithin HostPort masks.now at end) }
{
    let host = past_host(masks, at, end)?;
    match past_byte(masks, host, end, b':') {
        Some(port) => past_port(masks, port, end),
        None => Some(host),
    }
}

/// The place after the host that stands at `at`. Most hosts are names of an ordinary kind.
#[inline(always)]
pub(crate) fn past_host(masks: &Masks<'_, '_>, at: usize, end: usize) -> Option<usize>
    requires { (at ≤ end) × EndsAt masks.now end }
    ensures { IfSome result (LiesWithin Host masks.now at end) }
{
    match past_hostname(masks, at, end) {
        Some(to) => Some(to),
        None => past_other_host(masks, at, end),
    }
}

// The place after the hostname of an ordinary kind that stands at `at`.
#[inline]
fn past_hostname(masks: &Masks<'_, '_>, at: usize, end: usize) -> Option<usize>
    requires { (at ≤ end) × EndsAt masks.now end }
    ensures { IfSome result (LiesWithin Hostname masks.now at end) }
{
    let len = masks.name_at(at)?;
    Some(at + len)
}

// The place after the plain run at `at`, if the run is a host of any kind.
#[inline(never)]
fn past_other_host(masks: &Masks<'_, '_>, at: usize, end: usize) -> Option<usize>
    requires { (at ≤ end) × EndsAt masks.now end }
    ensures { IfSome result (LiesWithin Host masks.now at end) }
{
    let to = past_run(masks, at, end)?;
    if is_host(&masks.text()[at..to]) {
        Some(to)
    } else {
        None
    }
}

/// The place after the port that stands at `at`.
pub(crate) fn past_port(masks: &Masks<'_, '_>, at: usize, end: usize) -> Option<usize>
    requires { (at ≤ end) × EndsAt masks.now end }
    ensures { IfSome result (LiesWithin Port masks.now at end) }
{
    let to = past_run(masks, at, end)?;
    if is_port(&masks.text()[at..to]) {
        Some(to)
    } else {
        None
    }
}

// Whether parameters stand from one place up to another.
fn are_plain_params(masks: &Masks<'_, '_>, at: usize, end: usize) -> bool
    requires { (at ≤ end) × EndsAt masks.now end }
    ensures { IsTrue result → GenericParams (segment at end masks.now) }
{
    let mut from = at;
    'params: while from < end {
        let Some((_, _, to)) = past_param(masks, from, end) else {
            return false;
        };
        from = to;
    }
    true
}

/// The name of the parameter that stands at `at`, its value if it has one, and the place after it.
#[inline(always)]
pub(crate) fn past_param<'a>(
    masks: &Masks<'a, '_>,
    at: usize,
    end: usize,
) -> Option<(&'a [u8], Option<&'a [u8]>, usize)>
    requires { (at ≤ end) × EndsAt masks.now end }
    ensures param { IfSome result (λ p. LiesWithin (PlainParam (p.0.now, option_copied p.1)) masks.now at end p.2) }
    ensures value { IfSome result (λ p. IfSome (option_copied p.1) Token) }
{
    let start = past_byte(masks, at, end, b';')?;
    let behind = past_run(masks, start, end)?;
    let name = &masks.text()[start..behind];
    let Some(first) = past_byte(masks, behind, end, b'=') else {
        return Some((name, None, behind));
    };
    let to = past_any_run(masks, first, end)?;
    Some((name, Some(&masks.text()[first..to]), to))
}

/// The place after the run of plain bytes that stands at `at`, however long it is.
#[inline]
pub(crate) fn past_any_run(masks: &Masks<'_, '_>, at: usize, end: usize) -> Option<usize>
    requires { (at ≤ end) × EndsAt masks.now end }
    ensures { IfSome result (LiesWithin PlainRun masks.now at end) }
{
    let len = masks.run_at(at);
    if len == 0 {
        return None;
    }
    Some(at + len)
}

/// The place after the run of plain bytes that stands at `at`, if it has fewer than 64.
#[inline(always)]
pub(crate) fn past_run(masks: &Masks<'_, '_>, at: usize, end: usize) -> Option<usize>
    requires { (at ≤ end) × EndsAt masks.now end }
    ensures { IfSome result (LiesWithin PlainRun masks.now at end) }
{
    let len = masks.short_run_at(at)?;
    if len == 0 {
        return None;
    }
    Some(at + len)
}

/// The place after this byte, if it stands at `at`. The byte is no control, so it does not stand at `end`.
#[inline]
pub(crate) fn past_byte(masks: &Masks<'_, '_>, at: usize, end: usize, byte: u8) -> Option<usize>
    requires within { (at ≤ end) × EndsAt masks.now end }
    requires mark { 32 ≤ byte }
    ensures { IfSome result (LiesWithin (Byte byte) masks.now at end) }
{
    if masks.text()[at] == byte {
        Some(at + 1)
    } else {
        None
    }
}
