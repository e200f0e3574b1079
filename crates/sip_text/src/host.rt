//! Hosts: names and addresses.
ghost use Rattle.std.specs.Prelude.{◌≡◌, ◌↔◌, IsTrue, option_copied};
ghost use Rattle.sip_standard.specs.Profile.{Host, Ipv6};
ghost use Rattle.sip_text.specs.Bytes.{dot};
ghost use Rattle.sip_text.specs.inner.Cut.{parts};
ghost use Rattle.sip_text.specs.inner.HostTests.{are_labels, before_double, behind_double, has_label_ends, has_len, has_top_ends, has_v4_tail, is_before_v4, is_group, is_hexpart, is_hexseq, is_hostname, is_open, is_optional_hexseq, is_v4, is_v6, is_v6_reference, past_decimal};

use crate::class::{Class, all_in, has};
use crate::cut::{cut_last, cut_run, past, up_to};

/// Whether the whole text is a `host` (RFC 3261, section 25.1): a hostname, an IPv4 address, or an IPv6 address in brackets.
///
/// An IPv6 address is as wide as the grammar there: it may have any number of groups, and stand
/// before an IPv4 address. After `::` the colon before an IPv4 address may be missing.
pub fn is_host(text: &[u8]) -> bool
    ensures { IsTrue result ↔ Host text.now }
{
    is_v6_reference(text) || is_v4(text) || is_hostname(text)
}

/// Whether the whole text is an `IPv6address` (RFC 3261, section 25.1), without brackets, and as wide
/// as in [`is_host`].
pub fn is_ipv6_address(text: &[u8]) -> bool
    ensures { IsTrue result ↔ Ipv6 text.now }
{
    is_v6(text)
}

// Whether the text is an IPv6reference.
fn is_v6_reference(text: &[u8]) -> bool
    ensures { result ≡ is_v6_reference text.now }
{
    let Some(rest) = past(text, b'[') else {
        return false;
    };
    match up_to(rest, b']') {
        Some(inner) => is_v6(inner),
        None => false,
    }
}

// Whether the text is an IPv6address.
fn is_v6(text: &[u8]) -> bool
    ensures { result ≡ is_v6 text.now }
{
    is_hexpart(text) || has_v4_tail(text)
}

// Whether the text is an IPv6address that ends with an IPv4address.
fn has_v4_tail(text: &[u8]) -> bool
    ensures { result ≡ has_v4_tail text.now }
{
    match cut_last(text, b':') {
        (Some(front), tail) => is_v4(tail) && is_before_v4(front),
        (None, _) => false,
    }
}

// Whether the text may stand before the last `:` of an IPv6address, after which an IPv4address stands.
fn is_before_v4(text: &[u8]) -> bool
    ensures { result ≡ is_before_v4 text.now }
{
    is_hexpart(text) || is_open(text)
}

// Whether the text is a hexpart that ends with `::`, but for its last `:`.
fn is_open(text: &[u8]) -> bool
    ensures { result ≡ is_open text.now }
{
    match up_to(text, b':') {
        Some(front) => is_optional_hexseq(front),
        None => false,
    }
}

// Whether the text is a hexpart.
fn is_hexpart(text: &[u8]) -> bool
    ensures { result ≡ is_hexpart text.now }
{
    match cut_double(text) {
        (front, Some(rest)) => is_optional_hexseq(front) && is_optional_hexseq(rest),
        (_, None) => is_hexseq(text),
    }
}

// The text before its first `::`, and the text after it if there is one.
fn cut_double(text: &[u8]) -> (&[u8], Option<&[u8]>)
    ensures front { result.0.now ≡ before_double text.now }
    ensures rest { option_copied result.1 ≡ behind_double text.now }
{
    for at in 1..text.len() {
        if text[at - 1] == b':' && text[at] == b':' {
            return (&text[..at - 1], Some(&text[at + 1..]));
        }
    }
    (text, None)
}

// Whether the text is empty or a hexseq.
fn is_optional_hexseq(text: &[u8]) -> bool
    ensures { result ≡ is_optional_hexseq text.now }
{
    text.is_empty() || is_hexseq(text)
}

// Whether the text is a hexseq.
fn is_hexseq(text: &[u8]) -> bool
    ensures { result ≡ is_hexseq text.now }
{
    let mut rest = text;
    'groups: loop {
        let Some((group, more)) = cut_run(Class::HexDigit, rest, b':') else {
            return false;
        };
        if !has_len(4, group) {
            return false;
        }
        match more {
            Some(groups) => rest = groups,
            None => return true,
        }
    }
}

// Whether the text is an IPv4address.
fn is_v4(text: &[u8]) -> bool
    ensures { result ≡ is_v4 text.now }
{
    let Some(rest) = past_decimal(text) else {
        return false;
    };
    let Some(rest) = past_decimal(rest) else {
        return false;
    };
    let Some(rest) = past_decimal(rest) else {
        return false;
    };
    is_group(Class::Digit, 3, rest)
}

// The text after 1*3DIGIT and a dot, if it begins with these.
fn past_decimal(text: &[u8]) -> Option<&[u8]>
    ensures { option_copied result ≡ past_decimal text.now }
{
    let (group, rest) = cut_run(Class::Digit, text, b'.')?;
    if has_len(3, group) { rest } else { None }
}

// Whether the text is one byte of the class or more, and at most `most`.
fn is_group(class: Class, most: usize, text: &[u8]) -> bool
    ensures { result ≡ is_group class most text.now }
{
    has_len(most, text) && all_in(class, text)
}

// Whether the text has one byte or more, and at most `most`.
fn has_len(most: usize, text: &[u8]) -> bool
    ensures { result ≡ has_len most text.now }
{
    !text.is_empty() && text.len() <= most
}

// Whether the text is a hostname.
fn is_hostname(text: &[u8]) -> bool
    ensures { result ≡ is_hostname text.now }
{
    is_name(up_to(text, b'.').unwrap_or(text))
}

// Whether the text is a hostname without a dot at its end.
fn is_name(text: &[u8]) -> bool
    ensures { result ≡ are_labels (parts dot text.now) }
{
    let mut rest = text;
    'labels: loop {
        let Some((label, more)) = cut_run(Class::Label, rest, b'.') else {
            return false;
        };
        match more {
            Some(labels) if has_label_ends(label) => rest = labels,
            Some(_) => return false,
            None => return has_top_ends(label),
        }
    }
}

// Whether the text is not empty, and neither begins nor ends with a hyphen.
fn has_label_ends(text: &[u8]) -> bool
    ensures { result ≡ has_label_ends text.now }
{
    match text {
        [] | [b'-', ..] | [.., b'-'] => false,
        _ => true,
    }
}

// Whether the text begins with a letter, as the last label must, and does not end with a hyphen.
fn has_top_ends(text: &[u8]) -> bool
    ensures { result ≡ has_top_ends text.now }
{
    match text {
        [first, ..] => has(Class::Alphabetic, *first) && has_label_ends(text),
        [] => false,
    }
}
