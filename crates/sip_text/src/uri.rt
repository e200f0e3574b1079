//! URIs: those of SIP by their parts, and any other by its scheme.
ghost use Rattle.std.specs.Prelude.{◌≡◌, ◌↔◌, false, IsTrue, option_copied};
ghost use Rattle.sip_standard.specs.Text.{Many, OneOrMore};
ghost use Rattle.sip_standard.specs.Profile.{Port, UriParameters, Headers, Scheme, Uri};
ghost use Rattle.sip_text.specs.Bytes.{colon, percent, semicolon};
ghost use Rattle.sip_text.specs.inner.Class.{is_in};
ghost use Rattle.sip_text.specs.inner.Cut.{before, behind};
ghost use Rattle.sip_text.specs.inner.Pieces.{Joined, UriParameter, Header};
ghost use Rattle.sip_text.specs.inner.UriCut.{ClassChar, behind_escape, IsInfoCut, IsPortCut, cut_parts, IsSipCut, InfoFits, TailFits, SipRest};

use crate::case::same_text;
use crate::class::{Class, all_in, has, run_len};
use crate::cut::{cut, cut_last, past};
use crate::host::is_host;
use crate::token::are_token_bytes;

/// Whether the whole text is a URI (RFC 3261, section 25.1).
///
/// A port has one to five digits and is at most 65535. Any URI but a SIP or SIPS URI is a scheme that is neither `sip` nor
/// `sips`, compared without case, a `:` and one or more `uric`, whatever the scheme asks of them.
#[inline(always)]
pub fn is_uri(text: &[u8]) -> bool
    ensures { IsTrue result ↔ Uri text.now }
{
    let (scheme, rest) = cut_scheme(text);
    let Some(rest) = rest else {
        return false;
    };
    if same_text(scheme, b"sip") || same_text(scheme, b"sips") {
        return is_sip_rest(rest);
    }
    is_scheme(scheme) && is_some_chars(Class::Uric, rest)
}

// The text before the first colon, and the text after it if there is one. Most URIs begin with
// `sip:`.
#[inline]
fn cut_scheme(text: &[u8]) -> (&[u8], Option<&[u8]>)
    ensures front { result.0.now ≡ before colon text.now }
    ensures rest { option_copied result.1 ≡ behind colon text.now }
{
    match text {
        [b's', b'i', b'p', b':', rest @ ..] => (&text[..3], Some(rest)),
        _ => cut(text, b':'),
    }
}

// The parts of a SIP URI, cut and not yet tested.
#[derive(Clone, Copy)]
struct Cuts<'a> {
    user: Option<&'a [u8]>,
    password: Option<&'a [u8]>,
    host: &'a [u8],
    port: Option<&'a [u8]>,
    params: &'a [u8],
    headers: Option<&'a [u8]>,
}

// Whether the text is a SIP URI after its scheme and `:`.
#[inline(always)]
fn is_sip_rest(text: &[u8]) -> bool
    ensures { IsTrue result ↔ SipRest text.now }
{
    let cuts = cut_sip(text);
    is_host(cuts.host) && userinfo_fits(&cuts) && tail_fits(&cuts)
}

// Cuts what follows the scheme of a SIP URI: each part ends at the first byte that it cannot hold. Where no such byte
// stands after the userinfo, all that follows the userinfo is the host.
#[inline(always)]
fn cut_sip(text: &[u8]) -> Cuts<'_>
    ensures { IsSipCut text.now (cut_parts result) }
{
    let (user, password, rest) = cut_userinfo(text);
    if are_token_bytes(rest) {
        return Cuts {
            user,
            password,
            host: rest,
            port: None,
            params: &[],
            headers: None,
        };
    }
    // The headers follow the first `?`, and the parameters begin at the first `;` before it.
    let (front, headers) = cut(rest, b'?');
    let (hostport, _) = cut(front, b';');
    let params = &front[hostport.len()..];
    let (host, port) = cut_port(hostport);
    Cuts {
        user,
        password,
        host,
        port,
        params,
        headers,
    }
}

// The user and the password, and what stands after their `@`.
fn cut_userinfo(text: &[u8]) -> (Option<&[u8]>, Option<&[u8]>, &[u8])
    ensures { IsInfoCut text.now (option_copied result.0) (option_copied result.1) result.2.now }
{
    match cut(text, b'@') {
        (info, Some(rest)) => {
            let (user, password) = cut(info, b':');
            (Some(user), password, rest)
        }
        (_, None) => (None, None, text),
    }
}

// The host, and the port where the text ends with `:` and a port.
fn cut_port(text: &[u8]) -> (&[u8], Option<&[u8]>)
    ensures { IsPortCut text.now result.0.now (option_copied result.1) }
{
    let (front, port) = cut_last(text, b':');
    match front {
        Some(host) if is_port(port) => (host, Some(port)),
        _ => (text, None),
    }
}

// Whether the user and the password are texts of their productions.
#[inline(always)]
fn userinfo_fits(cuts: &Cuts<'_>) -> bool
    ensures { IsTrue result ↔ InfoFits (cut_parts cuts.now) }
{
    cuts.user
        .is_none_or(|user| is_some_chars(Class::User, user))
        && cuts
            .password
            .is_none_or(|password| is_chars(Class::Password, password))
}

// Whether the parameters and the headers are texts of their productions.
#[inline(always)]
fn tail_fits(cuts: &Cuts<'_>) -> bool
    ensures { IsTrue result ↔ TailFits (cut_parts cuts.now) }
{
    are_params(cuts.params) && cuts.headers.is_none_or(|headers| are_headers(headers))
}

// Whether the text is a scheme.
fn is_scheme(text: &[u8]) -> bool
    ensures { IsTrue result ↔ Scheme text.now }
{
    match text.split_first() {
        Some((first, rest)) => has(Class::Alphabetic, *first) && all_in(Class::Scheme, rest),
        None => false,
    }
}

// The most digits of a port.
const PORT_DIGITS: usize = 5;

// The highest port.
const LAST_PORT: u32 = 65535;

/// Whether the whole text is a `port` (RFC 3261, section 25.1): one to five digits, at most 65535.
pub fn is_port(text: &[u8]) -> bool
    ensures { IsTrue result ↔ Port text.now }
{
    if text.is_empty() || text.len() > PORT_DIGITS {
        return false;
    }
    let mut number: u32 = 0;
    for byte in text {
        if !has(Class::Digit, *byte) {
            return false;
        }
        number = number * 10 + u32::from(*byte - b'0');
        if number > LAST_PORT {
            return false;
        }
    }
    true
}

// Whether the text is URI parameters, each after its `;`.
fn are_params(text: &[u8]) -> bool
    ensures { IsTrue result ↔ UriParameters text.now }
{
    match past(text, b';') {
        Some(params) => are_joined_params(params),
        None => text.is_empty(),
    }
}

// Whether the text is URI parameters, with a `;` between any two.
fn are_joined_params(text: &[u8]) -> bool
    ensures { IsTrue result ↔ Joined semicolon UriParameter text.now }
{
    let mut rest = text;
    'params: loop {
        let (param, more) = cut(rest, b';');
        if !is_param(param) {
            return false;
        }
        match more {
            Some(more) => rest = more,
            None => return true,
        }
    }
}

// Whether the text is a URI parameter.
fn is_param(text: &[u8]) -> bool
    ensures { IsTrue result ↔ UriParameter text.now }
{
    let (name, value) = cut(text, b'=');
    match value {
        Some(value) => is_some_chars(Class::Param, name) && is_some_chars(Class::Param, value),
        None => is_some_chars(Class::Param, name),
    }
}

// Whether the text is headers, without their `?`.
fn are_headers(text: &[u8]) -> bool
    ensures { IsTrue result ↔ Headers text.now }
{
    let mut rest = text;
    'headers: loop {
        let (header, more) = cut(rest, b'&');
        if !is_header(header) {
            return false;
        }
        match more {
            Some(more) => rest = more,
            None => return true,
        }
    }
}

// Whether the text is a header.
fn is_header(text: &[u8]) -> bool
    ensures { IsTrue result ↔ Header text.now }
{
    let (name, value) = cut(text, b'=');
    match value {
        Some(value) => is_some_chars(Class::Header, name) && is_chars(Class::Header, value),
        None => false,
    }
}

// Whether the text is one or more characters of the class: its bytes, and escapes.
fn is_some_chars(class: Class, text: &[u8]) -> bool
    requires { is_in class percent ≡ false }
    ensures { IsTrue result ↔ OneOrMore (ClassChar class) text.now }
{
    !text.is_empty() && is_chars(class, text)
}

// Whether the text is any number of characters of the class: its bytes, and escapes. A `%` is never a byte of the class.
fn is_chars(class: Class, text: &[u8]) -> bool
    requires { is_in class percent ≡ false }
    ensures { IsTrue result ↔ Many (ClassChar class) text.now }
{
    let mut rest = text;
    'chars: loop {
        let stop = &rest[run_len(class, rest)..];
        match strip_escape(stop) {
            Some(behind) => rest = behind,
            None => return stop.is_empty(),
        }
    }
}

// What follows the escape at the front of the text, if the text begins with one.
fn strip_escape(text: &[u8]) -> Option<&[u8]>
    ensures { option_copied result ≡ behind_escape text.now }
{
    match text {
        [b'%', high, low, rest @ ..] if has(Class::HexDigit, *high) && has(Class::HexDigit, *low) =>
            Some(rest),
        _ => None,
    }
}
