//! Tokens, blanks, quoted strings, hosts and ports, and texts that differ in case.

use crate::wants::is;
use sip_text::{is_host, is_ipv6_address, is_port, read_quoted, same_text, skip_lws, token_len};

// A text, and the length of the longest token and of the longest blank run at its front.
static FRONTS: &[(&[u8], usize, usize)] = &[
    (b"a-b c", 3, 0),
    (b"<x>", 0, 0),
    (b"", 0, 0),
    // Each line end within a blank run has a blank behind it.
    (b" \t\r\n x", 0, 5),
    (b"\r\nx", 0, 0),
    (b" \r\nx", 0, 1),
    (b"\r\n \r\n\t", 0, 6),
    // All marks of a token, digits and letters, and then an @, which a token may not have.
    (b"-.!%*_+`'~09azAZ@", 16, 0),
];

// A text, and the length of the quoted string at its front, if there is one.
static QUOTED: &[(&[u8], Option<usize>)] = &[
    // Blanks may stand before it, and a backslash before a quote that does not end it.
    (b" \"a\\\"b\"c", Some(7)),
    (b"\"\"", Some(2)),
    (b"\"a", None),
    // A CR has no backslash before it, and a line end in it has a blank behind it.
    (b"\"\\\r\"", None),
    (b"\"a\r\n b\"", Some(7)),
    (b"\"a\r\nb\"", None),
];

// A text, and whether it is a host.
static HOSTS: &[(&[u8], bool)] = &[
    // A name ends with a label that begins with a letter, and perhaps a dot.
    (b"a.example.com.", true),
    (b"x--y", true),
    (b"1.2.3.4.a", true),
    // The groups of an IPv4 address are not looked into beyond their three digits.
    (b"999.1.1.1", true),
    // The grammar of RFC 3261 lets more through than addresses have.
    (b"[::ffff:1.2.3.4]", true),
    (b"[64:ff9b::1.2.3.4]", true),
    (b"[:::1.2.3.4]", true),
    (b"[1:::1.2.3.4]", true),
    (b"[1:2:3:4:5:6:7:8:9]", true),
    (b"[::]", true),
    // A last label of digits, an empty one, a hyphen at an end, and what is neither.
    (b"a.1", false),
    (b"a..b", false),
    (b"a-.b", false),
    (b"[1:::2]", false),
    (b"[1.2.3.4]", false),
    (b"1.2.3.4.", false),
    (b"::1", false),
    (b"", false),
];

// A text, whether it is an IPv6 address, and whether it is a port.
static ADDRESSES: &[(&[u8], bool, bool)] = &[
    // An address stands without its brackets. A port has at most five digits, and is at most 65535.
    (b"2001:db8::9:1", true, false),
    (b"::ffff:192.0.2.10", true, false),
    (b"[::1]", false, false),
    (b"05060", false, true),
    (b"65536", false, false),
    (b"", false, false),
];

// Two texts, and whether they are the same without case.
static PAIRS: &[(&[u8], &[u8], bool)] = &[
    // Letters of ASCII alone have a case.
    (b"z9hG4bK", b"Z9HG4BK", true),
    (b"a[", b"a{", false),
    (b"a", b"ab", false),
    (b"\xc0", b"\xe0", false),
];

/// How long the token, the blanks and the quoted string at the front of a text are.
#[test]
fn reads_fronts(rt: HostRuntime) {
    for &(text, token, blanks) in FRONTS {
        is(&rt, token_len(text), token, text);
        is(&rt, skip_lws(text), blanks, text);
    }
    for &(text, len) in QUOTED {
        is(&rt, read_quoted(text), len, text);
    }
}

/// Whether a text is a host, an IPv6 address or a port.
#[test]
fn reads_hosts(rt: HostRuntime) {
    for &(text, want) in HOSTS {
        is(&rt, is_host(text), want, text);
    }
    for &(text, address, port) in ADDRESSES {
        is(&rt, is_ipv6_address(text), address, text);
        is(&rt, is_port(text), port, text);
    }
}

/// Whether two texts are the same without case.
#[test]
fn folds_case(rt: HostRuntime) {
    for &(a, b, same) in PAIRS {
        is(&rt, same_text(a, b), same, a);
    }
}
