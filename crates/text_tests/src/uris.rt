//! Texts that are URIs, and texts that are none.

use crate::wants::is;
use sip_text::is_uri;

/// Texts that are URIs.
static URIS: &[&[u8]] = &[
    b"sip:bob:pw@b.c:5060;lr?x=1&y=",
    // A user may have marks that end a host, and a password may be empty.
    b"sip:a;b@c",
    b"sip:a:@b",
    // A scheme counts without case. A host may be an IPv6 reference, and stand without a user.
    b"SIPS:[::1]:5061",
    // A user may have an escape and such marks, and a port a zero in front.
    b"sIp:%41?=/@1.2.3.4:05060",
    // Parameters and headers may have escapes and brackets, and a header's value may be empty.
    b"sip:b;x=%7e;[y]:z?a=&[b]=:",
    // Of another scheme nothing is asked but that no other byte stands in it.
    b"tel:+1",
    b"x-1.y+z::@?%7e",
];

/// Texts that are no URI.
static NONE: &[&[u8]] = &[
    // A second @, or a user that is empty.
    b"sip:a@b@c",
    b"sip:@b",
    b"SIP:@b",
    // Headers, parameters and a port that are empty or wrong.
    b"sip:b?x",
    b"sip:b?",
    b"sip:b;",
    b"sip:b:70000",
    b"sip:b:005060",
    b"sip:b:",
    // A host with more behind it, a sign % without two digits, and a password with a colon.
    b"sip:[::1]x:80",
    b"sip:%4@b",
    b"sip:a;%4@b",
    b"sip:a:b:c@d",
    // No colon, nothing behind it, no scheme before it, and a byte that no URI has.
    b"sip",
    b"mailto:",
    b"1x:a",
    b":a",
    b"http:[a]",
];

/// Each text of the first list is a URI, and none of the second.
#[test]
fn reads_uris(rt: HostRuntime) {
    for &text in URIS {
        is(&rt, is_uri(text), true, text);
    }
    for &text in NONE {
        is(&rt, is_uri(text), false, text);
    }
}
