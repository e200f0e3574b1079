//! What a change of one line of the OPTIONS request comes to, worked out from RFC 3261 sections 7, 20 and 25.

use crate::answer::Answer;
use crate::changed::{NO_LINE, OVER_TCP};
use Answer::{Body, Head, Line, Read};
use Reason::{
    BareLineEnd, FieldLine, LongBody, MethodMismatch, Missing, NoLength, Repeated, ShortBody,
    StartLine, Value,
};
use sip_message::Reason;

/// The lines that are changed, each by its number with its new text; the body; and what the message comes to: a message with a body of so many bytes,
/// or a fault of the head, of the line with a number, or of the body. Line 0 is the start line, 1 Via, 2 From, 3 To, 4 Call-ID, 5 CSeq and
/// 6 Content-Length.
pub(crate) type Change = (&'static [(usize, &'static [u8])], &'static [u8], Answer);

/// The message is read, and has no body.
const READ: Answer = Read { body: 0 };

/// Changes of the start line, and of the head as a whole, which is read first.
pub(crate) static STARTS: &[Change] = &[
    // The request as it is.
    (&[], b"", READ),
    // Another version, a blank after it, and a fold in the line. The version is read without regard to case.
    (
        &[(0, b"OPTIONS sip:example.com SIP/1.0")],
        b"",
        Line(0, StartLine),
    ),
    (
        &[(0, b"OPTIONS sip:example.com SIP/2.0 ")],
        b"",
        Line(0, StartLine),
    ),
    (
        &[(0, b"OPTIONS\r\n sip:example.com SIP/2.0")],
        b"",
        Line(0, StartLine),
    ),
    (&[(0, b"OPTIONS sip:example.com sip/2.0")], b"", READ),
    // Codes are 100 to 699. A blank stands after the code, and then a reason, which may be empty.
    (&[(0, b"SIP/2.0 99 Reply")], b"", Line(0, StartLine)),
    (&[(0, b"SIP/2.0 100 ")], b"", READ),
    (&[(0, b"SIP/2.0 699 R\xc3\xa4ply\t")], b"", READ),
    (&[(0, b"SIP/2.0 700 Reply")], b"", Line(0, StartLine)),
    (&[(0, b"SIP/2.0 200")], b"", Line(0, StartLine)),
    // A CR or an LF that stands alone is a fault of the head, before any fault of a line.
    (&[(1, b"Via SIP"), (3, b"To: a\rb")], b"", Head(BareLineEnd)),
    (&[(1, b"Via SIP"), (3, b"To: a\nb")], b"", Head(BareLineEnd)),
];

/// Changes of field lines: a line is a name and a colon, and then a value.
pub(crate) static LINES: &[Change] = &[
    // A field has a name, and then a colon.
    (&[(1, b"Via SIP")], b"", Line(1, FieldLine)),
    (&[(1, b": SIP")], b"", Line(1, FieldLine)),
    // SP and HTAB may stand around the colon, and a fold may not stand before it.
    (&[(3, b"To : <sip:bob@example.com>")], b"", READ),
    (&[(3, b"To\t \t:\t<sip:bob@example.com>  ")], b"", READ),
    (
        &[(3, b"To\r\n : <sip:bob@example.com>")],
        b"",
        Line(3, FieldLine),
    ),
    // The value of a field that is not looked into may be empty and folded, and has no control in it.
    (&[(6, b"Content-Length: 0\r\nSubject:")], b"", READ),
    (
        &[(6, b"Content-Length: 0\r\nSubject: a\x01")],
        b"",
        Line(7, Value),
    ),
    (
        &[(6, b"Subject: a\r\n b\r\nContent-Length: x")],
        b"",
        Line(7, Value),
    ),
];

/// Changes of Via.
pub(crate) static VIAS: &[Change] = &[
    (
        // Blanks and folds may stand around each part of an element.
        &[(
            1,
            b"v: SIP / 2.0 / UDP\r\n a.example.com : 5060 ; branch = z9hG4bK1",
        )],
        b"",
        READ,
    ),
    // A branch is a token, in each element, and stands with a value.
    (&[(1, b"Via: SIP/2.0/UDP a;branch")], b"", Line(1, Value)),
    (
        &[(1, b"Via: SIP/2.0/UDP a;branch=\"x\"")],
        b"",
        Line(1, Value),
    ),
    (
        &[(1, b"Via: SIP/2.0/UDP a;BRANCH=\"x\"")],
        b"",
        Line(1, Value),
    ),
    (
        &[(1, b"Via: SIP/2.0/UDP a;branch=z9hG4bK1;branch")],
        b"",
        Line(1, Value),
    ),
    (
        &[(
            1,
            b"Via: SIP/2.0/UDP a;branch=z9hG4bK1, SIP/2.0/UDP b;branch",
        )],
        b"",
        Line(1, Value),
    ),
    // A value does not end in a comma.
    (
        &[(1, b"Via: SIP/2.0/UDP a;branch=z9hG4bK1,")],
        b"",
        Line(1, Value),
    ),
    // A port has at most five digits, and is at most 65535.
    (&[(1, b"Via: SIP/2.0/UDP a:65535")], b"", READ),
    (&[(1, b"Via: SIP/2.0/UDP a:65536")], b"", Line(1, Value)),
    (&[(1, b"Via: SIP/2.0/UDP a:005060")], b"", Line(1, Value)),
    // A blank stands before the host.
    (
        &[(1, b"Via: SIP/2.0/UDPa.example.com")],
        b"",
        Line(1, Value),
    ),
    // The parameters of RFC 3261 and any others.
    (
        &[(
            1,
            b"Via: SIP/2.0/UDP a;ttl=1;maddr=[::1];received=::1;x=\"y, ;\"",
        )],
        b"",
        READ,
    ),
    // After an equals sign a value stands, and after a semicolon a parameter. Without a Via something is missing.
    (&[(1, b"Via: SIP/2.0/UDP a;x=")], b"", Line(1, Value)),
    (&[(1, b"Via: SIP/2.0/UDP a;")], b"", Line(1, Value)),
    (&[(1, NO_LINE)], b"", Head(Missing)),
];

/// Changes of From and To.
pub(crate) static ADDRESSES: &[Change] = &[
    // A display name in quotes may have any marks in it, with a backslash before a quote.
    (&[(2, b"From: \"A, B\" <sip:a@b>;tag=1")], b"", READ),
    (&[(2, b"From: \"A\\\\\\\"\" <sip:a@b>")], b"", READ),
    // In angles a URI may have headers, and without them neither a question mark nor a comma stands in it.
    (&[(2, b"From: <sip:a@b?x=1>;tag=1;lr")], b"", READ),
    (&[(2, b"From: sip:a@b?x=1")], b"", Line(2, Value)),
    (&[(2, b"From: sip:a,b@c")], b"", Line(2, Value)),
    // A parameter needs no value. What follows the URI are parameters alone, and an angle that opens is closed.
    (&[(2, b"From: sip:a@b;tag")], b"", READ),
    (&[(2, b"From: <sip:a@b> x")], b"", Line(2, Value)),
    (&[(2, b"From: <sip:a@b")], b"", Line(2, Value)),
    (&[(2, b"From:")], b"", Line(2, Value)),
];

/// Changes of Call-ID and CSeq.
pub(crate) static NUMBERS: &[Change] = &[
    // A Call-ID is a word, or two words with an @ between them.
    (&[(4, b"Call-ID: a@b@c")], b"", Line(4, Value)),
    (&[(4, b"i: (a)<b>@c")], b"", READ),
    (&[(4, b"Call-ID: @c")], b"", Line(4, Value)),
    // The number of a CSeq is below 2^31, however many zeros stand before it.
    (&[(5, b"CSeq: 2147483647 OPTIONS")], b"", READ),
    (&[(5, b"CSeq: 2147483648 OPTIONS")], b"", Line(5, Value)),
    (
        &[(5, b"CSeq: 00000000000000000000001\r\n\tOPTIONS")],
        b"",
        READ,
    ),
    (
        &[(5, b"CSeq: 18446744073709551617 OPTIONS")],
        b"",
        Line(5, Value),
    ),
    // A blank follows the number. The method is that of the request, and a response may have any.
    (&[(5, b"CSeq: 1OPTIONS")], b"", Line(5, Value)),
    (&[(5, b"CSeq: 1 INVITE")], b"", Line(5, MethodMismatch)),
    (&[(5, b"CSeq: 1 options")], b"", Line(5, MethodMismatch)),
    (
        &[(0, b"SIP/2.0 200 Reply"), (5, b"CSeq: 1 INVITE")],
        b"",
        READ,
    ),
];

/// Changes of which fields stand, and how often. A bad value of a later line is a fault before a field that is missing.
pub(crate) static NAMES: &[Change] = &[
    // A second field of a name that stands once is a fault of its line, also where another field is missing.
    (
        &[(5, b"CSeq: 1 OPTIONS\r\nCSeq: 1 OPTIONS")],
        b"",
        Line(6, Repeated),
    ),
    (
        &[(4, NO_LINE), (6, b"Content-Length: 0\r\nt: sip:a@b")],
        b"",
        Line(6, Repeated),
    ),
    // A To does not stand for a From.
    (
        &[(2, NO_LINE), (6, b"Content-Length: 0\r\nt: sip:a@b")],
        b"",
        Head(Missing),
    ),
    (
        &[(3, b"To: sip:a@b\r\nt: sip:a@b\r\ntO: sip:a@b")],
        b"",
        Line(4, Repeated),
    ),
    // A name counts in its compact form and in any case; of Content-Length too there is one.
    (&[(6, b"Content-Length: 0\r\nl: 0")], b"", Line(7, Repeated)),
    // Without a Call-ID or a CSeq something is missing.
    (&[(4, NO_LINE)], b"", Head(Missing)),
    (&[(5, NO_LINE)], b"", Head(Missing)),
    (
        &[(4, NO_LINE), (6, b"Content-Length: x")],
        b"",
        Line(5, Value),
    ),
];

/// Changes of the body. A later element of Via has no part in it.
pub(crate) static BODIES: &[Change] = &[
    // The length is longer than the body, however many digits it has.
    (
        &[(6, b"Content-Length: 99999999999999999999")],
        b"",
        Body(ShortBody),
    ),
    (
        &[OVER_TCP, (6, b"Content-Length: 99999999999999999999")],
        b"",
        Body(ShortBody),
    ),
    (
        // Nor are these numbers cut: in 64 bits this one would be 0, and in 32 bits the next one would be 1.
        &[(6, b"Content-Length: 18446744073709551616")],
        b"a",
        Body(ShortBody),
    ),
    (&[(6, b"Content-Length: 4294967297")], b"a", Body(ShortBody)),
    (
        // Zeros in front count nothing.
        &[(6, b"Content-Length: 00000000000000000000003")],
        b"abc",
        Read { body: 3 },
    ),
    (&[(6, b"Content-Length: 3")], b"ab", Body(ShortBody)),
    // What comes after the body is left out of a datagram, and is a fault in a stream.
    (&[], b"a", READ),
    (&[OVER_TCP], b"a", Body(LongBody)),
    (&[OVER_TCP], b"", READ),
    // Without a length the body of a datagram is all that comes; a stream has to have one.
    (&[(6, NO_LINE)], b"abc", Read { body: 3 }),
    (&[OVER_TCP, (6, NO_LINE)], b"abc", Body(NoLength)),
    // The transport of the first Via tells which of the two it is, without case; WSS keeps messages apart.
    (
        &[(1, b"Via: SIP/2.0/tls a"), (6, NO_LINE)],
        b"",
        Body(NoLength),
    ),
    (&[(1, b"Via: SIP/2.0/WSS a"), (6, NO_LINE)], b"", READ),
    (
        &[(1, b"Via: SIP/2.0/UDP a, SIP/2.0/TCP b"), (6, NO_LINE)],
        b"",
        READ,
    ),
    (
        &[(1, b"Via: SIP/2.0/TCP a, SIP/2.0/UDP b"), (6, NO_LINE)],
        b"",
        Body(NoLength),
    ),
];
