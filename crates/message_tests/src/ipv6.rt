//! The IPv6 messages of RFC 5118, by their sections there. The comment of a row says what its message is about; the other lines make it whole. An
//! answer is how many bytes the body has, or the first fault: its line, which counts from 0 for the start line, and its reason.

use crate::answer::{Answer, Row};
use sip_message::Reason;

/// The messages, each with what it comes to.
pub(crate) static IPV6: &[Row] = &[
    // IPv6 references in the Request-URI and in Via.
    Row {
        name: "4.1",
        text: b"REGISTER sip:[2001:db8::10] SIP/2.0\r\n\
            To: sip:user@example.com\r\n\
            From: sip:user@example.com;tag=81x2\r\n\
            Via: SIP/2.0/UDP [2001:db8::9:1];branch=z9hG4bKas3-111\r\n\
            Call-ID: SSG9559905523997077@hlau_4100\r\n\
            Max-Forwards: 70\r\n\
            Contact: \"Caller\" <sip:caller@[2001:db8::1]>\r\n\
            CSeq: 98176 REGISTER\r\n\
            Content-Length: 0\r\n\
            \r\n",
        answer: Answer::Read { body: 0 },
    },
    // An IPv6 address without its brackets.
    Row {
        name: "4.2",
        text: b"REGISTER sip:2001:db8::10 SIP/2.0\r\n\
            To: sip:user@example.com\r\n\
            From: sip:user@example.com;tag=81x2\r\n\
            Via: SIP/2.0/UDP [2001:db8::9:1];branch=z9hG4bKas3-111\r\n\
            Call-ID: SSG9559905523997077@hlau_4100\r\n\
            Max-Forwards: 70\r\n\
            Contact: \"Caller\" <sip:caller@[2001:db8::1]>\r\n\
            CSeq: 98176 REGISTER\r\n\
            Content-Length: 0\r\n\
            \r\n",
        answer: Answer::Line(0, Reason::StartLine),
    },
    // A port within the brackets is a group of the address.
    Row {
        name: "4.3",
        text: b"REGISTER sip:[2001:db8::10:5070] SIP/2.0\r\n\
            To: sip:user@example.com\r\n\
            From: sip:user@example.com;tag=81x2\r\n\
            Via: SIP/2.0/UDP [2001:db8::9:1];branch=z9hG4bKas3-111\r\n\
            Call-ID: SSG9559905523997077@hlau_4100\r\n\
            Max-Forwards: 70\r\n\
            Contact: \"Caller\" <sip:caller@[2001:db8::1]>\r\n\
            CSeq: 98176 REGISTER\r\n\
            Content-Length: 0\r\n\
            \r\n",
        answer: Answer::Read { body: 0 },
    },
    // A port after the brackets.
    Row {
        name: "4.4",
        text: b"REGISTER sip:[2001:db8::10]:5070 SIP/2.0\r\n\
            To: sip:user@example.com\r\n\
            From: sip:user@example.com;tag=81x2\r\n\
            Via: SIP/2.0/UDP [2001:db8::9:1];branch=z9hG4bKas3-111\r\n\
            Call-ID: SSG9559905523997077@hlau_4100\r\n\
            Max-Forwards: 70\r\n\
            Contact: \"Caller\" <sip:caller@[2001:db8::1]>\r\n\
            CSeq: 98176 REGISTER\r\n\
            Content-Length: 0\r\n\
            \r\n",
        answer: Answer::Read { body: 0 },
    },
    // An IPv6 reference for received.
    Row {
        name: "4.5a",
        text: b"REGISTER sip:[2001:db8::10] SIP/2.0\r\n\
            To: sip:user@example.com\r\n\
            From: sip:user@example.com;tag=81x2\r\n\
            Via: SIP/2.0/UDP [2001:db8::9:1];received=[2001:db8::9:255];branch=z9hG4bKas3-111\r\n\
            Call-ID: SSG9559905523997077@hlau_4100\r\n\
            Max-Forwards: 70\r\n\
            Contact: \"Caller\" <sip:caller@[2001:db8::1]>\r\n\
            CSeq: 98176 REGISTER\r\n\
            Content-Length: 0\r\n\
            \r\n",
        answer: Answer::Read { body: 0 },
    },
    // An IPv6 address for received.
    Row {
        name: "4.5b",
        text: b"OPTIONS sip:[2001:db8::10] SIP/2.0\r\n\
            To: sip:user@example.com\r\n\
            From: sip:user@example.com;tag=81x2\r\n\
            Via: SIP/2.0/UDP [2001:db8::9:1];received=2001:db8::9:255;branch=z9hG4bKas3\r\n\
            Call-ID: SSG9559905523997077@hlau_4100\r\n\
            Max-Forwards: 70\r\n\
            Contact: \"Caller\" <sip:caller@[2001:db8::1]>\r\n\
            CSeq: 98176 OPTIONS\r\n\
            Content-Length: 0\r\n\
            \r\n",
        answer: Answer::Read { body: 0 },
    },
    // IPv6 and IPv4 in several Via elements.
    Row {
        name: "4.7",
        text: b"BYE sip:user@host.example.net SIP/2.0\r\n\
            To: sip:user@example.com\r\n\
            From: sip:user@example.com;tag=81x2\r\n\
            Via: SIP/2.0/UDP [2001:db8::9:1]:6050;branch=z9hG4bKas3-111\r\n\
            Via: SIP/2.0/UDP 192.0.2.1;branch=z9hG4bKjhja8781hjuaij65144,\r\n\
            \x20 SIP/2.0/TCP [2001:db8::9:255];branch=z9hG4bK451jj;received=192.0.2.200\r\n\
            Call-ID: SSG9559905523997077@hlau_4100\r\n\
            Max-Forwards: 70\r\n\
            Contact: \"Caller\" <sip:caller@[2001:db8::1]>\r\n\
            CSeq: 98176 BYE\r\n\
            Content-Length: 0\r\n\
            \r\n",
        answer: Answer::Read { body: 0 },
    },
    // IPv4 addresses within IPv6 ones.
    Row {
        name: "4.9",
        text: b"INVITE sip:user@example.com SIP/2.0\r\n\
            To: sip:user@example.com\r\n\
            From: sip:user@example.com;tag=81x2\r\n\
            Via: SIP/2.0/UDP [::ffff:192.0.2.10]:19823;branch=z9hG4bKbh19\r\n\
            Via: SIP/2.0/UDP [::ffff:192.0.2.2];branch=z9hG4bKas3-111\r\n\
            Call-ID: SSG9559905523997077@hlau_4100\r\n\
            Max-Forwards: 70\r\n\
            Contact: \"Caller\" <sip:caller@[2001:db8::1]>\r\n\
            CSeq: 98176 INVITE\r\n\
            Content-Length: 0\r\n\
            \r\n",
        answer: Answer::Read { body: 0 },
    },
    // Three colons, which the grammar of RFC 3261 lets through (RFC 5954 narrows it).
    Row {
        name: "4.10",
        text: b"OPTIONS sip:user@[2001:db8:::192.0.2.1] SIP/2.0\r\n\
            To: sip:user@example.com\r\n\
            From: sip:user@example.com;tag=81x2\r\n\
            Via: SIP/2.0/UDP [2001:db8::9:1];branch=z9hG4bKas3-111\r\n\
            Call-ID: SSG9559905523997077@hlau_4100\r\n\
            Max-Forwards: 70\r\n\
            Contact: \"Caller\" <sip:caller@[2001:db8::1]>\r\n\
            CSeq: 98176 OPTIONS\r\n\
            Content-Length: 0\r\n\
            \r\n",
        answer: Answer::Read { body: 0 },
    },
];
