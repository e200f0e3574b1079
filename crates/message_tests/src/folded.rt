//! An OPTIONS request, folded and in its canonical form.

/// An OPTIONS request with folds, compact names, and blanks wherever they may stand.
pub(crate) const FOLDED: &[u8] = b"OPTIONS sip:example.com SIP/2.0\r\n\
    v: SIP / 2.0 / UDP\r\n\
    \x20a.example.com\r\n\
    \t;branch = z9hG4bKr2\r\n\
    f: <sip:bob@example.com>;tag=1\r\n\
    t: sip:bob@example.com\r\n\
    i: c2@a\r\n\
    CSeq: 1 OPTIONS\r\n\
    l: 0\r\n\
    \r\n";

/// The canonical form of the folded request.
pub(crate) const UNFOLDED: &[u8] = b"OPTIONS sip:example.com SIP/2.0\r\n\
    Via: SIP / 2.0 / UDP a.example.com ;branch = z9hG4bKr2\r\n\
    From: <sip:bob@example.com>;tag=1\r\n\
    To: sip:bob@example.com\r\n\
    Call-ID: c2@a\r\n\
    CSeq: 1 OPTIONS\r\n\
    Content-Length: 0\r\n\
    \r\n";
