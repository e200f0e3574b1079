//! The names of fields.
ghost use Rattle.std.specs.Prelude.{◌≡◌, ◌≢◌, ◌≤◌, ◌∷◌, [], length, take, drop};
ghost use Rattle.sip_message.specs.Name.{name_of};
ghost use Rattle.sip_message.specs.inner.Views.{name_parts};
ghost use Rattle.sip_standard.specs.Profile.{Token};
ghost use Rattle.sip_message.specs.inner.Names.{name_or};
ghost use Rattle.sip_message.specs.inner.Numbers.{number_of};

use crate::number::number_of;
use sip_text::same_text;

/// A field name that the reader knows.
#[derive(Clone, Copy, Debug, PartialEq, Eq)]
pub enum Known {
    /// Via, v.
    Via,
    /// From, f.
    From,
    /// To, t.
    To,
    /// Call-ID, i.
    CallId,
    /// CSeq.
    CSeq,
    /// Content-Length, l.
    ContentLength,
    /// Contact, m.
    Contact,
    /// Content-Encoding, e.
    ContentEncoding,
    /// Content-Type, c.
    ContentType,
    /// Subject, s.
    Subject,
    /// Supported, k.
    Supported,
    /// Route.
    Route,
}

/// The name of a field: one that is known, or another as it is spelled.
#[derive(Clone, Copy, Debug, PartialEq, Eq)]
pub enum Name<'a> {
    /// A known name, whatever its spelling.
    Known(Known),
    /// Another name, as it is spelled.
    Other(&'a [u8]),
}

impl Name<'_> {
    ghost use Rattle.sip_message.specs.Name.{is_name_of};

    /// Whether it is this known name.
    #[inline]
    pub(crate) fn is(self, known: Known) -> bool
        ensures { result ≡ is_name_of known (name_parts self.entry) }
    {
        match self {
            Name::Known(name) => name == known,
            Name::Other(_) => false,
        }
    }
}

/// The name that the text spells.
#[inline(always)]
pub(crate) fn read_name(text: &[u8]) -> Name<'_>
    ensures { name_parts result ≡ name_of text.now }
{
    match known_name(text) {
        Some(name) => Name::Known(name),
        None => Name::Other(text),
    }
}

// The known name that the text spells.
#[inline(never)]
fn known_name(text: &[u8]) -> Option<Known>
    ensures { name_or result text.now ≡ name_of text.now }
{
    match text {
        [letter] => compact_name(*letter),
        _ => full_name(text),
    }
}

// The numbers of the known names, and of the two halves of each known name of more than 8 bytes. The last letter of
// a name is the highest byte of its number.
const VIA: u64 = 0x6169_7600_0000_0000;

// The number of From.
const FROM: u64 = 0x6d6f_7266_0000_0000;

// The number of To.
const TO: u64 = 0x6f74_0000_0000_0000;

// The number of Call-ID.
const CALL_ID: u64 = 0x6469_2d6c_6c61_6300;

// The number of CSeq.
const CSEQ: u64 = 0x7165_7363_0000_0000;

// The number of Contact.
const CONTACT: u64 = 0x7463_6174_6e6f_6300;

// The number of Subject.
const SUBJECT: u64 = 0x7463_656a_6275_7300;

// The number of Route.
const ROUTE: u64 = 0x6574_756f_7200_0000;

// The number of the first eight letters of Supported.
const SUPPORTE: u64 = 0x6574_726f_7070_7573;

// The number of the last letter of Supported.
const D: u64 = 0x6400_0000_0000_0000;

// The number of `content-`, the first half of Content-Length, Content-Type and Content-Encoding.
const CONTENT: u64 = 0x2d74_6e65_746e_6f63;

// The number of the second half of Content-Length.
const LENGTH: u64 = 0x6874_676e_656c_0000;

// The number of the second half of Content-Type.
const TYPE: u64 = 0x6570_7974_0000_0000;

// The number of the second half of Content-Encoding.
const ENCODING: u64 = 0x676e_6964_6f63_6e65;

/// The name that the first `len` bytes of the window, which are a token, spell. Where the window has 16 bytes or more, the
/// name is found by its numbers.
#[inline(always)]
pub(crate) fn quick_name(window: &[u8], len: usize) -> Name<'_>
    requires within { len ≤ length window.now }
    requires token { Token (take len window.now) }
    ensures { name_parts result ≡ name_of (take len window.now) }
{
    let text = &window[..len];
    if len < 2 || len > 16 || window.len() < 16 {
        return read_name(text);
    }
    if len <= 8 {
        return short_name(text, number_of(window, len));
    }
    let first = number_of(window, 8);
    let second = number_of(&window[8..], len - 8);
    halved_name(text, first, second)
}

// The name that the text of at most 8 bytes spells, whose number is this one.
#[inline(always)]
fn short_name(text: &[u8], number: u64) -> Name<'_>
    requires token { Token text.now }
    requires length { (2 ≤ length text.now) × (length text.now ≤ 8) }
    requires number { number ≡ number_of text.now }
    ensures { name_parts result ≡ name_of text.now }
{
    if number == VIA {
        Name::Known(Known::Via)
    } else if number == FROM {
        Name::Known(Known::From)
    } else if number == TO {
        Name::Known(Known::To)
    } else if number == CALL_ID {
        Name::Known(Known::CallId)
    } else if number == CSEQ {
        Name::Known(Known::CSeq)
    } else if number == CONTACT {
        Name::Known(Known::Contact)
    } else if number == SUBJECT {
        Name::Known(Known::Subject)
    } else if number == ROUTE {
        Name::Known(Known::Route)
    } else {
        Name::Other(text)
    }
}

// The name that the text of 9 to 16 bytes spells, whose first 8 bytes and other bytes have these numbers.
#[inline(always)]
fn halved_name(text: &[u8], first: u64, second: u64) -> Name<'_>
    requires token { Token text.now }
    requires length { (9 ≤ length text.now) × (length text.now ≤ 16) }
    requires first { first ≡ number_of (take 8 text.now) }
    requires second { second ≡ number_of (drop 8 text.now) }
    ensures { name_parts result ≡ name_of text.now }
{
    if first == CONTENT && second == LENGTH {
        Name::Known(Known::ContentLength)
    } else if first == CONTENT && second == TYPE {
        Name::Known(Known::ContentType)
    } else if first == CONTENT && second == ENCODING {
        Name::Known(Known::ContentEncoding)
    } else if first == SUPPORTE && second == D {
        Name::Known(Known::Supported)
    } else {
        Name::Other(text)
    }
}

// The known name whose compact form is this letter.
fn compact_name(letter: u8) -> Option<Known>
    ensures { name_or result (letter ∷ []) ≡ name_of (letter ∷ []) }
{
    match letter.to_ascii_lowercase() {
        b'v' => Some(Known::Via),
        b'f' => Some(Known::From),
        b't' => Some(Known::To),
        b'i' => Some(Known::CallId),
        b'l' => Some(Known::ContentLength),
        b'm' => Some(Known::Contact),
        b'e' => Some(Known::ContentEncoding),
        b'c' => Some(Known::ContentType),
        b's' => Some(Known::Subject),
        b'k' => Some(Known::Supported),
        _ => None,
    }
}

// The known name that the text spells in full. Names of one length stand together, so that few are
// compared; they stand as most messages spell them, which is compared fastest.
fn full_name(text: &[u8]) -> Option<Known>
    requires { length text.now ≢ 1 }
    ensures { name_or result text.now ≡ name_of text.now }
{
    match text.len() {
        2 if same_text(text, b"To") => Some(Known::To),
        3 if same_text(text, b"Via") => Some(Known::Via),
        4 if same_text(text, b"From") => Some(Known::From),
        4 if same_text(text, b"CSeq") => Some(Known::CSeq),
        5 if same_text(text, b"Route") => Some(Known::Route),
        7 if same_text(text, b"Call-ID") => Some(Known::CallId),
        7 if same_text(text, b"Contact") => Some(Known::Contact),
        7 if same_text(text, b"Subject") => Some(Known::Subject),
        9 if same_text(text, b"Supported") => Some(Known::Supported),
        12 if same_text(text, b"Content-Type") => Some(Known::ContentType),
        14 if same_text(text, b"Content-Length") => Some(Known::ContentLength),
        16 if same_text(text, b"Content-Encoding") => Some(Known::ContentEncoding),
        _ => None,
    }
}
