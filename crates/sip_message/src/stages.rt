//! The stages of reading a message, each with its faults.
ghost use Rattle.std.specs.Prelude.{◌≡◌, ◌↔◌, ◌≤◌, ◌<◌, ◌-◌, ℕ, List, ◌++◌, length, take, slice_index, Some, IsTrue, IfOk, IfSome, option_copied};
ghost use Rattle.std.specs.Option.{option_map};
ghost use Rattle.std.specs.Str.Parse.{digits_value};
ghost use Rattle.memchr.specs.Find.{FindsNeedle};
ghost use Rattle.sip_text.specs.Bytes.{crlf, carriage_return};
ghost use Rattle.sip_standard.specs.Body.{MethodSays, BodySays};
ghost use Rattle.sip_message.specs.inner.Only.{IsOnlyValue};
ghost use Rattle.sip_message.specs.inner.Lines.{AreLines};
ghost use Rattle.std.specs.List.{AllByRecursion};
ghost use Rattle.sip_message.specs.inner.FieldText.{Row};
ghost use Rattle.sip_message.specs.inner.Values.{Digits, CSeqValue};
ghost use Rattle.sip_message.specs.inner.MessageText.{content_length, is_stream, found};
ghost use Rattle.sip_standard.specs.Field.{FirstOf, NoSecond, OneOf};
ghost use Rattle.sip_standard.specs.Lines.{CutSays, LinesSay};
ghost use Rattle.sip_message.specs.inner.Faults.{NamesOf};
ghost use Rattle.sip_message.specs.inner.Finds.{IsFound, found_parts, nothing_parts};
ghost use Rattle.sip_message.specs.inner.Fronts.{pair_parts, text_parts};
ghost use Rattle.sip_message.specs.inner.Views.{slice_fields};
ghost use Rattle.sip_message.specs.inner.Settles.{outcome_of};
ghost use Rattle.sip_message.specs.ValueParts.{start_parts, element, cseq_parts};
ghost use Rattle.sip_message.specs.inner.ElementFronts.{FirstVia};
ghost use Rattle.sip_message.specs.inner.Stages.{names_parts, names_of, Stand, HasBody};

use crate::cursor::cut_line;
use crate::field::{Field, cut_value};
use crate::name::Known;
use crate::start_line::StartLine;
use crate::values::{CSeq, number_at_most};
use crate::via::Via;
use memchr::memmem;
use sip_standard::{Fault, Reason, Unit};
use sip_text::same_text;

/// The values of the named fields, those of Via and CSeq with the numbers of their lines.
#[derive(Clone, Copy, Drop)]
pub(crate) struct Named<'a> {
    pub(crate) via_line: usize,
    pub(crate) via: &'a [u8],
    pub(crate) from: &'a [u8],
    pub(crate) to: &'a [u8],
    pub(crate) call_id: &'a [u8],
    pub(crate) cseq_line: usize,
    pub(crate) cseq: &'a [u8],
}

// The head with its last line end, and what follows the empty line after it.
pub(crate) fn cut_head(bytes: &[u8]) -> Option<(&[u8], &[u8])>
    ensures { IsOnlyValue CutSays pair_parts bytes.now result }
{
    let at = find_double_end(bytes)?;
    Some((&bytes[..at + 2], &bytes[at + 4..]))
}

// The place of the first CRLF CRLF. It is searched for by LF CR LF: in most messages that stands nowhere else, so that
// the search seldom stops at another line.
#[inline]
fn find_double_end(bytes: &[u8]) -> Option<usize>
    ensures { FindsNeedle bytes.now (crlf ++ crlf) 0 result }
{
    let mut from = 0;
    'feeds: loop {
        let at = from + memmem::find(&bytes[from..], b"\n\r\n")?;
        if is_behind_cr(bytes, at) {
            return Some(at - 1);
        }
        from = at + 1;
    }
}

// Whether a CR stands right before this place.
#[inline]
fn is_behind_cr(bytes: &[u8], at: usize) -> bool
    requires { at ≤ length bytes.now }
    ensures { IsTrue result ↔ ((0 < at) × (slice_index bytes.now (at - 1) ≡ carriage_return)) }
{
    at > 0 && bytes[at - 1] == b'\r'
}

// The first line, and the text of the other lines.
pub(crate) fn cut_first(head: &[u8]) -> (&[u8], &[u8])
    ensures { (first : List ℕ) (others : List (List ℕ)) → LinesSay head.now first others → (first ≡ result.0.now) × AreLines result.1.now others }
{
    match cut_line(head) {
        Some(cut) => cut,
        None => (head, &[]),
    }
}

// The values of the named fields, or the fault of the first of them that is missing or stands twice.
pub(crate) fn find_named<'a>(fields: &[Field<'a>]) -> Result<Named<'a>, Fault>
    ensures names { NamesOf (slice_fields fields.entry) (outcome_of names_parts result) }
    ensures stand { IfOk result (λ named. Stand (slice_fields fields.entry) (names_of named)) }
{
    let (via, via_line) = find_first(fields, Known::Via)?;
    let (from, _) = find_once(fields, Known::From)?;
    let (to, _) = find_once(fields, Known::To)?;
    let (call_id, _) = find_once(fields, Known::CallId)?;
    let (cseq, cseq_line) = find_once(fields, Known::CSeq)?;
    check_not_twice(fields, Known::ContentLength)?;
    Ok(Named {
        via_line,
        via,
        from,
        to,
        call_id,
        cseq_line,
        cseq,
    })
}

// The value of the first field of the name, with the number of its line.
fn find_first<'a>(fields: &[Field<'a>], name: Known) -> Result<(&'a [u8], usize), Fault>
    ensures present { FirstOf (found name (slice_fields fields.entry)) (outcome_of found_parts result) }
    ensures found { IfOk result (λ first. IsFound name 0 (slice_fields fields.entry) (Some (found_parts first))) }
{
    match cut_value(fields, 0, name) {
        Some(first) => Ok(first),
        None => Err(Fault {
            unit: Unit::Head,
            reason: Reason::Missing,
        }),
    }
}

// Fails where the name stands twice.
fn check_not_twice(fields: &[Field<'_>], name: Known) -> Result<(), Fault>
    ensures { NoSecond (found name (slice_fields fields.entry)) (outcome_of nothing_parts result) }
{
    let Some((_, line)) = cut_value(fields, 0, name) else {
        return Ok(());
    };
    match cut_value(fields, line, name) {
        Some((_, second)) => Err(Fault {
            unit: Unit::Line(second),
            reason: Reason::Repeated,
        }),
        None => Ok(()),
    }
}

// The value of the one field of the name, with the number of its line.
fn find_once<'a>(fields: &[Field<'a>], name: Known) -> Result<(&'a [u8], usize), Fault>
    ensures { OneOf (found name (slice_fields fields.entry)) (outcome_of found_parts result) }
{
    let (value, line) = find_first(fields, name)?;
    match cut_value(fields, line, name) {
        Some((_, second)) => Err(Fault {
            unit: Unit::Line(second),
            reason: Reason::Repeated,
        }),
        None => Ok((value, line)),
    }
}

// The body, or a fault of the method or the body. It is inlined, since a Via of which a place is handed on twice is copied.
#[inline(always)]
pub(crate) fn read_body<'a>(
    start: StartLine<'a>,
    named: Named<'a>,
    via: &Via<'a>,
    cseq: CSeq<'a>,
    fields: &[Field<'a>],
    rest: &'a [u8],
) -> Result<&'a [u8], Fault>
    requires rows { AllByRecursion (λ f. Row f.name f.value) (slice_fields fields) }
    requires via { FirstVia named.via.now (element via.now) }
    requires cseq { CSeqValue named.cseq.now (cseq_parts cseq) }
    ensures { BodySays (start_parts start.entry) ((names_parts named.entry).1) ((names_parts named.entry).0.1) (content_length (slice_fields fields.entry)) rest.entry.now (outcome_of text_parts result) }
{
    // The value is handed on without the number of its line.
    match cut_value(fields, 0, Known::ContentLength) {
        Some((digits, _)) => body_by_length(start, named, via, cseq, Some(digits), rest),
        None => body_by_length(start, named, via, cseq, None, rest),
    }
}

/// The body, or a fault of the method or the body, where the value of Content-Length is at hand.
pub(crate) fn body_by_length<'a>(
    start: StartLine<'a>,
    named: Named<'a>,
    via: &Via<'a>,
    cseq: CSeq<'a>,
    length: Option<&'a [u8]>,
    rest: &'a [u8],
) -> Result<&'a [u8], Fault>
    requires digits { IfSome (option_copied length) Digits }
    requires via { FirstVia named.via.now (element via.now) }
    requires cseq { CSeqValue named.cseq.now (cseq_parts cseq) }
    ensures { BodySays (start_parts start.entry) ((names_parts named.entry).1) ((names_parts named.entry).0.1) (option_map (digits_value 10) (option_copied length.entry)) rest.entry.now (outcome_of text_parts result) }
{
    // The method of a request stands in its CSeq too.
    if !fits_method(start, cseq) {
        return Err(Fault {
            unit: Unit::Line(named.cseq_line),
            reason: Reason::MethodMismatch,
        });
    }
    // Without a length a datagram's body is all that comes, and a stream has none that ends.
    let Some(digits) = length else {
        if is_stream(via.transport) {
            return Err(Fault {
                unit: Unit::Body,
                reason: Reason::NoLength,
            });
        }
        return Ok(rest);
    };
    // The length is at most what comes.
    let Some(len) = number_at_most(digits, rest.len()) else {
        return Err(Fault {
            unit: Unit::Body,
            reason: Reason::ShortBody,
        });
    };
    if len == rest.len() {
        return Ok(rest);
    }
    // What comes after the body is the next message of a stream, and nothing in a datagram.
    if is_stream(via.transport) {
        return Err(Fault {
            unit: Unit::Body,
            reason: Reason::LongBody,
        });
    }
    Ok(&rest[..len])
}

/// How many bytes the body of a message with an ordinary head has, or None where something is wrong with the method or the body.
#[inline]
pub(crate) fn body_len(
    start: &StartLine<'_>,
    via: &Via<'_>,
    cseq: &CSeq<'_>,
    content_length: Option<&[u8]>,
    rest: &[u8],
) -> Option<usize>
    requires { IfSome (option_copied content_length) Digits }
    ensures { IfSome result (λ len. (len ≤ length rest.now) × HasBody start.now via.now cseq.now (option_copied content_length.entry) rest.now (take len rest.now)) }
{
    if !fits_method(*start, *cseq) {
        return None;
    }
    // A stream needs Content-Length. A datagram without one has its body up to its end.
    let Some(digits) = content_length else {
        return if is_stream(via.transport) {
            None
        } else {
            Some(rest.len())
        };
    };
    // In a stream the body has to end where the bytes do. In a datagram more bytes may follow it.
    let len = number_at_most(digits, rest.len())?;
    if len == rest.len() {
        return Some(len);
    }
    if is_stream(via.transport) {
        None
    } else {
        Some(len)
    }
}

// Whether the method of CSeq is that of the request. It is true of a response.
fn fits_method(start: StartLine<'_>, cseq: CSeq<'_>) -> bool
    ensures { (text : List ℕ) → CSeqValue text (cseq_parts cseq.entry) → IsTrue result ↔ MethodSays (start_parts start.entry) text }
{
    match start {
        StartLine::Request { method, .. } => cseq.method == method,
        StartLine::Status { .. } => true,
    }
}

/// Whether the transport is a stream: TCP or TLS.
fn is_stream(transport: &[u8]) -> bool
    ensures { result ≡ is_stream transport.now }
{
    same_text(transport, b"TCP") || same_text(transport, b"TLS")
}
