//! Messages.
ghost use Rattle.std.specs.Prelude.{◌≡◌, ◌∷◌, ℕ, List, false};
ghost use Rattle.sip_message.specs.inner.Parts.{HasParts};
ghost use Rattle.sip_message.specs.inner.Only.{ExactlyOne, the, IsOnly};
ghost use Rattle.sip_text.proofs.texts.OneLaws.{One-prop};
ghost use Rattle.sip_message.specs.Reading.{Reading, Parts};
ghost use Rattle.sip_message.specs.inner.Codes.{parts_code};
ghost use Rattle.sip_message.specs.inner.Kept.{KeepsRead};
ghost use Rattle.sip_message.specs.inner.MessageText.{AreUnfolded};
ghost use Rattle.sip_message.specs.inner.Views.{fields_parts, slice_fields};
ghost use Rattle.sip_message.specs.ValueParts.{start_parts, element, cseq_parts};

use crate::asked::Asked;
use crate::ends::is_clean;
use crate::fault::ReadError;
use crate::field::{Field, ROOM, read_fields};
use crate::quick::read_ordinary;
use crate::stages::{body_len, cut_first, cut_head, find_named, read_body};
use crate::start_line::{StartLine, read_start};
use crate::values::CSeq;
use crate::via::Via;
use crate::vias::{Routes, Vias};
use sip_standard::{Fault, Reason, Unit};
use sip_text::same_text;
use std::alloc::Global;
use std::marker::Model;

/// A message (RFC 3261, section 7), in slices of its bytes.
#[derive(Debug, Drop)]
pub struct Message<'a> {
    start: StartLine<'a>,
    fields: Vec<Field<'a>>,
    body: &'a [u8],
    /// The top Via, and the values of From, To and Call-ID, and the CSeq, as they were found in the fields.
    via: Via<'a>,
    from: &'a [u8],
    to: &'a [u8],
    call_id: &'a [u8],
    cseq: CSeq<'a>,
    /// Whether a value of the fields may be folded.
    may_fold: bool,
    // The fields have the parts of a message in one way only.
    ghost parts: { ExactlyOne (HasParts (fields_parts fields)) } by { One-prop parts_code (IsOnly (HasParts (fields_parts fields))) (λ x y p q. q.only x p.is) },
}

impl<'a> Model for Message<'a> {
    // Contracts see a message as a `Reading`: its start line, its fields and its body, and the parts of its named fields.
    ghost Value = { Reading };

    ghost view = { λ m. record { message = record { start = start_parts m.start; fields = fields_parts m.fields; body = m.body.now }; parts = the m.parts } };

    // At all times some bytes are read as the message, and what is kept of its named fields is what these say; and where `may_fold` is no, no value is folded.
    ghost invariant = { λ m. KeepsRead (record { start = start_parts m.start; fields = fields_parts m.fields; body = m.body.now }) (the m.parts) (element m.via) m.from.now m.to.now m.call_id.now (cseq_parts m.cseq) × (m.may_fold ≡ false → AreUnfolded (fields_parts m.fields)) };
}

impl<'a> Message<'a> {
    ghost use Rattle.sip_message.specs.Reads.{ReadsTo};
    ghost use Rattle.sip_message.specs.Message.{Message as Text};

    // The message of these parts.
    fn new(
        start: StartLine<'a>,
        fields: Vec<Field<'a>>,
        body: &'a [u8],
        via: Via<'a>,
        from: &'a [u8],
        to: &'a [u8],
        call_id: &'a [u8],
        cseq: CSeq<'a>,
        may_fold: bool,
    ) -> Self
        requires keeps { (p : Parts) × KeepsRead (record { start = start_parts start; fields = fields_parts fields; body = body.now }) p (element via) from.now to.now call_id.now (cseq_parts cseq) }
        requires no_folds { may_fold ≡ false → AreUnfolded (fields_parts fields) }
        ensures message { ◌≡◌ {A = Text} result.message (record { start = start_parts start.entry; fields = fields_parts fields.entry; body = body.entry.now }) }
        ensures parts { IsOnly (HasParts result.message.fields) result.parts }
    {
        Message {
            start,
            fields,
            body,
            via,
            from,
            to,
            call_id,
            cseq,
            may_fold,
        }
    }

    /// The message that the bytes spell, or their first fault.
    pub fn read(alloc: Global, bytes: &'a [u8]) -> Result<Self, ReadError>
        ensures { ReadsTo bytes.entry.now result }
    {
        let mut asked = Asked::new();
        let mut fields = Vec::with_capacity(alloc, ROOM)?;
        let Some((start, rest)) = read_ordinary(bytes, &mut fields, &mut asked)? else {
            return Message::any(alloc, bytes);
        };
        if !asked.is_complete() {
            return Message::any(alloc, bytes);
        }
        let via = asked.via.unwrap();
        let cseq = asked.cseq.unwrap();
        let Some(len) = body_len(&start, &via, &cseq, asked.content_length, rest) else {
            return Message::any(alloc, bytes);
        };
        let from = asked.from.unwrap();
        let to = asked.to.unwrap();
        let call_id = asked.call_id.unwrap();
        Ok(Message::new(
            start,
            fields,
            &rest[..len],
            via,
            from,
            to,
            call_id,
            cseq,
            false,
        ))
    }

    // The message that the bytes spell, whatever its head is like, or their first fault. The answer comes into a place of its own, so that an
    // ordinary message needs none.
    #[inline(always)]
    fn any(alloc: Global, bytes: &'a [u8]) -> Result<Self, ReadError>
        ensures { ReadsTo bytes.entry.now result }
    {
        Message::whole(alloc, bytes)
    }

    // The message that the bytes spell, or their first fault, by the reader of all heads. It reads the bytes from their front.
    #[inline(never)]
    fn whole(alloc: Global, bytes: &'a [u8]) -> Result<Self, ReadError>
        ensures { ReadsTo bytes.entry.now result }
    {
        // The head ends at the first empty line, and each CR in it is followed by LF.
        let Some((head, rest)) = cut_head(bytes) else {
            return Err(ReadError::Fault(Fault {
                unit: Unit::Head,
                reason: Reason::NoHeadEnd,
            }));
        };
        if !is_clean(head) {
            return Err(ReadError::Fault(Fault {
                unit: Unit::Head,
                reason: Reason::BareLineEnd,
            }));
        }
        // The first line is the start line, and the others are fields.
        let (first, lines) = cut_first(head);
        let Some(start) = read_start(first) else {
            return Err(ReadError::Fault(Fault {
                unit: Unit::Line(0),
                reason: Reason::StartLine,
            }));
        };
        // The fields that are asked for are kept as they are read.
        let (fields, kept) = read_fields(alloc, lines)?;
        let named = find_named(&fields)?;
        // A Via and a CSeq were found, since `find_named` gives a fault where one is missing.
        let via = kept.via.unwrap();
        let cseq = kept.cseq.unwrap();
        let body = read_body(start, named, &via, cseq, &fields, rest)?;
        Ok(Message::new(
            start,
            fields,
            body,
            via,
            named.from,
            named.to,
            named.call_id,
            cseq,
            true,
        ))
    }

    /// The start line.
    pub fn start(&self) -> StartLine<'a>
        ensures { start_parts result ≡ self.now.message.start }
    {
        self.start
    }

    /// The body.
    pub fn body(&self) -> &'a [u8]
        ensures { result.now ≡ self.now.message.body }
    {
        self.body
    }

    /// The value of Call-ID.
    pub fn call_id(&self) -> &'a [u8]
        ensures { result.now ≡ self.now.parts.call_id }
    {
        self.call_id
    }

    /// The value of From, which is an address.
    pub fn from(&self) -> &'a [u8]
        ensures { result.now ≡ self.now.parts.from }
    {
        self.from
    }

    /// The value of To, which is an address.
    pub fn to(&self) -> &'a [u8]
        ensures { result.now ≡ self.now.parts.to }
    {
        self.to
    }

    /// The number and method of CSeq.
    pub fn cseq(&self) -> CSeq<'a>
        ensures { cseq_parts result ≡ self.now.parts.cseq }
    {
        self.cseq
    }

    /// The first element of the first Via field.
    pub fn top_via(&self) -> Via<'a>
        ensures { element result ≡ self.now.parts.via }
    {
        self.via
    }

    /// The elements of all Via fields, in order.
    pub fn vias(&self) -> Vias<'_, 'a>
        ensures { result ≡ self.now.parts.via ∷ self.now.parts.others }
    {
        Vias::new(&self.fields)
    }
}

impl<'a> Message<'a> {
    ghost use Rattle.sip_message.specs.declared.name.Known.TheVariants as known_name;
    ghost use Rattle.sip_message.specs.Field.{values};
    ghost use Rattle.sip_message.specs.Reads.{Reads};
    ghost use Rattle.sip_standard.specs.Transport.{is_reliable};

    /// The values of the Route fields, in order.
    pub fn routes(&self) -> Routes<'_, 'a>
        ensures { result ≡ values known_name.Route self.now.message.fields }
    {
        Routes::new(&self.fields)
    }

    /// Whether the transport of the top Via is reliable: every transport but UDP (RFC 3261, section 17).
    pub fn is_reliable(&self) -> bool
        ensures { result ≡ is_reliable self.now.parts.via.transport }
    {
        !same_text(self.top_via().transport, b"UDP")
    }

    // The fields, in order.
    pub(crate) fn fields(&self) -> &[Field<'a>]
        ensures { slice_fields result ≡ self.now.message.fields }
    {
        &self.fields
    }

    // Whether a value of the fields may be folded.
    pub(crate) fn may_fold(&self) -> bool
        ensures { result ≡ false → AreUnfolded self.now.message.fields }
    {
        self.may_fold
    }

    /// Does nothing. Its contract tells that some bytes are read as this message.
    pub fn known(&self)
        ensures { (bytes : List ℕ) × Reads bytes self.now }
    {
        // The message is looked at, and nothing is done with it.
        let _ = &self.fields;
    }
}
