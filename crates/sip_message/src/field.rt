//! Field lines.
ghost use Rattle.sip_message.specs.inner.Only.{IsOnlyValue};
ghost use Rattle.std.specs.Prelude.{◌≡◌, ℕ, List, [], ◌∷◌, ◌++◌, drop, MatchOption, IfOk, IfSome};
ghost use Rattle.std.specs.Option.{option_map};
ghost use Rattle.sip_message.specs.Field.{values};
ghost use Rattle.sip_message.specs.inner.Finds.{IsFound, found_parts};
ghost use Rattle.sip_message.specs.inner.Lines.{AreLines};
ghost use Rattle.sip_message.specs.inner.Faults.{HasName, IsValue, FieldOf, FieldsOf};
ghost use Rattle.sip_message.specs.inner.Views.{name_parts, field_parts, fields_parts, slice_fields};
ghost use Rattle.sip_message.specs.inner.Settles.{outcome_of, Settles};
ghost use Rattle.sip_message.specs.inner.Kept.{KeptOf, KeepsMore};
ghost use Rattle.sip_message.specs.inner.Names.{named_parts};
ghost use Rattle.sip_message.specs.inner.Fronts.{text_parts, past_wsp};

use crate::cursor::{cut_line, cut_token, past};
use crate::fault::ReadError;
use crate::kept::Kept;
use crate::name::{Known, Name, read_name};
use crate::row::{is_of_row, trim};
use sip_standard::{Fault, Reason, Unit};
use std::alloc::{AllocError, Global};

/// A field of a message.
#[derive(Clone, Copy, Debug, PartialEq, Eq)]
pub struct Field<'a> {
    /// Its name.
    pub name: Name<'a>,
    /// Its value, as it is spelled.
    pub value: &'a [u8],
}

// The name of the field that the line is, and what follows its colon.
fn cut_name(line: &[u8]) -> Option<(Name<'_>, &[u8])>
    ensures { IsOnlyValue HasName named_parts line.now result }
{
    let (name, rest) = cut_token(line)?;
    let rest = past(past_wsp(rest), b':')?;
    Some((read_name(name), rest))
}

// The text past the SP and HTAB at its front.
fn past_wsp(text: &[u8]) -> &[u8]
    ensures { result.now ≡ past_wsp text.now }
{
    let mut rest = text;
    'blanks: while let [b' ' | b'\t', more @ ..] = rest {
        rest = more;
    }
    rest
}

// The value in what follows the colon, if a field of this name may have it.
fn read_value<'a>(name: Name<'a>, rest: &'a [u8], kept: &mut Kept<'a>) -> Option<&'a [u8]>
    ensures value { IsOnlyValue (λ t v. IsValue (name_parts name.entry, t) v) text_parts rest.entry.now result }
    ensures kept { IfSome result (λ value. KeepsMore (record { name = name_parts name.entry; value = value.now }) kept.old kept.new) }
{
    let value = trim(rest)?;
    if is_of_row(name, value, kept) {
        Some(value)
    } else {
        None
    }
}

// The field that line `n` is, or the fault of the line. What the first Via and the first CSeq say is kept.
fn read_field<'a>(n: usize, line: &'a [u8], kept: &mut Kept<'a>) -> Result<Field<'a>, Fault>
    ensures field { FieldOf n line.entry.now (outcome_of field_parts result) }
    ensures kept { IfOk result (λ f. KeepsMore (field_parts f) kept.old kept.new) }
{
    let Some((name, rest)) = cut_name(line) else {
        return Err(Fault {
            unit: Unit::Line(n),
            reason: Reason::FieldLine,
        });
    };
    let Some(value) = read_value(name, rest, kept) else {
        return Err(Fault {
            unit: Unit::Line(n),
            reason: Reason::Value,
        });
    };
    Ok(Field { name, value })
}

/// How many fields there is room for at first. Most messages have no more.
pub(crate) const ROOM: usize = 16;

/// The fields that the lines of the text are, with what is kept of them, or the first fault of the lines.
pub(crate) fn read_fields(
    alloc: Global,
    text: &[u8],
) -> Result<(Vec<Field<'_>>, Kept<'_>), ReadError>
    ensures fields { (lines : List (List ℕ)) → AreLines text.now lines → Settles (FieldsOf 1 lines) (λ read. fields_parts read.0) result }
    ensures kept { IfOk result (λ read. KeptOf (fields_parts read.0) read.1) }
{
    let mut kept = Kept::new();
    let mut fields = Vec::with_capacity(alloc, ROOM)?;
    let mut rest = text;
    'lines: while let Some((line, more)) = cut_line(rest) {
        let field = read_field(fields.len() + 1, line, &mut kept)?;
        if let Err(e) = fields.push(field) {
            return Err(AllocError::from(e).into());
        }
        rest = more;
    }
    Ok((fields, kept))
}

/// The value of the first field of this name from place `from` on, and the place after it, which is
/// the number of its line.
pub(crate) fn cut_value<'a>(
    fields: &[Field<'a>],
    from: usize,
    name: Known,
) -> Option<(&'a [u8], usize)>
    ensures values { MatchOption result (values name (drop from (slice_fields fields.entry)) ≡ [])
        (λ cut. values name (drop from (slice_fields fields.entry)) ≡ cut.0.now ∷ values name (drop cut.1 (slice_fields fields.entry))) }
    ensures found { IsFound name from (slice_fields fields.entry) (option_map found_parts result) }
{
    let mut at = from;
    while at < fields.len() {
        let field = fields[at];
        at += 1;
        if field.name.is(name) {
            return Some((field.value, at));
        }
    }
    None
}
