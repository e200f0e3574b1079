//! The elements of all Via fields, and the values of Route fields, one after another.
ghost use Rattle.std.specs.Prelude.{◌≡◌, ℕ, List, [], drop, MatchOption};
ghost use Rattle.sip_message.specs.declared.name.Known.TheVariants as known_name;
ghost use Rattle.sip_message.specs.inner.Only.{ExactlyOne, the, IsOnly};
ghost use Rattle.sip_text.proofs.texts.OneLaws.{One-prop};
ghost use Rattle.sip_standard.specs.Via.{SaidVia};
ghost use Rattle.sip_standard.specs.Says.{ViasTell};
ghost use Rattle.sip_message.specs.Field.{values};
ghost use Rattle.sip_message.specs.inner.ElementFronts.{AreLeft, NextText};
ghost use Rattle.sip_message.specs.inner.Codes.{elements_code};
ghost use Rattle.sip_message.specs.ValueParts.{element};
ghost use Rattle.sip_message.specs.inner.Views.{slice_fields};

use crate::cursor::past_mark;
use crate::field::{Field, cut_value};
use crate::name::Known;
use crate::via::{Via, read_via};
use std::marker::Model;

/// The elements of all Via fields, in order.
#[derive(Debug, Drop)]
pub struct Vias<'s, 'a> {
    /// The fields of the message.
    fields: &'s [Field<'a>],
    /// The place of the first field that was not looked at yet.
    at: usize,
    /// What is left of the value of the Via field that was looked at last.
    rest: &'a [u8],
    // One list of elements is left from this place on.
    ghost left: { ExactlyOne (AreLeft rest.now (values known_name.Via (drop at (slice_fields fields)))) } by { One-prop elements_code (IsOnly (AreLeft rest.now (values known_name.Via (drop at (slice_fields fields))))) (λ x y p q. q.only x p.is) },
}

impl<'s, 'a> Model for Vias<'s, 'a> {
    // Contracts see this as the list of the elements that are left.
    ghost Value = { List SaidVia };

    // Elements are written as lists and numbers, as `coded` asks: of such values two proofs of one equality are the same, and so there is one proof at most
    // that exactly one list is left.
    ghost coded = { elements_code };

    // The elements that are left are the one list for which `left` stands.
    ghost view = { λ it. the it.left };
}

impl<'s, 'a> Vias<'s, 'a> {
    /// The elements of the Via fields among these.
    pub(crate) fn new(fields: &'s [Field<'a>]) -> Self
        requires { (es : List SaidVia) × IsOnly (ViasTell (values known_name.Via (slice_fields fields))) es }
        ensures { IsOnly (ViasTell (values known_name.Via (slice_fields fields.entry))) result }
    {
        Vias {
            fields,
            at: 0,
            rest: &[],
        }
    }
}

impl<'s, 'a> Iterator for Vias<'s, 'a> {
    ghost use Rattle.std.specs.Iterator.{YieldsFirstBy, item_count};
    ghost use Rattle.sip_message.specs.ValueParts.{element};

    type Item = Via<'a>;

    // A call gives the first element of those that are left, as `element` sees it, and leaves the others.
    ghost next_gives = { YieldsFirstBy element (λ it. it) };

    // No more elements come than are left.
    ghost remaining = { item_count (λ it. it) };

    fn next(&mut self) -> Option<Via<'a>> {
        let (text, at) = next_text(self.fields, self.at, self.rest)?;
        let (via, rest) = read_via(text)?;
        self.at = at;
        self.rest = rest;
        Some(via)
    }
}

// The text at whose front the next element stands, and the place after the field of that text; None where no element is left.
fn next_text<'a>(fields: &[Field<'a>], at: usize, rest: &'a [u8]) -> Option<(&'a [u8], usize)>
    ensures { MatchOption result
        ((es : List SaidVia) → AreLeft rest.entry.now (values known_name.Via (drop at (slice_fields fields.entry))) es → es ≡ [])
        (λ next. (es : List SaidVia) → AreLeft rest.entry.now (values known_name.Via (drop at (slice_fields fields.entry))) es
        → NextText rest.entry.now (values known_name.Via (drop at (slice_fields fields.entry))) next.0.now (values known_name.Via (drop next.1 (slice_fields fields.entry)))) }
{
    match past_mark(rest, b',') {
        Some(text) => Some((text, at)),
        None => cut_value(fields, at, Known::Via),
    }
}

/// The values of the Route fields, in order.
#[derive(Debug, Drop)]
pub struct Routes<'s, 'a> {
    /// The fields of the message.
    fields: &'s [Field<'a>],
    /// The place of the first field that was not looked at yet.
    at: usize,
}

impl<'s, 'a> Model for Routes<'s, 'a> {
    // Contracts see this as the list of the Route values that are left.
    ghost Value = { List (List ℕ) };

    // Left are the values of the fields from the place `at` on.
    ghost view = { λ it. values known_name.Route (drop it.at (slice_fields it.fields)) };
}

impl<'s, 'a> Routes<'s, 'a> {
    /// The values of the Route fields among these.
    pub(crate) fn new(fields: &'s [Field<'a>]) -> Self
        ensures { result ≡ values known_name.Route (slice_fields fields.entry) }
    {
        Routes { fields, at: 0 }
    }
}

impl<'s, 'a> Iterator for Routes<'s, 'a> {
    ghost use Rattle.std.specs.Iterator.{YieldsFirstRef, item_count};

    type Item = &'a [u8];

    // A call gives the first of the values that are left, and leaves the others.
    ghost next_gives = { YieldsFirstRef (λ it. it) };

    // No more values come than are left.
    ghost remaining = { item_count (λ it. it) };

    fn next(&mut self) -> Option<&'a [u8]> {
        let (value, at) = cut_value(self.fields, self.at, Known::Route)?;
        self.at = at;
        Some(value)
    }
}
