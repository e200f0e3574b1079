//! The quick reader of ordinary heads: no line of theirs is folded, and no blank stands before a colon.
//! It finds the ends of lines and of names in masks of the text. What is not ordinary it leaves to the
//! reader of all heads.
ghost use Rattle.std.specs.Prelude.{◌≡◌, ◌+◌, ◌-◌, ◌^◌, ◌≤◌, ◌<◌, ◌++◌, [], not, true, IsTrue, IfOk, IfSome, length, take, drop};
ghost use Rattle.std.specs.List.{prefix_len};
ghost use Rattle.sip_masks.specs.Marks.{is_control};
ghost use Rattle.sip_message.specs.inner.Lines.{with_end};
ghost use Rattle.sip_message.specs.inner.FieldText.{Row, ValueText};
ghost use Rattle.sip_message.specs.inner.Views.{name_parts, fields_parts};
ghost use Rattle.sip_message.specs.ValueParts.{start_parts};
ghost use Rattle.sip_message.specs.inner.Asked.{AskedOf, AsksMore, KeepsVia};
ghost use Rattle.sip_standard.specs.Values.{Address};
ghost use Rattle.sip_message.specs.inner.Plain.{segment, EndsAt};
ghost use Rattle.sip_message.specs.inner.Values.{is_solid};
ghost use Rattle.sip_message.specs.inner.Quick.{IsOpen, AreOrdinary, IsOrdinary, PushesField};

use crate::address::is_address;
use crate::asked::{Asked, keep_once, keep_one};
use crate::field::Field;
use crate::name::{Known, Name, quick_name};
use crate::plain::is_plain_address;
use crate::plain_start::start_up_to;
use crate::plain_values::{cseq_at, is_call_id_at};
use crate::plain_via::plain_via;
use crate::start_line::StartLine;
use crate::values::is_length;
use crate::via::{Via, first_via};
use sip_masks::Masks;
use std::alloc::AllocError;

// How many bytes of a message are looked at, at most: as many as `WORDS` words are enough for.
const LONGEST: usize = 2047;

// How many words each mask of a message takes: 32 for so many bytes, and one more, in which a search ends.
const WORDS: usize = 33;

/// The start line and what follows the head, where the head is an ordinary one. Its fields are put into
/// the vector, and what is asked for is kept in `asked`.
pub(crate) fn read_ordinary<'a>(
    bytes: &'a [u8],
    fields: &mut Vec<Field<'a>>,
    asked: &mut Asked<'a>,
) -> Result<Option<(StartLine<'a>, &'a [u8])>, AllocError>
    requires none { fields.old.items ≡ [] }
    requires asked { AskedOf [] asked.old }
    ensures head { IfOk result (λ found. IfSome found (λ read. IsOrdinary bytes.now (start_parts read.0) (fields_parts fields.new) read.1.now)) }
    ensures asked { IfOk result (λ found. IfSome found (λ _. AskedOf (fields_parts fields.new) asked.new)) }
{
    // The first line ends at the first control, and the fields follow up to the empty line.
    let mut words = [0; 2 * WORDS];
    let (others, controls) = words.split_at_mut(WORDS);
    let masks = Masks::of(front(bytes), others, controls);
    let end = masks.next_control(0);
    if !is_line(&masks, 0, end) {
        return Ok(None);
    }
    let Some(start) = start_up_to(&masks, end) else {
        return Ok(None);
    };
    let Some(at) = ordinary_fields(&masks, end + 2, fields, asked)? else {
        return Ok(None);
    };
    Ok(Some((start, &bytes[at + 2..])))
}

// The front of the bytes that is looked at: it ends before the byte after `LONGEST`, at most.
#[inline]
fn front(bytes: &[u8]) -> &[u8]
    ensures within { length result.now ≤ LONGEST }
    ensures front { result.now ≡ take (length result.now) bytes.now }
{
    if bytes.len() > LONGEST {
        &bytes[..LONGEST]
    } else {
        bytes
    }
}

// The place of the empty line after the field lines from `from` on, where these are ordinary ones. Their
// fields are put into the vector, and what is asked for is kept in `asked`.
#[inline(never)]
fn ordinary_fields<'a>(
    masks: &Masks<'a, '_>,
    from: usize,
    fields: &mut Vec<Field<'a>>,
    asked: &mut Asked<'a>,
) -> Result<Option<usize>, AllocError>
    requires place { from ≤ length masks.now }
    requires none { fields.old.items ≡ [] }
    requires asked { AskedOf [] asked.old }
    ensures lines { IfOk result (λ found. IfSome found (λ at. AreOrdinary masks.now from at (fields_parts fields.new))) }
    ensures asked { IfOk result (λ found. IfSome found (λ _. AskedOf (fields_parts fields.new) asked.new)) }
{
    let mut at = from;
    'lines: loop {
        let end = masks.next_control(at);
        if !is_line(masks, at, end) {
            return Ok(None);
        }
        if end == at {
            return Ok(Some(at));
        }
        if !push_ordinary(masks, at, end, fields, asked)? {
            return Ok(None);
        }
        at = end + 2;
    }
}

// Whether the line at this place ends at `end`, its next control: whether CR and LF stand there.
#[inline(always)]
fn is_line(masks: &Masks<'_, '_>, at: usize, end: usize) -> bool
    requires within { end ≤ length masks.now }
    requires control { end ≡ at + prefix_len (λ b. not (is_control b)) (drop at masks.now) }
    ensures fits { IsTrue result → end + 2 < 2 ^ 64 }
    ensures ends { IsTrue result → EndsAt masks.now end }
    ensures line { IsTrue result → (at ≤ end) × (end + 2 ≤ length masks.now) × IsOpen (take (end - at) (drop at masks.now)) × (drop at masks.now ≡ with_end (take (end - at) (drop at masks.now)) ++ drop (end + 2) masks.now) }
{
    let text = masks.text();
    let left = text.len() - end;
    if left < 2 {
        return false;
    }
    if text[end] != b'\r' || text[end + 1] != b'\n' {
        return false;
    }
    true
}

// Puts the field that the line from `at` up to `end` is after the others, if its name is plain and its colon stands
// right after the name. What it says is kept if it is asked for. Answers whether that was done.
#[inline]
fn push_ordinary<'a>(
    masks: &Masks<'a, '_>,
    at: usize,
    end: usize,
    fields: &mut Vec<Field<'a>>,
    asked: &mut Asked<'a>,
) -> Result<bool, AllocError>
    requires within { (at ≤ end) × EndsAt masks.now end }
    requires clear { IsOpen (take (end - at) (drop at masks.now)) }
    ensures { IfOk result (λ is. IsTrue is → PushesField (take (end - at) (drop at masks.now)) (fields_parts fields.old) (fields_parts fields.new) asked.old asked.new) }
{
    let text = masks.text();
    // The name has `len` bytes and ends at a colon. The value begins at `from`.
    let len = masks.run_at(at);
    if len == 0 || text[at + len] != b':' {
        return Ok(false);
    }
    let Some(from) = value_place(text, at + len + 1, end) else {
        return Ok(false);
    };
    let name = quick_name(&text[at..], len);
    if !is_value_at(masks, from, end, name, asked) {
        return Ok(false);
    }
    let value = &text[from..end];
    if let Err(e) = fields.push(Field { name, value }) {
        return Err(AllocError::from(e));
    }
    Ok(true)
}

// The place where the value between two places begins, if at most one SP stands before it, and it neither begins nor
// ends with a blank.
#[inline(always)]
fn value_place(text: &[u8], at: usize, end: usize) -> Option<usize>
    requires { (at ≤ end) × EndsAt text.now end }
    ensures within { IfSome result (λ from. (at ≤ from) × (from ≤ end)) }
    ensures value { IfSome result (λ from. ValueText (segment at end text.now) (segment from end text.now)) }
{
    if text[at] == b' ' && is_solid_at(text, at + 1, end) {
        return Some(at + 1);
    }
    if is_solid_at(text, at, end) {
        Some(at)
    } else {
        None
    }
}

// Whether the bytes between two places neither begin nor end with SP or with a byte below it. Where there are none, the CR at
// `end` is looked at, which is such a byte.
#[inline(always)]
fn is_solid_at(text: &[u8], at: usize, end: usize) -> bool
    requires { (at ≤ end) × EndsAt text.now end }
    ensures { IsTrue result → is_solid (segment at end text.now) ≡ true }
{
    if text[at] <= b' ' || text[end - 1] <= b' ' {
        return false;
    }
    true
}

// Whether a field of this name may have the value between two places, in which no control stands. What
// it says is kept if it is asked for. A second field of a name that stands at most once is refused.
#[inline]
fn is_value_at<'a>(
    masks: &Masks<'a, '_>,
    at: usize,
    end: usize,
    name: Name<'a>,
    asked: &mut Asked<'a>,
) -> bool
    requires within { (at ≤ end) × EndsAt masks.now end }
    requires clear { IsOpen (segment at end masks.now) }
    ensures row { IsTrue result → Row (name_parts name.entry) (segment at end masks.now) }
    ensures asked { IsTrue result → AsksMore (record { name = name_parts name.entry; value = segment at end masks.now }) asked.old asked.new }
{
    // The value of a field of which the reader asks more is kept. Any other field may have any value.
    let value = &masks.text()[at..end];
    match name {
        Name::Known(Known::Via) => keep_via(masks, at, end, &mut asked.via),
        Name::Known(Known::From) => {
            keep_once(is_address_at(masks, at, end), value, &mut asked.from)
        }
        Name::Known(Known::To) => keep_once(is_address_at(masks, at, end), value, &mut asked.to),
        Name::Known(Known::CallId) => {
            keep_once(is_call_id_at(masks, at, end), value, &mut asked.call_id)
        }
        Name::Known(Known::CSeq) => keep_one(cseq_at(masks, at, end), &mut asked.cseq),
        Name::Known(Known::ContentLength) => {
            keep_once(is_length(value), value, &mut asked.content_length)
        }
        _ => true,
    }
}

// Keeps the first element of Via between two places, if elements stand there and none is kept yet.
// Answers whether elements stand there.
#[inline(never)]
fn keep_via<'a>(masks: &Masks<'a, '_>, at: usize, end: usize, kept: &mut Option<Via<'a>>) -> bool
    requires { (at ≤ end) × EndsAt masks.now end }
    ensures { KeepsVia (segment at end masks.now) result kept.old kept.new }
{
    if kept.is_none() {
        if let Some(via) = plain_via(masks, at, end) {
            *kept = Some(via);
            return true;
        }
    }
    keep_any_via(&masks.text()[at..end], kept)
}

// Keeps the first element of Via of a text, if the text is elements and none is kept yet. Answers whether it is elements. It is seldom
// called, and is a call so that `keep_via` clears no place for what it reads.
#[inline(never)]
fn keep_any_via<'a>(text: &'a [u8], kept: &mut Option<Via<'a>>) -> bool
    ensures { KeepsVia text.entry.now result kept.old kept.new }
{
    if kept.is_some() {
        return first_via(text).is_some();
    }
    *kept = first_via(text);
    kept.is_some()
}

// Whether an address stands between two places.
fn is_address_at(masks: &Masks<'_, '_>, at: usize, end: usize) -> bool
    requires { (at ≤ end) × EndsAt masks.now end }
    ensures { IsTrue result → Address (segment at end masks.now) }
{
    is_plain_address(masks, at, end) || is_address(&masks.text()[at..end])
}
