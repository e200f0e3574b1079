//! The canonical form of a message, and how it is written.
ghost use Rattle.std.specs.Prelude.{◌≡◌, ◌≤◌, ◌<◌, ◌++◌, ℕ, List, decimal, false, OnOk, OnErr};
ghost use Rattle.std.specs.List.{list_any};
ghost use Rattle.sip_standard.specs.Field.{is_lws_byte};
ghost use Rattle.sip_standard.specs.Canonical.{is_end_byte, unfolded, unfolded_run, start_text};
ghost use Rattle.sip_message.specs.Name.{known};
ghost use Rattle.sip_message.specs.Canon.{IsFormOf};
ghost use Rattle.sip_message.specs.inner.Canon.{front_text, after_end, written_value, written_field, field_text, canon, Appends, HasCode, fields_text};
ghost use Rattle.sip_message.specs.inner.MessageText.{AreUnfolded, message_of};
ghost use Rattle.sip_message.specs.inner.Views.{name_parts, field_parts, slice_fields};
ghost use Rattle.sip_message.specs.ValueParts.{start_parts};

use crate::field::Field;
use crate::message::Message;
use crate::name::{Known, Name};
use crate::start_line::StartLine;
use memchr::memchr2;
use std::alloc::AllocError;

// Appends the start line without its line end.
pub(crate) fn append_start(start: StartLine<'_>, out: &mut Vec<u8>) -> Result<(), AllocError>
    requires { HasCode (start_parts start) }
    ensures { Appends out.old.items out.new.items (start_text (start_parts start.entry)) result }
{
    match start {
        StartLine::Request { method, uri } => {
            append(method, out)?;
            append(b" ", out)?;
            append(uri, out)?;
            append(b" SIP/2.0", out)
        }
        StartLine::Status { code, reason } => {
            append(b"SIP/2.0 ", out)?;
            append(&code_text(code), out)?;
            append(b" ", out)?;
            append(reason, out)
        }
    }
}

// The three digits of a Status-Code.
fn code_text(code: u16) -> [u8; 3]
    requires { (100 ≤ code) × (code < 700) }
    ensures { result ≡ decimal code }
{
    [
        b'0' + (code / 100) as u8,
        b'0' + (code / 10 % 10) as u8,
        b'0' + (code % 10) as u8,
    ]
}

// Appends what stands before the value of a field of this name: the end of the line before it, the name and ": ".
fn append_front(name: Name<'_>, out: &mut Vec<u8>) -> Result<(), AllocError>
    ensures { Appends out.old.items out.new.items (front_text (name_parts name.entry)) result }
{
    match name {
        Name::Known(long) => append(front_of(long), out),
        Name::Other(text) => {
            append(b"\r\n", out)?;
            append(text, out)?;
            append(b": ", out)
        }
    }
}

// What stands before the value of a field of a known name, which is written in its long form.
fn front_of(name: Known) -> &'static [u8]
    ensures { result.now ≡ front_text (known name) }
{
    match name {
        Known::Via => b"\r\nVia: ",
        Known::From => b"\r\nFrom: ",
        Known::To => b"\r\nTo: ",
        Known::CallId => b"\r\nCall-ID: ",
        Known::CSeq => b"\r\nCSeq: ",
        Known::ContentLength => b"\r\nContent-Length: ",
        Known::Contact => b"\r\nContact: ",
        Known::ContentEncoding => b"\r\nContent-Encoding: ",
        Known::ContentType => b"\r\nContent-Type: ",
        Known::Subject => b"\r\nSubject: ",
        Known::Supported => b"\r\nSupported: ",
        Known::Route => b"\r\nRoute: ",
    }
}

// Appends the text, unfolded. Most texts have no line end in them, and are appended as they are.
fn append_unfolded(text: &[u8], out: &mut Vec<u8>) -> Result<(), AllocError>
    ensures { Appends out.old.items out.new.items (unfolded text.now) result }
{
    // A text without CR and LF has no line end to unfold.
    let Some(_) = memchr2(b'\r', b'\n', text) else {
        return append(text, out);
    };
    let mut from = 0;
    // In each turn `from` is where the run of blanks before the byte begins.
    'bytes: for (at, byte) in text.iter().enumerate() {
        if is_blank(*byte) {
            continue;
        }
        append_run(&text[from..at], out)?;
        append(&[*byte], out)?;
        from = at + 1;
    }
    append_run(&text[from..], out)
}

// Appends a run of blanks: one SP if it holds a line end, and else the run as it is.
fn append_run(run: &[u8], out: &mut Vec<u8>) -> Result<(), AllocError>
    ensures { Appends out.old.items out.new.items (unfolded_run run.now) result }
{
    if has_end(run) {
        append(b" ", out)
    } else {
        append(run, out)
    }
}

// Whether the text holds CR or LF.
fn has_end(text: &[u8]) -> bool
    ensures { result ≡ list_any is_end_byte text.now }
{
    text.iter().any(|byte| matches!(*byte, b'\r' | b'\n'))
}

// Whether the byte may stand in a run of blanks: SP, HTAB, CR or LF.
fn is_blank(byte: u8) -> bool
    ensures { result ≡ is_lws_byte byte }
{
    matches!(byte, b' ' | b'\t' | b'\r' | b'\n')
}

// Appends the text as it is.
fn append(text: &[u8], out: &mut Vec<u8>) -> Result<(), AllocError>
    ensures { Appends out.old.items out.new.items text.now result }
{
    out.extend_from_slice(text)
}

// Appends the value, unfolded where it may be folded.
fn append_value(value: &[u8], may_fold: bool, out: &mut Vec<u8>) -> Result<(), AllocError>
    ensures { Appends out.old.items out.new.items (written_value may_fold value.now) result }
{
    if may_fold {
        append_unfolded(value, out)
    } else {
        append(value, out)
    }
}

// Appends the field, after the end of the line before it.
pub(crate) fn append_field(
    field: &Field<'_>,
    may_fold: bool,
    out: &mut Vec<u8>,
) -> Result<(), AllocError>
    ensures { Appends out.old.items out.new.items (after_end (field_text (written_field may_fold (field_parts field.entry.now)))) result }
{
    append_front(field.name, out)?;
    append_value(field.value, may_fold, out)
}

// Appends the fields, each after the end of the line before it.
pub(crate) fn append_fields(
    fields: &[Field<'_>],
    may_fold: bool,
    out: &mut Vec<u8>,
) -> Result<(), AllocError>
    ensures { Appends out.old.items out.new.items (fields_text may_fold (slice_fields fields.entry)) result }
{
    'fields: for field in fields {
        append_field(field, may_fold, out)?;
    }
    Ok(())
}

// Appends the form of a message of these parts.
fn append_all(
    start: StartLine<'_>,
    fields: &[Field<'_>],
    may_fold: bool,
    body: &[u8],
    out: &mut Vec<u8>,
) -> Result<(), AllocError>
    requires code { HasCode (start_parts start) }
    requires no_folds { may_fold ≡ false → AreUnfolded (slice_fields fields) }
    ensures { Appends out.old.items out.new.items (canon (message_of (record { start = start_parts start.entry; fields = slice_fields fields.entry; body = body.now }))) result }
{
    append_start(start, out)?;
    append_fields(fields, may_fold, out)?;
    append(b"\r\n\r\n", out)?;
    append(body, out)
}

/// Appends the canonical form of the message.
pub fn write(m: &Message<'_>, out: &mut Vec<u8>) -> Result<(), AllocError>
    ensures ok { OnOk result ((text : List ℕ) × (out.new.items ≡ out.old.items ++ text) × IsFormOf m.now text) }
    ensures err { OnErr result (out.new.items ≡ out.old.items) }
{
    // Some bytes are read as this message, so its code has three digits.
    m.known();
    let len = out.len();
    if let Err(e) = append_all(m.start(), m.fields(), m.may_fold(), m.body(), out) {
        out.truncate(len);
        return Err(e);
    }
    Ok(())
}
